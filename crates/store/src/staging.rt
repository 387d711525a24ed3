// Staging words in an open transaction.
ghost use Rattle.std.specs.Prelude.{◌≡◌};
ghost use Rattle.store.specs.Model.{Looks};
ghost use Rattle.store.specs.Staging.{block_of, no_words, kept_words, own_target, start_of, target, prepared, Stages, stage_rule};
ghost use Rattle.object.specs.Words.{bytes_of, replaced};
ghost use Rattle.store.specs.Decisions.{Obeys};

use crate::phase::Asked;
use crate::refusals::Refusal;
use crate::runs::Run;
use crate::stores::{Store, or_down};
use crate::tickets::OpenTicket;
use allocation::{FreeBlock, choose};
use device::{Device, put};
use journal::Row;
use lookup::{position_words, staged_block};
use map::Kind;
use object::Root;

/// Where a staged write goes.
#[derive(Clone, Copy, PartialEq, Eq, Debug)]
pub enum Target {
    /// To a block that the position has already.
    Own(u16),
    /// To a free block, which the row is to hold.
    Fresh(u16),
}

impl Target {
    // The block that is written.
    fn block(self) -> u16
        ensures { result ≡ block_of self }
    {
        match self {
            Target::Own(block) | Target::Fresh(block) => block,
        }
    }
}

// The block that is overwritten, if one is.
fn own_target(kind: Kind, row: Row, old: u16) -> Option<u16>
    ensures { result ≡ own_target kind row old }
{
    match (row, kind) {
        (Row::New(block), _) => Some(block),
        (Row::Untouched, Kind::Normal) => (old != 0).then_some(old),
        _ => None,
    }
}

// The cylinder from which a free block is looked for.
pub(crate) fn start_of(object: &Root, old: u16) -> u32
    ensures { result ≡ start_of object.now old }
{
    let replaced = if old == 0 {
        object.id.root()
    } else {
        u32::from(old)
    };
    replaced / 32
}

// 256 zeros.
#[tactic(auto, unfolding(crate::specs::Staging::no_words))]
fn no_words() -> [u16; 256]
    ensures { result ≡ no_words }
{
    [0; 256]
}

// The bytes of a position's words with those of a run in the place of as many.
fn staged_bytes(kept: &[u16; 256], run: Run) -> [u8; 512]
    ensures { result ≡ bytes_of (replaced kept.now run.entry.first run.entry.words.now) }
{
    staged_block(kept, run.first, run.words).unwrap()
}

impl<D: Device> Store<D> {
    // Where a run goes.
    fn target(&mut self, object: &Root, run: Run) -> Result<Target, Refusal>
        ensures { Looks D.Device (λ all. target all self.old.table.rows object.now run.entry.position) self.old result self.new }
    {
        let old = object.blocks[run.position];
        if let Some(block) = own_target(object.kind, self.table.rows[run.position], old) {
            return Ok(Target::Own(block));
        }
        let wanted = FreeBlock {
            rows: self.table.rows,
        };
        let chosen = choose(&self.device, &wanted, start_of(object, old));
        let free = or_down(&mut self.phase, chosen)?;
        free.map(Target::Fresh).ok_or(Refusal::Full)
    }

    // The words that a write starts from: those of the position's block, unless it replaces all.
    // A flag beside the block, as the rule tells it: a block that is not read is still named.
    fn kept_words(&mut self, is_full: bool, block: u16) -> Result<[u16; 256], Refusal>
        ensures { Looks D.Device (λ all. kept_words all is_full block) self.old result self.new }
    {
        if is_full {
            return Ok(no_words());
        }
        let words = position_words(&self.device, block);
        or_down(&mut self.phase, words)?.ok_or(Refusal::Unreadable(block))
    }

    // The target of a run, and the bytes that go there.
    fn prepare(&mut self, object: &Root, run: Run) -> Result<(Target, [u8; 512]), Refusal>
        ensures { Looks D.Device (λ all. prepared all self.old.table.rows object.now run.entry.position run.entry.first run.entry.words.now) self.old result self.new }
    {
        let block = self.table.rows[run.position].address(object.blocks[run.position]);
        let kept = self.kept_words(run.words.len() == 256, block)?;
        let target = self.target(object, run)?;
        Ok((target, staged_bytes(&kept, run)))
    }

    // Stores a block at its target, and lends the row to hold it if it is a fresh one.
    fn put_staged(&mut self, run: Run, target: Target, bytes: &[u8; 512]) -> Result<(), Refusal>
        ensures { Stages D.Device run.entry.position target bytes.now self.old result self.new }
    {
        let stored = put(&mut self.device, usize::from(target.block()), bytes);
        or_down(&mut self.phase, stored)?;
        if let Target::Fresh(block) = target {
            self.table.rows[run.position].renew(block);
        }
        Ok(())
    }

    /// Stages words at a position of an open transaction, from word `first` of the position on. The
    /// position's other words are as before.
    pub fn stage(
        &mut self,
        ticket: &OpenTicket,
        position: u64,
        first: u64,
        words: &[u16],
    ) -> Result<(), Refusal>
        ensures { Obeys D.Device (stage_rule ticket.now position first words.now) self.old result self.new }
    {
        self.phase.admit(Asked::Open(ticket.id))?;
        let run = Run::new(position, first, words)?;
        let object = self.held(ticket.id)?;
        let (target, bytes) = self.prepare(&object, run)?;
        self.put_staged(run, target, &bytes)
    }
}
