// Beginning and ending a transaction.
ghost use Rattle.std.specs.Prelude.{◌≡◌, length};
ghost use Rattle.journal.specs.Carried.{CarriesAll};
ghost use Rattle.map.specs.Identifiers.{identified};
ghost use Rattle.store.specs.Decisions.{Obeys, StoresAll};
ghost use Rattle.store.specs.Transactions.{rows_plan, begin_rule, abandon_rule, clear_rule, commit_rule, settle_rule};

use crate::attachment::no_rows;
use crate::name::Name;
use crate::phase::{Asked, Phase};
use crate::refusals::Refusal;
use crate::stores::{Store, or_down};
use crate::tickets::{OpenTicket, WaitingTicket};
use device::{Device, PowerCut};
use journal::{Row, commit, finish, new_addresses};
use map::{Identifier, Kind};
use object::Root;

impl Name {
    /// The identifier that the numbers are, if they are one.
    pub fn identifier(self) -> Option<Identifier>
        ensures { result ≡ identified self.tag self.root }
    {
        let tag = u32::try_from(self.tag).ok()?;
        let root = u32::try_from(self.root).ok()?;
        Identifier::new(tag, root)
    }
}

// The commit of a transaction on an object: its rows are carried out.
pub(crate) fn commit_rows<D: Device>(
    device: &mut D,
    object: &Root,
    rows: &[Row; 64],
) -> Result<u32, PowerCut>
    ensures { CarriesAll D.Device device.old (rows_plan object.now rows.now) result device.new }
{
    let root = Root {
        blocks: new_addresses(rows, &object.blocks),
        ..*object
    };
    commit(device, &root, rows)
}

impl<D: Device> Store<D> {
    /// Opens a transaction on a file.
    pub fn begin(&mut self, name: Name) -> Result<OpenTicket, Refusal>
        ensures { Obeys D.Device (begin_rule name) self.old result self.new }
    {
        self.phase.admit(Asked::Idle)?;
        let object = self.object(name)?;
        if object.kind == Kind::Index {
            return Err(Refusal::WrongKind);
        }
        self.phase = Phase::Open(object.id);
        Ok(OpenTicket { id: object.id })
    }

    /// Ends an open transaction; nothing of it is kept.
    pub fn abandon(&mut self, ticket: OpenTicket) -> Result<(), Refusal>
        ensures { Obeys D.Device (abandon_rule ticket) self.old result self.new }
    {
        let OpenTicket { id } = ticket;
        self.phase.admit(Asked::Open(id))?;
        self.phase = Phase::Idle;
        self.table = no_rows();
        Ok(())
    }

    /// Clears a position of an open transaction: it is to have no block.
    pub fn clear(&mut self, ticket: &OpenTicket, position: u64) -> Result<(), Refusal>
        ensures { Obeys D.Device (clear_rule ticket.now position) self.old result self.new }
    {
        self.phase.admit(Asked::Open(ticket.id))?;
        if position >= 64 {
            return Err(Refusal::Range);
        }
        let p = position as usize;
        let object = self.held(ticket.id)?;
        self.table.rows[p].clear(object.blocks[p] != 0);
        Ok(())
    }

    // The stores of a commit, counted. Where power fails, the store is down.
    fn store_rows(&mut self, object: &Root) -> Result<u32, Refusal>
        ensures { StoresAll D.Device (rows_plan object.now self.old.table.rows) (length (rows_plan object.now self.old.table.rows (D.blocks self.old.device))) self.old result self.new }
    {
        let committed = commit_rows(&mut self.device, object, &self.table.rows);
        or_down(&mut self.phase, committed)
    }

    /// Commits an open transaction: stores its intentions, the root block and the commit bit. The
    /// answer has the ticket to settle it with, and how many stores that took.
    pub fn commit(&mut self, ticket: OpenTicket) -> Result<(WaitingTicket, u32), Refusal>
        ensures { Obeys D.Device (commit_rule ticket) self.old result self.new }
    {
        let OpenTicket { id } = ticket;
        self.phase.admit(Asked::Open(id))?;
        let object = self.held(id)?;
        let stores = self.store_rows(&object)?;
        self.phase = Phase::Waiting(id);
        Ok((WaitingTicket { id }, stores))
    }

    /// Settles a committed transaction: stores the maps with its intentions carried out, and then the
    /// map without the commit bit. The answer is how many stores that took.
    #[tactic(auto, using(crate::proofs::Steadiness::carried_ready))]
    pub fn settle(&mut self, ticket: WaitingTicket) -> Result<u32, Refusal>
        ensures { Obeys D.Device (settle_rule ticket) self.old result self.new }
    {
        let WaitingTicket { id } = ticket;
        self.phase.admit(Asked::Waiting(id))?;
        let finished = finish(&mut self.device);
        let stores = or_down(&mut self.phase, finished)?;
        self.phase = Phase::Idle;
        self.table = no_rows();
        Ok(stores)
    }
}
