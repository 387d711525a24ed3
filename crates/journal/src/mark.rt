// Marking the intentions of a transaction in the maps.
ghost use Rattle.std.specs.Prelude.{◌≡◌, ◌*◌, if◌then◌else◌, Some, None};
ghost use Rattle.journal.specs.Marking.{gives_up, intends, intended, mark_rule};
ghost use Rattle.journal.specs.Rules.{each_at, any_at};

use crate::passes::MapRule;
use crate::row::Row;
use crate::rows::{position_of, row_of};
use map::{Entry, Identifier, join};
use volume::{allocate, deallocate};

/// The intentions of a transaction on one object.
#[derive(Clone, Copy)]
pub struct Marking {
    pub owner: Identifier,
    pub rows: [Row; 64],
}

impl Marking {
    // Whether an allocated block of `held` at a position is given up.
    fn gives_up(&self, position: u8, held: Identifier) -> bool
        ensures { result ≡ gives_up self.now.owner self.now.rows position held }
    {
        held == self.owner && row_of(&self.rows, position).is_touched()
    }

    // The entry of a block with the intention that the rows give it, if they give it one.
    fn mark_entry(&self, a: u16, entry: Entry) -> Option<Entry>
        ensures { result ≡ (if intends self.now.owner self.now.rows a entry then Some (intended self.now.owner self.now.rows a entry) else None) }
    {
        match entry {
            Entry::Free => allocate(entry, position_of(&self.rows, a)?, self.owner),
            Entry::Data {
                position,
                owner,
                ..
            } if self.gives_up(position, owner) => deallocate(entry),
            _ => None,
        }
    }

    // Marks the intentions in a cylinder's map. The answer is whether there were any.
    fn mark_map(&self, cylinder: u8, entries: &mut [Entry; 32]) -> bool
        ensures value { result ≡ any_at (intends self.now.owner self.now.rows) (32 * cylinder) entries.old }
        ensures after { entries.new ≡ each_at (intended self.now.owner self.now.rows) (32 * cylinder) entries.old }
    {
        let mut any = false;
        for (s, entry) in entries.iter_mut().enumerate() {
            if let Some(marked) = self.mark_entry(join(cylinder, s as u8), *entry) {
                *entry = marked;
                any = true;
            }
        }
        any
    }
}

impl MapRule for Marking {
    ghost rule = { λ s. mark_rule s.owner s.rows };

    fn changed(&self, cylinder: u8, entries: &[Entry; 32]) -> Option<[Entry; 32]> {
        let mut marked = *entries;
        self.mark_map(cylinder, &mut marked).then_some(marked)
    }
}
