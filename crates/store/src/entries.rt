// The numbers of index entries.
ghost use Rattle.std.specs.Prelude.{◌≡◌, ℕ, ◌<◌, ◌≤◌, MatchResult};
ghost use Rattle.object.specs.Indexes.{index_position};
ghost use Rattle.store.specs.declared.refusals.Refusal.TheVariants as refusals;

use crate::refusals::Refusal;
use object::index_place;
use std::marker::Model;

// The number of an entry of an index: at most 4,095.
#[derive(Clone, Copy, PartialEq, Eq, Debug)]
pub(crate) struct EntryNumber {
    number: u16,
}

impl Model for EntryNumber {
    ghost Value = { ℕ };

    ghost view = { λ e. e.number };

    ghost invariant = { λ e. e.number < 4096 };

    ghost inverse = { λ n. record { number = n } };
}

impl TryFrom<u64> for EntryNumber {
    type Error = Refusal;

    ghost try_from_gives = { λ n r. MatchResult r (λ e. (e ≡ n) × (n < 4096)) (λ why. (why ≡ refusals.Range) × (4096 ≤ n)) };

    fn try_from(number: u64) -> Result<EntryNumber, Refusal> {
        if number < 4096 {
            let number = number as u16;
            Ok(EntryNumber { number })
        } else {
            Err(Refusal::Range)
        }
    }
}

impl EntryNumber {
    pub(crate) fn number(self) -> u16
        ensures { result ≡ self }
    {
        self.number
    }

    // The position that has the entry.
    pub(crate) fn position(self) -> usize
        ensures value { result ≡ index_position self }
        ensures within { result < 64 }
    {
        let (p, _) = index_place(self.number);
        p
    }
}
