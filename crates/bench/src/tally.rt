// Counts how replays end, and keeps those that end with neither job whole.
use device::Cut;
use saving::Outcome;
use std::alloc::{AllocError, Global};

/// A replay that left neither the old job nor the new one whole.
#[derive(Drop)]
pub struct Fault {
    pub first: Cut,
    pub second: Option<Cut>,
    pub outcome: Outcome,
}

#[derive(Drop)]
pub struct Tally {
    pub runs: u32,
    pub old: u32,
    pub new: u32,
    pub faults: Vec<Fault>,
}

impl Tally {
    pub(crate) fn new(heap: Global) -> Tally {
        Tally {
            runs: 0,
            old: 0,
            new: 0,
            faults: Vec::new(heap),
        }
    }

    pub(crate) fn note(
        &mut self,
        first: Cut,
        second: Option<Cut>,
        outcome: Outcome,
    ) -> Result<(), AllocError> {
        self.runs = self.runs.saturating_add(1);
        match outcome {
            Outcome::Old => self.old = self.old.saturating_add(1),
            Outcome::New => self.new = self.new.saturating_add(1),
            _ => self.faults.push(Fault {
                first,
                second,
                outcome,
            })?,
        }
        Ok(())
    }
}
