// How a replay ends.
use std::fmt;

/// What stands in the job's place when a replay has ended.
#[derive(Clone, Copy, PartialEq, Eq, Debug)]
pub enum Outcome {
    /// Every part is the old job's.
    Old,
    /// Every part is the new job's.
    New,
    /// Every part can be read, but the job is neither the old one nor the new one.
    Mixed,
    /// A part cannot be read.
    PartUnreadable,
    /// The marker cannot be read, so the procedure cannot tell whether to copy.
    MarkerUnreadable,
    /// Power failed in every recovery that was tried.
    Unfinished,
    /// The drive has fewer than 17 blocks. Nothing was stored.
    TooSmall,
}

impl fmt::Display for Outcome {
    fn fmt<W: fmt::Write>(&self, f: &mut fmt::Formatter<W>) -> fmt::Result {
        f.pad(match self {
            Outcome::Old => "the whole old job",
            Outcome::New => "the whole new job",
            Outcome::Mixed => "a mixed job",
            Outcome::PartUnreadable => "a part cannot be read",
            Outcome::MarkerUnreadable => "the marker cannot be read",
            Outcome::Unfinished => "power failed in every recovery",
            Outcome::TooSmall => "the drive is too small",
        })
    }
}

/// What came of one replay.
#[derive(Clone, Copy, PartialEq, Eq, Debug)]
pub struct Report {
    /// Whether the save itself ran to its end, with no cut.
    pub saved: bool,
    /// How many recoveries were cut.
    pub cuts: u32,
    /// What stands in the job's place.
    pub outcome: Outcome,
}
