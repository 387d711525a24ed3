// Calls as data, and what they answer.
use crate::name::Name;
use crate::refusals::Refusal;
use map::Identifier;

/// A call as data. A ticket is named by the numbers of its object.
#[derive(Drop)]
pub enum Call {
    Format {
        tag: u32,
    },
    Create {
        index: Name,
        entry: u64,
        kind: u64,
        tag: u32,
    },
    Preserve {
        index: Name,
        entry: u64,
        object: Name,
    },
    Delete {
        index: Name,
        entry: u64,
    },
    Retrieve {
        index: Name,
        entry: u64,
    },
    Read {
        object: Name,
        offset: u64,
        length: u64,
    },
    Begin {
        object: Name,
    },
    Stage {
        ticket: Name,
        position: u64,
        first: u64,
        words: Vec<u16>,
    },
    Clear {
        ticket: Name,
        position: u64,
    },
    Commit {
        ticket: Name,
    },
    Settle {
        ticket: Name,
    },
    Abandon {
        ticket: Name,
    },
}

/// What a call answers.
#[derive(Drop)]
pub enum Answer {
    /// It was done.
    Done,
    /// An identifier: of the root index, or of a new object.
    Named(Identifier),
    /// How many stores it took.
    Counted(u32),
    /// What an entry of an index holds.
    Found(Option<Identifier>),
    /// The words that were read.
    Shown(Vec<u16>),
    /// It was refused.
    Refused(Refusal),
}
