// Why a call is refused.
ghost use Rattle.std.specs.Prelude.{◌≡◌};
ghost use Rattle.store.specs.Refusals.{number_of, address_of};

use std::error::Error;
use std::fmt;

/// Why a call was refused. Each case has its number.
#[derive(Clone, Copy, PartialEq, Eq, Debug)]
pub enum Refusal {
    /// 1: the store is down.
    Down,
    /// 2: the device does not have a multiple of 32 blocks, from 32 to 2,048.
    Size,
    /// 3: more is lost than can be rebuilt. The address is that of an unreadable map.
    TooMuchLost(u16),
    /// 4: the block at this address is ill formed.
    IllFormed(u16),
    /// 5: the block at this address is claimed twice.
    DoubleClaim(u16),
    /// 6: no index would remain at block 1.
    NoRootIndex,
    /// 7: there is no such object.
    NoSuchObject,
    /// 8: the object is of the wrong kind.
    WrongKind,
    /// 9: a number is out of range.
    Range,
    /// 10: a transaction is open, or waits to be settled.
    Busy,
    /// 11: there is no such transaction.
    NoSuchTransaction,
    /// 12: no block or root place is free.
    Full,
    /// 13: the block at this address cannot be read.
    Unreadable(u16),
    /// 14: the work list is full.
    WorkListFull,
    /// 15: the tag is 0.
    TagZero,
}

impl Refusal {
    /// The number of the refusal.
    // By name, since `u8::from` would not say what the number is.
    pub fn number(self) -> u8
        ensures { result ≡ number_of self }
    {
        match self {
            Refusal::Down => 1,
            Refusal::Size => 2,
            Refusal::TooMuchLost(_) => 3,
            Refusal::IllFormed(_) => 4,
            Refusal::DoubleClaim(_) => 5,
            Refusal::NoRootIndex => 6,
            Refusal::NoSuchObject => 7,
            Refusal::WrongKind => 8,
            Refusal::Range => 9,
            Refusal::Busy => 10,
            Refusal::NoSuchTransaction => 11,
            Refusal::Full => 12,
            Refusal::Unreadable(_) => 13,
            Refusal::WorkListFull => 14,
            Refusal::TagZero => 15,
        }
    }

    /// The address that the refusal carries, if it carries one.
    pub fn address(self) -> Option<u16>
        ensures { result ≡ address_of self }
    {
        match self {
            Refusal::TooMuchLost(a)
            | Refusal::IllFormed(a)
            | Refusal::DoubleClaim(a)
            | Refusal::Unreadable(a) => Some(a),
            _ => None,
        }
    }

    // What happened, and what to do about it.
    fn words(self) -> &'static str {
        match self {
            Refusal::Down => "the store is down: format its device",
            Refusal::Size => "a volume has a multiple of 32 blocks, 32 to 2048: take such a device",
            Refusal::TooMuchLost(_) =>
                "too much is lost, with this map: format, or put back a copy",
            Refusal::IllFormed(_) => "the block is ill formed: format, or put back a copy",
            Refusal::DoubleClaim(_) => "the block is claimed twice: format, or put back a copy",
            Refusal::NoRootIndex => "no index would remain at block 1: leave the root index",
            Refusal::NoSuchObject => "there is no such object: name one that create answered",
            Refusal::WrongKind => "the kind is wrong: name an index for entries, a file for words",
            Refusal::Range =>
                "a number is out of range: take 64 positions of 256 words, 4096 entries, kinds 1 to 3",
            Refusal::Busy => "a transaction is open, or waits: settle or abandon it first",
            Refusal::NoSuchTransaction => "there is no such transaction: begin one on the object",
            Refusal::Full =>
                "no block or root place is free: clear positions, or take a larger device",
            Refusal::Unreadable(_) =>
                "the block cannot be read: stage all 256 words of its position",
            Refusal::WorkListFull => "the work list is full: give it more room",
            Refusal::TagZero => "the tag is 0: take another one",
        }
    }
}

impl fmt::Display for Refusal {
    fn fmt<W: fmt::Write>(&self, f: &mut fmt::Formatter<W>) -> fmt::Result {
        let number = self.number();
        let words = self.words();
        match self.address() {
            Some(a) => write!(f, "refused {number} at block {a}: {words}"),
            None => write!(f, "refused {number}: {words}"),
        }
    }
}

impl Error for Refusal {}
