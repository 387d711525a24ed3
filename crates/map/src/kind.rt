// The kinds of objects, and the number that stands for each.
ghost use Rattle.std.specs.Prelude.{◌≡◌, ok_or};
ghost use Rattle.map.specs.Entries.{kind_number, kind_of};

use std::error::Error;
use std::fmt;

/// What an object is.
#[derive(Clone, Copy, PartialEq, Eq, Debug)]
pub enum Kind {
    /// A file whose blocks may be overwritten in place.
    Normal = 1,
    /// A file that changes only by transactions.
    Special = 2,
    /// A table of identifiers.
    Index = 3,
}

/// A number that stands for no kind.
#[derive(Clone, Copy, PartialEq, Eq, Debug)]
pub struct NoKind(pub u8);

impl From<Kind> for u8 {
    ghost from_gives = { λ kind n. n ≡ kind_number kind };

    fn from(kind: Kind) -> u8 {
        kind as u8
    }
}

impl TryFrom<u8> for Kind {
    type Error = NoKind;

    ghost try_from_gives = { λ n r. r ≡ ok_or (kind_of n) (record { 0 = n }) };

    fn try_from(n: u8) -> Result<Kind, NoKind> {
        match n {
            1 => Ok(Kind::Normal),
            2 => Ok(Kind::Special),
            3 => Ok(Kind::Index),
            _ => Err(NoKind(n)),
        }
    }
}

impl fmt::Display for NoKind {
    fn fmt<W: fmt::Write>(&self, f: &mut fmt::Formatter<W>) -> fmt::Result {
        write!(f, "no kind has number {}", self.0)
    }
}

impl Error for NoKind {}
