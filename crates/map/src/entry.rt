// What a cylinder map says of one sector, and the number that stands for each state.
ghost use Rattle.std.specs.Prelude.{◌≡◌, false, ok_or};
ghost use Rattle.map.specs.declared.entry.Entry.TheVariants.{Root};
ghost use Rattle.map.specs.declared.entry.RootState.TheVariants as root_state;
ghost use Rattle.map.specs.Entries.{root_state_number, data_state_number, root_state_of, data_state_of};

use crate::identifier::Identifier;
use crate::kind::Kind;
use std::error::Error;
use std::fmt;

/// The state of a root place that an object holds.
#[derive(Clone, Copy, PartialEq, Eq, Debug)]
pub enum RootState {
    Allocated = 1,
    IntendingToDeallocate = 3,
}

/// The state of a data block that an object holds.
#[derive(Clone, Copy, PartialEq, Eq, Debug)]
pub enum DataState {
    Allocated = 1,
    IntendingToAllocate = 2,
    IntendingToDeallocate = 3,
}

/// A number that stands for no state.
#[derive(Clone, Copy, PartialEq, Eq, Debug)]
pub struct NoState(pub u8);

/// The entry of one sector.
#[derive(Clone, Copy, PartialEq, Eq, Debug)]
pub enum Entry {
    /// Sector 0: the map itself.
    Map,
    /// 0: deallocated.
    Free,
    /// A root place, held by the object of this tag.
    Root {
        state: RootState,
        kind: Kind,
        commit: bool,
        tag: u32,
    },
    /// A data block, held by its owner for this position.
    Data {
        state: DataState,
        position: u8,
        owner: Identifier,
    },
}

impl Entry {
    /// The entry of an object's root place, allocated and without the commit bit.
    pub fn of_root(kind: Kind, tag: u32) -> Entry
        ensures { result ≡ Root root_state.Allocated kind false tag }
    {
        Entry::Root {
            state: RootState::Allocated,
            kind,
            commit: false,
            tag,
        }
    }
}

impl From<RootState> for u8 {
    ghost from_gives = { λ state n. n ≡ root_state_number state };

    fn from(state: RootState) -> u8 {
        state as u8
    }
}

impl TryFrom<u8> for RootState {
    type Error = NoState;

    ghost try_from_gives = { λ n r. r ≡ ok_or (root_state_of n) (record { 0 = n }) };

    fn try_from(n: u8) -> Result<RootState, NoState> {
        match n {
            1 => Ok(RootState::Allocated),
            3 => Ok(RootState::IntendingToDeallocate),
            _ => Err(NoState(n)),
        }
    }
}

impl From<DataState> for u8 {
    ghost from_gives = { λ state n. n ≡ data_state_number state };

    fn from(state: DataState) -> u8 {
        state as u8
    }
}

impl TryFrom<u8> for DataState {
    type Error = NoState;

    ghost try_from_gives = { λ n r. r ≡ ok_or (data_state_of n) (record { 0 = n }) };

    fn try_from(n: u8) -> Result<DataState, NoState> {
        match n {
            1 => Ok(DataState::Allocated),
            2 => Ok(DataState::IntendingToAllocate),
            3 => Ok(DataState::IntendingToDeallocate),
            _ => Err(NoState(n)),
        }
    }
}

impl fmt::Display for NoState {
    fn fmt<W: fmt::Write>(&self, f: &mut fmt::Formatter<W>) -> fmt::Result {
        write!(f, "no state has number {}", self.0)
    }
}

impl Error for NoState {}
