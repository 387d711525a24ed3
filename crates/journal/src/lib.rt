// Carrying out a transaction's stores on a device: passes over the maps, intentions, the root block, the commit
// bit, and the tail that settles and clears.
#![tactic(auto)]

mod blocks;
mod committing;
mod finishing;
mod mark;
mod passes;
mod row;
mod rows;

pub use blocks::{cylinders, load, load_map, load_root};
pub use committing::{CommitBit, NewRoot, commit, create};
pub use finishing::{Clearing, Settling, finish, root_entries};
pub use mark::Marking;
pub use passes::{MapRule, pass};
pub use row::Row;
pub use rows::{new_addresses, position_of, row_of};
