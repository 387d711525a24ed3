// Choosing a free block or a free root place: one order of cylinders for both.
#![tactic(auto)]

mod laws;
mod search;
mod wanted;

pub use laws::chosen_address_will_do;
pub use search::choose;
pub use wanted::{FreeBlock, FreeRoot, Wanted};
