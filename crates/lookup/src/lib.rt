// Finding objects, reading what they hold, and the blocks that a staged write makes.
#![tactic(auto)]

mod finding;
mod stage;
mod words;

pub use finding::{find, held, no_blocks};
pub use stage::{entered_block, staged_block, staged_words_return};
pub use words::{position_bytes, position_words, read_words};
