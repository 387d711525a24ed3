// Root blocks, words and index entries: what the bytes of an object's blocks say, and back.
#![tactic(auto)]

mod bytes;
mod codec;
mod index;
mod root;
mod words;

pub use codec::roots_return;
pub use index::{index_entries_return, index_entry, index_place, set_index_entry};
pub use root::{Root, RootBlock};
pub use words::{block_of_words, replace_words, words_of_block, words_return};
