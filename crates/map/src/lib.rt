// Addresses, identifiers and cylinder maps: what the bytes of a map say, and back.
#![tactic(auto)]

mod address;
mod codec;
mod cylinder;
mod entry;
mod examples;
mod identifier;
mod kind;

pub use address::{is_data_block, is_root_place, join, split};
pub use cylinder::{decode_map, encode_map, maps_return};
pub use entry::{DataState, Entry, NoState, RootState};
pub use examples::map_examples_hold;
pub use identifier::Identifier;
pub use kind::{Kind, NoKind};
