// Formatting: the stores by which a device becomes an empty volume.
#![tactic(auto)]

mod contents;
mod laws;
mod stores;

pub use laws::{format_makes_an_empty_volume, format_stores_maps_last};
pub use stores::format;
