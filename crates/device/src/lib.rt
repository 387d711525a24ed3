// One interface for every drive: the trait `Device`, with its meaning, and the drives behind it.
#![tactic(auto)]

mod answers;
mod cut;
mod device;
mod factor;
mod image;
mod power;
mod skew;
mod trial;

pub use answers::{Manner, ReadError, StoreError};
pub use cut::Cut;
pub use device::Device;
pub use factor::{Factor, FactorRefusal};
pub use image::Image;
pub use power::{PowerCut, put};
pub use skew::{Skew, skew_examples_hold};
pub use trial::{Trial, numbered_store_is_cut};
