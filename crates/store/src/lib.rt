// The store: calls on the objects of a volume, over any device.
#![tactic(auto)]

mod admission;
mod attachment;
mod calls;
mod creating;
mod entries;
mod formats;
mod indexing;
mod name;
mod phase;
mod play;
mod reading;
mod reads;
mod refusals;
mod runs;
mod staging;
mod steps;
mod stores;
mod tickets;
mod transactions;

pub use calls::{Answer, Call};
pub use name::Name;
pub use phase::{Asked, Phase};
pub use refusals::Refusal;
pub use stores::{Store, Table};
pub use tickets::{OpenTicket, WaitingTicket};
