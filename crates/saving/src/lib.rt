// The save procedure that controllers use today, and how a replay of it ends when power fails.
#![tactic(auto)]

mod job;
mod outcome;
mod procedure;

pub use job::Job;
pub use outcome::{Outcome, Report};
pub use procedure::replay;
