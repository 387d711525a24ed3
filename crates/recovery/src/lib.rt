// The laws of whole calls: what their lists of stores do to the objects that a restart would show, with
// power failing anywhere.
#![tactic(auto)]

mod laws;
mod worked;

pub use laws::{
    commit_is_all_or_nothing, create_is_all_or_nothing, finish_keeps_what_counts,
    staging_changes_nothing,
};
pub use worked::requests_can_be_made;
