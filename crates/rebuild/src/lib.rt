// The lost map of one cylinder, rebuilt from root blocks and the other maps.
#![tactic(auto)]

mod laws;
mod lost_map;

pub use laws::{
    block_held_twice_is_found, one_pass_takes_all, rebuilding_examples_hold,
    rebuilt_map_is_given_back, restart_goes_by_the_rebuilt_map,
};
pub use lost_map::LostMap;
