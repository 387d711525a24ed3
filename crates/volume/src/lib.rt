// What a volume means: which blocks count, what objects it shows, and the laws that make a cut harmless.
#![tactic(auto)]

mod choose;
mod claims;
mod intend;
mod laws;
mod settle;
mod worked;

pub use choose::{is_stray, map_needs_settling, other_maps_would_not_change};
pub use claims::{claim_entry, claim_map, claims_are_the_lowest};
pub use intend::{allocate, deallocate, intend_to_allocate, intend_to_deallocate};
pub use laws::{
    clearing_keeps_what_counts, commit_changes_one_object, create_adds_one_object,
    data_store_changes_one_block, intentions_keep_what_counts, lost_map_is_given_back,
    map_store_is_whole_or_harmless, removal_removes_one_object, root_store_changes_nothing,
    settling_keeps_what_counts, sound_volume_can_be_rebuilt, stores_keep_a_volume_recoverable,
    stores_that_change_objects, stores_that_follow_one_another, twice_is_once,
    volume_at_rest_shows_what_counts, what_goes_before_a_changing_store,
};
pub use settle::{
    clear_entry, clear_map, entry_counts, map_has_commit_bit, settle_entry, settle_map,
    with_commit_bit,
};
pub use worked::{premises_are_needed, premises_can_be_met, worked_save_holds};
