// Settling and clearing one map, entry by entry.
ghost use Rattle.std.specs.Prelude.{◌≡◌, map};
ghost use Rattle.volume.specs.Choosing.{any_committed};
ghost use Rattle.volume.specs.Counting.{bit, has_tag, remains_as, state_counts, counts};
ghost use Rattle.volume.specs.Committing.{marked};
ghost use Rattle.volume.specs.Settling.{settled, cleared};
ghost use Rattle.volume.specs.Tables.{root_slot, table_entries};

use map::{DataState, Entry, RootState, is_root_place, split};

// Where the entry of a root place stands in the table.
pub(crate) fn root_slot(r: u32) -> usize
    ensures { result ≡ root_slot r }
{
    let (cylinder, sector) = split(r);
    4 * cylinder as usize + (sector as usize).saturating_sub(1)
}

// The entry of a root place in the table, which stays a plain array: a type of its own would make
// no contract shorter.
fn root_entry(roots: &[Entry; 256], r: u32) -> Entry
    ensures { result ≡ table_entries roots.now r }
{
    if !is_root_place(r) {
        return Entry::Free;
    }
    roots.get(root_slot(r)).copied().unwrap_or(Entry::Free)
}

// Whether the object of this tag remains at a root place with this entry.
fn remains(root: Entry, tag: u32) -> bool
    ensures { result ≡ has_tag tag (remains_as root) }
{
    match root {
        Entry::Root {
            state: RootState::IntendingToDeallocate,
            commit: true,
            ..
        } => false,
        Entry::Root { tag: held, .. } => held == tag,
        _ => false,
    }
}

fn commit_bit(root: Entry) -> bool
    ensures { result ≡ bit root }
{
    matches!(root, Entry::Root { commit: true, .. })
}

fn state_counts_with(state: DataState, commit: bool) -> bool
    ensures { result ≡ state_counts state commit }
{
    match state {
        DataState::Allocated => true,
        DataState::IntendingToAllocate => commit,
        DataState::IntendingToDeallocate => !commit,
    }
}

/// Whether an entry counts: its object remains, and it is allocated, or intending to deallocate
/// without the commit bit, or intending to allocate with it.
pub fn entry_counts(entry: Entry, roots: &[Entry; 256]) -> bool
    ensures { result ≡ counts (table_entries roots.now) entry }
{
    match entry {
        Entry::Data { state, owner, .. } => {
            let root = root_entry(roots, owner.root());
            remains(root, owner.tag()) && state_counts_with(state, commit_bit(root))
        }
        _ => false,
    }
}

/// An entry settled: what counts is allocated, what does not is free. Commit bits are kept.
pub fn settle_entry(entry: Entry, roots: &[Entry; 256]) -> Entry
    ensures { result ≡ settled (table_entries roots.now) entry }
{
    match entry {
        Entry::Root {
            state: RootState::IntendingToDeallocate,
            kind,
            commit: false,
            tag,
        } => Entry::Root {
            state: RootState::Allocated,
            kind,
            commit: false,
            tag,
        },
        Entry::Data {
            position,
            owner,
            ..
        } => {
            if entry_counts(entry, roots) {
                Entry::Data {
                    state: DataState::Allocated,
                    position,
                    owner,
                }
            } else {
                Entry::Free
            }
        }
        other => other,
    }
}

/// An entry without its commit bit; a root that was removed is free.
pub fn clear_entry(entry: Entry) -> Entry
    ensures { result ≡ cleared entry }
{
    match entry {
        Entry::Root {
            state: RootState::IntendingToDeallocate,
            commit: true,
            ..
        } => Entry::Free,
        Entry::Root {
            state,
            kind,
            tag,
            ..
        } => Entry::Root {
            state,
            kind,
            commit: false,
            tag,
        },
        other => other,
    }
}

/// The entry with its commit bit set, if it is that of a root place.
pub fn with_commit_bit(mut entry: Entry) -> Entry
    ensures { result ≡ marked entry }
{
    if let Entry::Root { commit, .. } = &mut entry {
        *commit = true;
    }
    entry
}

/// Settles a map, given the root entries of the volume.
pub fn settle_map(entries: &mut [Entry; 32], roots: &[Entry; 256])
    ensures { entries.new ≡ map (settled (table_entries roots.now)) entries.old }
{
    // Entry by entry, as the rule is told: a closure for the one line would hide which rule it is.
    for slot in entries.iter_mut() {
        *slot = settle_entry(*slot, roots);
    }
}

/// Whether a map has a root entry with its commit bit set.
pub fn map_has_commit_bit(entries: &[Entry; 32]) -> bool
    ensures { result ≡ any_committed entries.now }
{
    entries.iter().any(|entry| commit_bit(*entry))
}

/// Clears the commit bits of a map.
pub fn clear_map(entries: &mut [Entry; 32])
    ensures { entries.new ≡ map cleared entries.old }
{
    // Entry by entry, as above.
    for slot in entries.iter_mut() {
        *slot = clear_entry(*slot);
    }
}
