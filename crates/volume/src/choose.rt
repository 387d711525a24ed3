// Which maps need settling.
ghost use Rattle.std.specs.Prelude.{◌≡◌};
ghost use Rattle.volume.specs.Choosing.{intends, stray, unsettled, any_unsettled, ChoosingLaw};
ghost use Rattle.volume.specs.Tables.{table_entries};

use crate::settle::entry_counts;
use map::{DataState, Entry, RootState};

// Whether an entry is under an intention.
fn is_intention(entry: Entry) -> bool
    ensures { result ≡ intends entry }
{
    match entry {
        Entry::Root { state, .. } => state != RootState::Allocated,
        Entry::Data { state, .. } => state != DataState::Allocated,
        _ => false,
    }
}

/// Whether a data block is stray: allocated, and its object does not remain. Settling frees it.
pub fn is_stray(entry: Entry, roots: &[Entry; 256]) -> bool
    ensures { result ≡ stray (table_entries roots.now) entry }
{
    match entry {
        Entry::Data { state, .. } => state == DataState::Allocated && !entry_counts(entry, roots),
        _ => false,
    }
}

// Whether an entry is under an intention, or stray.
fn is_unsettled(entry: Entry, roots: &[Entry; 256]) -> bool
    ensures { result ≡ unsettled (table_entries roots.now) entry }
{
    is_intention(entry) || is_stray(entry, roots)
}

/// Whether a map needs settling: one of its entries is under an intention, or stray.
pub fn map_needs_settling(entries: &[Entry; 32], roots: &[Entry; 256]) -> bool
    ensures { result ≡ any_unsettled (table_entries roots.now) entries.now }
{
    entries.iter().any(|entry| is_unsettled(*entry, roots))
}

/// A map that does not need settling is its own settled form, and one without a commit bit its own
/// cleared form: storing it would change nothing.
pub fn other_maps_would_not_change()
    ensures { ChoosingLaw }
{}
