// Marking intentions in one map.
ghost use Rattle.std.specs.Prelude.{◌≡◌, Option, is_some, slice_index_or};
ghost use Rattle.map.specs.declared.entry.Entry.{Entry};
ghost use Rattle.map.specs.declared.entry.Entry.TheVariants.{Map};
ghost use Rattle.volume.specs.Settling.{allocating, deallocating, put_in};

use map::{DataState, Entry, Identifier};

/// The entry of a free block that is to be allocated; none for any other.
pub fn allocate(entry: Entry, position: u8, owner: Identifier) -> Option<Entry>
    ensures { result ≡ allocating position owner entry }
{
    match entry {
        Entry::Free => Some(Entry::Data {
            state: DataState::IntendingToAllocate,
            position,
            owner,
        }),
        _ => None,
    }
}

/// The entry of an allocated block that is to be deallocated; none for any other.
pub fn deallocate(entry: Entry) -> Option<Entry>
    ensures { result ≡ deallocating entry }
{
    match entry {
        Entry::Data {
            state: DataState::Allocated,
            position,
            owner,
        } => Some(Entry::Data {
            state: DataState::IntendingToDeallocate,
            position,
            owner,
        }),
        _ => None,
    }
}

// The entry of a sector; past the last one that of a map, which no intention fits.
fn entry_at(entries: &[Entry; 32], sector: u8) -> Entry
    ensures { result ≡ slice_index_or entries.now sector Map }
{
    entries
        .get(usize::from(sector))
        .copied()
        .unwrap_or(Entry::Map)
}

// Puts a new entry, if there is one, in the place of a sector; the answer says whether there is one.
fn put_in(entries: &mut [Entry; 32], sector: u8, new: Option<Entry>) -> bool
    ensures value { result ≡ is_some new }
    ensures after { entries.new ≡ put_in entries.old sector new }
{
    let Some(entry) = new else {
        return false;
    };
    if sector < 32 {
        entries[usize::from(sector)] = entry;
    }
    true
}

/// Marks the block of a sector as intending to be allocated to its owner, for a position. Only a
/// free block can be; the answer says whether it was.
// A bool, as of a set's `insert`: there is nothing to tell of a refusal.
pub fn intend_to_allocate(
    entries: &mut [Entry; 32],
    sector: u8,
    position: u8,
    owner: Identifier,
) -> bool
    ensures value { result ≡ is_some (allocating position owner (slice_index_or entries.old sector Map)) }
    ensures after { entries.new ≡ put_in entries.old sector (allocating position owner (slice_index_or entries.old sector Map)) }
{
    let new = allocate(entry_at(entries, sector), position, owner);
    put_in(entries, sector, new)
}

/// Marks the block of a sector as intending to be deallocated. Only an allocated data block can be;
/// the answer says whether it was.
// A bool, as above.
pub fn intend_to_deallocate(entries: &mut [Entry; 32], sector: u8) -> bool
    ensures value { result ≡ is_some (deallocating (slice_index_or entries.old sector Map)) }
    ensures after { entries.new ≡ put_in entries.old sector (deallocating (slice_index_or entries.old sector Map)) }
{
    let new = deallocate(entry_at(entries, sector));
    put_in(entries, sector, new)
}
