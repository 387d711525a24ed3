// The table of claims: for each root place and position the lowest block that counts for it.
ghost use Rattle.std.specs.Prelude.{◌≡◌, ◌*◌, not, if◌then◌else◌, Some, None};
ghost use Rattle.volume.specs.ClaimTable.{claim_slot, doubled, claimed, claimed_from, first_doubled, TableLaw};
ghost use Rattle.volume.specs.Search.{or_else};
ghost use Rattle.volume.specs.Tables.{table_entries};

use crate::settle::{entry_counts, root_slot};
use map::{Entry, join};

// Where the block of a root place's position stands in the table. A slot without a block holds 0, not
// an Option: the table is fixed memory, two bytes for each slot.
fn slot(r: u32, position: u8) -> usize
    ensures { result ≡ claim_slot r position }
{
    64 * root_slot(r) + usize::from(position)
}

/// Notes the block of an entry, if it counts and is the first for its root place and position. The
/// answer is whether it is not the second.
// A bool, as of a set's `insert`: there is one reason to refuse and nothing to tell of it.
pub fn claim_entry(table: &mut [u16; 16384], a: u16, entry: Entry, roots: &[Entry; 256]) -> bool
    ensures value { result ≡ not (doubled (table_entries roots.now) entry table.old) }
    ensures after { table.new ≡ claimed (table_entries roots.now) a entry table.old }
{
    let Entry::Data {
        position,
        owner,
        ..
    } = entry
    else {
        return true;
    };
    if !entry_counts(entry, roots) {
        return true;
    }
    let k = slot(owner.root(), position);
    if k >= 16384 {
        return true;
    }
    if table[k] != 0 {
        return false;
    }
    table[k] = a;
    true
}

/// Notes the blocks of a cylinder's map. The answer is the first block that counts for a root place
/// and position that another block has already.
pub fn claim_map(
    table: &mut [u16; 16384],
    cylinder: u8,
    entries: &[Entry; 32],
    roots: &[Entry; 256],
) -> Option<u16>
    ensures value { result ≡ first_doubled (table_entries roots.now) (32 * cylinder) entries.now table.old }
    ensures after { table.new ≡ claimed_from (table_entries roots.now) (32 * cylinder) entries.now table.old }
{
    let mut first = None;
    for (s, held) in entries.iter().enumerate() {
        let a = join(cylinder, s as u8);
        let fresh = claim_entry(table, a, *held, roots);
        first = first_of(first, fresh, a);
    }
    first
}

// The first address that was not fresh.
fn first_of(first: Option<u16>, fresh: bool, a: u16) -> Option<u16>
    ensures { result ≡ or_else first (if fresh then None else Some a) }
{
    first.or((!fresh).then_some(a))
}

/// With every entry that fits, each slot has the lowest block that counts for it.
pub fn claims_are_the_lowest()
    ensures { TableLaw }
{}
