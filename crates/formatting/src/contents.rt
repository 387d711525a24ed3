// What formatting stores: root blocks and maps of a volume that holds an empty root index.
ghost use Rattle.std.specs.Prelude.{◌≡◌};
ghost use Rattle.formatting.specs.Formatting.{first_root, first_entry, first_map};

use map::{Entry, Identifier, Kind, split};
use object::{Root, RootBlock};

// The root block at address `a`: that of the root index at its place, a dead one at every other.
pub(crate) fn first_root(index: Identifier, a: u32) -> RootBlock
    ensures { result ≡ first_root index a }
{
    if a == index.root() {
        RootBlock::Live(Root {
            id: index,
            kind: Kind::Index,
            blocks: [0; 64],
        })
    } else {
        RootBlock::Dead
    }
}

// The entry of a root index.
fn first_entry(tag: u32) -> Entry
    ensures { result ≡ first_entry tag }
{
    Entry::of_root(Kind::Index, tag)
}

// The entries of a cylinder's map: its own, and that of the root index if its place is there.
pub(crate) fn first_map(index: Identifier, cylinder: u8) -> [Entry; 32]
    ensures { result ≡ first_map index cylinder }
{
    // two lines, as a lost map has them: one function would need a definition for both
    let mut entries = [Entry::Free; 32];
    entries[0] = Entry::Map;
    let (c, s) = split(index.root());
    if u32::from(cylinder) == c {
        entries[s as usize] = first_entry(index.tag());
    }
    entries
}
