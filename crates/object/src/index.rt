// Entries of an index.
ghost use Rattle.std.specs.Prelude.{◌≡◌};
ghost use Rattle.object.specs.Indexes.{index_position, index_byte, entry_of, identifier_bytes, entered, EntriesReturn};

use crate::bytes::{number_at, put_bytes};
use map::Identifier;

/// Where entry `e` stands: the position, and the byte in that position's block.
pub fn index_place(e: u16) -> (usize, usize)
    ensures { result ≡ (index_position e, index_byte e) }
{
    let e = usize::from(e);
    (e / 64, 8 * (e % 64))
}

/// The identifier that entry `e` holds in its block. Bytes that are none read as none.
pub fn index_entry(block: &[u8; 512], e: u16) -> Option<Identifier>
    ensures { result ≡ entry_of block.now e }
{
    let (_, at) = index_place(e);
    Identifier::new(number_at(block, at), number_at(block, at + 4))
}

// The eight bytes of an entry.
fn entry_bytes(id: Option<Identifier>) -> [u8; 8]
    ensures { result ≡ identifier_bytes id }
{
    let (tag, root) = id.map_or((0, 0), |id| (id.tag(), id.root()));
    let t = tag.to_le_bytes();
    let r = root.to_le_bytes();
    [t[0], t[1], t[2], t[3], r[0], r[1], r[2], r[3]]
}

/// Sets entry `e` in its block, or empties it. The block's other bytes stay.
pub fn set_index_entry(block: &mut [u8; 512], e: u16, id: Option<Identifier>)
    ensures { block.new ≡ entered block.old e id }
{
    let (_, at) = index_place(e);
    put_bytes(block, at, &entry_bytes(id));
}

/// An entry that is written is read again, and the others stay.
pub fn index_entries_return()
    ensures { EntriesReturn }
{}
