// A whole cylinder map: 32 entries, and back.
ghost use Rattle.std.specs.Prelude.{◌≡◌, ◌+◌, ◌*◌, ◌<◌};
ghost use Rattle.map.specs.Maps.{decoded_sector, decoded_map, encoded_map, MapBytesReturn, MapEntriesReturn};

use crate::address::join;
use crate::entry::Entry;

// The address of a sector.
fn address(cylinder: u8, sector: usize) -> u32
    requires { sector < 32 }
    ensures { result ≡ 32 * cylinder + sector }
{
    u32::from(join(cylinder, sector as u8))
}

// The entry of one sector, from its part of the block.
fn decode_sector(block: &[u8; 512], s: usize, cylinder: u8, cylinders: u8) -> Option<Entry>
    requires { s < 32 }
    ensures { result ≡ decoded_sector cylinders cylinder block.now s }
{
    let part = &block[16 * s..16 * s + 16];
    Entry::decode(part, address(cylinder, s), u32::from(cylinders))
}

/// The entries of a cylinder's map, sector by sector, in a volume of so many cylinders, if the
/// bytes are well formed.
#[tactic(auto, using(crate::proofs::Decoding::decoding))]
pub fn decode_map(block: &[u8; 512], cylinder: u8, cylinders: u8) -> Option<[Entry; 32]>
    ensures { result ≡ decoded_map cylinders cylinder block.now }
{
    let mut entries = [Entry::Map; 32];
    for (s, entry) in entries.iter_mut().enumerate() {
        *entry = decode_sector(block, s, cylinder, cylinders)?;
    }
    Some(entries)
}

/// The bytes of these entries, as the map of the cylinder.
pub fn encode_map(entries: &[Entry; 32], cylinder: u8) -> [u8; 512]
    ensures { result ≡ encoded_map cylinder entries.now }
{
    let mut block = [0; 512];
    for (s, entry) in entries.iter().enumerate() {
        let bytes = entry.encode(address(cylinder, s));
        block[16 * s..16 * s + 16].copy_from_slice(&bytes);
    }
    block
}

/// A well formed map, read and written again, has the same 512 bytes; entries that fit, written
/// and read again, are the same.
pub fn maps_return()
    ensures bytes { MapBytesReturn }
    ensures entries { MapEntriesReturn }
{}
