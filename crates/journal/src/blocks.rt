// Single blocks of a device, read and decoded.
ghost use Rattle.std.specs.Prelude.{◌≡◌, ◌*◌, min, true, Ok};
ghost use Rattle.device.specs.Blocks.{block_at};
ghost use Rattle.journal.specs.Carried.{bytes_in};
ghost use Rattle.volume.specs.Volume.{cylinders_of, map_in, root_in};

use device::{Device, PowerCut, ReadError};
use map::{Entry, decode_map};
use object::RootBlock;

/// How many cylinders a device has, at most 64.
pub fn cylinders<D: Device>(device: &D) -> u8
    ensures { result ≡ min (cylinders_of (D.blocks device.now)) 64 }
{
    (device.size() / 32).min(64) as u8
}

/// The bytes of block `b`, or none if it cannot be read.
pub fn load<D: Device>(device: &D, b: usize) -> Result<Option<[u8; 512]>, PowerCut>
    ensures { D.lit device.now ≡ true → result ≡ Ok (bytes_in (block_at (D.blocks device.now) b)) }
{
    let mut bytes = [0; 512];
    match device.read(b, &mut bytes) {
        Ok(()) => Ok(Some(bytes)),
        Err(ReadError::Dark) => Err(PowerCut),
        Err(ReadError::Unreadable | ReadError::Outside) => Ok(None),
    }
}

/// The entries of a cylinder's map in a volume of so many cylinders, if it can be read and is well
/// formed.
pub fn load_map<D: Device>(
    device: &D,
    cylinder: u8,
    cylinders: u8,
) -> Result<Option<[Entry; 32]>, PowerCut>
    ensures { D.lit device.now ≡ true → result ≡ Ok (map_in cylinders cylinder (block_at (D.blocks device.now) (32 * cylinder))) }
{
    let bytes = load(device, 32 * usize::from(cylinder))?;
    let entries = bytes
        .as_ref()
        .and_then(|bytes| decode_map(bytes, cylinder, cylinders));
    Ok(entries)
}

/// The root block at a root place in a volume of so many cylinders, if it can be read and is well
/// formed.
// Not one function with load_map: over any decoder it would need a clause on what that is handed.
pub fn load_root<D: Device>(
    device: &D,
    r: u32,
    cylinders: u8,
) -> Result<Option<RootBlock>, PowerCut>
    ensures { D.lit device.now ≡ true → result ≡ Ok (root_in cylinders r (block_at (D.blocks device.now) r)) }
{
    let bytes = load(device, r as usize)?;
    let root = bytes
        .as_ref()
        .and_then(|bytes| RootBlock::decode(bytes, r, cylinders));
    Ok(root)
}
