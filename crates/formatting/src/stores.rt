// The stores of formatting, cylinder by cylinder.
ghost use Rattle.std.specs.Prelude.{[], ◌∷◌};
ghost use Rattle.device.specs.Plans.{Runs};
ghost use Rattle.formatting.specs.Formatting.{root_write, map_write, format_writes, format_plan};
ghost use Rattle.journal.specs.Carried.{CarriesAll};
ghost use Rattle.volume.specs.Volume.{cylinders_of};

use crate::contents::{first_map, first_root};
use device::{Device, PowerCut, put};
use journal::cylinders;
use map::{Identifier, encode_map, join};

// Stores the root block of address `a`.
fn put_root<D: Device>(device: &mut D, index: Identifier, a: u16) -> Result<(), PowerCut>
    ensures { Runs (D.blocks device.old) (D.lit device.old) (root_write index a ∷ []) result (D.blocks device.new) (D.lit device.new) }
{
    put(
        device,
        usize::from(a),
        &first_root(index, u32::from(a)).encode(),
    )
}

// Stores the map of a cylinder.
fn put_map<D: Device>(device: &mut D, index: Identifier, cylinder: u8) -> Result<(), PowerCut>
    ensures { Runs (D.blocks device.old) (D.lit device.old) (map_write index cylinder ∷ []) result (D.blocks device.new) (D.lit device.new) }
{
    let map = encode_map(&first_map(index, cylinder), cylinder);
    put(device, 32 * usize::from(cylinder), &map)
}

// The stores of one cylinder: its root blocks, then its map.
fn format_cylinder<D: Device>(
    device: &mut D,
    index: Identifier,
    cylinder: u8,
) -> Result<(), PowerCut>
    ensures { Runs (D.blocks device.old) (D.lit device.old) (format_writes index cylinder) result (D.blocks device.new) (D.lit device.new) }
{
    for sector in 1..5 {
        put_root(device, index, join(cylinder, sector))?;
    }
    put_map(device, index, cylinder)
}

/// Makes an empty volume of a device: stores the root blocks and the map of each cylinder, ascending.
/// It holds the root index and nothing else; `index` names it, and its place is to be block 1. The
/// answer is how many stores that took.
pub fn format<D: Device>(device: &mut D, index: Identifier) -> Result<u32, PowerCut>
    ensures { CarriesAll D.Device device.old (λ held. format_plan index (cylinders_of held)) result device.new }
{
    let mut count = 0;
    for cylinder in 0..cylinders(device) {
        format_cylinder(device, index, cylinder)?;
        count += 5;
    }
    Ok(count)
}
