// The search, cylinder by cylinder.
ghost use Rattle.std.specs.Prelude.{◌≡◌, ◌<◌, Some};
ghost use Rattle.allocation.specs.Choosing.{first_in, tried, chosen};
ghost use Rattle.journal.specs.Carried.{TellsAll};
ghost use Rattle.volume.specs.Volume.{map_at};

use crate::wanted::Wanted;
use device::{Device, PowerCut};
use journal::{cylinders, load_map};
use map::{Entry, join};

// The lowest address of a cylinder's map that will do.
fn first_in_map<W: Wanted>(wanted: &W, cylinder: u8, entries: &[Entry; 32]) -> Option<u16>
    ensures { result ≡ first_in (W.passes wanted.now) cylinder (Some entries.now) }
{
    entries
        .iter()
        .enumerate()
        .position(|(s, entry)| wanted.fits(join(cylinder, s as u8), *entry))
        .map(|s| join(cylinder, s as u8))
}

// The lowest address of a cylinder that will do; none if its map cannot be used.
fn first_in_cylinder<D: Device, W: Wanted>(
    device: &D,
    wanted: &W,
    cylinder: u8,
) -> Result<Option<u16>, PowerCut>
    ensures { TellsAll D.Device device.now (λ all. first_in (W.passes wanted.now) cylinder (map_at all cylinder)) result }
{
    let entries = load_map(device, cylinder, cylinders(device))?;
    let found = entries
        .as_ref()
        .and_then(|entries| first_in_map(wanted, cylinder, entries));
    Ok(found)
}

// The cylinder that is tried after `k` others.
fn next_cylinder(cylinders: u8, start: u32, k: u8) -> u8
    requires { 0 < cylinders }
    ensures { result ≡ tried cylinders start k }
{
    ((u64::from(start) + u64::from(k)) % u64::from(cylinders)) as u8
}

/// The address that is chosen: the lowest that will do in the first cylinder that has one. Cylinders
/// are tried from `start` upward, and from the last on to 0.
pub fn choose<D: Device, W: Wanted>(
    device: &D,
    wanted: &W,
    start: u32,
) -> Result<Option<u16>, PowerCut>
    ensures { TellsAll D.Device device.now (chosen (W.passes wanted.now) start) result }
{
    // Counted by turn: a chain of two ranges would need a cylinder to start from, and there may be none.
    let n = cylinders(device);
    for k in 0..n {
        let found = first_in_cylinder(device, wanted, next_cylinder(n, start, k))?;
        if found.is_some() {
            return Ok(found);
        }
    }
    Ok(None)
}
