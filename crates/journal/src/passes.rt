// A pass over the cylinder maps.
ghost use Rattle.std.specs.Prelude.{◌≡◌, ℕ, ◌≤◌, min, List, IfOk, Option};
ghost use Rattle.map.specs.declared.entry.Entry.{Entry as MapEntry};
ghost use Rattle.journal.specs.Carried.{CarriesAll};
ghost use Rattle.journal.specs.Passes.{pass_writes, pass_plan};
ghost use Rattle.volume.specs.Volume.{cylinders_of};

use crate::blocks::{cylinders, load_map};
use device::{Device, PowerCut, put};
use map::{Entry, encode_map};

/// A rule that changes the entries of some cylinder maps.
pub trait MapRule {
    // What it makes of a cylinder's entries.
    ghost rule: { Self → ℕ → List MapEntry → Option (List MapEntry) };

    /// The entries that a cylinder's map is to have, or none if it is to stay.
    // The number goes beside the entries: a pair of them would have each rule show that it keeps it.
    fn changed(&self, cylinder: u8, entries: &[Entry; 32]) -> Option<[Entry; 32]>
        ensures { result ≡ rule self.now cylinder entries.now };
}

// The map of one cylinder, stored if the rule changes it. The answer is how many stores that took.
pub(crate) fn pass_cylinder<D: Device, R: MapRule>(
    device: &mut D,
    rule: &R,
    cylinder: u8,
) -> Result<u32, PowerCut>
    ensures few { IfOk result (λ n. n ≤ 1) }
    ensures stores { CarriesAll D.Device device.old (λ held. pass_writes (R.MapRule.rule rule.now) held cylinder) result device.new }
{
    let Some(entries) = load_map(device, cylinder, cylinders(device))? else {
        return Ok(0);
    };
    let Some(changed) = rule.changed(cylinder, &entries) else {
        return Ok(0);
    };
    let bytes = encode_map(&changed, cylinder);
    put(device, 32 * usize::from(cylinder), &bytes)?;
    Ok(1)
}

/// Stores each map that the rule changes, ascending. The answer is how many stores that took.
pub fn pass<D: Device, R: MapRule>(device: &mut D, rule: &R) -> Result<u32, PowerCut>
    ensures few { IfOk result (λ n. n ≤ min (cylinders_of (D.blocks device.old)) 64) }
    ensures stores { CarriesAll D.Device device.old (pass_plan (R.MapRule.rule rule.now)) result device.new }
{
    let mut count = 0;
    for cylinder in 0..cylinders(device) {
        count += pass_cylinder(device, rule, cylinder)?;
    }
    Ok(count)
}
