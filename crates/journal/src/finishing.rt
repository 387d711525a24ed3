// The tail of every change: maps are settled, then commit bits are cleared.
ghost use Rattle.std.specs.Prelude.{◌≡◌, ◌<◌};
ghost use Rattle.journal.specs.Carried.{Ready, CarriesAll};
ghost use Rattle.journal.specs.Finishing.{RootsRead, noted, settle_rule, clear_rule, finish_plan};
ghost use Rattle.volume.specs.Tables.{table_entries};
ghost use Rattle.volume.specs.Volume.{cylinders_of};

use crate::blocks::{cylinders, load_map};
use crate::passes::{MapRule, pass};
use device::{Device, PowerCut};
use map::Entry;
use volume::{clear_map, map_has_commit_bit, map_needs_settling, settle_map};

// Notes the root entries of a cylinder's map in the table.
fn note_roots(table: &mut [Entry; 256], cylinder: u8, entries: &[Entry; 32])
    ensures { cylinder < 64 → table.new ≡ noted table.old cylinder entries.now }
{
    let first = 4 * usize::from(cylinder);
    if first < 256 {
        table[first..first + 4].copy_from_slice(&entries[1..5]);
    }
}

/// The root entries of a volume, as a table; a map that cannot be used has none.
pub fn root_entries<D: Device>(device: &D) -> Result<[Entry; 256], PowerCut>
    ensures { Ready (D.blocks device.now) (D.lit device.now) (cylinders_of (D.blocks device.now)) → RootsRead (D.blocks device.now) result }
{
    let mut roots = [Entry::Free; 256];
    let cylinders = cylinders(device);
    for cylinder in 0..cylinders {
        if let Some(entries) = load_map(device, cylinder, cylinders)? {
            note_roots(&mut roots, cylinder, &entries);
        }
    }
    Ok(roots)
}

// Both rules below return early: a closure for `then` that changes a copy would need a clause of its own.

/// Settles each map that needs it.
#[derive(Clone, Copy)]
pub struct Settling {
    pub roots: [Entry; 256],
}

impl MapRule for Settling {
    ghost rule = { λ s. settle_rule (table_entries s.roots) };

    fn changed(&self, cylinder: u8, entries: &[Entry; 32]) -> Option<[Entry; 32]> {
        if !map_needs_settling(entries, &self.roots) {
            return None;
        }
        let mut settled = *entries;
        settle_map(&mut settled, &self.roots);
        Some(settled)
    }
}

/// Clears the commit bits of each map that has one.
#[derive(Clone, Copy)]
pub struct Clearing;

impl MapRule for Clearing {
    ghost rule = { λ s. clear_rule };

    fn changed(&self, cylinder: u8, entries: &[Entry; 32]) -> Option<[Entry; 32]> {
        if !map_has_commit_bit(entries) {
            return None;
        }
        let mut cleared = *entries;
        clear_map(&mut cleared);
        Some(cleared)
    }
}

/// Settles every map that needs it, and then clears every commit bit. The answer is how many stores
/// that took.
pub fn finish<D: Device>(device: &mut D) -> Result<u32, PowerCut>
    ensures { CarriesAll D.Device device.old finish_plan result device.new }
{
    let roots = root_entries(device)?;
    let settled = pass(device, &Settling { roots })?;
    let cleared = pass(device, &Clearing)?;
    Ok(settled + cleared)
}
