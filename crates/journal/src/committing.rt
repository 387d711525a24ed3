// Committing a transaction, and creating an object.
ghost use Rattle.std.specs.Prelude.{◌≡◌, ◌≤◌, ◌==◌, if◌then◌else◌, Some, None, IfOk};
ghost use Rattle.journal.specs.Carried.{CarriesAll};
ghost use Rattle.map.specs.Addresses.{cylinder_of, sector_of};
ghost use Rattle.journal.specs.Committing.{place_rule, followed, root_plan, commit_plan, create_plan, new_root};
ghost use Rattle.journal.specs.Passes.{pass_writes};
ghost use Rattle.volume.specs.Committing.{marked};

use crate::mark::Marking;
use crate::passes::{MapRule, pass, pass_cylinder};
use crate::row::Row;
use device::{Device, PowerCut, put};
use map::{Entry, Identifier, Kind, split};
use object::{Root, RootBlock};
use volume::with_commit_bit;

/// Sets the commit bit of an object.
#[derive(Clone, Copy)]
pub struct CommitBit {
    pub id: Identifier,
}

// The sector of root place `r`, if it is in this cylinder.
fn sector_in(r: u32, cylinder: u8) -> Option<usize>
    ensures { result ≡ (if cylinder == cylinder_of r then Some (sector_of r) else None) }
{
    let (c, s) = split(r);
    (u32::from(cylinder) == c).then_some(s as usize)
}

impl MapRule for CommitBit {
    ghost rule = { λ s. place_rule s.id.root marked };

    fn changed(&self, cylinder: u8, entries: &[Entry; 32]) -> Option<[Entry; 32]> {
        let s = sector_in(self.id.root(), cylinder)?;
        let mut changed = *entries;
        changed[s] = with_commit_bit(changed[s]);
        Some(changed)
    }
}

/// Gives a new object its root entry.
#[derive(Clone, Copy)]
pub struct NewRoot {
    pub id: Identifier,
    pub kind: Kind,
}

impl MapRule for NewRoot {
    ghost rule = { λ s. place_rule s.id.root (new_root s.kind s.id.tag) };

    fn changed(&self, cylinder: u8, entries: &[Entry; 32]) -> Option<[Entry; 32]> {
        let s = sector_in(self.id.root(), cylinder)?;
        let mut changed = *entries;
        changed[s] = Entry::of_root(self.kind, self.id.tag());
        Some(changed)
    }
}

// The map of the cylinder that holds root place `r`, stored if the rule changes it.
fn pass_place<D: Device, R: MapRule>(device: &mut D, rule: &R, r: u32) -> Result<u32, PowerCut>
    ensures few { IfOk result (λ n. n ≤ 1) }
    ensures stores { CarriesAll D.Device device.old (λ held. pass_writes (R.MapRule.rule rule.now) held (cylinder_of r)) result device.new }
{
    match u8::try_from(r / 32) {
        Ok(cylinder) => pass_cylinder(device, rule, cylinder),
        Err(_) => Ok(0),
    }
}

// The root block, and then the map of its place, changed by the rule.
fn store_root<D: Device, R: MapRule>(device: &mut D, root: &Root, rule: &R) -> Result<u32, PowerCut>
    ensures few { IfOk result (λ n. n ≤ 2) }
    ensures stores { CarriesAll D.Device device.old (followed (root_plan root.now) (λ held. pass_writes (R.MapRule.rule rule.now) held (cylinder_of root.now.id.root))) result device.new }
{
    let r = root.id.root();
    put(device, r as usize, &RootBlock::Live(*root).encode())?;
    let maps = pass_place(device, rule, r)?;
    Ok(1 + maps)
}

/// Commits a transaction on the object of this root block, which has the new addresses: stores the
/// maps with its intentions, and if there are any the root block and the commit bit.
pub fn commit<D: Device>(device: &mut D, root: &Root, rows: &[Row; 64]) -> Result<u32, PowerCut>
    ensures { CarriesAll D.Device device.old (commit_plan root.now rows.now) result device.new }
{
    let owner = root.id;
    let marked = pass(device, &Marking { owner, rows: *rows })?;
    if marked == 0 {
        return Ok(0);
    }
    let sealed = store_root(device, root, &CommitBit { id: owner })?;
    Ok(marked + sealed)
}

/// Stores the root block of a new object, and its entry.
pub fn create<D: Device>(device: &mut D, root: &Root) -> Result<u32, PowerCut>
    ensures { CarriesAll D.Device device.old (create_plan root.now) result device.new }
{
    let rule = NewRoot {
        id: root.id,
        kind: root.kind,
    };
    store_root(device, root, &rule)
}
