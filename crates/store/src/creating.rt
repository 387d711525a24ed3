// Creating an object.
ghost use Rattle.std.specs.Prelude.{◌≡◌};
ghost use Rattle.std.specs.Option.{ok_or};
ghost use Rattle.journal.specs.Carried.{CompletesAll};
ghost use Rattle.journal.specs.Committing.{followed, create_plan};
ghost use Rattle.allocation.specs.Choosing.{free_root, chosen};
ghost use Rattle.map.specs.Addresses.{cylinder_of};
ghost use Rattle.map.specs.Entries.{kind_of};
ghost use Rattle.store.specs.Decisions.{Obeys, StoresAll};
ghost use Rattle.store.specs.Indexing.{new_identifier, created, change_plan, create_rule};
ghost use Rattle.store.specs.Model.{Looks};
ghost use Rattle.store.specs.declared.refusals.Refusal.TheVariants as refusals;

use crate::entries::EntryNumber;
use crate::indexing::EntryChange;
use crate::name::Name;
use crate::phase::Asked;
use crate::refusals::Refusal;
use crate::stores::{Store, or_down};
use allocation::{FreeRoot, choose};
use device::{Device, PowerCut};
use journal::create;
use lookup::no_blocks;
use map::{Identifier, Kind};
use object::Root;

// The kind that a number names.
fn kind_named(number: u64) -> Option<Kind>
    ensures { result ≡ kind_of number }
{
    Kind::try_from(u8::try_from(number).ok()?).ok()
}

// The root block of a new object.
fn new_root(id: Identifier, kind: Kind) -> Root
    ensures { result ≡ created id kind }
{
    let blocks = no_blocks();
    Root { id, kind, blocks }
}

// The stores of a create: the new object, and then the entry that names it.
fn store_created<D: Device>(
    device: &mut D,
    root: &Root,
    change: &EntryChange,
) -> Result<(), PowerCut>
    ensures { CompletesAll D.Device device.old (followed (create_plan root.now) (change_plan change.now)) result device.new }
{
    create(device, root)?;
    change.store(device)
}

impl<D: Device> Store<D> {
    // The identifier of a new object: the tag, and a free root place.
    fn new_identifier(&mut self, object: &Root, tag: u32) -> Result<Identifier, Refusal>
        ensures { Looks D.Device (λ all. ok_or (new_identifier tag (chosen free_root (cylinder_of object.now.id.root) all)) refusals.Full) self.old result self.new }
    {
        let start = object.id.root() / 32;
        let chosen = choose(&self.device, &FreeRoot, start);
        or_down(&mut self.phase, chosen)?
            .and_then(|r| Identifier::new(tag, u32::from(r)))
            .ok_or(Refusal::Full)
    }

    // Stores a new object and the entry that names it. Where power fails, the store is down.
    fn add(&mut self, root: &Root, change: &EntryChange) -> Result<Identifier, Refusal>
        ensures { StoresAll D.Device (followed (create_plan root.now) (change_plan change.now)) root.now.id self.old result self.new }
    {
        let stored = store_created(&mut self.device, root, change);
        or_down(&mut self.phase, stored)?;
        Ok(root.id)
    }

    /// Creates an empty object of a kind (1 normal, 2 special, 3 index) with this tag, and sets entry
    /// `e` of an index to it. The answer is its identifier.
    pub fn create(
        &mut self,
        index: Name,
        e: u64,
        kind: u64,
        tag: u32,
    ) -> Result<Identifier, Refusal>
        ensures { Obeys D.Device (create_rule index e kind tag) self.old result self.new }
    {
        self.phase.admit(Asked::Idle)?;
        let index = self.index(index)?;
        let entry = EntryNumber::try_from(e)?;
        let kind = kind_named(kind).ok_or(Refusal::Range)?;
        if tag == 0 {
            return Err(Refusal::TagZero);
        }
        let id = self.new_identifier(&index, tag)?;
        let block = self.free_for(&index, entry)?;
        let change = EntryChange {
            index,
            entry,
            id: Some(id),
            block,
        };
        self.add(&new_root(id, kind), &change)
    }
}
