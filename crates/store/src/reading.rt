// What calls read of a device before they decide.
ghost use Rattle.std.specs.Prelude.{Ok};
ghost use Rattle.lookup.specs.Finding.{held};
ghost use Rattle.map.specs.Identifiers.{identified};
ghost use Rattle.journal.specs.Carried.{TellsAll};
ghost use Rattle.store.specs.Model.{Looks};
ghost use Rattle.store.specs.Naming.{found_if, named};

use crate::name::Name;
use crate::refusals::Refusal;
use crate::stores::{Store, or_down};
use device::{Device, PowerCut};
use lookup::{find, held};
use map::Identifier;
use object::Root;

// The object that a name names, if it names one that exists.
pub(crate) fn find_named<D: Device>(device: &D, name: Name) -> Result<Option<Root>, PowerCut>
    ensures { TellsAll D.Device device.now (λ all. found_if all (identified name.tag name.root)) result }
{
    let Some(id) = name.identifier() else {
        return Ok(None);
    };
    find(device, id)
}

impl<D: Device> Store<D> {
    // The object that a name names. Where power has failed, the store is down.
    pub(crate) fn object(&mut self, name: Name) -> Result<Root, Refusal>
        ensures { Looks D.Device (λ all. named all name) self.old result self.new }
    {
        let found = find_named(&self.device, name);
        or_down(&mut self.phase, found)?.ok_or(Refusal::NoSuchObject)
    }

    // The object of a transaction; one without blocks if it does not exist.
    pub(crate) fn held(&mut self, id: Identifier) -> Result<Root, Refusal>
        ensures { Looks D.Device (λ all. Ok (held all id)) self.old result self.new }
    {
        let held = held(&self.device, id);
        or_down(&mut self.phase, held)
    }
}
