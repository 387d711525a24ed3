// Making a store of a device, and giving the device back.
ghost use Rattle.std.specs.Prelude.{◌≡◌};
ghost use Rattle.store.specs.Transactions.{no_rows};
ghost use Rattle.store.specs.declared.phase.Phase.TheVariants as phases;

use crate::phase::Phase;
use crate::stores::{Store, Table};
use device::Device;
use journal::Row;

// No position is touched.
#[tactic(auto, unfolding(crate::specs::Transactions::no_rows))]
pub(crate) fn no_rows() -> Table
    ensures { result.rows ≡ no_rows }
{
    Table {
        rows: [Row::Untouched; 64],
    }
}

impl<D: Device> Store<D> {
    /// A store on this device. It is down, and no block is touched.
    pub fn attach(device: D) -> Store<D>
        ensures device { result.device ≡ device }
        ensures down { result.phase ≡ phases.Down }
        ensures rows { result.table.rows ≡ no_rows }
    {
        Store {
            device,
            phase: Phase::Down,
            table: no_rows(),
        }
    }

    /// The device, lent for a look.
    pub fn device(&self) -> &D
        ensures { result.now ≡ self.now.device }
    {
        &self.device
    }

    /// The device, as the store leaves it.
    pub fn detach(self) -> D
        ensures { result ≡ self.device }
    {
        self.device
    }
}
