// The store.
ghost use Rattle.std.specs.Prelude.{◌≡◌, Ok, IfOk, IfErr, IsErr};
ghost use Rattle.store.specs.Steady.{SteadyIn, SteadyIn-prop};
ghost use Rattle.store.specs.declared.phase.Phase.TheVariants as phases;
ghost use Rattle.store.specs.declared.refusals.Refusal.TheVariants as refusals;

use crate::phase::Phase;
use crate::refusals::Refusal;
use device::{Device, PowerCut};
use journal::Row;

/// The rows of a transaction, one for each position.
#[derive(Clone, Copy, PartialEq, Eq, Debug)]
pub struct Table {
    pub rows: [Row; 64],
}

/// A store of objects on a device. It is down, or up over a lit device of whole cylinders.
#[derive(Drop)]
pub struct Store<D: Device> {
    pub(crate) device: D,
    pub(crate) phase: Phase,
    pub(crate) table: Table,
    pub ghost steady: { SteadyIn phase (D.blocks device) (D.lit device) } by { SteadyIn-prop phase (D.blocks device) (D.lit device) },
}

// What the device answers. Where power has failed, the phase is down.
pub(crate) fn or_down<T>(phase: &mut Phase, answer: Result<T, PowerCut>) -> Result<T, Refusal>
    ensures told { IfOk result (λ x. (answer ≡ Ok x) × (phase.new ≡ phase.old)) }
    ensures cut { IfErr result (λ why. (why ≡ refusals.Down) × IsErr answer × (phase.new ≡ phases.Down)) }
{
    if answer.is_err() {
        *phase = Phase::Down;
    }
    answer.map_err(|_| Refusal::Down)
}
