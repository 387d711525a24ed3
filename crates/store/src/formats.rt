// Formatting a device.
ghost use Rattle.std.specs.Prelude.{◌≡◌};
ghost use Rattle.store.specs.Formatting.{sized, Formats};

use crate::attachment::no_rows;
use crate::phase::Phase;
use crate::refusals::Refusal;
use crate::stores::{Store, or_down};
use device::Device;
use map::Identifier;

// Whether a volume can have so many blocks.
fn is_sized(n: usize) -> bool
    ensures { result ≡ sized n }
{
    n % 32 == 0 && (32..=2048).contains(&n)
}

impl<D: Device> Store<D> {
    /// Makes an empty volume of the device, which is lit first. The answer is the identifier of the
    /// root index.
    #[tactic(auto, using(crate::proofs::Steadiness::carried_ready))]
    pub fn format(&mut self, tag: u32) -> Result<Identifier, Refusal>
        ensures { Formats D.Device tag self.old result self.new }
    {
        self.device.light();
        let index = Identifier::new(tag, 1).ok_or(Refusal::TagZero)?;
        let size = self.device.size();
        if !is_sized(size) {
            return Err(Refusal::Size);
        }
        let formatted = formatting::format(&mut self.device, index);
        or_down(&mut self.phase, formatted)?;
        self.phase = Phase::Idle;
        self.table = no_rows();
        Ok(index)
    }
}
