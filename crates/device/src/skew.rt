// The skew: a layer that orders the sectors of every cylinder anew, over any device.
ghost use Rattle.std.specs.Prelude.{◌≡◌};
ghost use Rattle.device.specs.SkewLaws.{skewed_whole};
ghost use Rattle.device.specs.Skews.{skewed, SkewStores, SkewExamples};

use crate::answers::{ReadError, StoreError};
use crate::device::Device;
use crate::factor::Factor;

/// A device whose block `32c + s` is block `32c + (k × s mod 32)` of the device below. It has as
/// many whole cylinders of 32 blocks as that one.
#[derive(Drop)]
pub struct Skew<D> {
    device: D,
    factor: Factor,
}

impl<D: Device> Skew<D> {
    /// The device below, seen through the factor.
    pub fn new(device: D, factor: Factor) -> Skew<D>
        ensures below { result.device ≡ device }
        ensures factor { result.factor.k ≡ factor.k }
    {
        Skew { device, factor }
    }

    /// The device below.
    pub fn into_inner(self) -> D
        ensures { result ≡ self.device }
    {
        let Skew { device, factor: _ } = self;
        device
    }
}

impl<D: Device> Device for Skew<D> {
    ghost blocks = { λ s. skewed s.factor.k (D.blocks s.device) };

    ghost lit = { λ s. D.lit s.device };

    ghost whole = { λ s. skewed_whole s.factor.k (D.blocks s.device) (D.whole s.device) };

    ghost puts = { λ s b bytes r t. SkewStores s.factor.k (D.blocks s.device) (D.puts s.device) s.device b bytes r t.factor.k t.device };

    ghost lights = { λ s t. D.lights s.device t.device × (t.factor.k ≡ s.factor.k) };

    fn size(&self) -> usize {
        32 * (self.device.size() / 32)
    }

    fn read(&self, b: usize, buffer: &mut [u8; 512]) -> Result<(), ReadError> {
        if b >= self.size() {
            return Err(ReadError::Outside);
        }
        self.device.read(self.factor.place(b), buffer)
    }

    fn store(&mut self, b: usize, bytes: &[u8; 512]) -> Result<(), StoreError> {
        if b >= self.size() {
            return Err(StoreError::Outside);
        }
        let at = self.factor.place(b);
        self.device.store(at, bytes)
    }

    fn light(&mut self) {
        self.device.light();
    }
}

/// The worked examples of the skew, shown of the rule itself.
pub fn skew_examples_hold()
    ensures { SkewExamples }
{}
