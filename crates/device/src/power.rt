// Storing a block where power may fail.
ghost use Rattle.std.specs.Prelude.{[], ◌∷◌};
ghost use Rattle.device.specs.Plans.{write, Runs};

use crate::answers::StoreError;
use crate::device::Device;
use std::error::Error;
use std::fmt;

/// Power failed.
#[derive(Clone, Copy, PartialEq, Eq, Debug)]
pub struct PowerCut;

impl fmt::Display for PowerCut {
    fn fmt<W: fmt::Write>(&self, f: &mut fmt::Formatter<W>) -> fmt::Result {
        f.pad("power failed")
    }
}

impl Error for PowerCut {}

/// Stores the bytes at block `b`; a block that is not there is passed over.
pub fn put<D: Device>(device: &mut D, b: usize, bytes: &[u8; 512]) -> Result<(), PowerCut>
    ensures { Runs (D.blocks device.old) (D.lit device.old) (write b bytes.now ∷ []) result (D.blocks device.new) (D.lit device.new) }
{
    match device.store(b, bytes) {
        Err(StoreError::Dark) => Err(PowerCut),
        Ok(()) | Err(StoreError::Outside) => Ok(()),
    }
}
