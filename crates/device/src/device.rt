// The interface that every drive has.
ghost use Rattle.std.specs.Prelude.{◌≡◌, ℕ, Bool, true, List, length, Result};
ghost use Rattle.device.specs.declared.answers.StoreError.{StoreError};
ghost use Rattle.device.specs.Blocks.{Block, Whole, Reads, Stores};

use crate::answers::{ReadError, StoreError};

/// A drive of blocks of 512 bytes. It is lit or dark, and each block is readable or not.
pub trait Device {
    // What the device holds, block by block.
    ghost blocks: { Self → List Block };

    // Whether it has power.
    ghost lit: { Self → Bool };

    // A readable block has 512 bytes.
    ghost whole: { (d : Self) → Whole (blocks d) };

    // What a store does, and what a light does, beyond what every device owes: which stores a drive
    // counts, say. A layer above hands each call on once, so these are the same through it.
    ghost puts: { Self → ℕ → List ℕ → Result (Unit {0}) StoreError → Self → Type 0 };

    ghost lights: { Self → Self → Type 0 };

    /// How many blocks there are. No call changes that.
    fn size(&self) -> usize
        ensures { result ≡ length (blocks self.now) };

    /// Reads block `b` into the buffer.
    fn read(&self, b: usize, buffer: &mut [u8; 512]) -> Result<(), ReadError>
        ensures { Reads (blocks self.now) (lit self.now) b result buffer.old buffer.new };

    /// Stores the bytes at block `b`.
    fn store(&mut self, b: usize, bytes: &[u8; 512]) -> Result<(), StoreError>
        ensures stores { Stores (blocks self.old) (lit self.old) b bytes.now result (blocks self.new) (lit self.new) }
        ensures exact { puts self.old b bytes.now result self.new };

    /// Makes the device lit. No block changes.
    fn light(&mut self)
        ensures same { blocks self.new ≡ blocks self.old }
        ensures after { lit self.new ≡ true }
        ensures exact { lights self.old self.new };
}
