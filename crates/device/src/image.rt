// A drive over the caller's bytes.
ghost use Rattle.std.specs.Prelude.{◌≡◌, ◌/◌, true, length, vec_len};
ghost use Rattle.device.specs.Blocks.{Stores};
ghost use Rattle.device.specs.Images.{image_blocks, Overwrites};
ghost use Rattle.device.specs.ImageLaws.{image_whole};

use crate::answers::{ReadError, StoreError};
use crate::device::Device;

/// A drive over bytes that the caller hands over and can have back. Every whole run of 512 bytes
/// is a readable block; bytes past the last are kept and never touched. It never goes dark.
#[derive(Drop)]
pub struct Image {
    bytes: Vec<u8>,
}

impl Image {
    /// A drive over these bytes.
    pub fn new(bytes: Vec<u8>) -> Image
        ensures { result.bytes.items ≡ bytes.items }
    {
        Image { bytes }
    }

    /// The bytes as they are now, block after block.
    pub fn into_bytes(self) -> Vec<u8>
        ensures { result.items ≡ self.bytes.items }
    {
        let Image { bytes } = self;
        bytes
    }
}

impl Device for Image {
    ghost blocks = { λ s. image_blocks s.bytes.items };

    ghost lit = { λ _. true };

    ghost whole = { λ s. image_whole s.bytes.items };

    ghost puts = { λ s b bytes r t. Overwrites s.bytes.items b bytes r t.bytes.items };

    ghost lights = { λ s t. t.bytes.items ≡ s.bytes.items };

    fn size(&self) -> usize
        ensures value { result ≡ length (image_blocks self.now.bytes.items) }
        ensures number { result ≡ vec_len self.now.bytes / 512 }
    {
        self.bytes.len() / 512
    }

    fn read(&self, b: usize, buffer: &mut [u8; 512]) -> Result<(), ReadError> {
        if b >= self.size() {
            return Err(ReadError::Outside);
        }
        let at = 512 * b;
        buffer.copy_from_slice(&self.bytes[at..at + 512]);
        Ok(())
    }

    fn store(&mut self, b: usize, bytes: &[u8; 512]) -> Result<(), StoreError>
        ensures stores { Stores (image_blocks self.old.bytes.items) true b bytes.now result (image_blocks self.new.bytes.items) true }
        ensures exact { Overwrites self.old.bytes.items b bytes.now result self.new.bytes.items }
    {
        if b >= self.size() {
            return Err(StoreError::Outside);
        }
        let at = 512 * b;
        self.bytes[at..at + 512].copy_from_slice(bytes);
        Ok(())
    }

    fn light(&mut self)
        ensures same { image_blocks self.new.bytes.items ≡ image_blocks self.old.bytes.items }
        ensures after { true ≡ true }
        ensures exact { self.new.bytes.items ≡ self.old.bytes.items }
    {}
}
