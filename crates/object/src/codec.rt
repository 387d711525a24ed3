// The bytes of a root block, and back.
ghost use Rattle.std.specs.Prelude.{◌≡◌};
ghost use Rattle.std.specs.Str.{bytes_eq};
ghost use Rattle.object.specs.Roots.{encoded_root, fits_address, all_fit, fits_root, addresses_in, read_root_block, decoded_root, RootsReturn};

use crate::bytes::{number_at, put_bytes, put_words, word_at};
use crate::root::{Root, RootBlock};
use map::{Identifier, Kind, is_data_block};
use std::array;

// The 64 addresses of a block.
fn addresses(block: &[u8; 512]) -> [u16; 64]
    ensures { result ≡ addresses_in block.now }
{
    array::from_fn(|i| word_at(block, 8 + i))
}

// Whether an address is 0 or a data block of this volume.
fn fits(x: u16, cylinders: u8) -> bool
    ensures { result ≡ fits_address cylinders x }
{
    x == 0 || (is_data_block(u32::from(x)) && x / 32 < u16::from(cylinders))
}

fn all_fit(blocks: &[u16; 64], cylinders: u8) -> bool
    ensures { result ≡ all_fit cylinders blocks.now }
{
    blocks.iter().all(|x| fits(*x, cylinders))
}

impl RootBlock {
    /// The bytes of this root block.
    pub fn encode(&self) -> [u8; 512]
        ensures { result ≡ encoded_root self.now }
    {
        let mut block = [0; 512];
        if let RootBlock::Live(root) = self {
            put_bytes(&mut block, 0, &root.id.tag().to_le_bytes());
            put_bytes(&mut block, 4, &root.id.root().to_le_bytes());
            put_bytes(&mut block, 8, &[u8::from(root.kind)]);
            put_words(&mut block, 16, &root.blocks);
        }
        block
    }

    // Whether this root block may stand at address `a`, in a volume of so many cylinders.
    fn fits(&self, a: u32, cylinders: u8) -> bool
        ensures { result ≡ fits_root cylinders a self.now }
    {
        match self {
            RootBlock::Dead => true,
            RootBlock::Live(root) => root.id.root() == a && all_fit(&root.blocks, cylinders),
        }
    }

    // The root block that the bytes name. Bytes that none has are left for `decode` to find.
    fn read(block: &[u8; 512]) -> Option<RootBlock>
        ensures { result ≡ read_root_block block.now }
    {
        let tag = number_at(block, 0);
        if tag == 0 {
            return Some(RootBlock::Dead);
        }
        let id = Identifier::new(tag, number_at(block, 4))?;
        let kind = Kind::try_from(block[8]).ok()?;
        let blocks = addresses(block);
        Some(RootBlock::Live(Root { id, kind, blocks }))
    }

    // Whether these are the bytes of this root block.
    fn is_written(&self, block: &[u8; 512]) -> bool
        ensures { result ≡ bytes_eq (encoded_root self.now) block.now }
    {
        self.encode() == *block
    }

    /// The root block whose bytes are exactly these, if it may stand at address `a` in a volume of
    /// so many cylinders.
    pub fn decode(block: &[u8; 512], a: u32, cylinders: u8) -> Option<RootBlock>
        ensures { result ≡ decoded_root cylinders a block.now }
    {
        let root = RootBlock::read(block)?;
        (root.fits(a, cylinders) && root.is_written(block)).then_some(root)
    }
}

/// A well formed root block, read and written again, has the same bytes; a root block that fits,
/// written and read again, is the same.
pub fn roots_return()
    ensures { RootsReturn }
{}
