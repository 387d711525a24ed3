// The trial drive: an image whose blocks can be unreadable and whose power fails at chosen stores.
ghost use Rattle.std.specs.Prelude.{◌≡◌, ◌<◌, true, cond, [], length, Some, None, slice_set};
ghost use Rattle.device.specs.declared.answers.Manner.TheVariants.{Unreadable};
ghost use Rattle.device.specs.Blocks.{Block, Reads, Stores};
ghost use Rattle.device.specs.Trials.{trial_blocks, armed_cut, hit, count_on, Others, contents, filled, cut_contents, Made, TrialStores, TrialLights, NumberedStoreIsCut};
ghost use Rattle.device.specs.Images.{image_blocks};
ghost use Rattle.device.specs.ImageLaws.{image_whole};
ghost use Rattle.device.specs.TrialLaws.{masked_whole};

use crate::answers::{Manner, ReadError, StoreError};
use crate::cut::Cut;
use crate::device::Device;
use crate::image::Image;

/// An image with a mark for each block and up to eight cuts of power. A block is readable if its
/// mark is 0. Made lit, the drive arms the first cut; each light arms the next, or none after the
/// last, and counts afresh the stores that pass the tests.
#[derive(Drop)]
pub struct Trial {
    // bytes and marks are handed in and taken back as two lists, of lengths that need not agree;
    // a mark is a byte as the caller has it, and any other than 0 marks
    image: Image,
    marks: Vec<u8>,
    cuts: [Cut; 8],
    // which cut is armed; past the last there is none
    armed: usize,
    // the stores that passed the tests since the last light, counted no further than the armed cut
    stored: u32,
    lit: bool,
}

impl Trial {
    /// A lit drive over these bytes and marks, the first cut armed. It has as many blocks as there
    /// are both whole runs of 512 bytes and marks.
    pub fn new(bytes: Vec<u8>, marks: Vec<u8>, cuts: [Cut; 8]) -> Trial
        ensures { Made bytes.items marks.items cuts result }
    {
        Trial {
            image: Image::new(bytes),
            marks,
            cuts,
            armed: 0,
            stored: 0,
            lit: true,
        }
    }

    /// The bytes and the marks as they are now.
    pub fn into_parts(self) -> (Vec<u8>, Vec<u8>)
        ensures bytes { result.0.items ≡ self.image.bytes.items }
        ensures marks { result.1.items ≡ self.marks.items }
    {
        let Trial { image, marks, .. } = self;
        (image.into_bytes(), marks)
    }

    /// Block `b` as it stands, whether the drive is lit or dark: the answer is that of a lit drive.
    pub fn peek(&self, b: usize, buffer: &mut [u8; 512]) -> Result<(), ReadError>
        ensures { Reads (trial_blocks self.now) true b result buffer.old buffer.new }
    {
        if b >= self.size() {
            Err(ReadError::Outside)
        } else if self.marks[b] != 0 {
            Err(ReadError::Unreadable)
        } else {
            self.image.read(b, buffer)
        }
    }

    // The cut that is armed.
    fn cut(&self) -> Cut
        ensures { result ≡ armed_cut self.now }
    {
        self.cuts.get(self.armed).copied().unwrap_or(Cut::NEVER)
    }

    // Counts a store that has passed the tests: the manner of the cut, if it is the one to be cut.
    fn count(&mut self) -> Option<Manner>
        ensures value { result ≡ cond (hit self.old) (Some (armed_cut self.old).manner) None }
        ensures same { (self.new.image ≡ self.old.image) × (self.new.marks ≡ self.old.marks) }
        ensures after { Others self.old (count_on self.old) self.old.lit self.new }
    {
        let Cut { at, manner } = self.cut();
        if self.stored >= at {
            return None;
        }
        self.stored += 1;
        (self.stored == at).then_some(manner)
    }

    // Block `b` holds the bytes and can be read.
    fn put(&mut self, b: usize, bytes: &[u8; 512])
        requires { b < length (trial_blocks self.old) }
        ensures after { trial_blocks self.new ≡ slice_set (trial_blocks self.old) b (Block.readable bytes.now) }
        ensures contents { contents self.new ≡ filled (contents self.old) b bytes.now }
        ensures same { Others self.old self.old.stored self.old.lit self.new }
    {
        let _ = self.image.store(b, bytes);
        self.marks[b] = 0;
    }

    // Block `b` cannot be read any more.
    fn lose(&mut self, b: usize)
        requires { b < length (trial_blocks self.old) }
        ensures after { trial_blocks self.new ≡ slice_set (trial_blocks self.old) b Block.unreadable }
        ensures contents { contents self.new ≡ cut_contents Unreadable (contents self.old) b [] }
        ensures same { Others self.old self.old.stored self.old.lit self.new }
    {
        self.marks[b] = 1;
    }
}

impl Device for Trial {
    ghost blocks = { trial_blocks };

    ghost lit = { λ t. t.lit };

    ghost whole = { λ t. masked_whole (image_blocks t.image.bytes.items) t.marks.items (image_whole t.image.bytes.items) };

    ghost puts = { TrialStores };

    ghost lights = { TrialLights };

    fn size(&self) -> usize {
        self.image.size().min(self.marks.len())
    }

    fn read(&self, b: usize, buffer: &mut [u8; 512]) -> Result<(), ReadError> {
        if b >= self.size() {
            return Err(ReadError::Outside);
        }
        if !self.lit {
            return Err(ReadError::Dark);
        }
        self.peek(b, buffer)
    }

    fn store(&mut self, b: usize, bytes: &[u8; 512]) -> Result<(), StoreError>
        ensures stores { Stores (trial_blocks self.old) self.old.lit b bytes.now result (trial_blocks self.new) self.new.lit }
        ensures exact { TrialStores self.old b bytes.now result self.new }
    {
        if b >= self.size() {
            return Err(StoreError::Outside);
        }
        if !self.lit {
            return Err(StoreError::Dark);
        }
        let Some(manner) = self.count() else {
            self.put(b, bytes);
            return Ok(());
        };
        self.lit = false;
        match manner {
            Manner::Old => {}
            Manner::New => self.put(b, bytes),
            Manner::Unreadable => self.lose(b),
        }
        Err(StoreError::Dark)
    }

    fn light(&mut self)
        ensures same { trial_blocks self.new ≡ trial_blocks self.old }
        ensures after { self.new.lit ≡ true }
        ensures exact { TrialLights self.old self.new }
    {
        if self.armed < 8 {
            self.armed += 1;
        }
        self.stored = 0;
        self.lit = true;
    }
}

/// The store that is cut is the one that bears the armed cut's number, counted since the last
/// light, and no other.
pub fn numbered_store_is_cut()
    ensures { NumberedStoreIsCut }
{}
