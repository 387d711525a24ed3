// Reading the words of a file.
ghost use Rattle.std.specs.Prelude.{◌≡◌, length};
ghost use Rattle.store.specs.Decisions.{Obeys};
ghost use Rattle.store.specs.Model.{seen};
ghost use Rattle.store.specs.Reading.{in_object, read_rule, buffer_after};

use crate::name::Name;
use crate::phase::Asked;
use crate::refusals::Refusal;
use crate::stores::{Store, or_down};
use device::Device;
use lookup::read_words;
use map::Kind;

// Whether so many words from `offset` on lie within an object.
fn is_in_object(offset: u64, n: usize) -> bool
    ensures { result ≡ in_object offset n }
{
    n <= 16384 && offset <= 16384 - n as u64
}

impl<D: Device> Store<D> {
    /// Reads the words of a file from word `offset` on into the buffer. Where a block cannot be read,
    /// the buffer is all zero. What an open transaction has staged does not show.
    pub fn read(&mut self, name: Name, offset: u64, buffer: &mut [u16]) -> Result<(), Refusal>
        ensures rule { Obeys D.Device (read_rule name offset (length buffer.old)) self.old result self.new }
        ensures buffer { buffer.new ≡ buffer_after name offset (seen D.Device self.old) buffer.old result }
    {
        self.phase.admit(Asked::Up)?;
        let object = self.object(name)?;
        if object.kind == Kind::Index {
            return Err(Refusal::WrongKind);
        }
        if !is_in_object(offset, buffer.len()) {
            return Err(Refusal::Range);
        }
        let read = read_words(&self.device, &object.blocks, offset as usize, buffer);
        match or_down(&mut self.phase, read)? {
            None => Ok(()),
            Some(a) => Err(Refusal::Unreadable(a)),
        }
    }
}
