// Reading the words of an object.
ghost use Rattle.std.specs.Prelude.{◌≡◌, ℕ, ◌+◌, ◌*◌, ◌<◌, ◌≤◌, true, length, Ok, slice_index};
ghost use Rattle.lookup.specs.Reading.{position_bytes, position_words, has_word, Filled, unreadable_in, words_read};
ghost use Rattle.object.specs.Roots.{zeros};

use device::{Device, PowerCut};
use journal::load;
use object::words_of_block;

// A position without a block.
#[tactic(auto, unfolding(object::specs::Roots::zeros))]
fn zero_block() -> [u8; 512]
    ensures { result ≡ zeros }
{
    [0; 512]
}

/// The bytes of the block at address `a`; zeros if `a` is 0 or the block cannot be read.
pub fn position_bytes<D: Device>(device: &D, a: u16) -> Result<[u8; 512], PowerCut>
    ensures { D.lit device.now ≡ true → result ≡ Ok (position_bytes (D.blocks device.now) a) }
{
    if a == 0 {
        return Ok(zero_block());
    }
    Ok(load(device, usize::from(a))?.unwrap_or_else(zero_block))
}

/// The words of a position whose block is at address `a`: zeros if `a` is 0, none if the block
/// cannot be read.
pub fn position_words<D: Device>(device: &D, a: u16) -> Result<Option<[u16; 256]>, PowerCut>
    ensures { D.lit device.now ≡ true → result ≡ Ok (position_words (D.blocks device.now) a) }
{
    if a == 0 {
        return Ok(Some([0; 256]));
    }
    // By let else: the check proves it alone, and not a `map` over the bytes.
    let Some(bytes) = load(device, usize::from(a))? else {
        return Ok(None);
    };
    Ok(Some(words_of_block(&bytes)))
}

// Whether position `p` has one of `n` words from word `offset` on.
fn has_word(offset: usize, n: usize, p: usize) -> bool
    requires { p < 64 }
    ensures { result ≡ has_word offset n p }
{
    n > 0 && (256 * p < offset || 256 * p - offset < n) && offset < 256 * p + 256
}

// Copies the words of position `p` that a buffer from word `offset` on wants.
fn put_position(buffer: &mut [u16], offset: usize, p: usize, words: &[u16; 256])
    requires { p < 64 }
    ensures { (f : ℕ → ℕ) → ((i : ℕ) → i < 256 → slice_index words.now i ≡ f (256 * p + i)) → Filled f offset (256 * p) buffer.old → Filled f offset (256 * p + 256) buffer.new }
{
    // Word by word: a span that is copied at once would have to be cut to the buffer at both ends.
    for (i, w) in words.iter().enumerate() {
        let k = 256 * p + i;
        if k >= offset && k - offset < buffer.len() {
            buffer[k - offset] = *w;
        }
    }
}

/// Fills the buffer with the words of an object from word `offset` on, given the address of each
/// position's block, or 0. Each position that has one of the words is read once. If one cannot be
/// read, the answer is the address of the first such, and the buffer is zero. The words are to lie
/// inside the object, below word 16384.
// An Option inside the Result: an error of its own for it would be a Result in a Result.
pub fn read_words<D: Device>(
    device: &D,
    addresses: &[u16; 64],
    offset: usize,
    buffer: &mut [u16],
) -> Result<Option<u16>, PowerCut>
    ensures value { D.lit device.now ≡ true → result ≡ Ok (unreadable_in (D.blocks device.now) addresses.now offset (length buffer.old)) }
    ensures after { D.lit device.now ≡ true → offset + length buffer.old ≤ 16384 → buffer.new ≡ words_read (D.blocks device.now) addresses.now offset (length buffer.old) }
{
    for (p, a) in addresses.iter().enumerate() {
        if !has_word(offset, buffer.len(), p) {
            continue;
        }
        let Some(words) = position_words(device, *a)? else {
            buffer.fill(0);
            return Ok(Some(*a));
        };
        put_position(buffer, offset, p, &words);
    }
    Ok(None)
}
