// A position's block as 256 words.
ghost use Rattle.std.specs.Prelude.{◌≡◌, ◌+◌, false, length, if◌then◌else◌, nat_le};
ghost use Rattle.object.specs.Words.{words_of, bytes_of, replaced, WordsReturn};

use crate::bytes::{put_words, word_at};
use std::array;

/// The 256 words of a block, low byte first.
pub fn words_of_block(block: &[u8; 512]) -> [u16; 256]
    ensures { result ≡ words_of block.now }
{
    array::from_fn(|i| word_at(block, i))
}

/// The block that holds these words.
pub fn block_of_words(words: &[u16; 256]) -> [u8; 512]
    ensures { result ≡ bytes_of words.now }
{
    let mut block = [0; 512];
    put_words(&mut block, 0, words);
    block
}

/// Replaces the words from `first` on by new ones, and keeps the others. If they would leave the
/// block, it stays as it is, and the answer is false.
// A bool, as of a set's `insert`: there is one reason to refuse and nothing to tell of it.
pub fn replace_words(block: &mut [u8; 512], first: usize, new: &[u16]) -> bool
    ensures value { result ≡ nat_le (first + length new.now) 256 }
    ensures after { words_of block.new ≡ (if result then replaced (words_of block.old) first new.now else words_of block.old) }
    ensures same { result ≡ false → block.new ≡ block.old }
{
    if new.len() > 256 || first > 256 - new.len() {
        return false;
    }
    put_words(block, 2 * first, new);
    true
}

/// Bytes read as words and written again are the same, and so are words.
pub fn words_return()
    ensures { WordsReturn }
{}
