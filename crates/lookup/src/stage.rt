// The blocks that a staged write makes.
ghost use Rattle.std.specs.Prelude.{◌≡◌, ◌+◌, ◌≤◌, length};
ghost use Rattle.lookup.specs.Staging.{staged, staged_block, StagedWords};
ghost use Rattle.object.specs.Indexes.{entered};

use map::Identifier;
use object::{block_of_words, set_index_entry, words_return};

// The words with a run of new ones in the place of as many.
fn staged_words(words: &[u16; 256], first: usize, new: &[u16]) -> [u16; 256]
    requires { first + length new.now ≤ 256 }
    ensures { result ≡ staged words.now first new.now }
{
    let mut staged = *words;
    staged[first..first + new.len()].copy_from_slice(new);
    staged
}

/// The block that a position with these words has after a run of new ones is put at word `first`;
/// none if the run would leave the position.
pub fn staged_block(words: &[u16; 256], first: usize, new: &[u16]) -> Option<[u8; 512]>
    ensures { result ≡ staged_block words.now first new.now }
{
    // Not by `replace_words`: it tells the words of its block, and no bound of the bytes comes with them
    // to tell the bytes by.
    if new.len() > 256 || first > 256 - new.len() {
        return None;
    }
    Some(block_of_words(&staged_words(words, first, new)))
}

/// The words of a staged block are the words that were staged.
pub fn staged_words_return()
    ensures { StagedWords }
{
    words_return();
}

/// A copy of the block with entry `e` of an index set, or emptied.
pub fn entered_block(block: &[u8; 512], e: u16, id: Option<Identifier>) -> [u8; 512]
    ensures { result ≡ entered block.now e id }
{
    let mut copy = *block;
    set_index_entry(&mut copy, e, id);
    copy
}
