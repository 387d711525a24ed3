// Bytes, words and numbers of a block.
ghost use Rattle.std.specs.Prelude.{◌≡◌, ◌+◌, ◌*◌, ◌<◌, ◌≤◌, length};
ghost use Rattle.map.specs.Bytes.{number4, placed};
ghost use Rattle.object.specs.Words.{word_at, bytes_of};

// These bytes from `at` on, in the place of as many.
pub(crate) fn put_bytes(block: &mut [u8; 512], at: usize, bytes: &[u8])
    requires { at + length bytes.now ≤ 512 }
    ensures { block.new ≡ placed at bytes.now block.old }
{
    block[at..at + bytes.len()].copy_from_slice(bytes);
}

// These words from `at` on, low byte first, in the place of as many bytes.
pub(crate) fn put_words(block: &mut [u8; 512], at: usize, words: &[u16])
    requires { at + 2 * length words.now ≤ 512 }
    ensures { block.new ≡ placed at (bytes_of words.now) block.old }
{
    for (i, w) in words.iter().enumerate() {
        put_bytes(block, at + 2 * i, &w.to_le_bytes());
    }
}

// The 32-bit number that stands from `at` on.
pub(crate) fn number_at(block: &[u8; 512], at: usize) -> u32
    requires { at + 4 ≤ 512 }
    ensures { result ≡ number4 block.now at }
{
    u32::from_le_bytes([block[at], block[at + 1], block[at + 2], block[at + 3]])
}

// Word `i` of a block, low byte first.
pub(crate) fn word_at(block: &[u8; 512], i: usize) -> u16
    requires { i < 256 }
    ensures { result ≡ word_at block.now i }
{
    u16::from_le_bytes([block[2 * i], block[2 * i + 1]])
}
