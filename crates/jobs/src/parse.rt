// What a line of a script says.
use crate::words::{number, words};
use device::{Cut, Manner};
use std::alloc::Global;
use std::error::Error;
use store::{Call, Name};

/// One line of a script.
#[derive(Drop)]
pub enum Line {
    /// Nothing, or a comment.
    Empty,
    /// A drive of so many blocks.
    Drive(u64),
    /// A cut of the drive's power.
    Cut(Cut),
    /// A call.
    Call(Call),
    /// A look at a block.
    Dump(u64),
}

/// Why a line was not taken.
#[derive(Drop)]
pub enum LineError {
    /// It is none that is known, or it stands in the wrong place. The script goes on.
    NotUnderstood,
    /// Memory or output failed, which ends the script.
    Failed(anyhow::Error),
}

impl<E: Error> From<E> for LineError {
    fn from(error: E) -> LineError {
        LineError::Failed(error.into())
    }
}

// no FromStr: words are bytes, and `Manner` belongs to device
fn manner(word: &[u8]) -> Option<Manner> {
    match word {
        b"old" => Some(Manner::Old),
        b"new" => Some(Manner::New),
        b"unreadable" => Some(Manner::Unreadable),
        _ => None,
    }
}

// `cut K MANNER`
fn cut(at: &[u8], how: &[u8]) -> Option<Cut> {
    Some(Cut {
        at: u32::try_from(number(at)?).ok()?,
        manner: manner(how)?,
    })
}

// The calls on an index and on objects outside a transaction.
fn index_call(verb: &[u8], numbers: &[u64]) -> Option<Call> {
    match (verb, numbers) {
        (b"format", &[tag]) => Some(Call::Format {
            tag: u32::try_from(tag).ok()?,
        }),
        (b"create", &[tag, root, entry, kind, new]) => Some(Call::Create {
            index: Name { tag, root },
            entry,
            kind,
            tag: u32::try_from(new).ok()?,
        }),
        (b"preserve", &[tag, root, entry, t, r]) => Some(Call::Preserve {
            index: Name { tag, root },
            entry,
            object: Name { tag: t, root: r },
        }),
        (b"delete", &[tag, root, entry]) => Some(Call::Delete {
            index: Name { tag, root },
            entry,
        }),
        (b"retrieve", &[tag, root, entry]) => Some(Call::Retrieve {
            index: Name { tag, root },
            entry,
        }),
        (b"read", &[tag, root, offset, length]) => Some(Call::Read {
            object: Name { tag, root },
            offset,
            length,
        }),
        _ => None,
    }
}

// The calls on a transaction, but stage.
fn ticket_call(verb: &[u8], numbers: &[u64]) -> Option<Call> {
    let &[tag, root, ref rest @ ..] = numbers else {
        return None;
    };
    let ticket = Name { tag, root };
    match (verb, rest) {
        (b"begin", []) => Some(Call::Begin { object: ticket }),
        (b"clear", &[position]) => Some(Call::Clear { ticket, position }),
        (b"commit", []) => Some(Call::Commit { ticket }),
        (b"settle", []) => Some(Call::Settle { ticket }),
        (b"abandon", []) => Some(Call::Abandon { ticket }),
        _ => None,
    }
}

// The words to be staged, if each is below 2^16.
fn staged(heap: Global, numbers: &[u64]) -> Result<Vec<u16>, LineError> {
    numbers
        .iter()
        .map(|n| u16::try_from(*n).map_err(|_| LineError::NotUnderstood))
        .try_collect(heap)
}

// A line whose words after the first are numbers.
fn numbered(heap: Global, verb: &[u8], numbers: &[u64]) -> Result<Line, LineError> {
    match (verb, numbers) {
        (b"drive", &[size]) => Ok(Line::Drive(size)),
        (b"dump", &[block]) => Ok(Line::Dump(block)),
        (b"stage", &[tag, root, position, first, ref words @ ..]) => Ok(Line::Call(Call::Stage {
            ticket: Name { tag, root },
            position,
            first,
            words: staged(heap, words)?,
        })),
        _ => {
            let call = index_call(verb, numbers).or_else(|| ticket_call(verb, numbers));
            Ok(Line::Call(call.ok_or(LineError::NotUnderstood)?))
        }
    }
}

/// What a line says.
pub fn parse(heap: Global, line: &[u8]) -> Result<Line, LineError> {
    let words = words(heap, line)?;
    match words.as_slice() {
        [] => Ok(Line::Empty),
        [b"cut", at, how] => cut(at, how).map(Line::Cut).ok_or(LineError::NotUnderstood),
        [verb, rest @ ..] => {
            let numbers: Vec<u64> = rest
                .iter()
                .map(|word| number(word).ok_or(LineError::NotUnderstood))
                .try_collect(heap)?;
            numbered(heap, verb, numbers.as_slice())
        }
    }
}
