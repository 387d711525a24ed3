// What is printed for a line of a script.
use device::ReadError;
use std::fmt;
use store::{Answer, Call};

/// The word that a call begins with.
// no method: `Call` belongs to store, which knows no words
pub fn verb(call: &Call) -> &'static str {
    match call {
        Call::Format { .. } => "format",
        Call::Create { .. } => "create",
        Call::Preserve { .. } => "preserve",
        Call::Delete { .. } => "delete",
        Call::Retrieve { .. } => "retrieve",
        Call::Read { .. } => "read",
        Call::Begin { .. } => "begin",
        Call::Stage { .. } => "stage",
        Call::Clear { .. } => "clear",
        Call::Commit { .. } => "commit",
        Call::Settle { .. } => "settle",
        Call::Abandon { .. } => "abandon",
    }
}

/// The line for a call and its answer.
#[derive(Clone, Copy)]
pub struct Answered<'a> {
    pub verb: &'static str,
    pub answer: &'a Answer,
}

impl fmt::Display for Answered<'_> {
    fn fmt<W: fmt::Write>(&self, f: &mut fmt::Formatter<W>) -> fmt::Result {
        let verb = self.verb;
        match self.answer {
            Answer::Done => write!(f, "{verb}: ok"),
            Answer::Named(id) | Answer::Found(Some(id)) => {
                write!(f, "{verb}: ok {} {}", id.tag(), id.root())
            }
            Answer::Found(None) => write!(f, "{verb}: ok none"),
            Answer::Counted(n) => write!(f, "{verb}: ok {n}"),
            Answer::Shown(words) => {
                write!(f, "{verb}: ok")?;
                for w in words {
                    write!(f, " {w}")?;
                }
                Ok(())
            }
            Answer::Refused(why) => {
                let number = why.number();
                match why.address() {
                    Some(a) => write!(f, "{verb}: refused {number} {a}"),
                    None => write!(f, "{verb}: refused {number}"),
                }
            }
        }
    }
}

/// What a look at a block shows: its bytes, or why there are none. It prints whole lines, with 32
/// bytes to a line.
#[derive(Clone, Copy)]
pub struct Look(pub Result<[u8; 512], ReadError>);

impl fmt::Display for Look {
    fn fmt<W: fmt::Write>(&self, f: &mut fmt::Formatter<W>) -> fmt::Result {
        match &self.0 {
            Ok(bytes) => {
                for (i, b) in bytes.iter().enumerate() {
                    let end = if i % 32 == 31 { '\n' } else { ' ' };
                    write!(f, "{b:02x}{end}")?;
                }
                Ok(())
            }
            Err(ReadError::Outside) => writeln!(f, "dump: refused 9"),
            Err(ReadError::Dark | ReadError::Unreadable) => writeln!(f, "unreadable"),
        }
    }
}
