// Runs a script of calls on a trial drive, and prints a line for each call.
#![tactic(auto)]

mod parse;
mod print;
mod session;
mod words;

use parse::{Line, LineError, parse};
use print::{Answered, verb};
use session::Session;
use std::io::Read;

/// What is to be printed once the calls so far are played.
#[derive(Clone, Copy)]
enum Due {
    /// The line of this number was not understood.
    NotUnderstood(usize),
    /// The answer of a call.
    Answer(&'static str),
}

/// A script under way, and what is to be printed of it.
#[derive(Drop)]
struct Script {
    session: Session,
    due: Vec<Due>,
}

impl Script {
    // Plays what is pending and prints it.
    fn flush(&mut self, rt: &HostRuntime) -> anyhow::Result<()> {
        let log = self.session.play(rt.alloc())?;
        let mut answers = log.iter();
        for line in self.due.iter() {
            match line {
                Due::NotUnderstood(number) => println!(rt; "line {number}: not understood")?,
                Due::Answer(verb) => {
                    if let Some(answer) = answers.next() {
                        println!(rt; "{}", Answered { verb, answer })?;
                    }
                }
            }
        }
        self.due.clear();
        Ok(())
    }

    // One line of the script.
    fn take(&mut self, rt: &HostRuntime, line: &[u8]) -> Result<(), LineError> {
        match parse(rt.alloc(), line)? {
            Line::Empty => Ok(()),
            Line::Drive(size) => self.session.drive(size, rt.alloc()),
            Line::Cut(cut) => self.session.cut(cut),
            // refused before the flush: a line that is not understood prints nothing by itself
            Line::Dump(_) if matches!(self.session, Session::NoDrive) => {
                Err(LineError::NotUnderstood)
            }
            Line::Dump(block) => {
                self.flush(rt).map_err(LineError::Failed)?;
                let look = self.session.look(block)?;
                Ok(print!(rt; "{look}")?)
            }
            Line::Call(call) => {
                let verb = verb(&call);
                self.session.call(call, rt.alloc())?;
                Ok(self.due.push(Due::Answer(verb))?)
            }
        }
    }
}

fn main(rt: HostRuntime) -> anyhow::Result<()> {
    let mut text = Vec::new(rt.alloc());
    let _ = rt.stdin().read_to_end(&mut text)?;
    let mut script = Script {
        session: Session::NoDrive,
        due: Vec::new(rt.alloc()),
    };
    // an empty line says nothing, nor does the one after the last line end
    let lines = text.split(|b| *b == b'\n').zip(1usize..);
    for (line, number) in lines.filter(|(line, _)| !line.is_empty()) {
        match script.take(&rt, line) {
            Ok(()) => {}
            Err(LineError::NotUnderstood) => script.due.push(Due::NotUnderstood(number))?,
            Err(LineError::Failed(error)) => return Err(error),
        }
    }
    script.flush(&rt)
}
