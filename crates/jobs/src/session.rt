// A script under way: the drive that it asked for, and the store on it.
use crate::parse::LineError;
use crate::print::Look;
use device::{Cut, Device, ReadError, Trial};
use std::alloc::{AllocError, Global};
use std::array;
use store::{Answer, Call, Store};

// How many cuts a trial drive takes.
const CUTS: usize = 8;

/// The drive of a script, until its first call and from then on.
#[derive(Drop)]
pub enum Session {
    /// No drive was asked for.
    NoDrive,
    /// A drive of so many blocks was asked for, with these cuts, eight at most.
    Asked {
        size: u16,
        cuts: Vec<Cut>,
    },
    /// The store on the drive, and the calls that it is yet to play.
    Playing {
        store: Store<Trial>,
        calls: Vec<Call>,
    },
}

impl Session {
    /// Asks for a drive of so many blocks. Refused if there is one, or if there can be none.
    pub fn drive(&mut self, size: u64, heap: Global) -> Result<(), LineError> {
        match (&self, u16::try_from(size)) {
            (Session::NoDrive, Ok(size @ 1..=2048)) => {
                *self = Session::Asked {
                    size,
                    cuts: Vec::new(heap),
                };
                Ok(())
            }
            _ => Err(LineError::NotUnderstood),
        }
    }

    /// Asks for a cut. Refused before there is a drive, from the first call on, and for a ninth one.
    pub fn cut(&mut self, cut: Cut) -> Result<(), LineError> {
        match self {
            Session::Asked { cuts, .. } if cuts.len() < CUTS => Ok(cuts.push(cut)?),
            _ => Err(LineError::NotUnderstood),
        }
    }

    /// Asks for a call, the first of which makes the drive. Refused before a drive is asked for.
    pub fn call(&mut self, call: Call, heap: Global) -> Result<(), LineError> {
        if let Session::Asked { size, cuts } = self {
            let store = Store::attach(trial(heap, *size, cuts.as_slice())?);
            *self = Session::Playing {
                store,
                calls: Vec::new(heap),
            };
        }
        match self {
            Session::Playing { calls, .. } => Ok(calls.push(call)?),
            _ => Err(LineError::NotUnderstood),
        }
    }

    /// Plays the calls that were asked for since the last time, and gives their answers.
    pub fn play(&mut self, heap: Global) -> Result<Vec<Answer>, AllocError> {
        let mut log = Vec::new(heap);
        if let Session::Playing { store, calls } = self {
            store.play(calls.as_slice(), &mut log, heap)?;
            calls.clear();
        }
        Ok(log)
    }

    /// Block `b` of the drive, lit or dark. Refused before there is a drive.
    pub fn look(&self, b: u64) -> Result<Look, LineError> {
        let mut bytes = [0; 512];
        let read = match self {
            Session::NoDrive => return Err(LineError::NotUnderstood),
            Session::Asked { size, .. } if b >= u64::from(*size) => Err(ReadError::Outside),
            // before the first call it is all zeros
            Session::Asked { .. } => Ok(()),
            Session::Playing { store, .. } => store.device().peek(b as usize, &mut bytes),
        };
        Ok(Look(read.map(|()| bytes)))
    }
}

// A drive of so many blocks, all zeros and readable.
fn trial(heap: Global, size: u16, cuts: &[Cut]) -> Result<Trial, AllocError> {
    let size = usize::from(size);
    let bytes = vec![in heap; 0u8; 512 * size]?;
    let marks = vec![in heap; 0u8; size]?;
    let cuts = array::from_fn(|i| cuts.get(i).copied().unwrap_or(Cut::NEVER));
    Ok(Trial::new(bytes, marks, cuts))
}
