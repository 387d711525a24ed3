// The save procedure in use today: copy aside, set a marker, copy over, take the marker away.
ghost use Rattle.std.specs.Prelude.{◌≡◌, ℕ, ◌+◌, ◌<◌, ◌≤◌, true, false, List, [], ◌∷◌, length};
ghost use Rattle.std.specs.Option.{option_map};
ghost use Rattle.device.specs.Blocks.{block_at};
ghost use Rattle.device.specs.Plans.{write, Runs};
ghost use Rattle.saving.specs.Procedure.{copies, marker_block, copies_marked, save_plan, marker_of, loaded, recovery_plan, Judged, Replays};

use crate::job::Job;
use crate::outcome::{Outcome, Report};
use device::{Device, PowerCut, put};

// where the spare copy of the job begins, and where the marker stands
const SPARE: u8 = 8;

const MARKER: usize = 16;

// the marker's first byte
const SET: u8 = 1;

const CLEAR: u8 = 0;

// The job's parts, block after block.
fn copy<D: Device>(device: &mut D, job: &Job, from: u8) -> Result<(), PowerCut>
    ensures { Runs (D.blocks device.old) (D.lit device.old) (copies job.now.parts from) result (D.blocks device.new) (D.lit device.new) }
{
    for (i, part) in job.parts.iter().enumerate() {
        put(device, usize::from(from) + i, part)?;
    }
    Ok(())
}

// The marker block: its first byte says whether the marker is set.
fn marker_block(mark: u8) -> [u8; 512]
    ensures { result ≡ marker_block mark }
{
    let mut bytes = [0; 512];
    bytes[0] = mark;
    bytes
}

// The job's parts, and then the marker, set or taken away.
fn copy_and_mark<D: Device>(device: &mut D, job: &Job, from: u8, mark: u8) -> Result<(), PowerCut>
    ensures { Runs (D.blocks device.old) (D.lit device.old) (copies_marked job.now.parts from mark) result (D.blocks device.new) (D.lit device.new) }
{
    copy(device, job, from)?;
    put(device, MARKER, &marker_block(mark))
}

// The new job to the spare blocks, the marker, the job over the old one, and no marker.
fn save<D: Device>(device: &mut D, job: &Job) -> Result<(), PowerCut>
    ensures { Runs (D.blocks device.old) (D.lit device.old) (save_plan job.now.parts) result (D.blocks device.new) (D.lit device.new) }
{
    copy_and_mark(device, job, SPARE, SET)?;
    copy_and_mark(device, job, 0, CLEAR)
}

// Whether the marker is set, so that a save was under way; none if it cannot be read.
fn marker<D: Device>(device: &D) -> Option<bool>
    ensures { D.lit device.now ≡ true → result ≡ marker_of (block_at (D.blocks device.now) 16) }
{
    let mut bytes = [0; 512];
    device.read(MARKER, &mut bytes).ok()?;
    Some(bytes[0] != 0)
}

// The parts that stand from `from` on, if all can be read.
fn load<D: Device>(device: &D, from: u8) -> Option<Job>
    ensures { D.lit device.now ≡ true → option_map (λ job. job.parts) result ≡ loaded (D.blocks device.now) from 8 }
{
    let mut parts = [[0; 512]; 8];
    for (i, part) in parts.iter_mut().enumerate() {
        device.read(usize::from(from) + i, part).ok()?;
    }
    Some(Job { parts })
}

// After a cut: if the marker is there, the spare copy over the job once more, and no marker.
fn recover<D: Device>(device: &mut D) -> Result<(), PowerCut>
    ensures { D.lit device.old ≡ true → Runs (D.blocks device.old) true (recovery_plan (D.blocks device.old)) result (D.blocks device.new) (D.lit device.new) }
{
    if marker(device) != Some(true) {
        return Ok(());
    }
    match load(device, SPARE) {
        Some(job) => copy_and_mark(device, &job, 0, CLEAR),
        None => Ok(()),
    }
}

// What stands in the job's place.
fn judge<D: Device>(device: &D, old: &Job, new: &Job) -> Outcome
    ensures { D.lit device.now ≡ true → Judged old.now.parts new.now.parts (D.blocks device.now) result }
{
    if marker(device).is_none() {
        return Outcome::MarkerUnreadable;
    }
    match load(device, 0) {
        None => Outcome::PartUnreadable,
        Some(job) if job.same(old) => Outcome::Old,
        Some(job) if job.same(new) => Outcome::New,
        Some(_) => Outcome::Mixed,
    }
}

/// Saves the new job on a drive that holds the old one, and recovers after each cut, at most nine
/// times, until a recovery is whole. Then it says what stands in the job's place.
pub fn replay<D: Device>(device: &mut D, old: &Job, new: &Job) -> Report
    ensures { Replays (D.blocks device.old) old.now.parts new.now.parts result (D.blocks device.new) }
{
    if device.size() < 17 {
        return Report {
            saved: false,
            cuts: 0,
            outcome: Outcome::TooSmall,
        };
    }
    let saved = save(device, new).is_ok();
    for cuts in 0..9 {
        device.light();
        if recover(device).is_ok() {
            let outcome = judge(device, old, new);
            return Report {
                saved,
                cuts,
                outcome,
            };
        }
    }
    Report {
        saved,
        cuts: 9,
        outcome: Outcome::Unfinished,
    }
}
