// The plug-pull bench: replays the save procedure in use today on the trial drive, and chooses the
// store that each cut hits.
#![tactic(auto)]

mod tally;

use device::{Cut, Manner, Trial};
use saving::{Job, Report, replay};
use std::alloc::{AllocError, Global};
use std::io;
use tally::{Fault, Tally};

const MANNERS: [Manner; 3] = [Manner::Old, Manner::New, Manner::Unreadable];

// more stores than a save or a recovery makes
const FAR: u32 = 64;

// A job whose part i is filled with `first + i`.
fn job(first: u8) -> Job {
    Job {
        parts: [0, 1, 2, 3, 4, 5, 6, 7].map(|i| [first.wrapping_add(i); 512]),
    }
}

// A drive of 17 readable blocks that holds the job, no spare copy and no marker.
fn drive(heap: Global, job: &Job, first: Cut, second: Cut) -> Result<Trial, AllocError> {
    let mut bytes = Vec::new(heap);
    bytes.extend_from_slice(job.parts.as_flattened())?;
    bytes.resize(17 * 512, 0)?;
    let marks = vec![in heap; 0; 17]?;
    let mut cuts = [Cut::NEVER; 8];
    cuts[..2].copy_from_slice(&[first, second]);
    Ok(Trial::new(bytes, marks, cuts))
}

fn run(heap: Global, first: Cut, second: Cut) -> Result<Report, AllocError> {
    let old = job(0x10);
    let new = job(0x80);
    let mut drive = drive(heap, &old, first, second)?;
    Ok(replay(&mut drive, &old, &new))
}

// Visits the cuts in turn, each store left old, new and unreadable, as long as the visit goes on.
fn each_cut<F: FnMut(Cut) -> Result<bool, AllocError>>(mut visit: F) -> Result<(), AllocError>
    requires { F.IsAlwaysCallable visit }
{
    for cut in (1..FAR).flat_map(|at| MANNERS.map(|manner| Cut { at, manner })) {
        if !visit(cut)? {
            return Ok(());
        }
    }
    Ok(())
}

// Every first cut alone.
fn one_cut(heap: Global) -> Result<Tally, AllocError> {
    let mut tally = Tally::new(heap);
    each_cut(|first| {
        let report = run(heap, first, Cut::NEVER)?;
        if report.saved {
            return Ok(false);
        }
        tally.note(first, None, report.outcome)?;
        Ok(true)
    })?;
    Ok(tally)
}

// Every first cut with every second cut that the recovery reaches.
fn two_cuts(heap: Global) -> Result<Tally, AllocError> {
    let mut tally = Tally::new(heap);
    each_cut(|first| {
        if run(heap, first, Cut::NEVER)?.saved {
            return Ok(false);
        }
        each_cut(|second| {
            let report = run(heap, first, second)?;
            if report.cuts == 0 {
                return Ok(false);
            }
            tally.note(first, Some(second), report.outcome)?;
            Ok(true)
        })?;
        Ok(true)
    })?;
    Ok(tally)
}

fn show_fault(rt: &HostRuntime, fault: &Fault) -> io::Result<()> {
    let Cut { at, manner } = fault.first;
    print!(rt; "    save cut at store {at:>2}, left {manner:<10}")?;
    if let Some(Cut { at, manner }) = fault.second {
        print!(rt; "  recovery cut at store {at}, left {manner:<10}")?;
    }
    println!(rt; "  {}", fault.outcome)
}

fn show(rt: &HostRuntime, title: &str, tally: &Tally) -> io::Result<()> {
    println!(rt; "{title}")?;
    println!(rt; "  runs                {:>4}", tally.runs)?;
    println!(rt; "  whole old job       {:>4}", tally.old)?;
    println!(rt; "  whole new job       {:>4}", tally.new)?;
    println!(rt; "  ended otherwise     {:>4}", tally.faults.len())?;
    for fault in tally.faults.iter() {
        show_fault(rt, fault)?;
    }
    println!(rt; "")
}

fn main(rt: HostRuntime) -> io::Result<()> {
    println!(rt; "Plug-pull bench: the save procedure in use today")?;
    println!(rt; "")?;
    println!(rt; "  job: nest in blocks 0-1, contours in 2-4, head path in 5-7")?;
    println!(rt; "  save: copy the new job to the spare blocks 8-15, set the marker in 16,")?;
    println!(rt; "        copy the job over the old one, take the marker away")?;
    println!(rt; "  recovery: if the marker is there, copy once more and take it away")?;
    println!(rt; "")?;
    let heap = rt.alloc();
    show(
        &rt,
        "One cut, during the save: every store, left old, new or unreadable",
        &one_cut(heap)?,
    )?;
    show(
        &rt,
        "Two cuts: each of those, and then every cut of the recovery",
        &two_cuts(heap)?,
    )
}
