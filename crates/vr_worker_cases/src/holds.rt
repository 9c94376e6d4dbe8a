//! Decks that gates hold, and decks with nothing to ask or nobody to ask it of.

use crate::gates::BetweenEvents;
use crate::steps::{bound, run_none, run_three};
use crate::volume::PlainVolume;
use std::alloc::Global;
use std::sync::Wait;
use std::thread::Threads;
use vr_history::{Entry, History, What};
use vr_outside::{BothHeld, OpenGate};
use vr_trace::RunNo;
use vr_types::OutOfMemory;
use vr_worker::RunEnd;

/// The entries of volume 0, where deck 1 is held between the two events of its request there until
/// deck 2 asked two there.
pub fn held_between<R: Threads + Wait + Sync>(
    rt: &R,
    alloc: Global,
) -> Result<String, OutOfMemory> {
    let first = vec![in alloc; bound(alloc, 0, 1, true)?]?;
    let second = vec![in alloc;
        bound(alloc, 1, 2, false)?,
        bound(alloc, 0, 3, false)?,
        bound(alloc, 0, 4, false)?,
    ]?;
    let gate = BetweenEvents::new();
    let end = run_three(rt, alloc, first, second, Vec::new(alloc), &gate)?;
    match end.volumes.get(0) {
        Some(volume) => shown(alloc, &volume.history),
        None => Ok(String::new(alloc)),
    }
}

/// The entries of a history, by their decks and kinds.
fn shown(alloc: Global, history: &History) -> Result<String, OutOfMemory> {
    let mut out = String::new(alloc);
    for entry in history.entries() {
        if !out.is_empty() {
            out.push_str(", ")?;
        }
        show(&mut out, entry)?;
    }
    Ok(out)
}

fn show(out: &mut String, entry: &Entry) -> Result<(), OutOfMemory> {
    out.push_str(match entry.unit.deck {
        1 => "1",
        2 => "2",
        _ => "other",
    })?;
    out.push_str(match entry.what {
        What::Asked { .. } => " asked",
        What::Split { .. } => " split",
        _ => " other",
    })?;
    Ok(())
}

/// Whether deck 1 had the latch of volume 0 while deck 2 had that of volume 1.
pub fn is_both_held<R: Threads + Wait + Sync>(rt: &R, alloc: Global) -> Result<bool, OutOfMemory> {
    let first = vec![in alloc; bound(alloc, 0, 1, false)?]?;
    let second = vec![in alloc; bound(alloc, 1, 2, false)?]?;
    let gate = BothHeld::new();
    let _end = run_three(rt, alloc, first, second, Vec::new(alloc), &gate)?;
    Ok(gate.is_met())
}

/// How a step without decks ends.
pub fn no_decks<R: Threads + Wait + Sync>(
    rt: &R,
    alloc: Global,
) -> Result<&'static str, OutOfMemory> {
    Ok(ending(&run_none(rt, alloc)?))
}

/// How a step ends whose decks have no requests.
pub fn no_requests<R: Threads + Wait + Sync>(
    rt: &R,
    alloc: Global,
) -> Result<&'static str, OutOfMemory> {
    let end = run_three(
        rt,
        alloc,
        Vec::new(alloc),
        Vec::new(alloc),
        Vec::new(alloc),
        &OpenGate,
    )?;
    Ok(ending(&end))
}

/// How a step ends in which a deck asks for a volume that isn't there.
pub fn no_volume<R: Threads + Wait + Sync>(
    rt: &R,
    alloc: Global,
) -> Result<&'static str, OutOfMemory> {
    let second = vec![in alloc; bound(alloc, 2, 1, false)?]?;
    let end = run_three(
        rt,
        alloc,
        Vec::new(alloc),
        second,
        Vec::new(alloc),
        &OpenGate,
    )?;
    Ok(ending(&end))
}

/// A word for the end of a step, which leaves both volumes without an entry.
fn ending(end: &RunEnd<PlainVolume>) -> &'static str {
    if end.volumes.len() != 2 {
        return "volumes lost";
    }
    for volume in &end.volumes {
        if volume.history.last() != 0 {
            return "entries made";
        }
    }
    match end.result {
        Ok(()) => "done",
        Err(RunNo::Stamps) => "stamps",
        Err(RunNo::Memory) => "memory",
    }
}
