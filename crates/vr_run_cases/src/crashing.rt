//! Jobs on a volume in memory whose device is stopped at each of its calls, and what other jobs find
//! then.

use crate::answers::{Answer, Stop, say, text_of};
use crate::desk::Desk;
use crate::images::{Leaves, copy_of, left_by};
use crate::one_volume::run_job;
use crate::running::{job_of, run_on};
use std::alloc::Global;
use std::sync::Wait;
use std::thread::Threads;
use vr_device::MemoryDevice;

/// The most calls at which a device is stopped.
pub const CALLS: u64 = 100_000;

/// Runs a job on copies of the device that are stopped at each of its calls, and another on what each
/// of several crashes leaves then: `LINES => LINES`, each after these lines. Writes what the other
/// prints, each text once, in the order in which they come first.
pub fn stops<R: Threads + Wait + Sync>(
    rt: &R,
    alloc: Global,
    desk: &mut Desk,
    before: &str,
    rest: &str,
    out: &mut String,
) -> Answer {
    let (first, then) = rest.split_once(" => ").ok_or(Stop::Line)?;
    let first = text_of(alloc, before, first)?;
    let then = text_of(alloc, before, then)?;
    let start = left_by(alloc, desk.device()?, Leaves::Newest)?;
    let mut seen = Vec::new(alloc);
    for call in 0..CALLS {
        let copy = copy_of(alloc, &start)?;
        let stopped = run_stopped(rt, alloc, copy, call, first.as_slice())?;
        look(rt, alloc, &stopped, then.as_slice(), &mut seen)?;
        if stopped.calls() <= call {
            return say_seen(seen.as_slice(), out);
        }
    }
    Err(Stop::Line)
}

/// Runs a job on a device that is stopped at a call.
fn run_stopped<R: Threads + Wait + Sync>(
    rt: &R,
    alloc: Global,
    mut device: MemoryDevice,
    call: u64,
    text: &[u8],
) -> Result<MemoryDevice, Stop> {
    device.stop(call);
    let job = job_of(alloc, text)?;
    let end = run_job(rt, alloc, device, &job)?;
    Ok(end.device)
}

/// Adds what a job prints on what crashes leave of a device.
fn look<R: Threads + Wait + Sync>(
    rt: &R,
    alloc: Global,
    device: &MemoryDevice,
    text: &[u8],
    seen: &mut Vec<String>,
) -> Answer {
    for leaves in [Leaves::Oldest, Leaves::Newest, Leaves::Even, Leaves::Odd] {
        look_once(rt, alloc, device, leaves, text, seen)?;
    }
    Ok(())
}

/// Adds what a job prints on what one of them leaves.
fn look_once<R: Threads + Wait + Sync>(
    rt: &R,
    alloc: Global,
    device: &MemoryDevice,
    leaves: Leaves,
    text: &[u8],
    seen: &mut Vec<String>,
) -> Answer {
    let left = left_by(alloc, device, leaves)?;
    let mut printed = String::new(alloc);
    run_on(rt, alloc, left, text, &mut printed)?;
    add(printed, seen)
}

/// Adds a text that isn't there yet.
fn add(text: String, seen: &mut Vec<String>) -> Answer {
    if !seen.iter().any(|one| one.as_str() == text.as_str()) {
        seen.push(text)?;
    }
    Ok(())
}

/// Writes texts, ` / ` between two of them.
fn say_seen(seen: &[String], out: &mut String) -> Answer {
    for text in seen {
        if !out.is_empty() {
            say(out, " / ")?;
        }
        say(out, text.as_str())?;
    }
    Ok(())
}
