//! Jobs on a volume in memory.
use crate::answers::{Answer, Stop, say, text_of};
use crate::desk::{Desk, Shape};
use crate::numbered::Job;
use crate::one_volume::run_job;
use crate::printing::say_end;
use crate::words::{long_number, numbers};
use std::alloc::Global;
use std::sync::Wait;
use std::thread::Threads;
use vr_case_volumes::format_spelled;
use vr_device::{MemoryDevice, memory_device};
use vr_format::{FormatNo, format_volume};
use vr_job_text::parse_run_job;

/// The largest block, in bytes, and the most blocks.
const LIMIT: u32 = 4096;

/// The most bytes of a text.
const LONGEST: usize = 1 << 20;

/// What precedes the lines of a deck.
pub const DECK: &str = "//S EXEC PGM=VRMDECK\n//DECK1 DD *\nFILE F VRM.FIRST\n";

/// Makes a device and formats it as volume 0: `SIZE BLOCKS LOG AREA FAILS.. / ENTRY / ..`. Its calls of
/// the last numbers fail, counted from the first one of formatting, which is 0. Without entries it has
/// VRM.FIRST.
pub fn volume(alloc: Global, desk: &mut Desk, rest: &str, out: &mut String) -> Answer {
    let (words, entries) = rest.split_once(" / ").unwrap_or((rest, ""));
    let words = numbers(alloc, words)?;
    let [size, blocks, log, area, fails @ ..] = words.as_slice() else {
        return Err(Stop::Line);
    };
    let fails = calls_of(alloc, fails)?;
    let shape = Shape {
        size: *size,
        blocks: *blocks,
        log: *log,
        area: *area,
    };
    let mut device = new_device(alloc, shape, fails.as_slice())?;
    let formatted = format_as(alloc, &mut device, shape, entries)?;
    desk.set(device);
    desk.set_shape(shape, String::from_str(alloc, entries)?);
    match formatted {
        Ok(()) => say(out, "ok"),
        Err(FormatNo::Geometry) => say(out, "geometry"),
        Err(FormatNo::Memory) => Err(Stop::Memory),
        Err(_) => say(out, "no"),
    }
}

/// Formats a device as volume 0, with these entries, or with VRM.FIRST where there are none.
fn format_as(
    alloc: Global,
    device: &mut MemoryDevice,
    shape: Shape,
    entries: &str,
) -> Result<Result<(), FormatNo>, Stop> {
    let log = shape.log;
    let area = shape.area;
    if entries.is_empty() {
        return Ok(format_volume(alloc, device, 0, log, area));
    }
    let text = format!(in alloc; "0 {log} {area} / {entries}")?;
    Ok(format_spelled(alloc, device, text.as_str())?)
}

/// The same numbers, as numbers of calls.
fn calls_of(alloc: Global, numbers: &[u32]) -> Result<Vec<u64>, Stop> {
    let mut calls = Vec::new(alloc);
    match add_calls(&mut calls, numbers) {
        Ok(()) => Ok(calls),
        Err(stop) => Err(stop),
    }
}

fn add_calls(calls: &mut Vec<u64>, numbers: &[u32]) -> Answer {
    for number in numbers {
        calls.push(u64::from(*number))?;
    }
    Ok(())
}

/// A device of zeros whose calls of these numbers fail.
fn new_device(alloc: Global, shape: Shape, fails: &[u64]) -> Result<MemoryDevice, Stop> {
    if shape.size > LIMIT || shape.blocks > LIMIT {
        return Err(Stop::Line);
    }
    memory_device(alloc, shape.size, shape.blocks, fails)
        .ok()
        .ok_or(Stop::Memory)
}

/// A device that is formatted so as volume 0 and whose calls of these numbers fail.
pub fn formatted(
    alloc: Global,
    shape: Shape,
    entries: &str,
    fails: &[u64],
) -> Result<MemoryDevice, Stop> {
    let mut device = new_device(alloc, shape, fails)?;
    match format_as(alloc, &mut device, shape, entries)? {
        Ok(()) => Ok(device),
        Err(FormatNo::Memory) => Err(Stop::Memory),
        Err(_) => Err(Stop::Line),
    }
}

/// The job of a text.
pub fn job_of(alloc: Global, text: &[u8]) -> Result<Job, Stop> {
    if text.len() > LONGEST {
        return Err(Stop::Line);
    }
    match parse_run_job(alloc, text) {
        Ok(job) => Ok(Job::of(job)),
        Err(_) => Err(Stop::Line),
    }
}

/// Runs a job on a device, writes what it prints, and answers what it leaves of the device.
pub fn run_on<R: Threads + Wait + Sync>(
    rt: &R,
    alloc: Global,
    device: MemoryDevice,
    text: &[u8],
    out: &mut String,
) -> Result<MemoryDevice, Stop> {
    let job = job_of(alloc, text)?;
    let end = run_job(rt, alloc, device, &job)?;
    say_end(
        alloc,
        job.into_text(),
        end.reports,
        end.history,
        end.end,
        out,
    )?;
    Ok(end.device)
}

/// Runs the job of a text on the device: its lines, which `|` separates.
pub fn job<R: Threads + Wait + Sync>(
    rt: &R,
    alloc: Global,
    desk: &mut Desk,
    rest: &str,
    out: &mut String,
) -> Answer {
    run_text(rt, alloc, desk, "", rest, out)
}

/// Runs a job of one step S with one deck 1 on the device, with the file F on VRM.FIRST: the further
/// lines of the deck.
pub fn deck<R: Threads + Wait + Sync>(
    rt: &R,
    alloc: Global,
    desk: &mut Desk,
    rest: &str,
    out: &mut String,
) -> Answer {
    run_text(rt, alloc, desk, DECK, rest, out)
}

fn run_text<R: Threads + Wait + Sync>(
    rt: &R,
    alloc: Global,
    desk: &mut Desk,
    first: &str,
    rest: &str,
    out: &mut String,
) -> Answer {
    let text = text_of(alloc, first, rest)?;
    let device = run_on(rt, alloc, desk.take()?, text.as_slice(), out)?;
    desk.set(device);
    Ok(())
}

/// Makes each call of the device fail after so many more.
pub fn stop(desk: &mut Desk, rest: &str, out: &mut String) -> Answer {
    let more = long_number(rest)?;
    let device = desk.device()?;
    let at = device.calls().saturating_add(more);
    device.stop(at);
    say(out, "ok")
}
