//! Two decks on two volumes, whose listing is the same at every schedule.

use crate::gates::OneFirst;
use std::alloc::Global;
use std::fmt::Write;
use std::sync::Wait;
use std::thread::Threads;
use vr_case_volumes::{
    Answer, MAXIMUM, SMALL, Stop, add_lines, first_volume, run_words, source, volume_of,
};
use vr_device::MemoryDevice;
use vr_job::run_job;
use vr_outside::{Gate, MemorySink, MemorySource, OpenGate};
use vr_types::{Kind, Words};

/// How often the job is run with no gate, and how often in each order.
const RUNS: u32 = 50;

const IN_ORDER: u32 = 5;

/// Each deck adds a record on a volume of its own.
const TWO_PUTS: [&str; 7] = [
    "//S EXEC PGM=VRMDECK",
    "//DECK1 DD *",
    "FILE F VRM.FIRST",
    "PUT F DATA=C'00000001A'",
    "//DECK2 DD *",
    "FILE G VRM.ONE",
    "PUT G DATA=C'00000002B'",
];

fn two_volumes(alloc: Global) -> Result<Vec<MemoryDevice>, Stop> {
    let first = first_volume(alloc, SMALL)?;
    let one = volume_of(alloc, SMALL, 1, "VRM.ONE", Kind::Keyed, MAXIMUM)?;
    Ok(vec![in alloc; first, one]?)
}

/// The text of the job, as a source.
fn two_puts(alloc: Global) -> Result<Box<MemorySource>, Stop> {
    let mut text = String::new(alloc);
    add_lines(&mut text, &TWO_PUTS)?;
    source(alloc, text.as_str())
}

/// Runs the job by the top call: its status, and what it printed.
fn print_over<R: Threads + Wait + Sync, G: Gate + Sync>(
    rt: &R,
    alloc: Global,
    words: &Words,
    input: &mut MemorySource,
    output: &mut MemorySink,
    gate: &G,
) -> Result<u8, Stop> {
    let shelf = two_volumes(alloc)?;
    let end = run_job(rt, alloc, words, input, output, shelf, gate);
    Ok(end.status)
}

/// The listing of the job.
fn listing<R: Threads + Wait + Sync, G: Gate + Sync>(
    rt: &R,
    alloc: Global,
    gate: &G,
) -> Result<Vec<u8>, Stop> {
    let words = run_words(alloc)?;
    let mut input = two_puts(alloc)?;
    let mut output = Box::new(alloc, MemorySink::new(alloc, Vec::new(alloc)))?;
    match print_over(rt, alloc, &words, &mut *input, &mut *output, gate)? {
        0 => Ok(output.taken().to_vec(alloc)?),
        _ => Err(Stop::Case),
    }
}

/// In how many of these runs with no gate the listing is another.
fn differ_open<R: Threads + Wait + Sync>(
    rt: &R,
    alloc: Global,
    first: &[u8],
    runs: u32,
) -> Result<u32, Stop> {
    let mut differ = 0u32;
    for _ in 0..runs {
        let same = is_listed(rt, alloc, first, &OpenGate)?;
        differ = differ.saturating_add(if same { 0 } else { 1 });
    }
    Ok(differ)
}

/// In how many of these runs where this deck goes first the listing is another, or it didn't.
fn differ_in_order<R: Threads + Wait + Sync>(
    rt: &R,
    alloc: Global,
    first: &[u8],
    deck: u32,
    runs: u32,
) -> Result<u32, Stop> {
    let mut differ = 0u32;
    for _ in 0..runs {
        let gate = OneFirst::of(deck);
        let same = is_listed(rt, alloc, first, &gate)? && gate.is_kept();
        differ = differ.saturating_add(if same { 0 } else { 1 });
    }
    Ok(differ)
}

/// Whether a run prints this listing.
fn is_listed<R: Threads + Wait + Sync, G: Gate + Sync>(
    rt: &R,
    alloc: Global,
    first: &[u8],
    gate: &G,
) -> Result<bool, Stop> {
    let listed = listing(rt, alloc, gate)?;
    Ok(listed.as_slice() == first)
}

/// How many lines the listing has, and in how many runs it is another: of those with no gate, and
/// of those where a gate lets deck 1 go first, or deck 2.
pub fn same_listing<R: Threads + Wait + Sync>(rt: &R, alloc: Global, out: &mut String) -> Answer {
    let first = listing(rt, alloc, &OpenGate)?;
    let first = first.as_slice();
    let lines = first.iter().filter(|byte| **byte == b'\n').count();
    let open = differ_open(rt, alloc, first, RUNS)?;
    let one = differ_in_order(rt, alloc, first, 1, IN_ORDER)?;
    let two = differ_in_order(rt, alloc, first, 2, IN_ORDER)?;
    write!(out, "{lines} lines; of {RUNS} runs {open} differ, ")?;
    write!(
        out,
        "of {IN_ORDER} with deck 1 first {one}, with deck 2 first {two}"
    )?;
    Ok(())
}
