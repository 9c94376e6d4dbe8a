//! Eight decks that ask for the same few records of three volumes, and three judges of each run.

use crate::committed::{committed, found};
use crate::data_sets::{VOLUMES, add_place, new_shelf, place_of};
use crate::dice::Dice;
use crate::in_order::are_in_order;
use crate::jobs::{Ran, run_text};
use crate::legality::is_legal_of;
use crate::planned::{Plan, add_files};
use crate::ways::{Way, Yielding, way_of};
use std::alloc::Global;
use std::fmt::Write;
use std::sync::Wait;
use std::thread::Threads;
use vr_case_volumes::{Answer, Stop, add_lines, entries_of};
use vr_device::MemoryDevice;
use vr_history::Entry;
use vr_outside::OpenGate;
use vr_trace::Histories;
use vr_types::Geometry;

/// How many jobs are run.
const RUNS: u32 = 8;

/// How many records are read again on each volume: more than a run adds to one.
const READ: u32 = 32;

/// How many requests there were, in how many runs a history wasn't legal, in how many a deck's part
/// of the merged history wasn't what it was to ask, and in how many a volume that was opened again
/// hadn't what is committed.
#[derive(Clone, Copy)]
struct Tally {
    requests: usize,
    illegal: u32,
    unordered: u32,
    other: u32,
}

/// Counts a run that went wrong.
fn count(wrong: &mut u32, right: bool) {
    *wrong = wrong.saturating_add(if right { 0 } else { 1 });
}

/// Runs the job of each row of numbers, and judges it.
pub fn stress<R: Threads + Wait + Sync>(rt: &R, alloc: Global, out: &mut String) -> Answer {
    let mut tally = Tally {
        requests: 0,
        illegal: 0,
        unordered: 0,
        other: 0,
    };
    run_all(rt, alloc, &mut tally)?;
    let Tally {
        requests,
        illegal,
        unordered,
        other,
    } = tally;
    write!(
        out,
        "{RUNS} runs, {requests} requests: {illegal} not legal, "
    )?;
    write!(out, "{unordered} out of order, {other} not as committed")?;
    Ok(())
}

fn run_all<R: Threads + Wait + Sync>(rt: &R, alloc: Global, tally: &mut Tally) -> Answer {
    for number in 0..RUNS {
        run_one(rt, alloc, number, tally)?;
    }
    Ok(())
}

/// Runs the job of a row of numbers, and judges it.
fn run_one<R: Threads + Wait + Sync>(
    rt: &R,
    alloc: Global,
    number: u32,
    tally: &mut Tally,
) -> Answer {
    let mut dice = Dice::of(u64::from(number));
    let plan = Plan::of(alloc, &mut dice)?;
    tally.requests = tally.requests.saturating_add(plan.asked.len());
    let way = way_of(number);
    let ran = run_plan(rt, alloc, &plan, way)?;
    judge(rt, alloc, &plan, way.shape, ran, tally)
}

/// Runs a job this way.
fn run_plan<R: Threads + Wait + Sync>(
    rt: &R,
    alloc: Global,
    plan: &Plan,
    way: Way,
) -> Result<Ran, Stop> {
    let shelf = new_shelf(alloc, way.shape)?;
    let text = plan.text.as_str();
    if way.yields {
        run_text(rt, alloc, shelf, text, &Yielding)
    } else {
        run_text(rt, alloc, shelf, text, &OpenGate)
    }
}

/// Judges a run.
fn judge<R: Threads + Wait + Sync>(
    rt: &R,
    alloc: Global,
    plan: &Plan,
    shape: Geometry,
    ran: Ran,
    tally: &mut Tally,
) -> Answer {
    let Ran { shelf, histories } = ran;
    let read = read_again(rt, alloc, shelf)?;
    count(&mut tally.other, have_committed(alloc, &histories, &read)?);
    count(&mut tally.illegal, are_legal(alloc, shape, &histories)?);
    count(
        &mut tally.unordered,
        are_in_order(alloc, plan.asked.as_slice(), &histories)?,
    );
    Ok(())
}

/// Whether the history of each volume is legal.
fn are_legal(alloc: Global, shape: Geometry, histories: &Histories) -> Result<bool, Stop> {
    let mut legal = true;
    for volume in 0..VOLUMES {
        let entries = entries_of(histories, volume as usize);
        legal = legal && is_legal_of(alloc, shape, volume, entries)?;
    }
    Ok(legal)
}

/// The histories of a run that opens the volumes again and asks for each record, and for some that
/// no deck adds.
fn read_again<R: Threads + Wait + Sync>(
    rt: &R,
    alloc: Global,
    shelf: Vec<MemoryDevice>,
) -> Result<Histories, Stop> {
    let mut text = String::new(alloc);
    add_reader(&mut text)?;
    let Ran { histories, .. } = run_text(rt, alloc, shelf, text.as_str(), &OpenGate)?;
    Ok(histories)
}

fn add_reader(text: &mut String) -> Answer {
    add_lines(text, &["//R EXEC PGM=VRMDECK", "//DECK1 DD *"])?;
    add_files(text)?;
    for number in 0..READ {
        add_gets(text, number)?;
    }
    Ok(())
}

fn add_gets(text: &mut String, number: u32) -> Answer {
    for volume in 0..VOLUMES {
        write!(text, "GET F{volume}")?;
        add_place(text, volume, number)?;
        text.push_str("\n")?;
    }
    Ok(())
}

/// Whether each record that was found is the one that is committed.
fn have_committed(alloc: Global, histories: &Histories, read: &Histories) -> Result<bool, Stop> {
    let mut right = true;
    for number in 0..READ {
        right = right && are_committed(alloc, histories, read, number)?;
    }
    Ok(right)
}

/// Whether the record of a number that was found on each volume is the one that is committed.
fn are_committed(
    alloc: Global,
    histories: &Histories,
    read: &Histories,
    number: u32,
) -> Result<bool, Stop> {
    let mut right = true;
    for volume in 0..VOLUMES {
        let place = place_of(alloc, volume, number)?;
        let history = entries_of(histories, volume as usize);
        let read = entries_of(read, volume as usize);
        right = right && is_committed(history, read, place.as_slice());
    }
    Ok(right)
}

/// Whether the record at a place that was found on a volume is the one that its history commits.
fn is_committed(history: &[Entry], read: &[Entry], place: &[u8]) -> bool {
    match (committed(history, place), found(read, place)) {
        (Ok(wanted), Ok(got)) => wanted == got,
        _ => false,
    }
}
