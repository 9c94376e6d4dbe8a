//! Cases of `vr_worker`: steps of decks that are run on threads, over plain volumes in memory. It
//! prints a line for each case, the same at every schedule, and its whole output is compared. It
//! stands on `vr_worker` for steps, on `vr_outside` for the gates by which it holds decks, and on
//! `vr_history`, `vr_trace` and `vr_types`. It promises that the volumes and decks meet what
//! `run_decks` asks, and that the plain volume does what the trait `Served` says; what the lines
//! show is tested.
#![tactic(auto)]

mod frames;
mod gates;
mod holds;
mod ledgers;
mod parts;
mod steps;
mod volume;

use std::alloc::{AllocError, Global};
use std::io;
use std::sync::Wait;
use std::thread::Threads;
use vr_types::OutOfMemory;

/// How often the three decks are run.
const RUNS: u32 = 50;

fn main(rt: HostRuntime) -> io::Result<()> {
    print_all(&rt)
}

/// Prints the line of each case.
fn print_all<R: Threads + Wait + Sync + Print + AllocGlobal>(rt: &R) -> io::Result<()> {
    let alloc = rt.alloc();
    let differ = parts::count_differ(rt, alloc, RUNS).map_err(no_memory)?;
    println!(rt; "three decks, two volumes, {RUNS} runs: {differ} differ")?;
    let entries = holds::held_between(rt, alloc).map_err(no_memory)?;
    println!(rt; "held between events: {entries}")?;
    let both = if holds::is_both_held(rt, alloc).map_err(no_memory)? {
        "yes"
    } else {
        "no"
    };
    println!(rt; "two volumes at once: {both}")?;
    let end = holds::no_decks(rt, alloc).map_err(no_memory)?;
    println!(rt; "no decks: {end}")?;
    let end = holds::no_requests(rt, alloc).map_err(no_memory)?;
    println!(rt; "no requests: {end}")?;
    let end = holds::no_volume(rt, alloc).map_err(no_memory)?;
    println!(rt; "no such volume: {end}")?;
    print_frames(rt, alloc)?;
    print_ledger(rt, alloc)
}

/// Prints whether four threads at one pool found in their frames what they wrote, and how many
/// frames came home, of pools of some frames, of none and of frames of no bytes.
fn print_frames<R: Threads + Sync + Print>(rt: &R, alloc: Global) -> io::Result<()> {
    for (frames, size) in [(3, 64), (0, 4096), (2, 0)] {
        let (found, home) = frames::four(rt, alloc, frames, size).map_err(no_memory)?;
        let marks = if found { "found" } else { "lost" };
        println!(rt; "four threads, {frames} frames of {size} bytes: marks {marks}, {home} home")?;
    }
    Ok(())
}

/// Prints the decks that take turns at a ledger.
fn print_ledger<R: Print>(rt: &R, alloc: Global) -> io::Result<()> {
    let (one, other) = ledgers::two_decks_take_turns(alloc).map_err(no_memory)?;
    println!(rt; "turns at a ledger: {one}, {other}")
}

fn no_memory(_fault: OutOfMemory) -> io::Error {
    AllocError.into()
}
