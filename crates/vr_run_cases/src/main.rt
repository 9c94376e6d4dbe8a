//! Cases of the run of a job on a volume from a text table: jobs on small volumes in memory with what
//! they print, one after another on the same volume; and tables of crashes and faults at each call of
//! the device, with a plain, slow file beside them that says what is committed.
//! It stands on `vr_job`, and on what reads and prints jobs (`vr_job_text`, `vr_job_ends`). Each
//! line of its input has a question, ` -> ` and the answer that is wanted. It prints each line
//! whose answer differs, and at the end how many lines there were and how many differ; the status
//! is 1 where one differs. What it promises is that it is safe: what the answers show is tested,
//! and its whole output is compared.
#![tactic(auto)]

mod answers;
mod blocks;
mod contents;
mod crashing;
mod desk;
mod images;
mod judging;
mod numbered;
mod one_volume;
mod plain;
mod printing;
mod running;
mod tables;
mod words;

use crate::answers::{Answer, Stop};
use crate::desk::Desk;
use std::alloc::{AllocError, Global};
use std::io;
use std::process::ExitCode;
use std::sync::Wait;
use std::thread::Threads;

/// How many lines were asked, and how many of them differ.
#[derive(Clone, Copy)]
struct Tally {
    lines: u64,
    differ: u64,
}

fn main(rt: HostRuntime) -> io::Result<ExitCode> {
    let mut desk = Desk::new();
    let tally = ask_lines(&rt, &mut desk)?;
    let lines = tally.lines;
    let differ = tally.differ;
    println!(rt; "{lines} lines, {differ} differ")?;
    Ok(ExitCode::from(if differ == 0 { 0 } else { 1 }))
}

/// Asks each line of the input. Empty lines and those that begin with `#` are skipped.
fn ask_lines<R: Threads + Wait + Sync + Input + Print + AllocGlobal>(
    rt: &R,
    desk: &mut Desk,
) -> io::Result<Tally> {
    let mut tally = Tally {
        lines: 0,
        differ: 0,
    };
    for line in rt.lines(rt.alloc()) {
        let line = line?;
        let line = line.as_str();
        if !line.is_empty() && !line.starts_with("#") {
            let same = ask(rt, desk, line)?;
            tally.lines = tally.lines.saturating_add(1);
            tally.differ = tally.differ.saturating_add(if same { 0 } else { 1 });
        }
    }
    Ok(tally)
}

/// Asks a line, prints it if its answer differs, and says whether it is what is wanted.
fn ask<R: Threads + Wait + Sync + Print + AllocGlobal>(
    rt: &R,
    desk: &mut Desk,
    line: &str,
) -> io::Result<bool> {
    let (asked, wanted) = line.split_once(" -> ").unwrap_or((line, "ok"));
    let got = got(rt, rt.alloc(), desk, asked)?;
    let got = got.as_str();
    if got == wanted {
        return Ok(true);
    }
    println!(rt; "{asked} -> {got}, but {wanted} is wanted")?;
    Ok(false)
}

/// The answer to a question. A line that is not a question has an answer that says so.
fn got<R: Threads + Wait + Sync>(
    rt: &R,
    alloc: Global,
    desk: &mut Desk,
    asked: &str,
) -> Result<String, AllocError> {
    let mut out = String::new(alloc);
    match answer(rt, alloc, desk, asked, &mut out) {
        Ok(()) => Ok(out),
        Err(Stop::Memory) => Err(AllocError),
        Err(Stop::Line) => String::from_str(alloc, "no question"),
    }
}

/// Writes the answer to a question.
fn answer<R: Threads + Wait + Sync>(
    rt: &R,
    alloc: Global,
    desk: &mut Desk,
    line: &str,
    out: &mut String,
) -> Answer {
    let (verb, rest) = line.split_once(' ').ok_or(Stop::Line)?;
    match verb {
        "volume" => running::volume(alloc, desk, rest, out),
        "job" => running::job(rt, alloc, desk, rest, out),
        "deck" => running::deck(rt, alloc, desk, rest, out),
        "stop" => running::stop(desk, rest, out),
        "put" => blocks::put(alloc, desk, rest, out),
        "crash" => images::crash(alloc, desk, rest, out),
        "stops" => crashing::stops(rt, alloc, desk, running::DECK, rest, out),
        "job-stops" => crashing::stops(rt, alloc, desk, "", rest, out),
        "crashes" => tables::crashes(rt, alloc, desk, rest, out),
        "again" => tables::again(rt, alloc, desk, rest, out),
        "faults" => tables::faults(rt, alloc, desk, rest, out),
        _ => Err(Stop::Line),
    }
}
