//! Cases of `vr_format` and `vr_recover` from a text table: volumes that are formatted, their bytes,
//! shapes at each limit, and each call of a device failing in turn, with a plain, slow reader of a
//! formatted volume beside them. Each line of its input has a question, ` -> ` and the answer that is wanted. It asks
//! the public calls, prints each line whose answer differs, and at the end how many lines there were
//! and how many differ; the status is 1 where one differs. What it promises is that it is safe and
//! ends: what the answers show is tested, and its whole output is compared.
#![tactic(auto)]

mod answers;
mod desk;
mod formatting;
mod opening;
mod plain;
mod question;
mod shapes;
mod words;

use crate::answers::Stop;
use crate::desk::Desk;
use crate::question::answer;
use std::alloc::{AllocError, Global};
use std::io;
use std::process::ExitCode;

/// How many lines were asked, and how many of them differ.
#[derive(Clone, Copy)]
struct Tally {
    lines: u64,
    differ: u64,
}

fn main(rt: HostRuntime) -> io::Result<ExitCode> {
    let tally = run(&rt)?;
    let lines = tally.lines;
    let differ = tally.differ;
    println!(rt; "{lines} lines, {differ} differ")?;
    Ok(ExitCode::from(if differ == 0 { 0 } else { 1 }))
}

/// Asks each line of the input.
fn run<R: Input + Print + AllocGlobal>(rt: &R) -> io::Result<Tally> {
    let mut desk = Desk::new();
    ask_lines(rt, &mut desk)
}

/// Asks each line of the input. Empty lines and those that begin with `#` are skipped.
fn ask_lines<R: Input + Print + AllocGlobal>(rt: &R, desk: &mut Desk) -> io::Result<Tally> {
    let mut tally = Tally {
        lines: 0,
        differ: 0,
    };
    for line in rt.lines(rt.alloc()) {
        let line = line?;
        let line = line.as_str();
        if line.is_empty() || line.starts_with("#") {
            continue;
        }
        let (asked, wanted) = line.split_once(" -> ").unwrap_or((line, "ok"));
        let got = got(rt.alloc(), desk, asked)?;
        tally.lines = tally.lines.saturating_add(1);
        if got.as_str() != wanted {
            tally.differ = tally.differ.saturating_add(1);
            let got = got.as_str();
            println!(rt; "{asked} -> {got}, but {wanted} is wanted")?;
        }
    }
    Ok(tally)
}

/// The answer to a question. A line that is not a question has an answer that says so.
fn got(alloc: Global, desk: &mut Desk, asked: &str) -> Result<String, AllocError> {
    let mut out = String::new(alloc);
    match answer(alloc, desk, asked, &mut out) {
        Ok(()) => Ok(out),
        Err(Stop::Memory) => Err(AllocError),
        Err(Stop::Line) => String::from_str(alloc, "no question"),
    }
}
