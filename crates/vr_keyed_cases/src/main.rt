//! Cases of `vr_keyed` from a text table: a keyed part of one or two areas on a device in memory.
//! Each line of its input has a question, ` -> ` and the answer that is wanted. It asks the public
//! calls, prints each line whose answer differs, and at the end how many lines there were and how
//! many differ; the status is 1 where one differs. What a crash leaves is read by a plain, slow
//! program that shares no code with the part. What it promises is that it is safe and ends: what
//! the answers show is tested, and its whole output is compared.
#![tactic(auto)]

mod answers;
mod attach;
mod calls;
mod chain;
mod format;
mod held;
mod images;
mod one_kept;
mod plain;
mod plain_damage;
mod question;
mod record;
mod traced;
mod words;

use crate::answers::Stop;
use crate::held::Held;
use crate::question::answer;
use std::alloc::{AllocError, Global};
use std::io;
use std::process::ExitCode;

/// How many lines were asked, and how many of them differ.
#[derive(Clone, Copy)]
struct Tally {
    lines: u64,
    differ: u64,
}

fn main(rt: HostRuntime) -> io::Result<ExitCode> {
    let tally = run(&rt)?;
    let lines = tally.lines;
    let differ = tally.differ;
    println!(rt; "{lines} lines, {differ} differ")?;
    Ok(ExitCode::from(if differ == 0 { 0 } else { 1 }))
}

/// Asks each line of the input.
fn run<R: Input + Print + AllocGlobal>(rt: &R) -> io::Result<Tally> {
    let mut held = None;
    ask_lines(rt, &mut held)
}

/// Asks each line of the input. Empty lines and those that begin with `#` are skipped.
fn ask_lines<R: Input + Print + AllocGlobal>(
    rt: &R,
    held: &mut Option<Box<Held>>,
) -> io::Result<Tally> {
    let mut tally = Tally {
        lines: 0,
        differ: 0,
    };
    for line in rt.lines(rt.alloc()) {
        let line = line?;
        let line = line.as_str();
        if !line.is_empty() && !line.starts_with("#") {
            let same = ask(rt, held, line)?;
            tally.lines = tally.lines.saturating_add(1);
            tally.differ = tally.differ.saturating_add(if same { 0 } else { 1 });
        }
    }
    Ok(tally)
}

/// Asks a line, prints it if its answer differs, and says whether it is what is wanted.
fn ask<R: Print + AllocGlobal>(
    rt: &R,
    held: &mut Option<Box<Held>>,
    line: &str,
) -> io::Result<bool> {
    let (asked, wanted) = line.split_once(" -> ").unwrap_or((line, "ok"));
    let got = got(rt.alloc(), held, asked)?;
    let got = got.as_str();
    if got == wanted {
        return Ok(true);
    }
    println!(rt; "{asked} -> {got}, but {wanted} is wanted")?;
    Ok(false)
}

/// The answer to a question. A line that is not a question has an answer that says so.
fn got(alloc: Global, held: &mut Option<Box<Held>>, asked: &str) -> Result<String, AllocError> {
    let mut out = String::new(alloc);
    match answer(alloc, held, asked, &mut out) {
        Ok(()) => Ok(out),
        Err(Stop::Memory) => Err(AllocError),
        Err(Stop::Line) => String::from_str(alloc, "no question"),
    }
}
