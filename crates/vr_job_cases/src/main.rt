//! Cases of the top call from a text table, and from the worked examples: words over sources, sinks
//! and devices in memory, which may fail, with the status and what is printed. It stands on `vr_job`,
//! on the sources and sinks of `vr_outside` and on the devices of `vr_device`. Each line of its input
//! has a question, ` -> ` and the answer that is wanted. It prints each line whose answer differs,
//! and at the end how many lines there were and how many differ; the status is 1 where one differs.
//! What it promises is that it is safe: what the answers show is tested, and its whole output is
//! compared.
#![tactic(auto)]

mod answers;
mod desk;
mod escapes;
mod examples;
mod failing;
mod jobs;
mod plain_file;
mod question;
mod shelf;

use crate::answers::Stop;
use crate::desk::Desk;
use crate::question::answer;
use std::alloc::AllocError;
use std::io;
use std::process::ExitCode;
use std::rt::Files;
use std::sync::Wait;
use std::thread::Threads;

/// How many lines were asked, and how many of them differ.
#[derive(Clone, Copy)]
struct Tally {
    lines: u64,
    differ: u64,
}

fn main(rt: HostRuntime) -> io::Result<ExitCode> {
    let mut desk = Desk::new(rt.alloc());
    let tally = ask_lines(&rt, &mut desk)?;
    let lines = tally.lines;
    let differ = tally.differ;
    println!(rt; "{lines} lines, {differ} differ")?;
    Ok(ExitCode::from(if differ == 0 { 0 } else { 1 }))
}

/// Asks each line of the input. Empty lines and those that begin with `#` are skipped.
fn ask_lines<R: Threads + Wait + Sync + Input + Print + Files + AllocGlobal>(
    rt: &R,
    desk: &mut Desk,
) -> io::Result<Tally> {
    let mut tally = Tally {
        lines: 0,
        differ: 0,
    };
    for line in rt.lines(rt.alloc()) {
        let line = line?;
        let line = line.as_str();
        if !line.is_empty() && !line.starts_with("#") {
            let same = ask(rt, desk, line)?;
            tally.lines = tally.lines.saturating_add(1);
            tally.differ = tally.differ.saturating_add(if same { 0 } else { 1 });
        }
    }
    Ok(tally)
}

/// Asks a line, prints it if its answer differs, and says whether it is what is wanted.
fn ask<R: Threads + Wait + Sync + Print + Files + AllocGlobal>(
    rt: &R,
    desk: &mut Desk,
    line: &str,
) -> io::Result<bool> {
    let (asked, wanted) = line.split_once(" -> ").unwrap_or((line, "ok"));
    let got = got(rt, desk, asked)?;
    let got = got.as_str();
    if got == wanted {
        return Ok(true);
    }
    println!(rt; "{asked} -> {got}, but {wanted} is wanted")?;
    Ok(false)
}

/// The answer to a question. A line that is not a question has an answer that says so.
fn got<R: Threads + Wait + Sync + Files + AllocGlobal>(
    rt: &R,
    desk: &mut Desk,
    asked: &str,
) -> io::Result<String> {
    let mut out = String::new(rt.alloc());
    let answered = match asked.split_once(' ') {
        Some(("example", name)) => examples::example(rt, desk, name, &mut out)?,
        Some(("again", names)) => examples::again(rt, desk, names, &mut out)?,
        _ => answer(rt, rt.alloc(), desk, asked, &mut out),
    };
    match answered {
        Ok(()) => Ok(out),
        Err(Stop::Memory) => Err(AllocError.into()),
        Err(Stop::Line) => Ok(String::from_str(rt.alloc(), "no question")?),
    }
}
