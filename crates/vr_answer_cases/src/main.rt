//! Cases of the answers to requests from a text table: worked requests, and the crate beside
//! a plain program over all small states. It stands on `vr_answer`. Each line of its input has a
//! question, ` -> ` and the answer that is wanted. It asks the public calls, prints each line whose
//! answer differs, and at the end how many lines there were and how many differ; the status is 1
//! where one differs. What it promises is that it is safe and ends: what the answers show is
//! tested, and its whole output is compared.
#![tactic(auto)]

mod answers;
mod desk;
mod judge;
mod plain;
mod question;
mod search;
mod small;
mod spelling;

use crate::answers::Stop;
use crate::desk::small_catalog;
use crate::question::answer;
use std::alloc::{AllocError, Global};
use std::io;
use std::process::ExitCode;
use vr_catalog::Catalog;

/// How many lines were asked, and how many of them differ.
#[derive(Clone, Copy)]
struct Tally {
    lines: u64,
    differ: u64,
}

fn main(rt: HostRuntime) -> io::Result<ExitCode> {
    let tally = run(&rt)?;
    let lines = tally.lines;
    let differ = tally.differ;
    println!(rt; "{lines} lines, {differ} differ")?;
    Ok(ExitCode::from(if differ == 0 { 0 } else { 1 }))
}

/// Asks each line of the input.
fn run<R: Input + Print + AllocGlobal>(rt: &R) -> io::Result<Tally> {
    match small_catalog(rt.alloc()) {
        Ok(catalog) => ask_lines(rt, &catalog),
        Err(_) => Err(AllocError.into()),
    }
}

/// Asks each line of the input. Empty lines and those that begin with `#` are skipped.
fn ask_lines<R: Input + Print + AllocGlobal>(rt: &R, catalog: &Catalog) -> io::Result<Tally> {
    let mut tally = Tally {
        lines: 0,
        differ: 0,
    };
    for line in rt.lines(rt.alloc()) {
        let line = line?;
        let line = line.as_str();
        if line.is_empty() || line.starts_with("#") {
            continue;
        }
        let (asked, wanted) = line.split_once(" -> ").unwrap_or((line, "ok"));
        let got = got(rt.alloc(), catalog, asked)?;
        tally.lines = tally.lines.saturating_add(1);
        if got.as_str() != wanted {
            tally.differ = tally.differ.saturating_add(1);
            let got = got.as_str();
            println!(rt; "{asked} -> {got}, but {wanted} is wanted")?;
        }
    }
    Ok(tally)
}

/// The answer to a question. A line that is not a question has an answer that says so.
fn got(alloc: Global, catalog: &Catalog, asked: &str) -> Result<String, AllocError> {
    let mut out = String::new(alloc);
    match answer(alloc, catalog, asked, &mut out) {
        Ok(()) => Ok(out),
        Err(Stop::Memory) => Err(AllocError),
        Err(Stop::Line) => String::from_str(alloc, "no question"),
    }
}
