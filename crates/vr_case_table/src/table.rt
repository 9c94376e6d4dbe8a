//! The lines of a table, which a desk answers.

use crate::answers::Answers;
use crate::stop::{Answer, Stop};
use std::alloc::{AllocError, Global};
use std::io;
use std::process::ExitCode;

/// What answers the questions of a table.
pub trait Desk {
    /// Writes the answer to a question.
    fn answer(&mut self, line: &str, out: &mut Answers) -> Answer;
}

/// How many lines were asked, and how many of them differ.
#[derive(Clone, Copy)]
struct Tally {
    lines: u64,
    differ: u64,
}

/// Asks a desk each line of the input, prints each line whose answer differs, and at the end how
/// many lines there were and how many differ; the status is 1 where one differs.
pub fn run<R: Input + Print + AllocGlobal, D: Desk>(rt: &R, desk: &mut D) -> io::Result<ExitCode> {
    let tally = ask_lines(rt, desk)?;
    let lines = tally.lines;
    let differ = tally.differ;
    println!(rt; "{lines} lines, {differ} differ")?;
    Ok(ExitCode::from(if differ == 0 { 0 } else { 1 }))
}

/// Asks each line of the input. Empty lines and those that begin with `#` are skipped.
fn ask_lines<R: Input + Print + AllocGlobal, D: Desk>(rt: &R, desk: &mut D) -> io::Result<Tally> {
    let mut tally = Tally {
        lines: 0,
        differ: 0,
    };
    for line in rt.lines(rt.alloc()) {
        let line = line?;
        let line = line.as_str();
        if !line.is_empty() && !line.starts_with("#") {
            let same = ask(rt, desk, line)?;
            tally.lines = tally.lines.saturating_add(1);
            tally.differ = tally.differ.saturating_add(if same { 0 } else { 1 });
        }
    }
    Ok(tally)
}

/// Asks a line, prints it if its answer differs, and says whether it is what is wanted.
fn ask<R: Print + AllocGlobal, D: Desk>(rt: &R, desk: &mut D, line: &str) -> io::Result<bool> {
    let (asked, wanted) = line.split_once(" -> ").unwrap_or((line, "ok"));
    let got = got(rt.alloc(), desk, asked)?;
    let got = got.text();
    if got == wanted {
        return Ok(true);
    }
    println!(rt; "{asked} -> {got}, but {wanted} is wanted")?;
    Ok(false)
}

/// The answer to a question. A line that is not a question has an answer that says so.
fn got<D: Desk>(alloc: Global, desk: &mut D, asked: &str) -> Result<Answers, AllocError> {
    let mut out = Answers::new(alloc);
    match desk.answer(asked, &mut out) {
        Ok(()) => {}
        Err(Stop::Memory) => return Err(AllocError),
        Err(Stop::Line) => {
            out.clear();
            out.say("no question");
        }
    }
    if out.lacks_memory() {
        return Err(AllocError);
    }
    Ok(out)
}
