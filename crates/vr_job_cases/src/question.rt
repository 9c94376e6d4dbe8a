//! Which call a question asks.

use crate::answers::{Answer, Stop};
use crate::desk::Desk;
use crate::{failing, jobs, plain_file, shelf};
use std::alloc::Global;
use std::sync::Wait;
use std::thread::Threads;

/// Writes the answer to a question.
pub fn answer<R: Threads + Wait + Sync>(
    rt: &R,
    alloc: Global,
    desk: &mut Desk,
    line: &str,
    out: &mut String,
) -> Answer {
    let (verb, rest) = line.split_once(' ').unwrap_or((line, ""));
    match verb {
        "job" => jobs::job(rt, alloc, desk, rest, out),
        "words" => jobs::words(rt, alloc, desk, rest, out),
        "source" => jobs::source(rt, alloc, desk, rest, out),
        "sink" => jobs::sink(rt, alloc, desk, rest, out),
        "idle" => jobs::idle(rt, alloc, desk, rest, out),
        "long" => jobs::long(rt, alloc, desk, rest, out),
        _ => answer_further(rt, alloc, desk, verb, rest, out),
    }
}

/// The same of the other verbs.
fn answer_further<R: Threads + Wait + Sync>(
    rt: &R,
    alloc: Global,
    desk: &mut Desk,
    verb: &str,
    rest: &str,
    out: &mut String,
) -> Answer {
    match verb {
        "shelf" => shelf::shelf(alloc, desk, rest, out),
        "format" => shelf::format(alloc, desk, rest, out),
        "keep" => shelf::keep(alloc, desk, rest, out),
        "calls" => shelf::calls(desk, out),
        "stop" => shelf::stop(desk, rest, out),
        "write" => shelf::write(alloc, desk, rest, out),
        "reads" => failing::reads(rt, alloc, rest, out),
        "writes" => failing::writes(rt, alloc, rest, out),
        "device" => failing::device(rt, alloc, rest, out),
        "judge" => judge(rt, alloc, rest, out),
        _ => Err(Stop::Line),
    }
}

/// Compares the top call with a plain program over all small inputs.
fn judge<R: Threads + Wait + Sync>(rt: &R, alloc: Global, rest: &str, out: &mut String) -> Answer {
    match rest {
        "file" => plain_file::judge(rt, alloc, out),
        _ => Err(Stop::Line),
    }
}
