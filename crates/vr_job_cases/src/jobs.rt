//! Questions to the top call.

use crate::answers::{Answer, Stop, long_number, say, say_number};
use crate::desk::Desk;
use crate::escapes::{bytes_of, show};
use crate::shelf::{calls_of, new_shelf};
use std::alloc::Global;
use std::sync::Wait;
use std::thread::Threads;
use vr_device::MemoryDevice;
use vr_job::run_job;
use vr_outside::{MemorySink, MemorySource, OpenGate};
use vr_types::Words;

/// How many bytes a source or a sink hands on at a call.
pub const MOST: usize = 10;

/// The blocks of the smallest device on which a volume in memory may be, which has 64 blocks of log
/// and 15 intervals an area.
pub const LEAST_BLOCKS: u32 = 97;

/// The most bytes of an input that a line makes.
const LONGEST: u64 = 1 << 28;

/// Which calls of the source and of the sink fail, and at which the sink takes nothing.
#[derive(Clone, Copy)]
pub struct Fails<'a> {
    pub reads: &'a [u64],
    pub writes: &'a [u64],
    pub idle: &'a [u64],
}

/// No call fails.
pub const NONE: Fails<'static> = Fails {
    reads: &[],
    writes: &[],
    idle: &[],
};

/// What a job ended with, what it printed, how many bytes of its input are left, and the devices that
/// it handed back.
#[derive(Drop)]
pub struct Printed {
    pub status: u8,
    pub text: Vec<u8>,
    pub left: usize,
    pub shelf: Vec<MemoryDevice>,
}

/// The words of a text, which blanks separate.
fn words_of(alloc: Global, text: &str) -> Result<Words, Stop> {
    let mut words = Words::new(alloc);
    match add_words(&mut words, text) {
        Ok(()) => Ok(words),
        Err(stop) => Err(stop),
    }
}

fn add_words(words: &mut Words, text: &str) -> Answer {
    for word in text.split(' ') {
        if !word.is_empty() {
            words.push(word)?;
        }
    }
    Ok(())
}

/// A source of a text that hands out at most 10 bytes at a call.
fn source_of(alloc: Global, text: &[u8], fails: Fails<'_>) -> Result<Box<MemorySource>, Stop> {
    let text = text.to_vec(alloc)?;
    let reads = fails.reads.to_vec(alloc)?;
    let source = MemorySource::new(text, reads).in_pieces(MOST);
    Ok(Box::new(alloc, source)?)
}

/// A sink that takes at most 10 bytes at a call.
fn sink_of(alloc: Global, fails: Fails<'_>) -> Result<Box<MemorySink>, Stop> {
    let writes = fails.writes.to_vec(alloc)?;
    let idle = fails.idle.to_vec(alloc)?;
    let sink = MemorySink::new(alloc, writes)
        .in_pieces(MOST)
        .taking_none_at(idle);
    Ok(Box::new(alloc, sink)?)
}

/// Runs a job over these ends and devices: its status, and the devices that it hands back.
fn run_over<R: Threads + Wait + Sync>(
    rt: &R,
    alloc: Global,
    words: &Words,
    input: &mut MemorySource,
    output: &mut MemorySink,
    shelf: Vec<MemoryDevice>,
) -> (u8, Vec<MemoryDevice>) {
    let end = run_job(rt, alloc, words, input, output, shelf, &OpenGate);
    (end.status, end.shelf)
}

/// Runs a job over these ends and devices.
fn print_over<R: Threads + Wait + Sync>(
    rt: &R,
    alloc: Global,
    words: &Words,
    input: &mut MemorySource,
    output: &mut MemorySink,
    shelf: Vec<MemoryDevice>,
) -> Result<Printed, Stop> {
    let (status, shelf) = run_over(rt, alloc, words, input, output, shelf);
    let text = output.taken().to_vec(alloc)?;
    Ok(Printed {
        status,
        text,
        left: input.left().len(),
        shelf,
    })
}

/// Runs a job over ends in memory that hand on at most 10 bytes at a call, and fail at these calls.
pub fn print_job<R: Threads + Wait + Sync>(
    rt: &R,
    alloc: Global,
    words: &str,
    text: &[u8],
    fails: Fails<'_>,
    shelf: Vec<MemoryDevice>,
) -> Result<Printed, Stop> {
    let words = words_of(alloc, words)?;
    let mut input = source_of(alloc, text, fails)?;
    let mut output = sink_of(alloc, fails)?;
    print_over(rt, alloc, &words, &mut *input, &mut *output, shelf)
}

/// Writes what a job ended with, and keeps its devices.
fn say_printed(desk: &mut Desk, printed: Printed, out: &mut String) -> Answer {
    say_number(out, "", u64::from(printed.status))?;
    say_number(out, " left ", printed.left as u64)?;
    say_number(out, " shelf ", printed.shelf.len() as u64)?;
    say(out, " ")?;
    show(out, printed.text.as_slice())?;
    desk.set(printed.shelf);
    Ok(())
}

/// What words do with a text over the shelf: `WORD.. < TEXT`, or the words alone, where the text is
/// `abc`.
fn ask<R: Threads + Wait + Sync>(
    rt: &R,
    alloc: Global,
    desk: &mut Desk,
    rest: &str,
    fails: Fails<'_>,
    out: &mut String,
) -> Answer {
    let (words, text) = rest.split_once(" < ").unwrap_or((rest, "abc"));
    let text = bytes_of(alloc, text)?;
    let shelf = desk.take(alloc);
    let printed = print_job(rt, alloc, words, text.as_slice(), fails, shelf)?;
    say_printed(desk, printed, out)
}

/// What words do with a text: `words WORD.. < TEXT`.
pub fn words<R: Threads + Wait + Sync>(
    rt: &R,
    alloc: Global,
    desk: &mut Desk,
    rest: &str,
    out: &mut String,
) -> Answer {
    ask(rt, alloc, desk, rest, NONE, out)
}

/// The same where these reads of the source fail: `source CALL,CALL.. WORD.. < TEXT`.
pub fn source<R: Threads + Wait + Sync>(
    rt: &R,
    alloc: Global,
    desk: &mut Desk,
    rest: &str,
    out: &mut String,
) -> Answer {
    let (calls, rest) = rest.split_once(' ').ok_or(Stop::Line)?;
    let calls = calls_of(alloc, calls)?;
    let fails = Fails {
        reads: calls.as_slice(),
        ..NONE
    };
    ask(rt, alloc, desk, rest, fails, out)
}

/// The same where these writes of the sink fail: `sink CALL,CALL.. WORD.. < TEXT`.
pub fn sink<R: Threads + Wait + Sync>(
    rt: &R,
    alloc: Global,
    desk: &mut Desk,
    rest: &str,
    out: &mut String,
) -> Answer {
    let (calls, rest) = rest.split_once(' ').ok_or(Stop::Line)?;
    let calls = calls_of(alloc, calls)?;
    let fails = Fails {
        writes: calls.as_slice(),
        ..NONE
    };
    ask(rt, alloc, desk, rest, fails, out)
}

/// The same where these writes of the sink take nothing: `idle CALL,CALL.. WORD.. < TEXT`.
pub fn idle<R: Threads + Wait + Sync>(
    rt: &R,
    alloc: Global,
    desk: &mut Desk,
    rest: &str,
    out: &mut String,
) -> Answer {
    let (calls, rest) = rest.split_once(' ').ok_or(Stop::Line)?;
    let calls = calls_of(alloc, calls)?;
    let fails = Fails {
        idle: calls.as_slice(),
        ..NONE
    };
    ask(rt, alloc, desk, rest, fails, out)
}

/// What a job of a text does over a new device of the default shape: `job TEXT`.
pub fn job<R: Threads + Wait + Sync>(
    rt: &R,
    alloc: Global,
    desk: &mut Desk,
    rest: &str,
    out: &mut String,
) -> Answer {
    let text = bytes_of(alloc, rest)?;
    let shelf = new_shelf(alloc, 4096, 2048, &[])?;
    let printed = print_job(rt, alloc, "run - -", text.as_slice(), NONE, shelf)?;
    say_printed(desk, printed, out)
}

/// A source of line feeds.
fn long_source(alloc: Global, length: u64) -> Result<Box<MemorySource>, Stop> {
    if length > LONGEST {
        return Err(Stop::Line);
    }
    let text = vec![in alloc; b'\n'; length as usize]?;
    let source = MemorySource::new(text, Vec::new(alloc));
    Ok(Box::new(alloc, source)?)
}

/// What a job of N empty lines does over a small new device: `long N`.
pub fn long<R: Threads + Wait + Sync>(
    rt: &R,
    alloc: Global,
    desk: &mut Desk,
    rest: &str,
    out: &mut String,
) -> Answer {
    let length = long_number(rest)?;
    let words = words_of(alloc, "run - -")?;
    let mut input = long_source(alloc, length)?;
    let mut output = sink_of(alloc, NONE)?;
    let shelf = new_shelf(alloc, 512, LEAST_BLOCKS, &[])?;
    let printed = print_over(rt, alloc, &words, &mut *input, &mut *output, shelf)?;
    say_printed(desk, printed, out)
}
