//! Jobs that are run by the top call over volumes in memory.

use std::alloc::Global;
use std::sync::Wait;
use std::thread::Threads;
use vr_case_volumes::{Stop, run_words, source};
use vr_device::MemoryDevice;
use vr_job::{End, JobEnd, run_job};
use vr_outside::{Gate, MemorySink, MemorySource};
use vr_trace::{EndLine, Histories};
use vr_types::Words;

/// What a job that came through left: the devices, and the histories of their volumes.
#[derive(Drop)]
pub struct Ran {
    pub shelf: Vec<MemoryDevice>,
    pub histories: Histories,
}

/// What a job left, where it came through.
fn left_by(end: JobEnd<MemoryDevice>) -> Result<Ran, Stop> {
    let JobEnd { shelf, trace, .. } = end;
    match trace.end {
        End::Ran => Ok(Ran {
            shelf,
            histories: trace.histories,
        }),
        End::Line(EndLine::NoMemory) => Err(Stop::Memory),
        End::Line(_) | End::Unsynced(_) => Err(Stop::Case),
    }
}

/// Runs the job of a source over the volumes of a shelf. What is printed isn't looked at.
fn run<R: Threads + Wait + Sync, G: Gate + Sync>(
    rt: &R,
    alloc: Global,
    words: &Words,
    input: &mut MemorySource,
    shelf: Vec<MemoryDevice>,
    gate: &G,
) -> Result<Ran, Stop> {
    let mut output = MemorySink::new(alloc, Vec::new(alloc));
    let end = run_job(rt, alloc, words, input, &mut output, shelf, gate);
    left_by(end)
}

/// Runs the job of a text over the volumes of a shelf.
pub fn run_text<R: Threads + Wait + Sync, G: Gate + Sync>(
    rt: &R,
    alloc: Global,
    shelf: Vec<MemoryDevice>,
    text: &str,
    gate: &G,
) -> Result<Ran, Stop> {
    let words = run_words(alloc)?;
    let mut input = source(alloc, text)?;
    run(rt, alloc, &words, &mut *input, shelf, gate)
}
