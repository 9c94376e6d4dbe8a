//! The program: it makes the source, the sink and the devices that its words name, hands them to the
//! top call (vr_job), and ends with that call's status. It stands on vr_job, on vr_job_ends for the
//! words, on vr_device for the volumes, and on vr_outside for the two ends. Its gate shows on a
//! terminal how far the job is.
#![tactic(auto)]

mod progress;
mod shape;
mod volumes;
mod words;

use crate::progress::{Listing, Progress};
use crate::volumes::{new_volumes, open_volumes};
use crate::words::words_of;
use std::alloc::Global;
use std::fs::{File, Files};
use std::io;
use std::process::ExitCode;
use std::rt::Env;
use std::sync::Wait;
use std::thread::Threads;
use vr_device::{BlockDevice, MemoryDevice, memory_device};
use vr_job::run_job;
use vr_job_ends::{Plan, plan};
use vr_outside::{FileSource, Source, StdSink, StdSource, SteadySource};
use vr_types::{Geometry, OutOfMemory, Words};

/// The status where the program's own memory is refused.
const NO_MEMORY: u8 = 36;

/// The bytes of a block of the volume in memory.
const MEMORY_SIZE: u32 = 4096;

/// The blocks of the volume in memory.
const MEMORY_BLOCKS: u32 = 2048;

fn main(rt: HostRuntime) -> ExitCode {
    let _numbers = keep_numbers(&rt);
    let progress = Progress::new(rt.stderr());
    let status = run(&rt, &progress).unwrap_or(NO_MEMORY);
    progress.clear();
    ExitCode::from(status)
}

/// Takes the numbers of those standard streams that are closed, as long as the files are kept. The
/// host would give them to the first files that are opened, and the listing would go into a volume.
/// A directory can't be read or written as a file, so the stream fails.
fn keep_numbers<R: Files>(rt: &R) -> [io::Result<R::File>; 3] {
    [
        File::open(rt, "/"),
        File::open(rt, "/"),
        File::open(rt, "/"),
    ]
}

/// Does what the words of the program ask for, and answers the status. Out of memory is its one
/// error.
fn run<R: Threads + Wait + Sync + Env + Input + Print + AllocGlobal + Files<File = File>>(
    rt: &R,
    progress: &Progress,
) -> Result<u8, OutOfMemory> {
    let words = words_of(rt)?;
    match plan(&words) {
        None => Ok(run_nothing(rt, progress, &words)),
        Some(Plan::Run { job, dir, .. }) if dir == "-" => run_in_memory(rt, progress, &words, job),
        Some(Plan::Run { job, dir, .. }) => run_in_directory(rt, progress, &words, job, dir),
        Some(
            Plan::Format {
                dir,
                count,
                size,
                blocks,
                log,
                area,
            },
        ) => format(
            rt,
            progress,
            &words,
            dir,
            count,
            geometry(size, blocks, log, area),
        ),
    }
}

/// Hands over words that are no command, with an empty shelf.
fn run_nothing<R: Threads + Wait + Sync + Print + AllocGlobal>(
    rt: &R,
    progress: &Progress,
    words: &Words,
) -> u8 {
    let shelf: Vec<MemoryDevice> = Vec::new(rt.alloc());
    end(rt, progress, words, empty_source(rt.alloc()), shelf)
}

/// Formats new files as volumes.
fn format<R: Threads + Wait + Sync + Print + AllocGlobal + Files<File = File>>(
    rt: &R,
    progress: &Progress,
    words: &Words,
    dir: &str,
    count: u32,
    shape: Geometry,
) -> Result<u8, OutOfMemory> {
    let shelf = new_volumes(rt, dir, count, shape)?;
    Ok(end(rt, progress, words, empty_source(rt.alloc()), shelf))
}

/// Runs a job over the volumes of a directory.
fn run_in_directory<R: Threads + Wait + Sync + Input + Print + AllocGlobal + Files<File = File>>(
    rt: &R,
    progress: &Progress,
    words: &Words,
    job: &str,
    dir: &str,
) -> Result<u8, OutOfMemory> {
    let shelf = open_volumes(rt, dir)?;
    Ok(run_over(rt, progress, words, job, shelf))
}

/// Runs a job over one volume in memory.
fn run_in_memory<R: Threads + Wait + Sync + Input + Print + AllocGlobal + Files<File = File>>(
    rt: &R,
    progress: &Progress,
    words: &Words,
    job: &str,
) -> Result<u8, OutOfMemory> {
    let mut shelf = Vec::new(rt.alloc());
    shelf.push(memory_device(rt.alloc(), MEMORY_SIZE, MEMORY_BLOCKS, &[])?)?;
    Ok(run_over(rt, progress, words, job, shelf))
}

/// Runs a job over these devices: that of standard input for `-`, else that of a file.
fn run_over<
    R: Threads + Wait + Sync + Input + Print + AllocGlobal + Files<File = File>,
    D: BlockDevice + Send,
>(rt: &R, progress: &Progress, words: &Words, job: &str, shelf: Vec<D>) -> u8 {
    if job == "-" {
        end(rt, progress, words, StdSource::new(rt.reader()), shelf)
    } else {
        progress.begin();
        end(rt, progress, words, FileSource::open(rt, job), shelf)
    }
}

/// Hands all over to the top call, with standard output as the sink and a gate that holds nobody
/// and shows how far the job is, and answers its status.
fn end<R: Threads + Wait + Sync + Print + AllocGlobal, S: Source + Drop, D: BlockDevice + Send>(
    rt: &R,
    progress: &Progress,
    words: &Words,
    mut input: S,
    shelf: Vec<D>,
) -> u8 {
    let mut output = StdSink::new(Listing::new(rt, progress));
    run_job(
        rt,
        rt.alloc(),
        words,
        &mut input,
        &mut output,
        shelf,
        progress,
    )
    .status
}

/// The source where no job is read.
fn empty_source(alloc: Global) -> SteadySource {
    SteadySource::new(Vec::new(alloc))
}

/// The shape that a format states. A number above 4,294,967,295 counts as that.
fn geometry(size: u64, blocks: u64, log: u64, area: u64) -> Geometry {
    Geometry {
        size: narrow(size),
        blocks: narrow(blocks),
        log: narrow(log),
        area: narrow(area),
    }
}

/// A number as a device takes it.
fn narrow(number: u64) -> u32 {
    number.min(u32::MAX as u64) as u32
}
