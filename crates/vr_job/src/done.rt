//! What is done for the words of the program, before anything is printed.
ghost use Rattle.std.specs.Prelude.{◌≡◌, ◌≤◌, ◌⊎◌, IfErr, OnOk, Some, length};
ghost use Rattle.vr_job_text.specs.Job.{deck_steps};
ghost use Rattle.vr_job_text.specs.Numbers.{AreNumbered};
ghost use Rattle.vr_job.specs.Formats.{AreAllowed, AreFormatted, IsFormatEnd};
ghost use Rattle.vr_job.specs.Done.{HasBegun, HasNotBegun, HasRunOn, IsFormatDone, IsNothing};
ghost use Rattle.vr_job.specs.Done.{IsRunDone, narrowed};
ghost use Rattle.vr_job_ends.specs.declared.job_end.End.TheVariants.{Line};
ghost use Rattle.vr_trace.specs.declared.ending.EndLine.TheVariants.{NoMemory};

use crate::formatting::{format_devices, narrow};
use crate::shelf_run::{ShelfEnd, run_volumes};
use std::alloc::Global;
use std::sync::Wait;
use std::thread::Threads;
use vr_device::BlockDevice;
use vr_job_ends::{End, Trace, read_job};
use vr_job_text::Job;
use vr_outside::{Gate, Source};
use vr_trace::{EndLine, Histories, StepReports};

/// The most volumes of a shelf.
const MOST_VOLUMES: usize = 16;

/// The blocks of log of a volume in memory.
const MEMORY_LOG: u32 = 64;

/// The control intervals of an area of it.
const MEMORY_AREA: u32 = 15;

/// What was done: its trace, and the devices that were handed in, in their order.
#[derive(Drop)]
pub(crate) struct Done<D: BlockDevice> {
    pub(crate) trace: Trace,
    pub(crate) shelf: Vec<D>,
}

/// Nothing was run: one line says how the job ended.
pub(crate) fn not_run<D: BlockDevice>(alloc: Global, line: EndLine, shelf: Vec<D>) -> Done<D>
    ensures nothing { IsNothing result.trace }
    ensures end { result.trace.end ≡ Line line }
    ensures shelf { result.shelf ≡ shelf }
{
    Done {
        trace: Trace {
            job: None,
            reports: StepReports::new(alloc),
            end: End::Line(line),
            lines: false,
            histories: Histories::new(alloc),
        },
        shelf,
    }
}

/// Formats the devices as this many volumes, with numbers as the command states them.
fn format_all<D: BlockDevice>(
    alloc: Global,
    shelf: &mut Vec<D>,
    count: u32,
    log: u64,
    area: u64,
) -> Result<(), EndLine>
    requires { count ≤ 16 }
    ensures count { OnOk result (length shelf.old.items ≡ count) }
    ensures allowed { OnOk result
        (AreAllowed D.seen (narrowed log) (narrowed area) shelf.old.items) }
    ensures formatted { OnOk result (AreFormatted D.tells D.seen (narrowed log) (narrowed area)
        shelf.old.items shelf.new.items) }
    ensures end { IfErr result (IsFormatEnd D.tells D.seen D.faults count (narrowed log)
        (narrowed area) shelf.old.items shelf.new.items) }
{
    format_devices(
        alloc,
        shelf.as_mut_slice(),
        count,
        narrow(log),
        narrow(area),
    )
}

/// Formats the devices as this many volumes, and says how that ended.
pub(crate) fn format_shelf<D: BlockDevice>(
    alloc: Global,
    mut shelf: Vec<D>,
    count: u32,
    log: u64,
    area: u64,
) -> Done<D>
    requires { count ≤ 16 }
    ensures nothing { IsNothing result.trace }
    ensures done { IsFormatDone D.tells D.seen D.faults count (narrowed log) (narrowed area)
        shelf.items result.shelf.items result.trace.end }
{
    match format_all(alloc, &mut shelf, count, log, area) {
        Ok(()) => not_run(alloc, EndLine::Formatted { volumes: count }, shelf),
        Err(line) => not_run(alloc, line, shelf),
    }
}

/// Sees that there are 1 to 16 devices, or formats the one of a volume in memory.
fn begin<D: BlockDevice>(alloc: Global, shelf: &mut Vec<D>, in_memory: bool) -> Result<(), EndLine>
    ensures begun { OnOk result (HasBegun D.tells D.seen in_memory shelf.old.items
        shelf.new.items) }
    ensures not_begun { IfErr result (HasNotBegun D.tells D.seen D.faults in_memory
        shelf.old.items shelf.new.items) }
    ensures few { OnOk result (length shelf.new.items ≤ 16) }
{
    if in_memory {
        return format_devices(alloc, shelf.as_mut_slice(), 1, MEMORY_LOG, MEMORY_AREA);
    }
    if shelf.is_empty() || shelf.len() > MOST_VOLUMES {
        return Err(EndLine::Shelf {
            devices: shelf.len() as u64,
        });
    }
    Ok(())
}

/// Runs a job on the volumes of the shelf. Where there is no memory for their list, nothing is run.
fn run_on<R: Threads + Wait + Sync, D: BlockDevice + Send, G: Gate + Sync>(
    rt: &R,
    alloc: Global,
    shelf: Vec<D>,
    job: Job,
    lines: bool,
    gate: &G,
) -> Done<D>
    requires few { length shelf.items ≤ 16 }
    requires numbered { AreNumbered (deck_steps job.steps) }
    ensures { ((result.trace.end ≡ Line NoMemory) × IsNothing result.trace
        × (result.shelf.items ≡ shelf.items))
        ⊎ HasRunOn D.tells D.seen D.faults job lines shelf.items result.shelf.items
        result.trace result.trace.end }
{
    match run_volumes(rt, alloc, shelf, job.steps.as_slice(), gate) {
        Ok(end) => ran(job, lines, end),
        Err(shelf) => not_run(alloc, EndLine::NoMemory, shelf),
    }
}

/// A job that was run on the volumes of a shelf.
fn ran<D: BlockDevice>(job: Job, lines: bool, end: ShelfEnd<D>) -> Done<D>
    ensures job { result.trace.job ≡ Some job }
    ensures lines { result.trace.lines ≡ lines }
    ensures end { result.trace.end ≡ end.end }
    ensures reports { result.trace.reports ≡ end.reports }
    ensures histories { result.trace.histories ≡ end.histories }
    ensures shelf { result.shelf ≡ end.shelf }
{
    let ShelfEnd {
        shelf,
        reports,
        histories,
        end,
    } = end;
    Done {
        trace: Trace {
            job: Some(job),
            reports,
            end,
            lines,
            histories,
        },
        shelf,
    }
}

/// Reads a job and runs it on the volumes of the shelf, the one of which is formatted first where it is
/// a volume in memory.
pub(crate) fn run_shelf<R: Threads + Wait + Sync, S: Source, D: BlockDevice + Send, G: Gate + Sync>(
    rt: &R,
    alloc: Global,
    input: &mut S,
    mut shelf: Vec<D>,
    in_memory: bool,
    lines: bool,
    gate: &G,
) -> Done<D>
    ensures done { IsRunDone D.tells D.seen D.faults in_memory lines (S.left input.old)
        (S.left input.new) (S.faults input.old) (S.faults input.new) shelf.items
        result.shelf.items result.trace result.trace.end }
{
    if let Err(line) = begin(alloc, &mut shelf, in_memory) {
        return not_run(alloc, line, shelf);
    }
    match read_job(alloc, input) {
        Ok(job) => run_on(rt, alloc, shelf, job, lines, gate),
        Err(line) => not_run(alloc, line, shelf),
    }
}
