//! What a job prints, and the status that it ends with.
ghost use Rattle.std.specs.Prelude.{◌≡◌, ◌≢◌, ◌↔◌, ◌⊎◌, ◌<◌, IfNone, IfOk, IfSome, IsTrue};
ghost use Rattle.vr_outside.specs.Told.{Takes, TakesPart};
ghost use Rattle.vr_job_ends.specs.Ends as ends;
ghost use Rattle.vr_job_ends.specs.Ends.{IsPrinted, IsStatus, IsThrough};
ghost use Rattle.vr_job_ends.specs.declared.job_end.End.TheVariants.{Line, Ran, Unsynced};
ghost use Rattle.vr_job_ends.specs.declared.job_end.Trace.{Trace as TraceOf};
ghost use Rattle.vr_trace.specs.declared.ending.EndLine.TheVariants.{NoMemory};

use crate::job_end::{End, JobEnd, Trace};
use crate::names::names_of;
use std::alloc::Global;
use vr_job_text::Job;
use vr_outside::{Sink, write_whole};
use vr_trace::{
    EndLine, Histories, KeptSteps, end_line, fixed_line, job_code, listing, trace_lines,
};
use vr_types::{Bytes, OutOfMemory};

/// The status of a job that ends with a line.
fn line_status(line: &EndLine) -> u8
    ensures { result ≡ ends.line_status line.now }
{
    match line {
        EndLine::NoCommand => 20,
        EndLine::ReadFault => 24,
        EndLine::InputTooLong => 26,
        EndLine::Refused { .. } => 16,
        EndLine::DeviceFault { .. } => 30,
        EndLine::Damaged { .. } => 31,
        EndLine::Version { .. } => 32,
        EndLine::Geometry { .. } => 33,
        EndLine::Shelf { .. } => 34,
        EndLine::StampsUsedUp => 35,
        EndLine::Formatted { .. } => 0,
        EndLine::NoMemory => 36,
    }
}

/// What is shown of the steps of a job that ran.
fn steps_shown(alloc: Global, job: &Option<Job>) -> Result<KeptSteps, OutOfMemory>
    ensures { IfOk result (λ steps. steps ≡ ends.steps_shown job.now) }
{
    match job {
        None => Ok(KeptSteps::new(alloc)),
        Some(job) => names_of(alloc, job.steps.as_slice()),
    }
}

/// The lines of the history, where they are asked for.
fn lines_shown(alloc: Global, lines: bool, histories: &Histories) -> Result<Bytes, OutOfMemory>
    ensures { IfOk result (λ text. text ≡ ends.lines_shown lines histories.now) }
{
    if lines {
        trace_lines(alloc, histories)
    } else {
        Ok(Bytes::new(alloc))
    }
}

/// Whether a job came through, so that the sink may be why its status is another.
fn is_through(end: &End) -> bool
    ensures { IsTrue result ↔ IsThrough end.now }
{
    match end {
        End::Ran => true,
        End::Line(EndLine::Formatted { .. }) => true,
        End::Unsynced(_) | End::Line(_) => false,
    }
}

/// The status and the text of a job whose steps ran.
fn ran_text(alloc: Global, trace: &Trace) -> Result<(u8, Bytes), OutOfMemory>
    ensures status { IfOk result (λ made. made.0 ≡ ends.status_by Ran trace.now) }
    ensures text { IfOk result (λ made. made.1 ≡ ends.printed_by Ran trace.now) }
{
    let steps = steps_shown(alloc, &trace.job)?;
    let reports = trace.reports.as_slice();
    let mut text = listing(alloc, &steps, reports, &trace.histories)?;
    let lines = lines_shown(alloc, trace.lines, &trace.histories)?;
    text.extend(lines.as_slice())?;
    Ok((job_code(&steps, reports, &trace.histories), text))
}

/// The status and the text of a job whose steps ran, where the device of this volume failed to sync as
/// it was closed: the line of that comes last.
fn unsynced_text(alloc: Global, trace: &Trace, volume: u32) -> Result<(u8, Bytes), OutOfMemory>
    ensures status { IfOk result (λ made. made.0 ≡ ends.status_by (Unsynced volume) trace.now) }
    ensures text { IfOk result (λ made. made.1 ≡ ends.printed_by (Unsynced volume) trace.now) }
{
    let fault = EndLine::DeviceFault { volume };
    let (_, mut text) = ran_text(alloc, trace)?;
    let line = end_line(alloc, &fault)?;
    text.extend(line.as_slice())?;
    Ok((line_status(&fault), text))
}

/// The status that a job ends with, and the text that it prints.
fn text_of(alloc: Global, trace: &Trace) -> Result<(u8, Bytes), OutOfMemory>
    ensures status { IfOk result (λ made. made.0 ≡ ends.status_by trace.now.end trace.now) }
    ensures text { IfOk result (λ made. made.1 ≡ ends.printed_of trace.now) }
{
    match &trace.end {
        End::Ran => ran_text(alloc, trace),
        End::Unsynced(volume) => unsynced_text(alloc, trace, *volume),
        End::Line(line) => Ok((line_status(line), end_line(alloc, line)?)),
    }
}

/// Writes a text, and answers the status: another one where the sink failed, of a job that came
/// through.
fn write_text<K: Sink>(text: &[u8], status: u8, through: bool, output: &mut K) -> u8
    ensures part { TakesPart (K.taken output.old) (K.taken output.new) text.now }
    ensures whole { K.faults output.new ≡ K.faults output.old
        → Takes (K.taken output.old) (K.taken output.new) text.now }
    // Of a job that came through, no failure is hidden.
    ensures told { IsTrue through → result ≢ 28
        → Takes (K.taken output.old) (K.taken output.new) text.now }
    ensures status { (result ≡ status)
        ⊎ ((result ≡ 28) × IsTrue through × (K.faults output.old < K.faults output.new)) }
{
    match write_whole(output, text) {
        Ok(()) => status,
        Err(_) => { if through { 28 } else { status } }
    }
}

/// The text of a job that ends with a line which takes no memory, and its status.
fn fixed_text(end: &End) -> Option<(u8, &'static [u8])>
    ensures status { IfSome result (λ fixed. (trace : TraceOf)
        → fixed.0 ≡ ends.status_by end.now trace) }
    ensures text { IfSome result (λ fixed. (trace : TraceOf)
        → fixed.1.now ≡ ends.printed_by end.now trace) }
    ensures none { IfNone result (ends.TakesMemory end.now) }
{
    match end {
        End::Ran | End::Unsynced(_) => None,
        End::Line(line) => match fixed_line(line) {
            None => None,
            Some(text) => Some((line_status(line), text)),
        },
    }
}

/// Prints a job whose text takes memory: nothing where it runs out.
fn print_made<D, K: Sink>(
    alloc: Global,
    mut trace: Trace,
    shelf: Vec<D>,
    output: &mut K,
) -> JobEnd<D>
    ensures status { IsStatus (K.faults output.old) (K.faults output.new) result.trace
        result.status }
    ensures printed { IsPrinted (K.taken output.old) (K.taken output.new) (K.faults output.old)
        (K.faults output.new) (ends.printed_of result.trace) }
    // Where the job came through, a failure of the sink shows in the status.
    ensures told { IsThrough result.trace.end → result.status ≢ 28
        → Takes (K.taken output.old) (K.taken output.new) (ends.printed_of result.trace) }
    ensures trace { result.trace ≡ record trace { end = result.trace.end } }
    ensures end { (result.trace.end ≡ trace.end) ⊎ (result.trace.end ≡ Line NoMemory) }
    ensures shelf { result.shelf.items ≡ shelf.items }
{
    match text_of(alloc, &trace) {
        Ok((status, text)) => {
            let through = is_through(&trace.end);
            let status = write_text(text.as_slice(), status, through, output);
            JobEnd {
                status,
                shelf,
                trace,
            }
        }
        Err(_) => {
            trace.end = End::Line(EndLine::NoMemory);
            JobEnd {
                status: 36,
                shelf,
                trace,
            }
        }
    }
}

/// Prints a job, and ends it.
pub fn print_end<D, K: Sink>(
    alloc: Global,
    trace: Trace,
    shelf: Vec<D>,
    output: &mut K,
) -> JobEnd<D>
    ensures status { IsStatus (K.faults output.old) (K.faults output.new) result.trace
        result.status }
    ensures printed { IsPrinted (K.taken output.old) (K.taken output.new) (K.faults output.old)
        (K.faults output.new) (ends.printed_of result.trace) }
    // Where the job came through, a failure of the sink shows in the status.
    ensures told { IsThrough result.trace.end → result.status ≢ 28
        → Takes (K.taken output.old) (K.taken output.new) (ends.printed_of result.trace) }
    ensures trace { result.trace ≡ record trace { end = result.trace.end } }
    ensures end { (result.trace.end ≡ trace.end)
        ⊎ ((result.trace.end ≡ Line NoMemory) × ends.TakesMemory trace.end) }
    ensures shelf { result.shelf.items ≡ shelf.items }
{
    match fixed_text(&trace.end) {
        Some((status, text)) => {
            let through = is_through(&trace.end);
            let status = write_text(text, status, through, output);
            JobEnd {
                status,
                shelf,
                trace,
            }
        }
        None => print_made(alloc, trace, shelf, output),
    }
}
