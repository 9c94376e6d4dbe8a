//! What a job prints.

use crate::answers::{Answer, Stop, say_lines};
use std::alloc::Global;
use vr_history::History;
use vr_job_ends::{End, Trace, print_end};
use vr_job_text::Job;
use vr_outside::MemorySink;
use vr_trace::{Histories, StepReports};

/// Writes what a job prints that left these reports and this history, or that ended otherwise.
pub fn say_end(
    alloc: Global,
    job: Job,
    reports: StepReports,
    history: History,
    end: End,
    out: &mut String,
) -> Answer {
    let mut histories = Histories::new(alloc);
    histories.push(history)?;
    let trace = Trace {
        job: Some(job),
        reports,
        end,
        lines: false,
        histories,
    };
    say_trace(alloc, trace, out)
}

/// Writes what a trace prints.
fn say_trace(alloc: Global, trace: Trace, out: &mut String) -> Answer {
    let mut sink = MemorySink::new(alloc, Vec::new(alloc));
    let shelf: Vec<u8> = Vec::new(alloc);
    let end = print_end(alloc, trace, shelf, &mut sink);
    if end.status == 36 {
        return Err(Stop::Memory);
    }
    say_lines(out, sink.taken())
}
