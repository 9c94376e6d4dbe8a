//! The reading of a job: its input to the end, and the job that its text is.
ghost use Rattle.std.specs.Prelude.{◌≡◌, ◌≤◌, ◌^◌, IfErr, IfOk, length};
ghost use Rattle.vr_job_text.specs.Job.{IsRunJob, RefusedBy, deck_steps};
ghost use Rattle.vr_job_text.specs.Numbers.{AreNumbered};
ghost use Rattle.vr_job_ends.specs.Input.{CauseOf};
ghost use Rattle.vr_job_ends.specs.Reading as reading;
ghost use Rattle.vr_job_ends.specs.Reading.{IsInputEnd, IsJobRead};

use crate::input::{InputFault, read_text};
use std::alloc::Global;
use vr_job_text::{Job, JobFault, Kind, TextFault, parse_run_job, scan_number};
use vr_outside::Source;
use vr_trace::{EndLine, TextKind};

/// What is shown of what is wrong with a text.
fn kind_shown(kind: Kind) -> TextKind
    ensures { result ≡ reading.kind_shown kind }
{
    match kind {
        Kind::Card(cause) => TextKind::Card {
            number: cause.number() as u32,
        },
        Kind::Scan(cause) => TextKind::Scan {
            number: scan_number(cause) as u32,
        },
        Kind::Ams(cause) => TextKind::Ams {
            number: cause.number() as u32,
        },
        Kind::Deck(cause) => TextKind::Deck {
            number: cause.number() as u32,
        },
        Kind::Form => TextKind::Form,
    }
}

/// What is shown of the first fault of a text, or of what isn't run of it.
fn line_of(fault: TextFault) -> EndLine
    ensures { result ≡ reading.line_of fault }
{
    EndLine::Refused {
        kind: kind_shown(fault.kind),
        line: fault.line,
        column: fault.column,
    }
}

/// How a job ends whose input wasn't read to its end.
fn input_line(fault: InputFault) -> EndLine
    ensures { result ≡ reading.input_line fault }
{
    match fault {
        InputFault::Read => EndLine::ReadFault,
        InputFault::TooLong => EndLine::InputTooLong,
        InputFault::Memory => EndLine::NoMemory,
    }
}

/// How a job ends whose text isn't one that is run.
fn fault_line(fault: JobFault) -> EndLine
    ensures { result ≡ reading.fault_line fault }
{
    match fault {
        JobFault::Text(fault) => line_of(fault),
        JobFault::Memory => EndLine::NoMemory,
    }
}

/// The job of a text, which is let go.
fn parse_text(alloc: Global, text: Vec<u8>) -> Result<Job, JobFault>
    requires { length text.items ≤ 2 ^ 26 }
    ensures job { IfOk result (IsRunJob text.items) }
    ensures fault { IfErr result (RefusedBy text.items) }
    ensures numbers { IfOk result (λ job. AreNumbered (deck_steps job.steps)) }
{
    parse_run_job(alloc, text.as_slice())
}

/// Reads the input to its end: the job that its text is, or how the job ends without it.
pub fn read_job<S: Source>(alloc: Global, input: &mut S) -> Result<Job, EndLine>
    ensures job { IfOk result (IsJobRead (S.left input.old) (S.left input.new) (S.faults input.old)
        (S.faults input.new)) }
    ensures numbers { IfOk result (λ job. AreNumbered (deck_steps job.steps)) }
    ensures line { IfErr result (IsInputEnd (S.left input.old) (S.left input.new)
        (S.faults input.old) (S.faults input.new)) }
    ensures never_falls { S.faults input.old ≤ S.faults input.new }
{
    match read_text(alloc, input) {
        Ok(text) => match parse_text(alloc, text) {
            Ok(job) => Ok(job),
            Err(fault) => Err(fault_line(fault)),
        },
        Err(fault) => Err(input_line(fault)),
    }
}
