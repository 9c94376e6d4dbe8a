//! What a command of IDCAMS leaves, and the line that says so.
ghost use Rattle.std.specs.Prelude.{◌≡◌, ◌++◌, OnOk};
ghost use Rattle.vr_trace.specs.Commands as stated;

use crate::line::{NEW_LINE, write_field};
use std::alloc::Global;
use vr_types::{Bytes, OutOfMemory};

/// Why a command is refused: the number of the fault, and the code of the command.
#[derive(Clone, Copy)]
pub struct Failure {
    pub fault: u16,
    pub code: u8,
}

/// What a command leaves: its detail lines, its condition code, and the number of its fault where
/// it has one.
#[derive(Drop)]
pub struct Outcome {
    pub lines: Bytes,
    pub code: u8,
    pub fault: Option<u16>,
}

/// The outcome of a command that is refused: it has no detail line.
pub fn refused(alloc: Global, failure: Failure) -> Outcome
    ensures { result ≡ stated.refused failure }
{
    Outcome {
        lines: Bytes::new(alloc),
        code: failure.code,
        fault: Some(failure.fault),
    }
}

/// Writes the number of the fault, where there is one.
fn write_fault(alloc: Global, out: &mut Bytes, fault: Option<u16>) -> Result<(), OutOfMemory>
    ensures { OnOk result (out.new ≡ out.old ++ stated.fault_text fault) }
{
    match fault {
        None => Ok(()),
        Some(fault) => write_field(alloc, out, b" FAULT ", u64::from(fault)),
    }
}

/// Writes the line of a command.
fn write_line(
    alloc: Global,
    out: &mut Bytes,
    line: u32,
    name: &[u8],
    outcome: &Outcome,
) -> Result<(), OutOfMemory>
    ensures { OnOk result (out.new ≡ out.old ++ stated.command_line line name.now outcome.now) }
{
    write_field(alloc, out, b"LINE ", u64::from(line))?;
    out.extend(b" ")?;
    out.extend(name)?;
    write_field(alloc, out, b" CODE ", u64::from(outcome.code))?;
    write_fault(alloc, out, outcome.fault)?;
    out.push(NEW_LINE)
}

/// Writes the detail lines of a command, and its line: `LINE l NAME CODE c`, with ` FAULT f` where
/// it was refused. Its first word is on line `line` of the job.
pub fn write_outcome(
    alloc: Global,
    out: &mut Bytes,
    line: u32,
    name: &[u8],
    outcome: &Outcome,
) -> Result<(), OutOfMemory>
    ensures { OnOk result (out.new ≡ out.old ++ stated.command_lines line name.now outcome.now) }
{
    out.extend(outcome.lines.as_slice())?;
    write_line(alloc, out, line, name, outcome)
}
