//! The lines of a REPRO, and its outcome.
ghost use Rattle.std.specs.Prelude.{◌≡◌, ◌++◌, IfOk, OnOk};
ghost use Rattle.vr_ams_repro.specs.Outcomes as stated;

use crate::progress::{FirstRefused, Progress, Tally};
use std::alloc::Global;
use vr_trace::{NEW_LINE, Outcome, write_field};
use vr_types::{Bytes, OutOfMemory};

/// Writes how many records were read, added, replaced and refused.
fn write_tally(alloc: Global, out: &mut Bytes, tally: &Tally) -> Result<(), OutOfMemory>
    ensures { OnOk result (out.new ≡ out.old ++ stated.tally_line tally.now) }
{
    write_field(alloc, out, b"READ ", tally.read)?;
    write_field(alloc, out, b" ADDED ", tally.added)?;
    write_field(alloc, out, b" REPLACED ", tally.replaced)?;
    write_field(alloc, out, b" REFUSED ", tally.refused)?;
    out.push(NEW_LINE)
}

/// Writes which record was refused first, where one was.
fn write_first(
    alloc: Global,
    out: &mut Bytes,
    first: Option<FirstRefused>,
) -> Result<(), OutOfMemory>
    ensures { OnOk result (out.new ≡ out.old ++ stated.first_line first) }
{
    let Some(first) = first else {
        return Ok(());
    };
    write_field(alloc, out, b"FIRST REFUSED ", first.number)?;
    write_field(alloc, out, b" FB=", u64::from(first.feedback))?;
    out.push(NEW_LINE)
}

/// The code of a command that came so far: 12 with a fault, 8 where a record was refused.
fn code_of(progress: &Progress) -> u8
    ensures { result ≡ stated.code_of progress.now }
{
    match progress.fault {
        Some(_) => 12,
        None => { if progress.tally.refused > 0 { 8 } else { 0 } }
    }
}

/// The outcome of a command that came so far.
pub(crate) fn outcome_of(alloc: Global, progress: &Progress) -> Result<Outcome, OutOfMemory>
    ensures { IfOk result (λ outcome. outcome ≡ stated.outcome_of progress.now) }
{
    let mut lines = Bytes::new(alloc);
    write_tally(alloc, &mut lines, &progress.tally)?;
    write_first(alloc, &mut lines, progress.tally.first)?;
    Ok(Outcome {
        lines,
        code: code_of(progress),
        fault: progress.fault,
    })
}
