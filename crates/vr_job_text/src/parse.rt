//! The reading of a job text: its lines, and then its steps.
ghost use Rattle.std.specs.Prelude.{◌≡◌, ◌^◌, ◌≤◌, length, OnOk, IfOk, IfErr};
ghost use Rattle.std.specs.List.{AllByRecursion};
ghost use Rattle.vr_job_text.specs.Job.{IsJob, CauseOf, deck_steps, order_count};
ghost use Rattle.vr_job_text.specs.Layout.{unread, with_lines, laid, finished};
ghost use Rattle.vr_job_text.specs.Numbers.{AreNumbered};

use crate::fault::JobFault;
use crate::job::Job;
use crate::reading::{Numbers, Parts, Reading};
use crate::step::{close, end_step};
use crate::steps::read_steps;
use crate::take::take_next;
use bstr::{ByteSlice, Lines};
use std::alloc::Global;
use vr_types::{Items, OutOfMemory};

/// The job of a text of at most 64 MiB. Its cards are those of MVS JCL, the commands of its steps of
/// IDCAMS those of Access Method Services Commands, the orders of its decks those of Using Data
/// Sets; how they stand in a job is this project's own.
///
/// `Text` is the first fault, exactly where the text isn't a job; `Memory` may come at any text.
/// Faults of cards are looked for line by line, those of the text of a step where the step ends, at
/// the next EXEC card or at the end of the text.
#[tactic(auto, using(crate::proofs::Jobs::job_is, crate::proofs::Jobs::first_is, crate::proofs::Jobs::few_are))]
pub fn parse_job(alloc: Global, text: &[u8]) -> Result<Job, JobFault>
    requires { length text.now ≤ 2 ^ 26 }
    ensures value { IfOk result (IsJob text.now) }
    ensures fault { IfErr result (CauseOf text.now) }
    ensures few { IfOk result (λ job. order_count (deck_steps job.steps) ≤ 2 ^ 26) }
    ensures numbers { IfOk result (λ job. AreNumbered (deck_steps job.steps)) }
{
    let reading = layout(alloc, text)?;
    match read_steps(alloc, reading.steps.as_slice(), reading.fault) {
        Ok(steps) => Ok(Job { steps }),
        Err(fault) => Err(fault),
    }
}

/// What a text is laid out as.
fn layout<'a>(alloc: Global, text: &'a [u8]) -> Result<Reading<'a>, OutOfMemory>
    requires { length text.now ≤ 2 ^ 26 }
    ensures { IfOk result (λ reading. reading ≡ laid text.now) }
{
    let mut reading = unread(alloc);
    take_lines(alloc, &mut reading, text.lines())?;
    finish(alloc, &mut reading)?;
    Ok(reading)
}

/// Before the first line.
fn unread<'a>(alloc: Global) -> Reading<'a>
    ensures { result ≡ unread }
{
    Reading {
        steps: Items::new(alloc),
        begun: None,
        parts: Parts::new(alloc),
        going: None,
        used: Numbers::new(alloc),
        fault: None,
    }
}

/// Takes the end of a text.
fn finish(alloc: Global, reading: &mut Reading) -> Result<(), OutOfMemory>
    ensures { OnOk result (reading.new ≡ finished reading.old) }
{
    match reading.fault {
        Some(_) => Ok(()),
        None => {
            close(reading)?;
            end_step(alloc, reading)
        }
    }
}

/// Takes each line.
fn take_lines<'a>(
    alloc: Global,
    reading: &mut Reading<'a>,
    lines: Lines<'a>,
) -> Result<(), OutOfMemory>
    requires count { length lines ≤ 2 ^ 26 }
    requires short { AllByRecursion (λ line. length line ≤ 2 ^ 26) lines }
    ensures { OnOk result (reading.new ≡ with_lines 1 reading.old lines.entry) }
{
    let mut number = 0u32;
    for line in lines {
        number += 1;
        take_next(alloc, reading, number, line)?;
    }
    Ok(())
}
