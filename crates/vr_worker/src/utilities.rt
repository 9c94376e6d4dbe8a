//! The commands of a step of IDCAMS, over the volumes that the steps before it left.
ghost use Rattle.std.specs.Prelude.{◌≡◌, [], ◌∷◌, ◌++◌, IfOk, IsErrOf, OnErr, OnOk, Result};
ghost use Rattle.vr_ams_run.specs.Running.{IsReport};
ghost use Rattle.vr_job_text.specs.declared.job.JobStep.TheVariants.{Utilities};
ghost use Rattle.vr_trace.specs.declared.no.RunNo.{RunNo};
ghost use Rattle.vr_trace.specs.declared.no.RunNo.TheVariants.{Stamps};
ghost use Rattle.vr_worker.specs.Decks.{ArePlaced, HasUsedUp};
ghost use Rattle.vr_worker.specs.OneStep.{AddsReport, HasRunStep};

use crate::cataloged::Cataloged;
use crate::decks::shown;
use crate::readying::greatest_of;
use std::alloc::Global;
use vr_ams_run::run_commands;
use vr_job_text::UtilityStep;
use vr_trace::{RunNo, StepReport, StepReports};
use vr_types::OutOfMemory;

/// Runs the commands of a step over the volumes.
fn run_utilities<V: Cataloged>(
    alloc: Global,
    volumes: &mut [V],
    step: &UtilityStep,
) -> Result<StepReport, RunNo>
    requires placed { ArePlaced V.number volumes.old }
    ensures placed { ArePlaced V.number volumes.new }
    ensures left { (end : Result (Unit {0}) RunNo) → HasRunStep V.shown V.entries V.follows
        (Utilities step.now) end volumes.old volumes.new }
    ensures ran { IfOk result (IsReport V.shown V.geometry V.answers step.now.commands
        volumes.old volumes.new) }
    ensures stamps { IsErrOf result Stamps → HasUsedUp V.entries volumes.new }
{
    // What is entered comes after this stamp. That the stamps of each volume rise, no type of a
    // volume says: its history does.
    let _stamp = greatest_of(volumes);
    let end = run_commands(alloc, volumes, step.commands.as_slice());
    shown(end, volumes)
}

/// Adds the report of a step to the others.
fn add_report(report: StepReport, reports: &mut StepReports) -> Result<(), OutOfMemory>
    ensures ok { OnOk result (reports.new ≡ reports.old ++ report ∷ []) }
    ensures err { OnErr result (reports.new ≡ reports.old) }
{
    reports.push(report)?;
    Ok(())
}

/// Runs the commands of a step of IDCAMS over the volumes, and adds its report.
pub(crate) fn report_step<V: Cataloged>(
    alloc: Global,
    volumes: &mut [V],
    step: &UtilityStep,
    reports: &mut StepReports,
) -> Result<(), RunNo>
    requires placed { ArePlaced V.number volumes.old }
    ensures placed { ArePlaced V.number volumes.new }
    ensures left { HasRunStep V.shown V.entries V.follows (Utilities step.now) result
        volumes.old volumes.new }
    ensures reported { AddsReport V.shown V.geometry V.answers (Utilities step.now) result
        volumes.old volumes.new reports.old reports.new }
    ensures stamps { IsErrOf result Stamps → HasUsedUp V.entries volumes.new }
{
    let report = run_utilities(alloc, volumes, step)?;
    Ok(add_report(report, reports)?)
}
