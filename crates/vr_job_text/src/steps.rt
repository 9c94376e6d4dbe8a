//! The reading of the texts of steps.
ghost use Rattle.std.specs.Prelude.{◌≡◌, [], None, OnOk, IfOk, IfErr, IfSome};
ghost use Rattle.vr_job_text.specs.Decks.{decks_in};
ghost use Rattle.vr_job_text.specs.Fault.{FaultBy};
ghost use Rattle.vr_job_text.specs.Job.{IsDeckStep, IsUtilityStep, IsStep, AreSteps, IsFirstOf};
ghost use Rattle.vr_job_text.specs.Job.{StepFaultBy, FirstBy};
ghost use Rattle.vr_job_text.specs.Utilities.{UtilityFaultBy, command_lines, data_names};

use crate::card::Program;
use crate::decks::decks_in;
use crate::fault::{JobFault, TextFault};
use crate::job::{JobStep, JobSteps, UtilityStep};
use crate::reading::StepText;
use crate::text::Step;
use crate::utilities::{commands_in, data_of};
use std::alloc::Global;

/// The steps of texts, where no text has a fault, and there is no fault of the layout.
pub(crate) fn read_steps(
    alloc: Global,
    texts: &[StepText],
    last: Option<TextFault>,
) -> Result<JobSteps, JobFault>
    ensures steps { IfOk result (AreSteps texts.now) }
    ensures last { OnOk result (last ≡ None) }
    ensures fault { IfErr result (FirstBy texts.now last) }
{
    let mut steps = JobSteps::new(alloc);
    match take_steps(alloc, &mut steps, texts, last) {
        Err(fault) => Err(fault),
        Ok(()) => match last {
            None => Ok(steps),
            Some(fault) => Err(JobFault::Text(fault)),
        },
    }
}

/// Takes the step of each text.
#[tactic(auto, using(crate::proofs::StepsRead::read_start, crate::proofs::StepsRead::read_next, crate::proofs::StepsRead::read_end, crate::proofs::StepsRead::read_last, crate::proofs::StepsRead::read_fault))]
fn take_steps(
    alloc: Global,
    steps: &mut JobSteps,
    texts: &[StepText],
    last: Option<TextFault>,
) -> Result<(), JobFault>
    requires { steps.old ≡ [] }
    ensures steps { OnOk result (AreSteps texts.now steps.new) }
    ensures last { OnOk result (IfSome last (IsFirstOf texts.now last)) }
    ensures fault { IfErr result (FirstBy texts.now last) }
{
    for text in texts {
        match read_step(alloc, text) {
            Ok(step) => steps.push(step)?,
            Err(fault) => return Err(fault),
        }
    }
    Ok(())
}

/// The step of a text.
fn read_step(alloc: Global, text: &StepText) -> Result<JobStep, JobFault>
    ensures step { IfOk result (IsStep text.now) }
    ensures fault { IfErr result (StepFaultBy text.now) }
{
    match text.program {
        Program::Decks => match read_decks(alloc, text) {
            Ok(step) => Ok(JobStep::Decks(step)),
            Err(fault) => Err(fault),
        },
        Program::Utilities => match read_utilities(alloc, text) {
            Ok(step) => Ok(JobStep::Utilities(step)),
            Err(fault) => Err(fault),
        },
    }
}

/// The step of a text of decks.
fn read_decks(alloc: Global, text: &StepText) -> Result<Step, JobFault>
    ensures step { IfOk result (IsDeckStep text.now) }
    ensures fault { IfErr result (FaultBy (decks_in text.now.parts)) }
{
    let name = text.name.copy(alloc)?;
    match decks_in(alloc, text.parts.as_slice()) {
        Ok(decks) => Ok(Step {
            name,
            line: text.line,
            decks,
        }),
        Err(fault) => Err(fault),
    }
}

/// The step of a text of IDCAMS.
fn read_utilities(alloc: Global, text: &StepText) -> Result<UtilityStep, JobFault>
    ensures step { IfOk result (IsUtilityStep text.now) }
    ensures fault { IfErr result
        (UtilityFaultBy (command_lines text.now.parts) (data_names text.now.parts)) }
{
    let commands = match commands_in(alloc, text.parts.as_slice()) {
        Ok(commands) => commands,
        Err(fault) => return Err(fault),
    };
    let name = text.name.copy(alloc)?;
    let inputs = data_of(alloc, text.parts.as_slice())?;
    Ok(UtilityStep {
        name,
        line: text.line,
        commands,
        inputs,
    })
}
