//! What a job is: its steps, of decks and of IDCAMS.
ghost use Rattle.std.specs.Prelude.{◌≡◌, List, [], ◌∷◌, ◌++◌, OnOk, OnErr};
ghost use Rattle.vr_job_text.specs.Job.{is_entry_run, is_run, unrun, unrun_in};

use crate::fault::{TextFault, form_fault};
use crate::text::Step;
use std::alloc::Global;
use std::marker::Model;
use vr_amsparse::{Command, Commands, Node};
use vr_catalog::NewEntry;
use vr_types::{Bytes, Items, OutOfMemory};

/// Data cards of a step of IDCAMS: the name on their DD card, by which INFILE names them, and the
/// cards, each filled with blanks to 80 bytes.
#[derive(Drop)]
pub struct DataCards {
    pub name: Bytes,
    pub cards: Items<Bytes>,
}

/// A step of IDCAMS: its name, the number of the line of its card, its commands, and its data cards. It may
/// have no command.
#[derive(Drop)]
pub struct UtilityStep {
    pub name: Bytes,
    pub line: u32,
    pub commands: Commands,
    pub inputs: Items<DataCards>,
}

/// A step of a job.
#[derive(Drop)]
pub enum JobStep {
    Decks(Step),
    Utilities(UtilityStep),
}

/// The steps of a job, in order.
#[derive(Drop)]
pub struct JobSteps {
    steps: Vec<JobStep>,
}

impl Model for JobSteps {
    ghost use Rattle.std.specs.Prelude.{List};
    ghost use Rattle.vr_job_text.specs.declared.job.JobStep.{JobStep};

    ghost Value = { List JobStep };

    ghost view = { λ steps. steps.steps.items };
}

impl JobSteps {
    /// No step, which takes no memory.
    pub fn new(alloc: Global) -> JobSteps
        ensures { result ≡ [] }
    {
        JobSteps {
            steps: Vec::new(alloc),
        }
    }

    /// The steps, first to last.
    pub fn as_slice(&self) -> &[JobStep]
        ensures { result.now ≡ self.now }
    {
        self.steps.as_slice()
    }

    /// Adds a step at the end. Where memory runs out, nothing changes.
    pub fn push(&mut self, step: JobStep) -> Result<(), OutOfMemory>
        ensures ok { OnOk result (self.new ≡ self.old ++ step ∷ []) }
        ensures err { OnErr result (self.new ≡ self.old) }
    {
        self.steps.push(step)?;
        Ok(())
    }
}

/// A job: its steps.
#[derive(Drop)]
pub struct Job {
    pub steps: JobSteps,
}

/// Whether a DEFINE of it is run yet: of all but a spanned cluster.
fn is_entry_run(what: &NewEntry) -> bool
    ensures { result ≡ is_entry_run what.now }
{
    match what {
        NewEntry::Cluster { spanned, .. } => !*spanned,
        NewEntry::Alternate { .. } | NewEntry::Path { .. } => true,
    }
}

/// Whether a command is run yet: DEFINE but of a spanned cluster is, ALTER, DELETE, PRINT, LISTCAT,
/// VERIFY, and IF and SET.
fn is_run(command: &Command) -> bool
    ensures { result ≡ is_run command.now }
{
    match command {
        Command::Define(define) => is_entry_run(&define.order.what),
        Command::Delete(_) | Command::ListCatalog(_) | Command::If(_) | Command::Set(_) => true,
        Command::Print(_) | Command::Verify(_) | Command::Alter(_) => true,
        Command::Repro(_) | Command::BuildIndex(_) | Command::Examine(_) => false,
    }
}

/// The first command of a step that isn't run yet, as the fault of its line.
fn unrun_in(commands: &[Node]) -> Option<TextFault>
    ensures { result ≡ unrun_in commands.now }
{
    for node in commands {
        if !is_run(&node.command) {
            return Some(form_fault(node.line));
        }
    }
    None
}

/// What isn't run yet of a job, as the fault of its line: the first command of its steps of IDCAMS
/// that isn't run, also one that stands in a branch. `None` comes exactly where the job is run.
pub fn unrun(job: &Job) -> Option<TextFault>
    ensures { result ≡ unrun job.now.steps }
{
    for step in job.steps.as_slice() {
        if let JobStep::Utilities(step) = step {
            let fault = unrun_in(step.commands.as_slice());
            if fault.is_some() {
                return fault;
            }
        }
    }
    None
}
