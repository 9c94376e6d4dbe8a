//! The jobs that are run.
ghost use Rattle.std.specs.Prelude.{◌≤◌, ◌^◌, length, IfOk, IfErr};
ghost use Rattle.vr_job_text.specs.Job.{IsRunJob, RefusedBy, deck_steps, order_count};
ghost use Rattle.vr_job_text.specs.Numbers.{AreNumbered};

use crate::fault::JobFault;
use crate::job::{Job, unrun};
use crate::parse::parse_job;
use std::alloc::Global;

/// The job of a text of at most 64 MiB, where it is one that is run: each command of its steps of
/// IDCAMS is.
///
/// `Text` is the first fault of the text, or where it has none, the first command that isn't run
/// yet; `Memory` may come at any text.
#[tactic(auto, using(crate::proofs::Faults::fault_refuses, crate::proofs::Faults::unrun_refuses))]
pub fn parse_run_job(alloc: Global, text: &[u8]) -> Result<Job, JobFault>
    requires { length text.now ≤ 2 ^ 26 }
    ensures value { IfOk result (IsRunJob text.now) }
    ensures fault { IfErr result (RefusedBy text.now) }
    ensures few { IfOk result (λ job. order_count (deck_steps job.steps) ≤ 2 ^ 26) }
    ensures numbers { IfOk result (λ job. AreNumbered (deck_steps job.steps)) }
{
    let job = match parse_job(alloc, text) {
        Ok(job) => job,
        Err(fault) => return Err(fault),
    };
    match unrun(&job) {
        Some(fault) => Err(JobFault::Text(fault)),
        None => Ok(job),
    }
}
