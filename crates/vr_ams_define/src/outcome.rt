//! Outcomes of commands.
ghost use Rattle.std.specs.Prelude.{◌≡◌, []};
ghost use Rattle.vr_ams_define.specs.Asked as stated;
ghost use Rattle.vr_trace.specs.Commands.{done as done_with};

use std::alloc::Global;
use vr_trace::{Failure, Outcome, refused};
use vr_types::Bytes;

/// The outcome of a command that was done, and has no detail line.
pub(crate) fn done(alloc: Global) -> Outcome
    ensures { result ≡ done_with [] }
{
    Outcome {
        lines: Bytes::new(alloc),
        code: 0,
        fault: None,
    }
}

/// The outcome of a command without a detail line, by why it is refused, if it is.
pub(crate) fn outcome_by(alloc: Global, failure: Option<Failure>) -> Outcome
    ensures { result ≡ stated.outcome_by failure }
{
    match failure {
        None => done(alloc),
        Some(failure) => refused(alloc, failure),
    }
}
