//! The records of a log, read off its bytes.
ghost use Rattle.std.specs.Prelude.{◌≡◌, ◌<◌, ◌≤◌, [], length, IfOk, OnOk, IfSome};
ghost use Rattle.vr_log.specs.Decoding.{IsStep, AreRead};

use crate::content::LogContent;
use crate::decoding::{Found, read_record};
use std::alloc::Global;
use vr_types::OutOfMemory;

/// What was read off bytes: a record of that many of them, which was added to the content, the end
/// of the records, or bytes that are misspelled.
#[derive(Clone, Copy)]
pub(crate) enum Step {
    Added(usize),
    Ended,
    Stopped,
}

/// Adds all records of the bytes to the content. Where some are misspelled, it answers from which
/// byte on.
pub(crate) fn read_records(
    alloc: Global,
    bytes: &[u8],
    content: &mut LogContent,
) -> Result<Option<usize>, OutOfMemory>
    requires { content.old.records ≡ [] }
    ensures read { IfOk result (AreRead bytes.now content.new.records) }
    ensures generation { OnOk result (content.new.generation ≡ content.old.generation) }
    ensures within { IfOk result (λ stop. IfSome stop (λ at. at ≤ length bytes.now)) }
{
    let mut at = 0;
    loop {
        match read_next(alloc, &bytes[at..], content)? {
            Step::Added(count) => at += count,
            Step::Ended => return Ok(None),
            Step::Stopped => return Ok(Some(at)),
        }
    }
}

/// Adds the record that the bytes begin with.
fn read_next(alloc: Global, bytes: &[u8], content: &mut LogContent) -> Result<Step, OutOfMemory>
    ensures step { IfOk result (IsStep bytes.now content.old content.new) }
    ensures generation { content.new.generation ≡ content.old.generation }
{
    match read_record(alloc, bytes)? {
        Found::Whole { rec, count } => {
            content.push(rec)?;
            Ok(Step::Added(count))
        }
        Found::Cut => Ok(Step::Ended),
        Found::Misspelled => Ok(Step::Stopped),
    }
}
