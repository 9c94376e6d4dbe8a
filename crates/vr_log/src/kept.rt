//! The records of a log, as clauses see them.
ghost use Rattle.std.specs.Prelude.{◌≡◌};

use crate::content::LogContent;
use crate::record::LogRecord;
use std::snapshot::Snapshot;

/// The records of the log's generation, and those that it was made with. It takes no memory.
#[derive(Drop)]
pub(crate) enum Kept {
    Nothing,
    Of(Snapshot<LogContent>),
    After(Snapshot<Kept>, Snapshot<LogRecord>),
}

/// The log that was on the blocks before: the one that this log was made with, or the generation
/// before it. It takes no memory.
#[derive(Drop)]
pub(crate) enum Older {
    Made(Snapshot<LogContent>),
    Ended(u64, Snapshot<Kept>),
}
