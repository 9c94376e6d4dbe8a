//! A cluster of a volume read through by the utilities, for PRINT: one event of deck 0.
ghost use Rattle.std.specs.Prelude.{◌≡◌, ◌<◌, ◌≤◌, ◌^◌, Contains, IfOk, IsErr, IsTrue, None};
ghost use Rattle.std.specs.Option.{option_copied};
ghost use Rattle.vr_catalog.specs.declared.entry.EntryKind.TheVariants.{Cluster};
ghost use Rattle.vr_history.specs.Merged.{last_stamp};
ghost use Rattle.vr_ams_define.specs.Answers.{HasRead, IsShownRead};
ghost use Rattle.vr_ams_define.specs.Grown.{HasEntered};
ghost use Rattle.vr_event.specs.Defining.{utility_unit};
ghost use Rattle.vr_event.specs.Reading.{HasReadFaults, HasReadFrom, IsReadEntered};
ghost use Rattle.vr_job.specs.Answering as answering;
ghost use Rattle.vr_job.specs.Answering.{IsAnswered};
ghost use Rattle.vr_job.specs.Going.{Follows, WentOn};
ghost use Rattle.vr_job.specs.Serving.{IsServing, shown_of};

use crate::serving::{EVENT_ENTRIES, make_ready};
use std::alloc::Global;
use vr_ams_define::ReadBack;
use vr_catalog::CatEntry;
use vr_event::{ReadThrough, Volume};
use vr_space::Part;
use vr_trace::{RecordVisitor, RunNo};
use vr_types::{Blocks, OutOfMemory, Place};

/// What an event that read a cluster through came to, as its command has it.
fn read_back_of(event: ReadThrough) -> ReadBack
    ensures { result ≡ answering.read_back_of event }
{
    match event {
        ReadThrough::Done => ReadBack::Done,
        ReadThrough::Fault(fault) => ReadBack::Fault(fault),
    }
}

/// One event that reads a cluster through for the utilities, which are deck 0, in room that was
/// made.
fn read_event<B: Blocks, P: Part, R: RecordVisitor>(
    alloc: Global,
    volume: &mut Volume<B, P>,
    line: u32,
    entry: &CatEntry,
    from: Option<&Place>,
    after: u64,
    visitor: &mut R,
) -> Result<ReadThrough, OutOfMemory>
    requires serving { IsServing B.tells B.seen volume.old }
    requires going { volume.old.file.stopped ≡ None }
    requires room { 4 ≤ volume.old.file.room }
    requires last { last_stamp 0 volume.old.file.entries < 2 ^ 62 }
    requires after { after < 2 ^ 62 }
    requires entry { Contains volume.old.file.catalog entry.now }
    requires cluster { entry.now.entry_kind ≡ Cluster }
    ensures serving { IsServing B.tells B.seen volume.new }
    ensures went { WentOn B.tells B.seen B.faults volume.old volume.new }
    ensures entered { IsReadEntered result after (utility_unit volume.old.file) line
        volume.old.file volume.new.file }
    ensures read { IfOk result (λ through. HasReadFrom R.after R.done B.tells B.seen through
        (option_copied from.entry) entry.now.part.0 volume.old visitor.old visitor.new) }
    ensures cause { HasReadFaults (B.faults volume.old.blocks) (B.faults volume.new.blocks)
        result }
    ensures entered_on { HasEntered line after volume.old.file.entries volume.new.file.entries }
{
    volume.read_through(alloc, line, entry, from, after, visitor)
}

/// One event that reads a cluster through for the utilities.
pub(crate) fn read<B: Blocks, P: Part, R: RecordVisitor>(
    alloc: Global,
    volume: &mut Volume<B, P>,
    line: u32,
    entry: &CatEntry,
    from: Option<&Place>,
    after: u64,
    visitor: &mut R,
) -> Result<ReadBack, RunNo>
    requires serving { IsServing B.tells B.seen volume.old }
    requires going { volume.old.file.stopped ≡ None }
    requires entry { Contains volume.old.file.catalog entry.now }
    requires cluster { entry.now.entry_kind ≡ Cluster }
    ensures serving { IsServing B.tells B.seen volume.new }
    ensures follows { Follows B.tells B.seen B.faults volume.old volume.new }
    ensures read { IfOk result (λ answer. HasRead (IsAnswered B.tells B.seen B.faults) R.after
        R.done line entry.now (option_copied from.entry) volume.old volume.new visitor.old
        visitor.new answer) }
    ensures shown { IfOk result (λ answer. IsShownRead answer (shown_of volume.old)
        (shown_of volume.new)) }
    ensures refused { IsErr result → shown_of volume.new ≡ shown_of volume.old }
    ensures entered { HasEntered line after volume.old.file.entries volume.new.file.entries }
    ensures number { volume.new.number ≡ volume.old.number }
    ensures geometry { volume.new.file.geometry ≡ volume.old.file.geometry }
{
    make_ready(volume, 0, after, EVENT_ENTRIES)?;
    let event = read_event(alloc, volume, line, entry, from, after, visitor)?;
    Ok(read_back_of(event))
}
