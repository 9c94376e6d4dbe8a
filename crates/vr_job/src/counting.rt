//! The count of a cluster of a volume by the utilities, for LISTCAT ALL: one event of deck 0.
ghost use Rattle.std.specs.Prelude.{◌≡◌, ◌<◌, ◌≤◌, ◌^◌, Contains, IfOk, IsErr, IsTrue, None};
ghost use Rattle.vr_catalog.specs.declared.entry.EntryKind.TheVariants.{Cluster};
ghost use Rattle.vr_history.specs.Merged.{last_stamp};
ghost use Rattle.vr_history.specs.State.{State};
ghost use Rattle.vr_ams_define.specs.Answers.{IsShownCounted};
ghost use Rattle.vr_ams_define.specs.Answers.Exchange.{Counting};
ghost use Rattle.vr_ams_define.specs.Grown.{HasEntered};
ghost use Rattle.vr_event.specs.Counts.{HasCountFaults, IsCountEntered};
ghost use Rattle.vr_event.specs.Defining.{utility_unit};
ghost use Rattle.vr_event.specs.Volume.{IsHeld};
ghost use Rattle.vr_job.specs.Answering as answering;
ghost use Rattle.vr_job.specs.Answering.{IsAnswered, IsCountOf};
ghost use Rattle.vr_job.specs.Going.{Follows, WentOn};
ghost use Rattle.vr_job.specs.Reported.{numbers_of};
ghost use Rattle.vr_job.specs.Serving.{IsServing, shown_of};

use crate::serving::{EVENT_ENTRIES, make_ready};
use std::alloc::Global;
use vr_ams_define::Counted;
use vr_catalog::CatEntry;
use vr_event::{Count, Counts, Volume};
use vr_space::Part;
use vr_trace::{RunNo, Statistics};
use vr_types::{Blocks, OutOfMemory};

/// What is counted, as a command shows it.
fn statistics_of(counts: Counts) -> Statistics
    ensures { result ≡ numbers_of counts }
{
    Statistics {
        records: counts.records,
        areas: counts.areas,
        interval_splits: counts.interval_splits,
        area_splits: counts.area_splits,
    }
}

/// What an event of a count came to, as its command has it.
fn counted_of(event: Count) -> Counted
    ensures { result ≡ answering.counted_of event }
{
    match event {
        Count::Counted(counts) => Counted::Done(statistics_of(counts)),
        Count::Fault(fault) => Counted::Fault(fault),
    }
}

/// One event of a count of a cluster by the utilities, which are deck 0, in room that was made.
fn count_event<B: Blocks, P: Part>(
    alloc: Global,
    volume: &mut Volume<B, P>,
    line: u32,
    entry: &CatEntry,
    after: u64,
) -> Result<Count, OutOfMemory>
    requires serving { IsServing B.tells B.seen volume.old }
    requires going { volume.old.file.stopped ≡ None }
    requires room { 4 ≤ volume.old.file.room }
    requires last { last_stamp 0 volume.old.file.entries < 2 ^ 62 }
    requires after { after < 2 ^ 62 }
    requires entry { Contains volume.old.file.catalog entry.now }
    requires cluster { entry.now.entry_kind ≡ Cluster }
    ensures serving { IsServing B.tells B.seen volume.new }
    ensures went { WentOn B.tells B.seen B.faults volume.old volume.new }
    ensures entered { IsCountEntered result after (utility_unit volume.old.file) line
        volume.old.file volume.new.file }
    ensures found { IsTrue B.tells → (opening : State) → IsHeld B.seen opening volume.old
        → IfOk result (λ count. IsCountOf count entry.now opening volume.old.file) }
    ensures cause { HasCountFaults (B.faults volume.old.blocks) (B.faults volume.new.blocks)
        result }
    ensures entered_on { HasEntered line after volume.old.file.entries volume.new.file.entries }
{
    volume.count(alloc, line, entry, after)
}

/// One event of a count of a cluster by the utilities.
pub(crate) fn count<B: Blocks, P: Part>(
    alloc: Global,
    volume: &mut Volume<B, P>,
    line: u32,
    entry: &CatEntry,
    after: u64,
) -> Result<Counted, RunNo>
    requires serving { IsServing B.tells B.seen volume.old }
    requires going { volume.old.file.stopped ≡ None }
    requires entry { Contains volume.old.file.catalog entry.now }
    requires cluster { entry.now.entry_kind ≡ Cluster }
    ensures serving { IsServing B.tells B.seen volume.new }
    ensures follows { Follows B.tells B.seen B.faults volume.old volume.new }
    ensures counted { IfOk result (λ counted. IsAnswered B.tells B.seen B.faults volume.old line
        (Counting entry.now counted) volume.new) }
    ensures shown { IfOk result (λ counted. IsShownCounted counted (shown_of volume.old)
        (shown_of volume.new)) }
    ensures refused { IsErr result → shown_of volume.new ≡ shown_of volume.old }
    ensures entered { HasEntered line after volume.old.file.entries volume.new.file.entries }
    ensures number { volume.new.number ≡ volume.old.number }
    ensures geometry { volume.new.file.geometry ≡ volume.old.file.geometry }
{
    make_ready(volume, 0, after, EVENT_ENTRIES)?;
    let event = count_event(alloc, volume, line, entry, after)?;
    Ok(counted_of(event))
}
