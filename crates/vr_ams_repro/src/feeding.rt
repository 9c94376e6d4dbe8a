//! Records that are put into the target, one after another.
ghost use Rattle.std.specs.Prelude.{◌≡◌, None, true, IfOk, OnOk};
ghost use Rattle.std.specs.Option.{option_copied};
ghost use Rattle.vr_ams_repro.specs.Fed as stated;
ghost use Rattle.vr_ams_repro.specs.Requests.{place_of as goes_to};
ghost use Rattle.vr_ams_repro.specs.Steps.{IsServed, IsStill, WentOn};

use crate::filled::FilledVolume;
use crate::load::Load;
use crate::progress::Progress;
use crate::putting::{ask, try_record};
use crate::requests::place_of;
use crate::tried::Tried;
use std::alloc::Global;
use vr_trace::RunNo;
use vr_types::{Bytes, Place, Request, SharedRequest};

/// Commits.
fn commit<V: FilledVolume>(
    alloc: Global,
    volume: &mut V,
    load: &Load,
    after: u64,
    progress: Progress,
) -> Result<Progress, RunNo>
    ensures committed { IfOk result (λ next. stated.IsCommitted V.answers V.replies load.now
        progress volume.old next volume.new) }
    ensures still { IfOk result (λ next.
        IsStill next.fault (V.shown volume.old) (V.shown volume.new)) }
    ensures went { WentOn V.geometry V.history V.goes load.now.line after volume.old volume.new }
{
    let request = SharedRequest::new(alloc, Request::Commit)?;
    let reply = ask(volume, load.line, after, request)?;
    Ok(progress.after_commit(&reply))
}

/// Commits where a COMMIT is due.
pub(crate) fn commit_if<V: FilledVolume>(
    alloc: Global,
    volume: &mut V,
    load: &Load,
    after: u64,
    due: bool,
    progress: Progress,
) -> Result<Progress, RunNo>
    ensures committed { IfOk result (λ next. stated.IsCommittedIf V.answers V.replies load.now
        due progress volume.old next volume.new) }
    ensures still { IfOk result (λ next.
        IsStill next.fault (V.shown volume.old) (V.shown volume.new)) }
    ensures went { WentOn V.geometry V.history V.goes load.now.line after volume.old volume.new }
{
    if due {
        commit(alloc, volume, load, after, progress)
    } else {
        Ok(progress)
    }
}

/// Tries to put a record, and counts what came of it.
fn put_once<V: FilledVolume>(
    alloc: Global,
    volume: &mut V,
    load: &Load,
    after: u64,
    place: Option<&Place>,
    record: &[u8],
    progress: Progress,
) -> Result<Progress, RunNo>
    requires served { IsServed (V.shown volume.old) load.now.target }
    ensures put { IfOk result (λ next. stated.IsPutOnce V.answers V.replies load.now
        (option_copied place.entry) record.now progress volume.old next volume.new) }
    ensures still { IfOk result (λ next.
        IsStill next.fault (V.shown volume.old) (V.shown volume.new)) }
    ensures went { WentOn V.geometry V.history V.goes load.now.line after volume.old volume.new }
{
    let tried = try_record(alloc, volume, load, after, place, record)?;
    Ok(progress.after_tried(&tried))
}

/// The same, unless the command has ended.
fn put_unless<V: FilledVolume>(
    alloc: Global,
    volume: &mut V,
    load: &Load,
    after: u64,
    place: Option<&Place>,
    record: &[u8],
    progress: Progress,
) -> Result<Progress, RunNo>
    requires served { progress.fault ≡ None → IsServed (V.shown volume.old) load.now.target }
    ensures put { IfOk result (λ next. stated.IsPutUnless V.answers V.replies load.now
        progress.fault (option_copied place.entry) record.now progress volume.old next volume.new) }
    ensures still { IfOk result (λ next.
        IsStill next.fault (V.shown volume.old) (V.shown volume.new)) }
    ensures went { WentOn V.geometry V.history V.goes load.now.line after volume.old volume.new }
{
    match progress.fault {
        Some(_) => Ok(progress),
        None => put_once(alloc, volume, load, after, place, record, progress),
    }
}

/// Commits, and tries once more to put a record.
fn put_again<V: FilledVolume>(
    alloc: Global,
    volume: &mut V,
    load: &Load,
    after: u64,
    place: Option<&Place>,
    record: &[u8],
    progress: Progress,
) -> Result<Progress, RunNo>
    requires served { IsServed (V.shown volume.old) load.now.target }
    ensures put { IfOk result (λ next. stated.IsPutAgain V.answers V.replies load.now
        (option_copied place.entry) record.now progress volume.old next volume.new) }
    ensures still { IfOk result (λ next.
        IsStill next.fault (V.shown volume.old) (V.shown volume.new)) }
    ensures went { WentOn V.geometry V.history V.goes load.now.line after volume.old volume.new }
{
    let committed = commit(alloc, volume, load, after, progress)?;
    put_unless(alloc, volume, load, after, place, record, committed)
}

/// Puts a record that was tried once more where the log was full, after a COMMIT.
fn put_after<V: FilledVolume>(
    alloc: Global,
    volume: &mut V,
    load: &Load,
    after: u64,
    full: bool,
    tried: &Tried,
    place: Option<&Place>,
    record: &[u8],
    progress: Progress,
) -> Result<Progress, RunNo>
    requires served { full ≡ true → IsServed (V.shown volume.old) load.now.target }
    ensures put { IfOk result (λ next. stated.IsPutAfter V.answers V.replies load.now
        full tried.now (option_copied place.entry) record.now progress volume.old next
        volume.new) }
    ensures still { IfOk result (λ next.
        IsStill next.fault (V.shown volume.old) (V.shown volume.new)) }
    ensures went { WentOn V.geometry V.history V.goes load.now.line after volume.old volume.new }
{
    if full {
        put_again(
            alloc,
            volume,
            load,
            after,
            place,
            record,
            progress.with_asked(),
        )
    } else {
        Ok(progress.after_tried(tried))
    }
}

/// Puts a record: where the log was full, once more after a COMMIT.
fn put_twice<V: FilledVolume>(
    alloc: Global,
    volume: &mut V,
    load: &Load,
    after: u64,
    place: Option<&Place>,
    record: &[u8],
    progress: Progress,
) -> Result<Progress, RunNo>
    requires served { IsServed (V.shown volume.old) load.now.target }
    ensures put { IfOk result (λ next. stated.IsPutTwice V.answers V.replies load.now
        (option_copied place.entry) record.now progress volume.old next volume.new) }
    ensures still { IfOk result (λ next.
        IsStill next.fault (V.shown volume.old) (V.shown volume.new)) }
    ensures went { WentOn V.geometry V.history V.goes load.now.line after volume.old volume.new }
{
    let tried = try_record(alloc, volume, load, after, place, record)?;
    let full = tried.is_full();
    put_after(
        alloc, volume, load, after, full, &tried, place, record, progress,
    )
}

/// Puts a record that was read, at a place of its source, to the place that it says.
fn put_read<V: FilledVolume>(
    alloc: Global,
    volume: &mut V,
    load: &Load,
    after: u64,
    at: &[u8],
    record: &[u8],
    progress: Progress,
) -> Result<Progress, RunNo>
    requires served { IsServed (V.shown volume.old) load.now.target }
    ensures put { IfOk result (λ next. stated.IsPutTwice V.answers V.replies load.now
        (goes_to load.now progress.tally.read (at.now, record.now)) record.now progress
        volume.old next volume.new) }
    ensures still { IfOk result (λ next.
        IsStill next.fault (V.shown volume.old) (V.shown volume.new)) }
    ensures went { WentOn V.geometry V.history V.goes load.now.line after volume.old volume.new }
{
    let place = place_of(alloc, load, progress.tally.read, at, record)?;
    put_twice(alloc, volume, load, after, place.as_ref(), record, progress)
}

/// Puts one more record that is read, and commits where a COMMIT is due.
fn feed_one<V: FilledVolume>(
    alloc: Global,
    volume: &mut V,
    load: &Load,
    after: u64,
    at: &[u8],
    record: &[u8],
    progress: Progress,
) -> Result<Progress, RunNo>
    requires served { IsServed (V.shown volume.old) load.now.target }
    ensures fed { IfOk result (λ next. stated.IsOneFed V.answers V.replies load.now
        (at.now, record.now) progress volume.old next volume.new) }
    ensures still { IfOk result (λ next.
        IsStill next.fault (V.shown volume.old) (V.shown volume.new)) }
    ensures went { WentOn V.geometry V.history V.goes load.now.line after volume.old volume.new }
{
    let read = progress.with_read();
    let fed = put_read(alloc, volume, load, after, at, record, read)?;
    let due = fed.is_due();
    commit_if(alloc, volume, load, after, due, fed)
}

/// The same, unless the command has ended.
fn feed_unless<V: FilledVolume>(
    alloc: Global,
    volume: &mut V,
    load: &Load,
    after: u64,
    at: &[u8],
    record: &[u8],
    progress: Progress,
) -> Result<Progress, RunNo>
    requires served { progress.fault ≡ None → IsServed (V.shown volume.old) load.now.target }
    ensures fed { IfOk result (λ next. stated.IsFedUnless V.answers V.replies load.now
        progress.fault (at.now, record.now) progress volume.old next volume.new) }
    ensures still { IfOk result (λ next.
        IsStill next.fault (V.shown volume.old) (V.shown volume.new)) }
    ensures went { WentOn V.geometry V.history V.goes load.now.line after volume.old volume.new }
{
    match progress.fault {
        Some(_) => Ok(progress),
        None => feed_one(alloc, volume, load, after, at, record, progress),
    }
}

/// Puts records, each with its place before it, until the command has ended. What is entered comes
/// after stamp `after`.
pub(crate) fn feed_records<V: FilledVolume>(
    alloc: Global,
    volume: &mut V,
    load: &Load,
    after: u64,
    records: &[(Place, Bytes)],
    progress: &mut Progress,
) -> Result<(), RunNo>
    requires served { IsServed (V.shown volume.old) load.now.target }
    ensures fed { OnOk result (stated.AreFed V.answers V.replies load.now progress.old volume.old
        records.now progress.new volume.new) }
    ensures still { OnOk result
        (IsStill progress.new.fault (V.shown volume.old) (V.shown volume.new)) }
    ensures went { WentOn V.geometry V.history V.goes load.now.line after volume.old volume.new }
{
    for one in records {
        let at = one.0.as_slice();
        let record = one.1.as_slice();
        *progress = feed_unless(alloc, volume, load, after, at, record, *progress)?;
    }
    Ok(())
}
