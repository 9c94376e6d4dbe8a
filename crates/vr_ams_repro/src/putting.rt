//! What the volume of the target is asked for one record.
ghost use Rattle.std.specs.Prelude.{IfOk};
ghost use Rattle.std.specs.Option.{option_copied};
ghost use Rattle.vr_ams_repro.specs.Fed as stated;
ghost use Rattle.vr_ams_repro.specs.Replies.{IsShownReplied};
ghost use Rattle.vr_ams_repro.specs.Requests.{get_of};
ghost use Rattle.vr_ams_repro.specs.Steps.{IsServed, IsShownLooked, IsShownTried, WentOn};

use crate::filled::FilledVolume;
use crate::load::Load;
use crate::piece::Piece;
use crate::requests::{add_request, get_request, place_looked, update_request};
use crate::tried::{Look, Tried, Way};
use std::alloc::Global;
use vr_ams_define::ReadBack;
use vr_trace::RunNo;
use vr_types::{Place, Refusal, Reply, SharedRequest};

/// Asks a volume. Where memory ran out for its reply, there is none.
pub(crate) fn ask<V: FilledVolume>(
    volume: &mut V,
    line: u32,
    after: u64,
    request: SharedRequest,
) -> Result<Reply, RunNo>
    ensures replied { IfOk result (λ reply. V.replies volume.old line request reply volume.new) }
    ensures shown { IfOk result (λ reply.
        IsShownReplied reply (V.shown volume.old) (V.shown volume.new)) }
    ensures went { WentOn V.geometry V.history V.goes line after volume.old volume.new }
{
    match volume.ask(line, request, after)? {
        Reply::Refused(Refusal::Memory) => Err(RunNo::Memory),
        reply => Ok(reply),
    }
}

/// Looks whether there is a record at a place of the target.
fn look_at<V: FilledVolume>(
    alloc: Global,
    volume: &mut V,
    load: &Load,
    after: u64,
    place: &Place,
) -> Result<Look, RunNo>
    requires served { IsServed (V.shown volume.old) load.now.target }
    ensures looked { IfOk result (λ look.
        stated.IsLooked V.answers V.replies load.now place.now volume.old look volume.new) }
    ensures shown { IfOk result (λ look.
        IsShownLooked look (V.shown volume.old) (V.shown volume.new)) }
    ensures went { WentOn V.geometry V.history V.goes load.now.line after volume.old volume.new }
{
    let mut piece = Piece::new(alloc, 0, 1, None);
    let answer = volume.read(
        load.line,
        &load.target.entry,
        Some(place),
        after,
        &mut piece,
    )?;
    Ok(piece.look(place, answer))
}

/// Adds a record.
fn add<V: FilledVolume>(
    alloc: Global,
    volume: &mut V,
    load: &Load,
    after: u64,
    place: Option<&Place>,
    record: &[u8],
) -> Result<Tried, RunNo>
    ensures added { IfOk result (λ tried. stated.IsAdded V.answers V.replies load.now
        (option_copied place.entry) record.now volume.old tried volume.new) }
    ensures shown { IfOk result (λ tried.
        IsShownTried tried (V.shown volume.old) (V.shown volume.new)) }
    ensures went { WentOn V.geometry V.history V.goes load.now.line after volume.old volume.new }
{
    let request = add_request(alloc, &load.target, place, record)?;
    let reply = ask(volume, load.line, after, request)?;
    let way = Way::Add;
    Ok(Tried::Replied { way, reply })
}

/// Replaces the record that was got for update.
fn update<V: FilledVolume>(
    alloc: Global,
    volume: &mut V,
    load: &Load,
    after: u64,
    record: &[u8],
) -> Result<Tried, RunNo>
    ensures updated { IfOk result (λ tried. stated.IsUpdated V.answers V.replies load.now
        record.now volume.old tried volume.new) }
    ensures shown { IfOk result (λ tried.
        IsShownTried tried (V.shown volume.old) (V.shown volume.new)) }
    ensures went { WentOn V.geometry V.history V.goes load.now.line after volume.old volume.new }
{
    let request = update_request(alloc, &load.target, record)?;
    let reply = ask(volume, load.line, after, request)?;
    let way = Way::Replace;
    Ok(Tried::Replied { way, reply })
}

/// Gets the record at a place for update.
fn get<V: FilledVolume>(
    alloc: Global,
    volume: &mut V,
    load: &Load,
    after: u64,
    place: &Place,
) -> Result<Reply, RunNo>
    ensures replied { IfOk result (λ reply. V.replies volume.old load.now.line
        (get_of load.now.target place.now) reply volume.new) }
    ensures shown { IfOk result (λ reply.
        IsShownReplied reply (V.shown volume.old) (V.shown volume.new)) }
    ensures went { WentOn V.geometry V.history V.goes load.now.line after volume.old volume.new }
{
    let request = get_request(alloc, &load.target, place)?;
    ask(volume, load.line, after, request)
}

/// Replaces the record at a place.
fn replace<V: FilledVolume>(
    alloc: Global,
    volume: &mut V,
    load: &Load,
    after: u64,
    place: &Place,
    record: &[u8],
) -> Result<Tried, RunNo>
    ensures replaced { IfOk result (λ tried. stated.IsReplaced V.answers V.replies load.now
        place.now record.now volume.old tried volume.new) }
    ensures shown { IfOk result (λ tried.
        IsShownTried tried (V.shown volume.old) (V.shown volume.new)) }
    ensures went { WentOn V.geometry V.history V.goes load.now.line after volume.old volume.new }
{
    let way = Way::Replace;
    match get(alloc, volume, load, after, place)? {
        Reply::Done { .. } => update(alloc, volume, load, after, record),
        reply => Ok(Tried::Replied { way, reply }),
    }
}

/// Replaces the record at a place, or adds one where there is none.
fn put_at<V: FilledVolume>(
    alloc: Global,
    volume: &mut V,
    load: &Load,
    after: u64,
    place: &Place,
    record: &[u8],
) -> Result<Tried, RunNo>
    requires served { IsServed (V.shown volume.old) load.now.target }
    ensures put { IfOk result (λ tried. stated.IsLookedAndPut V.answers V.replies load.now
        place.now record.now volume.old tried volume.new) }
    ensures shown { IfOk result (λ tried.
        IsShownTried tried (V.shown volume.old) (V.shown volume.new)) }
    ensures went { WentOn V.geometry V.history V.goes load.now.line after volume.old volume.new }
{
    match look_at(alloc, volume, load, after, place)? {
        Look::Free => add(alloc, volume, load, after, Some(place), record),
        Look::Taken => replace(alloc, volume, load, after, place, record),
        Look::Unread(fault) => Ok(Tried::Unread(fault)),
    }
}

/// Tries to put a record that goes to a place, as far as it says so itself.
pub(crate) fn try_record<V: FilledVolume>(
    alloc: Global,
    volume: &mut V,
    load: &Load,
    after: u64,
    place: Option<&Place>,
    record: &[u8],
) -> Result<Tried, RunNo>
    requires served { IsServed (V.shown volume.old) load.now.target }
    ensures tried { IfOk result (λ tried. stated.IsTried V.answers V.replies load.now
        (option_copied place.entry) record.now volume.old tried volume.new) }
    ensures shown { IfOk result (λ tried.
        IsShownTried tried (V.shown volume.old) (V.shown volume.new)) }
    ensures went { WentOn V.geometry V.history V.goes load.now.line after volume.old volume.new }
{
    match place_looked(load, place) {
        None => add(alloc, volume, load, after, place, record),
        Some(place) => put_at(alloc, volume, load, after, place, record),
    }
}
