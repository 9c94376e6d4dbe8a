//! What a PUT or an ERASE comes to before it is made.
ghost use Rattle.std.specs.Prelude.{◌≡◌, ◌≢◌, ◌⊎◌, ◌==◌, ◌<◌, ◌^◌, ℕ, IfOk, IfSome, IsTrue, List};
ghost use Rattle.std.specs.Prelude.{None, Some, false, length, length as count, option_and_then};
ghost use Rattle.std.specs.Option.{ForSome, option_copied};
ghost use Rattle.vr_types.specs.Blocks.{Keeps};
ghost use Rattle.vr_types.specs.declared.reply.Refusal.TheVariants.{Memory as NoMemory};
ghost use Rattle.vr_history.specs.Case as cases;
ghost use Rattle.vr_history.specs.Change as changes;
ghost use Rattle.vr_history.specs.Names as locks;
ghost use Rattle.vr_history.specs.Replies as replies;
ghost use Rattle.vr_history.specs.State.{State};
ghost use Rattle.vr_history.specs.Step.{IsOfUnit, case_of, stand_refused};
ghost use Rattle.vr_answer.specs.Here.{base_here};
ghost use Rattle.vr_answer.specs.InHand.{InEach, IsLookedAt};
ghost use Rattle.vr_answer.specs.Tried.{file_refusals};
ghost use Rattle.vr_record_file.specs.Now.{IsStateOf, state_now};
ghost use Rattle.vr_event.specs.Cause.{HasReplyCause, is_fault as faults, is_faulted};
ghost use Rattle.vr_event.specs.Lacking as lacking;
ghost use Rattle.vr_event.specs.Looking.{InEachLogged, InEachWith};
ghost use Rattle.vr_store.specs.Parts.{OnlyMet};
ghost use Rattle.vr_event.specs.Putting as putting;
ghost use Rattle.vr_store.specs.Room.{IsRoomAt};
ghost use Rattle.vr_types.specs.Image.{Image};
ghost use Rattle.vr_store.specs.Store.{IsSet, IsStored, PartNow, Stands, StoreNow, part_among};
ghost use Rattle.vr_space.specs.declared.room.Room.TheVariants as rooms;

use crate::fitting::{fits_item, length_asked};
use crate::getting::{fits, is_fault, refusal_of};
use crate::numbers::{address_for, place_of};
use std::alloc::Global;
use vr_answer::{
    Case, Looked, done, file_of, lock_names, log_full, place_changed, refused_by_record,
};
use vr_record_file::RecordFile;
use vr_space::{Part, Room};
use vr_store::{LookNo, Store};
use vr_types::{
    Blocks, Bytes, LockNames, OutOfMemory, PartNo, Place, Refusal, Reply, Request, Unit, place,
};

/// What a PUT or an ERASE comes to before it is made.
#[derive(Drop)]
pub(crate) enum Weighed {
    /// It is refused.
    Refused(Refusal),
    /// A stage of a split comes first: the place, and the length that asks for room there.
    Stage {
        place: Place,
        length: u32,
    },
    /// It may be made: its place, the record that stands there, its reply, and the names that it
    /// locks.
    Ready {
        place: Place,
        old: Option<Bytes>,
        reply: Reply,
        names: LockNames,
    },
}

/// The part of the base cluster of a request's file, 0 where there is no file.
pub(crate) fn base_of(request: &Request) -> PartNo
    ensures { result.0 ≡ base_here request.now }
{
    match file_of(request) {
        None => PartNo(0),
        Some(file) => file.base,
    }
}

/// The record that a request gives its place.
pub(crate) fn new_record(request: &Request) -> Option<&[u8]>
    ensures { option_copied result ≡ cases.new_record request.now }
{
    match request {
        Request::Add { bytes, .. } | Request::Update { bytes, .. } => Some(bytes.as_slice()),
        Request::Get { .. } | Request::Point { .. } | Request::Erase { .. } => None,
        Request::EndReq { .. } | Request::Commit | Request::Backout => None,
    }
}

/// Whether a request is an ERASE.
fn is_erase(request: &Request) -> bool
    ensures { result ≡ putting.is_erase request.now }
{
    matches!(request, Request::Erase { .. })
}

/// The bytes of a record, where there is one.
pub(crate) fn slice_of(bytes: &Option<Bytes>) -> Option<&[u8]>
    ensures { option_copied result ≡ bytes.now }
{
    match bytes {
        None => None,
        Some(bytes) => Some(bytes.as_slice()),
    }
}

/// Whether a reply is that of a request that is done.
fn is_done(reply: &Reply) -> bool
    ensures { IsTrue result → is_faulted reply.now ≡ false }
{
    matches!(reply, Reply::Done { .. })
}

/// What is decided in memory, which is never a fault of the device.
fn unless_fault(refusal: Refusal) -> Refusal
    ensures is { (result ≡ refusal) ⊎ (result ≡ NoMemory) }
    ensures calm { faults result ≡ false }
{
    if is_fault(&refusal) {
        Refusal::Memory
    } else {
        refusal
    }
}

/// The place that a change names, copied; None where memory ran out, or where it names none.
fn place_asked(alloc: Global, case: &Case) -> Option<Place>
    ensures { IfSome result (λ place. InEach case.now (λ whole.
        changes.place_changed whole ≡ Some place)) }
{
    match place_changed(case) {
        None => None,
        Some(at) => place(alloc, at).ok(),
    }
}

/// What a change comes to: the place that it names, and the record that stands there.
fn changed_at<'a>(case: &Case<'a>, present: Option<&'a [u8]>) -> Looked<'a>
    ensures looked { InEachWith case.now (option_copied present.entry) (λ whole.
        putting.IsChange whole.request → IsLookedAt result whole) }
    ensures present { option_copied result.present ≡ option_copied present.entry }
{
    Looked {
        place: place_changed(case),
        present,
    }
}

/// How a change is refused by the record that stands at its place and by the locks of others, and
/// then by the log. It fails only if memory runs out.
fn refused_in_memory(
    alloc: Global,
    case: &Case,
    present: Option<&[u8]>,
    logged: bool,
    live: bool,
) -> Result<Option<Refusal>, OutOfMemory>
    requires short { ForSome (option_copied present) (λ bytes. length bytes < 2 ^ 32) }
    ensures value { IfOk result (λ refused. InEachLogged case.now (option_copied present.entry)
        logged live (λ whole. putting.IsChange whole.request
        → putting.IsRefusedBy whole refused)) }
    // and the refusal moves no file
    ensures stays { IfOk result (λ refused. putting.IsChange case.now.request.now
        → option_and_then (stand_refused case.now.request.now) refused ≡ None) }
    // and it is for want of areas only where the state says so
    ensures lacks { IfOk result (λ refused. InEachLogged case.now (option_copied present.entry)
        logged live (λ whole. putting.IsChange whole.request → lacking.AreWanting whole refused)) }
{
    let looked = changed_at(case, present);
    match refused_by_record(alloc, case, looked)? {
        Some(refusal) => Ok(Some(refusal)),
        None => Ok(log_full(case, looked, logged, live)),
    }
}

/// The reply of a change that is done, and the names that it locks. It fails only if memory runs out.
fn reply_and_names(
    alloc: Global,
    case: &Case,
    present: Option<&[u8]>,
) -> Result<(Reply, LockNames), OutOfMemory>
    ensures { IfOk result (λ both. InEachWith case.now (option_copied present.entry) (λ whole.
        putting.IsChange whole.request → (both.0 ≡ replies.done_by whole whole.request)
        × (both.1 ≡ locks.lock_names whole whole.request))) }
{
    let looked = changed_at(case, present);
    let reply = done(alloc, case, looked)?;
    let names = lock_names(alloc, case, looked)?;
    Ok((reply, names))
}

/// A change that may be made, with its reply and the names that it locks; refused where memory runs
/// out.
fn ready(alloc: Global, case: &Case, place: Place, old: Option<Bytes>) -> Weighed
    ensures may { InEachWith case.now old (λ whole. putting.IsReadyAt whole place old
        → putting.MayWeigh whole result) }
    ensures opens { (store : StoreNow) (image : Image) (part : ℕ)
        → putting.HasRoomAt store image part place (cases.new_record case.now.request.now)
        → putting.IsOpenTo store image part case.now.request.now result }
    ensures fits { (parts : List PartNow) (part : ℕ)
        → putting.IsReadyIn parts part case.now.request.now place old
        → putting.FitsIn parts part case.now.request.now result }
    ensures calm { is_faulted (putting.reply_to result) ≡ false }
    ensures lacks { lacking.IfLacks (λ need free. ⊥) result }
{
    match reply_and_names(alloc, case, slice_of(&old)) {
        Err(_) => Weighed::Refused(Refusal::Memory),
        Ok((reply, names)) => {
            if is_done(&reply) {
                Weighed::Ready {
                    place,
                    old,
                    reply,
                    names,
                }
            } else {
                Weighed::Refused(Refusal::Memory)
            }
        }
    }
}

/// A change for which its part has no room: it needs this many areas, and so many are free to it.
/// An ERASE needs none.
fn crowded(
    alloc: Global,
    case: &Case,
    need: u64,
    free: u32,
    place: Place,
    old: Option<Bytes>,
) -> Weighed
    ensures may { InEachWith case.now old (λ whole. putting.LacksArea whole need free
        → putting.IsReadyAt whole place old → putting.MayWeigh whole result) }
    ensures opens { (store : StoreNow) (image : Image) (part : ℕ)
        → putting.HasRoomAt store image part place None
        → putting.IsOpenTo store image part case.now.request.now result }
    ensures fits { (parts : List PartNow) (part : ℕ)
        → putting.IsReadyIn parts part case.now.request.now place old
        → putting.FitsIn parts part case.now.request.now result }
    ensures calm { is_faulted (putting.reply_to result) ≡ false }
    ensures lacks { (store : StoreNow) (image : Image) (part n : ℕ)
        → part_among store.parts part ≢ None
        → IsRoomAt store image part place n (rooms.NoSpace need free)
        → IfSome (cases.new_record case.now.request.now) (λ bytes. n ≡ count bytes)
        → lacking.IfLacks
        (lacking.LacksRoomIn store image part place case.now.request.now) result }
{
    if is_erase(case.request) {
        return ready(alloc, case, place, old);
    }
    match new_record(case.request) {
        Some(given) => Weighed::Refused(Refusal::NoSpace { need, free }),
        None => Weighed::Refused(Refusal::Memory),
    }
}

/// Asks for room for a change that nothing in memory refuses, and decides what it comes to.
fn weigh_room<B: Blocks, P: Part>(
    alloc: Global,
    blocks: &mut B,
    store: &mut Store<P>,
    case: &Case,
    part: PartNo,
    place: Place,
    old: Option<Bytes>,
    length: u32,
) -> Weighed
    requires set { IsSet store.old (B.seen blocks.old) }
    requires stands { IsTrue B.tells → Stands store.old (B.seen blocks.old) }
    requires at { putting.HasPlace store.old.parts part.0 place }
    requires laid { putting.AreLaidBy case.now.geometry case.now.catalog.now store.old.parts }
    requires base { part.0 ≡ base_here case.now.request.now }
    requires size { putting.FitsLength store.old.parts part.0 length }
    requires new_fits { putting.FitsItem store.old.parts part.0 place
        (cases.new_record case.now.request.now) }
    requires old_fits { putting.FitsItem store.old.parts part.0 place old }
    requires long { IfSome (cases.new_record case.now.request.now)
        (λ bytes. length ≡ count bytes) }
    ensures may { IsTrue B.tells → (volume : ℕ) → InEachWith case.now old (λ whole.
        IsStored volume store.old whole.state (B.seen blocks.old)
        → putting.IsSpaceOf store.old part.0 whole → putting.IsReadyAt whole place old
        → putting.MayWeigh whole result) }
    ensures lacks { IsTrue B.tells → lacking.IfLacks (lacking.LacksRoomIn store.old
        (B.seen blocks.old).cur part.0 place case.now.request.now) result }
    ensures opens { IsTrue B.tells → putting.IsOpenTo store.new (B.seen blocks.new).cur part.0
        case.now.request.now result }
    ensures fits { putting.FitsIn store.new.parts part.0 case.now.request.now result }
    ensures set { IsSet store.new (B.seen blocks.new) }
    ensures stored { IsTrue B.tells → (volume : ℕ) (state : State)
        → IsStored volume store.old state (B.seen blocks.old)
        → IsStored volume store.new state (B.seen blocks.new) }
    ensures parts { OnlyMet part.0 store.old.parts store.new.parts }
    ensures rest { store.new ≡ record store.old { parts = store.new.parts } }
    ensures keeps { Keeps B.tells (B.seen blocks.old) (B.seen blocks.new) }
    ensures cause { HasReplyCause (B.faults blocks.old) (B.faults blocks.new)
        (putting.reply_to result) }
{
    match store.ask_room(blocks, part, &place, length) {
        Err(fault) => Weighed::Refused(refusal_of(LookNo::Fault(fault))),
        Ok(Room::Stage(_)) => Weighed::Stage { place, length },
        Ok(Room::NoSpace { need, free }) => crowded(alloc, case, need, free, place, old),
        Ok(Room::Ready) => ready(alloc, case, place, old),
    }
}

/// Decides what a change comes to by the record that stands at its place: refused by it, by the locks
/// of others or by the log, before any split.
fn weigh_record<B: Blocks, P: Part>(
    alloc: Global,
    blocks: &mut B,
    store: &mut Store<P>,
    case: &Case,
    part: PartNo,
    place: Place,
    old: Option<Bytes>,
    length: Option<u32>,
) -> Weighed
    requires set { IsSet store.old (B.seen blocks.old) }
    requires stands { IsTrue B.tells → Stands store.old (B.seen blocks.old) }
    requires at { putting.HasPlace store.old.parts part.0 place }
    requires laid { putting.AreLaidBy case.now.geometry case.now.catalog.now store.old.parts }
    requires base { part.0 ≡ base_here case.now.request.now }
    requires change { putting.IsChange case.now.request.now }
    requires size { IfSome length (λ n. putting.FitsLength store.old.parts part.0 n) }
    requires new_fits { IfSome length (λ n. putting.FitsItem store.old.parts part.0 place
        (cases.new_record case.now.request.now)) }
    requires old_fits { putting.FitsItem store.old.parts part.0 place old }
    requires long { IfSome length (λ n. IfSome (cases.new_record case.now.request.now)
        (λ bytes. n ≡ count bytes)) }
    ensures may { IsTrue B.tells → (volume : ℕ) → InEachWith case.now old (λ whole.
        IsStored volume store.old whole.state (B.seen blocks.old)
        → putting.IsSpaceOf store.old part.0 whole → putting.IsAskedAt whole part.0 place
        → putting.MayWeigh whole result) }
    ensures lacks { IsTrue B.tells → (volume : ℕ) → InEachWith case.now old (λ whole.
        IsStored volume store.old whole.state (B.seen blocks.old)
        → putting.IsSpaceOf store.old part.0 whole → putting.IsAskedAt whole part.0 place
        → replies.first_of (file_refusals whole) ≡ None
        → lacking.IfLacks (lacking.LacksRoomIn store.old (B.seen blocks.old).cur part.0 place
        case.now.request.now) result) }
    ensures opens { IsTrue B.tells → putting.IsOpenTo store.new (B.seen blocks.new).cur part.0
        case.now.request.now result }
    ensures fits { putting.FitsIn store.new.parts part.0 case.now.request.now result }
    ensures set { IsSet store.new (B.seen blocks.new) }
    ensures stored { IsTrue B.tells → (volume : ℕ) (state : State)
        → IsStored volume store.old state (B.seen blocks.old)
        → IsStored volume store.new state (B.seen blocks.new) }
    ensures parts { OnlyMet part.0 store.old.parts store.new.parts }
    ensures rest { store.new ≡ record store.old { parts = store.new.parts } }
    ensures keeps { Keeps B.tells (B.seen blocks.old) (B.seen blocks.new) }
    ensures cause { HasReplyCause (B.faults blocks.old) (B.faults blocks.new)
        (putting.reply_to result) }
{
    let logged = store.has_logged(case.unit, part, &place);
    let live = store.is_live(case.unit);
    match refused_in_memory(alloc, case, slice_of(&old), logged, live) {
        Err(_) => Weighed::Refused(Refusal::Memory),
        Ok(Some(refusal)) => Weighed::Refused(unless_fault(refusal)),
        Ok(None) => match length {
            None => Weighed::Refused(Refusal::Memory),
            Some(length) => weigh_room(alloc, blocks, store, case, part, place, old, length),
        },
    }
}

/// Decides what a change comes to whose record was looked at.
fn weigh_looked<B: Blocks, P: Part>(
    alloc: Global,
    blocks: &mut B,
    store: &mut Store<P>,
    case: &Case,
    part: PartNo,
    place: Place,
    old: Option<Bytes>,
) -> Weighed
    requires set { IsSet store.old (B.seen blocks.old) }
    requires stands { IsTrue B.tells → Stands store.old (B.seen blocks.old) }
    requires at { putting.HasPlace store.old.parts part.0 place }
    requires laid { putting.AreLaidBy case.now.geometry case.now.catalog.now store.old.parts }
    requires base { part.0 ≡ base_here case.now.request.now }
    requires change { putting.IsChange case.now.request.now }
    ensures may { IsTrue B.tells → (volume : ℕ) → InEachWith case.now old (λ whole.
        IsStored volume store.old whole.state (B.seen blocks.old)
        → putting.IsSpaceOf store.old part.0 whole → putting.IsAskedAt whole part.0 place
        → putting.MayWeigh whole result) }
    ensures lacks { IsTrue B.tells → (volume : ℕ) → InEachWith case.now old (λ whole.
        IsStored volume store.old whole.state (B.seen blocks.old)
        → putting.IsSpaceOf store.old part.0 whole → putting.IsAskedAt whole part.0 place
        → replies.first_of (file_refusals whole) ≡ None
        → lacking.IfLacks (lacking.LacksRoomIn store.old (B.seen blocks.old).cur part.0 place
        case.now.request.now) result) }
    ensures opens { IsTrue B.tells → putting.IsOpenTo store.new (B.seen blocks.new).cur part.0
        case.now.request.now result }
    ensures fits { putting.FitsIn store.new.parts part.0 case.now.request.now result }
    ensures set { IsSet store.new (B.seen blocks.new) }
    ensures stored { IsTrue B.tells → (volume : ℕ) (state : State)
        → IsStored volume store.old state (B.seen blocks.old)
        → IsStored volume store.new state (B.seen blocks.new) }
    ensures parts { OnlyMet part.0 store.old.parts store.new.parts }
    ensures rest { store.new ≡ record store.old { parts = store.new.parts } }
    ensures keeps { Keeps B.tells (B.seen blocks.old) (B.seen blocks.new) }
    ensures cause { HasReplyCause (B.faults blocks.old) (B.faults blocks.new)
        (putting.reply_to result) }
{
    if !fits_item(case.catalog, part, &place, slice_of(&old)) {
        return Weighed::Refused(Refusal::Memory);
    }
    let new = new_record(case.request);
    let length = length_asked(case.catalog, part, &place, new, slice_of(&old));
    weigh_record(alloc, blocks, store, case, part, place, old, length)
}

/// Decides what a change comes to at a place of a part that is laid.
fn weigh_at<B: Blocks, P: Part>(
    alloc: Global,
    blocks: &mut B,
    store: &mut Store<P>,
    case: &Case,
    part: PartNo,
    place: Place,
) -> Weighed
    requires set { IsSet store.old (B.seen blocks.old) }
    requires stands { IsTrue B.tells → Stands store.old (B.seen blocks.old) }
    requires at { putting.HasPlace store.old.parts part.0 place }
    requires laid { putting.AreLaidBy case.now.geometry case.now.catalog.now store.old.parts }
    requires base { part.0 ≡ base_here case.now.request.now }
    requires change { putting.IsChange case.now.request.now }
    ensures may { IsTrue B.tells → (volume : ℕ) → InEach case.now (λ whole.
        IsStored volume store.old whole.state (B.seen blocks.old)
        → putting.IsSpaceOf store.old part.0 whole → putting.IsAskedAt whole part.0 place
        → putting.MayWeigh whole result) }
    ensures lacks { IsTrue B.tells → (volume : ℕ) → InEach case.now (λ whole.
        IsStored volume store.old whole.state (B.seen blocks.old)
        → putting.IsSpaceOf store.old part.0 whole → putting.IsAskedAt whole part.0 place
        → replies.first_of (file_refusals whole) ≡ None
        → lacking.IfLacks (lacking.LacksRoomIn store.old (B.seen blocks.old).cur part.0 place
        case.now.request.now) result) }
    ensures opens { IsTrue B.tells → putting.IsOpenTo store.new (B.seen blocks.new).cur part.0
        case.now.request.now result }
    ensures fits { putting.FitsIn store.new.parts part.0 case.now.request.now result }
    ensures set { IsSet store.new (B.seen blocks.new) }
    ensures stored { IsTrue B.tells → (volume : ℕ) (state : State)
        → IsStored volume store.old state (B.seen blocks.old)
        → IsStored volume store.new state (B.seen blocks.new) }
    ensures parts { OnlyMet part.0 store.old.parts store.new.parts }
    ensures rest { store.new ≡ record store.old { parts = store.new.parts } }
    ensures keeps { Keeps B.tells (B.seen blocks.old) (B.seen blocks.new) }
    ensures cause { HasReplyCause (B.faults blocks.old) (B.faults blocks.new)
        (putting.reply_to result) }
{
    match store.look(alloc, blocks, part, &place) {
        Err(no) => Weighed::Refused(refusal_of(no)),
        Ok(old) => weigh_looked(alloc, blocks, store, case, part, place, old),
    }
}

/// Whether a unit may change this place: it is the current one of a deck, and the place is one of a
/// part that is laid, and not of the catalog.
fn may_change<P: Part>(
    store: &Store<P>,
    file: &RecordFile,
    unit: Unit,
    part: PartNo,
    place: &Place,
) -> bool
    ensures deck { IsTrue result → (unit.deck == 0) ≡ false }
    ensures current { IsTrue result → (opening : State) → IsStateOf opening file.now
        → IsOfUnit (state_now opening file.now) unit }
    ensures not_catalog { IsTrue result → (part.0 == 0) ≡ false }
    ensures at { IsTrue result
        → putting.AreLaidBy file.now.geometry file.now.catalog store.now.parts
        → putting.HasPlace store.now.parts part.0 place.now }
{
    unit.deck != 0
        && part.0 != 0
        && unit.number == file.number(unit.deck)
        && store.has_part(part)
        && place.as_slice().len() < 65536
        && fits(file.catalog(), part, place)
}

/// Decides what a PUT or an ERASE comes to on a volume that has not stopped. Nothing is put.
pub(crate) fn weigh<'a, B: Blocks, P: Part>(
    alloc: Global,
    blocks: &mut B,
    store: &mut Store<P>,
    file: &'a RecordFile,
    unit: Unit,
    request: &'a Request,
    part: PartNo,
) -> Weighed
    requires set { IsSet store.old (B.seen blocks.old) }
    requires stands { IsTrue B.tells → Stands store.old (B.seen blocks.old) }
    requires laid { putting.AreLaidBy file.now.geometry file.now.catalog store.old.parts }
    requires change { putting.IsChange request.now }
    requires base { part.0 ≡ base_here request.now }
    ensures may { IsTrue B.tells → (volume : ℕ) (opening : State) → IsStateOf opening file.now
        → file.now.stopped ≡ None
        → IsStored volume store.old (state_now opening file.now) (B.seen blocks.old)
        → let case = case_of file.now.geometry (state_now opening file.now) unit request.now in
        putting.IsSpaceOf store.old part.0 case → putting.MayWeigh case result }
    ensures lacks { IsTrue B.tells → (volume : ℕ) (opening : State) → IsStateOf opening file.now
        → file.now.stopped ≡ None
        → IsStored volume store.old (state_now opening file.now) (B.seen blocks.old)
        → let case = case_of file.now.geometry (state_now opening file.now) unit request.now in
        putting.IsSpaceOf store.old part.0 case
        → replies.first_of (file_refusals case) ≡ None → (place : List ℕ)
        → changes.place_changed case ≡ Some place
        → lacking.IfLacks (lacking.LacksRoomIn store.old (B.seen blocks.old).cur part.0 place
        request.now) result }
    ensures opens { IsTrue B.tells → putting.IsOpenTo store.new (B.seen blocks.new).cur part.0
        request.now result }
    ensures fits { putting.FitsIn store.new.parts part.0 request.now result }
    ensures set { IsSet store.new (B.seen blocks.new) }
    ensures stored { IsTrue B.tells → (volume : ℕ) (state : State)
        → IsStored volume store.old state (B.seen blocks.old)
        → IsStored volume store.new state (B.seen blocks.new) }
    ensures parts { OnlyMet part.0 store.old.parts store.new.parts }
    ensures rest { store.new ≡ record store.old { parts = store.new.parts } }
    ensures keeps { Keeps B.tells (B.seen blocks.old) (B.seen blocks.new) }
    ensures cause { HasReplyCause (B.faults blocks.old) (B.faults blocks.new)
        (putting.reply_to result) }
{
    let areas = store.areas_of(part);
    let address = address_for(store, part, request);
    let case = file.case(
        unit,
        request,
        store.free_areas(),
        store.used(),
        place_of(&address),
        areas,
    );
    match place_asked(alloc, &case) {
        None => Weighed::Refused(Refusal::Memory),
        Some(place) => {
            if may_change(store, file, unit, part, &place) {
                weigh_at(alloc, blocks, store, &case, part, place)
            } else {
                Weighed::Refused(Refusal::Memory)
            }
        }
    }
}
