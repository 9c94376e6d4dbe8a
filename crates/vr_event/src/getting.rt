//! Reads, which are GETs and POINTs, and ENDREQ.
ghost use Rattle.std.specs.Prelude.{◌≡◌, ◌⊎◌, ◌==◌, ◌<◌, ◌-◌, ◌^◌, ℕ, IfOk, IfSome, IsTrue};
ghost use Rattle.std.specs.Prelude.{None, Some, [], cond, false};
ghost use Rattle.std.specs.Option.{option_copied};
ghost use Rattle.vr_types.specs.Blocks.{Keeps};
ghost use Rattle.vr_types.specs.Moments.{Guards};
ghost use Rattle.vr_space.specs.Part.{IsPlaceOf};
ghost use Rattle.vr_types.specs.declared.reply.Refusal.TheVariants.{Memory as NoMemory};
ghost use Rattle.vr_types.specs.declared.request.FileRef as files;
ghost use Rattle.vr_types.specs.declared.request.Request.TheVariants as requests;
ghost use Rattle.vr_types.specs.declared.reply.Reply.TheVariants as replies;
ghost use Rattle.vr_history.specs.Case as cases;
ghost use Rattle.vr_history.specs.Merged.{last_stamp};
ghost use Rattle.vr_history.specs.Replies.{first_of};
ghost use Rattle.vr_history.specs.Replies as replied;
ghost use Rattle.vr_history.specs.State.{State};
ghost use Rattle.vr_history.specs.Step.{case_of};
ghost use Rattle.vr_answer.specs.Here.{base_here};
ghost use Rattle.vr_answer.specs.InHand.{InEach};
ghost use Rattle.vr_answer.specs.Tried.{file_refusals, record_refusals};
ghost use Rattle.vr_history.specs.declared.entry.What.TheVariants as whats;
ghost use Rattle.vr_record_file.specs.Now.{CanSet, IsStateOf, MayBeAsked, state_now};
ghost use Rattle.vr_record_file.specs.Now.{with_event};
ghost use Rattle.vr_volume.specs.Crashes.{RecoversTo};
ghost use Rattle.vr_event.specs.Acting.{IsActed};
ghost use Rattle.vr_event.specs.Cause.{HasGetCause, HasOutcomeCause, is_fault as faults};
ghost use Rattle.vr_event.specs.Cause.{is_faulted, reply_of};
ghost use Rattle.vr_event.specs.Getting as getting;
ghost use Rattle.vr_event.specs.declared.act.Act.TheVariants as acts;
ghost use Rattle.vr_event.specs.declared.getting.Outcome.TheVariants as outcomes;
ghost use Rattle.vr_event.specs.Putting.{AreLaidBy, IsSpaceOf};
ghost use Rattle.vr_event.specs.Searching.{InEachFound, IsSought};
ghost use Rattle.vr_store.specs.Store.{IsSet, IsStored, Stands, shape_among};
ghost use Rattle.vr_event.specs.Volume.{Holds, IsHeld, IsWhole};

use crate::fitting::is_number;
use crate::searching::place_sought;
use crate::volume::Volume;
use crate::weighing::{base_of, slice_of};
use std::alloc::Global;
use vr_answer::{Case, Looked, done, lock_names, refused_by_record};
use vr_catalog::{Catalog, Definition};
use vr_record_file::RecordFile;
use vr_space::Part;
use vr_store::{LookNo, Store};
use vr_types::{
    Blocks, Bytes, DeviceFault, Kind, LockNames, OutOfMemory, PartNo, Place, Refusal, Reply,
    Request, SharedRequest, Unit,
};

/// What a read comes to before it is entered.
#[derive(Drop)]
pub(crate) enum Outcome {
    /// It is refused.
    Refused(Refusal),
    /// A GET is done: its reply, the names that it locks, the place of the record that it found, and
    /// the place that its file holds for update.
    Done {
        reply: Reply,
        names: LockNames,
        at: Place,
        held: Option<Place>,
    },
    /// A POINT is done: its reply, and the place at which its file stands.
    Pointed {
        reply: Reply,
        at: Place,
    },
}

/// The bytes of a place, where there is one.
fn place_slice(at: &Option<Place>) -> Option<&[u8]>
    ensures { option_copied result ≡ at.now }
{
    match at {
        None => None,
        Some(at) => Some(at.as_slice()),
    }
}

/// Whether a request is a GET for update.
fn is_for_update(request: &Request) -> bool
    ensures { result ≡ getting.is_for_update request.now }
{
    match request {
        Request::Get { update, .. } => *update,
        Request::Point { .. } | Request::Add { .. } | Request::Update { .. } => false,
        Request::Erase { .. } | Request::EndReq { .. } => false,
        Request::Commit | Request::Backout => false,
    }
}

/// The place that the file of a GET holds once it is done.
fn held_for(alloc: Global, request: &Request, at: &Place) -> Result<Option<Place>, OutOfMemory>
    ensures { IfOk result (λ held.
        held ≡ cond (getting.is_for_update request.now) (Some at.now) None) }
{
    if is_for_update(request) {
        Ok(Some(at.copy(alloc)?))
    } else {
        Ok(None)
    }
}

/// What a GET that is done comes to.
fn got(
    alloc: Global,
    case: &Case,
    reply: Reply,
    at: Place,
    present: Option<&[u8]>,
) -> Result<Outcome, OutOfMemory>
    ensures { IfOk result (λ outcome. InEachFound case.now (Some at) (option_copied present.entry)
        (λ whole. first_of (file_refusals whole) ≡ None → first_of (record_refusals whole) ≡ None
        → getting.IsGet whole.request → reply ≡ replied.done_by whole whole.request
        → getting.MayEnd whole outcome)) }
{
    let looked = Looked {
        place: Some(at.as_slice()),
        present,
    };
    let names = lock_names(alloc, case, looked)?;
    let held = held_for(alloc, case.request, &at)?;
    Ok(Outcome::Done {
        reply,
        names,
        at,
        held,
    })
}

/// What a read that is done comes to.
fn done_outcome(
    alloc: Global,
    case: &Case,
    at: Place,
    present: Option<&[u8]>,
) -> Result<Outcome, OutOfMemory>
    ensures { IfOk result (λ outcome. InEachFound case.now (Some at) (option_copied present.entry)
        (λ whole. first_of (file_refusals whole) ≡ None → first_of (record_refusals whole) ≡ None
        → getting.IsRead whole.request → getting.MayEnd whole outcome)) }
{
    let looked = Looked {
        place: Some(at.as_slice()),
        present,
    };
    let reply = done(alloc, case, looked)?;
    match case.request {
        Request::Get { .. } => got(alloc, case, reply, at, present),
        Request::Point { .. } => Ok(Outcome::Pointed { reply, at }),
        _ => Ok(Outcome::Refused(Refusal::Memory)),
    }
}

/// What a read that nothing in memory refuses comes to, by the place that it comes to and the record
/// that is there.
fn outcome_of(
    alloc: Global,
    case: &Case,
    at: Option<Place>,
    present: Option<&[u8]>,
) -> Result<Outcome, OutOfMemory>
    ensures { IfOk result (λ outcome. InEachFound case.now at (option_copied present.entry)
        (λ whole. first_of (file_refusals whole) ≡ None → getting.IsRead whole.request
        → getting.MayEnd whole outcome)) }
{
    let looked = Looked {
        place: place_slice(&at),
        present,
    };
    let refused = refused_by_record(alloc, case, looked)?;
    match refused {
        Some(refusal) => Ok(Outcome::Refused(refusal)),
        None => match at {
            None => Ok(Outcome::Refused(Refusal::Memory)),
            Some(at) => done_outcome(alloc, case, at, present),
        },
    }
}

/// How a read that failed is refused.
pub(crate) fn refusal_of(no: LookNo) -> Refusal
    ensures { result ≡ getting.refusal_of no }
{
    match no {
        LookNo::Fault(DeviceFault::Read) => Refusal::ReadFault,
        LookNo::Fault(DeviceFault::Write) => Refusal::WriteFault,
        LookNo::Memory => Refusal::Memory,
    }
}

/// Whether a refusal is a fault of the device.
pub(crate) fn is_fault(refusal: &Refusal) -> bool
    ensures { result ≡ faults refusal.now }
{
    matches!(refusal, Refusal::ReadFault | Refusal::WriteFault)
}

/// Whether what a read comes to is entered as a fault of the device.
fn is_fault_outcome(outcome: &Outcome) -> bool
    ensures { result ≡ is_faulted (reply_of outcome.now) }
{
    match outcome {
        Outcome::Refused(refusal) => is_fault(refusal),
        Outcome::Done { reply, .. } | Outcome::Pointed { reply, .. } => match reply {
            Reply::Refused(refusal) => is_fault(refusal),
            Reply::Done { .. } => false,
        },
    }
}

/// What is decided in memory, which is never a fault of the device.
fn unless_fault(outcome: Outcome) -> Outcome
    ensures is { (result ≡ outcome) ⊎ (result ≡ outcomes.Refused NoMemory) }
    ensures calm { is_faulted (reply_of result) ≡ false }
{
    if is_fault_outcome(&outcome) {
        Outcome::Refused(Refusal::Memory)
    } else {
        outcome
    }
}

/// What a read that nothing in memory refuses comes to, by the place that it comes to and the record
/// that was copied.
fn answered(alloc: Global, case: &Case, at: Option<Place>, present: Option<Bytes>) -> Outcome
    ensures { InEachFound case.now at present (λ whole. first_of (file_refusals whole) ≡ None
        → getting.IsRead whole.request → getting.MayEnd whole result) }
{
    match outcome_of(alloc, case, at, slice_of(&present)) {
        Ok(outcome) => outcome,
        Err(_) => Outcome::Refused(Refusal::Memory),
    }
}

/// Whether a definition allows a record at a place: it is as long as the keys, an address, or the
/// number of a slot.
fn fits_definition(definition: &Definition, place: &Place) -> bool
    ensures { result ≡ getting.is_place_by place.now definition.now }
{
    match definition.kind {
        Kind::Keyed => place.as_slice().len() == definition.key_length as usize,
        Kind::Entry => is_number(place.as_slice(), false),
        Kind::Relative => is_number(place.as_slice(), true),
    }
}

/// Whether a place is one that a record of a part of a catalog may have.
pub(crate) fn fits(catalog: &Catalog, part: PartNo, place: &Place) -> bool
    ensures { result ≡ getting.fits_in catalog.now part.0 place.now }
{
    match catalog.definition_of(part) {
        None => false,
        Some(definition) => fits_definition(&definition, place),
    }
}

/// Reads the record at the place that a read comes to, and decides what the read comes to. Nothing
/// is put.
fn looked_at<B: Blocks, P: Part>(
    alloc: Global,
    blocks: &mut B,
    store: &mut Store<P>,
    case: &Case,
    part: PartNo,
    place: Place,
) -> Outcome
    requires set { IsSet store.old (B.seen blocks.old) }
    requires place { IfSome (shape_among store.old.parts part.0)
        (λ shape. IsPlaceOf shape place) }
    requires base { part.0 ≡ base_here case.now.request.now }
    requires stands { IsTrue B.tells → Stands store.old (B.seen blocks.old) }
    ensures ends { IsTrue B.tells → (volume : ℕ) → InEach case.now (λ whole.
        IsStored volume store.old whole.state (B.seen blocks.old)
        → getting.IsRead whole.request → first_of (file_refusals whole) ≡ None
        → IsSought whole (Some place) → getting.MayEnd whole result) }
    ensures same { store.new ≡ store.old }
    ensures keeps { Keeps B.tells (B.seen blocks.old) (B.seen blocks.new) }
    ensures cause { HasOutcomeCause (B.faults blocks.old) (B.faults blocks.new) result }
{
    match store.look(alloc, blocks, part, &place) {
        Err(no) => Outcome::Refused(refusal_of(no)),
        Ok(present) => unless_fault(answered(alloc, case, Some(place), present)),
    }
}

/// Decides what a read comes to by the place that it comes to. Nothing is put.
fn looked<B: Blocks, P: Part>(
    alloc: Global,
    blocks: &mut B,
    store: &mut Store<P>,
    catalog: &Catalog,
    case: &Case,
    part: PartNo,
    at: Option<Place>,
) -> Outcome
    requires set { IsSet store.old (B.seen blocks.old) }
    requires laid { AreLaidBy case.now.geometry catalog.now store.old.parts }
    requires base { part.0 ≡ base_here case.now.request.now }
    requires stands { IsTrue B.tells → Stands store.old (B.seen blocks.old) }
    ensures ends { IsTrue B.tells → (volume : ℕ) → InEach case.now (λ whole.
        IsStored volume store.old whole.state (B.seen blocks.old)
        → getting.IsRead whole.request → first_of (file_refusals whole) ≡ None
        → IsSought whole at → getting.MayEnd whole result) }
    ensures same { store.new ≡ store.old }
    ensures keeps { Keeps B.tells (B.seen blocks.old) (B.seen blocks.new) }
    ensures cause { HasOutcomeCause (B.faults blocks.old) (B.faults blocks.new) result }
{
    match at {
        None => unless_fault(answered(alloc, case, None, None)),
        Some(place) => {
            // A place that a read comes to is one of its part. That is asked here, since of a device
            // that doesn't report its contents nobody knows it.
            if fits(catalog, part, &place) {
                looked_at(alloc, blocks, store, case, part, place)
            } else {
                Outcome::Refused(Refusal::Memory)
            }
        }
    }
}

/// Decides what a read comes to that nothing in memory refuses, with what is in memory. Nothing is
/// put.
fn sought<B: Blocks, P: Part>(
    alloc: Global,
    blocks: &mut B,
    store: &mut Store<P>,
    catalog: &Catalog,
    case: &Case,
    part: PartNo,
) -> Outcome
    requires set { IsSet store.old (B.seen blocks.old) }
    requires laid { AreLaidBy case.now.geometry catalog.now store.old.parts }
    requires base { part.0 ≡ base_here case.now.request.now }
    requires stands { IsTrue B.tells → Stands store.old (B.seen blocks.old) }
    ensures ends { IsTrue B.tells → (volume : ℕ) → InEach case.now (λ whole.
        IsStored volume store.old whole.state (B.seen blocks.old)
        → getting.IsRead whole.request → first_of (file_refusals whole) ≡ None
        → getting.MayEnd whole result) }
    ensures same { store.new ≡ store.old }
    ensures keeps { Keeps B.tells (B.seen blocks.old) (B.seen blocks.new) }
    ensures cause { HasOutcomeCause (B.faults blocks.old) (B.faults blocks.new) result }
{
    match place_sought(alloc, blocks, store, catalog, case, part) {
        Err(no) => Outcome::Refused(refusal_of(no)),
        Ok(at) => looked(alloc, blocks, store, catalog, case, part, at),
    }
}

/// Decides what a read comes to that nothing in memory refuses, on a volume that has not stopped.
/// Nothing is put.
fn decide<'a, B: Blocks, P: Part>(
    alloc: Global,
    blocks: &mut B,
    store: &mut Store<P>,
    file: &'a RecordFile,
    unit: Unit,
    request: &'a Request,
) -> Outcome
    requires set { IsSet store.old (B.seen blocks.old) }
    requires laid { AreLaidBy file.now.geometry file.now.catalog store.old.parts }
    requires stands { IsTrue B.tells → Stands store.old (B.seen blocks.old) }
    ensures ends { IsTrue B.tells → (volume : ℕ) (opening : State) → IsStateOf opening file.now
        → file.now.stopped ≡ None
        → IsStored volume store.old (state_now opening file.now) (B.seen blocks.old)
        → (unit.deck == 0) ≡ false → getting.IsRead request.now
        → let case = case_of file.now.geometry (state_now opening file.now) unit request.now in
        IsSpaceOf store.old (base_here request.now) case → first_of (file_refusals case) ≡ None
        → getting.MayEnd case result }
    ensures same { store.new ≡ store.old }
    ensures keeps { Keeps B.tells (B.seen blocks.old) (B.seen blocks.new) }
    ensures cause { HasOutcomeCause (B.faults blocks.old) (B.faults blocks.new) result }
{
    let base = base_of(request);
    let areas = store.areas_of(base);
    let case = file.case(unit, request, store.free_areas(), store.used(), None, areas);
    sought(alloc, blocks, store, file.catalog(), &case, base)
}

impl<B: Blocks, P: Part> Volume<B, P> {
    /// Enters an ENDREQ of a deck: its file stands nowhere and holds nothing then. No block is
    /// touched, and what the blocks hold stays what the history gives. There is room for one more
    /// file, or the file was set before.
    pub fn end_request(&mut self, unit: Unit, line: u32, request: SharedRequest, after: u64)
        requires room { 0 < self.old.file.room }
        requires files { CanSet self.old.file unit.deck (cases.file_of request) }
        requires last { last_stamp 0 self.old.file.entries < 2 ^ 64 - 2 }
        requires after { after < 2 ^ 64 - 2 }
        ensures held { IsTrue B.tells → (opening : State) (on : files.FileRef)
            → IsHeld B.seen opening self.old
            → MayBeAsked opening self.old.file unit request (replies.Done 0 None None)
            → request ≡ requests.EndReq on → IsHeld B.seen opening self.new }
        ensures whole { IsWhole B.seen self.old → IsWhole B.seen self.new }
        ensures leaves { self.new.file ≡ with_event after unit line
            (whats.Asked request (replies.Done 0 None None)) (record self.old.file {
              files = self.new.file.files;
              files_room = self.new.file.files_room;
            }) }
        ensures acted { IsActed (B.faults self.old.blocks) (B.faults self.new.blocks) acts.Done
            after unit line request self.old.file self.new.file }
        ensures blocks { self.new.blocks ≡ self.old.blocks }
        ensures store { self.new.store ≡ self.old.store }
        ensures volume { self.new.number ≡ self.old.number }
    {
        self.file.end_request(unit, line, request, after);
    }

    /// Decides what a read comes to that nothing in memory refuses, on a volume that has not stopped:
    /// its record is looked at, and nothing is put.
    fn decide_read(&mut self, alloc: Global, unit: Unit, request: &Request) -> Outcome
        requires whole { IsWhole B.seen self.old }
        requires going { self.old.file.stopped ≡ None }
        requires read { getting.IsRead request.now }
        requires holds { IsTrue B.tells → Holds B.seen self.old }
        ensures ends { IsTrue B.tells → (opening : State) → IsHeld B.seen opening self.old
            → getting.IsAsked opening self.old.file unit request.now
            → getting.MayEnd (case_of self.old.file.geometry (state_now opening self.old.file) unit
            request.now) result }
        ensures held { IsTrue B.tells → (opening : State) → IsHeld B.seen opening self.old
            → IsHeld B.seen opening self.new }
        ensures whole { IsWhole B.seen self.new }
        ensures file { self.new.file ≡ self.old.file }
        ensures store { self.new.store ≡ self.old.store }
        ensures number { self.new.number ≡ self.old.number }
        ensures keeps { Keeps B.tells (B.seen self.old.blocks) (B.seen self.new.blocks) }
        ensures cause { HasOutcomeCause (B.faults self.old.blocks) (B.faults self.new.blocks)
            result }
    {
        decide(
            alloc,
            &mut self.blocks,
            &mut self.store,
            &self.file,
            unit,
            request,
        )
    }

    /// Answers a read, a GET or a POINT, of a deck that [`Volume::refused_early`] doesn't refuse, on a
    /// volume that has not stopped, and enters it at a stamp above `after`. A read that names no
    /// place finds the first record that it asks for, by where its file stands; with consistency,
    /// also what another unit may bring back. The record at its place is looked at. A GET that is
    /// done takes its locks and, for update, holds its place; a sequential one stands after its
    /// record then, and a POINT at it. It is refused by what the record is, for a read that fails
    /// (`ReadFault`; a device that answers a fault of a write stops the volume, as `WriteFault`),
    /// and where memory runs out (`Memory`). Nothing is put, and what the blocks hold stays what the
    /// history gives. There is room for two events, and for one more file, or the file was set
    /// before.
    pub fn read(&mut self, alloc: Global, unit: Unit, line: u32, request: SharedRequest, after: u64)
        requires whole { IsWhole B.seen self.old }
        requires going { self.old.file.stopped ≡ None }
        requires room { 1 < self.old.file.room }
        requires files { CanSet self.old.file unit.deck (cases.file_of request) }
        requires last { last_stamp 0 self.old.file.entries < 2 ^ 64 - 2 }
        requires after { after < 2 ^ 64 - 2 }
        requires read { getting.IsRead request }
        requires holds { IsTrue B.tells → Holds B.seen self.old }
        ensures held { IsTrue B.tells → (opening : State) → IsHeld B.seen opening self.old
            → getting.IsAsked opening self.old.file unit request → IsHeld B.seen opening self.new }
        ensures whole { IsWhole B.seen self.new }
        ensures entered { getting.HasEntered after unit line request self.old.file self.new.file }
        ensures moments { IsTrue B.tells → (opening : State) → IsHeld B.seen opening self.old
            → Guards (B.seen self.old.blocks) (B.seen self.new.blocks)
            (RecoversTo self.old.store.log.geometry self.old.number
            (state_now opening self.old.file) []) }
        ensures cause { HasGetCause (B.faults self.old.blocks) (B.faults self.new.blocks) after unit
            line request self.old.file self.new.file }
        ensures acted { IsActed (B.faults self.old.blocks) (B.faults self.new.blocks) acts.Done
            after unit line request self.old.file self.new.file }
        ensures store { self.new.store ≡ self.old.store }
        ensures number { self.new.number ≡ self.old.number }
    {
        let outcome = self.decide_read(alloc, unit, request.get());
        self.enter_outcome(alloc, unit, line, request, outcome, after);
    }
}
