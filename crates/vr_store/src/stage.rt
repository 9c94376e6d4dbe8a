//! Room for a record of a store, and the stages that come before it.
ghost use Rattle.std.specs.Prelude.{◌≡◌, ◌≢◌, ◌<◌, ℕ, None, IsTrue, IfErr, IfOk, IfSome, OnErr, OnOk, map};
ghost use Rattle.vr_types.specs.Blocks.{Keeps};
ghost use Rattle.vr_types.specs.Faults.{HasCause};
ghost use Rattle.vr_types.specs.Moments.{Guards};
ghost use Rattle.vr_types.specs.Space.{free_count};
ghost use Rattle.vr_types.specs.declared.fault.DeviceFault.TheVariants.{Read};
ghost use Rattle.vr_types.specs.declared.unit.Unit.{Unit as UnitOfRecovery};
ghost use Rattle.vr_space.specs.Known.{HasMet};
ghost use Rattle.vr_space.specs.Part.{IsLengthOf, IsPlaceOf, IsStageOf, OwnersAfter};
ghost use Rattle.vr_space.specs.declared.room.Room.TheVariants as answers;
ghost use Rattle.vr_attach.specs.Owning.{claimed_by, owner_of};
ghost use Rattle.vr_history.specs.State.{State};
ghost use Rattle.vr_volume.specs.Committed.{committed_by};
ghost use Rattle.vr_volume.specs.Safe.{IsSafeImage};
ghost use Rattle.vr_store.specs.Left.{left_for, parts_left};
ghost use Rattle.vr_store.specs.Parts.{ForgetsAt, HasMoreAt, HasRoomToMeet, MeetsNext, OnlyMet};
ghost use Rattle.vr_store.specs.Parts.{OnlySplit};
ghost use Rattle.vr_store.specs.Room.{IsDueAt, IsRoomAt};
ghost use Rattle.vr_store.specs.Store.{IsSet, IsStored, Stands, part_among, part_now, shape_among};
ghost use Rattle.vr_store.specs.Store.{store_of};

use crate::changed::UnitBlocks;
use crate::parts::{Laid, index_of};
use crate::store::Store;
use std::alloc::Global;
use vr_log::UndoLog;
use vr_space::{Part, Room};
use vr_types::{Blocks, DeviceFault, OutOfMemory, PartNo, Place, Space, StageKind};
use vr_undo::Undo;
use vr_volume::do_stage;

/// Has a part of a store forget what it met, and makes room to keep what it will meet at this many
/// places.
pub(crate) fn keep_at<P: Part>(
    alloc: Global,
    parts: &mut Vec<Laid<P>>,
    number: PartNo,
    count: usize,
) -> Result<(), OutOfMemory>
    requires part { part_among (map (part_now P.shape P.known) parts.old.items) number.0
        ≢ None }
    ensures forgets { ForgetsAt number.0 (map (part_now P.shape P.known) parts.old.items)
        (map (part_now P.shape P.known) parts.new.items) }
    ensures room { OnOk result (HasRoomToMeet number.0 count
        (map (part_now P.shape P.known) parts.new.items)) }
{
    match index_of(parts, number) {
        Some(at) => parts[at].part.keep_places(alloc, count),
        None => unreachable!("the part is laid"),
    }
}

/// Asks a part of a store for room, beside what stands there and what units may put back. A fault is
/// the device's.
pub(crate) fn ask_at<B: Blocks, P: Part>(
    blocks: &mut B,
    log: &UndoLog,
    undo: &Undo,
    parts: &mut Vec<Laid<P>>,
    changed: &Vec<UnitBlocks>,
    space: &Space,
    number: PartNo,
    place: &Place,
    length: u32,
) -> Result<Room, DeviceFault>
    requires set { IsSet (store_of P.shape P.known log.now undo.now parts.old.items
        changed.now.items space.now) (B.seen blocks.old) }
    requires part { part_among (map (part_now P.shape P.known) parts.old.items) number.0
        ≢ None }
    requires place { IfSome (shape_among (map (part_now P.shape P.known) parts.old.items)
        number.0) (λ shape. IsPlaceOf shape place.now) }
    requires length { IfSome (shape_among (map (part_now P.shape P.known) parts.old.items)
        number.0) (λ shape. IsLengthOf shape length) }
    requires stands { IsTrue B.tells → Stands (store_of P.shape P.known log.now undo.now
        parts.old.items changed.now.items space.now) (B.seen blocks.old) }
    ensures answer { IsTrue B.tells → IfOk result (λ room. IsRoomAt (store_of P.shape P.known
        log.now undo.now parts.old.items changed.now.items space.now) (B.seen blocks.old).cur
        number.0 place.now length room) }
    ensures still { IsTrue B.tells → IfOk result (λ room. IsRoomAt (store_of P.shape P.known
        log.now undo.now parts.new.items changed.now.items space.now) (B.seen blocks.new).cur
        number.0 place.now length room) }
    ensures met { OnOk result (IfSome
        (part_among (map (part_now P.shape P.known) parts.new.items) number.0)
        (λ part. HasMet part.known place.now)) }
    ensures next { OnOk result (MeetsNext number.0 place.now
        (map (part_now P.shape P.known) parts.old.items)
        (map (part_now P.shape P.known) parts.new.items)) }
    ensures set { IsSet (store_of P.shape P.known log.now undo.now parts.new.items
        changed.now.items space.now) (B.seen blocks.new) }
    ensures stored { IsTrue B.tells → (volume : ℕ) (state : State)
        → IsStored volume (store_of P.shape P.known log.now undo.now parts.old.items
        changed.now.items space.now) state (B.seen blocks.old)
        → IsStored volume (store_of P.shape P.known log.now undo.now parts.new.items
        changed.now.items space.now) state (B.seen blocks.new) }
    ensures parts { OnlyMet number.0 (map (part_now P.shape P.known) parts.old.items)
        (map (part_now P.shape P.known) parts.new.items) }
    ensures keeps { Keeps B.tells (B.seen blocks.old) (B.seen blocks.new) }
    ensures cause { HasCause (B.faults blocks.old) (B.faults blocks.new) result }
{
    match index_of(parts, number) {
        Some(at) => parts[at].part.room(blocks, space, undo, place, length),
        None => unreachable!("the part is laid"),
    }
}

/// Does the stage that comes before a record of this length at a place of a part of a store, and
/// answers it. A fault is the device's.
pub(crate) fn advance_at<B: Blocks, P: Part>(
    blocks: &mut B,
    log: &UndoLog,
    undo: &Undo,
    parts: &mut Vec<Laid<P>>,
    changed: &Vec<UnitBlocks>,
    space: &mut Space,
    number: PartNo,
    place: &Place,
    length: u32,
) -> Result<StageKind, DeviceFault>
    requires set { IsSet (store_of P.shape P.known log.now undo.now parts.old.items
        changed.now.items space.old) (B.seen blocks.old) }
    requires part { part_among (map (part_now P.shape P.known) parts.old.items) number.0
        ≢ None }
    requires place { IfSome (shape_among (map (part_now P.shape P.known) parts.old.items)
        number.0) (λ shape. IsPlaceOf shape place.now) }
    requires length { IfSome (shape_among (map (part_now P.shape P.known) parts.old.items)
        number.0) (λ shape. IsLengthOf shape length) }
    requires stands { IsTrue B.tells → Stands (store_of P.shape P.known log.now undo.now
        parts.old.items changed.now.items space.old) (B.seen blocks.old) }
    requires due { IsTrue B.tells → IsDueAt (store_of P.shape P.known log.now undo.now
        parts.old.items changed.now.items space.old) (B.seen blocks.old).cur number.0 place.now
        length }
    ensures stage { IsTrue B.tells → IfOk result (λ kind. IsRoomAt (store_of P.shape P.known
        log.now undo.now parts.old.items changed.now.items space.old) (B.seen blocks.old).cur
        number.0 place.now length (answers.Stage kind)) }
    ensures owners { IfOk result (λ kind. OwnersAfter number kind space.old space.new) }
    ensures owners_stay { OnErr result (space.new ≡ space.old) }
    ensures kind { IsTrue B.tells → IfSome
        (shape_among (map (part_now P.shape P.known) parts.old.items) number.0)
        (λ shape. IfOk result (IsStageOf shape)) }
    ensures set { IsSet (store_of P.shape P.known log.now undo.now parts.new.items
        changed.now.items space.new) (B.seen blocks.new) }
    ensures stored { IsTrue B.tells → OnOk result ((volume : ℕ) (state : State)
        → IsStored volume (store_of P.shape P.known log.now undo.now parts.old.items
        changed.now.items space.old) state (B.seen blocks.old)
        → IsStored volume (store_of P.shape P.known log.now undo.now parts.new.items
        changed.now.items space.new) state (B.seen blocks.new)) }
    // At every moment, whether it fails or not: the least free area may be the part's already.
    ensures moments { IsTrue B.tells → (volume : ℕ) (state : State)
        → IsStored volume (store_of P.shape P.known log.now undo.now parts.old.items
        changed.now.items space.old) state (B.seen blocks.old)
        → Guards (B.seen blocks.old) (B.seen blocks.new)
        (IsSafeImage log.now.geometry volume
        (owner_of log.now.geometry (claimed_by number space.old)) log.now (committed_by state)) }
    // It reads before it puts.
    ensures unread { IfErr result (λ fault. fault ≡ Read
        → Keeps B.tells (B.seen blocks.old) (B.seen blocks.new)
        × (IsTrue B.tells → (volume : ℕ) (state : State)
        → IsStored volume (store_of P.shape P.known log.now undo.now parts.old.items
        changed.now.items space.old) state (B.seen blocks.old)
        → IsStored volume (store_of P.shape P.known log.now undo.now parts.new.items
        changed.now.items space.new) state (B.seen blocks.new))) }
    ensures more { IsTrue B.tells → IfOk result (λ kind.
        HasMoreAt number.0 kind (map (part_now P.shape P.known) parts.old.items)
        (map (part_now P.shape P.known) parts.new.items) (free_count space.old)
        (free_count space.new)) }
    // All parts together have fewer stages left.
    ensures fewer { IsTrue B.tells → OnOk result
        (parts_left (free_count space.new) (map (part_now P.shape P.known) parts.new.items)
        < parts_left (free_count space.old) (map (part_now P.shape P.known) parts.old.items)) }
    ensures parts { OnlySplit number.0 (map (part_now P.shape P.known) parts.old.items)
        (map (part_now P.shape P.known) parts.new.items) }
    ensures cause { HasCause (B.faults blocks.old) (B.faults blocks.new) result }
{
    match index_of(parts, number) {
        Some(at) => {
            let part = &mut parts[at].part;
            let kind = do_stage(blocks, part, space, undo, place, length)?;
            Ok(kind)
        }
        None => unreachable!("the part is laid"),
    }
}

impl<P: Part> Store<P> {
    /// Has a part forget what it met, and makes room to keep what `ask_room` will meet at this many
    /// places of it, so that records may be set at them without a read. It reads nothing. Fails only
    /// if memory runs out; all else stays, whatever the answer.
    pub fn keep_places<B: Blocks>(
        &mut self,
        blocks: &B,
        alloc: Global,
        number: PartNo,
        count: usize,
    ) -> Result<(), OutOfMemory>
        requires part { part_among self.old.parts number.0 ≢ None }
        ensures room { OnOk result (HasRoomToMeet number.0 count self.new.parts) }
        ensures set { IsSet self.old (B.seen blocks.now) → IsSet self.new (B.seen blocks.now) }
        ensures stored { (volume : ℕ) (state : State)
            → IsStored volume self.old state (B.seen blocks.now)
            → IsStored volume self.new state (B.seen blocks.now) }
        ensures parts { OnlyMet number.0 self.old.parts self.new.parts }
        ensures rest { self.new ≡ record self.old { parts = self.new.parts } }
    {
        let _ = blocks;
        keep_at(alloc, &mut self.parts, number, count)
    }

    /// Whether a record of this length has room at a place of a part, beside what stands there and
    /// what units may put back. The part keeps what it met, so that it may be set at the place
    /// without a read. A fault is the device's.
    pub fn ask_room<B: Blocks>(
        &mut self,
        blocks: &mut B,
        number: PartNo,
        place: &Place,
        length: u32,
    ) -> Result<Room, DeviceFault>
        requires set { IsSet self.old (B.seen blocks.old) }
        requires part { part_among self.old.parts number.0 ≢ None }
        requires place { IfSome (shape_among self.old.parts number.0)
            (λ shape. IsPlaceOf shape place.now) }
        requires length { IfSome (shape_among self.old.parts number.0)
            (λ shape. IsLengthOf shape length) }
        requires stands { IsTrue B.tells → Stands self.old (B.seen blocks.old) }
        ensures answer { IsTrue B.tells → IfOk result (λ room.
            IsRoomAt self.old (B.seen blocks.old).cur number.0 place.now length room) }
        // So it is once it was asked.
        ensures still { IsTrue B.tells → IfOk result (λ room.
            IsRoomAt self.new (B.seen blocks.new).cur number.0 place.now length room) }
        ensures met { OnOk result (IfSome (part_among self.new.parts number.0)
            (λ part. HasMet part.known place.now)) }
        // And while it has room for one more it keeps each place that it met before.
        ensures next { OnOk result
            (MeetsNext number.0 place.now self.old.parts self.new.parts) }
        ensures set { IsSet self.new (B.seen blocks.new) }
        ensures stored { IsTrue B.tells → (volume : ℕ) (state : State)
            → IsStored volume self.old state (B.seen blocks.old)
            → IsStored volume self.new state (B.seen blocks.new) }
        ensures parts { OnlyMet number.0 self.old.parts self.new.parts }
        ensures rest { self.new ≡ record self.old { parts = self.new.parts } }
        ensures keeps { Keeps B.tells (B.seen blocks.old) (B.seen blocks.new) }
        ensures cause { HasCause (B.faults blocks.old) (B.faults blocks.new) result }
    {
        ask_at(
            blocks,
            &self.log,
            &self.undo,
            &mut self.parts,
            &self.changed,
            &self.space,
            number,
            place,
            length,
        )
    }

    /// Does the stage that comes before a record of this length at a place of a part, and answers
    /// it. The caller asks for room again. A fault is the device's.
    pub fn advance<B: Blocks>(
        &mut self,
        blocks: &mut B,
        number: PartNo,
        place: &Place,
        length: u32,
    ) -> Result<StageKind, DeviceFault>
        requires set { IsSet self.old (B.seen blocks.old) }
        requires part { part_among self.old.parts number.0 ≢ None }
        requires place { IfSome (shape_among self.old.parts number.0)
            (λ shape. IsPlaceOf shape place.now) }
        requires length { IfSome (shape_among self.old.parts number.0)
            (λ shape. IsLengthOf shape length) }
        requires stands { IsTrue B.tells → Stands self.old (B.seen blocks.old) }
        requires due { IsTrue B.tells
            → IsDueAt self.old (B.seen blocks.old).cur number.0 place.now length }
        ensures stage { IsTrue B.tells → IfOk result (λ kind. IsRoomAt self.old
            (B.seen blocks.old).cur number.0 place.now length (answers.Stage kind)) }
        ensures owners { IfOk result (λ kind.
            OwnersAfter number kind self.old.space self.new.space) }
        ensures owners_stay { OnErr result (self.new.space ≡ self.old.space) }
        ensures kind { IsTrue B.tells → IfSome (shape_among self.old.parts number.0)
            (λ shape. IfOk result (IsStageOf shape)) }
        ensures set { IsSet self.new (B.seen blocks.new) }
        ensures stored { IsTrue B.tells → OnOk result ((volume : ℕ) (state : State)
            → IsStored volume self.old state (B.seen blocks.old)
            → IsStored volume self.new state (B.seen blocks.new)) }
        // At every moment, whether it fails or not: the least free area may be the part's already.
        ensures moments { IsTrue B.tells → (volume : ℕ) (state : State)
            → IsStored volume self.old state (B.seen blocks.old)
            → Guards (B.seen blocks.old) (B.seen blocks.new)
            (IsSafeImage self.old.log.geometry volume
            (owner_of self.old.log.geometry (claimed_by number self.old.space)) self.old.log
            (committed_by state)) }
        // It reads before it puts.
        ensures unread { IfErr result (λ fault. fault ≡ Read
            → Keeps B.tells (B.seen blocks.old) (B.seen blocks.new)
            × (IsTrue B.tells → (volume : ℕ) (state : State)
            → IsStored volume self.old state (B.seen blocks.old)
            → IsStored volume self.new state (B.seen blocks.new))) }
        // Fewer stages are left, and what is used is counted.
        ensures more { IsTrue B.tells → IfOk result (λ kind.
            HasMoreAt number.0 kind self.old.parts self.new.parts (free_count self.old.space)
            (free_count self.new.space)) }
        // Each unit waits for less.
        ensures nearer { IsTrue B.tells → OnOk result ((waits : UnitOfRecovery)
            → left_for waits self.new < left_for waits self.old) }
        ensures parts { OnlySplit number.0 self.old.parts self.new.parts }
        ensures rest { self.new
            ≡ record self.old { parts = self.new.parts; space = self.new.space } }
        ensures cause { HasCause (B.faults blocks.old) (B.faults blocks.new) result }
    {
        advance_at(
            blocks,
            &self.log,
            &self.undo,
            &mut self.parts,
            &self.changed,
            &mut self.space,
            number,
            place,
            length,
        )
    }
}
