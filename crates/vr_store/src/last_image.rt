//! The last before-image of a unit of recovery in a store: the stages of a split that come before it,
//! and that it is put back.
ghost use Rattle.std.specs.Prelude.{◌≡◌, ◌≢◌, ℕ, None, Some, IsTrue, IfErr, IfOk, IfSome, OnErr};
ghost use Rattle.std.specs.Prelude.{◌<◌, List, OnOk, Option, is_some, option_map};
ghost use Rattle.vr_types.specs.Blocks.{Keeps};
ghost use Rattle.vr_types.specs.Content.{Standing};
ghost use Rattle.vr_types.specs.Faults.{HasCause};
ghost use Rattle.vr_types.specs.Moments.{Guards};
ghost use Rattle.vr_types.specs.Space.{free_count};
ghost use Rattle.vr_types.specs.declared.fault.DeviceFault.TheVariants.{Read, Write};
ghost use Rattle.vr_types.specs.declared.unit.Unit.{Unit as UnitOfRecovery};
ghost use Rattle.vr_types.specs.declared.unit.StageKind.TheVariants.{Extend};
ghost use Rattle.vr_space.specs.Known.{HasMet};
ghost use Rattle.vr_space.specs.Left.{added_by};
ghost use Rattle.vr_space.specs.Part.{IsLengthOf, IsPlaceOf};
ghost use Rattle.vr_history.specs.State.{State};
ghost use Rattle.vr_undo.specs.Records.{image_of};
ghost use Rattle.vr_volume.specs.Committed.{IsCurrent, committed_by};
ghost use Rattle.vr_volume.specs.Safe.{IsSafeImage};
ghost use Rattle.vr_volume.specs.Steps.{IsChangeOf, IsPutBack};
ghost use Rattle.vr_store.specs.LastImage.{HasAdvanced, HasNoStage, IsBackIn, IsDueAtLast};
ghost use Rattle.vr_store.specs.LastImage.{IsMetBy, OnLast, last_claimed};
ghost use Rattle.vr_store.specs.LastImage.{is_stage as is_a_stage, last_of_unit, stage_told};
ghost use Rattle.vr_store.specs.Left.{left_for};
ghost use Rattle.vr_store.specs.Change.{IsSettable};
ghost use Rattle.vr_store.specs.PutBack.{IsTaken, IsTakenFrom, back_at};
ghost use Rattle.vr_store.specs.Parts.{HasMoreAt, OnlyMet, OnlySplit};
ghost use Rattle.vr_store.specs.Store.{IsOldOf, IsSet, IsStored, Stands, left_among, owners_of};
ghost use Rattle.vr_store.specs.Store.{part_among};
ghost use Rattle.vr_store.specs.Store.{shape_among};

use crate::stage::{advance_at, ask_at};
use crate::store::Store;
use vr_space::{Part, Room};
use vr_types::{Blocks, DeviceFault, PartNo, StageKind, Unit};
use vr_undo::Before;

/// Whether it is a stage of a split that comes first: none that takes an area, since room was kept
/// for what is put back.
fn is_stage(room: Room) -> bool
    ensures { result ≡ is_a_stage room }
{
    match room {
        Room::Stage(StageKind::Extend | StageKind::CaClaim) => false,
        Room::Stage(_) => true,
        _ => false,
    }
}

/// The part of a stage by which an interval of it is split in two.
fn split_in(part: PartNo, kind: StageKind) -> Option<PartNo>
    ensures { kind ≢ Extend → added_by (stage_told result) ≡ added_by kind }
{
    match kind {
        StageKind::CiSwitch => Some(part),
        _ => None,
    }
}

impl<P: Part> Store<P> {
    /// Whether a unit keeps a before-image that it may put back.
    pub fn keeps(&self, unit: Unit) -> bool
        ensures { result ≡ is_some (last_of_unit self.now unit) }
    {
        self.undo.last(unit).is_some()
    }

    /// The part of the last before-image that a unit keeps, None exactly where it keeps none.
    pub fn last_part(&self, unit: Unit) -> Option<PartNo>
        ensures { option_map (λ part. part.0) result
            ≡ option_map (λ last. last.part) (last_of_unit self.now unit) }
    {
        match self.undo.last(unit) {
            Some(before) => Some(before.part),
            None => None,
        }
    }

    /// Room is asked for at the place of the last before-image that a unit keeps, for a record of a
    /// length that those of its part may have: whether a stage of a split comes before it. The part
    /// keeps what it met there. A fault is the device's.
    pub fn meet_last<B: Blocks>(
        &mut self,
        blocks: &mut B,
        unit: Unit,
        length: u32,
    ) -> Result<bool, DeviceFault>
        requires set { IsSet self.old (B.seen blocks.old) }
        requires some { last_of_unit self.old unit ≢ None }
        requires length { OnLast self.old unit (λ last.
            IfSome (shape_among self.old.parts last.part) (λ shape. IsLengthOf shape length)) }
        requires stands { IsTrue B.tells → Stands self.old (B.seen blocks.old) }
        ensures due { IsTrue B.tells → IfOk result (λ due. OnLast self.old unit (λ last.
            IsMetBy due self.new (B.seen blocks.new).cur last.part last.place length)) }
        ensures met { OnOk result (OnLast self.old unit (λ last.
            IfSome (part_among self.new.parts last.part) (λ part. HasMet part.known last.place))) }
        ensures parts { OnLast self.old unit (λ last.
            OnlyMet last.part self.old.parts self.new.parts) }
        ensures shapes { (number : ℕ)
            → shape_among self.new.parts number ≡ shape_among self.old.parts number }
        ensures set { IsSet self.new (B.seen blocks.new) }
        ensures stored { IsTrue B.tells → (volume : ℕ) (state : State)
            → IsStored volume self.old state (B.seen blocks.old)
            → IsStored volume self.new state (B.seen blocks.new) }
        ensures rest { self.new ≡ record self.old { parts = self.new.parts } }
        ensures keeps { Keeps B.tells (B.seen blocks.old) (B.seen blocks.new) }
        ensures cause { HasCause (B.faults blocks.old) (B.faults blocks.new) result }
    {
        match self.undo.last(unit) {
            Some(before) => {
                let room = ask_at(
                    blocks,
                    &self.log,
                    &self.undo,
                    &mut self.parts,
                    &self.changed,
                    &self.space,
                    before.part,
                    &before.place,
                    length,
                )?;
                Ok(is_stage(room))
            }
            None => unreachable!("the unit keeps one"),
        }
    }

    /// Does the stage of a split that comes before the last before-image that a unit keeps, and
    /// answers the part of which an interval was split in two by it. A BACKOUT claims no area. A
    /// fault is the device's.
    pub fn advance_last<B: Blocks>(
        &mut self,
        blocks: &mut B,
        unit: Unit,
        length: u32,
    ) -> Result<Option<PartNo>, DeviceFault>
        requires set { IsSet self.old (B.seen blocks.old) }
        requires some { last_of_unit self.old unit ≢ None }
        requires length { OnLast self.old unit (λ last.
            IfSome (shape_among self.old.parts last.part) (λ shape. IsLengthOf shape length)) }
        requires stands { IsTrue B.tells → Stands self.old (B.seen blocks.old) }
        requires due { IsTrue B.tells
            → IsDueAtLast self.old (B.seen blocks.old).cur unit length }
        ensures owners_stay { OnErr result (self.new.space ≡ self.old.space) }
        // What is due is a stage of its part, which leaves the owners of areas so:
        ensures owners { IsTrue B.tells → OnOk result (OnLast self.old unit (λ last.
            IfSome (shape_among self.old.parts last.part)
            (λ shape. HasAdvanced (record { 0 = last.part }) shape self.old.space
            self.new.space))) }
        // it is none that takes an area.
        ensures claims_none { IsTrue B.tells → self.new.space ≡ self.old.space }
        // Fewer stages are left, and what is used is counted: one interval more where one was split.
        ensures more { IsTrue B.tells → IfOk result (λ split. OnLast self.old unit (λ last.
            HasMoreAt last.part (stage_told split) self.old.parts self.new.parts
            (free_count self.old.space) (free_count self.new.space))) }
        // Each unit waits for less.
        ensures nearer { IsTrue B.tells → OnOk result ((waits : UnitOfRecovery)
            → left_for waits self.new < left_for waits self.old) }
        ensures parts { OnLast self.old unit (λ last.
            OnlySplit last.part self.old.parts self.new.parts) }
        ensures shapes { (number : ℕ)
            → shape_among self.new.parts number ≡ shape_among self.old.parts number }
        ensures set { IsSet self.new (B.seen blocks.new) }
        ensures stored { IsTrue B.tells → OnOk result ((volume : ℕ) (state : State)
            → IsStored volume self.old state (B.seen blocks.old)
            → IsStored volume self.new state (B.seen blocks.new)) }
        // At every moment, whether it fails or not: the least free area may be the part's already.
        ensures moments { IsTrue B.tells → (volume : ℕ) (state : State)
            → IsStored volume self.old state (B.seen blocks.old)
            → Guards (B.seen blocks.old) (B.seen blocks.new)
            (IsSafeImage self.old.log.geometry volume (last_claimed self.old unit) self.old.log
            (committed_by state)) }
        // It reads before it puts.
        ensures unread { IfErr result (λ fault. fault ≡ Read
            → Keeps B.tells (B.seen blocks.old) (B.seen blocks.new)
            × (IsTrue B.tells → (volume : ℕ) (state : State)
            → IsStored volume self.old state (B.seen blocks.old)
            → IsStored volume self.new state (B.seen blocks.new))) }
        ensures rest { self.new
            ≡ record self.old { parts = self.new.parts; space = self.new.space } }
        ensures cause { HasCause (B.faults blocks.old) (B.faults blocks.new) result }
    {
        match self.undo.last(unit) {
            Some(before) => {
                let kind = advance_at(
                    blocks,
                    &self.log,
                    &self.undo,
                    &mut self.parts,
                    &self.changed,
                    &mut self.space,
                    before.part,
                    &before.place,
                    length,
                )?;
                Ok(split_in(before.part, kind))
            }
            None => unreachable!("the unit keeps one"),
        }
    }

    /// Puts back a before-image that was taken out. A fault is the device's.
    fn put_before<B: Blocks>(
        &mut self,
        blocks: &mut B,
        unit: Unit,
        before: &Before,
    ) -> Result<(), DeviceFault>
        requires set { IsSet self.old (B.seen blocks.old) }
        requires part { part_among self.old.parts before.now.part.0 ≢ None }
        requires place { IfSome (shape_among self.old.parts before.now.part.0)
            (λ shape. IsPlaceOf shape before.now.place) }
        requires item { IfSome (shape_among self.old.parts before.now.part.0)
            (λ shape. IsOldOf shape before.now.place (option_map Standing before.now.old)) }
        requires taken { IsTrue B.tells → IsTaken self.old unit (B.seen blocks.old) }
        requires can { IsTrue B.tells → IsSettable self.old (B.seen blocks.old).cur
            before.now.part.0 before.now.place before.now.old }
        ensures back { IsTrue B.tells → OnOk result ((volume : ℕ) (was : Option (List ℕ))
            (old new : State) → IsTakenFrom volume self.old unit old (B.seen blocks.old)
            → IsChangeOf self.old.log.geometry old
            (back_at unit before.now.part before.now.place was
            (left_among self.old.parts before.now.part.0 old before.now.place before.now.old))
            → IsPutBack (back_at unit before.now.part before.now.place was
            (left_among self.old.parts before.now.part.0 old before.now.place before.now.old))
            old new
            → IsStored volume self.new new (B.seen blocks.new)) }
        // At every moment, whether it fails or not.
        ensures moments { IsTrue B.tells → (volume : ℕ) (was : Option (List ℕ)) (old new : State)
            → IsTakenFrom volume self.old unit old (B.seen blocks.old)
            → IsChangeOf self.old.log.geometry old
            (back_at unit before.now.part before.now.place was
            (left_among self.old.parts before.now.part.0 old before.now.place before.now.old))
            → IsPutBack (back_at unit before.now.part before.now.place was
            (left_among self.old.parts before.now.part.0 old before.now.place before.now.old))
            old new
            → Guards (B.seen blocks.old) (B.seen blocks.new)
            (IsSafeImage self.old.log.geometry volume (owners_of self.old) self.old.log
            (committed_by old)) }
        ensures set { IsSet self.new (B.seen blocks.new) }
        ensures parts { OnlyMet before.now.part.0 self.old.parts self.new.parts }
        ensures rest { self.new
            ≡ record self.old { parts = self.new.parts; changed = self.new.changed } }
        // Where room was asked for at the place, no read is made of it.
        ensures reads { IfSome (part_among self.old.parts before.now.part.0)
            (λ part. HasMet part.known before.now.place) → IfErr result (λ fault. fault ≡ Write) }
        ensures cause { HasCause (B.faults blocks.old) (B.faults blocks.new) result }
    {
        match &before.old {
            Some(bytes) => {
                let bytes = Some(bytes.as_slice());
                self.put_taken(blocks, before.part, unit, &before.place, bytes)
            }
            None => self.put_taken(blocks, before.part, unit, &before.place, None),
        }
    }

    /// Takes out the last before-image that a unit keeps, puts it back at its place, and answers it.
    /// Room was asked for there, and no stage of a split is left. It takes no memory. A fault of a
    /// write is the device's.
    pub fn put_last<B: Blocks>(&mut self, blocks: &mut B, unit: Unit) -> Result<Before, DeviceFault>
        requires set { IsSet self.old (B.seen blocks.old) }
        requires some { last_of_unit self.old unit ≢ None }
        requires met { OnLast self.old unit (λ last.
            IfSome (part_among self.old.parts last.part) (λ part. HasMet part.known last.place)) }
        requires stands { IsTrue B.tells → Stands self.old (B.seen blocks.old) }
        requires no_stage { IsTrue B.tells → OnLast self.old unit (λ last.
            HasNoStage self.old (B.seen blocks.old).cur last.part last.place) }
        ensures at { IfOk result (λ before.
            last_of_unit self.old unit ≡ Some (image_of unit before)) }
        ensures back { IsTrue B.tells → OnOk result ((volume : ℕ) (old new : State)
            → IsStored volume self.old old (B.seen blocks.old) → IsCurrent old.numbers unit
            → IsBackIn self.old.log.geometry unit old new
            → IsStored volume self.new new (B.seen blocks.new)) }
        // At every moment, whether it fails or not.
        ensures moments { IsTrue B.tells → (volume : ℕ) (old : State)
            → IsStored volume self.old old (B.seen blocks.old) → IsCurrent old.numbers unit
            → Guards (B.seen blocks.old) (B.seen blocks.new)
            (IsSafeImage self.old.log.geometry volume (owners_of self.old) self.old.log
            (committed_by old)) }
        // The unit waits for less, though its blocks may have to be forced then.
        ensures nearer { left_for unit self.new < left_for unit self.old }
        ensures set { IsSet self.new (B.seen blocks.new) }
        ensures parts { OnLast self.old unit (λ last.
            OnlyMet last.part self.old.parts self.new.parts) }
        ensures shapes { (number : ℕ)
            → shape_among self.new.parts number ≡ shape_among self.old.parts number }
        ensures rest { self.new ≡ record self.old {
          undo = self.new.undo;
          parts = self.new.parts;
          changed = self.new.changed;
        } }
        ensures fails { IfErr result (λ fault. fault ≡ Write) }
        ensures cause { HasCause (B.faults blocks.old) (B.faults blocks.new) result }
    {
        match self.undo.take_one(unit) {
            Some(before) => {
                self.put_before(blocks, unit, &before)?;
                Ok(before)
            }
            None => unreachable!("the unit keeps one"),
        }
    }
}
