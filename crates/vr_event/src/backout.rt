//! BACKOUT: the before-images that a unit of recovery keeps are put back, the last one first, and then
//! the unit ends.
ghost use Rattle.std.specs.Prelude.{◌≡◌, ◌≢◌, ◌<◌, ◌≤◌, ◌-◌, ◌+◌, ◌^◌, [], IsTrue, OnOk, None};
ghost use Rattle.std.specs.Prelude.{IfOk, IfSome, Some, option_map, true, false};
ghost use Rattle.std.specs.Option.{option_map_or};
ghost use Rattle.vr_types.specs.Blocks.{Keeps};
ghost use Rattle.vr_types.specs.Faults.{HasCause};
ghost use Rattle.vr_types.specs.Moments.{Guards};
ghost use Rattle.vr_types.specs.declared.request.Request.TheVariants.{Backout};
ghost use Rattle.vr_space.specs.Known.{HasMet};
ghost use Rattle.vr_space.specs.Part.{IsLengthOf};
ghost use Rattle.vr_catalog.specs.Catalog.{definition_of};
ghost use Rattle.vr_history.specs.Merged.{last_stamp};
ghost use Rattle.vr_history.specs.State.{State};
ghost use Rattle.vr_history.specs.Step.{IsLastKept};
ghost use Rattle.vr_history.specs.declared.entry.What.TheVariants as whats;
ghost use Rattle.vr_record_file.specs.Now.{IsStateOf, has_deck, number_of, state_now, with_event};
ghost use Rattle.vr_volume.specs.Crashes.{RecoversTo};
ghost use Rattle.vr_event.specs.Acting.{IsActed};
ghost use Rattle.vr_store.specs.LastImage.{HasNoStage, IsDueAtLast, IsMetBy, OnLast, last_of_unit};
ghost use Rattle.vr_event.specs.EndedFile.{IsEnding};
ghost use Rattle.vr_store.specs.Store.{part_among, shape_among};
ghost use Rattle.vr_event.specs.Nearer.{EntersSplits, IsNearer, MeetsOnly};
ghost use Rattle.vr_event.specs.Putting.{AllowsLength, is_length_in};
ghost use Rattle.vr_event.specs.Volume.{Holds, IsHeld, IsWhole};

use crate::act::Act;
use crate::staging::area_taken;
use crate::volume::Volume;
use vr_catalog::{Catalog, Definition};
use vr_log::EndKind;
use vr_space::Part;
use vr_types::{Blocks, DeviceFault, Kind, PartNo, SharedRequest, Unit};
use vr_undo::Before;

/// The least length that a record of a definition may have: an entry-sequenced one has a byte or
/// more, and each record of a relative cluster has the one length.
fn least_by(definition: &Definition) -> u32
    requires { AllowsLength definition.now }
    ensures { is_length_in result definition.now ≡ true }
{
    match definition.kind {
        Kind::Keyed => u32::from(definition.key_offset) + u32::from(definition.key_length),
        Kind::Entry => 1,
        Kind::Relative => definition.maximum,
    }
}

/// The least length that a record of a part may have, by its definition in a catalog.
fn least_length(catalog: &Catalog, part: PartNo) -> u32
    requires some { definition_of catalog.now part.0 ≢ None }
    requires allows { IfSome (definition_of catalog.now part.0) AllowsLength }
    ensures { option_map_or (is_length_in result) (definition_of catalog.now part.0) false
        ≡ true }
{
    match catalog.definition_of(part) {
        None => unreachable!("the part is defined"),
        Some(definition) => least_by(&definition),
    }
}

impl<B: Blocks, P: Part> Volume<B, P> {
    /// A length that a record of the part may have of which a unit keeps its last before-image.
    fn last_length(&self, unit: Unit) -> u32
        requires whole { IsWhole B.seen self.now }
        requires going { self.now.file.stopped ≡ None }
        requires some { last_of_unit self.now.store unit ≢ None }
        ensures { OnLast self.now.store unit (λ last.
            IfSome (shape_among self.now.store.parts last.part) (λ shape.
            IsLengthOf shape result)) }
    {
        match self.store.last_part(unit) {
            None => unreachable!("the unit keeps one"),
            Some(part) => least_length(self.file.catalog(), part),
        }
    }

    /// Asks for room at the place of the last before-image that a unit keeps: whether a stage of a
    /// split comes before it. A fault is the device's.
    fn meet_back(&mut self, unit: Unit, length: u32) -> Result<bool, DeviceFault>
        requires whole { IsWhole B.seen self.old }
        requires going { self.old.file.stopped ≡ None }
        requires some { last_of_unit self.old.store unit ≢ None }
        requires length { OnLast self.old.store unit (λ last.
            IfSome (shape_among self.old.store.parts last.part) (λ shape.
            IsLengthOf shape length)) }
        requires holds { IsTrue B.tells → Holds B.seen self.old }
        ensures held { IsTrue B.tells → (opening : State) → IsHeld B.seen opening self.old
            → IsHeld B.seen opening self.new }
        ensures whole { IsWhole B.seen self.new }
        ensures due { IsTrue B.tells → IfOk result (λ due. OnLast self.new.store unit (λ last.
            IsMetBy due self.new.store (B.seen self.new.blocks).cur last.part last.place length)) }
        ensures met { OnOk result (OnLast self.new.store unit (λ last.
            IfSome (part_among self.new.store.parts last.part)
            (λ part. HasMet part.known last.place))) }
        ensures some { last_of_unit self.new.store unit ≡ last_of_unit self.old.store unit }
        ensures length { OnLast self.new.store unit (λ last.
            IfSome (shape_among self.new.store.parts last.part) (λ shape.
            IsLengthOf shape length)) }
        ensures log { self.new.store.log ≡ self.old.store.log }
        ensures meets { MeetsOnly self.old.store self.new.store }
        ensures number { self.new.number ≡ self.old.number }
        ensures file { self.new.file ≡ self.old.file }
        ensures keeps { Keeps B.tells (B.seen self.old.blocks) (B.seen self.new.blocks) }
        ensures cause { HasCause (B.faults self.old.blocks) (B.faults self.new.blocks) result }
    {
        self.store.meet_last(&mut self.blocks, unit, length)
    }

    /// The part of the last before-image that a unit keeps.
    fn last_of(&self, unit: Unit) -> PartNo
        requires some { last_of_unit self.now.store unit ≢ None }
        ensures { option_map (λ last. last.part) (last_of_unit self.now.store unit)
            ≡ Some result.0 }
    {
        match self.store.last_part(unit) {
            Some(part) => part,
            None => unreachable!("the unit keeps one"),
        }
    }

    /// Does the stage that comes before the last before-image of a unit, and enters that an interval was
    /// split in two, or that the part took an area, where it was (`Again`). A fault of a read refuses the
    /// request, and one of a write stops the volume.
    fn stage_back(
        &mut self,
        unit: Unit,
        line: u32,
        request: SharedRequest,
        length: u32,
        after: u64,
    ) -> Act
        requires whole { IsWhole B.seen self.old }
        requires going { self.old.file.stopped ≡ None }
        requires room { 1 < self.old.file.room }
        requires last { last_stamp 0 self.old.file.entries < 2 ^ 64 - 2 }
        requires after { after < 2 ^ 64 - 2 }
        requires some { last_of_unit self.old.store unit ≢ None }
        requires length { OnLast self.old.store unit (λ last.
            IfSome (shape_among self.old.store.parts last.part) (λ shape.
            IsLengthOf shape length)) }
        requires due { IsTrue B.tells
            → IsDueAtLast self.old.store (B.seen self.old.blocks).cur unit length }
        requires request { request ≡ Backout }
        requires holds { IsTrue B.tells → Holds B.seen self.old }
        ensures held { IsTrue B.tells → (opening : State) → IsHeld B.seen opening self.old
            → IsEnding opening self.old.file unit request → IsHeld B.seen opening self.new }
        ensures whole { IsWhole B.seen self.new }
        ensures acted { IsActed (B.faults self.old.blocks) (B.faults self.new.blocks) result after
            unit line request self.old.file self.new.file }
        ensures moments { IsTrue B.tells → (opening : State) → IsHeld B.seen opening self.old
            → Guards (B.seen self.old.blocks) (B.seen self.new.blocks)
            (RecoversTo self.old.store.log.geometry self.old.number
            (state_now opening self.old.file) []) }
        ensures nearer { IsTrue B.tells → IsNearer result unit self.old self.new }
        ensures splits { IsTrue B.tells → EntersSplits self.old self.new }
        ensures number { self.new.number ≡ self.old.number }
        ensures log { self.new.store.log ≡ self.old.store.log }
    {
        let part = self.last_of(unit);
        let least = self.store.least_free();
        let free = self.store.free_areas();
        match self.store.advance_last(&mut self.blocks, unit, length) {
            Ok(split) => {
                let taken = area_taken(least, free, self.store.free_areas());
                self.enter_stage(unit, line, part, split.is_some(), taken, after);
                Act::Again(request)
            }
            Err(DeviceFault::Read) => {
                self.refuse_read(unit, line, request, after);
                Act::Done
            }
            Err(DeviceFault::Write) => {
                self.stop(unit, line, request, after);
                Act::Done
            }
        }
    }

    /// Enters that the last before-image that a unit kept was put back, for the BACKOUT on this line. It
    /// takes no memory.
    fn enter_undone(&mut self, unit: Unit, line: u32, before: Before, after: u64)
        requires room { 0 < self.old.file.room }
        requires last { last_stamp 0 self.old.file.entries < 2 ^ 64 - 2 }
        requires after { after < 2 ^ 64 - 2 }
        ensures leaves { self.new.file ≡ with_event after unit line
            (whats.Undone before.part before.place) self.old.file }
        ensures state { (opening : State) → IsStateOf opening self.old.file
            → self.old.file.stopped ≡ None
            → IsLastKept (state_now opening self.old.file) unit before.part.0 before.place
            → IsStateOf opening self.new.file }
        ensures blocks { self.new.blocks ≡ self.old.blocks }
        ensures store { self.new.store ≡ self.old.store }
        ensures volume { self.new.number ≡ self.old.number }
    {
        self.file
            .undone(unit, line, before.part, before.place, after);
    }

    /// Puts back the last before-image that a unit keeps, and enters that (`Again`). Room was asked
    /// for at its place, and no stage of a split is left there. A fault of a write stops the volume.
    fn put_back(&mut self, unit: Unit, line: u32, request: SharedRequest, after: u64) -> Act
        requires whole { IsWhole B.seen self.old }
        requires going { self.old.file.stopped ≡ None }
        requires room { 1 < self.old.file.room }
        requires last { last_stamp 0 self.old.file.entries < 2 ^ 64 - 2 }
        requires after { after < 2 ^ 64 - 2 }
        requires some { last_of_unit self.old.store unit ≢ None }
        requires met { OnLast self.old.store unit (λ last.
            IfSome (part_among self.old.store.parts last.part)
            (λ part. HasMet part.known last.place)) }
        requires no_stage { IsTrue B.tells → OnLast self.old.store unit (λ last.
            HasNoStage self.old.store (B.seen self.old.blocks).cur last.part last.place) }
        requires request { request ≡ Backout }
        requires holds { IsTrue B.tells → Holds B.seen self.old }
        ensures held { IsTrue B.tells → (opening : State) → IsHeld B.seen opening self.old
            → IsEnding opening self.old.file unit request → IsHeld B.seen opening self.new }
        ensures whole { IsWhole B.seen self.new }
        ensures acted { IsActed (B.faults self.old.blocks) (B.faults self.new.blocks) result after
            unit line request self.old.file self.new.file }
        ensures moments { IsTrue B.tells → (opening : State) → IsHeld B.seen opening self.old
            → IsEnding opening self.old.file unit request
            → Guards (B.seen self.old.blocks) (B.seen self.new.blocks)
            (RecoversTo self.old.store.log.geometry self.old.number
            (state_now opening self.old.file) []) }
        ensures nearer { IsTrue B.tells → IsNearer result unit self.old self.new }
        ensures splits { IsTrue B.tells → EntersSplits self.old self.new }
        ensures number { self.new.number ≡ self.old.number }
        ensures log { self.new.store.log ≡ self.old.store.log }
    {
        match self.store.put_last(&mut self.blocks, unit) {
            Ok(before) => {
                self.enter_undone(unit, line, before, after);
                Act::Again(request)
            }
            Err(_) => {
                self.stop(unit, line, request, after);
                Act::Done
            }
        }
    }

    /// One step of what a BACKOUT puts back, of a unit that keeps a before-image.
    fn undo_one(&mut self, unit: Unit, line: u32, request: SharedRequest, after: u64) -> Act
        requires whole { IsWhole B.seen self.old }
        requires going { self.old.file.stopped ≡ None }
        requires room { 1 < self.old.file.room }
        requires last { last_stamp 0 self.old.file.entries < 2 ^ 64 - 2 }
        requires after { after < 2 ^ 64 - 2 }
        requires some { last_of_unit self.old.store unit ≢ None }
        requires request { request ≡ Backout }
        requires holds { IsTrue B.tells → Holds B.seen self.old }
        ensures held { IsTrue B.tells → (opening : State) → IsHeld B.seen opening self.old
            → IsEnding opening self.old.file unit request → IsHeld B.seen opening self.new }
        ensures whole { IsWhole B.seen self.new }
        ensures acted { IsActed (B.faults self.old.blocks) (B.faults self.new.blocks) result after
            unit line request self.old.file self.new.file }
        ensures moments { IsTrue B.tells → (opening : State) → IsHeld B.seen opening self.old
            → IsEnding opening self.old.file unit request
            → Guards (B.seen self.old.blocks) (B.seen self.new.blocks)
            (RecoversTo self.old.store.log.geometry self.old.number
            (state_now opening self.old.file) []) }
        ensures nearer { IsTrue B.tells → IsNearer result unit self.old self.new }
        ensures splits { IsTrue B.tells → EntersSplits self.old self.new }
        ensures number { self.new.number ≡ self.old.number }
        ensures log { self.new.store.log ≡ self.old.store.log }
    {
        let length = self.last_length(unit);
        match self.meet_back(unit, length) {
            Ok(true) => self.stage_back(unit, line, request, length, after),
            Ok(false) => self.put_back(unit, line, request, after),
            Err(DeviceFault::Read) => {
                self.refuse_read(unit, line, request, after);
                Act::Done
            }
            Err(DeviceFault::Write) => {
                self.stop(unit, line, request, after);
                Act::Done
            }
        }
    }

    /// One step of a BACKOUT that [`Volume::refused_early`] doesn't refuse, on a volume that has not
    /// stopped: the last before-image that its unit keeps is put back, or a stage of a split that
    /// stands in its way is done (`Again`); or once it keeps none, the blocks that it changed are
    /// forced (`Again`); or once they are, its end is logged as backed out and forced, and the
    /// BACKOUT is entered (`Done`). A fault of a read refuses it (`ReadFault`), and one of a write
    /// stops the volume. It takes no memory: there is room for two events, and the deck was entered.
    pub fn back_out(&mut self, unit: Unit, line: u32, request: SharedRequest, after: u64) -> Act
        requires whole { IsWhole B.seen self.old }
        requires going { self.old.file.stopped ≡ None }
        requires room { 1 < self.old.file.room }
        requires last { last_stamp 0 self.old.file.entries < 2 ^ 64 - 2 }
        requires after { after < 2 ^ 64 - 2 }
        requires deck { has_deck unit.deck self.old.file.numbers ≡ true }
        requires number { number_of self.old.file.numbers unit.deck < 2 ^ 32 - 1 }
        requires generation { self.old.store.log.generation + 1 < 2 ^ 63 }
        requires request { request ≡ Backout }
        requires holds { IsTrue B.tells → Holds B.seen self.old }
        ensures held { IsTrue B.tells → (opening : State) → IsHeld B.seen opening self.old
            → IsEnding opening self.old.file unit request → IsHeld B.seen opening self.new }
        ensures whole { IsWhole B.seen self.new }
        ensures acted { IsActed (B.faults self.old.blocks) (B.faults self.new.blocks) result after
            unit line request self.old.file self.new.file }
        // At every moment, whether it fails or not: what was committed.
        ensures moments { IsTrue B.tells → (opening : State) → IsHeld B.seen opening self.old
            → IsEnding opening self.old.file unit request
            → Guards (B.seen self.old.blocks) (B.seen self.new.blocks)
            (RecoversTo self.old.store.log.geometry self.old.number
            (state_now opening self.old.file) []) }
        // Asked again it waits for less, and a split is entered as it is done.
        ensures nearer { IsTrue B.tells → IsNearer result unit self.old self.new }
        ensures splits { IsTrue B.tells → EntersSplits self.old self.new }
        ensures number { self.new.number ≡ self.old.number }
        ensures generation { self.new.file.stopped ≡ None
            → self.new.store.log.generation ≤ self.old.store.log.generation + 1 }
    {
        if self.store.keeps(unit) {
            self.undo_one(unit, line, request, after)
        } else {
            self.end_step(unit, line, request, EndKind::BackedOut, after)
        }
    }
}
