//! The places of the records that an edit of the catalog changes: room is asked for at each before
//! anything of the edit is done, and what is in the way there answers.
ghost use Rattle.std.specs.Prelude.{◌≡◌, ◌≢◌, ◌⊎◌, ◌<◌, ◌-◌, ◌^◌, All, IsTrue, None, OnOk, Some, [], length};
ghost use Rattle.vr_types.specs.Moments.{Guards};
ghost use Rattle.vr_catalog.specs.declared.entry.CatEntry as entries;
ghost use Rattle.vr_edits.specs.declared.edit.CatalogEdit as edits;
ghost use Rattle.vr_history.specs.Merged.{last_stamp};
ghost use Rattle.vr_history.specs.State.{State};
ghost use Rattle.vr_record_file.specs.Now.{state_now};
ghost use Rattle.vr_volume.specs.Crashes.{RecoversTo};
ghost use Rattle.vr_store.specs.Parts.{HasRoomToMeet};
ghost use Rattle.vr_store.specs.Room.{IsDueAt};
ghost use Rattle.vr_event.specs.CatalogEdit.{EditFaultsBy, EnteredEdit};
ghost use Rattle.vr_event.specs.DefineSteps.{IsStageOrFault};
ghost use Rattle.vr_event.specs.Defining.{HasNoRoomAt, record_length};
ghost use Rattle.vr_event.specs.EditSteps.{AreMetAt, HasMetOnly, HasMetPlace, HasOpened};
ghost use Rattle.vr_event.specs.EditSteps.{HasOpenedHeld, HasOpeningFaults, IsEditStage, IsOpenAt};
ghost use Rattle.vr_event.specs.EditSteps.{IsWithoutSpace, LacksRoomForOne, MayOpen, edit_of};
ghost use Rattle.vr_event.specs.Nearer.{LeavesLess};
ghost use Rattle.vr_event.specs.Volume.{Holds, IsHeld, IsWhole};
ghost use Rattle.vr_event.specs.declared.edit.Edit.TheVariants as answers;

use crate::define::Define;
use crate::defining::CATALOG;
use crate::edit::Edit;
use crate::volume::Volume;
use std::alloc::Global;
use vr_space::{Part, Room};
use vr_types::{Blocks, DeviceFault, OutOfMemory, Place, Unit};
use vr_volume::EntryChange;

/// What a stage of the catalog comes to for an edit.
fn as_edit(staged: Define) -> Edit
    requires { IsStageOrFault staged }
    ensures value { result ≡ edit_of staged }
    ensures is { IsEditStage result }
{
    match staged {
        Define::Again => Edit::Again,
        Define::Fault(fault) => Edit::Fault(fault),
        _ => unreachable!("it is a stage or a fault"),
    }
}

/// What an edit comes to where the catalog has no space for a record that is as long as all are: one
/// that stands at the place has room there, and one that is added has none.
fn without_space(change: &EntryChange) -> Option<Edit>
    ensures { IsWithoutSpace change.now.before result }
{
    match change.before {
        Some(_) => None,
        None => Some(Edit::NoRoom),
    }
}

impl<B: Blocks, P: Part> Volume<B, P> {
    /// Does the stage of the catalog that comes before an edit, and enters it. A fault of a write
    /// stops the volume.
    fn stage_edit(&mut self, unit: Unit, line: u32, place: &Place, after: u64) -> Edit
        requires whole { IsWhole B.seen self.old }
        requires going { self.old.file.stopped ≡ None }
        requires room { 0 < self.old.file.room }
        requires last { last_stamp 0 self.old.file.entries < 2 ^ 64 - 2 }
        requires after { after < 2 ^ 64 - 2 }
        requires place { length place.now ≡ 44 }
        requires due { IsTrue B.tells → IsDueAt self.old.store (B.seen self.old.blocks).cur 0
            place.now record_length }
        requires holds { IsTrue B.tells → Holds B.seen self.old }
        ensures held { IsTrue B.tells → (opening : State) → IsHeld B.seen opening self.old
            → IsHeld B.seen opening self.new }
        ensures whole { IsWhole B.seen self.new }
        ensures entered { (entry : entries.CatEntry) (edit : edits.CatalogEdit)
            → EnteredEdit result self.old.number after unit line edit self.old.file self.new.file }
        ensures moments { IsTrue B.tells → (opening : State) → IsHeld B.seen opening self.old
            → Guards (B.seen self.old.blocks) (B.seen self.new.blocks)
            (RecoversTo self.old.store.log.geometry self.old.number
            (state_now opening self.old.file) []) }
        ensures is { IsEditStage result }
        ensures less { IsTrue B.tells → LeavesLess (result ≡ answers.Again) self.old self.new }
        ensures cause { EditFaultsBy result (B.faults self.old.blocks)
            (B.faults self.new.blocks) }
        ensures number { self.new.number ≡ self.old.number }
        ensures generation { self.new.store.log.generation ≡ self.old.store.log.generation }
    {
        let staged = self.stage_entry(unit, line, place, after);
        as_edit(staged)
    }

    /// Enters that the device failed as the catalog was asked for room. A fault of a write stops the
    /// volume.
    fn enter_unasked(&mut self, unit: Unit, line: u32, fault: DeviceFault, after: u64) -> Edit
        requires room { 0 < self.old.file.room }
        requires last { last_stamp 0 self.old.file.entries < 2 ^ 64 - 2 }
        requires after { after < 2 ^ 64 - 2 }
        requires going { self.old.file.stopped ≡ None }
        requires whole { IsWhole B.seen self.old }
        ensures is { result ≡ answers.Fault fault }
        ensures whole { IsWhole B.seen self.new }
        ensures entered { (entry : entries.CatEntry) (edit : edits.CatalogEdit)
            → EnteredEdit result self.old.number after unit line edit self.old.file self.new.file }
        ensures held { IsTrue B.tells → (opening : State) → IsHeld B.seen opening self.old
            → IsHeld B.seen opening self.new }
        ensures blocks { self.new.blocks ≡ self.old.blocks }
        ensures store { self.new.store ≡ self.old.store }
        ensures number { self.new.number ≡ self.old.number }
        ensures stopped { (self.new.file ≡ self.old.file) ⊎ (self.new.file.stopped ≢ None) }
    {
        match fault {
            DeviceFault::Read => Edit::Fault(DeviceFault::Read),
            DeviceFault::Write => {
                self.enter_fault(unit, line, after);
                Edit::Fault(DeviceFault::Write)
            }
        }
    }

    /// Asks for room at the place of a change, and answers the edit where something is in the way: a
    /// stage of a split comes first, and is done, or a record that is added has no room, or the
    /// device fails. A record that stands has room for one of its length.
    fn open_place(
        &mut self,
        unit: Unit,
        line: u32,
        change: &EntryChange,
        after: u64,
    ) -> Option<Edit>
        requires may { MayOpen B.seen after self.old }
        requires place { length change.now.place ≡ 44 }
        requires holds { IsTrue B.tells → Holds B.seen self.old }
        ensures opened { HasOpened B.seen after unit line result self.old self.new }
        ensures met { result ≡ None → HasMetPlace B.seen change.now.place self.old self.new }
        ensures still { IsTrue B.tells → result ≡ None
            → (B.seen self.new.blocks).cur ≡ (B.seen self.old.blocks).cur }
        ensures open { IsTrue B.tells → result ≡ None
            → IsOpenAt self.new.store (B.seen self.new.blocks).cur change.now }
        ensures no_room { IsTrue B.tells → result ≡ Some answers.NoRoom
            → (change.now.before ≡ None) × HasNoRoomAt self.old.store
            (B.seen self.old.blocks).cur change.now.place }
        ensures cause { HasOpeningFaults result (B.faults self.old.blocks)
            (B.faults self.new.blocks) }
        ensures less { IsTrue B.tells → LeavesLess (result ≡ Some answers.Again) self.old self.new }
        ensures held { IsTrue B.tells → (opening : State) → IsHeld B.seen opening self.old
            → HasOpenedHeld B.seen opening self.old self.new }
    {
        match self.ask_entry(&change.place) {
            Ok(room) => match room {
                Room::Ready => None,
                Room::Stage(_) => Some(self.stage_edit(unit, line, &change.place, after)),
                Room::NoSpace { .. } => without_space(change),
            },
            Err(fault) => Some(self.enter_unasked(unit, line, fault, after)),
        }
    }

    /// Makes room in the catalog for what is met of this many places, none of which is met then. It
    /// fails only if memory runs out. All else stays, whatever the answer.
    pub(crate) fn keep_places(&mut self, alloc: Global, count: usize) -> Result<(), OutOfMemory>
        requires whole { IsWhole B.seen self.old }
        requires going { self.old.file.stopped ≡ None }
        ensures room { OnOk result (HasRoomToMeet 0 count self.new.store.parts) }
        ensures whole { IsWhole B.seen self.new }
        ensures only { HasMetOnly B.seen self.old self.new }
        ensures held { IsTrue B.tells → (opening : State) → IsHeld B.seen opening self.old
            → HasOpenedHeld B.seen opening self.old self.new }
        ensures blocks { self.new.blocks ≡ self.old.blocks }
        ensures number { self.new.number ≡ self.old.number }
    {
        self.store.keep_places(&self.blocks, alloc, CATALOG, count)
    }

    /// Asks for room at the places of the changes of an edit, one after another, of which the catalog
    /// keeps what it meets: the first answer ends it.
    pub(crate) fn open_changes(
        &mut self,
        unit: Unit,
        line: u32,
        changes: &[EntryChange],
        after: u64,
    ) -> Option<Edit>
        requires may { MayOpen B.seen after self.old }
        requires places { All (λ change. length change.place ≡ 44) changes.now }
        requires room { HasRoomToMeet 0 (length changes.now) self.old.store.parts }
        requires holds { IsTrue B.tells → Holds B.seen self.old }
        ensures opened { HasOpened B.seen after unit line result self.old self.new }
        ensures met { result ≡ None → HasMetOnly B.seen self.old self.new
            × AreMetAt self.new.store.parts changes.now }
        ensures open { IsTrue B.tells → result ≡ None
            → All (IsOpenAt self.new.store (B.seen self.new.blocks).cur) changes.now }
        ensures no_room { IsTrue B.tells → result ≡ Some answers.NoRoom
            → LacksRoomForOne changes.now self.old.store (B.seen self.old.blocks).cur }
        ensures cause { HasOpeningFaults result (B.faults self.old.blocks)
            (B.faults self.new.blocks) }
        ensures less { IsTrue B.tells → LeavesLess (result ≡ Some answers.Again) self.old self.new }
        ensures held { IsTrue B.tells → (opening : State) → IsHeld B.seen opening self.old
            → HasOpenedHeld B.seen opening self.old self.new }
    {
        for change in changes {
            if let Some(answer) = self.open_place(unit, line, change, after) {
                return Some(answer);
            }
        }
        None
    }
}
