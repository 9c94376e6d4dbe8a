//! An edit of the catalog, by ALTER, DELETE or a DEFINE of what has no area, as one event of a volume.
ghost use Rattle.std.specs.Prelude.{◌≡◌, ◌≢◌, ◌⊎◌, ◌<◌, ◌≤◌, ◌+◌, ◌-◌, ◌^◌, ℕ, All, IfOk, IfSome};
ghost use Rattle.std.specs.Prelude.{IsTrue, List, None, Ok, Option, Some, [], false, is_some, length};
ghost use Rattle.std.specs.Prelude.{map, true};
ghost use Rattle.std.specs.List.{list_any};
ghost use Rattle.vr_types.specs.LogSpace.{IsLogFull, log_size};
ghost use Rattle.vr_types.specs.Locks.{first_conflict};
ghost use Rattle.vr_types.specs.Moments.{Guards};
ghost use Rattle.vr_types.specs.declared.fault.DeviceFault.TheVariants.{Write};
ghost use Rattle.vr_types.specs.declared.unit.Mode.TheVariants.{Exclusive};
ghost use Rattle.vr_types.specs.declared.unit.Unit as units;
ghost use Rattle.vr_edits.specs.Edits.{MayEdit, goes};
ghost use Rattle.vr_log.specs.Live.{live_in, used_by};
ghost use Rattle.vr_history.specs.Merged.{last_stamp};
ghost use Rattle.vr_history.specs.State.{State};
ghost use Rattle.vr_record_file.specs.CatalogEdit.{MayEditCatalog, RecordChange, catalog_edited, name_of};
ghost use Rattle.vr_record_file.specs.CatalogEdit.{entries_of, failed_to_edit};
ghost use Rattle.vr_record_file.specs.Now.{IsStateOf, has_deck, number_of};
ghost use Rattle.vr_store.specs.Left.{left_for};
ghost use Rattle.vr_store.specs.Parts.{HasRoomToMeet};
ghost use Rattle.vr_store.specs.Store.{shape_among};
ghost use Rattle.vr_event.specs.CatalogEdit.{AreUnlocked, HasEditFaults, changes_of};
ghost use Rattle.vr_event.specs.CatalogEdit.{IsEditEntered, IsKeptOut, IsLeftEditing, entries_needed};
ghost use Rattle.vr_event.specs.CatalogEdit.{LacksRoomWhereEdited, log_for_edit};
ghost use Rattle.vr_event.specs.Defining.{utility_unit};
ghost use Rattle.vr_event.specs.EditSteps.{AreMetAt, HasEditCome, HasEditComeHeld, IsEditReady};
ghost use Rattle.vr_event.specs.EditSteps.{IsOpenAt, MayEditNow};
ghost use Rattle.vr_event.specs.Nearer.{EntersSplits, LeavesLess};
ghost use Rattle.vr_event.specs.PreparedEdit.{IsPreparedEdit};
ghost use Rattle.vr_event.specs.Volume.{Holds, IsHeld, IsWhole};
ghost use Rattle.vr_event.specs.declared.edit.Edit.TheVariants as answers;

use crate::edit::Edit;
use crate::prepared_edit::{PreparedEdit, prepare_edit};
use crate::volume::Volume;
use std::alloc::Global;
use vr_edits::CatalogEdit;
use vr_record_file::RecordFile;
use vr_space::Part;
use vr_start::Start;
use vr_store::DefineNo;
use vr_types::{Blocks, DeviceFault, Geometry, LockName, Mode, OutOfMemory, Unit};

/// How many records of the catalog an edit changes.
fn change_count(edit: &CatalogEdit) -> usize
    ensures { result ≡ length (changes_of edit.now) }
{
    match edit {
        CatalogEdit::Alter { .. } | CatalogEdit::Add(_) => 1,
        CatalogEdit::Rename { .. } => 2,
        CatalogEdit::Delete(gone) => gone.len(),
    }
}

/// The most entries that one event of an edit adds to the history: two for each record that it
/// changes, one for the end of its unit, and one for the fault of a write.
pub fn entries_to_edit(edit: &CatalogEdit) -> usize
    requires few { length (changes_of edit.now) < 65536 }
    ensures { result ≡ entries_needed edit.now }
{
    2 * change_count(edit) + 2
}

/// The bytes of the log that an edit takes: the before-image of each record, which are 204 bytes at a
/// place of 44, and the end of its unit.
fn log_need(edit: &CatalogEdit) -> u64
    requires few { length (changes_of edit.now) < 65536 }
    ensures { result ≡ log_for_edit edit.now }
{
    match edit {
        CatalogEdit::Alter { .. } => 268 + 9,
        CatalogEdit::Rename { .. } => 268 + 64 + 9,
        CatalogEdit::Delete(gone) => 268 * gone.len() as u64 + 9,
        CatalogEdit::Add(_) => 64 + 9,
    }
}

/// Whether the log has room, beside what is in use of it, for these bytes.
fn log_holds(geometry: Geometry, used: u64, need: u64) -> bool
    ensures yes { IsTrue result → used + need ≤ log_size geometry }
    ensures no { result ≡ false → IsLogFull geometry used need }
{
    let size = geometry.log as u64 * geometry.size.saturating_sub(16) as u64;
    used <= size && need <= size - used
}

/// Whether a lock of another unit is on one of these.
fn is_one_locked(file: &RecordFile, unit: Unit, names: &[LockName]) -> bool
    ensures { result
        ≡ list_any (λ name. is_some (first_conflict file.now.locks unit Exclusive name)) names.now }
{
    names
        .iter()
        .any(|name| file.is_in_the_way(unit, name, Mode::Exclusive))
}

impl<B: Blocks, P: Part> Volume<B, P> {
    /// What in memory is in the way of an edit: a lock of a unit of a deck on the place of one of its
    /// records, or the log.
    fn edit_hindrance(&self, unit: Unit, edit: &CatalogEdit, names: &[LockName]) -> Option<Edit>
        requires whole { IsWhole B.seen self.now }
        requires going { self.now.file.stopped ≡ None }
        requires few { length (changes_of edit.now) < 65536 }
        requires names { names.now ≡ map name_of (changes_of edit.now) }
        ensures is { IfSome result (λ answer. (answer ≡ answers.Held) ⊎ (answer ≡ answers.Full)) }
        ensures kept_out { IfSome result (λ answer. answer ≡ answers.Held
            → IsKeptOut self.now.file unit edit.now) }
        ensures full { IfSome result (λ answer. answer ≡ answers.Full
            → IsLogFull self.now.store.log.geometry (used_by self.now.store.log.records)
            (log_for_edit edit.now)) }
        ensures unlocked { result ≡ None
            → AreUnlocked self.now.file unit (changes_of edit.now) }
        ensures room { result ≡ None → used_by self.now.store.log.records + log_for_edit edit.now
            ≤ log_size self.now.file.geometry }
    {
        if is_one_locked(&self.file, unit, names) {
            return Some(Edit::Held);
        }
        if log_holds(self.file.geometry(), self.store.used(), log_need(edit)) {
            None
        } else {
            Some(Edit::Full)
        }
    }

    /// Enters an edit that the store has made. It takes no memory.
    fn enter_edited(&mut self, unit: Unit, line: u32, prepared: PreparedEdit, after: u64) -> Edit
        requires room { entries_of prepared.steps.items + 1 ≤ self.old.file.room }
        requires last { last_stamp 0 self.old.file.entries + entries_of prepared.steps.items + 2
            < 2 ^ 64 }
        requires after { after + entries_of prepared.steps.items + 2 < 2 ^ 64 }
        requires deck { has_deck unit.deck self.old.file.numbers ≡ true }
        requires number { number_of self.old.file.numbers unit.deck < 2 ^ 32 - 1 }
        ensures done { result ≡ answers.Done }
        ensures leaves { self.new.file ≡ catalog_edited after unit line prepared.steps.items
            prepared.commit prepared.catalog self.old.file }
        ensures state { (opening : State) (changes : List RecordChange)
            → IsStateOf opening self.old.file
            → MayEditCatalog opening self.old.file unit prepared.steps.items changes
            prepared.commit prepared.catalog → IsStateOf opening self.new.file }
        ensures blocks { self.new.blocks ≡ self.old.blocks }
        ensures store { self.new.store ≡ self.old.store }
        ensures volume { self.new.number ≡ self.old.number }
    {
        let PreparedEdit {
            steps,
            commit,
            catalog,
            ..
        } = prepared;
        self.file
            .edit_catalog(unit, line, steps, commit, catalog, after);
        Edit::Done
    }

    /// Enters an edit in which a write failed, which stops the volume. It takes no memory.
    fn enter_edit_in_doubt(
        &mut self,
        unit: Unit,
        line: u32,
        prepared: PreparedEdit,
        after: u64,
    ) -> Edit
        requires room { entries_of prepared.steps.items + 2 ≤ self.old.file.room }
        requires last { last_stamp 0 self.old.file.entries + entries_of prepared.steps.items + 2
            < 2 ^ 64 }
        requires after { after + entries_of prepared.steps.items + 2 < 2 ^ 64 }
        requires going { self.old.file.stopped ≡ None }
        ensures fault { result ≡ answers.Fault Write }
        ensures leaves { self.new.file ≡ failed_to_edit after unit line prepared.steps.items
            prepared.commit prepared.catalog self.old.file }
        ensures state { (opening : State) (changes : List RecordChange)
            → IsStateOf opening self.old.file
            → MayEditCatalog opening self.old.file unit prepared.steps.items changes
            prepared.commit prepared.catalog → IsStateOf opening self.new.file }
        ensures blocks { self.new.blocks ≡ self.old.blocks }
        ensures store { self.new.store ≡ self.old.store }
        ensures volume { self.new.number ≡ self.old.number }
    {
        let PreparedEdit {
            steps,
            commit,
            catalog,
            ..
        } = prepared;
        self.file
            .fail_catalog_edit(unit, line, steps, commit, catalog, after);
        Edit::Fault(DeviceFault::Write)
    }
}

impl<B: Blocks, P: Start + Drop> Volume<B, P> {
    /// Makes an edit whose places were met: its records are changed, a part that goes is no longer
    /// laid, and its unit is committed, all in the store; then that is entered. A fault of a write
    /// stops the volume.
    fn make_edit(
        &mut self,
        alloc: Global,
        unit: Unit,
        line: u32,
        edit: &CatalogEdit,
        prepared: PreparedEdit,
        after: u64,
    ) -> Result<Edit, OutOfMemory>
        requires ready { IsEditReady B.seen after unit edit.now prepared self.old }
        requires met { AreMetAt self.old.store.parts prepared.changes.items }
        requires open { IsTrue B.tells → All (IsOpenAt self.old.store
            (B.seen self.old.blocks).cur) prepared.changes.items }
        requires holds { IsTrue B.tells → Holds B.seen self.old }
        ensures come { HasEditCome B.seen after unit line edit.now result self.old self.new }
        ensures room { IfOk result (λ answer. answer ≢ answers.NoRoom) }
        ensures cause { HasEditFaults (B.faults self.old.blocks) (B.faults self.new.blocks)
            result }
        ensures less { IsTrue B.tells → LeavesLess (result ≡ Ok answers.Again) self.old self.new }
        ensures held { IsTrue B.tells → (opening : State) → IsHeld B.seen opening self.old
            → HasEditComeHeld B.seen opening after unit line edit.now self.old self.new }
    {
        let done = self.store.change_entries(
            alloc,
            &mut self.blocks,
            unit,
            prepared.changes.as_slice(),
            prepared.gone,
        );
        match done {
            Ok(()) => Ok(self.enter_edited(unit, line, prepared, after)),
            Err(why) => match why {
                // The store reads nothing: it is of a write.
                DefineNo::Fault(_) => Ok(self.enter_edit_in_doubt(unit, line, prepared, after)),
                DefineNo::Memory => {
                    drop(prepared);
                    Err(OutOfMemory)
                }
                DefineNo::Full => unreachable!("the log has room for it"),
            },
        }
    }

    /// Meets the places of an edit, of which the catalog keeps what it meets, and goes on by what is
    /// there.
    fn edit_met(
        &mut self,
        alloc: Global,
        unit: Unit,
        line: u32,
        edit: &CatalogEdit,
        prepared: PreparedEdit,
        after: u64,
    ) -> Result<Edit, OutOfMemory>
        requires ready { IsEditReady B.seen after unit edit.now prepared self.old }
        requires room { HasRoomToMeet 0 (length prepared.changes.items) self.old.store.parts }
        requires holds { IsTrue B.tells → Holds B.seen self.old }
        ensures come { HasEditCome B.seen after unit line edit.now result self.old self.new }
        ensures no_room { IsTrue B.tells → LacksRoomWhereEdited B.seen edit.now result self.old }
        ensures cause { HasEditFaults (B.faults self.old.blocks) (B.faults self.new.blocks)
            result }
        ensures less { IsTrue B.tells → LeavesLess (result ≡ Ok answers.Again) self.old self.new }
        ensures held { IsTrue B.tells → (opening : State) → IsHeld B.seen opening self.old
            → HasEditComeHeld B.seen opening after unit line edit.now self.old self.new }
    {
        match self.open_changes(unit, line, prepared.changes.as_slice(), after) {
            Some(answer) => {
                drop(prepared);
                Ok(answer)
            }
            None => self.make_edit(alloc, unit, line, edit, prepared, after),
        }
    }

    /// Goes on with an edit that nothing in memory hinders, once the catalog has room for what it
    /// meets.
    fn edit_asked(
        &mut self,
        alloc: Global,
        unit: Unit,
        line: u32,
        edit: &CatalogEdit,
        prepared: PreparedEdit,
        after: u64,
    ) -> Result<Edit, OutOfMemory>
        requires ready { IsEditReady B.seen after unit edit.now prepared self.old }
        requires holds { IsTrue B.tells → Holds B.seen self.old }
        ensures come { HasEditCome B.seen after unit line edit.now result self.old self.new }
        ensures no_room { IsTrue B.tells → LacksRoomWhereEdited B.seen edit.now result self.old }
        ensures cause { HasEditFaults (B.faults self.old.blocks) (B.faults self.new.blocks)
            result }
        ensures less { IsTrue B.tells → LeavesLess (result ≡ Ok answers.Again) self.old self.new }
        ensures held { IsTrue B.tells → (opening : State) → IsHeld B.seen opening self.old
            → HasEditComeHeld B.seen opening after unit line edit.now self.old self.new }
    {
        match self.keep_places(alloc, prepared.changes.len()) {
            Ok(()) => self.edit_met(alloc, unit, line, edit, prepared, after),
            Err(no) => {
                drop(prepared);
                Err(no)
            }
        }
    }

    /// Goes on with an edit for which all memory was taken.
    fn edit_prepared(
        &mut self,
        alloc: Global,
        line: u32,
        edit: &CatalogEdit,
        prepared: PreparedEdit,
        after: u64,
    ) -> Result<Edit, OutOfMemory>
        requires may { MayEditNow B.seen after edit.now self.old }
        requires idle { live_in self.old.store.log.records ≡ [] }
        requires prepared { IsPreparedEdit self.old.number self.old.file.catalog edit.now
            prepared }
        requires holds { IsTrue B.tells → Holds B.seen self.old }
        ensures come { HasEditCome B.seen after (utility_unit self.old.file) line edit.now result
            self.old self.new }
        ensures no_room { IsTrue B.tells → LacksRoomWhereEdited B.seen edit.now result self.old }
        ensures cause { HasEditFaults (B.faults self.old.blocks) (B.faults self.new.blocks)
            result }
        ensures less { IsTrue B.tells → LeavesLess (result ≡ Ok answers.Again) self.old self.new }
        ensures held { IsTrue B.tells → (opening : State) → IsHeld B.seen opening self.old
            → HasEditComeHeld B.seen opening after (utility_unit self.old.file) line edit.now
            self.old self.new }
    {
        let unit = Unit {
            deck: 0,
            number: self.file.number(0),
        };
        match self.edit_hindrance(unit, edit, prepared.names.as_slice()) {
            Some(no) => {
                drop(prepared);
                Ok(no)
            }
            None => self.edit_asked(alloc, unit, line, edit, prepared, after),
        }
    }

    /// Goes on with an edit where no unit of recovery is live.
    fn edit_unless_live(
        &mut self,
        alloc: Global,
        line: u32,
        edit: &CatalogEdit,
        after: u64,
    ) -> Result<Edit, OutOfMemory>
        requires may { MayEditNow B.seen after edit.now self.old }
        requires holds { IsTrue B.tells → Holds B.seen self.old }
        ensures come { HasEditCome B.seen after (utility_unit self.old.file) line edit.now result
            self.old self.new }
        ensures no_room { IsTrue B.tells → LacksRoomWhereEdited B.seen edit.now result self.old }
        ensures live { live_in self.old.store.log.records ≢ [] → result ≡ Ok answers.Live }
        ensures cause { HasEditFaults (B.faults self.old.blocks) (B.faults self.new.blocks)
            result }
        ensures less { IsTrue B.tells → LeavesLess (result ≡ Ok answers.Again) self.old self.new }
        ensures held { IsTrue B.tells → (opening : State) → IsHeld B.seen opening self.old
            → HasEditComeHeld B.seen opening after (utility_unit self.old.file) line edit.now
            self.old self.new }
    {
        if self.store.is_idle() {
            let prepared = prepare_edit(alloc, self.number, self.file.catalog(), edit)?;
            self.edit_prepared(alloc, line, edit, prepared, after)
        } else {
            Ok(Edit::Live)
        }
    }

    /// One event of an edit of the catalog on a volume that has not stopped (Access Method Services
    /// Commands, ALTER, DELETE, DEFINE ALTERNATEINDEX and DEFINE PATH). The records of its entries
    /// are replaced, erased or added, with a cluster that is deleted goes its part, whose areas are
    /// free then, and the unit of the utilities that did it is committed, all in this event
    /// (`Done`). `Live`: a unit of recovery is live on the volume, which comes before any other
    /// answer. `Held`: a lock of a unit of a deck is on one of its places. `Full`: the log is too
    /// small. Where a stage of a split of the catalog comes first, that is done (`Again`).
    /// `NoRoom`: the catalog has no room for the record that is added. A fault of a read, and all of
    /// these and `OutOfMemory`, leave the volume as it was; a fault of a write stops it. All memory
    /// is taken before anything is logged. There is room for the entries that it may
    /// add, and deck 0 was entered.
    pub fn edit_catalog(
        &mut self,
        alloc: Global,
        line: u32,
        edit: &CatalogEdit,
        after: u64,
    ) -> Result<Edit, OutOfMemory>
        requires whole { IsWhole B.seen self.old }
        requires going { self.old.file.stopped ≡ None }
        requires room { entries_needed edit.now ≤ self.old.file.room }
        requires last { last_stamp 0 self.old.file.entries < 2 ^ 63 }
        requires after { after < 2 ^ 63 }
        requires deck { has_deck 0 self.old.file.numbers ≡ true }
        requires number { number_of self.old.file.numbers 0 < 2 ^ 32 - 1 }
        requires generation { self.old.store.log.generation + 1 < 2 ^ 63 }
        requires edit { MayEdit self.old.file.geometry self.old.file.catalog edit.now }
        requires holds { IsTrue B.tells → Holds B.seen self.old }
        ensures held { IsTrue B.tells → (opening : State) → IsHeld B.seen opening self.old
            → IsHeld B.seen opening self.new }
        ensures whole { IsWhole B.seen self.new }
        ensures entered { IsEditEntered result self.old.number after (utility_unit self.old.file)
            line edit.now self.old.file self.new.file }
        // At every moment, whether it fails or not: what was committed before, or what is after it.
        ensures moments { IsTrue B.tells → (opening : State) → IsHeld B.seen opening self.old
            → Guards (B.seen self.old.blocks) (B.seen self.new.blocks)
            (IsLeftEditing self.old.store.log.geometry self.old.number opening after
            (utility_unit self.old.file) line edit.now self.old.file self.new.file) }
        // Once it is done, the part that goes isn't laid.
        ensures parts { IfOk result (λ answer. answer ≡ answers.Done → (part : ℕ)
            → goes edit.now part ≡ true → shape_among self.new.store.parts part ≡ None) }
        // It is refused where a unit of recovery is live, and for that there alone.
        ensures live { live_in self.old.store.log.records ≢ [] → result ≡ Ok answers.Live }
        ensures idle { IfOk result (λ answer. answer ≡ answers.Live
            → live_in self.old.store.log.records ≢ []) }
        ensures kept_out { IfOk result (λ answer. answer ≡ answers.Held
            → IsKeptOut self.old.file (utility_unit self.old.file) edit.now) }
        ensures full { IfOk result (λ answer. answer ≡ answers.Full
            → IsLogFull self.old.store.log.geometry (used_by self.old.store.log.records)
            (log_for_edit edit.now)) }
        ensures no_room { IsTrue B.tells → LacksRoomWhereEdited B.seen edit.now result self.old }
        ensures cause { HasEditFaults (B.faults self.old.blocks) (B.faults self.new.blocks)
            result }
        // No fault is hidden: where the volume didn't stop no write or sync failed.
        ensures quiet { self.new.file.stopped ≡ self.old.file.stopped
            → (B.faults self.new.blocks).writes ≡ (B.faults self.old.blocks).writes }
        // What is to be asked again leaves each unit fewer steps to wait for.
        ensures nearer { IsTrue B.tells → result ≡ Ok answers.Again → (unit : units.Unit)
            → left_for unit self.new.store < left_for unit self.old.store }
        // Splits are entered as they are done.
        ensures splits { IsTrue B.tells → EntersSplits self.old self.new }
        ensures number { self.new.number ≡ self.old.number }
        ensures generation { self.new.file.stopped ≡ None
            → self.new.store.log.generation ≤ self.old.store.log.generation + 1 }
    {
        self.edit_unless_live(alloc, line, edit, after)
    }
}
