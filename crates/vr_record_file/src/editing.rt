//! Edits of the catalog.
ghost use Rattle.std.specs.Prelude.{◌≡◌, ℕ, ◌+◌, ◌-◌, ◌<◌, ◌≤◌, ◌^◌, List, None, true};
ghost use Rattle.vr_history.specs.Merged.{last_stamp};
ghost use Rattle.vr_history.specs.State.{State};
ghost use Rattle.std.specs.Prelude.{Some};
ghost use Rattle.vr_types.specs.declared.reply.Reply.TheVariants.{Done};
ghost use Rattle.vr_record_file.specs.CatalogEdit.{MayEditCatalog, RecordChange, catalog_edited};
ghost use Rattle.vr_record_file.specs.CatalogEdit.{entries_of, entries_of_step, failed_to_edit};
ghost use Rattle.vr_record_file.specs.CatalogEdit.{records_made, step_made, steps_made};
ghost use Rattle.vr_record_file.specs.Now.{IsStateOf, has_deck, next_stamp, number_of};

use crate::entry_step::EntryStep;
use crate::file::RecordFile;
use vr_catalog::Catalog;
use vr_types::{Bytes, Items, Place, Reply, SharedRequest, Unit};

/// The reply to a request that was done at a place, with the record that a read shows.
fn done_at(place: Place, bytes: Option<Bytes>) -> Reply
    ensures { result ≡ Done 0 (Some place) bytes }
{
    Reply::Done {
        feedback: 0,
        place: Some(place),
        bytes,
    }
}

impl RecordFile {
    /// Enters what was done with one record.
    fn enter_step(&mut self, unit: Unit, line: u32, step: EntryStep, after: u64)
        requires room { entries_of_step step ≤ self.old.room }
        requires last { last_stamp 0 self.old.entries + entries_of_step step < 2 ^ 64 }
        requires after { after + entries_of_step step < 2 ^ 64 }
        ensures leaves { self.new ≡ step_made after unit line step self.old }
        ensures last { last_stamp 0 self.new.entries + 1
            ≡ next_stamp self.old.entries after + entries_of_step step }
    {
        match step {
            EntryStep::Change {
                get,
                change,
                got,
                changed,
                shown,
            } => {
                self.enter_asked(unit, line, get, done_at(got, Some(shown)), after);
                self.enter_asked(unit, line, change, done_at(changed, None), 0);
            }
            EntryStep::Add { add, added } => {
                self.enter_asked(unit, line, add, done_at(added, None), after);
            }
        }
    }

    /// Enters what was done with each record, after which the catalog is this one. Its unit hasn't
    /// ended.
    fn enter_steps(
        &mut self,
        unit: Unit,
        line: u32,
        steps: Vec<EntryStep>,
        catalog: Catalog,
        after: u64,
    )
        requires room { entries_of steps.items ≤ self.old.room }
        requires last { last_stamp 0 self.old.entries + entries_of steps.items + 2 < 2 ^ 64 }
        requires after { after + entries_of steps.items + 2 < 2 ^ 64 }
        ensures leaves { self.new
            ≡ records_made after unit line steps.items catalog self.old }
        ensures last { last_stamp 0 self.new.entries + 2 < 2 ^ 64 }
    {
        let mut left = Items::from_vec(steps);
        let mut above = after;
        while !left.is_empty() {
            let step = left.remove(0);
            self.enter_step(unit, line, step, above);
            above = 0;
        }
        self.take_catalog(catalog);
    }

    /// Enters that a unit of the utilities edited the catalog: what it did with each record, in
    /// order, and that it was committed, all on this line. This is the catalog in memory from now
    /// on; no lock of the unit is left, its deck's files hold nothing, and its deck's number rises
    /// (`leaves`). It takes no memory.
    pub fn edit_catalog(
        &mut self,
        unit: Unit,
        line: u32,
        steps: Vec<EntryStep>,
        commit: SharedRequest,
        catalog: Catalog,
        after: u64,
    )
        requires room { entries_of steps.items + 1 ≤ self.old.room }
        requires last { last_stamp 0 self.old.entries + entries_of steps.items + 2 < 2 ^ 64 }
        requires after { after + entries_of steps.items + 2 < 2 ^ 64 }
        requires deck { has_deck unit.deck self.old.numbers ≡ true }
        requires number { number_of self.old.numbers unit.deck < 2 ^ 32 - 1 }
        ensures leaves { self.new
            ≡ catalog_edited after unit line steps.items commit catalog self.old }
        ensures state { (opening : State) (changes : List RecordChange)
            → IsStateOf opening self.old
            → MayEditCatalog opening self.old unit steps.items changes commit catalog
            → IsStateOf opening self.new }
    {
        self.enter_steps(unit, line, steps, catalog, after);
        self.end_unit(unit, line, commit, 0);
    }

    /// Enters that a fault of a write met an edit of the catalog: what was done with each record as
    /// in `edit_catalog`, the COMMIT, which the fault refused, and the fault, which stops the volume
    /// (`leaves`). The commit may be on the device, so the unit is in doubt, and its before-images
    /// of the catalog stay. It takes no memory.
    pub fn fail_catalog_edit(
        &mut self,
        unit: Unit,
        line: u32,
        steps: Vec<EntryStep>,
        commit: SharedRequest,
        catalog: Catalog,
        after: u64,
    )
        requires room { entries_of steps.items + 2 ≤ self.old.room }
        requires last { last_stamp 0 self.old.entries + entries_of steps.items + 2 < 2 ^ 64 }
        requires after { after + entries_of steps.items + 2 < 2 ^ 64 }
        requires going { self.old.stopped ≡ None }
        ensures leaves { self.new
            ≡ failed_to_edit after unit line steps.items commit catalog self.old }
        ensures state { (opening : State) (changes : List RecordChange)
            → IsStateOf opening self.old
            → MayEditCatalog opening self.old unit steps.items changes commit catalog
            → IsStateOf opening self.new }
    {
        self.enter_steps(unit, line, steps, catalog, after);
        self.fail_write(unit, line, commit, 0);
    }
}
