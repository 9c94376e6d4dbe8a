//! Definitions of clusters.
ghost use Rattle.std.specs.Prelude.{◌≡◌, ℕ, ◌+◌, ◌-◌, ◌<◌, ◌≤◌, ◌^◌, List, None, true};
ghost use Rattle.vr_history.specs.Merged.{last_stamp};
ghost use Rattle.vr_history.specs.State.{State};
ghost use Rattle.vr_record_file.specs.Defining.{MayDefine, added, defined, failed_to_define};
ghost use Rattle.vr_record_file.specs.Now.{IsStateOf, has_deck, next_stamp, number_of};

use crate::file::RecordFile;
use vr_catalog::Catalog;
use vr_history::What;
use vr_types::{AreaNo, PartNo, Place, Reply, SharedRequest, Unit};

impl RecordFile {
    /// Takes the catalog as it is after a change of it.
    pub(crate) fn take_catalog(&mut self, catalog: Catalog)
        ensures { self.new ≡ record self.old { catalog = catalog } }
    {
        self.catalog = catalog;
    }

    /// Enters that the new part got its area, and that its record was added to the catalog, which
    /// is this one from now on. Its unit hasn't ended.
    fn enter_added(
        &mut self,
        unit: Unit,
        line: u32,
        part: PartNo,
        area: AreaNo,
        add: SharedRequest,
        place: Place,
        catalog: Catalog,
        after: u64,
    )
        requires room { 2 ≤ self.old.room }
        requires last { last_stamp 0 self.old.entries < 2 ^ 64 - 2 }
        requires after { after < 2 ^ 64 - 2 }
        ensures leaves { self.new ≡ added after unit line part area add place catalog self.old }
        ensures last { last_stamp 0 self.new.entries ≡ next_stamp self.old.entries after + 1 }
    {
        self.enter(unit, line, What::Claimed { part, area }, after);
        let reply = Reply::Done {
            feedback: 0,
            place: Some(place),
            bytes: None,
        };
        self.enter_asked(unit, line, add, reply, 0);
        self.take_catalog(catalog);
    }

    /// Enters that a unit of the utilities defined a cluster: the least area that no part has was
    /// given to it, its record was added to the catalog at this place, and the unit was committed,
    /// three entries on this line. This is the catalog in memory from now on; no lock of the unit
    /// is left, its deck's files hold nothing, and its deck's number rises (`leaves`). It takes no
    /// memory.
    pub fn define(
        &mut self,
        unit: Unit,
        line: u32,
        part: PartNo,
        area: AreaNo,
        add: SharedRequest,
        place: Place,
        commit: SharedRequest,
        catalog: Catalog,
        after: u64,
    )
        requires room { 3 ≤ self.old.room }
        requires last { last_stamp 0 self.old.entries < 2 ^ 64 - 4 }
        requires after { after < 2 ^ 64 - 4 }
        requires deck { has_deck unit.deck self.old.numbers ≡ true }
        requires number { number_of self.old.numbers unit.deck < 2 ^ 32 - 1 }
        ensures leaves { self.new
            ≡ defined after unit line part area add place commit catalog self.old }
        ensures state { (opening : State) (bytes : List ℕ) → IsStateOf opening self.old
            → MayDefine opening self.old unit part area add place bytes commit catalog
            → IsStateOf opening self.new }
    {
        self.enter_added(unit, line, part, area, add, place, catalog, after);
        self.end_unit(unit, line, commit, 0);
    }

    /// Enters that a fault of a write met the definition of a cluster, four entries on this line:
    /// the area and the record as in `define`, the COMMIT, which the fault refused, and the fault,
    /// which stops the volume (`leaves`). The commit may be on the device, so the unit is in doubt,
    /// and its before-image of the catalog stays. It takes no memory.
    pub fn fail_definition(
        &mut self,
        unit: Unit,
        line: u32,
        part: PartNo,
        area: AreaNo,
        add: SharedRequest,
        place: Place,
        commit: SharedRequest,
        catalog: Catalog,
        after: u64,
    )
        requires room { 4 ≤ self.old.room }
        requires last { last_stamp 0 self.old.entries < 2 ^ 64 - 4 }
        requires after { after < 2 ^ 64 - 4 }
        requires going { self.old.stopped ≡ None }
        ensures leaves { self.new
            ≡ failed_to_define after unit line part area add place commit catalog self.old }
        ensures state { (opening : State) (bytes : List ℕ) → IsStateOf opening self.old
            → MayDefine opening self.old unit part area add place bytes commit catalog
            → IsStateOf opening self.new }
    {
        self.enter_added(unit, line, part, area, add, place, catalog, after);
        self.fail_write(unit, line, commit, 0);
    }
}
