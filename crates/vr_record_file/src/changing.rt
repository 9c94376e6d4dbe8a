//! Changes of records, and their locks.
ghost use Rattle.std.specs.Prelude.{◌≡◌, ◌<◌, ◌-◌, ◌^◌, ◌==◌, ℕ, false, IfErr, List, None, OnErr};
ghost use Rattle.std.specs.Prelude.{OnOk, Option, Some, is_some, true};
ghost use Rattle.vr_types.specs.Locks.{Lock, conflict_on, first_conflict};
ghost use Rattle.vr_types.specs.declared.reply.Reply.TheVariants.{Done};
ghost use Rattle.vr_types.specs.declared.unit.Mode.TheVariants.{Exclusive};
ghost use Rattle.vr_locks.specs.Answer.{CauseOf};
ghost use Rattle.vr_history.specs.declared.entry.What.TheVariants as whats;
ghost use Rattle.vr_history.specs.Change.{place_changed};
ghost use Rattle.vr_history.specs.Effects.{has_part, parts_laid};
ghost use Rattle.vr_history.specs.Merged.{last_stamp};
ghost use Rattle.vr_history.specs.Names.{lock_names, with_locks};
ghost use Rattle.vr_history.specs.Opened.{base_of};
ghost use Rattle.vr_history.specs.State.{State};
ghost use Rattle.vr_history.specs.Step.{IsLastKept, IsLeastFree, case_of};
ghost use Rattle.vr_record_file.specs.Now.{IsStateOf, MayBeAsked, lets_go, state_now, with_event};

use crate::file::RecordFile;
use vr_history::What;
use vr_locks::LockNo;
use vr_types::{AreaNo, LockName, LockNames, Mode, PartNo, Place, Reply, SharedRequest, Unit};

impl RecordFile {
    /// A unit takes locks, all or none.
    #[tactic(auto, using(vr_answer::proofs::CallerLemmas::taken_alike))]
    pub(crate) fn lock(&mut self, unit: Unit, names: &LockNames, mode: Mode) -> Result<(), LockNo>
        ensures granted { OnOk result (conflict_on self.old.locks unit mode names.now ≡ None) }
        ensures refused { IfErr result
            (CauseOf (conflict_on self.old.locks unit mode names.now)) }
        ensures taken { OnOk result (self.new ≡ record self.old {
          locks = with_locks unit mode names.now self.old.locks;
        }) }
        ensures unchanged { OnErr result (self.new ≡ self.old) }
    {
        self.locks.ask(unit, names, mode)
    }

    /// Whether a lock of another unit is in the way of a unit that asks for a name. It takes no
    /// memory.
    pub fn is_in_the_way(&self, unit: Unit, name: &LockName, mode: Mode) -> bool
        ensures { result ≡ is_some (first_conflict self.now.locks unit mode name.now) }
    {
        self.locks.test(unit, name, mode).is_some()
    }

    /// Takes the locks of a change for its unit, before it is made: all of them, or none where a
    /// lock of another unit is in the way or memory ran out. No entry says so yet: `change` does
    /// once the change is made, and `fail_write` where it couldn't be.
    pub fn lock_change(&mut self, unit: Unit, names: &LockNames) -> Result<(), LockNo>
        ensures granted { OnOk result
            (conflict_on self.old.locks unit Exclusive names.now ≡ None) }
        ensures refused { IfErr result
            (CauseOf (conflict_on self.old.locks unit Exclusive names.now)) }
        ensures taken { OnOk result (self.new ≡ record self.old {
          locks = with_locks unit Exclusive names.now self.old.locks;
        }) }
        ensures unchanged { OnErr result (self.new ≡ self.old) }
    {
        self.lock(unit, names, Mode::Exclusive)
    }

    /// Enters a PUT or an ERASE that was done, once its unit took its locks: its file lets go what
    /// it held for update (`leaves`). The change is of a cluster, not of the catalog. It takes no
    /// memory.
    pub fn change(
        &mut self,
        unit: Unit,
        line: u32,
        request: SharedRequest,
        reply: Reply,
        after: u64,
    )
        requires room { 0 < self.old.room }
        requires last { last_stamp 0 self.old.entries < 2 ^ 64 - 2 }
        requires after { after < 2 ^ 64 - 2 }
        ensures leaves { self.new ≡ with_event after unit line (whats.Asked request reply)
            (lets_go unit.deck request self.old) }
        ensures state { (opening : State) (before : List Lock) (place : List ℕ) (feedback : ℕ)
            (shown bytes : Option (List ℕ))
            → let was = record self.old { locks = before } in
            let case = case_of self.old.geometry (state_now opening was) unit request in
            IsStateOf opening was → MayBeAsked opening was unit request reply
            → reply ≡ Done feedback shown bytes → place_changed case ≡ Some place
            → self.old.locks ≡ with_locks unit Exclusive (lock_names case request) before
            → (base_of case == 0) ≡ false → IsStateOf opening self.new }
    {
        self.enter_asked(unit, line, request, reply, after);
    }

    /// Enters that the last before-image that a unit keeps was put back, for the request on this
    /// line. It takes no memory. On a volume that stopped it says nothing (`state`): the catalog in
    /// memory stays, and a unit of the utilities that is in doubt keeps a before-image of one.
    pub fn undone(&mut self, unit: Unit, line: u32, part: PartNo, place: Place, after: u64)
        requires room { 0 < self.old.room }
        requires last { last_stamp 0 self.old.entries < 2 ^ 64 - 2 }
        requires after { after < 2 ^ 64 - 2 }
        ensures leaves { self.new ≡ with_event after unit line (whats.Undone part place) self.old }
        ensures state { (opening : State) → IsStateOf opening self.old
            → self.old.stopped ≡ None
            → IsLastKept (state_now opening self.old) unit part.0 place
            → IsStateOf opening self.new }
    {
        self.enter(unit, line, What::Undone { part, place }, after);
    }

    /// Enters that an interval was split, for the request on this line. It takes no memory.
    pub fn split(&mut self, unit: Unit, line: u32, part: PartNo, after: u64)
        requires room { 0 < self.old.room }
        requires last { last_stamp 0 self.old.entries < 2 ^ 64 - 2 }
        requires after { after < 2 ^ 64 - 2 }
        ensures leaves { self.new ≡ with_event after unit line (whats.Split part) self.old }
        ensures state { (opening : State) → IsStateOf opening self.old
            → IsStateOf opening self.new }
    {
        self.enter(unit, line, What::Split { part }, after);
    }

    /// Enters that an area was given to a part of the catalog, for the request on this line: the least
    /// that no part has. It takes no memory.
    pub fn claim(&mut self, unit: Unit, line: u32, part: PartNo, area: AreaNo, after: u64)
        requires room { 0 < self.old.room }
        requires last { last_stamp 0 self.old.entries < 2 ^ 64 - 2 }
        requires after { after < 2 ^ 64 - 2 }
        ensures leaves { self.new ≡ with_event after unit line (whats.Claimed part area) self.old }
        ensures state { (opening : State) → IsStateOf opening self.old
            → IsLeastFree self.old.geometry (state_now opening self.old) area.0
            → has_part (parts_laid self.old.catalog) part.0 ≡ true
            → IsStateOf opening self.new }
    {
        self.enter(unit, line, What::Claimed { part, area }, after);
    }
}
