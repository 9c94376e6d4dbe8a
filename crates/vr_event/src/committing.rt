//! The end of a unit of recovery on a volume: the blocks that it changed are forced, and then its end
//! is logged and entered.
ghost use Rattle.std.specs.Prelude.{◌≡◌, ◌≢◌, ◌<◌, ◌≤◌, ◌-◌, ◌+◌, ◌^◌, [], IsTrue, OnOk};
ghost use Rattle.std.specs.Prelude.{None, OnErr, false, true};
ghost use Rattle.vr_types.specs.Blocks.{Keeps};
ghost use Rattle.vr_types.specs.Faults.{HasWriteCause};
ghost use Rattle.vr_types.specs.Locks.{same_unit};
ghost use Rattle.vr_types.specs.Moments.{Guards};
ghost use Rattle.vr_types.specs.declared.unit.Unit.{Unit as UnitOfRecovery};
ghost use Rattle.vr_types.specs.declared.reply.Reply.TheVariants.{Done};
ghost use Rattle.vr_types.specs.declared.request.Request.TheVariants.{Commit};
ghost use Rattle.vr_log.specs.Live.{is_in, live_in};
ghost use Rattle.vr_log.specs.declared.record.EndKind.TheVariants.{BackedOut, Committed};
ghost use Rattle.vr_history.specs.Merged.{last_stamp};
ghost use Rattle.vr_history.specs.State.{State};
ghost use Rattle.vr_record_file.specs.Now.{EndsUnit, MayBeAsked, has_deck, number_of, state_now};
ghost use Rattle.vr_volume.specs.Committed.{KeepsNoneIf};
ghost use Rattle.vr_volume.specs.Crashes.{RecoversTo};
ghost use Rattle.vr_event.specs.Acting.{IsActed, IsLeftIn};
ghost use Rattle.vr_store.specs.LastImage.{last_of_unit};
ghost use Rattle.vr_event.specs.EndedFile.{IsEndBy, IsEnding};
ghost use Rattle.vr_event.specs.Nearer.{EntersSplits, IsNearer};
ghost use Rattle.vr_store.specs.Left.{left_for};
ghost use Rattle.vr_store.specs.Store.{blocks_of};
ghost use Rattle.vr_event.specs.Volume.{Holds, IsHeld, IsWhole};
ghost use Rattle.vr_event.specs.declared.act.Act.TheVariants as acts;

use crate::act::Act;
use crate::volume::Volume;
use vr_log::EndKind;
use vr_space::Part;
use vr_types::{Blocks, DeviceFault, SharedRequest, Unit};

impl<B: Blocks, P: Part> Volume<B, P> {
    /// Forces the blocks that a unit changed, all at once. `Write` is the device's, and then the
    /// volume is as before but for the blocks, which hold what they held.
    pub(crate) fn force_changed(&mut self, unit: Unit) -> Result<(), DeviceFault>
        requires whole { IsWhole B.seen self.old }
        requires going { self.old.file.stopped ≡ None }
        ensures held { IsTrue B.tells → (opening : State) → IsHeld B.seen opening self.old
            → IsHeld B.seen opening self.new }
        ensures whole { IsWhole B.seen self.new }
        ensures taken { OnOk result (blocks_of unit self.new.store.changed ≡ []) }
        ensures others { (other : UnitOfRecovery) → same_unit other unit ≡ false
            → blocks_of other self.new.store.changed ≡ blocks_of other self.old.store.changed }
        // At every moment, whether it fails or not.
        ensures moments { IsTrue B.tells → (opening : State) → IsHeld B.seen opening self.old
            → Guards (B.seen self.old.blocks) (B.seen self.new.blocks)
            (RecoversTo self.old.store.log.geometry self.old.number
            (state_now opening self.old.file) []) }
        ensures same { OnErr result (self.new.store ≡ self.old.store) }
        // Where there are such blocks the unit waits for less.
        ensures nearer { blocks_of unit self.old.store.changed ≢ []
            → OnOk result (left_for unit self.new.store < left_for unit self.old.store) }
        ensures rest { self.new.store ≡ record self.old.store {
          changed = self.new.store.changed;
        } }
        ensures number { self.new.number ≡ self.old.number }
        ensures file { self.new.file ≡ self.old.file }
        ensures keeps { Keeps B.tells (B.seen self.old.blocks) (B.seen self.new.blocks) }
        ensures cause { HasWriteCause (B.faults self.old.blocks) (B.faults self.new.blocks)
            result }
    {
        self.store.force_changed(&mut self.blocks, unit)
    }

    /// A step of the end of a unit: the blocks that it changed are forced, and the request is to be
    /// asked again. Where a write fails, the request is refused for that, and the fault stops
    /// the volume.
    fn force_step(&mut self, unit: Unit, line: u32, request: SharedRequest, after: u64) -> Act
        requires whole { IsWhole B.seen self.old }
        requires going { self.old.file.stopped ≡ None }
        requires room { 1 < self.old.file.room }
        requires last { last_stamp 0 self.old.file.entries < 2 ^ 64 - 2 }
        requires after { after < 2 ^ 64 - 2 }
        requires left { blocks_of unit self.old.store.changed ≢ [] }
        ensures held { IsTrue B.tells → (opening : State) → IsHeld B.seen opening self.old
            → IsEnding opening self.old.file unit request → IsHeld B.seen opening self.new }
        ensures whole { IsWhole B.seen self.new }
        ensures acted { IsActed (B.faults self.old.blocks) (B.faults self.new.blocks) result after
            unit line request self.old.file self.new.file }
        ensures moments { IsTrue B.tells → (opening : State) → IsHeld B.seen opening self.old
            → Guards (B.seen self.old.blocks) (B.seen self.new.blocks)
            (RecoversTo self.old.store.log.geometry self.old.number
            (state_now opening self.old.file) []) }
        ensures nearer { IsNearer result unit self.old self.new }
        ensures splits { EntersSplits self.old self.new }
        ensures number { self.new.number ≡ self.old.number }
        ensures log { self.new.store.log ≡ self.old.store.log }
    {
        match self.force_changed(unit) {
            Ok(()) => Act::Again(request),
            Err(_) => {
                self.stop(unit, line, request, after);
                Act::Done
            }
        }
    }

    /// Ends a unit of recovery that is live in the log, and whose changed blocks are all forced: its
    /// end is logged and forced, and the request is entered. Where a write fails, the request is
    /// refused for that, and the fault stops the volume. It takes no memory.
    fn end_live(&mut self, unit: Unit, line: u32, request: SharedRequest, kind: EndKind, after: u64)
        requires room { 1 < self.old.file.room }
        requires last { last_stamp 0 self.old.file.entries < 2 ^ 64 - 2 }
        requires after { after < 2 ^ 64 - 2 }
        requires deck { has_deck unit.deck self.old.file.numbers ≡ true }
        requires number { number_of self.old.file.numbers unit.deck < 2 ^ 32 - 1 }
        requires whole { IsWhole B.seen self.old }
        requires going { self.old.file.stopped ≡ None }
        requires ends { IsEndBy kind request }
        requires live { IsTrue (is_in unit (live_in self.old.store.log.records)) }
        requires none_left { blocks_of unit self.old.store.changed ≡ [] }
        requires generation { self.old.store.log.generation + 1 < 2 ^ 63 }
        requires holds { IsTrue B.tells → Holds B.seen self.old }
        ensures held { IsTrue B.tells → (opening : State) → IsHeld B.seen opening self.old
            → MayBeAsked opening self.old.file unit request (Done 0 None None)
            → KeepsNoneIf kind (state_now opening self.old.file) unit
            → IsHeld B.seen opening self.new }
        ensures whole { IsWhole B.seen self.new }
        // At every moment, whether a write fails or not.
        ensures moments { IsTrue B.tells → (opening : State) → IsHeld B.seen opening self.old
            → KeepsNoneIf kind (state_now opening self.old.file) unit
            → Guards (B.seen self.old.blocks) (B.seen self.new.blocks)
            (IsLeftIn self.old.store.log.geometry self.old.number (state_now opening self.old.file)
            after unit line request self.old.file self.new.file) }
        ensures acted { IsActed (B.faults self.old.blocks) (B.faults self.new.blocks) acts.Done
            after unit line request self.old.file self.new.file }
        ensures generation { self.new.file.stopped ≡ None
            → self.new.store.log.generation ≤ self.old.store.log.generation + 1 }
        ensures parts { self.new.store.parts ≡ self.old.store.parts }
        ensures number { self.new.number ≡ self.old.number }
    {
        match self.store.end(&mut self.blocks, unit, kind) {
            Ok(()) => self.file.end_unit(unit, line, request, after),
            Err(_) => self.file.fail_write(unit, line, request, after),
        }
    }

    /// Ends a unit of recovery that isn't live in the log, since it changed nothing: the request is
    /// entered, and no block is touched. It takes no memory.
    fn end_idle(&mut self, unit: Unit, line: u32, request: SharedRequest, after: u64)
        requires room { 0 < self.old.file.room }
        requires last { last_stamp 0 self.old.file.entries < 2 ^ 64 - 2 }
        requires after { after < 2 ^ 64 - 2 }
        requires deck { has_deck unit.deck self.old.file.numbers ≡ true }
        requires number { number_of self.old.file.numbers unit.deck < 2 ^ 32 - 1 }
        requires going { self.old.file.stopped ≡ None }
        requires whole { IsWhole B.seen self.old }
        requires ends { EndsUnit request }
        requires dead { is_in unit (live_in self.old.store.log.records) ≡ false }
        ensures held { IsTrue B.tells → (opening : State) → IsHeld B.seen opening self.old
            → MayBeAsked opening self.old.file unit request (Done 0 None None)
            → IsHeld B.seen opening self.new }
        ensures whole { IsWhole B.seen self.new }
        ensures acted { IsActed (B.faults self.old.blocks) (B.faults self.new.blocks) acts.Done
            after unit line request self.old.file self.new.file }
        ensures blocks { self.new.blocks ≡ self.old.blocks }
        ensures store { self.new.store ≡ self.old.store }
        ensures volume { self.new.number ≡ self.old.number }
    {
        self.file.end_unit(unit, line, request, after);
    }

    /// A step of the end of a unit: the blocks that it changed are forced (`Again`); or once they
    /// are, its end is logged and entered (`Done`). A fault of a write stops the volume. It takes
    /// no memory.
    pub(crate) fn end_step(
        &mut self,
        unit: Unit,
        line: u32,
        request: SharedRequest,
        kind: EndKind,
        after: u64,
    ) -> Act
        requires room { 1 < self.old.file.room }
        requires last { last_stamp 0 self.old.file.entries < 2 ^ 64 - 2 }
        requires after { after < 2 ^ 64 - 2 }
        requires deck { has_deck unit.deck self.old.file.numbers ≡ true }
        requires number { number_of self.old.file.numbers unit.deck < 2 ^ 32 - 1 }
        requires whole { IsWhole B.seen self.old }
        requires going { self.old.file.stopped ≡ None }
        requires ends { IsEndBy kind request }
        requires none_kept { kind ≡ BackedOut → last_of_unit self.old.store unit ≡ None }
        requires generation { self.old.store.log.generation + 1 < 2 ^ 63 }
        requires holds { IsTrue B.tells → Holds B.seen self.old }
        ensures held { IsTrue B.tells → (opening : State) → IsHeld B.seen opening self.old
            → IsEnding opening self.old.file unit request → IsHeld B.seen opening self.new }
        ensures whole { IsWhole B.seen self.new }
        ensures acted { IsActed (B.faults self.old.blocks) (B.faults self.new.blocks) result after
            unit line request self.old.file self.new.file }
        ensures moments { IsTrue B.tells → (opening : State) → IsHeld B.seen opening self.old
            → Guards (B.seen self.old.blocks) (B.seen self.new.blocks)
            (IsLeftIn self.old.store.log.geometry self.old.number (state_now opening self.old.file)
            after unit line request self.old.file self.new.file) }
        ensures nearer { IsNearer result unit self.old self.new }
        ensures splits { EntersSplits self.old self.new }
        ensures number { self.new.number ≡ self.old.number }
        ensures generation { self.new.file.stopped ≡ None
            → self.new.store.log.generation ≤ self.old.store.log.generation + 1 }
    {
        if !self.store.is_live(unit) {
            self.end_idle(unit, line, request, after);
            return Act::Done;
        }
        if self.store.is_forced(unit) {
            self.end_live(unit, line, request, kind, after);
            Act::Done
        } else {
            self.force_step(unit, line, request, after)
        }
    }

    /// One step of a COMMIT that [`Volume::refused_early`] doesn't refuse, on a volume that has not
    /// stopped: the blocks that its unit changed are forced (`Again`); or once they are,
    /// the end of the unit is logged as committed and forced, and the COMMIT is entered (`Done`). A
    /// fault of a write stops the volume. It takes no memory: there is room for two events, and the
    /// deck was entered.
    pub fn commit_step(&mut self, unit: Unit, line: u32, request: SharedRequest, after: u64) -> Act
        requires whole { IsWhole B.seen self.old }
        requires going { self.old.file.stopped ≡ None }
        requires room { 1 < self.old.file.room }
        requires last { last_stamp 0 self.old.file.entries < 2 ^ 64 - 2 }
        requires after { after < 2 ^ 64 - 2 }
        requires deck { has_deck unit.deck self.old.file.numbers ≡ true }
        requires number { number_of self.old.file.numbers unit.deck < 2 ^ 32 - 1 }
        requires generation { self.old.store.log.generation + 1 < 2 ^ 63 }
        requires request { request ≡ Commit }
        requires holds { IsTrue B.tells → Holds B.seen self.old }
        ensures held { IsTrue B.tells → (opening : State) → IsHeld B.seen opening self.old
            → IsEnding opening self.old.file unit request → IsHeld B.seen opening self.new }
        ensures whole { IsWhole B.seen self.new }
        ensures acted { IsActed (B.faults self.old.blocks) (B.faults self.new.blocks) result after
            unit line request self.old.file self.new.file }
        // At every moment, whether a write fails or not: what was committed, or that and the unit.
        ensures moments { IsTrue B.tells → (opening : State) → IsHeld B.seen opening self.old
            → Guards (B.seen self.old.blocks) (B.seen self.new.blocks)
            (IsLeftIn self.old.store.log.geometry self.old.number (state_now opening self.old.file)
            after unit line request self.old.file self.new.file) }
        // Asked again it waits for less, and no split is entered.
        ensures nearer { IsNearer result unit self.old self.new }
        ensures splits { EntersSplits self.old self.new }
        ensures number { self.new.number ≡ self.old.number }
        ensures generation { self.new.file.stopped ≡ None
            → self.new.store.log.generation ≤ self.old.store.log.generation + 1 }
    {
        self.end_step(unit, line, request, EndKind::Committed, after)
    }
}
