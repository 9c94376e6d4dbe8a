//! PUT and ERASE as events of a volume.
ghost use Rattle.std.specs.Prelude.{◌≡◌, ◌<◌, ◌-◌, ◌^◌, ℕ, IsTrue, List, None, Option, []};
ghost use Rattle.std.specs.Option.{option_copied};
ghost use Rattle.std.specs.Prelude.{Some, false};
ghost use Rattle.vr_types.specs.Blocks.{Keeps};
ghost use Rattle.vr_types.specs.Moments.{Guards};
ghost use Rattle.vr_types.specs.declared.reply.Refusal.TheVariants.{NoSpace};
ghost use Rattle.vr_types.specs.declared.reply.Reply.TheVariants.{Refused};
ghost use Rattle.vr_answer.specs.Here.{base_here};
ghost use Rattle.vr_answer.specs.Tried.{file_refusals};
ghost use Rattle.vr_history.specs.Case as cases;
ghost use Rattle.vr_history.specs.Change.{place_changed};
ghost use Rattle.vr_history.specs.Merged.{last_stamp};
ghost use Rattle.vr_history.specs.Replies.{first_of};
ghost use Rattle.vr_history.specs.State.{State};
ghost use Rattle.vr_history.specs.Step.{case_of};
ghost use Rattle.vr_record_file.specs.Now.{state_now};
ghost use Rattle.vr_volume.specs.Crashes.{RecoversTo};
ghost use Rattle.vr_event.specs.Acting.{IsActed};
ghost use Rattle.vr_event.specs.Cause.{HasReplyCause, is_faulted};
ghost use Rattle.vr_event.specs.Getting.{IsEntered};
ghost use Rattle.vr_event.specs.Lacking.{IfLacks, IsLacking, LacksRoomIn};
ghost use Rattle.vr_event.specs.Nearer.{EntersSplits, IsNearer, MeetsOnly};
ghost use Rattle.vr_event.specs.Putting as putting;
ghost use Rattle.vr_event.specs.Staging.{IsStateStaged};
ghost use Rattle.vr_store.specs.Parts.{OnlyMet};
ghost use Rattle.vr_store.specs.Room.{IsDueAt};
ghost use Rattle.vr_event.specs.Volume.{Holds, IsHeld, IsWhole};
ghost use Rattle.vr_event.specs.declared.act.Act.TheVariants as acts;

use crate::act::Act;
use crate::putting::{PutNo, put_at_place};
use crate::staging::{area_taken, splits_interval};
use crate::volume::Volume;
use crate::weighing::{Weighed, base_of, new_record, slice_of, weigh};
use std::alloc::Global;
use vr_space::Part;
use vr_types::{
    Blocks, Bytes, DeviceFault, LockNames, PartNo, Place, Refusal, Reply, Request, SharedRequest,
    Unit,
};

impl<B: Blocks, P: Part> Volume<B, P> {
    /// Decides what a PUT or an ERASE comes to. Nothing is put.
    fn weigh_change(
        &mut self,
        alloc: Global,
        unit: Unit,
        request: &Request,
        part: PartNo,
    ) -> Weighed
        requires whole { IsWhole B.seen self.old }
        requires going { self.old.file.stopped ≡ None }
        requires change { putting.IsChange request.now }
        requires base { part.0 ≡ base_here request.now }
        requires holds { IsTrue B.tells → Holds B.seen self.old }
        ensures may { IsTrue B.tells → (opening : State) → IsHeld B.seen opening self.old
            → putting.MayWeigh (case_of self.old.file.geometry (state_now opening self.old.file)
            unit request.now) result }
        ensures lacks { IsTrue B.tells → (opening : State) → IsHeld B.seen opening self.old
            → let case = case_of self.old.file.geometry (state_now opening self.old.file) unit
            request.now in
            first_of (file_refusals case) ≡ None → (place : List ℕ)
            → place_changed case ≡ Some place
            → IfLacks (LacksRoomIn self.old.store (B.seen self.old.blocks).cur part.0 place
            request.now) result }
        ensures opens { IsTrue B.tells → putting.IsOpenTo self.new.store
            (B.seen self.new.blocks).cur part.0 request.now result }
        ensures fits { putting.FitsIn self.new.store.parts part.0 request.now result }
        ensures held { IsTrue B.tells → (opening : State) → IsHeld B.seen opening self.old
            → IsHeld B.seen opening self.new }
        ensures whole { IsWhole B.seen self.new }
        ensures file { self.new.file ≡ self.old.file }
        ensures number { self.new.number ≡ self.old.number }
        ensures log { self.new.store.log ≡ self.old.store.log }
        ensures meets { MeetsOnly self.old.store self.new.store }
        ensures keeps { Keeps B.tells (B.seen self.old.blocks) (B.seen self.new.blocks) }
        ensures cause { HasReplyCause (B.faults self.old.blocks) (B.faults self.new.blocks)
            (putting.reply_to result) }
    {
        weigh(
            alloc,
            &mut self.blocks,
            &mut self.store,
            &self.file,
            unit,
            request,
            part,
        )
    }

    /// Does the stage that comes before a change, and enters that an interval was split in two, or that
    /// the part took an area, where it was. A fault of a read refuses the change, and one of a write
    /// stops the volume.
    fn do_stage(
        &mut self,
        unit: Unit,
        line: u32,
        request: SharedRequest,
        part: PartNo,
        place: &Place,
        length: u32,
        after: u64,
    ) -> Act
        requires whole { IsWhole B.seen self.old }
        requires going { self.old.file.stopped ≡ None }
        requires room { 1 < self.old.file.room }
        requires last { last_stamp 0 self.old.file.entries < 2 ^ 64 - 2 }
        requires after { after < 2 ^ 64 - 2 }
        requires change { putting.IsChange request }
        requires at { putting.HasPlace self.old.store.parts part.0 place.now }
        requires size { putting.FitsLength self.old.store.parts part.0 length }
        requires due { IsTrue B.tells → IsDueAt self.old.store (B.seen self.old.blocks).cur part.0
            place.now length }
        requires holds { IsTrue B.tells → Holds B.seen self.old }
        ensures held { IsTrue B.tells → (opening : State) → IsHeld B.seen opening self.old
            → putting.IsChanging opening self.old.file unit request
            → IsHeld B.seen opening self.new }
        ensures whole { IsWhole B.seen self.new }
        ensures acted { IsActed (B.faults self.old.blocks) (B.faults self.new.blocks) result after
            unit line request self.old.file self.new.file }
        // At every moment, whether it fails or not.
        ensures moments { IsTrue B.tells → (opening : State) → IsHeld B.seen opening self.old
            → Guards (B.seen self.old.blocks) (B.seen self.new.blocks)
            (RecoversTo self.old.store.log.geometry self.old.number
            (state_now opening self.old.file) []) }
        ensures catalog { self.new.file.catalog ≡ self.old.file.catalog }
        // The state is as it was, or the part has one area more.
        ensures again { (opening : State) → putting.IfAgain result
            ((self.new.file.geometry ≡ self.old.file.geometry)
            × IsStateStaged part.0 (state_now opening self.old.file)
            (state_now opening self.new.file)) }
        // Where it is entered, it is not for want of areas.
        ensures lacks { (entered : IsEntered after unit line request self.old.file self.new.file)
            (need free : ℕ) → entered.reply ≡ Refused (NoSpace need free) → ⊥ }
        // Fewer stages are left, and a split is entered as it is done.
        ensures nearer { IsTrue B.tells → IsNearer result unit self.old self.new }
        ensures splits { IsTrue B.tells → EntersSplits self.old self.new }
        ensures number { self.new.number ≡ self.old.number }
        ensures generation { self.new.store.log.generation ≡ self.old.store.log.generation }
    {
        let least = self.store.least_free();
        let free = self.store.free_areas();
        match self.store.advance(&mut self.blocks, part, place, length) {
            Ok(kind) => {
                let taken = area_taken(least, free, self.store.free_areas());
                self.enter_stage(unit, line, part, splits_interval(kind), taken, after);
                Act::Again(request)
            }
            Err(DeviceFault::Read) => {
                self.file
                    .refuse(unit, line, request, Refusal::ReadFault, after);
                Act::Done
            }
            Err(DeviceFault::Write) => {
                self.file.fail_write(unit, line, request, after);
                Act::Done
            }
        }
    }

    /// Makes a change that is ready, and enters it. Where memory runs out it is refused for that, and
    /// a fault of a write stops the volume.
    fn put(
        &mut self,
        alloc: Global,
        unit: Unit,
        line: u32,
        request: SharedRequest,
        part: PartNo,
        place: &Place,
        old: Option<&[u8]>,
        reply: Reply,
        names: &LockNames,
        after: u64,
    )
        requires whole { IsWhole B.seen self.old }
        requires going { self.old.file.stopped ≡ None }
        requires room { 1 < self.old.file.room }
        requires last { last_stamp 0 self.old.file.entries < 2 ^ 64 - 2 }
        requires after { after < 2 ^ 64 - 2 }
        requires base { part.0 ≡ base_here request }
        requires fits { putting.IsReadyIn self.old.store.parts part.0 request place.now
            (option_copied old) }
        requires can { IsTrue B.tells → putting.HasRoomAt self.old.store
            (B.seen self.old.blocks).cur part.0 place.now (cases.new_record request) }
        requires calm { is_faulted reply ≡ false }
        requires ready { IsTrue B.tells → putting.HasReady B.seen self.old unit request place.now
            (option_copied old) reply names.now }
        ensures held { IsTrue B.tells → (opening : State) → IsHeld B.seen opening self.old
            → putting.IsReadyFor (case_of self.old.file.geometry
            (state_now opening self.old.file) unit request) place.now (option_copied old.entry)
            reply names.now
            → putting.IsChanging opening self.old.file unit request
            → IsHeld B.seen opening self.new }
        ensures whole { IsWhole B.seen self.new }
        ensures acted { IsActed (B.faults self.old.blocks) (B.faults self.new.blocks) acts.Done
            after unit line request self.old.file self.new.file }
        // At every moment, whether it fails or not.
        ensures moments { IsTrue B.tells → (opening : State) → IsHeld B.seen opening self.old
            → putting.IsReadyFor (case_of self.old.file.geometry
            (state_now opening self.old.file) unit request) place.now (option_copied old.entry)
            reply names.now
            → Guards (B.seen self.old.blocks) (B.seen self.new.blocks)
            (RecoversTo self.old.store.log.geometry self.old.number
            (state_now opening self.old.file) []) }
        // Where it is refused for want of areas, that was its reply.
        ensures lacks { (entered : IsEntered after unit line request self.old.file self.new.file)
            (need free : ℕ) → entered.reply ≡ Refused (NoSpace need free)
            → reply ≡ Refused (NoSpace need free) }
        // As long as no write failed, its part only met blocks.
        ensures met { self.new.file.stopped ≡ None
            → OnlyMet part.0 self.old.store.parts self.new.store.parts }
        ensures number { self.new.number ≡ self.old.number }
        ensures generation { self.new.file.stopped ≡ None
            → self.new.store.log.generation ≡ self.old.store.log.generation }
    {
        let new = new_record(request.get());
        let blocks = &mut self.blocks;
        let store = &mut self.store;
        let file = &mut self.file;
        match put_at_place(
            alloc, blocks, store, file, unit, part, place, old, new, names,
        ) {
            Ok(()) => self.file.change(unit, line, request, reply, after),
            Err(PutNo::Memory) => self
                .file
                .refuse(unit, line, request, Refusal::Memory, after),
            Err(PutNo::Write) => self.file.fail_write(unit, line, request, after),
        }
    }

    /// One step of a PUT or an ERASE that [`Volume::refused_early`] doesn't refuse, on a volume that
    /// has not stopped. The record at its place is looked at; it is refused by what the record is and
    /// by locks in the way, where the log is full (`LogFull`, before any split), where its part lacks
    /// room and can take no area for it (`NoSpace`, with the part's numbers), for a read that fails
    /// (`ReadFault`), and where memory runs out (`Memory`). A stage of its part that its place needs
    /// is done, and it is to be asked again (`Again`). Else its before-image is kept, logged and
    /// forced, its lock is taken, and the record is set (`Done`). A fault of a write stops the
    /// volume. There is room for two events.
    pub fn change(
        &mut self,
        alloc: Global,
        unit: Unit,
        line: u32,
        request: SharedRequest,
        after: u64,
    ) -> Act
        requires whole { IsWhole B.seen self.old }
        requires going { self.old.file.stopped ≡ None }
        requires room { 1 < self.old.file.room }
        requires last { last_stamp 0 self.old.file.entries < 2 ^ 64 - 2 }
        requires after { after < 2 ^ 64 - 2 }
        requires change { putting.IsChange request }
        requires holds { IsTrue B.tells → Holds B.seen self.old }
        ensures held { IsTrue B.tells → (opening : State) → IsHeld B.seen opening self.old
            → putting.IsChanging opening self.old.file unit request
            → IsHeld B.seen opening self.new }
        ensures whole { IsWhole B.seen self.new }
        ensures acted { IsActed (B.faults self.old.blocks) (B.faults self.new.blocks) result after
            unit line request self.old.file self.new.file }
        // At every moment, whether it fails or not: what was committed.
        ensures moments { IsTrue B.tells → (opening : State) → IsHeld B.seen opening self.old
            → Guards (B.seen self.old.blocks) (B.seen self.new.blocks)
            (RecoversTo self.old.store.log.geometry self.old.number
            (state_now opening self.old.file) []) }
        // A caller that asks again no more may refuse it with NoSpace.
        ensures again { IsTrue B.tells → (opening : State) → IsHeld B.seen opening self.old
            → putting.IsChanging opening self.old.file unit request
            → putting.IfAgain result (putting.MayLackRoom opening self.new.file unit request) }
        // It is refused with NoSpace only where its part lacks room, and with the part's numbers.
        ensures lacks { IsTrue B.tells → (opening : State) → IsHeld B.seen opening self.old
            → putting.IsChanging opening self.old.file unit request
            → (entered : IsEntered after unit line request self.old.file self.new.file)
            → (need free : ℕ) → entered.reply ≡ Refused (NoSpace need free) → (place : List ℕ)
            → place_changed (case_of self.old.file.geometry (state_now opening self.old.file) unit
            request) ≡ Some place
            → IsLacking self.old.store (B.seen self.old.blocks).cur place request need free }
        // Asked again it waits for less, and a split is entered as it is done.
        ensures nearer { IsTrue B.tells → IsNearer result unit self.old self.new }
        ensures splits { IsTrue B.tells → EntersSplits self.old self.new }
        ensures number { self.new.number ≡ self.old.number }
        ensures generation { self.new.file.stopped ≡ None
            → self.new.store.log.generation ≡ self.old.store.log.generation }
    {
        let part = base_of(request.get());
        match self.weigh_change(alloc, unit, request.get(), part) {
            Weighed::Refused(refusal) => {
                self.enter_refused(unit, line, request, refusal, after);
                Act::Done
            }
            Weighed::Stage { place, length } => {
                self.do_stage(unit, line, request, part, &place, length, after)
            }
            Weighed::Ready {
                place,
                old,
                reply,
                names,
            } => {
                let old = slice_of(&old);
                self.put(
                    alloc, unit, line, request, part, &place, old, reply, &names, after,
                );
                Act::Done
            }
        }
    }
}
