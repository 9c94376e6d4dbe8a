//! One event of a request: it is refused by what is in memory, or served.
ghost use Rattle.std.specs.Prelude.{◌≡◌, ◌≢◌, ◌<◌, ◌≤◌, ◌-◌, ◌+◌, ◌^◌, IsTrue, None, Some};
ghost use Rattle.std.specs.Prelude.{List, true, ℕ};
ghost use Rattle.vr_types.specs.Moments.{Guards};
ghost use Rattle.vr_types.specs.declared.reply.Refusal.TheVariants.{NoSpace};
ghost use Rattle.vr_types.specs.declared.reply.Reply.TheVariants.{Refused};
ghost use Rattle.vr_answer.specs.Tried.{IsCalm, file_refusals};
ghost use Rattle.vr_history.specs.Case as cases;
ghost use Rattle.vr_history.specs.Change.{place_changed};
ghost use Rattle.vr_history.specs.Merged.{last_stamp};
ghost use Rattle.vr_history.specs.Replies.{first_of};
ghost use Rattle.vr_history.specs.State.{State};
ghost use Rattle.vr_history.specs.Step.{case_of};
ghost use Rattle.vr_record_file.specs.Now.{CanSet, has_deck, number_of, state_now};
ghost use Rattle.vr_event.specs.Acting.{IsActed, IsLeftIn, MayAct};
ghost use Rattle.vr_event.specs.Getting.{IsEntered};
ghost use Rattle.vr_event.specs.Lacking.{IsLacking};
ghost use Rattle.vr_event.specs.Nearer.{EntersSplits, IsNearer};
ghost use Rattle.vr_event.specs.Putting as putting;
ghost use Rattle.vr_event.specs.Serving.{IsEventOf};
ghost use Rattle.vr_event.specs.Volume.{Holds, IsHeld, IsWhole};
ghost use Rattle.vr_event.specs.declared.act.Act.TheVariants as acts;

use crate::act::Act;
use crate::volume::Volume;
use std::alloc::Global;
use vr_space::Part;
use vr_types::{Blocks, Refusal, Request, SharedRequest, Unit};

/// Which event a request is.
#[derive(Clone, Copy)]
enum Event {
    /// A GET or a POINT.
    Read,
    /// A PUT or an ERASE.
    Change,
    EndRequest,
    Commit,
    BackOut,
}

/// Which event a request is.
fn event_of(request: &Request) -> Event
    ensures { IsEventOf result request.now }
{
    match request {
        Request::Get { .. } | Request::Point { .. } => Event::Read,
        Request::Add { .. } | Request::Update { .. } | Request::Erase { .. } => Event::Change,
        Request::EndReq { .. } => Event::EndRequest,
        Request::Commit => Event::Commit,
        Request::Backout => Event::BackOut,
    }
}

impl<B: Blocks, P: Part> Volume<B, P> {
    /// Enters a request that what is in memory refuses. No block is touched.
    fn refuse_early(
        &mut self,
        unit: Unit,
        line: u32,
        request: SharedRequest,
        refusal: Refusal,
        after: u64,
    )
        requires room { 0 < self.old.file.room }
        requires last { last_stamp 0 self.old.file.entries < 2 ^ 64 - 2 }
        requires after { after < 2 ^ 64 - 2 }
        requires files { CanSet self.old.file unit.deck (cases.file_of request) }
        requires calm { IsCalm (Some refusal) }
        ensures held { IsTrue B.tells → (opening : State) → IsHeld B.seen opening self.old
            → MayAct opening self.old.file unit request
            → first_of (file_refusals (case_of self.old.file.geometry
            (state_now opening self.old.file) unit request)) ≡ Some refusal
            → IsHeld B.seen opening self.new }
        ensures whole { IsWhole B.seen self.old → IsWhole B.seen self.new }
        ensures acted { IsActed (B.faults self.old.blocks) (B.faults self.new.blocks) acts.Done
            after unit line request self.old.file self.new.file }
        ensures replied { (entered : IsEntered after unit line request self.old.file self.new.file)
            → entered.reply ≡ Refused refusal }
        ensures blocks { self.new.blocks ≡ self.old.blocks }
        ensures store { self.new.store ≡ self.old.store }
        ensures volume { self.new.number ≡ self.old.number }
    {
        self.refuse(unit, line, request, refusal, after);
    }

    /// Serves a request that nothing in memory refuses, on a volume that has not stopped.
    fn serve(
        &mut self,
        alloc: Global,
        unit: Unit,
        line: u32,
        request: SharedRequest,
        after: u64,
    ) -> Act
        requires whole { IsWhole B.seen self.old }
        requires going { self.old.file.stopped ≡ None }
        requires room { 1 < self.old.file.room }
        requires files { CanSet self.old.file unit.deck (cases.file_of request) }
        requires last { last_stamp 0 self.old.file.entries < 2 ^ 64 - 2 }
        requires after { after < 2 ^ 64 - 2 }
        requires deck { has_deck unit.deck self.old.file.numbers ≡ true }
        requires number { number_of self.old.file.numbers unit.deck < 2 ^ 32 - 1 }
        requires generation { self.old.store.log.generation + 1 < 2 ^ 63 }
        requires holds { IsTrue B.tells → Holds B.seen self.old }
        ensures held { IsTrue B.tells → (opening : State) → IsHeld B.seen opening self.old
            → MayAct opening self.old.file unit request
            → first_of (file_refusals (case_of self.old.file.geometry
            (state_now opening self.old.file) unit request)) ≡ None
            → IsHeld B.seen opening self.new }
        ensures whole { IsWhole B.seen self.new }
        ensures acted { IsActed (B.faults self.old.blocks) (B.faults self.new.blocks) result after
            unit line request self.old.file self.new.file }
        ensures moments { IsTrue B.tells → (opening : State) → IsHeld B.seen opening self.old
            → MayAct opening self.old.file unit request
            → first_of (file_refusals (case_of self.old.file.geometry
            (state_now opening self.old.file) unit request)) ≡ None
            → Guards (B.seen self.old.blocks) (B.seen self.new.blocks)
            (IsLeftIn self.old.store.log.geometry self.old.number (state_now opening self.old.file)
            after unit line request self.old.file self.new.file) }
        ensures again { IsTrue B.tells → (opening : State) → IsHeld B.seen opening self.old
            → MayAct opening self.old.file unit request
            → first_of (file_refusals (case_of self.old.file.geometry
            (state_now opening self.old.file) unit request)) ≡ None → putting.IsChange request
            → putting.IfAgain result (putting.MayLackRoom opening self.new.file unit request) }
        ensures lacks { IsTrue B.tells → (opening : State) → IsHeld B.seen opening self.old
            → MayAct opening self.old.file unit request
            → first_of (file_refusals (case_of self.old.file.geometry
            (state_now opening self.old.file) unit request)) ≡ None
            → (entered : IsEntered after unit line request self.old.file self.new.file)
            → (need free : ℕ) → entered.reply ≡ Refused (NoSpace need free) → (place : List ℕ)
            → place_changed (case_of self.old.file.geometry (state_now opening self.old.file) unit
            request) ≡ Some place
            → IsLacking self.old.store (B.seen self.old.blocks).cur place request need free }
        ensures nearer { IsTrue B.tells → IsNearer result unit self.old self.new }
        ensures splits { IsTrue B.tells → EntersSplits self.old self.new }
        ensures number { self.new.number ≡ self.old.number }
        ensures generation { self.new.file.stopped ≡ None
            → self.new.store.log.generation ≤ self.old.store.log.generation + 1 }
    {
        match event_of(request.get()) {
            Event::Read => {
                self.read(alloc, unit, line, request, after);
                Act::Done
            }
            Event::EndRequest => {
                self.end_request(unit, line, request, after);
                Act::Done
            }
            Event::Change => self.change(alloc, unit, line, request, after),
            Event::Commit => self.commit_step(unit, line, request, after),
            Event::BackOut => self.back_out(unit, line, request, after),
        }
    }

    /// One event of a request of a deck: it is refused by what is in memory, and so is each
    /// request once a fault of a write has stopped the volume; or it is served. `Again` hands it
    /// back where a step of it was done: the caller asks it again. There is room for three events,
    /// and for one more file, or the file was set before; and the deck was entered.
    pub fn act(
        &mut self,
        alloc: Global,
        unit: Unit,
        line: u32,
        request: SharedRequest,
        after: u64,
    ) -> Act
        requires whole { IsWhole B.seen self.old }
        requires room { 2 < self.old.file.room }
        requires files { CanSet self.old.file unit.deck (cases.file_of request) }
        requires last { last_stamp 0 self.old.file.entries < 2 ^ 64 - 2 }
        requires after { after < 2 ^ 64 - 2 }
        requires deck { has_deck unit.deck self.old.file.numbers ≡ true }
        requires number { number_of self.old.file.numbers unit.deck < 2 ^ 32 - 1 }
        requires generation { self.old.store.log.generation + 1 < 2 ^ 63 }
        requires holds { IsTrue B.tells → Holds B.seen self.old }
        ensures held { IsTrue B.tells → (opening : State) → IsHeld B.seen opening self.old
            → MayAct opening self.old.file unit request → IsHeld B.seen opening self.new }
        ensures whole { IsWhole B.seen self.new }
        ensures acted { IsActed (B.faults self.old.blocks) (B.faults self.new.blocks) result after
            unit line request self.old.file self.new.file }
        // At every moment, whether it fails or not, of a volume that had not stopped.
        ensures moments { IsTrue B.tells → (opening : State) → IsHeld B.seen opening self.old
            → MayAct opening self.old.file unit request → self.old.file.stopped ≡ None
            → Guards (B.seen self.old.blocks) (B.seen self.new.blocks)
            (IsLeftIn self.old.store.log.geometry self.old.number (state_now opening self.old.file)
            after unit line request self.old.file self.new.file) }
        // A caller that asks a PUT again no more may refuse it with NoSpace.
        ensures again { IsTrue B.tells → (opening : State) → IsHeld B.seen opening self.old
            → MayAct opening self.old.file unit request → putting.IsChange request
            → putting.IfAgain result (putting.MayLackRoom opening self.new.file unit request) }
        // A change is refused with NoSpace only where its part lacks room, as the event found its
        // blocks, and with the part's numbers.
        ensures lacks { IsTrue B.tells → (opening : State) → IsHeld B.seen opening self.old
            → MayAct opening self.old.file unit request
            → (entered : IsEntered after unit line request self.old.file self.new.file)
            → (need free : ℕ) → entered.reply ≡ Refused (NoSpace need free) → (place : List ℕ)
            → place_changed (case_of self.old.file.geometry (state_now opening self.old.file) unit
            request) ≡ Some place
            → IsLacking self.old.store (B.seen self.old.blocks).cur place request need free }
        // A volume that stopped touches no block.
        ensures stopped { self.old.file.stopped ≢ None → self.new.blocks ≡ self.old.blocks }
        // What is handed back waits for less; and splits are entered as they are done.
        ensures nearer { IsTrue B.tells → IsNearer result unit self.old self.new }
        ensures splits { IsTrue B.tells → EntersSplits self.old self.new }
        ensures number { self.new.number ≡ self.old.number }
        ensures generation { self.new.file.stopped ≡ None
            → self.new.store.log.generation ≤ self.old.store.log.generation + 1 }
    {
        match self.refused_early(unit, request.get()) {
            Some(refusal) => {
                self.refuse_early(unit, line, request, refusal, after);
                Act::Done
            }
            None => self.serve(alloc, unit, line, request, after),
        }
    }
}
