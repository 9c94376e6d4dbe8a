//! What is decided of a request, entered.
ghost use Rattle.std.specs.Prelude.{◌≡◌, ◌<◌, ◌-◌, ◌^◌, IsSome, IsTrue, None, OnErr, OnOk, false};
ghost use Rattle.vr_types.specs.declared.reply.Refusal.TheVariants.{WriteFault};
ghost use Rattle.vr_types.specs.declared.reply.Reply.TheVariants as replies;
ghost use Rattle.vr_types.specs.declared.request.FileRef as files;
ghost use Rattle.vr_history.specs.Case as cases;
ghost use Rattle.vr_history.specs.Legal.{is_write_fault as writes};
ghost use Rattle.vr_history.specs.Merged.{last_stamp};
ghost use Rattle.vr_history.specs.State.{State};
ghost use Rattle.vr_history.specs.Step.{case_of, stand_refused};
ghost use Rattle.vr_record_file.specs.Now.{CanSet, MayBeAsked, failed, state_now};
ghost use Rattle.vr_types.specs.Faults.{Faults};
ghost use Rattle.vr_event.specs.Cause.{HasGetCause, HasOutcomeCause, HasReplyCause};
ghost use Rattle.vr_event.specs.Cause.{IsEnteredFor, is_faulted};
ghost use Rattle.vr_event.specs.Getting.{HasEntered, IsAsked, IsEntered, MayEnd};
ghost use Rattle.vr_event.specs.declared.getting.Outcome.TheVariants as outcomes;
ghost use Rattle.vr_event.specs.Volume.{IsHeld, IsWhole};

use crate::getting::Outcome;
use crate::volume::Volume;
use std::alloc::Global;
use vr_locks::LockNo;
use vr_space::Part;
use vr_types::{Blocks, LockNames, Place, Refusal, Reply, SharedRequest, Unit};

/// Whether a refusal is that of a fault of a write.
fn is_write_fault(refusal: &Refusal) -> bool
    ensures { result ≡ writes (replies.Refused refusal.now) }
{
    matches!(refusal, Refusal::WriteFault)
}

impl<B: Blocks, P: Part> Volume<B, P> {
    /// Enters a request that a fault of a write refused, and the fault, which stops the volume.
    pub(crate) fn fail_write(&mut self, unit: Unit, line: u32, request: SharedRequest, after: u64)
        requires room { 1 < self.old.file.room }
        requires last { last_stamp 0 self.old.file.entries < 2 ^ 64 - 2 }
        requires after { after < 2 ^ 64 - 2 }
        requires going { self.old.file.stopped ≡ None }
        ensures held { IsTrue B.tells → (opening : State) → IsHeld B.seen opening self.old
            → MayBeAsked opening self.old.file unit request (replies.Refused WriteFault)
            → IsHeld B.seen opening self.new }
        ensures whole { IsWhole B.seen self.old → IsWhole B.seen self.new }
        ensures entered { self.new.file ≡ failed after unit line request self.old.file }
        ensures blocks { self.new.blocks ≡ self.old.blocks }
        ensures store { self.new.store ≡ self.old.store }
        ensures volume { self.new.number ≡ self.old.number }
    {
        self.file.fail_write(unit, line, request, after);
    }

    /// Enters a request that is refused, which may move its file; a fault of a write stops the
    /// volume. No block is touched, and what the blocks hold stays what the history gives.
    pub(crate) fn enter_refused(
        &mut self,
        unit: Unit,
        line: u32,
        request: SharedRequest,
        refusal: Refusal,
        after: u64,
    )
        requires room { 1 < self.old.file.room }
        requires files { IsSome (stand_refused request refusal)
            → CanSet self.old.file unit.deck (cases.file_of request) }
        requires last { last_stamp 0 self.old.file.entries < 2 ^ 64 - 2 }
        requires after { after < 2 ^ 64 - 2 }
        requires going { self.old.file.stopped ≡ None }
        ensures held { IsTrue B.tells → (opening : State) → IsHeld B.seen opening self.old
            → MayBeAsked opening self.old.file unit request (replies.Refused refusal)
            → IsHeld B.seen opening self.new }
        ensures whole { IsWhole B.seen self.old → IsWhole B.seen self.new }
        ensures entered { HasEntered after unit line request self.old.file self.new.file }
        ensures replied { (entered : IsEntered after unit line request self.old.file self.new.file)
            → entered.reply ≡ replies.Refused refusal }
        ensures cause { (before now : Faults) → HasReplyCause before now (replies.Refused refusal)
            → HasGetCause before now after unit line request self.old.file self.new.file }
        ensures blocks { self.new.blocks ≡ self.old.blocks }
        ensures store { self.new.store ≡ self.old.store }
        ensures volume { self.new.number ≡ self.old.number }
    {
        if is_write_fault(&refusal) {
            self.fail_write(unit, line, request, after);
        } else {
            self.refuse(unit, line, request, refusal, after);
        }
    }

    /// Enters a GET that is done, with the locks that it takes. Where it fails, memory ran out or a
    /// lock is in the way, and nothing changes.
    fn try_read(
        &mut self,
        alloc: Global,
        unit: Unit,
        line: u32,
        request: &SharedRequest,
        reply: Reply,
        names: &LockNames,
        at: &Place,
        held: Option<Place>,
        after: u64,
    ) -> Result<(), LockNo>
        requires room { 0 < self.old.file.room }
        requires files { CanSet self.old.file unit.deck (cases.file_of request.now) }
        requires last { last_stamp 0 self.old.file.entries < 2 ^ 64 - 2 }
        requires after { after < 2 ^ 64 - 2 }
        ensures held { OnOk result (IsTrue B.tells → (opening : State)
            → IsHeld B.seen opening self.old → IsAsked opening self.old.file unit request.now
            → MayEnd (case_of self.old.file.geometry (state_now opening self.old.file) unit
            request.now) (outcomes.Done reply names.now at.now held)
            → IsHeld B.seen opening self.new) }
        ensures whole { IsWhole B.seen self.old → IsWhole B.seen self.new }
        ensures entered { OnOk result
            (IsEntered after unit line request.now self.old.file self.new.file) }
        ensures replied { OnOk result ((before now : Faults) → HasReplyCause before now reply
            → is_faulted reply ≡ false
            → IsEnteredFor before now after unit line request.now self.old.file self.new.file) }
        ensures same { OnErr result (self.new ≡ self.old) }
        ensures blocks { self.new.blocks ≡ self.old.blocks }
        ensures store { self.new.store ≡ self.old.store }
        ensures volume { self.new.number ≡ self.old.number }
    {
        let stand = self.file.stand_read(alloc, unit, request.get(), at)?;
        let shared = request.share()?;
        self.file
            .read(unit, line, shared, reply, names, stand, held, after)
    }

    /// Enters a GET that is done, and takes its locks, in memory that may run out: then it is
    /// refused for that.
    fn enter_read(
        &mut self,
        alloc: Global,
        unit: Unit,
        line: u32,
        request: SharedRequest,
        reply: Reply,
        names: LockNames,
        at: Place,
        held: Option<Place>,
        after: u64,
    )
        requires room { 1 < self.old.file.room }
        requires files { CanSet self.old.file unit.deck (cases.file_of request) }
        requires last { last_stamp 0 self.old.file.entries < 2 ^ 64 - 2 }
        requires after { after < 2 ^ 64 - 2 }
        ensures held { IsTrue B.tells → (opening : State) → IsHeld B.seen opening self.old
            → IsAsked opening self.old.file unit request
            → MayEnd (case_of self.old.file.geometry (state_now opening self.old.file) unit request)
            (outcomes.Done reply names at held) → IsHeld B.seen opening self.new }
        ensures whole { IsWhole B.seen self.old → IsWhole B.seen self.new }
        ensures entered { HasEntered after unit line request self.old.file self.new.file }
        ensures cause { (before now : Faults) → HasReplyCause before now reply
            → is_faulted reply ≡ false
            → HasGetCause before now after unit line request self.old.file self.new.file }
        ensures blocks { self.new.blocks ≡ self.old.blocks }
        ensures store { self.new.store ≡ self.old.store }
        ensures volume { self.new.number ≡ self.old.number }
    {
        match self.try_read(alloc, unit, line, &request, reply, &names, &at, held, after) {
            Ok(()) => {}
            Err(_) => self.refuse(unit, line, request, Refusal::Memory, after),
        }
    }

    /// Enters a POINT that is done. No block is touched.
    fn enter_point(
        &mut self,
        unit: Unit,
        line: u32,
        request: SharedRequest,
        reply: Reply,
        at: Place,
        after: u64,
    )
        requires room { 0 < self.old.file.room }
        requires files { CanSet self.old.file unit.deck (cases.file_of request) }
        requires last { last_stamp 0 self.old.file.entries < 2 ^ 64 - 2 }
        requires after { after < 2 ^ 64 - 2 }
        ensures held { IsTrue B.tells → (opening : State) → IsHeld B.seen opening self.old
            → IsAsked opening self.old.file unit request
            → MayEnd (case_of self.old.file.geometry (state_now opening self.old.file) unit request)
            (outcomes.Pointed reply at) → IsHeld B.seen opening self.new }
        ensures whole { IsWhole B.seen self.old → IsWhole B.seen self.new }
        ensures entered { IsEntered after unit line request self.old.file self.new.file }
        ensures replied { (before now : Faults) → HasReplyCause before now reply
            → is_faulted reply ≡ false
            → IsEnteredFor before now after unit line request self.old.file self.new.file }
        ensures blocks { self.new.blocks ≡ self.old.blocks }
        ensures store { self.new.store ≡ self.old.store }
        ensures volume { self.new.number ≡ self.old.number }
    {
        self.file.point(unit, line, request, reply, at, after);
    }

    /// Enters a read.
    pub(crate) fn enter_outcome(
        &mut self,
        alloc: Global,
        unit: Unit,
        line: u32,
        request: SharedRequest,
        outcome: Outcome,
        after: u64,
    )
        requires room { 1 < self.old.file.room }
        requires files { CanSet self.old.file unit.deck (cases.file_of request) }
        requires last { last_stamp 0 self.old.file.entries < 2 ^ 64 - 2 }
        requires after { after < 2 ^ 64 - 2 }
        requires going { self.old.file.stopped ≡ None }
        ensures held { IsTrue B.tells → (opening : State) → IsHeld B.seen opening self.old
            → IsAsked opening self.old.file unit request
            → MayEnd (case_of self.old.file.geometry (state_now opening self.old.file) unit request)
            outcome → IsHeld B.seen opening self.new }
        ensures whole { IsWhole B.seen self.old → IsWhole B.seen self.new }
        ensures entered { HasEntered after unit line request self.old.file self.new.file }
        ensures cause { (before now : Faults) → HasOutcomeCause before now outcome
            → HasGetCause before now after unit line request self.old.file self.new.file }
        ensures blocks { self.new.blocks ≡ self.old.blocks }
        ensures store { self.new.store ≡ self.old.store }
        ensures volume { self.new.number ≡ self.old.number }
    {
        match outcome {
            Outcome::Refused(refusal) => self.enter_refused(unit, line, request, refusal, after),
            Outcome::Done {
                reply,
                names,
                at,
                held,
            } => {
                self.enter_read(alloc, unit, line, request, reply, names, at, held, after);
            }
            Outcome::Pointed { reply, at } => {
                self.enter_point(unit, line, request, reply, at, after);
            }
        }
    }
}
