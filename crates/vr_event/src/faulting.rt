//! Faults of the device while an event goes on.
ghost use Rattle.std.specs.Prelude.{◌≡◌, ◌<◌, ◌≤◌, ◌-◌, ◌^◌, IsTrue, None};
ghost use Rattle.vr_types.specs.Faults.{Faults};
ghost use Rattle.vr_types.specs.declared.reply.Refusal.TheVariants.{ReadFault, WriteFault};
ghost use Rattle.vr_types.specs.declared.reply.Reply.TheVariants.{Refused};
ghost use Rattle.vr_history.specs.Merged.{last_stamp};
ghost use Rattle.vr_history.specs.State.{State};
ghost use Rattle.vr_record_file.specs.Now.{MayBeAsked};
ghost use Rattle.vr_event.specs.Acting.{IsActed};
ghost use Rattle.vr_event.specs.Volume.{AreServed, IsFileHeld, IsHeld, IsWhole};
ghost use Rattle.vr_event.specs.declared.act.Act.TheVariants as acts;

use crate::volume::Volume;
use vr_space::Part;
use vr_types::{Blocks, DeviceFault, Refusal, SharedRequest, Unit};

impl<B: Blocks, P: Part> Volume<B, P> {
    /// Enters a request that a fault of a write refused, and the fault, which stops the volume,
    /// whatever its blocks have.
    pub(crate) fn stop(&mut self, unit: Unit, line: u32, request: SharedRequest, after: u64)
        requires room { 1 < self.old.file.room }
        requires last { last_stamp 0 self.old.file.entries < 2 ^ 64 - 2 }
        requires after { after < 2 ^ 64 - 2 }
        requires going { self.old.file.stopped ≡ None }
        ensures held { IsTrue B.tells → (opening : State) → IsFileHeld opening self.old
            → MayBeAsked opening self.old.file unit request (Refused WriteFault)
            → IsHeld B.seen opening self.new }
        ensures whole { AreServed self.old.file.geometry self.old.file.catalog
            → IsWhole B.seen self.new }
        ensures acted { (before now : Faults) → before.reads ≤ now.reads
            → before.writes < now.writes
            → IsActed before now acts.Done after unit line request self.old.file self.new.file }
        ensures stops { self.new.file.stopped ≡ None → ⊥ }
        ensures blocks { self.new.blocks ≡ self.old.blocks }
        ensures store { self.new.store ≡ self.old.store }
        ensures volume { self.new.number ≡ self.old.number }
    {
        self.file.fail_write(unit, line, request, after);
    }

    /// Enters a request that a fault of a read refused. No block is touched.
    pub(crate) fn refuse_read(&mut self, unit: Unit, line: u32, request: SharedRequest, after: u64)
        requires room { 0 < self.old.file.room }
        requires last { last_stamp 0 self.old.file.entries < 2 ^ 64 - 2 }
        requires after { after < 2 ^ 64 - 2 }
        ensures held { IsTrue B.tells → (opening : State) → IsHeld B.seen opening self.old
            → MayBeAsked opening self.old.file unit request (Refused ReadFault)
            → IsHeld B.seen opening self.new }
        ensures whole { IsWhole B.seen self.old → IsWhole B.seen self.new }
        ensures acted { (before now : Faults) → before.reads < now.reads
            → now.writes ≡ before.writes
            → IsActed before now acts.Done after unit line request self.old.file self.new.file }
        ensures blocks { self.new.blocks ≡ self.old.blocks }
        ensures store { self.new.store ≡ self.old.store }
        ensures volume { self.new.number ≡ self.old.number }
    {
        self.file
            .refuse(unit, line, request, Refusal::ReadFault, after);
    }
}
