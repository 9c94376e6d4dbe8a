//! A cluster, read through.
ghost use Rattle.std.specs.Prelude.{◌≡◌, ◌-◌, ◌<◌, ◌^◌, [], Contains, IfOk, IsTrue, None, OnOk};
ghost use Rattle.std.specs.Option.{option_copied};
ghost use Rattle.vr_types.specs.Blocks.{Keeps};
ghost use Rattle.vr_types.specs.Moments.{Guards};
ghost use Rattle.vr_trace.specs.Visitors.{visited_by};
ghost use Rattle.vr_catalog.specs.declared.entry.EntryKind.TheVariants.{Cluster};
ghost use Rattle.vr_history.specs.Merged.{last_stamp};
ghost use Rattle.vr_history.specs.State.{State};
ghost use Rattle.vr_record_file.specs.Now.{state_now};
ghost use Rattle.vr_store.specs.Cause.{HasLookCause};
ghost use Rattle.vr_volume.specs.Crashes.{RecoversTo};
ghost use Rattle.vr_event.specs.Defining.{utility_unit};
ghost use Rattle.vr_event.specs.Nearer.{EntersSplits};
ghost use Rattle.vr_event.specs.Reading.{HasReadFaults, HasVisited, HasVisitedSome, IsReadEntered};
ghost use Rattle.vr_event.specs.Reading.{IsReadThrough, UnlessMemory, first_records};
ghost use Rattle.vr_event.specs.Volume.{Holds, IsHeld, IsWhole};

use crate::handing::hand_records;
use crate::searching::place_room;
use crate::volume::Volume;
use std::alloc::Global;
use vr_catalog::CatEntry;
use vr_space::Part;
use vr_store::LookNo;
use vr_trace::RecordVisitor;
use vr_types::{Blocks, DeviceFault, OutOfMemory, PartNo, Place, Unit};

/// What reading a cluster through came to.
#[derive(Clone, Copy)]
pub enum ReadThrough {
    /// The visitor is done, or there are no more records.
    Done,
    /// The device failed. A write that fails stops the volume.
    Fault(DeviceFault),
}

impl<B: Blocks, P: Part> Volume<B, P> {
    /// Hands the records of a part of the catalog to a visitor, on a volume that has not stopped.
    /// Nothing is put. `Fault` is the device's, and `Memory` says that memory ran out, for a place
    /// or to the visitor.
    fn hand_part<R: RecordVisitor>(
        &mut self,
        alloc: Global,
        part: PartNo,
        from: Option<&Place>,
        visitor: &mut R,
    ) -> Result<(), LookNo>
        requires whole { IsWhole B.seen self.old }
        requires going { self.old.file.stopped ≡ None }
        requires holds { IsTrue B.tells → Holds B.seen self.old }
        ensures all { IsTrue B.tells → OnOk result ((opening : State)
            → IsHeld B.seen opening self.old → visitor.new
            ≡ visited_by R.after R.done (first_records (2 ^ 64 - 1) (option_copied from.entry)
            ((state_now opening self.old.file).contents part.0)) visitor.old) }
        ensures first { IsTrue B.tells → UnlessMemory result ((opening : State)
            → IsHeld B.seen opening self.old
            → HasVisitedSome R.after R.done (option_copied from.entry)
            ((state_now opening self.old.file).contents part.0) visitor.old visitor.new) }
        ensures visited { UnlessMemory result
            (HasVisited R.after R.done visitor.old visitor.new) }
        ensures held { IsTrue B.tells → (opening : State) → IsHeld B.seen opening self.old
            → IsHeld B.seen opening self.new }
        ensures whole { IsWhole B.seen self.new }
        ensures file { self.new.file ≡ self.old.file }
        ensures store { self.new.store ≡ self.old.store }
        ensures number { self.new.number ≡ self.old.number }
        ensures keeps { Keeps B.tells (B.seen self.old.blocks) (B.seen self.new.blocks) }
        ensures moments { IsTrue B.tells → (opening : State) → IsHeld B.seen opening self.old
            → Guards (B.seen self.old.blocks) (B.seen self.new.blocks)
            (RecoversTo self.old.store.log.geometry self.old.number
            (state_now opening self.old.file) []) }
        ensures cause { HasLookCause (B.faults self.old.blocks) (B.faults self.new.blocks)
            result }
    {
        let room = place_room(self.file.catalog(), part);
        hand_records(
            alloc,
            &mut self.blocks,
            &mut self.store,
            &self.file,
            part,
            room,
            from,
            visitor,
        )
    }

    /// Hands the records of a cluster of the catalog to a visitor, in the order of their places, in
    /// one event of the utilities on a volume that has not stopped: from the first that has the
    /// place `from` or one past it, or from the first of all, until the visitor is done or there
    /// are no more, as far as 64 bits count them. It puts nothing and enters nothing, but that a
    /// fault of a write stops the volume. Where the device failed, the visitor has the first of
    /// them. Where memory ran out (`OutOfMemory`: for a place, or to the visitor), it may have a
    /// part of them.
    pub fn read_through<R: RecordVisitor>(
        &mut self,
        alloc: Global,
        line: u32,
        entry: &CatEntry,
        from: Option<&Place>,
        after: u64,
        visitor: &mut R,
    ) -> Result<ReadThrough, OutOfMemory>
        requires whole { IsWhole B.seen self.old }
        requires going { self.old.file.stopped ≡ None }
        requires room { 0 < self.old.file.room }
        requires last { last_stamp 0 self.old.file.entries < 2 ^ 64 - 2 }
        requires after { after < 2 ^ 64 - 2 }
        requires entry { Contains self.old.file.catalog entry.now }
        requires cluster { entry.now.entry_kind ≡ Cluster }
        requires holds { IsTrue B.tells → Holds B.seen self.old }
        ensures held { IsTrue B.tells → (opening : State) → IsHeld B.seen opening self.old
            → IsHeld B.seen opening self.new }
        ensures whole { IsWhole B.seen self.new }
        ensures entered { IsReadEntered result after (utility_unit self.old.file) line
            self.old.file self.new.file }
        // Of a device that reports its contents the records are those of the state that the history
        // gives: all that come, or where the device failed, the first of them.
        ensures read { IsTrue B.tells → IfOk result (λ through. (opening : State)
            → IsHeld B.seen opening self.old
            → IsReadThrough R.after R.done through (option_copied from.entry)
            ((state_now opening self.old.file).contents entry.now.part.0) visitor.old visitor.new) }
        // Whatever the device reports: some records, one after another.
        ensures visited { OnOk result (HasVisited R.after R.done visitor.old visitor.new) }
        ensures keeps { Keeps B.tells (B.seen self.old.blocks) (B.seen self.new.blocks) }
        // At every moment, whether it fails or not: what was committed before.
        ensures moments { IsTrue B.tells → (opening : State) → IsHeld B.seen opening self.old
            → Guards (B.seen self.old.blocks) (B.seen self.new.blocks)
            (RecoversTo self.old.store.log.geometry self.old.number
            (state_now opening self.old.file) []) }
        ensures cause { HasReadFaults (B.faults self.old.blocks) (B.faults self.new.blocks)
            result }
        // No fault is hidden: where the volume didn't stop no write or sync failed.
        ensures quiet { self.new.file.stopped ≡ self.old.file.stopped
            → (B.faults self.new.blocks).writes ≡ (B.faults self.old.blocks).writes }
        ensures store { self.new.store ≡ self.old.store }
        // It splits no interval, and enters no split.
        ensures splits { EntersSplits self.old self.new }
        ensures number { self.new.number ≡ self.old.number }
    {
        match self.hand_part(alloc, entry.part, from, visitor) {
            Ok(()) => Ok(ReadThrough::Done),
            Err(LookNo::Memory) => Err(OutOfMemory),
            Err(LookNo::Fault(DeviceFault::Read)) => Ok(ReadThrough::Fault(DeviceFault::Read)),
            Err(LookNo::Fault(DeviceFault::Write)) => {
                let unit = Unit {
                    deck: 0,
                    number: self.file.number(0),
                };
                self.enter_fault(unit, line, after);
                Ok(ReadThrough::Fault(DeviceFault::Write))
            }
        }
    }
}
