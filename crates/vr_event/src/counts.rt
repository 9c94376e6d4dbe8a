//! What is counted of a cluster, for LISTCAT ALL.
ghost use Rattle.std.specs.Prelude.{◌≡◌, ◌-◌, ◌<◌, ◌^◌, [], Contains, IfOk, IsTrue, None, length};
ghost use Rattle.std.specs.Option.{option_map_or};
ghost use Rattle.vr_types.specs.Blocks.{Keeps};
ghost use Rattle.vr_types.specs.Moments.{Guards};
ghost use Rattle.vr_catalog.specs.declared.entry.EntryKind.TheVariants.{Cluster};
ghost use Rattle.vr_history.specs.Merged.{last_stamp};
ghost use Rattle.vr_history.specs.State.{State};
ghost use Rattle.vr_record_file.specs.Now.{state_now};
ghost use Rattle.vr_store.specs.Cause.{HasLookCause};
ghost use Rattle.vr_store.specs.Store.{PartNow, part_among};
ghost use Rattle.vr_volume.specs.Crashes.{RecoversTo};
ghost use Rattle.vr_event.specs.Counts as counting;
ghost use Rattle.vr_event.specs.Counts.{HasCountFaults, IsCountEntered};
ghost use Rattle.vr_event.specs.Defining.{utility_unit};
ghost use Rattle.vr_event.specs.Nearer.{EntersSplits};
ghost use Rattle.vr_event.specs.Volume.{Holds, IsHeld, IsWhole};
ghost use Rattle.vr_event.specs.declared.counts.Count.TheVariants as counts;
ghost use Rattle.vr_event.specs.declared.counts.Counts as numbers;

use crate::records::count_records;
use crate::searching::place_room;
use crate::splits::{area_splits, splits_of};
use crate::volume::Volume;
use std::alloc::Global;
use vr_catalog::CatEntry;
use vr_space::Part;
use vr_store::LookNo;
use vr_types::{Blocks, DeviceFault, OutOfMemory, PartNo, Unit};

/// What a cluster has: records, areas, and the splits of its control intervals and of its control
/// areas in this run. There may be more records than the number can say, which then is the
/// greatest.
#[derive(Clone, Copy)]
pub struct Counts {
    pub records: u64,
    pub areas: u64,
    pub interval_splits: u64,
    pub area_splits: u64,
}

/// What counting a cluster came to.
#[derive(Clone, Copy)]
pub enum Count {
    Counted(Counts),
    /// The device failed. A write that fails stops the volume.
    Fault(DeviceFault),
}

impl<B: Blocks, P: Part> Volume<B, P> {
    /// How many records a part of the catalog has, on a volume that has not stopped. Nothing is
    /// put. `Fault` is the device's, and `Memory` says that memory ran out for a place.
    fn records_of(&mut self, alloc: Global, part: PartNo) -> Result<u64, LookNo>
        requires whole { IsWhole B.seen self.old }
        requires going { self.old.file.stopped ≡ None }
        requires holds { IsTrue B.tells → Holds B.seen self.old }
        ensures counted { IsTrue B.tells → IfOk result (λ count. (opening : State)
            → IsHeld B.seen opening self.old → count ≡ counting.as_told
            (counting.records_in ((state_now opening self.old.file).contents part.0))) }
        ensures held { IsTrue B.tells → (opening : State) → IsHeld B.seen opening self.old
            → IsHeld B.seen opening self.new }
        ensures whole { IsWhole B.seen self.new }
        ensures file { self.new.file ≡ self.old.file }
        ensures store { self.new.store ≡ self.old.store }
        ensures number { self.new.number ≡ self.old.number }
        ensures keeps { Keeps B.tells (B.seen self.old.blocks) (B.seen self.new.blocks) }
        ensures moments { IsTrue B.tells → (opening : State) → IsHeld B.seen opening self.old
            → Guards (B.seen self.old.blocks) (B.seen self.new.blocks)
            (RecoversTo self.old.store.log.geometry self.old.number
            (state_now opening self.old.file) []) }
        ensures cause { HasLookCause (B.faults self.old.blocks) (B.faults self.new.blocks)
            result }
    {
        let room = place_room(self.file.catalog(), part);
        count_records(alloc, &mut self.blocks, &mut self.store, part, room)
    }

    /// What a cluster has that was found to have this many records: its areas by its chain, and its
    /// splits by the history.
    fn counts_with(&self, entry: &CatEntry, records: u64) -> Counts
        ensures { result ≡ counting.counts_with records
            (option_map_or (λ (part : PartNow). length part.known.areas)
            (part_among self.now.store.parts entry.now.part.0) 0) self.now.file.entries entry.now }
    {
        let splits = splits_of(entry.part, self.file.entries());
        Counts {
            records,
            areas: self.store.areas_of(entry.part) as u64,
            interval_splits: splits.intervals,
            area_splits: area_splits(entry.kind, splits.areas),
        }
    }

    /// Counts a cluster of the catalog, by walking its records, in one event of the utilities on a
    /// volume that has not stopped. An area that a split under way has taken, and to which the chain
    /// doesn't lead yet, isn't counted. It puts nothing, and enters nothing, but that a fault of a
    /// write stops the volume. `OutOfMemory`: memory ran out for a place.
    pub fn count(
        &mut self,
        alloc: Global,
        line: u32,
        entry: &CatEntry,
        after: u64,
    ) -> Result<Count, OutOfMemory>
        requires whole { IsWhole B.seen self.old }
        requires going { self.old.file.stopped ≡ None }
        requires room { 0 < self.old.file.room }
        requires last { last_stamp 0 self.old.file.entries < 2 ^ 64 - 2 }
        requires after { after < 2 ^ 64 - 2 }
        requires entry { Contains self.old.file.catalog entry.now }
        requires cluster { entry.now.entry_kind ≡ Cluster }
        requires holds { IsTrue B.tells → Holds B.seen self.old }
        ensures held { IsTrue B.tells → (opening : State) → IsHeld B.seen opening self.old
            → IsHeld B.seen opening self.new }
        ensures whole { IsWhole B.seen self.new }
        ensures entered { IsCountEntered result after (utility_unit self.old.file) line
            self.old.file self.new.file }
        // What it counts is what the state has that the history gives.
        ensures counted { IsTrue B.tells → IfOk result (λ count. (found : numbers.Counts)
            → count ≡ counts.Counted found → (opening : State) → IsHeld B.seen opening self.old
            → counting.AreCounts (state_now opening self.old.file) self.old.file.entries entry.now
            found) }
        // Its areas are those of its chain, as the part keeps them in memory.
        ensures chain { IfOk result (λ count. (found : numbers.Counts)
            → count ≡ counts.Counted found → found.areas
            ≡ option_map_or (λ (part : PartNow). length part.known.areas)
            (part_among self.old.store.parts entry.now.part.0) 0) }
        ensures keeps { Keeps B.tells (B.seen self.old.blocks) (B.seen self.new.blocks) }
        // At every moment, whether it fails or not: what was committed before.
        ensures moments { IsTrue B.tells → (opening : State) → IsHeld B.seen opening self.old
            → Guards (B.seen self.old.blocks) (B.seen self.new.blocks)
            (RecoversTo self.old.store.log.geometry self.old.number
            (state_now opening self.old.file) []) }
        ensures cause { HasCountFaults (B.faults self.old.blocks) (B.faults self.new.blocks)
            result }
        // No fault is hidden: where the volume didn't stop no write or sync failed.
        ensures quiet { self.new.file.stopped ≡ self.old.file.stopped
            → (B.faults self.new.blocks).writes ≡ (B.faults self.old.blocks).writes }
        ensures store { self.new.store ≡ self.old.store }
        // It splits no interval, and enters no split.
        ensures splits { EntersSplits self.old self.new }
        ensures number { self.new.number ≡ self.old.number }
    {
        match self.records_of(alloc, entry.part) {
            Ok(records) => Ok(Count::Counted(self.counts_with(entry, records))),
            Err(LookNo::Memory) => Err(OutOfMemory),
            Err(LookNo::Fault(DeviceFault::Read)) => Ok(Count::Fault(DeviceFault::Read)),
            Err(LookNo::Fault(DeviceFault::Write)) => {
                let unit = Unit {
                    deck: 0,
                    number: self.file.number(0),
                };
                self.enter_fault(unit, line, after);
                Ok(Count::Fault(DeviceFault::Write))
            }
        }
    }
}
