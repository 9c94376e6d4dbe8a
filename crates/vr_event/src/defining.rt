//! DEFINE of a cluster as one event of a volume.
ghost use Rattle.std.specs.Prelude.{◌≡◌, ◌≢◌, ◌⊎◌, ◌<◌, ◌≤◌, ◌+◌, ◌-◌, ◌^◌, ℕ, IfOk, IfSome};
ghost use Rattle.std.specs.Prelude.{IsTrue, List, None, Ok, OnOk, Some, [], false, length, true};
ghost use Rattle.vr_types.specs.Faults.{HasCause};
ghost use Rattle.vr_types.specs.Geometry.{area_count};
ghost use Rattle.vr_types.specs.LogSpace.{IsLogFull, log_size};
ghost use Rattle.vr_types.specs.Locks.{first_conflict};
ghost use Rattle.vr_types.specs.Moments.{Guards};
ghost use Rattle.vr_types.specs.Space.{least_free};
ghost use Rattle.vr_types.specs.declared.fault.DeviceFault.TheVariants.{Write};
ghost use Rattle.vr_types.specs.declared.unit.AreaNo as areas;
ghost use Rattle.vr_types.specs.declared.unit.Unit as units;
ghost use Rattle.vr_types.specs.declared.unit.Mode.TheVariants.{Exclusive};
ghost use Rattle.vr_attach.specs.Laid.{shape_of};
ghost use Rattle.vr_catalog.specs.declared.entry.CatEntry as entries;
ghost use Rattle.vr_log.specs.Live.{used_by};
ghost use Rattle.vr_history.specs.Merged.{last_stamp};
ghost use Rattle.vr_history.specs.State.{State};
ghost use Rattle.vr_record_file.specs.Defining.{MayDefine, defined, entry_name, failed_to_define};
ghost use Rattle.vr_record_file.specs.Defining.{need_to_define};
ghost use Rattle.vr_record_file.specs.Now.{IsStateOf, faulted, has_deck, number_of, state_now};
ghost use Rattle.vr_space.specs.Part.{owned_count};
ghost use Rattle.vr_volume.specs.Crashes.{RecoversTo};
ghost use Rattle.vr_store.specs.Change.{IsSettable};
ghost use Rattle.vr_store.specs.Left.{left_for};
ghost use Rattle.vr_store.specs.Parts.{MeetsNext, OnlyMet};
ghost use Rattle.vr_store.specs.Room.{IsDueAt, IsRoomAt};
ghost use Rattle.vr_store.specs.Store.{shape_among};
ghost use Rattle.vr_event.specs.Defining.{EnteredBy, FaultsBy, HasDefineFaults};
ghost use Rattle.vr_event.specs.Defining.{IsDefineEntered, IsLeftDefining, IsNewCluster};
ghost use Rattle.vr_event.specs.Defining.{entry_place, entry_with_area, record_length};
ghost use Rattle.vr_event.specs.Defining.{utility_unit};
ghost use Rattle.vr_event.specs.DefineSteps.{HasCome, HasComeHeld, IsStageOrFault};
ghost use Rattle.vr_event.specs.DefineSteps.{LacksRoomWhere, MayAdd, MayDefineNow};
ghost use Rattle.vr_event.specs.Nearer.{EntersSplits, LeavesLess};
ghost use Rattle.vr_event.specs.NewCluster.{IsPreparedFor};
ghost use Rattle.vr_event.specs.Putting.{HasMetAt};
ghost use Rattle.vr_event.specs.Volume.{AreServed, Holds, IsFileHeld, IsHeld, IsWhole};
ghost use Rattle.vr_event.specs.declared.define.Define.TheVariants as defines;

use crate::define::Define;
use crate::new_cluster::{NewCluster, log_has_room, prepare};
use crate::staging::{area_taken, splits_interval};
use crate::volume::Volume;
use std::alloc::Global;
use vr_catalog::{CatEntry, RECORD_LENGTH};
use vr_space::{Part, Room};
use vr_start::Start;
use vr_store::DefineNo;
use vr_types::{AreaNo, Blocks, DeviceFault, Mode, OutOfMemory, PartNo, Place, Unit};

/// The catalog.
pub(crate) const CATALOG: PartNo = PartNo(0);

impl<B: Blocks, P: Part> Volume<B, P> {
    /// What in memory is in the way of a definition: a lock of a unit of a deck on the place of its
    /// record, or the log.
    fn hindrance(&self, unit: Unit, new: &NewCluster) -> Option<Define>
        requires whole { IsWhole B.seen self.now }
        requires going { self.now.file.stopped ≡ None }
        ensures is { IfSome result (λ define. (define ≡ defines.Held) ⊎ (define ≡ defines.Full)) }
        ensures kept_out { IfSome result (λ define. define ≡ defines.Held
            → first_conflict self.now.file.locks unit Exclusive new.now.name ≢ None) }
        ensures full { IfSome result (λ define. define ≡ defines.Full
            → IsLogFull self.now.store.log.geometry (used_by self.now.store.log.records)
            (need_to_define new.now.place)) }
        ensures unlocked { result ≡ None
            → first_conflict self.now.file.locks unit Exclusive new.now.name ≡ None }
        ensures room { result ≡ None → used_by self.now.store.log.records
            + need_to_define new.now.place ≤ log_size self.now.file.geometry }
    {
        if self.file.is_in_the_way(unit, &new.name, Mode::Exclusive) {
            return Some(Define::Held);
        }
        if log_has_room(self.file.geometry(), self.store.used(), &new.place) {
            None
        } else {
            Some(Define::Full)
        }
    }

    /// Enters a fault of a write that met a definition of which nothing was done, which stops the
    /// volume. It takes no memory.
    pub(crate) fn enter_fault(&mut self, unit: Unit, line: u32, after: u64)
        requires room { 0 < self.old.file.room }
        requires last { last_stamp 0 self.old.file.entries < 2 ^ 64 - 2 }
        requires after { after < 2 ^ 64 - 2 }
        requires going { self.old.file.stopped ≡ None }
        ensures held { IsTrue B.tells → (opening : State) → IsFileHeld opening self.old
            → IsHeld B.seen opening self.new }
        ensures whole { AreServed self.old.file.geometry self.old.file.catalog
            → IsWhole B.seen self.new }
        ensures leaves { self.new.file ≡ faulted after unit line self.old.file }
        ensures state { (opening : State) → IsStateOf opening self.old.file
            → IsStateOf opening self.new.file }
        ensures blocks { self.new.blocks ≡ self.old.blocks }
        ensures store { self.new.store ≡ self.old.store }
        ensures volume { self.new.number ≡ self.old.number }
    {
        self.file.fault(unit, line, after);
    }

    /// Asks for room for a record in the catalog. A fault is the device's.
    pub(crate) fn ask_entry(&mut self, place: &Place) -> Result<Room, DeviceFault>
        requires whole { IsWhole B.seen self.old }
        requires going { self.old.file.stopped ≡ None }
        requires place { length place.now ≡ 44 }
        requires holds { IsTrue B.tells → Holds B.seen self.old }
        ensures answer { IsTrue B.tells → IfOk result (λ room. IsRoomAt self.old.store
            (B.seen self.old.blocks).cur 0 place.now record_length room) }
        ensures still { IsTrue B.tells → IfOk result (λ room. IsRoomAt self.new.store
            (B.seen self.new.blocks).cur 0 place.now record_length room) }
        ensures met { OnOk result (HasMetAt self.new.store.parts 0 place.now) }
        ensures next { OnOk result
            (MeetsNext 0 place.now self.old.store.parts self.new.store.parts) }
        ensures content { IsTrue B.tells
            → (B.seen self.new.blocks).cur ≡ (B.seen self.old.blocks).cur }
        ensures held { IsTrue B.tells → (opening : State) → IsHeld B.seen opening self.old
            → IsHeld B.seen opening self.new }
        ensures whole { IsWhole B.seen self.new }
        ensures moments { IsTrue B.tells → (opening : State) → IsHeld B.seen opening self.old
            → Guards (B.seen self.old.blocks) (B.seen self.new.blocks)
            (RecoversTo self.old.store.log.geometry self.old.number
            (state_now opening self.old.file) []) }
        ensures file { self.new.file ≡ self.old.file }
        ensures number { self.new.number ≡ self.old.number }
        ensures parts { OnlyMet 0 self.old.store.parts self.new.store.parts }
        ensures rest { self.new.store ≡ record self.old.store { parts = self.new.store.parts } }
        ensures cause { HasCause (B.faults self.old.blocks) (B.faults self.new.blocks) result }
    {
        self.store
            .ask_room(&mut self.blocks, CATALOG, place, RECORD_LENGTH as u32)
    }

    /// Does the stage of the catalog that comes before a record, and enters that an interval was
    /// split in two, or that the catalog took an area, where it was. A fault of a write stops the
    /// volume.
    pub(crate) fn stage_entry(&mut self, unit: Unit, line: u32, place: &Place, after: u64) -> Define
        requires whole { IsWhole B.seen self.old }
        requires going { self.old.file.stopped ≡ None }
        requires room { 0 < self.old.file.room }
        requires last { last_stamp 0 self.old.file.entries < 2 ^ 64 - 2 }
        requires after { after < 2 ^ 64 - 2 }
        requires place { length place.now ≡ 44 }
        requires due { IsTrue B.tells → IsDueAt self.old.store (B.seen self.old.blocks).cur 0
            place.now record_length }
        requires holds { IsTrue B.tells → Holds B.seen self.old }
        ensures held { IsTrue B.tells → (opening : State) → IsHeld B.seen opening self.old
            → IsHeld B.seen opening self.new }
        ensures whole { IsWhole B.seen self.new }
        ensures entered { (entry : entries.CatEntry) → EnteredBy result self.old.number after unit
            line entry self.old.file self.new.file }
        ensures moments { IsTrue B.tells → (opening : State) → IsHeld B.seen opening self.old
            → Guards (B.seen self.old.blocks) (B.seen self.new.blocks)
            (RecoversTo self.old.store.log.geometry self.old.number
            (state_now opening self.old.file) []) }
        ensures is { IsStageOrFault result }
        ensures less { IsTrue B.tells → LeavesLess (result ≡ defines.Again) self.old self.new }
        ensures stops { result ≡ defines.Fault Write
            → self.new.file ≡ faulted after unit line self.old.file }
        ensures cause { FaultsBy result (B.faults self.old.blocks) (B.faults self.new.blocks) }
        ensures number { self.new.number ≡ self.old.number }
        ensures generation { self.new.store.log.generation ≡ self.old.store.log.generation }
    {
        let least = self.store.least_free();
        let free = self.store.free_areas();
        match self
            .store
            .advance(&mut self.blocks, CATALOG, place, RECORD_LENGTH as u32)
        {
            Ok(kind) => {
                let taken = area_taken(least, free, self.store.free_areas());
                self.enter_stage(unit, line, CATALOG, splits_interval(kind), taken, after);
                Define::Again
            }
            Err(DeviceFault::Read) => Define::Fault(DeviceFault::Read),
            Err(DeviceFault::Write) => {
                self.enter_fault(unit, line, after);
                Define::Fault(DeviceFault::Write)
            }
        }
    }

    /// Enters a definition that the store has done. It takes no memory.
    fn enter_defined(&mut self, unit: Unit, line: u32, new: NewCluster, after: u64) -> Define
        requires room { 3 ≤ self.old.file.room }
        requires last { last_stamp 0 self.old.file.entries < 2 ^ 64 - 4 }
        requires after { after < 2 ^ 64 - 4 }
        requires deck { has_deck unit.deck self.old.file.numbers ≡ true }
        requires number { number_of self.old.file.numbers unit.deck < 2 ^ 32 - 1 }
        ensures done { result ≡ defines.Done new.area }
        ensures leaves { self.new.file ≡ defined after unit line new.part new.area new.add new.shown
            new.commit new.catalog self.old.file }
        ensures state { (opening : State) (bytes : List ℕ) → IsStateOf opening self.old.file
            → MayDefine opening self.old.file unit new.part new.area new.add new.shown bytes
            new.commit new.catalog
            → IsStateOf opening self.new.file }
        ensures blocks { self.new.blocks ≡ self.old.blocks }
        ensures store { self.new.store ≡ self.old.store }
        ensures volume { self.new.number ≡ self.old.number }
    {
        let NewCluster {
            part,
            area,
            add,
            shown,
            commit,
            catalog,
            ..
        } = new;
        self.file
            .define(unit, line, part, area, add, shown, commit, catalog, after);
        Define::Done { area }
    }

    /// Enters a definition in which a write failed, which stops the volume. It takes no memory.
    fn enter_in_doubt(&mut self, unit: Unit, line: u32, new: NewCluster, after: u64) -> Define
        requires room { 4 ≤ self.old.file.room }
        requires last { last_stamp 0 self.old.file.entries < 2 ^ 64 - 4 }
        requires after { after < 2 ^ 64 - 4 }
        requires going { self.old.file.stopped ≡ None }
        ensures fault { result ≡ defines.Fault Write }
        ensures leaves { self.new.file ≡ failed_to_define after unit line new.part new.area new.add
            new.shown new.commit new.catalog self.old.file }
        ensures state { (opening : State) (bytes : List ℕ) → IsStateOf opening self.old.file
            → MayDefine opening self.old.file unit new.part new.area new.add new.shown bytes
            new.commit new.catalog
            → IsStateOf opening self.new.file }
        ensures blocks { self.new.blocks ≡ self.old.blocks }
        ensures store { self.new.store ≡ self.old.store }
        ensures volume { self.new.number ≡ self.old.number }
    {
        let NewCluster {
            part,
            area,
            add,
            shown,
            commit,
            catalog,
            ..
        } = new;
        self.file
            .fail_definition(unit, line, part, area, add, shown, commit, catalog, after);
        Define::Fault(DeviceFault::Write)
    }

    /// Whether an area is the least free one.
    fn is_least_free(&self, area: AreaNo) -> bool
        ensures free { IsTrue result → least_free self.now.store.space ≡ Some area.0 }
        ensures taken { result ≡ false → least_free self.now.store.space ≢ Some area.0 }
    {
        match self.store.least_free() {
            Some(least) => least.0 == area.0,
            None => false,
        }
    }

    /// Enters a definition in which a write failed, which stops the volume. Where its area is free
    /// still, nothing of it was logged, and the fault alone is entered. It takes no memory.
    fn enter_failed(&mut self, unit: Unit, line: u32, new: NewCluster, after: u64) -> Define
        requires room { 4 ≤ self.old.file.room }
        requires last { last_stamp 0 self.old.file.entries < 2 ^ 64 - 4 }
        requires after { after < 2 ^ 64 - 4 }
        requires going { self.old.file.stopped ≡ None }
        ensures fault { result ≡ defines.Fault Write }
        ensures free { least_free self.old.store.space ≡ Some new.area.0
            → self.new.file ≡ faulted after unit line self.old.file }
        ensures taken { least_free self.old.store.space ≢ Some new.area.0
            → self.new.file ≡ failed_to_define after unit line new.part new.area new.add new.shown
            new.commit new.catalog self.old.file }
        ensures state { (opening : State) (bytes : List ℕ) → IsStateOf opening self.old.file
            → MayDefine opening self.old.file unit new.part new.area new.add new.shown bytes
            new.commit new.catalog
            → IsStateOf opening self.new.file }
        ensures blocks { self.new.blocks ≡ self.old.blocks }
        ensures store { self.new.store ≡ self.old.store }
        ensures volume { self.new.number ≡ self.old.number }
    {
        if self.is_least_free(new.area) {
            self.enter_fault(unit, line, after);
            drop(new);
            Define::Fault(DeviceFault::Write)
        } else {
            self.enter_in_doubt(unit, line, new, after)
        }
    }
}

impl<B: Blocks, P: Start + Drop> Volume<B, P> {
    /// Defines a cluster for which there is room: its part is laid, its record is added to the
    /// catalog, and its unit is committed, all in the store; then that is entered. A fault of a
    /// write stops the volume.
    fn add_cluster(
        &mut self,
        alloc: Global,
        unit: Unit,
        line: u32,
        entry: &CatEntry,
        new: NewCluster,
        after: u64,
    ) -> Result<Define, OutOfMemory>
        requires ready { MayAdd B.seen after unit entry.now new self.old }
        requires met { HasMetAt self.old.store.parts 0 new.place }
        requires can { IsTrue B.tells → IsSettable self.old.store (B.seen self.old.blocks).cur 0
            new.place (Some new.bytes) }
        requires holds { IsTrue B.tells → Holds B.seen self.old }
        ensures come { HasCome B.seen after unit line entry.now result self.old self.new }
        ensures cause { HasDefineFaults (B.faults self.old.blocks) (B.faults self.new.blocks)
            result }
        ensures no_room { IfOk result (λ define. define ≢ defines.NoRoom) }
        ensures less { IsTrue B.tells → LeavesLess (result ≡ Ok defines.Again) self.old self.new }
        ensures held { IsTrue B.tells → (opening : State) → IsHeld B.seen opening self.old
            → HasComeHeld B.seen opening after unit line entry.now self.old self.new }
    {
        let geometry = self.file.geometry();
        let done = self.store.define(
            alloc,
            &mut self.blocks,
            &geometry,
            unit,
            &new.place,
            new.bytes.as_slice(),
            new.part,
            new.area,
            &new.definition,
        );
        match done {
            Ok(()) => Ok(self.enter_defined(unit, line, new, after)),
            Err(why) => match why {
                // The store reads nothing: it is of a write.
                DefineNo::Fault(_) => Ok(self.enter_failed(unit, line, new, after)),
                DefineNo::Memory => {
                    drop(new);
                    Err(OutOfMemory)
                }
                DefineNo::Full => unreachable!("the log has room for it"),
            },
        }
    }

    /// Asks for room for the record of a cluster that nothing in memory hinders, and goes on by the
    /// answer.
    fn define_asked(
        &mut self,
        alloc: Global,
        unit: Unit,
        line: u32,
        entry: &CatEntry,
        new: NewCluster,
        after: u64,
    ) -> Result<Define, OutOfMemory>
        requires ready { MayAdd B.seen after unit entry.now new self.old }
        requires holds { IsTrue B.tells → Holds B.seen self.old }
        ensures come { HasCome B.seen after unit line entry.now result self.old self.new }
        ensures cause { HasDefineFaults (B.faults self.old.blocks) (B.faults self.new.blocks)
            result }
        ensures no_room { IsTrue B.tells → LacksRoomWhere B.seen entry.now result self.old }
        ensures less { IsTrue B.tells → LeavesLess (result ≡ Ok defines.Again) self.old self.new }
        ensures held { IsTrue B.tells → (opening : State) → IsHeld B.seen opening self.old
            → HasComeHeld B.seen opening after unit line entry.now self.old self.new }
    {
        match self.ask_entry(&new.place) {
            Ok(room) => match room {
                Room::Ready => self.add_cluster(alloc, unit, line, entry, new, after),
                Room::Stage(_) => {
                    let staged = self.stage_entry(unit, line, &new.place, after);
                    drop(new);
                    Ok(staged)
                }
                Room::NoSpace { .. } => {
                    drop(new);
                    Ok(Define::NoRoom)
                }
            },
            Err(fault) => match fault {
                DeviceFault::Read => {
                    drop(new);
                    Ok(Define::Fault(DeviceFault::Read))
                }
                DeviceFault::Write => {
                    self.enter_fault(unit, line, after);
                    drop(new);
                    Ok(Define::Fault(DeviceFault::Write))
                }
            },
        }
    }

    /// Goes on with a cluster for which all memory was taken.
    fn define_prepared(
        &mut self,
        alloc: Global,
        line: u32,
        entry: &CatEntry,
        new: NewCluster,
        after: u64,
    ) -> Result<Define, OutOfMemory>
        requires may { MayDefineNow B.seen after self.old }
        requires entry { IsNewCluster self.old.file.geometry self.old.file.catalog entry.now }
        requires new { IsPreparedFor self.old.number self.old.file.catalog entry.now new.area new }
        requires least { least_free self.old.store.space ≡ Some new.area.0 }
        requires unowned { owned_count new.part self.old.store.space ≡ 0 }
        requires holds { IsTrue B.tells → Holds B.seen self.old }
        ensures come { HasCome B.seen after (utility_unit self.old.file) line entry.now
            result self.old self.new }
        ensures cause { HasDefineFaults (B.faults self.old.blocks) (B.faults self.new.blocks)
            result }
        ensures no_room { IsTrue B.tells → LacksRoomWhere B.seen entry.now result self.old }
        ensures less { IsTrue B.tells → LeavesLess (result ≡ Ok defines.Again) self.old self.new }
        ensures held { IsTrue B.tells → (opening : State) → IsHeld B.seen opening self.old
            → HasComeHeld B.seen opening after (utility_unit self.old.file) line entry.now
            self.old self.new }
    {
        let unit = Unit {
            deck: 0,
            number: self.file.number(0),
        };
        match self.hindrance(unit, &new) {
            Some(no) => {
                drop(new);
                Ok(no)
            }
            None => self.define_asked(alloc, unit, line, entry, new, after),
        }
    }

    /// Defines a cluster, whose part has no area, in the least free one.
    fn define_in_area(
        &mut self,
        alloc: Global,
        line: u32,
        entry: &CatEntry,
        after: u64,
    ) -> Result<Define, OutOfMemory>
        requires may { MayDefineNow B.seen after self.old }
        requires entry { IsNewCluster self.old.file.geometry self.old.file.catalog entry.now }
        requires unowned { owned_count entry.now.part self.old.store.space ≡ 0 }
        requires holds { IsTrue B.tells → Holds B.seen self.old }
        ensures come { HasCome B.seen after (utility_unit self.old.file) line entry.now
            result self.old self.new }
        ensures cause { HasDefineFaults (B.faults self.old.blocks) (B.faults self.new.blocks)
            result }
        ensures no_room { IsTrue B.tells → LacksRoomWhere B.seen entry.now result self.old }
        ensures less { IsTrue B.tells → LeavesLess (result ≡ Ok defines.Again) self.old self.new }
        ensures held { IsTrue B.tells → (opening : State) → IsHeld B.seen opening self.old
            → HasComeHeld B.seen opening after (utility_unit self.old.file) line entry.now
            self.old self.new }
    {
        match self.store.least_free() {
            None => Ok(Define::NoArea),
            Some(area) => {
                let new = prepare(alloc, self.number, self.file.catalog(), entry, area)?;
                self.define_prepared(alloc, line, entry, new, after)
            }
        }
    }

    /// One event of a DEFINE CLUSTER on a volume that has not stopped. `entry` is the cluster's,
    /// without an area; its part number is free. The least free area (`NoArea` where none is) is
    /// its first: a part without records is written into it, its record is added to the catalog,
    /// and the unit of the utilities that did both is committed, in this event (`Done`). Where a
    /// stage of a split of the catalog comes first, that is done (`Again`). `NoRoom`: the catalog
    /// has no room for the record, and can take no area. `Held`: a lock of a unit of a deck is on
    /// its place. `Full`: the log is. A fault of a read, and all of these and `OutOfMemory`, leave
    /// the volume as it was; a fault of a write stops it. All memory is taken before anything is
    /// logged. There is room for four entries, and deck 0 was entered.
    pub fn define(
        &mut self,
        alloc: Global,
        line: u32,
        entry: &CatEntry,
        after: u64,
    ) -> Result<Define, OutOfMemory>
        requires whole { IsWhole B.seen self.old }
        requires going { self.old.file.stopped ≡ None }
        requires room { 4 ≤ self.old.file.room }
        requires last { last_stamp 0 self.old.file.entries < 2 ^ 64 - 4 }
        requires after { after < 2 ^ 64 - 4 }
        requires deck { has_deck 0 self.old.file.numbers ≡ true }
        requires number { number_of self.old.file.numbers 0 < 2 ^ 32 - 1 }
        requires generation { self.old.store.log.generation + 1 < 2 ^ 63 }
        requires entry { IsNewCluster self.old.file.geometry self.old.file.catalog entry.now }
        requires holds { IsTrue B.tells → Holds B.seen self.old }
        ensures held { IsTrue B.tells → (opening : State) → IsHeld B.seen opening self.old
            → IsHeld B.seen opening self.new }
        ensures whole { IsWhole B.seen self.new }
        ensures entered { IsDefineEntered result self.old.number after (utility_unit self.old.file)
            line entry.now self.old.file self.new.file }
        // At every moment, whether it fails or not: what was committed before, or what is after it.
        ensures moments { IsTrue B.tells → (opening : State) → IsHeld B.seen opening self.old
            → Guards (B.seen self.old.blocks) (B.seen self.new.blocks)
            (IsLeftDefining self.old.store.log.geometry self.old.number opening after
            (utility_unit self.old.file) line entry.now self.old.file self.new.file) }
        // Once it is done, the part is laid with that area as its first.
        ensures parts { IfOk result (λ define. (area : areas.AreaNo) → define ≡ defines.Done area
            → shape_among self.new.store.parts entry.now.part.0
            ≡ shape_of self.old.file.geometry (entry_with_area entry.now area)) }
        // That area is one of the volume's.
        ensures within { IfOk result (λ define. (area : areas.AreaNo) → define ≡ defines.Done area
            → area.0 < area_count self.old.file.geometry) }
        ensures no_area { IfOk result (λ define. define ≡ defines.NoArea
            → least_free self.old.store.space ≡ None) }
        ensures no_room { IsTrue B.tells → LacksRoomWhere B.seen entry.now result self.old }
        ensures kept_out { IfOk result (λ define. define ≡ defines.Held
            → first_conflict self.old.file.locks (utility_unit self.old.file) Exclusive
            (entry_name (entry_place entry.now)) ≢ None) }
        ensures full { IfOk result (λ define. define ≡ defines.Full
            → IsLogFull self.old.store.log.geometry (used_by self.old.store.log.records)
            (need_to_define (entry_place entry.now))) }
        ensures cause { HasDefineFaults (B.faults self.old.blocks) (B.faults self.new.blocks)
            result }
        // No fault is hidden: where the volume didn't stop no write or sync failed.
        ensures quiet { self.new.file.stopped ≡ self.old.file.stopped
            → (B.faults self.new.blocks).writes ≡ (B.faults self.old.blocks).writes }
        // What is to be asked again leaves each unit fewer steps to wait for.
        ensures nearer { IsTrue B.tells → result ≡ Ok defines.Again → (unit : units.Unit)
            → left_for unit self.new.store < left_for unit self.old.store }
        // Splits are entered as they are done.
        ensures splits { IsTrue B.tells → EntersSplits self.old self.new }
        ensures number { self.new.number ≡ self.old.number }
        ensures generation { self.new.file.stopped ≡ None
            → self.new.store.log.generation ≤ self.old.store.log.generation + 1 }
    {
        self.store.give_back(&self.blocks, entry.part);
        self.define_in_area(alloc, line, entry, after)
    }
}
