//! The definition of a cluster: a part without records is laid, and the catalog of the store gets
//! its record, as one event.
ghost use Rattle.std.specs.Prelude.{◌≡◌, ◌≢◌, ◌⊎◌, ◌<◌, ◌+◌, ◌^◌, ◌++◌, ◌∷◌, [], ℕ, List};
ghost use Rattle.std.specs.Prelude.{None, Some, IsTrue, IfErr, IfSome, OnErr, OnOk, slice_set};
ghost use Rattle.vr_types.specs.Image.{Image};
ghost use Rattle.vr_types.specs.Moments.{Guards};
ghost use Rattle.vr_types.specs.Space.{least_free, released};
ghost use Rattle.vr_types.specs.declared.fault.DeviceFault.TheVariants.{Read as DeviceRead, Write};
ghost use Rattle.vr_space.specs.Known.{HasMet};
ghost use Rattle.vr_space.specs.Part.{IsPlaceOf, IsRecordOf, owned_count};
ghost use Rattle.vr_log.specs.Live.{live_in, need_of};
ghost use Rattle.vr_log.specs.LogNow.{IsFullNo, IsFullWhere, with_record};
ghost use Rattle.vr_log.specs.declared.no.LogNo.TheVariants.{Read};
ghost use Rattle.vr_log.specs.declared.record.EndKind.TheVariants.{Committed};
ghost use Rattle.vr_history.specs.State.{State};
ghost use Rattle.vr_start.specs.Startable.{IsStartable};
ghost use Rattle.vr_volume.specs.Cause.{HasChangeCause};
ghost use Rattle.vr_volume.specs.Crashes.{RecoversTo};
ghost use Rattle.vr_volume.specs.EndedLog.{IsEndedLog};
ghost use Rattle.vr_store.specs.Cause.{HasDefineCause};
ghost use Rattle.vr_store.specs.Change.{IsSettable};
ghost use Rattle.vr_store.specs.Define.{HasNewPart, HasNewShape, IsBegun, IsDefining, IsEntryReady};
ghost use Rattle.vr_store.specs.Define.{IsFullFor, IsMetAt, IsStartedIn, TouchesAreasOf};
ghost use Rattle.vr_store.specs.Define.{entry_before, entry_need};
ghost use Rattle.vr_store.specs.Store.{IsSet, IsStored, PartNow, Stands, part_among, shape_among};
ghost use Rattle.vr_store.specs.declared.no.DefineNo.TheVariants.{Fault, Full};

use crate::no::DefineNo;
use crate::parts::{Laid, index_of};
use crate::prepared::before_record;
use crate::start::{room_for_one, start_in};
use crate::store::Store;
use std::alloc::Global;
use vr_catalog::Definition;
use vr_log::{LogNo, LogRecord};
use vr_space::Part;
use vr_start::Start;
use vr_types::{AreaNo, Blocks, DeviceFault, Geometry, PartNo, Place, Unit};
use vr_volume::define;

impl<P: Part> Store<P> {
    /// Gives the catalog these bytes at their place, as the record of the part that is laid last:
    /// the unit logs that none stood there, and commits. Where room was asked for there, no read is
    /// made. `Full` says that the log is, and then nothing is done; `Write` is the device's.
    fn add_entry<B: Blocks>(
        &mut self,
        blocks: &mut B,
        rec: &LogRecord,
        unit: Unit,
        place: &Place,
        bytes: &[u8],
    ) -> Result<(), LogNo>
        requires set { IsSet self.old (B.seen blocks.old) }
        requires rec { rec.now ≡ entry_before unit place.now }
        requires catalog { part_among self.old.parts 0 ≢ None }
        requires place { IfSome (shape_among self.old.parts 0)
            (λ shape. IsPlaceOf shape place.now) }
        requires item { IfSome (shape_among self.old.parts 0)
            (λ shape. IsRecordOf shape place.now bytes.now) }
        requires met { IfSome (part_among self.old.parts 0) (λ part. HasMet part.known place.now) }
        requires ready { IsTrue B.tells → IfSome (part_among self.old.parts 0)
            (IsEntryReady self.old place.now bytes.now (B.seen blocks.old)) }
        ensures defined { IsTrue B.tells → OnOk result ((volume : ℕ) (old new : State)
            → IsBegun volume self.old unit place.now bytes.now old new (B.seen blocks.old)
            → self.old.log.generation + 1 < 2 ^ 63
            → IsStored volume self.new new (B.seen blocks.new)) }
        ensures moments { IsTrue B.tells → (volume : ℕ) (old new : State)
            → IsBegun volume self.old unit place.now bytes.now old new (B.seen blocks.old)
            → Guards (B.seen blocks.old) (B.seen blocks.new) (λ (image : Image).
            RecoversTo self.old.log.geometry volume old [] image
            ⊎ RecoversTo self.old.log.geometry volume new [] image) }
        ensures set { OnOk result (IsSet self.new (B.seen blocks.new)) }
        ensures parts { OnOk result (IsMetAt 0 self.old.parts self.new.parts) }
        ensures log { OnOk result (IsEndedLog (with_record self.old.log rec.now) unit Committed
            self.new.log) }
        ensures rest { self.new
            ≡ record self.old { log = self.new.log; parts = self.new.parts } }
        ensures full { IsFullWhere self.old.log
            (need_of (live_in self.old.log.records) rec.now) result }
        ensures unchanged { IfErr result (λ no. IsFullNo no
            → (self.new ≡ self.old) × (blocks.new ≡ blocks.old)) }
        ensures never_read { IfErr result (λ no. no ≢ Read) }
        ensures cause { HasChangeCause (B.faults blocks.old) (B.faults blocks.new) result }
    {
        match index_of(&self.parts, PartNo(0)) {
            Some(at) => {
                let catalog = &mut self.parts[at].part;
                let undo = &self.undo;
                define(
                    blocks,
                    &mut self.log,
                    catalog,
                    undo,
                    rec,
                    unit,
                    place,
                    bytes,
                )?;
                Ok(())
            }
            None => unreachable!("the catalog is laid"),
        }
    }
}

impl<P: Part> Store<P> {
    /// Gives back the areas of a part that isn't laid. Where it has none, as on a volume at rest,
    /// nothing changes.
    pub fn give_back<B: Blocks>(&mut self, blocks: &B, part: PartNo)
        requires fresh { part_among self.old.parts part.0 ≡ None }
        ensures leaves { self.new ≡ record self.old { space = released part self.old.space } }
        ensures unowned { owned_count part self.new.space ≡ 0 }
        ensures set { IsSet self.old (B.seen blocks.now) → IsSet self.new (B.seen blocks.now) }
        ensures same { owned_count part self.old.space ≡ 0 → self.new ≡ self.old }
        ensures none_free { least_free self.new.space ≡ None → least_free self.old.space ≡ None }
    {
        let _ = blocks;
        self.space.release(part);
    }
}

impl<P: Part + Drop> Store<P> {
    /// Takes back the part that was laid last, whose areas become free.
    fn take_back(&mut self, part: PartNo)
        ensures { (before : List PartNow) (added : PartNow) → self.old.parts ≡ before ++ added ∷ []
            → self.new
            ≡ record self.old { parts = before; space = released part self.old.space } }
    {
        self.parts.pop();
        self.space.release(part);
    }
}

impl<P: Start + Drop> Store<P> {
    /// Lays a part of this definition, without records, in the least free area. The catalog has no
    /// record of it yet. Where it fails the store is as before.
    fn start_part<B: Blocks>(
        &mut self,
        alloc: Global,
        blocks: &mut B,
        geometry: &Geometry,
        part: PartNo,
        area: AreaNo,
        definition: &Definition,
    ) -> Result<(), DefineNo>
        requires set { IsSet self.old (B.seen blocks.old) }
        requires geometry { geometry.now ≡ self.old.log.geometry }
        requires fresh { part_among self.old.parts part.0 ≡ None }
        requires unowned { owned_count part self.old.space ≡ 0 }
        requires least { least_free self.old.space ≡ Some area.0 }
        requires sizes { IsStartable self.old.log.geometry definition.now }
        ensures started { OnOk result (IsStartedIn B.tells part area definition.now self.old
            self.new (B.seen blocks.new)) }
        ensures set { OnOk result (IsSet self.new (B.seen blocks.new)) }
        ensures same { OnErr result (self.new ≡ self.old) }
        // At every moment, whether it fails or not, the blocks of the area alone are touched.
        ensures touches { IsTrue B.tells → TouchesAreasOf part self.old.log.geometry
            (slice_set self.old.space area.0 (Some part)) (B.seen blocks.old) (B.seen blocks.new) }
        ensures count { (B.seen blocks.new).count ≡ (B.seen blocks.old).count }
        ensures size { (B.seen blocks.new).size ≡ (B.seen blocks.old).size }
        ensures never_full { IfErr result (λ no. no ≢ Full) }
        // It reads nothing.
        ensures never_read { IfErr result (λ no. no ≢ Fault DeviceRead) }
        ensures cause { HasDefineCause (B.faults blocks.old) (B.faults blocks.new) result }
    {
        room_for_one(&mut self.parts)?;
        let space = &mut self.space;
        let started = start_in(alloc, blocks, geometry, space, part, area, definition)?;
        self.parts.push_reserved(Laid {
            number: part,
            part: started,
        });
        Ok(())
    }

    /// The same, by the record of the log, which is made already.
    fn define_by<B: Blocks>(
        &mut self,
        alloc: Global,
        blocks: &mut B,
        geometry: &Geometry,
        rec: &LogRecord,
        unit: Unit,
        place: &Place,
        bytes: &[u8],
        part: PartNo,
        area: AreaNo,
        definition: &Definition,
    ) -> Result<(), DefineNo>
        requires set { IsSet self.old (B.seen blocks.old) }
        requires geometry { geometry.now ≡ self.old.log.geometry }
        requires rec { rec.now ≡ entry_before unit place.now }
        requires catalog { part_among self.old.parts 0 ≢ None }
        requires fresh { part_among self.old.parts part.0 ≡ None }
        requires unowned { owned_count part self.old.space ≡ 0 }
        requires least { least_free self.old.space ≡ Some area.0 }
        requires sizes { IsStartable self.old.log.geometry definition.now }
        requires place { IfSome (shape_among self.old.parts 0)
            (λ shape. IsPlaceOf shape place.now) }
        requires item { IfSome (shape_among self.old.parts 0)
            (λ shape. IsRecordOf shape place.now bytes.now) }
        // Room was asked for there: no read is made of the catalog.
        requires met { IfSome (part_among self.old.parts 0) (λ part. HasMet part.known place.now) }
        requires stands { IsTrue B.tells → Stands self.old (B.seen blocks.old) }
        requires can { IsTrue B.tells
            → IsSettable self.old (B.seen blocks.old).cur 0 place.now (Some bytes.now) }
        ensures defined { IsTrue B.tells → OnOk result ((volume : ℕ) (old new : State)
            → IsDefining volume self.old unit place.now bytes.now part area definition.now old new
            (B.seen blocks.old)
            → self.old.log.generation + 1 < 2 ^ 63
            → IsStored volume self.new new (B.seen blocks.new)) }
        // At every moment, whether it fails or not.
        ensures moments { IsTrue B.tells → (volume : ℕ) (old new : State)
            → IsDefining volume self.old unit place.now bytes.now part area definition.now old new
            (B.seen blocks.old)
            → Guards (B.seen blocks.old) (B.seen blocks.new) (λ (image : Image).
            RecoversTo self.old.log.geometry volume old [] image
            ⊎ RecoversTo self.old.log.geometry volume new [] image) }
        ensures set { OnOk result (IsSet self.new (B.seen blocks.new)) }
        ensures parts { OnOk result (HasNewPart self.old.log.geometry part area definition.now
            self.old.parts self.new.parts) }
        ensures shapes { OnOk result (HasNewShape self.old.log.geometry part area definition.now
            self.old.parts self.new.parts) }
        ensures space { OnOk result
            (self.new.space ≡ slice_set self.old.space area.0 (Some part)) }
        ensures log { OnOk result (IsEndedLog (with_record self.old.log
            (entry_before unit place.now)) unit Committed self.new.log) }
        ensures undo { self.new.undo ≡ self.old.undo }
        ensures changed { self.new.changed ≡ self.old.changed }
        // Where no write failed, nothing of it is done; blocks of the area that was free may
        // differ.
        ensures unchanged { IfErr result (λ no. no ≢ Fault Write
            → (self.new ≡ self.old) × IsSet self.new (B.seen blocks.new)) }
        ensures stored { IsTrue B.tells → IfErr result (λ no. no ≢ Fault Write
            → (volume : ℕ) (state : State) → IsStored volume self.old state (B.seen blocks.old)
            → IsStored volume self.new state (B.seen blocks.new)) }
        // Where it fails, the areas are as they were, or that one is the part's.
        ensures kept { OnErr result ((self.new.space ≡ self.old.space)
            ⊎ (self.new.space ≡ slice_set self.old.space area.0 (Some part))) }
        // Where they are as they were, each image recovers to what was committed before.
        ensures begun { IsTrue B.tells → OnErr result (self.new.space ≡ self.old.space
            → (volume : ℕ) (state : State) → IsStored volume self.old state (B.seen blocks.old)
            → Guards (B.seen blocks.old) (B.seen blocks.new)
            (RecoversTo self.old.log.geometry volume state [])) }
        // It reads nothing.
        ensures never_read { IfErr result (λ no. no ≢ Fault DeviceRead) }
        ensures full { IsFullFor self.old.log (entry_need self.old.log unit place.now) result }
        ensures cause { HasDefineCause (B.faults blocks.old) (B.faults blocks.new) result }
    {
        self.start_part(alloc, blocks, geometry, part, area, definition)?;
        match self.add_entry(blocks, rec, unit, place, bytes) {
            Ok(()) => Ok(()),
            Err(LogNo::Full { .. }) => {
                self.take_back(part);
                Err(DefineNo::Full)
            }
            Err(LogNo::Read) => Err(DefineNo::Fault(DeviceFault::Read)),
            Err(LogNo::Write) => Err(DefineNo::Fault(DeviceFault::Write)),
        }
    }

    /// Lays a part of this definition, without records, in the least free area, and gives the
    /// catalog these bytes at their place, as the record of it: the unit logs that none stood
    /// there, and commits. `geometry` is the volume's. It reads nothing, and takes all memory before
    /// anything is logged. `Memory`, and `Full`, where the log has no room for the before-image,
    /// leave the store as it was. A fault is the device's, of a write: it leaves the store as no
    /// clause says, but each image recovers to what was committed before, or to what is then.
    pub fn define<B: Blocks>(
        &mut self,
        alloc: Global,
        blocks: &mut B,
        geometry: &Geometry,
        unit: Unit,
        place: &Place,
        bytes: &[u8],
        part: PartNo,
        area: AreaNo,
        definition: &Definition,
    ) -> Result<(), DefineNo>
        requires set { IsSet self.old (B.seen blocks.old) }
        requires geometry { geometry.now ≡ self.old.log.geometry }
        requires catalog { part_among self.old.parts 0 ≢ None }
        requires fresh { part_among self.old.parts part.0 ≡ None }
        requires unowned { owned_count part self.old.space ≡ 0 }
        requires least { least_free self.old.space ≡ Some area.0 }
        requires sizes { IsStartable self.old.log.geometry definition.now }
        requires place { IfSome (shape_among self.old.parts 0)
            (λ shape. IsPlaceOf shape place.now) }
        requires item { IfSome (shape_among self.old.parts 0)
            (λ shape. IsRecordOf shape place.now bytes.now) }
        // Room was asked for there: no read is made of the catalog.
        requires met { IfSome (part_among self.old.parts 0) (λ part. HasMet part.known place.now) }
        requires stands { IsTrue B.tells → Stands self.old (B.seen blocks.old) }
        requires can { IsTrue B.tells
            → IsSettable self.old (B.seen blocks.old).cur 0 place.now (Some bytes.now) }
        ensures defined { IsTrue B.tells → OnOk result ((volume : ℕ) (old new : State)
            → IsDefining volume self.old unit place.now bytes.now part area definition.now old new
            (B.seen blocks.old)
            → self.old.log.generation + 1 < 2 ^ 63
            → IsStored volume self.new new (B.seen blocks.new)) }
        // At every moment, whether it fails or not.
        ensures moments { IsTrue B.tells → (volume : ℕ) (old new : State)
            → IsDefining volume self.old unit place.now bytes.now part area definition.now old new
            (B.seen blocks.old)
            → Guards (B.seen blocks.old) (B.seen blocks.new) (λ (image : Image).
            RecoversTo self.old.log.geometry volume old [] image
            ⊎ RecoversTo self.old.log.geometry volume new [] image) }
        ensures set { OnOk result (IsSet self.new (B.seen blocks.new)) }
        ensures parts { OnOk result (HasNewPart self.old.log.geometry part area definition.now
            self.old.parts self.new.parts) }
        ensures shapes { OnOk result (HasNewShape self.old.log.geometry part area definition.now
            self.old.parts self.new.parts) }
        ensures space { OnOk result
            (self.new.space ≡ slice_set self.old.space area.0 (Some part)) }
        ensures log { OnOk result (IsEndedLog (with_record self.old.log
            (entry_before unit place.now)) unit Committed self.new.log) }
        ensures undo { self.new.undo ≡ self.old.undo }
        ensures changed { self.new.changed ≡ self.old.changed }
        // Where no write failed, nothing of it is done; blocks of the area that was free may
        // differ.
        ensures unchanged { IfErr result (λ no. no ≢ Fault Write
            → (self.new ≡ self.old) × IsSet self.new (B.seen blocks.new)) }
        ensures stored { IsTrue B.tells → IfErr result (λ no. no ≢ Fault Write
            → (volume : ℕ) (state : State) → IsStored volume self.old state (B.seen blocks.old)
            → IsStored volume self.new state (B.seen blocks.new)) }
        // Where it fails, the areas are as they were, or that one is the part's.
        ensures kept { OnErr result ((self.new.space ≡ self.old.space)
            ⊎ (self.new.space ≡ slice_set self.old.space area.0 (Some part))) }
        // Where they are as they were, each image recovers to what was committed before.
        ensures begun { IsTrue B.tells → OnErr result (self.new.space ≡ self.old.space
            → (volume : ℕ) (state : State) → IsStored volume self.old state (B.seen blocks.old)
            → Guards (B.seen blocks.old) (B.seen blocks.new)
            (RecoversTo self.old.log.geometry volume state [])) }
        // It reads nothing.
        ensures never_read { IfErr result (λ no. no ≢ Fault DeviceRead) }
        ensures full { IsFullFor self.old.log (entry_need self.old.log unit place.now) result }
        ensures cause { HasDefineCause (B.faults blocks.old) (B.faults blocks.new) result }
    {
        let rec = before_record(alloc, unit, PartNo(0), place, None)?;
        self.define_by(
            alloc, blocks, geometry, &rec, unit, place, bytes, part, area, definition,
        )
    }
}
