//! Records of entries of the catalog are added, replaced and taken away, with a part of theirs, as
//! one event.
ghost use Rattle.std.specs.Prelude.{◌≡◌, ◌≢◌, ◌⊎◌, ◌<◌, ◌+◌, ◌^◌, [], ℕ, All, Option, None, length};
ghost use Rattle.std.specs.Prelude.{IfErr, IfOk, IfSome, IsTrue, OnErr, OnOk, map};
ghost use Rattle.std.specs.Option.{option_copied};
ghost use Rattle.vr_types.specs.Image.{Image};
ghost use Rattle.vr_types.specs.Moments.{Guards};
ghost use Rattle.vr_types.specs.declared.fault.DeviceFault.TheVariants.{Read as DeviceRead, Write};
ghost use Rattle.vr_types.specs.declared.unit.PartNo.{PartNo as PartNumber};
ghost use Rattle.vr_space.specs.Known.{HasMet};
ghost use Rattle.vr_log.specs.Live.{live_in, need_of_all};
ghost use Rattle.vr_log.specs.LogNow.{IsFullNo, IsFullWhere, with_records};
ghost use Rattle.vr_log.specs.Records.{HasLengths};
ghost use Rattle.vr_log.specs.declared.no.LogNo.TheVariants.{Read};
ghost use Rattle.vr_log.specs.declared.record.EndKind.TheVariants.{Committed};
ghost use Rattle.vr_history.specs.State.{State};
ghost use Rattle.vr_undo.specs.Records.{images_in};
ghost use Rattle.vr_volume.specs.Cause.{HasChangeCause};
ghost use Rattle.vr_volume.specs.Crashes.{RecoversTo};
ghost use Rattle.vr_volume.specs.EndedLog.{IsEndedLog};
ghost use Rattle.vr_volume.specs.EntryChanges.{AreApart, MayStand, image_for, logged_for};
ghost use Rattle.vr_store.specs.Cause.{HasDefineCause};
ghost use Rattle.vr_store.specs.Define.{IsFullFor, IsMetAt};
ghost use Rattle.vr_store.specs.EntryChange.{HasPartsLeft, HasShapesLeft, areas_left, store_left};
ghost use Rattle.vr_store.specs.EntryChanges.{AreChangesReady, AreEntriesSettable, HaveEntries};
ghost use Rattle.vr_store.specs.EntryChanges.{IsChangingEntries, entries_need};
ghost use Rattle.vr_store.specs.Store.{IsSet, IsStored, part_among, shape_among};
ghost use Rattle.vr_store.specs.declared.no.DefineNo.TheVariants.{Fault};

use crate::no::DefineNo;
use crate::parts::index_of;
use crate::prepared::before_record;
use crate::store::Store;
use std::alloc::Global;
use vr_log::{LogNo, LogRecord};
use vr_space::Part;
use vr_types::{Blocks, Bytes, DeviceFault, OutOfMemory, PartNo, Unit};
use vr_undo::Undo;
use vr_volume::EntryChange;

/// What stands at the place of a change, or none. It takes no memory.
fn standing(before: &Option<Bytes>) -> Option<&[u8]>
    ensures { option_copied result ≡ before.now }
{
    match before {
        Some(bytes) => Some(bytes.as_slice()),
        None => None,
    }
}

/// Adds the records of the log for changes: what stands at each place. Fails only if memory runs out.
fn add_records(
    alloc: Global,
    records: &mut Vec<LogRecord>,
    unit: Unit,
    changes: &[EntryChange],
) -> Result<(), OutOfMemory>
    requires none { records.old.items ≡ [] }
    ensures { OnOk result (records.new.items ≡ map (logged_for unit) changes.now) }
{
    for change in changes {
        let rec = before_record(
            alloc,
            unit,
            PartNo(0),
            &change.place,
            standing(&change.before),
        )?;
        records.push(rec)?;
    }
    Ok(())
}

/// Keeps what stands at the place of each change, so that there is room to put it back. Fails only if
/// memory runs out.
fn keep_all(kept: &mut Undo, unit: Unit, changes: &[EntryChange]) -> Result<(), OutOfMemory>
    requires none { kept.old ≡ [] }
    requires apart { AreApart changes.now }
    ensures { OnOk result (images_in kept.new ≡ map (image_for unit) changes.now) }
{
    for change in changes {
        kept.keep(unit, PartNo(0), &change.place, standing(&change.before))?;
    }
    Ok(())
}

impl<P: Part> Store<P> {
    /// Makes the changes of the catalog: the unit logs what stands at their places, and commits.
    /// `Full` says that the log is, and then nothing is done; a fault is the device's. A part that
    /// goes with them is laid still: without it the store is that of the state after the changes.
    fn change_records<B: Blocks>(
        &mut self,
        blocks: &mut B,
        kept: &Undo,
        unit: Unit,
        records: &[LogRecord],
        changes: &[EntryChange],
    ) -> Result<(), LogNo>
        requires set { IsSet self.old (B.seen blocks.old) }
        requires records { records.now ≡ map (logged_for unit) changes.now }
        requires kept { images_in kept.now ≡ map (image_for unit) changes.now }
        requires lengths { All HasLengths records.now }
        requires some { changes.now ≢ [] }
        requires few { length records.now < 65536 }
        requires apart { AreApart changes.now }
        requires catalog { part_among self.old.parts 0 ≢ None }
        requires idle { live_in self.old.log.records ≡ [] }
        requires stand { IfSome (shape_among self.old.parts 0)
            (λ shape. All (MayStand shape) changes.now) }
        requires ready { IsTrue B.tells → IfSome (part_among self.old.parts 0)
            (AreChangesReady self.old unit changes.now (B.seen blocks.old)) }
        ensures done { IsTrue B.tells → OnOk result ((volume : ℕ) (gone : Option PartNumber)
            (old new : State)
            → IsChangingEntries volume self.old unit changes.now gone old new (B.seen blocks.old)
            → self.old.log.generation + 1 < 2 ^ 63
            → IsStored volume (store_left gone self.new) new (B.seen blocks.new)) }
        ensures moments { IsTrue B.tells → (volume : ℕ) (gone : Option PartNumber)
            (old new : State)
            → IsChangingEntries volume self.old unit changes.now gone old new (B.seen blocks.old)
            → Guards (B.seen blocks.old) (B.seen blocks.new) (λ (image : Image).
            RecoversTo self.old.log.geometry volume old [] image
            ⊎ RecoversTo self.old.log.geometry volume new [] image) }
        ensures set { OnOk result (IsSet self.new (B.seen blocks.new)) }
        ensures parts { OnOk result (IsMetAt 0 self.old.parts self.new.parts) }
        ensures log { OnOk result (IsEndedLog (with_records self.old.log records.now) unit Committed
            self.new.log) }
        ensures begun { OnOk result (self.new.log.records ≡ []) }
        ensures rest { self.new
            ≡ record self.old { log = self.new.log; parts = self.new.parts } }
        ensures full { IsFullWhere self.old.log
            (need_of_all (live_in self.old.log.records) records.now) result }
        ensures unchanged { IfErr result (λ no. IsFullNo no
            → (self.new ≡ self.old) × (blocks.new ≡ blocks.old)) }
        ensures never_read { IfSome (part_among self.old.parts 0)
            (λ part. All (λ change. HasMet part.known change.place) changes.now)
            → IfErr result (λ no. no ≢ Read) }
        ensures cause { HasChangeCause (B.faults blocks.old) (B.faults blocks.new) result }
    {
        match index_of(&self.parts, PartNo(0)) {
            Some(at) => {
                let catalog = &mut self.parts[at].part;
                vr_volume::change_entries(
                    blocks,
                    &mut self.log,
                    catalog,
                    kept,
                    unit,
                    records,
                    changes,
                )?;
                Ok(())
            }
            None => unreachable!("the catalog is laid"),
        }
    }
}

impl<P: Part + Drop> Store<P> {
    /// Takes out a part, where one is given, whose areas become free, and forgets what is kept of
    /// units: none is live, and what is put back has to be of a part that is laid.
    fn let_go(&mut self, alloc: Global, gone: Option<PartNo>)
        ensures { self.new ≡ store_left gone self.old }
    {
        self.undo = Undo::new(alloc);
        if let Some(part) = gone {
            self.parts.retain(|laid| laid.number.0 != part.0);
            self.space.release(part);
        }
    }

    /// Adds, replaces and takes away records of the catalog, each at a place of its own, while no
    /// unit is live, as one event: the unit logs what stands at all places, forces that once, makes
    /// the changes in their order, and commits (DFSMS Access Method Services Commands, ALTER and
    /// DELETE, for what is there then). The part `gone`, which no record of the catalog lays any
    /// more, is no longer laid then, and its areas are free. There is room for the first change; the
    /// others need none but what is kept of their places. It takes all memory before anything is
    /// logged. `Memory`, and `Full`, where the log has no room for all before-images, leave the store
    /// and the blocks as they were. A fault is the device's; of a read only where the catalog hasn't
    /// met each place. It leaves the store as no clause says, but each image recovers to what was
    /// committed before, or to what is then.
    pub fn change_entries<B: Blocks>(
        &mut self,
        alloc: Global,
        blocks: &mut B,
        unit: Unit,
        changes: &[EntryChange],
        gone: Option<PartNo>,
    ) -> Result<(), DefineNo>
        requires set { IsSet self.old (B.seen blocks.old) }
        requires catalog { part_among self.old.parts 0 ≢ None }
        requires idle { live_in self.old.log.records ≡ [] }
        requires gone { IfSome gone (λ part. part.0 ≢ 0) }
        requires some { changes.now ≢ [] }
        requires few { length changes.now < 65536 }
        requires apart { AreApart changes.now }
        requires lengths { All (λ change. HasLengths (logged_for unit change)) changes.now }
        requires stand { IfSome (shape_among self.old.parts 0)
            (λ shape. All (MayStand shape) changes.now) }
        requires stands { IsTrue B.tells
            → HaveEntries self.old changes.now (B.seen blocks.old) }
        // Room is kept for what stands at the places.
        requires can { IsTrue B.tells
            → AreEntriesSettable self.old unit (B.seen blocks.old).cur changes.now }
        ensures done { IsTrue B.tells → OnOk result ((volume : ℕ) (old new : State)
            → IsChangingEntries volume self.old unit changes.now gone old new (B.seen blocks.old)
            → self.old.log.generation + 1 < 2 ^ 63
            → IsStored volume self.new new (B.seen blocks.new)) }
        // At every moment, whether it fails or not.
        ensures moments { IsTrue B.tells → (volume : ℕ) (old new : State)
            → IsChangingEntries volume self.old unit changes.now gone old new (B.seen blocks.old)
            → Guards (B.seen blocks.old) (B.seen blocks.new) (λ (image : Image).
            RecoversTo self.old.log.geometry volume old [] image
            ⊎ RecoversTo self.old.log.geometry volume new [] image) }
        ensures set { OnOk result (IsSet self.new (B.seen blocks.new)) }
        ensures parts { OnOk result (HasPartsLeft gone self.old.parts self.new.parts) }
        ensures shapes { OnOk result (HasShapesLeft gone self.old.parts self.new.parts) }
        ensures space { OnOk result (self.new.space ≡ areas_left gone self.old.space) }
        ensures log { OnOk result (IsEndedLog (with_records self.old.log
            (map (logged_for unit) changes.now)) unit Committed self.new.log) }
        // No unit is live then: the log has no record, and nothing is kept.
        ensures begun { OnOk result (self.new.log.records ≡ []) }
        ensures undo { OnOk result (self.new.undo ≡ []) }
        ensures changed { self.new.changed ≡ self.old.changed }
        // Where the device didn't fail, nothing is done.
        ensures unchanged { IfErr result (λ no. no ≢ Fault Write → no ≢ Fault DeviceRead
            → (self.new ≡ self.old) × (blocks.new ≡ blocks.old)) }
        // Where it fails, the areas are as they were, and what is kept of units.
        ensures kept { OnErr result (self.new.space ≡ self.old.space) }
        ensures undo_kept { OnErr result (self.new.undo ≡ self.old.undo) }
        // Where room was asked for at each place, it reads nothing.
        ensures never_read { IfSome (part_among self.old.parts 0)
            (λ part. All (λ change. HasMet part.known change.place) changes.now)
            → IfErr result (λ no. no ≢ Fault DeviceRead) }
        ensures full { IsFullFor self.old.log (entries_need self.old.log unit changes.now) result }
        ensures cause { HasDefineCause (B.faults blocks.old) (B.faults blocks.new) result }
    {
        let mut records = Vec::new(alloc);
        add_records(alloc, &mut records, unit, changes)?;
        let mut kept = Undo::new(alloc);
        keep_all(&mut kept, unit, changes)?;
        match self.change_records(blocks, &kept, unit, &records, changes) {
            Ok(()) => {
                self.let_go(alloc, gone);
                Ok(())
            }
            Err(LogNo::Full { .. }) => Err(DefineNo::Full),
            Err(LogNo::Read) => Err(DefineNo::Fault(DeviceFault::Read)),
            Err(LogNo::Write) => Err(DefineNo::Fault(DeviceFault::Write)),
        }
    }
}
