//! A change of a place, made once its memory and its locks are taken.
ghost use Rattle.std.specs.Prelude.{◌≡◌, ◌≢◌, ◌<◌, ◌≤◌, ℕ, List, IsTrue, IfErr};
ghost use Rattle.std.specs.Prelude.{IfSome, None, OnOk, Option, [], false};
ghost use Rattle.std.specs.Option.{option_copied};
ghost use Rattle.vr_types.specs.Moments.{Guards};
ghost use Rattle.vr_types.specs.LogSpace.{IsLogFull};
ghost use Rattle.vr_types.specs.declared.unit.Mode.TheVariants.{Exclusive};
ghost use Rattle.vr_space.specs.Part.{IsGiven, IsPlaceOf, given};
ghost use Rattle.vr_log.specs.Live.{EndsLive, live_in, need_of, used_by};
ghost use Rattle.vr_log.specs.Records.{HasLengths};
ghost use Rattle.vr_history.specs.Names.{with_locks};
ghost use Rattle.vr_history.specs.State.{State};
ghost use Rattle.vr_undo.specs.declared.before.Before.{Before};
ghost use Rattle.vr_undo.specs.declared.record.KeptRecord.{KeptRecord};
ghost use Rattle.vr_volume.specs.Crashes.{RecoversTo};
ghost use Rattle.vr_store.specs.Change.{IsBefore, IsMadeOf, IsPrepared, IsReady, IsReadyBy, IsSettable};
ghost use Rattle.vr_store.specs.Change.{need_with, with_kept};
ghost use Rattle.vr_store.specs.Parts.{OnlyMet};
ghost use Rattle.vr_event.specs.Putting as putting;
ghost use Rattle.vr_store.specs.Store.{HasLength, IsSet, IsStored, left_among, part_among};
ghost use Rattle.vr_store.specs.Store.{shape_among};
ghost use Rattle.vr_event.specs.declared.putting.PutNo.TheVariants as nos;

use std::alloc::Global;
use vr_log::LogNo;
use vr_record_file::RecordFile;
use vr_space::Part;
use vr_store::{Prepared, Store};
use vr_types::{Blocks, LockNames, OutOfMemory, PartNo, Place, Unit};

/// Why a change isn't made.
#[derive(Clone, Copy, PartialEq, Eq)]
pub(crate) enum PutNo {
    /// Out of memory, and nothing is changed.
    Memory,
    /// A fault of a write.
    Write,
}

impl From<OutOfMemory> for PutNo {
    ghost from_gives = { λ _ no. no ≡ nos.Memory };

    fn from(_error: OutOfMemory) -> PutNo {
        PutNo::Memory
    }
}

/// Makes a change that was prepared, at a place that was met. Where the log is full, which a caller
/// that asked knows not to be, what was kept is taken back.
fn make_kept<B: Blocks, P: Part>(
    blocks: &mut B,
    store: &mut Store<P>,
    unit: Unit,
    part: PartNo,
    place: &Place,
    prepared: &Prepared,
    new: Option<&[u8]>,
) -> Result<(), PutNo>
    requires set { IsSet store.old (B.seen blocks.old) }
    requires part { part_among store.old.parts part.0 ≢ None }
    requires met { putting.HasMetAt store.old.parts part.0 place.now }
    requires place { IfSome (shape_among store.old.parts part.0)
        (λ shape. IsPlaceOf shape place.now) }
    requires item { IfSome (shape_among store.old.parts part.0)
        (λ shape. IsGiven shape place.now new) }
    requires lengths { HasLengths prepared.now.rec }
    requires live { EndsLive (live_in store.old.log.records) prepared.now.rec }
    requires before { IsBefore prepared.now.rec }
    requires ready { IsTrue B.tells
        → IsReady store.old unit part place.now prepared.now (B.seen blocks.old) }
    requires can { IsTrue B.tells → IsSettable store.old (B.seen blocks.old).cur part.0
        place.now (given new) }
    ensures made { IsTrue B.tells → OnOk result ((volume : ℕ) (was : Option (List ℕ))
        (old after : State) (need : ℕ)
        → IsReadyBy volume store.old unit part place.now prepared.now was old
        (B.seen blocks.old)
        → IsMadeOf unit part place.now
        (left_among store.old.parts part.0 old place.now (given new.entry)) need old after
        → need ≡ need_with prepared.now.logged store.old.log prepared.now.rec
        → IsStored volume store.new after (B.seen blocks.new)) }
    // At every moment, whether it fails or not.
    ensures moments { IsTrue B.tells → (volume : ℕ) (was : Option (List ℕ)) (old : State)
        → IsReadyBy volume store.old unit part place.now prepared.now was old
        (B.seen blocks.old)
        → Guards (B.seen blocks.old) (B.seen blocks.new)
        (RecoversTo store.old.log.geometry volume old []) }
    ensures set { OnOk result (IsSet store.new (B.seen blocks.new)) }
    ensures space { store.new.space ≡ store.old.space }
    ensures parts { OnOk result (OnlyMet part.0 store.old.parts store.new.parts) }
    ensures geometry { OnOk result (store.new.log.geometry ≡ store.old.log.geometry) }
    ensures generation { OnOk result
        (store.new.log.generation ≡ store.old.log.generation) }
    // Where memory is named, nothing is done.
    ensures full { IfErr result (λ no. no ≡ nos.Memory
        → (prepared.now.logged ≡ false) × IsLogFull store.old.log.geometry
        (used_by store.old.log.records) (need_of (live_in store.old.log.records) prepared.now.rec)) }
    ensures unchanged { IfErr result (λ no. no ≡ nos.Memory → (blocks.new ≡ blocks.old)
        × (store.new ≡ record store.old { undo = store.new.undo })
        × IsSet store.new (B.seen blocks.new)) }
    ensures undo { IfErr result (λ no. no ≡ nos.Memory → (before : Before) (old : List KeptRecord)
        → before.part ≡ part → before.place ≡ place.now
        → IsPrepared prepared.now unit before old
        → store.old.undo ≡ with_kept unit before old → store.new.undo ≡ old) }
    ensures quiet { OnOk result (B.faults blocks.new ≡ B.faults blocks.old) }
    ensures writes { IfErr result (λ no. no ≡ nos.Write
        → (B.faults blocks.old).writes < (B.faults blocks.new).writes) }
    ensures reads_rise { (B.faults blocks.old).reads ≤ (B.faults blocks.new).reads }
    ensures writes_rise { (B.faults blocks.old).writes ≤ (B.faults blocks.new).writes }
{
    match store.make(blocks, part, unit, place, prepared, new) {
        Ok(()) => Ok(()),
        Err(LogNo::Full { .. }) => {
            store.unkeep(blocks, unit, part, place, prepared);
            Err(PutNo::Memory)
        }
        Err(LogNo::Write) => Err(PutNo::Write),
        Err(LogNo::Read) => unreachable!("the place was met"),
    }
}

/// Makes a change at its place: all memory is taken first, then the locks, and where memory runs out
/// nothing is changed. Where the log is full, which a caller that asked knows not to be, nothing is
/// changed but the locks.
pub(crate) fn put_at_place<B: Blocks, P: Part>(
    alloc: Global,
    blocks: &mut B,
    store: &mut Store<P>,
    file: &mut RecordFile,
    unit: Unit,
    part: PartNo,
    place: &Place,
    old: Option<&[u8]>,
    new: Option<&[u8]>,
    names: &LockNames,
) -> Result<(), PutNo>
    requires set { IsSet store.old (B.seen blocks.old) }
    requires at { putting.HasPlace store.old.parts part.0 place.now }
    requires met { putting.HasMetAt store.old.parts part.0 place.now }
    requires old_fits { putting.FitsItem store.old.parts part.0 place.now (option_copied old) }
    requires new_fits { putting.FitsItem store.old.parts part.0 place.now (option_copied new) }
    requires long { IfSome (shape_among store.old.parts part.0) HasLength }
    requires ready { IsTrue B.tells → putting.HasToMake store.old unit part place.now
        (option_copied old) (B.seen blocks.old) }
    requires can { IsTrue B.tells → putting.HasRoomAt store.old (B.seen blocks.old).cur part.0
        place.now (option_copied new) }
    ensures made { IsTrue B.tells → OnOk result ((volume : ℕ) (state after : State)
        → putting.IsToMake volume store.old unit part place.now (option_copied old.entry) state
        (B.seen blocks.old)
        → IsMadeOf unit part place.now
        (left_among store.old.parts part.0 state place.now (option_copied new.entry))
        (putting.need_at store.old unit part place.now (option_copied old.entry)) state after
        → IsStored volume store.new after (B.seen blocks.new)) }
    // At every moment, whether it fails or not.
    ensures moments { IsTrue B.tells → (volume : ℕ) (state : State)
        → putting.IsToMake volume store.old unit part place.now (option_copied old.entry) state
        (B.seen blocks.old)
        → Guards (B.seen blocks.old) (B.seen blocks.new)
        (RecoversTo store.old.log.geometry volume state []) }
    ensures set { OnOk result (IsSet store.new (B.seen blocks.new)) }
    ensures space { store.new.space ≡ store.old.space }
    ensures parts { OnOk result (OnlyMet part.0 store.old.parts store.new.parts) }
    ensures geometry { OnOk result (store.new.log.geometry ≡ store.old.log.geometry) }
    ensures generation { OnOk result
        (store.new.log.generation ≡ store.old.log.generation) }
    ensures file { file.new ≡ record file.old { locks = file.new.locks } }
    ensures locked { OnOk result
        (file.new.locks ≡ with_locks unit Exclusive names.now file.old.locks) }
    // Where memory is named, nothing is done; no lock is taken, unless the log is full.
    ensures unchanged { IfErr result (λ no. no ≡ nos.Memory → (blocks.new ≡ blocks.old)
        × (store.new ≡ record store.old { undo = store.old.undo; changed = store.new.changed })
        × IsSet store.new (B.seen blocks.new)
        × ((volume : ℕ) (state : State) → IsStored volume store.old state (B.seen blocks.old)
        → IsStored volume store.new state (B.seen blocks.new))) }
    ensures unlocked { IfErr result (λ no. no ≡ nos.Memory
        → (IsLogFull store.old.log.geometry (used_by store.old.log.records)
        (putting.need_at store.old unit part place.now (option_copied old.entry)) → ⊥)
        → file.new ≡ file.old) }
    ensures quiet { OnOk result (B.faults blocks.new ≡ B.faults blocks.old) }
    ensures writes { IfErr result (λ no. no ≡ nos.Write
        → (B.faults blocks.old).writes < (B.faults blocks.new).writes) }
    ensures reads_rise { (B.faults blocks.old).reads ≤ (B.faults blocks.new).reads }
    ensures writes_rise { (B.faults blocks.old).writes ≤ (B.faults blocks.new).writes }
{
    let prepared = store.keep(blocks, alloc, unit, part, place, old)?;
    match file.lock_change(unit, names) {
        Ok(()) => make_kept(blocks, store, unit, part, place, &prepared, new),
        Err(_) => {
            store.unkeep(blocks, unit, part, place, &prepared);
            Err(PutNo::Memory)
        }
    }
}
