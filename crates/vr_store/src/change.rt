//! A change of a place of a store: it is logged where its unit has not logged the place yet, and set.
ghost use Rattle.std.specs.Prelude.{◌≡◌, ◌≢◌, ◌<◌, ℕ, List, All, IsTrue, OnOk, IfErr, false, map};
ghost use Rattle.std.specs.Prelude.{true};
ghost use Rattle.std.specs.Prelude.{IfSome, None, Option};
ghost use Rattle.std.specs.List.{Contains};
ghost use Rattle.vr_types.specs.Blocks.{Keeps};
ghost use Rattle.vr_types.specs.Faults.{HasWriteCause};
ghost use Rattle.vr_types.specs.Locks.{same_unit};
ghost use Rattle.vr_types.specs.Moments.{Guards};
ghost use Rattle.vr_types.specs.declared.unit.Unit.{Unit as UnitOfRecovery};
ghost use Rattle.vr_space.specs.Known.{HasMet};
ghost use Rattle.vr_space.specs.Owners.{Owners};
ghost use Rattle.vr_space.specs.Part.{
  CanSet,
  HasKeptRoom,
  IsGiven,
  IsOn,
  IsPlaceOf,
  Knows,
  given,
  part_no,
};
ghost use Rattle.vr_log.specs.Live.{EndsLive, live_in, need_of};
ghost use Rattle.vr_log.specs.LogNow.{IsFullNo, IsFullWhere, IsOf};
ghost use Rattle.vr_log.specs.Records.{HasLengths};
ghost use Rattle.vr_log.specs.Standing.{LogStands};
ghost use Rattle.vr_log.specs.declared.no.LogNo.TheVariants.{Read};
ghost use Rattle.vr_history.specs.State.{BeforeImage, State};
ghost use Rattle.vr_undo.specs.Records.{images_in};
ghost use Rattle.vr_volume.specs.Cause.{HasChangeCause};
ghost use Rattle.vr_volume.specs.Committed.{committed_by};
ghost use Rattle.vr_volume.specs.PutBack.{lengths_kept};
ghost use Rattle.vr_volume.specs.Rests.{RestsPastLog};
ghost use Rattle.vr_volume.specs.Safe.{IsSafeImage};
ghost use Rattle.vr_volume.specs.Steps.{Changing};
ghost use Rattle.vr_store.specs.Change.{IsBefore, IsMadeOf, IsNoted, IsReady, IsReadyBy, IsSetIn};
ghost use Rattle.vr_store.specs.Change.{IsSettable, IsToSet, log_with, need_with};
ghost use Rattle.vr_store.specs.Parts.{OnlyMet};
ghost use Rattle.vr_store.specs.Store.{ChangedBy, IsSet, IsStored, blocks_of, changed_by};
ghost use Rattle.vr_store.specs.Store.{left_among, owners_of, part_among, shape_among};

use crate::changed::{UnitBlocks, note};
use crate::parts::index_of;
use crate::prepared::Prepared;
use crate::store::Store;
use vr_log::{LogNo, UndoLog};
use vr_space::Part;
use vr_types::{Blocks, DeviceFault, PartNo, Place, Unit};
use vr_undo::Undo;
use vr_volume::{change, force_blocks, set_again};

/// Makes these bytes the record at a place of a part, or takes the record there away, once its
/// before-image is logged and forced where it isn't yet.
fn put_at<B: Blocks, P: Part>(
    blocks: &mut B,
    log: &mut UndoLog,
    part: &mut P,
    undo: &Undo,
    place: &Place,
    prepared: &Prepared,
    bytes: Option<&[u8]>,
) -> Result<(), LogNo>
    requires sound { log.old.broken ≡ false }
    requires shape { IsOf log.old.geometry (B.seen blocks.old) }
    requires lengths { HasLengths prepared.now.rec }
    requires live { EndsLive (live_in log.old.records) prepared.now.rec }
    requires stands { IsTrue B.tells → LogStands log.old (B.seen blocks.old) }
    requires on { IsOn (P.shape part.old) (B.seen blocks.old) }
    requires place { IsPlaceOf (P.shape part.old) place.now }
    requires item { IsGiven (P.shape part.old) place.now bytes }
    requires rests { IsTrue B.tells → RestsPastLog log.old.geometry (P.shape part.old)
        (P.known part.old) (B.seen blocks.old) }
    requires room { IsTrue B.tells → HasKeptRoom (P.shape part.old)
        (lengths_kept (images_in undo.now) (part_no (P.shape part.old)).0) (B.seen blocks.old) }
    requires knows { IsTrue B.tells → Knows (P.shape part.old) (P.known part.old)
        (B.seen blocks.old) }
    requires can { IsTrue B.tells → CanSet (P.shape part.old) (P.known part.old)
        (B.seen blocks.old).cur (lengths_kept (images_in undo.now) (part_no (P.shape part.old)).0)
        place.now (given bytes) }
    ensures made { IsTrue B.tells → OnOk result ((volume : ℕ) (owners : Owners)
        (old new : State) (change : Changing) (images : List BeforeImage)
        → IsToSet log.old.geometry volume owners log.old images (images_in undo.now) old new change
        prepared.now (P.shape part.old) (P.known part.old) place.now
        (given bytes.entry) (B.seen blocks.old)
        → IsSetIn log.old.geometry volume owners log.new images (images_in undo.now) old new
        (P.shape part.old) (P.known part.new) place.now (P.put part.new)
        (B.seen blocks.old) (B.seen blocks.new)) }
    // At every moment, whether it fails or not.
    ensures moments { IsTrue B.tells → (volume : ℕ) (owners : Owners) (old new : State)
        (change : Changing) (images : List BeforeImage)
        → IsToSet log.old.geometry volume owners log.old images (images_in undo.now) old new change
        prepared.now (P.shape part.old) (P.known part.old) place.now
        (given bytes.entry) (B.seen blocks.old)
        → Guards (B.seen blocks.old) (B.seen blocks.new) (IsSafeImage log.old.geometry volume
        owners (log_with prepared.now.logged log.old prepared.now.rec) (committed_by old)) }
    ensures put { OnOk result (All (λ n. n < (B.seen blocks.new).count) (P.put part.new)) }
    ensures records { OnOk result (log.new.records
        ≡ (log_with prepared.now.logged log.old prepared.now.rec).records) }
    ensures geometry { OnOk result (log.new.geometry ≡ log.old.geometry) }
    ensures generation { OnOk result (log.new.generation ≡ log.old.generation) }
    ensures sound { OnOk result (log.new.broken ≡ false) }
    ensures count { OnOk result ((B.seen blocks.new).count ≡ (B.seen blocks.old).count) }
    ensures size { OnOk result ((B.seen blocks.new).size ≡ (B.seen blocks.old).size) }
    ensures part { OnOk result (P.shape part.new ≡ P.shape part.old) }
    ensures split { OnOk result ((P.known part.new).split ≡ (P.known part.old).split) }
    ensures moves { OnOk result ((P.known part.new).move ≡ (P.known part.old).move) }
    ensures areas { OnOk result ((P.known part.new).areas ≡ (P.known part.old).areas) }
    ensures used { OnOk result ((P.known part.new).used ≡ (P.known part.old).used) }
    ensures full { prepared.now.logged ≡ false
        → IsFullWhere log.old (need_of (live_in log.old.records) prepared.now.rec) result }
    ensures never_full { prepared.now.logged ≡ true → IfErr result (λ no. IsFullNo no → ⊥) }
    ensures unchanged { IfErr result (λ no. IsFullNo no
        → (log.new ≡ log.old) × (blocks.new ≡ blocks.old) × (part.new ≡ part.old)) }
    // Where the place is met, no read is made of it.
    ensures reads { HasMet (P.known part.old) place.now → IfErr result (λ no. no ≢ Read) }
    ensures cause { HasChangeCause (B.faults blocks.old) (B.faults blocks.new) result }
{
    if prepared.logged {
        set_again(blocks, log, part, undo, place, bytes)?;
    } else {
        change(blocks, log, part, undo, &prepared.rec, place, bytes)?;
    }
    Ok(())
}

/// Adds blocks that a change put to those of its unit, or forces them where there is no room for
/// them. `Write` is the device's.
pub(crate) fn note_put<B: Blocks>(
    blocks: &mut B,
    changed: &mut Vec<UnitBlocks>,
    unit: Unit,
    put: &[u32],
) -> Result<(), DeviceFault>
    requires { All (λ n. n < (B.seen blocks.old).count) put.now }
    ensures had { (n : ℕ) → Contains (blocks_of unit (map changed_by changed.old.items)) n
        → Contains (blocks_of unit (map changed_by changed.new.items)) n }
    ensures put { IsTrue B.tells → OnOk result (IsNoted put.now
        (blocks_of unit (map changed_by changed.new.items)) (B.seen blocks.old).cur
        (B.seen blocks.new).may) }
    ensures others { (other : UnitOfRecovery) → same_unit other unit ≡ false
        → blocks_of other (map changed_by changed.new.items)
        ≡ blocks_of other (map changed_by changed.old.items) }
    ensures each { All (λ (by : ChangedBy). All (λ n. n < (B.seen blocks.old).count) by.blocks)
        (map changed_by changed.old.items)
        → All (λ (by : ChangedBy). All (λ n. n < (B.seen blocks.old).count) by.blocks)
        (map changed_by changed.new.items) }
    ensures keeps { Keeps B.tells (B.seen blocks.old) (B.seen blocks.new) }
    ensures cause { HasWriteCause (B.faults blocks.old) (B.faults blocks.new) result }
{
    if note(changed, unit, put) {
        return Ok(());
    }
    force_blocks(blocks, put)?;
    Ok(())
}

/// Sets a record by what was prepared for it, as `put_at` does, and adds the blocks that it put to
/// those of its unit.
fn set_at<B: Blocks, P: Part>(
    blocks: &mut B,
    log: &mut UndoLog,
    part: &mut P,
    undo: &Undo,
    changed: &mut Vec<UnitBlocks>,
    unit: Unit,
    place: &Place,
    prepared: &Prepared,
    bytes: Option<&[u8]>,
) -> Result<(), LogNo>
    requires sound { log.old.broken ≡ false }
    requires shape { IsOf log.old.geometry (B.seen blocks.old) }
    requires lengths { HasLengths prepared.now.rec }
    requires live { EndsLive (live_in log.old.records) prepared.now.rec }
    requires stands { IsTrue B.tells → LogStands log.old (B.seen blocks.old) }
    requires on { IsOn (P.shape part.old) (B.seen blocks.old) }
    requires place { IsPlaceOf (P.shape part.old) place.now }
    requires item { IsGiven (P.shape part.old) place.now bytes }
    requires rests { IsTrue B.tells → RestsPastLog log.old.geometry (P.shape part.old)
        (P.known part.old) (B.seen blocks.old) }
    requires room { IsTrue B.tells → HasKeptRoom (P.shape part.old)
        (lengths_kept (images_in undo.now) (part_no (P.shape part.old)).0) (B.seen blocks.old) }
    requires knows { IsTrue B.tells → Knows (P.shape part.old) (P.known part.old)
        (B.seen blocks.old) }
    requires can { IsTrue B.tells → CanSet (P.shape part.old) (P.known part.old)
        (B.seen blocks.old).cur (lengths_kept (images_in undo.now) (part_no (P.shape part.old)).0)
        place.now (given bytes) }
    ensures made { IsTrue B.tells → OnOk result ((volume : ℕ) (owners : Owners)
        (old new : State) (change : Changing) (images : List BeforeImage)
        → IsToSet log.old.geometry volume owners log.old images (images_in undo.now) old new change
        prepared.now (P.shape part.old) (P.known part.old) place.now
        (given bytes.entry) (B.seen blocks.old)
        → IsSetIn log.old.geometry volume owners log.new images (images_in undo.now) old new
        (P.shape part.old) (P.known part.new) place.now
        (blocks_of unit (map changed_by changed.new.items)) (B.seen blocks.old)
        (B.seen blocks.new)) }
    // At every moment, whether it fails or not.
    ensures moments { IsTrue B.tells → (volume : ℕ) (owners : Owners) (old new : State)
        (change : Changing) (images : List BeforeImage)
        → IsToSet log.old.geometry volume owners log.old images (images_in undo.now) old new change
        prepared.now (P.shape part.old) (P.known part.old) place.now
        (given bytes.entry) (B.seen blocks.old)
        → Guards (B.seen blocks.old) (B.seen blocks.new) (IsSafeImage log.old.geometry volume
        owners (log_with prepared.now.logged log.old prepared.now.rec) (committed_by old)) }
    ensures had { (n : ℕ) → Contains (blocks_of unit (map changed_by changed.old.items)) n
        → Contains (blocks_of unit (map changed_by changed.new.items)) n }
    ensures others { (other : UnitOfRecovery) → same_unit other unit ≡ false
        → blocks_of other (map changed_by changed.new.items)
        ≡ blocks_of other (map changed_by changed.old.items) }
    ensures each { All (λ (by : ChangedBy). All (λ n. n < (B.seen blocks.old).count) by.blocks)
        (map changed_by changed.old.items)
        → All (λ (by : ChangedBy). All (λ n. n < (B.seen blocks.old).count) by.blocks)
        (map changed_by changed.new.items) }
    ensures records { OnOk result (log.new.records
        ≡ (log_with prepared.now.logged log.old prepared.now.rec).records) }
    ensures geometry { OnOk result (log.new.geometry ≡ log.old.geometry) }
    ensures generation { OnOk result (log.new.generation ≡ log.old.generation) }
    ensures sound { OnOk result (log.new.broken ≡ false) }
    ensures count { OnOk result ((B.seen blocks.new).count ≡ (B.seen blocks.old).count) }
    ensures size { OnOk result ((B.seen blocks.new).size ≡ (B.seen blocks.old).size) }
    ensures part { OnOk result (P.shape part.new ≡ P.shape part.old) }
    ensures split { OnOk result ((P.known part.new).split ≡ (P.known part.old).split) }
    ensures moves { OnOk result ((P.known part.new).move ≡ (P.known part.old).move) }
    ensures areas { OnOk result ((P.known part.new).areas ≡ (P.known part.old).areas) }
    ensures used { OnOk result ((P.known part.new).used ≡ (P.known part.old).used) }
    ensures full { prepared.now.logged ≡ false
        → IsFullWhere log.old (need_of (live_in log.old.records) prepared.now.rec) result }
    ensures never_full { prepared.now.logged ≡ true → IfErr result (λ no. IsFullNo no → ⊥) }
    ensures unchanged { IfErr result (λ no. IsFullNo no
        → (log.new ≡ log.old) × (blocks.new ≡ blocks.old) × (part.new ≡ part.old)
        × (changed.new ≡ changed.old)) }
    // Where the place is met, no read is made of it.
    ensures reads { HasMet (P.known part.old) place.now → IfErr result (λ no. no ≢ Read) }
    ensures cause { HasChangeCause (B.faults blocks.old) (B.faults blocks.new) result }
{
    put_at(blocks, log, part, undo, place, prepared, bytes)?;
    note_put(blocks, changed, unit, part.put_blocks())?;
    Ok(())
}

impl<P: Part> Store<P> {
    /// Makes these bytes the record at a place of a part, or takes the record there away, once `keep`
    /// has prepared it. `Full` says that the log is, and then nothing is done; `Read` and `Write` are
    /// the device's.
    pub fn make<B: Blocks>(
        &mut self,
        blocks: &mut B,
        number: PartNo,
        unit: Unit,
        place: &Place,
        prepared: &Prepared,
        bytes: Option<&[u8]>,
    ) -> Result<(), LogNo>
        requires set { IsSet self.old (B.seen blocks.old) }
        requires part { part_among self.old.parts number.0 ≢ None }
        requires place { IfSome (shape_among self.old.parts number.0)
            (λ shape. IsPlaceOf shape place.now) }
        requires item { IfSome (shape_among self.old.parts number.0)
            (λ shape. IsGiven shape place.now bytes) }
        requires lengths { HasLengths prepared.now.rec }
        requires before { IsBefore prepared.now.rec }
        requires ready { IsTrue B.tells
            → IsReady self.old unit number place.now prepared.now (B.seen blocks.old) }
        requires can { IsTrue B.tells → IsSettable self.old (B.seen blocks.old).cur number.0
            place.now (given bytes) }
        ensures made { IsTrue B.tells → OnOk result ((volume : ℕ) (was : Option (List ℕ))
            (old after : State) (need : ℕ)
            → IsReadyBy volume self.old unit number place.now prepared.now was old
            (B.seen blocks.old)
            → IsMadeOf unit number place.now
            (left_among self.old.parts number.0 old place.now (given bytes.entry)) need old after
            → need ≡ need_with prepared.now.logged self.old.log prepared.now.rec
            → IsStored volume self.new after (B.seen blocks.new)) }
        // At every moment, whether it fails or not.
        ensures moments { IsTrue B.tells → (volume : ℕ) (was : Option (List ℕ)) (old : State)
            → IsReadyBy volume self.old unit number place.now prepared.now was old
            (B.seen blocks.old)
            → Guards (B.seen blocks.old) (B.seen blocks.new)
            (IsSafeImage self.old.log.geometry volume (owners_of self.old)
            (log_with prepared.now.logged self.old.log prepared.now.rec) (committed_by old)) }
        ensures set { OnOk result (IsSet self.new (B.seen blocks.new)) }
        ensures undo { self.new.undo ≡ self.old.undo }
        ensures space { self.new.space ≡ self.old.space }
        ensures parts { OnOk result (OnlyMet number.0 self.old.parts self.new.parts) }
        ensures geometry { OnOk result (self.new.log.geometry ≡ self.old.log.geometry) }
        ensures generation { OnOk result (self.new.log.generation ≡ self.old.log.generation) }
        ensures others { (other : UnitOfRecovery) → same_unit other unit ≡ false
            → blocks_of other self.new.changed ≡ blocks_of other self.old.changed }
        ensures full { prepared.now.logged ≡ false → IsFullWhere self.old.log
            (need_of (live_in self.old.log.records) prepared.now.rec) result }
        // A place that is logged takes no more of the log.
        ensures never_full { prepared.now.logged ≡ true → IfErr result (λ no. IsFullNo no → ⊥) }
        ensures unchanged { IfErr result (λ no. IsFullNo no
            → (self.new ≡ self.old) × (blocks.new ≡ blocks.old)) }
        // Where room was asked for at the place, no read is made of it.
        ensures reads { IfSome (part_among self.old.parts number.0)
            (λ part. HasMet part.known place.now) → IfErr result (λ no. no ≢ Read) }
        ensures cause { HasChangeCause (B.faults blocks.old) (B.faults blocks.new) result }
    {
        match index_of(&self.parts, number) {
            Some(at) => {
                let part = &mut self.parts[at].part;
                let undo = &self.undo;
                let changed = &mut self.changed;
                set_at(
                    blocks,
                    &mut self.log,
                    part,
                    undo,
                    changed,
                    unit,
                    place,
                    prepared,
                    bytes,
                )?;
                Ok(())
            }
            None => unreachable!("the part is laid"),
        }
    }
}
