//! A before-image of a unit of recovery is put back.
ghost use Rattle.std.specs.Prelude.{◌≡◌, ◌<◌, ℕ, List, All, IsTrue, OnOk, IfErr, false, map};
ghost use Rattle.std.specs.Prelude.{◌≢◌, IfSome, None, Option};
ghost use Rattle.std.specs.List.{Contains};
ghost use Rattle.vr_types.specs.Faults.{HasCause};
ghost use Rattle.vr_types.specs.Locks.{same_unit};
ghost use Rattle.vr_types.specs.Moments.{Guards};
ghost use Rattle.vr_types.specs.declared.fault.DeviceFault.TheVariants.{Write};
ghost use Rattle.vr_types.specs.declared.unit.Unit.{Unit as UnitOfRecovery};
ghost use Rattle.vr_space.specs.Known.{HasMet};
ghost use Rattle.vr_space.specs.Owners.{Owners};
ghost use Rattle.vr_space.specs.Part.{
  CanSet,
  HasKeptRoom,
  IsGiven,
  IsOn,
  IsPlaceOf,
  IsQuiet,
  Knows,
  given,
  part_no,
};
ghost use Rattle.vr_history.specs.State.{State};
ghost use Rattle.vr_undo.specs.Records.{images_in};
ghost use Rattle.vr_volume.specs.Committed.{committed_by};
ghost use Rattle.vr_volume.specs.PutBack.{lengths_kept};
ghost use Rattle.vr_volume.specs.Safe.{IsSafeImage};
ghost use Rattle.vr_volume.specs.Steps.{Changing, IsChangeOf, IsPutBack};
ghost use Rattle.vr_store.specs.Change.{IsSetIn, IsSettable};
ghost use Rattle.vr_store.specs.PutBack.{IsTaken, IsTakenFrom, IsToBack, back_at};
ghost use Rattle.vr_store.specs.Parts.{OnlyMet};
ghost use Rattle.vr_store.specs.Store.{ChangedBy, IsSet, IsStored, blocks_of, changed_by};
ghost use Rattle.vr_store.specs.Store.{left_among, owners_of, part_among, shape_among};

use crate::change::note_put;
use crate::changed::UnitBlocks;
use crate::parts::index_of;
use crate::store::Store;
use vr_log::UndoLog;
use vr_space::Part;
use vr_types::{Blocks, DeviceFault, PartNo, Place, Unit};
use vr_undo::Undo;
use vr_volume::set_again;

/// Puts a before-image back at its place of a part, and adds the blocks that it put to those of its
/// unit. A fault is the device's.
fn set_back<B: Blocks, P: Part>(
    blocks: &mut B,
    log: &UndoLog,
    part: &mut P,
    undo: &Undo,
    changed: &mut Vec<UnitBlocks>,
    unit: Unit,
    place: &Place,
    bytes: Option<&[u8]>,
) -> Result<(), DeviceFault>
    requires on { IsOn (P.shape part.old) (B.seen blocks.old) }
    requires place { IsPlaceOf (P.shape part.old) place.now }
    requires item { IsGiven (P.shape part.old) place.now bytes }
    requires rests { IsTrue B.tells → IsQuiet (P.shape part.old) (B.seen blocks.old) }
    requires room { IsTrue B.tells → HasKeptRoom (P.shape part.old)
        (lengths_kept (images_in undo.now) (part_no (P.shape part.old)).0) (B.seen blocks.old) }
    requires knows { IsTrue B.tells → Knows (P.shape part.old) (P.known part.old)
        (B.seen blocks.old) }
    requires can { IsTrue B.tells → CanSet (P.shape part.old) (P.known part.old)
        (B.seen blocks.old).cur (lengths_kept (images_in undo.now) (part_no (P.shape part.old)).0)
        place.now (given bytes) }
    ensures back { IsTrue B.tells → OnOk result ((volume : ℕ) (owners : Owners)
        (old new : State) (change : Changing)
        → IsToBack log.now.geometry volume owners log.now (images_in undo.now) old new change
        (P.shape part.old) (P.known part.old) place.now (given bytes.entry)
        (B.seen blocks.old)
        → IsSetIn log.now.geometry volume owners log.now (images_in undo.now) (images_in undo.now)
        old new (P.shape part.old) (P.known part.new) place.now
        (blocks_of unit (map changed_by changed.new.items)) (B.seen blocks.old)
        (B.seen blocks.new)) }
    // At every moment, whether it fails or not.
    ensures moments { IsTrue B.tells → (volume : ℕ) (owners : Owners) (old new : State)
        (change : Changing)
        → IsToBack log.now.geometry volume owners log.now (images_in undo.now) old new change
        (P.shape part.old) (P.known part.old) place.now (given bytes.entry)
        (B.seen blocks.old)
        → Guards (B.seen blocks.old) (B.seen blocks.new)
        (IsSafeImage log.now.geometry volume owners log.now (committed_by old)) }
    ensures had { (n : ℕ) → Contains (blocks_of unit (map changed_by changed.old.items)) n
        → Contains (blocks_of unit (map changed_by changed.new.items)) n }
    ensures others { (other : UnitOfRecovery) → same_unit other unit ≡ false
        → blocks_of other (map changed_by changed.new.items)
        ≡ blocks_of other (map changed_by changed.old.items) }
    ensures each { All (λ (by : ChangedBy). All (λ n. n < (B.seen blocks.old).count) by.blocks)
        (map changed_by changed.old.items)
        → All (λ (by : ChangedBy). All (λ n. n < (B.seen blocks.old).count) by.blocks)
        (map changed_by changed.new.items) }
    ensures count { (B.seen blocks.new).count ≡ (B.seen blocks.old).count }
    ensures size { (B.seen blocks.new).size ≡ (B.seen blocks.old).size }
    ensures part { P.shape part.new ≡ P.shape part.old }
    ensures split { (P.known part.new).split ≡ (P.known part.old).split }
    ensures moves { (P.known part.new).move ≡ (P.known part.old).move }
    ensures areas { (P.known part.new).areas ≡ (P.known part.old).areas }
    ensures used { (P.known part.new).used ≡ (P.known part.old).used }
    // Where the place is met, no read is made of it.
    ensures reads { HasMet (P.known part.old) place.now → IfErr result (λ fault. fault ≡ Write) }
    ensures cause { HasCause (B.faults blocks.old) (B.faults blocks.new) result }
{
    set_again(blocks, log, part, undo, place, bytes)?;
    note_put(blocks, changed, unit, part.put_blocks())?;
    Ok(())
}

impl<P: Part> Store<P> {
    /// Puts back at its place of a part the last before-image of a unit, which was taken out. A
    /// fault is the device's.
    pub fn put_taken<B: Blocks>(
        &mut self,
        blocks: &mut B,
        number: PartNo,
        unit: Unit,
        place: &Place,
        bytes: Option<&[u8]>,
    ) -> Result<(), DeviceFault>
        requires set { IsSet self.old (B.seen blocks.old) }
        requires part { part_among self.old.parts number.0 ≢ None }
        requires place { IfSome (shape_among self.old.parts number.0)
            (λ shape. IsPlaceOf shape place.now) }
        requires item { IfSome (shape_among self.old.parts number.0)
            (λ shape. IsGiven shape place.now bytes) }
        requires taken { IsTrue B.tells → IsTaken self.old unit (B.seen blocks.old) }
        requires can { IsTrue B.tells → IsSettable self.old (B.seen blocks.old).cur number.0
            place.now (given bytes) }
        ensures back { IsTrue B.tells → OnOk result ((volume : ℕ) (was : Option (List ℕ))
            (old new : State) → IsTakenFrom volume self.old unit old (B.seen blocks.old)
            → IsChangeOf self.old.log.geometry old
            (back_at unit number place.now was
            (left_among self.old.parts number.0 old place.now (given bytes.entry)))
            → IsPutBack (back_at unit number place.now was
            (left_among self.old.parts number.0 old place.now (given bytes.entry))) old new
            → IsStored volume self.new new (B.seen blocks.new)) }
        // At every moment, whether it fails or not.
        ensures moments { IsTrue B.tells → (volume : ℕ) (was : Option (List ℕ)) (old new : State)
            → IsTakenFrom volume self.old unit old (B.seen blocks.old)
            → IsChangeOf self.old.log.geometry old
            (back_at unit number place.now was
            (left_among self.old.parts number.0 old place.now (given bytes.entry)))
            → IsPutBack (back_at unit number place.now was
            (left_among self.old.parts number.0 old place.now (given bytes.entry))) old new
            → Guards (B.seen blocks.old) (B.seen blocks.new)
            (IsSafeImage self.old.log.geometry volume (owners_of self.old) self.old.log
            (committed_by old)) }
        ensures set { IsSet self.new (B.seen blocks.new) }
        ensures parts { OnlyMet number.0 self.old.parts self.new.parts }
        ensures others { (other : UnitOfRecovery) → same_unit other unit ≡ false
            → blocks_of other self.new.changed ≡ blocks_of other self.old.changed }
        ensures rest { self.new
            ≡ record self.old { parts = self.new.parts; changed = self.new.changed } }
        // Where room was asked for at the place, no read is made of it.
        ensures reads { IfSome (part_among self.old.parts number.0)
            (λ part. HasMet part.known place.now) → IfErr result (λ fault. fault ≡ Write) }
        ensures cause { HasCause (B.faults blocks.old) (B.faults blocks.new) result }
    {
        match index_of(&self.parts, number) {
            Some(at) => {
                let part = &mut self.parts[at].part;
                let undo = &self.undo;
                set_back(
                    blocks,
                    &self.log,
                    part,
                    undo,
                    &mut self.changed,
                    unit,
                    place,
                    bytes,
                )
            }
            None => unreachable!("the part is laid"),
        }
    }
}
