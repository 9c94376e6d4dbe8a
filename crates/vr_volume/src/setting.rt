//! Records set at several places of a part, each of which a log that an image may have has logged.
ghost use Rattle.std.specs.Prelude.{◌≡◌, ◌≢◌, ◌<◌, ℕ, List, Option, IsTrue, OnOk, IfErr, All};
ghost use Rattle.vr_types.specs.Content.{Content, Item};
ghost use Rattle.vr_types.specs.Faults.{HasCause};
ghost use Rattle.vr_types.specs.Moments.{Guards};
ghost use Rattle.vr_types.specs.Regions.{Touches};
ghost use Rattle.vr_types.specs.declared.fault.DeviceFault.TheVariants.{Write};
ghost use Rattle.vr_types.specs.declared.geometry.Geometry.{Geometry};
ghost use Rattle.vr_space.specs.Known.{HasMet, KeepsMet};
ghost use Rattle.vr_space.specs.Owners.{Owners};
ghost use Rattle.vr_space.specs.Part.{
  CanSet,
  HasKeptRoom,
  InPart,
  IsAtRest,
  IsFirm,
  IsOn,
  IsQuiet,
  Knows,
  MayHold,
  SameStages,
  SetsOne,
  given,
  part_no,
};
ghost use Rattle.vr_log.specs.LogNow.{LogNow};
ghost use Rattle.vr_log.specs.declared.record.LogRecord.{LogRecord};
ghost use Rattle.vr_volume.specs.EntryChanges.{AreApart, AreSet, CanSetAll, MayStand, MissAll};
ghost use Rattle.vr_volume.specs.Laying.{IsFreeIn, IsLaidSo};
ghost use Rattle.vr_volume.specs.Rests.{HoldsNoMore};
ghost use Rattle.vr_volume.specs.Safe.{IsSafe, IsSafeImage};

use crate::changing::{force_blocks, set_free};
use vr_space::{Kept, Part};
use vr_types::{Blocks, Bytes, DeviceFault, Place};

/// A change of one place of the catalog: the record that stands there before, or none, and the one
/// that is given to it, or none.
#[derive(Drop)]
pub struct EntryChange {
    /// The place: the key of the entry's record.
    pub place: Place,
    /// The record that stands there, or none where one is added.
    pub before: Option<Bytes>,
    /// The record that it gets, or none where the one there is taken away.
    pub bytes: Option<Bytes>,
}

/// The record that a change gives to its place.
fn bytes_given(change: &EntryChange) -> Option<&[u8]>
    ensures { given result ≡ change.now.bytes }
{
    match &change.bytes {
        Some(bytes) => Some(bytes.as_slice()),
        None => None,
    }
}

/// Sets what a change gives to its place, where each log has a before-image of it, and forces the
/// blocks that it put. At each moment of it, whether it fails or not, each image is a safe one.
fn set_forced<B: Blocks, P: Part, K: Kept>(
    blocks: &mut B,
    part: &mut P,
    kept: &K,
    change: &EntryChange,
) -> Result<(), DeviceFault>
    requires on { IsOn (P.shape part.old) (B.seen blocks.old) }
    requires stands { MayStand (P.shape part.old) change.now }
    requires rests { IsTrue B.tells → IsQuiet (P.shape part.old) (B.seen blocks.old) }
    requires room { IsTrue B.tells → HasKeptRoom (P.shape part.old)
        (K.kept kept.now (part_no (P.shape part.old))) (B.seen blocks.old) }
    requires knows { IsTrue B.tells → Knows (P.shape part.old) (P.known part.old)
        (B.seen blocks.old) }
    requires can { IsTrue B.tells → CanSet (P.shape part.old) (P.known part.old)
        (B.seen blocks.old).cur (K.kept kept.now (part_no (P.shape part.old))) change.now.place
        change.now.bytes }
    ensures safe { IsTrue B.tells → (geometry : Geometry) (number : ℕ) (owners : Owners)
        (log : LogNow) (committed : List LogRecord → ℕ → Content)
        → IsSafe geometry number owners log committed (B.seen blocks.old)
        → IsLaidSo geometry log committed (part_no (P.shape part.old)).0 (P.shape part.old)
        (K.kept kept.now (part_no (P.shape part.old)))
        → IsFreeIn log (part_no (P.shape part.old)).0 change.now.place
        → Guards (B.seen blocks.old) (B.seen blocks.new)
        (IsSafeImage geometry number owners log committed)
        × IsSafe geometry number owners log committed (B.seen blocks.new) }
    ensures set { IsTrue B.tells → OnOk result (SetsOne (P.shape part.old) change.now.place
        change.now.bytes (B.seen blocks.old).cur (B.seen blocks.new).cur) }
    ensures elsewhere { IsTrue B.tells → OnOk result (HoldsNoMore (P.shape part.old)
        change.now.place (B.seen blocks.old) (B.seen blocks.new)) }
    // A crash leaves there what was set, where it left what stood there.
    ensures firm { IsTrue B.tells → IsFirm (P.shape part.old) (B.seen blocks.old) change.now.place
        → OnOk result (IsFirm (P.shape part.old) (B.seen blocks.new) change.now.place) }
    ensures rests { IsTrue B.tells → (owners : Owners)
        → IsAtRest (P.shape part.old) owners (B.seen blocks.old)
        → OnOk result (IsAtRest (P.shape part.old) owners (B.seen blocks.new)) }
    ensures room { IsTrue B.tells → OnOk result (HasKeptRoom (P.shape part.old)
        (K.kept kept.now (part_no (P.shape part.old))) (B.seen blocks.new)) }
    ensures knows { IsTrue B.tells → OnOk result
        (Knows (P.shape part.old) (P.known part.new) (B.seen blocks.new)) }
    ensures stages { IsTrue B.tells → OnOk result (SameStages (P.shape part.old)
        (P.known part.old) (P.known part.new) (B.seen blocks.old).cur (B.seen blocks.new).cur) }
    ensures touches { IsTrue B.tells → (owners : Owners)
        → IsAtRest (P.shape part.old) owners (B.seen blocks.old)
        → Touches (InPart (P.shape part.old) owners) (λ image. Prim.Unit {0})
        (B.seen blocks.old) (B.seen blocks.new) }
    ensures met { HasMet (P.known part.old) change.now.place → OnOk result
        (KeepsMet (P.known part.old) (P.known part.new)) }
    ensures reads { HasMet (P.known part.old) change.now.place
        → IfErr result (λ fault. fault ≡ Write) }
    ensures count { (B.seen blocks.new).count ≡ (B.seen blocks.old).count }
    ensures size { (B.seen blocks.new).size ≡ (B.seen blocks.old).size }
    ensures cause { HasCause (B.faults blocks.old) (B.faults blocks.new) result }
    ensures shape { P.shape part.new ≡ P.shape part.old }
    ensures split { (P.known part.new).split ≡ (P.known part.old).split }
    ensures moves { (P.known part.new).move ≡ (P.known part.old).move }
    ensures areas { (P.known part.new).areas ≡ (P.known part.old).areas }
    ensures used { (P.known part.new).used ≡ (P.known part.old).used }
{
    set_free(blocks, part, kept, &change.place, bytes_given(change))?;
    force_blocks(blocks, part.put_blocks())?;
    Ok(())
}

/// Sets what changes give to their places, in their order, where each log has a before-image of each
/// place, and forces the blocks that they put. At each moment of it, whether it fails or not, each
/// image is a safe one. There is room for the first; the others need none but what is kept.
pub(crate) fn set_all<B: Blocks, P: Part, K: Kept>(
    blocks: &mut B,
    part: &mut P,
    kept: &K,
    changes: &[EntryChange],
) -> Result<(), DeviceFault>
    requires on { IsOn (P.shape part.old) (B.seen blocks.old) }
    requires stand { All (MayStand (P.shape part.old)) changes.now }
    requires apart { AreApart changes.now }
    requires rests { IsTrue B.tells → IsQuiet (P.shape part.old) (B.seen blocks.old) }
    requires room { IsTrue B.tells → HasKeptRoom (P.shape part.old)
        (K.kept kept.now (part_no (P.shape part.old))) (B.seen blocks.old) }
    requires knows { IsTrue B.tells → Knows (P.shape part.old) (P.known part.old)
        (B.seen blocks.old) }
    requires can { IsTrue B.tells → CanSetAll (P.shape part.old) (P.known part.old)
        (B.seen blocks.old).cur (K.kept kept.now (part_no (P.shape part.old))) changes.now }
    ensures safe { IsTrue B.tells → (geometry : Geometry) (number : ℕ) (owners : Owners)
        (log : LogNow) (committed : List LogRecord → ℕ → Content)
        → IsSafe geometry number owners log committed (B.seen blocks.old)
        → IsLaidSo geometry log committed (part_no (P.shape part.old)).0 (P.shape part.old)
        (K.kept kept.now (part_no (P.shape part.old)))
        → All (λ change. IsFreeIn log (part_no (P.shape part.old)).0 change.place) changes.now
        → Guards (B.seen blocks.old) (B.seen blocks.new)
        (IsSafeImage geometry number owners log committed)
        × IsSafe geometry number owners log committed (B.seen blocks.new) }
    ensures set { IsTrue B.tells → OnOk result (AreSet (P.shape part.old) changes.now
        (B.seen blocks.old).cur (B.seen blocks.new).cur) }
    // Elsewhere a crash leaves nothing that it could not leave before.
    ensures elsewhere { IsTrue B.tells → OnOk result ((place : List ℕ) (found : Option Item)
        → MissAll place changes.now → MayHold (P.shape part.old) (B.seen blocks.new).may place found
        → MayHold (P.shape part.old) (B.seen blocks.old).may place found) }
    // And it leaves what was set, where it left what stood there.
    ensures firm { IsTrue B.tells
        → All (λ change. IsFirm (P.shape part.old) (B.seen blocks.old) change.place) changes.now
        → OnOk result (All (λ change.
        IsFirm (P.shape part.old) (B.seen blocks.new) change.place) changes.now) }
    ensures rests { IsTrue B.tells → (owners : Owners)
        → IsAtRest (P.shape part.old) owners (B.seen blocks.old)
        → OnOk result (IsAtRest (P.shape part.old) owners (B.seen blocks.new)) }
    ensures room { IsTrue B.tells → OnOk result (HasKeptRoom (P.shape part.old)
        (K.kept kept.now (part_no (P.shape part.old))) (B.seen blocks.new)) }
    ensures knows { IsTrue B.tells → OnOk result
        (Knows (P.shape part.old) (P.known part.new) (B.seen blocks.new)) }
    ensures touches { IsTrue B.tells → (owners : Owners)
        → IsAtRest (P.shape part.old) owners (B.seen blocks.old)
        → Touches (InPart (P.shape part.old) owners) (λ image. Prim.Unit {0})
        (B.seen blocks.old) (B.seen blocks.new) }
    // Where each place is met, no read is made: each change keeps all that was met.
    ensures reads { All (λ change. HasMet (P.known part.old) change.place) changes.now
        → IfErr result (λ fault. fault ≡ Write) }
    ensures count { (B.seen blocks.new).count ≡ (B.seen blocks.old).count }
    ensures size { (B.seen blocks.new).size ≡ (B.seen blocks.old).size }
    ensures cause { HasCause (B.faults blocks.old) (B.faults blocks.new) result }
    ensures shape { P.shape part.new ≡ P.shape part.old }
    ensures split { (P.known part.new).split ≡ (P.known part.old).split }
    ensures moves { (P.known part.new).move ≡ (P.known part.old).move }
    ensures areas { (P.known part.new).areas ≡ (P.known part.old).areas }
    ensures used { (P.known part.new).used ≡ (P.known part.old).used }
{
    for change in changes {
        set_forced(blocks, part, kept, change)?;
    }
    Ok(())
}
