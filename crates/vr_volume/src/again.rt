//! A record set at a place that a unit has logged before.
ghost use Rattle.std.specs.Prelude.{◌≡◌, ◌≢◌, ◌<◌, ℕ, List, [], None, IsTrue, OnOk, IfErr};
ghost use Rattle.std.specs.Prelude.{All};
ghost use Rattle.vr_types.specs.Faults.{HasCause};
ghost use Rattle.vr_types.specs.Moments.{Guards};
ghost use Rattle.vr_types.specs.declared.fault.DeviceFault.TheVariants.{Read, Write};
ghost use Rattle.vr_types.specs.Blocks.{Keeps};
ghost use Rattle.vr_space.specs.Owners.{Owners};
ghost use Rattle.vr_space.specs.Known.{HasMet, Known};
ghost use Rattle.vr_space.specs.Part.{
  CanSet,
  DueMore,
  DueMoreAt,
  HasKeptRoom,
  IsGiven,
  IsOn,
  IsPlaceOf,
  IsQuiet,
  Knows,
  SetsOne,
  Shape,
  given,
  part_no,
};
ghost use Rattle.vr_log.specs.LogNow.{LogNow};
ghost use Rattle.vr_history.specs.State.{BeforeImage, State};
ghost use Rattle.vr_volume.specs.Committed.{committed_by};
ghost use Rattle.vr_volume.specs.PutBack.{lengths_kept, oldest};
ghost use Rattle.vr_volume.specs.Rests.{IsGivenFor, IsPartAtRest, IsVolumeAtRest};
ghost use Rattle.vr_volume.specs.Safe.{IsSafeImage};
ghost use Rattle.vr_volume.specs.Steps.{Changing, IsChangeOf, IsKeptAgain, IsNextChange};
ghost use Rattle.vr_volume.specs.Steps.{IsPutBack, IsPutIn};

use crate::changing::set_free;
use vr_log::UndoLog;
use vr_space::{Kept, Part};
use vr_types::{Blocks, DeviceFault, Place};

/// Makes these bytes the record at a place that a unit has logged, or takes the record there away:
/// a further change of the unit, its before-image that is put back, or a change after that. At each
/// moment of it, whether it fails or not, each image recovers to what was committed. Once it is done
/// the volume is at rest by the state after it.
pub fn set_again<B: Blocks, P: Part, K: Kept>(
    blocks: &mut B,
    log: &UndoLog,
    part: &mut P,
    kept: &K,
    place: &Place,
    bytes: Option<&[u8]>,
) -> Result<(), DeviceFault>
    requires on { IsOn (P.shape part.old) (B.seen blocks.old) }
    requires place { IsPlaceOf (P.shape part.old) place.now }
    requires record { IsGiven (P.shape part.old) place.now bytes }
    requires rests { IsTrue B.tells → IsQuiet (P.shape part.old) (B.seen blocks.old) }
    requires room { IsTrue B.tells → HasKeptRoom (P.shape part.old)
        (K.kept kept.now (part_no (P.shape part.old))) (B.seen blocks.old) }
    requires knows { IsTrue B.tells → Knows (P.shape part.old) (P.known part.old)
        (B.seen blocks.old) }
    requires can { IsTrue B.tells → CanSet (P.shape part.old) (P.known part.old)
        (B.seen blocks.old).cur (K.kept kept.now (part_no (P.shape part.old))) place.now
        (given bytes) }
    ensures any_moment { IsTrue B.tells → (number : ℕ) (owners : Owners) (old : State)
        (images : List BeforeImage)
        → IsVolumeAtRest log.now.geometry number owners log.now images old (B.seen blocks.old)
        → IsPartAtRest log.now.geometry owners images old (P.shape part.old) (P.known part.old)
        (B.seen blocks.old)
        → oldest images (part_no (P.shape part.old)).0 place.now ≢ None
        → K.kept kept.now (part_no (P.shape part.old))
        ≡ lengths_kept images (part_no (P.shape part.old)).0
        → Guards (B.seen blocks.old) (B.seen blocks.new)
        (IsSafeImage log.now.geometry number owners log.now (committed_by old)) }
    // A further change.
    ensures next { IsTrue B.tells → OnOk result ((number : ℕ) (owners : Owners) (old new : State)
        (change : Changing) (images : List BeforeImage)
        → IsVolumeAtRest log.now.geometry number owners log.now images old (B.seen blocks.old)
        → IsPartAtRest log.now.geometry owners images old (P.shape part.old) (P.known part.old)
        (B.seen blocks.old)
        → IsChangeOf log.now.geometry old change → IsNextChange change old new
        → IsGivenFor old change (P.shape part.old) place.now (given bytes.entry)
        → K.kept kept.now (part_no (P.shape part.old))
        ≡ lengths_kept images (part_no (P.shape part.old)).0
        → IsVolumeAtRest log.now.geometry number owners log.now images new (B.seen blocks.new)
        × IsPartAtRest log.now.geometry owners images new (P.shape part.old) (P.known part.new)
        (B.seen blocks.new)) }
    // A change of a place whose before-image was put back, which is kept again.
    ensures again { IsTrue B.tells → OnOk result ((number : ℕ) (owners : Owners) (old new : State)
        (change : Changing) (images : List BeforeImage)
        → IsVolumeAtRest log.now.geometry number owners log.now images old (B.seen blocks.old)
        → IsPartAtRest log.now.geometry owners images old (P.shape part.old) (P.known part.old)
        (B.seen blocks.old)
        → IsChangeOf log.now.geometry old change → IsKeptAgain log.now change old new
        → IsGivenFor old change (P.shape part.old) place.now (given bytes.entry)
        → K.kept kept.now (part_no (P.shape part.old))
        ≡ lengths_kept images (part_no (P.shape part.old)).0
        → IsVolumeAtRest log.now.geometry number owners log.now images new (B.seen blocks.new)
        × IsPartAtRest log.now.geometry owners images new (P.shape part.old) (P.known part.new)
        (B.seen blocks.new)) }
    // A before-image that is put back.
    ensures back { IsTrue B.tells → OnOk result ((number : ℕ) (owners : Owners) (old new : State)
        (change : Changing) (images : List BeforeImage)
        → IsVolumeAtRest log.now.geometry number owners log.now images old (B.seen blocks.old)
        → IsPartAtRest log.now.geometry owners images old (P.shape part.old) (P.known part.old)
        (B.seen blocks.old)
        → IsChangeOf log.now.geometry old change → IsPutBack change old new
        → IsGivenFor old change (P.shape part.old) place.now (given bytes.entry)
        → K.kept kept.now (part_no (P.shape part.old))
        ≡ lengths_kept images (part_no (P.shape part.old)).0
        → IsVolumeAtRest log.now.geometry number owners log.now images new (B.seen blocks.new)
        × IsPartAtRest log.now.geometry owners images new (P.shape part.old) (P.known part.new)
        (B.seen blocks.new)) }
    // Each other part is at rest too, in each of these ways.
    ensures others { IsTrue B.tells → OnOk result ((number : ℕ) (owners : Owners) (old new : State)
        (change : Changing) (images : List BeforeImage) (other : Shape) (known : Known)
        → IsVolumeAtRest log.now.geometry number owners log.now images old (B.seen blocks.old)
        → IsPartAtRest log.now.geometry owners images old (P.shape part.old) (P.known part.old)
        (B.seen blocks.old)
        → IsChangeOf log.now.geometry old change → IsPutIn change old new
        → part_no (P.shape part.old) ≡ change.part → (part_no other).0 ≢ change.part.0
        → IsPartAtRest log.now.geometry owners images old other known (B.seen blocks.old)
        → IsPartAtRest log.now.geometry owners images new other known (B.seen blocks.new)) }
    // What has to be forced for the places of another part stays.
    ensures others_due { IsTrue B.tells → OnOk result ((number : ℕ) (owners : Owners)
        (images : List BeforeImage) (state : State) (other : Shape) (known : Known)
        → IsVolumeAtRest log.now.geometry number owners log.now images state (B.seen blocks.old)
        → IsPartAtRest log.now.geometry owners images state (P.shape part.old) (P.known part.old)
        (B.seen blocks.old)
        → (part_no other).0 ≢ (part_no (P.shape part.old)).0
        → IsPartAtRest log.now.geometry owners images state other known (B.seen blocks.old)
        → DueMore other [] (B.seen blocks.old) (B.seen blocks.new)) }
    ensures set { IsTrue B.tells → OnOk result (SetsOne (P.shape part.old) place.now
        (given bytes.entry) (B.seen blocks.old).cur (B.seen blocks.new).cur) }
    ensures due { IsTrue B.tells → OnOk result
        (DueMoreAt (P.shape part.old) place.now (P.put part.new)
        (B.seen blocks.old) (B.seen blocks.new)) }
    ensures put { OnOk result (All (λ n. n < (B.seen blocks.new).count) (P.put part.new)) }
    ensures count { (B.seen blocks.new).count ≡ (B.seen blocks.old).count }
    ensures size { (B.seen blocks.new).size ≡ (B.seen blocks.old).size }
    ensures unread { IfErr result (λ fault. fault ≡ Read
        → Keeps B.tells (B.seen blocks.old) (B.seen blocks.new)
        × (IsTrue B.tells
        → Knows (P.shape part.old) (P.known part.new) (B.seen blocks.new))) }
    ensures reads { HasMet (P.known part.old) place.now → IfErr result (λ fault. fault ≡ Write) }
    ensures cause { HasCause (B.faults blocks.old) (B.faults blocks.new) result }
    ensures shape { P.shape part.new ≡ P.shape part.old }
    ensures split { (P.known part.new).split ≡ (P.known part.old).split }
    ensures moves { (P.known part.new).move ≡ (P.known part.old).move }
    ensures areas { (P.known part.new).areas ≡ (P.known part.old).areas }
    ensures used { (P.known part.new).used ≡ (P.known part.old).used }
{
    let _ = log;
    set_free(blocks, part, kept, place, bytes)?;
    Ok(())
}
