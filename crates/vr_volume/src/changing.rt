//! Calls of a part on a volume: what each leaves of it in the image of each moment.
ghost use Rattle.std.specs.Prelude.{◌≡◌, ◌≢◌, ◌<◌, [], ℕ, List, IsTrue, IfOk, OnOk, IfErr};
ghost use Rattle.std.specs.Prelude.{OnErr, All, length as length_of};
ghost use Rattle.vr_types.specs.Blocks.{Forced, Keeps};
ghost use Rattle.vr_types.specs.Content.{Content};
ghost use Rattle.vr_types.specs.Faults.{HasCause, HasWriteCause};
ghost use Rattle.vr_types.specs.Geometry.{area_count};
ghost use Rattle.vr_types.specs.Moments.{Guards};
ghost use Rattle.vr_types.specs.Regions.{Touches};
ghost use Rattle.vr_types.specs.Space.{free_count};
ghost use Rattle.vr_types.specs.declared.fault.DeviceFault.TheVariants.{Read, Write};
ghost use Rattle.vr_types.specs.declared.geometry.Geometry.{Geometry};
ghost use Rattle.vr_space.specs.Owners.{Owners};
ghost use Rattle.vr_space.specs.declared.room.Room.TheVariants as answers;
ghost use Rattle.vr_attach.specs.Owning.{claimed_by, owner_of};
ghost use Rattle.vr_space.specs.Known.{HasMet, KeepsMet, Known};
ghost use Rattle.vr_space.specs.Part.{
  CanSet,
  DueMore,
  DueMoreAt,
  HasKeptRoom,
  HasMore,
  HasRoom,
  InPart,
  IsAtRest,
  IsGiven,
  IsLengthOf,
  IsOn,
  IsPlaceOf,
  IsQuiet,
  IsStageDue,
  KeepsChain,
  Knows,
  MayGrow,
  OwnersAfter,
  OwnsClaimed,
  SameRecords,
  SameStages,
  SetsOne,
  Shape,
  given,
  held_by,
  part_no,
  room_of,
};
ghost use Rattle.vr_history.specs.State.{BeforeImage, State};
ghost use Rattle.vr_log.specs.LogNow.{LogNow};
ghost use Rattle.vr_log.specs.declared.record.LogRecord.{LogRecord};
ghost use Rattle.vr_volume.specs.Laying.{IsFreeIn, IsLaidSo};
ghost use Rattle.vr_volume.specs.PutBack.{lengths_kept};
ghost use Rattle.vr_volume.specs.Rests.{HoldsNoMore, IsPartAtRest, IsVolumeAtRest};
ghost use Rattle.vr_volume.specs.Safe.{IsSafe, IsSafeImage};

use vr_space::{Kept, Part};
use vr_types::{Blocks, DeviceFault, Place, Space, StageKind};

/// Makes these bytes the record at a place of a part, or takes the record there away, where each
/// log that an image may have has a before-image of the place. At each moment of it, whether it
/// fails or not, each image is a safe one, and the volume is safe from then on.
pub fn set_free<B: Blocks, P: Part, K: Kept>(
    blocks: &mut B,
    part: &mut P,
    kept: &K,
    place: &Place,
    bytes: Option<&[u8]>,
) -> Result<(), DeviceFault>
    requires on { IsOn (P.shape part.old) (B.seen blocks.old) }
    requires place { IsPlaceOf (P.shape part.old) place.now }
    requires record { IsGiven (P.shape part.old) place.now bytes }
    requires rests { IsTrue B.tells → IsQuiet (P.shape part.old) (B.seen blocks.old) }
    requires room { IsTrue B.tells → HasKeptRoom (P.shape part.old)
        (K.kept kept.now (part_no (P.shape part.old))) (B.seen blocks.old) }
    requires knows { IsTrue B.tells → Knows (P.shape part.old) (P.known part.old)
        (B.seen blocks.old) }
    requires can { IsTrue B.tells → CanSet (P.shape part.old) (P.known part.old)
        (B.seen blocks.old).cur (K.kept kept.now (part_no (P.shape part.old))) place.now
        (given bytes) }
    ensures safe { IsTrue B.tells → (geometry : Geometry) (number : ℕ) (owners : Owners)
        (log : LogNow) (committed : List LogRecord → ℕ → Content)
        → IsSafe geometry number owners log committed (B.seen blocks.old)
        → IsLaidSo geometry log committed (part_no (P.shape part.old)).0 (P.shape part.old)
        (K.kept kept.now (part_no (P.shape part.old)))
        → IsFreeIn log (part_no (P.shape part.old)).0 place.now
        → Guards (B.seen blocks.old) (B.seen blocks.new)
        (IsSafeImage geometry number owners log committed)
        × IsSafe geometry number owners log committed (B.seen blocks.new) }
    // Elsewhere a crash leaves nothing that it could not leave before.
    ensures elsewhere { IsTrue B.tells → HoldsNoMore (P.shape part.old) place.now
        (B.seen blocks.old) (B.seen blocks.new) }
    ensures set { IsTrue B.tells → OnOk result (SetsOne (P.shape part.old) place.now
        (given bytes.entry) (B.seen blocks.old).cur (B.seen blocks.new).cur) }
    // No stage becomes due, at whichever place.
    ensures stages { IsTrue B.tells → OnOk result (SameStages (P.shape part.old)
        (P.known part.old) (P.known part.new) (B.seen blocks.old).cur (B.seen blocks.new).cur) }
    ensures due { IsTrue B.tells → OnOk result
        (DueMoreAt (P.shape part.old) place.now (P.put part.new)
        (B.seen blocks.old) (B.seen blocks.new)) }
    ensures put { OnOk result (All (λ n. n < (B.seen blocks.new).count) (P.put part.new)) }
    ensures rests { IsTrue B.tells → (owners : Owners)
        → IsAtRest (P.shape part.old) owners (B.seen blocks.old)
        → OnOk result (IsAtRest (P.shape part.old) owners (B.seen blocks.new)) }
    ensures room { IsTrue B.tells → HasKeptRoom (P.shape part.old)
        (K.kept kept.now (part_no (P.shape part.old))) (B.seen blocks.new) }
    ensures knows { IsTrue B.tells → OnOk result
        (Knows (P.shape part.old) (P.known part.new) (B.seen blocks.new)) }
    ensures met { HasMet (P.known part.old) place.now → OnOk result
        (KeepsMet (P.known part.old) (P.known part.new)) }
    ensures unread { IfErr result (λ fault. fault ≡ Read
        → Keeps B.tells (B.seen blocks.old) (B.seen blocks.new)
        × (IsTrue B.tells
        → Knows (P.shape part.old) (P.known part.new) (B.seen blocks.new))) }
    ensures reads { HasMet (P.known part.old) place.now → IfErr result (λ fault. fault ≡ Write) }
    ensures touches { IsTrue B.tells → (owners : Owners)
        → IsAtRest (P.shape part.old) owners (B.seen blocks.old)
        → Touches (InPart (P.shape part.old) owners)
        (HasRoom (P.shape part.old) (K.kept kept.now (part_no (P.shape part.old))))
        (B.seen blocks.old) (B.seen blocks.new) }
    ensures count { (B.seen blocks.new).count ≡ (B.seen blocks.old).count }
    ensures size { (B.seen blocks.new).size ≡ (B.seen blocks.old).size }
    ensures cause { HasCause (B.faults blocks.old) (B.faults blocks.new) result }
    ensures shape { P.shape part.new ≡ P.shape part.old }
    ensures split { (P.known part.new).split ≡ (P.known part.old).split }
    ensures moves { (P.known part.new).move ≡ (P.known part.old).move }
    ensures areas { (P.known part.new).areas ≡ (P.known part.old).areas }
    ensures used { (P.known part.new).used ≡ (P.known part.old).used }
{
    part.set(blocks, kept, place, bytes)
}

/// Does the stage that comes before a record of a part. At each moment of it, whether it fails or
/// not, each image is a safe one, and the volume is safe from then on, where the least free area is
/// the part's. Once it is done the volume is at rest by who owns the areas then.
pub fn do_stage<B: Blocks, P: Part, K: Kept>(
    blocks: &mut B,
    part: &mut P,
    space: &mut Space,
    kept: &K,
    place: &Place,
    length: u32,
) -> Result<StageKind, DeviceFault>
    requires on { IsOn (P.shape part.old) (B.seen blocks.old) }
    requires place { IsPlaceOf (P.shape part.old) place.now }
    requires length { IsLengthOf (P.shape part.old) length }
    requires rests { IsTrue B.tells → IsQuiet (P.shape part.old) (B.seen blocks.old) }
    requires room { IsTrue B.tells → HasKeptRoom (P.shape part.old)
        (K.kept kept.now (part_no (P.shape part.old))) (B.seen blocks.old) }
    requires knows { IsTrue B.tells → Knows (P.shape part.old) (P.known part.old)
        (B.seen blocks.old) }
    requires due { IsTrue B.tells → IsStageDue (P.shape part.old) (P.known part.old)
        (B.seen blocks.old).cur (free_count space.old)
        (K.kept kept.now (part_no (P.shape part.old))) place.now length }
    ensures safe { IsTrue B.tells → (geometry : Geometry) (number : ℕ)
        (log : LogNow) (committed : List LogRecord → ℕ → Content)
        → IsSafe geometry number (owner_of geometry space.old) log committed (B.seen blocks.old)
        → IsLaidSo geometry log committed (part_no (P.shape part.old)).0 (P.shape part.old)
        (K.kept kept.now (part_no (P.shape part.old)))
        → OwnsClaimed (P.shape part.old) (owner_of geometry space.old) (P.known part.old)
        → Guards (B.seen blocks.old) (B.seen blocks.new) (IsSafeImage geometry number
        (owner_of geometry (claimed_by (part_no (P.shape part.old)) space.old)) log committed)
        × IsSafe geometry number
        (owner_of geometry (claimed_by (part_no (P.shape part.old)) space.old)) log committed
        (B.seen blocks.new) }
    ensures stage { IsTrue B.tells → IfOk result (λ kind. answers.Stage kind
        ≡ room_of (P.shape part.old) (P.known part.old) (B.seen blocks.old).cur
        (free_count space.old) (K.kept kept.now (part_no (P.shape part.old))) place.now length) }
    ensures owners { IfOk result (λ kind.
        OwnersAfter (part_no (P.shape part.old)) kind space.old space.new) }
    ensures owners_stay { OnErr result (space.new ≡ space.old) }
    // What the part keeps of its areas goes with the areas that it owns.
    ensures chain { OnOk result (KeepsChain (P.shape part.old)
        (held_by (P.shape part.old) (P.known part.old))
        (held_by (P.shape part.old) (P.known part.new)) space.old space.new) }
    ensures chain_stays { OnErr result (held_by (P.shape part.old) (P.known part.new)
        ≡ held_by (P.shape part.old) (P.known part.old)) }
    ensures same { IsTrue B.tells → SameRecords (P.shape part.old)
        (B.seen blocks.old).cur (B.seen blocks.new).cur }
    ensures due { IsTrue B.tells → OnOk result
        (DueMore (P.shape part.old) [] (B.seen blocks.old) (B.seen blocks.new)) }
    ensures rests { IsTrue B.tells → (owners grown : Owners)
        → MayGrow (P.shape part.old) space.old owners grown
        → IsAtRest (P.shape part.old) owners (B.seen blocks.old)
        → OwnsClaimed (P.shape part.old) owners (P.known part.old)
        → OnOk result (IsAtRest (P.shape part.old) grown (B.seen blocks.new)) }
    ensures stays { IsTrue B.tells → (owners : Owners) → space.new ≡ space.old
        → IsAtRest (P.shape part.old) owners (B.seen blocks.old)
        → OwnsClaimed (P.shape part.old) owners (P.known part.old)
        → OnOk result (IsAtRest (P.shape part.old) owners (B.seen blocks.new)) }
    ensures room { IsTrue B.tells → HasKeptRoom (P.shape part.old)
        (K.kept kept.now (part_no (P.shape part.old))) (B.seen blocks.new) }
    ensures knows { IsTrue B.tells → OnOk result
        (Knows (P.shape part.old) (P.known part.new) (B.seen blocks.new)) }
    ensures split { OnErr result ((P.known part.new).split ≡ (P.known part.old).split) }
    ensures moves { OnErr result ((P.known part.new).move ≡ (P.known part.old).move) }
    ensures unread { IfErr result (λ fault. fault ≡ Read
        → Keeps B.tells (B.seen blocks.old) (B.seen blocks.new)
        × (IsTrue B.tells
        → Knows (P.shape part.old) (P.known part.new) (B.seen blocks.new))) }
    ensures count { (B.seen blocks.new).count ≡ (B.seen blocks.old).count }
    ensures size { (B.seen blocks.new).size ≡ (B.seen blocks.old).size }
    ensures cause { HasCause (B.faults blocks.old) (B.faults blocks.new) result }
    ensures shape { P.shape part.new ≡ P.shape part.old }
    // A volume that was at rest is so by the same state and the owners of the areas, and so is each
    // of its parts.
    ensures at_rest { IsTrue B.tells → OnOk result ((number : ℕ) (log : LogNow)
        (images : List BeforeImage) (state : State)
        → IsVolumeAtRest log.geometry number (owner_of log.geometry space.old) log images state
        (B.seen blocks.old)
        → IsPartAtRest log.geometry (owner_of log.geometry space.old) images state
        (P.shape part.old) (P.known part.old) (B.seen blocks.old)
        → K.kept kept.now (part_no (P.shape part.old))
        ≡ lengths_kept images (part_no (P.shape part.old)).0
        → IsVolumeAtRest log.geometry number (owner_of log.geometry space.new) log images state
        (B.seen blocks.new)
        × IsPartAtRest log.geometry (owner_of log.geometry space.new) images state
        (P.shape part.old) (P.known part.new) (B.seen blocks.new)) }
    ensures others { IsTrue B.tells → OnOk result ((number : ℕ) (log : LogNow)
        (images : List BeforeImage) (state : State) (other : Shape) (known : Known)
        → IsVolumeAtRest log.geometry number (owner_of log.geometry space.old) log images state
        (B.seen blocks.old)
        → IsPartAtRest log.geometry (owner_of log.geometry space.old) images state
        (P.shape part.old) (P.known part.old) (B.seen blocks.old)
        → (part_no other).0 ≢ (part_no (P.shape part.old)).0
        → IsPartAtRest log.geometry (owner_of log.geometry space.old) images state other known
        (B.seen blocks.old)
        → IsPartAtRest log.geometry (owner_of log.geometry space.new) images state other known
        (B.seen blocks.new)) }
    // On a volume at rest fewer stages are left, and what is used is counted.
    ensures more { IsTrue B.tells → IfOk result (λ kind. (number : ℕ) (log : LogNow)
        (images : List BeforeImage) (state : State)
        → IsVolumeAtRest log.geometry number (owner_of log.geometry space.old) log images state
        (B.seen blocks.old)
        → IsPartAtRest log.geometry (owner_of log.geometry space.old) images state
        (P.shape part.old) (P.known part.old) (B.seen blocks.old)
        → length_of space.old ≡ area_count log.geometry
        → HasMore (P.shape part.old) kind (P.known part.old) (P.known part.new)
        (free_count space.old) (free_count space.new)) }
    // What has to be forced for the places of another part stays.
    ensures others_due { IsTrue B.tells → OnOk result ((number : ℕ) (log : LogNow)
        (images : List BeforeImage) (state : State) (other : Shape) (known : Known)
        → IsVolumeAtRest log.geometry number (owner_of log.geometry space.old) log images state
        (B.seen blocks.old)
        → IsPartAtRest log.geometry (owner_of log.geometry space.old) images state
        (P.shape part.old) (P.known part.old) (B.seen blocks.old)
        → (part_no other).0 ≢ (part_no (P.shape part.old)).0
        → IsPartAtRest log.geometry (owner_of log.geometry space.old) images state other known
        (B.seen blocks.old)
        → DueMore other [] (B.seen blocks.old) (B.seen blocks.new)) }
{
    let kind = part.advance(blocks, space, kept, place, length)?;
    Ok(kind)
}

/// Forces blocks. At each moment of it, whether it fails or not, each image is a safe one, and the
/// volume is safe from then on.
pub fn force_blocks<B: Blocks>(blocks: &mut B, list: &[u32]) -> Result<(), DeviceFault>
    requires { All (λ n. n < (B.seen blocks.old).count) list.now }
    ensures safe { IsTrue B.tells → (geometry : Geometry) (number : ℕ) (owners : Owners)
        (log : LogNow) (committed : List LogRecord → ℕ → Content)
        → IsSafe geometry number owners log committed (B.seen blocks.old)
        → Guards (B.seen blocks.old) (B.seen blocks.new)
        (IsSafeImage geometry number owners log committed)
        × IsSafe geometry number owners log committed (B.seen blocks.new) }
    ensures forced { IsTrue B.tells → OnOk result
        (Forced list.now (B.seen blocks.old).cur (B.seen blocks.new).may) }
    ensures after { Keeps B.tells (B.seen blocks.old) (B.seen blocks.new) }
    // A volume that was at rest stays so, and so does each part.
    ensures at_rest { IsTrue B.tells → (geometry : Geometry) (number : ℕ) (owners : Owners)
        (log : LogNow) (images : List BeforeImage) (state : State)
        → IsVolumeAtRest geometry number owners log images state (B.seen blocks.old)
        → IsVolumeAtRest geometry number owners log images state (B.seen blocks.new) }
    ensures parts { IsTrue B.tells → (geometry : Geometry) (owners : Owners)
        (images : List BeforeImage) (state : State) (shape : Shape) (known : Known)
        → IsPartAtRest geometry owners images state shape known (B.seen blocks.old)
        → IsPartAtRest geometry owners images state shape known (B.seen blocks.new) }
    ensures cause { HasWriteCause (B.faults blocks.old) (B.faults blocks.new) result }
{
    blocks.force(list)
}
