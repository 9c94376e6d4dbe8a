//! A change of a record under a unit of recovery: its before-image is logged and forced before the
//! first block of the part is put.
ghost use Rattle.std.specs.Prelude.{◌≡◌, ◌≢◌, ◌<◌, ◌∷◌, ◌++◌, [], ℕ, List, Option, IsTrue, OnOk};
ghost use Rattle.std.specs.Prelude.{IfErr, false};
ghost use Rattle.std.specs.Prelude.{All};
ghost use Rattle.vr_types.specs.Content.{Content};
ghost use Rattle.vr_types.specs.Moments.{Guards};
ghost use Rattle.vr_types.specs.Regions.{Touches};
ghost use Rattle.vr_types.specs.declared.unit.Unit.{Unit as UnitOfRecovery};
ghost use Rattle.vr_space.specs.Owners.{Owners};
ghost use Rattle.vr_space.specs.Known.{HasMet, Known};
ghost use Rattle.vr_space.specs.Part.{
  CanSet,
  DueMore,
  DueMoreAt,
  HasKeptRoom,
  IsAtRest,
  IsGiven,
  IsOn,
  IsPlaceOf,
  Knows,
  SetsOne,
  Shape,
  given,
  part_no,
};
ghost use Rattle.vr_log.specs.Live.{EndsLive, live_in, need_of};
ghost use Rattle.vr_log.specs.LogNow.{HasLog, HasLogCause, IsFullNo, IsFullWhere, IsOf};
ghost use Rattle.vr_log.specs.LogNow.{with_record};
ghost use Rattle.vr_log.specs.Records.{HasLengths};
ghost use Rattle.vr_log.specs.Standing.{InLog, LogStands};
ghost use Rattle.vr_log.specs.declared.no.LogNo.TheVariants.{Read};
ghost use Rattle.vr_log.specs.declared.record.LogRecord.{LogRecord as Rec};
ghost use Rattle.vr_log.specs.declared.record.LogRecord.TheVariants.{Before};
ghost use Rattle.vr_history.specs.State.{BeforeImage, State};
ghost use Rattle.vr_volume.specs.Cause.{HasChangeCause};
ghost use Rattle.vr_volume.specs.Laying.{InLogOr, IsLaidBy, IsLogged};
ghost use Rattle.vr_volume.specs.Logged.{IsFirstBefore};
ghost use Rattle.vr_volume.specs.PutBack.{lengths_kept};
ghost use Rattle.vr_volume.specs.Rests.{IsGivenFor, IsPartAtRest, IsVolumeAtRest};
ghost use Rattle.vr_volume.specs.Rests.{RestsPastLog};
ghost use Rattle.vr_attach.specs.Owning.{IsPastLog};
ghost use Rattle.vr_volume.specs.Safe.{IsSafe, IsSafeImage};
ghost use Rattle.vr_volume.specs.Steps.{Changing, IsChangeOf, IsFirstChange, image_by};

use crate::changing::set_free;
use vr_log::{LogNo, LogRecord, UndoLog};
use vr_space::{Kept, Part};
use vr_types::{Blocks, Place};

/// Logs a record and forces it. Nothing outside the log is touched.
fn log_forced<B: Blocks>(blocks: &mut B, log: &mut UndoLog, rec: &LogRecord) -> Result<(), LogNo>
    requires sound { log.old.broken ≡ false }
    requires shape { IsOf log.old.geometry (B.seen blocks.old) }
    requires lengths { HasLengths rec.now }
    requires live { EndsLive (live_in log.old.records) rec.now }
    requires stands { IsTrue B.tells → LogStands log.old (B.seen blocks.old) }
    ensures touches { IsTrue B.tells → Touches (InLog log.old.geometry)
        (HasLog (with_record log.old rec.now)) (B.seen blocks.old) (B.seen blocks.new) }
    ensures logged { IsTrue B.tells → OnOk result (IsLogged log.old rec.now log.new) }
    ensures stands { IsTrue B.tells → OnOk result (LogStands log.new (B.seen blocks.new)) }
    ensures records { OnOk result (log.new.records ≡ log.old.records ++ rec.now ∷ []) }
    ensures geometry { OnOk result (log.new.geometry ≡ log.old.geometry) }
    ensures generation { OnOk result (log.new.generation ≡ log.old.generation) }
    ensures sound { OnOk result (log.new.broken ≡ false) }
    ensures count { OnOk result ((B.seen blocks.new).count ≡ (B.seen blocks.old).count) }
    ensures size { OnOk result ((B.seen blocks.new).size ≡ (B.seen blocks.old).size) }
    ensures full { IsFullWhere log.old (need_of (live_in log.old.records) rec.now) result }
    ensures unchanged { IfErr result (λ no. IsFullNo no
        → (log.new ≡ log.old) × (blocks.new ≡ blocks.old)) }
    ensures cause { HasLogCause (B.faults blocks.old) (B.faults blocks.new) result }
{
    log.append(blocks, rec)?;
    log.force(blocks)?;
    Ok(())
}

/// Makes these bytes the record at a place, or takes the record there away, for a unit of recovery
/// that didn't change the place before: it logs the before-image of the place, forces it, and then
/// sets the record. In every image of every moment, whether it fails or not, what the blocks
/// recover to is what is committed by the image's log, and so it is from then on.
pub fn change<B: Blocks, P: Part, K: Kept>(
    blocks: &mut B,
    log: &mut UndoLog,
    part: &mut P,
    kept: &K,
    rec: &LogRecord,
    place: &Place,
    bytes: Option<&[u8]>,
) -> Result<(), LogNo>
    requires sound { log.old.broken ≡ false }
    requires shape { IsOf log.old.geometry (B.seen blocks.old) }
    requires lengths { HasLengths rec.now }
    requires live { EndsLive (live_in log.old.records) rec.now }
    requires stands { IsTrue B.tells → LogStands log.old (B.seen blocks.old) }
    requires on { IsOn (P.shape part.old) (B.seen blocks.old) }
    requires place { IsPlaceOf (P.shape part.old) place.now }
    requires record { IsGiven (P.shape part.old) place.now bytes }
    requires rests { IsTrue B.tells → RestsPastLog log.old.geometry (P.shape part.old)
        (P.known part.old) (B.seen blocks.old) }
    requires room { IsTrue B.tells → HasKeptRoom (P.shape part.old)
        (K.kept kept.now (part_no (P.shape part.old))) (B.seen blocks.old) }
    requires knows { IsTrue B.tells → Knows (P.shape part.old) (P.known part.old)
        (B.seen blocks.old) }
    requires can { IsTrue B.tells → CanSet (P.shape part.old) (P.known part.old)
        (B.seen blocks.old).cur (K.kept kept.now (part_no (P.shape part.old))) place.now
        (given bytes) }
    ensures any_moment { IsTrue B.tells → (number : ℕ) (owners : Owners)
        (committed : List Rec → ℕ → Content)
        (unit : UnitOfRecovery) (old : Option (List ℕ))
        → rec.now ≡ Before unit (part_no (P.shape part.old)) place.now old
        → IsSafe log.old.geometry number owners log.old committed (B.seen blocks.old)
        → IsFirstBefore log.old.geometry log.old committed unit (part_no (P.shape part.old))
        place.now old
        → IsLaidBy log.old.geometry (log.old.records ++ rec.now ∷ []) committed
        (part_no (P.shape part.old)).0 (P.shape part.old)
        (K.kept kept.now (part_no (P.shape part.old)))
        → Guards (B.seen blocks.old) (B.seen blocks.new)
        (IsSafeImage log.old.geometry number owners (with_record log.old rec.now) committed) }
    ensures after { IsTrue B.tells → OnOk result ((number : ℕ) (owners : Owners)
        (committed : List Rec → ℕ → Content)
        (unit : UnitOfRecovery) (old : Option (List ℕ))
        → rec.now ≡ Before unit (part_no (P.shape part.old)) place.now old
        → IsSafe log.old.geometry number owners log.old committed (B.seen blocks.old)
        → IsFirstBefore log.old.geometry log.old committed unit (part_no (P.shape part.old))
        place.now old
        → IsLaidBy log.old.geometry (log.old.records ++ rec.now ∷ []) committed
        (part_no (P.shape part.old)).0 (P.shape part.old)
        (K.kept kept.now (part_no (P.shape part.old)))
        → IsSafe log.old.geometry number owners log.new committed (B.seen blocks.new)) }
    ensures log { IsTrue B.tells → OnOk result (IsLogged log.old rec.now log.new) }
    ensures rests { IsTrue B.tells → (owners : Owners) → IsPastLog log.old.geometry owners
        → IsAtRest (P.shape part.old) owners (B.seen blocks.old)
        → OnOk result (IsAtRest (P.shape part.old) owners (B.seen blocks.new)) }
    ensures room { IsTrue B.tells → OnOk result (HasKeptRoom (P.shape part.old)
        (K.kept kept.now (part_no (P.shape part.old))) (B.seen blocks.new)) }
    ensures knows { IsTrue B.tells → OnOk result
        (Knows (P.shape part.old) (P.known part.new) (B.seen blocks.new)) }
    ensures put { OnOk result (All (λ n. n < (B.seen blocks.new).count) (P.put part.new)) }
    ensures due { IsTrue B.tells → OnOk result
        (DueMoreAt (P.shape part.old) place.now (P.put part.new)
        (B.seen blocks.old) (B.seen blocks.new)) }
    ensures records { OnOk result (log.new.records ≡ log.old.records ++ rec.now ∷ []) }
    ensures geometry { OnOk result (log.new.geometry ≡ log.old.geometry) }
    ensures generation { OnOk result (log.new.generation ≡ log.old.generation) }
    ensures sound { OnOk result (log.new.broken ≡ false) }
    ensures count { OnOk result ((B.seen blocks.new).count ≡ (B.seen blocks.old).count) }
    ensures size { OnOk result ((B.seen blocks.new).size ≡ (B.seen blocks.old).size) }
    ensures part { OnOk result (P.shape part.new ≡ P.shape part.old) }
    ensures split { OnOk result ((P.known part.new).split ≡ (P.known part.old).split) }
    ensures moves { OnOk result ((P.known part.new).move ≡ (P.known part.old).move) }
    ensures areas { OnOk result ((P.known part.new).areas ≡ (P.known part.old).areas) }
    ensures used { OnOk result ((P.known part.new).used ≡ (P.known part.old).used) }
    ensures stands { IsTrue B.tells → OnOk result (LogStands log.new (B.seen blocks.new)) }
    // A volume that was at rest is so by the state after the change, and so is the part.
    ensures at_rest { IsTrue B.tells → OnOk result ((number : ℕ) (owners : Owners) (old new : State)
        (change : Changing) (images after : List BeforeImage)
        → IsVolumeAtRest log.old.geometry number owners log.old images old (B.seen blocks.old)
        → IsPartAtRest log.old.geometry owners images old (P.shape part.old) (P.known part.old)
        (B.seen blocks.old)
        → IsChangeOf log.old.geometry old change → IsFirstChange log.old change old new
        → rec.now ≡ Before change.unit change.part change.place change.old
        → IsGivenFor old change (P.shape part.old) place.now (given bytes.entry)
        → after ≡ images ++ image_by change ∷ []
        → K.kept kept.now (part_no (P.shape part.old))
        ≡ lengths_kept after (part_no (P.shape part.old)).0
        → IsVolumeAtRest log.old.geometry number owners log.new after new (B.seen blocks.new)
        × IsPartAtRest log.old.geometry owners after new (P.shape part.old) (P.known part.new)
        (B.seen blocks.new)) }
    // Nothing is touched but the log and the part.
    ensures touches { IsTrue B.tells → (owners : Owners) → IsPastLog log.old.geometry owners
        → IsAtRest (P.shape part.old) owners (B.seen blocks.old)
        → Touches (InLogOr log.old.geometry (P.shape part.old) owners) (λ image. Prim.Unit {0})
        (B.seen blocks.old) (B.seen blocks.new) }
    // What it may answer: that the log is full exactly where it is, and then nothing is done; a fault
    // of the device only where there was one.
    ensures full { IsFullWhere log.old (need_of (live_in log.old.records) rec.now) result }
    ensures unchanged { IfErr result (λ no. IsFullNo no
        → (log.new ≡ log.old) × (blocks.new ≡ blocks.old) × (part.new ≡ part.old)) }
    ensures cause { HasChangeCause (B.faults blocks.old) (B.faults blocks.new) result }
    // Where the place is met, no read is made of it.
    ensures reads { HasMet (P.known part.old) place.now → IfErr result (λ no. no ≢ Read) }
    // Each other part is at rest, too.
    ensures others { IsTrue B.tells → OnOk result ((number : ℕ) (owners : Owners) (old new : State)
        (change : Changing) (images after : List BeforeImage) (other : Shape) (known : Known)
        → IsVolumeAtRest log.old.geometry number owners log.old images old (B.seen blocks.old)
        → IsPartAtRest log.old.geometry owners images old (P.shape part.old) (P.known part.old)
        (B.seen blocks.old)
        → IsChangeOf log.old.geometry old change → IsFirstChange log.old change old new
        → part_no (P.shape part.old) ≡ change.part
        → after ≡ images ++ image_by change ∷ [] → (part_no other).0 ≢ change.part.0
        → IsPartAtRest log.old.geometry owners images old other known (B.seen blocks.old)
        → IsPartAtRest log.old.geometry owners after new other known (B.seen blocks.new)) }
    // What has to be forced for the places of another part stays.
    ensures others_due { IsTrue B.tells → OnOk result ((number : ℕ) (owners : Owners)
        (images : List BeforeImage) (state : State) (other : Shape) (known : Known)
        → IsVolumeAtRest log.old.geometry number owners log.old images state (B.seen blocks.old)
        → IsPartAtRest log.old.geometry owners images state (P.shape part.old) (P.known part.old)
        (B.seen blocks.old)
        → (part_no other).0 ≢ (part_no (P.shape part.old)).0
        → IsPartAtRest log.old.geometry owners images state other known (B.seen blocks.old)
        → DueMore other [] (B.seen blocks.old) (B.seen blocks.new)) }
    ensures set { IsTrue B.tells → OnOk result (SetsOne (P.shape part.old) place.now
        (given bytes.entry) (B.seen blocks.old).cur (B.seen blocks.new).cur) }
{
    log_forced(blocks, log, rec)?;
    set_free(blocks, part, kept, place, bytes)?;
    Ok(())
}
