//! The record of a new part in the catalog, added by a unit of recovery that logs its before-image,
//! sets it and ends; and what may be done before to blocks that are of no part yet.
ghost use Rattle.std.specs.Prelude.{◌≡◌, ◌≢◌, ◌⊎◌, ◌<◌, ◌+◌, ◌^◌, [], ℕ, List, Some, None, IsTrue};
ghost use Rattle.std.specs.Prelude.{OnOk, IfErr, false};
ghost use Rattle.vr_types.specs.Moments.{Guards};
ghost use Rattle.vr_types.specs.Regions.{Touches};
ghost use Rattle.vr_types.specs.declared.geometry.Geometry.{Geometry};
ghost use Rattle.vr_space.specs.Known.{HasMet, Known};
ghost use Rattle.vr_space.specs.Owners.{Owners};
ghost use Rattle.vr_space.specs.Part.{CanSet, DueMore, HasKeptRoom, IsOn, IsPlaceOf, IsRecordOf};
ghost use Rattle.vr_space.specs.Part.{Knows, Shape, part_no};
ghost use Rattle.vr_attach.specs.Owning.{IsPastLog};
ghost use Rattle.vr_log.specs.Live.{live_in, need_of};
ghost use Rattle.vr_log.specs.LogNow.{IsFullNo, IsFullWhere, IsOf, LogNow, with_record};
ghost use Rattle.vr_log.specs.Records.{HasLengths};
ghost use Rattle.vr_log.specs.Standing.{LogStands};
ghost use Rattle.vr_log.specs.declared.no.LogNo.TheVariants.{Read};
ghost use Rattle.vr_log.specs.declared.record.EndKind.TheVariants.{Committed};
ghost use Rattle.vr_log.specs.declared.record.LogRecord.TheVariants.{Before};
ghost use Rattle.vr_history.specs.State.{BeforeImage, State};
ghost use Rattle.vr_volume.specs.Cause.{HasChangeCause};
ghost use Rattle.vr_volume.specs.Crashes.{RecoversTo};
ghost use Rattle.vr_volume.specs.Defining.{CanDefine, IsDefinedIn, IsGivenTo, IsStarted};
ghost use Rattle.vr_volume.specs.EndedLog.{IsEndedLog};
ghost use Rattle.vr_volume.specs.Laid.{shape_by};
ghost use Rattle.vr_volume.specs.PutBack.{lengths_kept};
ghost use Rattle.vr_volume.specs.Rests.{IsPartAtRest, IsVolumeAtRest, RestsPastLog};

use crate::changing::force_blocks;
use crate::unit_end::{log_end, restart_idle};
use crate::write_ahead::change;
use vr_log::{EndKind, LogNo, LogRecord, UndoLog};
use vr_space::{Kept, Part};
use vr_types::{Blocks, Place, Unit};

/// Blocks that were nobody's may be given to a part: the volume stays at rest, and so does each
/// part of it.
pub fn owners_grow<B: Blocks>(blocks: &B)
    ensures rests { (geometry : Geometry) (number : ℕ) (owners grown : Owners) (log : LogNow)
        (images : List BeforeImage) (state : State) (part : ℕ)
        → IsVolumeAtRest geometry number owners log images state (B.seen blocks.now)
        → IsGivenTo part owners grown → IsPastLog geometry grown
        → IsVolumeAtRest geometry number grown log images state (B.seen blocks.now) }
    ensures parts { (geometry : Geometry) (owners grown : Owners) (images : List BeforeImage)
        (state : State) (shape : Shape) (known : Known) (part : ℕ)
        → IsPartAtRest geometry owners images state shape known (B.seen blocks.now)
        → IsGivenTo part owners grown
        → IsPartAtRest geometry grown images state shape known (B.seen blocks.now) }
{}

/// Blocks of a part that isn't laid may change in any way: in every image of every moment the
/// volume recovers to what is committed, and it and each other part stay at rest. What has to be
/// forced for the places of another part stays.
pub fn nobodys_blocks_may_change<B: Blocks>()
    ensures moments { (geometry : Geometry) (number : ℕ) (owners : Owners) (log : LogNow)
        (images : List BeforeImage) (state : State) (part : ℕ) (a b : B)
        → IsVolumeAtRest geometry number owners log images state (B.seen a)
        → shape_by geometry (state.contents 0) part ≡ None
        → Touches (λ n. owners n ≡ Some part) (λ image. Prim.Unit {0}) (B.seen a) (B.seen b)
        → Guards (B.seen a) (B.seen b) (RecoversTo geometry number state []) }
    ensures rests { (geometry : Geometry) (number : ℕ) (owners : Owners) (log : LogNow)
        (images : List BeforeImage) (state : State) (part : ℕ) (a b : B)
        → IsVolumeAtRest geometry number owners log images state (B.seen a)
        → shape_by geometry (state.contents 0) part ≡ None
        → Touches (λ n. owners n ≡ Some part) (λ image. Prim.Unit {0}) (B.seen a) (B.seen b)
        → IsVolumeAtRest geometry number owners log images state (B.seen b) }
    ensures parts { (geometry : Geometry) (owners : Owners) (images : List BeforeImage)
        (state : State) (shape : Shape) (known : Known) (part : ℕ) (a b : B) → IsTrue B.tells
        → IsPartAtRest geometry owners images state shape known (B.seen a)
        → (part_no shape).0 ≢ part
        → Touches (λ n. owners n ≡ Some part) (λ image. Prim.Unit {0}) (B.seen a) (B.seen b)
        → IsPartAtRest geometry owners images state shape known (B.seen b) }
    ensures due { (geometry : Geometry) (owners : Owners) (images : List BeforeImage)
        (state : State) (shape : Shape) (known : Known) (part : ℕ) (a b : B) → IsTrue B.tells
        → IsPartAtRest geometry owners images state shape known (B.seen a)
        → (part_no shape).0 ≢ part
        → Touches (λ n. owners n ≡ Some part) (λ image. Prim.Unit {0}) (B.seen a) (B.seen b)
        → DueMore shape [] (B.seen a) (B.seen b) }
{}

/// Adds the record of a new part to the catalog, at a place where nothing is, by a unit of recovery
/// that has logged nothing: it logs the before-image of the place, none, and forces it; sets the
/// record, and forces its blocks; and logs the end of the unit, a commit, and forces it. Where no
/// unit is live then, the log begins its next generation. In every image of every moment, whether
/// it fails or not, the volume recovers to what was committed before, or to what is committed with
/// the record; once it is done the volume, the catalog and the new part rest by the state after it.
/// `Full`: nothing is done. `Write` is the device's. No read is made, since one that fails once the
/// log has the record would leave the unit live: so the catalog has to have met the place.
pub fn define<B: Blocks, P: Part, K: Kept>(
    blocks: &mut B,
    log: &mut UndoLog,
    catalog: &mut P,
    kept: &K,
    rec: &LogRecord,
    unit: Unit,
    place: &Place,
    bytes: &[u8],
) -> Result<(), LogNo>
    requires sound { log.old.broken ≡ false }
    requires shape { IsOf log.old.geometry (B.seen blocks.old) }
    requires lengths { HasLengths rec.now }
    requires is { rec.now ≡ Before unit (record { 0 = 0 }) place.now None }
    requires stands { IsTrue B.tells → LogStands log.old (B.seen blocks.old) }
    requires part { part_no (P.shape catalog.old) ≡ record { 0 = 0 } }
    requires on { IsOn (P.shape catalog.old) (B.seen blocks.old) }
    requires place { IsPlaceOf (P.shape catalog.old) place.now }
    requires record { IsRecordOf (P.shape catalog.old) place.now bytes.now }
    requires met { HasMet (P.known catalog.old) place.now }
    requires rests { IsTrue B.tells → RestsPastLog log.old.geometry (P.shape catalog.old)
        (P.known catalog.old) (B.seen blocks.old) }
    requires room { IsTrue B.tells → HasKeptRoom (P.shape catalog.old)
        (K.kept kept.now (part_no (P.shape catalog.old))) (B.seen blocks.old) }
    requires knows { IsTrue B.tells → Knows (P.shape catalog.old) (P.known catalog.old)
        (B.seen blocks.old) }
    requires can { IsTrue B.tells → CanSet (P.shape catalog.old) (P.known catalog.old)
        (B.seen blocks.old).cur (K.kept kept.now (part_no (P.shape catalog.old))) place.now
        (Some bytes.now) }
    ensures any_moment { IsTrue B.tells → (number : ℕ) (owners : Owners) (old new : State)
        (images : List BeforeImage) (shape : Shape) (known : Known) (need : ℕ)
        → IsVolumeAtRest log.old.geometry number owners log.old images old (B.seen blocks.old)
        → IsPartAtRest log.old.geometry owners images old (P.shape catalog.old)
        (P.known catalog.old) (B.seen blocks.old)
        → CanDefine log.old.geometry log.old unit shape place.now bytes.now old
        → IsStarted shape owners known (B.seen blocks.old)
        → IsDefinedIn unit place.now bytes.now need old new
        → K.kept kept.now (part_no (P.shape catalog.old)) ≡ lengths_kept images 0
        → Guards (B.seen blocks.old) (B.seen blocks.new) (λ image.
        RecoversTo log.old.geometry number old [] image
        ⊎ RecoversTo log.old.geometry number new [] image) }
    ensures defined { IsTrue B.tells → OnOk result ((number : ℕ) (owners : Owners)
        (old new : State) (images : List BeforeImage) (shape : Shape) (known : Known)
        → IsVolumeAtRest log.old.geometry number owners log.old images old (B.seen blocks.old)
        → IsPartAtRest log.old.geometry owners images old (P.shape catalog.old)
        (P.known catalog.old) (B.seen blocks.old)
        → CanDefine log.old.geometry log.old unit shape place.now bytes.now old
        → IsStarted shape owners known (B.seen blocks.old)
        → IsDefinedIn unit place.now bytes.now (need_of (live_in log.old.records) rec.now) old new
        → K.kept kept.now (part_no (P.shape catalog.old)) ≡ lengths_kept images 0
        → log.old.generation + 1 < 2 ^ 63
        → IsVolumeAtRest log.old.geometry number owners log.new images new (B.seen blocks.new)
        × IsPartAtRest log.old.geometry owners images new (P.shape catalog.old)
        (P.known catalog.new) (B.seen blocks.new)
        × IsPartAtRest log.old.geometry owners images new shape known (B.seen blocks.new)) }
    // Each other part is at rest, too.
    ensures others { IsTrue B.tells → OnOk result ((number : ℕ) (owners : Owners)
        (old new : State) (images : List BeforeImage) (shape : Shape) (need : ℕ) (other : Shape)
        (known : Known)
        → IsVolumeAtRest log.old.geometry number owners log.old images old (B.seen blocks.old)
        → IsPartAtRest log.old.geometry owners images old (P.shape catalog.old)
        (P.known catalog.old) (B.seen blocks.old)
        → CanDefine log.old.geometry log.old unit shape place.now bytes.now old
        → IsDefinedIn unit place.now bytes.now need old new
        → (part_no other).0 ≢ 0 → (part_no other).0 ≢ (part_no shape).0
        → IsPartAtRest log.old.geometry owners images old other known (B.seen blocks.old)
        → IsPartAtRest log.old.geometry owners images new other known (B.seen blocks.new)) }
    // What has to be forced for the places of another part stays.
    ensures others_due { IsTrue B.tells → OnOk result ((number : ℕ) (owners : Owners)
        (images : List BeforeImage) (state : State) (other : Shape) (known : Known)
        → IsVolumeAtRest log.old.geometry number owners log.old images state (B.seen blocks.old)
        → IsPartAtRest log.old.geometry owners images state (P.shape catalog.old)
        (P.known catalog.old) (B.seen blocks.old)
        → (part_no other).0 ≢ 0
        → IsPartAtRest log.old.geometry owners images state other known (B.seen blocks.old)
        → DueMore other [] (B.seen blocks.old) (B.seen blocks.new)) }
    ensures log { OnOk result (IsEndedLog (with_record log.old rec.now) unit Committed log.new) }
    ensures geometry { OnOk result (log.new.geometry ≡ log.old.geometry) }
    ensures sound { OnOk result (log.new.broken ≡ false) }
    ensures stands { IsTrue B.tells → log.old.generation + 1 < 2 ^ 63
        → OnOk result (LogStands log.new (B.seen blocks.new)) }
    // What it may answer: that the log is full exactly where it is, and then nothing is done; a
    // fault of a write only where there was one.
    ensures full { IsFullWhere log.old (need_of (live_in log.old.records) rec.now) result }
    ensures unchanged { IfErr result (λ no. IsFullNo no
        → (log.new ≡ log.old) × (blocks.new ≡ blocks.old) × (catalog.new ≡ catalog.old)) }
    ensures never_read { IfErr result (λ no. no ≢ Read) }
    ensures cause { HasChangeCause (B.faults blocks.old) (B.faults blocks.new) result }
    ensures count { OnOk result ((B.seen blocks.new).count ≡ (B.seen blocks.old).count) }
    ensures size { OnOk result ((B.seen blocks.new).size ≡ (B.seen blocks.old).size) }
    ensures part { OnOk result (P.shape catalog.new ≡ P.shape catalog.old) }
    ensures split { OnOk result ((P.known catalog.new).split ≡ (P.known catalog.old).split) }
    ensures moves { OnOk result ((P.known catalog.new).move ≡ (P.known catalog.old).move) }
    ensures areas { OnOk result ((P.known catalog.new).areas ≡ (P.known catalog.old).areas) }
    ensures used { OnOk result ((P.known catalog.new).used ≡ (P.known catalog.old).used) }
{
    change(blocks, log, catalog, kept, rec, place, Some(bytes))?;
    force_blocks(blocks, catalog.put_blocks())?;
    log_end(blocks, log, unit, EndKind::Committed)?;
    restart_idle(log);
    Ok(())
}
