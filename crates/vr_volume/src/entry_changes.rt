//! Several records of the catalog are added, replaced or taken away, as one event.
ghost use Rattle.std.specs.Prelude.{◌≡◌, ◌≢◌, ◌⊎◌, ◌<◌, ◌+◌, ◌^◌, [], ℕ, List, Option, IsTrue, OnOk};
ghost use Rattle.std.specs.Prelude.{All, IfErr, false, length, map};
ghost use Rattle.vr_types.specs.Moments.{Guards};
ghost use Rattle.vr_space.specs.Known.{HasMet, Known};
ghost use Rattle.vr_space.specs.Owners.{Owners};
ghost use Rattle.vr_space.specs.Part.{DueMore, HasKeptRoom, IsOn, Knows, Shape, part_no};
ghost use Rattle.vr_log.specs.Live.{live_in, need_of_all};
ghost use Rattle.vr_log.specs.LogNow.{IsFullNo, IsFullWhere, IsOf, with_records};
ghost use Rattle.vr_log.specs.Records.{HasLengths};
ghost use Rattle.vr_log.specs.Standing.{LogStands};
ghost use Rattle.vr_log.specs.declared.no.LogNo.TheVariants.{Read};
ghost use Rattle.vr_log.specs.declared.record.EndKind.TheVariants.{Committed};
ghost use Rattle.vr_history.specs.State.{BeforeImage, State};
ghost use Rattle.vr_volume.specs.Cause.{HasChangeCause};
ghost use Rattle.vr_volume.specs.Crashes.{RecoversTo};
ghost use Rattle.vr_volume.specs.EndedLog.{IsEndedLog};
ghost use Rattle.vr_volume.specs.EntryChange.{is_gone};
ghost use Rattle.vr_volume.specs.EntryChanges.{AreApart, AreEntriesChanged, CanChangeEntries};
ghost use Rattle.vr_volume.specs.EntryChanges.{CanSetAll, MayStand, StandsAt, image_for};
ghost use Rattle.vr_volume.specs.EntryChanges.{logged_for};
ghost use Rattle.vr_volume.specs.PutBack.{lengths_kept};
ghost use Rattle.vr_volume.specs.Rests.{IsPartAtRest, IsVolumeAtRest, RestsPastLog};

use crate::setting::{EntryChange, set_all};
use crate::together::log_all;
use crate::unit_end::{log_end, restart_idle};
use vr_log::{EndKind, LogNo, LogRecord, UndoLog};
use vr_space::{Kept, Part};
use vr_types::{Blocks, Unit};

/// Adds, replaces or takes away records of the catalog, each at a place of its own, by a unit of
/// recovery of a volume of which no unit is live: it logs the before-images of all places, and forces
/// them once; makes the changes in their order, and forces their blocks; and logs the end of the
/// unit, a commit, and forces it. Then the log begins its next generation. `records` are the
/// before-images, one for each change. In every image of every moment, whether it fails or not, the
/// volume recovers to what was committed before, or to what is committed with all of the changes, in
/// which the part that goes with them, where one does, has nothing; once it is done the volume, the
/// catalog and each other part rest by the state after them. There is room for the first change; the
/// others need none but what is kept of their places. `Full`: the log has no room for all of the
/// before-images, and nothing is done. A fault is the device's: none of a read where the catalog has
/// met each place. One of a read, as one of a write, may come once the log has the before-images.
pub fn change_entries<B: Blocks, P: Part, K: Kept>(
    blocks: &mut B,
    log: &mut UndoLog,
    catalog: &mut P,
    kept: &K,
    unit: Unit,
    records: &[LogRecord],
    changes: &[EntryChange],
) -> Result<(), LogNo>
    requires sound { log.old.broken ≡ false }
    requires shape { IsOf log.old.geometry (B.seen blocks.old) }
    requires lengths { All HasLengths records.now }
    requires records { records.now ≡ map (logged_for unit) changes.now }
    requires some { changes.now ≢ [] }
    requires few { length records.now < 65536 }
    requires idle { live_in log.old.records ≡ [] }
    requires stands { IsTrue B.tells → LogStands log.old (B.seen blocks.old) }
    requires part { part_no (P.shape catalog.old) ≡ record { 0 = 0 } }
    requires on { IsOn (P.shape catalog.old) (B.seen blocks.old) }
    requires stand { All (MayStand (P.shape catalog.old)) changes.now }
    requires apart { AreApart changes.now }
    requires rests { IsTrue B.tells → RestsPastLog log.old.geometry (P.shape catalog.old)
        (P.known catalog.old) (B.seen blocks.old) }
    requires kept { K.kept kept.now (part_no (P.shape catalog.old))
        ≡ lengths_kept (map (image_for unit) changes.now) 0 }
    requires room { IsTrue B.tells → HasKeptRoom (P.shape catalog.old) [] (B.seen blocks.old) }
    requires firm { IsTrue B.tells
        → All (StandsAt (P.shape catalog.old) (B.seen blocks.old)) changes.now }
    requires knows { IsTrue B.tells → Knows (P.shape catalog.old) (P.known catalog.old)
        (B.seen blocks.old) }
    requires can { IsTrue B.tells → CanSetAll (P.shape catalog.old) (P.known catalog.old)
        (B.seen blocks.old).cur (K.kept kept.now (part_no (P.shape catalog.old))) changes.now }
    ensures any_moment { IsTrue B.tells → (number : ℕ) (owners : Owners) (old new : State)
        (images : List BeforeImage) (gone : Option ℕ)
        → IsVolumeAtRest log.old.geometry number owners log.old images old (B.seen blocks.old)
        → IsPartAtRest log.old.geometry owners images old (P.shape catalog.old)
        (P.known catalog.old) (B.seen blocks.old)
        → CanChangeEntries log.old.geometry log.old unit changes.now gone old
        → AreEntriesChanged unit changes.now gone old new
        → Guards (B.seen blocks.old) (B.seen blocks.new) (λ image.
        RecoversTo log.old.geometry number old [] image
        ⊎ RecoversTo log.old.geometry number new [] image) }
    ensures done { IsTrue B.tells → OnOk result ((number : ℕ) (owners : Owners)
        (old new : State) (images : List BeforeImage) (gone : Option ℕ)
        → IsVolumeAtRest log.old.geometry number owners log.old images old (B.seen blocks.old)
        → IsPartAtRest log.old.geometry owners images old (P.shape catalog.old)
        (P.known catalog.old) (B.seen blocks.old)
        → CanChangeEntries log.old.geometry log.old unit changes.now gone old
        → AreEntriesChanged unit changes.now gone old new
        → log.old.generation + 1 < 2 ^ 63
        → IsVolumeAtRest log.old.geometry number owners log.new [] new (B.seen blocks.new)
        × IsPartAtRest log.old.geometry owners [] new (P.shape catalog.old)
        (P.known catalog.new) (B.seen blocks.new)) }
    // Each other part that doesn't go is at rest, too.
    ensures others { IsTrue B.tells → OnOk result ((number : ℕ) (owners : Owners)
        (old new : State) (images : List BeforeImage) (gone : Option ℕ)
        (other : Shape) (known : Known)
        → IsVolumeAtRest log.old.geometry number owners log.old images old (B.seen blocks.old)
        → IsPartAtRest log.old.geometry owners images old (P.shape catalog.old)
        (P.known catalog.old) (B.seen blocks.old)
        → CanChangeEntries log.old.geometry log.old unit changes.now gone old
        → AreEntriesChanged unit changes.now gone old new
        → (part_no other).0 ≢ 0 → is_gone gone (part_no other).0 ≡ false
        → IsPartAtRest log.old.geometry owners images old other known (B.seen blocks.old)
        → IsPartAtRest log.old.geometry owners [] new other known (B.seen blocks.new)) }
    // What has to be forced for the places of another part stays.
    ensures others_due { IsTrue B.tells → OnOk result ((number : ℕ) (owners : Owners)
        (images : List BeforeImage) (state : State) (other : Shape) (known : Known)
        → IsVolumeAtRest log.old.geometry number owners log.old images state (B.seen blocks.old)
        → IsPartAtRest log.old.geometry owners images state (P.shape catalog.old)
        (P.known catalog.old) (B.seen blocks.old)
        → (part_no other).0 ≢ 0
        → IsPartAtRest log.old.geometry owners images state other known (B.seen blocks.old)
        → DueMore other [] (B.seen blocks.old) (B.seen blocks.new)) }
    ensures log { OnOk result
        (IsEndedLog (with_records log.old records.now) unit Committed log.new) }
    // No unit is live then, and the log has no record.
    ensures begun { OnOk result (log.new.records ≡ []) }
    ensures geometry { OnOk result (log.new.geometry ≡ log.old.geometry) }
    ensures sound { OnOk result (log.new.broken ≡ false) }
    ensures stands { IsTrue B.tells → log.old.generation + 1 < 2 ^ 63
        → OnOk result (LogStands log.new (B.seen blocks.new)) }
    // What it may answer: that the log is full exactly where it is, and then nothing is done; a fault
    // of the device only where there was one.
    ensures full { IsFullWhere log.old (need_of_all (live_in log.old.records) records.now) result }
    ensures unchanged { IfErr result (λ no. IsFullNo no
        → (log.new ≡ log.old) × (blocks.new ≡ blocks.old) × (catalog.new ≡ catalog.old)) }
    ensures never_read { All (λ change. HasMet (P.known catalog.old) change.place) changes.now
        → IfErr result (λ no. no ≢ Read) }
    ensures cause { HasChangeCause (B.faults blocks.old) (B.faults blocks.new) result }
    ensures count { OnOk result ((B.seen blocks.new).count ≡ (B.seen blocks.old).count) }
    ensures size { OnOk result ((B.seen blocks.new).size ≡ (B.seen blocks.old).size) }
    ensures part { OnOk result (P.shape catalog.new ≡ P.shape catalog.old) }
    ensures split { OnOk result ((P.known catalog.new).split ≡ (P.known catalog.old).split) }
    ensures moves { OnOk result ((P.known catalog.new).move ≡ (P.known catalog.old).move) }
    ensures areas { OnOk result ((P.known catalog.new).areas ≡ (P.known catalog.old).areas) }
    ensures used { OnOk result ((P.known catalog.new).used ≡ (P.known catalog.old).used) }
{
    log_all(blocks, log, unit, records)?;
    set_all(blocks, catalog, kept, changes)?;
    log_end(blocks, log, unit, EndKind::Committed)?;
    restart_idle(log);
    Ok(())
}
