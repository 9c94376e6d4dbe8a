//! The before-images of several places, logged together and forced once.
ghost use Rattle.std.specs.Prelude.{◌≡◌, ◌≢◌, ◌<◌, ◌++◌, ℕ, List, IsTrue, OnOk, All, IfErr};
ghost use Rattle.std.specs.Prelude.{[], false, length, map};
ghost use Rattle.vr_types.specs.Content.{Content};
ghost use Rattle.vr_types.specs.Moments.{Guards};
ghost use Rattle.vr_types.specs.Regions.{Touches};
ghost use Rattle.vr_space.specs.Known.{Known};
ghost use Rattle.vr_space.specs.Owners.{Owners};
ghost use Rattle.vr_space.specs.Part.{Shape};
ghost use Rattle.vr_log.specs.Live.{IsBeforeOf, live_in, need_of_all};
ghost use Rattle.vr_log.specs.LogNow.{HasLog, HasLogCause, IsFullNo, IsFullWhere, IsOf};
ghost use Rattle.vr_log.specs.LogNow.{with_records};
ghost use Rattle.vr_log.specs.Records.{HasLengths};
ghost use Rattle.vr_log.specs.Standing.{InLog, LogStands};
ghost use Rattle.vr_log.specs.declared.record.LogRecord.{LogRecord as Rec};
ghost use Rattle.vr_history.specs.State.{BeforeImage, State};
ghost use Rattle.vr_volume.specs.Laying.{AreLogged, IsFreeIn};
ghost use Rattle.vr_volume.specs.Logged.{AreFirstBefores};
ghost use Rattle.vr_volume.specs.PutBack.{images_of, oldest};
ghost use Rattle.vr_volume.specs.Rests.{IsPartAtRest, IsVolumeAtRest};
ghost use Rattle.vr_volume.specs.Safe.{IsSafe, IsSafeImage};
ghost use Rattle.vr_volume.specs.Steps.{AreKept, Changing, MayBeLogged, image_by, logged_by};

use vr_log::{LogNo, LogRecord, UndoLog, append_all};
use vr_types::{Blocks, Unit};

/// Logs the before-images of places that no unit has logged, all of one unit, and forces them once.
/// Nothing outside the log is touched. At each moment of it, whether it fails or not, each image is a
/// safe one, with a prefix of the records; once it is done the volume is safe, and each place of which
/// the log has a before-image is free in each log that an image may have. `Full`: the log has no room
/// for all of them, and nothing is done. `Write` is the device's; `Read` never comes.
pub fn log_all<B: Blocks>(
    blocks: &mut B,
    log: &mut UndoLog,
    unit: Unit,
    records: &[LogRecord],
) -> Result<(), LogNo>
    requires sound { log.old.broken ≡ false }
    requires shape { IsOf log.old.geometry (B.seen blocks.old) }
    requires lengths { All HasLengths records.now }
    requires unit { All (IsBeforeOf unit) records.now }
    requires few { length records.now < 65536 }
    requires stands { IsTrue B.tells → LogStands log.old (B.seen blocks.old) }
    ensures any_moment { IsTrue B.tells → (number : ℕ) (owners : Owners)
        (committed : List Rec → ℕ → Content)
        → IsSafe log.old.geometry number owners log.old committed (B.seen blocks.old)
        → AreFirstBefores log.old.geometry log.old committed records.now
        → Guards (B.seen blocks.old) (B.seen blocks.new) (IsSafeImage log.old.geometry number
        owners (with_records log.old records.now) committed) }
    ensures after { IsTrue B.tells → OnOk result ((number : ℕ) (owners : Owners)
        (committed : List Rec → ℕ → Content)
        → IsSafe log.old.geometry number owners log.old committed (B.seen blocks.old)
        → AreFirstBefores log.old.geometry log.old committed records.now
        → IsSafe log.old.geometry number owners log.new committed (B.seen blocks.new)) }
    ensures free { IsTrue B.tells → OnOk result ((part : ℕ) (place : List ℕ)
        → oldest (images_of log.new.records) part place ≢ None → IsFreeIn log.new part place) }
    // A volume that was at rest is so by the state in which the places are logged and what stands at
    // each is kept, and so is each part. Nothing of the contents changes.
    ensures at_rest { IsTrue B.tells → OnOk result ((number : ℕ) (owners : Owners)
        (old new : State) (changes : List Changing) (images : List BeforeImage)
        → IsVolumeAtRest log.old.geometry number owners log.old images old (B.seen blocks.old)
        → MayBeLogged log.old.geometry log.old old changes → changes ≢ []
        → records.now ≡ map logged_by changes → AreKept log.old changes old new
        → IsVolumeAtRest log.old.geometry number owners log.new (images ++ map image_by changes)
        new (B.seen blocks.new)) }
    ensures parts { IsTrue B.tells → OnOk result ((number : ℕ) (owners : Owners)
        (old new : State) (changes : List Changing) (images : List BeforeImage)
        (shape : Shape) (known : Known)
        → IsVolumeAtRest log.old.geometry number owners log.old images old (B.seen blocks.old)
        → MayBeLogged log.old.geometry log.old old changes → changes ≢ []
        → records.now ≡ map logged_by changes → AreKept log.old changes old new
        → IsPartAtRest log.old.geometry owners images old shape known (B.seen blocks.old)
        → IsPartAtRest log.old.geometry owners (images ++ map image_by changes) new shape known
        (B.seen blocks.new)) }
    ensures touches { IsTrue B.tells → Touches (InLog log.old.geometry)
        (HasLog (with_records log.old records.now)) (B.seen blocks.old) (B.seen blocks.new) }
    ensures logged { IsTrue B.tells → OnOk result (AreLogged log.old records.now log.new) }
    ensures stands { IsTrue B.tells → OnOk result (LogStands log.new (B.seen blocks.new)) }
    ensures records { OnOk result (log.new.records ≡ log.old.records ++ records.now) }
    ensures geometry { OnOk result (log.new.geometry ≡ log.old.geometry) }
    ensures generation { OnOk result (log.new.generation ≡ log.old.generation) }
    ensures sound { OnOk result (log.new.broken ≡ false) }
    ensures count { OnOk result ((B.seen blocks.new).count ≡ (B.seen blocks.old).count) }
    ensures size { OnOk result ((B.seen blocks.new).size ≡ (B.seen blocks.old).size) }
    // What it may answer: that the log is full exactly where it is, and then nothing is done; a fault
    // of the device only where there was one, and none of a read.
    ensures full { IsFullWhere log.old (need_of_all (live_in log.old.records) records.now) result }
    ensures unchanged { IfErr result (λ no. IsFullNo no
        → (log.new ≡ log.old) × (blocks.new ≡ blocks.old)) }
    ensures cause { HasLogCause (B.faults blocks.old) (B.faults blocks.new) result }
{
    append_all(blocks, log, unit, records)?;
    log.force(blocks)?;
    Ok(())
}
