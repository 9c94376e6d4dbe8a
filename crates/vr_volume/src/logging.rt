//! Records of the log on a volume: what each leaves of it in the image of each moment.
ghost use Rattle.std.specs.Prelude.{◌≡◌, ◌≢◌, ◌<◌, ◌+◌, ◌^◌, ◌∷◌, ◌++◌, [], ℕ, List, Option};
ghost use Rattle.std.specs.Prelude.{None, IsTrue, OnOk};
ghost use Rattle.std.specs.Prelude.{IfErr, false};
ghost use Rattle.vr_types.specs.Content.{Content};
ghost use Rattle.vr_types.specs.Faults.{HasWriteCause};
ghost use Rattle.vr_types.specs.Blocks.{Keeps};
ghost use Rattle.vr_types.specs.Moments.{Guards};
ghost use Rattle.vr_types.specs.Regions.{Touches};
ghost use Rattle.vr_types.specs.declared.unit.PartNo.{PartNo};
ghost use Rattle.vr_types.specs.declared.unit.Unit.{Unit as UnitOfRecovery};
ghost use Rattle.vr_space.specs.Owners.{Owners};
ghost use Rattle.vr_log.specs.Live.{EndsLive, is_in, live_in, need_of};
ghost use Rattle.vr_log.specs.LogNow.{HasLog, HasLogCause, IsAppended, IsFullNo, IsFullWhere, IsOf};
ghost use Rattle.vr_log.specs.LogNow.{IsForced, forced_now, restarted, with_record};
ghost use Rattle.vr_log.specs.Records.{HasLengths};
ghost use Rattle.vr_log.specs.Standing.{InLog, LogStands};
ghost use Rattle.vr_log.specs.declared.record.LogRecord.{LogRecord as Rec};
ghost use Rattle.vr_log.specs.declared.record.LogRecord.TheVariants.{Before, End};
ghost use Rattle.vr_volume.specs.Ended.{IsEndOf};
ghost use Rattle.vr_volume.specs.Laying.{IsFreeIn};
ghost use Rattle.vr_volume.specs.Logged.{IsFirstBefore};
ghost use Rattle.vr_volume.specs.PutBack.{images_of, oldest};
ghost use Rattle.vr_volume.specs.Safe.{IsSafe, IsSafeImage};

use vr_log::{EndKind, LogNo, LogPlace, LogRecord, UndoLog};
use vr_types::{Blocks, DeviceFault, Unit};

/// Appends the first before-image of a place to the log. At each moment of it, whether it fails or
/// not, each image is a safe one, with the record or without it. `Full`: nothing is done. `Write`
/// is the device's.
pub fn append_before<B: Blocks>(
    blocks: &mut B,
    log: &mut UndoLog,
    rec: &LogRecord,
) -> Result<LogPlace, LogNo>
    requires sound { log.old.broken ≡ false }
    requires shape { IsOf log.old.geometry (B.seen blocks.old) }
    requires lengths { HasLengths rec.now }
    requires live { EndsLive (live_in log.old.records) rec.now }
    requires stands { IsTrue B.tells → LogStands log.old (B.seen blocks.old) }
    ensures safe { IsTrue B.tells → (number : ℕ) (owners : Owners)
        (committed : List Rec → ℕ → Content)
        (unit : UnitOfRecovery) (part : PartNo) (place : List ℕ) (old : Option (List ℕ))
        → rec.now ≡ Before unit part place old
        → IsSafe log.old.geometry number owners log.old committed (B.seen blocks.old)
        → IsFirstBefore log.old.geometry log.old committed unit part place old
        → Guards (B.seen blocks.old) (B.seen blocks.new)
        (IsSafeImage log.old.geometry number owners (with_record log.old rec.now) committed) }
    ensures appended { IsTrue B.tells → OnOk result ((number : ℕ) (owners : Owners)
        (committed : List Rec → ℕ → Content) (unit : UnitOfRecovery) (part : PartNo)
        (place : List ℕ) (old : Option (List ℕ)) → rec.now ≡ Before unit part place old
        → IsSafe log.old.geometry number owners log.old committed (B.seen blocks.old)
        → IsFirstBefore log.old.geometry log.old committed unit part place old
        → IsSafe log.old.geometry number owners log.new committed (B.seen blocks.new)
        × (oldest (images_of log.new.records) part.0 place ≢ None)) }
    ensures log { OnOk result (IsAppended log.old rec.now log.new) }
    ensures shape { OnOk result (IsOf log.new.geometry (B.seen blocks.new)) }
    ensures stands { IsTrue B.tells → OnOk result (LogStands log.new (B.seen blocks.new)) }
    ensures full { IsFullWhere log.old (need_of (live_in log.old.records) rec.now) result }
    ensures unchanged { IfErr result (λ no. IsFullNo no
        → (log.new ≡ log.old) × (blocks.new ≡ blocks.old)) }
    ensures cause { HasLogCause (B.faults blocks.old) (B.faults blocks.new) result }
{
    let place = log.append(blocks, rec)?;
    Ok(place)
}

/// Forces the log. At each moment of it, whether it fails or not, each image is a safe one. Once it
/// is done the volume is safe by the log as it is then, and each place of which the log has a
/// before-image is free in each log that an image may have.
pub fn force_log<B: Blocks>(blocks: &mut B, log: &mut UndoLog) -> Result<(), DeviceFault>
    requires sound { log.old.broken ≡ false }
    requires shape { IsOf log.old.geometry (B.seen blocks.old) }
    requires stands { IsTrue B.tells → LogStands log.old (B.seen blocks.old) }
    ensures safe { IsTrue B.tells → (number : ℕ) (owners : Owners)
        (committed : List Rec → ℕ → Content)
        → IsSafe log.old.geometry number owners log.old committed (B.seen blocks.old)
        → Guards (B.seen blocks.old) (B.seen blocks.new)
        (IsSafeImage log.old.geometry number owners log.old committed) }
    ensures after { IsTrue B.tells → OnOk result ((number : ℕ) (owners : Owners)
        (committed : List Rec → ℕ → Content)
        → IsSafe log.old.geometry number owners log.old committed (B.seen blocks.old)
        → IsSafe log.old.geometry number owners log.new committed (B.seen blocks.new)) }
    ensures keeps { Keeps B.tells (B.seen blocks.old) (B.seen blocks.new) }
    ensures free { IsTrue B.tells → OnOk result ((part : ℕ) (place : List ℕ)
        → oldest (images_of log.old.records) part place ≢ None → IsFreeIn log.new part place) }
    ensures forced { OnOk result (log.new ≡ forced_now log.old) }
    ensures stands { IsTrue B.tells → OnOk result (LogStands log.new (B.seen blocks.new)) }
    ensures cause { HasWriteCause (B.faults blocks.old) (B.faults blocks.new) result }
{
    log.force(blocks)?;
    Ok(())
}

/// Appends the end of a unit to the log, in the room that was kept for it. At each moment of it,
/// whether it fails or not, each image is a safe one: of what is committed with the end, or without
/// it. Once it is done the volume is safe. `Write` is the device's.
pub fn append_end<B: Blocks>(
    blocks: &mut B,
    log: &mut UndoLog,
    unit: Unit,
    kind: EndKind,
) -> Result<(), DeviceFault>
    requires sound { log.old.broken ≡ false }
    requires shape { IsOf log.old.geometry (B.seen blocks.old) }
    requires live { IsTrue (is_in unit (live_in log.old.records)) }
    requires stands { IsTrue B.tells → LogStands log.old (B.seen blocks.old) }
    ensures safe { IsTrue B.tells → (number : ℕ) (owners : Owners)
        (committed : List Rec → ℕ → Content)
        → IsSafe log.old.geometry number owners log.old committed (B.seen blocks.old)
        → IsEndOf log.old.geometry owners log.old committed unit kind (B.seen blocks.old)
        → Guards (B.seen blocks.old) (B.seen blocks.new)
        (IsSafeImage log.old.geometry number owners
        (with_record log.old (End unit kind)) committed) }
    ensures ended { IsTrue B.tells → OnOk result ((number : ℕ) (owners : Owners)
        (committed : List Rec → ℕ → Content)
        → IsSafe log.old.geometry number owners log.old committed (B.seen blocks.old)
        → IsEndOf log.old.geometry owners log.old committed unit kind (B.seen blocks.old)
        → IsSafe log.old.geometry number owners log.new committed (B.seen blocks.new)) }
    ensures touches { IsTrue B.tells → Touches (InLog log.old.geometry)
        (HasLog (with_record log.old (End unit kind))) (B.seen blocks.old) (B.seen blocks.new) }
    ensures log { OnOk result (IsAppended log.old (End unit kind) log.new) }
    ensures shape { OnOk result (IsOf log.new.geometry (B.seen blocks.new)) }
    ensures stands { IsTrue B.tells → OnOk result (LogStands log.new (B.seen blocks.new)) }
    ensures cause { HasWriteCause (B.faults blocks.old) (B.faults blocks.new) result }
{
    log.end_record(blocks, unit, kind)?;
    Ok(())
}

/// Begins the next generation of the log, where all units have ended and all records are forced.
/// The volume stays safe, since what is committed stays.
pub fn restart_log<B: Blocks>(blocks: &B, log: &mut UndoLog)
    requires sound { log.old.broken ≡ false }
    requires none_live { live_in log.old.records ≡ [] }
    requires forced { IsForced log.old }
    ensures safe { IsTrue B.tells → (number : ℕ) (owners : Owners)
        (committed : List Rec → ℕ → Content)
        → log.old.generation + 1 < 2 ^ 63 → LogStands log.old (B.seen blocks.now)
        → IsSafe log.old.geometry number owners log.old committed (B.seen blocks.now)
        → committed [] ≡ committed log.old.records
        → IsSafe log.old.geometry number owners log.new committed (B.seen blocks.now)
        × LogStands log.new (B.seen blocks.now) }
    ensures restarted { log.new ≡ restarted log.old }
{
    log.restart();
}
