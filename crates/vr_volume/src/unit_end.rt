//! The end of a unit of recovery on a volume: its end record is logged and forced, and what was kept
//! of it is forgotten. Once no unit is live, the log begins its next generation.
ghost use Rattle.std.specs.Prelude.{◌≡◌, ◌≢◌, ◌<◌, ◌≤◌, ◌+◌, ◌^◌, ◌∷◌, ◌++◌, [], ℕ, List};
ghost use Rattle.std.specs.Prelude.{IsTrue, OnErr, OnOk, false, filter};
ghost use Rattle.vr_types.specs.Faults.{HasWriteCause};
ghost use Rattle.vr_types.specs.Moments.{Guards};
ghost use Rattle.vr_types.specs.Regions.{Touches};
ghost use Rattle.vr_types.specs.declared.geometry.Geometry.{Geometry};
ghost use Rattle.vr_space.specs.Owners.{Owners};
ghost use Rattle.vr_space.specs.Known.{Known};
ghost use Rattle.vr_space.specs.Part.{Shape};
ghost use Rattle.vr_log.specs.Live.{is_in, live_in};
ghost use Rattle.vr_log.specs.LogNow.{HasLog, IsForced, IsOf, restarted, with_record};
ghost use Rattle.vr_log.specs.Standing.{InLog, LogStands};
ghost use Rattle.vr_log.specs.declared.record.LogRecord.TheVariants.{End};
ghost use Rattle.vr_history.specs.Effects.{is_other};
ghost use Rattle.vr_history.specs.State.{State};
ghost use Rattle.vr_undo.specs.Records.{befores_of, images_in, logged_of};
ghost use Rattle.vr_volume.specs.Committed.{IsCurrent, IsFirmFor, KeepsNoneIf, committed_by};
ghost use Rattle.vr_volume.specs.Ended.{ended};
ghost use Rattle.vr_volume.specs.EndedLog.{IsEndedLog, IsEndForced};
ghost use Rattle.vr_volume.specs.Laying.{IsLogged};
ghost use Rattle.vr_volume.specs.Rests.{IsPartAtRest, IsVolumeAtRest};
ghost use Rattle.vr_volume.specs.Safe.{IsSafeImage};
ghost use Rattle.vr_volume.specs.Steps.{IsEndedIn};

use vr_log::{EndKind, UndoLog};
use vr_types::{Blocks, DeviceFault, Unit};
use vr_undo::Undo;

/// Logs the end of a unit and forces it. Nothing outside the log is touched.
pub(crate) fn log_end<B: Blocks>(
    blocks: &mut B,
    log: &mut UndoLog,
    unit: Unit,
    kind: EndKind,
) -> Result<(), DeviceFault>
    requires sound { log.old.broken ≡ false }
    requires shape { IsOf log.old.geometry (B.seen blocks.old) }
    requires live { IsTrue (is_in unit (live_in log.old.records)) }
    requires stands { IsTrue B.tells → LogStands log.old (B.seen blocks.old) }
    ensures touches { IsTrue B.tells → Touches (InLog log.old.geometry)
        (HasLog (with_record log.old (End unit kind))) (B.seen blocks.old) (B.seen blocks.new) }
    ensures logged { IsTrue B.tells → OnOk result (IsLogged log.old (End unit kind) log.new) }
    ensures log { OnOk result (IsEndForced log.old unit kind log.new) }
    ensures stands { IsTrue B.tells → OnOk result (LogStands log.new (B.seen blocks.new)) }
    ensures shape { OnOk result (IsOf log.new.geometry (B.seen blocks.new)) }
    ensures cause { HasWriteCause (B.faults blocks.old) (B.faults blocks.new) result }
{
    log.end_record(blocks, unit, kind)?;
    log.force(blocks)?;
    Ok(())
}

/// Begins the next generation of the log where no unit is live.
pub(crate) fn restart_idle(log: &mut UndoLog)
    requires sound { log.old.broken ≡ false }
    requires forced { IsForced log.old }
    ensures idle { live_in log.old.records ≡ [] → log.new ≡ restarted log.old }
    ensures live { live_in log.old.records ≢ [] → log.new ≡ log.old }
{
    if log.live() == 0 {
        log.restart();
    }
}

/// Ends a unit of recovery: it logs the end, forces it, and forgets what was kept of the unit. Where
/// no unit is live then, the log begins its next generation. In every image of every moment, whether
/// it fails or not, what the blocks recover to is what is committed with the end, or without it; and
/// once it is done the volume rests by the state in which the unit has ended. `Write` is the
/// device's: what is kept of the unit stays.
pub fn end_unit<B: Blocks>(
    blocks: &mut B,
    log: &mut UndoLog,
    undo: &mut Undo,
    unit: Unit,
    kind: EndKind,
) -> Result<(), DeviceFault>
    requires sound { log.old.broken ≡ false }
    requires shape { IsOf log.old.geometry (B.seen blocks.old) }
    requires live { IsTrue (is_in unit (live_in log.old.records)) }
    requires stands { IsTrue B.tells → LogStands log.old (B.seen blocks.old) }
    ensures touches { IsTrue B.tells → Touches (InLog log.old.geometry)
        (HasLog (with_record log.old (End unit kind))) (B.seen blocks.old) (B.seen blocks.new) }
    ensures any_moment { IsTrue B.tells → (geometry : Geometry) (number : ℕ)
        (owners : Owners) (old : State)
        → IsVolumeAtRest geometry number owners log.old (images_in undo.old) old (B.seen blocks.old)
        → IsFirmFor geometry log.old old unit (B.seen blocks.old) → KeepsNoneIf kind old unit
        → Guards (B.seen blocks.old) (B.seen blocks.new)
        (IsSafeImage geometry number owners (with_record log.old (End unit kind))
        (committed_by old)) }
    ensures rests { IsTrue B.tells → OnOk result ((geometry : Geometry) (number : ℕ)
        (owners : Owners) (old new : State)
        → IsVolumeAtRest geometry number owners log.old (images_in undo.old) old (B.seen blocks.old)
        → IsCurrent old.numbers unit → IsFirmFor geometry log.old old unit (B.seen blocks.old)
        → KeepsNoneIf kind old unit → IsEndedIn unit old new
        → log.old.generation + 1 < 2 ^ 63
        → IsVolumeAtRest geometry number owners log.new (images_in undo.new) new
        (B.seen blocks.new)) }
    ensures others { IsTrue B.tells → OnOk result ((geometry : Geometry) (number : ℕ)
        (owners : Owners) (old new : State) (shape : Shape) (known : Known)
        → log.old.geometry ≡ geometry
        → IsVolumeAtRest geometry number owners log.old (images_in undo.old) old (B.seen blocks.old)
        → IsFirmFor geometry log.old old unit (B.seen blocks.old) → IsEndedIn unit old new
        → IsPartAtRest geometry owners (images_in undo.old) old shape known (B.seen blocks.old)
        → IsPartAtRest geometry owners (images_in undo.new) new shape known (B.seen blocks.new)) }
    ensures log { OnOk result (IsEndedLog log.old unit kind log.new) }
    ensures stands { IsTrue B.tells → log.old.generation + 1 < 2 ^ 63
        → OnOk result (LogStands log.new (B.seen blocks.new)) }
    ensures shape { OnOk result (IsOf log.new.geometry (B.seen blocks.new)) }
    ensures kept { OnErr result (undo.new ≡ undo.old) }
    ensures images { OnOk result (images_in undo.new
        ≡ filter (λ image. is_other unit image.unit) (images_in undo.old)) }
    ensures befores { OnOk result (befores_of undo.new
        ≡ filter (λ kept. is_other unit kept.unit) (befores_of undo.old)) }
    ensures logged { OnOk result (logged_of undo.new
        ≡ filter (λ logged. is_other unit logged.unit) (logged_of undo.old)) }
    ensures cause { HasWriteCause (B.faults blocks.old) (B.faults blocks.new) result }
{
    log_end(blocks, log, unit, kind)?;
    undo.forget(unit);
    restart_idle(log);
    Ok(())
}
