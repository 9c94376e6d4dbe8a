//! Ending the units of recovery that a crash left, once their before-images are put back.
ghost use Rattle.std.specs.Prelude.{◌≡◌, ◌≤◌, ◌^◌, [], ℕ, List, IsTrue, IfErr, OnOk, false};
ghost use Rattle.vr_types.specs.Content.{Content};
ghost use Rattle.vr_types.specs.Faults.{HasWriteCause};
ghost use Rattle.vr_types.specs.Moments.{Guards};
ghost use Rattle.vr_types.specs.Regions.{Touches};
ghost use Rattle.vr_space.specs.Owners.{Owners};
ghost use Rattle.vr_log.specs.Live.{live_in};
ghost use Rattle.vr_log.specs.LogNow.{HasLogOrNone, IsForced, IsOf, made, no_log};
ghost use Rattle.vr_log.specs.Standing.{InLog, LogStands};
ghost use Rattle.vr_history.specs.State.{BeforeImage};
ghost use Rattle.vr_recover.specs.OpenNo.{HasOpenCause, IsSilentNo};
ghost use Rattle.vr_recover.specs.Recovered.{KeepsAll};
ghost use Rattle.vr_mount.specs.Touched.{Anything};
ghost use Rattle.vr_recover.specs.Undone.{HasFewer, IsOut, IsUndone};

use crate::open_no::OpenNo;
use std::alloc::Global;
use vr_log::{EndKind, LogReadNo, LogRecord, UndoLog};
use vr_types::{Blocks, DeviceFault};
use vr_volume::{append_end, force_log, restart_log};

/// Ends the unit of a before-image as backed out, where it is live. In every image of every moment,
/// whether it fails or not, the blocks recover to the records of what was committed, and keep what was
/// withdrawn.
fn back_out<B: Blocks>(
    blocks: &mut B,
    log: &mut UndoLog,
    rec: &LogRecord,
) -> Result<(), DeviceFault>
    requires sound { log.old.broken ≡ false }
    requires shape { IsOf log.old.geometry (B.seen blocks.old) }
    requires stands { IsTrue B.tells → LogStands log.old (B.seen blocks.old) }
    ensures touches { IsTrue B.tells → Touches (InLog log.old.geometry) Anything
        (B.seen blocks.old) (B.seen blocks.new) }
    ensures any_moment { IsTrue B.tells → (number : ℕ) (owners : Owners)
        (images : List BeforeImage) (contents : ℕ → Content)
        → IsUndone number owners log.old contents (B.seen blocks.old)
        → HasFewer images log.old
        → Guards (B.seen blocks.old) (B.seen blocks.new)
        (KeepsAll log.old.geometry number images contents) }
    ensures undone { IsTrue B.tells → OnOk result ((number : ℕ) (owners : Owners)
        (contents : ℕ → Content)
        → IsUndone number owners log.old contents (B.seen blocks.old)
        → IsUndone number owners log.new contents (B.seen blocks.new)) }
    ensures fewer { IsTrue B.tells → OnOk result ((images : List BeforeImage)
        → HasFewer images log.old → HasFewer images log.new) }
    ensures out { OnOk result (IsOut rec.now log.old.records log.new.records) }
    ensures geometry { OnOk result (log.new.geometry ≡ log.old.geometry) }
    ensures generation { OnOk result (log.new.generation ≡ log.old.generation) }
    ensures sound { OnOk result (log.new.broken ≡ false) }
    ensures shape { OnOk result (IsOf log.new.geometry (B.seen blocks.new)) }
    ensures stands { IsTrue B.tells → OnOk result (LogStands log.new (B.seen blocks.new)) }
    ensures cause { HasWriteCause (B.faults blocks.old) (B.faults blocks.new) result }
{
    if let LogRecord::Before { unit, .. } = rec {
        if log.is_live(*unit) {
            append_end(blocks, log, *unit, EndKind::BackedOut)?;
        }
    }
    Ok(())
}

/// Ends each unit that is live as backed out. `records` are those of the log. In every image of
/// every moment, whether it fails or not, the blocks recover to the records of what was committed, and
/// keep what was withdrawn.
fn back_out_all<B: Blocks>(
    blocks: &mut B,
    log: &mut UndoLog,
    records: &[LogRecord],
) -> Result<(), DeviceFault>
    requires sound { log.old.broken ≡ false }
    requires shape { IsOf log.old.geometry (B.seen blocks.old) }
    requires records { records.now ≡ log.old.records }
    requires stands { IsTrue B.tells → LogStands log.old (B.seen blocks.old) }
    ensures touches { IsTrue B.tells → Touches (InLog log.old.geometry) Anything
        (B.seen blocks.old) (B.seen blocks.new) }
    ensures any_moment { IsTrue B.tells → (number : ℕ) (owners : Owners)
        (images : List BeforeImage) (contents : ℕ → Content)
        → IsUndone number owners log.old contents (B.seen blocks.old)
        → HasFewer images log.old
        → Guards (B.seen blocks.old) (B.seen blocks.new)
        (KeepsAll log.old.geometry number images contents) }
    ensures undone { IsTrue B.tells → OnOk result ((number : ℕ) (owners : Owners)
        (contents : ℕ → Content)
        → IsUndone number owners log.old contents (B.seen blocks.old)
        → IsUndone number owners log.new contents (B.seen blocks.new)) }
    ensures none_live { OnOk result (live_in log.new.records ≡ []) }
    ensures geometry { OnOk result (log.new.geometry ≡ log.old.geometry) }
    ensures generation { OnOk result (log.new.generation ≡ log.old.generation) }
    ensures sound { OnOk result (log.new.broken ≡ false) }
    ensures shape { OnOk result (IsOf log.new.geometry (B.seen blocks.new)) }
    ensures stands { IsTrue B.tells → OnOk result (LogStands log.new (B.seen blocks.new)) }
    ensures cause { HasWriteCause (B.faults blocks.old) (B.faults blocks.new) result }
{
    for rec in records {
        back_out(blocks, log, rec)?;
    }
    Ok(())
}

/// Begins the log anew, with the answers of an opening.
fn renew<B: Blocks>(alloc: Global, blocks: &mut B, log: &mut UndoLog) -> Result<(), OpenNo>
    requires sound { log.old.broken ≡ false }
    requires none_live { live_in log.old.records ≡ [] }
    requires forced { IsForced log.old }
    requires shape { IsOf log.old.geometry (B.seen blocks.old) }
    requires stands { IsTrue B.tells → LogStands log.old (B.seen blocks.old) }
    ensures log { OnOk result (log.new ≡ made log.old.geometry no_log) }
    ensures shape { IsOf log.old.geometry (B.seen blocks.new) }
    ensures stands { IsTrue B.tells → OnOk result (LogStands log.new (B.seen blocks.new)) }
    ensures moments { IsTrue B.tells → Touches (InLog log.old.geometry)
        (HasLogOrNone log.old) (B.seen blocks.old) (B.seen blocks.new) }
    ensures silent { IfErr result IsSilentNo }
    ensures cause { HasOpenCause (B.faults blocks.old) (B.faults blocks.new) result }
{
    match log.renew(alloc, blocks) {
        Ok(()) => Ok(()),
        Err(LogReadNo::Damaged { .. }) => unreachable!("renewing finds no damage"),
        Err(LogReadNo::Fault(DeviceFault::Read)) => Err(OpenNo::Read),
        Err(LogReadNo::Fault(DeviceFault::Write)) => Err(OpenNo::Write),
        Err(LogReadNo::Memory) => Err(OpenNo::Memory),
    }
}

/// Begins the log again, with no record, once all units have ended: its next generation; or where it
/// has generation 2^62 or more, anew. In every image of every moment, whether it fails or not, the
/// blocks recover to the records of what was committed, and keep what was withdrawn; once it is done
/// the volume is safe.
fn begin_again<B: Blocks>(alloc: Global, blocks: &mut B, log: &mut UndoLog) -> Result<(), OpenNo>
    requires sound { log.old.broken ≡ false }
    requires none_live { live_in log.old.records ≡ [] }
    requires forced { IsForced log.old }
    requires shape { IsOf log.old.geometry (B.seen blocks.old) }
    requires stands { IsTrue B.tells → LogStands log.old (B.seen blocks.old) }
    ensures touches { IsTrue B.tells → Touches (InLog log.old.geometry) Anything
        (B.seen blocks.old) (B.seen blocks.new) }
    ensures any_moment { IsTrue B.tells → (number : ℕ) (owners : Owners)
        (images : List BeforeImage) (contents : ℕ → Content)
        → IsUndone number owners log.old contents (B.seen blocks.old)
        → Guards (B.seen blocks.old) (B.seen blocks.new)
        (KeepsAll log.old.geometry number images contents) }
    ensures undone { IsTrue B.tells → OnOk result ((number : ℕ) (owners : Owners)
        (contents : ℕ → Content)
        → IsUndone number owners log.old contents (B.seen blocks.old)
        → IsUndone number owners log.new contents (B.seen blocks.new)) }
    ensures records { OnOk result (log.new.records ≡ []) }
    ensures generation { OnOk result (log.new.generation ≤ 2 ^ 62) }
    ensures geometry { OnOk result (log.new.geometry ≡ log.old.geometry) }
    ensures sound { OnOk result (log.new.broken ≡ false) }
    ensures forced { OnOk result (IsForced log.new) }
    ensures shape { OnOk result (IsOf log.new.geometry (B.seen blocks.new)) }
    ensures stands { IsTrue B.tells → OnOk result (LogStands log.new (B.seen blocks.new)) }
    ensures silent { IfErr result IsSilentNo }
    ensures cause { HasOpenCause (B.faults blocks.old) (B.faults blocks.new) result }
{
    if log.generation() < 1 << 62 {
        restart_log(blocks, log);
        return Ok(());
    }
    renew(alloc, blocks, log)?;
    Ok(())
}

/// Ends each unit that is live as backed out, forces that, and begins the log again. In every image
/// of every moment, whether it fails or not, the blocks recover to the records of what was committed,
/// and keep what was withdrawn; once it is done the volume is safe, with a log of no records.
pub(crate) fn end_all<B: Blocks>(
    alloc: Global,
    blocks: &mut B,
    log: &mut UndoLog,
    records: &[LogRecord],
) -> Result<(), OpenNo>
    requires sound { log.old.broken ≡ false }
    requires shape { IsOf log.old.geometry (B.seen blocks.old) }
    requires records { records.now ≡ log.old.records }
    requires stands { IsTrue B.tells → LogStands log.old (B.seen blocks.old) }
    ensures touches { IsTrue B.tells → Touches (InLog log.old.geometry) Anything
        (B.seen blocks.old) (B.seen blocks.new) }
    ensures any_moment { IsTrue B.tells → (number : ℕ) (owners : Owners)
        (images : List BeforeImage) (contents : ℕ → Content)
        → IsUndone number owners log.old contents (B.seen blocks.old)
        → HasFewer images log.old
        → Guards (B.seen blocks.old) (B.seen blocks.new)
        (KeepsAll log.old.geometry number images contents) }
    ensures undone { IsTrue B.tells → OnOk result ((number : ℕ) (owners : Owners)
        (contents : ℕ → Content)
        → IsUndone number owners log.old contents (B.seen blocks.old)
        → IsUndone number owners log.new contents (B.seen blocks.new)) }
    ensures records { OnOk result (log.new.records ≡ []) }
    ensures generation { OnOk result (log.new.generation ≤ 2 ^ 62) }
    ensures geometry { OnOk result (log.new.geometry ≡ log.old.geometry) }
    ensures sound { OnOk result (log.new.broken ≡ false) }
    ensures forced { OnOk result (IsForced log.new) }
    ensures shape { OnOk result (IsOf log.new.geometry (B.seen blocks.new)) }
    ensures stands { IsTrue B.tells → OnOk result (LogStands log.new (B.seen blocks.new)) }
    ensures silent { IfErr result IsSilentNo }
    ensures cause { HasOpenCause (B.faults blocks.old) (B.faults blocks.new) result }
{
    back_out_all(blocks, log, records)?;
    force_log(blocks, log)?;
    begin_again(alloc, blocks, log)?;
    Ok(())
}
