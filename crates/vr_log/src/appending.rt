//! Before-images that are appended together.
ghost use Rattle.std.specs.Prelude.{◌≡◌, ◌<◌, ◌≤◌, ◌+◌, IsTrue, All, IfErr, OnOk, false, length};
ghost use Rattle.vr_types.specs.Faults.{HasWriteCause};
ghost use Rattle.vr_types.specs.LogSpace.{log_size};
ghost use Rattle.vr_types.specs.Regions.{Touches};
ghost use Rattle.vr_log.specs.Live.{IsBeforeOf, live_in, need_of_all, used_by};
ghost use Rattle.vr_log.specs.LogNow.{AreAppended, HasLog, HasLogCause, IsFullNo, IsFullWhere};
ghost use Rattle.vr_log.specs.LogNow.{IsOf, with_records};
ghost use Rattle.vr_log.specs.Records.{HasLengths};
ghost use Rattle.vr_log.specs.Standing.{InLog, LogStands};

use crate::log::{UndoLog, end_room};
use crate::no::LogNo;
use crate::record::LogRecord;
use crate::writing::record_length;
use vr_types::{Blocks, DeviceFault, Unit};

/// Adds before-images of one unit after the other records, in their order, where there is room for
/// all of them: each as `UndoLog::append` adds it, so that none is forced. At every moment, failing
/// or not, each image has the records that were forced and a prefix of all with these. `Full`:
/// nothing is done, since the bytes in use and those that these records need together are more than
/// the log has. `Write` is the device's; `Read` never comes.
pub fn append_all<B: Blocks>(
    blocks: &mut B,
    log: &mut UndoLog,
    unit: Unit,
    records: &[LogRecord],
) -> Result<(), LogNo>
    requires sound { log.old.broken ≡ false }
    requires shape { IsOf log.old.geometry (B.seen blocks.old) }
    requires lengths { All HasLengths records.now }
    requires unit { All (IsBeforeOf unit) records.now }
    requires few { length records.now < 65536 }
    requires stands { IsTrue B.tells → LogStands log.old (B.seen blocks.old) }
    ensures log { OnOk result (AreAppended log.old records.now log.new) }
    ensures shape { OnOk result (IsOf log.new.geometry (B.seen blocks.new)) }
    ensures stands { IsTrue B.tells → OnOk result (LogStands log.new (B.seen blocks.new)) }
    ensures moments { IsTrue B.tells → Touches (InLog log.old.geometry)
        (HasLog (with_records log.old records.now)) (B.seen blocks.old) (B.seen blocks.new) }
    ensures full { IsFullWhere log.old (need_of_all (live_in log.old.records) records.now) result }
    ensures unchanged { IfErr result (λ no. IsFullNo no
        → (log.new ≡ log.old) × (blocks.new ≡ blocks.old)) }
    ensures cause { HasLogCause (B.faults blocks.old) (B.faults blocks.new) result }
{
    let used = log.used();
    let need = need_all(log, unit, records);
    let size = log.size();
    if used + need > size {
        return Err(LogNo::Full { used, need, size });
    }
    match enter_all(blocks, log, unit, records) {
        Ok(()) => Ok(()),
        Err(DeviceFault::Write) => Err(LogNo::Write),
        Err(DeviceFault::Read) => Err(LogNo::Read),
    }
}

/// The bytes that these before-images of one unit need together.
fn need_all(log: &UndoLog, unit: Unit, records: &[LogRecord]) -> u64
    requires sound { log.now.broken ≡ false }
    requires lengths { All HasLengths records.now }
    requires unit { All (IsBeforeOf unit) records.now }
    requires few { length records.now < 65536 }
    ensures value { result ≡ need_of_all (live_in log.now.records) records.now }
    ensures most { result < 300000000000000 }
{
    let mut there = log.is_live(unit);
    let mut need = 0;
    for rec in records {
        need += record_length(rec) + end_room(there);
        there = true;
    }
    need
}

/// Adds before-images that have room.
fn enter_all<B: Blocks>(
    blocks: &mut B,
    log: &mut UndoLog,
    unit: Unit,
    records: &[LogRecord],
) -> Result<(), DeviceFault>
    requires sound { log.old.broken ≡ false }
    requires shape { IsOf log.old.geometry (B.seen blocks.old) }
    requires lengths { All HasLengths records.now }
    requires unit { All (IsBeforeOf unit) records.now }
    requires room { used_by log.old.records + need_of_all (live_in log.old.records) records.now
        ≤ log_size log.old.geometry }
    requires stands { IsTrue B.tells → LogStands log.old (B.seen blocks.old) }
    ensures log { OnOk result (AreAppended log.old records.now log.new) }
    ensures shape { OnOk result (IsOf log.new.geometry (B.seen blocks.new)) }
    ensures stands { IsTrue B.tells → OnOk result (LogStands log.new (B.seen blocks.new)) }
    ensures moments { IsTrue B.tells → Touches (InLog log.old.geometry)
        (HasLog (with_records log.old records.now)) (B.seen blocks.old) (B.seen blocks.new) }
    ensures cause { HasWriteCause (B.faults blocks.old) (B.faults blocks.new) result }
{
    let _ = unit;
    for rec in records {
        log.enter(blocks, rec)?;
    }
    Ok(())
}
