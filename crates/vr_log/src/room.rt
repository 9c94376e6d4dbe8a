//! Whether a log has room for records that were read back.
ghost use Rattle.std.specs.Prelude.{◌≡◌, ◌<◌, ◌≤◌, ◌*◌, ◌↔◌, [], length, All, IsTrue, IfOk};
ghost use Rattle.vr_types.specs.Geometry.{IsAllowed};
ghost use Rattle.vr_types.specs.LogSpace.{log_size};
ghost use Rattle.vr_log.specs.Live.{live_in, used_by};
ghost use Rattle.vr_log.specs.Records.{HasFields, bytes_of};

use crate::content::LogContent;
use crate::live::Live;
use crate::making::new_live;
use crate::record::LogRecord;
use crate::writing::{note_unit, record_length};
use std::alloc::Global;
use vr_types::{Geometry, OutOfMemory};

/// Whether the log has room for these records and the ends of their live units, which `undo_log`
/// wants. A log that was written by `append` and `end_record` alone has it. Fails only if memory
/// runs out for the live units.
pub(crate) fn has_room(
    alloc: Global,
    geometry: &Geometry,
    content: &LogContent,
) -> Result<bool, OutOfMemory>
    requires allowed { IsAllowed geometry.now }
    requires fields { All HasFields content.now.records }
    requires size { length (bytes_of content.now.records) ≤ log_size geometry.now }
    ensures { IfOk result (λ room. IsTrue room
        ↔ (used_by content.now.records ≤ log_size geometry.now)) }
{
    let mut live = new_live(alloc, *geometry)?;
    note_units(&mut live, content.records());
    let bytes = bytes_in(content.records());
    let size = geometry.log as u64 * (geometry.size as u64 - 16);
    Ok(bytes + 9 * live.len() as u64 <= size)
}

/// The bytes of records.
pub(crate) fn bytes_in(records: &[LogRecord]) -> u64
    requires small { length (bytes_of records.now) < 4294967296 }
    requires fields { All HasFields records.now }
    ensures { result ≡ length (bytes_of records.now) }
{
    let mut bytes = 0;
    for rec in records {
        bytes += record_length(rec);
    }
    bytes
}

/// Notes the live units of records.
fn note_units(live: &mut Live, records: &[LogRecord])
    requires units { live.old.units ≡ [] }
    requires room { length (bytes_of records.now) < 20 * live.old.room }
    ensures units { live.new.units ≡ live_in records.now }
    ensures few { 20 * length live.new.units ≤ length (bytes_of records.now) }
{
    for rec in records {
        note_unit(live, rec);
    }
}
