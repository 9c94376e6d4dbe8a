//! The before-images that a log has of live units: whether they may be put back, and room for them.
ghost use Rattle.std.specs.Prelude.{◌≡◌, ◌↔◌, [], IsTrue, IfOk, IfSome, All, false, map};
ghost use Rattle.std.specs.List.{filter_map};
ghost use Rattle.std.specs.Option.{option_copied};
ghost use Rattle.std.specs.Prelude.{◌++◌, ◌∷◌, OnOk};
ghost use Rattle.vr_part.specs.Any.{shape_any};
ghost use Rattle.vr_log.specs.Live.{live_in};
ghost use Rattle.vr_undo.specs.Records.{has_at, images_in};
ghost use Rattle.vr_volume.specs.PutBack.{AreAlone, image_in, images_of};
ghost use Rattle.vr_recover.specs.Found.{MayGoBack};
ghost use Rattle.vr_recover.specs.Undone.{FitsPart};

use crate::alone::are_alone;
use crate::fitting::{are_covered, bytes_of, may_put_back};
use std::alloc::Global;
use vr_log::{LogRecord, UndoLog};
use vr_part::AnyPart;
use vr_types::OutOfMemory;
use vr_undo::Undo;

/// Whether each before-image that the log has of live units may be put back into each of these parts
/// that is its own.
fn all_fit(parts: &[AnyPart], log: &UndoLog, records: &[LogRecord]) -> bool
    requires sound { log.now.broken ≡ false }
    requires records { records.now ≡ log.now.records }
    ensures { IsTrue result
        ↔ All (λ shape. All (FitsPart shape) (images_of log.now.records))
        (map shape_any parts.now) }
{
    for part in parts {
        if !may_put_back(part, log, records) {
            return false;
        }
    }
    true
}

/// Whether the before-images that the log has of live units may be put back into these parts.
/// `records` are those of the log. It fails only if memory runs out.
pub(crate) fn may_go_back(
    alloc: Global,
    parts: &[AnyPart],
    log: &UndoLog,
    records: &[LogRecord],
) -> Result<bool, OutOfMemory>
    requires sound { log.now.broken ≡ false }
    requires records { records.now ≡ log.now.records }
    ensures { IfOk result (λ may. IsTrue may
        ↔ MayGoBack (images_of log.now.records) (map shape_any parts.now)) }
{
    let alone = are_alone(alloc, log, records)?;
    if !alone {
        return Ok(false);
    }
    if !are_covered(parts, log, records) {
        return Ok(false);
    }
    let fit = all_fit(parts, log, records);
    Ok(fit)
}

/// Keeps a record of the log, where it is a before-image of a unit that is live, and none of its unit
/// and place is kept yet. It fails only if memory runs out.
fn keep_one(log: &UndoLog, rec: &LogRecord, undo: &mut Undo) -> Result<(), OutOfMemory>
    requires sound { log.now.broken ≡ false }
    requires new { IfSome (image_in (live_in log.now.records) rec.now)
        (λ image. has_at image.unit image.part image.place (images_in undo.old) ≡ false) }
    ensures { OnOk result (images_in undo.new ≡ images_in undo.old
        ++ filter_map (image_in (live_in log.now.records)) (rec.now ∷ [])) }
{
    if let LogRecord::Before {
        unit,
        part,
        place,
        old,
    } = rec
    {
        if log.is_live(*unit) {
            undo.keep(*unit, *part, place, bytes_of(old))?;
        }
    }
    Ok(())
}

/// Keeps the before-images that the log has of live units. `records` are those of the log. It fails
/// only if memory runs out.
pub(crate) fn keep_all(
    log: &UndoLog,
    records: &[LogRecord],
    undo: &mut Undo,
) -> Result<(), OutOfMemory>
    requires sound { log.now.broken ≡ false }
    requires records { records.now ≡ log.now.records }
    requires alone { AreAlone (images_of log.now.records) }
    requires none { undo.old ≡ [] }
    ensures { OnOk result (images_in undo.new ≡ images_of log.now.records) }
{
    for rec in records {
        keep_one(log, rec, undo)?;
    }
    Ok(())
}
