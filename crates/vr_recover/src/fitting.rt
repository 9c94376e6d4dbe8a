//! Whether the before-images that a crash left may be put back into a part: what has to be known
//! before it is undone.
ghost use Rattle.std.specs.Prelude.{◌≡◌, ◌↔◌, IsTrue, All, IfSome, false, map};
ghost use Rattle.std.specs.Option.{option_copied};
ghost use Rattle.vr_part.specs.Any.{shape_any};
ghost use Rattle.vr_space.specs.Part.{given as lent};
ghost use Rattle.vr_log.specs.Live.{live_in};
ghost use Rattle.vr_volume.specs.PutBack.{image_in, images_of};
ghost use Rattle.vr_recover.specs.Undone.{FitsPart, HasPart, IsCovered};

use vr_log::{LogRecord, UndoLog};
use vr_part::AnyPart;
use vr_types::{Bytes, PartNo};

/// What a before-image puts back.
pub(crate) fn bytes_of(old: &Option<Bytes>) -> Option<&[u8]>
    ensures copied { option_copied result ≡ old.now }
    ensures given { lent result ≡ old.now }
{
    match old {
        Some(bytes) => Some(bytes.as_slice()),
        None => None,
    }
}

/// Whether a record of the log may be put back, where it is a before-image of this part, of a unit
/// that is live.
fn fits(part: &AnyPart, log: &UndoLog, rec: &LogRecord) -> bool
    requires { log.now.broken ≡ false }
    ensures { IsTrue result ↔ IfSome (image_in (live_in log.now.records) rec.now)
        (FitsPart (shape_any part.now)) }
{
    match rec {
        LogRecord::Before {
            unit,
            part: owner,
            place,
            old,
        } => {
            if *owner != part.number() || !log.is_live(*unit) {
                return true;
            }
            part.may_stand(place, bytes_of(old))
        }
        LogRecord::End { .. } => true,
    }
}

/// Whether each before-image of a part that the log has of live units may be put back. `records` are
/// those of the log.
pub(crate) fn may_put_back(part: &AnyPart, log: &UndoLog, records: &[LogRecord]) -> bool
    requires sound { log.now.broken ≡ false }
    requires records { records.now ≡ log.now.records }
    ensures { IsTrue result ↔ All (FitsPart (shape_any part.now)) (images_of log.now.records) }
{
    for rec in records {
        if !fits(part, log, rec) {
            return false;
        }
    }
    true
}

/// Whether one of these parts has this number.
fn has_part(parts: &[AnyPart], number: PartNo) -> bool
    ensures { IsTrue result ↔ HasPart (map shape_any parts.now) number.0 }
{
    for part in parts {
        if part.number() == number {
            return true;
        }
    }
    false
}

/// Whether the part of a record of the log is one of these, where it is a before-image of a unit that
/// is live.
fn is_covered(parts: &[AnyPart], log: &UndoLog, rec: &LogRecord) -> bool
    requires { log.now.broken ≡ false }
    ensures { IsTrue result ↔ IfSome (image_in (live_in log.now.records) rec.now)
        (IsCovered (map shape_any parts.now)) }
{
    match rec {
        LogRecord::Before { unit, part, .. } => {
            if !log.is_live(*unit) {
                return true;
            }
            has_part(parts, *part)
        }
        LogRecord::End { .. } => true,
    }
}

/// Whether the part of each before-image that the log has of live units is one of these. `records`
/// are those of the log.
pub(crate) fn are_covered(parts: &[AnyPart], log: &UndoLog, records: &[LogRecord]) -> bool
    requires sound { log.now.broken ≡ false }
    requires records { records.now ≡ log.now.records }
    ensures { IsTrue result
        ↔ All (IsCovered (map shape_any parts.now)) (images_of log.now.records) }
{
    for rec in records {
        if !is_covered(parts, log, rec) {
            return false;
        }
    }
    true
}
