//! Whether each before-image that a log has of live units is the only one of its place.
ghost use Rattle.std.specs.Prelude.{◌≡◌, ◌↔◌, ◌++◌, ◌∷◌, [], IfOk, IsTrue, OnOk, false, map};
ghost use Rattle.std.specs.Prelude.{option_map};
ghost use Rattle.std.specs.List.{filter_map};
ghost use Rattle.vr_types.specs.Content.{place_cmp};
ghost use Rattle.vr_log.specs.Live.{live_in};
ghost use Rattle.vr_volume.specs.PutBack.{AreAlone, image_in, images_of};
ghost use Rattle.vr_recover.specs.Keys.{AllDiffer, key_of, listed};

use std::alloc::Global;
use std::cmp::Ordering;
use vr_log::{LogRecord, UndoLog};
use vr_types::{OutOfMemory, PartNo};

/// What before-images are in order by: their part, then their place.
#[derive(Clone, Copy)]
pub(crate) struct Key<'a> {
    part: PartNo,
    place: &'a [u8],
}

/// The order of two keys.
fn key_cmp(one: &Key<'_>, other: &Key<'_>) -> Ordering
    ensures { result ≡ place_cmp (listed one.now) (listed other.now) }
{
    let places = one.place.cmp(other.place);
    one.part.0.cmp(&other.part.0).then(places)
}

/// The key of a record of the log, where it is a before-image of a unit that is live.
fn key_of<'a>(log: &UndoLog, rec: &'a LogRecord) -> Option<Key<'a>>
    requires { log.now.broken ≡ false }
    ensures { option_map listed result
        ≡ option_map key_of (image_in (live_in log.now.records) rec.now) }
{
    match rec {
        LogRecord::Before {
            unit,
            part,
            place,
            ..
        } => {
            if !log.is_live(*unit) {
                return None;
            }
            Some(Key {
                part: *part,
                place: place.as_slice(),
            })
        }
        LogRecord::End { .. } => None,
    }
}

/// Adds the key of a record of the log, where it is a before-image of a unit that is live.
fn add_key<'a>(
    log: &UndoLog,
    rec: &'a LogRecord,
    keys: &mut Vec<Key<'a>>,
) -> Result<(), OutOfMemory>
    requires { log.now.broken ≡ false }
    ensures { OnOk result (map listed keys.new.items ≡ map listed keys.old.items
        ++ map key_of (filter_map (image_in (live_in log.now.records)) (rec.now ∷ []))) }
{
    if let Some(key) = key_of(log, rec) {
        keys.push(key)?;
    }
    Ok(())
}

/// The keys of the before-images that the log has of live units. `records` are those of the log.
fn keys_of<'a>(
    alloc: Global,
    log: &UndoLog,
    records: &'a [LogRecord],
) -> Result<Vec<Key<'a>>, OutOfMemory>
    requires sound { log.now.broken ≡ false }
    requires records { records.now ≡ log.now.records }
    ensures { IfOk result (λ keys.
        map listed keys.items ≡ map key_of (images_of log.now.records)) }
{
    let mut keys = Vec::new(alloc);
    for rec in records {
        add_key(log, rec, &mut keys)?;
    }
    Ok(keys)
}

/// Whether no two of these keys are the same: once they are in order, none is the next one.
fn all_differ(keys: &mut Vec<Key<'_>>) -> bool
    ensures { IsTrue result ↔ AllDiffer (map listed keys.old.items) }
{
    keys.sort_unstable_by(|one, other| key_cmp(one, other));
    keys.is_sorted_by(|one, other| key_cmp(one, other).is_lt())
}

/// Whether each before-image that the log has of live units is the only one of its place. `records`
/// are those of the log. It fails only if memory runs out.
pub(crate) fn are_alone(
    alloc: Global,
    log: &UndoLog,
    records: &[LogRecord],
) -> Result<bool, OutOfMemory>
    requires sound { log.now.broken ≡ false }
    requires records { records.now ≡ log.now.records }
    ensures { IfOk result (λ alone. IsTrue alone ↔ AreAlone (images_of log.now.records)) }
{
    let mut keys = keys_of(alloc, log, records)?;
    let differ = all_differ(&mut keys);
    Ok(differ)
}
