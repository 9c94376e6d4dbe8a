//! The records of the catalog as they are once the before-images of its part are put back that a log
//! has of live units: made in memory, while the blocks stay as they are.
ghost use Rattle.std.specs.Prelude.{◌≡◌, ◌↔◌, ◌≤◌, ◌∷◌, [], All, IfSome, IsTrue, OnOk, false, length};
ghost use Rattle.std.specs.List.{filter_map, prefix_len};
ghost use Rattle.std.specs.Option.{option_map};
ghost use Rattle.std.specs.Ordering.{is_gt};
ghost use Rattle.vr_types.specs.Content.{Standing, place_cmp, with_item, without_item};
ghost use Rattle.vr_altkey.specs.Placing.{placed_in};
ghost use Rattle.vr_log.specs.Live.{live_in};
ghost use Rattle.vr_volume.specs.PutBack.{image_in, images_of, put_back};
ghost use Rattle.vr_recover.specs.Images.{HasName, IsNamed, name_in as name_of, named};

use std::alloc::Global;
use vr_log::{LogRecord, UndoLog};
use vr_types::{Bytes, NAME_LIMIT, OutOfMemory, Place};

/// The name of a record of the catalog: its first bytes.
fn name_in(entry: &Bytes) -> &[u8]
    ensures { result.now ≡ name_of entry.now }
{
    let bytes = entry.as_slice();
    if bytes.len() <= NAME_LIMIT {
        return bytes;
    }
    &bytes[..NAME_LIMIT]
}

/// How many records from the first on have a name before this place.
fn lower(records: &[Bytes], place: &Place) -> usize
    ensures place { result
        ≡ prefix_len (λ bytes. is_gt (place_cmp place.now (name_of bytes))) records.now }
    ensures within { result ≤ length records.now }
{
    for at in 0..records.len() {
        if !place.as_slice().cmp(name_in(&records[at])).is_gt() {
            return at;
        }
    }
    records.len()
}

/// Whether the record at this index, if there is one, has this name.
fn has_name(records: &[Bytes], at: usize, place: &Place) -> bool
    ensures { IsTrue result ↔ HasName records.now at place.now }
{
    at < records.len() && place.as_slice().cmp(name_in(&records[at])).is_eq()
}

/// Makes this the record at its name, in the order of the names.
fn put_record(records: &mut Vec<Bytes>, place: &Place, bytes: Bytes) -> Result<(), OutOfMemory>
    requires { name_of bytes ≡ place.now }
    ensures { OnOk result (named records.new.items
        ≡ with_item (named records.old.items) place.now (Standing bytes)) }
{
    let at = lower(records, place);
    if has_name(records, at, place) {
        records[at] = bytes;
        return Ok(());
    }
    records.insert(at, bytes)?;
    Ok(())
}

/// Takes the records with this name out.
fn take_out(records: &mut Vec<Bytes>, place: &Place)
    ensures { named records.new.items ≡ without_item (named records.old.items) place.now }
{
    records.retain(|entry| place.as_slice() != name_in(entry));
}

/// Makes what was at a place the record there, if it is one.
fn put_old(
    alloc: Global,
    records: &mut Vec<Bytes>,
    place: &Place,
    old: &Option<Bytes>,
) -> Result<(), OutOfMemory>
    requires { IfSome old.now (λ bytes. name_of bytes ≡ place.now) }
    ensures { OnOk result (named records.new.items
        ≡ placed_in place.now (option_map Standing old.now) (named records.old.items)) }
{
    match old {
        Some(bytes) => put_record(records, place, bytes.copy(alloc)?),
        None => {
            take_out(records, place);
            Ok(())
        }
    }
}

/// Puts a record of the log back, where it is a before-image of the catalog's part, of a unit that is
/// live.
fn put_image(
    alloc: Global,
    log: &UndoLog,
    rec: &LogRecord,
    records: &mut Vec<Bytes>,
) -> Result<(), OutOfMemory>
    requires sound { log.now.broken ≡ false }
    requires named { IfSome (image_in (live_in log.now.records) rec.now) IsNamed }
    ensures { OnOk result (named records.new.items
        ≡ put_back 0 (filter_map (image_in (live_in log.now.records)) (rec.now ∷ []))
        (named records.old.items)) }
{
    if let LogRecord::Before {
        unit,
        part,
        place,
        old,
    } = rec
    {
        if part.0 == 0 && log.is_live(*unit) {
            put_old(alloc, records, place, old)?;
        }
    }
    Ok(())
}

/// Puts the before-images of the catalog's part back that the log has of live units, the oldest last.
/// `all` are the records of the log. It fails only if memory runs out.
pub(crate) fn put_images(
    alloc: Global,
    log: &UndoLog,
    all: &[LogRecord],
    records: &mut Vec<Bytes>,
) -> Result<(), OutOfMemory>
    requires sound { log.now.broken ≡ false }
    requires all { all.now ≡ log.now.records }
    requires named { All IsNamed (images_of log.now.records) }
    ensures { OnOk result (named records.new.items
        ≡ put_back 0 (images_of log.now.records) (named records.old.items)) }
{
    for at in (0..all.len()).rev() {
        put_image(alloc, log, &all[at], records)?;
    }
    Ok(())
}
