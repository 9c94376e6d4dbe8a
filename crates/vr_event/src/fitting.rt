//! Records that fit a part by the catalog, and the length for which a change asks room.
ghost use Rattle.std.specs.Prelude.{◌≡◌, ◌<◌, ◌^◌, IfSome, IsTrue, List, false, length, true};
ghost use Rattle.std.specs.Option.{option_copied};
ghost use Rattle.vr_types.specs.declared.geometry.Geometry.{Geometry};
ghost use Rattle.vr_event.specs.Getting as getting;
ghost use Rattle.vr_event.specs.Putting.{AreLaidBy, FitsItem, FitsLength, FitsRecord};
ghost use Rattle.vr_event.specs.Putting.{IsKeyedRecord, IsNumberedRecord, IsRecordBy};
ghost use Rattle.vr_store.specs.Store.{PartNow};

use vr_catalog::{Catalog, Definition};
use vr_types::{Kind, PartNo, Place, four_at};

/// Whether the bytes of a place are a number in four bytes: that of a slot, which is one or more, or
/// else an address.
pub(crate) fn is_number(place: &[u8], relative: bool) -> bool
    ensures { result ≡ getting.is_number relative place.now }
{
    place.len() == 4 && (!relative || four_at(place, 0) != 0)
}

/// The length of a record that the definition of a key-sequenced cluster allows at a place; None of
/// any other.
fn keyed_length(definition: &Definition, place: &Place, bytes: &[u8]) -> Option<u32>
    ensures length { IfSome result (λ n. n ≡ length bytes.now) }
    ensures record { IfSome result (λ n. IsKeyedRecord definition.now place.now bytes.now) }
{
    let from = definition.key_offset as usize;
    let to = from + definition.key_length as usize;
    let length = bytes.len();
    if to <= length
        && length <= definition.maximum as usize
        && &bytes[from..to] == place.as_slice()
    {
        Some(length as u32)
    } else {
        None
    }
}

/// The length of a record that the definition of an entry-sequenced cluster allows at a place; None
/// of any other.
fn entry_length(definition: &Definition, place: &Place, bytes: &[u8]) -> Option<u32>
    ensures length { IfSome result (λ n. n ≡ length bytes.now) }
    ensures record { IfSome result
        (λ n. IsNumberedRecord false definition.now place.now bytes.now) }
{
    let length = bytes.len();
    if is_number(place.as_slice(), false) && 0 < length && length <= definition.maximum as usize {
        Some(length as u32)
    } else {
        None
    }
}

/// The length of a record that the definition of a relative cluster allows at a place; None of any
/// other.
fn slot_length(definition: &Definition, place: &Place, bytes: &[u8]) -> Option<u32>
    ensures length { IfSome result (λ n. n ≡ length bytes.now) }
    ensures record { IfSome result
        (λ n. IsNumberedRecord true definition.now place.now bytes.now) }
{
    if is_number(place.as_slice(), true) && bytes.len() == definition.maximum as usize {
        Some(definition.maximum)
    } else {
        None
    }
}

/// The length of a record that a definition allows at a place; None of any other.
fn length_by(definition: &Definition, place: &Place, bytes: &[u8]) -> Option<u32>
    ensures length { IfSome result (λ n. n ≡ length bytes.now) }
    ensures record { IfSome result (λ n. IsRecordBy definition.now place.now bytes.now) }
{
    match definition.kind {
        Kind::Keyed => keyed_length(definition, place, bytes),
        Kind::Entry => entry_length(definition, place, bytes),
        Kind::Relative => slot_length(definition, place, bytes),
    }
}

/// The length of a record that may stand at a place of a part of a catalog; None of any other.
#[tactic(auto, using(crate::proofs::RecordShapes::fits_by))]
fn record_length(catalog: &Catalog, part: PartNo, place: &Place, bytes: &[u8]) -> Option<u32>
    ensures length { IfSome result (λ n. n ≡ length bytes.now) }
    ensures short { IfSome result (λ n. n < 2 ^ 32) }
    ensures record { IfSome result (λ n. (geometry : Geometry) (parts : List PartNow)
        → AreLaidBy geometry catalog.now parts
        → FitsRecord parts part.0 place.now bytes.now) }
{
    match catalog.definition_of(part) {
        None => None,
        Some(definition) => length_by(&definition, place, bytes),
    }
}

/// Whether the record that stands at a place of a part of a catalog, if any, may stand there.
pub(crate) fn fits_item(catalog: &Catalog, part: PartNo, place: &Place, item: Option<&[u8]>) -> bool
    ensures { IsTrue result → (geometry : Geometry) (parts : List PartNow)
        → AreLaidBy geometry catalog.now parts
        → FitsItem parts part.0 place.now (option_copied item.entry) }
{
    match item {
        None => true,
        Some(bytes) => match record_length(catalog, part, place, bytes) {
            None => false,
            Some(n) => true,
        },
    }
}

/// The length for which a change asks room: that of the record that it gives its place, or else that
/// of the one that stands there. None where there is none, or where it may not stand there.
pub(crate) fn length_asked(
    catalog: &Catalog,
    part: PartNo,
    place: &Place,
    new: Option<&[u8]>,
    old: Option<&[u8]>,
) -> Option<u32>
    ensures size { IfSome result (λ n. (geometry : Geometry) (parts : List PartNow)
        → AreLaidBy geometry catalog.now parts → FitsLength parts part.0 n) }
    ensures new_fits { IfSome result (λ n. (geometry : Geometry) (parts : List PartNow)
        → AreLaidBy geometry catalog.now parts
        → FitsItem parts part.0 place.now (option_copied new.entry)) }
    ensures long { IfSome result (λ n. IfSome (option_copied new.entry)
        (λ bytes. n ≡ length bytes)) }
{
    match new {
        Some(bytes) => record_length(catalog, part, place, bytes),
        None => match old {
            Some(bytes) => record_length(catalog, part, place, bytes),
            None => None,
        },
    }
}
