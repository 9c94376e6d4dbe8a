//! The requests that put a record into the target.
ghost use Rattle.std.specs.Prelude.{◌≡◌, IfOk};
ghost use Rattle.std.specs.Option.{option_copied};
ghost use Rattle.vr_ams_repro.specs.Requests as stated;

use crate::load::Load;
use std::alloc::Global;
use vr_ams_print::FoundCluster;
use vr_catalog::CatEntry;
use vr_types::{
    FileRef, Find, Integrity, Kind, OutOfMemory, Place, Request, SharedRequest, bytes,
    number_place, place,
};

/// The file by which the utilities are on the target.
fn target_file(target: &FoundCluster) -> FileRef
    ensures { result ≡ stated.target_file target.now }
{
    FileRef {
        volume: target.place.min(0xFFFF_FFFF) as u32,
        slot: 0,
        base: target.entry.part,
        path: None,
        kind: target.kind,
        known: true,
    }
}

/// The slot of the record of this number.
fn slot_numbered(alloc: Global, number: u64) -> Result<Place, OutOfMemory>
    ensures { IfOk result (λ slot. slot ≡ stated.slot_numbered number) }
{
    number_place(alloc, number.min(0xFFFF_FFFF) as u32)
}

/// The slot of a record, which has this place in its source.
fn slot_of(
    alloc: Global,
    source: Option<Kind>,
    number: u64,
    own: &[u8],
) -> Result<Place, OutOfMemory>
    ensures { IfOk result (λ slot. slot ≡ stated.slot_of source number own.now) }
{
    match source {
        Some(Kind::Relative) => place(alloc, own),
        Some(Kind::Keyed) | Some(Kind::Entry) | None => slot_numbered(alloc, number),
    }
}

/// The key of a record, where it is long enough.
fn key_in(alloc: Global, entry: &CatEntry, record: &[u8]) -> Result<Option<Place>, OutOfMemory>
    ensures { IfOk result (λ key. key ≡ stated.key_in entry.now record.now) }
{
    let from = entry.key_offset as usize;
    let length = entry.key_length as usize;
    if from + length <= record.len() {
        Ok(Some(place(alloc, &record[from..from + length])?))
    } else {
        Ok(None)
    }
}

/// Where a record goes, the one of this number, which has the place `own` in its source, as far as
/// it says so itself. Out of memory is the one error, here and below.
pub(crate) fn place_of(
    alloc: Global,
    load: &Load,
    number: u64,
    own: &[u8],
    record: &[u8],
) -> Result<Option<Place>, OutOfMemory>
    ensures { IfOk result (λ place.
        place ≡ stated.place_of load.now number (own.now, record.now)) }
{
    match load.target.kind {
        Kind::Keyed => key_in(alloc, &load.target.entry, record),
        Kind::Entry => Ok(None),
        Kind::Relative => Ok(Some(slot_of(alloc, load.source, number, own)?)),
    }
}

/// The place that a PUT that adds names.
fn place_named(
    alloc: Global,
    kind: Kind,
    place: Option<&Place>,
) -> Result<Option<Place>, OutOfMemory>
    ensures { IfOk result (λ named. named ≡ stated.place_named kind (option_copied place.entry)) }
{
    match (kind, place) {
        (Kind::Relative, Some(place)) => Ok(Some(place.copy(alloc)?)),
        (Kind::Relative, None) => Ok(None),
        (Kind::Keyed, _) | (Kind::Entry, _) => Ok(None),
    }
}

/// The PUT that adds a record.
pub(crate) fn add_request(
    alloc: Global,
    target: &FoundCluster,
    place: Option<&Place>,
    record: &[u8],
) -> Result<SharedRequest, OutOfMemory>
    ensures { IfOk result (λ request.
        request ≡ stated.add_of target.now (option_copied place.entry) record.now) }
{
    let place = place_named(alloc, target.kind, place)?;
    let bytes = bytes(alloc, record)?;
    let file = target_file(target);
    SharedRequest::new(alloc, Request::Add { file, place, bytes })
}

/// The GET for update of the record at a place.
pub(crate) fn get_request(
    alloc: Global,
    target: &FoundCluster,
    place: &Place,
) -> Result<SharedRequest, OutOfMemory>
    ensures { IfOk result (λ request. request ≡ stated.get_of target.now place.now) }
{
    let find = Find::Equal(place.copy(alloc)?);
    SharedRequest::new(
        alloc,
        Request::Get {
            file: target_file(target),
            find,
            update: true,
            integrity: Integrity::Nri,
        },
    )
}

/// The PUT that replaces the record that was got.
pub(crate) fn update_request(
    alloc: Global,
    target: &FoundCluster,
    record: &[u8],
) -> Result<SharedRequest, OutOfMemory>
    ensures { IfOk result (λ request. request ≡ stated.update_of target.now record.now) }
{
    let bytes = bytes(alloc, record)?;
    let file = target_file(target);
    SharedRequest::new(alloc, Request::Update { file, bytes })
}

/// Where it is looked whether there is a record.
pub(crate) fn place_looked<'a>(load: &Load, place: Option<&'a Place>) -> Option<&'a Place>
    ensures { option_copied result ≡ stated.place_looked load.now (option_copied place.entry) }
{
    if load.replace { place } else { None }
}
