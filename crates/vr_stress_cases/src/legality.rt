//! Whether a history is one that the model of the record file takes.

use crate::data_sets::{kind_of, name_of};
use std::alloc::Global;
use vr_case_volumes::{MAXIMUM, Stop, cluster};
use vr_catalog::{RECORD_LENGTH, write_entry};
use vr_history::Entry;
use vr_model::{Contents, FileState, OwnedArea, PartContent, PlacedItem, Stored, is_legal};
use vr_types::{Bytes, Geometry, NAME_LIMIT, Place};

/// Whether entries are a legal history of the new volume of this number and shape, from its opening on.
pub fn is_legal_of(
    alloc: Global,
    shape: Geometry,
    volume: u32,
    entries: &[Entry],
) -> Result<bool, Stop> {
    let opening = opening(alloc, shape, volume)?;
    Ok(is_legal(alloc, &opening, entries)?)
}

/// The state of that volume as it is opened.
fn opening(alloc: Global, shape: Geometry, volume: u32) -> Result<FileState, Stop> {
    if !shape.is_allowed() {
        return Err(Stop::Case);
    }
    let catalog = catalog_of(alloc, volume)?;
    let contents = Contents::of_parts(alloc, Vec::from_array(alloc, [(0, catalog)])?)?;
    let owned = owned_areas(alloc)?;
    Ok(FileState::opening(alloc, shape, contents, owned))
}

/// The catalog owns area 0, and the cluster area 1.
fn owned_areas(alloc: Global) -> Result<Vec<OwnedArea>, Stop> {
    let catalog = OwnedArea { area: 0, part: 0 };
    let cluster = OwnedArea { area: 1, part: 1 };
    Ok(Vec::from_array(alloc, [catalog, cluster])?)
}

/// The content of the catalog: a record whose place is the name in its first bytes.
fn catalog_of(alloc: Global, volume: u32) -> Result<PartContent, Stop> {
    let entry = cluster(alloc, name_of(volume), kind_of(volume), MAXIMUM)?;
    let mut record = [0u8; RECORD_LENGTH];
    write_entry(&entry, &mut record);
    let placed = placed(alloc, &record)?;
    let mut content = PartContent::new(alloc);
    match content.push(placed) {
        Ok(()) => Ok(content),
        Err(_) => Err(Stop::Memory),
    }
}

fn placed(alloc: Global, record: &[u8]) -> Result<PlacedItem, Stop> {
    let end = record.len().min(NAME_LIMIT);
    let place = Place::from_vec(Vec::from_slice(alloc, &record[..end])?);
    let bytes = Bytes::from_vec(Vec::from_slice(alloc, record)?);
    Ok(PlacedItem::new(place, Stored::Standing(bytes)))
}
