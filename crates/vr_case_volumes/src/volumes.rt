//! Volumes in memory.

use crate::answers::Stop;
use std::alloc::Global;
use vr_catalog::{CatEntry, EntryKind, FreeSpace, ShareOptions, SpaceUnit};
use vr_device::{MemoryDevice, memory_device};
use vr_format::{FormatNo, format_entries, format_volume};
use vr_types::{AreaNo, Geometry, Kind, PartNo, dataset_name};

/// The shape of most volumes: 15 areas of 7 intervals of 512 bytes, and 8 blocks of log.
pub const SMALL: Geometry = Geometry {
    size: 512,
    blocks: 129,
    log: 8,
    area: 7,
};

/// A device of zeros.
fn new_device(alloc: Global, shape: Geometry) -> Result<MemoryDevice, Stop> {
    match memory_device(alloc, shape.size, shape.blocks, &[]) {
        Ok(device) => Ok(device),
        Err(_) => Err(Stop::Memory),
    }
}

/// Why a volume was not formatted.
fn stop_of(no: FormatNo) -> Stop {
    match no {
        FormatNo::Memory => Stop::Memory,
        _ => Stop::Case,
    }
}

/// A new volume 0, with VRM.FIRST.
pub fn first_volume(alloc: Global, shape: Geometry) -> Result<MemoryDevice, Stop> {
    let mut device = new_device(alloc, shape)?;
    match format_volume(alloc, &mut device, 0, shape.log, shape.area) {
        Ok(()) => Ok(device),
        Err(no) => Err(stop_of(no)),
    }
}

/// A new volume of this number whose one cluster has this name and kind, and records of at most this
/// many bytes.
pub fn volume_of(
    alloc: Global,
    shape: Geometry,
    number: u32,
    name: &str,
    kind: Kind,
    maximum: u32,
) -> Result<MemoryDevice, Stop> {
    let entry = cluster(alloc, name, kind, maximum)?;
    let mut device = new_device(alloc, shape)?;
    match format_as(alloc, &mut device, shape, number, &entry) {
        Ok(()) => Ok(device),
        Err(stop) => Err(stop),
    }
}

fn format_as(
    alloc: Global,
    device: &mut MemoryDevice,
    shape: Geometry,
    number: u32,
    entry: &CatEntry,
) -> Result<(), Stop> {
    if number > 99 {
        return Err(Stop::Case);
    }
    let entries = Vec::from_array(alloc, [entry.copy(alloc)?])?;
    let entries = entries.as_slice();
    match format_entries(alloc, device, number, shape.log, shape.area, entries) {
        Ok(()) => Ok(()),
        Err(no) => Err(stop_of(no)),
    }
}

/// The length of the keys of a cluster of this kind.
fn key_length(kind: Kind) -> u16 {
    match kind {
        Kind::Keyed => 8,
        Kind::Entry | Kind::Relative => 0,
    }
}

/// The entry of part 1, a cluster of this kind whose first area is area 1: a key-sequenced one has
/// KEYS(8 0), and the records of a relative one have all as many bytes.
pub fn cluster(alloc: Global, name: &str, kind: Kind, maximum: u32) -> Result<CatEntry, Stop> {
    let name = dataset_name(alloc, name).ok().ok_or(Stop::Case)?;
    Ok(CatEntry {
        name,
        entry_kind: EntryKind::Cluster,
        kind: Some(kind),
        spanned: false,
        unique: false,
        built: false,
        part: PartNo(1),
        related: None,
        key_length: key_length(kind),
        key_offset: 0,
        average: maximum,
        maximum,
        first_area: Some(AreaNo(1)),
        free_space: FreeSpace {
            interval: 0,
            area: 0,
        },
        share_options: ShareOptions {
            regions: 1,
            systems: 3,
        },
        space: SpaceUnit::Unstated,
        primary: 0,
        secondary: 0,
        interval_size: 0,
        data_name: None,
        index_name: None,
        storage_class: None,
        data_class: None,
        management_class: None,
    })
}

/// The most bytes of a record of VRM.FIRST, the cluster of a new volume 0.
pub const FIRST_MAXIMUM: u32 = 80;

/// The most bytes of a record of the clusters of other volumes.
pub const MAXIMUM: u32 = 120;

/// New volumes 0, 1 and 2 of a shape, with VRM.FIRST, which is key-sequenced, and VRM.ONE and VRM.TWO
/// of these kinds.
pub fn three_volumes(
    alloc: Global,
    shape: Geometry,
    one: Kind,
    two: Kind,
) -> Result<Vec<MemoryDevice>, Stop> {
    let first = first_volume(alloc, shape)?;
    let one = volume_of(alloc, shape, 1, "VRM.ONE", one, MAXIMUM)?;
    let two = volume_of(alloc, shape, 2, "VRM.TWO", two, MAXIMUM)?;
    Ok(vec![in alloc; first, one, two]?)
}
