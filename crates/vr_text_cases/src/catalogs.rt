//! The catalogs of two volumes.

use std::alloc::Global;
use vr_case_table::{Answer, Stop};
use vr_catalog::{CatEntry, Catalog, EntryKind, FreeSpace, ShareOptions, SpaceUnit};
use vr_types::{Kind, NameFault, PartNo, dataset_name};

/// Volume 0 has a key-sequenced cluster with an alternate index and paths over both, an
/// entry-sequenced one and a relative one; volume 1 has another cluster of the first name, a
/// relative cluster, a path over that, and a path over nothing.
pub fn two_catalogs(alloc: Global) -> Result<Vec<Catalog>, Stop> {
    let mut catalogs = Vec::new(alloc);
    match add_both(alloc, &mut catalogs) {
        Ok(()) => Ok(catalogs),
        Err(stop) => Err(stop),
    }
}

fn add_both(alloc: Global, catalogs: &mut Vec<Catalog>) -> Answer {
    catalogs.push(catalog_of(alloc, &FIRST)?)?;
    catalogs.push(catalog_of(alloc, &SECOND)?)?;
    Ok(())
}

/// A row of a catalog: a name, what it describes, its kind, its part, and the part that it is over,
/// 0 where there is none.
type Row = (&'static str, EntryKind, Kind, u32, u32);

/// The catalog of volume 0.
const FIRST: [Row; 7] = [
    ("A.KEYED", EntryKind::Cluster, Kind::Keyed, 1, 0),
    ("A.INDEX", EntryKind::Alternate, Kind::Keyed, 2, 1),
    ("A.PATH", EntryKind::Path, Kind::Keyed, 3, 2),
    ("A.OTHER", EntryKind::Path, Kind::Keyed, 4, 1),
    ("A.ENTRY", EntryKind::Cluster, Kind::Entry, 5, 0),
    ("A.SLOTS", EntryKind::Cluster, Kind::Relative, 6, 0),
    ("A.XENTRY", EntryKind::Alternate, Kind::Keyed, 7, 5),
];

/// The catalog of volume 1.
const SECOND: [Row; 4] = [
    ("A.KEYED", EntryKind::Cluster, Kind::Entry, 1, 0),
    ("B.SLOTS", EntryKind::Cluster, Kind::Relative, 2, 0),
    ("B.PATH", EntryKind::Path, Kind::Keyed, 3, 2),
    ("B.LOST", EntryKind::Path, Kind::Keyed, 4, 9),
];

/// The catalog of these rows.
fn catalog_of(alloc: Global, rows: &[Row]) -> Result<Catalog, Stop> {
    let mut catalog = Catalog::new(alloc);
    match add_rows(alloc, &mut catalog, rows) {
        Ok(()) => Ok(catalog),
        Err(stop) => Err(stop),
    }
}

fn add_rows(alloc: Global, catalog: &mut Catalog, rows: &[Row]) -> Answer {
    for row in rows {
        catalog.push(entry_of(alloc, *row)?)?;
    }
    Ok(())
}

/// The entry of a row.
fn entry_of(alloc: Global, row: Row) -> Result<CatEntry, Stop> {
    let (name, entry_kind, kind, part, related) = row;
    let mut entry = plain_entry(alloc, name)?;
    entry.entry_kind = entry_kind;
    entry.kind = Some(kind);
    entry.part = PartNo(part);
    entry.related = if related == 0 {
        None
    } else {
        Some(PartNo(related))
    };
    Ok(entry)
}

/// An entry with a name and what all have in common.
fn plain_entry(alloc: Global, name: &str) -> Result<CatEntry, Stop> {
    let name = match dataset_name(alloc, name) {
        Ok(name) => name,
        Err(NameFault::Memory) => return Err(Stop::Memory),
        Err(_) => return Err(Stop::Line),
    };
    Ok(CatEntry {
        name,
        entry_kind: EntryKind::Cluster,
        kind: None,
        spanned: false,
        unique: false,
        built: false,
        part: PartNo(1),
        related: None,
        key_length: 4,
        key_offset: 0,
        average: 80,
        maximum: 80,
        first_area: None,
        free_space: FreeSpace {
            interval: 0,
            area: 0,
        },
        share_options: ShareOptions {
            regions: 1,
            systems: 3,
        },
        space: SpaceUnit::Unstated,
        primary: 0,
        secondary: 0,
        interval_size: 0,
        data_name: None,
        index_name: None,
        storage_class: None,
        data_class: None,
        management_class: None,
    })
}
