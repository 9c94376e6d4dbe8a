//! The entries of a new volume.
ghost use Rattle.std.specs.Prelude.{◌≡◌, IfOk};
ghost use Rattle.vr_format.specs.Formatted.{first_entry as entry_of_first, first_entries as entries_of};

use std::alloc::Global;
use vr_catalog::{CatEntry, Catalog, EntryKind, FreeSpace, ShareOptions, SpaceUnit};
use vr_types::{AreaNo, Kind, NameFault, OutOfMemory, PartNo, dataset_name};

/// The entry of VRM.FIRST.
fn first_entry(alloc: Global) -> Result<CatEntry, OutOfMemory>
    ensures { IfOk result (λ entry. entry ≡ entry_of_first) }
{
    let name = match dataset_name(alloc, "VRM.FIRST") {
        Ok(name) => name,
        Err(_) => return Err(OutOfMemory),
    };
    Ok(CatEntry {
        name,
        entry_kind: EntryKind::Cluster,
        kind: Some(Kind::Keyed),
        spanned: false,
        unique: false,
        built: false,
        part: PartNo(1),
        related: None,
        key_length: 8,
        key_offset: 0,
        average: 80,
        maximum: 80,
        first_area: Some(AreaNo(1)),
        free_space: FreeSpace {
            interval: 0,
            area: 0,
        },
        share_options: ShareOptions {
            regions: 1,
            systems: 3,
        },
        space: SpaceUnit::Unstated,
        primary: 0,
        secondary: 0,
        interval_size: 0,
        data_name: None,
        index_name: None,
        storage_class: None,
        data_class: None,
        management_class: None,
    })
}

/// The entries of the catalog of a new volume of this number.
pub(crate) fn first_entries(alloc: Global, number: u32) -> Result<Catalog, OutOfMemory>
    ensures { IfOk result (λ catalog. catalog ≡ entries_of number) }
{
    let mut catalog = Catalog::new(alloc);
    if number == 0 {
        catalog.push(first_entry(alloc)?)?;
    }
    Ok(catalog)
}
