//! What LISTCAT ALL lists: the entries, and the lines of each.
ghost use Rattle.std.specs.Prelude.{◌≡◌, ◌++◌, None, map, IfOk, OnOk};
ghost use Rattle.std.specs.List.{All};
ghost use Rattle.vr_ams_list.specs.Details.{details_of};
ghost use Rattle.vr_ams_list.specs.Faults.{failure_of};
ghost use Rattle.vr_ams_list.specs.Held.{held_entries};
ghost use Rattle.vr_ams_list.specs.Listing as stated;
ghost use Rattle.vr_ams_list.specs.Places.{IsGoing, IsThere};

use crate::details::write_details;
use crate::listed::{Held, Listed};
use crate::listing::write_entry;
use crate::order::listed_entries;
use std::alloc::Global;
use vr_catalog::{CatEntry, Catalog};
use vr_trace::{ShownVolume, Statistics};
use vr_types::{Bytes, Name, OutOfMemory};

/// Copies of the entries that LISTCAT of these names lists, or of all entries where there is none,
/// in their order: by name, and of one name that of the lowest volume first. Each is in the catalog
/// of its volume, and where LISTCAT isn't refused none of these volumes has stopped. Out of memory
/// is its one error.
pub fn entries_to_list<V: ShownVolume>(
    alloc: Global,
    volumes: &[V],
    names: &[Name],
) -> Result<Vec<Listed>, OutOfMemory>
    ensures listed { IfOk result (λ entries.
        entries.items ≡ stated.listed_entries (map V.shown volumes.now) names.now) }
    ensures there { IfOk result (λ entries. All (IsThere (map V.shown volumes.now)) entries.items) }
    ensures going { failure_of (map V.shown volumes.now) names.now ≡ None
        → IfOk result (λ entries. All (IsGoing (map V.shown volumes.now)) entries.items) }
{
    listed_copies(alloc, volumes, names)
}

/// Copies of the entries that are listed.
fn listed_copies<V: ShownVolume>(
    alloc: Global,
    volumes: &[V],
    names: &[Name],
) -> Result<Vec<Listed>, OutOfMemory>
    ensures { IfOk result (λ entries.
        entries.items ≡ stated.listed_entries (map V.shown volumes.now) names.now) }
{
    let entries = listed_entries(alloc, volumes, names)?;
    copies(alloc, entries.as_slice())
}

/// Copies of entries.
fn copies(alloc: Global, entries: &[Held]) -> Result<Vec<Listed>, OutOfMemory>
    ensures { IfOk result (λ copies. copies.items ≡ held_entries entries.now) }
{
    let mut copies = Vec::new(alloc);
    for held in entries {
        copies.push(held.copied(alloc)?)?;
    }
    Ok(copies)
}

/// Adds all lines of an entry of the catalog for LISTCAT ALL of Access Method Services Commands:
/// that of its kind and name, and those below. Out of memory is its one error, and may leave a part
/// of the lines.
pub fn write_full(
    alloc: Global,
    out: &mut Bytes,
    catalog: &Catalog,
    entry: &CatEntry,
    numbers: &Statistics,
) -> Result<(), OutOfMemory>
    ensures { OnOk result (out.new ≡ out.old ++ stated.entry_line entry.now
        ++ details_of catalog.now entry.now numbers.now) }
{
    write_entry(out, entry)?;
    write_details(alloc, out, catalog, entry, numbers)
}
