//! Which entries a volume may be formatted with.
ghost use Rattle.std.specs.Prelude.{◌≡◌, ◌+◌, ◌*◌, ◌<◌, ◌≤◌, ◌↔◌, ℕ, [], length, Some, None};
ghost use Rattle.std.specs.Prelude.{IfOk, IfSome, IsTrue, IsErrOf};
ghost use Rattle.vr_types.specs.Geometry.{IsAllowed, area_count};
ghost use Rattle.vr_catalog.specs.Record.{entry_of, spelling};
ghost use Rattle.vr_catalog.specs.declared.entry.EntryKind.TheVariants.{Cluster};
ghost use Rattle.vr_catalog.specs.declared.read.EntryNo.TheVariants.{Misspelled};
ghost use Rattle.vr_volume.specs.CatalogRules.{IsEntryOf, has_intervals_by};
ghost use Rattle.vr_format.specs.Fit.{AreTaken, IsFirstUnfit, IsNext, TakesNext};
ghost use Rattle.vr_format.specs.Fit.{in_area};

use std::alloc::Global;
use vr_catalog::{
    CatEntry, Catalog, EntryKind, EntryNo, RECORD_LENGTH, are_few_intervals, ends_past,
    is_bad_cluster, read_entry, write_entry,
};
use vr_types::{AreaNo, Geometry, Kind, OutOfMemory, PartNo};

/// The entry that the record of an entry spells where it is in this area.
fn spelled_in(alloc: Global, entry: &CatEntry, area: u32) -> Result<CatEntry, EntryNo>
    ensures ok { IfOk result (λ cluster.
        entry_of (spelling (in_area area entry.now)) ≡ Some cluster) }
    ensures misspelled { IsErrOf result Misspelled
        → entry_of (spelling (in_area area entry.now)) ≡ None }
{
    let mut moved = entry.copy(alloc)?;
    moved.first_area = Some(AreaNo(area));
    let mut record = [0; RECORD_LENGTH];
    write_entry(&moved, &mut record);
    read_entry(alloc, &record)
}

/// Whether an area has the intervals that a cluster needs.
fn has_intervals(geometry: &Geometry, cluster: &CatEntry) -> bool
    ensures { result ≡ has_intervals_by geometry.now cluster.now cluster.now.kind }
{
    match cluster.kind {
        Some(Kind::Keyed) => {
            cluster.first_area.is_none() || !are_few_intervals(geometry, cluster.key_length as u32)
        }
        Some(Kind::Entry) | Some(Kind::Relative) | None => true,
    }
}

/// Whether a cluster keeps the rules of a catalog.
fn keeps_rules(geometry: &Geometry, before: &Catalog, cluster: &CatEntry) -> bool
    requires { cluster.now.entry_kind ≡ Cluster }
    ensures { IsTrue result ↔ IsEntryOf geometry.now before.now cluster.now }
{
    let Some(definition) = cluster.cluster_definition() else {
        return false;
    };
    cluster.related.is_none()
        && cluster.first_area.is_some()
        && !ends_past(cluster.key_length, cluster.key_offset, cluster.maximum)
        && !is_bad_cluster(geometry, &definition, cluster.average)
        && has_intervals(geometry, cluster)
}

/// Whether there is room for a cluster of this number: for a record in an interval, for the area,
/// and for its record in the catalog.
fn has_room(geometry: &Geometry, cluster: &CatEntry, number: u32) -> bool
    ensures { IsTrue result ↔ ((cluster.now.maximum + 7 ≤ geometry.now.size)
        × (number < area_count geometry.now) × (207 * number + 4 ≤ geometry.now.size)) }
{
    cluster.maximum as u64 + 7 <= geometry.size as u64
        && number < geometry.areas()
        && 207 * number as u64 + 4 <= geometry.size as u64
}

/// Whether an entry may be formatted after these, as the cluster of this number.
fn is_next(geometry: &Geometry, before: &Catalog, cluster: &CatEntry, number: u32) -> bool
    requires { number ≡ length before.now + 1 }
    ensures { IsTrue result ↔ IsNext geometry.now before.now cluster.now }
{
    cluster.entry_kind == EntryKind::Cluster
        && cluster.part == PartNo(number)
        && cluster.first_area == Some(AreaNo(number))
        && before.find(&cluster.name).is_none()
        && keeps_rules(geometry, before, cluster)
        && has_room(geometry, cluster, number)
}

/// Adds an entry to the clusters as that of this number, and answers whether it can be formatted.
fn take_entry(
    alloc: Global,
    geometry: &Geometry,
    clusters: &mut Catalog,
    entry: &CatEntry,
    number: u32,
) -> Result<bool, OutOfMemory>
    requires { number ≡ length clusters.old + 1 }
    ensures { IfOk result (TakesNext geometry.now clusters.old entry.now clusters.new) }
{
    match spelled_in(alloc, entry, number) {
        Ok(cluster) => {
            if !is_next(geometry, clusters, &cluster, number) {
                return Ok(false);
            }
            clusters.push(cluster)?;
            Ok(true)
        }
        Err(EntryNo::Misspelled) => Ok(false),
        Err(EntryNo::Memory) => Err(OutOfMemory),
    }
}

/// Adds the entries to clusters of none, and answers which is the first that can't be formatted, if
/// there is one.
pub(crate) fn take_entries(
    alloc: Global,
    geometry: &Geometry,
    clusters: &mut Catalog,
    entries: &[CatEntry],
) -> Result<Option<u32>, OutOfMemory>
    requires allowed { IsAllowed geometry.now }
    requires none { clusters.old ≡ [] }
    ensures taken { IfOk result (λ unfit. unfit ≡ None
        → AreTaken geometry.now entries.now clusters.new) }
    ensures unfit { IfOk result (λ unfit.
        IfSome unfit (IsFirstUnfit geometry.now entries.now)) }
{
    let mut number = 0;
    for entry in entries {
        if !take_entry(alloc, geometry, clusters, entry, number + 1)? {
            return Ok(Some(number));
        }
        number += 1;
    }
    Ok(None)
}
