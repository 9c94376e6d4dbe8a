//! The rules that the entries of a catalog keep beside those of their records.
ghost use Rattle.std.specs.Prelude.{◌≡◌, ◌↔◌, IsTrue, All, not, ◌&&◌};
ghost use Rattle.std.specs.Option.{option_copied};
ghost use Rattle.vr_catalog.specs.Catalog.{definition_in};
ghost use Rattle.vr_catalog.specs.Define.{is_path_kind as path_kind, is_relative as relative};
ghost use Rattle.vr_catalog.specs.Define.{place_length_of as places_of};
ghost use Rattle.vr_catalog.specs.Limits.{ends_past as past_end, is_bad_cluster as bad_cluster};
ghost use Rattle.vr_catalog.specs.declared.entry.EntryKind.TheVariants.{Cluster};
ghost use Rattle.vr_attach.specs.CatalogRules.{
  IsEntryOf,
  related_in as base_in,
  is_cluster as cluster,
  is_over_by,
  has_area_by,
  has_intervals as intervals,
  has_intervals_by as intervals_by,
  has_sizes_over as sizes_over,
  has_sizes_by,
};
ghost use Rattle.vr_mount.specs.Records.{AreRules};

use crate::distinct::{Which, are_told_apart};
use vr_catalog::{
    CatEntry, Catalog, Definition, EntryKind, are_bad_sizes, are_few_intervals, ends_past,
    is_bad_cluster,
};
use vr_types::{Geometry, Kind};

/// The entry over which another stands.
fn related_in<'a>(catalog: &'a Catalog, entry: &CatEntry) -> Option<&'a CatEntry>
    ensures { option_copied result ≡ base_in catalog.now entry.now }
{
    match entry.related {
        None => None,
        Some(part) => catalog.find_part(part),
    }
}

fn is_cluster(kind: EntryKind) -> bool
    ensures { result ≡ cluster kind }
{
    match kind {
        EntryKind::Cluster => true,
        EntryKind::Alternate | EntryKind::Path => false,
    }
}

fn is_path_kind(kind: EntryKind) -> bool
    ensures { result ≡ path_kind kind }
{
    match kind {
        EntryKind::Cluster | EntryKind::Alternate => false,
        EntryKind::Path => true,
    }
}

fn is_relative(kind: Option<Kind>) -> bool
    ensures { result ≡ relative kind }
{
    match kind {
        Some(Kind::Relative) => true,
        None | Some(Kind::Keyed) | Some(Kind::Entry) => false,
    }
}

/// Whether an alternate index may stand over this.
fn is_base(other: &CatEntry) -> bool
    ensures { result ≡ (cluster other.now.entry_kind && not (relative other.now.kind)) }
{
    is_cluster(other.entry_kind) && !is_relative(other.kind)
}

/// Whether an entry stands over what it may.
fn is_over(entry: &CatEntry, base: Option<&CatEntry>) -> bool
    ensures { result ≡ is_over_by entry.now.entry_kind entry.now (option_copied base.entry) }
{
    match (entry.entry_kind, base) {
        (EntryKind::Cluster, _) => entry.related.is_none(),
        (EntryKind::Alternate, Some(other)) => is_base(other),
        (EntryKind::Path, Some(other)) => !is_path_kind(other.entry_kind),
        (EntryKind::Alternate, None) | (EntryKind::Path, None) => false,
    }
}

/// Whether an entry has a first area, where it is a cluster.
fn has_area(entry: &CatEntry) -> bool
    ensures { result ≡ has_area_by entry.now.entry_kind entry.now }
{
    match entry.entry_kind {
        EntryKind::Cluster => entry.first_area.is_some(),
        EntryKind::Alternate | EntryKind::Path => true,
    }
}

/// Whether an area has two intervals for places of the length, where the entry has one.
fn has_intervals(geometry: &Geometry, entry: &CatEntry, length: u32) -> bool
    ensures { result ≡ intervals geometry.now entry.now length }
{
    entry.first_area.is_none() || !are_few_intervals(geometry, length)
}

fn has_intervals_by(geometry: &Geometry, entry: &CatEntry) -> bool
    ensures { result ≡ intervals_by geometry.now entry.now entry.now.kind }
{
    match entry.kind {
        Some(Kind::Keyed) => has_intervals(geometry, entry, entry.key_length as u32),
        None | Some(Kind::Entry) | Some(Kind::Relative) => true,
    }
}

/// The length of the places of a base: its keys, or four bytes.
fn place_length_of(kind: Option<Kind>, key_length: u16) -> u32
    ensures { result ≡ places_of kind key_length }
{
    match kind {
        Some(Kind::Keyed) => key_length as u32,
        None | Some(Kind::Entry) | Some(Kind::Relative) => 4,
    }
}

/// Whether an alternate index has sizes that it may have over its base.
fn has_sizes_over(geometry: &Geometry, entry: &CatEntry, base: &CatEntry) -> bool
    ensures { result ≡ sizes_over geometry.now entry.now base.now }
{
    let places = entry.key_length as u32 + place_length_of(base.kind, base.key_length);
    !ends_past(entry.key_length, entry.key_offset, base.maximum)
        && !are_bad_sizes(entry.average, entry.maximum)
        && has_intervals(geometry, entry, places)
}

/// Whether a cluster of this definition has sizes that it may have.
fn is_sized(geometry: &Geometry, entry: &CatEntry, definition: &Definition) -> bool
    ensures { result ≡ (not (past_end entry.now.key_length entry.now.key_offset entry.now.maximum)
        && (not (bad_cluster geometry.now definition.now entry.now.average)
        && intervals_by geometry.now entry.now entry.now.kind)) }
{
    !ends_past(entry.key_length, entry.key_offset, entry.maximum)
        && !is_bad_cluster(geometry, definition, entry.average)
        && has_intervals_by(geometry, entry)
}

/// Whether a cluster has sizes that it may have.
fn has_cluster_sizes(geometry: &Geometry, entry: &CatEntry) -> bool
    requires { entry.now.entry_kind ≡ Cluster }
    ensures { result ≡ has_sizes_by Cluster geometry.now entry.now None }
{
    match entry.cluster_definition() {
        Some(definition) => is_sized(geometry, entry, &definition),
        None => true,
    }
}

/// Whether an entry has sizes that it may have.
fn has_sizes(geometry: &Geometry, entry: &CatEntry, base: Option<&CatEntry>) -> bool
    ensures { result
        ≡ has_sizes_by entry.now.entry_kind geometry.now entry.now (option_copied base.entry) }
{
    match (entry.entry_kind, base) {
        (EntryKind::Cluster, _) => has_cluster_sizes(geometry, entry),
        (EntryKind::Alternate, Some(other)) => has_sizes_over(geometry, entry, other),
        (EntryKind::Alternate, None) | (EntryKind::Path, _) => true,
    }
}

/// Whether an entry of a catalog keeps the rules.
fn is_entry_of(geometry: &Geometry, catalog: &Catalog, entry: &CatEntry) -> bool
    ensures { IsTrue result ↔ IsEntryOf geometry.now catalog.now entry.now }
{
    let base = related_in(catalog, entry);
    is_over(entry, base) && has_area(entry) && has_sizes(geometry, entry, base)
}

/// Whether each entry of a catalog keeps the rules.
fn are_entries(geometry: &Geometry, catalog: &Catalog) -> bool
    ensures { IsTrue result ↔ All (IsEntryOf geometry.now catalog.now) catalog.now }
{
    let entries = catalog.as_slice();
    entries
        .iter()
        .all(|entry| is_entry_of(geometry, catalog, entry))
}

/// Whether the entries of a catalog keep the rules beside those of each record.
pub(crate) fn are_rules(geometry: &Geometry, catalog: &Catalog) -> bool
    ensures { IsTrue result ↔ AreRules geometry.now catalog.now }
{
    are_told_apart(catalog.as_slice(), Which::Part) && are_entries(geometry, catalog)
}
