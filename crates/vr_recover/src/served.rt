//! Which catalogs are served: those without an alternate index that is built, where the longest
//! record of each cluster has room in an interval of its own.
ghost use Rattle.std.specs.Prelude.{◌≡◌, ◌↔◌, IsTrue, All};
ghost use Rattle.vr_edits.specs.Edits.{IsUnbuilt};
ghost use Rattle.vr_recover.specs.Unserved.{IsPlain};

use vr_catalog::{CatEntry, Catalog, EntryKind};
use vr_types::Geometry;

/// Whether an entry is of something else than an alternate index that is built.
fn is_unbuilt(entry: &CatEntry) -> bool
    ensures { IsTrue result ↔ IsUnbuilt entry.now }
{
    match entry.entry_kind {
        EntryKind::Alternate => !entry.built,
        EntryKind::Cluster | EntryKind::Path => true,
    }
}

/// Whether a catalog has no alternate index that is built.
pub(crate) fn are_unbuilt(catalog: &Catalog) -> bool
    ensures { IsTrue result ↔ All IsUnbuilt catalog.now }
{
    let entries = catalog.as_slice();
    entries.iter().all(|entry| is_unbuilt(entry))
}

/// Whether the longest record of an entry has room in an interval of its own, where it is a cluster.
fn is_plain(geometry: &Geometry, entry: &CatEntry) -> bool
    ensures { IsTrue result ↔ IsPlain geometry.now entry.now }
{
    match entry.cluster_definition() {
        Some(definition) => definition.maximum as u64 + 7 <= geometry.size as u64,
        None => true,
    }
}

/// Whether the longest record of each cluster of a catalog has room in an interval of its own.
pub(crate) fn are_plain(geometry: &Geometry, catalog: &Catalog) -> bool
    ensures { IsTrue result ↔ All (IsPlain geometry.now) catalog.now }
{
    let entries = catalog.as_slice();
    entries.iter().all(|entry| is_plain(geometry, entry))
}
