//! Which requests on which catalogs are answered here.
ghost use Rattle.std.specs.Prelude.{◌≡◌, ◌↔◌, IsTrue};
ghost use Rattle.vr_answer.specs.Scope.{AreUnbuilt, IsDirect, IsUnbuilt};

use vr_catalog::{CatEntry, Catalog, EntryKind};
use vr_types::{Find, Request};

/// Whether a request is direct: any but POINT and the reads that search.
pub fn is_direct(request: &Request) -> bool
    ensures { IsTrue result ↔ IsDirect request.now }
{
    match request {
        Request::Get { find, .. } => match find {
            Find::Equal(_) => true,
            Find::Next | Find::AtLeast(_) => false,
        },
        Request::Point { .. } => false,
        Request::Add { .. } | Request::Update { .. } | Request::Erase { .. } => true,
        Request::EndReq { .. } | Request::Commit | Request::Backout => true,
    }
}

/// Whether an entry isn't of a built alternate index.
fn is_unbuilt(entry: &CatEntry) -> bool
    ensures { IsTrue result ↔ IsUnbuilt entry.now }
{
    match entry.entry_kind {
        EntryKind::Alternate => !entry.built,
        EntryKind::Cluster | EntryKind::Path => true,
    }
}

/// Whether none of the entries is.
fn are_unbuilt(entries: &[CatEntry]) -> bool
    ensures { IsTrue result ↔ AreUnbuilt entries.now }
{
    match entries {
        [] => true,
        [first, rest @ ..] => is_unbuilt(first) && are_unbuilt(rest),
    }
}

/// Whether a catalog has no alternate index that is built.
pub fn has_none_built(catalog: &Catalog) -> bool
    ensures { IsTrue result ↔ AreUnbuilt catalog.now }
{
    are_unbuilt(catalog.as_slice())
}
