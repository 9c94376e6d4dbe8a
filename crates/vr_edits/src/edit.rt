//! What one command changes in a catalog.

use vr_catalog::CatEntry;
use vr_types::Items;

/// What ALTER, DELETE, or a DEFINE of an alternate index or a path, changes in a catalog (Access
/// Method Services Commands): all of it is one unit of recovery.
#[derive(Drop)]
pub enum CatalogEdit {
    /// ALTER of FREESPACE or SHAREOPTIONS: the entry, and what it is to be.
    Alter { entry: CatEntry, new: CatEntry },
    /// ALTER with NEWNAME: the entry, and what it is to be under its other name.
    Rename { entry: CatEntry, new: CatEntry },
    /// DELETE: the entries that go, in the order of their names.
    Delete(Items<CatEntry>),
    /// DEFINE of an alternate index that isn't built yet, or of a path: the entry, which has no area.
    Add(CatEntry),
}
