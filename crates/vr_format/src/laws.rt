//! Laws of what formatting leaves: each is the contract of a function that does nothing.
ghost use Rattle.std.specs.Prelude.{ℕ, All, List, Option, []};
ghost use Rattle.vr_types.specs.Geometry.{IsAllowed};
ghost use Rattle.vr_types.specs.Image.{Image};
ghost use Rattle.vr_types.specs.declared.geometry.Geometry.{Geometry};
ghost use Rattle.vr_types.specs.declared.unit.PartNo.{PartNo};
ghost use Rattle.vr_catalog.specs.Catalog.{entries_in};
ghost use Rattle.vr_catalog.specs.declared.entry.CatEntry.{CatEntry};
ghost use Rattle.vr_attach.specs.Owning.{owner_of};
ghost use Rattle.vr_mount.specs.Areas.{AreOwners};
ghost use Rattle.vr_volume.specs.Safe.{IsImageSafe};
ghost use Rattle.vr_volume.specs.Volume.{Recovers};
ghost use Rattle.vr_format.specs.Fit.{AreTaken};
ghost use Rattle.vr_format.specs.Formatted.{IsFormatted, IsPlainCluster, catalog_of, contents_of};
ghost use Rattle.vr_format.specs.Formatted.{first_entries};

/// What was formatted is safe, with a log of no records and no generation yet: off the places of
/// before-images, of which there are none, it has what is committed, each part in its own blocks.
/// Each owns its one area, and each other area is free.
pub fn formatted_is_safe()
    ensures { (geometry : Geometry) (number : ℕ) (entries : List CatEntry) (image : Image)
        → IsFormatted geometry number entries image
        → (owners : List (Option PartNo))
        × AreOwners geometry (entries_in (catalog_of entries)) image owners
        × IsImageSafe geometry number (owner_of geometry owners)
        (record { generation = 0; records = [] }) (contents_of entries) image }
{}

/// And it recovers to the records of its entries in the catalog, and to nothing in each other part.
/// Each of its parts is on blocks that the volume has, and it has no before-image to put back.
pub fn formatted_recovers()
    ensures { (geometry : Geometry) (number : ℕ) (entries : List CatEntry) (image : Image)
        → IsFormatted geometry number entries image
        → Recovers geometry number image (contents_of entries) }
{}

/// And its catalog has clusters alone, whose longest records have room in an interval: that of a new
/// volume (`new`), and that of one that was formatted with entries, as these clusters (`entries`).
/// An opening refuses no such catalog.
pub fn formatted_is_plain()
    ensures new { (geometry : Geometry) (number : ℕ) → IsAllowed geometry
        → All (IsPlainCluster geometry) (entries_in (catalog_of (first_entries number))) }
    ensures entries { (geometry : Geometry) (entries clusters : List CatEntry)
        → AreTaken geometry entries clusters
        → All (IsPlainCluster geometry) (entries_in (catalog_of clusters)) }
{}
