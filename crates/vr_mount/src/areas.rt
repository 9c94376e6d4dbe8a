//! The areas in which the parts of a catalog are.
ghost use Rattle.std.specs.Prelude.{◌≡◌, ◌↔◌, ◌<◌, ◌∷◌, IsTrue, IfOk, All, Some, length, nat_eq};
ghost use Rattle.std.specs.Prelude.{set};
ghost use Rattle.std.specs.List.{IsDistinct, fold};
ghost use Rattle.vr_types.specs.Geometry.{IsAllowed};
ghost use Rattle.vr_types.specs.declared.geometry.Geometry.{Geometry as VolumeShape};
ghost use Rattle.vr_catalog.specs.Catalog.{parts_in};
ghost use Rattle.vr_catalog.specs.Definition.{catalog_definition as definition_of_catalog};
ghost use Rattle.vr_attach.specs.Laid.{AreApart, keyed_part, shape_in};
ghost use Rattle.vr_mount.specs.Areas.{AreFirstOwners, AreOn, IsBelow, catalog_part, part_of};
ghost use Rattle.vr_mount.specs.Marks.{marked};
ghost use Rattle.vr_mount.specs.Numbers.{laid_area as area_of};

use crate::distinct::{Which, are_told_apart, laid_area};
use std::alloc::Global;
use vr_attach::layout_of;
use vr_catalog::{CatEntry, Catalog, catalog_definition};
use vr_space::KeyedLayout;
use vr_types::{AreaNo, Geometry, OutOfMemory, PartNo, Space, space};

/// Where the catalog's own part is: its first area is area 0.
pub fn catalog_layout(geometry: &Geometry) -> KeyedLayout
    requires { IsAllowed geometry.now }
    ensures { result ≡ keyed_part geometry.now 0 0 definition_of_catalog }
{
    layout_of(*geometry, PartNo(0), 0, &catalog_definition())
}

/// Whether no block is in the first areas of two of the parts that a catalog lays: no two of its
/// clusters have the same first area, and none has area 0, which is the catalog's own.
pub fn are_apart(catalog: &Catalog) -> bool
    requires { IsDistinct nat_eq (0 ∷ parts_in catalog.now) }
    ensures { (geometry : VolumeShape)
        → (IsTrue result ↔ AreApart (shape_in geometry catalog.now)) }
{
    are_told_apart(catalog.as_slice(), Which::Area)
}

/// Whether the area that an entry lays, if it lays one, is below this number of areas.
fn is_below(entry: &CatEntry, areas: u32) -> bool
    ensures { IsTrue result ↔ IsBelow areas entry.now }
{
    match laid_area(entry) {
        None => true,
        Some(area) => area < areas,
    }
}

fn are_below(entries: &[CatEntry], areas: u32) -> bool
    ensures { IsTrue result ↔ All (IsBelow areas) entries.now }
{
    entries.iter().all(|entry| is_below(entry, areas))
}

/// Whether the first area of each part that a catalog lays is one of the volume, and so on blocks of
/// it.
pub fn are_on(geometry: &Geometry, catalog: &Catalog) -> bool
    requires { IsDistinct nat_eq (0 ∷ parts_in catalog.now) }
    ensures { IsTrue result ↔ AreOn geometry.now catalog.now }
{
    let areas = geometry.areas();
    0 < areas && are_below(catalog.as_slice(), areas)
}

/// Marks the area that an entry lays as owned by its part.
fn mark_one(owners: &mut Space, entry: &CatEntry)
    requires { IsBelow (length owners.old) entry.now }
    ensures { owners.new ≡ marked area_of part_of owners.old entry.now }
{
    if let Some(area) = laid_area(entry) {
        owners.mark(AreaNo(area), entry.part);
    }
}

/// Marks the area that each entry lays as its part's.
fn mark_each(owners: &mut Space, entries: &[CatEntry])
    requires { All (IsBelow (length owners.old)) entries.now }
    ensures { owners.new ≡ fold (marked area_of part_of) owners.old entries.now }
{
    for entry in entries {
        mark_one(owners, entry);
    }
}

/// Marks area 0 as the catalog's own, and then those of the entries.
fn mark_parts(owners: &mut Space, entries: &[CatEntry])
    requires some { 0 < length owners.old }
    requires below { All (IsBelow (length owners.old)) entries.now }
    ensures { owners.new
        ≡ fold (marked area_of part_of) (set owners.old 0 (Some catalog_part)) entries.now }
{
    owners.mark(AreaNo(0), PartNo(0));
    mark_each(owners, entries);
}

/// Who owns each area of a volume before the chains of areas are walked over: the part whose first
/// area the catalog says that it is, or none. It fails only if memory runs out.
pub fn owners_of(
    alloc: Global,
    geometry: &Geometry,
    catalog: &Catalog,
) -> Result<Space, OutOfMemory>
    requires parts { IsDistinct nat_eq (0 ∷ parts_in catalog.now) }
    requires apart { AreApart (shape_in geometry.now catalog.now) }
    requires on { AreOn geometry.now catalog.now }
    ensures { IfOk result (AreFirstOwners geometry.now catalog.now) }
{
    let mut owners = space(alloc, geometry.areas())?;
    mark_parts(&mut owners, catalog.as_slice());
    Ok(owners)
}
