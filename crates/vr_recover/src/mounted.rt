//! The catalog of a volume that is opened, and the parts that it lays.
ghost use Rattle.std.specs.Prelude.{◌≡◌, ◌∷◌, [], All, IsTrue, IfOk, IfErr, None, OnOk, false, map};
ghost use Rattle.std.specs.Prelude.{◌≢◌, ℕ, Some, length, nat_eq, slice_index_or};
ghost use Rattle.std.specs.List.{IsDistinct};
ghost use Rattle.vr_types.specs.Blocks.{Keeps};
ghost use Rattle.vr_types.specs.Geometry.{IsAllowed, area_count, head_block};
ghost use Rattle.vr_attach.specs.Laid.{AreApart, catalog_shape, shape_in};
ghost use Rattle.vr_attach.specs.Laid.{keyed_part as part_of};
ghost use Rattle.vr_catalog.specs.Catalog.{parts_in};
ghost use Rattle.vr_catalog.specs.Definition.{catalog_definition as definition_of_catalog};
ghost use Rattle.vr_edits.specs.Edits.{IsServedEntry};
ghost use Rattle.vr_keyed.specs.Attached.{IsAttachedTo};
ghost use Rattle.vr_part.specs.Any.{shape_any};
ghost use Rattle.vr_space.specs.Areas.{KnowsAreas, intervals_in};
ghost use Rattle.vr_space.specs.Part.{IsOn, KeyedShape, Stands, owned_count};
ghost use Rattle.vr_log.specs.LogNow.{IsOf};
ghost use Rattle.vr_mount.specs.Areas.{AreOn, catalog_part};
ghost use Rattle.vr_mount.specs.Listing.{AreRecords};
ghost use Rattle.vr_volume.specs.PutBack.{images_of};
ghost use Rattle.vr_recover.specs.Found.{
  AllStand,
  AreAdded,
  AreEntriesBack,
  AreEntriesBy,
  AreEntriesOf,
  AreKnown,
  HasLength,
  IsAreaNo,
  IsBackShown,
  IsEntryNo,
  IsFirstAlone,
  IsMounted,
  IsMountShown,
  IsNoneBy,
  MayAdd,
  ShowsBoth,
  ShowsOnly,
};
ghost use Rattle.vr_recover.specs.OpenNo.{HasOpenCause, IsOwnNo, IsSilentNo};
ghost use Rattle.vr_recover.specs.Opening.{AreOwnersBy, AreShapesOf, HasNoSplit};
ghost use Rattle.vr_recover.specs.Opening.{IsCatalogPartShown};
ghost use Rattle.vr_recover.specs.Opening.{IsEntryShown};
ghost use Rattle.vr_recover.specs.Unserved.{IsCatalogUnserved, IsPlain};

use crate::begun::Begun;
use crate::catalog_back::put_images;
use crate::fitting::may_put_back;
use crate::laid::{add, add_entries, by_number};
use crate::open_no::{OpenNo, Unserved, cannot_go_back};
use crate::served::{are_plain, are_unbuilt};
use std::alloc::Global;
use vr_catalog::{Catalog, catalog_definition};
use vr_keyed::Keyed;
use vr_mount::{
    ListNo, are_apart, are_on, catalog_layout, catalog_of_records, owners_of, records_of_part,
};
use vr_part::{AnyPart, attach_part};
use vr_types::{AreaNo, Blocks, Bytes, DeviceFault, Geometry, OutOfMemory, PartNo, Space, space};

/// The catalog of a volume, and who owns its areas.
#[derive(Drop)]
pub(crate) struct Mounted {
    pub(crate) catalog: Box<Catalog>,
    pub(crate) space: Space,
}

/// The rule that is shown where records are those of no catalog.
const NO_CATALOG: u32 = 17;

/// The block that is shown where the catalog isn't in order: its head.
fn catalog_head(geometry: &Geometry) -> u32
    requires { IsAllowed geometry.now }
    ensures { result ≡ head_block geometry.now 0 }
{
    geometry.head_block(0)
}

/// The records of the catalog's part.
fn list<B: Blocks>(alloc: Global, blocks: &mut B, part: &mut Keyed) -> Result<Vec<Bytes>, OpenNo>
    requires on { IsOn (KeyedShape part.old.part) (B.seen blocks.old) }
    requires key { part.old.part.key ≡ 44 }
    requires stands { IsTrue B.tells → Stands (KeyedShape part.old.part) (B.seen blocks.old).cur }
    requires knows { IsTrue B.tells
        → KnowsAreas part.old.part part.old.areas part.old.ends (B.seen blocks.old).cur }
    requires counted { IsTrue B.tells
        → part.old.intervals ≡ intervals_in part.old.part (B.seen blocks.old).cur }
    requires split { part.old.split ≡ None }
    requires moves { part.old.move ≡ None }
    requires met { part.old.met ≡ [] }
    ensures records { IsTrue B.tells → IfOk result (λ found.
        AreRecords (KeyedShape part.old.part) (B.seen blocks.old).cur found.items) }
    ensures silent { IfErr result IsSilentNo }
    ensures same { part.new ≡ part.old }
    ensures keeps { Keeps B.tells (B.seen blocks.old) (B.seen blocks.new) }
    ensures cause { HasOpenCause (B.faults blocks.old) (B.faults blocks.new) result }
{
    match records_of_part(alloc, blocks, part, 44) {
        Ok(records) => Ok(records),
        Err(ListNo::Fault(DeviceFault::Read)) => Err(OpenNo::Read),
        Err(ListNo::Fault(DeviceFault::Write)) => Err(OpenNo::Write),
        Err(ListNo::Memory) => Err(OpenNo::Memory),
    }
}

/// The catalog whose records these are, in a box.
fn boxed(alloc: Global, catalog: Catalog) -> Result<Box<Catalog>, OpenNo>
    ensures same { IfOk result (λ boxed. boxed.value ≡ catalog) }
    ensures memory { IfErr result (λ no. no ≡ OpenNo.Memory) }
{
    match Box::new(alloc, catalog) {
        Ok(boxed) => Ok(boxed),
        Err(_) => Err(OpenNo::Memory),
    }
}

/// The catalog whose records these are.
fn entries_by(alloc: Global, geometry: &Geometry, records: &[Bytes]) -> Result<Box<Catalog>, OpenNo>
    requires { IsAllowed geometry.now }
    ensures entries { IfOk result (λ catalog. AreEntriesBy geometry.now records.now catalog.value) }
    ensures parts { IfOk result (λ catalog. IsDistinct nat_eq (0 ∷ parts_in catalog.value)) }
    ensures lengths { IfOk result (λ catalog. All HasLength catalog.value) }
    ensures damaged { IfErr result (ShowsOnly (IsNoneBy geometry.now records.now)) }
    ensures own { IfErr result IsOwnNo }
{
    match catalog_of_records(alloc, geometry, records)? {
        Some(catalog) => boxed(alloc, catalog),
        None => Err(OpenNo::Damaged {
            block: catalog_head(geometry),
            rule: NO_CATALOG,
        }),
    }
}

/// The catalog whose records these are, once the before-images of its part are put back that the
/// log has of live units. Its own part is the first of the parts.
fn entries_back(
    alloc: Global,
    geometry: &Geometry,
    begun: &Begun,
    parts: &[AnyPart],
    records: &mut Vec<Bytes>,
) -> Result<Box<Catalog>, OpenNo>
    requires allowed { IsAllowed geometry.now }
    requires sound { begun.now.log.broken ≡ false }
    requires log { begun.now.content.records ≡ begun.now.log.records }
    requires first { IsFirstAlone geometry.now parts.now }
    ensures entries { IfOk result (λ catalog. AreEntriesBack geometry.now
        (images_of begun.now.content.records) records.old.items catalog.value) }
    ensures parts { IfOk result (λ catalog. IsDistinct nat_eq (0 ∷ parts_in catalog.value)) }
    ensures lengths { IfOk result (λ catalog. All HasLength catalog.value) }
    ensures damaged { IfErr result (ShowsOnly (IsBackShown geometry.now
        (images_of begun.now.content.records) records.old.items)) }
    ensures own { IfErr result IsOwnNo }
{
    let all = begun.content.records();
    if !may_put_back(&parts[0], &begun.log, all) {
        return Err(cannot_go_back());
    }
    put_images(alloc, &begun.log, all, records)?;
    entries_by(alloc, geometry, records)
}

/// Who owns the areas of a volume of which nothing is known but the catalog's first area.
fn own_area(alloc: Global, geometry: &Geometry) -> Result<Space, OutOfMemory>
    requires { IsAllowed geometry.now }
    ensures areas { IfOk result (λ space. length space ≡ area_count geometry.now) }
    ensures first { IfOk result (λ space. slice_index_or space 0 None ≡ Some catalog_part) }
    ensures others { IfOk result (λ space. (area : ℕ) → area ≢ 0
        → slice_index_or space area None ≡ None) }
    ensures alone { IfOk result (λ space. owned_count catalog_part space ≡ 1) }
{
    let mut space = space(alloc, geometry.areas())?;
    space.mark(AreaNo(0), PartNo(0));
    Ok(space)
}

/// The catalog's own part, as its blocks stand, whoever owns the areas that it leads to.
fn attach_own<B: Blocks>(
    alloc: Global,
    blocks: &mut B,
    geometry: &Geometry,
) -> Result<Keyed, OpenNo>
    requires allowed { IsAllowed geometry.now }
    requires shape { IsOf geometry.now (B.seen blocks.old) }
    ensures attached { IfOk result (IsAttachedTo (part_of geometry.now 0 0 definition_of_catalog)) }
    ensures stands { IsTrue B.tells → OnOk result
        (Stands (catalog_shape geometry.now) (B.seen blocks.old).cur) }
    ensures knows { IsTrue B.tells → IfOk result (λ own.
        KnowsAreas own.part own.areas own.ends (B.seen blocks.old).cur) }
    ensures counted { IsTrue B.tells → IfOk result (λ own.
        own.intervals ≡ intervals_in own.part (B.seen blocks.old).cur) }
    ensures damaged { IsTrue B.tells → IfErr result (ShowsOnly
        (IsCatalogPartShown geometry.now (B.seen blocks.old).cur)) }
    ensures keeps { Keeps B.tells (B.seen blocks.old) (B.seen blocks.new) }
    ensures cause { HasOpenCause (B.faults blocks.old) (B.faults blocks.new) result }
{
    let mut space = own_area(alloc, geometry)?;
    let own = Keyed::attach(alloc, blocks, catalog_layout(geometry), &mut space)?;
    Ok(own)
}

/// The records of the catalog, as the blocks of its own part have them, which is the first of the
/// parts.
fn read_records<B: Blocks>(
    alloc: Global,
    blocks: &mut B,
    geometry: &Geometry,
    parts: &mut Vec<AnyPart>,
) -> Result<Vec<Bytes>, OpenNo>
    requires allowed { IsAllowed geometry.now }
    requires shape { IsOf geometry.now (B.seen blocks.old) }
    requires parts { parts.old.items ≡ [] }
    ensures first { OnOk result (IsFirstAlone geometry.now parts.new.items) }
    ensures stands { IsTrue B.tells → OnOk result
        (Stands (catalog_shape geometry.now) (B.seen blocks.old).cur) }
    ensures records { IsTrue B.tells → IfOk result (λ records.
        AreRecords (catalog_shape geometry.now) (B.seen blocks.old).cur records.items) }
    ensures damaged { IsTrue B.tells → IfErr result (ShowsOnly
        (IsCatalogPartShown geometry.now (B.seen blocks.old).cur)) }
    ensures keeps { Keeps B.tells (B.seen blocks.old) (B.seen blocks.new) }
    ensures cause { HasOpenCause (B.faults blocks.old) (B.faults blocks.new) result }
{
    let mut own = attach_own(alloc, blocks, geometry)?;
    let records = list(alloc, blocks, &mut own)?;
    add(parts, AnyPart::Keyed(own))?;
    Ok(records)
}

/// The catalog, read from its own part, which is the first of the parts, with the before-images put
/// back that the log has of live units.
fn read_catalog<B: Blocks>(
    alloc: Global,
    blocks: &mut B,
    geometry: &Geometry,
    begun: &Begun,
    parts: &mut Vec<AnyPart>,
) -> Result<Box<Catalog>, OpenNo>
    requires allowed { IsAllowed geometry.now }
    requires shape { IsOf geometry.now (B.seen blocks.old) }
    requires sound { begun.now.log.broken ≡ false }
    requires log { begun.now.content.records ≡ begun.now.log.records }
    requires parts { parts.old.items ≡ [] }
    ensures stands { IsTrue B.tells → OnOk result
        (Stands (catalog_shape geometry.now) (B.seen blocks.old).cur) }
    ensures entries { IsTrue B.tells → IfOk result (λ catalog. AreEntriesOf geometry.now
        (images_of begun.now.content.records) (B.seen blocks.old).cur catalog.value) }
    ensures distinct { IfOk result (λ catalog. IsDistinct nat_eq (0 ∷ parts_in catalog.value)) }
    ensures lengths { IfOk result (λ catalog. All HasLength catalog.value) }
    ensures damaged { IsTrue B.tells → IfErr result (ShowsOnly (IsMountShown geometry.now
        (images_of begun.now.content.records) (B.seen blocks.old))) }
    ensures keeps { Keeps B.tells (B.seen blocks.old) (B.seen blocks.new) }
    ensures cause { HasOpenCause (B.faults blocks.old) (B.faults blocks.new) result }
{
    let mut records = read_records(alloc, blocks, geometry, parts)?;
    entries_back(alloc, geometry, begun, parts, &mut records)
}

/// What is answered of a catalog that isn't served: its head.
fn catalog_unserved(geometry: &Geometry, cause: Unserved) -> OpenNo
    requires { IsAllowed geometry.now }
    ensures { result ≡ OpenNo.Unserved (head_block geometry.now 0) cause }
{
    OpenNo::Unserved {
        block: catalog_head(geometry),
        cause,
    }
}

/// Whether each part that a catalog lays is in an area of its own, of those that there are, and
/// whether each is served.
fn check_areas(geometry: &Geometry, catalog: &Catalog) -> Result<(), OpenNo>
    requires allowed { IsAllowed geometry.now }
    requires parts { IsDistinct nat_eq (0 ∷ parts_in catalog.now) }
    ensures apart { OnOk result (AreApart (shape_in geometry.now catalog.now)) }
    ensures on { OnOk result (AreOn geometry.now catalog.now) }
    ensures served { OnOk result (All (IsServedEntry geometry.now) catalog.now) }
    ensures plain { OnOk result (All (IsPlain geometry.now) catalog.now) }
    ensures damaged { IfErr result (ShowsBoth (IsAreaNo geometry.now catalog.now)
        (IsEntryNo geometry.now catalog.now)) }
    ensures own { IfErr result IsOwnNo }
{
    if !are_on(geometry, catalog) {
        return Err(OpenNo::Damaged {
            block: catalog_head(geometry),
            rule: 3,
        });
    }
    if !are_apart(catalog) {
        return Err(OpenNo::Damaged {
            block: catalog_head(geometry),
            rule: 4,
        });
    }
    if !are_unbuilt(catalog) {
        return Err(catalog_unserved(geometry, Unserved::BuiltIndex));
    }
    if !are_plain(geometry, catalog) {
        return Err(catalog_unserved(geometry, Unserved::LongRecord));
    }
    Ok(())
}

/// Attaches the catalog's own part once more, in place of the first, now that it is known whose the
/// first area of each part is, and answers who owns the areas then: those of its chain are its own.
fn add_own<B: Blocks>(
    alloc: Global,
    blocks: &mut B,
    geometry: &Geometry,
    catalog: &Catalog,
    parts: &mut Vec<AnyPart>,
) -> Result<Space, OpenNo>
    requires allowed { IsAllowed geometry.now }
    requires shape { IsOf geometry.now (B.seen blocks.old) }
    requires may { MayAdd geometry.now catalog.now }
    requires apart { AreApart (shape_in geometry.now catalog.now) }
    ensures added { IfOk result (AreAdded geometry.now catalog.now 0 parts.new.items) }
    ensures known { IsTrue B.tells
        → OnOk result (AreKnown parts.new.items (B.seen blocks.old).cur) }
    ensures stand { IsTrue B.tells
        → OnOk result (AllStand (map shape_any parts.new.items) (B.seen blocks.old).cur) }
    ensures damaged { IsTrue B.tells → IfErr result
        (ShowsOnly (IsEntryShown geometry.now catalog.now (B.seen blocks.old))) }
    ensures keeps { Keeps B.tells (B.seen blocks.old) (B.seen blocks.new) }
    ensures cause { HasOpenCause (B.faults blocks.old) (B.faults blocks.new) result }
{
    let mut space = owners_of(alloc, geometry, catalog)?;
    parts.clear();
    let own = attach_part(
        alloc,
        blocks,
        geometry,
        PartNo(0),
        0,
        &catalog_definition(),
        &mut space,
    )?;
    add(parts, own)?;
    Ok(space)
}

/// Attaches each part that a catalog lays, its own first, in the order of their numbers, and
/// answers who owns the areas of the volume.
fn lay<B: Blocks>(
    alloc: Global,
    blocks: &mut B,
    geometry: &Geometry,
    catalog: &Catalog,
    parts: &mut Vec<AnyPart>,
) -> Result<Space, OpenNo>
    requires allowed { IsAllowed geometry.now }
    requires shape { IsOf geometry.now (B.seen blocks.old) }
    requires may { MayAdd geometry.now catalog.now }
    requires apart { AreApart (shape_in geometry.now catalog.now) }
    ensures shapes { OnOk result
        (AreShapesOf geometry.now catalog.now (map shape_any parts.new.items)) }
    ensures split { OnOk result (All HasNoSplit parts.new.items) }
    ensures owned { IfOk result (AreOwnersBy geometry.now parts.new.items) }
    ensures known { IsTrue B.tells
        → OnOk result (AreKnown parts.new.items (B.seen blocks.old).cur) }
    ensures stand { IsTrue B.tells
        → OnOk result (AllStand (map shape_any parts.new.items) (B.seen blocks.old).cur) }
    ensures damaged { IsTrue B.tells → IfErr result
        (ShowsOnly (IsEntryShown geometry.now catalog.now (B.seen blocks.old))) }
    ensures keeps { Keeps B.tells (B.seen blocks.old) (B.seen blocks.new) }
    ensures cause { HasOpenCause (B.faults blocks.old) (B.faults blocks.new) result }
{
    let mut owners = add_own(alloc, blocks, geometry, catalog, parts)?;
    let ordered = by_number(alloc, catalog.as_slice())?;
    add_entries(
        alloc,
        blocks,
        geometry,
        ordered.as_slice(),
        parts,
        &mut owners,
    )?;
    Ok(owners)
}

/// Attaches the catalog's own part, reads the catalog from it, with the before-images put back that
/// the log has of live units, and attaches each part that it lays, where all of them are served.
/// There is no part yet.
pub(crate) fn mount<B: Blocks>(
    alloc: Global,
    blocks: &mut B,
    geometry: &Geometry,
    begun: &Begun,
    parts: &mut Vec<AnyPart>,
) -> Result<Mounted, OpenNo>
    requires allowed { IsAllowed geometry.now }
    requires shape { IsOf geometry.now (B.seen blocks.old) }
    requires sound { begun.now.log.broken ≡ false }
    requires log { begun.now.content.records ≡ begun.now.log.records }
    requires parts { parts.old.items ≡ [] }
    ensures mounted { IfOk result (λ mounted. IsMounted geometry.now mounted.catalog.value
        parts.new.items mounted.space) }
    ensures entries { IsTrue B.tells → IfOk result (λ mounted. AreEntriesOf geometry.now
        (images_of begun.now.content.records) (B.seen blocks.old).cur mounted.catalog.value) }
    ensures known { IsTrue B.tells
        → OnOk result (AreKnown parts.new.items (B.seen blocks.old).cur) }
    ensures stand { IsTrue B.tells
        → OnOk result (AllStand (map shape_any parts.new.items) (B.seen blocks.old).cur) }
    ensures damaged { IsTrue B.tells → IfErr result (ShowsBoth
        (IsMountShown geometry.now (images_of begun.now.content.records) (B.seen blocks.old))
        (IsCatalogUnserved geometry.now (images_of begun.now.content.records)
        (B.seen blocks.old))) }
    ensures keeps { Keeps B.tells (B.seen blocks.old) (B.seen blocks.new) }
    ensures cause { HasOpenCause (B.faults blocks.old) (B.faults blocks.new) result }
{
    let catalog = read_catalog(alloc, blocks, geometry, begun, parts)?;
    check_areas(geometry, &catalog)?;
    let space = lay(alloc, blocks, geometry, &catalog, parts)?;
    Ok(Mounted { catalog, space })
}
