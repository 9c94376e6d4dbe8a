//! What a volume that is opened has: its parts, its before-images, and who owns its areas.
ghost use Rattle.std.specs.Prelude.{◌≡◌, ◌↔◌, [], ℕ, All, IsTrue, IfErr, IfOk, OnOk, false, map};
ghost use Rattle.vr_types.specs.Blocks.{Keeps};
ghost use Rattle.vr_types.specs.Geometry.{IsAllowed};
ghost use Rattle.vr_types.specs.Image.{block_at};
ghost use Rattle.vr_attach.specs.Header.{header_block};
ghost use Rattle.vr_log.specs.LogNow.{IsOf, made};
ghost use Rattle.vr_log.specs.Spells.{Spells};
ghost use Rattle.vr_part.specs.Any.{shape_any};
ghost use Rattle.vr_space.specs.Part.{IsOn};
ghost use Rattle.vr_undo.specs.Records.{images_in};
ghost use Rattle.vr_volume.specs.PutBack.{AreAlone, images_of};
ghost use Rattle.vr_recover.specs.Found.{
  AllStand,
  AreItsPlaces,
  AreKnown,
  HasRoomOf,
  IsBackNo,
  IsFound,
  IsPlanned,
  MayGoBack,
  ShowsOnly,
};
ghost use Rattle.vr_recover.specs.OpenNo.{HasOpenCause, IsSilentNo};
ghost use Rattle.vr_recover.specs.Opening.{AreOwnersBy, HasNoSplit, IsRefused};

use crate::begun::Begun;
use crate::imaging::{keep_all, may_go_back};
use crate::mounted::mount;
use crate::open_no::{OpenNo, cannot_go_back};
use crate::rooming::have_room;
use std::alloc::Global;
use vr_catalog::Catalog;
use vr_log::{LogRecord, UndoLog};
use vr_part::AnyPart;
use vr_types::{Blocks, Geometry, Space};
use vr_undo::Undo;

/// What a volume has beside its parts: its catalog, the before-images that its log has of live
/// units, and the owners of its areas.
#[derive(Drop)]
pub(crate) struct Found {
    pub(crate) catalog: Box<Catalog>,
    pub(crate) undo: Box<Undo>,
    pub(crate) space: Space,
}

/// The before-images that a log has of live units, each the only one of its place. `records` are
/// those of the log.
fn kept_of(alloc: Global, log: &UndoLog, records: &[LogRecord]) -> Result<Box<Undo>, OpenNo>
    requires sound { log.now.broken ≡ false }
    requires records { records.now ≡ log.now.records }
    requires alone { AreAlone (images_of log.now.records) }
    ensures kept { IfOk result (λ undo. images_in undo.value ≡ images_of log.now.records) }
    ensures memory { IfErr result (λ no. no ≡ OpenNo.Memory) }
{
    let mut undo = Undo::new(alloc);
    keep_all(log, records, &mut undo)?;
    match Box::new(alloc, undo) {
        Ok(undo) => Ok(undo),
        Err(_) => Err(OpenNo::Memory),
    }
}

/// Whether each part has room for the before-images that a log has of live units, which are these.
fn has_rooms<B: Blocks>(
    blocks: &mut B,
    log: &UndoLog,
    parts: &mut [AnyPart],
    undo: &Undo,
) -> Result<bool, OpenNo>
    requires sound { log.now.broken ≡ false }
    requires kept { images_in undo.now ≡ images_of log.now.records }
    requires on { All (λ shape. IsOn shape (B.seen blocks.old)) (map shape_any parts.old) }
    requires places { All (AreItsPlaces (images_in undo.now)) (map shape_any parts.old) }
    requires stand { IsTrue B.tells
        → AllStand (map shape_any parts.old) (B.seen blocks.old).cur }
    requires known { IsTrue B.tells → AreKnown parts.old (B.seen blocks.old).cur }
    ensures room { IsTrue B.tells → IfOk result (λ are. IsTrue are
        ↔ All (HasRoomOf (images_in undo.now) (B.seen blocks.old).cur)
        (map shape_any parts.old)) }
    ensures same { parts.new ≡ parts.old }
    ensures silent { IfErr result IsSilentNo }
    ensures keeps { Keeps B.tells (B.seen blocks.old) (B.seen blocks.new) }
    ensures cause { HasOpenCause (B.faults blocks.old) (B.faults blocks.new) result }
{
    if log.live() == 0 {
        return Ok(true);
    }
    have_room(blocks, parts, undo)
}

/// The before-images that the log has of live units, which may be put back into these parts. The
/// parts stay as they are.
fn images_to_undo<B: Blocks>(
    alloc: Global,
    blocks: &mut B,
    begun: &Begun,
    parts: &mut [AnyPart],
) -> Result<Box<Undo>, OpenNo>
    requires sound { begun.now.log.broken ≡ false }
    requires records { begun.now.content.records ≡ begun.now.log.records }
    requires on { All (λ shape. IsOn shape (B.seen blocks.old)) (map shape_any parts.old) }
    requires stand { IsTrue B.tells
        → AllStand (map shape_any parts.old) (B.seen blocks.old).cur }
    requires known { IsTrue B.tells → AreKnown parts.old (B.seen blocks.old).cur }
    ensures back { OnOk result
        (MayGoBack (images_of begun.now.content.records) (map shape_any parts.old)) }
    ensures kept { IfOk result (λ undo.
        images_in undo.value ≡ images_of begun.now.content.records) }
    ensures room { IsTrue B.tells → OnOk result
        (All (HasRoomOf (images_of begun.now.content.records) (B.seen blocks.old).cur)
        (map shape_any parts.old)) }
    ensures damaged { IsTrue B.tells → IfErr result (ShowsOnly
        (IsBackNo (images_of begun.now.content.records) (map shape_any parts.old)
        (B.seen blocks.old).cur)) }
    ensures same { parts.new ≡ parts.old }
    ensures keeps { Keeps B.tells (B.seen blocks.old) (B.seen blocks.new) }
    ensures cause { HasOpenCause (B.faults blocks.old) (B.faults blocks.new) result }
{
    let records = begun.content.records();
    let may = may_go_back(alloc, parts, &begun.log, records)?;
    if !may {
        return Err(cannot_go_back());
    }
    let undo = kept_of(alloc, &begun.log, records)?;
    let has = has_rooms(blocks, &begun.log, parts, &undo)?;
    if !has {
        return Err(cannot_go_back());
    }
    Ok(undo)
}

/// Finds what a volume of this shape has, whose log was read, by the catalog with its before-images put
/// back. There is no part yet.
pub(crate) fn find<B: Blocks>(
    alloc: Global,
    blocks: &mut B,
    geometry: &Geometry,
    begun: &Begun,
    parts: &mut Vec<AnyPart>,
) -> Result<Found, OpenNo>
    requires allowed { IsAllowed geometry.now }
    requires shape { IsOf geometry.now (B.seen blocks.old) }
    requires log { begun.now.log ≡ made geometry.now begun.now.content }
    requires parts { parts.old.items ≡ [] }
    ensures planned { IfOk result (λ found. IsPlanned geometry.now begun.now.content
        found.catalog.value (map shape_any parts.new.items)) }
    ensures kept { IfOk result (λ found.
        images_in found.undo.value ≡ images_of begun.now.content.records) }
    ensures split { OnOk result (All HasNoSplit parts.new.items) }
    ensures owners { IfOk result (λ found.
        AreOwnersBy geometry.now parts.new.items found.space) }
    ensures known { IsTrue B.tells
        → OnOk result (AreKnown parts.new.items (B.seen blocks.old).cur) }
    ensures found { IsTrue B.tells → (number : ℕ)
        → block_at (B.seen blocks.old).cur 0 ≡ header_block geometry.now number
        → Spells geometry.now (B.seen blocks.old).cur begun.now.content
        → IfOk result (λ found. IsFound geometry.now number begun.now.content
        found.catalog.value (map shape_any parts.new.items) found.space
        (B.seen blocks.old).cur) }
    ensures refused { IsTrue B.tells → (number : ℕ)
        → block_at (B.seen blocks.old).cur 0 ≡ header_block geometry.now number
        → Spells geometry.now (B.seen blocks.old).cur begun.now.content
        → IfErr result (IsRefused number (B.seen blocks.old)) }
    ensures keeps { Keeps B.tells (B.seen blocks.old) (B.seen blocks.new) }
    ensures cause { HasOpenCause (B.faults blocks.old) (B.faults blocks.new) result }
{
    let mounted = mount(alloc, blocks, geometry, begun, parts)?;
    let undo = images_to_undo(alloc, blocks, begun, parts)?;
    Ok(Found {
        catalog: mounted.catalog,
        undo,
        space: mounted.space,
    })
}
