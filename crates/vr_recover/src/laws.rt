//! Laws of what opening begins with: each is the contract of a function that does nothing.
ghost use Rattle.std.specs.Prelude.{◌≡◌, ◌+◌, ◌<◌, ◌≤◌, [], ℕ, List, All, None, Some, length};
ghost use Rattle.std.specs.Prelude.{slice_set};
ghost use Rattle.vr_types.specs.Blocks.{AllForced};
ghost use Rattle.vr_types.specs.Content.{Ascends, Content};
ghost use Rattle.vr_types.specs.Geometry.{IsAllowed};
ghost use Rattle.vr_types.specs.Fields.{AreZeros};
ghost use Rattle.vr_types.specs.Image.{Block, Image, block_at};
ghost use Rattle.vr_types.specs.declared.geometry.Geometry.{Geometry};
ghost use Rattle.vr_types.specs.declared.unit.Unit.{Unit as UnitOfRecovery};
ghost use Rattle.vr_catalog.specs.Catalog.{entries_in};
ghost use Rattle.vr_space.specs.Part.{Shape, part_no};
ghost use Rattle.vr_history.specs.State.{BeforeImage, State};
ghost use Rattle.vr_log.specs.Content.{Content as LogContent};
ghost use Rattle.vr_log.specs.LogNow.{IsOf, last_index, made};
ghost use Rattle.vr_log.specs.Records.{bytes_of};
ghost use Rattle.vr_log.specs.Spells.{Spells};
ghost use Rattle.vr_log.specs.Standing.{InLog, LogStands};
ghost use Rattle.vr_volume.specs.Crashes.{RecoversTo, committed_with};
ghost use Rattle.vr_volume.specs.Laid.{shape_by};
ghost use Rattle.vr_volume.specs.PutBack.{images_of};
ghost use Rattle.vr_volume.specs.Safe.{IsSafe};
ghost use Rattle.vr_volume.specs.Volume.{Recovers, shapes_by};
ghost use Rattle.vr_recover.specs.Addresses.{HasItem, IsSettledIn, IsSettledAt};
ghost use Rattle.vr_recover.specs.Opening.{HasContents, IsVolume};
ghost use Rattle.vr_recover.specs.Opens.{AreServed, MayBeOpened};
ghost use Rattle.vr_recover.specs.Recovered.{AreBackOf, KeepsAll, standing_all};
ghost use Rattle.vr_recover.specs.Undone.{IsCovered, IsOpenedPart, IsSettled, alike};

use vr_types::Blocks;

/// What opening begins with: where a crash leaves what is read alone, and the blocks that are read
/// recover to the records of some contents, which they have with the before-images put back, the
/// volume is safe, with its log, and with these contents committed, what was withdrawn too.
pub fn settled_is_safe<B: Blocks>(blocks: &B)
    ensures { (geometry : Geometry) (number : ℕ) (contents : ℕ → Content)
        (is : Recovers geometry number (B.seen blocks.now).cur (standing_all contents))
        → AreBackOf geometry is.log.records contents (B.seen blocks.now).cur
        → ((part : ℕ) → Ascends (contents part))
        → ((part : ℕ) → shape_by geometry (contents 0) part ≡ None → contents part ≡ [])
        → IsAllowed geometry → IsOf geometry (B.seen blocks.now)
        → AllForced (B.seen blocks.now).count (B.seen blocks.now).cur (B.seen blocks.now).may
        → LogStands (made geometry is.log) (B.seen blocks.now)
        → IsSafe geometry number is.stands.owners (made geometry is.log) (alike contents)
        (B.seen blocks.now) }
{}

/// Each part that it lays may then be opened: its blocks are there, it is at rest, and has room for its
/// before-images, each of which may be put back.
pub fn settled_part_is_opened<B: Blocks>(blocks: &B)
    ensures { (geometry : Geometry) (number : ℕ) (recovered : ℕ → Content)
        (is : Recovers geometry number (B.seen blocks.now).cur recovered)
        → IsOf geometry (B.seen blocks.now)
        → AllForced (B.seen blocks.now).count (B.seen blocks.now).cur (B.seen blocks.now).may
        → (shape : Shape)
        → shapes_by geometry is.log is.contents (part_no shape).0 ≡ Some shape
        → IsOpenedPart geometry is.stands.owners (images_of is.log.records) shape
        (B.seen blocks.now) }
{}

/// And its units of recovery may be undone, by parts of which each before-image has one: whose
/// records it recovers to, the contents of its blocks with the before-images put back.
pub fn settled_may_be_undone<B: Blocks>(blocks: &B)
    ensures { (geometry : Geometry) (number : ℕ) (contents : ℕ → Content)
        (is : Recovers geometry number (B.seen blocks.now).cur (standing_all contents))
        → AreBackOf geometry is.log.records contents (B.seen blocks.now).cur
        → ((part : ℕ) → Ascends (contents part))
        → ((part : ℕ) → shape_by geometry (contents 0) part ≡ None → contents part ≡ [])
        → IsAllowed geometry → IsOf geometry (B.seen blocks.now)
        → AllForced (B.seen blocks.now).count (B.seen blocks.now).cur (B.seen blocks.now).may
        → LogStands (made geometry is.log) (B.seen blocks.now) → (shapes : List Shape)
        → All (λ shape. shapes_by geometry is.log is.contents (part_no shape).0 ≡ Some shape) shapes
        → All (IsCovered shapes) (images_of is.log.records)
        → IsSettled number is.stands.owners (made geometry is.log) contents shapes
        (B.seen blocks.now) }
{}

/// A block past the last one of a log may become zeros, as opening makes those that an earlier log
/// left: the blocks spell the same log.
pub fn cleared_log_stays()
    ensures { (geometry : Geometry) (image : Image) (content : LogContent) (index : ℕ)
        (zeros : Block) → IsAllowed geometry
        → ((n : ℕ) → InLog geometry n → length (block_at image n) ≡ geometry.size)
        → last_index geometry (bytes_of content.records) < index → index < geometry.log
        → AreZeros zeros → 8 ≤ length zeros → 1 + index < length image
        → Spells geometry image content
        → Spells geometry (slice_set image (1 + index) zeros) content }
{}

/// What is settled as a crash comes is an item of what is opened next, standing or withdrawn: a
/// record that is committed, or one that was withdrawn and that no live unit has logged (`crash`).
/// And where another crash comes while a volume is opened, so is a record of the contents that it is
/// opened with, and of what was withdrawn each item for which its log had no before-image (`opening`).
pub fn items_outlive_crashes<B: Blocks>()
    ensures crash { (geometry : Geometry) (number : ℕ) (state : State)
        (counted : List UnitOfRecovery) (contents : ℕ → Content) (blocks : B)
        → RecoversTo geometry number state counted (B.seen blocks).cur
        → HasContents number geometry contents (B.seen blocks) → (part : ℕ) (place : List ℕ)
        → IsSettledAt counted state part place → HasItem (contents part) place }
    ensures opening { (geometry : Geometry) (number : ℕ) (images : List BeforeImage)
        (contents later : ℕ → Content) (blocks : B)
        → KeepsAll geometry number images contents (B.seen blocks).cur
        → HasContents number geometry later (B.seen blocks) → (part : ℕ) (place : List ℕ)
        → IsSettledIn images contents part place → HasItem (later part) place }
{}

/// Each image opens: blocks that are those of a volume, and recover to contents whose catalog is
/// served, are refused for nothing that they have, only where memory runs out or the device fails
/// (`volume`). So are those that a crash leaves of a volume while it runs, where the catalog
/// that is committed in its state is served (`crash`).
pub fn each_image_opens<B: Blocks>()
    ensures volume { (geometry : Geometry) (number : ℕ) (contents : ℕ → Content) (blocks : B)
        → IsVolume number geometry contents (B.seen blocks)
        → AreServed geometry (entries_in (contents 0)) → MayBeOpened number (B.seen blocks) }
    ensures crash { (geometry : Geometry) (number : ℕ) (state : State)
        (counted : List UnitOfRecovery) (blocks : B) → IsAllowed geometry
        → IsOf geometry (B.seen blocks)
        → RecoversTo geometry number state counted (B.seen blocks).cur
        → AreServed geometry (entries_in (committed_with counted state 0))
        → MayBeOpened number (B.seen blocks) }
{}
