//! Opening a volume.
ghost use Rattle.std.specs.Prelude.{◌≡◌, ◌⊎◌, [], ℕ, IsTrue, IfErr, IfOk, OnOk};
ghost use Rattle.vr_types.specs.Blocks.{AllForced, Keeps};
ghost use Rattle.vr_types.specs.Content.{Content};
ghost use Rattle.vr_types.specs.Geometry.{IsAllowed};
ghost use Rattle.vr_types.specs.Image.{Image, block_at};
ghost use Rattle.vr_types.specs.Moments.{Guards};
ghost use Rattle.vr_types.specs.Seen.{Left};
ghost use Rattle.vr_types.specs.declared.geometry.Geometry.{Geometry as VolumeShape};
ghost use Rattle.vr_attach.specs.Header.{header_block};
ghost use Rattle.vr_log.specs.LogNow.{IsOf, made};
ghost use Rattle.vr_log.specs.Spells.{Spells};
ghost use Rattle.vr_volume.specs.PutBack.{images_of};
ghost use Rattle.vr_volume.specs.Volume.{Recovers};
ghost use Rattle.vr_recover.specs.Found.{IsLogFound};
ghost use Rattle.vr_recover.specs.OpenNo.{HasOpenCause, IsToldNo};
ghost use Rattle.vr_recover.specs.Opening.{HasContents, IsHandedOut, IsLeftOpening, IsNoVolume};
ghost use Rattle.vr_recover.specs.Opening.{IsOpened, IsRefused, IsVolume};
ghost use Rattle.vr_recover.specs.Recovered.{IsWhole, KeepsAll};

use crate::begun::{Begun, begin_log, read_shape};
use crate::finding::{Found, find};
use crate::open_no::OpenNo;
use crate::restoring::restore;
use crate::syncing::sync_all;
use std::alloc::Global;
use vr_catalog::Catalog;
use vr_log::UndoLog;
use vr_part::AnyPart;
use vr_types::{Blocks, Geometry, Space};

/// A volume that was opened: its shape, its catalog, the parts that it lays in the order of their
/// numbers, the catalog's own first, its log, which has no record, and who owns each area.
#[derive(Drop)]
pub struct Opened {
    pub geometry: Geometry,
    pub catalog: Box<Catalog>,
    pub parts: Vec<AnyPart>,
    pub log: UndoLog,
    pub space: Space,
}

/// Finds what a volume of this shape has, whose log was read, and makes it one without units of
/// recovery. There is no part yet. A crash leaves what is read.
fn open_log<B: Blocks>(
    alloc: Global,
    blocks: &mut B,
    geometry: &Geometry,
    begun: &mut Begun,
    parts: &mut Vec<AnyPart>,
) -> Result<Found, OpenNo>
    requires allowed { IsAllowed geometry.now }
    requires shape { IsOf geometry.now (B.seen blocks.old) }
    requires log { begun.old.log ≡ made geometry.now begun.old.content }
    requires young { IsLogFound geometry.now begun.old.content }
    requires parts { parts.old.items ≡ [] }
    requires forced { IsTrue B.tells → AllForced (B.seen blocks.old).count
        (B.seen blocks.old).cur (B.seen blocks.old).may }
    requires header { IsTrue B.tells → (number : ℕ)
        × (block_at (B.seen blocks.old).cur 0 ≡ header_block geometry.now number) }
    requires spelled { IsTrue B.tells
        → Spells geometry.now (B.seen blocks.old).cur begun.old.content }
    ensures handed { IfOk result (λ found. IsHandedOut geometry.now found.catalog.value
        parts.new.items begun.new.log found.space (B.seen blocks.new)) }
    ensures opened { IsTrue B.tells → (number : ℕ)
        → block_at (B.seen blocks.old).cur 0 ≡ header_block geometry.now number
        → IfOk result (λ found. IsOpened number geometry.now found.catalog.value
        parts.new.items begun.new.log found.space (B.seen blocks.old) (B.seen blocks.new)) }
    ensures any_moment { IsTrue B.tells → (number : ℕ) (contents : ℕ → Content)
        → IsWhole geometry.now number contents (B.seen blocks.old).cur
        → Guards (B.seen blocks.old) (B.seen blocks.new)
        (KeepsAll geometry.now number (images_of begun.old.content.records) contents) }
    ensures refused { IsTrue B.tells → (number : ℕ)
        → block_at (B.seen blocks.old).cur 0 ≡ header_block geometry.now number
        → IfErr result (IsRefused number (B.seen blocks.old)) }
    ensures kept { IfErr result (λ no. IsToldNo no
        → Keeps B.tells (B.seen blocks.old) (B.seen blocks.new)) }
    ensures unwritten { IsTrue B.tells → (number : ℕ)
        → block_at (B.seen blocks.old).cur 0 ≡ header_block geometry.now number
        → IsNoVolume number (B.seen blocks.old)
        → IfErr result (λ no. Keeps B.tells (B.seen blocks.old) (B.seen blocks.new)) }
    ensures cause { HasOpenCause (B.faults blocks.old) (B.faults blocks.new) result }
{
    let found = find(alloc, blocks, geometry, begun, parts)?;
    restore(alloc, blocks, geometry, begun, parts, &found)?;
    Ok(found)
}

/// Reads the header and the log of the volume of this number, on this many blocks, all of which it
/// forces.
fn start<B: Blocks>(
    alloc: Global,
    blocks: &mut B,
    count: u32,
    number: u32,
) -> Result<Box<Begun>, OpenNo>
    requires { (B.seen blocks.old).count ≡ count }
    ensures header { IsTrue B.tells → IfOk result (λ begun.
        block_at (B.seen blocks.old).cur 0 ≡ header_block begun.value.geometry number) }
    ensures allowed { IfOk result (λ begun. IsAllowed begun.value.geometry) }
    ensures shape { IfOk result (λ begun. IsOf begun.value.geometry (B.seen blocks.old)) }
    ensures log { IfOk result (λ begun. begun.value.log
        ≡ made begun.value.geometry begun.value.content) }
    ensures young { IfOk result (λ begun.
        IsLogFound begun.value.geometry begun.value.content) }
    ensures spelled { IsTrue B.tells → IfOk result (λ begun.
        Spells begun.value.geometry (B.seen blocks.old).cur begun.value.content) }
    ensures forced { IsTrue B.tells → OnOk result (AllForced (B.seen blocks.new).count
        (B.seen blocks.new).cur (B.seen blocks.new).may) }
    ensures refused { IsTrue B.tells → IfErr result (IsRefused number (B.seen blocks.old)) }
    ensures keeps { Keeps B.tells (B.seen blocks.old) (B.seen blocks.new) }
    ensures cause { HasOpenCause (B.faults blocks.old) (B.faults blocks.new) result }
{
    let geometry = read_shape(blocks, count, number)?;
    sync_all(alloc, blocks, count)?;
    begin_log(alloc, blocks, &geometry)
}

/// Opens the volume of this number, on this many blocks.
fn open_numbered<B: Blocks>(
    alloc: Global,
    blocks: &mut B,
    count: u32,
    number: u32,
) -> Result<Opened, OpenNo>
    requires { (B.seen blocks.old).count ≡ count }
    ensures handed { IfOk result (λ opened. IsHandedOut opened.geometry opened.catalog.value
        opened.parts.items opened.log opened.space (B.seen blocks.new)) }
    ensures opened { IsTrue B.tells → IfOk result (λ opened. IsOpened number opened.geometry
        opened.catalog.value opened.parts.items opened.log opened.space (B.seen blocks.old)
        (B.seen blocks.new)) }
    ensures any_moment { IsTrue B.tells → (geometry : VolumeShape) (contents : ℕ → Content)
        → IsAllowed geometry → IsOf geometry (B.seen blocks.old)
        → (is : IsWhole geometry number contents (B.seen blocks.old).cur)
        → Guards (B.seen blocks.old) (B.seen blocks.new) (λ image. Left (B.seen blocks.old) image
        ⊎ KeepsAll geometry number (images_of is.whole.log.records) contents image) }
    ensures refused { IsTrue B.tells → IfErr result (IsRefused number (B.seen blocks.old)) }
    ensures kept { IfErr result (λ no. IsToldNo no
        → Keeps B.tells (B.seen blocks.old) (B.seen blocks.new)) }
    ensures unwritten { IsTrue B.tells → IsNoVolume number (B.seen blocks.old)
        → IfErr result (λ no. Keeps B.tells (B.seen blocks.old) (B.seen blocks.new)) }
    ensures cause { HasOpenCause (B.faults blocks.old) (B.faults blocks.new) result }
{
    let mut begun = start(alloc, blocks, count, number)?;
    let mut parts = Vec::new(alloc);
    let geometry = begun.geometry;
    let found = open_log(alloc, blocks, &geometry, &mut begun, &mut parts)?;
    let log = Box::into_inner(begun).log;
    Ok(Opened {
        geometry,
        catalog: found.catalog,
        parts,
        log,
        space: found.space,
    })
}

/// Opens the volume of this number, on this many blocks. It forces all blocks, reads the header, the
/// log, the catalog and each part that the catalog lays, puts the before-images of units of recovery
/// back that have no end, ends these units as backed out, and begins the log again: its next
/// generation, or where it has generation 2^62 or more, anew, so that its generations never come to
/// an end (backout after a failure, DFSMStvs Planning and Operating Guide). Nothing is put before all
/// of it is found to be in order.
///
/// `Damaged`: the blocks are those of no volume of that number: a block that breaks a rule, and the
/// rule. `Version`: block 0 states another version, and so they are none. Nothing was put then.
/// `Unserved`: block 0 is the header of a volume of that number, which has what isn't served, as the
/// causes say; nothing was put then either. `Read` and `Write` are the device's, each where it counted
/// that fault in this call. `Memory`: there is no memory.
pub fn open_volume<B: Blocks>(
    alloc: Global,
    blocks: &mut B,
    count: u32,
    number: u32,
) -> Result<Opened, OpenNo>
    requires { (B.seen blocks.old).count ≡ count }
    ensures handed { IfOk result (λ opened. IsHandedOut opened.geometry opened.catalog.value
        opened.parts.items opened.log opened.space (B.seen blocks.new)) }
    ensures opened { IsTrue B.tells → IfOk result (λ opened. IsOpened number opened.geometry
        opened.catalog.value opened.parts.items opened.log opened.space (B.seen blocks.old)
        (B.seen blocks.new)) }
    // In every image of every moment, whether it fails or not.
    ensures any_moment { IsTrue B.tells → (geometry : VolumeShape) (contents : ℕ → Content)
        → IsVolume number geometry contents (B.seen blocks.old)
        → Guards (B.seen blocks.old) (B.seen blocks.new) (λ image.
        Left (B.seen blocks.old) image ⊎ Recovers geometry number image contents) }
    // And what was withdrawn stays so in them: its address isn't given again.
    ensures items { IsTrue B.tells → (geometry : VolumeShape) (contents : ℕ → Content)
        → (has : HasContents number geometry contents (B.seen blocks.old))
        → Guards (B.seen blocks.old) (B.seen blocks.new)
        (IsLeftOpening number geometry contents (B.seen blocks.old) has) }
    ensures recovers { IsTrue B.tells → (geometry : VolumeShape) (contents : ℕ → Content)
        → IsAllowed geometry → IsOf geometry (B.seen blocks.old)
        → ((image : Image) → Left (B.seen blocks.old) image
        → Recovers geometry number image contents)
        → Guards (B.seen blocks.old) (B.seen blocks.new)
        (λ image. Recovers geometry number image contents) }
    ensures refused { IsTrue B.tells → IfErr result (IsRefused number (B.seen blocks.old)) }
    ensures kept { IfErr result (λ no. IsToldNo no
        → Keeps B.tells (B.seen blocks.old) (B.seen blocks.new)) }
    // What is no volume of this number is never written, whatever the answer.
    ensures unwritten { IsTrue B.tells → IsNoVolume number (B.seen blocks.old)
        → IfErr result (λ no. Keeps B.tells (B.seen blocks.old) (B.seen blocks.new)) }
    ensures cause { HasOpenCause (B.faults blocks.old) (B.faults blocks.new) result }
{
    open_numbered(alloc, blocks, count, number)
}
