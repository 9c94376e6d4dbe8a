//! The opening of a volume for a run.
ghost use Rattle.std.specs.Prelude.{◌≡◌, ◌⊎◌, [], ℕ, IfErr, IfOk, IsTrue, None, OnOk, map};
ghost use Rattle.vr_types.specs.Blocks.{Keeps};
ghost use Rattle.vr_types.specs.Content.{Content};
ghost use Rattle.vr_types.specs.Moments.{Guards};
ghost use Rattle.vr_types.specs.Seen.{Left};
ghost use Rattle.vr_types.specs.declared.geometry.Geometry.{Geometry as VolumeShape};
ghost use Rattle.vr_attach.specs.Owning.{owner_of};
ghost use Rattle.vr_catalog.specs.Catalog.{entries_in};
ghost use Rattle.vr_event.specs.Opening.{IsOpened as IsOpenedWith, owned_in};
ghost use Rattle.vr_event.specs.Volume.{IsWhole, OwnLaid};
ghost use Rattle.vr_history.specs.State.{opening_state};
ghost use Rattle.vr_volume.specs.Volume.{Recovers};
ghost use Rattle.vr_recover.specs.Opening.{HasContents, IsHandedOut, IsLeftOpening, IsNoVolume};
ghost use Rattle.vr_recover.specs.Opening.{IsOpened, IsVolume};
ghost use Rattle.vr_job.specs.Going.{HasRun};
ghost use Rattle.vr_job.specs.OpenEnds as ends;
ghost use Rattle.vr_job.specs.OpenEnds.{HasEndCause, IsOpenEnd, IsOpenLine, NeverFall};
ghost use Rattle.vr_job.specs.OpenEnds.{SaysOfBlocks};
ghost use Rattle.vr_job.specs.Opened.{IsOpenHeld, IsReady, IsReadyFrom, laid_now, opened_now};

use crate::numbering::{Ready, number_parts};
use std::alloc::Global;
use vr_event::Volume;
use vr_part::AnyPart;
use vr_recover::{OpenNo, Opened, Unserved, open_volume};
use vr_trace::EndLine;
use vr_types::Blocks;

/// The rule by which the line of a job shows what isn't served: 17 at the catalog's head.
fn unserved_rule(cause: Unserved) -> u32
    ensures { result ≡ ends.unserved_rule cause }
{
    match cause {
        Unserved::BuiltIndex | Unserved::LongRecord => 17,
    }
}

/// How a job ends whose volume of this number is not opened.
fn open_line(number: u32, no: OpenNo) -> EndLine
    ensures { result ≡ ends.open_line number no }
{
    match no {
        OpenNo::Damaged { block, rule } => EndLine::Damaged {
            volume: number,
            block,
            rule,
        },
        OpenNo::Version { found } => EndLine::Version {
            volume: number,
            version: found,
        },
        OpenNo::Unserved { block, cause } => EndLine::Damaged {
            volume: number,
            block,
            rule: unserved_rule(cause),
        },
        OpenNo::Read | OpenNo::Write => EndLine::DeviceFault { volume: number },
        OpenNo::Memory => EndLine::NoMemory,
    }
}

/// Opens the volume of this number, on this many blocks.
fn open_whole<B: Blocks>(
    alloc: Global,
    blocks: &mut B,
    count: u32,
    number: u32,
) -> Result<Opened, EndLine>
    requires { (B.seen blocks.old).count ≡ count }
    ensures handed { IfOk result (λ opened. IsHandedOut opened.geometry opened.catalog.value
        opened.parts.items opened.log opened.space (B.seen blocks.new)) }
    ensures opened { IsTrue B.tells → IfOk result (λ opened. IsOpened number opened.geometry
        opened.catalog.value opened.parts.items opened.log opened.space (B.seen blocks.old)
        (B.seen blocks.new)) }
    ensures any_moment { IsTrue B.tells → (geometry : VolumeShape) (contents : ℕ → Content)
        → IsVolume number geometry contents (B.seen blocks.old)
        → Guards (B.seen blocks.old) (B.seen blocks.new) (λ image.
        Left (B.seen blocks.old) image ⊎ Recovers geometry number image contents) }
    ensures items { IsTrue B.tells → (geometry : VolumeShape) (contents : ℕ → Content)
        → (has : HasContents number geometry contents (B.seen blocks.old))
        → Guards (B.seen blocks.old) (B.seen blocks.new)
        (IsLeftOpening number geometry contents (B.seen blocks.old) has) }
    ensures line { IfErr result (IsOpenLine number) }
    ensures refused { IsTrue B.tells → IfErr result (IsOpenEnd number (B.seen blocks.old)) }
    ensures kept { IfErr result (λ end. SaysOfBlocks number end
        → Keeps B.tells (B.seen blocks.old) (B.seen blocks.new)) }
    ensures unwritten { IsTrue B.tells → IsNoVolume number (B.seen blocks.old)
        → IfErr result (λ end. Keeps B.tells (B.seen blocks.old) (B.seen blocks.new)) }
    ensures faults { NeverFall (B.faults blocks.old) (B.faults blocks.new) }
    ensures quiet { OnOk result (B.faults blocks.new ≡ B.faults blocks.old) }
    ensures cause { IfErr result
        (HasEndCause number (B.faults blocks.old) (B.faults blocks.new)) }
{
    match open_volume(alloc, blocks, count, number) {
        Ok(opened) => Ok(opened),
        Err(no) => Err(open_line(number, no)),
    }
}

/// Opens the volume of this number, on this many blocks, and numbers its parts.
fn open_parts<B: Blocks>(
    alloc: Global,
    blocks: &mut B,
    count: u32,
    number: u32,
) -> Result<Box<Ready>, EndLine>
    requires { (B.seen blocks.old).count ≡ count }
    ensures ready { IfOk result (λ made. IsReady made.value.geometry made.value.catalog.value
        (map laid_now made.value.parts.items) made.value.log made.value.space
        (B.seen blocks.new)) }
    ensures from { IsTrue B.tells → IfOk result (λ made. (contents : ℕ → Content)
        × IsReadyFrom number made.value.geometry made.value.catalog.value
        (map laid_now made.value.parts.items) made.value.log made.value.space contents
        (B.seen blocks.old) (B.seen blocks.new)) }
    ensures any_moment { IsTrue B.tells → (geometry : VolumeShape) (contents : ℕ → Content)
        → IsVolume number geometry contents (B.seen blocks.old)
        → Guards (B.seen blocks.old) (B.seen blocks.new) (λ image.
        Left (B.seen blocks.old) image ⊎ Recovers geometry number image contents) }
    ensures items { IsTrue B.tells → (geometry : VolumeShape) (contents : ℕ → Content)
        → (has : HasContents number geometry contents (B.seen blocks.old))
        → Guards (B.seen blocks.old) (B.seen blocks.new)
        (IsLeftOpening number geometry contents (B.seen blocks.old) has) }
    ensures line { IfErr result (IsOpenLine number) }
    ensures refused { IsTrue B.tells → IfErr result (IsOpenEnd number (B.seen blocks.old)) }
    ensures kept { IfErr result (λ end. SaysOfBlocks number end
        → Keeps B.tells (B.seen blocks.old) (B.seen blocks.new)) }
    ensures unwritten { IsTrue B.tells → IsNoVolume number (B.seen blocks.old)
        → IfErr result (λ end. Keeps B.tells (B.seen blocks.old) (B.seen blocks.new)) }
    ensures faults { NeverFall (B.faults blocks.old) (B.faults blocks.new) }
    ensures quiet { OnOk result (B.faults blocks.new ≡ B.faults blocks.old) }
    ensures cause { IfErr result
        (HasEndCause number (B.faults blocks.old) (B.faults blocks.new)) }
{
    let opened = open_whole(alloc, blocks, count, number)?;
    let found = number_parts(alloc, opened)?;
    Ok(found)
}

/// The volume of these blocks, of what was opened on them.
fn made<B: Blocks>(alloc: Global, blocks: B, number: u32, found: Box<Ready>) -> Volume<B, AnyPart>
    requires ready { IsReady found.value.geometry found.value.catalog.value
        (map laid_now found.value.parts.items) found.value.log found.value.space (B.seen blocks) }
    ensures whole { IsWhole B.seen result }
    ensures run { IsTrue B.tells → (contents : ℕ → Content)
        → found.value.catalog.value ≡ entries_in (contents 0)
        → OwnLaid found.value.geometry found.value.catalog.value found.value.space
        → IsOpenedWith number (owner_of found.value.log.geometry found.value.space)
        found.value.log (map laid_now found.value.parts.items) contents (B.seen blocks)
        → HasRun B.seen B.faults (opening_state contents (owned_in found.value.space)) blocks
        result }
    ensures blocks { result.blocks ≡ blocks }
    ensures number { result.number ≡ number }
    ensures geometry { result.file.geometry ≡ found.value.geometry }
    ensures catalog { result.file.catalog ≡ found.value.catalog.value }
    ensures entries { result.file.entries ≡ [] }
    ensures stopped { result.file.stopped ≡ None }
{
    let Ready {
        geometry,
        catalog,
        parts,
        log,
        space,
    } = Box::into_inner(found);
    let catalog = Box::into_inner(catalog);
    Volume::new(alloc, blocks, number, geometry, catalog, parts, log, space)
}

/// Opens the volume of this number, on this many blocks, for a run of the decks of a job. `Err` says
/// how the job ends and hands the blocks back: `Damaged` or `Version` where they are those of no
/// volume of that number (the block that breaks a rule and the rule, or the version that block 0
/// states), or have what isn't served (the block that has it, with the rule 2 or 17), and then
/// nothing was put; `DeviceFault` where the device failed; `NoMemory` where memory ran out.
pub fn open<B: Blocks + Drop>(
    alloc: Global,
    mut blocks: B,
    count: u32,
    number: u32,
) -> Result<Volume<B, AnyPart>, (B, EndLine)>
    requires { (B.seen blocks).count ≡ count }
    ensures whole { IfOk result (IsWhole B.seen) }
    ensures begins { IfOk result (λ volume. volume.file.entries ≡ []) }
    ensures number { IfOk result (λ volume. volume.number ≡ number) }
    ensures going { IfOk result (λ volume. volume.file.stopped ≡ None) }
    // It is held from its opening, with what the blocks had; and each image that a crash may leave
    // of it recovers to the records of that.
    ensures held { IsTrue B.tells
        → IfOk result (IsOpenHeld B.seen B.faults number (B.seen blocks)) }
    // In every image of every moment, whether it is opened or not; and what was withdrawn stays so.
    ensures items { IsTrue B.tells → (geometry : VolumeShape) (contents : ℕ → Content)
        → (has : HasContents number geometry contents (B.seen blocks))
        → IfOk result (λ volume. Guards (B.seen blocks) (B.seen volume.blocks)
        (IsLeftOpening number geometry contents (B.seen blocks) has)) }
    ensures items_back { IsTrue B.tells → (geometry : VolumeShape) (contents : ℕ → Content)
        → (has : HasContents number geometry contents (B.seen blocks))
        → IfErr result (λ back. Guards (B.seen blocks) (B.seen back.0)
        (IsLeftOpening number geometry contents (B.seen blocks) has)) }
    ensures any_moment_back { IsTrue B.tells → (geometry : VolumeShape) (contents : ℕ → Content)
        → IsVolume number geometry contents (B.seen blocks)
        → IfErr result (λ back. Guards (B.seen blocks) (B.seen back.0) (λ image.
        Left (B.seen blocks) image ⊎ Recovers geometry number image contents)) }
    ensures line { IfErr result (λ back. IsOpenLine number back.1) }
    ensures refused { IsTrue B.tells → IfErr result (λ back.
        IsOpenEnd number (B.seen blocks) back.1) }
    // Blocks that are refused for what they are were left as they were.
    ensures kept { IfErr result (λ back. SaysOfBlocks number back.1
        → Keeps B.tells (B.seen blocks) (B.seen back.0)) }
    // What is no volume of this number is never written, whatever the line.
    ensures unwritten { IsTrue B.tells → IsNoVolume number (B.seen blocks)
        → IfErr result (λ back. Keeps B.tells (B.seen blocks) (B.seen back.0)) }
    ensures faults { IfOk result (λ volume.
        NeverFall (B.faults blocks) (B.faults volume.blocks)) }
    // No fault is hidden: a volume is opened only where none came.
    ensures quiet { IfOk result (λ volume. B.faults volume.blocks ≡ B.faults blocks) }
    ensures faults_back { IfErr result (λ back. NeverFall (B.faults blocks) (B.faults back.0)) }
    ensures cause { IfErr result (λ back.
        HasEndCause number (B.faults blocks) (B.faults back.0) back.1) }
{
    match open_parts(alloc, &mut blocks, count, number) {
        Ok(found) => Ok(made(alloc, blocks, number, found)),
        Err(end) => Err((blocks, end)),
    }
}
