//! Making a volume that was found one without units of recovery.
ghost use Rattle.std.specs.Prelude.{◌≡◌, ◌≤◌, ◌^◌, [], ℕ, All, IsTrue, IfErr, OnOk};
ghost use Rattle.std.specs.Prelude.{false, length, map};
ghost use Rattle.vr_types.specs.Blocks.{AllForced};
ghost use Rattle.vr_types.specs.Content.{Content};
ghost use Rattle.vr_types.specs.Geometry.{IsAllowed};
ghost use Rattle.vr_types.specs.LogSpace.{log_size};
ghost use Rattle.vr_types.specs.Moments.{Guards};
ghost use Rattle.vr_types.specs.Regions.{Touches};
ghost use Rattle.vr_space.specs.Owners.{Owners};
ghost use Rattle.vr_attach.specs.Owning.{IsPastLog, owner_of};
ghost use Rattle.vr_log.specs.LogNow.{IsForced, IsOf, made};
ghost use Rattle.vr_log.specs.Records.{HasFields, bytes_of};
ghost use Rattle.vr_log.specs.Spells.{Spells};
ghost use Rattle.vr_log.specs.Standing.{InLog, IsSettled, LogStands};
ghost use Rattle.vr_part.specs.Any.{shape_any};
ghost use Rattle.vr_undo.specs.Records.{images_in};
ghost use Rattle.vr_volume.specs.PutBack.{images_of};
ghost use Rattle.vr_recover.specs.Found.{AreKnown, IsFound, IsLogFound, IsPartReady, IsPlanned};
ghost use Rattle.vr_recover.specs.Found.{IsUndoable, areas_kept};
ghost use Rattle.vr_recover.specs.OpenNo.{HasOpenCause, IsSilentNo};
ghost use Rattle.vr_recover.specs.Opening.{HasNoSplit};
ghost use Rattle.vr_recover.specs.Recovered.{IsWhole, KeepsAll};
ghost use Rattle.vr_recover.specs.Undone.{IsUndone};
ghost use Rattle.vr_recover.specs.Undone.{IsSettled as IsSettledBy};

use crate::begun::Begun;
use crate::finding::Found;
use crate::open_no::OpenNo;
use crate::undoing::undo_units;
use std::alloc::Global;
use vr_log::{LogContent, LogReadNo, clear_past};
use vr_part::AnyPart;
use vr_types::{Blocks, DeviceFault, Geometry};
use vr_undo::Undo;

/// Makes zeros of what an earlier log left past the end of this one, and forces that.
fn clear<B: Blocks>(
    alloc: Global,
    blocks: &mut B,
    geometry: &Geometry,
    content: &LogContent,
) -> Result<(), OpenNo>
    requires allowed { IsAllowed geometry.now }
    requires shape { IsOf geometry.now (B.seen blocks.old) }
    requires fields { All HasFields content.now.records }
    requires size { length (bytes_of content.now.records) ≤ log_size geometry.now }
    requires settled { IsTrue B.tells → IsSettled geometry.now (B.seen blocks.old) }
    requires spelled { IsTrue B.tells
        → Spells geometry.now (B.seen blocks.old).cur content.now }
    ensures moments { IsTrue B.tells → Touches (InLog geometry.now)
        (λ image. Spells geometry.now image content.now) (B.seen blocks.old) (B.seen blocks.new) }
    ensures spelled { IsTrue B.tells → Spells geometry.now (B.seen blocks.new).cur content.now }
    ensures stands { IsTrue B.tells → OnOk result
        (LogStands (made geometry.now content.now) (B.seen blocks.new)) }
    ensures forced { IsTrue B.tells
        → AllForced (B.seen blocks.old).count (B.seen blocks.old).cur (B.seen blocks.old).may
        → OnOk result
        (AllForced (B.seen blocks.new).count (B.seen blocks.new).cur (B.seen blocks.new).may) }
    ensures shape { IsOf geometry.now (B.seen blocks.new) }
    ensures silent { IfErr result IsSilentNo }
    ensures cause { HasOpenCause (B.faults blocks.old) (B.faults blocks.new) result }
{
    match clear_past(alloc, blocks, geometry, content) {
        Ok(()) => Ok(()),
        Err(LogReadNo::Damaged { .. }) => unreachable!("clearing finds no damage"),
        Err(LogReadNo::Fault(DeviceFault::Read)) => Err(OpenNo::Read),
        Err(LogReadNo::Fault(DeviceFault::Write)) => Err(OpenNo::Write),
        Err(LogReadNo::Memory) => Err(OpenNo::Memory),
    }
}

/// Puts the before-images of live units back, ends these units, and begins the log again. The log is
/// that of the content.
fn undo<B: Blocks>(
    alloc: Global,
    blocks: &mut B,
    count: u32,
    begun: &mut Begun,
    parts: &mut Vec<AnyPart>,
    undo: &Undo,
) -> Result<(), OpenNo>
    requires blocks { (B.seen blocks.old).count ≡ count }
    requires undoable { IsUndoable begun.old.log begun.old.content.records parts.old.items
        (images_in undo.now) (B.seen blocks.old) }
    requires stands { IsTrue B.tells → LogStands begun.old.log (B.seen blocks.old) }
    requires ready { IsTrue B.tells → (owners : Owners) × IsPastLog begun.old.log.geometry owners
        × All (IsPartReady owners (images_in undo.now) (B.seen blocks.old)) parts.old.items }
    ensures any_moment { IsTrue B.tells → (number : ℕ) (owners : Owners)
        (contents : ℕ → Content)
        → IsSettledBy number owners begun.old.log contents (map shape_any parts.old.items)
        (B.seen blocks.old)
        → Guards (B.seen blocks.old) (B.seen blocks.new)
        (KeepsAll begun.old.log.geometry number (images_of begun.old.log.records) contents) }
    ensures undone { IsTrue B.tells → OnOk result ((number : ℕ) (owners : Owners)
        (contents : ℕ → Content)
        → IsSettledBy number owners begun.old.log contents (map shape_any parts.old.items)
        (B.seen blocks.old)
        → IsUndone number owners begun.new.log contents (B.seen blocks.new)) }
    ensures ready { IsTrue B.tells → OnOk result ((owners : Owners)
        → IsPastLog begun.old.log.geometry owners
        → All (IsPartReady owners (images_in undo.now) (B.seen blocks.old)) parts.old.items
        → All (IsPartReady owners (images_in undo.now) (B.seen blocks.new)) parts.new.items) }
    ensures shapes { map shape_any parts.new.items
        ≡ map shape_any parts.old.items }
    ensures split { All HasNoSplit parts.new.items }
    ensures areas { areas_kept parts.new.items ≡ areas_kept parts.old.items }
    ensures records { OnOk result (begun.new.log.records ≡ []) }
    ensures generation { OnOk result (begun.new.log.generation ≤ 2 ^ 62) }
    ensures geometry { OnOk result (begun.new.log.geometry ≡ begun.old.log.geometry) }
    ensures sound { OnOk result (begun.new.log.broken ≡ false) }
    ensures forced { OnOk result (IsForced begun.new.log) }
    ensures shape { OnOk result (IsOf begun.new.log.geometry (B.seen blocks.new)) }
    ensures stands { IsTrue B.tells → OnOk result (LogStands begun.new.log (B.seen blocks.new)) }
    ensures silent { IfErr result IsSilentNo }
    ensures cause { HasOpenCause (B.faults blocks.old) (B.faults blocks.new) result }
{
    undo_units(
        alloc,
        blocks,
        count,
        parts.as_mut_slice(),
        undo,
        &mut begun.log,
        begun.content.records(),
    )?;
    Ok(())
}

/// Makes a volume that was found one without units of recovery: what an earlier log left past the
/// end of this one becomes zeros, the before-images of live units are put back, these units are
/// ended, and the log is begun again. In every image of every moment, whether it
/// fails or not, the blocks recover to what they recovered to, and keep what was withdrawn. Once it is
/// done the volume is safe by who owns the areas, and its parts have what they had, with the
/// before-images put back.
pub(crate) fn restore<B: Blocks>(
    alloc: Global,
    blocks: &mut B,
    geometry: &Geometry,
    begun: &mut Begun,
    parts: &mut Vec<AnyPart>,
    found: &Found,
) -> Result<(), OpenNo>
    requires allowed { IsAllowed geometry.now }
    requires shape { IsOf geometry.now (B.seen blocks.old) }
    requires log { begun.old.log ≡ made geometry.now begun.old.content }
    requires young { IsLogFound geometry.now begun.old.content }
    requires split { All HasNoSplit parts.old.items }
    requires planned { IsPlanned geometry.now begun.old.content found.now.catalog.value
        (map shape_any parts.old.items) }
    requires kept { images_in found.now.undo.value ≡ images_of begun.old.content.records }
    requires forced { IsTrue B.tells → AllForced (B.seen blocks.old).count
        (B.seen blocks.old).cur (B.seen blocks.old).may }
    requires found { IsTrue B.tells → (number : ℕ)
        × IsFound geometry.now number begun.old.content found.now.catalog.value
        (map shape_any parts.old.items) found.now.space (B.seen blocks.old).cur }
    requires known { IsTrue B.tells → AreKnown parts.old.items (B.seen blocks.old).cur }
    ensures any_moment { IsTrue B.tells → (number : ℕ) (contents : ℕ → Content)
        → IsWhole geometry.now number contents (B.seen blocks.old).cur
        → Guards (B.seen blocks.old) (B.seen blocks.new)
        (KeepsAll geometry.now number (images_of begun.old.content.records) contents) }
    ensures undone { IsTrue B.tells → OnOk result ((number : ℕ) (contents : ℕ → Content)
        → IsWhole geometry.now number contents (B.seen blocks.old).cur
        → IsUndone number (owner_of geometry.now found.now.space) begun.new.log contents
        (B.seen blocks.new)) }
    ensures ready { IsTrue B.tells → OnOk result
        (All (IsPartReady (owner_of geometry.now found.now.space)
        (images_in found.now.undo.value) (B.seen blocks.new)) parts.new.items) }
    ensures shapes { OnOk result (map shape_any parts.new.items
        ≡ map shape_any parts.old.items) }
    ensures split { OnOk result (All HasNoSplit parts.new.items) }
    ensures areas { OnOk result (areas_kept parts.new.items ≡ areas_kept parts.old.items) }
    ensures records { OnOk result (begun.new.log.records ≡ []) }
    ensures generation { OnOk result (begun.new.log.generation ≤ 2 ^ 62) }
    ensures geometry { OnOk result (begun.new.log.geometry ≡ geometry.now) }
    ensures sound { OnOk result (begun.new.log.broken ≡ false) }
    ensures forced { OnOk result (IsForced begun.new.log) }
    ensures shape { OnOk result (IsOf geometry.now (B.seen blocks.new)) }
    ensures stands { IsTrue B.tells → OnOk result (LogStands begun.new.log (B.seen blocks.new)) }
    ensures silent { IfErr result IsSilentNo }
    ensures cause { HasOpenCause (B.faults blocks.old) (B.faults blocks.new) result }
{
    clear(alloc, blocks, geometry, &begun.content)?;
    undo(alloc, blocks, geometry.blocks, begun, parts, &found.undo)
}
