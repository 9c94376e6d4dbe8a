//! Putting before-images back into all parts of a volume that a crash left, and forcing that.
ghost use Rattle.std.specs.Prelude.{◌≡◌, ℕ, List, IsTrue, IfErr, OnOk, All, false, map};
ghost use Rattle.vr_types.specs.Content.{Content};
ghost use Rattle.vr_types.specs.Faults.{HasCause};
ghost use Rattle.vr_types.specs.Moments.{Guards};
ghost use Rattle.vr_types.specs.declared.geometry.Geometry.{Geometry};
ghost use Rattle.vr_space.specs.Owners.{Owners};
ghost use Rattle.vr_part.specs.Any.{known_any, shape_any};
ghost use Rattle.vr_space.specs.Part.{IsOn, part_no};
ghost use Rattle.vr_attach.specs.Owning.{IsPastLog};
ghost use Rattle.vr_log.specs.LogNow.{IsForced};
ghost use Rattle.vr_log.specs.Standing.{LogStands};
ghost use Rattle.vr_volume.specs.PutBack.{AreAlone, images_of};
ghost use Rattle.vr_volume.specs.Safe.{IsSafe, IsSafeImage};
ghost use Rattle.vr_recover.specs.Found.{areas_kept};
ghost use Rattle.vr_recover.specs.OpenNo.{HasOpenCause, IsSilentNo};
ghost use Rattle.vr_recover.specs.Opening.{HasNoSplit};
ghost use Rattle.vr_recover.specs.Undone.{
  AreOpened,
  AreSettled,
  FitsPart,
  HasAll,
  HaveOwnNumbers,
  IsCovered,
  IsKeptOf,
  IsReady,
  ReadsAll,
  alike,
};

use crate::open_no::OpenNo;
use crate::syncing::sync_all;
use crate::undone::put_back;
use std::alloc::Global;
use vr_log::{LogRecord, UndoLog};
use vr_part::AnyPart;
use vr_space::Kept;
use vr_types::{Blocks, DeviceFault};

/// Puts the before-images that the log has of live units back into the parts, one part after
/// another, and forces nothing. `records` are those of the log. At each moment of it, whether it
/// fails or not, each image is a safe one, with the same contents committed; once it is done the
/// parts read as the contents.
fn put_parts<B: Blocks, K: Kept>(
    blocks: &mut B,
    parts: &mut [AnyPart],
    kept: &K,
    log: &UndoLog,
    records: &[LogRecord],
) -> Result<(), DeviceFault>
    requires on { All (λ shape. IsOn shape (B.seen blocks.old)) (map shape_any parts.old) }
    requires apart { HaveOwnNumbers (map shape_any parts.old) }
    requires split { All HasNoSplit parts.old }
    requires sound { log.now.broken ≡ false }
    requires records { records.now ≡ log.now.records }
    requires fits { All (λ shape. All (FitsPart shape) (images_of log.now.records))
        (map shape_any parts.old) }
    requires alone { AreAlone (images_of log.now.records) }
    requires kept { IsKeptOf (K.kept kept.now) log.now }
    requires ready { IsTrue B.tells → (owners : Owners) × IsPastLog log.now.geometry owners
        × All (λ part. IsReady (shape_any part) owners (known_any part)
        (K.kept kept.now (part_no (shape_any part))) (B.seen blocks.old)) parts.old }
    ensures safe { IsTrue B.tells → (geometry : Geometry) (member : ℕ) (owners : Owners)
        (contents : ℕ → Content)
        → IsSafe geometry member owners log.now (alike contents)
        (B.seen blocks.old)
        → AreOpened geometry log.now contents (map shape_any parts.old)
        → Guards (B.seen blocks.old) (B.seen blocks.new)
        (IsSafeImage geometry member owners log.now (alike contents))
        × IsSafe geometry member owners log.now (alike contents)
        (B.seen blocks.new) }
    ensures reads { IsTrue B.tells → OnOk result ((geometry : Geometry) (owners : Owners)
        (contents : ℕ → Content)
        → AreOpened geometry log.now contents (map shape_any parts.old)
        → AreSettled geometry owners (images_of log.now.records) contents (B.seen blocks.old)
        → All (IsCovered (map shape_any parts.old)) (images_of log.now.records)
        → ReadsAll geometry contents (B.seen blocks.new).cur) }
    ensures stands { IsTrue B.tells → IsForced log.now → LogStands log.now (B.seen blocks.old)
        → OnOk result (LogStands log.now (B.seen blocks.new)) }
    ensures ready { IsTrue B.tells → OnOk result ((owners : Owners)
        → All (λ part. IsReady (shape_any part) owners (known_any part)
        (K.kept kept.now (part_no (shape_any part))) (B.seen blocks.old)) parts.old
        → All (λ part. IsReady (shape_any part) owners (known_any part)
        (K.kept kept.now (part_no (shape_any part))) (B.seen blocks.new)) parts.new) }
    ensures shapes { map shape_any parts.new ≡ map shape_any parts.old }
    ensures split { All HasNoSplit parts.new }
    ensures areas { areas_kept parts.new ≡ areas_kept parts.old }
    ensures count { (B.seen blocks.new).count ≡ (B.seen blocks.old).count }
    ensures size { (B.seen blocks.new).size ≡ (B.seen blocks.old).size }
    ensures cause { HasCause (B.faults blocks.old) (B.faults blocks.new) result }
{
    for part in parts.iter_mut() {
        let number = part.number();
        put_back(blocks, part, number, kept, log, records)?;
    }
    Ok(())
}

/// Puts the before-images that the log has of live units back into the parts, and then forces all
/// blocks, `count` of them, at once. Where there is none nothing is put, and nothing forced.
/// `records` are those of the log. At each moment of it, whether it fails or not, each image is a
/// safe one, with the same contents committed; once it is done, whatever a crash leaves of the
/// parts has the items of the contents. It fails if memory runs out, too.
pub(crate) fn put_back_all<B: Blocks, K: Kept>(
    alloc: Global,
    blocks: &mut B,
    count: u32,
    parts: &mut [AnyPart],
    kept: &K,
    log: &UndoLog,
    records: &[LogRecord],
) -> Result<(), OpenNo>
    requires blocks { (B.seen blocks.old).count ≡ count }
    requires on { All (λ shape. IsOn shape (B.seen blocks.old)) (map shape_any parts.old) }
    requires apart { HaveOwnNumbers (map shape_any parts.old) }
    requires split { All HasNoSplit parts.old }
    requires sound { log.now.broken ≡ false }
    requires records { records.now ≡ log.now.records }
    requires fits { All (λ shape. All (FitsPart shape) (images_of log.now.records))
        (map shape_any parts.old) }
    requires alone { AreAlone (images_of log.now.records) }
    requires kept { IsKeptOf (K.kept kept.now) log.now }
    requires ready { IsTrue B.tells → (owners : Owners) × IsPastLog log.now.geometry owners
        × All (λ part. IsReady (shape_any part) owners (known_any part)
        (K.kept kept.now (part_no (shape_any part))) (B.seen blocks.old)) parts.old }
    ensures safe { IsTrue B.tells → (geometry : Geometry) (member : ℕ) (owners : Owners)
        (contents : ℕ → Content)
        → IsSafe geometry member owners log.now (alike contents)
        (B.seen blocks.old)
        → AreOpened geometry log.now contents (map shape_any parts.old)
        → Guards (B.seen blocks.old) (B.seen blocks.new)
        (IsSafeImage geometry member owners log.now (alike contents))
        × IsSafe geometry member owners log.now (alike contents)
        (B.seen blocks.new) }
    ensures all { IsTrue B.tells → OnOk result ((geometry : Geometry) (member : ℕ)
        (owners : Owners) (contents : ℕ → Content)
        → IsSafe geometry member owners log.now (alike contents)
        (B.seen blocks.old)
        → AreOpened geometry log.now contents (map shape_any parts.old)
        → AreSettled geometry owners (images_of log.now.records) contents (B.seen blocks.old)
        → All (IsCovered (map shape_any parts.old)) (images_of log.now.records)
        → HasAll geometry contents (B.seen blocks.new)) }
    ensures stands { IsTrue B.tells → IsForced log.now → LogStands log.now (B.seen blocks.old)
        → OnOk result (LogStands log.now (B.seen blocks.new)) }
    ensures ready { IsTrue B.tells → OnOk result ((owners : Owners)
        → All (λ part. IsReady (shape_any part) owners (known_any part)
        (K.kept kept.now (part_no (shape_any part))) (B.seen blocks.old)) parts.old
        → All (λ part. IsReady (shape_any part) owners (known_any part)
        (K.kept kept.now (part_no (shape_any part))) (B.seen blocks.new)) parts.new) }
    ensures shapes { map shape_any parts.new ≡ map shape_any parts.old }
    ensures split { All HasNoSplit parts.new }
    ensures areas { areas_kept parts.new ≡ areas_kept parts.old }
    ensures count { (B.seen blocks.new).count ≡ (B.seen blocks.old).count }
    ensures size { (B.seen blocks.new).size ≡ (B.seen blocks.old).size }
    ensures silent { IfErr result IsSilentNo }
    ensures cause { HasOpenCause (B.faults blocks.old) (B.faults blocks.new) result }
{
    if log.live() == 0 {
        return Ok(());
    }
    put_parts(blocks, parts, kept, log, records)?;
    sync_all(alloc, blocks, count)?;
    Ok(())
}
