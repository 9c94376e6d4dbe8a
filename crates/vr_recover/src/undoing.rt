//! Undoing what units of recovery changed that a crash left without an end.
ghost use Rattle.std.specs.Prelude.{◌≡◌, ◌≤◌, ◌^◌, [], ℕ, IsTrue, IfErr, OnOk, All, false};
ghost use Rattle.std.specs.Prelude.{map};
ghost use Rattle.vr_types.specs.Content.{Content};
ghost use Rattle.vr_types.specs.Moments.{Guards};
ghost use Rattle.vr_space.specs.Owners.{Owners};
ghost use Rattle.vr_part.specs.Any.{known_any, shape_any};
ghost use Rattle.vr_space.specs.Part.{IsOn, part_no};
ghost use Rattle.vr_attach.specs.Owning.{IsPastLog};
ghost use Rattle.vr_log.specs.LogNow.{IsForced, IsOf};
ghost use Rattle.vr_log.specs.Standing.{LogStands};
ghost use Rattle.vr_volume.specs.PutBack.{AreAlone, images_of};
ghost use Rattle.vr_recover.specs.Recovered.{KeepsAll};
ghost use Rattle.vr_recover.specs.Found.{areas_kept};
ghost use Rattle.vr_recover.specs.OpenNo.{HasOpenCause, IsSilentNo};
ghost use Rattle.vr_recover.specs.Opening.{HasNoSplit};
ghost use Rattle.vr_recover.specs.Undone.{
  FitsPart,
  HaveOwnNumbers,
  IsKeptOf,
  IsReady,
  IsSettled,
  IsUndone,
};

use crate::backing_out::end_all;
use crate::open_no::OpenNo;
use crate::undone_parts::put_back_all;
use std::alloc::Global;
use vr_log::{LogRecord, UndoLog};
use vr_part::AnyPart;
use vr_space::Kept;
use vr_types::Blocks;

/// Puts the before-images that the log has of live units back into the parts, forces that, ends
/// each unit as backed out, and begins the log again. `records` are those of the log. In every image of every moment, whether it fails or not, the blocks recover to the records of
/// what was committed, and what was withdrawn stays so; once it is done the volume is safe, with a
/// log of no records, and whatever a crash leaves of its parts has their items.
pub(crate) fn undo_units<B: Blocks, K: Kept>(
    alloc: Global,
    blocks: &mut B,
    count: u32,
    parts: &mut [AnyPart],
    kept: &K,
    log: &mut UndoLog,
    records: &[LogRecord],
) -> Result<(), OpenNo>
    requires blocks { (B.seen blocks.old).count ≡ count }
    requires on { All (λ shape. IsOn shape (B.seen blocks.old)) (map shape_any parts.old) }
    requires apart { HaveOwnNumbers (map shape_any parts.old) }
    requires split { All HasNoSplit parts.old }
    requires sound { log.old.broken ≡ false }
    requires shape { IsOf log.old.geometry (B.seen blocks.old) }
    requires records { records.now ≡ log.old.records }
    requires forced { IsForced log.old }
    requires fits { All (λ shape. All (FitsPart shape) (images_of log.old.records))
        (map shape_any parts.old) }
    requires alone { AreAlone (images_of log.old.records) }
    requires kept { IsKeptOf (K.kept kept.now) log.old }
    requires stands { IsTrue B.tells → LogStands log.old (B.seen blocks.old) }
    requires ready { IsTrue B.tells → (owners : Owners) × IsPastLog log.old.geometry owners
        × All (λ part. IsReady (shape_any part) owners (known_any part)
        (K.kept kept.now (part_no (shape_any part))) (B.seen blocks.old)) parts.old }
    ensures any_moment { IsTrue B.tells → (number : ℕ) (owners : Owners)
        (contents : ℕ → Content)
        → IsSettled number owners log.old contents (map shape_any parts.old) (B.seen blocks.old)
        → Guards (B.seen blocks.old) (B.seen blocks.new)
        (KeepsAll log.old.geometry number (images_of log.old.records) contents) }
    ensures undone { IsTrue B.tells → OnOk result ((number : ℕ) (owners : Owners)
        (contents : ℕ → Content)
        → IsSettled number owners log.old contents (map shape_any parts.old) (B.seen blocks.old)
        → IsUndone number owners log.new contents (B.seen blocks.new)) }
    ensures ready { IsTrue B.tells → OnOk result ((owners : Owners)
        → IsPastLog log.old.geometry owners
        → All (λ part. IsReady (shape_any part) owners (known_any part)
        (K.kept kept.now (part_no (shape_any part))) (B.seen blocks.old)) parts.old
        → All (λ part. IsReady (shape_any part) owners (known_any part)
        (K.kept kept.now (part_no (shape_any part))) (B.seen blocks.new)) parts.new) }
    ensures shapes { map shape_any parts.new ≡ map shape_any parts.old }
    ensures split { All HasNoSplit parts.new }
    ensures areas { areas_kept parts.new ≡ areas_kept parts.old }
    ensures records { OnOk result (log.new.records ≡ []) }
    ensures generation { OnOk result (log.new.generation ≤ 2 ^ 62) }
    ensures geometry { OnOk result (log.new.geometry ≡ log.old.geometry) }
    ensures sound { OnOk result (log.new.broken ≡ false) }
    ensures forced { OnOk result (IsForced log.new) }
    ensures shape { OnOk result (IsOf log.new.geometry (B.seen blocks.new)) }
    ensures stands { IsTrue B.tells → OnOk result (LogStands log.new (B.seen blocks.new)) }
    ensures silent { IfErr result IsSilentNo }
    ensures cause { HasOpenCause (B.faults blocks.old) (B.faults blocks.new) result }
{
    put_back_all(alloc, blocks, count, parts, kept, log, records)?;
    end_all(alloc, blocks, log, records)?;
    Ok(())
}
