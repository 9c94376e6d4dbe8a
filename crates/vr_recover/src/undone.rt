//! Putting before-images back into a part, as a volume that a crash left is opened.
ghost use Rattle.std.specs.Prelude.{◌≡◌, ◌∷◌, [], ℕ, List, IsTrue, OnOk, IfSome, All, None, false};
ghost use Rattle.std.specs.List.{filter_map};
ghost use Rattle.vr_types.specs.Content.{Content};
ghost use Rattle.vr_types.specs.Faults.{HasCause};
ghost use Rattle.vr_types.specs.Moments.{Guards};
ghost use Rattle.vr_types.specs.Regions.{Touches};
ghost use Rattle.vr_types.specs.declared.geometry.Geometry.{Geometry};
ghost use Rattle.vr_space.specs.Owners.{Owners};
ghost use Rattle.vr_space.specs.Part.{InPart, IsOn, part_no};
ghost use Rattle.vr_log.specs.Live.{live_in};
ghost use Rattle.vr_log.specs.declared.record.LogRecord.{LogRecord as Rec};
ghost use Rattle.vr_volume.specs.Laying.{IsFreeIn, IsLaidSo};
ghost use Rattle.vr_volume.specs.PutBack.{AreAlone, image_in, images_of, lengths_kept};
ghost use Rattle.vr_volume.specs.Safe.{IsSafe, IsSafeImage};
ghost use Rattle.vr_mount.specs.Touched.{Anything};
ghost use Rattle.vr_recover.specs.Undone.{
  ArePutBack,
  FitsPart,
  HasAllRecords,
  HasKeptFor,
  IsKeptOf,
  IsLeftIn,
  IsReady,
};

use crate::fitting::bytes_of;
use vr_log::{LogRecord, UndoLog};
use vr_space::{Kept, Part};
use vr_types::{Blocks, DeviceFault, PartNo};
use vr_volume::set_free;

/// Puts a record of the log back, where it is a before-image of this part, of a unit that is live.
/// Nothing is forced. At each moment of it, whether it fails or not, each image is a safe one.
fn put_record<B: Blocks, P: Part, K: Kept>(
    blocks: &mut B,
    part: &mut P,
    number: PartNo,
    kept: &K,
    log: &UndoLog,
    rec: &LogRecord,
) -> Result<(), DeviceFault>
    requires on { IsOn (P.shape part.old) (B.seen blocks.old) }
    requires number { part_no (P.shape part.old) ≡ number }
    requires split { (P.known part.old).split ≡ None }
    requires moves { (P.known part.old).move ≡ None }
    requires sound { log.now.broken ≡ false }
    requires fits { IfSome (image_in (live_in log.now.records) rec.now)
        (FitsPart (P.shape part.old)) }
    requires kept { IfSome (image_in (live_in log.now.records) rec.now)
        (HasKeptFor (P.shape part.old) (K.kept kept.now number)) }
    requires ready { IsTrue B.tells → (owners : Owners) × IsReady (P.shape part.old) owners
        (P.known part.old) (K.kept kept.now number) (B.seen blocks.old) }
    ensures safe { IsTrue B.tells → (geometry : Geometry) (member : ℕ) (owners : Owners)
        (committed : List Rec → ℕ → Content)
        → IsSafe geometry member owners log.now committed (B.seen blocks.old)
        → IsLaidSo geometry log.now committed number.0 (P.shape part.old)
        (K.kept kept.now number)
        → IfSome (image_in (live_in log.now.records) rec.now)
        (λ image. IsFreeIn log.now image.part image.place)
        → Guards (B.seen blocks.old) (B.seen blocks.new)
        (IsSafeImage geometry member owners log.now committed)
        × IsSafe geometry member owners log.now committed (B.seen blocks.new) }
    ensures back { IsTrue B.tells → OnOk result ((content : Content)
        → IfSome (image_in (live_in log.now.records) rec.now)
        (IsLeftIn (P.shape part.old) content (B.seen blocks.old).cur)
        → ArePutBack (P.shape part.old) content
        (filter_map (image_in (live_in log.now.records)) (rec.now ∷ []))
        (B.seen blocks.old) (B.seen blocks.new)) }
    ensures ready { IsTrue B.tells → OnOk result ((owners : Owners)
        → IsReady (P.shape part.old) owners (P.known part.old) (K.kept kept.now number)
        (B.seen blocks.old)
        → IsReady (P.shape part.old) owners (P.known part.new) (K.kept kept.now number)
        (B.seen blocks.new)) }
    ensures touches { IsTrue B.tells → (owners : Owners)
        → IsReady (P.shape part.old) owners (P.known part.old) (K.kept kept.now number)
        (B.seen blocks.old)
        → Touches (InPart (P.shape part.old) owners) Anything
        (B.seen blocks.old) (B.seen blocks.new) }
    ensures count { (B.seen blocks.new).count ≡ (B.seen blocks.old).count }
    ensures size { (B.seen blocks.new).size ≡ (B.seen blocks.old).size }
    ensures cause { HasCause (B.faults blocks.old) (B.faults blocks.new) result }
    ensures shape { P.shape part.new ≡ P.shape part.old }
    ensures split { (P.known part.new).split ≡ (P.known part.old).split }
    ensures moves { (P.known part.new).move ≡ (P.known part.old).move }
    ensures areas { (P.known part.new).areas ≡ (P.known part.old).areas }
{
    if let LogRecord::Before {
        unit,
        part: owner,
        place,
        old,
    } = rec
    {
        if *owner == number && log.is_live(*unit) {
            set_free(blocks, part, kept, place, bytes_of(old))?;
        }
    }
    Ok(())
}

/// Puts the before-images of a part that the log has of live units back, one after another, and
/// forces nothing. `records` are those of the log. At each moment of it, whether it fails or not,
/// each image is a safe one; once it is done each of these places reads its item in the content
/// that has there what putting them back leaves.
pub(crate) fn put_back<B: Blocks, P: Part, K: Kept>(
    blocks: &mut B,
    part: &mut P,
    number: PartNo,
    kept: &K,
    log: &UndoLog,
    records: &[LogRecord],
) -> Result<(), DeviceFault>
    requires on { IsOn (P.shape part.old) (B.seen blocks.old) }
    requires number { part_no (P.shape part.old) ≡ number }
    requires split { (P.known part.old).split ≡ None }
    requires moves { (P.known part.old).move ≡ None }
    requires sound { log.now.broken ≡ false }
    requires records { records.now ≡ log.now.records }
    requires fits { All (FitsPart (P.shape part.old)) (images_of log.now.records) }
    requires alone { AreAlone (images_of log.now.records) }
    requires kept { IsKeptOf (K.kept kept.now) log.now }
    requires ready { IsTrue B.tells → (owners : Owners) × IsReady (P.shape part.old) owners
        (P.known part.old) (K.kept kept.now number) (B.seen blocks.old) }
    ensures safe { IsTrue B.tells → (geometry : Geometry) (member : ℕ) (owners : Owners)
        (committed : List Rec → ℕ → Content)
        → IsSafe geometry member owners log.now committed (B.seen blocks.old)
        → IsLaidSo geometry log.now committed number.0 (P.shape part.old)
        (K.kept kept.now number) → HasAllRecords log.now
        → Guards (B.seen blocks.old) (B.seen blocks.new)
        (IsSafeImage geometry member owners log.now committed)
        × IsSafe geometry member owners log.now committed (B.seen blocks.new) }
    ensures back { IsTrue B.tells → OnOk result ((content : Content)
        → All (IsLeftIn (P.shape part.old) content (B.seen blocks.old).cur)
        (images_of log.now.records)
        → ArePutBack (P.shape part.old) content (images_of log.now.records)
        (B.seen blocks.old) (B.seen blocks.new)) }
    ensures ready { IsTrue B.tells → OnOk result ((owners : Owners)
        → IsReady (P.shape part.old) owners (P.known part.old) (K.kept kept.now number)
        (B.seen blocks.old)
        → IsReady (P.shape part.old) owners (P.known part.new) (K.kept kept.now number)
        (B.seen blocks.new)) }
    ensures touches { IsTrue B.tells → (owners : Owners)
        → IsReady (P.shape part.old) owners (P.known part.old) (K.kept kept.now number)
        (B.seen blocks.old)
        → Touches (InPart (P.shape part.old) owners) Anything
        (B.seen blocks.old) (B.seen blocks.new) }
    ensures count { (B.seen blocks.new).count ≡ (B.seen blocks.old).count }
    ensures size { (B.seen blocks.new).size ≡ (B.seen blocks.old).size }
    ensures cause { HasCause (B.faults blocks.old) (B.faults blocks.new) result }
    ensures shape { P.shape part.new ≡ P.shape part.old }
    ensures split { (P.known part.new).split ≡ (P.known part.old).split }
    ensures moves { (P.known part.new).move ≡ (P.known part.old).move }
    ensures areas { (P.known part.new).areas ≡ (P.known part.old).areas }
{
    for rec in records {
        put_record(blocks, part, number, kept, log, rec)?;
    }
    Ok(())
}
