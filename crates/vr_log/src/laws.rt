//! Laws of a log, each the contract of a function that does nothing, and a block that is replaced
//! under a log record.
ghost use Rattle.std.specs.Prelude.{◌≡◌, ◌<◌, ◌≤◌, ◌+◌, ◌^◌, [], length, ℕ, List, IsTrue, false};
ghost use Rattle.std.specs.Prelude.{OnOk, slice_set, ◌⊎◌};
ghost use Rattle.vr_types.specs.Faults.{HasWriteCause};
ghost use Rattle.vr_types.specs.Fields.{AreZeros, IsBytes};
ghost use Rattle.vr_types.specs.Geometry.{IsAllowed};
ghost use Rattle.vr_types.specs.Image.{Image, block_at};
ghost use Rattle.vr_types.specs.Moments.{Guards};
ghost use Rattle.vr_types.specs.Regions.{Outside};
ghost use Rattle.vr_types.specs.Seen.{Left, Only};
ghost use Rattle.vr_log.specs.Damage.{IsDamagedAt};
ghost use Rattle.vr_log.specs.Live.{live_in, need_of, EndsLive};
ghost use Rattle.vr_log.specs.LogNow.{HasLog, HasLogCause, IsForced, IsFullWhere, IsLogged};
ghost use Rattle.vr_log.specs.LogNow.{IsOf, made, restarted};
ghost use Rattle.vr_log.specs.Records.{HasLengths, SpellsRecords};
ghost use Rattle.vr_log.specs.declared.record.LogRecord.{LogRecord as RecordOf};
ghost use Rattle.vr_log.specs.Content.{Content};
ghost use Rattle.vr_log.specs.Spells.{Spells};
ghost use Rattle.vr_types.specs.declared.geometry.Geometry.{Geometry as GeometryOf};
ghost use Rattle.vr_log.specs.Standing.{EndsThere, InLog, IsSettled, LogStands};

use crate::content::LogContent;
use crate::log::UndoLog;
use crate::no::LogNo;
use crate::record::LogRecord;
use vr_types::{Blocks, DeviceFault, Geometry};

/// Bytes spell one list of records at most.
pub fn one_list_of_records()
    ensures { (bytes : List ℕ) (one other : List RecordOf) → SpellsRecords bytes one
        → SpellsRecords bytes other → one ≡ other }
{}

/// Blocks spell one log at most.
pub fn one_log_at_most()
    ensures { (geometry : GeometryOf) (image : Image) (one other : Content)
        → 8 ≤ length (block_at image 1) → Spells geometry image one → Spells geometry image other
        → one ≡ other }
{}

/// Blocks that spell a log are not damaged.
pub fn damaged_blocks_spell_no_log()
    ensures { (geometry : GeometryOf) (image : Image) (content : Content) (n : ℕ)
        → 8 ≤ length (block_at image 1) → Spells geometry image content
        → IsDamagedAt geometry image n → ⊥ }
{}

/// Blocks of bytes spell a log, or are damaged at some block.
pub fn blocks_spell_a_log_or_are_damaged()
    ensures { (geometry : GeometryOf) (image : Image) → 1 ≤ geometry.log
        → ((i : ℕ) → i < geometry.log → IsBytes (block_at image (1 + i)))
        → ((content : Content) × Spells geometry image content)
        ⊎ ((n : ℕ) × IsDamagedAt geometry image n) }
{}

/// One block at most is the first that is misspelled.
pub fn one_damaged_block()
    ensures { (geometry : GeometryOf) (image : Image) (one other : ℕ)
        → IsDamagedAt geometry image one → IsDamagedAt geometry image other → one ≡ other }
{}

/// Each image that a crash may leave of a log that stands on its blocks has the records that were
/// forced and a prefix of all, or the log before while no block of this one was forced.
pub fn each_image_has_the_log<B: Blocks>(log: &UndoLog, blocks: &B)
    ensures { IsTrue B.tells → LogStands log.now (B.seen blocks.now)
        → (image : Image) → Left (B.seen blocks.now) image → HasLog log.now image }
{}

/// A log that stands on its blocks, with all records forced and no unit live, stands after
/// `restart` too: what each image then has is the log before. The next generation is one that a log
/// may have: one that comes near the last is begun anew ([`UndoLog::renew`]).
pub fn restarted_log_stands<B: Blocks>(log: &UndoLog, blocks: &B)
    ensures { IsTrue B.tells → LogStands log.now (B.seen blocks.now) → IsForced log.now
        → live_in log.now.records ≡ [] → log.now.generation + 1 < 2 ^ 63
        → LogStands (restarted log.now) (B.seen blocks.now) }
{}

/// A log that is made of what its blocks spell, as `read_back` gives it, stands on them, where a
/// crash leaves them as they are read, no block after the last one goes on with the log, and none
/// has a later generation: `clear_past` makes it so.
pub fn made_log_stands<B: Blocks>(geometry: &Geometry, content: &LogContent, blocks: &B)
    ensures { IsTrue B.tells → IsAllowed geometry.now → IsOf geometry.now (B.seen blocks.now)
        → IsSettled geometry.now (B.seen blocks.now)
        → Spells geometry.now (B.seen blocks.now).cur content.now
        → EndsThere (made geometry.now content.now) (B.seen blocks.now).cur
        → LogStands (made geometry.now content.now) (B.seen blocks.now) }
{}

/// A log without records stands on blocks of zeros, where a crash leaves them.
pub fn fresh_log_stands<B: Blocks>(geometry: &Geometry, blocks: &B)
    ensures { IsTrue B.tells → IsAllowed geometry.now → IsOf geometry.now (B.seen blocks.now)
        → IsSettled geometry.now (B.seen blocks.now)
        → ((n : ℕ) → InLog geometry.now n → AreZeros (block_at (B.seen blocks.now).cur n))
        → LogStands (made geometry.now (record { generation = 0; records = [] }))
        (B.seen blocks.now) }
{}

/// A log stays standing while a block outside it is put, whether that fails or not.
pub fn log_stands_while_others_put<B: Blocks>(
    log: &UndoLog,
    blocks: &mut B,
    home: u32,
    bytes: &[u8],
) -> Result<(), DeviceFault>
    requires home { home < (B.seen blocks.old).count }
    requires outside { Outside (InLog log.now.geometry) home }
    requires whole { length bytes.now ≡ (B.seen blocks.old).size }
    requires stands { IsTrue B.tells → LogStands log.now (B.seen blocks.old) }
    ensures stands { IsTrue B.tells → LogStands log.now (B.seen blocks.new) }
    ensures put { IsTrue B.tells → OnOk result
        ((B.seen blocks.new).cur ≡ slice_set (B.seen blocks.old).cur home bytes.now) }
    ensures cause { HasWriteCause (B.faults blocks.old) (B.faults blocks.new) result }
{
    blocks.put(home, bytes)
}

/// Replaces the content of a block outside the log: it appends the record, forces it, and then puts
/// the block. In every image at every moment, and from then on, the block has its old content, or
/// the image's log has the record.
pub fn write_ahead<B: Blocks>(
    log: &mut UndoLog,
    blocks: &mut B,
    rec: &LogRecord,
    home: u32,
    bytes: &[u8],
) -> Result<(), LogNo>
    requires sound { log.old.broken ≡ false }
    requires shape { IsOf log.old.geometry (B.seen blocks.old) }
    requires lengths { HasLengths rec.now }
    requires live { EndsLive (live_in log.old.records) rec.now }
    requires stands { IsTrue B.tells → LogStands log.old (B.seen blocks.old) }
    requires home { home < (B.seen blocks.old).count }
    requires outside { Outside (InLog log.old.geometry) home }
    requires whole { length bytes.now ≡ (B.seen blocks.old).size }
    requires settled { IsTrue B.tells → Only (B.seen blocks.old) home (λ block.
        block ≡ block_at (B.seen blocks.old).cur home) }
    ensures any_moment { IsTrue B.tells → Guards (B.seen blocks.old) (B.seen blocks.new)
        (IsLogged log.old rec.now home (block_at (B.seen blocks.old).cur home)) }
    ensures full { IsFullWhere log.old (need_of (live_in log.old.records) rec.now) result }
    ensures cause { HasLogCause (B.faults blocks.old) (B.faults blocks.new) result }
{
    log.append(blocks, rec)?;
    log.force(blocks)?;
    blocks.put(home, bytes)?;
    Ok(())
}
