//! A log, read back from its blocks.
ghost use Rattle.std.specs.Prelude.{◌≡◌, ◌<◌, ◌≤◌, ◌^◌, [], All, length, IsTrue, IfOk, IfErr, OnOk};
ghost use Rattle.vr_types.specs.Blocks.{Keeps};
ghost use Rattle.vr_types.specs.Geometry.{IsAllowed};
ghost use Rattle.vr_log.specs.Damage.{IsDamagedAt, IsFirst};
ghost use Rattle.vr_log.specs.Live.{used_by};
ghost use Rattle.vr_log.specs.LogNow.{IsOf};
ghost use Rattle.vr_log.specs.Reading.{IsDamageOf, HasReadCause};
ghost use Rattle.vr_log.specs.Spells.{Spells};
ghost use Rattle.vr_types.specs.Image.{block_at};
ghost use Rattle.vr_types.specs.LogSpace.{log_size};
ghost use Rattle.vr_log.specs.Records.{HasFields, bytes_of};

use crate::content::LogContent;
use crate::gathering::{First, gather, read_first};
use crate::read_no::LogReadNo;
use crate::records::read_records;
use crate::room::has_room;
use std::alloc::Global;
use vr_types::{Blocks, Geometry};

/// Reads the log back from blocks 1 to L: the generation that they spell, and its records, beside
/// which there is room for the ends of the units that are live after them, as `undo_log` wants it.
/// `Damaged`: they spell none, with the first block that is misspelled. `Fault` is the device's;
/// `Memory`: there is none for the records. The lengths of the records are those that `undo_log`
/// wants, also of blocks that report no content.
pub fn read_back<B: Blocks>(
    alloc: Global,
    blocks: &mut B,
    geometry: &Geometry,
) -> Result<LogContent, LogReadNo>
    requires allowed { IsAllowed geometry.now }
    requires shape { IsOf geometry.now (B.seen blocks.old) }
    ensures spelled { IsTrue B.tells
        → IfOk result (Spells geometry.now (B.seen blocks.old).cur) }
    ensures damaged { IsTrue B.tells
        → IfErr result (IsDamageOf geometry.now (B.seen blocks.old).cur) }
    ensures fields { IfOk result (λ content. All HasFields content.records) }
    ensures size { IfOk result (λ content. length (bytes_of content.records)
        ≤ log_size geometry.now) }
    ensures room { IfOk result (λ content. used_by content.records ≤ log_size geometry.now) }
    ensures young { IfOk result (λ content. content.generation < 2 ^ 63) }
    ensures keeps { Keeps B.tells (B.seen blocks.old) (B.seen blocks.new) }
    ensures cause { HasReadCause (B.faults blocks.old) (B.faults blocks.new) result }
{
    let first = read_first(blocks)?;
    match first {
        First::Zeros => Ok(LogContent::new(alloc, 0)),
        First::Bad => Err(LogReadNo::Damaged { block: 1 }),
        First::Begins(generation) => read_generation(alloc, blocks, *geometry, generation),
    }
}

/// Reads the log of a generation, which block 1 begins.
fn read_generation<B: Blocks>(
    alloc: Global,
    blocks: &mut B,
    geometry: Geometry,
    generation: u64,
) -> Result<LogContent, LogReadNo>
    requires allowed { IsAllowed geometry }
    requires shape { IsOf geometry (B.seen blocks.old) }
    requires young { generation < 2 ^ 63 }
    requires first { IsTrue B.tells
        → IsFirst (block_at (B.seen blocks.old).cur 1) generation }
    ensures spelled { IsTrue B.tells → IfOk result (Spells geometry (B.seen blocks.old).cur) }
    ensures damaged { IsTrue B.tells → IfErr result (IsDamageOf geometry (B.seen blocks.old).cur) }
    ensures fields { IfOk result (λ content. All HasFields content.records) }
    ensures size { IfOk result (λ content. length (bytes_of content.records) ≤ log_size geometry) }
    ensures room { IfOk result (λ content. used_by content.records ≤ log_size geometry) }
    ensures young { IfOk result (λ content. content.generation < 2 ^ 63) }
    ensures keeps { Keeps B.tells (B.seen blocks.old) (B.seen blocks.new) }
    ensures cause { HasReadCause (B.faults blocks.old) (B.faults blocks.new) result }
{
    let mut bytes = Vec::new(alloc);
    let mut content = LogContent::new(alloc, generation);
    read_into(alloc, blocks, geometry, &mut bytes, &mut content)?;
    if !has_room(alloc, &geometry, &content)? {
        return Err(LogReadNo::Damaged { block: 1 });
    }
    Ok(content)
}

/// Adds the records of the content's generation to it, by way of a buffer for their bytes.
fn read_into<B: Blocks>(
    alloc: Global,
    blocks: &mut B,
    geometry: Geometry,
    bytes: &mut Vec<u8>,
    content: &mut LogContent,
) -> Result<(), LogReadNo>
    requires allowed { IsAllowed geometry }
    requires shape { IsOf geometry (B.seen blocks.old) }
    requires none { bytes.old.items ≡ [] }
    requires no_record { content.old.records ≡ [] }
    requires first { IsTrue B.tells
        → IsFirst (block_at (B.seen blocks.old).cur 1) content.old.generation }
    ensures spelled { IsTrue B.tells → OnOk result
        (used_by content.new.records ≤ log_size geometry
        → Spells geometry (B.seen blocks.old).cur content.new) }
    ensures crowded { IsTrue B.tells → OnOk result
        (log_size geometry < used_by content.new.records
        → IsDamagedAt geometry (B.seen blocks.old).cur 1) }
    ensures damaged { IsTrue B.tells → IfErr result (IsDamageOf geometry (B.seen blocks.old).cur) }
    ensures generation { OnOk result (content.new.generation ≡ content.old.generation) }
    ensures fields { OnOk result (All HasFields content.new.records) }
    ensures size { OnOk result (length (bytes_of content.new.records) ≤ log_size geometry) }
    ensures keeps { Keeps B.tells (B.seen blocks.old) (B.seen blocks.new) }
    ensures cause { HasReadCause (B.faults blocks.old) (B.faults blocks.new) result }
{
    let wrong = gather(blocks, geometry, content.generation(), bytes)?;
    let stop = read_records(alloc, bytes, content)?;
    match (stop, wrong) {
        (Some(at), _) => {
            let index = at / (geometry.size as usize - 16);
            Err(LogReadNo::Damaged {
                block: 1 + index as u32,
            })
        }
        (None, Some(index)) => Err(LogReadNo::Damaged { block: 1 + index }),
        (None, None) => Ok(()),
    }
}
