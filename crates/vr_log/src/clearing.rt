//! Blocks that an earlier log left past the end of this one, made zeros.
ghost use Rattle.std.specs.Prelude.{◌≡◌, ◌<◌, ◌≤◌, ◌+◌, ◌↔◌, length, replicate, slice_set, All, ℕ};
ghost use Rattle.std.specs.Prelude.{IsTrue, IfOk, IfErr, OnOk};
ghost use Rattle.vr_types.specs.Blocks.{AllForced, Keeps, Puts};
ghost use Rattle.vr_types.specs.Faults.{HasCause};
ghost use Rattle.vr_types.specs.Geometry.{IsAllowed};
ghost use Rattle.vr_types.specs.Image.{Image, block_at};
ghost use Rattle.vr_types.specs.LogSpace.{log_size};
ghost use Rattle.vr_types.specs.Regions.{Touches};
ghost use Rattle.vr_types.specs.Seen.{Only};
ghost use Rattle.vr_log.specs.Clearing.{AreCleared, ClearsOne, IsAsItWasOrNone, IsStale};
ghost use Rattle.vr_log.specs.LogNow.{IsOf, last_index, made, no_log};
ghost use Rattle.vr_log.specs.Reading.{HasReadCause, IsNoDamage};
ghost use Rattle.vr_log.specs.Records.{HasFields, bytes_of};
ghost use Rattle.vr_log.specs.Spells.{Spells};
ghost use Rattle.vr_log.specs.Standing.{EndsThere, InLog, IsSettled, LogStands};

use crate::content::LogContent;
use crate::gathering::goes_on;
use crate::read_no::LogReadNo;
use crate::record::LogRecord;
use crate::room::bytes_in;
use std::alloc::Global;
use vr_types::{Blocks, DeviceFault, Geometry, OutOfMemory, eight_at, settle};

/// Makes zeros of each block of the log past the last one of this content that goes on with it, and
/// of each that has a later generation, and forces each of them: what an earlier log left there, or
/// a crash. From then on the log that is made of the content stands on its blocks. A crash at any
/// moment, failing or not, leaves blocks that spell the content. Where there is no such block,
/// nothing is put. The content is what `read_back` gave. `Fault` is the device's; `Memory`: there is
/// none for the zeros of a block, which are made only where one has to be cleared. `Damaged` never
/// comes.
pub fn clear_past<B: Blocks>(
    alloc: Global,
    blocks: &mut B,
    geometry: &Geometry,
    content: &LogContent,
) -> Result<(), LogReadNo>
    requires allowed { IsAllowed geometry.now }
    requires shape { IsOf geometry.now (B.seen blocks.old) }
    requires fields { All HasFields content.now.records }
    requires size { length (bytes_of content.now.records) ≤ log_size geometry.now }
    requires settled { IsTrue B.tells → IsSettled geometry.now (B.seen blocks.old) }
    requires spelled { IsTrue B.tells
        → Spells geometry.now (B.seen blocks.old).cur content.now }
    ensures moments { IsTrue B.tells → Touches (InLog geometry.now)
        (λ image. Spells geometry.now image content.now) (B.seen blocks.old) (B.seen blocks.new) }
    ensures cleared { IsTrue B.tells → AreCleared (made geometry.now content.now)
        (B.seen blocks.old).cur (B.seen blocks.new).cur }
    ensures spelled { IsTrue B.tells → Spells geometry.now (B.seen blocks.new).cur content.now }
    ensures settled { IsTrue B.tells → OnOk result (IsSettled geometry.now (B.seen blocks.new)) }
    ensures stands { IsTrue B.tells → OnOk result
        (LogStands (made geometry.now content.now) (B.seen blocks.new)) }
    ensures forced { IsTrue B.tells
        → AllForced (B.seen blocks.old).count (B.seen blocks.old).cur (B.seen blocks.old).may
        → OnOk result
        (AllForced (B.seen blocks.new).count (B.seen blocks.new).cur (B.seen blocks.new).may) }
    ensures idle { IsTrue B.tells
        → EndsThere (made geometry.now content.now) (B.seen blocks.old).cur
        → Keeps B.tells (B.seen blocks.old) (B.seen blocks.new) }
    ensures shape { IsOf geometry.now (B.seen blocks.new) }
    ensures no_damage { IfErr result IsNoDamage }
    ensures cause { HasReadCause (B.faults blocks.old) (B.faults blocks.new) result }
{
    let generation = content.generation().max(1);
    let last = last_of(*geometry, content.records());
    let size = geometry.size;
    for index in last..geometry.log {
        clear_block(alloc, blocks, size, generation, last, index)?;
    }
    Ok(())
}

/// Makes zeros of all blocks of a log that are there, block 1 first, and forces each of them. In each
/// image of every moment, failing or not, block 1 is as it was, or the blocks spell none yet. What a
/// log is then made of stands on them. `Fault` is the device's; `Memory`: there is none for the zeros
/// of a block. `Damaged` never comes.
pub(crate) fn clear_all<B: Blocks>(
    alloc: Global,
    blocks: &mut B,
    geometry: &Geometry,
) -> Result<(), LogReadNo>
    requires allowed { IsAllowed geometry.now }
    requires shape { IsOf geometry.now (B.seen blocks.old) }
    requires settled { IsTrue B.tells → IsSettled geometry.now (B.seen blocks.old) }
    ensures moments { IsTrue B.tells → Touches (InLog geometry.now)
        (IsAsItWasOrNone geometry.now (B.seen blocks.old)) (B.seen blocks.old) (B.seen blocks.new) }
    ensures stands { IsTrue B.tells → OnOk result
        (LogStands (made geometry.now no_log) (B.seen blocks.new)) }
    ensures shape { IsOf geometry.now (B.seen blocks.new) }
    ensures no_damage { IfErr result IsNoDamage }
    ensures cause { HasReadCause (B.faults blocks.old) (B.faults blocks.new) result }
{
    zero_block(alloc, blocks, 1, geometry.size)?;
    clear_past(alloc, blocks, geometry, &LogContent::new(alloc, 0))
}

/// The index of the block to which the bytes after these records go.
fn last_of(geometry: Geometry, records: &[LogRecord]) -> u32
    requires allowed { IsAllowed geometry }
    requires fields { All HasFields records.now }
    requires size { length (bytes_of records.now) ≤ log_size geometry }
    ensures { result ≡ last_index geometry (bytes_of records.now) }
{
    let room = geometry.size as u64 - 16;
    let last = geometry.log as u64 - 1;
    (bytes_in(records) / room).min(last) as u32
}

/// Makes zeros of the block of an index, where it goes on past the last one or has a later
/// generation, and forces it.
fn clear_block<B: Blocks>(
    alloc: Global,
    blocks: &mut B,
    size: u32,
    generation: u64,
    last: u32,
    index: u32,
) -> Result<(), LogReadNo>
    requires within { 1 + index < (B.seen blocks.old).count }
    requires small { (B.seen blocks.old).count < 4294967296 }
    requires size { size ≡ (B.seen blocks.old).size }
    requires head { 16 ≤ size }
    requires some { 1 ≤ generation }
    ensures step { IsTrue B.tells
        → ClearsOne B.tells generation last index (B.seen blocks.old) (B.seen blocks.new) }
    ensures clean { IsTrue B.tells → OnOk result
        (IsStale generation last index (block_at (B.seen blocks.new).cur (1 + index)) → ⊥) }
    ensures alone { IsTrue B.tells
        → Only (B.seen blocks.old) (1 + index) (λ block.
        block ≡ block_at (B.seen blocks.old).cur (1 + index))
        → OnOk result (Only (B.seen blocks.new) (1 + index) (λ block.
        block ≡ block_at (B.seen blocks.new).cur (1 + index))) }
    ensures count { (B.seen blocks.new).count ≡ (B.seen blocks.old).count }
    ensures size { (B.seen blocks.new).size ≡ (B.seen blocks.old).size }
    ensures no_damage { IfErr result IsNoDamage }
    ensures cause { HasReadCause (B.faults blocks.old) (B.faults blocks.new) result }
{
    if !is_stale_at(blocks, generation, last, index)? {
        return Ok(());
    }
    zero_block(alloc, blocks, 1 + index, size)
}

/// Makes a block zeros, and forces it.
fn zero_block<B: Blocks>(alloc: Global, blocks: &mut B, n: u32, size: u32) -> Result<(), LogReadNo>
    requires block { n < (B.seen blocks.old).count }
    requires size { size ≡ (B.seen blocks.old).size }
    ensures zeros { IsTrue B.tells → OnOk result
        (Only (B.seen blocks.new) n (λ block. block ≡ replicate size 0)) }
    ensures put { IsTrue B.tells → OnOk result
        ((B.seen blocks.new).cur ≡ slice_set (B.seen blocks.old).cur n (replicate size 0)) }
    ensures after { Puts B.tells n (replicate size 0) (B.seen blocks.old) (B.seen blocks.new) }
    ensures no_damage { IfErr result IsNoDamage }
    ensures cause { HasReadCause (B.faults blocks.old) (B.faults blocks.new) result }
{
    let zeros = zeros_of(alloc, size)?;
    Ok(settle(blocks, n, &zeros)?)
}

/// Zeros, of this number.
fn zeros_of(alloc: Global, count: u32) -> Result<Vec<u8>, OutOfMemory>
    ensures { IfOk result (λ zeros. zeros.items ≡ replicate count 0) }
{
    Ok(vec![in alloc; 0; count as usize]?)
}

/// Whether the block of an index goes on past the last one, or has a later generation.
fn is_stale_at<B: Blocks>(
    blocks: &mut B,
    generation: u64,
    last: u32,
    index: u32,
) -> Result<bool, DeviceFault>
    requires within { 1 + index < (B.seen blocks.old).count }
    requires small { (B.seen blocks.old).count < 4294967296 }
    requires head { 16 ≤ (B.seen blocks.old).size }
    ensures stale { IsTrue B.tells → IfOk result (λ stale. IsTrue stale
        ↔ IsStale generation last index (block_at (B.seen blocks.old).cur (1 + index))) }
    ensures keeps { Keeps B.tells (B.seen blocks.old) (B.seen blocks.new) }
    ensures cause { HasCause (B.faults blocks.old) (B.faults blocks.new) result }
{
    Ok(is_stale(blocks.get(1 + index)?, generation, last, index))
}

/// The same of the block's bytes.
fn is_stale(block: &[u8], generation: u64, last: u32, index: u32) -> bool
    requires { 16 ≤ length block.now }
    ensures { IsTrue result ↔ IsStale generation last index block.now }
{
    generation < eight_at(block, 0) || last < index && goes_on(block, generation, index)
}
