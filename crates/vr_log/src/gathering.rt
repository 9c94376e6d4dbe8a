//! The bytes of a log, gathered from its blocks.
ghost use Rattle.std.specs.Prelude.{◌≡◌, ◌+◌, ◌-◌, ◌*◌, ◌<◌, ◌≤◌, [], length, IsTrue, IfOk, OnOk};
ghost use Rattle.std.specs.Prelude.{vec_len, IfErr, IfSome};
ghost use Rattle.vr_types.specs.Blocks.{Keeps};
ghost use Rattle.vr_types.specs.Faults.{HasCause};
ghost use Rattle.vr_types.specs.Geometry.{IsAllowed};
ghost use Rattle.vr_types.specs.Image.{block_at};
ghost use Rattle.vr_log.specs.LogBlock.{is_next, room_of};
ghost use Rattle.vr_log.specs.LogNow.{IsOf};
ghost use Rattle.vr_log.specs.Reading.{IsFirstFound, IsNextFound, IsGathered, IsNoDamage};
ghost use Rattle.vr_log.specs.Reading.{HasReadCause, IsYoung};

use crate::read_no::LogReadNo;
use vr_types::{Blocks, DeviceFault, Geometry, OutOfMemory, are_zeros, eight_at, four_at};

/// What block 1 says: no log yet, the generation that it begins, or neither.
#[derive(Clone, Copy)]
pub(crate) enum First {
    Zeros,
    Begins(u64),
    Bad,
}

/// What a block says: it goes on with the log and is full, the log ends with it or before it, or it
/// goes on and says more bytes than it has room for, or has others than zeros past them.
#[derive(Clone, Copy)]
enum Next {
    Full,
    Last,
    Wrong,
}

/// What block 1 says.
pub(crate) fn read_first<B: Blocks>(blocks: &mut B) -> Result<First, DeviceFault>
    requires { 1 < (B.seen blocks.old).count × 16 ≤ (B.seen blocks.old).size }
    ensures first { IsTrue B.tells
        → IfOk result (IsFirstFound (block_at (B.seen blocks.old).cur 1)) }
    ensures young { IfOk result IsYoung }
    ensures keeps { Keeps B.tells (B.seen blocks.old) (B.seen blocks.new) }
    ensures cause { HasCause (B.faults blocks.old) (B.faults blocks.new) result }
{
    Ok(first_of(blocks.get(1)?))
}

/// What a block 1 says.
fn first_of(block: &[u8]) -> First
    requires { 16 ≤ length block.now }
    ensures first { IsFirstFound block.now result }
    ensures young { IsYoung result }
{
    if are_zeros(block) {
        return First::Zeros;
    }
    let generation = eight_at(block, 0);
    if generation == 0 || generation >= 1 << 63 || four_at(block, 8) != 0 {
        return First::Bad;
    }
    First::Begins(generation)
}

/// Adds the bytes of all blocks of a generation. Where one says more bytes than it has room for, or
/// has others than zeros past them, it answers its index.
pub(crate) fn gather<B: Blocks>(
    blocks: &mut B,
    geometry: Geometry,
    generation: u64,
    bytes: &mut Vec<u8>,
) -> Result<Option<u32>, LogReadNo>
    requires allowed { IsAllowed geometry }
    requires shape { IsOf geometry (B.seen blocks.old) }
    requires none { bytes.old.items ≡ [] }
    ensures bytes { IsTrue B.tells → IfOk result (IsGathered geometry generation
        (B.seen blocks.old).cur bytes.new.items) }
    ensures most { OnOk result (vec_len bytes.new ≤ geometry.log * room_of geometry) }
    ensures within { IfOk result (λ wrong. IfSome wrong (λ index. index < geometry.log)) }
    ensures no_damage { IfErr result IsNoDamage }
    ensures keeps { Keeps B.tells (B.seen blocks.old) (B.seen blocks.new) }
    ensures cause { HasReadCause (B.faults blocks.old) (B.faults blocks.new) result }
{
    for index in 0..geometry.log {
        match take_block(blocks, generation, index, bytes)? {
            Next::Full => {}
            Next::Last => return Ok(None),
            Next::Wrong => return Ok(Some(index)),
        }
    }
    Ok(None)
}

/// Adds the bytes of the block of an index.
fn take_block<B: Blocks>(
    blocks: &mut B,
    generation: u64,
    index: u32,
    bytes: &mut Vec<u8>,
) -> Result<Next, LogReadNo>
    requires within { 1 + index < (B.seen blocks.old).count }
    requires small { (B.seen blocks.old).count < 4294967296 }
    requires head { 16 ≤ (B.seen blocks.old).size }
    ensures next { IsTrue B.tells → IfOk result (IsNextFound ((B.seen blocks.old).size - 16)
        generation index (block_at (B.seen blocks.old).cur (1 + index)) bytes.old.items
        bytes.new.items) }
    ensures most { OnOk result (vec_len bytes.new
        ≤ vec_len bytes.old + ((B.seen blocks.old).size - 16)) }
    ensures no_damage { IfErr result IsNoDamage }
    ensures keeps { Keeps B.tells (B.seen blocks.old) (B.seen blocks.new) }
    ensures cause { HasReadCause (B.faults blocks.old) (B.faults blocks.new) result }
{
    Ok(add_payload(blocks.get(1 + index)?, generation, index, bytes)?)
}

/// Whether a block goes on with a generation at an index.
#[tactic(auto, unfolding(crate::specs::LogBlock::is_next))]
pub(crate) fn goes_on(block: &[u8], generation: u64, index: u32) -> bool
    requires { 16 ≤ length block.now }
    ensures { result ≡ is_next generation index block.now }
{
    eight_at(block, 0) == generation && four_at(block, 8) == index
}

/// Adds the bytes of a block, where it goes on with the log.
#[tactic(auto, unfolding(crate::specs::LogBlock::payload_in))]
fn add_payload(
    block: &[u8],
    generation: u64,
    index: u32,
    bytes: &mut Vec<u8>,
) -> Result<Next, OutOfMemory>
    requires { 16 ≤ length block.now }
    ensures next { IfOk result (IsNextFound (length block.now - 16) generation index block.now
        bytes.old.items bytes.new.items) }
    ensures most { OnOk result (vec_len bytes.new ≤ vec_len bytes.old + (length block.now - 16)) }
{
    if !goes_on(block, generation, index) {
        return Ok(Next::Last);
    }
    let used = four_at(block, 12) as usize;
    let room = block.len() - 16;
    if room < used {
        return Ok(Next::Wrong);
    }
    bytes.extend_from_slice(&block[16..16 + used])?;
    if !are_zeros(&block[16 + used..]) {
        return Ok(Next::Wrong);
    }
    Ok(if used == room { Next::Full } else { Next::Last })
}
