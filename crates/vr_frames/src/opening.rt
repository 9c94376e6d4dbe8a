//! A new pool.
ghost use Rattle.std.specs.Prelude.{◌≡◌, IfOk, length};
ghost use Rattle.vr_frames.specs.Frames.{frame_count, frame_size, IsSeatOf, IsFirstSeat};
ghost use Rattle.vr_frames.specs.Search.{IsFullRow};

use crate::seat::FrameSeat;
use crate::shared::Pool;
use crate::view::Buffer;
use atomic_table::{Refused, Table};
use std::alloc::Global;
use vr_types::OutOfMemory;

/// A pool of `frames` frames of `size` bytes, which are made here once, and its first seat, which
/// has all 1,024 parts and no frame. Memory may run out, and nothing else fails: a pool of no
/// frames, or of frames without a byte, is a pool too.
pub fn pool(alloc: Global, frames: u32, size: u32) -> Result<(Pool, FrameSeat), OutOfMemory>
    ensures count { IfOk result (λ made. frame_count made.0 ≡ frames) }
    ensures size { IfOk result (λ made. frame_size made.0 ≡ size) }
    ensures of_pool { IfOk result (λ made. IsSeatOf made.0 made.1) }
    ensures seat { IfOk result (λ made. IsFirstSeat made.1) }
{
    let words = vec![in alloc; 0u64; frames as usize + 1]?;
    let slots = buffers(alloc, frames, size)?;
    match Table::new(alloc, words.as_slice(), slots, &size) {
        Ok((table, place)) => Ok((Pool { table, frames }, FrameSeat { place, next: 0 })),
        Err(Refused { slots: _ }) => Err(OutOfMemory),
    }
}

/// The buffers, each in its slot.
fn buffers(alloc: Global, frames: u32, size: u32) -> Result<Vec<Option<Buffer>>, OutOfMemory>
    ensures { IfOk result (λ slots. IsFullRow size slots.items × (length slots.items ≡ frames)) }
{
    let mut slots = Vec::with_capacity(alloc, frames as usize)?;
    for _ in 0..frames {
        slots.push(Some(vec![in alloc; 0u8; size as usize]?))?;
    }
    Ok(slots)
}
