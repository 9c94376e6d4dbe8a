//! The part as a chain of two areas, made byte by byte.
ghost use Rattle.std.specs.Prelude.{◌≡◌, length};
ghost use Rattle.vr_keyed_cases.specs.TheLayout.{IsVolume};

use crate::answers::{Answer, Stop, say};
use crate::format::{device_blocks, head_block};
use crate::held::{Held, boxed_blocks};
use crate::images::last_blocks;
use crate::plain::{four, two};
use crate::traced::{MOST_BLOCKS, Traced};
use std::alloc::Global;
use std::mem;
use vr_device::{MemoryDevice, memory_device};
use vr_types::{Blocks, Geometry};

/// Rewrites what was written last as a chain of two areas, on a device of its own, and attaches the
/// part to it: `chain`. There are two entries at least, in one area.
pub fn chain(alloc: Global, held: &mut Held, out: &mut String) -> Answer {
    let mut new = chained(alloc, held.geometry, held.blocks.device())?;
    mem::swap(held, &mut *new);
    say(out, "ok")
}

fn chained(alloc: Global, geometry: Geometry, device: &MemoryDevice) -> Result<Box<Held>, Stop>
    requires { IsVolume geometry }
{
    let mut blocks = last_blocks(alloc, device)?;
    make_chain(blocks.as_mut_slice())?;
    let device = memory_device(alloc, 512, device_blocks(geometry), &[])?;
    let mut traced = boxed_blocks(alloc, device, head_block(geometry))?;
    write_blocks(&mut traced, head_block(geometry), blocks.as_slice());
    let _ = traced.force(&[]);
    Held::attached(alloc, geometry, traced)
}

/// Writes the part's blocks, one after the other, from the one of this number on.
pub fn write_blocks(traced: &mut Traced, first: u32, blocks: &[u8]) {
    let mut number = first;
    for block in blocks.chunks_exact(512) {
        if number < MOST_BLOCKS {
            let _ = traced.put(number, block);
            number += 1;
        }
    }
}

/// Makes a chain of one area of the small volume: its first entry stays, and the others go to the
/// second area with copies of their intervals.
fn make_chain(blocks: &mut [u8]) -> Answer {
    if blocks.len() != 4096 || two(blocks, 2) < 2 || four(blocks, 12) != 0 {
        return Err(Stop::Line);
    }
    let (first, second) = blocks.split_at_mut(2048);
    second.copy_from_slice(first);
    keep_first(first);
    keep_others(second);
    Ok(())
}

/// Leaves a head its first entry alone, and has it lead to area 2.
fn keep_first(head: &mut [u8])
    requires { length head.old ≡ 2048 }
{
    head[3] = 1;
    head[15] = 3;
    head[52..512].fill(0);
}

/// Leaves a head the entries from the second on, without the flag of the first of a chain. The high
/// place of the first entry becomes the low place, which stands just before the entries.
fn keep_others(head: &mut [u8])
    requires { length head.old ≡ 2048 }
{
    head[1] = 0;
    head[3] = head[3].saturating_sub(1);
    head.copy_within(44..512, 32);
    head[500..512].fill(0);
}
