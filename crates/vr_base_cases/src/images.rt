//! The device in memory: how it is made, what it counts, and the images that a crash leaves.

use crate::device_answers::say_no_image;
use crate::device_calls::read;
use crate::held::Held;
use std::alloc::Global;
use vr_case_table::{Answer, Answers, Stop, long_of, longs_of, numbers_of, parted, word_of};
use vr_device::{BlockDevice, MemoryDevice, memory_device};
use vr_types::OutOfMemory;

/// The largest block, in bytes, and the most blocks.
const LIMIT: u32 = 512;

/// Makes the device: `SIZE BLOCKS FAILS..`.
pub fn make(alloc: Global, held: &mut Held, rest: &str, out: &mut Answers) -> Answer {
    let (size, rest) = parted(rest);
    let (blocks, fails) = parted(rest);
    let size = word_of(size)?;
    let blocks = word_of(blocks)?;
    if size > LIMIT || blocks > LIMIT {
        return Err(Stop::Line);
    }
    let device = new_device(alloc, size, blocks, fails)?;
    held.set(Held::Memory(device));
    out.ok()
}

/// A device whose calls of these numbers fail.
fn new_device(alloc: Global, size: u32, blocks: u32, fails: &str) -> Result<MemoryDevice, Stop> {
    let fails = longs_of(alloc, fails)?;
    match memory_device(alloc, size, blocks, fails.as_slice()) {
        Ok(device) => Ok(device),
        Err(OutOfMemory) => Err(Stop::Memory),
    }
}

/// Makes the calls from a number on fail: `NUMBER`.
pub fn stop(held: &mut Held, rest: &str, out: &mut Answers) -> Answer {
    let call = long_of(rest)?;
    held.memory()?.stop(call);
    out.ok()
}

/// How many calls were made, and how many of them failed out of memory.
pub fn counts(held: &mut Held, out: &mut Answers) -> Answer {
    let device = held.memory()?;
    let calls = device.calls();
    let refused = device.refused();
    out.say_number("", calls);
    out.say_number(" ", refused);
    Ok(())
}

/// The blocks of the image that a choice gives: `NUMBER..`.
pub fn image(alloc: Global, held: &mut Held, rest: &str, out: &mut Answers) -> Answer {
    let device = held.memory()?;
    let choice = numbers_of(alloc, rest)?;
    say_image(alloc, device, choice.as_slice(), out)
}

fn say_image(alloc: Global, device: &MemoryDevice, choice: &[u32], out: &mut Answers) -> Answer {
    match device.image(alloc, choice) {
        Ok(mut left) => say_blocks(alloc, &mut left, out),
        Err(no) => say_no_image(no, out),
    }
}

/// Each block of a device.
fn say_blocks<D: BlockDevice>(alloc: Global, device: &mut D, out: &mut Answers) -> Answer {
    for n in 0..device.blocks() {
        if n > 0 {
            out.say(" ");
        }
        if n < device.blocks() {
            read(alloc, device, n, out)?;
        }
    }
    Ok(())
}
