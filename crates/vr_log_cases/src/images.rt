//! The device of the volume: how it is made, the bytes of its blocks, and what a crash leaves.

use crate::answers::{Answer, Stop, say, say_bytes, say_number};
use crate::desk::Desk;
use crate::words::{bytes_of, long_number, number, numbers, parted};
use std::alloc::Global;
use vr_device::{BlockDevice, ImageNo, MemoryDevice, memory_device};
use vr_types::{Geometry, OutOfMemory};

/// The largest block, in bytes, and the most blocks.
const LIMIT: u32 = 4096;

/// Makes the volume, of zeros: `SIZE BLOCKS LOG AREA`.
pub fn volume(alloc: Global, desk: &mut Desk, rest: &str, out: &mut String) -> Answer {
    let shape = numbers(alloc, rest)?;
    let [size, blocks, log, area] = shape.as_slice() else {
        return Err(Stop::Line);
    };
    let geometry = Geometry {
        size: *size,
        blocks: *blocks,
        log: *log,
        area: *area,
    };
    if *size > LIMIT || *blocks > LIMIT || !geometry.is_allowed() {
        return Err(Stop::Line);
    }
    let device = new_device(alloc, geometry)?;
    desk.set(device, geometry);
    say(out, "ok")
}

/// A device of zeros.
pub fn new_device(alloc: Global, geometry: Geometry) -> Result<MemoryDevice, Stop> {
    match memory_device(alloc, geometry.size, geometry.blocks, &[]) {
        Ok(device) => Ok(device),
        Err(OutOfMemory) => Err(Stop::Memory),
    }
}

/// Makes a block these bytes, and zeros after them: `N HEX..`.
pub fn block(alloc: Global, desk: &mut Desk, rest: &str, out: &mut String) -> Answer {
    let (n, digits) = parted(rest);
    let n = number(n)?;
    let bytes = bytes_of(alloc, digits)?;
    set_block(alloc, desk.device()?, n, bytes.as_slice(), out)
}

fn set_block(
    alloc: Global,
    device: &mut MemoryDevice,
    n: u32,
    bytes: &[u8],
    out: &mut String,
) -> Answer {
    let mut block = vec![in alloc; 0; device.size() as usize]?;
    match block.as_mut_slice().get_mut(..bytes.len()) {
        Some(start) => start.copy_from_slice(bytes),
        None => return Err(Stop::Line),
    }
    write(device, n, block.as_slice())?;
    say(out, "ok")
}

/// Writes a block, and makes it stable.
pub fn write(device: &mut MemoryDevice, n: u32, block: &[u8]) -> Answer {
    if n >= device.blocks() || block.len() != device.size() as usize {
        return Err(Stop::Line);
    }
    device.write(n, block).ok().ok_or(Stop::Line)?;
    device.sync().ok().ok_or(Stop::Line)
}

/// The first bytes of a block: `N COUNT`.
pub fn show(alloc: Global, desk: &mut Desk, rest: &str, out: &mut String) -> Answer {
    let (n, count) = parted(rest);
    let n = number(n)?;
    let count = number(count)?;
    let block = block_of(alloc, desk.device()?, n)?;
    match block.as_slice().get(..count as usize) {
        Some(bytes) => say_bytes(alloc, out, bytes),
        None => Err(Stop::Line),
    }
}

/// The bytes of a block.
pub fn block_of(alloc: Global, device: &mut MemoryDevice, n: u32) -> Result<Vec<u8>, Stop> {
    let mut into = vec![in alloc; 0; device.size() as usize]?;
    match read(device, n, &mut into) {
        Ok(()) => Ok(into),
        Err(stop) => Err(stop),
    }
}

fn read(device: &mut MemoryDevice, n: u32, into: &mut [u8]) -> Result<(), Stop> {
    if n >= device.blocks() || into.len() != device.size() as usize {
        return Err(Stop::Line);
    }
    device.read(n, into).ok().ok_or(Stop::Line)
}

/// Makes every call after the next ones fail: `COUNT`.
pub fn stop(desk: &mut Desk, rest: &str, out: &mut String) -> Answer {
    let count = long_number(rest)?;
    let device = desk.device()?;
    let call = device.calls().saturating_add(count);
    device.stop(call);
    say(out, "ok")
}

/// Makes the volume what a crash leaves, without a log: `CHOICE..`, of each block which content.
pub fn crash(alloc: Global, desk: &mut Desk, rest: &str, out: &mut String) -> Answer {
    let choice = numbers(alloc, rest)?;
    let left = image(alloc, desk, choice.as_slice())?;
    match left {
        Ok(device) => {
            let geometry = desk.geometry()?;
            desk.set(device, geometry);
            say(out, "ok")
        }
        Err(block) => {
            say(out, "choice ")?;
            say_number(out, block as u64)
        }
    }
}

/// The image that a choice gives, or the block that it misfits.
fn image(
    alloc: Global,
    desk: &mut Desk,
    choice: &[u32],
) -> Result<Result<MemoryDevice, u32>, Stop> {
    image_of(alloc, desk.device()?, choice)
}

/// The image that a choice gives, or the block that it misfits.
pub fn image_of(
    alloc: Global,
    device: &MemoryDevice,
    choice: &[u32],
) -> Result<Result<MemoryDevice, u32>, Stop> {
    match device.image(alloc, choice) {
        Ok(left) => Ok(Ok(left)),
        Err(ImageNo::Choice { block }) => Ok(Err(block)),
        Err(ImageNo::Memory) => Err(Stop::Memory),
    }
}
