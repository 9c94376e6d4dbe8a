//! A device in memory that is formatted, its bytes, and its calls failing in turn.

use crate::answers::{Answer, Stop, say, say_bytes, say_formatted, say_number};
use crate::desk::Desk;
use crate::words::{number, numbers, parted};
use std::alloc::Global;
use vr_case_volumes::format_spelled;
use vr_device::{BlockDevice, MemoryDevice, memory_device};
use vr_format::{FormatNo, format_volume};
use vr_types::OutOfMemory;

/// The largest block, in bytes, and the most blocks.
const LIMIT: u32 = 4096;

/// Makes the device, each byte of it this one: `SIZE BLOCKS BYTE`.
pub fn device(alloc: Global, desk: &mut Desk, rest: &str, out: &mut String) -> Answer {
    let shape = numbers(alloc, rest)?;
    let [size, blocks, byte] = shape.as_slice() else {
        return Err(Stop::Line);
    };
    let mut device = new_device(alloc, *size, *blocks, &[])?;
    fill(alloc, &mut device, (*byte % 256) as u8)?;
    desk.set(device);
    say(out, "ok")
}

/// A device of zeros whose calls of these numbers fail.
fn new_device(alloc: Global, size: u32, blocks: u32, fails: &[u64]) -> Result<MemoryDevice, Stop> {
    if size > LIMIT || blocks > LIMIT {
        return Err(Stop::Line);
    }
    match memory_device(alloc, size, blocks, fails) {
        Ok(device) => Ok(device),
        Err(OutOfMemory) => Err(Stop::Memory),
    }
}

/// Makes each byte this one.
fn fill(alloc: Global, device: &mut MemoryDevice, byte: u8) -> Answer {
    let block = vec![in alloc; byte; device.size() as usize]?;
    write_all(device, block.as_slice())
}

fn write_all(device: &mut MemoryDevice, block: &[u8]) -> Answer {
    for n in 0..device.blocks() {
        write(device, n, block)?;
    }
    device.sync().ok().ok_or(Stop::Line)
}

/// Writes a block of the device.
pub fn write(device: &mut MemoryDevice, n: u32, block: &[u8]) -> Answer {
    if n >= device.blocks() || block.len() != device.size() as usize {
        return Err(Stop::Line);
    }
    device.write(n, block).ok().ok_or(Stop::Line)
}

/// Formats the device: `NUMBER LOG AREA`.
pub fn format(alloc: Global, desk: &mut Desk, rest: &str, out: &mut String) -> Answer {
    let words = numbers(alloc, rest)?;
    let [number, log, area] = words.as_slice() else {
        return Err(Stop::Line);
    };
    let result = format_device(alloc, desk.device()?, *number, *log, *area)?;
    say_formatted(out, result)
}

/// Formats the device with the entries that the line spells.
pub fn entries(alloc: Global, desk: &mut Desk, rest: &str, out: &mut String) -> Answer {
    let result = format_spelled(alloc, desk.device()?, rest)?;
    say_formatted(out, result)
}

/// Formats a device as a volume, whose number has two digits.
fn format_device(
    alloc: Global,
    device: &mut MemoryDevice,
    number: u32,
    log: u32,
    area: u32,
) -> Result<Result<(), FormatNo>, Stop> {
    if number > 99 {
        return Err(Stop::Line);
    }
    Ok(format_volume(alloc, device, number, log, area))
}

/// The bytes of a block: `N FROM COUNT`.
pub fn show(alloc: Global, desk: &mut Desk, rest: &str, out: &mut String) -> Answer {
    let words = numbers(alloc, rest)?;
    let [n, from, count] = words.as_slice() else {
        return Err(Stop::Line);
    };
    let block = block_of(alloc, desk.device()?, *n)?;
    let from = *from as usize;
    match block
        .as_slice()
        .get(from..from.saturating_add(*count as usize))
    {
        Some(bytes) => say_bytes(alloc, out, bytes),
        None => Err(Stop::Line),
    }
}

/// The bytes of a block.
pub fn block_of(alloc: Global, device: &mut MemoryDevice, n: u32) -> Result<Vec<u8>, Stop> {
    let mut into = vec![in alloc; 0; device.size() as usize]?;
    match read(device, n, &mut into) {
        Ok(()) => Ok(into),
        Err(stop) => Err(stop),
    }
}

fn read(device: &mut MemoryDevice, n: u32, into: &mut [u8]) -> Result<(), Stop> {
    if n >= device.blocks() || into.len() != device.size() as usize {
        return Err(Stop::Line);
    }
    device.read(n, into).ok().ok_or(Stop::Line)
}

/// How many calls of the device there were.
pub fn calls(desk: &mut Desk, out: &mut String) -> Answer {
    say_number(out, desk.device()?.calls())
}

/// What formatting answers where the first call of the device fails, where the second does, and so
/// on, up to the first number at which it is Ok: `SIZE BLOCKS NUMBER LOG AREA`.
pub fn faults(alloc: Global, rest: &str, out: &mut String) -> Answer {
    let words = numbers(alloc, rest)?;
    let [size, blocks, number, log, area] = words.as_slice() else {
        return Err(Stop::Line);
    };
    for call in 0..20u64 {
        let mut device = new_device(alloc, *size, *blocks, &[call])?;
        let result = format_device(alloc, &mut device, *number, *log, *area)?;
        if result.is_ok() {
            say(out, "ok at ")?;
            return say_number(out, call);
        }
        say_formatted(out, result)?;
        say(out, " ")?;
    }
    say(out, "never ok")
}
