//! Bytes of the blocks of the device.

use crate::answers::{Answer, Stop, say};
use crate::desk::Desk;
use crate::words::{bytes_in, number, parted};
use std::alloc::Global;
use vr_device::{BlockDevice, MemoryDevice};

/// Writes bytes into a block of the device: `N FROM HEX`.
pub fn put(alloc: Global, desk: &mut Desk, rest: &str, out: &mut String) -> Answer {
    let (n, rest) = parted(rest);
    let (from, digits) = parted(rest);
    let bytes = bytes_in(alloc, digits)?;
    put_bytes(
        alloc,
        desk.device()?,
        number(n)?,
        number(from)? as usize,
        &bytes,
    )?;
    say(out, "ok")
}

fn put_bytes(
    alloc: Global,
    device: &mut MemoryDevice,
    n: u32,
    from: usize,
    bytes: &[u8],
) -> Answer {
    let mut block = block_of(alloc, device, n)?;
    change(&mut block, from, bytes)?;
    write(device, n, &block)
}

/// The bytes of a block.
fn block_of(alloc: Global, device: &mut MemoryDevice, n: u32) -> Result<Vec<u8>, Stop> {
    let mut into = vec![in alloc; 0; device.size() as usize]?;
    match read(device, n, &mut into) {
        Ok(()) => Ok(into),
        Err(stop) => Err(stop),
    }
}

fn read(device: &mut MemoryDevice, n: u32, into: &mut [u8]) -> Answer {
    if n >= device.blocks() || into.len() != device.size() as usize {
        return Err(Stop::Line);
    }
    device.read(n, into).ok().ok_or(Stop::Line)
}

/// Makes the bytes from a byte on these.
fn change(block: &mut [u8], from: usize, bytes: &[u8]) -> Answer {
    if from > block.len() || bytes.len() > block.len() - from {
        return Err(Stop::Line);
    }
    block[from..from + bytes.len()].copy_from_slice(bytes);
    Ok(())
}

/// Writes a block of the device, and forces it.
fn write(device: &mut MemoryDevice, n: u32, block: &[u8]) -> Answer {
    if n >= device.blocks() || block.len() != device.size() as usize {
        return Err(Stop::Line);
    }
    device.write(n, block).ok().ok_or(Stop::Line)?;
    device.sync().ok().ok_or(Stop::Line)
}
