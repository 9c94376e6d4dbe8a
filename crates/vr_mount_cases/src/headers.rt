//! Headers, read from a device in memory.

use crate::answers::{Answer, Stop, say, say_number};
use crate::words::{parted, put_pieces, word_of};
use std::alloc::Global;
use std::fmt::Write;
use vr_device::{BlockDevice, MemoryDevice, direct, memory_device};
use vr_mount::{HeaderNo, read_header};
use vr_types::{Geometry, OutOfMemory};

/// The largest block, in bytes, and the most blocks.
const LIMIT: u32 = 4096;

/// What reading the header of a volume of this number answers, where block 0 has these pieces:
/// `SIZE BLOCKS NUMBER PIECES`. The calls of the device of these numbers fail.
pub fn header(alloc: Global, rest: &str, fails: &[u64], out: &mut String) -> Answer {
    let (size, rest) = parted(rest);
    let (blocks, rest) = parted(rest);
    let (number, pieces) = parted(rest);
    let number = word_of(number)?;
    let mut device = new_device(alloc, word_of(size)?, word_of(blocks)?, fails)?;
    put_first(alloc, &mut device, pieces)?;
    read(alloc, device, number, out)
}

fn new_device(alloc: Global, size: u32, blocks: u32, fails: &[u64]) -> Result<MemoryDevice, Stop> {
    if size > LIMIT || blocks > LIMIT {
        return Err(Stop::Line);
    }
    match memory_device(alloc, size, blocks, fails) {
        Ok(device) => Ok(device),
        Err(OutOfMemory) => Err(Stop::Memory),
    }
}

/// Writes block 0, if there is one, with these pieces in zeros.
fn put_first(alloc: Global, device: &mut MemoryDevice, pieces: &str) -> Answer {
    let mut block = vec![in alloc; 0; device.size() as usize]?;
    put_pieces(alloc, block.as_mut_slice(), pieces)?;
    write_first(device, block.as_slice())
}

fn write_first(device: &mut MemoryDevice, block: &[u8]) -> Answer {
    if device.blocks() == 0 {
        return Ok(());
    }
    if block.len() != device.size() as usize {
        return Err(Stop::Line);
    }
    device.write(0, block).ok().ok_or(Stop::Line)
}

fn read(alloc: Global, device: MemoryDevice, number: u32, out: &mut String) -> Answer {
    let count = device.blocks();
    match direct(alloc, device) {
        Ok(mut blocks) => say_header(out, read_header(&mut blocks, count, number)),
        Err(_device) => Err(Stop::Memory),
    }
}

fn say_header(out: &mut String, read: Result<Geometry, HeaderNo>) -> Answer {
    match read {
        Ok(geometry) => say_shape(out, geometry),
        Err(HeaderNo::Damaged) => say(out, "damaged"),
        Err(HeaderNo::Version { found }) => {
            say(out, "version ")?;
            say_number(out, found as u64)
        }
        Err(HeaderNo::Read) => say(out, "read"),
        Err(HeaderNo::Write) => say(out, "write"),
    }
}

fn say_shape(out: &mut String, geometry: Geometry) -> Answer {
    let size = geometry.size;
    let blocks = geometry.blocks;
    let log = geometry.log;
    let area = geometry.area;
    write!(out, "{size} {blocks} {log} {area}")?;
    Ok(())
}
