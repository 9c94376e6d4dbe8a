//! A plain, slow reader of a volume that was just formatted. It goes by the tables of the formats
//! alone, and shares no code with the crates: it reads each byte of the blocks that formatting
//! writes, and says what they have, or where the first byte is that they may not have.

use crate::answers::{Answer, Stop, say, say_number};
use crate::desk::Desk;
use crate::formatting::block_of;
use std::alloc::Global;
use std::fmt::Write;
use vr_device::{BlockDevice, MemoryDevice};

/// What the header says.
#[derive(Clone, Copy)]
struct Shape {
    log: u32,
    area: u32,
    number: u32,
}

/// Reads the volume: its header, its log, its catalog, and each cluster.
pub fn plain(alloc: Global, desk: &mut Desk, out: &mut String) -> Answer {
    let device = desk.device()?;
    let header = block_of(alloc, device, 0)?;
    let Some(shape) = header_of(header.as_slice(), device.size(), device.blocks()) else {
        return say(out, "no header");
    };
    let number = shape.number;
    write!(out, "volume {number}")?;
    if !is_zero(alloc, device, 1)? {
        return say(out, ", no empty log");
    }
    catalog(alloc, device, shape, out)
}

/// The number in four bytes, the high one first; 0 where they aren't there.
fn four(bytes: &[u8], at: usize) -> u32 {
    let mut number = 0u32;
    for i in 0..4usize {
        let byte = byte_at(bytes, at.saturating_add(i));
        number = number.saturating_mul(256).saturating_add(byte as u32);
    }
    number
}

/// The number in two bytes.
fn two(bytes: &[u8], at: usize) -> u32 {
    byte_at(bytes, at) as u32 * 256 + byte_at(bytes, at.saturating_add(1)) as u32
}

/// A byte, or 0 past the end.
fn byte_at(bytes: &[u8], at: usize) -> u8 {
    match bytes.get(at) {
        Some(byte) => *byte,
        None => 0,
    }
}

/// Whether each byte from one on up to another is this one.
fn are(bytes: &[u8], from: usize, to: usize, wanted: u8) -> bool {
    for (at, byte) in bytes.iter().enumerate() {
        if from <= at && at < to && *byte != wanted {
            return false;
        }
    }
    true
}

/// What the header says, where each of its bytes is right.
fn header_of(bytes: &[u8], size: u32, blocks: u32) -> Option<Shape> {
    let digits = [byte_at(bytes, 27), byte_at(bytes, 28)];
    if !bytes.starts_with(b"VRMV") || four(bytes, 4) != 1 || four(bytes, 8) != size {
        return None;
    }
    if four(bytes, 12) != blocks || !digits[0].is_ascii_digit() || !digits[1].is_ascii_digit() {
        return None;
    }
    if byte_at(bytes, 24) != 86 || byte_at(bytes, 25) != 79 || byte_at(bytes, 26) != 76 {
        return None;
    }
    if byte_at(bytes, 29) != 32 || !are(bytes, 30, bytes.len(), 0) {
        return None;
    }
    Some(Shape {
        log: four(bytes, 16),
        area: four(bytes, 20),
        number: (digits[0] % 48) as u32 * 10 + (digits[1] % 48) as u32,
    })
}

/// Whether a block is zeros.
fn is_zero(alloc: Global, device: &mut MemoryDevice, n: u32) -> Result<bool, Stop> {
    let block = block_of(alloc, device, n)?;
    let block = block.as_slice();
    Ok(are(block, 0, block.len(), 0))
}

/// The head block of an area.
fn head_of(shape: Shape, area: u32) -> u32 {
    shape
        .area
        .saturating_add(1)
        .saturating_mul(area)
        .saturating_add(shape.log)
        .saturating_add(1)
}

/// Whether a head is that of a part whose interval 0 has all places of this length.
fn is_head(bytes: &[u8], part: u32, key: usize) -> bool {
    let low = 32usize.saturating_add(key);
    let entry = low.saturating_add(4);
    byte_at(bytes, 0) == 83
        && byte_at(bytes, 1) == 1
        && two(bytes, 2) == 1
        && two(bytes, 4) == 0
        && two(bytes, 6) as usize == key
        && four(bytes, 8) == part
        && are(bytes, 12, low, 0)
        && two(bytes, low) == 1
        && two(bytes, low.saturating_add(2)) == 0
        && are(bytes, entry, entry.saturating_add(key), 255)
        && are(bytes, entry.saturating_add(key), bytes.len(), 0)
}

/// Whether a block is an interval without records.
fn is_empty(bytes: &[u8]) -> bool {
    let end = bytes.len().saturating_sub(4);
    are(bytes, 0, end, 0)
        && two(bytes, end) == 0
        && two(bytes, end.saturating_add(2)) as usize == end
}

/// Whether a block is an interval of one record of 204 bytes at its front.
fn is_one(bytes: &[u8]) -> bool {
    let end = bytes.len().saturating_sub(4);
    let control = end.saturating_sub(3);
    are(bytes, 204, control, 0)
        && byte_at(bytes, control) == 0
        && two(bytes, control.saturating_add(1)) == 204
        && two(bytes, end) == 204
        && two(bytes, end.saturating_add(2)) as usize == control.saturating_sub(204)
}

/// Reads the catalog, and the cluster that it has.
fn catalog(alloc: Global, device: &mut MemoryDevice, shape: Shape, out: &mut String) -> Answer {
    let head = block_of(alloc, device, head_of(shape, 0))?;
    if !is_head(head.as_slice(), 0, 44) {
        return say(out, ", no catalog");
    }
    let block = block_of(alloc, device, head_of(shape, 0).saturating_add(1))?;
    let block = block.as_slice();
    if is_empty(block) {
        return say(out, ", empty");
    }
    if !is_one(block) {
        return say(out, ", no records");
    }
    cluster(alloc, device, shape, block, out)
}

/// Reads the cluster that a catalog record describes, which has to be without records.
fn cluster(
    alloc: Global,
    device: &mut MemoryDevice,
    shape: Shape,
    record: &[u8],
    out: &mut String,
) -> Answer {
    let area = four(record, 68).saturating_sub(1);
    let part = four(record, 48);
    let key = two(record, 56);
    let name = first_name(record);
    let head = block_of(alloc, device, head_of(shape, area))?;
    let interval = block_of(alloc, device, head_of(shape, area).saturating_add(1))?;
    say(out, ", ")?;
    for byte in name {
        out.push(char::from(*byte))?;
    }
    write!(out, " part {part} area {area} key {key}")?;
    if !is_head(head.as_slice(), part, key as usize) || !is_empty(interval.as_slice()) {
        return say(out, ", not empty");
    }
    say(out, " at ")?;
    say_number(out, head_of(shape, area) as u64)
}

/// The name that a catalog record begins with.
fn first_name(record: &[u8]) -> &[u8] {
    let mut end = 0usize;
    for (at, byte) in record.iter().enumerate() {
        if at == end && at < 44 && *byte != 32 {
            end = at + 1;
        }
    }
    match record.get(..end) {
        Some(name) => name,
        None => &[],
    }
}
