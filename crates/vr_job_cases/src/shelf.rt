//! The devices of the shelf.

use crate::answers::{Answer, Stop, long_number, number, say, say_number};
use crate::desk::Desk;
use crate::escapes::bytes_of;
use std::alloc::Global;
use vr_case_volumes::format_spelled;
use vr_device::{BlockDevice, MemoryDevice, memory_device};
use vr_format::FormatNo;

/// The most bytes of a device.
const LIMIT: u64 = 1 << 24;

/// A shelf of new devices, each all zeros: `shelf DEVICE..`. A device is `SIZExBLOCKS`, with
/// `:CALL,CALL..` where these calls of it fail.
pub fn shelf(alloc: Global, desk: &mut Desk, rest: &str, out: &mut String) -> Answer {
    let mut shelf = Vec::new(alloc);
    add_devices(alloc, &mut shelf, rest)?;
    desk.set(shelf);
    say(out, "ok")
}

fn add_devices(alloc: Global, shelf: &mut Vec<MemoryDevice>, rest: &str) -> Answer {
    for word in rest.split(' ') {
        if !word.is_empty() {
            shelf.push(device_of(alloc, word)?)?;
        }
    }
    Ok(())
}

/// The device of a word.
fn device_of(alloc: Global, word: &str) -> Result<MemoryDevice, Stop> {
    let (shape, calls) = word.split_once(':').unwrap_or((word, ""));
    let (size, blocks) = shape.split_once('x').ok_or(Stop::Line)?;
    let fails = calls_of(alloc, calls)?;
    new_device(alloc, number(size)?, number(blocks)?, fails.as_slice())
}

/// The numbers of calls that a text has, separated by commas.
pub fn calls_of(alloc: Global, text: &str) -> Result<Vec<u64>, Stop> {
    let mut calls = Vec::new(alloc);
    match add_calls(&mut calls, text) {
        Ok(()) => Ok(calls),
        Err(stop) => Err(stop),
    }
}

fn add_calls(calls: &mut Vec<u64>, text: &str) -> Answer {
    for word in text.split(',') {
        if !word.is_empty() {
            calls.push(long_number(word)?)?;
        }
    }
    Ok(())
}

/// A device of zeros whose calls of these numbers fail.
pub fn new_device(
    alloc: Global,
    size: u32,
    blocks: u32,
    fails: &[u64],
) -> Result<MemoryDevice, Stop> {
    if u64::from(size) * u64::from(blocks) > LIMIT {
        return Err(Stop::Line);
    }
    Ok(memory_device(alloc, size, blocks, fails)?)
}

/// A shelf of one such device.
pub fn new_shelf(
    alloc: Global,
    size: u32,
    blocks: u32,
    fails: &[u64],
) -> Result<Vec<MemoryDevice>, Stop> {
    let device = new_device(alloc, size, blocks, fails)?;
    let mut shelf = Vec::new(alloc);
    shelf.push(device)?;
    Ok(shelf)
}

/// Formats the device N as volume N with the entries that the line spells:
/// `format N LOG AREA / NAME KIND PART KEY OFFSET AVERAGE MAXIMUM / ..`.
pub fn format(alloc: Global, desk: &mut Desk, rest: &str, out: &mut String) -> Answer {
    let (at, _) = rest.split_once(' ').ok_or(Stop::Line)?;
    let device = desk.device(number(at)? as usize)?;
    match format_spelled(alloc, device, rest)? {
        Ok(()) => say(out, "ok"),
        Err(FormatNo::Memory) => Err(Stop::Memory),
        Err(_) => say(out, "no"),
    }
}

/// How many calls each device was called with so far: `calls`.
pub fn calls(desk: &mut Desk, out: &mut String) -> Answer {
    for device in desk.devices() {
        let before = if out.is_empty() { "" } else { " " };
        say_number(out, before, device.calls())?;
    }
    Ok(())
}

/// Keeps the device of this number alone: `keep DEVICE`.
pub fn keep(alloc: Global, desk: &mut Desk, rest: &str, out: &mut String) -> Answer {
    let at = number(rest)? as usize;
    let mut shelf = desk.take(alloc);
    if at >= shelf.len() {
        return Err(Stop::Line);
    }
    let device = shelf.swap_remove(at);
    let mut kept = Vec::new(alloc);
    kept.push(device)?;
    desk.set(kept);
    say(out, "ok")
}

/// Makes each call of each device fail after so many more: `stop N`.
pub fn stop(desk: &mut Desk, rest: &str, out: &mut String) -> Answer {
    let more = long_number(rest)?;
    for device in desk.devices() {
        let at = device.calls().saturating_add(more);
        device.stop(at);
    }
    say(out, "ok")
}

/// Writes bytes into a block of a device, at a place in it: `write DEVICE BLOCK PLACE TEXT`.
pub fn write(alloc: Global, desk: &mut Desk, rest: &str, out: &mut String) -> Answer {
    let (at, rest) = rest.split_once(' ').ok_or(Stop::Line)?;
    let (block, rest) = rest.split_once(' ').ok_or(Stop::Line)?;
    let (place, text) = rest.split_once(' ').ok_or(Stop::Line)?;
    let place = number(place)? as usize;
    let block = number(block)?;
    let bytes = bytes_of(alloc, text)?;
    let device = desk.device(number(at)? as usize)?;
    let mut whole = vec![in alloc; 0; device.size() as usize]?;
    change(device, block, place, bytes.as_slice(), whole.as_mut_slice())?;
    say(out, "ok")
}

/// Writes bytes into a block, by a buffer of its size.
fn change(
    device: &mut MemoryDevice,
    block: u32,
    place: usize,
    bytes: &[u8],
    whole: &mut [u8],
) -> Answer {
    if block >= device.blocks() || device.size() as usize != whole.len() {
        return Err(Stop::Line);
    }
    device.read(block, whole).ok().ok_or(Stop::Line)?;
    put_in(whole, place, bytes)?;
    device.write(block, whole).ok().ok_or(Stop::Line)
}

/// Puts bytes into a buffer.
fn put_in(whole: &mut [u8], place: usize, bytes: &[u8]) -> Answer {
    let rest = whole.get_mut(place..).ok_or(Stop::Line)?;
    let part = rest.get_mut(..bytes.len()).ok_or(Stop::Line)?;
    part.copy_from_slice(bytes);
    Ok(())
}
