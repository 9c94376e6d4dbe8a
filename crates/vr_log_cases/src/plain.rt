//! What blocks spell, plainly and slowly: every length is tried for the next record.

use crate::answers::Stop;
use vr_log::{EndKind, LogRecord};
use vr_types::{Bytes, Unit};

/// Blocks one after another, from block 0 to the last of the log.
#[derive(Clone, Copy)]
pub struct Blocks<'a> {
    pub bytes: &'a [u8],
    pub size: usize,
    pub log: usize,
}

/// What was found: the generation, how many bytes its records take, and the first block that is
/// misspelled, or 0.
#[derive(Clone, Copy, PartialEq, Eq)]
pub struct Found {
    pub generation: u64,
    pub end: usize,
    pub damaged: u64,
}

/// The number in some bytes, high byte first. Bytes that aren't there count as zero.
fn number_at(bytes: &[u8], at: usize, count: usize) -> u64 {
    let mut number = 0u64;
    for i in 0..count {
        let byte = bytes.get(at.saturating_add(i)).copied().unwrap_or(0);
        number = number.wrapping_mul(256).wrapping_add(u64::from(byte));
    }
    number
}

/// Some bytes, none where they aren't all there.
fn slice(bytes: &[u8], from: usize, count: usize) -> &[u8] {
    bytes.get(from..from.saturating_add(count)).unwrap_or(&[])
}

fn are_zeros(bytes: &[u8]) -> bool {
    bytes.iter().all(|byte| *byte == 0)
}

/// Whether the bytes are one record, no more and no less.
fn is_record(bytes: &[u8]) -> bool {
    match bytes.first() {
        Some(1) => is_before(bytes),
        Some(2) | Some(3) => bytes.len() == 9,
        _ => false,
    }
}

fn is_before(bytes: &[u8]) -> bool {
    let flag_at = number_at(bytes, 13, 2).saturating_add(15);
    let place_end = flag_at as usize;
    let length = number_at(bytes, place_end.saturating_add(1), 4);
    let all = flag_at.saturating_add(5);
    match bytes.get(place_end) {
        Some(0) => length == 0 && bytes.len() as u64 == all,
        Some(1) => bytes.len() as u64 == all.saturating_add(length),
        _ => false,
    }
}

/// The length of the record that the bytes begin with, or 0.
fn record_length(bytes: &[u8]) -> usize {
    for length in 9..bytes.len().saturating_add(1) {
        if is_record(slice(bytes, 0, length)) {
            return length;
        }
    }
    0
}

/// Whether the bytes are fewer than the record needs that they begin.
fn is_cut(bytes: &[u8]) -> bool {
    (bytes.len() as u64) < needed(bytes)
}

/// How many bytes a record needs, by those of its fields that are there.
fn needed(bytes: &[u8]) -> u64 {
    if bytes.len() < 9 || bytes.first() != Some(&1) {
        return 9;
    }
    if bytes.len() < 15 {
        return 15;
    }
    let length_at = number_at(bytes, 13, 2).saturating_add(16);
    let rest_at = length_at.saturating_add(4);
    if (bytes.len() as u64) < rest_at {
        return rest_at;
    }
    rest_at.saturating_add(number_at(bytes, length_at as usize, 4))
}

/// Adds the bytes of the generation's blocks, and answers the block that says too many, or has
/// others than zeros past them, or 0.
fn gather(blocks: Blocks<'_>, generation: u64, into: &mut Vec<u8>) -> Result<u64, Stop> {
    let room = blocks.size.saturating_sub(16);
    for index in 0..blocks.log {
        let start = index.saturating_add(1).saturating_mul(blocks.size);
        let block = slice(blocks.bytes, start, blocks.size);
        if number_at(block, 0, 8) != generation || number_at(block, 8, 4) != index as u64 {
            return Ok(0);
        }
        let used = number_at(block, 12, 4);
        if used > room as u64 {
            return Ok((index as u64).saturating_add(1));
        }
        into.extend_from_slice(slice(block, 16, used as usize))?;
        let rest = room.saturating_sub(used as usize);
        if !are_zeros(slice(block, blocks.size.saturating_sub(rest), rest)) {
            return Ok((index as u64).saturating_add(1));
        }
        if used < room as u64 {
            return Ok(0);
        }
    }
    Ok(0)
}

/// Where the records end.
fn records_end(bytes: &[u8]) -> usize {
    let mut end = 0usize;
    for _ in 0..bytes.len() {
        let length = record_length(bytes.get(end..).unwrap_or(&[]));
        end = end.saturating_add(length);
        if length == 0 {
            return end;
        }
    }
    end
}

/// Whether one of the records is of the unit, which is given by its bytes.
fn has_unit(bytes: &[u8], unit: &[u8]) -> bool {
    let mut at = 0usize;
    for _ in 0..bytes.len() {
        let length = record_length(bytes.get(at..).unwrap_or(&[]));
        if length == 0 {
            return false;
        }
        if slice(bytes, at.saturating_add(1), 8) == unit {
            return true;
        }
        at = at.saturating_add(length);
    }
    false
}

/// The bytes in use: those of the records, and 9 for the end of each unit whose last record is a
/// before-image.
fn used_by(bytes: &[u8]) -> usize {
    let mut used = bytes.len();
    let mut at = 0usize;
    for _ in 0..bytes.len() {
        let length = record_length(bytes.get(at..).unwrap_or(&[]));
        if length == 0 {
            return used;
        }
        let end = at.saturating_add(length);
        let unit = slice(bytes, at.saturating_add(1), 8);
        if bytes.get(at) == Some(&1) && !has_unit(bytes.get(end..).unwrap_or(&[]), unit) {
            used = used.saturating_add(9);
        }
        at = end;
    }
    used
}

/// What the blocks spell. `into` gets the bytes of the generation.
pub fn find(blocks: Blocks<'_>, into: &mut Vec<u8>) -> Result<Found, Stop> {
    let first = slice(blocks.bytes, blocks.size, blocks.size);
    let generation = number_at(first, 0, 8);
    if are_zeros(first) {
        return Ok(found_of(0, 0, 0));
    }
    if generation == 0 || generation >= 1 << 63 || number_at(first, 8, 4) != 0 {
        return Ok(found_of(0, 0, 1));
    }
    let wrong = gather(blocks, generation, into)?;
    let end = records_end(into);
    let room = blocks.size.saturating_sub(16).max(1);
    if is_cut(into.get(end..).unwrap_or(&[])) {
        let crowded = used_by(slice(into, 0, end)) > room.saturating_mul(blocks.log);
        let shown = if wrong == 0 && crowded { 1 } else { wrong };
        return Ok(found_of(generation, end, shown));
    }
    let block = (end / room).saturating_add(1) as u64;
    Ok(found_of(generation, end, block))
}

fn found_of(generation: u64, end: usize, damaged: u64) -> Found {
    Found {
        generation,
        end,
        damaged,
    }
}

/// Adds the bytes of a record.
pub fn add_record(into: &mut Vec<u8>, rec: &LogRecord) -> Result<(), Stop> {
    match rec {
        LogRecord::Before {
            unit,
            part,
            place,
            old,
        } => {
            into.push(1)?;
            add_unit(into, *unit)?;
            into.extend_from_slice(&part.0.to_be_bytes())?;
            let length = place.as_slice().len() as u64;
            into.extend_from_slice(slice(&length.to_be_bytes(), 6, 2))?;
            into.extend_from_slice(place.as_slice())?;
            add_old(into, old)
        }
        LogRecord::End { unit, kind } => {
            into.push(if *kind == EndKind::Committed { 2 } else { 3 })?;
            add_unit(into, *unit)
        }
    }
}

fn add_unit(into: &mut Vec<u8>, unit: Unit) -> Result<(), Stop> {
    into.extend_from_slice(&unit.deck.to_be_bytes())?;
    into.extend_from_slice(&unit.number.to_be_bytes())?;
    Ok(())
}

fn add_old(into: &mut Vec<u8>, old: &Option<Bytes>) -> Result<(), Stop> {
    match old {
        None => into.extend_from_slice(&[0, 0, 0, 0, 0])?,
        Some(bytes) => {
            into.push(1)?;
            let length = bytes.len() as u64;
            into.extend_from_slice(slice(&length.to_be_bytes(), 4, 4))?;
            into.extend_from_slice(bytes.as_slice())?;
        }
    }
    Ok(())
}
