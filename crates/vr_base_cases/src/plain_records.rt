//! The rules of the sequence-set record, plainly and slowly, over lists of its fields.

use crate::judge::Judged;
use std::alloc::{AllocError, Global};
use vr_seqset::{SeqFault, SeqView};

/// The number in two bytes.
pub fn two(bytes: &[u8], at: usize) -> usize {
    let high = bytes.get(at).copied().unwrap_or(0);
    let low = bytes.get(at.saturating_add(1)).copied().unwrap_or(0);
    high as usize * 256 + low as usize
}

/// The bytes between two places, or none where the slice is shorter.
fn range(bytes: &[u8], from: usize, to: usize) -> &[u8] {
    bytes.get(from..to).unwrap_or(&[])
}

fn are_zeros(bytes: &[u8]) -> bool {
    bytes.iter().all(|byte| *byte == 0)
}

/// The interval numbers and the high places of all entries, and where they end.
#[derive(Drop)]
struct Entries<'a> {
    numbers: Vec<usize>,
    places: Vec<&'a [u8]>,
    end: usize,
}

/// The entries, if each has an interval and all end in the block.
fn cut(alloc: Global, bytes: &[u8]) -> Result<Option<Entries<'_>>, AllocError> {
    let length = two(bytes, 6);
    let mut entries = Entries {
        numbers: Vec::new(alloc),
        places: Vec::new(alloc),
        end: length.saturating_add(32),
    };
    for _ in 0..two(bytes, 2) {
        let count = two(bytes, entries.end);
        let numbers = entries.end.saturating_add(2);
        let high = numbers.saturating_add(count.saturating_mul(2));
        let end = high.saturating_add(length);
        if count == 0 || end > bytes.len() {
            return Ok(None);
        }
        for pair in range(bytes, numbers, high).chunks(2) {
            entries.numbers.push(two(pair, 0))?;
        }
        entries.places.push(range(bytes, high, end))?;
        entries.end = end;
    }
    Ok(Some(entries))
}

/// Whether all numbers are below the limit, and none stands twice.
fn are_once_below(numbers: &[usize], limit: usize) -> bool {
    for number in numbers {
        let times = numbers.iter().filter(|other| *other == number).count();
        if *number >= limit || times != 1 {
            return false;
        }
    }
    true
}

/// Whether each place is above the one before it, and the first above the given one.
fn ascend(below: &[u8], places: &[&[u8]]) -> bool {
    let mut below = below;
    for place in places {
        if below >= *place {
            return false;
        }
        below = *place;
    }
    true
}

/// Whether the bytes without a name are zero, and a flag or a field that the record may not have.
fn has_zeros(bytes: &[u8], low: &[u8], end: usize) -> bool {
    let in_chain = if bytes.get(1) == Some(&1) {
        low
    } else {
        range(bytes, 16, 24)
    };
    bytes.get(1).is_some_and(|flag| *flag < 2)
        && are_zeros(range(bytes, 4, 6))
        && are_zeros(range(bytes, 24, 32))
        && are_zeros(in_chain)
        && are_zeros(range(bytes, end, bytes.len()))
}

/// The first rule that a block of an allowed size breaks as a record of an area of `intervals`
/// intervals.
fn first_fault(
    alloc: Global,
    bytes: &[u8],
    intervals: usize,
) -> Result<Option<SeqFault>, AllocError> {
    let length = two(bytes, 6);
    if bytes.first() != Some(&b'S') {
        return Ok(Some(SeqFault::Kind));
    }
    let Some(entries) = cut(alloc, bytes)? else {
        return Ok(Some(SeqFault::Lengths));
    };
    if length == 0 || entries.places.is_empty() {
        return Ok(Some(SeqFault::Lengths));
    }
    Ok(later_fault(bytes, length, &entries, intervals))
}

/// The first rule after that of the lengths.
fn later_fault(
    bytes: &[u8],
    length: usize,
    entries: &Entries<'_>,
    intervals: usize,
) -> Option<SeqFault> {
    let after = length.saturating_add(32);
    let room = bytes.len().saturating_sub(after) / length.saturating_add(4);
    let low = range(bytes, 32, after);
    let is_first = bytes.get(1) == Some(&1);
    if !are_once_below(entries.numbers.as_slice(), intervals.min(room)) {
        Some(SeqFault::Intervals)
    } else if !ascend(if is_first { &[] } else { low }, entries.places.as_slice()) {
        Some(SeqFault::Places)
    } else if !has_zeros(bytes, low, entries.end) {
        Some(SeqFault::Zeros)
    } else {
        None
    }
}

/// The block with another byte, where a change is 256 times its place, and the byte.
pub fn changed(alloc: Global, block: &[u8], change: usize) -> Result<Vec<u8>, AllocError> {
    let mut bytes = Vec::from_slice(alloc, block)?;
    if let Some(byte) = bytes.get_mut(change / 256) {
        *byte = (change % 256) as u8;
    }
    Ok(bytes)
}

/// Judges every block that differs in one byte of the first 60 from a block of an area of
/// `intervals` intervals.
pub fn judge(alloc: Global, block: &[u8], intervals: u16) -> Result<Judged, AllocError> {
    let mut judged = Judged::new(alloc);
    for change in 0..15_360usize {
        let bytes = changed(alloc, block, change)?;
        let fault = first_fault(alloc, bytes.as_slice(), usize::from(intervals))?;
        let read = SeqView::read(bytes.as_slice(), intervals).err();
        judged.count_bytes(alloc, read == fault, bytes.as_slice())?;
    }
    Ok(judged)
}

/// Judges each size up to that of two of the largest blocks.
pub fn judge_sizes(alloc: Global) -> Result<Judged, AllocError> {
    let mut judged = Judged::new(alloc);
    for size in 0..65_536usize {
        let mut is_size = false;
        for count in 1..=16usize {
            is_size |= size == 512 * count || size == 2_048 * count;
        }
        let same = vr_types::is_block_size(size) == is_size;
        judged.count(same, "")?;
    }
    Ok(judged)
}
