//! The rules of the roster, plainly and slowly, byte by byte.

use crate::judge::Judged;
use crate::plain_records::{changed, two};
use std::alloc::{AllocError, Global};
use vr_seqset::{RosterView, SeqFault};

/// The number in four bytes.
fn four(bytes: &[u8], at: usize) -> usize {
    let low = two(bytes, at.saturating_add(2));
    two(bytes, at).saturating_mul(65_536).saturating_add(low)
}

/// Whether the byte is of a field: the kind, the intervals used, the part or the next area.
fn is_named(at: usize) -> bool {
    at == 0 || at == 2 || at == 3 || (at >= 8 && at < 16)
}

/// Whether the bytes without a name are zero.
fn has_zeros(bytes: &[u8]) -> bool {
    for (at, byte) in bytes.iter().enumerate() {
        if *byte != 0 && !is_named(at) {
            return false;
        }
    }
    true
}

/// The first rule that a block of an allowed size breaks as the roster of an area of `intervals`
/// intervals.
fn first_fault(bytes: &[u8], intervals: u16) -> Option<SeqFault> {
    if bytes.first() != Some(&b'R') {
        Some(SeqFault::Kind)
    } else if two(bytes, 2) > usize::from(intervals) {
        Some(SeqFault::Lengths)
    } else if !has_zeros(bytes) {
        Some(SeqFault::Zeros)
    } else {
        None
    }
}

/// Whether a view has the fields of its block.
fn has_fields(view: &RosterView<'_>, bytes: &[u8]) -> bool {
    let next = match view.next() {
        Some(area) => (area as usize).saturating_add(1),
        None => 0,
    };
    usize::from(view.used()) == two(bytes, 2)
        && view.part() as usize == four(bytes, 8)
        && next == four(bytes, 12)
}

/// Whether the crate takes the block as the rules say, and gives the same fields or fault.
fn is_same(bytes: &[u8], intervals: u16) -> bool {
    match (
        RosterView::read(bytes, intervals),
        first_fault(bytes, intervals),
    ) {
        (Ok(view), None) => has_fields(&view, bytes),
        (Err(fault), Some(plain)) => fault == plain,
        (_, _) => false,
    }
}

/// Judges every block that differs in one byte of the first 60 from a block of an area of
/// `intervals` intervals.
pub fn judge(alloc: Global, block: &[u8], intervals: u16) -> Result<Judged, AllocError> {
    let mut judged = Judged::new(alloc);
    for change in 0..15_360usize {
        let bytes = changed(alloc, block, change)?;
        let same = is_same(bytes.as_slice(), intervals);
        judged.count_bytes(alloc, same, bytes.as_slice())?;
    }
    Ok(judged)
}
