//! What a block is as a control interval, plainly: the rules of the grammar, one by one.

use crate::plain_roster::{are_zeros, byte, two};
use std::alloc::{AllocError, Global};
use vr_case_table::Stop;

/// Where the CIDF begins.
const TOP: usize = 508;

/// A record, withdrawn or not, or a slot: where it begins, its length, whether it is live, and by
/// the how manieth RDF or pair it is listed.
#[derive(Clone, Copy)]
pub struct Item {
    pub from: usize,
    pub length: usize,
    pub live: bool,
    unit: usize,
}

/// A block as a control interval: which forms it has, whether it is busy, and what its RDFs list.
#[derive(Drop)]
pub struct Filled {
    pub end_of_file: bool,
    pub records: bool,
    /// Slots of this length.
    pub slots: Option<usize>,
    pub segment: bool,
    pub busy: bool,
    pub items: Vec<Item>,
}

/// An RDF, or a pair: its flags, the length and the count of its records, and where it begins.
#[derive(Clone, Copy)]
struct Unit {
    flags: u8,
    length: usize,
    count: usize,
    at: usize,
}

/// What a block is as an interval.
pub fn filled_of(alloc: Global, block: &[u8]) -> Result<Box<Filled>, Stop> {
    Ok(Box::new(alloc, filled_in(alloc, block)?)?)
}

fn filled_in(alloc: Global, block: &[u8]) -> Result<Filled, AllocError> {
    let mut items = Vec::new(alloc);
    let low = low_of(block);
    let listed = list(block, low, &mut items)? && is_laid(block, low, items.as_slice());
    let rdfs = TOP.saturating_sub(low) / 3;
    let records = listed && are_records(items.as_slice());
    let slots = if listed {
        slots_in(items.as_slice(), rdfs)
    } else {
        None
    };
    Ok(Filled {
        end_of_file: are_zeros(block, 0, block.len()),
        records,
        slots,
        segment: is_segment(block, low),
        busy: byte(block, 510) >= 128,
        items,
    })
}

/// Where the RDFs begin, by the CIDF: past the records and the free space.
fn low_of(block: &[u8]) -> usize {
    (two(block, 508) + two(block, 510) % 32_768) as usize
}

/// The RDF or pair that ends there.
fn unit_before(block: &[u8], end: usize) -> Unit {
    let at = end.saturating_sub(3);
    let flags = byte(block, at);
    let length = two(block, at.saturating_add(1)) as usize;
    if flags != 0x40 {
        return Unit {
            flags,
            length,
            count: 1,
            at,
        };
    }
    let at = end.saturating_sub(6);
    Unit {
        flags: flags | byte(block, at),
        length,
        count: two(block, at.saturating_add(1)) as usize,
        at,
    }
}

/// Whether there may be such an RDF or pair of records: `00` a live one, `04` one that isn't,
/// `40` and `08` a pair.
fn is_unit(unit: Unit) -> bool {
    let counted = match unit.flags {
        0 | 4 => true,
        0x48 => 2 <= unit.count && unit.count <= TOP,
        _ => false,
    };
    counted && 1 <= unit.length
}

/// Lists the records by the RDFs, the rightmost first: whether these are RDFs of records alone.
fn list(block: &[u8], low: usize, items: &mut Vec<Item>) -> Result<bool, AllocError> {
    let mut end = TOP;
    for number in 0..TOP {
        if end <= low {
            return Ok(end == low);
        }
        let unit = unit_before(block, end);
        if !is_unit(unit) {
            return Ok(false);
        }
        add_items(items, unit, number)?;
        end = unit.at;
    }
    Ok(false)
}

fn add_items(items: &mut Vec<Item>, unit: Unit, number: usize) -> Result<(), AllocError> {
    let mut from = match items.last() {
        Some(item) => item.from.saturating_add(item.length),
        None => 0,
    };
    for _ in 0..unit.count {
        items.push(Item {
            from,
            length: unit.length,
            live: unit.flags != 4,
            unit: number,
        })?;
        from = from.saturating_add(unit.length);
    }
    Ok(())
}

/// Whether the records lie at the left end as the CIDF says, and what is free and what isn't live
/// is zeros.
fn is_laid(block: &[u8], low: usize, items: &[Item]) -> bool {
    let mut used = 0usize;
    for item in items {
        used = used.saturating_add(item.length);
        if !item.live && !are_zeros(block, item.from, used) {
            return false;
        }
    }
    used == two(block, 508) as usize && are_zeros(block, used, low)
}

/// Whether there may be such records: each run of live ones with one length is one pair, and they
/// have room with three bytes for each.
fn are_records(items: &[Item]) -> bool {
    let mut room = 0usize;
    let mut last = None;
    for item in items {
        if last.is_some_and(|last| is_unjoined(last, *item)) {
            return false;
        }
        room = room.saturating_add(item.length).saturating_add(3);
        last = Some(*item);
    }
    room <= TOP
}

/// Whether two neighbours should be of one pair, and are not.
fn is_unjoined(one: Item, next: Item) -> bool {
    one.unit != next.unit && one.live && next.live && one.length == next.length
}

/// The length of the slots, where these are slots: each has an RDF of its own, and there are as
/// many as have room.
fn slots_in(items: &[Item], rdfs: usize) -> Option<usize> {
    let length = items.first()?.length;
    let are_slots = items.len() == rdfs
        && items.len() == TOP / length.saturating_add(3)
        && items.iter().all(|item| item.length == length);
    if are_slots { Some(length) } else { None }
}

/// Whether the block is a segment of a record: two RDFs, of one kind, with a length and an update
/// number. All but a last one fill the block.
fn is_segment(block: &[u8], low: usize) -> bool {
    let right = byte(block, 505);
    let length = two(block, 506) as usize;
    let kind = right & 0x30;
    let withdrawn = right & 4;
    let fills = length == 502 || (kind == 0x20 && 1 <= length && length < 502);
    low == 502
        && kind != 0
        && right == 0x40 | kind | withdrawn
        && byte(block, 502) == 8 | kind | withdrawn
        && two(block, 503) != 0
        && fills
        && length == two(block, 508) as usize
        && are_zeros(block, if withdrawn == 0 { length } else { 0 }, low)
}
