//! The grammar of control intervals, plainly and slowly: what a block lists, built anew.

use crate::judge::Judged;
use std::alloc::{AllocError, Global};
use vr_ci::{CiView, Form};

/// A record, slot or segment: where it begins, its length, and whether it is live.
#[derive(Clone, Copy)]
struct Item {
    from: usize,
    length: usize,
    live: bool,
}

/// What the RDFs list: the items in order and, of a segment, the bits that give its part and its
/// update number.
#[derive(Drop)]
struct Listed {
    items: Vec<Item>,
    segment: Option<(u8, usize)>,
}

/// An RDF or pair: its flags, its length, its count, which is 1 where it is no pair, and where it
/// begins.
#[derive(Clone, Copy)]
struct Unit {
    flags: u8,
    length: usize,
    count: usize,
    at: usize,
}

fn byte(bytes: &[u8], at: usize) -> u8 {
    bytes.get(at).copied().unwrap_or(0)
}

fn two(bytes: &[u8], at: usize) -> usize {
    byte(bytes, at) as usize * 256 + byte(bytes, at.saturating_add(1)) as usize
}

/// Three bytes of an RDF.
fn rdf(flags: u8, number: usize) -> [u8; 3] {
    [flags, (number / 256 % 256) as u8, (number % 256) as u8]
}

/// The RDF or pair that ends there.
fn unit_before(bytes: &[u8], end: usize) -> Unit {
    let at = end.saturating_sub(3);
    let flags = byte(bytes, at);
    let length = two(bytes, at.saturating_add(1));
    if flags & 0x40 == 0 {
        return Unit {
            flags,
            length,
            count: 1,
            at,
        };
    }
    let at = at.saturating_sub(3);
    Unit {
        flags,
        length,
        count: two(bytes, at.saturating_add(1)),
        at,
    }
}

/// The items by the RDFs from `low` on, and no more of a run than the block has bytes.
fn list(alloc: Global, bytes: &[u8], low: usize) -> Result<Listed, AllocError> {
    let mut listed = Listed {
        items: Vec::new(alloc),
        segment: None,
    };
    let mut end = bytes.len().saturating_sub(4);
    for _ in 0..bytes.len() {
        if end < low.saturating_add(3) {
            break;
        }
        let unit = unit_before(bytes, end);
        end = unit.at;
        add_items(&mut listed, unit, bytes.len())?;
    }
    Ok(listed)
}

/// Adds the items of an RDF or pair after the others, at most as many as the block has bytes.
fn add_items(listed: &mut Listed, unit: Unit, size: usize) -> Result<(), AllocError> {
    let bits = unit.flags & 0x30;
    let mut count = unit.count.min(size);
    if bits != 0 {
        listed.segment = Some((bits, unit.count));
        count = 1;
    }
    let mut from = match listed.items.last() {
        Some(item) => item.from.saturating_add(item.length),
        None => 0,
    };
    for _ in 0..count {
        listed.items.push(Item {
            from,
            length: unit.length,
            live: unit.flags & 4 == 0,
        })?;
        from = from.saturating_add(unit.length);
    }
    Ok(())
}

/// How many of these items stand beside each other with the first one's length, all live.
fn run_length(items: &[Item]) -> usize {
    let mut count = 0usize;
    let mut length = None;
    for item in items {
        if !item.live || length.is_some_and(|same| same != item.length) {
            return count;
        }
        length = Some(item.length);
        count = count.saturating_add(1);
    }
    count
}

/// The RDFs of the items, the rightmost first.
fn rdfs(alloc: Global, form: Form, listed: &Listed) -> Result<Vec<[u8; 3]>, AllocError> {
    let mut rdfs = Vec::new(alloc);
    let items = listed.items.as_slice();
    let mut in_pair = 0usize;
    for (at, item) in items.iter().enumerate() {
        let withdrawn = if item.live { 0 } else { 4 };
        let run = run_length(items.get(at..).unwrap_or(&[]));
        if in_pair > 1 {
            in_pair -= 1;
        } else if let Some((bits, number)) = listed.segment {
            rdfs.push(rdf(0x40 | bits | withdrawn, item.length))?;
            rdfs.push(rdf(8 | bits | withdrawn, number))?;
        } else if form == Form::Plain && run > 1 {
            rdfs.push(rdf(0x40, item.length))?;
            rdfs.push(rdf(8, run))?;
            in_pair = run;
        } else {
            rdfs.push(rdf(withdrawn, item.length))?;
        }
    }
    Ok(rdfs)
}

/// The bytes of the items, those of live ones from a block.
fn contents(alloc: Global, bytes: &[u8], items: &[Item]) -> Result<Vec<u8>, AllocError> {
    let mut contents = Vec::new(alloc);
    for item in items {
        for at in 0..item.length {
            let here = byte(bytes, item.from.saturating_add(at));
            contents.push(if item.live { here } else { 0 })?;
        }
    }
    Ok(contents)
}

/// The block of these items, whose live bytes are those of another block of the size.
fn build(alloc: Global, form: Form, bytes: &[u8], listed: &Listed) -> Result<Vec<u8>, AllocError> {
    let rdfs = rdfs(alloc, form, listed)?;
    let mut block = contents(alloc, bytes, listed.items.as_slice())?;
    let top = bytes.len().saturating_sub(4);
    let busy = byte(bytes, top.saturating_add(2)) & 0x80;
    push_control(&mut block, top, rdfs.as_slice(), busy)?;
    Ok(block)
}

/// Adds the free space up to the RDFs, these, and the CIDF, which begins at `top`.
fn push_control(
    block: &mut Vec<u8>,
    top: usize,
    rdfs: &[[u8; 3]],
    busy: u8,
) -> Result<(), AllocError> {
    let used = block.len();
    let low = top.saturating_sub(rdfs.len().saturating_mul(3));
    block.resize(low.max(used), 0)?;
    for rdf in rdfs.iter().rev() {
        block.extend_from_slice(rdf.as_slice())?;
    }
    let [_, used_high, used_low] = rdf(0, used);
    let [_, free_high, free_low] = rdf(0, low.saturating_sub(used));
    block.extend_from_slice(&[used_high, used_low, free_high | busy, free_low])?;
    Ok(())
}

/// Whether a block of this size and form may have these items at all.
fn may_have(form: Form, size: usize, listed: &Listed) -> bool {
    let items = listed.items.as_slice();
    let mut room = 0usize;
    for item in items {
        room = room.saturating_add(item.length).saturating_add(3);
        if item.length == 0 {
            return false;
        }
    }
    match (listed.segment, form) {
        (Some((bits, number)), _) => {
            let most = size.saturating_sub(7);
            let fits = room <= most;
            let fills = room == most;
            items.len() == 1 && number > 0 && if bits == 0x20 { fits } else { fills }
        }
        (None, Form::Plain) => room <= size.saturating_sub(4),
        (None, Form::Slots { length }) => {
            let length = usize::from(length);
            items.len() == size.saturating_sub(4) / length.saturating_add(3)
                && items.iter().all(|item| item.length == length)
        }
    }
}

/// What the block lists, if it is the block of just that.
fn listed_in(alloc: Global, form: Form, bytes: &[u8]) -> Result<Option<Listed>, AllocError> {
    let top = bytes.len().saturating_sub(4);
    let used = two(bytes, top);
    let free = two(bytes, top.saturating_add(2));
    let is_end_of_file = bytes.iter().all(|byte| *byte == 0);
    let low = if is_end_of_file {
        bytes.len()
    } else {
        used.saturating_add(free % 32_768)
    };
    if !is_end_of_file && (low > top || (used == 0 && free == 0)) {
        return Ok(None);
    }
    let listed = list(alloc, bytes, low)?;
    if is_end_of_file || is_whole(alloc, form, bytes, &listed)? {
        Ok(Some(listed))
    } else {
        Ok(None)
    }
}

/// Whether the block is that of these items.
fn is_whole(alloc: Global, form: Form, bytes: &[u8], listed: &Listed) -> Result<bool, AllocError> {
    if !may_have(form, bytes.len(), listed) {
        return Ok(false);
    }
    let block = build(alloc, form, bytes, listed)?;
    Ok(block.as_slice() == bytes)
}

/// Whether a view has just these items of its block.
fn has_items(view: &CiView<'_>, bytes: &[u8], listed: &Listed) -> bool {
    let mut items = view.iter();
    for item in listed.items.as_slice() {
        let end = item.from.saturating_add(item.length);
        let record = bytes.get(item.from..end).unwrap_or(&[]);
        if items.next() != Some((record, item.live)) {
            return false;
        }
    }
    items.next().is_none()
}

/// Whether the crate takes the block as the grammar says, and gives the same items.
fn is_same(alloc: Global, form: Form, bytes: &[u8]) -> Result<bool, AllocError> {
    let plain = listed_in(alloc, form, bytes)?;
    Ok(match (CiView::read(form, bytes), plain) {
        (Ok(view), Some(listed)) => has_items(&view, bytes, &listed),
        (Err(_), None) => true,
        (_, _) => false,
    })
}

/// What a byte is changed to, or by.
const CHANGES: [u8; 19] = [
    0, 1, 2, 3, 4, 5, 8, 0x10, 0x20, 0x24, 0x30, 0x40, 0x44, 0x48, 0x50, 0x60, 0x80, 0xC0, 0xFF,
];

/// Judges the block, and every block that differs from it in one of the first 24 or the last 22
/// bytes.
pub fn judge(alloc: Global, form: Form, block: &[u8]) -> Result<Judged, AllocError> {
    let mut judged = Judged::new(alloc);
    judged.count_bytes(alloc, is_same(alloc, form, block)?, block)?;
    for near in 0..46usize {
        let at = if near < 24 {
            near
        } else {
            block.len().saturating_sub(near - 23)
        };
        let before = byte(block, at);
        for change in CHANGES {
            judge_change(alloc, form, block, (at, change), &mut judged)?;
            judge_change(
                alloc,
                form,
                block,
                (at, before.wrapping_add(change)),
                &mut judged,
            )?;
        }
    }
    Ok(judged)
}

/// Judges the block that has another byte at a place.
fn judge_change(
    alloc: Global,
    form: Form,
    block: &[u8],
    change: (usize, u8),
    judged: &mut Judged,
) -> Result<(), AllocError> {
    let mut bytes = Vec::from_slice(alloc, block)?;
    if let Some(byte) = bytes.get_mut(change.0) {
        *byte = change.1;
    }
    judged.count_bytes(
        alloc,
        is_same(alloc, form, bytes.as_slice())?,
        bytes.as_slice(),
    )
}
