//! Questions to `vr_seqset`: sequence-set records and rosters in the block, and their writers.

ghost use Rattle.std.specs.Prelude.{◌≡◌, IfOk};

use crate::block::{edited, say_debug};
use std::alloc::{AllocError, Global};
use vr_case_table::{Answer, Answers, Stop, digits_of, parted, size_of, small_of, word_of};
use vr_seqset::{
    RosterView, SeqEntry, SeqFault, SeqHead, SeqView, SeqWriter, interval_limit, write_roster,
};

/// A record of the block: `INTERVALS EDIT..`.
pub fn record(alloc: Global, block: &[u8], rest: &str, out: &mut Answers) -> Answer {
    let (intervals, edits) = parted(rest);
    let intervals = small_of(intervals)?;
    let bytes = edited(alloc, block, edits)?;
    match SeqView::read(bytes.as_slice(), intervals) {
        Ok(view) => say_record(&view, out),
        Err(fault) => say_fault(fault, out),
    }
    Ok(())
}

fn say_record(view: &SeqView<'_>, out: &mut Answers) {
    say_head(view, out);
    for entry in view.entries() {
        say_entry(&entry, out);
    }
}

fn say_fault(fault: SeqFault, out: &mut Answers) {
    out.say_number("fault ", u64::from(fault.number()));
}

fn say_head(view: &SeqView<'_>, out: &mut Answers) {
    out.say(if view.first() {
        "first true"
    } else {
        "first false"
    });
    out.say_number(" part ", u64::from(view.part()));
    out.say(" next ");
    say_debug(&view.next(), out);
    out.say_number(" top ", u64::from(view.top()));
    out.say(" index ");
    say_debug(&view.index_area(), out);
    out.say(" low ");
    out.say_digits(view.low());
}

fn say_entry(entry: &SeqEntry<'_>, out: &mut Answers) {
    for at in 0..entry.intervals() {
        out.say_number(" ", u64::from(entry.interval(at)));
    }
    out.say(":");
    out.say_digits(entry.high());
}

/// The entry of a number, as the calls that take a number show it: `INTERVALS ENTRY`.
pub fn entry(block: &[u8], rest: &str, out: &mut Answers) -> Answer {
    let (intervals, at) = parted(rest);
    let intervals = small_of(intervals)?;
    let at = size_of(at)?;
    match SeqView::read(block, intervals) {
        Ok(view) => say_numbered(&view, at, out),
        Err(fault) => say_fault(fault, out),
    }
    Ok(())
}

fn say_numbered(view: &SeqView<'_>, at: usize, out: &mut Answers) {
    if at >= view.count() {
        return out.say_number("of ", view.count() as u64);
    }
    for j in 0..view.intervals(at) {
        out.say_number(" ", u64::from(view.interval(at, j)));
    }
    out.say(":");
    out.say_digits(view.high(at));
}

/// The entry for a place: `INTERVALS PLACE`.
pub fn find(alloc: Global, block: &[u8], rest: &str, out: &mut Answers) -> Answer {
    let (intervals, place) = parted(rest);
    let intervals = small_of(intervals)?;
    let place = digits_of(alloc, place)?;
    match SeqView::read(block, intervals) {
        Ok(view) => say_found(&view, place.as_slice(), out),
        Err(fault) => say_fault(fault, out),
    }
    Ok(())
}

fn say_found(view: &SeqView<'_>, place: &[u8], out: &mut Answers) {
    match view.find(place) {
        Some((at, entry)) => {
            out.say_number("", at as u64);
            say_entry(&entry, out);
        }
        None => out.say("none"),
    }
}

/// A roster in the block: `INTERVALS EDIT..`.
pub fn roster(alloc: Global, block: &[u8], rest: &str, out: &mut Answers) -> Answer {
    let (intervals, edits) = parted(rest);
    let intervals = small_of(intervals)?;
    let bytes = edited(alloc, block, edits)?;
    match RosterView::read(bytes.as_slice(), intervals) {
        Ok(view) => say_roster(&view, out),
        Err(fault) => say_fault(fault, out),
    }
    Ok(())
}

fn say_roster(view: &RosterView<'_>, out: &mut Answers) {
    out.say_number("used ", u64::from(view.used()));
    out.say_number(" part ", u64::from(view.part()));
    out.say(" next ");
    say_debug(&view.next(), out);
}

/// Writes a roster into the block: `INTERVALS USED PART`, and the next area if there is one.
pub fn write(block: &mut [u8], rest: &str, out: &mut Answers) -> Answer {
    let (intervals, rest) = parted(rest);
    let (used, rest) = parted(rest);
    let (part, next) = parted(rest);
    let intervals = small_of(intervals)?;
    let used = small_of(used)?;
    let part = word_of(part)?;
    let next = if next.is_empty() {
        None
    } else {
        Some(word_of(next)?)
    };
    if !vr_types::is_block_size(block.len()) || used > intervals || next == Some(u32::MAX) {
        return Err(Stop::Line);
    }
    write_roster(used, part, next, intervals, block);
    out.ok()
}

/// How many intervals of an area are used: `INTERVALS SIZE PLACE`.
pub fn limit(rest: &str, out: &mut Answers) -> Answer {
    let (intervals, rest) = parted(rest);
    let (size, place) = parted(rest);
    let intervals = small_of(intervals)?;
    let size = size_of(size)?;
    let place = small_of(place)?;
    let limit = interval_limit(intervals, size, usize::from(place));
    out.say_number("", limit as u64);
    Ok(())
}

/// The record of the block, written again over other bytes: `INTERVALS EDIT..`. It has to be the
/// same block.
pub fn copy(alloc: Global, block: &[u8], rest: &str, out: &mut Answers) -> Answer {
    let (intervals, edits) = parted(rest);
    let intervals = small_of(intervals)?;
    let bytes = edited(alloc, block, edits)?;
    let copy = copied(alloc, bytes.as_slice(), intervals)?;
    out.say(if copy == bytes { "same" } else { "other" });
    Ok(())
}

/// Reads a block, and writes what was read over other bytes. Nothing comes of a block that is no
/// record's.
fn copied(alloc: Global, block: &[u8], intervals: u16) -> Result<Vec<u8>, AllocError> {
    let view = match SeqView::read(block, intervals) {
        Ok(view) => view,
        Err(_) => return Ok(Vec::new(alloc)),
    };
    let mut out = vec![in alloc; 0xAA; block.len()]?;
    let head = SeqHead {
        first: view.first(),
        part: view.part(),
        next: view.next(),
        top: view.top(),
        index_area: view.index_area(),
        low: view.low(),
    };
    let mut writer = SeqWriter::begin(&head, intervals, out.as_mut_slice());
    for i in 0..view.count() {
        let numbers = numbers(alloc, &view.entry(i))?;
        writer.add(&numbers, view.high(i));
    }
    writer.end();
    Ok(out)
}

/// The intervals of an entry.
fn numbers(alloc: Global, entry: &SeqEntry<'_>) -> Result<Vec<u16>, AllocError>
    ensures { IfOk result (λ numbers. numbers.items ≡ entry.now.intervals) }
{
    let mut out = Vec::new(alloc);
    for j in 0..entry.intervals() {
        out.push(entry.interval(j))?;
    }
    Ok(out)
}

/// The roster of the block, written again over other bytes: `INTERVALS EDIT..`. It has to be the
/// same block.
pub fn copy_roster(alloc: Global, block: &[u8], rest: &str, out: &mut Answers) -> Answer {
    let (intervals, edits) = parted(rest);
    let intervals = small_of(intervals)?;
    let bytes = edited(alloc, block, edits)?;
    let copy = copied_roster(alloc, bytes.as_slice(), intervals)?;
    out.say(if copy == bytes { "same" } else { "other" });
    Ok(())
}

/// Reads a roster, and writes what was read over other bytes. Nothing comes of a block that is no
/// roster's.
fn copied_roster(alloc: Global, block: &[u8], intervals: u16) -> Result<Vec<u8>, AllocError> {
    let view = match RosterView::read(block, intervals) {
        Ok(view) => view,
        Err(_) => return Ok(Vec::new(alloc)),
    };
    let mut out = vec![in alloc; 0xAA; block.len()]?;
    write_roster(
        view.used(),
        view.part(),
        view.next(),
        intervals,
        out.as_mut_slice(),
    );
    Ok(out)
}
