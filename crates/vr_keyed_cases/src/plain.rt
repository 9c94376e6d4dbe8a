//! What blocks hold, read byte by byte, plainly and slowly. It shares no code with the part, whose
//! chain begins with the first area of the blocks, and may lead on to the others.
ghost use Rattle.std.specs.Prelude.{◌<◌, ◌≤◌};

use crate::answers::{Answer, say, say_digits, say_number};
use crate::record::is_whole;

/// The place that bytes are from, in a range: after the key at `low`, unless it is 0, and up to
/// that at `high`.
#[derive(Clone, Copy)]
struct Range {
    low: usize,
    high: usize,
}

/// The byte at that place; a zero past the end.
pub fn byte(blocks: &[u8], at: usize) -> u8 {
    blocks.get(at).copied().unwrap_or(0)
}

/// The number of two bytes, the high one first.
pub fn two(blocks: &[u8], at: usize) -> usize
    ensures { result < 65536 }
{
    let low = byte(blocks, at.saturating_add(1));
    byte(blocks, at) as usize * 256 + low as usize
}

/// This many bytes; none where they pass the end.
pub fn part(blocks: &[u8], at: usize, count: usize) -> &[u8] {
    blocks.get(at..at.saturating_add(count)).unwrap_or(&[])
}

/// The number of four bytes, the high one first; at most 65,535.
pub fn four(blocks: &[u8], at: usize) -> usize {
    if two(blocks, at) > 0 {
        return 65_535;
    }
    two(blocks, at.saturating_add(2))
}

/// The blocks of the area of this number on the volume, whose areas have so many intervals each.
/// Those of area 1 are the first, and area 0 has none.
pub fn area_at(blocks: &[u8], intervals: usize, number: usize) -> &[u8] {
    let bytes = intervals.saturating_add(1).saturating_mul(512);
    match number.checked_sub(1) {
        Some(before) => part(blocks, before.saturating_mul(bytes), bytes),
        None => &[],
    }
}

/// The numbers of the areas of a chain that begins with area 1, and then zeros: each head has the
/// number of the next, and 1.
pub fn chain_in(blocks: &[u8], intervals: usize) -> [usize; 3] {
    let mut chain = [0; 3];
    let mut number = 1;
    for place in chain.iter_mut() {
        *place = number;
        number = four(area_at(blocks, intervals, number), 12).saturating_sub(1);
    }
    chain
}

/// Writes the entries of each head: the interval and the high place of each, and ` | ` and the
/// number of the area before those of another than the first.
pub fn say_entries(blocks: &[u8], intervals: usize, out: &mut String) -> Answer {
    for number in chain_in(blocks, intervals) {
        if number > 1 {
            say(out, " | ")?;
            say_number(out, number as u64)?;
            say(out, ": ")?;
        }
        say_head(area_at(blocks, intervals, number), out)?;
    }
    Ok(())
}

fn say_head(blocks: &[u8], out: &mut String) -> Answer {
    for entry in 0..two(blocks, 2).min(39) {
        if entry > 0 {
            say(out, " ")?;
        }
        say_entry(blocks, 40 + entry * 12, out)?;
    }
    Ok(())
}

fn say_entry(blocks: &[u8], at: usize, out: &mut String) -> Answer {
    say_number(out, two(blocks, at.saturating_add(2)) as u64)?;
    say(out, "<")?;
    let high = part(blocks, at.saturating_add(4), 8);
    if high.iter().all(|byte| *byte == 255) {
        say(out, "end")
    } else {
        say_digits(out, high)
    }
}

/// Writes each record that the blocks stand for: its key and its length.
pub fn say_records(blocks: &[u8], intervals: usize, out: &mut String) -> Answer {
    for number in chain_in(blocks, intervals) {
        if number > 0 {
            say_area(area_at(blocks, intervals, number), number == 1, out)?;
        }
    }
    Ok(())
}

/// Writes each record of an area, which is the first of the chain or not.
fn say_area(blocks: &[u8], first: bool, out: &mut String) -> Answer {
    let flag = if first { 1 } else { 0 };
    if two(blocks, 0) != 83 * 256 + flag || two(blocks, 6) != 8 {
        say(out, "no head")?;
    }
    for entry in 0..two(blocks, 2).min(39) {
        let at = 40 + entry * 12;
        let range = Range {
            low: if first && entry == 0 { 0 } else { at - 8 },
            high: at + 4,
        };
        say_interval(blocks, (two(blocks, at + 2) + 1) * 512, range, out)?;
    }
    Ok(())
}

/// Writes the records of the interval that begins there, in the range.
fn say_interval(blocks: &[u8], base: usize, range: Range, out: &mut String) -> Answer {
    let end = base.saturating_add(508);
    let used = two(blocks, end);
    let free = two(blocks, end.saturating_add(2)) % 32768;
    let least = base.saturating_add(used).saturating_add(free);
    let mut control = end;
    let mut start = base;
    for _run in 0..170u32 {
        if control < least.saturating_add(3) {
            break;
        }
        let run = run_at(blocks, control);
        say_run(blocks, start, run, range, out)?;
        start = start.saturating_add(run.count.saturating_mul(run.length));
        control = control.saturating_sub(run.control);
    }
    if start != base.saturating_add(used) || control != least {
        say(out, " bad interval")?;
    }
    Ok(())
}

/// So many neighbouring records of one length, and how long what describes them is.
#[derive(Clone, Copy)]
pub struct Run {
    pub count: usize,
    pub length: usize,
    pub control: usize,
}

/// The run that the bytes before this place describe.
pub fn run_at(blocks: &[u8], control: usize) -> Run {
    let at = control.saturating_sub(3);
    let length = two(blocks, at.saturating_add(1));
    if byte(blocks, at) == 64 {
        Run {
            count: two(blocks, at.saturating_sub(2)),
            length,
            control: 6,
        }
    } else {
        Run {
            count: 1,
            length,
            control: 3,
        }
    }
}

/// Writes the records of a run that begins there, in the range.
fn say_run(blocks: &[u8], start: usize, run: Run, range: Range, out: &mut String) -> Answer {
    let mut at = start;
    for _record in 0..run.count {
        let key = part(blocks, at, 8);
        let above = range.low == 0 || part(blocks, range.low, 8) < key;
        if above && key <= part(blocks, range.high, 8) {
            say_record(part(blocks, at, run.length), out)?;
        }
        at = at.saturating_add(run.length);
    }
    Ok(())
}

/// Writes the key and the length of a record, and whether it is another than such records are.
fn say_record(bytes: &[u8], out: &mut String) -> Answer {
    if !out.is_empty() {
        say(out, " ")?;
    }
    say_digits(out, part(bytes, 0, 8))?;
    say(out, ":")?;
    say_number(out, bytes.len() as u64)?;
    if is_whole(bytes) {
        Ok(())
    } else {
        say(out, "?")
    }
}
