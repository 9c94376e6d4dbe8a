//! The damage of the part's blocks, found byte by byte, plainly and slowly. It shares no code with
//! the part.
use crate::plain::{Run, area_at, byte, chain_in, four, part, run_at, two};

/// The block that is shown, by its number on the volume, and the rule.
#[derive(Clone, Copy, PartialEq, Eq)]
pub struct Found {
    pub block: usize,
    pub rule: u8,
}

/// Whether this many bytes are all this one.
fn are_all(blocks: &[u8], at: usize, count: usize, wanted: u8) -> bool {
    part(blocks, at, count).iter().all(|byte| *byte == wanted)
}

/// An area of the chain: its number on the volume, how many areas the volume has and how many
/// intervals each of them, the area's blocks, and the place after which its ranges are to begin,
/// which has no bytes in the first.
#[derive(Clone, Copy)]
struct Area<'a> {
    number: usize,
    areas: usize,
    intervals: usize,
    blocks: &'a [u8],
    low: &'a [u8],
}

impl Area<'_> {
    /// The block of the volume that an area of a number begins with.
    fn head_of(&self, number: usize) -> usize {
        let before = self.intervals.saturating_add(1).saturating_mul(number);
        before.saturating_add(2)
    }
}

/// What is found of a part whose records have at most this many bytes, in the blocks of the areas
/// of a volume but the catalog's, with so many intervals each. Its chain begins with area 1.
pub fn damage_in(blocks: &[u8], intervals: usize, most: usize) -> Option<Found> {
    let chain = chain_in(blocks, intervals);
    let mut low: &[u8] = &[];
    for (i, number) in chain.iter().enumerate() {
        if *number == 0 {
            break;
        }
        let area = Area {
            number: *number,
            areas: areas_in(blocks, intervals),
            intervals,
            blocks: area_at(blocks, intervals, *number),
            low,
        };
        let before = chain.get(..i).unwrap_or(&[]);
        let found = damage_of(area, before, most);
        if found.is_some() {
            return found;
        }
        low = last_high(area.blocks);
    }
    None
}

/// How many areas the volume has, with the catalog's.
fn areas_in(blocks: &[u8], intervals: usize) -> usize {
    let bytes = intervals.saturating_add(1).saturating_mul(512);
    (blocks.len() / bytes.max(1)).saturating_add(1)
}

/// The place at which the ranges of a head end whose places have 8 bytes.
fn last_high(blocks: &[u8]) -> &[u8] {
    let at = two(blocks, 2).min(39).saturating_mul(12).saturating_add(32);
    part(blocks, at, 8)
}

/// What is found of an area: at its head, at the interval of an entry, or at the area that comes
/// next, if that is area 0, which is the catalog's, or one in which the chain was before.
fn damage_of(area: Area<'_>, before: &[usize], most: usize) -> Option<Found> {
    let head = area.head_of(area.number);
    let rule = head_rule(area);
    if rule != 0 {
        return Some(Found { block: head, rule });
    }
    for entry in 0..two(area.blocks, 2).min(39) {
        let at = 40 + entry * 12;
        let rule = interval_rule(area, at, entry == 0, most);
        if rule != 0 {
            let block = head.saturating_add(two(area.blocks, at + 2) + 1);
            return Some(Found { block, rule });
        }
    }
    let next = four(area.blocks, 12).checked_sub(1)?;
    if next > 0 && !before.contains(&next) {
        return None;
    }
    Some(Found {
        block: area.head_of(next),
        rule: 4,
    })
}

/// The least rule that the head of an area breaks, or 0.
fn head_rule(area: Area<'_>) -> u8 {
    let top = part(area.blocks, 0, 512);
    let first = area.low.is_empty();
    let spelled = is_spelled(top, area.intervals);
    let next = four(top, 12);
    let index = four(top, 20);
    if spelled && (next > area.areas || index > area.areas) {
        return 3;
    }
    if spelled && next == area.number.saturating_add(1) {
        return 4;
    }
    if !spelled || (byte(top, 1) == 1) != first || !is_plain_head(top) {
        return 5;
    }
    if four(top, 8) != 1 || two(top, 6) != 8 {
        return 6;
    }
    if !first && part(top, 32, 8) != area.low {
        return 7;
    }
    if next == 0 && last_high(top).iter().any(|byte| *byte != 255) {
        return 7;
    }
    0
}

/// Whether the head names no index, and each entry has one interval.
fn is_plain_head(blocks: &[u8]) -> bool {
    let place = two(blocks, 6);
    let mut at = place.saturating_add(32);
    for _entry in 0..two(blocks, 2) {
        if two(blocks, at) != 1 {
            return false;
        }
        at = at.saturating_add(place).saturating_add(4);
    }
    four(blocks, 16) == 0 && four(blocks, 20) == 0
}

/// Whether the head is a sequence-set record.
fn is_spelled(blocks: &[u8], intervals: usize) -> bool {
    let place = two(blocks, 6);
    let first = byte(blocks, 1) == 1;
    byte(blocks, 0) == 83
        && byte(blocks, 1) < 2
        && two(blocks, 4) == 0
        && are_all(blocks, 24, 8, 0)
        && place > 0
        && place <= 480
        && two(blocks, 2) > 0
        && is_chained(blocks, first, place)
        && are_entries(blocks, intervals, first, place)
}

/// What only the first of a chain may have.
fn is_chained(blocks: &[u8], first: bool, place: usize) -> bool {
    if first {
        are_all(blocks, 32, place, 0)
    } else {
        four(blocks, 16) == 0 && four(blocks, 20) == 0
    }
}

/// Whether the entries are whole, their intervals below the limit and each once, their high places
/// ascend, and zeros come after them.
fn are_entries(blocks: &[u8], intervals: usize, first: bool, place: usize) -> bool {
    let limit = 480usize.saturating_sub(place) / place.saturating_add(4);
    let mut seen = below(limit.min(intervals));
    let mut last = if first { 0 } else { 32 };
    let mut at = place.saturating_add(32);
    for _entry in 0..two(blocks, 2) {
        let count = two(blocks, at);
        let high = at.saturating_add(2).saturating_add(count.saturating_mul(2));
        if count == 0 || high.saturating_add(place) > 512 {
            return false;
        }
        if !take_all(blocks, at.saturating_add(2), count, &mut seen) {
            return false;
        }
        if last != 0 && part(blocks, last, place) >= part(blocks, high, place) {
            return false;
        }
        last = high;
        at = high.saturating_add(place);
    }
    are_all(blocks, at, 512usize.saturating_sub(at), 0)
}

/// Which of five intervals can't be taken: those that aren't below a limit.
fn below(limit: usize) -> [bool; 5] {
    let mut seen = [true; 5];
    for (number, taken) in seen.iter_mut().enumerate() {
        *taken = number >= limit;
    }
    seen
}

/// Takes intervals that none took before.
fn take_all(blocks: &[u8], at: usize, count: usize, seen: &mut [bool; 5]) -> bool {
    for i in 0..count {
        if !take(two(blocks, at.saturating_add(i.saturating_mul(2))), seen) {
            return false;
        }
    }
    true
}

fn take(number: usize, seen: &mut [bool; 5]) -> bool {
    if number >= 5 || seen[number] {
        return false;
    }
    seen[number] = true;
    true
}

/// What an interval is.
#[derive(Clone, Copy, PartialEq, Eq)]
enum Kind {
    Bad,
    End,
    Segment,
    Records,
}

/// The least rule that the interval of the entry at that place breaks, or 0.
fn interval_rule(area: Area<'_>, at: usize, first: bool, most: usize) -> u8 {
    let blocks = area.blocks;
    let number = two(blocks, at.saturating_add(2));
    let block = part(blocks, number.saturating_add(1).saturating_mul(512), 512);
    match kind_of(block) {
        Kind::Bad => 8,
        Kind::End => 9,
        Kind::Segment => 10,
        Kind::Records => {
            if !are_valid(block, most) {
                return 10;
            }
            let low: &[u8] = if first {
                area.low
            } else {
                part(blocks, at.saturating_sub(8), 8)
            };
            let high = part(blocks, at.saturating_add(4), 8);
            if are_ordered(block, low, high) { 0 } else { 11 }
        }
    }
}

/// Where the records of a block end, and where what describes them begins.
fn bounds(block: &[u8]) -> (usize, usize) {
    let used = two(block, 508);
    (used, used.saturating_add(two(block, 510) % 32_768))
}

/// What the block is, by its bytes.
fn kind_of(block: &[u8]) -> Kind {
    let (used, end) = bounds(block);
    if used == 0 && two(block, 510) == 0 {
        return if are_all(block, 0, 512, 0) {
            Kind::End
        } else {
            Kind::Bad
        };
    }
    if end > 508 || !are_all(block, used, end.saturating_sub(used), 0) {
        return Kind::Bad;
    }
    if byte(block, 505) & 48 != 0 {
        return segment_kind(block, used, end);
    }
    runs_kind(block, used, end)
}

/// A segment stands alone, and one that isn't the last fills its block.
fn segment_kind(block: &[u8], used: usize, end: usize) -> Kind {
    let right = byte(block, 505);
    let left = byte(block, 502);
    let live = right & 4 == 0;
    let whole = right & 251 == 80 || right & 251 == 112;
    let last = right & 251 == 96;
    let length = two(block, 506);
    let pair = left == right & 52 | 8;
    if (whole && length == 502 || last && length >= 1 && length <= 502)
        && pair
        && two(block, 503) >= 1
        && end == 502
        && used == length
        && (live || are_all(block, 0, used, 0))
    {
        Kind::Segment
    } else {
        Kind::Bad
    }
}

/// What is left of a block to be read: where the next record begins, where what describes it ends,
/// the room that was needed, and the length of the live run before it, or 0.
#[derive(Clone, Copy)]
struct Left {
    start: usize,
    control: usize,
    room: usize,
    last: usize,
}

/// The runs of a block, from the first on, each as long as it can be.
fn runs_kind(block: &[u8], used: usize, end: usize) -> Kind {
    let mut left = Left {
        start: 0,
        control: 508,
        room: 0,
        last: 0,
    };
    for _run in 0..170u32 {
        if left.control == end {
            break;
        }
        let run = run_at(block, left.control);
        if left.control < end.saturating_add(run.control) || !is_run(block, left, run) {
            return Kind::Bad;
        }
        left = after(block, left, run);
    }
    if left.control == end && left.start == used && left.room <= 508 {
        Kind::Records
    } else {
        Kind::Bad
    }
}

/// Whether a record is withdrawn.
fn is_withdrawn(block: &[u8], control: usize) -> bool {
    byte(block, control.saturating_sub(3)) == 4
}

/// Whether a run may stand after what was read.
fn is_run(block: &[u8], left: Left, run: Run) -> bool {
    let right = byte(block, left.control.saturating_sub(3));
    if run.length == 0 {
        return false;
    }
    match right {
        0 => run.length != left.last,
        4 => are_all(block, left.start, run.length, 0),
        64 => {
            run.length != left.last
                && run.count >= 2
                && byte(block, left.control.saturating_sub(6)) == 8
        }
        _ => false,
    }
}

/// What is left after a run.
fn after(block: &[u8], left: Left, run: Run) -> Left {
    let withdrawn = is_withdrawn(block, left.control);
    let room = run.length.saturating_add(3).saturating_mul(run.count);
    Left {
        start: left
            .start
            .saturating_add(run.length.saturating_mul(run.count)),
        control: left.control.saturating_sub(run.control),
        room: left.room.saturating_add(room),
        last: if withdrawn { 0 } else { run.length },
    }
}

/// A record: where it begins, how long it is, and whether it is there.
#[derive(Clone, Copy)]
struct Record {
    at: usize,
    length: usize,
    live: bool,
}

/// The record of a number, from 0 on.
fn nth(block: &[u8], number: usize) -> Option<Record> {
    let (_, end) = bounds(block);
    let mut before = 0usize;
    let mut start = 0usize;
    let mut control = 508usize;
    for _run in 0..170u32 {
        if control <= end {
            return None;
        }
        let run = run_at(block, control);
        if number < before.saturating_add(run.count) {
            let skipped = number.saturating_sub(before).saturating_mul(run.length);
            return Some(Record {
                at: start.saturating_add(skipped),
                length: run.length,
                live: !is_withdrawn(block, control),
            });
        }
        before = before.saturating_add(run.count);
        start = start.saturating_add(run.count.saturating_mul(run.length));
        control = control.saturating_sub(run.control);
    }
    None
}

/// Whether each record is there, has its whole key, and isn't too long.
fn are_valid(block: &[u8], most: usize) -> bool {
    for i in 0..170usize {
        if let Some(record) = nth(block, i)
            && (!record.live || record.length < 8 || record.length > most)
        {
            return false;
        }
    }
    true
}

/// Whether the keys ascend, and none is outside the range unless the block is busy. A low place of
/// no bytes is none.
fn are_ordered(block: &[u8], low: &[u8], high: &[u8]) -> bool {
    let busy = two(block, 510) >= 32_768;
    let mut last: &[u8] = &[];
    for i in 0..170usize {
        if let Some(record) = nth(block, i) {
            let key = part(block, record.at, 8);
            let outside = key <= low || key > high;
            if key <= last || !busy && outside {
                return false;
            }
            last = key;
        }
    }
    true
}
