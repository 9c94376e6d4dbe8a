//! What a list of blocks stands for, plainly: the walk over its areas, and the first damage.

use crate::listed::Listed;
use crate::plain_filled::Filled;
use crate::scope::{AREAS, INTERVALS, PART, head_of, most_of};

/// A block with a broken rule, and the least rule that is broken there.
#[derive(Clone, Copy)]
pub struct Damage {
    pub block: u32,
    pub rule: u8,
}

/// The areas that were reached, in their order, and the damage that was met.
#[derive(Clone, Copy)]
pub struct Walked {
    pub areas: [u32; 2],
    pub count: usize,
    pub damage: Option<Damage>,
}

/// Walks over the areas of the part.
pub fn walk(listed: &Listed, relative: bool) -> Walked {
    let mut walked = Walked {
        areas: [listed.first; 2],
        count: 1,
        damage: None,
    };
    let mut area = listed.first;
    for _ in 0..AREAS {
        walked.damage = damage_in(listed, relative, area);
        let Some(next) = next_of(listed, area) else {
            return walked;
        };
        if walked.damage.is_some() || !goes_on(listed, &mut walked, next) {
            return walked;
        }
        area = next;
    }
    walked
}

/// The area that an area leads to.
fn next_of(listed: &Listed, area: u32) -> Option<u32> {
    listed.sample(head_of(area)).roster()?.next
}

/// Goes on to an area, unless it was reached before or is another part's.
fn goes_on(listed: &Listed, walked: &mut Walked, next: u32) -> bool {
    let is_reached = walked.areas.contains(&next);
    if is_reached || listed.taken {
        walked.damage = Some(Damage {
            block: head_of(next),
            rule: 4,
        });
        return false;
    }
    walked.areas = [listed.first, next];
    walked.count = 2;
    true
}

/// The damage of an area: of its roster, or of the first of its used intervals that has one.
fn damage_in(listed: &Listed, relative: bool, area: u32) -> Option<Damage> {
    let head = head_of(area);
    if let Some(rule) = roster_rule(listed, head) {
        return Some(Damage { block: head, rule });
    }
    for interval in 0..used_in(listed, area) {
        let block = block_of(area, interval);
        if let Some(rule) = filled_rule(listed.sample(block).filled(), relative) {
            return Some(Damage { block, rule });
        }
    }
    None
}

/// The block of an interval of an area.
pub fn block_of(area: u32, interval: u32) -> u32 {
    head_of(area).saturating_add(1).saturating_add(interval)
}

/// How many intervals of an area are used.
pub fn used_in(listed: &Listed, area: u32) -> u32 {
    match listed.sample(head_of(area)).roster() {
        Some(roster) => roster.used,
        None => 0,
    }
}

/// The least rule that the roster breaks: 13 where it is none, 3 where it leads to an area that
/// isn't there, 6 where it is another part's, and 13 where it leads on though its area isn't used
/// whole.
fn roster_rule(listed: &Listed, head: u32) -> Option<u8> {
    let Some(roster) = listed.sample(head).roster() else {
        return Some(13);
    };
    if roster.next.is_some_and(|next| next >= AREAS) {
        Some(3)
    } else if roster.part != PART {
        Some(6)
    } else if roster.next.is_some() && roster.used != INTERVALS {
        Some(13)
    } else {
        None
    }
}

/// The least rule that an interval breaks.
fn filled_rule(filled: &Filled, relative: bool) -> Option<u8> {
    let most = most_of(relative) as usize;
    if relative {
        slots_rule(filled, most)
    } else {
        entries_rule(filled, most)
    }
}

/// 9 where it is an end of file, 8 where it is no interval of any form, and 14 where it has no
/// slots of that length, or is busy.
fn slots_rule(filled: &Filled, most: usize) -> Option<u8> {
    if filled.end_of_file {
        Some(9)
    } else if filled.slots == Some(most) && !filled.busy {
        None
    } else if filled.records || filled.slots.is_some() || filled.segment {
        Some(14)
    } else {
        Some(8)
    }
}

/// 9 where it is an end of file, 8 where it is no interval of records, and 10 where it is a segment
/// or busy, or has an item that is longer than the longest record.
fn entries_rule(filled: &Filled, most: usize) -> Option<u8> {
    if filled.end_of_file {
        Some(9)
    } else if filled.segment {
        Some(10)
    } else if !filled.records {
        Some(8)
    } else if filled.busy || filled.items.iter().any(|item| item.length > most) {
        Some(10)
    } else {
        None
    }
}
