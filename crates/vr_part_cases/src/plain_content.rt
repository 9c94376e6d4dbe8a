//! What a list of blocks stands for, plainly: its places and records, withdrawn ones among them,
//! and where the next record goes.

use crate::listed::Listed;
use crate::plain::{Walked, block_of, used_in, walk};
use crate::saying::say_record;
use crate::scope::{AREAS, LENGTHS, SIZE, probe, probes};
use std::alloc::Global;
use vr_case_table::{Answer, Answers};

/// An item: the number of its place, its block, where in it the item begins, its length, and
/// whether it is a record, or one that was withdrawn.
#[derive(Clone, Copy)]
struct Held {
    number: u32,
    block: u32,
    from: usize,
    length: usize,
    live: bool,
}

/// Writes the damage of a list, or what it stands for.
pub fn say_plain(alloc: Global, listed: &Listed, relative: bool, out: &mut Answers) -> Answer {
    let walked = walk(listed, relative);
    match walked.damage {
        Some(damage) => {
            out.say_number("damaged ", u64::from(damage.block));
            out.say_number(" ", u64::from(damage.rule));
            Ok(())
        }
        None => say_content(alloc, listed, walked, relative, out),
    }
}

/// Writes the areas that it reaches, how many are free, the addresses of next records, the places
/// with a record, and the records.
fn say_content(
    alloc: Global,
    listed: &Listed,
    walked: Walked,
    relative: bool,
    out: &mut Answers,
) -> Answer {
    let mut content = Vec::new(alloc);
    add_areas(&mut content, listed, walked, relative)?;
    let other = if listed.taken { 1 } else { 0 };
    let owned = (walked.count as u64).saturating_add(other);
    out.say_number("stands in ", walked.count as u64);
    out.say_number(", free ", u64::from(AREAS).saturating_sub(owned));
    say_addresses(content.as_slice(), relative, out);
    say_numbers(content.as_slice(), out);
    say_looks(listed, content.as_slice(), relative, out);
    Ok(())
}

/// The items of the areas, one after another.
fn add_areas(content: &mut Vec<Held>, listed: &Listed, walked: Walked, relative: bool) -> Answer {
    let mut number = if relative { 1 } else { 0 };
    for area in walked.areas.iter().take(walked.count) {
        for interval in 0..used_in(listed, *area) {
            add_items(content, listed, block_of(*area, interval), number, relative)?;
            number = number.saturating_add(if relative { 3 } else { 512 });
        }
    }
    Ok(())
}

/// The items of an interval, whose first place has this number. Slots are numbered one after
/// another, and one that is empty has no item; else the place is the number of the first byte.
fn add_items(
    content: &mut Vec<Held>,
    listed: &Listed,
    block: u32,
    number: u32,
    relative: bool,
) -> Answer {
    for (slot, item) in listed.sample(block).filled().items.iter().enumerate() {
        let past = if relative { slot } else { item.from };
        if item.live || !relative {
            content.push(Held {
                number: number.saturating_add(past.min(SIZE) as u32),
                block,
                from: item.from,
                length: item.length,
                live: item.live,
            })?;
        }
    }
    Ok(())
}

/// Writes the address of a next record of each length.
fn say_addresses(content: &[Held], relative: bool, out: &mut Answers) {
    out.say(", next");
    for length in LENGTHS {
        if relative {
            out.say(" none");
        } else {
            out.say_number(" ", u64::from(address(content, length)));
        }
    }
}

/// After the last item, where its interval has room for the record with three bytes for each; else
/// at the start of the next one.
fn address(content: &[Held], length: u32) -> u32 {
    let Some(last) = content.last() else {
        return 0;
    };
    let start = (last.number / 512).saturating_mul(512);
    let mut room = length.saturating_add(3) as usize;
    for held in content {
        if held.number >= start {
            room = room.saturating_add(held.length).saturating_add(3);
        }
    }
    if room <= 508 {
        last.number.saturating_add(last.length.min(SIZE) as u32)
    } else {
        start.saturating_add(512)
    }
}

/// Writes the places with a record.
fn say_numbers(content: &[Held], out: &mut Answers) {
    out.say(", has");
    for held in content {
        if held.live {
            out.say_number(" ", u64::from(held.number));
        }
    }
}

/// Writes the record at each place that is looked at.
fn say_looks(listed: &Listed, content: &[Held], relative: bool, out: &mut Answers) {
    for number in 0..probes(relative) {
        say_look(listed, content, probe(relative, number), out);
    }
}

fn say_look(listed: &Listed, content: &[Held], number: u32, out: &mut Answers) {
    for held in content {
        if held.number == number && held.live {
            let block = listed.sample(held.block).bytes();
            let end = held.from.saturating_add(held.length);
            out.say_number(", ", u64::from(number));
            say_record(block.get(held.from..end).unwrap_or(&[]), out);
        }
    }
}
