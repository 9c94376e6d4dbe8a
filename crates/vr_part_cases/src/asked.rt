//! What a list of blocks stands for, as the part says that is attached to it.

use crate::listed::Listed;
use crate::reader::{Reader, attached, owners};
use crate::scope::{LENGTHS, probe, probes};
use std::alloc::Global;
use vr_attach::PartNo2;
use vr_case_table::{Answer, Answers, Stop};
use vr_types::number_place;

/// How many places with a record are asked for at most.
const PLACES: u32 = 40;

/// Attaches the part, and writes the damage, or what it gives.
pub fn say_asked(alloc: Global, listed: &mut Listed, relative: bool, out: &mut Answers) -> Answer {
    let first = listed.first;
    if first >= 2 {
        return Err(Stop::Line);
    }
    let mut owners = owners(alloc, first, listed.taken)?;
    match attached(alloc, listed, first, relative, &mut owners) {
        Ok(mut reader) => {
            out.say_number("stands in ", u64::from(reader.areas()));
            out.say_number(", free ", u64::from(owners.free()));
            say_part(alloc, &mut reader, listed, relative, out)
        }
        Err(no) => say_no(no, out),
    }
}

/// Writes why the part was not attached.
fn say_no(no: PartNo2, out: &mut Answers) -> Answer {
    match no {
        PartNo2::Damaged { block, rule } => {
            out.say_number("damaged ", u64::from(block));
            out.say_number(" ", u64::from(rule));
            Ok(())
        }
        PartNo2::Fault(_) => {
            out.say("fault");
            Ok(())
        }
        PartNo2::Memory => Err(Stop::Memory),
    }
}

/// Writes the addresses of next records, the places with a record, and the records.
fn say_part(
    alloc: Global,
    reader: &mut Reader,
    listed: &mut Listed,
    relative: bool,
    out: &mut Answers,
) -> Answer {
    say_addresses(reader, out);
    say_numbers(reader, listed, out);
    for number in 0..probes(relative) {
        say_look(alloc, reader, listed, probe(relative, number), out)?;
    }
    Ok(())
}

/// Writes the address of a next record of each length.
fn say_addresses(reader: &Reader, out: &mut Answers) {
    out.say(", next");
    for length in LENGTHS {
        match reader.address(length) {
            Some(address) => out.say_number(" ", u64::from(address)),
            None => out.say(" none"),
        }
    }
}

/// Writes the places with a record, each found past the one before.
fn say_numbers(reader: &mut Reader, listed: &mut Listed, out: &mut Answers) {
    out.say(", has");
    let mut last = None;
    for _ in 0..PLACES {
        match reader.next_past(listed, last) {
            Ok(Some(number)) => {
                out.say_number(" ", u64::from(number));
                last = Some(number);
            }
            Ok(None) => return,
            Err(_) => return out.say(" fault"),
        }
    }
    out.say(" no end");
}

/// Writes the record at a place, where there is one.
fn say_look(
    alloc: Global,
    reader: &mut Reader,
    listed: &mut Listed,
    number: u32,
    out: &mut Answers,
) -> Answer {
    let place = number_place(alloc, number)?;
    reader.say_look(listed, number, &place, out);
    Ok(())
}
