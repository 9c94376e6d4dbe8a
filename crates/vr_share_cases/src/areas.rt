//! Decks that are held between the stages of a split of an area.

use crate::gates::BetweenEvents;
use crate::jobs::{add_put, run_text};
use crate::replies::say_entries;
use std::alloc::Global;
use std::fmt::Write;
use std::sync::Wait;
use std::thread::Threads;
use vr_case_volumes::{Answer, MAXIMUM, SMALL, Stop, add_lines, entries_of, volume_of};
use vr_device::MemoryDevice;
use vr_types::{Geometry, Kind};

/// Two intervals an area, and 40 areas.
pub const TWO: Geometry = Geometry {
    size: 512,
    blocks: 129,
    log: 8,
    area: 2,
};

/// The most bytes of a record of VRM.LONG.
const LONGEST: u32 = 400;

/// How many letters a record of 300 bytes has, of which an interval has one.
const LETTERS: u32 = 292;

/// What deck 3 adds. Record 1 is in the first area then, 3 and 5 fill the second, and 9 is in the
/// third.
const ADDED: [u32; 4] = [1, 5, 9, 3];

/// What deck 2 does while deck 1 is held.
#[derive(Clone, Copy)]
pub enum Meanwhile {
    /// It asks for a record that moves to the other area, and for one that stays.
    Asks,
    /// It adds a record to the area that is split, for which the interval has room.
    AddsShort,
    /// The same, for which it has none.
    AddsLong,
    /// It adds a record to another area, for which the interval has room.
    AddsElsewhere,
}

/// Deck 3 adds four records, and deck 1 adds record 4, for which the second area is split.
fn add_splitting(text: &mut String) -> Answer {
    add_lines(
        text,
        &["//A EXEC PGM=VRMDECK", "//DECK3 DD *", "FILE F VRM.LONG"],
    )?;
    for key in ADDED {
        add_put(text, "F", key, 'a', LETTERS)?;
    }
    add_lines(
        text,
        &["//B EXEC PGM=VRMDECK", "//DECK1 DD *", "FILE F VRM.LONG"],
    )?;
    add_put(text, "F", 4, 'b', LETTERS)
}

/// What deck 2 asks for on volume 0.
fn add_meanwhile(text: &mut String, does: Meanwhile) -> Answer {
    match does {
        Meanwhile::Asks => add_lines(text, &["GET F KEY=C'00000005'", "GET F KEY=C'00000003'"]),
        Meanwhile::AddsShort => add_put(text, "F", 2, 'c', 1),
        Meanwhile::AddsLong => add_put(text, "F", 2, 'c', LETTERS),
        Meanwhile::AddsElsewhere => add_put(text, "F", 10, 'c', 1),
    }
}

/// Deck 2, which asks for a record of volume 1 before and after.
fn add_second(text: &mut String, does: Meanwhile) -> Answer {
    add_lines(text, &["//DECK2 DD *", "FILE F VRM.LONG", "FILE G VRM.ONE"])?;
    add_lines(text, &["GET G KEY=C'00000001'"])?;
    add_meanwhile(text, does)?;
    add_lines(text, &["GET G KEY=C'00000001'"])
}

/// Volume 0 with VRM.LONG, and volume 1 with VRM.ONE.
fn shelf_of_two(alloc: Global) -> Result<Vec<MemoryDevice>, Stop> {
    let long = volume_of(alloc, TWO, 0, "VRM.LONG", Kind::Keyed, LONGEST)?;
    let one = volume_of(alloc, SMALL, 1, "VRM.ONE", Kind::Keyed, MAXIMUM)?;
    Ok(vec![in alloc; long, one]?)
}

/// The entries of decks 1 and 2 on volume 0, and how many stages each did, where deck 1 is held
/// after so many stages of its PUT until deck 2 was answered there.
pub fn between_stages<R: Threads + Wait + Sync>(
    rt: &R,
    alloc: Global,
    stages: u32,
    does: Meanwhile,
    out: &mut String,
) -> Answer {
    let mut text = String::new(alloc);
    add_splitting(&mut text)?;
    add_second(&mut text, does)?;
    let shelf = shelf_of_two(alloc)?;
    let gate = BetweenEvents::after(stages);
    let ran = run_text(rt, alloc, shelf, text.as_str(), &gate)?;
    say_entries(out, entries_of(&ran.histories, 0), 2)?;
    say_stages(out, &gate)
}

/// Writes how many events of each deck didn't answer a request.
fn say_stages(out: &mut String, gate: &BetweenEvents) -> Answer {
    let first = gate.events_of_first();
    let second = gate.events_of_second();
    write!(out, "; {first} stages of deck 1, {second} of deck 2")?;
    Ok(())
}
