//! Decks that gates hold.

use crate::gates::{BetweenEvents, InTurns};
use crate::jobs::{add_put, run_lines, run_text};
use crate::replies::{say_asked, say_entries};
use std::alloc::Global;
use std::sync::Wait;
use std::thread::Threads;
use vr_case_volumes::{
    Answer, MAXIMUM, SMALL, Stop, add_lines, entries_of, say, three_volumes, volume_of,
};
use vr_device::MemoryDevice;
use vr_outside::BothHeld;
use vr_types::Kind;

/// Deck 1 adds a record and backs it out; deck 2 asks for it after each of both.
const HELD_RECORD: [&str; 16] = [
    "//S EXEC PGM=VRMDECK",
    "//DECK1 DD *",
    "FILE F VRM.FIRST",
    "FILE G VRM.ONE",
    "PUT F DATA=C'00000001A'",
    "GET G KEY=C'00000001'",
    "BACKOUT",
    "GET G KEY=C'00000001'",
    "//DECK2 DD *",
    "FILE F VRM.FIRST",
    "FILE H VRM.TWO",
    "GET H KEY=C'00000001'",
    "GET F KEY=C'00000001' CR",
    "GET F KEY=C'00000001' NRI",
    "GET H KEY=C'00000001'",
    "GET F KEY=C'00000001' NRI",
];

/// The replies to deck 2 on volume 0, where it is held on volume 2 until deck 1 got to volume 1,
/// and deck 1 there until deck 2 is back on volume 2.
pub fn held_record<R: Threads + Wait + Sync>(rt: &R, alloc: Global, out: &mut String) -> Answer {
    let shelf = three_volumes(alloc, SMALL, Kind::Keyed, Kind::Keyed)?;
    let gate = InTurns::new();
    let ran = run_lines(rt, alloc, shelf, &HELD_RECORD, &gate)?;
    say_asked(out, entries_of(&ran.histories, 0), 2, 1)
}

/// Deck 3 adds three records. Deck 1 erases the second one and backs out; deck 2 reads one record
/// after another, and looks for the second one again once it is back.
const BROWSED: [&str; 27] = [
    "//A EXEC PGM=VRMDECK",
    "//DECK3 DD *",
    "FILE F VRM.FIRST",
    "PUT F DATA=C'00000001A'",
    "PUT F DATA=C'00000003C'",
    "PUT F DATA=C'00000005E'",
    "//B EXEC PGM=VRMDECK",
    "//DECK1 DD *",
    "FILE F VRM.FIRST",
    "FILE G VRM.ONE",
    "GET F KEY=C'00000003' UPD",
    "ERASE F",
    "GET G KEY=C'00000001'",
    "BACKOUT",
    "GET G KEY=C'00000001'",
    "//DECK2 DD *",
    "FILE F VRM.FIRST",
    "FILE H VRM.TWO",
    "GET H KEY=C'00000001'",
    "GET F SEQ",
    "GET F SEQ CR",
    "GET F KEY=C'00000002' GE CR",
    "GET F SEQ NRI",
    "GET H KEY=C'00000001'",
    "POINT F KEY=C'00000002' GE",
    "GET F SEQ",
    "GET F SEQ CRE",
];

/// The replies to deck 2 on volume 0, which reads on while deck 1 has erased a record, by the gate
/// of `held_record`.
pub fn browsed<R: Threads + Wait + Sync>(rt: &R, alloc: Global, out: &mut String) -> Answer {
    let shelf = three_volumes(alloc, SMALL, Kind::Keyed, Kind::Keyed)?;
    let gate = InTurns::new();
    let ran = run_lines(rt, alloc, shelf, &BROWSED, &gate)?;
    say_asked(out, entries_of(&ran.histories, 0), 2, 1)
}

/// Deck 3 adds four records of 120 bytes, which fill an interval; deck 1 adds one among them; deck
/// 2 asks for the last and the first of them.
fn splitting(text: &mut String) -> Answer {
    add_lines(
        text,
        &["//A EXEC PGM=VRMDECK", "//DECK3 DD *", "FILE F VRM.LONG"],
    )?;
    for key in [1, 3, 5, 7] {
        add_put(text, "F", key, 'a', 112)?;
    }
    add_lines(
        text,
        &["//B EXEC PGM=VRMDECK", "//DECK1 DD *", "FILE F VRM.LONG"],
    )?;
    add_put(text, "F", 4, 'b', 112)?;
    add_lines(text, &READING)
}

/// Deck 2 asks for a record of volume 1 before and after.
const READING: [&str; 7] = [
    "//DECK2 DD *",
    "FILE F VRM.LONG",
    "FILE G VRM.ONE",
    "GET G KEY=C'00000001'",
    "GET F KEY=C'00000007'",
    "GET F KEY=C'00000001'",
    "GET G KEY=C'00000001'",
];

/// Volume 0 with VRM.LONG, whose records have at most 120 bytes, and volume 1 with VRM.ONE.
fn long_shelf(alloc: Global) -> Result<Vec<MemoryDevice>, Stop> {
    let long = volume_of(alloc, SMALL, 0, "VRM.LONG", Kind::Keyed, MAXIMUM)?;
    let one = volume_of(alloc, SMALL, 1, "VRM.ONE", Kind::Keyed, MAXIMUM)?;
    Ok(vec![in alloc; long, one]?)
}

/// The entries of decks 1 and 2 on volume 0, where deck 1 is held after so many events of its PUT
/// until deck 2 was answered two GETs there.
pub fn between_events<R: Threads + Wait + Sync>(
    rt: &R,
    alloc: Global,
    events: u32,
    out: &mut String,
) -> Answer {
    let mut text = String::new(alloc);
    splitting(&mut text)?;
    let shelf = long_shelf(alloc)?;
    let gate = BetweenEvents::after(events);
    let ran = run_text(rt, alloc, shelf, text.as_str(), &gate)?;
    say_entries(out, entries_of(&ran.histories, 0), 2)
}

/// Two decks that each ask for a record of a volume of its own.
const TWO_GETS: [&str; 7] = [
    "//S EXEC PGM=VRMDECK",
    "//DECK1 DD *",
    "FILE F VRM.FIRST",
    "GET F KEY=C'00000001'",
    "//DECK2 DD *",
    "FILE F VRM.ONE",
    "GET F KEY=C'00000001'",
];

/// Whether deck 1 had the latch of volume 0 while deck 2 had that of volume 1.
pub fn both_held<R: Threads + Wait + Sync>(rt: &R, alloc: Global, out: &mut String) -> Answer {
    let shelf = three_volumes(alloc, SMALL, Kind::Keyed, Kind::Keyed)?;
    let gate = BothHeld::new();
    let _ran = run_lines(rt, alloc, shelf, &TWO_GETS, &gate)?;
    say(out, if gate.is_met() { "yes" } else { "no" })
}
