//! Browses while another deck changes records around the place where they stand: for each kind of
//! data set and each change a line with the replies to both decks, by integrity.

use crate::areas::TWO;
use crate::gates::StrictTurns;
use crate::jobs::{add_data, run_text};
use crate::replies::say_browse;
use std::alloc::Global;
use std::fmt::Write;
use std::sync::Wait;
use std::thread::Threads;
use vr_case_volumes::{Answer, MAXIMUM, SMALL, Stop, add_lines, entries_of, say, volume_of};
use vr_device::MemoryDevice;
use vr_history::Entry;
use vr_types::{Geometry, Kind};

/// What deck 1 does between two reads of deck 2.
#[derive(Clone, Copy)]
pub enum Act {
    /// Adds a record of 9 bytes, for which the interval has room.
    Add,
    /// Adds a record of 120 bytes.
    AddLong,
    /// Adds a record of 120 bytes for which an area is split.
    Grow,
    Erase,
    Update,
    /// Adds a record and backs it out, and between the next two reads adds another.
    AddAgain,
}

/// A change: what it is called, after which record deck 2 stands, and the record that is changed.
#[derive(Clone, Copy)]
pub struct Change {
    pub name: &'static str,
    pub from: u32,
    pub act: Act,
    pub of: u32,
}

/// A change in a table: its fields in their order.
pub type Row = (&'static str, u32, Act, u32);

impl Change {
    /// The change of a row.
    pub fn of_row(row: Row) -> Change {
        let (name, from, act, of) = row;
        Change {
            name,
            from,
            act,
            of,
        }
    }
}

/// Those of a key-sequenced data set with records 1, 3, 5 and 7, which fill an interval but for 22
/// bytes; for the last three with records 1 to 23, of which 1 to 7 are in the first area, and 9 to
/// 15 and 17 to 23 fill the second.
pub const KEYED: [Row; 12] = [
    ("added before", 3, Act::Add, 2),
    ("added after", 3, Act::Add, 4),
    ("erased before", 3, Act::Erase, 1),
    ("erased after", 3, Act::Erase, 5),
    ("erased there", 3, Act::Erase, 3),
    ("updated before", 3, Act::Update, 1),
    ("updated after", 3, Act::Update, 5),
    ("split before", 3, Act::AddLong, 2),
    ("split after", 3, Act::AddLong, 6),
    ("an area split before", 17, Act::Grow, 10),
    ("an area split there", 15, Act::Grow, 10),
    ("an area split after", 15, Act::Grow, 18),
];

/// Those of a relative data set with records 1, 3, 5 and 7, whose first area has 28 slots.
pub const RELATIVE: [Row; 8] = [
    ("added before", 3, Act::AddLong, 2),
    ("added after", 3, Act::AddLong, 4),
    ("erased before", 3, Act::Erase, 1),
    ("erased after", 3, Act::Erase, 5),
    ("erased there", 3, Act::Erase, 3),
    ("updated before", 3, Act::Update, 1),
    ("updated after", 3, Act::Update, 5),
    ("an area after", 7, Act::AddLong, 40),
];

/// Those of an entry-sequenced data set with records 1 to 4, or 1 to 28, which fill an area.
pub const ENTRY: [Row; 6] = [
    ("added after", 4, Act::AddLong, 5),
    ("withdrawn", 3, Act::AddAgain, 5),
    ("updated before", 2, Act::Update, 1),
    ("updated after", 2, Act::Update, 3),
    ("updated there", 2, Act::Update, 2),
    ("an area after", 28, Act::AddLong, 29),
];

/// How deck 2 reads.
const WAYS: [&str; 4] = ["NRI", "CR", "CRE", "UPD"];

/// How often deck 1 gets to the latch of volume 1 before the end of its text.
const TURNS: u32 = 3;

/// How many letters a record of 120 bytes has.
const LONG: u32 = 112;

/// Adds the operand of the place of a record.
fn add_place(text: &mut String, kind: Kind, number: u32) -> Answer {
    match kind {
        Kind::Keyed => write!(text, " KEY=C'{number:08}'")?,
        Kind::Relative => write!(text, " RRN={number}")?,
        Kind::Entry => {
            let address = address_of(number);
            write!(text, " RBA={address}")?
        }
    }
    Ok(())
}

/// The address of a record of an entry-sequenced data set, of which an interval has four.
fn address_of(number: u32) -> u32 {
    let before = number.saturating_sub(1);
    (before / 4)
        .saturating_mul(512)
        .saturating_add((before % 4).saturating_mul(120))
}

/// Adds the line that adds a record.
fn add_new(text: &mut String, kind: Kind, number: u32, letter: char, letters: u32) -> Answer {
    say(text, "PUT F")?;
    if kind == Kind::Relative {
        add_place(text, kind, number)?;
    }
    add_data(text, number, letter, letters)
}

/// Adds the line that gets a record for update.
fn add_get(text: &mut String, kind: Kind, number: u32) -> Answer {
    say(text, "GET F")?;
    add_place(text, kind, number)?;
    say(text, " UPD\n")
}

/// The last record that stands where a change is to be made.
fn last_of(kind: Kind, change: Change) -> u32 {
    match (kind, change.act) {
        (_, Act::Grow) => 23,
        (Kind::Entry, _) => change.from.max(4),
        _ => 7,
    }
}

/// Deck 3 adds the records of a data set.
fn add_records(text: &mut String, kind: Kind, last: u32) -> Answer {
    add_lines(
        text,
        &["//A EXEC PGM=VRMDECK", "//DECK3 DD *", "FILE F VRM.BROWSED"],
    )?;
    for number in 1..last.saturating_add(1) {
        if kind == Kind::Entry || number % 2 == 1 {
            add_new(text, kind, number, 'a', LONG)?;
        }
    }
    Ok(())
}

/// Deck 1 changes a record in its second turn, and ends its unit in the third.
fn add_changing(text: &mut String, kind: Kind, change: Change, end: &str) -> Answer {
    let before = ["//B EXEC PGM=VRMDECK", "//DECK1 DD *", "FILE F VRM.BROWSED"];
    add_lines(text, &before)?;
    add_lines(text, &["FILE G VRM.ONE", "GET G KEY=C'00000001'"])?;
    add_change(text, kind, change)?;
    add_lines(text, &[end])
}

/// Adds the lines of a change, up to where deck 1 gets to the latch of volume 1.
fn add_change(text: &mut String, kind: Kind, change: Change) -> Answer {
    let number = change.of;
    match change.act {
        Act::Add => add_new(text, kind, number, 'b', 1)?,
        Act::AddLong | Act::Grow => add_new(text, kind, number, 'b', LONG)?,
        Act::Erase => {
            add_get(text, kind, number)?;
            add_lines(text, &["ERASE F"])?;
        }
        Act::Update => {
            add_get(text, kind, number)?;
            say(text, "PUT F UPD")?;
            add_data(text, number, 'b', LONG)?;
        }
        Act::AddAgain => return add_again(text, kind, number),
    }
    add_lines(text, &["GET G KEY=C'00000001'"])
}

/// A BACKOUT gets to the latch of volume 1 too.
fn add_again(text: &mut String, kind: Kind, number: u32) -> Answer {
    add_new(text, kind, number, 'b', LONG)?;
    add_lines(text, &["BACKOUT"])?;
    add_new(text, kind, number.saturating_add(1), 'b', LONG)
}

/// Deck 2 reads a record in its first turn, the next one in its second, and two more then.
fn add_reading(text: &mut String, kind: Kind, from: u32, way: &str) -> Answer {
    let before = ["//DECK2 DD *", "FILE F VRM.BROWSED", "FILE H VRM.TWO"];
    add_lines(text, &before)?;
    say(text, "POINT F")?;
    add_place(text, kind, from)?;
    write!(text, "\nGET F SEQ {way}\nGET H KEY=C'00000001'\n")?;
    write!(text, "GET F SEQ {way}\nGET H KEY=C'00000001'\n")?;
    write!(text, "GET F SEQ {way}\nGET F SEQ {way}\n")?;
    Ok(())
}

/// Adds the lines of the job.
fn add_job(text: &mut String, kind: Kind, change: Change, end: &str, way: &str) -> Answer {
    add_records(text, kind, last_of(kind, change))?;
    add_changing(text, kind, change, end)?;
    add_reading(text, kind, change.from, way)
}

/// The shape of volume 0: a key-sequenced data set has two intervals an area.
fn shape_of(kind: Kind) -> Geometry {
    match kind {
        Kind::Keyed => TWO,
        Kind::Entry | Kind::Relative => SMALL,
    }
}

/// Volume 0 with VRM.BROWSED of this kind, and those by which the decks are held.
fn shelf_of(alloc: Global, kind: Kind) -> Result<Vec<MemoryDevice>, Stop> {
    let browsed = volume_of(alloc, shape_of(kind), 0, "VRM.BROWSED", kind, MAXIMUM)?;
    let one = volume_of(alloc, SMALL, 1, "VRM.ONE", Kind::Keyed, MAXIMUM)?;
    let two = volume_of(alloc, SMALL, 2, "VRM.TWO", Kind::Keyed, MAXIMUM)?;
    Ok(vec![in alloc; browsed, one, two]?)
}

/// Writes the replies to both decks on volume 0, where deck 2 reads this way.
fn say_replies<R: Threads + Wait + Sync>(
    rt: &R,
    alloc: Global,
    kind: Kind,
    change: Change,
    end: &str,
    way: &str,
    out: &mut String,
) -> Answer {
    let mut text = String::new(alloc);
    add_job(&mut text, kind, change, end, way)?;
    let shelf = shelf_of(alloc, kind)?;
    let gate = StrictTurns::of(TURNS);
    let ran = run_text(rt, alloc, shelf, text.as_str(), &gate)?;
    say_both(out, entries_of(&ran.histories, 0), way)
}

/// Writes what both decks were answered.
fn say_both(out: &mut String, entries: &[Entry], way: &str) -> Answer {
    write!(out, "; {way} 1:")?;
    say_browse(out, entries, 1)?;
    say(out, " 2:")?;
    say_browse(out, entries, 2)
}

/// The replies to both decks for each integrity, where deck 1 ends its unit so.
pub fn browsed<R: Threads + Wait + Sync>(
    rt: &R,
    alloc: Global,
    kind: Kind,
    change: Change,
    end: &str,
    out: &mut String,
) -> Answer {
    let name = change.name;
    write!(out, "{name}, {end}")?;
    for way in WAYS {
        say_replies(rt, alloc, kind, change, end, way, out)?;
    }
    Ok(())
}
