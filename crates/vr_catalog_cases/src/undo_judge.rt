//! What is kept beside the plain program, over all sequences of calls of a length.

use crate::plain_undo::{PlainUndo, Row};
use std::alloc::Global;
use vr_case_table::{Answer, Answers, Stop};
use vr_space::{Kept, Whence};
use vr_types::{PartNo, Place, Unit, place};
use vr_undo::{Before, Undo};

/// How many calls there are to choose from.
const CALLS: u32 = 14;

/// Runs all sequences of that many calls, and writes how many differ.
pub fn judge(alloc: Global, length: u32, out: &mut Answers) -> Answer {
    let sequences = sequences_of(length)?;
    let mut differ = 0u64;
    for sequence in 0..sequences {
        if !agree(alloc, sequence, length)? {
            differ = differ.saturating_add(1);
        }
    }
    out.say_number("", differ);
    out.say_number(" differ of ", u64::from(sequences));
    Ok(())
}

/// How many sequences of that many calls there are.
fn sequences_of(length: u32) -> Result<u32, Stop> {
    let mut sequences = 1u32;
    for _ in 0..length {
        sequences = sequences.checked_mul(CALLS).ok_or(Stop::Line)?;
    }
    Ok(sequences)
}

/// Whether both answer the calls of a sequence alike, and show the same at its end.
fn agree(alloc: Global, sequence: u32, length: u32) -> Result<bool, Stop> {
    let mut undo = Undo::new(alloc);
    let mut plain = PlainUndo::new(alloc);
    agree_on(alloc, &mut undo, &mut plain, sequence, length)
}

fn agree_on(
    alloc: Global,
    undo: &mut Undo,
    plain: &mut PlainUndo,
    sequence: u32,
    length: u32,
) -> Result<bool, Stop> {
    let mut rest = sequence;
    for number in 0..length {
        if !call(alloc, undo, plain, rest % CALLS, number)? {
            return Ok(false);
        }
        rest /= CALLS;
    }
    Ok(show_units(alloc, undo, plain)? && show_places(alloc, undo, plain)?)
}

/// The unit, part and place that a call is on. Units 1 and 2 change the places A and B of part 1,
/// part 2 is an alternate index, and part 3 another cluster.
fn row_of(which: u32, number: u32) -> Row {
    let call = number.saturating_add(1);
    let (unit, part, place) = match which {
        0 => (1, 1, 0),
        1 => (1, 1, 2),
        2 => (2, 1, 0),
        3 => (2, 1, 2),
        4 => (1, 3, 0),
        5 => (1, 2, 1),
        6 => (2, 2, 1),
        7 => (1, 1, 0),
        8 => (2, 1, 0),
        9 => (1, 2, 1),
        10 | 12 => (1, 0, 0),
        _ => (2, 0, 0),
    };
    let length = match which {
        1 | 6 => None,
        5 => Some(2),
        _ => Some(call),
    };
    Row {
        call,
        unit,
        part,
        place,
        length,
    }
}

/// Makes a call on both, and says whether they answer alike. A record is the longer, the later its
/// call is.
fn call(
    alloc: Global,
    undo: &mut Undo,
    plain: &mut PlainUndo,
    which: u32,
    number: u32,
) -> Result<bool, Stop> {
    let row = row_of(which, number);
    let at = place_of(alloc, row.place)?;
    let part = PartNo(row.part);
    let unit = unit_of(row.unit);
    match which {
        0..=4 => {
            let wanted = plain.keep(row)?;
            Ok(undo.keep(unit, part, &at, record_of(row.length))? == wanted)
        }
        5 | 6 => {
            let wanted = plain.keep_pair(row)?;
            Ok(undo.keep_pair(unit, part, &at, row.length.is_some())? == wanted)
        }
        7..=9 => {
            plain.unkeep(row.unit, row.part, row.place);
            undo.unkeep(unit, part, &at);
            Ok(true)
        }
        10 | 11 => {
            let wanted = plain.take(row.unit);
            let taken = undo.take_one(unit);
            Ok(is_row(taken.as_ref(), wanted))
        }
        _ => {
            plain.end(row.unit);
            undo.forget(unit);
            Ok(true)
        }
    }
}

/// Whether both show the same of each unit.
fn show_units(alloc: Global, undo: &Undo, plain: &PlainUndo) -> Result<bool, Stop> {
    for number in 1..3u32 {
        let unit = unit_of(number);
        if !is_row(undo.last(unit), plain.last(number)) {
            return Ok(false);
        }
        for which in 0..9u8 {
            let part = u32::from(which / 3) + 1;
            let id = which % 3;
            let at = place_of(alloc, id)?;
            if undo.is_logged(unit, PartNo(part), &at) != plain.is_logged(number, part, id) {
                return Ok(false);
            }
        }
    }
    Ok(true)
}

/// Whether both keep room for the same at each place.
fn show_places(alloc: Global, undo: &Undo, plain: &PlainUndo) -> Result<bool, Stop> {
    for which in 0..9u8 {
        let number = u32::from(which / 3) + 1;
        let part = PartNo(number);
        let id = which % 3;
        let at = place_of(alloc, id)?;
        let alike = undo.longest(part, &at) == plain.longest(number, id)
            && is_place(
                undo.next_kept(part, Whence::Start),
                plain.least_from(number, 0),
            )
            && is_place(
                undo.next_kept(part, Whence::At(&at)),
                plain.least_from(number, id),
            )
            && is_place(
                undo.next_kept(part, Whence::After(&at)),
                plain.least_from(number, id + 1),
            );
        if !alike {
            return Ok(false);
        }
    }
    Ok(true)
}

fn unit_of(number: u32) -> Unit {
    Unit { deck: 1, number }
}

/// The places, which ascend with their numbers.
fn name_of(id: u8) -> &'static [u8] {
    match id {
        0 => b"A",
        1 => b"AA",
        _ => b"B",
    }
}

fn place_of(alloc: Global, id: u8) -> Result<Place, Stop> {
    Ok(place(alloc, name_of(id))?)
}

/// A record of a length.
fn record_of(length: Option<u32>) -> Option<&'static [u8]> {
    match length? {
        1 => Some(b"1".as_slice()),
        2 => Some(b"12".as_slice()),
        3 => Some(b"123".as_slice()),
        4 => Some(b"1234".as_slice()),
        _ => Some(b"12345".as_slice()),
    }
}

/// Whether a place is the one of a number.
fn is_place(at: Option<&Place>, id: Option<u8>) -> bool {
    match (at, id) {
        (None, None) => true,
        (Some(at), Some(id)) => at.as_slice() == name_of(id),
        _ => false,
    }
}

/// Whether a before-image is a row.
fn is_row(before: Option<&Before>, row: Option<Row>) -> bool {
    match (before, row) {
        (None, None) => true,
        (Some(before), Some(row)) => {
            before.part.0 == row.part
                && is_place(Some(&before.place), Some(row.place))
                && is_record(before, row)
        }
        _ => false,
    }
}

/// Whether the record of a before-image is that of a row.
fn is_record(before: &Before, row: Row) -> bool {
    match (&before.old, record_of(row.length)) {
        (None, None) => true,
        (Some(old), Some(record)) => old.as_slice() == record,
        _ => false,
    }
}
