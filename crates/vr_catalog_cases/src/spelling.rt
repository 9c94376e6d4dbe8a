//! Units, parts and places in a line: `2.1` is unit 1 of deck 2, `1:A` the place A of part 1.

use std::alloc::Global;
use vr_case_table::{Answers, Stop, word_of};
use vr_types::{PartNo, Place, Unit, place};
use vr_undo::Before;

/// A unit of recovery.
pub fn unit_of(word: &str) -> Result<Unit, Stop> {
    let (deck, number) = word.split_once('.').ok_or(Stop::Line)?;
    let deck = word_of(deck)?;
    let number = word_of(number)?;
    Ok(Unit { deck, number })
}

/// The number of a part.
pub fn part_of(word: &str) -> Result<PartNo, Stop> {
    Ok(PartNo(word_of(word)?))
}

/// A part and a place in it.
pub fn placed(alloc: Global, word: &str) -> Result<(PartNo, Place), Stop> {
    let (part, at) = word.split_once(':').ok_or(Stop::Line)?;
    let part = part_of(part)?;
    let at = place(alloc, at.as_bytes())?;
    Ok((part, at))
}

/// Writes bytes that spell letters or digits, and others as dots.
fn say_shown(bytes: &[u8], out: &mut Answers) {
    for byte in bytes {
        let is_shown = byte.is_ascii_alphanumeric();
        out.say_char(if is_shown { char::from(*byte) } else { '.' });
    }
}

/// Writes a place, or that there is none.
pub fn say_place(at: Option<&Place>, out: &mut Answers) {
    match at {
        Some(at) => say_shown(at.as_slice(), out),
        None => out.say("none"),
    }
}

/// Writes a before-image: its part and place, and the record or that there was none.
pub fn say_before(before: Option<&Before>, out: &mut Answers) {
    let Some(before) = before else {
        return out.say("none");
    };
    out.say_number("", u64::from(before.part.0));
    out.say(":");
    say_shown(before.place.as_slice(), out);
    match &before.old {
        Some(old) => {
            out.say(" ");
            say_shown(old.as_slice(), out);
        }
        None => out.say(" was free"),
    }
}
