//! Units, names and modes in a line: `2.1` is unit 1 of deck 2, `A` the record of part 1 at the
//! place A, `3:A` that of part 3, `*A` a key of a unique alternate index, `S` shared, `X`
//! exclusive.

use std::alloc::Global;
use vr_case_table::{Answer, Answers, Stop, word_of};
use vr_types::{LockName, LockNames, Mode, PartNo, Place, Unit, place};

/// A unit of recovery.
pub fn unit_of(word: &str) -> Result<Unit, Stop> {
    let (deck, number) = word.split_once('.').ok_or(Stop::Line)?;
    let deck = word_of(deck)?;
    let number = word_of(number)?;
    Ok(Unit { deck, number })
}

/// A mode.
pub fn mode_of(word: &str) -> Result<Mode, Stop> {
    match word {
        "S" => Ok(Mode::Shared),
        "X" => Ok(Mode::Exclusive),
        _ => Err(Stop::Line),
    }
}

/// A name of a lock.
pub fn name_of(alloc: Global, word: &str) -> Result<LockName, Stop> {
    match word.strip_prefix('*') {
        Some(rest) => {
            let (part, key) = placed(alloc, rest)?;
            Ok(LockName::Unique { part, key })
        }
        None => {
            let (part, place) = placed(alloc, word)?;
            Ok(LockName::Record { part, place })
        }
    }
}

/// A part and a place in it.
fn placed(alloc: Global, word: &str) -> Result<(PartNo, Place), Stop> {
    let (part, text) = match word.split_once(':') {
        Some((part, text)) => (word_of(part)?, text),
        None => (1, word),
    };
    let place = place(alloc, text.as_bytes())?;
    Ok((PartNo(part), place))
}

/// Names that commas separate.
pub fn names_of(alloc: Global, word: &str) -> Result<LockNames, Stop> {
    let mut names = LockNames::new(alloc);
    match add_names(alloc, &mut names, word) {
        Ok(()) => Ok(names),
        Err(stop) => Err(stop),
    }
}

fn add_names(alloc: Global, names: &mut LockNames, word: &str) -> Answer {
    for name in word.split(',') {
        names.push(name_of(alloc, name)?)?;
    }
    Ok(())
}

/// Writes a unit of recovery.
pub fn say_unit(unit: Unit, out: &mut Answers) {
    out.say_number("", u64::from(unit.deck));
    out.say_number(".", u64::from(unit.number));
}

/// Writes a mode.
pub fn say_mode(mode: Mode, out: &mut Answers) {
    out.say(match mode {
        Mode::Shared => "S",
        Mode::Exclusive => "X",
    });
}

/// Writes a name of a lock.
pub fn say_name(name: &LockName, out: &mut Answers) {
    match name {
        LockName::Record { part, place } => say_place(*part, place, out),
        LockName::Unique { part, key } => {
            out.say("*");
            say_place(*part, key, out);
        }
    }
}

/// Writes a place, after its part if that isn't 1.
fn say_place(part: PartNo, place: &Place, out: &mut Answers) {
    if part.0 != 1 {
        out.say_number("", u64::from(part.0));
        out.say(":");
    }
    out.say_bytes(place.as_slice());
}
