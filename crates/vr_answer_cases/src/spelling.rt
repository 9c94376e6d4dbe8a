//! Words of a line: `entry` and `relative`, the kind of the data set; `update`, `cr` and `cre` of a
//! read; `length:3` of a record; `has:A` a record at the place A; `kept:A` one that the other unit
//! may bring back; `withdrawn:A` the address of one that was added and backed out; `lock:A:own:S`
//! and `lock:A:other:X` a lock; `held:A` what the file holds for update; `start`, `at:A`,
//! `after:A`, `end` and `nowhere`, where it stands; `unknown`, `path` and `changing`, why it can't be opened;
//! `stopped`; `areas:1` and `free:2`, the areas of the data set and those that no part has;
//! `used:464` the bytes of the log in use, of 496; `logged` and `live`, what the log has of the
//! unit.

use crate::answers::{Answer, Stop, say, say_number};
use crate::small::{Ask, DataSet, Keeps, Key, Name, OneLock, Small, Stands};
use vr_text::number;
use vr_types::{LockName, Mode, Place, Refusal, Reply, Unit};

/// The first word of a line, and the others.
pub fn parted(line: &str) -> (&str, &str) {
    line.split_once(' ').unwrap_or((line, ""))
}

/// A number of four bytes that a word spells.
pub fn number_of(word: &str) -> Result<u32, Stop> {
    match number(word) {
        Some(value) => u32::try_from(value).ok().ok_or(Stop::Line),
        None => Err(Stop::Line),
    }
}

/// A key.
pub fn key_of(word: &str) -> Result<Key, Stop> {
    match word {
        "A" => Ok(Key::A),
        "B" => Ok(Key::B),
        "F" => Ok(Key::Far),
        _ => Err(Stop::Line),
    }
}

fn lock_of(word: &str) -> Result<OneLock, Stop> {
    let (key, rest) = word.split_once(':').ok_or(Stop::Line)?;
    let (unit, mode) = rest.split_once(':').ok_or(Stop::Line)?;
    Ok(OneLock {
        key: key_of(key)?,
        own: unit == "own",
        exclusive: mode == "X",
    })
}

/// The state with what a word says of it.
pub fn with_word(case: Small, word: &str) -> Result<Small, Stop> {
    match word.split_once(':') {
        Some((what, value)) => with_value(case, what, value),
        None => with_fact(case, word),
    }
}

fn with_value(case: Small, what: &str, value: &str) -> Result<Small, Stop> {
    let mut case = case;
    match what {
        "has" => match key_of(value)? {
            Key::A => case.has_a = true,
            Key::B => case.has_b = true,
            Key::Far => return Err(Stop::Line),
        },
        "withdrawn" => case.withdrawn = Some(key_of(value)?),
        "areas" => case.areas = number_of(value)?,
        "free" => case.free = number_of(value)?,
        "lock" => case.lock = Some(lock_of(value)?),
        "held" => case.held = Some(key_of(value)?),
        "kept" => case.kept = Some(key_of(value)?),
        "at" => case.stands = Stands::At(key_of(value)?),
        "after" => case.stands = Stands::After(key_of(value)?),
        "used" => case.used = number_of(value)?,
        "length" => case.ask = with_length(case.ask, number_of(value)?),
        _ => return Err(Stop::Line),
    }
    Ok(case)
}

fn with_length(ask: Ask, length: u32) -> Ask {
    match ask {
        Ask::Add { key, .. } => Ask::Add { key, length },
        Ask::Update { key, .. } => Ask::Update { key, length },
        other => other,
    }
}

fn with_fact(case: Small, word: &str) -> Result<Small, Stop> {
    let mut case = case;
    match word {
        "entry" => case.data_set = DataSet::Entry,
        "relative" => case.data_set = DataSet::Relative,
        "start" => case.stands = Stands::Start,
        "end" => case.stands = Stands::End,
        "nowhere" => case.stands = Stands::Nowhere,
        "unknown" => case.name = Name::Unknown,
        "path" => case.name = Name::ByPath,
        "changing" => case.changing = true,
        "stopped" => case.stopped = true,
        "logged" => case.logged = true,
        "live" => case.live = true,
        "update" | "cr" | "cre" => case.ask = with_integrity(case.ask, word),
        _ => return Err(Stop::Line),
    }
    Ok(case)
}

fn with_integrity(ask: Ask, word: &str) -> Ask {
    match ask {
        Ask::Get {
            sought,
            update,
            keeps,
        } => Ask::Get {
            sought,
            update: update || word == "update",
            keeps: keeps_of(keeps, word),
        },
        other => other,
    }
}

fn keeps_of(keeps: Keeps, word: &str) -> Keeps {
    match word {
        "cr" => Keeps::Consistent,
        "cre" => Keeps::Repeatable,
        _ => keeps,
    }
}

/// Writes a reply: `done`, with the place and the record, or the number of a refusal with what it
/// shows.
pub fn say_reply(out: &mut String, data_set: DataSet, reply: &Reply) -> Answer {
    match reply {
        Reply::Done { place, bytes, .. } => {
            say(out, "done")?;
            if let Some(place) = place {
                say_place(out, data_set, place)?;
            }
            if let Some(bytes) = bytes {
                say_text(out, bytes.as_slice())?;
            }
            Ok(())
        }
        Reply::Refused(refusal) => {
            say_number(out, "", u64::from(refusal.code()))?;
            say_shown(out, data_set, refusal)
        }
    }
}

/// Writes a space and a text.
fn say_text(out: &mut String, bytes: &[u8]) -> Answer {
    say(out, " ")?;
    match str::from_utf8(bytes) {
        Ok(text) => say(out, text),
        Err(_) => Err(Stop::Line),
    }
}

/// Writes a key as a text, and an address or a slot as a number.
fn say_place(out: &mut String, data_set: DataSet, place: &Place) -> Answer {
    match (data_set, place.as_slice()) {
        (DataSet::Entry | DataSet::Relative, [a, b, c, d]) => {
            say_number(out, " ", u64::from(u32::from_be_bytes([*a, *b, *c, *d])))
        }
        (_, bytes) => say_text(out, bytes),
    }
}

fn say_unit(out: &mut String, unit: Unit) -> Answer {
    say_number(out, " ", u64::from(unit.deck))?;
    say_number(out, ".", u64::from(unit.number))
}

fn say_held(
    out: &mut String,
    data_set: DataSet,
    holder: Unit,
    name: &LockName,
    mode: Mode,
) -> Answer {
    say_unit(out, holder)?;
    match name {
        LockName::Record { place, .. } => say_place(out, data_set, place)?,
        LockName::Unique { key, .. } => say_place(out, data_set, key)?,
    }
    say(
        out,
        match mode {
            Mode::Shared => " S",
            Mode::Exclusive => " X",
        },
    )
}

/// Writes what a refusal shows beside its number.
fn say_shown(out: &mut String, data_set: DataSet, refusal: &Refusal) -> Answer {
    match refusal {
        Refusal::Duplicate { part } => say_number(out, " part ", u64::from(part.0)),
        Refusal::BadLength { length } => say_number(out, " length ", u64::from(*length)),
        Refusal::Held { holder, name, mode } => say_held(out, data_set, *holder, name, *mode),
        Refusal::NoSpace { need, free } => {
            say_number(out, " need ", *need)?;
            say_number(out, " free ", u64::from(*free))
        }
        Refusal::LogFull { used, need, size } => {
            say_number(out, " used ", *used)?;
            say_number(out, " need ", *need)?;
            say_number(out, " size ", *size)
        }
        Refusal::Stopped { stamp } => say_number(out, " at ", *stamp),
        _ => Ok(()),
    }
}
