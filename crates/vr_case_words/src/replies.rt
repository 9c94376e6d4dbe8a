//! Replies as the table writes them.

use crate::words::{parted, place_of, place_or_none, record_or_none, unit_of};
use std::alloc::Global;
use vr_case_table::{Stop, long_of, small_of, word_of};
use vr_types::{LockName, Mode, PartNo, Refusal, Reply};

/// The reply that a text spells: `done FEEDBACK PLACE RECORD`, or the name of a refusal with its
/// numbers.
pub fn reply_of(alloc: Global, text: &str) -> Result<Reply, Stop> {
    let (verb, rest) = parted(text);
    if verb == "done" {
        return done_of(alloc, rest);
    }
    let refusal = refusal_of(alloc, verb, rest)?;
    Ok(Reply::Refused(refusal))
}

fn done_of(alloc: Global, text: &str) -> Result<Reply, Stop> {
    let (feedback, rest) = parted(text);
    let (place, bytes) = parted(rest);
    let feedback = small_of(feedback)?;
    let place = place_or_none(alloc, place)?;
    let bytes = record_or_none(alloc, bytes)?;
    Ok(Reply::Done {
        feedback,
        place,
        bytes,
    })
}

fn refusal_of(alloc: Global, verb: &str, rest: &str) -> Result<Refusal, Stop> {
    match verb {
        "end" => Ok(Refusal::EndOfData),
        "notfound" => Ok(Refusal::NotFound),
        "noaddress" => Ok(Refusal::NoAddress),
        "noposition" => Ok(Refusal::NoPosition),
        "noget" => Ok(Refusal::NoGet),
        "keychanged" => Ok(Refusal::KeyChanged),
        "lengthchanged" => Ok(Refusal::LengthChanged),
        "badslot" => Ok(Refusal::BadSlot),
        "notallowed" => Ok(Refusal::NotAllowed),
        "nofile" => Ok(Refusal::NoFile),
        "memory" => Ok(Refusal::Memory),
        "readfault" => Ok(Refusal::ReadFault),
        "writefault" => Ok(Refusal::WriteFault),
        "held" => held_of(alloc, rest),
        _ => numbered_of(verb, rest),
    }
}

fn numbered_of(verb: &str, rest: &str) -> Result<Refusal, Stop> {
    let (first, more) = parted(rest);
    let (second, third) = parted(more);
    match verb {
        "duplicate" => Ok(Refusal::Duplicate {
            part: PartNo(word_of(first)?),
        }),
        "badlength" => Ok(Refusal::BadLength {
            length: word_of(first)?,
        }),
        "stopped" => Ok(Refusal::Stopped {
            stamp: long_of(first)?,
        }),
        "nospace" => Ok(Refusal::NoSpace {
            need: long_of(first)?,
            free: word_of(second)?,
        }),
        "logfull" => Ok(Refusal::LogFull {
            used: long_of(first)?,
            need: long_of(second)?,
            size: long_of(third)?,
        }),
        _ => Err(Stop::Line),
    }
}

/// `held UNIT record|unique PART PLACE shared|exclusive`.
fn held_of(alloc: Global, text: &str) -> Result<Refusal, Stop> {
    let (unit, rest) = parted(text);
    let (kind, rest) = parted(rest);
    let (part, rest) = parted(rest);
    let (place, mode) = parted(rest);
    let holder = unit_of(unit)?;
    let mode = mode_of(mode)?;
    let name = name_of(alloc, kind, part, place)?;
    Ok(Refusal::Held { holder, name, mode })
}

fn mode_of(word: &str) -> Result<Mode, Stop> {
    match word {
        "shared" => Ok(Mode::Shared),
        "exclusive" => Ok(Mode::Exclusive),
        _ => Err(Stop::Line),
    }
}

fn name_of(alloc: Global, kind: &str, part: &str, place: &str) -> Result<LockName, Stop> {
    let part = PartNo(word_of(part)?);
    match kind {
        "record" => Ok(LockName::Record {
            part,
            place: place_of(alloc, place)?,
        }),
        "unique" => Ok(LockName::Unique {
            part,
            key: place_of(alloc, place)?,
        }),
        _ => Err(Stop::Line),
    }
}
