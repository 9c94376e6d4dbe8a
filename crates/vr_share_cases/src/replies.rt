//! Entries of a history, in the words of the listing.

use std::fmt::Write;
use vr_case_volumes::{Answer, Verb, say, say_next};
use vr_history::{Entry, What};
use vr_types::{Bytes, Refusal, Reply};

/// Writes the requests of a deck from a line of the job's text on, with their replies.
pub fn say_asked(out: &mut String, entries: &[Entry], deck: u32, line: u32) -> Answer {
    for entry in entries {
        if entry.unit.deck == deck && entry.line >= line && is_asked(entry) {
            say_next(out)?;
            say_what(out, &entry.what)?;
        }
    }
    Ok(())
}

/// Whether an entry is a request that was answered.
fn is_asked(entry: &Entry) -> bool {
    matches!(entry.what, What::Asked { .. })
}

/// Writes the entries of decks up to a number, each with its deck. The COMMITs at their ends are
/// left out.
pub fn say_entries(out: &mut String, entries: &[Entry], last: u32) -> Answer {
    for entry in entries {
        if entry.unit.deck <= last && !is_at_end(entry) {
            say_next(out)?;
            say_entry(out, entry)?;
        }
    }
    Ok(())
}

/// Whether an entry is the COMMIT at a deck's end.
fn is_at_end(entry: &Entry) -> bool {
    is_asked(entry) && entry.line == 0
}

fn say_entry(out: &mut String, entry: &Entry) -> Answer {
    let deck = entry.unit.deck;
    write!(out, "{deck} ")?;
    say_what(out, &entry.what)
}

/// Writes what an entry reports.
fn say_what(out: &mut String, what: &What) -> Answer {
    match what {
        What::Asked { request, reply } => {
            say(out, Verb::of(request.get()).text())?;
            say_reply(out, reply)
        }
        What::Undone { .. } => say(out, "UNDONE"),
        What::Claimed { .. } => say(out, "CLAIMED"),
        What::Split { .. } => say(out, "SPLIT"),
        What::Faulted { .. } => say(out, "FAULTED"),
    }
}

/// Writes a reply.
fn say_reply(out: &mut String, reply: &Reply) -> Answer {
    match reply {
        Reply::Done { bytes, .. } => {
            say(out, " RC=0 FB=0")?;
            say_record(out, bytes)
        }
        Reply::Refused(refusal) => {
            let code = refusal.code();
            write!(out, " RC=8 FB={code}")?;
            say_numbers(out, refusal)
        }
    }
}

/// Writes what a deck's entries report, each after a blank: a record that was found by its number and
/// letter, a refusal by its numbers, and otherwise a word. The COMMIT at its end is left out.
pub fn say_browse(out: &mut String, entries: &[Entry], deck: u32) -> Answer {
    for entry in entries {
        if entry.unit.deck == deck && !is_at_end(entry) {
            say(out, " ")?;
            say_short(out, &entry.what)?;
        }
    }
    Ok(())
}

fn say_short(out: &mut String, what: &What) -> Answer {
    let What::Asked { request, reply } = what else {
        return say_what(out, what);
    };
    match reply {
        Reply::Done {
            bytes: Some(bytes),
            ..
        } => say_short_record(out, bytes.as_slice()),
        Reply::Done { .. } => say(out, Verb::of(request.get()).text()),
        Reply::Refused(refusal) => {
            let code = refusal.code();
            write!(out, "FB={code}")?;
            say_numbers(out, refusal)
        }
    }
}

/// Writes the first 9 bytes of a record, where there is one.
fn say_record(out: &mut String, bytes: &Option<Bytes>) -> Answer {
    if let Some(bytes) = bytes {
        say(out, " DATA=")?;
        say_bytes(out, bytes.as_slice(), 9)?;
    }
    Ok(())
}

/// Writes the last two digits of a record's number, and its letter.
fn say_short_record(out: &mut String, record: &[u8]) -> Answer {
    let before = record.len().min(6);
    say_bytes(out, &record[before..], 3)
}

/// Writes this many bytes.
fn say_bytes(out: &mut String, bytes: &[u8], count: usize) -> Answer {
    for byte in bytes.iter().take(count) {
        out.push(char::from(*byte))?;
    }
    Ok(())
}

/// Writes the numbers of a refusal.
fn say_numbers(out: &mut String, refusal: &Refusal) -> Answer {
    match refusal {
        Refusal::Held { holder, .. } => {
            let deck = holder.deck;
            let number = holder.number;
            write!(out, " HOLDER={deck}.{number}")?;
        }
        Refusal::LogFull { used, need, size } => {
            write!(out, " USED={used} NEED={need} SIZE={size}")?;
        }
        _ => {}
    }
    Ok(())
}
