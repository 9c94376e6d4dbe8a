//! Which call of what is kept of units of recovery a question asks.

use crate::spelling::{part_of, placed, say_before, say_place, unit_of};
use crate::undo_judge::judge;
use std::alloc::Global;
use vr_case_table::{Answer, Answers, Stop, parted, word_of};
use vr_space::{Kept, Whence};
use vr_types::{Place, place};
use vr_undo::Undo;

/// Writes the answer to a line. `undo` is what the lines before it left.
pub fn answer(alloc: Global, undo: &mut Undo, line: &str, out: &mut Answers) -> Answer {
    let (verb, rest) = parted(line);
    match verb {
        "new" => *undo = Undo::new(alloc),
        "keep" => return keep(alloc, undo, rest, out),
        "pair" => return pair(alloc, undo, rest, out),
        "unkeep" => unkeep(alloc, undo, rest)?,
        "end" => undo.forget(unit_of(rest)?),
        _ => return look(alloc, undo, verb, rest, out),
    }
    out.ok()
}

/// The questions that look at what is kept, and the one that takes a before-image out.
fn look(alloc: Global, undo: &mut Undo, verb: &str, rest: &str, out: &mut Answers) -> Answer {
    match verb {
        "last" => {
            say_before(undo.last(unit_of(rest)?), out);
            Ok(())
        }
        "take" => take(undo, rest, out),
        "logged" => logged(alloc, undo, rest, out),
        "longest" => longest(alloc, undo, rest, out),
        "next" => next(alloc, undo, rest, out),
        "judge" => judge(alloc, word_of(rest)?, out),
        _ => Err(Stop::Line),
    }
}

fn say_kept(first: bool, out: &mut Answers) {
    out.say(if first { "new" } else { "known" });
}

/// `keep UNIT PART:PLACE RECORD`, or `free` for the record where there is none.
fn keep(alloc: Global, undo: &mut Undo, rest: &str, out: &mut Answers) -> Answer {
    let (unit, rest) = parted(rest);
    let (at, old) = parted(rest);
    let unit = unit_of(unit)?;
    let old = if old == "free" {
        None
    } else {
        Some(old.as_bytes())
    };
    let (part, at) = placed(alloc, at)?;
    let first = undo.keep(unit, part, &at, old)?;
    say_kept(first, out);
    Ok(())
}

/// `pair UNIT PART:PLACE stood` or `.. free`.
fn pair(alloc: Global, undo: &mut Undo, rest: &str, out: &mut Answers) -> Answer {
    let (unit, rest) = parted(rest);
    let (at, old) = parted(rest);
    let unit = unit_of(unit)?;
    let (part, at) = placed(alloc, at)?;
    let first = undo.keep_pair(unit, part, &at, old == "stood")?;
    say_kept(first, out);
    Ok(())
}

/// `unkeep UNIT PART:PLACE`.
fn unkeep(alloc: Global, undo: &mut Undo, rest: &str) -> Answer {
    let (unit, at) = parted(rest);
    let unit = unit_of(unit)?;
    let (part, at) = placed(alloc, at)?;
    undo.unkeep(unit, part, &at);
    Ok(())
}

/// `take UNIT`.
fn take(undo: &mut Undo, rest: &str, out: &mut Answers) -> Answer {
    let taken = undo.take_one(unit_of(rest)?);
    say_before(taken.as_ref(), out);
    Ok(())
}

/// `logged UNIT PART:PLACE`.
fn logged(alloc: Global, undo: &Undo, rest: &str, out: &mut Answers) -> Answer {
    let (unit, at) = parted(rest);
    let unit = unit_of(unit)?;
    let (part, at) = placed(alloc, at)?;
    let is_logged = undo.is_logged(unit, part, &at);
    out.say(if is_logged { "yes" } else { "no" });
    Ok(())
}

/// `longest PART:PLACE`.
fn longest(alloc: Global, undo: &Undo, rest: &str, out: &mut Answers) -> Answer {
    let (part, at) = placed(alloc, rest)?;
    match undo.longest(part, &at) {
        Some(length) => out.say_number("", u64::from(length)),
        None => out.say("none"),
    }
    Ok(())
}

/// `next PART`, `next PART at PLACE` or `next PART after PLACE`.
fn next(alloc: Global, undo: &Undo, rest: &str, out: &mut Answers) -> Answer {
    let (part, rest) = parted(rest);
    let part = part_of(part)?;
    let (word, at) = parted(rest);
    let at = place(alloc, at.as_bytes())?;
    match whence(word, &at) {
        Some(from) => say_place(undo.next_kept(part, from), out),
        None => return Err(Stop::Line),
    }
    Ok(())
}

/// Where a search begins.
fn whence<'a>(word: &str, at: &'a Place) -> Option<Whence<'a>> {
    match word {
        "" => Some(Whence::Start),
        "at" => Some(Whence::At(at)),
        "after" => Some(Whence::After(at)),
        _ => None,
    }
}
