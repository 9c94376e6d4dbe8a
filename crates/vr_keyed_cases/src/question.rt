//! Which call a question asks.
ghost use Rattle.vr_keyed_cases.specs.TheLayout.{IsVolume};

use crate::answers::{Answer, Stop, say, say_fault};
use crate::attach::{attach, attach_fails};
use crate::calls::{areas, claim, erase, fill, get, next, place_of, record_call};
use crate::chain::chain;
use crate::format::{small_volume, wide_volume};
use crate::held::Held;
use crate::images::{crash, entries, images, list, mark};
use crate::one_kept::OneKept;
use crate::words::{long_number, long_numbers, number, parted};
use std::alloc::Global;
use vr_types::{Blocks, Geometry};

/// Writes the answer to a line. `held` is the part that the lines before it left.
pub fn answer(alloc: Global, held: &mut Option<Box<Held>>, line: &str, out: &mut String) -> Answer {
    let (verb, rest) = parted(line);
    if let Some(made) = made(alloc, verb, rest)? {
        *held = Some(made);
        return say(out, "ok");
    }
    match held {
        Some(held) => ask(alloc, &mut **held, verb, rest, out),
        None => Err(Stop::Line),
    }
}

/// Makes the part anew, on a device whose calls of these numbers fail: `new NUMBER..`, or on a wide
/// volume, with this many intervals an area, `wide INTERVALS NUMBER..`.
fn made(alloc: Global, verb: &str, rest: &str) -> Result<Option<Box<Held>>, Stop> {
    match verb {
        "new" => Ok(Some(made_on(alloc, small_volume()?, rest)?)),
        "wide" => {
            let (intervals, rest) = parted(rest);
            let geometry = wide_volume(number(intervals)?)?;
            Ok(Some(made_on(alloc, geometry, rest)?))
        }
        _ => Ok(None),
    }
}

fn made_on(alloc: Global, geometry: Geometry, rest: &str) -> Result<Box<Held>, Stop>
    requires { IsVolume geometry }
{
    let fails = long_numbers(alloc, rest)?;
    Held::format(alloc, geometry, fails.as_slice())
}

fn ask(alloc: Global, held: &mut Held, verb: &str, rest: &str, out: &mut String) -> Answer {
    match verb {
        "set" | "step" | "room" => record_call(alloc, held, verb, rest, out),
        "fill" => fill(alloc, held, rest, out),
        "get" => get(alloc, held, rest, out),
        "erase" => erase(alloc, held, rest, out),
        "next" => next(alloc, held, rest, out),
        "areas" => areas(held, out),
        "claim" => claim(held, out),
        "keep" => keep(alloc, held, rest, out),
        "places" => places(alloc, held, rest, out),
        _ => look(alloc, held, verb, rest, out),
    }
}

fn look(alloc: Global, held: &mut Held, verb: &str, rest: &str, out: &mut String) -> Answer {
    match verb {
        "list" => list(alloc, held, out),
        "entries" => entries(alloc, held, out),
        "mark" => mark(alloc, held, out),
        "images" => images(alloc, held, out),
        "crash" => crash(alloc, held, rest, out),
        "chain" => chain(alloc, held, out),
        "attach" => attach(alloc, held, rest, out),
        "attach_fails" => attach_fails(alloc, held, rest, out),
        _ => device_call(held, verb, rest, out),
    }
}

/// A call of the device: `force`, or `stop NUMBER` after so many calls.
fn device_call(held: &mut Held, verb: &str, rest: &str, out: &mut String) -> Answer {
    match verb {
        "force" => {
            let done = held.blocks.force(&[]);
            held.blocks.clear_notes();
            say_fault(out, done)
        }
        "stop" => {
            held.blocks.stop_after(long_number(rest)?);
            say(out, "ok")
        }
        _ => Err(Stop::Line),
    }
}

/// Makes room to keep what is met of so many places: `places COUNT`.
fn places(alloc: Global, held: &mut Held, rest: &str, out: &mut String) -> Answer {
    held.keep_places(alloc, number(rest)? as usize)?;
    say(out, "ok")
}

/// Keeps a record's length at a place: `keep KEY LENGTH`; or nothing: `keep`.
fn keep(alloc: Global, held: &mut Held, rest: &str, out: &mut String) -> Answer {
    if rest.is_empty() {
        held.kept = OneKept::Nothing;
        return say(out, "ok");
    }
    let (key, length) = parted(rest);
    let length = number(length)?;
    let place = place_of(alloc, number(key)?)?;
    held.kept = OneKept::One(place, length);
    say(out, "ok")
}
