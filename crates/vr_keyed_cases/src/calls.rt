//! Calls of the part that lines speak of. Each answer ends with the calls of the device.
ghost use Rattle.std.specs.Prelude.{◌≡◌, ◌<◌, ◌≤◌, length, IfOk};

use crate::answers::{Answer, Stop, say, say_fault, say_number, say_room, say_stage};
use crate::held::{Held, Stand};
use crate::record::{key, record};
use crate::words::{number, parted};
use std::alloc::Global;
use vr_space::{Part, Room, Whence};
use vr_types::{DeviceFault, Place, PlaceBuffer, empty_place};

/// The place of a number.
pub fn place_of(alloc: Global, number: u32) -> Result<Place, Stop>
    ensures { IfOk result (λ place. length place ≡ 8) }
{
    let key = key(alloc, number)?;
    Ok(Place::from_vec(key))
}

/// Writes the calls of the device since the last answer.
fn say_notes(held: &mut Held, out: &mut String) -> Answer {
    out.push_str(held.blocks.notes())?;
    held.blocks.clear_notes();
    Ok(())
}

/// A call for a record of a key and a length: `set`, `step` and `room`.
pub fn record_call(
    alloc: Global,
    held: &mut Held,
    verb: &str,
    rest: &str,
    out: &mut String,
) -> Answer {
    let (key, size) = parted(rest);
    numbered_call(alloc, held, verb, number(key)?, number(size)?, out)
}

fn numbered_call(
    alloc: Global,
    held: &mut Held,
    verb: &str,
    key: u32,
    size: u32,
    out: &mut String,
) -> Answer {
    if size < 8 || size > 505 {
        return Err(Stop::Line);
    }
    let place = place_of(alloc, key)?;
    match verb {
        "room" => room(held, &place, size, out),
        "set" => set(alloc, held, &place, size, true, out),
        _ => set(alloc, held, &place, size, false, out),
    }
}

/// Sets a record of each key from one to another, or of each STEP-th of them: `fill KEY KEY LENGTH`
/// or `fill KEY KEY LENGTH STEP`.
pub fn fill(alloc: Global, held: &mut Held, rest: &str, out: &mut String) -> Answer {
    let (first, rest) = parted(rest);
    let (last, rest) = parted(rest);
    let (size, step) = parted(rest);
    let step = if step.is_empty() { 1 } else { number(step)? };
    let (first, last) = (number(first)?, number(last)?);
    fill_each(alloc, held, first, last, step.max(1), number(size)?)?;
    say(out, "ok")
}

fn fill_each(alloc: Global, held: &mut Held, first: u32, last: u32, step: u32, size: u32) -> Answer
    requires { 0 < step }
{
    for key in first..=last {
        if key.saturating_sub(first) % step == 0 {
            fill_one(alloc, held, key, size)?;
        }
    }
    Ok(())
}

fn fill_one(alloc: Global, held: &mut Held, key: u32, size: u32) -> Answer {
    let mut said = String::new(alloc);
    numbered_call(alloc, held, "set", key, size, &mut said)
}

/// Whether a record of that length has room.
fn room(held: &mut Held, place: &Place, size: u32, out: &mut String) -> Answer
    requires place { length place.now ≡ 8 }
    requires least { 8 ≤ size }
    requires most { size ≤ 505 }
{
    let room = held.room(place, size);
    say_room(out, room)?;
    say_notes(held, out)
}

/// Sets a record, after all stages that come before it, or only after the first one.
fn set(
    alloc: Global,
    held: &mut Held,
    place: &Place,
    size: u32,
    to_the_end: bool,
    out: &mut String,
) -> Answer
    requires place { length place.now ≡ 8 }
    requires least { 8 ≤ size }
    requires most { size ≤ 505 }
{
    let bytes = record(alloc, place.as_slice(), size)?;
    steps(held, place, bytes.as_slice(), to_the_end, out)
}

/// Asks for room, and does what the answer says, until the record is set.
fn steps(held: &mut Held, place: &Place, bytes: &[u8], to_the_end: bool, out: &mut String) -> Answer
    requires place { length place.now ≡ 8 }
    requires least { 8 ≤ length bytes.now }
    requires most { length bytes.now ≤ 505 }
{
    for _turn in 0..16u32 {
        if !step(held, place, bytes, out)? || !to_the_end {
            return Ok(());
        }
        say(out, "; ")?;
    }
    say(out, "no end")
}

/// Asks for room, and does what the answer says. Answers whether more is to be done.
fn step(held: &mut Held, place: &Place, bytes: &[u8], out: &mut String) -> Result<bool, Stop>
    requires place { length place.now ≡ 8 }
    requires least { 8 ≤ length bytes.now }
    requires most { length bytes.now ≤ 505 }
{
    let room = held.room(place, bytes.len() as u32);
    say_room(out, room)?;
    say_notes(held, out)?;
    match room {
        Ok(Room::Ready) => put(held, place, bytes, out),
        Ok(Room::Stage(_)) => advance(held, place, bytes.len() as u32, out),
        _ => Ok(false),
    }
}

/// Sets the record, and nothing more is to be done.
fn put(held: &mut Held, place: &Place, bytes: &[u8], out: &mut String) -> Result<bool, Stop> {
    let done = held.set(place, bytes)?;
    say(out, "; set ")?;
    say_fault(out, done)?;
    say_notes(held, out)?;
    Ok(false)
}

/// Does the stage, and more is to be done unless it failed.
fn advance(held: &mut Held, place: &Place, size: u32, out: &mut String) -> Result<bool, Stop>
    requires place { length place.now ≡ 8 }
    requires least { 8 ≤ size }
    requires most { size ≤ 505 }
{
    let done = held.advance(place, size);
    say(out, "; ")?;
    say_stage(out, done)?;
    say_notes(held, out)?;
    Ok(done.is_ok())
}

/// How many areas the part's chain has, and how many of the volume are free: `areas`.
pub fn areas(held: &Held, out: &mut String) -> Answer {
    say_number(out, held.part.areas() as u64)?;
    say(out, " held, ")?;
    say_number(out, held.space.free() as u64)?;
    say(out, " free")
}

/// Gives the least free area of the volume to another part, and answers which: `claim`.
pub fn claim(held: &mut Held, out: &mut String) -> Answer {
    match held.claim() {
        Some(area) => say_number(out, area.0 as u64),
        None => say(out, "none"),
    }
}

/// Takes the record of a key away: `KEY`.
pub fn erase(alloc: Global, held: &mut Held, rest: &str, out: &mut String) -> Answer {
    let done = erased(alloc, held, number(rest)?)?;
    say_fault(out, done)?;
    say_notes(held, out)
}

fn erased(alloc: Global, held: &mut Held, key: u32) -> Result<Result<(), DeviceFault>, Stop> {
    let place = place_of(alloc, key)?;
    Ok(held.erase(&place))
}

/// How long the record of a key is: `KEY`.
pub fn get(alloc: Global, held: &mut Held, rest: &str, out: &mut String) -> Answer {
    let stand = stand_of(alloc, held, number(rest)?)?;
    say_stand(out, stand)?;
    say_notes(held, out)
}

fn stand_of(alloc: Global, held: &mut Held, key: u32) -> Result<Stand, Stop> {
    let place = place_of(alloc, key)?;
    Ok(held.stand(&place))
}

fn say_stand(out: &mut String, stand: Stand) -> Answer {
    match stand {
        Stand::Nothing => say(out, "none"),
        Stand::Whole(length) => say_number(out, length as u64),
        Stand::Other => say(out, "another record"),
        Stand::Fault(fault) => say_fault(out, Err(fault)),
    }
}

/// The least place with a record: of all, or `at KEY`, or `after KEY`, or `above KEY`, by `Above`.
pub fn next(alloc: Global, held: &mut Held, rest: &str, out: &mut String) -> Answer {
    let mut into = empty_place(alloc, 8)?;
    next_into(alloc, held, rest, &mut into, out)
}

fn next_into(
    alloc: Global,
    held: &mut Held,
    rest: &str,
    into: &mut PlaceBuffer,
    out: &mut String,
) -> Answer
    requires { 8 ≤ into.old.room }
{
    let found = if rest.is_empty() {
        held.next(Whence::Start, into)
    } else {
        next_from(alloc, held, rest, into)?
    };
    say_next(out, found, into.as_slice())?;
    say_notes(held, out)
}

fn next_from(
    alloc: Global,
    held: &mut Held,
    rest: &str,
    into: &mut PlaceBuffer,
) -> Result<Result<bool, DeviceFault>, Stop>
    requires { 8 ≤ into.old.room }
{
    let (how, key) = parted(rest);
    let place = place_of(alloc, number(key)?)?;
    match how {
        "at" => Ok(held.next(Whence::At(&place), into)),
        "after" => Ok(held.next(Whence::After(&place), into)),
        "above" => Ok(held.next(Whence::Above(place.as_slice()), into)),
        _ => Err(Stop::Line),
    }
}

fn say_next(out: &mut String, found: Result<bool, DeviceFault>, place: &[u8]) -> Answer {
    match found {
        Ok(true) => crate::answers::say_digits(out, place),
        Ok(false) => say(out, "none"),
        Err(fault) => say_fault(out, Err(fault)),
    }
}
