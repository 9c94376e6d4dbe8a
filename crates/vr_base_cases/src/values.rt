//! Questions to `vr_types` about values. Each shows a copy of the value that it builds.

use crate::block::say_debug;
use std::alloc::Global;
use vr_case_table::{Answer, Answers, Stop, digits_of, parted, small_of, word_of};
use vr_types::{
    Bound, Bytes, FaultCount, FileRef, Find, Integrity, Kind, LockName, Mode, PartNo, Position,
    Refusal, Reply, Request, SharedRequest, Stand, Unit, Words, bytes, empty_place, number_place,
    place,
};

/// The file of all requests.
const FILE: FileRef = FileRef {
    volume: 0,
    slot: 3,
    base: PartNo(7),
    path: Some(PartNo(8)),
    kind: Kind::Entry,
    known: true,
};

/// A place of bytes: `HEX`.
pub fn place_of(alloc: Global, digits: &str, out: &mut Answers) -> Answer {
    let from = digits_of(alloc, digits)?;
    let place = place(alloc, from.as_slice())?;
    let copy = place.copy(alloc)?;
    out.say_digits(copy.as_slice());
    Ok(())
}

/// The place of a number: `NUMBER`.
pub fn numbered(alloc: Global, word: &str, out: &mut Answers) -> Answer {
    let place = number_place(alloc, word_of(word)?)?;
    out.say_digits(place.as_slice());
    Ok(())
}

/// A place in room that was taken for it: `NUMBER HEX`.
pub fn roomy(alloc: Global, rest: &str, out: &mut Answers) -> Answer {
    let (room, digits) = parted(rest);
    let room = word_of(room)?;
    let from = digits_of(alloc, digits)?;
    if from.len() > room as usize {
        return Err(Stop::Line);
    }
    let mut buffer = empty_place(alloc, room)?;
    out.say("empty");
    out.say_digits(buffer.as_slice());
    buffer.set(from.as_slice());
    let place = buffer.into_place();
    out.say(" then ");
    out.say_digits(place.as_slice());
    Ok(())
}

/// Bytes that are copied, grow by a list and by `45`, and lose that again: `HEX HEX`.
pub fn grown(alloc: Global, rest: &str, out: &mut Answers) -> Answer {
    let (first, second) = parted(rest);
    let mut grown = copied_bytes(alloc, first)?;
    grow(alloc, &mut grown, second, out)
}

fn copied_bytes(alloc: Global, digits: &str) -> Result<Bytes, Stop> {
    let from = digits_of(alloc, digits)?;
    let first = bytes(alloc, from.as_slice())?;
    Ok(first.copy(alloc)?)
}

fn grow(alloc: Global, grown: &mut Bytes, digits: &str, out: &mut Answers) -> Answer {
    let more = digits_of(alloc, digits)?;
    grown.extend(more.as_slice())?;
    shrink(grown, out)
}

fn shrink(grown: &mut Bytes, out: &mut Answers) -> Answer {
    let length = grown.len();
    grown.push(b'E')?;
    out.say_number("", grown.len() as u64);
    grown.truncate(length);
    out.say(" ");
    out.say_digits(grown.as_slice());
    Ok(())
}

/// How many words, and the words: `WORD..`.
pub fn words(alloc: Global, rest: &str, out: &mut Answers) -> Answer {
    let mut words = Words::new(alloc);
    match add_words(&mut words, rest) {
        Ok(()) => say_words(&words, out),
        Err(stop) => return Err(stop),
    }
    Ok(())
}

fn add_words(words: &mut Words, rest: &str) -> Answer {
    for word in rest.split_whitespace() {
        words.push(word)?;
    }
    Ok(())
}

fn say_words(words: &Words, out: &mut Answers) {
    out.say_number("", words.len() as u64);
    for at in 0..words.len() {
        out.say(" ");
        out.say(words.word(at));
    }
}

/// A count of faults that was raised NUMBER times: `NUMBER`.
pub fn faults(word: &str, out: &mut Answers) -> Answer {
    let mut faults = FaultCount::new();
    for _ in 0..word_of(word)? {
        faults.raise();
    }
    out.say_number("", faults.shown());
    Ok(())
}

/// A request of a kind, with a place or record, copied and shared: `KIND HEX`.
pub fn request(alloc: Global, rest: &str, out: &mut Answers) -> Answer {
    let (kind, digits) = parted(rest);
    let request = request_in(alloc, kind, digits)?;
    say_request(alloc, &request, out)
}

fn request_in(alloc: Global, kind: &str, digits: &str) -> Result<Request, Stop> {
    let from = digits_of(alloc, digits)?;
    request_of(alloc, kind, from.as_slice())
}

fn say_request(alloc: Global, request: &Request, out: &mut Answers) -> Answer {
    let copy = request.copy(alloc)?;
    let bound = Bound {
        volume: 1,
        line: 4,
        request: SharedRequest::new(alloc, copy)?,
    };
    say_shared(&bound, out)
}

fn say_shared(bound: &Bound, out: &mut Answers) -> Answer {
    let shared = bound.share()?;
    say_debug(shared.request.get(), out);
    Ok(())
}

fn request_of(alloc: Global, kind: &str, from: &[u8]) -> Result<Request, Stop> {
    match kind {
        "next" => Ok(get(Find::Next)),
        "equal" => Ok(get(Find::Equal(place(alloc, from)?))),
        "at-least" => Ok(get(Find::AtLeast(place(alloc, from)?))),
        "point" => Ok(Request::Point {
            file: FILE,
            find: Find::AtLeast(place(alloc, from)?),
        }),
        "add" => Ok(Request::Add {
            file: FILE,
            place: None,
            bytes: bytes(alloc, from)?,
        }),
        "add-slot" => Ok(Request::Add {
            file: FILE,
            place: Some(number_place(alloc, 5)?),
            bytes: bytes(alloc, from)?,
        }),
        "update" => Ok(Request::Update {
            file: FILE,
            bytes: bytes(alloc, from)?,
        }),
        "erase" => Ok(Request::Erase { file: FILE }),
        "endreq" => Ok(Request::EndReq { file: FILE }),
        "commit" => Ok(Request::Commit),
        "backout" => Ok(Request::Backout),
        _ => Err(Stop::Line),
    }
}

/// A copy of a position, with a place: `STAND HEX`.
pub fn position(alloc: Global, rest: &str, out: &mut Answers) -> Answer {
    let (stand, digits) = parted(rest);
    let position = position_in(alloc, stand, digits)?;
    let copy = position.copy(alloc)?;
    say_debug(&copy, out);
    Ok(())
}

fn position_in(alloc: Global, stand: &str, digits: &str) -> Result<Position, Stop> {
    let from = digits_of(alloc, digits)?;
    position_of(alloc, stand, from.as_slice())
}

fn position_of(alloc: Global, stand: &str, from: &[u8]) -> Result<Position, Stop> {
    let held = Some(place(alloc, from)?);
    let stand = stand_of(alloc, stand, from)?;
    Ok(Position { stand, held })
}

fn stand_of(alloc: Global, stand: &str, from: &[u8]) -> Result<Stand, Stop> {
    match stand {
        "start" => Ok(Stand::Start),
        "at" => Ok(Stand::At(place(alloc, from)?)),
        "after" => Ok(Stand::After(place(alloc, from)?)),
        "end" => Ok(Stand::End),
        "none" => Ok(Stand::None),
        _ => Err(Stop::Line),
    }
}

/// A GET for update, with consistent read.
fn get(find: Find) -> Request {
    Request::Get {
        file: FILE,
        find,
        update: true,
        integrity: Integrity::Cr,
    }
}

/// The feedback number and a copy of a refusal: `NUMBER`, with `key` for a lock on a key.
pub fn refusal(alloc: Global, rest: &str, out: &mut Answers) -> Answer {
    let refusal = refusal_of(alloc, rest)?;
    let copy = refusal.copy(alloc)?;
    out.say_number("", u64::from(copy.code()));
    out.say(" ");
    say_debug(&copy, out);
    Ok(())
}

/// A refusal that is to have that number.
fn refusal_of(alloc: Global, rest: &str) -> Result<Refusal, Stop> {
    let (code, name) = parted(rest);
    let code = small_of(code)?;
    if code != 901 {
        return plain_refusal(code).ok_or(Stop::Line);
    }
    let place = place(alloc, b"K1")?;
    let part = PartNo(7);
    let name = match name {
        "key" => LockName::Unique { part, key: place },
        _ => LockName::Record { part, place },
    };
    Ok(Refusal::Held {
        holder: Unit { deck: 1, number: 2 },
        name,
        mode: Mode::Exclusive,
    })
}

/// The refusal that is to have that number, of those with no place.
fn plain_refusal(code: u16) -> Option<Refusal> {
    Some(match code {
        4 => Refusal::EndOfData,
        8 => Refusal::Duplicate { part: PartNo(7) },
        16 => Refusal::NotFound,
        28 => Refusal::NoSpace { need: 3, free: 1 },
        32 => Refusal::NoAddress,
        88 => Refusal::NoPosition,
        92 => Refusal::NoGet,
        96 => Refusal::KeyChanged,
        100 => Refusal::LengthChanged,
        108 => Refusal::BadLength { length: 9 },
        192 => Refusal::BadSlot,
        902 => Refusal::LogFull {
            used: 500,
            need: 40,
            size: 512,
        },
        903 => Refusal::Stopped { stamp: 6 },
        904 => Refusal::ReadFault,
        905 => Refusal::WriteFault,
        906 => Refusal::Memory,
        907 => Refusal::NotAllowed,
        908 => Refusal::NoFile,
        _ => return None,
    })
}

/// A copy of a reply: `refused KIND`, or `done` with a place and a record or with none.
pub fn reply(alloc: Global, rest: &str, out: &mut Answers) -> Answer {
    let (kind, rest) = parted(rest);
    let reply = reply_of(alloc, kind, rest)?;
    let copy = reply.copy(alloc)?;
    say_debug(&copy, out);
    Ok(())
}

fn reply_of(alloc: Global, kind: &str, rest: &str) -> Result<Reply, Stop> {
    match kind {
        "refused" => Ok(Reply::Refused(refusal_of(alloc, rest)?)),
        "done" => {
            let from = digits_of(alloc, rest)?;
            Ok(Reply::Done {
                feedback: 8,
                place: Some(place(alloc, b"K1")?),
                bytes: Some(bytes(alloc, from.as_slice())?),
            })
        }
        "done-alone" => Ok(Reply::Done {
            feedback: 0,
            place: None,
            bytes: None,
        }),
        _ => Err(Stop::Line),
    }
}
