//! Requests as text.

use crate::decks::integrity_name;
use vr_case_table::Answers;
use vr_types::{FileRef, Find, Kind, PartNo, Place, Request};

/// Writes a request: its verb and its file, and what it has more.
pub fn say_request(request: &Request, out: &mut Answers) {
    match request {
        Request::Get {
            file,
            find,
            update,
            integrity,
        } => {
            say_file("GET", *file, out);
            say_find(find, out);
            out.say(if *update { ",UPD," } else { "," });
            out.say(integrity_name(*integrity));
        }
        Request::Point { file, find } => {
            say_file("POINT", *file, out);
            say_find(find, out);
        }
        Request::Add { file, place, bytes } => {
            say_file("ADD", *file, out);
            say_slot(place, out);
            out.say(",");
            out.say_digits(bytes.as_slice());
        }
        Request::Update { file, bytes } => {
            say_file("UPDATE", *file, out);
            out.say(",");
            out.say_digits(bytes.as_slice());
        }
        Request::Erase { file } => say_file("ERASE", *file, out),
        Request::EndReq { file } => say_file("ENDREQ", *file, out),
        Request::Commit => out.say("COMMIT"),
        Request::Backout => out.say("BACKOUT"),
    }
}

/// Writes a verb and its file: its number, its volume, the kind and the part of its base, and the
/// part of its path; `?` where no catalog has it.
fn say_file(verb: &str, file: FileRef, out: &mut Answers) {
    out.say(verb);
    out.say_number(" ", u64::from(file.slot));
    out.say_number("/", u64::from(file.volume));
    out.say(match file.kind {
        Kind::Keyed => "/K",
        Kind::Entry => "/E",
        Kind::Relative => "/R",
    });
    out.say_number("", u64::from(file.base.0));
    if let Some(PartNo(path)) = file.path {
        out.say_number("/P", u64::from(path));
    }
    out.say(if file.known { "" } else { "?" });
}

/// Writes which record is asked for.
fn say_find(find: &Find, out: &mut Answers) {
    match find {
        Find::Next => out.say(",NEXT"),
        Find::Equal(place) => say_place(",=", place, out),
        Find::AtLeast(place) => say_place(",>=", place, out),
    }
}

/// Writes where a record is to be added.
fn say_slot(place: &Option<Place>, out: &mut Answers) {
    if let Some(place) = place {
        say_place(",=", place, out);
    }
}

/// Writes a place; 256 zero bytes as `long`.
fn say_place(sign: &str, place: &Place, out: &mut Answers) {
    out.say(sign);
    if place.as_slice() == [0u8; 256].as_slice() {
        out.say("long");
    } else {
        out.say_digits(place.as_slice());
    }
}
