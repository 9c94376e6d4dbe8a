//! Entries as the table writes them: `UNIT WHAT`, and of a request ` = ` and its reply after it.

use crate::replies::reply_of;
use crate::words::{file_of, parted, place_of, place_or_none, record_of, unit_of};
use std::alloc::Global;
use vr_case_table::{Stop, word_of};
use vr_history::{Entry, What};
use vr_types::{AreaNo, DeviceFault, FileRef, Find, Integrity, PartNo, Request, SharedRequest};

/// The entry that a text spells, at a stamp and a line of a job text.
pub fn entry_of(alloc: Global, stamp: u64, line: u32, text: &str) -> Result<Entry, Stop> {
    let (unit, rest) = parted(text);
    let unit = unit_of(unit)?;
    let what = what_of(alloc, rest)?;
    Ok(Entry {
        stamp,
        unit,
        line,
        what,
    })
}

fn what_of(alloc: Global, text: &str) -> Result<What, Stop> {
    match text.split_once(" = ") {
        Some((asked, answered)) => asked_of(alloc, asked, answered),
        None => own_of(alloc, text),
    }
}

fn asked_of(alloc: Global, asked: &str, answered: &str) -> Result<What, Stop> {
    let reply = reply_of(alloc, answered)?;
    let request = request_of(alloc, asked)?;
    let request = SharedRequest::new(alloc, request)?;
    Ok(What::Asked { request, reply })
}

/// What no request asked for.
fn own_of(alloc: Global, text: &str) -> Result<What, Stop> {
    let (verb, rest) = parted(text);
    let (first, second) = parted(rest);
    match verb {
        "undone" => Ok(What::Undone {
            part: PartNo(word_of(first)?),
            place: place_of(alloc, second)?,
        }),
        "claimed" => Ok(What::Claimed {
            part: PartNo(word_of(first)?),
            area: AreaNo(word_of(second)?),
        }),
        "split" => Ok(What::Split {
            part: PartNo(word_of(first)?),
        }),
        "faulted" => Ok(What::Faulted {
            fault: fault_of(first)?,
        }),
        _ => Err(Stop::Line),
    }
}

fn fault_of(word: &str) -> Result<DeviceFault, Stop> {
    match word {
        "read" => Ok(DeviceFault::Read),
        "write" => Ok(DeviceFault::Write),
        _ => Err(Stop::Line),
    }
}

fn request_of(alloc: Global, text: &str) -> Result<Request, Stop> {
    let (verb, rest) = parted(text);
    match verb {
        "commit" => Ok(Request::Commit),
        "backout" => Ok(Request::Backout),
        _ => {
            let (file, rest) = parted(rest);
            let file = file_of(file)?;
            on_file(alloc, verb, file, rest)
        }
    }
}

fn on_file(alloc: Global, verb: &str, file: FileRef, rest: &str) -> Result<Request, Stop> {
    match verb {
        "get" => get_of(alloc, file, rest),
        "point" => Ok(Request::Point {
            file,
            find: find_of(alloc, rest)?,
        }),
        "add" => add_of(alloc, file, rest),
        "update" => Ok(Request::Update {
            file,
            bytes: record_of(alloc, rest)?,
        }),
        "erase" => Ok(Request::Erase { file }),
        "endreq" => Ok(Request::EndReq { file }),
        _ => Err(Stop::Line),
    }
}

/// `nri|cr|cre|update` and which record.
fn get_of(alloc: Global, file: FileRef, text: &str) -> Result<Request, Stop> {
    let (mode, rest) = parted(text);
    let (update, integrity) = match mode {
        "nri" => (false, Integrity::Nri),
        "cr" => (false, Integrity::Cr),
        "cre" => (false, Integrity::Cre),
        "update" => (true, Integrity::Nri),
        _ => return Err(Stop::Line),
    };
    let find = find_of(alloc, rest)?;
    Ok(Request::Get {
        file,
        find,
        update,
        integrity,
    })
}

/// `next`, `eq PLACE` or `ge PLACE`.
fn find_of(alloc: Global, text: &str) -> Result<Find, Stop> {
    let (verb, rest) = parted(text);
    match verb {
        "next" => Ok(Find::Next),
        "eq" => Ok(Find::Equal(place_of(alloc, rest)?)),
        "ge" => Ok(Find::AtLeast(place_of(alloc, rest)?)),
        _ => Err(Stop::Line),
    }
}

/// The slot, or `-`, and the record.
fn add_of(alloc: Global, file: FileRef, text: &str) -> Result<Request, Stop> {
    let (slot, record) = parted(text);
    let place = place_or_none(alloc, slot)?;
    let bytes = record_of(alloc, record)?;
    Ok(Request::Add { file, place, bytes })
}
