//! The crate beside the plain program, over the small states.

use crate::answers::{Answer, Stop, say_number};
use crate::desk::{answer_of, letter, part_of, standing, unit_of};
use crate::plain::{PlainReply, plain};
use crate::small::{DataSet, Key, SMALL, Small, small_of};
use std::alloc::Global;
use vr_catalog::Catalog;
use vr_types::{Bytes, LockName, Mode, Place, Refusal, Reply};

/// Asks the states whose numbers are multiples of `step`, and writes how many differ.
pub fn judge(alloc: Global, catalog: &Catalog, step: u32, out: &mut String) -> Answer {
    if step == 0 {
        return Err(Stop::Line);
    }
    let mut asked = 0u64;
    let mut differ = 0u64;
    for number in 0..SMALL {
        if number % step == 0 {
            asked = asked.saturating_add(1);
            if !agrees(alloc, catalog, &small_of(number))? {
                differ = differ.saturating_add(1);
            }
        }
    }
    say_number(out, "", differ)?;
    say_number(out, " differ of ", asked)
}

/// Whether the crate and the plain program answer alike.
fn agrees(alloc: Global, catalog: &Catalog, case: &Small) -> Result<bool, Stop> {
    let reply = answer_of(alloc, catalog, case)?;
    Ok(is_same(case, &reply, plain(case)))
}

fn is_same(case: &Small, reply: &Reply, wanted: PlainReply) -> bool {
    match reply {
        Reply::Done {
            feedback,
            place,
            bytes,
        } => *feedback == 0 && is_done(case.data_set, place, bytes, wanted),
        Reply::Refused(refusal) => is_refused(case, refusal, wanted),
    }
}

fn is_done(
    data_set: DataSet,
    place: &Option<Place>,
    bytes: &Option<Bytes>,
    wanted: PlainReply,
) -> bool {
    match wanted {
        PlainReply::Done { place: at, record } => is_place(data_set, place, at)
            && is_record(data_set, bytes, at, record),
        PlainReply::Refused { .. } | PlainReply::Full { .. } | PlainReply::Lacking { .. } => false,
    }
}

fn is_place(data_set: DataSet, place: &Option<Place>, wanted: Option<Key>) -> bool {
    match (place, wanted) {
        (None, None) => true,
        (Some(place), Some(key)) => place.as_slice() == letter(data_set, key),
        _ => false,
    }
}

/// The record that a read shows.
fn is_record(data_set: DataSet, bytes: &Option<Bytes>, at: Option<Key>, wanted: bool) -> bool {
    match (bytes, at) {
        (None, _) => !wanted,
        (Some(bytes), Some(key)) => wanted && bytes.as_slice() == standing(data_set, key),
        (Some(_), None) => false,
    }
}

/// The refusal has the number that is wanted, and shows what it has to.
fn is_refused(case: &Small, refusal: &Refusal, wanted: PlainReply) -> bool {
    match refusal {
        Refusal::LogFull { used, need, size } => {
            *used == u64::from(case.used) && *size == 496 && is_full(wanted, *need)
        }
        Refusal::Held { holder, name, mode } => {
            wanted == PlainReply::Refused { code: 901 }
                && *holder == unit_of(false)
                && is_lock(case, name, *mode)
        }
        Refusal::Duplicate { part } => {
            wanted == PlainReply::Refused { code: 8 } && *part == part_of(case.data_set)
        }
        Refusal::NoSpace { need, free } => *free == case.free && is_lacking(wanted, *need),
        Refusal::Stopped { stamp } => wanted == PlainReply::Refused { code: 903 } && *stamp == 7,
        other => {
            wanted
                == PlainReply::Refused {
                    code: u32::from(other.code()),
                }
        }
    }
}

fn is_full(wanted: PlainReply, shown: u64) -> bool {
    match wanted {
        PlainReply::Full { need } => shown == u64::from(need),
        PlainReply::Done { .. } | PlainReply::Refused { .. } => false,
        PlainReply::Lacking { .. } => false,
    }
}

fn is_lacking(wanted: PlainReply, shown: u64) -> bool {
    match wanted {
        PlainReply::Lacking { need } => shown == u64::from(need),
        PlainReply::Done { .. } | PlainReply::Refused { .. } => false,
        PlainReply::Full { .. } => false,
    }
}

/// The one lock is shown.
fn is_lock(case: &Small, name: &LockName, mode: Mode) -> bool {
    match (case.lock, name) {
        (Some(lock), LockName::Record { part, place }) => {
            *part == part_of(case.data_set)
                && place.as_slice() == letter(case.data_set, lock.key)
                && lock.exclusive == (mode == Mode::Exclusive)
        }
        _ => false,
    }
}
