//! The reader of records beside a plain, slow program, over all records that differ in one byte or
//! in two.

use crate::desk::CatalogDesk;
use crate::plain::is_record;
use crate::records::entry_of;
use std::alloc::Global;
use vr_case_table::{Answer, Answers, Stop, parted, size_of};

/// How many records were judged, how many of them spell an entry, and how many are judged
/// otherwise.
#[derive(Clone, Copy)]
struct Judged {
    inputs: u64,
    spelled: u64,
    differ: u64,
}

/// `byte` judges each record that differs from the record in one byte; `bytes FIRST SECOND` each
/// that has other values in two.
pub fn judge(alloc: Global, desk: &CatalogDesk, rest: &str, out: &mut Answers) -> Answer {
    let (what, places) = parted(rest);
    let mut judged = Judged {
        inputs: 0,
        spelled: 0,
        differ: 0,
    };
    let mut record = Vec::from_slice(alloc, desk.record.as_slice())?;
    let record = record.as_mut_slice();
    match what {
        "byte" => each_place(alloc, record, &mut judged)?,
        "bytes" => {
            let (first, second) = parted(places);
            let second = size_of(second)?;
            each_pair(alloc, record, size_of(first)?, second, &mut judged)?;
        }
        _ => return Err(Stop::Line),
    }
    out.say_number("", judged.inputs);
    out.say_number(" records, ", judged.spelled);
    out.say_number(" of entries, ", judged.differ);
    out.say(" differ");
    Ok(())
}

/// Judges the record with each value of each byte.
fn each_place(alloc: Global, record: &mut [u8], judged: &mut Judged) -> Answer {
    for place in 0..record.len() {
        each_value(alloc, record, place, judged)?;
    }
    Ok(())
}

/// Judges the record with each value of a byte, and leaves it as it was.
fn each_value(alloc: Global, record: &mut [u8], place: usize, judged: &mut Judged) -> Answer {
    let Some(kept) = record.get(place).copied() else {
        return Err(Stop::Line);
    };
    for value in 0..256u32 {
        put(record, place, value as u8);
        judge_one(alloc, record, judged)?;
    }
    put(record, place, kept);
    Ok(())
}

/// Judges the record with each value of two bytes.
fn each_pair(
    alloc: Global,
    record: &mut [u8],
    first: usize,
    second: usize,
    judged: &mut Judged,
) -> Answer {
    for value in 0..256u32 {
        put(record, first, value as u8);
        each_value(alloc, record, second, judged)?;
    }
    Ok(())
}

fn put(record: &mut [u8], place: usize, value: u8) {
    if let Some(byte) = record.get_mut(place) {
        *byte = value;
    }
}

fn judge_one(alloc: Global, record: &[u8], judged: &mut Judged) -> Answer {
    let spelled = entry_of(alloc, record)?.is_some();
    judged.inputs = judged.inputs.saturating_add(1);
    if spelled {
        judged.spelled = judged.spelled.saturating_add(1);
    }
    if spelled != is_record(record) {
        judged.differ = judged.differ.saturating_add(1);
    }
    Ok(())
}
