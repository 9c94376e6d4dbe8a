//! The lock table beside the plain program, over all sequences of calls of a length.

use crate::lock_calls::{
    CALLS, Call, call_of, is_same, mode_of, name_of, names_of, plain_names, unit_of,
};
use crate::plain_locks::PlainLocks;
use std::alloc::Global;
use vr_case_table::{Answer, Answers, Stop};
use vr_locks::{LockNo, LockTable, lock_table};

/// Runs all sequences of that many calls, and writes how many differ.
pub fn judge(alloc: Global, length: u32, out: &mut Answers) -> Answer {
    let sequences = sequences_of(length)?;
    let mut differ = 0u64;
    for sequence in 0..sequences {
        if !agree(alloc, sequence, length)? {
            differ = differ.saturating_add(1);
        }
    }
    out.say_number("", differ);
    out.say_number(" differ of ", u64::from(sequences));
    Ok(())
}

/// How many sequences of that many calls there are.
fn sequences_of(length: u32) -> Result<u32, Stop> {
    let mut sequences = 1u32;
    for _ in 0..length {
        sequences = sequences.checked_mul(CALLS).ok_or(Stop::Line)?;
    }
    Ok(sequences)
}

/// Whether the table and the plain program answer the calls of a sequence alike, and test alike at
/// its end.
fn agree(alloc: Global, sequence: u32, length: u32) -> Result<bool, Stop> {
    let mut table = lock_table(alloc);
    let mut plain = PlainLocks::new(alloc);
    agree_on(alloc, &mut table, &mut plain, sequence, length)
}

fn agree_on(
    alloc: Global,
    table: &mut LockTable,
    plain: &mut PlainLocks,
    sequence: u32,
    length: u32,
) -> Result<bool, Stop> {
    let mut rest = sequence;
    for _ in 0..length {
        if !call(alloc, table, plain, call_of(rest % CALLS))? {
            return Ok(false);
        }
        rest /= CALLS;
    }
    tests(alloc, table, plain)
}

/// Makes a call on both, and says whether they answer alike.
fn call(
    alloc: Global,
    table: &mut LockTable,
    plain: &mut PlainLocks,
    call: Call,
) -> Result<bool, Stop> {
    match call {
        Call::End { unit } => {
            table.end(unit_of(unit));
            plain.end(unit);
            Ok(true)
        }
        Call::Ask {
            unit,
            names,
            exclusive,
        } => {
            let wanted = plain.ask(unit, plain_names(names), exclusive)?;
            let asked = names_of(alloc, names)?;
            let answer = table.ask(unit_of(unit), &asked, mode_of(exclusive));
            if let Err(LockNo::Memory) = &answer {
                return Err(Stop::Memory);
            }
            Ok(is_same(&answer, wanted))
        }
    }
}

/// Whether both test alike, for each unit, name and mode.
fn tests(alloc: Global, table: &LockTable, plain: &PlainLocks) -> Result<bool, Stop> {
    for number in 0..12u8 {
        let unit = number % 3;
        let name = number / 3 % 2;
        let exclusive = number >= 6;
        let asked = name_of(alloc, name)?;
        let got = table.test(unit_of(unit), &asked, mode_of(exclusive));
        let wanted = match plain.test(unit, name, exclusive) {
            Some(lock) => Some((unit_of(lock.unit), mode_of(lock.exclusive))),
            None => None,
        };
        if got != wanted {
            return Ok(false);
        }
    }
    Ok(true)
}
