//! One record of the log, read off the bytes that begin with it.
ghost use Rattle.std.specs.Prelude.{◌≡◌, ◌+◌, ◌-◌, ◌<◌, ◌≤◌, length, take, drop, slice_index, IfOk};
ghost use Rattle.vr_types.specs.Fields.{two_at as two_in, four_at as four_in};
ghost use Rattle.vr_log.specs.Decoding.{IsOldFound, IsFound, IsOld};
ghost use Rattle.vr_log.specs.Records.{end_number};
ghost use Rattle.vr_log.specs.declared.record.LogRecord.TheVariants.{Before};

use crate::record::{EndKind, LogRecord};
use std::alloc::Global;
use vr_types::{
    Bytes, OutOfMemory, PartNo, Unit, are_zeros, bytes as copied, four_at, place, two_at,
};

/// What bytes begin with: a record of that many of them, one that isn't whole, or none. A record
/// isn't whole where there are fewer bytes than it needs by those of its fields that are there,
/// whatever else they are.
#[derive(Drop)]
pub(crate) enum Found {
    Whole { rec: LogRecord, count: usize },
    Cut,
    Misspelled,
}

/// What the five or more bytes after the place of a before-image begin with: that there was no
/// record, a record of that many bytes, fewer than its length says, or neither.
#[derive(Clone, Copy)]
enum OldFound {
    Absent,
    Present(usize),
    Broken,
    Wrong,
}

/// The record that the bytes begin with.
pub(crate) fn read_record(alloc: Global, bytes: &[u8]) -> Result<Found, OutOfMemory>
    ensures { IfOk result (λ found. IsFound bytes.now found) }
{
    if bytes.len() < 9 {
        return Ok(Found::Cut);
    }
    match bytes[0] {
        1 => read_before(alloc, bytes),
        2 => Ok(read_end(bytes, EndKind::Committed)),
        3 => Ok(read_end(bytes, EndKind::BackedOut)),
        _ => Ok(Found::Misspelled),
    }
}

/// The end of a unit.
fn read_end(bytes: &[u8], kind: EndKind) -> Found
    requires long { 9 ≤ length bytes.now }
    requires first { slice_index bytes.now 0 ≡ end_number kind }
    ensures { IsFound bytes.now result }
{
    let unit = Unit {
        deck: four_at(bytes, 1),
        number: four_at(bytes, 5),
    };
    let rec = LogRecord::End { unit, kind };
    Found::Whole { rec, count: 9 }
}

/// A before-image.
fn read_before(alloc: Global, bytes: &[u8]) -> Result<Found, OutOfMemory>
    requires some { 0 < length bytes.now }
    requires first { slice_index bytes.now 0 ≡ 1 }
    ensures { IfOk result (λ found. IsFound bytes.now found) }
{
    if bytes.len() < 15 {
        return Ok(Found::Cut);
    }
    let end = 15 + two_at(bytes, 13) as usize;
    if bytes.len() < end + 5 {
        return Ok(Found::Cut);
    }
    match old_found(&bytes[end..]) {
        OldFound::Absent => {
            let rec = before(alloc, bytes, end, None)?;
            Ok(Found::Whole {
                rec,
                count: end + 5,
            })
        }
        OldFound::Present(length) => {
            let from = end + 5;
            let old = copied(alloc, &bytes[from..from + length])?;
            let rec = before(alloc, bytes, end, Some(old))?;
            Ok(Found::Whole {
                rec,
                count: from + length,
            })
        }
        OldFound::Broken => Ok(Found::Cut),
        OldFound::Wrong => Ok(Found::Misspelled),
    }
}

/// The before-image whose place ends at `end`.
fn before(
    alloc: Global,
    bytes: &[u8],
    end: usize,
    old: Option<Bytes>,
) -> Result<LogRecord, OutOfMemory>
    requires head { 15 ≤ end }
    requires within { end ≤ length bytes.now }
    ensures { IfOk result (λ rec. rec ≡ Before
        (record { deck = four_in 1 bytes.now; number = four_in 5 bytes.now })
        (record { 0 = four_in 9 bytes.now }) (take (end - 15) (drop 15 bytes.now)) old) }
{
    let place = place(alloc, &bytes[15..end])?;
    Ok(LogRecord::Before {
        unit: Unit {
            deck: four_at(bytes, 1),
            number: four_at(bytes, 5),
        },
        part: PartNo(four_at(bytes, 9)),
        place,
        old,
    })
}

/// What was at the place of a before-image.
fn old_found(bytes: &[u8]) -> OldFound
    requires { 5 ≤ length bytes.now }
    ensures { IsOldFound bytes.now result }
{
    let length = four_at(bytes, 1) as usize;
    if bytes.len() < 5 + length {
        return OldFound::Broken;
    }
    match bytes[0] {
        0 => absent(bytes),
        1 => OldFound::Present(length),
        _ => OldFound::Wrong,
    }
}

/// That there was no record, which four zeros follow.
fn absent(bytes: &[u8]) -> OldFound
    requires long { 5 ≤ length bytes.now }
    requires all { 5 + four_in 1 bytes.now ≤ length bytes.now }
    requires first { slice_index bytes.now 0 ≡ 0 }
    ensures { IsOldFound bytes.now result }
{
    if are_zeros(&bytes[1..5]) {
        OldFound::Absent
    } else {
        OldFound::Wrong
    }
}
