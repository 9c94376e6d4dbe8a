//! The records of a part, read one after the other in the order of their places.
ghost use Rattle.std.specs.Prelude.{◌≡◌, ◌≤◌, ◌++◌, ◌∷◌, [], None, IfOk, OnOk, IsTrue};
ghost use Rattle.vr_types.specs.Blocks.{Keeps};
ghost use Rattle.vr_types.specs.Faults.{HasCause};
ghost use Rattle.vr_space.specs.Part.{IsOn, Stands, given, place_length, record_read};
ghost use Rattle.vr_mount.specs.Listing.{AddsNext, AreAllPlaces, AreRecords, FollowsLast};
ghost use Rattle.vr_mount.specs.Listing.{HasListCause, KnowsImage, ReadsNext};

use crate::no::ListNo;
use std::alloc::Global;
use vr_space::{Part, Whence};
use vr_types::{Blocks, Bytes, DeviceFault, OutOfMemory, Place, PlaceBuffer, bytes, empty_place};

/// Gives the least place with a record past the last one, or the least of all where there is no
/// last one; false where there is none.
fn seek<B: Blocks, P: Part>(
    blocks: &mut B,
    part: &mut P,
    last: &Option<Place>,
    into: &mut PlaceBuffer,
) -> Result<bool, DeviceFault>
    requires on { IsOn (P.shape part.old) (B.seen blocks.old) }
    requires room { place_length (P.shape part.old) ≤ into.old.room }
    requires stands { IsTrue B.tells → Stands (P.shape part.old) (B.seen blocks.old).cur }
    requires knows { IsTrue B.tells → KnowsImage (P.shape part.old) (P.known part.old)
        (B.seen blocks.old).cur }
    ensures next { IsTrue B.tells → IfOk result (λ found. FollowsLast (P.shape part.old)
        (B.seen blocks.old).cur last.now found into.new.place) }
    ensures keeps { Keeps B.tells (B.seen blocks.old) (B.seen blocks.new) }
    ensures cause { HasCause (B.faults blocks.old) (B.faults blocks.new) result }
    ensures shape { P.shape part.new ≡ P.shape part.old }
    ensures known { P.known part.new ≡ P.known part.old }
    ensures put { P.put part.new ≡ P.put part.old }
{
    match last {
        Some(place) => part.next(blocks, Whence::After(place), into),
        None => part.next(blocks, Whence::Start, into),
    }
}

/// A copy of a record that was lent.
fn copied(alloc: Global, found: Option<&[u8]>) -> Result<Option<Bytes>, OutOfMemory>
    ensures { IfOk result (λ copy. copy ≡ given found.entry) }
{
    match found {
        Some(record) => Ok(Some(bytes(alloc, record)?)),
        None => Ok(None),
    }
}

/// A copy of the record at a place. A place of another length than the part's has none.
fn copy_at<B: Blocks, P: Part>(
    alloc: Global,
    blocks: &mut B,
    part: &mut P,
    length: u32,
    place: &Place,
) -> Result<Option<Bytes>, ListNo>
    requires on { IsOn (P.shape part.old) (B.seen blocks.old) }
    requires length { place_length (P.shape part.old) ≡ length }
    requires places { AreAllPlaces (P.shape part.old) length }
    requires stands { IsTrue B.tells → Stands (P.shape part.old) (B.seen blocks.old).cur }
    requires knows { IsTrue B.tells → KnowsImage (P.shape part.old) (P.known part.old)
        (B.seen blocks.old).cur }
    ensures item { IsTrue B.tells → IfOk result (λ found. found
        ≡ record_read (P.shape part.old) (B.seen blocks.old).cur place.now) }
    ensures keeps { Keeps B.tells (B.seen blocks.old) (B.seen blocks.new) }
    ensures cause { HasListCause (B.faults blocks.old) (B.faults blocks.new) result }
    ensures shape { P.shape part.new ≡ P.shape part.old }
    ensures known { P.known part.new ≡ P.known part.old }
    ensures put { P.put part.new ≡ P.put part.old }
{
    if place.as_slice().len() != length as usize {
        return Ok(None);
    }
    let found = P::look(blocks, part, place)?;
    Ok(copied(alloc, found)?)
}

/// Copies the record at the next place, which becomes the last one.
fn read_next<B: Blocks, P: Part>(
    alloc: Global,
    blocks: &mut B,
    part: &mut P,
    length: u32,
    last: &mut Option<Place>,
) -> Result<Option<Bytes>, ListNo>
    requires on { IsOn (P.shape part.old) (B.seen blocks.old) }
    requires length { place_length (P.shape part.old) ≡ length }
    requires places { AreAllPlaces (P.shape part.old) length }
    requires stands { IsTrue B.tells → Stands (P.shape part.old) (B.seen blocks.old).cur }
    requires knows { IsTrue B.tells → KnowsImage (P.shape part.old) (P.known part.old)
        (B.seen blocks.old).cur }
    ensures read { IsTrue B.tells → IfOk result (ReadsNext (P.shape part.old)
        (B.seen blocks.old).cur last.old last.new) }
    ensures keeps { Keeps B.tells (B.seen blocks.old) (B.seen blocks.new) }
    ensures cause { HasListCause (B.faults blocks.old) (B.faults blocks.new) result }
    ensures shape { P.shape part.new ≡ P.shape part.old }
    ensures known { P.known part.new ≡ P.known part.old }
    ensures put { P.put part.new ≡ P.put part.old }
{
    let mut into = empty_place(alloc, length)?;
    let is = seek(blocks, part, last, &mut into)?;
    if !is {
        return Ok(None);
    }
    let place = into.into_place();
    let found = copy_at(alloc, blocks, part, length, &place)?;
    *last = Some(place);
    Ok(found)
}

/// Adds a record.
fn add(records: &mut Vec<Bytes>, one: Bytes) -> Result<(), OutOfMemory>
    ensures { OnOk result (records.new.items ≡ records.old.items ++ one ∷ []) }
{
    records.push(one)?;
    Ok(())
}

/// Adds a copy of the record at the next place, which becomes the last one, and answers whether
/// there is one.
fn add_next<B: Blocks, P: Part>(
    alloc: Global,
    blocks: &mut B,
    part: &mut P,
    length: u32,
    last: &mut Option<Place>,
    records: &mut Vec<Bytes>,
) -> Result<bool, ListNo>
    requires on { IsOn (P.shape part.old) (B.seen blocks.old) }
    requires length { place_length (P.shape part.old) ≡ length }
    requires places { AreAllPlaces (P.shape part.old) length }
    requires stands { IsTrue B.tells → Stands (P.shape part.old) (B.seen blocks.old).cur }
    requires knows { IsTrue B.tells → KnowsImage (P.shape part.old) (P.known part.old)
        (B.seen blocks.old).cur }
    ensures added { IsTrue B.tells → IfOk result (AddsNext (P.shape part.old)
        (B.seen blocks.old).cur last.old last.new records.old.items records.new.items) }
    ensures keeps { Keeps B.tells (B.seen blocks.old) (B.seen blocks.new) }
    ensures cause { HasListCause (B.faults blocks.old) (B.faults blocks.new) result }
    ensures shape { P.shape part.new ≡ P.shape part.old }
    ensures known { P.known part.new ≡ P.known part.old }
    ensures put { P.put part.new ≡ P.put part.old }
{
    match read_next(alloc, blocks, part, length, last)? {
        Some(record) => {
            add(records, record)?;
            Ok(true)
        }
        None => Ok(false),
    }
}

/// Adds copies of all records to none.
fn add_all<B: Blocks, P: Part>(
    alloc: Global,
    blocks: &mut B,
    part: &mut P,
    length: u32,
    last: &mut Option<Place>,
    records: &mut Vec<Bytes>,
) -> Result<(), ListNo>
    requires on { IsOn (P.shape part.old) (B.seen blocks.old) }
    requires length { place_length (P.shape part.old) ≡ length }
    requires places { AreAllPlaces (P.shape part.old) length }
    requires stands { IsTrue B.tells → Stands (P.shape part.old) (B.seen blocks.old).cur }
    requires knows { IsTrue B.tells → KnowsImage (P.shape part.old) (P.known part.old)
        (B.seen blocks.old).cur }
    requires first { last.old ≡ None }
    requires none { records.old.items ≡ [] }
    ensures records { IsTrue B.tells → OnOk result (AreRecords (P.shape part.old)
        (B.seen blocks.old).cur records.new.items) }
    ensures keeps { Keeps B.tells (B.seen blocks.old) (B.seen blocks.new) }
    ensures cause { HasListCause (B.faults blocks.old) (B.faults blocks.new) result }
    ensures shape { P.shape part.new ≡ P.shape part.old }
    ensures known { P.known part.new ≡ P.known part.old }
    ensures put { P.put part.new ≡ P.put part.old }
{
    for _turn in 0..u64::MAX {
        let more = add_next(alloc, blocks, part, length, last, records)?;
        if !more {
            return Ok(());
        }
    }
    // No memory holds that many.
    Err(ListNo::Memory)
}

/// The records of a part, in the order of their places, which have `length` bytes each: it has
/// every place of that length, as a key-sequenced part does. The part stays as it is.
///
/// `Fault`: the device failed to read a block of the part, or to write out another block. It comes
/// only where the device counted one. `Memory`: there is no memory for the records.
pub fn records_of_part<B: Blocks, P: Part>(
    alloc: Global,
    blocks: &mut B,
    part: &mut P,
    length: u32,
) -> Result<Vec<Bytes>, ListNo>
    requires on { IsOn (P.shape part.old) (B.seen blocks.old) }
    requires length { place_length (P.shape part.old) ≡ length }
    requires places { AreAllPlaces (P.shape part.old) length }
    requires stands { IsTrue B.tells → Stands (P.shape part.old) (B.seen blocks.old).cur }
    requires knows { IsTrue B.tells → KnowsImage (P.shape part.old) (P.known part.old)
        (B.seen blocks.old).cur }
    ensures records { IsTrue B.tells → IfOk result (λ found. AreRecords (P.shape part.old)
        (B.seen blocks.old).cur found.items) }
    ensures keeps { Keeps B.tells (B.seen blocks.old) (B.seen blocks.new) }
    ensures cause { HasListCause (B.faults blocks.old) (B.faults blocks.new) result }
    ensures shape { P.shape part.new ≡ P.shape part.old }
    ensures known { P.known part.new ≡ P.known part.old }
    ensures put { P.put part.new ≡ P.put part.old }
{
    let mut records = Vec::new(alloc);
    let mut last = None;
    add_all(alloc, blocks, part, length, &mut last, &mut records)?;
    Ok(records)
}
