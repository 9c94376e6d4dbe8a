//! A before-image without its unit.
ghost use Rattle.std.specs.Prelude.{◌≡◌, ◌<◌, ◌^◌, IfOk, length};
ghost use Rattle.std.specs.Option.{option_copied};
ghost use Rattle.vr_undo.specs.Records.{before_of, unless_there};
ghost use Rattle.vr_undo.specs.Lengths.{IsShortBefore, IsShortOld};

use std::alloc::Global;
use vr_types::{Bytes, OutOfMemory, PartNo, Place, bytes};

/// What was at a place of a part before a unit of recovery first changed it: the record, or none.
#[derive(Drop)]
pub struct Before {
    pub part: PartNo,
    pub place: Place,
    pub old: Option<Bytes>,
}

/// The before-image of these, where there is none yet. A record of 2 ^ 32 bytes or more counts as
/// one for which there is no memory.
pub(crate) fn unless_there(
    alloc: Global,
    there: bool,
    part: PartNo,
    place: &Place,
    old: Option<&[u8]>,
) -> Result<Option<Before>, OutOfMemory>
    ensures value { IfOk result (λ before. before
        ≡ unless_there there (before_of part place.now (option_copied old.entry))) }
    ensures short { IfOk result IsShortBefore }
{
    if there {
        return Ok(None);
    }
    let place = place.copy(alloc)?;
    let old = copy_of_old(alloc, old)?;
    Ok(Some(Before { part, place, old }))
}

/// A copy of a record, if there is one.
fn copy_of_old(alloc: Global, old: Option<&[u8]>) -> Result<Option<Bytes>, OutOfMemory>
    ensures value { IfOk result (λ copy. copy ≡ option_copied old.entry) }
    ensures short { IfOk result IsShortOld }
{
    match old {
        None => Ok(None),
        Some(from) => Ok(Some(short_copy(alloc, from)?)),
    }
}

/// A copy of a record of fewer than 2 ^ 32 bytes.
fn short_copy(alloc: Global, from: &[u8]) -> Result<Bytes, OutOfMemory>
    ensures value { IfOk result (λ copy. copy ≡ from.now) }
    ensures short { IfOk result (λ copy. length copy < 2 ^ 32) }
{
    if from.len() > u32::MAX as usize {
        return Err(OutOfMemory);
    }
    bytes(alloc, from)
}
