//! The space of the log that a request needs.
ghost use Rattle.std.specs.Prelude.{◌≡◌, ◌+◌, ◌∷◌, ◌++◌, [], IfOk, Some, None, not, filter, map};
ghost use Rattle.std.specs.Prelude.{sum};
ghost use Rattle.std.specs.List.{flat_map};
ghost use Rattle.std.specs.Option.{option_map, option_to_list};
ghost use Rattle.vr_history.specs.LogSpace as logs;
ghost use Rattle.vr_history.specs.State as states;
ghost use Rattle.vr_model_state.specs.Seen.{case_in, seen};

use crate::address::plus;
use crate::change::{KeyMove, old_record, pair_moves, place_changed};
use crate::finding::{joined, pair_place};
use std::alloc::Global;
use std::marker::Model;
use vr_model_state::{FileState, base_of, is_live, is_logged, prepended};
use vr_types::{Bytes, OutOfMemory, Place, Request, Unit, bytes};

/// A place that a change logs, with the record that stood there.
#[derive(Drop)]
pub struct LogImage {
    pub part: u32,
    pub place: Place,
    pub old: Option<Bytes>,
}

impl Model for LogImage {
    ghost use Rattle.vr_history.specs.LogSpace.{Logging};

    ghost Value = { Logging };

    ghost view = { λ image. record { part = image.part; place = image.place; old = image.old } };
}

impl LogImage {
    /// An equal value; fails only if memory runs out.
    fn copy(&self, alloc: Global) -> Result<LogImage, OutOfMemory>
        ensures { IfOk result (λ copy. copy ≡ self.now) }
    {
        let old = match &self.old {
            None => None,
            Some(old) => Some(old.copy(alloc)?),
        };
        Ok(LogImage {
            part: self.part,
            place: self.place.copy(alloc)?,
            old,
        })
    }
}

/// What is logged of the pair that a change removes, if it removes one.
fn removed(alloc: Global, moved: &KeyMove) -> Result<Vec<LogImage>, OutOfMemory>
    ensures { IfOk result (λ images. images.items
        ≡ option_to_list (option_map (logs.pair_removed moved.now) moved.now.given_up)) }
{
    let Some(key) = &moved.given_up else {
        return Ok(Vec::new(alloc));
    };
    let place = pair_place(alloc, key.as_slice(), &moved.place)?;
    let old = bytes(alloc, place.as_slice())?;
    let image = LogImage {
        part: moved.alternate.part,
        place,
        old: Some(old),
    };
    Ok(prepended(image, Vec::new(alloc))?)
}

/// What is logged of the pair that a change adds, if it adds one.
fn added(alloc: Global, moved: &KeyMove) -> Result<Vec<LogImage>, OutOfMemory>
    ensures { IfOk result (λ images. images.items
        ≡ option_to_list (option_map (logs.pair_added moved.now) moved.now.taken)) }
{
    let Some(key) = &moved.taken else {
        return Ok(Vec::new(alloc));
    };
    let image = LogImage {
        part: moved.alternate.part,
        place: pair_place(alloc, key.as_slice(), &moved.place)?,
        old: None,
    };
    Ok(prepended(image, Vec::new(alloc))?)
}

/// What is logged of the pair that a change moves.
fn pair_images(alloc: Global, moved: &KeyMove) -> Result<Vec<LogImage>, OutOfMemory>
    ensures { IfOk result (λ images. images.items ≡ logs.pair_loggings moved.now) }
{
    let removed = removed(alloc, moved)?;
    let added = added(alloc, moved)?;
    Ok(joined(removed, added)?)
}

/// What is logged of all pairs that a change moves.
fn images_of(alloc: Global, all: &[KeyMove]) -> Result<Vec<LogImage>, OutOfMemory>
    ensures { IfOk result (λ images. images.items ≡ flat_map logs.pair_loggings all.now) }
{
    match all {
        [] => Ok(Vec::new(alloc)),
        [first, rest @ ..] => {
            let others = images_of(alloc, rest)?;
            let images = pair_images(alloc, first)?;
            Ok(joined(images, others)?)
        }
    }
}

/// All places that a change of a place logs, the base first.
fn images_at(
    alloc: Global,
    state: &FileState,
    unit: Unit,
    request: &Request,
    place: Place,
) -> Result<Vec<LogImage>, OutOfMemory>
    ensures { IfOk result (λ images.
        images.items ≡ logs.loggings_at (case_in state.now unit request.now) place) }
{
    let all = pair_moves(alloc, state, unit, request)?;
    let pairs = images_of(alloc, &all)?;
    let base = LogImage {
        part: base_of(request),
        place,
        old: old_record(alloc, state, unit, request)?,
    };
    Ok(prepended(base, pairs)?)
}

/// All places that a request logs.
fn images(
    alloc: Global,
    state: &FileState,
    unit: Unit,
    request: &Request,
) -> Result<Vec<LogImage>, OutOfMemory>
    ensures { IfOk result (λ images.
        images.items ≡ logs.loggings (case_in state.now unit request.now)) }
{
    match place_changed(alloc, state, unit, request)? {
        None => Ok(Vec::new(alloc)),
        Some(place) => Ok(images_at(alloc, state, unit, request, place)?),
    }
}

/// Whether the unit has no before record of the place yet.
fn is_new(state: &FileState, unit: Unit, image: &LogImage) -> bool
    ensures { result ≡ not (states.is_logged (seen state.now) unit image.now.part image.now.place) }
{
    !is_logged(&state.logged, unit, image.part, &image.place)
}

/// Those for which the unit has no before record yet.
fn not_logged(
    alloc: Global,
    state: &FileState,
    unit: Unit,
    images: &[LogImage],
) -> Result<Vec<LogImage>, OutOfMemory>
    ensures { IfOk result (λ new. new.items ≡ filter
        (λ image. not (states.is_logged (seen state.now) unit image.part image.place)) images.now) }
{
    match images {
        [] => Ok(Vec::new(alloc)),
        [first, rest @ ..] => {
            let others = not_logged(alloc, state, unit, rest)?;
            if is_new(state, unit, first) {
                Ok(prepended(first.copy(alloc)?, others)?)
            } else {
                Ok(others)
            }
        }
    }
}

/// The places that a request logs and for which its unit has no before record yet.
pub fn new_images(
    alloc: Global,
    state: &FileState,
    unit: Unit,
    request: &Request,
) -> Result<Vec<LogImage>, OutOfMemory>
    ensures { IfOk result (λ images.
        images.items ≡ logs.new_loggings (case_in state.now unit request.now)) }
{
    let images = images(alloc, state, unit, request)?;
    let new = not_logged(alloc, state, unit, &images)?;
    Ok(new)
}

/// The bytes that a before record takes.
fn need_for(image: &LogImage) -> Result<u64, OutOfMemory>
    ensures { IfOk result (λ need. need ≡ logs.need_for image.now) }
{
    let place = plus(20, image.place.as_slice().len() as u64)?;
    match &image.old {
        None => Ok(place),
        Some(old) => Ok(plus(place, old.len() as u64)?),
    }
}

/// The bytes that some before records take.
fn need_for_all(images: &[LogImage]) -> Result<u64, OutOfMemory>
    ensures { IfOk result (λ need. need ≡ sum (map logs.need_for images.now)) }
{
    match images {
        [] => Ok(0),
        [first, rest @ ..] => {
            let others = need_for_all(rest)?;
            let need = need_for(first)?;
            Ok(plus(need, others)?)
        }
    }
}

/// The bytes of the log that a request needs.
pub fn log_need(
    alloc: Global,
    state: &FileState,
    unit: Unit,
    request: &Request,
) -> Result<u64, OutOfMemory>
    ensures { IfOk result (λ need. need ≡ logs.log_need (case_in state.now unit request.now)) }
{
    let images = new_images(alloc, state, unit, request)?;
    let records = need_for_all(&images)?;
    let end = if is_live(&state.logged, unit) { 0 } else { 9 };
    Ok(plus(records, end)?)
}
