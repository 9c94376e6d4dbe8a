//! Refusals of a change for lack of room: in the areas of the volume, and in its log.
ghost use Rattle.std.specs.Prelude.{◌≡◌, [], IfOk, Some, None};
ghost use Rattle.vr_types.specs.LogSpace as log_space;
ghost use Rattle.vr_history.specs.RefusedRoom as refusals;
ghost use Rattle.vr_model_state.specs.Seen.{case_in, seen};

use crate::refused_file::refused_if;
use std::alloc::Global;
use vr_catalog::Definition;
use vr_model_change::{areas_needed, interval_needed, log_need, place_changed};
use vr_model_state::{FileState, Shape, areas_of, base_of, definition_in, new_record, opened};
use vr_types::{OutOfMemory, Place, Refusal, Request, Unit};

/// The areas that no part has.
fn free_areas(state: &FileState, unit: Unit, request: &Request) -> u32
    ensures { result ≡ refusals.free_areas (case_in state.now unit request.now) }
{
    let areas = state.shape.geometry().areas();
    let owned = state.owned.len();
    if owned >= areas as usize {
        0
    } else {
        areas - owned as u32
    }
}

/// The areas that the place of a changed record needs beside those of its part.
fn need_at(
    state: &FileState,
    unit: Unit,
    request: &Request,
    definition: &Definition,
    place: &Place,
    bytes: &[u8],
) -> Result<Option<u64>, OutOfMemory>
    ensures { IfOk result (λ need. need ≡ refusals.need_at (case_in state.now unit request.now)
        definition.now place.now bytes.now) }
{
    let size = state.shape.size();
    let maximum = definition.maximum as u64;
    let length = bytes.len() as u64;
    match interval_needed(definition.kind, size, maximum, place.as_slice(), length)? {
        None => Ok(None),
        Some(last) => {
            let owned = areas_of(&state.owned, base_of(request)) as u64;
            let need = areas_needed(state.shape.intervals(), owned, last)?;
            Ok(Some(need))
        }
    }
}

/// The areas that a request needs beside those of its part, where its place says it.
fn need_of(
    alloc: Global,
    state: &FileState,
    unit: Unit,
    request: &Request,
) -> Result<Option<u64>, OutOfMemory>
    ensures { IfOk result (λ need. need ≡ refusals.need_of (case_in state.now unit request.now)) }
{
    let opened = opened(alloc, state, unit, request)?;
    let Some(definition) = definition_in(&opened) else {
        return Ok(None);
    };
    let Some(place) = place_changed(alloc, state, unit, request)? else {
        return Ok(None);
    };
    match new_record(request) {
        None => Ok(None),
        Some(bytes) => Ok(need_at(state, unit, request, &definition, &place, bytes)?),
    }
}

/// An entry-sequenced or relative data set needs more areas than are free.
pub(crate) fn no_space(
    alloc: Global,
    state: &FileState,
    unit: Unit,
    request: &Request,
) -> Result<Option<Refusal>, OutOfMemory>
    ensures { IfOk result (λ refusal.
        refusal ≡ refusals.no_space (case_in state.now unit request.now)) }
{
    match need_of(alloc, state, unit, request)? {
        None => Ok(None),
        Some(need) => {
            let free = free_areas(state, unit, request);
            Ok(refused_if((free as u64) < need, Refusal::NoSpace { need, free }))
        }
    }
}

/// The bytes that the log has.
fn log_size(shape: &Shape) -> u64
    ensures { result ≡ log_space.log_size shape.now }
{
    let blocks = shape.geometry().log as u64;
    blocks * (shape.size() - 16)
}

/// The log has no room for what a change logs.
pub(crate) fn log_full(
    alloc: Global,
    state: &FileState,
    unit: Unit,
    request: &Request,
) -> Result<Option<Refusal>, OutOfMemory>
    ensures { IfOk result (λ refusal.
        refusal ≡ refusals.log_full (case_in state.now unit request.now)) }
{
    let changes = place_changed(alloc, state, unit, request)?.is_some();
    let need = log_need(alloc, state, unit, request)?;
    let used = state.used;
    let size = log_size(&state.shape);
    let full = size < used || size - used < need;
    Ok(refused_if(changes && full, Refusal::LogFull { used, need, size }))
}
