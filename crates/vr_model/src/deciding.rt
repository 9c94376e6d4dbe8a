//! Which entry may come in a state.
ghost use Rattle.std.specs.Prelude.{◌≡◌, ◌↔◌, ◌<◌, ◌==◌, ℕ, IsTrue, true, [], IfOk, Some, None};
ghost use Rattle.std.specs.List.{list_any};
ghost use Rattle.std.specs.Option.{is_none, option_map_or};
ghost use Rattle.vr_history.specs.Case as cases;
ghost use Rattle.vr_history.specs.Opened as files;
ghost use Rattle.vr_history.specs.Change as moves;
ghost use Rattle.vr_history.specs.Replies as replies;
ghost use Rattle.vr_history.specs.Step as steps;
ghost use Rattle.vr_model_state.specs.OpenedFiles.{as_opened};
ghost use Rattle.vr_model_state.specs.Seen.{case_in, seen};

use crate::effects::last_kept;
use std::alloc::Global;
use vr_model_change::{KeyMove, pair_moves};
use vr_model_reply::{answer, before_all, first_before_room, first_of, first_refusal};
use vr_model_state::{
    FileState, OwnedArea, definition_in, keeps_any, new_record, number_of_deck, opened,
};
use vr_types::{Kind, OutOfMemory, Place, Refusal, Reply, Request, Unit};

/// Whether no refusal that no fault of the device comes before has its cause.
fn none_before_all(
    alloc: Global,
    state: &FileState,
    unit: Unit,
    request: &Request,
) -> Result<bool, OutOfMemory>
    ensures { IfOk result (λ none. IsTrue none
        ↔ (replies.first_of (replies.before_all (case_in state.now unit request.now)) ≡ None)) }
{
    let all = before_all(alloc, state, unit, request)?;
    let first = first_of(alloc, &all)?;
    Ok(first.is_none())
}

/// Whether no refusal but perhaps that of the log has its cause.
fn none_before_room(
    alloc: Global,
    state: &FileState,
    unit: Unit,
    request: &Request,
) -> Result<bool, OutOfMemory>
    ensures { IfOk result (λ none. IsTrue none
        ↔ (replies.first_of (replies.before_room (case_in state.now unit request.now)) ≡ None)) }
{
    let first = first_before_room(alloc, state, unit, request)?;
    Ok(first.is_none())
}

fn may_want(request: &Request) -> bool
    ensures { result ≡ replies.may_want request.now }
{
    match request {
        Request::Get { .. } | Request::Point { .. } | Request::Add { .. } => true,
        Request::Update { .. } | Request::Erase { .. } | Request::EndReq { .. } => true,
        Request::Commit | Request::Backout => false,
    }
}

fn may_read(request: &Request) -> bool
    ensures { result ≡ replies.may_read request.now }
{
    match request {
        Request::Get { .. } | Request::Point { .. } | Request::Add { .. } => true,
        Request::Update { .. } | Request::Erase { .. } | Request::EndReq { .. } => true,
        Request::Backout => true,
        Request::Commit => false,
    }
}

fn is_keyed(kind: Kind) -> bool
    ensures { result ≡ replies.is_keyed kind }
{
    match kind {
        Kind::Keyed => true,
        Kind::Entry => false,
        Kind::Relative => false,
    }
}

fn fills_base(
    alloc: Global,
    state: &FileState,
    unit: Unit,
    request: &Request,
) -> Result<bool, OutOfMemory>
    ensures { IfOk result (λ fills.
        fills ≡ replies.fills_base (case_in state.now unit request.now)) }
{
    let opened = opened(alloc, state, unit, request)?;
    match definition_in(&opened) {
        None => Ok(false),
        Some(definition) => Ok(is_keyed(definition.kind)),
    }
}

fn any_gained(all: &[KeyMove]) -> bool
    ensures { result ≡ list_any replies.gains_pair all.now }
{
    match all {
        [] => false,
        [first, rest @ ..] => first.taken.is_some() || any_gained(rest),
    }
}

fn gains_any(
    alloc: Global,
    state: &FileState,
    unit: Unit,
    request: &Request,
) -> Result<bool, OutOfMemory>
    ensures { IfOk result (λ gains. gains
        ≡ list_any replies.gains_pair (moves.pair_moves (case_in state.now unit request.now))) }
{
    let all = pair_moves(alloc, state, unit, request)?;
    Ok(any_gained(&all))
}

/// Whether a key-sequenced cluster gets a record, or an alternate index a pair.
fn fills_keyed(
    alloc: Global,
    state: &FileState,
    unit: Unit,
    request: &Request,
) -> Result<bool, OutOfMemory>
    ensures { IfOk result (λ fills. IsTrue fills
        ↔ replies.FillsKeyed (case_in state.now unit request.now)) }
{
    let fills = fills_base(alloc, state, unit, request)?;
    let gains = gains_any(alloc, state, unit, request)?;
    Ok((new_record(request).is_some() && fills) || gains)
}

/// Whether a reply is the one for want of an area, where none may be taken.
fn lacks_area(reply: &Reply) -> bool
    ensures { IsTrue result ↔ (reply.now ≡ Reply.Refused replies.lacks_area) }
{
    match reply {
        Reply::Refused(Refusal::NoSpace { need, free }) => *need == 1 && *free == 0,
        _ => false,
    }
}

fn lacks_room(
    alloc: Global,
    state: &FileState,
    unit: Unit,
    request: &Request,
    reply: &Reply,
) -> Result<bool, OutOfMemory>
    ensures { IfOk result (λ lacks. IsTrue lacks
        ↔ replies.LacksRoom (case_in state.now unit request.now) reply.now) }
{
    let none = none_before_room(alloc, state, unit, request)?;
    let fills = fills_keyed(alloc, state, unit, request)?;
    Ok(none && fills && lacks_area(reply))
}

fn is_memory(reply: &Reply) -> bool
    ensures { IsTrue result ↔ (reply.now ≡ Reply.Refused Refusal.Memory) }
{
    match reply {
        Reply::Refused(Refusal::Memory) => true,
        _ => false,
    }
}

fn is_write_fault(reply: &Reply) -> bool
    ensures { IsTrue result ↔ (reply.now ≡ Reply.Refused Refusal.WriteFault) }
{
    match reply {
        Reply::Refused(Refusal::WriteFault) => true,
        _ => false,
    }
}

fn is_read_fault(reply: &Reply) -> bool
    ensures { IsTrue result ↔ (reply.now ≡ Reply.Refused Refusal.ReadFault) }
{
    match reply {
        Reply::Refused(Refusal::ReadFault) => true,
        _ => false,
    }
}

fn lacks_memory(
    alloc: Global,
    state: &FileState,
    unit: Unit,
    request: &Request,
    reply: &Reply,
) -> Result<bool, OutOfMemory>
    ensures { IfOk result (λ lacks. IsTrue lacks
        ↔ replies.LacksMemory (case_in state.now unit request.now) reply.now) }
{
    let none = none_before_all(alloc, state, unit, request)?;
    Ok(none && may_want(request) && is_memory(reply))
}

fn meets_fault(
    alloc: Global,
    state: &FileState,
    unit: Unit,
    request: &Request,
    reply: &Reply,
) -> Result<bool, OutOfMemory>
    ensures { IfOk result (λ meets. IsTrue meets
        ↔ replies.MeetsFault (case_in state.now unit request.now) reply.now) }
{
    let none = none_before_all(alloc, state, unit, request)?;
    let fault = is_write_fault(reply) || (may_read(request) && is_read_fault(reply));
    Ok(none && fault)
}

/// Whether the unit keeps no before-image.
fn keeps_none(state: &FileState, unit: Unit, request: &Request) -> bool
    ensures { result ≡ replies.keeps_none (case_in state.now unit request.now) }
{
    !keeps_any(&state.befores, unit)
}

/// Whether a BACKOUT has put all before-images back.
fn can_end(state: &FileState, unit: Unit, request: &Request) -> bool
    ensures { IsTrue result ↔ replies.CanEnd (case_in state.now unit request.now) request.now }
{
    match request {
        Request::Backout => keeps_none(state, unit, request),
        Request::Get { .. } | Request::Point { .. } | Request::Add { .. } => true,
        Request::Update { .. } | Request::Erase { .. } | Request::EndReq { .. } => true,
        Request::Commit => true,
    }
}

/// Whether a request may end, where it isn't refused.
fn ends_or_refused(
    alloc: Global,
    state: &FileState,
    unit: Unit,
    request: &Request,
) -> Result<bool, OutOfMemory>
    ensures { IfOk result (λ may. let asked = case_in state.now unit request.now in IsTrue may
        ↔ ((replies.first_of (replies.all_refusals asked) ≡ None)
        → replies.CanEnd asked request.now)) }
{
    let refused = first_refusal(alloc, state, unit, request)?.is_some();
    Ok(refused || can_end(state, unit, request))
}

fn is_answered(
    alloc: Global,
    state: &FileState,
    unit: Unit,
    request: &Request,
    reply: &Reply,
) -> Result<bool, OutOfMemory>
    ensures { IfOk result (λ is. IsTrue is
        ↔ replies.IsAnswered (case_in state.now unit request.now) reply.now) }
{
    let same = is_answer(alloc, state, unit, request, reply)?;
    let ends = ends_or_refused(alloc, state, unit, request)?;
    Ok(same && ends)
}

/// Whether a reply is the one where memory is ample, the device has no fault, and there is room.
fn is_answer(
    alloc: Global,
    state: &FileState,
    unit: Unit,
    request: &Request,
    reply: &Reply,
) -> Result<bool, OutOfMemory>
    ensures { IfOk result (λ is. IsTrue is
        ↔ (reply.now ≡ replies.answer_of (case_in state.now unit request.now))) }
{
    let wanted = answer(alloc, state, unit, request)?;
    let same = is_same(reply, &wanted);
    Ok(same)
}

/// Whether two replies are equal.
fn is_same(one: &Reply, other: &Reply) -> bool
    ensures { IsTrue result ↔ (one.now ≡ other.now) }
{
    *one == *other
}

/// Whether a unit may ask for a request with a reply.
pub(crate) fn may_ask(
    alloc: Global,
    state: &FileState,
    unit: Unit,
    request: &Request,
    reply: &Reply,
) -> Result<bool, OutOfMemory>
    ensures { IfOk result (λ may. IsTrue may ↔ (steps.IsOfUnit (seen state.now) unit
        × replies.MayReply (case_in state.now unit request.now) reply.now)) }
{
    let current = is_of_unit(state, unit);
    let may = may_reply(alloc, state, unit, request, reply)?;
    Ok(current && may)
}

/// Whether a request may have a reply.
fn may_reply(
    alloc: Global,
    state: &FileState,
    unit: Unit,
    request: &Request,
    reply: &Reply,
) -> Result<bool, OutOfMemory>
    ensures { IfOk result (λ may. IsTrue may
        ↔ replies.MayReply (case_in state.now unit request.now) reply.now) }
{
    let answered = is_answered(alloc, state, unit, request, reply)?;
    let room = lacks_room(alloc, state, unit, request, reply)?;
    let memory = lacks_memory(alloc, state, unit, request, reply)?;
    let fault = meets_fault(alloc, state, unit, request, reply)?;
    Ok(answered || room || memory || fault)
}

/// Whether a unit is its deck's current one.
fn is_of_unit(state: &FileState, unit: Unit) -> bool
    ensures { IsTrue result ↔ steps.IsOfUnit (seen state.now) unit }
{
    unit.number as u64 == number_of_deck(&state.numbers, unit.deck)
}

/// Whether a place is that of the unit's last kept before-image.
pub(crate) fn is_last_kept(
    alloc: Global,
    state: &FileState,
    unit: Unit,
    part: u32,
    place: &Place,
) -> Result<bool, OutOfMemory>
    ensures { IfOk result (λ is. IsTrue is
        ↔ steps.IsLastKept (seen state.now) unit part place.now) }
{
    match last_kept(alloc, state, unit)? {
        None => Ok(false),
        Some(kept) => Ok(kept.part == part && kept.place == *place),
    }
}

fn is_owned(owned: &[OwnedArea], area: u32) -> bool
    ensures { result ≡ list_any (λ held. held.area == area) owned.now }
{
    match owned {
        [] => false,
        [first, rest @ ..] => first.area == area || is_owned(rest, area),
    }
}

/// Whether every area below one is owned.
fn all_owned_below(state: &FileState, area: u32) -> bool
    ensures { IsTrue result ↔ ((lower : ℕ) → lower < area
        → steps.is_owned (seen state.now) lower ≡ true) }
{
    for lower in 0..area {
        if !is_owned(&state.owned, lower) {
            return false;
        }
    }
    true
}

/// Whether an area is the least that no part has.
pub(crate) fn is_least_free(state: &FileState, area: u32) -> bool
    ensures { IsTrue result ↔ steps.IsLeastFree state.now.shape (seen state.now) area }
{
    area < state.shape.geometry().areas()
        && !is_owned(&state.owned, area)
        && all_owned_below(state, area)
}
