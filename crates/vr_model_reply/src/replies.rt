//! The reply to a request.
ghost use Rattle.std.specs.Prelude.{◌≡◌, ◌∷◌, ◌++◌, [], IfOk, Some, None, filter, map};
ghost use Rattle.std.specs.List.{list_any};
ghost use Rattle.std.specs.Option.{option_map_or};
ghost use Rattle.vr_history.specs.Change as moves;
ghost use Rattle.vr_history.specs.Found as founds;
ghost use Rattle.vr_history.specs.Opened as files;
ghost use Rattle.vr_history.specs.RefusedRecord as refused;
ghost use Rattle.vr_history.specs.RefusedRoom as rooms;
ghost use Rattle.vr_history.specs.Replies as replies;
ghost use Rattle.vr_model_state.specs.OpenedFiles.{as_opened};
ghost use Rattle.vr_model_state.specs.Seen.{case_in, seen};
ghost use Rattle.vr_model_reply.specs.Groups.{by_record, by_request};

use crate::refused_file::{bad_length, bad_slot, no_file, not_allowed, stopped};
use crate::refused_record::{
    absent, duplicate, duplicate_key, gone, held, is_taken, key_changed, length_changed, no_get,
    no_position, record_read,
};
use crate::refused_room::{log_full, no_space};
use std::alloc::Global;
use vr_model_change::{
    FoundRecord, KeyMove, candidates_in, found, joined, key_of_pair, pair_moves, place_changed,
    place_read, records_in,
};
use vr_model_state::{AlternateIndex, FileState, OpenedFile, base_of, opened};
use vr_types::{OutOfMemory, Place, Refusal, Reply, Request, Unit};

/// The first of some refusals that has its cause.
pub fn first_of(alloc: Global, all: &[Option<Refusal>]) -> Result<Option<Refusal>, OutOfMemory>
    ensures { IfOk result (λ first. first ≡ replies.first_of all.now) }
{
    match all {
        [] => Ok(None),
        [first, rest @ ..] => match first {
            None => Ok(first_of(alloc, rest)?),
            Some(refusal) => Ok(Some(refusal.copy(alloc)?)),
        },
    }
}

/// The refusals that no fault of the device comes before.
pub fn before_all(
    alloc: Global,
    state: &FileState,
    unit: Unit,
    request: &Request,
) -> Result<Vec<Option<Refusal>>, OutOfMemory>
    ensures { IfOk result (λ all. all.items
        ≡ replies.before_all (case_in state.now unit request.now)) }
{
    let no_file = no_file(alloc, state, unit, request)?;
    let all = Vec::from_array(alloc, [no_file, stopped(state, unit, request)])?;
    Ok(all)
}

/// The refusals by the request, and by what its file holds.
fn refusals_by_request(
    alloc: Global,
    state: &FileState,
    unit: Unit,
    request: &Request,
) -> Result<Vec<Option<Refusal>>, OutOfMemory>
    ensures { IfOk result (λ all. all.items ≡ by_request (case_in state.now unit request.now)) }
{
    let not_allowed = not_allowed(alloc, state, unit, request)?;
    let bad_slot = bad_slot(alloc, state, unit, request)?;
    let bad_length = bad_length(alloc, state, unit, request)?;
    let no_position = no_position(alloc, state, unit, request)?;
    let no_get = no_get(alloc, state, unit, request)?;
    let gone = gone(alloc, state, unit, request)?;
    let all = [not_allowed, bad_slot, bad_length, no_position, no_get, gone];
    let all = Vec::from_array(alloc, all)?;
    Ok(all)
}

/// The refusals by locks and records.
fn refusals_by_record(
    alloc: Global,
    state: &FileState,
    unit: Unit,
    request: &Request,
) -> Result<Vec<Option<Refusal>>, OutOfMemory>
    ensures { IfOk result (λ all. all.items ≡ by_record (case_in state.now unit request.now)) }
{
    let key_changed = key_changed(alloc, state, unit, request)?;
    let length_changed = length_changed(alloc, state, unit, request)?;
    let held = held(alloc, state, unit, request)?;
    let absent = absent(alloc, state, unit, request)?;
    let duplicate = duplicate(alloc, state, unit, request)?;
    let duplicate_key = duplicate_key(alloc, state, unit, request)?;
    let all = [
        key_changed,
        length_changed,
        held,
        absent,
        duplicate,
        duplicate_key,
    ];
    let all = Vec::from_array(alloc, all)?;
    Ok(all)
}

/// Those and the refusal by the areas of numbered places.
fn after_first(
    alloc: Global,
    state: &FileState,
    unit: Unit,
    request: &Request,
) -> Result<Vec<Option<Refusal>>, OutOfMemory>
    ensures { IfOk result (λ all. let asked = case_in state.now unit request.now in
        all.items ≡ by_request asked ++ (by_record asked ++ rooms.no_space asked ∷ [])) }
{
    let by_request = refusals_by_request(alloc, state, unit, request)?;
    let by_record = refusals_by_record(alloc, state, unit, request)?;
    let no_space = no_space(alloc, state, unit, request)?;
    let no_space = Vec::from_array(alloc, [no_space])?;
    Ok(joined(by_request, joined(by_record, no_space)?)?)
}

/// All refusals but that of the log.
fn before_room(
    alloc: Global,
    state: &FileState,
    unit: Unit,
    request: &Request,
) -> Result<Vec<Option<Refusal>>, OutOfMemory>
    ensures { IfOk result (λ all. all.items
        ≡ replies.before_room (case_in state.now unit request.now)) }
{
    let first = before_all(alloc, state, unit, request)?;
    let later = after_first(alloc, state, unit, request)?;
    Ok(joined(first, later)?)
}

/// All refusals, that of the log last.
fn all_refusals(
    alloc: Global,
    state: &FileState,
    unit: Unit,
    request: &Request,
) -> Result<Vec<Option<Refusal>>, OutOfMemory>
    ensures { IfOk result (λ all. all.items
        ≡ replies.all_refusals (case_in state.now unit request.now)) }
{
    let first = before_room(alloc, state, unit, request)?;
    let log_full = log_full(alloc, state, unit, request)?;
    let log_full = Vec::from_array(alloc, [log_full])?;
    Ok(joined(first, log_full)?)
}

/// Whether a pair comes later than another and has its key.
fn is_later(index: &AlternateIndex, this: &FoundRecord, other: &FoundRecord) -> bool
    ensures { result ≡ replies.is_later index.now this.now other.now }
{
    key_of_pair(index, &this.at) == key_of_pair(index, &other.at) && this.at.cmp(&other.at).is_lt()
}

fn any_later(index: &AlternateIndex, this: &FoundRecord, others: &[FoundRecord]) -> bool
    ensures { result ≡ list_any (replies.is_later index.now this.now) others.now }
{
    match others {
        [] => false,
        [first, rest @ ..] => is_later(index, this, first) || any_later(index, this, rest),
    }
}

/// The records of the base as a read of the file may find them.
fn pairs_seen(
    alloc: Global,
    state: &FileState,
    unit: Unit,
    request: &Request,
) -> Result<Vec<FoundRecord>, OutOfMemory>
    ensures { IfOk result (λ all. all.items
        ≡ replies.pairs_seen (case_in state.now unit request.now)) }
{
    let opened = opened(alloc, state, unit, request)?;
    let records = records_in(alloc, state.content(base_of(request)))?;
    let all = candidates_in(alloc, &opened, &records)?;
    Ok(all)
}

/// Whether, through a path, a later pair has the key of the one that was found.
fn has_later(
    alloc: Global,
    state: &FileState,
    unit: Unit,
    request: &Request,
    this: &FoundRecord,
) -> Result<bool, OutOfMemory>
    ensures { IfOk result (λ has. let asked = case_in state.now unit request.now in
        has ≡ replies.has_later (files.opened asked) asked this.now) }
{
    match opened(alloc, state, unit, request)? {
        OpenedFile::Unknown => Ok(false),
        OpenedFile::Cluster(_) => Ok(false),
        OpenedFile::ByPath(_, index) => {
            let all = pairs_seen(alloc, state, unit, request)?;
            Ok(any_later(&index, this, &all))
        }
    }
}

fn feedback_if(test: bool) -> u16
    ensures { result ≡ replies.feedback_if test }
{
    if test { 8 } else { 0 }
}

fn read_feedback(
    alloc: Global,
    state: &FileState,
    unit: Unit,
    request: &Request,
) -> Result<u16, OutOfMemory>
    ensures { IfOk result (λ feedback. feedback
        ≡ replies.read_feedback (case_in state.now unit request.now)) }
{
    match found(alloc, state, unit, request)? {
        None => Ok(0),
        Some(this) => Ok(feedback_if(has_later(alloc, state, unit, request, &this)?)),
    }
}

/// Whether one of some moves takes a key of an alternate index that isn't unique and that another
/// record has.
fn any_shared(
    alloc: Global,
    state: &FileState,
    unit: Unit,
    request: &Request,
    all: &[KeyMove],
) -> Result<bool, OutOfMemory>
    ensures { IfOk result (λ shared. shared
        ≡ list_any (replies.is_shared (case_in state.now unit request.now)) all.now) }
{
    match all {
        [] => Ok(false),
        [first, rest @ ..] => {
            let others = any_shared(alloc, state, unit, request, rest)?;
            let taken = is_taken(alloc, state, unit, request, first)?;
            Ok((!first.alternate.unique && taken) || others)
        }
    }
}

fn change_feedback(
    alloc: Global,
    state: &FileState,
    unit: Unit,
    request: &Request,
) -> Result<u16, OutOfMemory>
    ensures { IfOk result (λ feedback. feedback
        ≡ replies.change_feedback (case_in state.now unit request.now)) }
{
    let all = pair_moves(alloc, state, unit, request)?;
    let shared = any_shared(alloc, state, unit, request, &all)?;
    Ok(feedback_if(shared))
}

/// The reply to a GET that isn't refused.
fn done_get(
    alloc: Global,
    state: &FileState,
    unit: Unit,
    request: &Request,
) -> Result<Reply, OutOfMemory>
    ensures { IfOk result (λ reply. let asked = case_in state.now unit request.now in
        reply ≡ Reply.Done (replies.read_feedback asked) (founds.place_read asked)
        (refused.record_read asked)) }
{
    let feedback = read_feedback(alloc, state, unit, request)?;
    let place = place_read(alloc, state, unit, request)?;
    let bytes = record_read(alloc, state, unit, request)?;
    Ok(Reply::Done {
        feedback,
        place,
        bytes,
    })
}

/// The reply to a PUT that isn't refused.
fn done_put(
    alloc: Global,
    state: &FileState,
    unit: Unit,
    request: &Request,
) -> Result<Reply, OutOfMemory>
    ensures { IfOk result (λ reply. let asked = case_in state.now unit request.now in
        reply ≡ Reply.Done (replies.change_feedback asked) (moves.place_changed asked) None) }
{
    let feedback = change_feedback(alloc, state, unit, request)?;
    let place = place_changed(alloc, state, unit, request)?;
    Ok(Reply::Done {
        feedback,
        place,
        bytes: None,
    })
}

/// The reply to a request that isn't refused.
fn done_by(
    alloc: Global,
    state: &FileState,
    unit: Unit,
    request: &Request,
) -> Result<Reply, OutOfMemory>
    ensures { IfOk result (λ reply. reply
        ≡ replies.done_by (case_in state.now unit request.now) request.now) }
{
    match request {
        Request::Get { .. } => Ok(done_get(alloc, state, unit, request)?),
        Request::Point { .. } => {
            let place = place_read(alloc, state, unit, request)?;
            Ok(done_at(place))
        }
        Request::Add { .. } => Ok(done_put(alloc, state, unit, request)?),
        Request::Update { .. } => Ok(done_put(alloc, state, unit, request)?),
        Request::Erase { .. } => {
            let place = place_changed(alloc, state, unit, request)?;
            Ok(done_at(place))
        }
        Request::EndReq { .. } | Request::Commit | Request::Backout => Ok(done_at(None)),
    }
}

/// A reply with a place alone.
fn done_at(place: Option<Place>) -> Reply
    ensures { result ≡ Reply.Done 0 place None }
{
    Reply::Done {
        feedback: 0,
        place,
        bytes: None,
    }
}

/// The reply where memory is ample, the device has no fault, and key-sequenced parts have room.
pub fn answer(
    alloc: Global,
    state: &FileState,
    unit: Unit,
    request: &Request,
) -> Result<Reply, OutOfMemory>
    ensures { IfOk result (λ reply. reply
        ≡ replies.answer_of (case_in state.now unit request.now)) }
{
    match first_refusal(alloc, state, unit, request)? {
        None => Ok(done_by(alloc, state, unit, request)?),
        Some(refusal) => Ok(Reply::Refused(refusal)),
    }
}

/// The first of all refusals but that of the log.
pub fn first_before_room(
    alloc: Global,
    state: &FileState,
    unit: Unit,
    request: &Request,
) -> Result<Option<Refusal>, OutOfMemory>
    ensures { IfOk result (λ first. first
        ≡ replies.first_of (replies.before_room (case_in state.now unit request.now))) }
{
    let all = before_room(alloc, state, unit, request)?;
    let first = first_of(alloc, &all)?;
    Ok(first)
}

/// The first refusal of all.
pub fn first_refusal(
    alloc: Global,
    state: &FileState,
    unit: Unit,
    request: &Request,
) -> Result<Option<Refusal>, OutOfMemory>
    ensures { IfOk result (λ first. first
        ≡ replies.first_of (replies.all_refusals (case_in state.now unit request.now))) }
{
    let all = all_refusals(alloc, state, unit, request)?;
    let first = first_of(alloc, &all)?;
    Ok(first)
}
