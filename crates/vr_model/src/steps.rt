//! The state after a request and its reply, and after a before-image was put back.
ghost use Rattle.std.specs.Prelude.{◌≡◌, [], IfOk, Some, None, option_map, option_and_then};
ghost use Rattle.vr_types.specs.declared.position.Stand.TheVariants.{At};
ghost use Rattle.std.specs.Option.{option_copied};
ghost use Rattle.vr_history.specs.Effects as effects;
ghost use Rattle.vr_history.specs.Found as founds;
ghost use Rattle.vr_history.specs.LogSpace as space;
ghost use Rattle.vr_history.specs.Names as names;
ghost use Rattle.vr_history.specs.Step as steps;
ghost use Rattle.vr_model_state.specs.Items.{item_of};
ghost use Rattle.vr_model_state.specs.Seen.{case_in, seen};

use crate::effects::{
    changes, drops_held, holds_at, keeps_before, last_kept, logs, stands_at, takes_locks, takes_out,
};
use crate::endings::ends_unit;
use std::alloc::Global;
use vr_model_change::{
    PlaceChange, change_of, found, length_of, lock_names, log_need, new_images, place_read,
};
use vr_model_state::{
    FileState, KeptImage, Stored, catalog_of, definition_of, file_of, item_in_slice,
};
use vr_types::{
    FileRef, Find, Integrity, Kind, Mode, OutOfMemory, Place, Refusal, Reply, Request, Stand, Unit,
};

/// The state where a file stands at another place, if it is to.
fn stands_in(
    alloc: Global,
    now: FileState,
    deck: u32,
    file: Option<FileRef>,
    stand: Option<Stand>,
) -> Result<FileState, OutOfMemory>
    ensures { IfOk result (λ new. seen new ≡ steps.stands_in deck file stand (seen now)) }
{
    match file {
        None => Ok(now),
        Some(file) => match stand {
            None => Ok(now),
            Some(stand) => Ok(stands_at(alloc, now, deck, file.slot, stand)?),
        },
    }
}

/// Where a read leaves its file.
fn read_on(alloc: Global, find: &Find, at: &Place) -> Result<Option<Stand>, OutOfMemory>
    ensures { IfOk result (λ stand. stand ≡ steps.read_on find.now at.now) }
{
    match find {
        Find::Next => Ok(Some(Stand::After(at.copy(alloc)?))),
        Find::Equal(_) => Ok(None),
        Find::AtLeast(_) => Ok(None),
    }
}

/// Where a read leaves its file after the record that it finds.
fn stand_read(
    alloc: Global,
    state: &FileState,
    unit: Unit,
    request: &Request,
    find: &Find,
) -> Result<Option<Stand>, OutOfMemory>
    ensures { IfOk result (λ stand. stand ≡ option_and_then
        (λ candidate. steps.read_on find.now candidate.at)
        (founds.found (case_in state.now unit request.now))) }
{
    match found(alloc, state, unit, request)? {
        None => Ok(None),
        Some(this) => Ok(read_on(alloc, find, &this.at)?),
    }
}

/// A sequential read goes on after the record that it found.
fn reads_on(
    alloc: Global,
    state: &FileState,
    unit: Unit,
    request: &Request,
    find: &Find,
    now: FileState,
) -> Result<FileState, OutOfMemory>
    ensures { IfOk result (λ new. seen new
        ≡ steps.reads_on (case_in state.now unit request.now) find.now (seen now)) }
{
    let stand = stand_read(alloc, state, unit, request, find)?;
    Ok(stands_in(alloc, now, unit.deck, file_of(request), stand)?)
}

/// The state with the locks of a request.
fn locked(
    alloc: Global,
    state: &FileState,
    unit: Unit,
    request: &Request,
    mode: Mode,
    now: FileState,
) -> Result<FileState, OutOfMemory>
    ensures { IfOk result (λ new. let asked = case_in state.now unit request.now in
        seen new ≡ effects.locks unit mode (names.lock_names asked request.now) (seen now)) }
{
    let asked = lock_names(alloc, state, unit, request)?;
    Ok(takes_locks(alloc, now, unit, mode, &asked)?)
}

/// A read with CRE keeps its lock.
fn keeps_shared(
    alloc: Global,
    state: &FileState,
    unit: Unit,
    request: &Request,
    integrity: Integrity,
    now: FileState,
) -> Result<FileState, OutOfMemory>
    ensures { IfOk result (λ new. seen new
        ≡ steps.keeps_shared (case_in state.now unit request.now) integrity (seen now)) }
{
    match integrity {
        Integrity::Nri => Ok(now),
        Integrity::Cr => Ok(now),
        Integrity::Cre => Ok(locked(alloc, state, unit, request, Mode::Shared, now)?),
    }
}

/// A read for update holds its record.
fn holds(
    alloc: Global,
    state: &FileState,
    unit: Unit,
    request: &Request,
    now: FileState,
) -> Result<FileState, OutOfMemory>
    ensures { IfOk result (λ new. seen new
        ≡ steps.holds (case_in state.now unit request.now) (seen now)) }
{
    let Some(file) = file_of(request) else {
        return Ok(now);
    };
    match place_read(alloc, state, unit, request)? {
        None => Ok(now),
        Some(place) => Ok(holds_at(alloc, now, unit.deck, file.slot, place)?),
    }
}

/// What a read keeps: its lock, and for update its record.
fn keeps_read(
    alloc: Global,
    state: &FileState,
    unit: Unit,
    request: &Request,
    update: bool,
    integrity: Integrity,
    now: FileState,
) -> Result<FileState, OutOfMemory>
    ensures { IfOk result (λ new. seen new
        ≡ steps.keeps_read (case_in state.now unit request.now) update integrity (seen now)) }
{
    if update {
        let now = locked(alloc, state, unit, request, Mode::Exclusive, now)?;
        Ok(holds(alloc, state, unit, request, now)?)
    } else {
        Ok(keeps_shared(alloc, state, unit, request, integrity, now)?)
    }
}

/// The state with the log records of a request.
fn logged(
    alloc: Global,
    state: &FileState,
    unit: Unit,
    request: &Request,
    now: FileState,
) -> Result<FileState, OutOfMemory>
    ensures { IfOk result (λ new. let asked = case_in state.now unit request.now in
        seen new ≡ effects.logs unit (space.new_loggings asked) (space.log_need asked) (seen now)) }
{
    let images = new_images(alloc, state, unit, request)?;
    let need = log_need(alloc, state, unit, request)?;
    Ok(logs(alloc, now, unit, &images, need)?)
}

/// A change takes its locks, keeps its before-image, logs its places, and is made.
fn makes(
    alloc: Global,
    state: &FileState,
    unit: Unit,
    request: &Request,
    change: &PlaceChange,
    now: FileState,
) -> Result<FileState, OutOfMemory>
    ensures { IfOk result (λ new. seen new
        ≡ steps.makes (case_in state.now unit request.now) change.now (seen now)) }
{
    let locked = locked(alloc, state, unit, request, Mode::Exclusive, now)?;
    let kept = keeps_before(alloc, locked, unit, change)?;
    let with_log = logged(alloc, state, unit, request, kept)?;
    Ok(changes(alloc, with_log, change)?)
}

/// The change of a request is made, if it has one.
fn makes_change(
    alloc: Global,
    state: &FileState,
    unit: Unit,
    request: &Request,
    now: FileState,
) -> Result<FileState, OutOfMemory>
    ensures { IfOk result (λ new. seen new
        ≡ steps.makes_change (case_in state.now unit request.now) (seen now)) }
{
    match change_of(alloc, state, unit, request)? {
        None => Ok(now),
        Some(change) => Ok(makes(alloc, state, unit, request, &change, now)?),
    }
}

/// Where POINT leaves its file.
fn stand_found(
    alloc: Global,
    state: &FileState,
    unit: Unit,
    request: &Request,
) -> Result<Option<Stand>, OutOfMemory>
    ensures { IfOk result (λ stand. stand ≡ option_map (λ candidate. At candidate.at)
        (founds.found (case_in state.now unit request.now))) }
{
    match found(alloc, state, unit, request)? {
        None => Ok(None),
        Some(this) => Ok(Some(Stand::At(this.at))),
    }
}

/// POINT stands at what it found.
fn points_at(
    alloc: Global,
    state: &FileState,
    unit: Unit,
    request: &Request,
    now: FileState,
) -> Result<FileState, OutOfMemory>
    ensures { IfOk result (λ new. seen new
        ≡ steps.points_at (case_in state.now unit request.now) (seen now)) }
{
    let stand = stand_found(alloc, state, unit, request)?;
    Ok(stands_in(alloc, now, unit.deck, file_of(request), stand)?)
}

/// What a request that is done leaves.
fn done_effect(
    alloc: Global,
    state: &FileState,
    unit: Unit,
    request: &Request,
    now: FileState,
) -> Result<FileState, OutOfMemory>
    ensures { IfOk result (λ new. seen new
        ≡ steps.done_effect (case_in state.now unit request.now) request.now (seen now)) }
{
    match request {
        Request::Get {
            find,
            update,
            integrity,
            ..
        } => {
            let now = keeps_read(alloc, state, unit, request, *update, *integrity, now)?;
            Ok(reads_on(alloc, state, unit, request, find, now)?)
        }
        Request::Point { .. } => Ok(points_at(alloc, state, unit, request, now)?),
        Request::Add { .. } => Ok(makes_change(alloc, state, unit, request, now)?),
        Request::Update { .. } => Ok(makes_change(alloc, state, unit, request, now)?),
        Request::Erase { .. } => Ok(makes_change(alloc, state, unit, request, now)?),
        Request::EndReq { file } => {
            Ok(stands_in(alloc, now, unit.deck, Some(*file), Some(Stand::None))?)
        }
        Request::Commit => Ok(ends_unit(alloc, now, unit)?),
        Request::Backout => Ok(ends_unit(alloc, now, unit)?),
    }
}

/// Where a POINT that finds nothing leaves its file.
fn stand_lost(request: &Request) -> Option<Stand>
    ensures { result ≡ steps.stand_lost request.now }
{
    match request {
        Request::Point { .. } => Some(Stand::None),
        Request::Get { .. } | Request::Add { .. } | Request::Update { .. } => None,
        Request::Erase { .. } | Request::EndReq { .. } | Request::Commit | Request::Backout => None,
    }
}

/// Where a refusal leaves the file.
fn stand_refused(request: &Request, refusal: &Refusal) -> Option<Stand>
    ensures { result ≡ steps.stand_refused request.now refusal.now }
{
    match refusal {
        Refusal::EndOfData => Some(Stand::End),
        Refusal::NotFound => stand_lost(request),
        Refusal::NoAddress => stand_lost(request),
        _ => None,
    }
}

/// What a reply leaves.
fn after_reply(
    alloc: Global,
    state: &FileState,
    unit: Unit,
    request: &Request,
    reply: &Reply,
    now: FileState,
) -> Result<FileState, OutOfMemory>
    ensures { IfOk result (λ new. seen new
        ≡ steps.after_reply (case_in state.now unit request.now) reply.now (seen now)) }
{
    match reply {
        Reply::Done { .. } => Ok(done_effect(alloc, state, unit, request, now)?),
        Reply::Refused(refusal) => {
            let stand = stand_refused(request, refusal);
            Ok(stands_in(alloc, now, unit.deck, file_of(request), stand)?)
        }
    }
}

/// The state after a request and its reply.
pub(crate) fn after_asked(
    alloc: Global,
    state: &FileState,
    unit: Unit,
    request: &Request,
    reply: &Reply,
) -> Result<FileState, OutOfMemory>
    ensures { IfOk result (λ new. seen new
        ≡ steps.after_asked (case_in state.now unit request.now) reply.now) }
{
    let now = state.copy(alloc)?;
    let now = drops_held(alloc, now, unit.deck, file_of(request))?;
    Ok(after_reply(alloc, state, unit, request, reply, now)?)
}

/// What is left of an added record that is backed out.
fn withdrawn_by(kind: Kind, now: Option<&Stored>) -> Option<Stored>
    ensures { option_map item_of result
        ≡ steps.withdrawn_by kind (option_map item_of (option_copied now.entry)) }
{
    match kind {
        Kind::Keyed => None,
        Kind::Relative => None,
        Kind::Entry => match now {
            None => None,
            Some(now) => Some(Stored::Withdrawn(length_of(now))),
        },
    }
}

/// What is put back of a place where nothing stood.
fn withdrawn_at(
    alloc: Global,
    state: &FileState,
    kept: &KeptImage,
) -> Result<Option<Stored>, OutOfMemory>
    ensures { IfOk result (λ new.
        option_map item_of new ≡ steps.put_back (seen state.now) kept.now None) }
{
    match definition_of(catalog_of(state), kept.part) {
        None => Ok(None),
        Some(definition) => {
            let placed = state.content(kept.part);
            Ok(withdrawn_by(definition.kind, item_in_slice(placed, &kept.place)))
        }
    }
}

/// What is put back.
fn put_back(
    alloc: Global,
    state: &FileState,
    kept: &KeptImage,
) -> Result<Option<Stored>, OutOfMemory>
    ensures { IfOk result (λ new. option_map item_of new
        ≡ steps.put_back (seen state.now) kept.now kept.now.old) }
{
    match &kept.old {
        None => Ok(withdrawn_at(alloc, state, kept)?),
        Some(old) => Ok(Some(old.copy(alloc)?)),
    }
}

/// The change that puts a before-image back.
fn change_back(
    alloc: Global,
    state: &FileState,
    kept: &KeptImage,
) -> Result<PlaceChange, OutOfMemory>
    ensures { IfOk result (λ change. change ≡ steps.change_back (seen state.now) kept.now) }
{
    Ok(PlaceChange {
        part: kept.part,
        place: kept.place.copy(alloc)?,
        new: put_back(alloc, state, kept)?,
    })
}

/// The state where the unit's last kept before-image is put back and taken out.
pub(crate) fn puts_back(
    alloc: Global,
    state: &FileState,
    unit: Unit,
) -> Result<FileState, OutOfMemory>
    ensures { IfOk result (λ new. seen new ≡ steps.puts_back unit (seen state.now)) }
{
    let now = state.copy(alloc)?;
    match last_kept(alloc, state, unit)? {
        None => Ok(now),
        Some(kept) => {
            let change = change_back(alloc, state, &kept)?;
            let now = changes(alloc, now, &change)?;
            Ok(takes_out(alloc, now, unit)?)
        }
    }
}
