//! Refusals of a request by where its file stands, by what it holds for update, by the locks of
//! others, and by the records that are there.
ghost use Rattle.std.specs.Prelude.{◌≡◌, [], IfOk, Some, None, false, ◌&&◌, option_and_then};
ghost use Rattle.std.specs.Prelude.{option_map, find};
ghost use Rattle.std.specs.List.{list_any};
ghost use Rattle.std.specs.Option.{is_none, option_copied, option_map_or};
ghost use Rattle.vr_history.specs.Case as cases;
ghost use Rattle.vr_history.specs.Opened as files;
ghost use Rattle.vr_history.specs.RefusedFile as files_refused;
ghost use Rattle.vr_history.specs.RefusedRecord as refusals;
ghost use Rattle.vr_model_state.specs.OpenedFiles.{as_opened};
ghost use Rattle.vr_model_state.specs.Seen.{case_in, seen};

use crate::refused_file::refused_if;
use std::alloc::Global;
use vr_catalog::Definition;
use vr_model_change::{
    KeyMove, conflict_on, copy_of_bytes, field_in, key_of, lock_names, move_of, moves_key,
    old_record, pair_moves, place_changed, place_read, record_held, records_in,
};
use vr_model_state::{
    FileState, HeldLock, OpenedFile, acts_on_held, base_of, dropped, is_add, mode_asked, opened,
    stand_of,
};
use vr_types::{Bytes, Find, Kind, OutOfMemory, PartNo, Place, Refusal, Request, Stand, Unit};

fn is_nowhere(stand: &Stand) -> bool
    ensures { result ≡ refusals.is_nowhere stand.now }
{
    match stand {
        Stand::Start | Stand::At(_) | Stand::After(_) | Stand::End => false,
        Stand::None => true,
    }
}

fn is_sequential(request: &Request) -> bool
    ensures { result ≡ refusals.is_sequential request.now }
{
    match request {
        Request::Get { find, .. } => match find {
            Find::Next => true,
            Find::Equal(_) => false,
            Find::AtLeast(_) => false,
        },
        Request::Point { .. } | Request::Add { .. } | Request::Update { .. } => false,
        Request::Erase { .. } | Request::EndReq { .. } | Request::Commit | Request::Backout =>
            false,
    }
}

/// A sequential GET of a file that stands nowhere.
pub(crate) fn no_position(
    alloc: Global,
    state: &FileState,
    unit: Unit,
    request: &Request,
) -> Result<Option<Refusal>, OutOfMemory>
    ensures { IfOk result (λ refusal.
        refusal ≡ refusals.no_position (case_in state.now unit request.now)) }
{
    let nowhere = match stand_of(alloc, state, unit, request)? {
        None => false,
        Some(stand) => is_nowhere(&stand),
    };
    Ok(refused_if(is_sequential(request) && nowhere, Refusal::NoPosition))
}

/// An update or an erase, and the file holds nothing for update.
pub(crate) fn no_get(
    alloc: Global,
    state: &FileState,
    unit: Unit,
    request: &Request,
) -> Result<Option<Refusal>, OutOfMemory>
    ensures { IfOk result (λ refusal.
        refusal ≡ refusals.no_get (case_in state.now unit request.now)) }
{
    let none = dropped(alloc, state, unit, request)?.is_none();
    Ok(refused_if(acts_on_held(request) && none, Refusal::NoGet))
}

/// An update or an erase of a record that isn't there any more.
pub(crate) fn gone(
    alloc: Global,
    state: &FileState,
    unit: Unit,
    request: &Request,
) -> Result<Option<Refusal>, OutOfMemory>
    ensures { IfOk result (λ refusal.
        refusal ≡ refusals.gone (case_in state.now unit request.now)) }
{
    let none = old_record(alloc, state, unit, request)?.is_none();
    Ok(refused_if(acts_on_held(request) && none, Refusal::NotFound))
}

fn other_key(definition: &Definition, place: &Place, bytes: &Bytes) -> bool
    ensures { result ≡ refusals.other_key definition.now.kind definition.now place.now bytes.now }
{
    match definition.kind {
        Kind::Keyed => key_of(definition, bytes.as_slice()) != place.as_slice(),
        Kind::Entry => false,
        Kind::Relative => false,
    }
}

/// Whether an update changes the key by which the record was found.
fn changes_key(
    alloc: Global,
    state: &FileState,
    unit: Unit,
    request: &Request,
    place: &Place,
    bytes: &Bytes,
) -> Result<bool, OutOfMemory>
    ensures { IfOk result (λ changes. let asked = case_in state.now unit request.now in
        changes ≡ refusals.changes_key asked (files.opened asked) place.now bytes.now) }
{
    match opened(alloc, state, unit, request)? {
        OpenedFile::Unknown => Ok(false),
        OpenedFile::Cluster(definition) => Ok(other_key(&definition, place, bytes)),
        OpenedFile::ByPath(definition, index) => {
            let moved = move_of(alloc, state, unit, request, place, &index)?;
            Ok(other_key(&definition, place, bytes) || moves_key(&moved))
        }
    }
}

/// Whether an update changes the key of the record that the file holds.
fn changes_held_key(
    alloc: Global,
    state: &FileState,
    unit: Unit,
    request: &Request,
    bytes: &Bytes,
) -> Result<bool, OutOfMemory>
    ensures { IfOk result (λ changes. let asked = case_in state.now unit request.now in
        changes ≡ option_map_or
        (λ place. refusals.changes_key asked (files.opened asked) place bytes.now)
        (cases.dropped asked) false) }
{
    match dropped(alloc, state, unit, request)? {
        None => Ok(false),
        Some(place) => Ok(changes_key(alloc, state, unit, request, &place, bytes)?),
    }
}

/// The key of a record is to change.
pub(crate) fn key_changed(
    alloc: Global,
    state: &FileState,
    unit: Unit,
    request: &Request,
) -> Result<Option<Refusal>, OutOfMemory>
    ensures { IfOk result (λ refusal.
        refusal ≡ refusals.key_changed (case_in state.now unit request.now)) }
{
    match request {
        Request::Update { bytes, .. } => {
            let changes = changes_held_key(alloc, state, unit, request, bytes)?;
            Ok(refused_if(changes, Refusal::KeyChanged))
        }
        Request::Get { .. } | Request::Point { .. } | Request::Add { .. } => Ok(None),
        Request::Erase { .. } | Request::EndReq { .. } => Ok(None),
        Request::Commit | Request::Backout => Ok(None),
    }
}

fn other_length(kind: Kind, old: &Option<Bytes>, bytes: &Bytes) -> bool
    ensures { result ≡ refusals.other_length kind old.now bytes.now }
{
    match kind {
        Kind::Keyed => false,
        Kind::Entry => match old {
            None => false,
            Some(old) => old.len() != bytes.len(),
        },
        Kind::Relative => false,
    }
}

/// Whether an update changes the length of an entry-sequenced record.
fn changes_length(
    alloc: Global,
    state: &FileState,
    unit: Unit,
    request: &Request,
    bytes: &Bytes,
) -> Result<bool, OutOfMemory>
    ensures { IfOk result (λ changes. let asked = case_in state.now unit request.now in
        changes ≡ refusals.changes_length asked (files.opened asked) bytes.now) }
{
    let old = old_record(alloc, state, unit, request)?;
    match opened(alloc, state, unit, request)? {
        OpenedFile::Unknown => Ok(false),
        OpenedFile::Cluster(definition) => Ok(other_length(definition.kind, &old, bytes)),
        OpenedFile::ByPath(definition, _) => Ok(other_length(definition.kind, &old, bytes)),
    }
}

/// The length of an entry-sequenced record is to change.
pub(crate) fn length_changed(
    alloc: Global,
    state: &FileState,
    unit: Unit,
    request: &Request,
) -> Result<Option<Refusal>, OutOfMemory>
    ensures { IfOk result (λ refusal.
        refusal ≡ refusals.length_changed (case_in state.now unit request.now)) }
{
    match request {
        Request::Update { bytes, .. } => {
            let changes = changes_length(alloc, state, unit, request, bytes)?;
            Ok(refused_if(changes, Refusal::LengthChanged))
        }
        Request::Get { .. } | Request::Point { .. } | Request::Add { .. } => Ok(None),
        Request::Erase { .. } | Request::EndReq { .. } => Ok(None),
        Request::Commit | Request::Backout => Ok(None),
    }
}

/// The lock that stands in the way of a request.
fn conflict_in(
    alloc: Global,
    state: &FileState,
    unit: Unit,
    request: &Request,
) -> Result<Option<HeldLock>, OutOfMemory>
    ensures { IfOk result (λ lock.
        lock ≡ refusals.conflict_in (case_in state.now unit request.now)) }
{
    let asked = lock_names(alloc, state, unit, request)?;
    let lock = conflict_on(alloc, &state.locks, unit, mode_asked(request), &asked)?;
    Ok(lock)
}

/// A lock of another unit is in the way.
pub(crate) fn held(
    alloc: Global,
    state: &FileState,
    unit: Unit,
    request: &Request,
) -> Result<Option<Refusal>, OutOfMemory>
    ensures { IfOk result (λ refusal.
        refusal ≡ refusals.held (case_in state.now unit request.now)) }
{
    match conflict_in(alloc, state, unit, request)? {
        None => Ok(None),
        Some(lock) => Ok(Some(Refusal::Held {
            holder: lock.unit,
            name: lock.name,
            mode: lock.mode,
        })),
    }
}

fn absent_by(kind: Kind) -> Refusal
    ensures { result ≡ refusals.absent_by kind }
{
    match kind {
        Kind::Keyed => Refusal::NotFound,
        Kind::Entry => Refusal::NoAddress,
        Kind::Relative => Refusal::NotFound,
    }
}

fn absent_in(opened: &OpenedFile) -> Refusal
    ensures { result ≡ refusals.absent_in (as_opened opened.now) }
{
    match opened {
        OpenedFile::Unknown => Refusal::NotFound,
        OpenedFile::Cluster(definition) => absent_by(definition.kind),
        OpenedFile::ByPath(_, _) => Refusal::NotFound,
    }
}

fn absent_for(opened: &OpenedFile, find: &Find) -> Refusal
    ensures { result ≡ refusals.absent_for (as_opened opened.now) find.now }
{
    match find {
        Find::Next => Refusal::EndOfData,
        Find::Equal(_) => absent_in(opened),
        Find::AtLeast(_) => absent_in(opened),
    }
}

/// The record that a read gives.
pub(crate) fn record_read(
    alloc: Global,
    state: &FileState,
    unit: Unit,
    request: &Request,
) -> Result<Option<Bytes>, OutOfMemory>
    ensures { IfOk result (λ bytes. bytes
        ≡ refusals.record_read (case_in state.now unit request.now)) }
{
    match place_read(alloc, state, unit, request)? {
        None => Ok(None),
        Some(place) => Ok(copy_of_bytes(alloc, record_held(state, request, &place))?),
    }
}

/// The refusal of a read that finds no record.
fn absent_to_read(
    alloc: Global,
    state: &FileState,
    unit: Unit,
    request: &Request,
    find: &Find,
) -> Result<Option<Refusal>, OutOfMemory>
    ensures { IfOk result (λ refusal. let asked = case_in state.now unit request.now in
        refusal ≡ files_refused.refused_if (is_none (refusals.record_read asked))
        (refusals.absent_for (files.opened asked) find.now)) }
{
    let none = reads_nothing(alloc, state, unit, request)?;
    let refusal = absent_of(alloc, state, unit, request, find)?;
    Ok(refused_if(none, refusal))
}

/// Whether no record stands where a read asks for one.
fn reads_nothing(
    alloc: Global,
    state: &FileState,
    unit: Unit,
    request: &Request,
) -> Result<bool, OutOfMemory>
    ensures { IfOk result (λ none. none
        ≡ is_none (refusals.record_read (case_in state.now unit request.now))) }
{
    let found = record_read(alloc, state, unit, request)?;
    Ok(found.is_none())
}

/// How a record that isn't there is refused.
fn absent_of(
    alloc: Global,
    state: &FileState,
    unit: Unit,
    request: &Request,
    find: &Find,
) -> Result<Refusal, OutOfMemory>
    ensures { IfOk result (λ refusal. refusal
        ≡ refusals.absent_for (files.opened (case_in state.now unit request.now)) find.now) }
{
    let opened = opened(alloc, state, unit, request)?;
    Ok(absent_for(&opened, find))
}

/// No record is there for a read.
pub(crate) fn absent(
    alloc: Global,
    state: &FileState,
    unit: Unit,
    request: &Request,
) -> Result<Option<Refusal>, OutOfMemory>
    ensures { IfOk result (λ refusal.
        refusal ≡ refusals.absent (case_in state.now unit request.now)) }
{
    match request {
        Request::Get { find, .. } => Ok(absent_to_read(alloc, state, unit, request, find)?),
        Request::Point { find, .. } => Ok(absent_to_read(alloc, state, unit, request, find)?),
        Request::Add { .. } | Request::Update { .. } | Request::Erase { .. } => Ok(None),
        Request::EndReq { .. } | Request::Commit | Request::Backout => Ok(None),
    }
}

/// Whether the place that a request changes has a record.
fn has_record(
    alloc: Global,
    state: &FileState,
    unit: Unit,
    request: &Request,
) -> Result<bool, OutOfMemory>
    ensures { IfOk result (λ has. has ≡ refusals.has_record (case_in state.now unit request.now)) }
{
    match place_changed(alloc, state, unit, request)? {
        None => Ok(false),
        Some(place) => Ok(record_held(state, request, &place).is_some()),
    }
}

/// An add whose place has a record.
pub(crate) fn duplicate(
    alloc: Global,
    state: &FileState,
    unit: Unit,
    request: &Request,
) -> Result<Option<Refusal>, OutOfMemory>
    ensures { IfOk result (λ refusal.
        refusal ≡ refusals.duplicate (case_in state.now unit request.now)) }
{
    let has = has_record(alloc, state, unit, request)?;
    let refusal = Refusal::Duplicate {
        part: PartNo(base_of(request)),
    };
    Ok(refused_if(is_add(request) && has, refusal))
}

/// Whether another record than the one at the move's place has the key.
fn has_key(
    alloc: Global,
    moved: &KeyMove,
    key: &Place,
    this: &(Place, Bytes),
) -> Result<bool, OutOfMemory>
    ensures { IfOk result (λ has. has ≡ refusals.has_key moved.now key.now this.now) }
{
    let (place, bytes) = this;
    let same = match field_in(alloc, &moved.alternate, Some(bytes.as_slice()))? {
        None => false,
        Some(field) => *key == field,
    };
    Ok(*place != moved.place && same)
}

/// Whether one of some records has the key.
fn any_has_key(
    alloc: Global,
    moved: &KeyMove,
    key: &Place,
    records: &[(Place, Bytes)],
) -> Result<bool, OutOfMemory>
    ensures { IfOk result (λ has. has ≡ list_any (refusals.has_key moved.now key.now) records.now) }
{
    match records {
        [] => Ok(false),
        [first, rest @ ..] => {
            let others = any_has_key(alloc, moved, key, rest)?;
            let has = has_key(alloc, moved, key, first)?;
            Ok(has || others)
        }
    }
}

/// Whether another record of the base has the key that a move takes.
pub(crate) fn is_taken(
    alloc: Global,
    state: &FileState,
    unit: Unit,
    request: &Request,
    moved: &KeyMove,
) -> Result<bool, OutOfMemory>
    ensures { IfOk result (λ taken.
        taken ≡ refusals.is_taken (case_in state.now unit request.now) moved.now) }
{
    match &moved.taken {
        None => Ok(false),
        Some(key) => {
            let placed = state.content(base_of(request));
            let records = records_in(alloc, placed)?;
            let taken = any_has_key(alloc, moved, key, &records)?;
            Ok(taken)
        }
    }
}

/// The part of the first unique alternate index of some moves whose key another record has.
fn taken_in(
    alloc: Global,
    state: &FileState,
    unit: Unit,
    request: &Request,
    all: &[KeyMove],
) -> Result<Option<u32>, OutOfMemory>
    ensures { IfOk result (λ part. let asked = case_in state.now unit request.now in
        part ≡ option_map (λ moved. moved.alternate.part)
        (find (λ moved. moved.alternate.unique && refusals.is_taken asked moved) all.now)) }
{
    match all {
        [] => Ok(None),
        [first, rest @ ..] => {
            let others = taken_in(alloc, state, unit, request, rest)?;
            let taken = is_taken(alloc, state, unit, request, first)?;
            if first.alternate.unique && taken {
                Ok(Some(first.alternate.part))
            } else {
                Ok(others)
            }
        }
    }
}

/// A change takes a key of a unique alternate index that another record has.
pub(crate) fn duplicate_key(
    alloc: Global,
    state: &FileState,
    unit: Unit,
    request: &Request,
) -> Result<Option<Refusal>, OutOfMemory>
    ensures { IfOk result (λ refusal.
        refusal ≡ refusals.duplicate_key (case_in state.now unit request.now)) }
{
    let all = pair_moves(alloc, state, unit, request)?;
    match taken_in(alloc, state, unit, request, &all)? {
        None => Ok(None),
        Some(part) => Ok(Some(Refusal::Duplicate { part: PartNo(part) })),
    }
}
