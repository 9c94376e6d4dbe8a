//! The locks that a request asks for, and those that stand in its way.
ghost use Rattle.std.specs.Prelude.{◌≡◌, ◌∷◌, ◌++◌, [], IfOk, Some, None, true, false, filter, map};
ghost use Rattle.std.specs.List.{find, flat_map};
ghost use Rattle.std.specs.Option.{option_map_or, option_to_list};
ghost use Rattle.vr_types.specs.Locks as locks;
ghost use Rattle.vr_types.specs.declared.lock_name.LockName.TheVariants.{Record};
ghost use Rattle.vr_history.specs.Case as cases;
ghost use Rattle.vr_history.specs.Names as names;
ghost use Rattle.vr_model_state.specs.Seen.{case_in, seen};

use crate::change::{KeyMove, pair_moves, place_changed};
use crate::finding::{joined, place_read};
use std::alloc::Global;
use vr_model_state::{FileState, HeldLock, base_of, is_unit, prepended};
use vr_types::{Integrity, LockName, Mode, OutOfMemory, PartNo, Place, Request, Unit};

/// The name of a key of a unique alternate index, if there is a key.
fn key_name(
    alloc: Global,
    moved: &KeyMove,
    key: &Option<Place>,
) -> Result<Vec<LockName>, OutOfMemory>
    ensures { IfOk result (λ all. all.items
        ≡ map (names.key_name moved.now) (option_to_list key.now)) }
{
    match key {
        None => Ok(Vec::new(alloc)),
        Some(key) => {
            let name = LockName::Unique {
                part: PartNo(moved.alternate.part),
                key: key.copy(alloc)?,
            };
            Ok(prepended(name, Vec::new(alloc))?)
        }
    }
}

/// The keys of a unique alternate index that a change gives up and takes.
fn keys_moved(alloc: Global, moved: &KeyMove) -> Result<Vec<LockName>, OutOfMemory>
    ensures { IfOk result (λ all. all.items ≡ map (names.key_name moved.now)
        (option_to_list moved.now.given_up) ++ map (names.key_name moved.now)
        (option_to_list moved.now.taken)) }
{
    let given_up = key_name(alloc, moved, &moved.given_up)?;
    let taken = key_name(alloc, moved, &moved.taken)?;
    Ok(joined(given_up, taken)?)
}

/// The same of all unique ones among some moves of pairs.
fn keys_of(alloc: Global, all: &[KeyMove]) -> Result<Vec<LockName>, OutOfMemory>
    ensures { IfOk result (λ found. found.items
        ≡ flat_map names.keys_moved (filter (λ moved. moved.alternate.unique) all.now)) }
{
    match all {
        [] => Ok(Vec::new(alloc)),
        [first, rest @ ..] => {
            let others = keys_of(alloc, rest)?;
            if first.alternate.unique {
                let keys = keys_moved(alloc, first)?;
                Ok(joined(keys, others)?)
            } else {
                Ok(others)
            }
        }
    }
}

/// The name of a record of the base, if there is a place.
fn record_name(
    alloc: Global,
    request: &Request,
    place: Option<Place>,
) -> Result<Vec<LockName>, OutOfMemory>
    ensures { IfOk result (λ all. let base = option_map_or (λ file. file.base.0)
        (cases.file_of request.now) 0 in
        all.items ≡ map (Record (record { 0 = base })) (option_to_list place)) }
{
    match place {
        None => Ok(Vec::new(alloc)),
        Some(place) => {
            let name = LockName::Record {
                part: PartNo(base_of(request)),
                place,
            };
            Ok(prepended(name, Vec::new(alloc))?)
        }
    }
}

/// The names that a change asks for.
fn change_names(
    alloc: Global,
    state: &FileState,
    unit: Unit,
    request: &Request,
) -> Result<Vec<LockName>, OutOfMemory>
    ensures { IfOk result (λ all.
        all.items ≡ names.change_names (case_in state.now unit request.now)) }
{
    let place = place_changed(alloc, state, unit, request)?;
    let moves = pair_moves(alloc, state, unit, request)?;
    let base = record_name(alloc, request, place)?;
    let keys = keys_of(alloc, &moves)?;
    Ok(joined(base, keys)?)
}

/// The name that a read asks for.
fn read_names(
    alloc: Global,
    state: &FileState,
    unit: Unit,
    request: &Request,
) -> Result<Vec<LockName>, OutOfMemory>
    ensures { IfOk result (λ all.
        all.items ≡ names.read_names (case_in state.now unit request.now)) }
{
    let place = place_read(alloc, state, unit, request)?;
    Ok(record_name(alloc, request, place)?)
}

/// Whether a read asks for its record at all.
fn locks_read(update: bool, integrity: Integrity) -> bool
    ensures { result ≡ option_map_or (λ mode. true) (names.read_mode update integrity) false }
{
    update
        || match integrity {
            Integrity::Nri => false,
            Integrity::Cr | Integrity::Cre => true,
        }
}

/// The names that a request asks for, in the order in which they are tried.
pub fn lock_names(
    alloc: Global,
    state: &FileState,
    unit: Unit,
    request: &Request,
) -> Result<Vec<LockName>, OutOfMemory>
    ensures { IfOk result (λ all. all.items
        ≡ names.lock_names (case_in state.now unit request.now) request.now) }
{
    match request {
        Request::Get {
            update,
            integrity,
            ..
        } => {
            if locks_read(*update, *integrity) {
                Ok(read_names(alloc, state, unit, request)?)
            } else {
                Ok(Vec::new(alloc))
            }
        }
        Request::Add { .. } => Ok(change_names(alloc, state, unit, request)?),
        Request::Update { .. } => Ok(change_names(alloc, state, unit, request)?),
        Request::Erase { .. } => Ok(change_names(alloc, state, unit, request)?),
        Request::Point { .. } | Request::EndReq { .. } => Ok(Vec::new(alloc)),
        Request::Commit | Request::Backout => Ok(Vec::new(alloc)),
    }
}

fn is_exclusive(mode: Mode) -> bool
    ensures { result ≡ locks.is_exclusive mode }
{
    match mode {
        Mode::Shared => false,
        Mode::Exclusive => true,
    }
}

/// Whether a lock stands in the way of a unit that asks for a name.
#[tactic(auto, unfolding(vr_types::specs::Locks::stands_against))]
fn conflicts(unit: Unit, mode: Mode, name: &LockName, lock: &HeldLock) -> bool
    ensures { result ≡ locks.conflicts unit mode name.now lock.now }
{
    *name == lock.name
        && (!is_unit(unit, lock.unit) && (is_exclusive(mode) || is_exclusive(lock.mode)))
}

/// The earliest lock that stands in the way of a name.
fn first_conflict(
    alloc: Global,
    held: &[HeldLock],
    unit: Unit,
    mode: Mode,
    name: &LockName,
) -> Result<Option<HeldLock>, OutOfMemory>
    ensures { IfOk result (λ lock. lock ≡ locks.first_conflict held.now unit mode name.now) }
{
    match held {
        [] => Ok(None),
        [first, rest @ ..] => {
            if conflicts(unit, mode, name, first) {
                Ok(Some(first.copy(alloc)?))
            } else {
                Ok(first_conflict(alloc, rest, unit, mode, name)?)
            }
        }
    }
}

/// The lock that stands in the way of the first name that has one.
pub fn conflict_on(
    alloc: Global,
    held: &[HeldLock],
    unit: Unit,
    mode: Mode,
    asked: &[LockName],
) -> Result<Option<HeldLock>, OutOfMemory>
    ensures { IfOk result (λ lock. lock ≡ locks.conflict_on held.now unit mode asked.now) }
{
    match asked {
        [] => Ok(None),
        [first, rest @ ..] => match first_conflict(alloc, held, unit, mode, first)? {
            Some(lock) => Ok(Some(lock)),
            None => Ok(conflict_on(alloc, held, unit, mode, rest)?),
        },
    }
}
