//! The name that a request locks, and who is in its way.
ghost use Rattle.std.specs.Prelude.{◌≡◌, IfOk, IsTrue, OnErr};
ghost use Rattle.std.specs.Option.{option_copied};
ghost use Rattle.vr_history.specs.Names as names;
ghost use Rattle.vr_history.specs.Replies.{may_want};
ghost use Rattle.vr_answer.specs.Here as here;
ghost use Rattle.vr_answer.specs.InHand.{InEachWith};

use crate::case::{Case, Looked, base_of};
use std::alloc::Global;
use vr_types::{Integrity, LockName, LockNames, Mode, OutOfMemory, Refusal, Request, place};

/// How a request asks for its locks.
pub fn mode_asked(request: &Request) -> Mode
    ensures { result ≡ names.mode_asked request.now }
{
    match request {
        Request::Get { update, .. } => {
            if *update {
                Mode::Exclusive
            } else {
                Mode::Shared
            }
        }
        Request::Point { .. } => Mode::Shared,
        Request::Add { .. } | Request::Update { .. } | Request::Erase { .. } => Mode::Exclusive,
        Request::EndReq { .. } | Request::Commit | Request::Backout => Mode::Shared,
    }
}

/// Whether a request asks for a lock on the place that it looks at.
fn asks_lock(request: &Request) -> bool
    ensures { result ≡ here.asks_lock request.now }
{
    match request {
        Request::Get {
            update,
            integrity,
            ..
        } => {
            if *update {
                true
            } else {
                match *integrity {
                    Integrity::Nri => false,
                    Integrity::Cr | Integrity::Cre => true,
                }
            }
        }
        Request::Point { .. } => false,
        Request::Add { .. } | Request::Update { .. } | Request::Erase { .. } => true,
        Request::EndReq { .. } | Request::Commit | Request::Backout => false,
    }
}

/// The name that a request locks, by the place that it comes to.
fn name_here(alloc: Global, case: &Case, at: Option<&[u8]>) -> Result<Option<LockName>, OutOfMemory>
    ensures value { IfOk result (λ name.
        name ≡ here.name_here case.now (option_copied at.entry)) }
    ensures memory { OnErr result (IsTrue (may_want case.now.request.now)) }
{
    if !asks_lock(case.request) {
        return Ok(None);
    }
    match at {
        None => Ok(None),
        Some(at) => Ok(Some(LockName::Record {
            part: base_of(case.request),
            place: place(alloc, at)?,
        })),
    }
}

/// The names that a request locks, for the lock table's `ask`: that of the place that it comes to.
/// It fails only if memory runs out, and not for a request that is on no file.
pub fn lock_names(alloc: Global, case: &Case, looked: Looked<'_>) -> Result<LockNames, OutOfMemory>
    ensures value { IfOk result (λ asked. InEachWith case.now looked.entry (λ whole.
        asked ≡ names.lock_names whole whole.request)) }
    ensures memory { OnErr result (IsTrue (may_want case.now.request.now)) }
{
    names_here(alloc, case, looked.place)
}

/// The names that a request locks.
fn names_here(alloc: Global, case: &Case, at: Option<&[u8]>) -> Result<LockNames, OutOfMemory>
    ensures value { IfOk result (λ asked.
        asked ≡ here.names_in (here.name_here case.now (option_copied at.entry))) }
    ensures memory { OnErr result (IsTrue (may_want case.now.request.now)) }
{
    let mut names = LockNames::new(alloc);
    match name_here(alloc, case, at)? {
        None => Ok(names),
        Some(name) => {
            names.push(name)?;
            Ok(names)
        }
    }
}

/// The refusal by a lock of another unit on the name that the request locks.
pub(crate) fn held_here(
    alloc: Global,
    case: &Case,
    at: Option<&[u8]>,
) -> Result<Option<Refusal>, OutOfMemory>
    ensures value { IfOk result (λ refusal.
        refusal ≡ here.held_here case.now (option_copied at.entry)) }
    ensures memory { OnErr result (IsTrue (may_want case.now.request.now)) }
{
    match name_here(alloc, case, at)? {
        None => Ok(None),
        Some(name) => Ok(held_on(case, name)),
    }
}

/// The refusal by a lock of another unit on a name.
fn held_on(case: &Case, name: LockName) -> Option<Refusal>
    ensures { result ≡ here.held_on case.now name }
{
    match case.locks.test(case.unit, &name, mode_asked(case.request)) {
        None => None,
        Some((holder, mode)) => Some(Refusal::Held { holder, name, mode }),
    }
}
