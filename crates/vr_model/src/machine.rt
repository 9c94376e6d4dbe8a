//! The machine: whether an entry is a step, and the state after it.
ghost use Rattle.std.specs.Prelude.{◌≡◌, ◌↔◌, IsTrue, false, IfOk, OnErr};
ghost use Rattle.vr_history.specs.Replies.{MayReply};
ghost use Rattle.vr_history.specs.Step.{
  IsOfUnit,
  Step,
  after_asked as after_asked_of,
  state_after,
};
ghost use Rattle.vr_model_state.specs.Seen.{case_in, seen};

use crate::deciding::{is_last_kept, is_least_free, may_ask};
use crate::effects::{claims, stops};
use crate::steps::{after_asked, puts_back};
use std::alloc::Global;
use vr_history::{Entry, What};
use vr_model_state::FileState;
use vr_types::{DeviceFault, OutOfMemory, Reply, SharedRequest, Unit};

/// Takes an entry where it is a step of the definition from the state, and makes the state the one
/// after it. Answers whether it was; the state stays where it was not, and where memory ran out.
pub fn apply(alloc: Global, state: &mut FileState, entry: &Entry) -> Result<bool, OutOfMemory>
    ensures taken { IfOk result (λ taken.
        IsTrue taken ↔ Step state.old.shape (seen state.old) entry.now) }
    ensures after { IfOk result (λ taken. IsTrue taken
        → seen state.new ≡ state_after state.old.shape (seen state.old) entry.now) }
    ensures refused { IfOk result (λ taken. taken ≡ false → state.new ≡ state.old) }
    ensures memory { OnErr result (state.new ≡ state.old) }
    ensures shape { state.new.shape ≡ state.old.shape }
{
    if !may_enter(alloc, state, entry)? {
        return Ok(false);
    }
    let next = after_entry(alloc, state, entry)?;
    *state = next;
    Ok(true)
}

/// Whether an entry may come in a state.
fn may_enter(alloc: Global, state: &FileState, entry: &Entry) -> Result<bool, OutOfMemory>
    ensures { IfOk result (λ may. IsTrue may ↔ Step state.now.shape (seen state.now) entry.now) }
{
    let unit = entry.unit;
    match &entry.what {
        What::Asked { request, reply } => Ok(may_share(alloc, state, unit, request, reply)?),
        What::Undone { part, place } => Ok(is_last_kept(alloc, state, unit, part.0, place)?),
        What::Claimed { area, .. } => Ok(is_least_free(state, area.0)),
        What::Split { .. } => Ok(true),
        What::Faulted { fault } => Ok(is_write(*fault) && state.stopped.is_none()),
    }
}

/// Whether a unit may ask for a request that its deck shares, with a reply.
fn may_share(
    alloc: Global,
    state: &FileState,
    unit: Unit,
    request: &SharedRequest,
    reply: &Reply,
) -> Result<bool, OutOfMemory>
    ensures { IfOk result (λ may. IsTrue may ↔ (IsOfUnit (seen state.now) unit
        × MayReply (case_in state.now unit request.now) reply.now)) }
{
    let may = may_ask(alloc, state, unit, request.get(), reply)?;
    Ok(may)
}

/// The state after a request that its deck shares, and its reply.
fn after_shared(
    alloc: Global,
    state: &FileState,
    unit: Unit,
    request: &SharedRequest,
    reply: &Reply,
) -> Result<FileState, OutOfMemory>
    ensures { IfOk result (λ new.
        seen new ≡ after_asked_of (case_in state.now unit request.now) reply.now) }
{
    let new = after_asked(alloc, state, unit, request.get(), reply)?;
    Ok(new)
}

/// Whether a fault is one of a write.
fn is_write(fault: DeviceFault) -> bool
    ensures { IsTrue result ↔ (fault ≡ DeviceFault.Write) }
{
    match fault {
        DeviceFault::Write => true,
        DeviceFault::Read => false,
    }
}

/// The state after an entry.
fn after_entry(alloc: Global, state: &FileState, entry: &Entry) -> Result<FileState, OutOfMemory>
    ensures state { IfOk result (λ new.
        seen new ≡ state_after state.now.shape (seen state.now) entry.now) }
    ensures shape { IfOk result (λ new. new.shape ≡ state.now.shape) }
{
    let mut next = after_what(alloc, state, entry)?;
    next.shape = state.shape.copy();
    Ok(next)
}

/// What the entry leaves of the state.
fn after_what(alloc: Global, state: &FileState, entry: &Entry) -> Result<FileState, OutOfMemory>
    ensures { IfOk result (λ new.
        seen new ≡ state_after state.now.shape (seen state.now) entry.now) }
{
    match &entry.what {
        What::Asked { request, reply } => {
            Ok(after_shared(alloc, state, entry.unit, request, reply)?)
        }
        What::Undone { .. } => Ok(puts_back(alloc, state, entry.unit)?),
        What::Claimed { part, area } => {
            let now = state.copy(alloc)?;
            Ok(claims(now, area.0, part.0)?)
        }
        What::Split { .. } => Ok(state.copy(alloc)?),
        What::Faulted { .. } => {
            let now = state.copy(alloc)?;
            Ok(stops(now, entry.stamp))
        }
    }
}
