//! Whether a history is legal.
ghost use Rattle.std.specs.Prelude.{◌≡◌, ◌↔◌, IsTrue, IfOk, OnErr};
ghost use Rattle.vr_history.specs.Legal.{AreSteps, IsLegal, state_of};
ghost use Rattle.vr_model_state.specs.Seen.{seen};

use crate::machine::apply;
use std::alloc::Global;
use vr_history::Entry;
use vr_merge::{backs_out_once_begun, stops_at_write_faults};
use vr_model_state::FileState;
use vr_types::OutOfMemory;

/// Takes entries one after another, as long as each is a step from the state that those before it
/// give. Answers whether all were, and then the state is the one after them; else it is the state
/// at the first that was none.
fn take_all(alloc: Global, state: &mut FileState, entries: &[Entry]) -> Result<bool, OutOfMemory>
    ensures { IfOk result (λ taken.
        IsTrue taken ↔ AreSteps state.old.shape (seen state.old) entries.now) }
{
    match entries {
        [] => Ok(true),
        [first, rest @ ..] => {
            if apply(alloc, state, first)? {
                Ok(take_all(alloc, state, rest)?)
            } else {
                Ok(false)
            }
        }
    }
}

/// Whether entries are a run of steps from a state: each is a step of the definition from the state
/// that those before it give. The state stays as it is. Fails only if memory runs out.
pub fn are_steps(alloc: Global, state: &FileState, entries: &[Entry]) -> Result<bool, OutOfMemory>
    ensures { IfOk result (λ are.
        IsTrue are ↔ AreSteps state.now.shape (seen state.now) entries.now) }
{
    let mut now = state.copy(alloc)?;
    Ok(take_all(alloc, &mut now, entries)?)
}

/// Whether entries are a legal history from an opening state, whole: each is a step from the state
/// that those before it give, a unit that has begun to undo asks for BACKOUT next if it asks for
/// anything, and a reply that the device failed to write is followed, at the next stamp, by the
/// fault that stops the volume. That stamps rise is asked of `is_stamped` (`vr_merge`). Fails only
/// if memory runs out.
pub fn is_legal(alloc: Global, opening: &FileState, entries: &[Entry]) -> Result<bool, OutOfMemory>
    ensures { IfOk result (λ legal.
        IsTrue legal ↔ IsLegal opening.now.shape (seen opening.now) entries.now) }
{
    if !backs_out_once_begun(entries) || !stops_at_write_faults(entries) {
        return Ok(false);
    }
    Ok(are_steps(alloc, opening, entries)?)
}
