//! How many records a part has, by a walk of them.
ghost use Rattle.std.specs.Prelude.{◌≡◌, ℕ, IfOk, IsTrue};
ghost use Rattle.vr_types.specs.Blocks.{Keeps};
ghost use Rattle.vr_history.specs.State.{State};
ghost use Rattle.vr_event.specs.Counts.{as_told, records_in};
ghost use Rattle.vr_store.specs.Cause.{HasLookCause};
ghost use Rattle.vr_store.specs.Next.{HoldsPlaces};
ghost use Rattle.vr_store.specs.Store.{IsSet, IsStored, Stands};

use crate::walking::place_coming;
use std::alloc::Global;
use vr_space::Part;
use vr_store::{LookNo, Store};
use vr_types::{Blocks, OutOfMemory, PartNo};

/// How many records a part of a store has, as far as the number can say it. Nothing is put.
/// `Fault` is the device's, and `Memory` says that memory ran out for a place.
pub(crate) fn count_records<B: Blocks, P: Part>(
    alloc: Global,
    blocks: &mut B,
    store: &mut Store<P>,
    part: PartNo,
    room: u32,
) -> Result<u64, LookNo>
    requires set { IsSet store.old (B.seen blocks.old) }
    requires room { HoldsPlaces store.old.parts part.0 room }
    requires stands { IsTrue B.tells → Stands store.old (B.seen blocks.old) }
    ensures counted { IsTrue B.tells → IfOk result (λ count. (volume : ℕ) (state : State)
        → IsStored volume store.old state (B.seen blocks.old)
        → count ≡ as_told (records_in (state.contents part.0))) }
    ensures same { store.new ≡ store.old }
    ensures keeps { Keeps B.tells (B.seen blocks.old) (B.seen blocks.new) }
    ensures cause { HasLookCause (B.faults blocks.old) (B.faults blocks.new) result }
{
    let mut last = None;
    for counted in 0..u64::MAX {
        match place_coming(alloc, blocks, store, part, room, None, &last)? {
            None => return Ok(counted),
            Some(place) => last = Some(place),
        }
    }
    Ok(u64::MAX)
}
