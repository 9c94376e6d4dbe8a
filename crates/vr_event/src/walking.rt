//! The next place of a walk of the records of a part.
ghost use Rattle.std.specs.Prelude.{◌≡◌, ℕ, List, IfOk, IsTrue};
ghost use Rattle.std.specs.Option.{option_copied};
ghost use Rattle.vr_types.specs.Blocks.{Keeps};
ghost use Rattle.vr_space.specs.Whence.{allows};
ghost use Rattle.vr_answer.specs.Least.{IsLeastWith};
ghost use Rattle.vr_history.specs.State.{State};
ghost use Rattle.vr_event.specs.Searching.{HasRecord};
ghost use Rattle.vr_event.specs.Walking.{is_coming};
ghost use Rattle.vr_store.specs.Cause.{HasLookCause};
ghost use Rattle.vr_store.specs.Next.{HoldsPlaces};
ghost use Rattle.vr_store.specs.Store.{IsSet, IsStored, Stands};

use crate::searching::next_place;
use std::alloc::Global;
use vr_space::{Part, Whence};
use vr_store::{LookNo, Store};
use vr_types::{Blocks, PartNo, Place};

/// Where a walk goes on that came to this place, or begins.
fn whence_coming<'a>(from: Option<&'a Place>, last: &'a Option<Place>) -> Whence<'a>
    ensures { (place : List ℕ) → allows result place
        ≡ is_coming (option_copied from.entry) last.now place }
{
    match last {
        Some(place) => Whence::After(place),
        None => match from {
            Some(place) => Whence::At(place),
            None => Whence::Start,
        },
    }
}

/// The least place with a record at which a walk goes on, or begins: from this one on, or from the
/// first of all. Nothing is put. `Fault` is the device's, and `Memory` says that memory ran out for
/// the place.
pub(crate) fn place_coming<B: Blocks, P: Part>(
    alloc: Global,
    blocks: &mut B,
    store: &mut Store<P>,
    part: PartNo,
    room: u32,
    from: Option<&Place>,
    last: &Option<Place>,
) -> Result<Option<Place>, LookNo>
    requires set { IsSet store.old (B.seen blocks.old) }
    requires room { HoldsPlaces store.old.parts part.0 room }
    requires stands { IsTrue B.tells → Stands store.old (B.seen blocks.old) }
    ensures next { IsTrue B.tells → IfOk result (λ next. (volume : ℕ) (state : State)
        → IsStored volume store.old state (B.seen blocks.old)
        → IsLeastWith (is_coming (option_copied from.entry) last.now)
        (HasRecord (state.contents part.0)) next) }
    ensures same { store.new ≡ store.old }
    ensures keeps { Keeps B.tells (B.seen blocks.old) (B.seen blocks.new) }
    ensures cause { HasLookCause (B.faults blocks.old) (B.faults blocks.new) result }
{
    next_place(alloc, blocks, store, part, whence_coming(from, last), room)
}
