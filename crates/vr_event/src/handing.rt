//! The records of a part, handed to a visitor by a walk of them.
ghost use Rattle.std.specs.Prelude.{◌≡◌, ◌-◌, ◌^◌, ℕ, List, Option, IsErrOf, IsTrue, OnOk};
ghost use Rattle.std.specs.Option.{option_copied};
ghost use Rattle.vr_types.specs.Blocks.{Keeps};
ghost use Rattle.vr_types.specs.Content.{record_at};
ghost use Rattle.vr_types.specs.declared.fault.DeviceFault as faults;
ghost use Rattle.vr_trace.specs.Visitors.{visited_by};
ghost use Rattle.vr_history.specs.State.{State};
ghost use Rattle.vr_event.specs.Putting.{AreLaidBy};
ghost use Rattle.vr_event.specs.Reading.{HasVisited, HasVisitedSome, UnlessMemory};
ghost use Rattle.vr_event.specs.Reading.{first_records};
ghost use Rattle.vr_store.specs.Cause.{HasLookCause};
ghost use Rattle.vr_store.specs.Next.{HoldsPlaces};
ghost use Rattle.vr_store.specs.Store.{IsSet, IsStored, Stands};
ghost use Rattle.vr_store.specs.Visiting.{after_found};
ghost use Rattle.vr_store.specs.declared.no.LookNo.TheVariants as looks;

use crate::getting::fits;
use crate::walking::place_coming;
use std::alloc::Global;
use vr_record_file::RecordFile;
use vr_space::Part;
use vr_store::{LookNo, Store};
use vr_trace::RecordVisitor;
use vr_types::{Blocks, PartNo, Place};

/// Lends the record at a place of a part to a visitor, where there is one. `Fault` is the device's,
/// and then nothing was handed over; `Memory` says that the visitor ran out of memory.
fn hand_over<B: Blocks, P: Part, R: RecordVisitor>(
    blocks: &mut B,
    store: &mut Store<P>,
    file: &RecordFile,
    part: PartNo,
    place: &Place,
    visitor: &mut R,
) -> Result<(), LookNo>
    requires set { IsSet store.old (B.seen blocks.old) }
    requires laid { AreLaidBy file.now.geometry file.now.catalog store.old.parts }
    requires stands { IsTrue B.tells → Stands store.old (B.seen blocks.old) }
    ensures found { IsTrue B.tells → OnOk result ((volume : ℕ) (state : State)
        → IsStored volume store.old state (B.seen blocks.old) → visitor.new
        ≡ after_found R.after place.now (record_at (state.contents part.0) place.now) visitor.old) }
    ensures one { OnOk result ((found : Option (List ℕ))
        × (visitor.new ≡ after_found R.after place.now found visitor.old)) }
    ensures none { (fault : faults.DeviceFault) → IsErrOf result (looks.Fault fault)
        → visitor.new ≡ visitor.old }
    ensures same { store.new ≡ store.old }
    ensures keeps { Keeps B.tells (B.seen blocks.old) (B.seen blocks.new) }
    ensures cause { HasLookCause (B.faults blocks.old) (B.faults blocks.new) result }
{
    // A place that was found is one of its part. That is asked here, since of a device that doesn't
    // report its contents nobody knows it.
    if fits(file.catalog(), part, place) {
        store.visit(blocks, part, place, visitor)
    } else {
        Ok(())
    }
}

/// Hands the records of a part to a visitor, in the order of their places, from the first that has
/// this place or one past it, or from the first of all, until it is done or there are no more, as
/// far as 64 bits count them. Nothing is put. `Fault` is the device's, and `Memory` says that
/// memory ran out, for a place or to the visitor.
pub(crate) fn hand_records<B: Blocks, P: Part, R: RecordVisitor>(
    alloc: Global,
    blocks: &mut B,
    store: &mut Store<P>,
    file: &RecordFile,
    part: PartNo,
    room: u32,
    from: Option<&Place>,
    visitor: &mut R,
) -> Result<(), LookNo>
    requires set { IsSet store.old (B.seen blocks.old) }
    requires room { HoldsPlaces store.old.parts part.0 room }
    requires laid { AreLaidBy file.now.geometry file.now.catalog store.old.parts }
    requires stands { IsTrue B.tells → Stands store.old (B.seen blocks.old) }
    ensures all { IsTrue B.tells → OnOk result ((volume : ℕ) (state : State)
        → IsStored volume store.old state (B.seen blocks.old) → visitor.new
        ≡ visited_by R.after R.done (first_records (2 ^ 64 - 1) (option_copied from.entry)
        (state.contents part.0)) visitor.old) }
    ensures first { IsTrue B.tells → UnlessMemory result ((volume : ℕ) (state : State)
        → IsStored volume store.old state (B.seen blocks.old)
        → HasVisitedSome R.after R.done (option_copied from.entry) (state.contents part.0)
        visitor.old visitor.new) }
    ensures visited { UnlessMemory result
        (HasVisited R.after R.done visitor.old visitor.new) }
    ensures same { store.new ≡ store.old }
    ensures keeps { Keeps B.tells (B.seen blocks.old) (B.seen blocks.new) }
    ensures cause { HasLookCause (B.faults blocks.old) (B.faults blocks.new) result }
{
    let mut last = None;
    for _turn in 0..u64::MAX {
        if visitor.is_done() {
            return Ok(());
        }
        match place_coming(alloc, blocks, store, part, room, from, &last)? {
            None => return Ok(()),
            Some(place) => {
                hand_over(blocks, store, file, part, &place, visitor)?;
                last = Some(place);
            }
        }
    }
    Ok(())
}
