//! What a change of a place takes before anything of it is done: its memory, and a before-image that
//! is kept.
ghost use Rattle.std.specs.Prelude.{◌≡◌, ◌≢◌, ℕ, List, None, IfOk, IfSome, OnErr, OnOk};
ghost use Rattle.std.specs.Option.{option_copied};
ghost use Rattle.vr_types.specs.declared.unit.Unit.{Unit as UnitOfRecovery};
ghost use Rattle.vr_space.specs.Part.{IsGiven, IsPlaceOf};
ghost use Rattle.vr_log.specs.declared.record.LogRecord.TheVariants as records;
ghost use Rattle.vr_history.specs.State.{State};
ghost use Rattle.vr_undo.specs.Records.{before_of};
ghost use Rattle.vr_undo.specs.declared.before.Before.{Before};
ghost use Rattle.vr_undo.specs.declared.record.KeptRecord.{KeptRecord};
ghost use Rattle.vr_store.specs.Change.{IsKeptFor, IsPrepared, with_kept};
ghost use Rattle.vr_store.specs.Store.{HasLength, IsSet, IsStored, blocks_of, part_among};
ghost use Rattle.vr_store.specs.Store.{shape_among};

use crate::changed::make_room;
use crate::store::Store;
use std::alloc::Global;
use vr_log::LogRecord;
use vr_space::Part;
use vr_types::{Blocks, OutOfMemory, PartNo, Place, Unit, bytes};

/// What a change of a place takes: its record of the log, whether what is kept of the place is new,
/// and whether the log has the place already.
#[derive(Drop)]
pub struct Prepared {
    pub rec: LogRecord,
    pub first: bool,
    pub logged: bool,
}

/// The record of a before-image. Fails only if memory runs out.
pub(crate) fn before_record(
    alloc: Global,
    unit: Unit,
    part: PartNo,
    place: &Place,
    old: Option<&[u8]>,
) -> Result<LogRecord, OutOfMemory>
    ensures { IfOk result (λ rec. rec
        ≡ records.Before unit part place.now (option_copied old.entry)) }
{
    let place = place.copy(alloc)?;
    let old = match old {
        Some(from) => Some(bytes(alloc, from)?),
        None => None,
    };
    Ok(LogRecord::Before {
        unit,
        part,
        place,
        old,
    })
}

impl<P: Part> Store<P> {
    /// Keeps what stands at a place of a part before a unit changes it, and takes all memory of the
    /// change, so that the rest of it takes none: the record of the log, and room for four more
    /// blocks that the unit changed. Fails only if memory runs out, or for a record of 4 GiB or
    /// more, and then the store is as before.
    pub fn keep<B: Blocks>(
        &mut self,
        blocks: &B,
        alloc: Global,
        unit: Unit,
        part: PartNo,
        place: &Place,
        old: Option<&[u8]>,
    ) -> Result<Prepared, OutOfMemory>
        requires part { part_among self.old.parts part.0 ≢ None }
        requires place { IfSome (shape_among self.old.parts part.0)
            (λ shape. IsPlaceOf shape place.now) }
        requires item { IfSome (shape_among self.old.parts part.0)
            (λ shape. IsGiven shape place.now old) }
        requires length { IfSome (shape_among self.old.parts part.0) HasLength }
        ensures prepared { IfOk result (λ prepared. IsPrepared prepared unit
            (before_of part place.now (option_copied old.entry)) self.old.undo) }
        ensures undo { OnOk result (self.new.undo ≡ with_kept unit
            (before_of part place.now (option_copied old.entry)) self.old.undo) }
        ensures kept { OnOk result ((volume : ℕ) (state : State)
            → IsStored volume self.old state (B.seen blocks.now)
            → IsKeptFor volume self.new unit
            (before_of part place.now (option_copied old.entry)) state (B.seen blocks.now)) }
        ensures stored { OnErr result ((volume : ℕ) (state : State)
            → IsStored volume self.old state (B.seen blocks.now)
            → IsStored volume self.new state (B.seen blocks.now)) }
        ensures set { IsSet self.old (B.seen blocks.now) → IsSet self.new (B.seen blocks.now) }
        ensures blocks { (other : UnitOfRecovery)
            → blocks_of other self.new.changed ≡ blocks_of other self.old.changed }
        ensures unkept { OnErr result (self.new.undo ≡ self.old.undo) }
        ensures rest { self.new
            ≡ record self.old { undo = self.new.undo; changed = self.new.changed } }
    {
        let _ = blocks;
        make_room(alloc, &mut self.changed, unit, 4)?;
        let logged = self.undo.is_logged(unit, part, place);
        let rec = before_record(alloc, unit, part, place, old)?;
        let first = self.undo.keep(unit, part, place, old)?;
        Ok(Prepared { rec, first, logged })
    }

    /// Takes back what `keep` kept, where the change isn't made after all.
    pub fn unkeep<B: Blocks>(
        &mut self,
        blocks: &B,
        unit: Unit,
        part: PartNo,
        place: &Place,
        prepared: &Prepared,
    )
        ensures undo { (before : Before) (old : List KeptRecord) → before.part ≡ part
            → before.place ≡ place.now → IsPrepared prepared.now unit before old
            → self.old.undo ≡ with_kept unit before old → self.new.undo ≡ old }
        ensures stored { (volume : ℕ) (before : Before) (state : State)
            → (kept : IsKeptFor volume self.old unit before state (B.seen blocks.now))
            → before.part ≡ part → before.place ≡ place.now
            → IsPrepared prepared.now unit before kept.old
            → IsStored volume self.new state (B.seen blocks.now) }
        ensures set { IsSet self.old (B.seen blocks.now) → IsSet self.new (B.seen blocks.now) }
        ensures rest { self.new ≡ record self.old { undo = self.new.undo } }
    {
        let _ = blocks;
        if prepared.first {
            self.undo.unkeep(unit, part, place);
        }
    }
}
