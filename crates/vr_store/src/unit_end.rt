//! The end of a unit of recovery in a store: the blocks that it changed are forced, and then its end
//! is logged.
ghost use Rattle.std.specs.Prelude.{◌≡◌, ◌≢◌, ◌<◌, ◌+◌, ◌^◌, ℕ, List, [], IsTrue, OnOk, OnErr, All};
ghost use Rattle.std.specs.Prelude.{false, filter, map};
ghost use Rattle.vr_types.specs.Blocks.{Keeps};
ghost use Rattle.vr_types.specs.Faults.{HasWriteCause};
ghost use Rattle.vr_types.specs.Locks.{same_unit};
ghost use Rattle.vr_types.specs.Moments.{Guards};
ghost use Rattle.vr_types.specs.declared.unit.Unit.{Unit as UnitOfRecovery};
ghost use Rattle.vr_space.specs.Owners.{Owners};
ghost use Rattle.vr_space.specs.Part.{IsDueTo, IsSound, Shape};
ghost use Rattle.vr_log.specs.Live.{is_in, live_in};
ghost use Rattle.vr_log.specs.LogNow.{with_record};
ghost use Rattle.vr_log.specs.declared.record.LogRecord.TheVariants.{End};
ghost use Rattle.vr_history.specs.Effects.{is_other};
ghost use Rattle.vr_history.specs.State.{State};
ghost use Rattle.vr_undo.specs.Records.{befores_of, images_in, logged_of};
ghost use Rattle.vr_volume.specs.Committed.{IsCurrent, KeepsNoneIf, committed_by};
ghost use Rattle.vr_volume.specs.EndedLog.{IsEndedLog};
ghost use Rattle.vr_volume.specs.Safe.{IsSafeImage};
ghost use Rattle.vr_volume.specs.Steps.{IsEndedIn};
ghost use Rattle.vr_store.specs.Left.{left_for};
ghost use Rattle.vr_store.specs.Store.{ChangedBy, IsSet, IsStored, Stands, blocks_of, changed_by};
ghost use Rattle.vr_store.specs.Store.{owners_of};

use crate::changed::{UnitBlocks, forget, place_of};
use crate::store::Store;
use vr_log::EndKind;
use vr_space::Part;
use vr_types::{Blocks, DeviceFault, Unit};
use vr_volume::{end_unit, force_changed};

impl<P: Part> Store<P> {
    /// Forces the blocks that a unit changed, all at once. `Write` is the device's, and then the
    /// store is as before.
    pub fn force_changed<B: Blocks>(
        &mut self,
        blocks: &mut B,
        unit: Unit,
    ) -> Result<(), DeviceFault>
        requires set { IsSet self.old (B.seen blocks.old) }
        ensures taken { OnOk result (blocks_of unit self.new.changed ≡ []) }
        ensures others { (other : UnitOfRecovery) → same_unit other unit ≡ false
            → blocks_of other self.new.changed ≡ blocks_of other self.old.changed }
        ensures set { IsSet self.new (B.seen blocks.new) }
        ensures stored { IsTrue B.tells → (volume : ℕ) (state : State)
            → IsStored volume self.old state (B.seen blocks.old)
            → IsStored volume self.new state (B.seen blocks.new) }
        // At every moment, whether it fails or not.
        ensures moments { IsTrue B.tells → (volume : ℕ) (state : State)
            → IsStored volume self.old state (B.seen blocks.old)
            → Guards (B.seen blocks.old) (B.seen blocks.new)
            (IsSafeImage self.old.log.geometry volume (owners_of self.old) self.old.log
            (committed_by state)) }
        ensures same { OnErr result (self.new ≡ self.old) }
        // Where there are such blocks the unit waits for less.
        ensures nearer { blocks_of unit self.old.changed ≢ []
            → OnOk result (left_for unit self.new < left_for unit self.old) }
        ensures rest { self.new ≡ record self.old { changed = self.new.changed } }
        ensures keeps { Keeps B.tells (B.seen blocks.old) (B.seen blocks.new) }
        ensures cause { HasWriteCause (B.faults blocks.old) (B.faults blocks.new) result }
    {
        force_listed(blocks, &mut self.changed, unit)
    }

    /// Ends a unit of recovery whose changed blocks are all forced: its end is logged and forced,
    /// and what is kept of it is forgotten. `Write` is the device's.
    pub fn end<B: Blocks>(
        &mut self,
        blocks: &mut B,
        unit: Unit,
        kind: EndKind,
    ) -> Result<(), DeviceFault>
        requires set { IsSet self.old (B.seen blocks.old) }
        requires live { IsTrue (is_in unit (live_in self.old.log.records)) }
        requires none_left { blocks_of unit self.old.changed ≡ [] }
        requires stands { IsTrue B.tells → Stands self.old (B.seen blocks.old) }
        ensures ended { IsTrue B.tells → OnOk result ((volume : ℕ) (old new : State)
            → IsStored volume self.old old (B.seen blocks.old)
            → IsCurrent old.numbers unit → KeepsNoneIf kind old unit → IsEndedIn unit old new
            → self.old.log.generation + 1 < 2 ^ 63
            → IsStored volume self.new new (B.seen blocks.new)) }
        // At every moment, whether it fails or not.
        ensures moments { IsTrue B.tells → (volume : ℕ) (state : State)
            → IsStored volume self.old state (B.seen blocks.old) → KeepsNoneIf kind state unit
            → Guards (B.seen blocks.old) (B.seen blocks.new) (IsSafeImage self.old.log.geometry
            volume (owners_of self.old) (with_record self.old.log (End unit kind))
            (committed_by state)) }
        ensures set { OnOk result (IsSet self.new (B.seen blocks.new)) }
        ensures log { OnOk result (IsEndedLog self.old.log unit kind self.new.log) }
        ensures images { OnOk result (images_in self.new.undo
            ≡ filter (λ image. is_other unit image.unit) (images_in self.old.undo)) }
        ensures befores { OnOk result (befores_of self.new.undo
            ≡ filter (λ kept. is_other unit kept.unit) (befores_of self.old.undo)) }
        ensures logged { OnOk result (logged_of self.new.undo
            ≡ filter (λ logged. is_other unit logged.unit) (logged_of self.old.undo)) }
        ensures kept { OnErr result (self.new.undo ≡ self.old.undo) }
        ensures none { OnOk result (blocks_of unit self.new.changed ≡ []) }
        ensures others { (other : UnitOfRecovery) → same_unit other unit ≡ false
            → blocks_of other self.new.changed ≡ blocks_of other self.old.changed }
        ensures rest { self.new ≡ record self.old {
          log = self.new.log;
          undo = self.new.undo;
          changed = self.new.changed;
        } }
        ensures cause { HasWriteCause (B.faults blocks.old) (B.faults blocks.new) result }
    {
        end_unit(blocks, &mut self.log, &mut self.undo, unit, kind)?;
        forget(&mut self.changed, unit);
        Ok(())
    }
}

/// Forces a unit's blocks, all at once, and takes them out of its list. `Write` is the device's, and
/// the list stays.
fn force_listed<B: Blocks>(
    blocks: &mut B,
    changed: &mut Vec<UnitBlocks>,
    unit: Unit,
) -> Result<(), DeviceFault>
    requires { All (λ (by : ChangedBy). All (λ n. n < (B.seen blocks.old).count) by.blocks)
        (map changed_by changed.old.items) }
    ensures due { IsTrue B.tells → (shape : Shape) (owners : Owners) (place : List ℕ)
        → IsSound shape owners (B.seen blocks.old)
        → IsDueTo shape (blocks_of unit (map changed_by changed.old.items)) (B.seen blocks.old)
        place
        → IsDueTo shape (blocks_of unit (map changed_by changed.new.items)) (B.seen blocks.new)
        place }
    ensures taken { OnOk result (blocks_of unit (map changed_by changed.new.items) ≡ []) }
    ensures others { (other : UnitOfRecovery) → same_unit other unit ≡ false
        → blocks_of other (map changed_by changed.new.items)
        ≡ blocks_of other (map changed_by changed.old.items) }
    ensures each { All (λ (by : ChangedBy). All (λ n. n < (B.seen blocks.old).count) by.blocks)
        (map changed_by changed.new.items) }
    ensures same { OnErr result
        (map changed_by changed.new.items ≡ map changed_by changed.old.items) }
    ensures keeps { Keeps B.tells (B.seen blocks.old) (B.seen blocks.new) }
    ensures cause { HasWriteCause (B.faults blocks.old) (B.faults blocks.new) result }
{
    match place_of(changed, unit) {
        Some(at) => force_changed(blocks, &mut changed[at].blocks),
        None => Ok(()),
    }
}
