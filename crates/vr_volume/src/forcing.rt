//! The blocks that units of recovery changed are forced before a unit ends.
ghost use Rattle.std.specs.Prelude.{◌≡◌, ◌<◌, [], ℕ, List, IsTrue, OnOk, OnErr, All};
ghost use Rattle.vr_types.specs.Blocks.{Keeps};
ghost use Rattle.vr_types.specs.Faults.{HasWriteCause};
ghost use Rattle.vr_types.specs.Moments.{Guards};
ghost use Rattle.vr_types.specs.declared.geometry.Geometry.{Geometry};
ghost use Rattle.vr_types.specs.declared.unit.Unit.{Unit as UnitOfRecovery};
ghost use Rattle.vr_space.specs.Owners.{Owners};
ghost use Rattle.vr_space.specs.Known.{Known};
ghost use Rattle.vr_space.specs.Part.{IsDueTo, IsSound, Shape};
ghost use Rattle.vr_log.specs.LogNow.{LogNow};
ghost use Rattle.vr_history.specs.State.{BeforeImage, State};
ghost use Rattle.vr_volume.specs.Committed.{IsFirmFor, committed_by};
ghost use Rattle.vr_volume.specs.Due.{AreRead, IsDueFor};
ghost use Rattle.vr_volume.specs.Rests.{IsPartAtRest, IsVolumeAtRest};
ghost use Rattle.vr_volume.specs.Safe.{IsSafeImage};

use crate::changing::force_blocks;
use vr_types::{Blocks, DeviceFault};

/// Forces the blocks that were changed, all at once, and takes them out of the list. The volume stays
/// at rest, and what was due to the blocks of the list is due to none. `Write` is the device's, and
/// the list stays.
pub fn force_changed<B: Blocks>(blocks: &mut B, changed: &mut Vec<u32>) -> Result<(), DeviceFault>
    requires { All (λ n. n < (B.seen blocks.old).count) changed.old.items }
    ensures due { IsTrue B.tells → (shape : Shape) (owners : Owners) (place : List ℕ)
        → IsSound shape owners (B.seen blocks.old)
        → IsDueTo shape changed.old.items (B.seen blocks.old) place
        → IsDueTo shape changed.new.items (B.seen blocks.new) place }
    ensures rests { IsTrue B.tells → (geometry : Geometry) (number : ℕ) (owners : Owners)
        (log : LogNow) (images : List BeforeImage) (state : State)
        → IsVolumeAtRest geometry number owners log images state (B.seen blocks.old)
        → Guards (B.seen blocks.old) (B.seen blocks.new)
        (IsSafeImage geometry number owners log (committed_by state))
        × IsVolumeAtRest geometry number owners log images state (B.seen blocks.new) }
    ensures others { IsTrue B.tells → (geometry : Geometry) (owners : Owners)
        (images : List BeforeImage) (state : State) (shape : Shape) (known : Known)
        → IsPartAtRest geometry owners images state shape known (B.seen blocks.old)
        → IsPartAtRest geometry owners images state shape known (B.seen blocks.new) }
    // Nothing is put, so that what is due to other blocks stays due to them.
    ensures keeps { Keeps B.tells (B.seen blocks.old) (B.seen blocks.new) }
    ensures taken { OnOk result (changed.new.items ≡ []) }
    ensures kept { OnErr result (changed.new.items ≡ changed.old.items) }
    ensures cause { HasWriteCause (B.faults blocks.old) (B.faults blocks.new) result }
{
    force_blocks(blocks, changed)?;
    changed.clear();
    Ok(())
}

/// Once no block is due, whatever a crash leaves of the places that a unit changed is what stands
/// there, so that the unit may end.
pub fn forced_is_firm<B: Blocks>(blocks: &B)
    ensures { (geometry : Geometry) (owners : Owners) (log : LogNow) (state : State)
        (unit : UnitOfRecovery)
        → IsDueFor geometry log state unit [] (B.seen blocks.now)
        → AreRead geometry owners state (B.seen blocks.now)
        → IsFirmFor geometry log state unit (B.seen blocks.now) }
{}
