//! Blocks of a part that goes, which are nobody's then.
ghost use Rattle.std.specs.Prelude.{◌≡◌, ◌≢◌, ℕ, List, None};
ghost use Rattle.vr_types.specs.declared.geometry.Geometry.{Geometry};
ghost use Rattle.vr_space.specs.Known.{Known};
ghost use Rattle.vr_space.specs.Owners.{Owners};
ghost use Rattle.vr_space.specs.Part.{Shape, part_no};
ghost use Rattle.vr_log.specs.LogNow.{LogNow};
ghost use Rattle.vr_history.specs.State.{BeforeImage, State};
ghost use Rattle.vr_volume.specs.EntryChange.{IsTakenFrom};
ghost use Rattle.vr_volume.specs.Laid.{shape_by};
ghost use Rattle.vr_volume.specs.Rests.{IsPartAtRest, IsVolumeAtRest};

use vr_types::Blocks;

/// Blocks of a part that isn't laid may be nobody's any more: the volume stays at rest, and so does
/// each other part of it.
pub fn owners_shrink<B: Blocks>(blocks: &B)
    ensures rests { (geometry : Geometry) (number : ℕ) (owners shrunk : Owners) (log : LogNow)
        (images : List BeforeImage) (state : State) (part : ℕ)
        → IsVolumeAtRest geometry number owners log images state (B.seen blocks.now)
        → shape_by geometry (state.contents 0) part ≡ None → IsTakenFrom part owners shrunk
        → IsVolumeAtRest geometry number shrunk log images state (B.seen blocks.now) }
    ensures parts { (geometry : Geometry) (owners shrunk : Owners) (images : List BeforeImage)
        (state : State) (shape : Shape) (known : Known) (part : ℕ)
        → IsPartAtRest geometry owners images state shape known (B.seen blocks.now)
        → (part_no shape).0 ≢ part → IsTakenFrom part owners shrunk
        → IsPartAtRest geometry shrunk images state shape known (B.seen blocks.now) }
{}
