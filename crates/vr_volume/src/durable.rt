//! What a crash leaves of a volume at rest.
ghost use Rattle.std.specs.Prelude.{ℕ, List};
ghost use Rattle.vr_types.specs.Image.{Image};
ghost use Rattle.vr_types.specs.Seen.{Left};
ghost use Rattle.vr_types.specs.declared.geometry.Geometry.{Geometry};
ghost use Rattle.vr_space.specs.Owners.{Owners};
ghost use Rattle.vr_log.specs.LogNow.{LogNow};
ghost use Rattle.vr_history.specs.State.{BeforeImage, State};
ghost use Rattle.vr_volume.specs.Durable.{RecoversState};
ghost use Rattle.vr_volume.specs.Rests.{IsVolumeAtRest};

use vr_types::Blocks;

/// Each image that a crash may leave of a volume at rest recovers to the records of the state; but
/// at a place for which a unit keeps a before-image, to what stood there before the unit. So what an
/// ended unit committed is there after each crash, and what it backed out, withdrawn or not, isn't.
pub fn state_recovers<B: Blocks>(blocks: &B)
    ensures { (geometry : Geometry) (number : ℕ) (owners : Owners) (log : LogNow)
        (images : List BeforeImage) (state : State)
        → IsVolumeAtRest geometry number owners log images state (B.seen blocks.now)
        → (image : Image) → Left (B.seen blocks.now) image
        → RecoversState geometry number state image }
{}
