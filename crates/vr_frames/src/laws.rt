//! The law that the pool keeps.
ghost use Rattle.std.specs.Prelude.{◌≡◌, ℕ};
ghost use Rattle.vr_frames.specs.Rule.{PoolState, IsPoolState, HoldsIn};

/// Two seats never hold one frame: in each state of a pool that meets the rule, two seats that
/// hold the frame are one seat.
pub fn one_holder()
    ensures { (size : ℕ) (state : PoolState) (one other frame : ℕ)
        → IsPoolState size state
        → HoldsIn state one frame → HoldsIn state other frame → one ≡ other }
{}
