//! Why the steps of a job ended before all was done.
ghost use Rattle.std.specs.Prelude.{◌≡◌};
ghost use Rattle.vr_trace.specs.declared.no.RunNo.TheVariants.{Memory};

use vr_types::OutOfMemory;

/// Why the steps of a job ended before all was done.
#[derive(Clone, Copy, PartialEq, Eq)]
pub enum RunNo {
    /// A last stamp reached 2^62, or a deck's units of recovery their last number.
    Stamps,
    /// Memory ran out.
    Memory,
}

impl From<OutOfMemory> for RunNo {
    ghost from_gives = { λ _ no. no ≡ Memory };

    fn from(_error: OutOfMemory) -> RunNo {
        RunNo::Memory
    }
}
