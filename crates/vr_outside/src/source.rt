//! Where bytes come from.
ghost use Rattle.std.specs.Prelude.{◌≡◌, ℕ, List, Option, ◌<◌, ◌≤◌, length, take, IfOk, OnErr};
ghost use Rattle.std.specs.Io.KnownBytes.{IsAtEnd};
ghost use Rattle.vr_outside.specs.Told.{Reads};
ghost use Rattle.vr_types.specs.Faults.{CountsFault};

use vr_types::Failed;

/// Where bytes come from.
pub trait Source {
    /// The bytes still to come, where the source reports them.
    ghost left: { Self → Option (List ℕ) };

    /// How often the source has failed. It never falls.
    ghost faults: { Self → ℕ };

    /// Hands out the next bytes, as many as it likes, into the first bytes of `into`, and answers
    /// how many. The other bytes of `into` are unspecified then. An answer of 0 where `into` has
    /// room is the end of the input. `Failed` comes exactly when the count of faults rose in this
    /// call, and then no byte is gone.
    fn read(&mut self, into: &mut [u8]) -> Result<usize, Failed>
        ensures within { IfOk result (λ n. n ≤ length into.new) }
        ensures bytes { IfOk result (λ n. Reads (left self.old) (left self.new) (take n into.new)) }
        ensures end { IfOk result (λ n. n ≡ 0 → 0 < length into.new → IsAtEnd (left self.old)) }
        ensures kept { OnErr result (left self.new ≡ left self.old) }
        ensures cause { CountsFault (faults self.old) (faults self.new) result };
}
