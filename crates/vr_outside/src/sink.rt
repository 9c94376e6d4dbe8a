//! Where bytes go.
ghost use Rattle.std.specs.Prelude.{◌≡◌, ℕ, List, Option, ◌≤◌, length, take, IfOk, OnErr};
ghost use Rattle.vr_outside.specs.Told.{Takes};
ghost use Rattle.vr_outside.specs.Faults.{CountsRefusal};

use vr_types::Failed;

/// Where bytes go.
pub trait Sink {
    /// The bytes that the sink took, where it reports them.
    ghost taken: { Self → Option (List ℕ) };

    /// How often the sink has failed, or took nothing of some bytes. It never falls.
    ghost faults: { Self → ℕ };

    /// Takes the first of these bytes, as many as it likes, and answers how many. An answer of 0
    /// where there were some counts as a fault. `Failed` comes only where the count of faults rose
    /// in this call, and then nothing was taken.
    fn write(&mut self, bytes: &[u8]) -> Result<usize, Failed>
        ensures within { IfOk result (λ n. n ≤ length bytes.now) }
        ensures bytes { IfOk result
            (λ n. Takes (taken self.old) (taken self.new) (take n bytes.now)) }
        ensures kept { OnErr result (taken self.new ≡ taken self.old) }
        ensures cause { CountsRefusal (faults self.old) (faults self.new) bytes.now result };
}
