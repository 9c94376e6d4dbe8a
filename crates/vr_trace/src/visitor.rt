//! What records are handed to, one after another.
ghost use Rattle.std.specs.Prelude.{◌≡◌, ℕ, Bool, List, OnOk};

use vr_types::OutOfMemory;

/// What records of a data set are handed to, one after another, in the order of their places, until
/// it is done or there are no more.
pub trait RecordVisitor {
    /// After a record: its place, and its bytes.
    ghost after: { Self → List ℕ → List ℕ → Self };

    /// Whether it takes no more.
    ghost done: { Self → Bool };

    /// Takes a record. Out of memory is its one error.
    fn visit(&mut self, place: &[u8], record: &[u8]) -> Result<(), OutOfMemory>
        ensures { OnOk result (self.new ≡ after self.old place.now record.now) };

    /// Whether it takes no more.
    fn is_done(&self) -> bool
        ensures { result ≡ done self.now };
}
