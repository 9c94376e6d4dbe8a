//! A source over a std reader.
ghost use Rattle.std.specs.Prelude.{◌≡◌, ℕ, ◌+◌, None, ◌≤◌, length, take, IfOk};
ghost use Rattle.std.specs.Io.KnownBytes.{ReadConsumes};
ghost use Rattle.vr_outside.specs.Told.{Reads};
ghost use Rattle.vr_types.specs.Faults.{CountsFault};
ghost use Rattle.vr_outside.specs.StdPair.{reader_of, source_faults};
ghost use Rattle.vr_types.specs.Count.{shown_of};

use crate::source::Source;
use std::io::Read;
use vr_types::{Failed, FaultCount};

/// A source over a std reader. It doesn't report its bytes. Each `Err` of the reader is a fault, an
/// interrupted read too, and isn't tried again.
#[derive(Drop)]
pub struct StdSource<R> {
    reader: R,
    faults: FaultCount,
}

impl<R> StdSource<R> {
    /// A source over this reader, with no fault yet.
    pub fn new(reader: R) -> StdSource<R>
        ensures reader { reader_of result ≡ reader }
        ensures faults { source_faults result ≡ 0 }
    {
        StdSource {
            reader,
            faults: FaultCount::new(),
        }
    }

    /// The reader, as the last read left it.
    pub fn into_inner(self) -> R
        ensures { result ≡ reader_of self }
    {
        self.reader
    }

    /// How many calls failed, up to 2^64 - 1.
    pub fn fault_count(&self) -> u64
        ensures { result ≡ shown_of (source_faults self.now) }
    {
        self.faults.shown()
    }
}

impl<R: Read> Source for StdSource<R> {
    ghost left = { λ _. None };

    ghost faults = { source_faults };

    fn read(&mut self, into: &mut [u8]) -> Result<usize, Failed>
        // Where the reader below reports its bytes, these come from there.
        ensures reader { ReadConsumes (R.remaining (reader_of self.old))
            (R.remaining (reader_of self.new)) result into.new }

        // A call counts one fault at most.
        ensures once { source_faults self.new ≤ source_faults self.old + 1 }

        // The trait's clauses.
        ensures within { IfOk result (λ n. n ≤ length into.new) }
        ensures bytes { IfOk result (λ n. Reads None None (take n into.new)) }
        ensures cause { CountsFault (source_faults self.old) (source_faults self.new) result }
    {
        match self.reader.read(into) {
            Ok(n) => Ok(n),
            Err(_) => {
                self.faults.raise();
                Err(Failed)
            }
        }
    }
}
