//! A sink over a std writer.
ghost use Rattle.std.specs.Prelude.{◌≡◌, ℕ, ◌+◌, None, ◌≤◌, length, take, IfOk};
ghost use Rattle.std.specs.Io.KnownBytes.{WriteAppends};
ghost use Rattle.vr_outside.specs.Told.{Takes};
ghost use Rattle.vr_outside.specs.Faults.{CountsRefusal};
ghost use Rattle.vr_outside.specs.StdPair.{writer_of, sink_faults};
ghost use Rattle.vr_types.specs.Count.{shown_of};

use crate::sink::Sink;
use std::io::Write;
use vr_types::{Failed, FaultCount};

/// A sink over a std writer. It doesn't report its bytes. Each `Err` of the writer is a fault, an
/// interrupted write too, and isn't tried again. An answer of 0 where there were bytes is a fault
/// as well.
#[derive(Drop)]
pub struct StdSink<W> {
    writer: W,
    faults: FaultCount,
}

impl<W> StdSink<W> {
    /// A sink over this writer, with no fault yet.
    pub fn new(writer: W) -> StdSink<W>
        ensures writer { writer_of result ≡ writer }
        ensures faults { sink_faults result ≡ 0 }
    {
        StdSink {
            writer,
            faults: FaultCount::new(),
        }
    }

    /// The writer, with what it took. Nothing is flushed.
    pub fn into_inner(self) -> W
        ensures { result ≡ writer_of self }
    {
        self.writer
    }

    /// How many calls failed or took nothing of some bytes, up to 2^64 - 1.
    pub fn fault_count(&self) -> u64
        ensures { result ≡ shown_of (sink_faults self.now) }
    {
        self.faults.shown()
    }
}

impl<W: Write> Sink for StdSink<W> {
    ghost taken = { λ _. None };

    ghost faults = { sink_faults };

    fn write(&mut self, bytes: &[u8]) -> Result<usize, Failed>
        // Where the writer below reports its bytes, these go there.
        ensures writer { WriteAppends (W.contents (writer_of self.old))
            (W.contents (writer_of self.new)) result bytes.now }

        // A call counts one fault at most.
        ensures once { sink_faults self.new ≤ sink_faults self.old + 1 }

        // The trait's clauses.
        ensures within { IfOk result (λ n. n ≤ length bytes.now) }
        ensures bytes { IfOk result (λ n. Takes None None (take n bytes.now)) }
        ensures cause { CountsRefusal (sink_faults self.old)
            (sink_faults self.new) bytes.now result }
    {
        match self.writer.write(bytes) {
            Ok(n) => {
                if n == 0 && !bytes.is_empty() {
                    self.faults.raise();
                }
                Ok(n)
            }
            Err(_) => {
                self.faults.raise();
                Err(Failed)
            }
        }
    }
}
