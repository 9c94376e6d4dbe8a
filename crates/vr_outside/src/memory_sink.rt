//! A sink in memory.
ghost use Rattle.std.specs.Prelude.{◌≡◌, ℕ, ◌+◌, ◌≤◌, [], Some, length, take, IsErr, IsTrue};
ghost use Rattle.std.specs.Prelude.{IfOk, OnErr};
ghost use Rattle.vr_types.specs.Calls.{uncalled, fails_next};
ghost use Rattle.vr_types.specs.Count.{shown_of};
ghost use Rattle.vr_outside.specs.Faults.{CountsRefusal};
ghost use Rattle.vr_outside.specs.MemorySink.{TakesFirst, FailsWriting};
ghost use Rattle.vr_outside.specs.Told.{Takes};

use crate::sink::Sink;
use std::alloc::Global;
use std::marker::Model;
use vr_types::{Failed, FaultCount, Script};

/// A sink in memory that keeps what it takes. Its calls fail where its script says so, take nothing
/// where a second script says so, and also fail where memory runs out, which is counted apart.
#[derive(Drop)]
pub struct MemorySink {
    bytes: Vec<u8>,
    most: usize,
    script: Script,
    idle: Script,
    faults: FaultCount,
    refused: FaultCount,
}

impl Model for MemorySink {
    ghost use Rattle.vr_outside.specs.MemorySink.{SinkState};

    ghost Value = { SinkState };

    ghost view = { λ sink. record {
      taken = sink.bytes.items;
      most = sink.most;
      calls = sink.script;
      idle = sink.idle;
      faults = sink.faults;
      refused = sink.refused;
    } };
}

impl MemorySink {
    /// An empty sink that fails at the calls of these numbers, the first of which is 0, and takes
    /// all bytes at each other. It takes no memory yet.
    pub fn new(alloc: Global, failing: Vec<u64>) -> MemorySink
        ensures { result ≡ record {
          taken = [];
          most = usize.MAX;
          calls = uncalled failing.items;
          idle = uncalled [];
          faults = 0;
          refused = 0;
        } }
    {
        MemorySink {
            bytes: Vec::new(alloc),
            most: usize::MAX,
            script: Script::new(failing),
            idle: Script::new(Vec::new(alloc)),
            faults: FaultCount::new(),
            refused: FaultCount::new(),
        }
    }

    /// The same sink, which takes at most `most` bytes at a call. At 0 no call takes anything.
    pub fn in_pieces(self, most: usize) -> MemorySink
        ensures { result ≡ record self { most = most } }
    {
        MemorySink { most, ..self }
    }

    /// The same sink, which takes nothing at the calls of these numbers, counted from now.
    pub fn taking_none_at(self, idle: Vec<u64>) -> MemorySink
        ensures { result ≡ record self { idle = uncalled idle.items } }
    {
        MemorySink {
            idle: Script::new(idle),
            ..self
        }
    }

    /// The bytes that it took.
    pub fn taken(&self) -> &[u8]
        ensures { result.now ≡ self.now.taken }
    {
        self.bytes.as_slice()
    }

    /// How many calls failed, or took nothing of some bytes, up to 2^64 - 1.
    pub fn fault_count(&self) -> u64
        ensures { result ≡ shown_of self.now.faults }
    {
        self.faults.shown()
    }

    /// How many calls failed since memory ran out, up to 2^64 - 1.
    pub fn refused(&self) -> u64
        ensures { result ≡ shown_of self.now.refused }
    {
        self.refused.shown()
    }
}

impl Sink for MemorySink {
    ghost taken = { λ sink. Some sink.taken };

    ghost faults = { λ sink. sink.faults };

    fn write(&mut self, bytes: &[u8]) -> Result<usize, Failed>
        // A call that is set to fail fails, and any other fails only where memory runs out.
        ensures fails { IsTrue (fails_next self.old.calls) → IsErr result }
        ensures took { IfOk result (λ n. TakesFirst self.old self.new bytes.now n) }
        ensures failed { OnErr result (FailsWriting self.old self.new) }

        // The trait's clauses.
        ensures within { IfOk result (λ n. n ≤ length bytes.now) }
        ensures bytes { IfOk result (λ n.
            Takes (Some self.old.taken) (Some self.new.taken) (take n bytes.now)) }
        ensures kept { OnErr result (Some self.new.taken ≡ Some self.old.taken) }
        ensures cause { CountsRefusal self.old.faults self.new.faults bytes.now result }
    {
        let fails = self.script.begin();
        let takes_none = self.idle.begin();
        if fails {
            self.faults.raise();
            return Err(Failed);
        }
        let n = if takes_none {
            0
        } else {
            self.most.min(bytes.len())
        };
        if self.bytes.extend_from_slice(&bytes[..n]).is_err() {
            self.faults.raise();
            self.refused.raise();
            return Err(Failed);
        }
        if n == 0 && !bytes.is_empty() {
            self.faults.raise();
        }
        Ok(n)
    }
}
