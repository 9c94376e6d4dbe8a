//! A source in memory.
ghost use Rattle.std.specs.Prelude.{◌≡◌, ◌↔◌, ℕ, ◌<◌, ◌≤◌, Some, length, take, IsErr, IsTrue};
ghost use Rattle.std.specs.Prelude.{IfOk, OnErr};
ghost use Rattle.std.specs.Io.KnownBytes.{IsAtEnd};
ghost use Rattle.vr_types.specs.Calls.{uncalled, fails_next};
ghost use Rattle.vr_types.specs.Count.{shown_of};
ghost use Rattle.vr_types.specs.Faults.{CountsFault};
ghost use Rattle.vr_outside.specs.MemorySource.{HandsOut, FailsReading};
ghost use Rattle.vr_outside.specs.Told.{Reads};

use crate::source::Source;
use crate::steady::SteadySource;
use std::marker::Model;
use vr_types::{Failed, FaultCount, Script};

/// A source of bytes in memory whose calls fail where its script says so, and nowhere else.
#[derive(Drop)]
pub struct MemorySource {
    bytes: SteadySource,
    most: usize,
    script: Script,
    faults: FaultCount,
}

impl Model for MemorySource {
    ghost use Rattle.std.specs.Prelude.{◌<◌};
    ghost use Rattle.vr_outside.specs.MemorySource.{SourceState};

    ghost Value = { SourceState };

    ghost view = { λ source. record {
      left = source.bytes;
      most = source.most;
      calls = source.script;
      faults = source.faults;
    } };

    ghost invariant = { λ source. 0 < source.most };
}

impl MemorySource {
    /// A source of these bytes that fails at the calls of these numbers, the first of which is 0. A
    /// call hands out as much as it has room for.
    pub fn new(bytes: Vec<u8>, failing: Vec<u64>) -> MemorySource
        ensures { result ≡ record {
          left = bytes.items;
          most = usize.MAX;
          calls = uncalled failing.items;
          faults = 0;
        } }
    {
        MemorySource {
            bytes: SteadySource::new(bytes),
            most: usize::MAX,
            script: Script::new(failing),
            faults: FaultCount::new(),
        }
    }

    /// The same source, which hands out at most `most` bytes at a call.
    pub fn in_pieces(self, most: usize) -> MemorySource
        requires { 0 < most }
        ensures { result ≡ record self { most = most } }
    {
        MemorySource { most, ..self }
    }

    /// The bytes still to come.
    pub fn left(&self) -> &[u8]
        ensures { result.now ≡ self.now.left }
    {
        self.bytes.left()
    }

    /// How many calls failed, up to 2^64 - 1.
    pub fn fault_count(&self) -> u64
        ensures { result ≡ shown_of self.now.faults }
    {
        self.faults.shown()
    }
}

impl Source for MemorySource {
    ghost left = { λ source. Some source.left };

    ghost faults = { λ source. source.faults };

    fn read(&mut self, into: &mut [u8]) -> Result<usize, Failed>
        // Which calls fail.
        ensures fails { IsErr result ↔ IsTrue (fails_next self.old.calls) }
        ensures handed { IfOk result (λ n. HandsOut self.old self.new into.old into.new n) }
        ensures failed { OnErr result (FailsReading self.old self.new) }
        ensures untouched { OnErr result (into.new ≡ into.old) }

        // The trait's clauses.
        ensures within { IfOk result (λ n. n ≤ length into.new) }
        ensures bytes { IfOk result (λ n.
            Reads (Some self.old.left) (Some self.new.left) (take n into.new)) }
        ensures end { IfOk result (λ n.
            n ≡ 0 → 0 < length into.new → IsAtEnd (Some self.old.left)) }
        ensures kept { OnErr result (Some self.new.left ≡ Some self.old.left) }
        ensures cause { CountsFault self.old.faults self.new.faults result }
    {
        if self.script.begin() {
            self.faults.raise();
            return Err(Failed);
        }
        Ok(self.bytes.hand_out(into, self.most))
    }
}
