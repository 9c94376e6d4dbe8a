//! A source and a sink that never fail.
ghost use Rattle.std.specs.Prelude.{◌≡◌, ℕ, Option, List, None, Some, ◌<◌, ◌≤◌, ◌++◌, length};
ghost use Rattle.std.specs.Prelude.{take, drop, min, IsOk, IfOk, OnErr};
ghost use Rattle.std.specs.Io.KnownBytes.{IsAtEnd};
ghost use Rattle.vr_outside.specs.Told.{Reads, Takes};
ghost use Rattle.vr_types.specs.Faults.{CountsFault};
ghost use Rattle.vr_outside.specs.Faults.{CountsRefusal};

use crate::sink::Sink;
use crate::source::Source;
use std::marker::Model;
use vr_types::Failed;

/// A source of bytes in memory that never fails. Clauses see the bytes that are left.
#[derive(Drop)]
pub struct SteadySource {
    bytes: Vec<u8>,
    at: usize,
}

impl Model for SteadySource {
    ghost use Rattle.std.specs.Prelude.{ℕ, List, ◌≤◌, length, drop};

    ghost Value = { List ℕ };

    ghost view = { λ source. drop source.at source.bytes.items };

    ghost invariant = { λ source. source.at ≤ length source.bytes.items };
}

impl SteadySource {
    /// A source of these bytes.
    pub fn new(bytes: Vec<u8>) -> SteadySource
        ensures { result ≡ bytes.items }
    {
        SteadySource { bytes, at: 0 }
    }

    /// The bytes still to come.
    pub fn left(&self) -> &[u8]
        ensures { result.now ≡ self.now }
    {
        &self.bytes[self.at..]
    }

    /// Hands out the next bytes into the first bytes of `into`, at most `most` of them, and answers
    /// how many.
    pub fn hand_out(&mut self, into: &mut [u8], most: usize) -> usize
        ensures count { result ≡ min most (min (length into.old) (length self.old)) }
        ensures bytes { into.new ≡ take result self.old ++ drop result into.old }
        ensures left { self.new ≡ drop result self.old }
    {
        let rest = &self.bytes[self.at..];
        let n = most.min(into.len()).min(rest.len());
        into[..n].copy_from_slice(&rest[..n]);
        self.at += n;
        n
    }
}

impl Source for SteadySource {
    ghost left = { λ source. Some source };

    ghost faults = { λ _. 0 };

    fn read(&mut self, into: &mut [u8]) -> Result<usize, Failed>
        ensures never_fails { IsOk result }
        ensures count { IfOk result (λ n. n ≡ min (length into.old) (length self.old)) }
        ensures handed { IfOk result (λ n. into.new ≡ take n self.old ++ drop n into.old) }
        ensures left { IfOk result (λ n. self.new ≡ drop n self.old) }

        // The trait's clauses.
        ensures within { IfOk result (λ n. n ≤ length into.new) }
        ensures bytes { IfOk result (λ n. Reads (Some self.old) (Some self.new) (take n into.new)) }
        ensures end { IfOk result (λ n. n ≡ 0 → 0 < length into.new → IsAtEnd (Some self.old)) }
        ensures kept { OnErr result (self.new ≡ self.old) }
        ensures cause { CountsFault 0 0 result }
    {
        let most = into.len();
        Ok(self.hand_out(into, most))
    }
}

/// A sink that takes everything and never fails. It keeps nothing, since keeping takes memory, and
/// so it doesn't report what it took.
#[derive(Clone, Copy, Default, PartialEq, Eq)]
pub struct SteadySink;

impl Sink for SteadySink {
    ghost taken = { λ _. None };

    ghost faults = { λ _. 0 };

    fn write(&mut self, bytes: &[u8]) -> Result<usize, Failed>
        ensures never_fails { IsOk result }
        ensures all { IfOk result (λ n. n ≡ length bytes.now) }

        // The trait's clauses.
        ensures within { IfOk result (λ n. n ≤ length bytes.now) }
        ensures bytes { IfOk result (λ n. Takes None None (take n bytes.now)) }
        ensures cause { CountsRefusal 0 0 bytes.now result }
    {
        Ok(bytes.len())
    }
}
