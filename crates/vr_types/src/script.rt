//! Which calls of a double fail.
ghost use Rattle.std.specs.Prelude.{◌≡◌};
ghost use Rattle.vr_types.specs.Calls.{fails_next, uncalled, counted, stopped};

use std::marker::Model;

/// The calls of a device, source or sink in memory: it counts them, and says which of them fail.
/// The first call has number 0, and those from 2^64 - 1 on share that number.
#[derive(Drop)]
pub struct Script {
    calls: u64,
    failing: Vec<u64>,
    first_stopped: Option<u64>,
}

impl Model for Script {
    ghost use Rattle.vr_types.specs.Calls.{Calls};

    ghost Value = { Calls };

    ghost view = { λ s. record {
      next = s.calls;
      fails = s.failing.items;
      stop = s.first_stopped;
    } };
}

impl Script {
    /// A script in which the calls of these numbers fail, and no call was made.
    pub fn new(failing: Vec<u64>) -> Script
        ensures { result ≡ uncalled failing.items }
    {
        Script {
            calls: 0,
            failing,
            first_stopped: None,
        }
    }

    /// Counts a call, and answers whether it fails.
    pub fn begin(&mut self) -> bool
        ensures fails { result ≡ fails_next self.old }
        ensures counted { self.new ≡ counted self.old }
    {
        let listed = self.failing.contains(&self.calls);
        let past = self.first_stopped.is_some_and(|first| first <= self.calls);
        self.calls = self.calls.saturating_add(1);
        listed || past
    }

    /// Makes every call from that number on fail.
    pub fn stop(&mut self, call: u64)
        ensures { self.new ≡ stopped call self.old }
    {
        self.first_stopped = Some(match self.first_stopped {
            Some(first) => first.min(call),
            None => call,
        });
    }

    /// The number of calls so far, up to 2^64 - 1.
    pub fn made(&self) -> u64
        ensures { result ≡ self.now.next }
    {
        self.calls
    }
}
