//! Which calls of a device in memory fail, and what it counts.
ghost use Rattle.std.specs.Prelude.{◌≡◌, ◌↔◌, IsTrue};
ghost use Rattle.vr_types.specs.Count.{shown_of};
ghost use Rattle.vr_device.specs.DeviceCalls.{
  IsToFail,
  uncalled,
  counted,
  read_failed,
  write_failed,
  write_refused,
  stopped,
};

use std::marker::Model;
use vr_types::{FaultCount, Script};

/// The calls of a device in memory. A clause sees what it counts and which calls it fails.
#[derive(Drop)]
pub(crate) struct DeviceCalls {
    script: Script,
    memory_faults: FaultCount,
    reads: FaultCount,
    writes: FaultCount,
}

impl Model for DeviceCalls {
    ghost use Rattle.vr_device.specs.DeviceCalls.{DeviceCalls};

    ghost Value = { DeviceCalls };

    ghost view = { λ c. record {
      script = c.script;
      refused = c.memory_faults;
      read_faults = c.reads;
      write_faults = c.writes;
    } };
}

impl DeviceCalls {
    /// No call was made, and those of these numbers fail.
    pub(crate) fn new(failing: Vec<u64>) -> Self
        ensures { result ≡ uncalled failing.items }
    {
        DeviceCalls {
            script: Script::new(failing),
            memory_faults: FaultCount::new(),
            reads: FaultCount::new(),
            writes: FaultCount::new(),
        }
    }

    /// Counts a call, and answers whether it fails.
    pub(crate) fn begin(&mut self) -> bool
        ensures fails { IsTrue result ↔ IsToFail self.old }
        ensures counted { self.new ≡ counted self.old }
    {
        self.script.begin()
    }

    /// Counts a read that failed.
    pub(crate) fn fail_read(&mut self)
        ensures { self.new ≡ read_failed self.old }
    {
        self.reads.raise();
    }

    /// Counts a write or a sync that was set to fail.
    pub(crate) fn fail_write(&mut self)
        ensures { self.new ≡ write_failed self.old }
    {
        self.writes.raise();
    }

    /// Counts a write or a sync that failed out of memory.
    pub(crate) fn refuse(&mut self)
        ensures { self.new ≡ write_refused self.old }
    {
        self.writes.raise();
        self.memory_faults.raise();
    }

    /// Makes every call from that number on fail.
    pub(crate) fn stop(&mut self, call: u64)
        ensures { self.new ≡ stopped call self.old }
    {
        self.script.stop(call);
    }

    /// The number of calls so far, up to 2^64 - 1.
    pub(crate) fn made(&self) -> u64
        ensures { result ≡ self.now.script.next }
    {
        self.script.made()
    }

    /// How many writes and syncs failed out of memory, up to 2^64 - 1.
    pub(crate) fn refused(&self) -> u64
        ensures { result ≡ shown_of self.now.refused }
    {
        self.memory_faults.shown()
    }
}
