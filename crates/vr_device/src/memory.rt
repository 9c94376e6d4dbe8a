//! A device in memory, which reports all its content.
ghost use Rattle.vr_device.specs.Sizes.{IsSized};

use crate::device::BlockDevice;
use crate::device_calls::DeviceCalls;
use crate::image_no::ImageNo;
use crate::past::Past;
use std::alloc::Global;
use vr_types::{Failed, OutOfMemory};

/// A device in memory. It keeps each write and each sync, from which it reports what a crash at
/// every moment may leave, so its memory grows with what is written. A call fails where its number,
/// counted from 0, is among those that it was made with, and from the number of `stop` on. Apart
/// from that a write or a sync fails only when it is out of memory to keep the event. The calls
/// from 2^64 - 1 on share that number.
#[derive(Drop)]
pub struct MemoryDevice {
    /// In a box, so that a program that holds devices by value drops each by one call.
    held: Box<Held>,
    ghost sized: { IsSized held.value.past },
}

/// What a device in memory holds.
#[derive(Drop)]
pub(crate) struct Held {
    past: Past,
    calls: DeviceCalls,
}

impl BlockDevice for MemoryDevice {
    ghost use Rattle.std.specs.Prelude.{◌≡◌, ◌<◌, ◌⊎◌, ◌↔◌, length, true, IsErr, OnOk, OnErr};
    ghost use Rattle.vr_types.specs.Image.{block_at};
    ghost use Rattle.vr_device.specs.Past.{disk_of, seen_of, wrote, forced, with_event};
    ghost use Rattle.vr_device.specs.DeviceCalls.{IsToFail, counted, read_failed, faults_of};
    ghost use Rattle.vr_device.specs.Memory.{
      past_in,
      calls_in,
      IsFailedWrite,
      IsFailedSync,
      IsRefused,
    };
    ghost use Rattle.vr_device.specs.Readable.{images-now, readable-of, read-image};

    ghost tells = { true };

    ghost seen = { λ d. seen_of (past_in d) };

    ghost faults = { λ d. faults_of (calls_in d) };

    ghost cur_may = { λ d told. readable-of (past_in d) };

    ghost images_may = { λ d image told left. images-now (past_in d) image left };

    ghost some_image = { λ d t told past. (_, read-image (past_in d) t) };

    ghost sized = { λ d n block told below may. d.sized.whole n block below may };

    fn blocks(&self) -> u32 {
        self.held.past.count()
    }

    fn size(&self) -> u32 {
        self.held.past.size()
    }

    fn read(&mut self, n: u32, into: &mut [u8]) -> Result<(), Failed>
        requires block { n < length (past_in self.old).start }
        requires whole { length into.old ≡ (past_in self.old).size }
        ensures fails { IsErr result ↔ IsToFail (calls_in self.old) }
        ensures past { past_in self.new ≡ past_in self.old }
        ensures bytes { OnOk result (into.new ≡ block_at (disk_of (past_in self.old)).seen n) }
        ensures ok { OnOk result (calls_in self.new ≡ counted (calls_in self.old)) }
        ensures err { OnErr result (calls_in self.new ≡ read_failed (counted (calls_in self.old))) }
    {
        if self.held.calls.begin() {
            self.held.calls.fail_read();
            return Err(Failed);
        }
        self.held.past.read(n, into);
        Ok(())
    }

    fn write(&mut self, n: u32, from: &[u8]) -> Result<(), Failed>
        requires block { n < length (past_in self.old).start }
        requires whole { length from.now ≡ (past_in self.old).size }
        ensures fails { IsToFail (calls_in self.old) → IsErr result }
        ensures ok { OnOk result
            (past_in self.new ≡ with_event (past_in self.old) (wrote n from.now)) }
        ensures counted { OnOk result (calls_in self.new ≡ counted (calls_in self.old)) }
        ensures err { OnErr result
            (IsFailedWrite self.old self.new n from.now ⊎ IsRefused self.old self.new) }
    {
        if self.held.calls.begin() {
            return Err(self.fail_write(n, from));
        }
        match self.held.past.write(n, from) {
            Ok(()) => Ok(()),
            Err(OutOfMemory) => {
                self.held.calls.refuse();
                Err(Failed)
            }
        }
    }

    fn sync(&mut self) -> Result<(), Failed>
        ensures fails { IsToFail (calls_in self.old) → IsErr result }
        ensures ok { OnOk result (past_in self.new ≡ with_event (past_in self.old) forced) }
        ensures counted { OnOk result (calls_in self.new ≡ counted (calls_in self.old)) }
        ensures scripted { IsToFail (calls_in self.old) → IsFailedSync self.old self.new }
        ensures err { OnErr result (IsFailedSync self.old self.new ⊎ IsRefused self.old self.new) }
    {
        if self.held.calls.begin() {
            self.held.calls.fail_write();
            return Err(Failed);
        }
        match self.held.past.sync() {
            Ok(()) => Ok(()),
            Err(OutOfMemory) => {
                self.held.calls.refuse();
                Err(Failed)
            }
        }
    }
}

impl MemoryDevice {
    ghost use Rattle.std.specs.Prelude.{◌≡◌, ◌<◌, ◌⊎◌, ◌↔◌, [], ℕ, length, Err, IfOk};
    ghost use Rattle.vr_types.specs.Count.{shown_of};
    ghost use Rattle.vr_device.specs.Disk.{IsMisfit, IsChosen};
    ghost use Rattle.vr_device.specs.Past.{disk_of, failed, with_event, unwritten};
    ghost use Rattle.vr_device.specs.DeviceCalls.{uncalled, write_failed, write_refused, stopped};
    ghost use Rattle.vr_device.specs.Memory.{past_in, calls_in};

    /// A device of this past, to which these calls are made.
    pub(crate) fn over(
        alloc: Global,
        past: Past,
        calls: DeviceCalls,
    ) -> Result<MemoryDevice, OutOfMemory>
        requires { IsSized past }
        ensures past { IfOk result (λ d. past_in d ≡ past) }
        ensures calls { IfOk result (λ d. calls_in d ≡ calls) }
    {
        match Box::new(alloc, Held { past, calls }) {
            Ok(held) => Ok(MemoryDevice { held }),
            Err(_) => Err(OutOfMemory),
        }
    }

    /// Makes every call from that number on fail.
    pub fn stop(&mut self, call: u64)
        ensures past { past_in self.new ≡ past_in self.old }
        ensures calls { calls_in self.new ≡ stopped call (calls_in self.old) }
    {
        self.held.calls.stop(call);
    }

    /// The number of reads, writes and syncs so far, those that failed among them, up to 2^64 - 1.
    pub fn calls(&self) -> u64
        ensures { result ≡ (calls_in self.now).script.next }
    {
        self.held.calls.made()
    }

    /// The number of writes and syncs that failed out of memory, up to 2^64 - 1.
    pub fn refused(&self) -> u64
        ensures { result ≡ shown_of (calls_in self.now).refused }
    {
        self.held.calls.refused()
    }

    /// The device that a crash leaves now, when each block holds the content of its list that the
    /// choice names. The list of a block has its stable content at 0, and then what was written to
    /// it since the last sync that succeeded, by failed writes too, the oldest first. No call of
    /// that device fails.
    pub fn image(&self, alloc: Global, choice: &[u32]) -> Result<MemoryDevice, ImageNo>
        ensures misfit { (block : ℕ) → (result ≡ Err (ImageNo.Choice block))
            ↔ IsMisfit (length (past_in self.now).start) (disk_of (past_in self.now))
            choice.now block }
        ensures chosen { IfOk result (λ d.
            IsChosen (length (past_in self.now).start) (disk_of (past_in self.now))
            choice.now (past_in d).start) }
        ensures past { IfOk result (λ d.
            past_in d ≡ unwritten (past_in self.now).size (past_in d).start) }
        ensures calls { IfOk result (λ d. calls_in d ≡ uncalled []) }
    {
        if let Some(block) = self.held.past.misfit(choice) {
            return Err(ImageNo::Choice { block });
        }
        let size = self.held.past.size();
        let start = self.held.past.chosen(alloc, choice)?;
        let past = Past::new(alloc, size, start)?;
        Ok(MemoryDevice::over(alloc, past, DeviceCalls::new(Vec::new(alloc)))?)
    }

    /// A write that fails: its bytes join what a crash may leave, if there is memory for them.
    fn fail_write(&mut self, n: u32, from: &[u8]) -> Failed
        requires block { n < length (past_in self.old).start }
        requires whole { length from.now ≡ (past_in self.old).size }
        ensures { ((past_in self.new ≡ with_event (past_in self.old) (failed n from.now))
            × (calls_in self.new ≡ write_failed (calls_in self.old)))
            ⊎ ((past_in self.new ≡ past_in self.old)
            × (calls_in self.new ≡ write_refused (calls_in self.old))) }
    {
        match self.held.past.fail(n, from) {
            Ok(()) => self.held.calls.fail_write(),
            Err(OutOfMemory) => self.held.calls.refuse(),
        }
        Failed
    }
}
