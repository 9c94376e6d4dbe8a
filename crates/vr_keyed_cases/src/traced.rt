//! The blocks that the part is on: a device in memory, each call of which is noted.
ghost use Rattle.std.specs.Prelude.{◌≡◌, IfOk};

use std::alloc::Global;
use std::fmt::Write;
use std::marker::Model;
use vr_device::{BlockDevice, MemoryDevice};
use vr_types::{Blocks, DeviceFault, FaultCount, OutOfMemory};

/// How many blocks a volume of the cases has at most.
pub const MOST_BLOCKS: u32 = 26;

/// Blocks of 512 bytes over a device in memory, each written through at once. A call of the device
/// is noted: `r1` a read of its block 1, `w1` a write of it, `s` a sync. These blocks report no
/// content, so that lines may ask for any calls in any order. They say that there are as many as a
/// volume has at most; those that the device hasn't can't be read or written.
#[derive(Drop)]
pub struct Traced {
    device: MemoryDevice,
    /// Which of the blocks is the device's first.
    base: u32,
    block: Vec<u8>,
    notes: String,
    reads_failed: FaultCount,
    writes_failed: FaultCount,
}

impl Model for Traced {
    ghost use Rattle.std.specs.Prelude.{◌≡◌, length};
    ghost use Rattle.vr_types.specs.Faults.{Faults};

    ghost Value = { Faults };

    ghost view = { λ t. record { reads = t.reads_failed; writes = t.writes_failed } };

    ghost invariant = { λ t. length t.block.items ≡ 512 };
}

impl Traced {
    /// Blocks over a device, whose first block is the one of this number.
    pub fn over(alloc: Global, device: MemoryDevice, base: u32) -> Result<Traced, OutOfMemory> {
        let block = vec![in alloc; 0; 512]?;
        Ok(Traced {
            device,
            base,
            block,
            notes: String::new(alloc),
            reads_failed: FaultCount::new(),
            writes_failed: FaultCount::new(),
        })
    }

    /// The device.
    pub fn device(&self) -> &MemoryDevice {
        &self.device
    }

    /// Makes every call of the device fail, after this many more.
    pub fn stop_after(&mut self, calls: u64) {
        let call = self.device.calls().saturating_add(calls);
        self.device.stop(call);
    }

    /// The calls of the device since the notes were cleared.
    pub fn notes(&self) -> &str {
        self.notes.as_str()
    }

    /// Clears the notes.
    pub fn clear_notes(&mut self) {
        self.notes.clear();
    }

    /// Notes a call. Where memory runs out the note is missing, and the line differs.
    fn note(&mut self, call: &str)
        ensures { self.new ≡ self.old }
    {
        let _ = self.notes.push_str(call);
    }

    /// Notes a call of a block.
    fn note_block(&mut self, call: &str, n: u32)
        ensures { self.new ≡ self.old }
    {
        self.note(call);
        let _ = write!(self.notes, "{n}");
    }

    /// The number of a block on the device; one that the device hasn't, where it comes before the
    /// first.
    fn on_device(&self, n: u32) -> u32 {
        n.wrapping_sub(self.base)
    }

    /// Reads a block of the device into the buffer: whether that succeeds.
    fn read(&mut self, n: u32) -> bool
        ensures { self.new ≡ self.old }
    {
        n < self.device.blocks()
            && self.device.size() == 512
            && self.device.read(n, &mut self.block).is_ok()
    }

    /// Writes a block of the device: whether that succeeds.
    fn write(&mut self, n: u32, bytes: &[u8]) -> bool
        ensures { self.new ≡ self.old }
    {
        n < self.device.blocks()
            && self.device.size() as usize == bytes.len()
            && self.device.write(n, bytes).is_ok()
    }
}

impl Blocks for Traced {
    ghost use Rattle.std.specs.Prelude.{false};
    ghost use Rattle.vr_device.specs.Untold.{unseen, not_told};

    ghost tells = { false };

    ghost seen = { λ t. unseen 26 512 };

    ghost faults = { λ t. t };

    ghost cur_may = { λ t told. absurd (not_told told) };

    ghost images_may = { λ t image told. absurd (not_told told) };

    ghost some_image = { λ t moment told. absurd (not_told told) };

    ghost sized = { λ t n block told. absurd (not_told told) };

    fn get(&mut self, n: u32) -> Result<&[u8], DeviceFault> {
        let n = self.on_device(n);
        self.note_block(" r", n);
        if self.read(n) {
            Ok(self.block.as_slice())
        } else {
            self.reads_failed.raise();
            Err(DeviceFault::Read)
        }
    }

    fn put(&mut self, n: u32, bytes: &[u8]) -> Result<(), DeviceFault> {
        let n = self.on_device(n);
        self.note_block(" w", n);
        if self.write(n, bytes) {
            Ok(())
        } else {
            self.writes_failed.raise();
            Err(DeviceFault::Write)
        }
    }

    fn force(&mut self, _list: &[u32]) -> Result<(), DeviceFault> {
        self.note(" s");
        if self.device.sync().is_ok() {
            Ok(())
        } else {
            self.writes_failed.raise();
            Err(DeviceFault::Write)
        }
    }
}
