//! A buffer for a block of a device.
ghost use Rattle.std.specs.Prelude.{◌≡◌, ◌<◌, IfOk, OnErr, OnOk, length};
ghost use Rattle.vr_types.specs.Blocks.{Keeps};
ghost use Rattle.vr_types.specs.Faults.{CountsRead};

use std::alloc::{AllocError, Global};
use vr_device::BlockDevice;
use vr_types::Failed;

/// A buffer as long as a block: the number of the block that it holds, where it holds one, and its
/// bytes.
#[derive(Drop)]
pub struct Buffer {
    number: Option<u32>,
    pub(crate) bytes: Vec<u8>,
}

impl Buffer {
    ghost use Rattle.vr_recent.specs.Buffers.{HasBlock, IsEmpty, IsOf, forgot, holds};

    /// A buffer of this many bytes, which holds no block.
    pub(crate) fn new(alloc: Global, size: u32) -> Result<Buffer, AllocError>
        ensures { IfOk result (IsEmpty size) }
    {
        let bytes = vec![in alloc; 0; size as usize]?;
        Ok(Buffer {
            number: None,
            bytes,
        })
    }

    /// Whether it holds block `n`.
    pub(crate) fn holds(&self, n: u32) -> bool
        ensures { result ≡ holds n self.now }
    {
        match self.number {
            Some(number) => number == n,
            None => false,
        }
    }

    /// Holds block `n` no longer.
    pub(crate) fn forget(&mut self, n: u32)
        ensures { self.new ≡ forgot n self.old }
    {
        if self.holds(n) {
            self.number = None;
        }
    }

    /// Reads block `n` into it. Where that fails it holds no block.
    pub(crate) fn read<D: BlockDevice>(&mut self, device: &mut D, n: u32) -> Result<(), Failed>
        requires block { n < (D.seen device.old).count }
        requires whole { length self.old.bytes.items ≡ (D.seen device.old).size }
        ensures ok { OnOk result (self.new.number ≡ Some n) }
        ensures err { OnErr result (self.new.number ≡ None) }
        ensures of { IsOf D.tells (D.seen device.new) self.new }
        ensures after { Keeps D.tells (D.seen device.old) (D.seen device.new) }
        ensures fault { CountsRead (D.faults device.old) (D.faults device.new) result }
    {
        self.number = None;
        match device.read(n, &mut self.bytes) {
            Ok(()) => {
                self.number = Some(n);
                Ok(())
            }
            Err(Failed) => Err(Failed),
        }
    }

    /// Fills it with block `n`.
    pub(crate) fn fill(&mut self, n: u32, bytes: &[u8])
        requires { length bytes.now ≡ length self.old.bytes.items }
        ensures { HasBlock n bytes.now self.new }
    {
        self.number = Some(n);
        self.bytes.copy_from_slice(bytes);
    }
}
