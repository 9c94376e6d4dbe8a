//! A device, plainly and slowly: what a read gives, and what a crash may leave.

use crate::answers::Answer;
use crate::calls::BLOCKS;
use crate::recorder::DeviceCall;
use std::alloc::{AllocError, Global};

/// What a write did to a block.
#[derive(Clone, Copy)]
struct Write {
    block: u32,
    bytes: [u8; 2],
}

/// The device of a plain cache. A crash leaves in each block what was stable, or one of the writes
/// to it since then, also of those that failed.
#[derive(Drop)]
pub struct PlainDisk {
    seen: Vec<[u8; 2]>,
    stable: Vec<[u8; 2]>,
    writes: Vec<Write>,
    calls: Vec<DeviceCall>,
    fails: Option<u64>,
    stop: u64,
}

impl PlainDisk {
    /// Blocks of zeros. One call may fail, and all fail from a number on.
    pub fn new(alloc: Global, fails: Option<u64>, stop: u64) -> Result<PlainDisk, AllocError> {
        let seen = vec![in alloc; [0; 2]; BLOCKS as usize]?;
        let stable = vec![in alloc; [0; 2]; BLOCKS as usize]?;
        let writes = Vec::new(alloc);
        let calls = Vec::new(alloc);
        Ok(PlainDisk {
            seen,
            stable,
            writes,
            calls,
            fails,
            stop,
        })
    }

    /// The calls so far.
    pub fn calls(&self) -> &[DeviceCall] {
        self.calls.as_slice()
    }

    /// Counts a call, and says whether it fails.
    fn begin(&mut self, call: DeviceCall) -> Result<bool, AllocError> {
        let number = self.calls.len() as u64;
        self.calls.push(call)?;
        Ok(self.fails == Some(number) || number >= self.stop)
    }

    /// What is read of a block. `None` is a fault.
    pub fn read(&mut self, block: u32) -> Result<Option<[u8; 2]>, AllocError> {
        if self.begin(DeviceCall::Read(block))? {
            return Ok(None);
        }
        Ok(self.seen.get(block as usize).copied())
    }

    /// Whether a write succeeds.
    pub fn write(&mut self, block: u32, bytes: [u8; 2]) -> Result<bool, AllocError> {
        let fails = self.begin(DeviceCall::Write(block, bytes))?;
        self.writes.push(Write { block, bytes })?;
        if fails {
            return Ok(false);
        }
        if let Some(seen) = self.seen.get_mut(block as usize) {
            *seen = bytes;
        }
        Ok(true)
    }

    /// Whether a sync succeeds.
    pub fn sync(&mut self) -> Result<bool, AllocError> {
        if self.begin(DeviceCall::Sync)? {
            return Ok(false);
        }
        self.writes.clear();
        self.stable.clear();
        self.stable.extend_from_slice(self.seen.as_slice())?;
        Ok(true)
    }

    /// What a crash may leave of a block, the stable content first, and then each write since.
    pub fn left(&self, into: &mut Vec<[u8; 2]>, block: u32) -> Answer {
        into.clear();
        if let Some(stable) = self.stable.get(block as usize) {
            into.push(*stable)?;
        }
        self.add_writes(into, block)
    }

    fn add_writes(&self, into: &mut Vec<[u8; 2]>, block: u32) -> Answer {
        for write in &self.writes {
            if write.block == block {
                into.push(write.bytes)?;
            }
        }
        Ok(())
    }
}
