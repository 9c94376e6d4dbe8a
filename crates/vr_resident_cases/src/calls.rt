//! Calls of a cache, and what they answer.

use vr_types::DeviceFault;

/// The number of the device's blocks.
pub const BLOCKS: u32 = 18;

/// The size of a block in bytes.
pub const SIZE: u32 = 2;

/// A call of a cache.
#[derive(Clone, Copy)]
pub enum Call<'a> {
    Get(u32),
    Put(u32, [u8; 2]),
    Force(&'a [u32]),
    Flush(u32),
    Give,
}

/// What a call answers.
#[derive(Clone, Copy, PartialEq, Eq)]
pub enum Reply {
    Bytes([u8; 2]),
    Done,
    Count(u32),
    Fault(DeviceFault),
    /// A block that the device doesn't have was asked for, and no call was made.
    Outside,
}

/// What a call that gives nothing answers.
pub fn reply_of(done: Result<(), DeviceFault>) -> Reply {
    match done {
        Ok(()) => Reply::Done,
        Err(fault) => Reply::Fault(fault),
    }
}
