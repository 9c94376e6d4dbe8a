//! How a device in memory is made.
ghost use Rattle.std.specs.Prelude.{◌≡◌, replicate, IfOk};
ghost use Rattle.vr_device.specs.Past.{unwritten};
ghost use Rattle.vr_device.specs.Memory.{past_in, calls_in};
ghost use Rattle.vr_device.specs.DeviceCalls.{uncalled};

use crate::choice::zero_blocks;
use crate::device_calls::DeviceCalls;
use crate::memory::MemoryDevice;
use crate::past::Past;
use std::alloc::Global;
use vr_types::OutOfMemory;

/// Makes a device of zero blocks of this size in bytes, whose calls of these numbers fail. Out of
/// memory is its one error.
pub fn memory_device(
    alloc: Global,
    size: u32,
    blocks: u32,
    fails: &[u64],
) -> Result<MemoryDevice, OutOfMemory>
    ensures past { IfOk result (λ d.
        past_in d ≡ unwritten size (replicate blocks (replicate size 0))) }
    ensures calls { IfOk result (λ d. calls_in d ≡ uncalled fails.now) }
{
    let start = zero_blocks(alloc, blocks, size)?;
    let failing = fails.to_vec(alloc)?;
    let past = Past::new(alloc, size, start)?;
    MemoryDevice::over(alloc, past, DeviceCalls::new(failing))
}
