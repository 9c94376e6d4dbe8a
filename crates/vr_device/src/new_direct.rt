//! How blocks over a device are made.
ghost use Rattle.std.specs.Prelude.{◌≡◌, IfOk, IfErr};

use crate::device::BlockDevice;
use crate::write_through::Direct;
use std::alloc::Global;

/// Makes blocks of a device, each written through at once. It allocates one buffer of the size of a
/// block. `Err` is out of memory for that buffer, and hands the device back.
pub fn direct<D: BlockDevice>(alloc: Global, device: D) -> Result<Direct<D>, D>
    ensures ok { IfOk result (λ blocks. blocks ≡ device) }
    ensures err { IfErr result (λ back. back ≡ device) }
{
    Direct::new(alloc, device)
}
