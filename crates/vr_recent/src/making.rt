//! How the blocks of a device are made ones of which some are kept.
ghost use Rattle.std.specs.Prelude.{◌≡◌, All, IfErr, IfOk, length};
ghost use Rattle.vr_recent.specs.Buffers.{IsEmpty};

use crate::buffer::Buffer;
use crate::written_through::Recent;
use std::alloc::{AllocError, Global};
use vr_device::BlockDevice;

/// How many blocks are kept at most.
pub const KEPT: usize = 16;

/// Sixteen buffers that hold no block.
#[tactic(auto, using(crate::proofs::Buffers::empty_push))]
fn buffers(alloc: Global, size: u32) -> Result<Vec<Buffer>, AllocError>
    ensures count { IfOk result (λ buffers. length buffers.items ≡ KEPT) }
    ensures empty { IfOk result (λ buffers. All (IsEmpty size) buffers.items) }
{
    let mut buffers = Vec::with_capacity(alloc, KEPT)?;
    for _made in 0..KEPT {
        let buffer = Buffer::new(alloc, size)?;
        buffers.push(buffer)?;
    }
    Ok(buffers)
}

/// Makes blocks of a device, each written through at once, of which the 16 that were used last are
/// kept. It allocates a buffer of the size of a block for each of those; no later call allocates.
/// `Err` is out of memory for the buffers, and hands the device back.
pub fn recent<D: BlockDevice>(alloc: Global, device: D) -> Result<Recent<D>, D>
    ensures ok { IfOk result (λ blocks. blocks ≡ device) }
    ensures err { IfErr result (λ back. back ≡ device) }
{
    match buffers(alloc, device.size()) {
        Ok(buffers) => Ok(Recent::over(device, buffers)),
        Err(_) => Err(device),
    }
}
