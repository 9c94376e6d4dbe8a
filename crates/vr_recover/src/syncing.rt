//! Making what is read of all blocks stable, as a volume is opened.
ghost use Rattle.std.specs.Prelude.{◌≡◌, ◌<◌, ◌≤◌, ℕ, All, Contains, IsTrue, IfOk, IfErr, OnOk};
ghost use Rattle.vr_types.specs.Blocks.{AllForced, Keeps};
ghost use Rattle.vr_recover.specs.OpenNo.{HasOpenCause, IsSilentNo};

use crate::open_no::OpenNo;
use std::alloc::Global;
use vr_types::{Blocks, OutOfMemory};

/// The numbers of this many blocks.
fn numbers_of(alloc: Global, count: u32) -> Result<Vec<u32>, OutOfMemory>
    ensures below { IfOk result (λ numbers. All (λ n. n < count) numbers.items) }
    ensures all { IfOk result (λ numbers. (n : ℕ) → n < count → Contains numbers.items n) }
{
    let mut numbers = Vec::with_capacity(alloc, count as usize)?;
    for n in 0..count {
        numbers.push(n)?;
    }
    Ok(numbers)
}

/// Forces all blocks, `count` of them: a crash leaves what is read.
pub(crate) fn sync_all<B: Blocks>(alloc: Global, blocks: &mut B, count: u32) -> Result<(), OpenNo>
    requires { (B.seen blocks.old).count ≡ count }
    ensures forced { IsTrue B.tells → OnOk result (AllForced (B.seen blocks.new).count
        (B.seen blocks.new).cur (B.seen blocks.new).may) }
    ensures silent { IfErr result IsSilentNo }
    ensures keeps { Keeps B.tells (B.seen blocks.old) (B.seen blocks.new) }
    ensures cause { HasOpenCause (B.faults blocks.old) (B.faults blocks.new) result }
{
    let numbers = numbers_of(alloc, count)?;
    blocks.force(&numbers)?;
    Ok(())
}
