//! A call of blocks that makes a content stable before it ends.
ghost use Rattle.std.specs.Prelude.{◌≡◌, ◌<◌, IsTrue, length, slice_set, OnOk};
ghost use Rattle.vr_types.specs.Seen.{Only};
ghost use Rattle.vr_types.specs.Blocks.{Puts};
ghost use Rattle.vr_types.specs.Faults.{HasWriteCause};

use crate::blocks::Blocks;
use crate::fault::DeviceFault;

/// Makes the content of block `n` these bytes, which have the size of a block, and forces it: at
/// `Ok` a crash leaves them, and nothing else. The whole counts as one put. `Write` is that of the
/// put or of the force.
pub fn settle<B: Blocks>(blocks: &mut B, n: u32, bytes: &[u8]) -> Result<(), DeviceFault>
    requires block { n < (B.seen blocks.old).count }
    requires whole { length bytes.now ≡ (B.seen blocks.old).size }
    ensures ok { IsTrue B.tells → OnOk result
        (Only (B.seen blocks.new) n (λ block. block ≡ bytes.now)) }
    ensures put { IsTrue B.tells → OnOk result
        ((B.seen blocks.new).cur ≡ slice_set (B.seen blocks.old).cur n bytes.now) }
    ensures after { Puts B.tells n bytes.now (B.seen blocks.old) (B.seen blocks.new) }
    ensures cause { HasWriteCause (B.faults blocks.old) (B.faults blocks.new) result }
{
    blocks.put(n, bytes)?;
    blocks.force(&[n])
}
