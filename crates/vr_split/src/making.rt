//! The blocks that the stages of a split write, made of those that are read.
ghost use Rattle.std.specs.Prelude.{◌≡◌, ◌<◌, IsTrue, OnOk, length};
ghost use Rattle.vr_types.specs.Image.{block_at};
ghost use Rattle.vr_types.specs.Blocks.{Keeps};
ghost use Rattle.vr_types.specs.Faults.{HasCause};
ghost use Rattle.vr_split.specs.Halves.{MakesUpper, MakesLower, MakesHead};

use crate::halves::write_range;
use crate::head::write_head;
use vr_space::{Layout, entry_for};
use vr_types::{Blocks, DeviceFault};

/// Writes the records of the interval of a cut that are above it.
fn write_upper(layout: &Layout, top: &[u8], cut: &[u8], block: &[u8], out: &mut [u8])
    requires { length out.old ≡ length block.now }
    ensures { MakesUpper layout.now top.now cut.now block.now out.new }
{
    if let Some(found) = entry_for(layout, top, cut) {
        write_range(layout, block, Some(cut), found.high, out);
    }
}

/// Writes the records of the interval of a cut that are in its range.
fn write_lower(layout: &Layout, top: &[u8], cut: &[u8], block: &[u8], out: &mut [u8])
    requires { length out.old ≡ length block.now }
    ensures { MakesLower layout.now top.now cut.now block.now out.new }
{
    if let Some(found) = entry_for(layout, top, cut) {
        write_range(layout, block, found.low, found.high, out);
    }
}

/// The same, under the head that is there.
pub(crate) fn make_upper<B: Blocks>(
    layout: &Layout,
    blocks: &mut B,
    cut: &[u8],
    block: &[u8],
    out: &mut [u8],
) -> Result<(), DeviceFault>
    requires below { layout.now.head < (B.seen blocks.old).count }
    requires whole { length out.old ≡ length block.now }
    ensures made { IsTrue B.tells → OnOk result (MakesUpper layout.now
        (block_at (B.seen blocks.old).cur layout.now.head) cut.now block.now out.new) }
    ensures keeps { Keeps B.tells (B.seen blocks.old) (B.seen blocks.new) }
    ensures cause { HasCause (B.faults blocks.old) (B.faults blocks.new) result }
{
    let top = blocks.get(layout.head)?;
    write_upper(layout, top, cut, block, out);
    Ok(())
}

/// The same, under the head that is there.
pub(crate) fn make_lower<B: Blocks>(
    layout: &Layout,
    blocks: &mut B,
    cut: &[u8],
    block: &[u8],
    out: &mut [u8],
) -> Result<(), DeviceFault>
    requires below { layout.now.head < (B.seen blocks.old).count }
    requires whole { length out.old ≡ length block.now }
    ensures made { IsTrue B.tells → OnOk result (MakesLower layout.now
        (block_at (B.seen blocks.old).cur layout.now.head) cut.now block.now out.new) }
    ensures keeps { Keeps B.tells (B.seen blocks.old) (B.seen blocks.new) }
    ensures cause { HasCause (B.faults blocks.old) (B.faults blocks.new) result }
{
    let top = blocks.get(layout.head)?;
    write_lower(layout, top, cut, block, out);
    Ok(())
}

/// Writes the head that is there with both entries.
pub(crate) fn make_head<B: Blocks>(
    layout: &Layout,
    blocks: &mut B,
    old: u16,
    into: u16,
    cut: &[u8],
    out: &mut [u8],
) -> Result<(), DeviceFault>
    requires below { layout.now.head < (B.seen blocks.old).count }
    requires whole { length out.old ≡ (B.seen blocks.old).size }
    ensures made { IsTrue B.tells → OnOk result (MakesHead layout.now.area
        (block_at (B.seen blocks.old).cur layout.now.head) old into cut.now out.new) }
    ensures keeps { Keeps B.tells (B.seen blocks.old) (B.seen blocks.new) }
    ensures cause { HasCause (B.faults blocks.old) (B.faults blocks.new) result }
{
    let top = blocks.get(layout.head)?;
    write_head(top, layout.area, old, into, cut, out);
    Ok(())
}
