//! Writing the first area of a key-sequenced part without records.
ghost use Rattle.std.specs.Prelude.{◌≡◌, IsTrue, OnOk, length};
ghost use Rattle.vr_types.specs.BlockSize.{IsBlockSize};
ghost use Rattle.vr_types.specs.Faults.{HasWriteCause};
ghost use Rattle.vr_types.specs.Regions.{Touches};
ghost use Rattle.vr_ci_match.specs.declared.form.Form.TheVariants.{Plain};
ghost use Rattle.vr_ci.specs.Interval.{IsInterval};
ghost use Rattle.vr_space.specs.AreaCalls.{IsAreaOn};
ghost use Rattle.vr_space.specs.Keyed.{InArea};
ghost use Rattle.vr_start.specs.FirstHead.{MayBegin};
ghost use Rattle.vr_part.specs.First.{Anything, HasFirstArea, IsFirstArea, no_records};

use vr_ci::{CiWriter, Form};
use vr_space::Layout;
use vr_start::write_first_head;
use vr_types::{Blocks, DeviceFault};

/// Writes a control interval without records into a block, whatever it held.
fn write_interval(out: &mut [u8])
    requires { IsBlockSize (length out.old) }
    ensures { IsInterval Plain out.new no_records }
{
    CiWriter::begin(Form::Plain, out).end(false);
}

/// Puts the head, and the interval that has all places. The block is a buffer of its size.
fn put_area<B: Blocks>(blocks: &mut B, layout: &Layout, block: &mut [u8]) -> Result<(), DeviceFault>
    requires part { MayBegin layout.now }
    requires on { IsAreaOn layout.now (B.seen blocks.old) }
    requires buffer { length block.old ≡ layout.now.size }
    ensures area { IsTrue B.tells → OnOk result (HasFirstArea layout.now (B.seen blocks.new).cur) }
    ensures touches { IsTrue B.tells → Touches (InArea layout.now) Anything
        (B.seen blocks.old) (B.seen blocks.new) }
    ensures count { (B.seen blocks.new).count ≡ (B.seen blocks.old).count }
    ensures size { (B.seen blocks.new).size ≡ (B.seen blocks.old).size }
    ensures cause { HasWriteCause (B.faults blocks.old) (B.faults blocks.new) result }
{
    write_first_head(layout, block);
    blocks.put(layout.head, block)?;
    write_interval(block);
    blocks.put(layout.block_of(0), block)
}

/// Writes the first area of a part without records, and forces it. The block is a buffer of its
/// size.
pub(crate) fn write_area<B: Blocks>(
    blocks: &mut B,
    layout: &Layout,
    block: &mut [u8],
) -> Result<(), DeviceFault>
    requires part { MayBegin layout.now }
    requires on { IsAreaOn layout.now (B.seen blocks.old) }
    requires buffer { length block.old ≡ layout.now.size }
    ensures area { IsTrue B.tells → OnOk result (IsFirstArea layout.now (B.seen blocks.new)) }
    ensures touches { IsTrue B.tells → Touches (InArea layout.now) Anything
        (B.seen blocks.old) (B.seen blocks.new) }
    ensures count { (B.seen blocks.new).count ≡ (B.seen blocks.old).count }
    ensures size { (B.seen blocks.new).size ≡ (B.seen blocks.old).size }
    ensures cause { HasWriteCause (B.faults blocks.old) (B.faults blocks.new) result }
{
    put_area(blocks, layout, block)?;
    blocks.force(&[layout.head, layout.block_of(0)])
}
