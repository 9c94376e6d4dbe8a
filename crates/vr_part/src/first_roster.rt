//! Writing the first area of an entry-sequenced or relative part without records.
ghost use Rattle.std.specs.Prelude.{◌≡◌, IsTrue, OnOk, length};
ghost use Rattle.vr_types.specs.Faults.{HasWriteCause};
ghost use Rattle.vr_types.specs.Regions.{Touches};
ghost use Rattle.vr_space.specs.Part.{IsOn, NumberedShape};
ghost use Rattle.vr_space.specs.Rosters.{IsInArea};
ghost use Rattle.vr_part.specs.First.{Anything, IsFirstRoster};

use vr_seqset::write_roster;
use vr_space::ChainLayout;
use vr_types::{Blocks, DeviceFault};

/// Writes the roster of the first area, of which no interval is used, and forces it. The block is a
/// buffer of its size.
pub(crate) fn write_first_roster<B: Blocks>(
    blocks: &mut B,
    layout: &ChainLayout,
    block: &mut [u8],
) -> Result<(), DeviceFault>
    requires on { IsOn (NumberedShape layout.now) (B.seen blocks.old) }
    requires buffer { length block.old ≡ layout.now.geometry.size }
    ensures roster { IsTrue B.tells → OnOk result (IsFirstRoster layout.now (B.seen blocks.new)) }
    ensures touches { IsTrue B.tells → Touches (IsInArea layout.now layout.now.first) Anything
        (B.seen blocks.old) (B.seen blocks.new) }
    ensures count { (B.seen blocks.new).count ≡ (B.seen blocks.old).count }
    ensures size { (B.seen blocks.new).size ≡ (B.seen blocks.old).size }
    ensures cause { HasWriteCause (B.faults blocks.old) (B.faults blocks.new) result }
{
    let number = layout.roster_block(layout.first);
    write_roster(0, layout.part.0, None, layout.geometry.area as u16, block);
    blocks.put(number, block)?;
    blocks.force(&[number])
}
