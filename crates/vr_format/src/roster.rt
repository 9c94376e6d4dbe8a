//! Writing an entry-sequenced or relative part without records.
ghost use Rattle.std.specs.Prelude.{◌≡◌, IsTrue, length, OnOk};
ghost use Rattle.vr_types.specs.Faults.{CountsWrite};
ghost use Rattle.vr_types.specs.Regions.{Touches};
ghost use Rattle.vr_space.specs.Part.{IsOn, NumberedShape};
ghost use Rattle.vr_space.specs.Rosters.{IsInArea};
ghost use Rattle.vr_mount.specs.Touched.{Anything};
ghost use Rattle.vr_format.specs.Planned.{BeginsEmpty};

use vr_device::BlockDevice;
use vr_seqset::write_roster;
use vr_space::ChainLayout;
use vr_types::Failed;

/// Writes the roster of the first area: no interval of it is used, and no area comes next. The
/// block is a buffer of its size.
pub(crate) fn write_first_roster<D: BlockDevice>(
    device: &mut D,
    layout: &ChainLayout,
    block: &mut [u8],
) -> Result<(), Failed>
    requires on { IsOn (NumberedShape layout.now) (D.seen device.old) }
    requires buffer { length block.old ≡ layout.now.geometry.size }
    ensures begins { IsTrue D.tells → OnOk result
        (BeginsEmpty layout.now (D.seen device.new).cur) }
    ensures after { IsTrue D.tells → Touches (IsInArea layout.now layout.now.first) Anything
        (D.seen device.old) (D.seen device.new) }
    ensures count { (D.seen device.new).count ≡ (D.seen device.old).count }
    ensures size { (D.seen device.new).size ≡ (D.seen device.old).size }
    ensures fault { CountsWrite (D.faults device.old) (D.faults device.new) result }
{
    write_roster(0, layout.part.0, None, layout.geometry.area as u16, block);
    device.write(layout.roster_block(layout.first), block)
}
