//! Writing a part of one area that has one interval in use.
ghost use Rattle.std.specs.Prelude.{◌≡◌, IsTrue, length, OnOk};
ghost use Rattle.vr_types.specs.Faults.{CountsWrite};
ghost use Rattle.vr_types.specs.Regions.{Touches};
ghost use Rattle.vr_space.specs.AreaCalls.{IsAreaOn};
ghost use Rattle.vr_space.specs.Keyed.{InArea};
ghost use Rattle.vr_space.specs.Part.{KeyedShape, IsOn};
ghost use Rattle.vr_mount.specs.Touched.{Anything};
ghost use Rattle.vr_format.specs.Planned.{HasHead, MayStand, StandsAlone, StandsInFirst};
ghost use Rattle.vr_format.specs.Planned.{content_of, first_area};

use crate::fillers::Fillers;
use crate::head::write_head;
use crate::interval::write_interval;
use vr_catalog::CatEntry;
use vr_device::BlockDevice;
use vr_space::{KeyedLayout, Layout};
use vr_types::Failed;

/// Writes an area whose records are those of these entries, all in interval 0. The block is a
/// buffer of its size.
fn write_area<D: BlockDevice>(
    device: &mut D,
    layout: &Layout,
    entries: &[CatEntry],
    fillers: &Fillers,
    block: &mut [u8],
) -> Result<(), Failed>
    requires part { HasHead layout.now }
    requires on { IsAreaOn layout.now (D.seen device.old) }
    requires records { MayStand layout.now entries.now }
    requires fillers { fillers.now.size ≡ layout.now.size }
    requires buffer { length block.old ≡ layout.now.size }
    ensures stands { IsTrue D.tells → OnOk result (StandsAlone layout.now
        (D.seen device.new).cur (content_of layout.now entries.now)) }
    ensures after { IsTrue D.tells → Touches (InArea layout.now) Anything
        (D.seen device.old) (D.seen device.new) }
    ensures count { (D.seen device.new).count ≡ (D.seen device.old).count }
    ensures size { (D.seen device.new).size ≡ (D.seen device.old).size }
    ensures fault { CountsWrite (D.faults device.old) (D.faults device.new) result }
{
    let key = layout.key as usize;
    write_head(layout, fillers.zeros(key), fillers.highest(key), block);
    device.write(layout.head, block)?;
    write_interval(entries, block);
    device.write(layout.block_of(0), block)?;
    Ok(())
}

/// Writes a part whose records are those of these entries, all in interval 0 of its first area,
/// which is its one area. The block is a buffer of its size.
pub(crate) fn write_part<D: BlockDevice>(
    device: &mut D,
    layout: &KeyedLayout,
    entries: &[CatEntry],
    fillers: &Fillers,
    block: &mut [u8],
) -> Result<(), Failed>
    requires part { HasHead (first_area layout.now) }
    requires on { IsOn (KeyedShape layout.now) (D.seen device.old) }
    requires records { MayStand (first_area layout.now) entries.now }
    requires fillers { fillers.now.size ≡ layout.now.geometry.size }
    requires buffer { length block.old ≡ layout.now.geometry.size }
    ensures stands { IsTrue D.tells → OnOk result (StandsInFirst layout.now
        (D.seen device.new).cur (content_of (first_area layout.now) entries.now)) }
    ensures after { IsTrue D.tells → Touches (InArea (first_area layout.now)) Anything
        (D.seen device.old) (D.seen device.new) }
    ensures count { (D.seen device.new).count ≡ (D.seen device.old).count }
    ensures size { (D.seen device.new).size ≡ (D.seen device.old).size }
    ensures fault { CountsWrite (D.faults device.old) (D.faults device.new) result }
{
    write_area(device, &layout.area(layout.first), entries, fillers, block)
}
