//! Writing what a volume begins with: its header and an empty log.
ghost use Rattle.std.specs.Prelude.{◌≡◌, ◌≤◌, IsTrue, length, replicate, OnOk};
ghost use Rattle.vr_types.specs.Faults.{CountsWrite};
ghost use Rattle.vr_types.specs.Geometry.{IsAllowed};
ghost use Rattle.vr_types.specs.Image.{block_at};
ghost use Rattle.vr_types.specs.Regions.{Touches};
ghost use Rattle.vr_log.specs.LogNow.{IsOf};
ghost use Rattle.vr_volume.specs.Header.{header_block};
ghost use Rattle.vr_mount.specs.Touched.{Anything};

use crate::fillers::Fillers;
use crate::header::write_header;
use vr_device::BlockDevice;
use vr_types::{Failed, Geometry};

/// Writes the header, and zeros as the first block of the log. The block is a buffer of its size.
pub(crate) fn write_start<D: BlockDevice>(
    device: &mut D,
    geometry: &Geometry,
    number: u32,
    fillers: &Fillers,
    block: &mut [u8],
) -> Result<(), Failed>
    requires allowed { IsAllowed geometry.now }
    requires shape { IsOf geometry.now (D.seen device.old) }
    requires fillers { fillers.now.size ≡ geometry.now.size }
    requires buffer { length block.old ≡ geometry.now.size }
    ensures header { IsTrue D.tells → OnOk result
        (block_at (D.seen device.new).cur 0 ≡ header_block geometry.now number) }
    ensures log { IsTrue D.tells → OnOk result
        (block_at (D.seen device.new).cur 1 ≡ replicate geometry.now.size 0) }
    ensures after { IsTrue D.tells → Touches (λ n. n ≤ 1) Anything
        (D.seen device.old) (D.seen device.new) }
    ensures shape { IsOf geometry.now (D.seen device.new) }
    ensures fault { CountsWrite (D.faults device.old) (D.faults device.new) result }
{
    write_header(geometry, number, block);
    device.write(0, block)?;
    device.write(1, fillers.zeros(fillers.size))?;
    Ok(())
}
