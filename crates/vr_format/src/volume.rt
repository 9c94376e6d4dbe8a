//! Writing a whole volume.
ghost use Rattle.std.specs.Prelude.{◌≡◌, ◌+◌, ℕ, IsTrue, length, OnOk};
ghost use Rattle.vr_types.specs.Blocks.{AllForced};
ghost use Rattle.vr_types.specs.Faults.{CountsWrite};
ghost use Rattle.vr_types.specs.Geometry.{IsAllowed};
ghost use Rattle.vr_types.specs.Regions.{Touches};
ghost use Rattle.vr_log.specs.LogNow.{IsOf};
ghost use Rattle.vr_mount.specs.Touched.{Anything};
ghost use Rattle.vr_format.specs.Formatted.{IsFormatted, IsWritten};
ghost use Rattle.vr_format.specs.Planned.{ArePlanned};

use crate::clusters::write_clusters;
use crate::fillers::Fillers;
use crate::part::write_part;
use crate::start::write_start;
use vr_catalog::CatEntry;
use vr_device::BlockDevice;
use vr_mount::catalog_layout;
use vr_types::{Failed, Geometry};

/// Writes the header, the log, the catalog and the clusters.
fn write_blocks<D: BlockDevice>(
    device: &mut D,
    geometry: &Geometry,
    number: u32,
    entries: &[CatEntry],
    clusters: &[CatEntry],
    fillers: &Fillers,
    block: &mut [u8],
) -> Result<(), Failed>
    requires allowed { IsAllowed geometry.now }
    requires shape { IsOf geometry.now (D.seen device.old) }
    requires planned { ArePlanned geometry.now entries.now clusters.now }
    requires fillers { fillers.now.size ≡ geometry.now.size }
    requires buffer { length block.old ≡ geometry.now.size }
    ensures formatted { IsTrue D.tells → OnOk result
        (IsFormatted geometry.now number entries.now (D.seen device.new).cur) }
    ensures after { IsTrue D.tells → Touches (IsWritten geometry.now (length clusters.now))
        Anything (D.seen device.old) (D.seen device.new) }
    ensures shape { IsOf geometry.now (D.seen device.new) }
    ensures fault { CountsWrite (D.faults device.old) (D.faults device.new) result }
{
    write_start(device, geometry, number, fillers, block)?;
    let layout = catalog_layout(geometry);
    write_part(device, &layout, entries, fillers, block)?;
    write_clusters(device, geometry, clusters, fillers, block)
}

/// Writes a volume with this catalog and these clusters, and syncs the device.
pub(crate) fn write_volume<D: BlockDevice>(
    device: &mut D,
    geometry: &Geometry,
    number: u32,
    entries: &[CatEntry],
    clusters: &[CatEntry],
    fillers: &Fillers,
    block: &mut [u8],
) -> Result<(), Failed>
    requires allowed { IsAllowed geometry.now }
    requires shape { IsOf geometry.now (D.seen device.old) }
    requires planned { ArePlanned geometry.now entries.now clusters.now }
    requires fillers { fillers.now.size ≡ geometry.now.size }
    requires buffer { length block.old ≡ geometry.now.size }
    ensures formatted { IsTrue D.tells → OnOk result
        (IsFormatted geometry.now number entries.now (D.seen device.new).cur) }
    ensures stable { IsTrue D.tells → OnOk result (AllForced (D.seen device.old).count
        (D.seen device.new).cur (D.seen device.new).may) }
    ensures after { IsTrue D.tells → Touches (IsWritten geometry.now (length clusters.now))
        Anything (D.seen device.old) (D.seen device.new) }
    ensures shape { IsOf geometry.now (D.seen device.new) }
    ensures fault { CountsWrite (D.faults device.old) (D.faults device.new) result }
{
    write_blocks(device, geometry, number, entries, clusters, fillers, block)?;
    device.sync()
}
