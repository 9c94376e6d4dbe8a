//! Writing the clusters of a volume, without records.
ghost use Rattle.std.specs.Prelude.{◌≡◌, ◌+◌, ◌<◌, ℕ, IsTrue, length, All, OnOk};
ghost use Rattle.std.specs.Prelude.{slice_get, Some};
ghost use Rattle.vr_types.specs.Faults.{CountsWrite};
ghost use Rattle.vr_types.specs.Geometry.{IsAllowed, area_count};
ghost use Rattle.vr_types.specs.Regions.{Touches};
ghost use Rattle.vr_catalog.specs.declared.entry.CatEntry.{CatEntry as Entry};
ghost use Rattle.vr_log.specs.LogNow.{IsOf};
ghost use Rattle.vr_mount.specs.Touched.{Anything};
ghost use Rattle.vr_format.specs.Planned.{AreNew, InAreaAt, InClusters, IsCluster, IsNew};

use crate::fillers::Fillers;
use crate::part::write_part;
use crate::roster::write_first_roster;
use vr_attach::{chain_layout_of, layout_of};
use vr_catalog::CatEntry;
use vr_device::BlockDevice;
use vr_types::{Failed, Geometry, Kind};

/// Writes a cluster without records in an area.
fn write_cluster<D: BlockDevice>(
    device: &mut D,
    geometry: &Geometry,
    area: u32,
    entry: &CatEntry,
    fillers: &Fillers,
    block: &mut [u8],
) -> Result<(), Failed>
    requires allowed { IsAllowed geometry.now }
    requires shape { IsOf geometry.now (D.seen device.old) }
    requires area { area < area_count geometry.now }
    requires cluster { IsCluster geometry.now entry.now }
    requires fillers { fillers.now.size ≡ geometry.now.size }
    requires buffer { length block.old ≡ geometry.now.size }
    ensures new { IsTrue D.tells → OnOk result
        (IsNew geometry.now area entry.now (D.seen device.new).cur) }
    ensures after { IsTrue D.tells → Touches (InAreaAt geometry.now area) Anything
        (D.seen device.old) (D.seen device.new) }
    ensures shape { IsOf geometry.now (D.seen device.new) }
    ensures fault { CountsWrite (D.faults device.old) (D.faults device.new) result }
{
    let Some(definition) = entry.cluster_definition() else {
        return Ok(());
    };
    match definition.kind {
        Kind::Keyed => {
            let layout = layout_of(*geometry, entry.part, area, &definition);
            write_part(device, &layout, &[], fillers, block)
        }
        Kind::Entry | Kind::Relative => {
            let layout = chain_layout_of(*geometry, entry.part, area, &definition);
            write_first_roster(device, &layout, block)
        }
    }
}

/// Writes each cluster without records, the first in area 1 and each other in the next area.
pub(crate) fn write_clusters<D: BlockDevice>(
    device: &mut D,
    geometry: &Geometry,
    clusters: &[CatEntry],
    fillers: &Fillers,
    block: &mut [u8],
) -> Result<(), Failed>
    requires allowed { IsAllowed geometry.now }
    requires shape { IsOf geometry.now (D.seen device.old) }
    requires areas { length clusters.now < area_count geometry.now }
    requires clusters { All (IsCluster geometry.now) clusters.now }
    requires fillers { fillers.now.size ≡ geometry.now.size }
    requires buffer { length block.old ≡ geometry.now.size }
    ensures new { IsTrue D.tells → OnOk result (AreNew geometry.now clusters.now
        (length clusters.now) (D.seen device.new).cur) }
    ensures after { IsTrue D.tells → Touches (InClusters geometry.now (length clusters.now))
        Anything (D.seen device.old) (D.seen device.new) }
    ensures shape { IsOf geometry.now (D.seen device.new) }
    ensures fault { CountsWrite (D.faults device.old) (D.faults device.new) result }
{
    let mut area = 0;
    for entry in clusters {
        area += 1;
        write_cluster(device, geometry, area, entry, fillers, block)?;
    }
    Ok(())
}
