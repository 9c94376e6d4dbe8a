//! Formatting a device as a volume.
ghost use Rattle.std.specs.Prelude.{◌≡◌, ◌≤◌, ◌↔◌, ℕ, ◌⊎◌, IsTrue, OnOk, OnErr, IsErrOf, length};
ghost use Rattle.vr_types.specs.Blocks.{AllForced};
ghost use Rattle.vr_types.specs.Geometry.{IsAllowed};
ghost use Rattle.vr_types.specs.Image.{Image};
ghost use Rattle.vr_types.specs.Regions.{Touches};
ghost use Rattle.vr_types.specs.Seen.{Left};
ghost use Rattle.vr_log.specs.LogNow.{IsOf};
ghost use Rattle.vr_format.specs.FormatCause.{HasFormatCause};
ghost use Rattle.vr_mount.specs.Touched.{Anything};
ghost use Rattle.vr_format.specs.Formatted.{IsFormatted, IsWritten};
ghost use Rattle.vr_format.specs.Formatted.{first_entries as entries_of, geometry_of};
ghost use Rattle.vr_format.specs.Planned.{ArePlanned};
ghost use Rattle.vr_format.specs.declared.no.FormatNo.TheVariants as answers;

use crate::fillers::Fillers;
use crate::first::first_entries;
use crate::no::FormatNo;
use crate::volume::write_volume;
use std::alloc::Global;
use vr_catalog::CatEntry;
use vr_device::BlockDevice;
use vr_types::Geometry;

/// Writes a volume whose catalog has these entries, which are those of the clusters.
pub(crate) fn write_entries<D: BlockDevice>(
    alloc: Global,
    device: &mut D,
    geometry: &Geometry,
    number: u32,
    entries: &[CatEntry],
    clusters: &[CatEntry],
) -> Result<(), FormatNo>
    requires allowed { IsAllowed geometry.now }
    requires shape { IsOf geometry.now (D.seen device.old) }
    requires planned { ArePlanned geometry.now entries.now clusters.now }
    ensures formatted { IsTrue D.tells → OnOk result
        (IsFormatted geometry.now number entries.now (D.seen device.new).cur) }
    ensures stable { IsTrue D.tells → OnOk result (AllForced (D.seen device.old).count
        (D.seen device.new).cur (D.seen device.new).may) }
    ensures after { IsTrue D.tells → Touches (IsWritten geometry.now (length clusters.now))
        Anything (D.seen device.old) (D.seen device.new) }
    ensures shape { IsOf geometry.now (D.seen device.new) }
    ensures untouched { IsErrOf result answers.Memory → device.new ≡ device.old }
    ensures answers { OnErr result (IsErrOf result answers.Memory ⊎ IsErrOf result answers.Write) }
    ensures cause { HasFormatCause (D.faults device.old) (D.faults device.new) result }
{
    let size = geometry.size as usize;
    let fillers = Fillers::new(alloc, size)?;
    let mut block = vec![in alloc; 0; size]?;
    write_volume(
        device, geometry, number, entries, clusters, &fillers, &mut block,
    )?;
    Ok(())
}

/// Formats a device as the volume of this number, with this many blocks of log and this many intervals
/// an area: a header, an empty log, an empty catalog, and on volume 0 the cluster VRM.FIRST with
/// KEYS(8 0) RECORDSIZE(80 80), without records. It syncs the device at the end. What a crash leaves
/// before that isn't said.
///
/// `Geometry` comes exactly where a volume of the device's size and number of blocks may not have
/// that log and these areas. `Write` comes only where a write or the sync failed; `Entries` never.
pub fn format_volume<D: BlockDevice>(
    alloc: Global,
    device: &mut D,
    number: u32,
    log: u32,
    area: u32,
) -> Result<(), FormatNo>
    requires { number ≤ 99 }
    ensures formatted { IsTrue D.tells → OnOk result ((image : Image)
        → Left (D.seen device.new) image
        → IsFormatted (geometry_of (D.seen device.old) log area) number (entries_of number) image) }
    ensures content { IsTrue D.tells → OnOk result
        (IsFormatted (geometry_of (D.seen device.old) log area) number (entries_of number)
        (D.seen device.new).cur) }
    ensures stable { IsTrue D.tells → OnOk result (AllForced (D.seen device.old).count
        (D.seen device.new).cur (D.seen device.new).may) }
    ensures after { IsTrue D.tells → Touches
        (IsWritten (geometry_of (D.seen device.old) log area) (length (entries_of number)))
        Anything (D.seen device.old) (D.seen device.new) }
    ensures count { (D.seen device.new).count ≡ (D.seen device.old).count }
    ensures size { (D.seen device.new).size ≡ (D.seen device.old).size }
    ensures geometry { IsErrOf result answers.Geometry
        ↔ ¬ (IsAllowed (geometry_of (D.seen device.old) log area)) }
    ensures no_entries { (at : ℕ) → IsErrOf result (answers.Entries at) → ⊥ }
    ensures refused { IsErrOf result answers.Geometry → device.new ≡ device.old }
    ensures untouched { IsErrOf result answers.Memory → device.new ≡ device.old }
    ensures cause { HasFormatCause (D.faults device.old) (D.faults device.new) result }
{
    let geometry = Geometry {
        size: device.size(),
        blocks: device.blocks(),
        log,
        area,
    };
    if !geometry.is_allowed() {
        return Err(FormatNo::Geometry);
    }
    let catalog = first_entries(alloc, number)?;
    let entries = catalog.as_slice();
    write_entries(alloc, device, &geometry, number, entries, entries)
}
