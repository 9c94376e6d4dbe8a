//! Formatting a device as a volume whose catalog has given entries.
ghost use Rattle.std.specs.Prelude.{◌≡◌, ◌≤◌, ◌↔◌, ℕ, [], IsTrue, OnOk, IsErrOf, length};
ghost use Rattle.vr_types.specs.Blocks.{AllForced};
ghost use Rattle.vr_types.specs.Geometry.{IsAllowed};
ghost use Rattle.vr_types.specs.Image.{Image};
ghost use Rattle.vr_types.specs.Regions.{Touches};
ghost use Rattle.vr_types.specs.Seen.{Left};
ghost use Rattle.vr_log.specs.LogNow.{IsOf};
ghost use Rattle.vr_format.specs.Fit.{AreFit, IsFirstUnfit, IsFormattedWith};
ghost use Rattle.vr_format.specs.FormatCause.{HasFormatCause};
ghost use Rattle.vr_mount.specs.Touched.{Anything};
ghost use Rattle.vr_format.specs.Formatted.{IsWritten, geometry_of};
ghost use Rattle.vr_format.specs.Planned.{ArePlannedFor};
ghost use Rattle.vr_format.specs.declared.no.FormatNo.TheVariants as answers;

use crate::fit::take_entries;
use crate::format::write_entries;
use crate::in_order::put_in_order;
use crate::no::FormatNo;
use std::alloc::Global;
use vr_catalog::{CatEntry, Catalog};
use vr_device::BlockDevice;
use vr_types::Geometry;

/// Takes the entries as clusters, and puts those in the order of the catalog.
fn plan(
    alloc: Global,
    geometry: &Geometry,
    entries: &[CatEntry],
    clusters: &mut Catalog,
    ordered: &mut Vec<CatEntry>,
) -> Result<(), FormatNo>
    requires allowed { IsAllowed geometry.now }
    requires none { clusters.old ≡ [] }
    requires none_ordered { ordered.old.items ≡ [] }
    ensures planned { OnOk result
        (ArePlannedFor geometry.now entries.now clusters.new ordered.new.items) }
    ensures unfit { (at : ℕ) → IsErrOf result (answers.Entries at)
        → IsFirstUnfit geometry.now entries.now at }
    ensures no_geometry { IsErrOf result answers.Geometry → ⊥ }
    ensures no_write { IsErrOf result answers.Write → ⊥ }
{
    if let Some(at) = take_entries(alloc, geometry, clusters, entries)? {
        return Err(FormatNo::Entries { at });
    }
    put_in_order(alloc, clusters.as_slice(), ordered)?;
    Ok(())
}

/// Writes a volume with these entries, where they can be formatted.
fn write_fit<D: BlockDevice>(
    alloc: Global,
    device: &mut D,
    geometry: &Geometry,
    number: u32,
    entries: &[CatEntry],
) -> Result<(), FormatNo>
    requires allowed { IsAllowed geometry.now }
    requires shape { IsOf geometry.now (D.seen device.old) }
    ensures formatted { IsTrue D.tells → OnOk result
        (IsFormattedWith geometry.now number entries.now (D.seen device.new).cur) }
    ensures stable { IsTrue D.tells → OnOk result (AllForced (D.seen device.old).count
        (D.seen device.new).cur (D.seen device.new).may) }
    ensures after { IsTrue D.tells → Touches (IsWritten geometry.now (length entries.now))
        Anything (D.seen device.old) (D.seen device.new) }
    ensures shape { IsOf geometry.now (D.seen device.new) }
    ensures unfit { (at : ℕ) → IsErrOf result (answers.Entries at)
        → IsFirstUnfit geometry.now entries.now at }
    ensures fit { OnOk result (AreFit geometry.now entries.now) }
    ensures fit_failed { IsErrOf result answers.Write → AreFit geometry.now entries.now }
    ensures no_geometry { IsErrOf result answers.Geometry → ⊥ }
    ensures untouched { IsErrOf result answers.Memory → device.new ≡ device.old }
    ensures unfit_untouched { (at : ℕ) → IsErrOf result (answers.Entries at)
        → device.new ≡ device.old }
    ensures cause { HasFormatCause (D.faults device.old) (D.faults device.new) result }
{
    let mut clusters = Catalog::new(alloc);
    let mut ordered = Vec::new(alloc);
    plan(alloc, geometry, entries, &mut clusters, &mut ordered)?;
    write_entries(
        alloc,
        device,
        geometry,
        number,
        ordered.as_slice(),
        clusters.as_slice(),
    )
}

/// Formats a device as the volume of this number, with this many blocks of log and this many
/// intervals an area: a header, an empty log, a catalog with these entries, and each of them as a
/// cluster without records: key-sequenced, entry-sequenced or relative. The first entry gets area 1
/// and each other the next area; the areas that the entries have don't count. It syncs the device
/// at the end. What a crash leaves before that isn't said.
///
/// `Geometry` comes exactly where a volume of the device's size and number of blocks may not have
/// that log and these areas. `Entries` comes only where the entry at that place is the first that
/// can't be formatted: it is no cluster, its part number isn't its place in the list counted from
/// 1, an entry before it has its name, its record spells no entry, it breaks a rule of a catalog,
/// its longest record has no room in an interval, or there is no area for it, or no room for its
/// record in the first interval of the catalog. Nothing was written then.
/// `Write` comes only where a write or the sync failed.
pub fn format_entries<D: BlockDevice>(
    alloc: Global,
    device: &mut D,
    number: u32,
    log: u32,
    area: u32,
    entries: &[CatEntry],
) -> Result<(), FormatNo>
    requires { number ≤ 99 }
    ensures formatted { IsTrue D.tells → OnOk result ((image : Image)
        → Left (D.seen device.new) image
        → IsFormattedWith (geometry_of (D.seen device.old) log area) number entries.now image) }
    ensures content { IsTrue D.tells → OnOk result
        (IsFormattedWith (geometry_of (D.seen device.old) log area) number entries.now
        (D.seen device.new).cur) }
    ensures stable { IsTrue D.tells → OnOk result (AllForced (D.seen device.old).count
        (D.seen device.new).cur (D.seen device.new).may) }
    ensures after { IsTrue D.tells → Touches
        (IsWritten (geometry_of (D.seen device.old) log area) (length entries.now))
        Anything (D.seen device.old) (D.seen device.new) }
    ensures count { (D.seen device.new).count ≡ (D.seen device.old).count }
    ensures size { (D.seen device.new).size ≡ (D.seen device.old).size }
    ensures geometry { IsErrOf result answers.Geometry
        ↔ ¬ (IsAllowed (geometry_of (D.seen device.old) log area)) }
    ensures unfit { (at : ℕ) → IsErrOf result (answers.Entries at)
        → IsFirstUnfit (geometry_of (D.seen device.old) log area) entries.now at }
    ensures fit { OnOk result (AreFit (geometry_of (D.seen device.old) log area) entries.now) }
    ensures fit_failed { IsErrOf result answers.Write
        → AreFit (geometry_of (D.seen device.old) log area) entries.now }
    ensures refused { IsErrOf result answers.Geometry → device.new ≡ device.old }
    ensures untouched { IsErrOf result answers.Memory → device.new ≡ device.old }
    ensures unfit_untouched { (at : ℕ) → IsErrOf result (answers.Entries at)
        → device.new ≡ device.old }
    ensures cause { HasFormatCause (D.faults device.old) (D.faults device.new) result }
{
    let geometry = Geometry {
        size: device.size(),
        blocks: device.blocks(),
        log,
        area,
    };
    if !geometry.is_allowed() {
        return Err(FormatNo::Geometry);
    }
    write_fit(alloc, device, &geometry, number, entries)
}
