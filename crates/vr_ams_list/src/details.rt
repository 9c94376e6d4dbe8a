//! The lines of LISTCAT ALL below the name of an entry.
ghost use Rattle.std.specs.Prelude.{◌≡◌, ◌++◌, OnOk};
ghost use Rattle.std.specs.Option.{option_copied, unwrap_or};
ghost use Rattle.vr_types.specs.declared.unit.Kind.{Kind};
ghost use Rattle.vr_ams_list.specs.Details as stated;

use std::alloc::Global;
use vr_catalog::{CatEntry, Catalog, EntryKind, SpaceUnit};
use vr_trace::{NEW_LINE, Statistics, write_field};
use vr_types::{Bytes, Kind, Name, OutOfMemory};

/// Adds the lines of LISTCAT ALL below the name of an entry of the catalog, after Access Method
/// Services Commands: of a cluster and an alternate index what was stated of it, and what is
/// counted of its records; of an alternate index and a path the name of the entry that it stands
/// over, if the catalog has that. Out of memory is its one error, and may leave a part of the
/// lines.
pub fn write_details(
    alloc: Global,
    out: &mut Bytes,
    catalog: &Catalog,
    entry: &CatEntry,
    numbers: &Statistics,
) -> Result<(), OutOfMemory>
    ensures { OnOk result
        (out.new ≡ out.old ++ stated.details_of catalog.now entry.now numbers.now) }
{
    match entry.entry_kind {
        EntryKind::Cluster => write_data(alloc, out, cluster_kind(entry.kind), entry, numbers),
        EntryKind::Alternate => write_alternate(alloc, out, catalog, entry, numbers),
        EntryKind::Path => write_related(out, catalog, entry),
    }
}

/// How the records of a cluster are organised. Each cluster has a kind.
fn cluster_kind(kind: Option<Kind>) -> &'static [u8]
    ensures { result.now ≡ stated.cluster_kind (unwrap_or kind Kind.Keyed) }
{
    match kind.unwrap_or(Kind::Keyed) {
        Kind::Keyed => b"KSDS",
        Kind::Entry => b"ESDS",
        Kind::Relative => b"RRDS",
    }
}

/// Writes the lines of an alternate index.
fn write_alternate(
    alloc: Global,
    out: &mut Bytes,
    catalog: &Catalog,
    entry: &CatEntry,
    numbers: &Statistics,
) -> Result<(), OutOfMemory>
    ensures { OnOk result
        (out.new ≡ out.old ++ stated.alternate_lines catalog.now entry.now numbers.now) }
{
    write_data(alloc, out, b"AIX", entry, numbers)?;
    write_related(out, catalog, entry)
}

/// Writes what a data set has.
fn write_data(
    alloc: Global,
    out: &mut Bytes,
    kind: &[u8],
    entry: &CatEntry,
    numbers: &Statistics,
) -> Result<(), OutOfMemory>
    ensures { OnOk result (out.new ≡ out.old ++ stated.data_lines kind.now entry.now numbers.now) }
{
    write_kind(alloc, out, kind, entry)?;
    write_shares(alloc, out, entry)?;
    write_space(alloc, out, entry)?;
    write_components(out, entry)?;
    write_classes(out, entry)?;
    write_counts(alloc, out, numbers)
}

/// Writes a keyword and two numbers.
fn write_pair(
    alloc: Global,
    out: &mut Bytes,
    keyword: &[u8],
    first: u32,
    second: u32,
) -> Result<(), OutOfMemory>
    ensures { OnOk result (out.new ≡ out.old ++ stated.field_pair keyword.now first second) }
{
    write_field(alloc, out, keyword, u64::from(first))?;
    write_field(alloc, out, b" ", u64::from(second))
}

/// Writes KIND, KEYS, RECORDSIZE and LOG.
fn write_kind(
    alloc: Global,
    out: &mut Bytes,
    kind: &[u8],
    entry: &CatEntry,
) -> Result<(), OutOfMemory>
    ensures { OnOk result (out.new ≡ out.old ++ stated.kind_line kind.now entry.now) }
{
    out.extend(b"  KIND ")?;
    out.extend(kind)?;
    write_sizes(alloc, out, entry)?;
    out.extend(b" LOG UNDO")?;
    out.push(NEW_LINE)
}

/// Writes KEYS and RECORDSIZE.
fn write_sizes(alloc: Global, out: &mut Bytes, entry: &CatEntry) -> Result<(), OutOfMemory>
    ensures { OnOk result (out.new ≡ out.old ++ stated.sizes entry.now) }
{
    let (length, offset) = (entry.key_length as u32, entry.key_offset as u32);
    write_pair(alloc, out, b" KEYS ", length, offset)?;
    write_pair(alloc, out, b" RECORDSIZE ", entry.average, entry.maximum)
}

/// Writes FREESPACE, SHAREOPTIONS and CISIZE.
fn write_shares(alloc: Global, out: &mut Bytes, entry: &CatEntry) -> Result<(), OutOfMemory>
    ensures { OnOk result (out.new ≡ out.old ++ stated.share_line entry.now) }
{
    let (free, share) = (entry.free_space, entry.share_options);
    let (interval, area) = (free.interval as u32, free.area as u32);
    let (regions, systems) = (share.regions as u32, share.systems as u32);
    write_pair(alloc, out, b"  FREESPACE ", interval, area)?;
    write_pair(alloc, out, b" SHAREOPTIONS ", regions, systems)?;
    write_field(alloc, out, b" CISIZE ", u64::from(entry.interval_size))?;
    out.push(NEW_LINE)
}

/// Writes the space that was asked for.
fn write_space(alloc: Global, out: &mut Bytes, entry: &CatEntry) -> Result<(), OutOfMemory>
    ensures { OnOk result (out.new ≡ out.old ++ stated.space_line entry.now) }
{
    out.extend(b"  SPACE ")?;
    out.extend(unit_word(entry.space))?;
    write_pair(alloc, out, b" ", entry.primary, entry.secondary)?;
    out.push(NEW_LINE)
}

fn unit_word(unit: SpaceUnit) -> &'static [u8]
    ensures { result.now ≡ stated.unit_word unit }
{
    match unit {
        SpaceUnit::Unstated => b"NONE",
        SpaceUnit::Cylinders => b"CYLINDERS",
        SpaceUnit::Tracks => b"TRACKS",
        SpaceUnit::Records => b"RECORDS",
    }
}

/// Writes a keyword and a name, where there is one.
fn write_named(out: &mut Bytes, keyword: &[u8], name: Option<&Name>) -> Result<(), OutOfMemory>
    ensures { OnOk result
        (out.new ≡ out.old ++ stated.named_line keyword.now (option_copied name.entry)) }
{
    if let Some(name) = name {
        out.extend(keyword)?;
        out.extend(name.as_slice())?;
        out.push(NEW_LINE)?;
    }
    Ok(())
}

/// Writes the names of the components that have one.
fn write_components(out: &mut Bytes, entry: &CatEntry) -> Result<(), OutOfMemory>
    ensures { OnOk result (out.new ≡ out.old ++ stated.component_lines entry.now) }
{
    write_named(out, b"  DATA ", entry.data_name.as_ref())?;
    write_named(out, b"  INDEX ", entry.index_name.as_ref())
}

/// Writes the three classes.
fn write_classes(out: &mut Bytes, entry: &CatEntry) -> Result<(), OutOfMemory>
    ensures { OnOk result (out.new ≡ out.old ++ stated.class_line entry.now) }
{
    out.extend(b"  CLASSES")?;
    write_class(out, &entry.storage_class)?;
    write_class(out, &entry.data_class)?;
    write_class(out, &entry.management_class)?;
    out.push(NEW_LINE)
}

/// Writes the name of a class, or a dash.
fn write_class(out: &mut Bytes, class: &Option<Name>) -> Result<(), OutOfMemory>
    ensures { OnOk result (out.new ≡ out.old ++ stated.class_text class.now) }
{
    match class {
        None => out.extend(b" -"),
        Some(name) => {
            out.extend(b" ")?;
            out.extend(name.as_slice())
        }
    }
}

/// Writes what is counted.
fn write_counts(alloc: Global, out: &mut Bytes, numbers: &Statistics) -> Result<(), OutOfMemory>
    ensures { OnOk result (out.new ≡ out.old ++ stated.count_line numbers.now) }
{
    write_field(alloc, out, b"  RECORDS ", numbers.records)?;
    write_field(alloc, out, b" AREAS ", numbers.areas)?;
    write_field(alloc, out, b" SPLITS CI ", numbers.interval_splits)?;
    write_field(alloc, out, b" CA ", numbers.area_splits)?;
    out.push(NEW_LINE)
}

/// Writes the name of the entry that this one stands over.
fn write_related(out: &mut Bytes, catalog: &Catalog, entry: &CatEntry) -> Result<(), OutOfMemory>
    ensures { OnOk result (out.new ≡ out.old ++ stated.related_line catalog.now entry.now) }
{
    let Some(part) = entry.related else {
        return Ok(());
    };
    match catalog.find_part(part) {
        None => Ok(()),
        Some(related) => write_named(out, b"  RELATED ", Some(&related.name)),
    }
}
