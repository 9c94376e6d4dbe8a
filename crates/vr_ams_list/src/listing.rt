//! The detail lines of LISTCAT.
ghost use Rattle.std.specs.Prelude.{◌≡◌, ◌++◌, map, IfOk, OnOk};
ghost use Rattle.std.specs.List.{flat_map};
ghost use Rattle.vr_ams_list.specs.Held.{held_entries};
ghost use Rattle.vr_ams_list.specs.Listing as stated;

use crate::listed::Held;
use crate::order::listed_entries;
use std::alloc::Global;
use vr_catalog::{CatEntry, EntryKind};
use vr_trace::{NEW_LINE, ShownVolume, write_field};
use vr_types::{Bytes, Name, OutOfMemory};

/// The lines of the entries of the volumes that have these names, or of all, by name; and how many
/// they are.
pub(crate) fn detail_lines<V: ShownVolume>(
    alloc: Global,
    volumes: &[V],
    names: &[Name],
) -> Result<Bytes, OutOfMemory>
    ensures { IfOk result (λ lines.
        lines ≡ stated.detail_lines (map V.shown volumes.now) names.now) }
{
    let entries = listed_entries(alloc, volumes, names)?;
    lines_of(alloc, entries.as_slice())
}

/// A line for each entry, and how many they are.
fn lines_of(alloc: Global, entries: &[Held]) -> Result<Bytes, OutOfMemory>
    ensures { IfOk result (λ lines. lines ≡ stated.lines_of (held_entries entries.now)) }
{
    let mut out = Bytes::new(alloc);
    write_entries(&mut out, entries)?;
    write_total(alloc, &mut out, entries.len())?;
    Ok(out)
}

/// Adds the line that says how many entries are listed. Out of memory is its one error, and may
/// leave a part of the line.
pub fn write_total(alloc: Global, out: &mut Bytes, count: usize) -> Result<(), OutOfMemory>
    ensures { OnOk result (out.new ≡ out.old ++ stated.total_line count) }
{
    write_field(alloc, out, b"ENTRIES ", count as u64)?;
    out.push(NEW_LINE)
}

/// Writes a line for each entry.
fn write_entries(out: &mut Bytes, entries: &[Held]) -> Result<(), OutOfMemory>
    ensures { OnOk result
        (out.new ≡ out.old ++ flat_map stated.name_line (held_entries entries.now)) }
{
    for held in entries {
        write_entry(out, held.entry)?;
    }
    Ok(())
}

/// Writes the line of an entry.
pub(crate) fn write_entry(out: &mut Bytes, entry: &CatEntry) -> Result<(), OutOfMemory>
    ensures { OnOk result (out.new ≡ out.old ++ stated.entry_line entry.now) }
{
    out.extend(kind_word(entry.entry_kind))?;
    out.extend(b" ")?;
    out.extend(entry.name.as_slice())?;
    out.push(NEW_LINE)
}

fn kind_word(kind: EntryKind) -> &'static [u8]
    ensures { result.now ≡ stated.kind_word kind }
{
    match kind {
        EntryKind::Cluster => b"CLUSTER",
        EntryKind::Alternate => b"AIX",
        EntryKind::Path => b"PATH",
    }
}
