//! The catalog record of an entry.
ghost use Rattle.std.specs.Prelude.{◌≡◌, ◌+◌, ◌≤◌, ◌++◌, ℕ, length, take, Some, None};
ghost use Rattle.std.specs.List.{concat};
ghost use Rattle.vr_types.specs.Fields.{two, four};
ghost use Rattle.vr_catalog.specs.Record.{
  spelling,
  kind_fields,
  part_fields,
  space_fields,
  name_fields,
  padded,
  entry_kind_byte as entry_kind_of,
  kind_byte as kind_of,
  flag_byte as flags_of,
  space_byte as space_of,
  part_field as part_of,
  area_field as area_of,
  text_of,
};

use crate::entry::{CatEntry, EntryKind, SpaceUnit};
use vr_types::{AreaNo, Kind, Name, PartNo};

/// The bytes of a catalog record.
pub const RECORD_LENGTH: usize = 204;

/// Writes the record of an entry into 204 bytes.
#[tactic(auto, unfolding(crate::specs::Record::spelling))]
pub fn write_entry(entry: &CatEntry, out: &mut [u8])
    requires { length out.old ≡ 204 }
    ensures length { length out.new ≡ 204 }
    ensures written { out.new ≡ spelling entry.now }
{
    put_kind(entry, out);
    put_part(entry, out);
    put_space(entry, out);
    put_names(entry, out);
}

/// Writes bytes 0 to 47.
fn put_kind(entry: &CatEntry, out: &mut [u8])
    requires { length out.old ≡ 204 }
    ensures length { length out.new ≡ length out.old }
    ensures written { take 48 out.new ≡ concat (kind_fields entry.now) }
{
    let at = put_text(out, 0, 44, entry.name.as_slice());
    let kinds = [
        entry_kind_byte(entry.entry_kind),
        kind_byte(entry.kind),
        flag_byte(entry),
        0,
    ];
    let _end = put(out, at, &kinds);
}

/// Writes bytes 48 to 71.
fn put_part(entry: &CatEntry, out: &mut [u8])
    requires { length out.old ≡ 204 }
    ensures length { length out.new ≡ length out.old }
    ensures written { take 72 out.new ≡ take 48 out.old ++ concat (part_fields entry.now) }
{
    let at = put_number(out, 48, entry.part.0);
    let at = put_number(out, at, part_field(entry.related));
    let at = put_short(out, at, entry.key_length);
    let at = put_short(out, at, entry.key_offset);
    let at = put_number(out, at, entry.average);
    let at = put_number(out, at, entry.maximum);
    let _end = put_number(out, at, area_field(entry.first_area));
}

/// Writes bytes 72 to 91.
fn put_space(entry: &CatEntry, out: &mut [u8])
    requires { length out.old ≡ 204 }
    ensures length { length out.new ≡ length out.old }
    ensures written { take 92 out.new ≡ take 72 out.old ++ concat (space_fields entry.now) }
{
    let shares = [
        entry.free_space.interval,
        entry.free_space.area,
        entry.share_options.regions,
        entry.share_options.systems,
    ];
    let at = put(out, 72, &shares);
    let at = put(out, at, &[space_byte(entry.space), 0, 0, 0]);
    let at = put_number(out, at, entry.primary);
    let at = put_number(out, at, entry.secondary);
    let _end = put_number(out, at, entry.interval_size);
}

/// Writes bytes 92 to 203.
fn put_names(entry: &CatEntry, out: &mut [u8])
    requires { length out.old ≡ 204 }
    ensures length { length out.new ≡ length out.old }
    ensures written { out.new ≡ take 92 out.old ++ concat (name_fields entry.now) }
{
    let at = put_text(out, 92, 44, text_bytes(&entry.data_name));
    let at = put_text(out, at, 44, text_bytes(&entry.index_name));
    let at = put_text(out, at, 8, text_bytes(&entry.storage_class));
    let at = put_text(out, at, 8, text_bytes(&entry.data_class));
    let _end = put_text(out, at, 8, text_bytes(&entry.management_class));
}

/// Writes a field after the first `at` bytes, and answers where it ends.
fn put(out: &mut [u8], at: usize, field: &[u8]) -> usize
    requires { at + length field.now ≤ length out.old }
    ensures length { length out.new ≡ length out.old }
    ensures written { take (at + length field.now) out.new ≡ take at out.old ++ field.now }
    ensures end { result ≡ at + length field.now }
{
    out[at..at + field.len()].copy_from_slice(field);
    at + field.len()
}

/// Writes a number in two bytes.
#[tactic(auto, unfolding(vr_types::specs::Fields::two))]
fn put_short(out: &mut [u8], at: usize, number: u16) -> usize
    requires { at + 2 ≤ length out.old }
    ensures length { length out.new ≡ length out.old }
    ensures written { take (at + 2) out.new ≡ take at out.old ++ two number }
    ensures end { result ≡ at + 2 }
{
    put(out, at, &number.to_be_bytes())
}

/// Writes a number in four bytes.
#[tactic(auto, unfolding(vr_types::specs::Fields::four))]
fn put_number(out: &mut [u8], at: usize, number: u32) -> usize
    requires { at + 4 ≤ length out.old }
    ensures length { length out.new ≡ length out.old }
    ensures written { take (at + 4) out.new ≡ take at out.old ++ four number }
    ensures end { result ≡ at + 4 }
{
    put(out, at, &number.to_be_bytes())
}

/// Writes a text with blanks after it into a field.
#[tactic(auto, unfolding(crate::specs::Record::padded))]
fn put_text(out: &mut [u8], at: usize, size: usize, text: &[u8]) -> usize
    requires { at + size ≤ length out.old }
    ensures length { length out.new ≡ length out.old }
    ensures written { take (at + size) out.new ≡ take at out.old ++ padded size text.now }
    ensures end { result ≡ at + size }
{
    let shown = text.len().min(size);
    let end = put(out, at, &text[..shown]);
    out[end..at + size].fill(b' ');
    at + size
}

/// The bytes of a name, where there is one.
fn text_bytes(name: &Option<Name>) -> &[u8]
    ensures { result.now ≡ text_of name.now }
{
    match name {
        None => &[],
        Some(name) => name.as_slice(),
    }
}

fn entry_kind_byte(kind: EntryKind) -> u8
    ensures { result ≡ entry_kind_of kind }
{
    match kind {
        EntryKind::Cluster => b'C',
        EntryKind::Alternate => b'A',
        EntryKind::Path => b'P',
    }
}

fn kind_byte(kind: Option<Kind>) -> u8
    ensures { result ≡ kind_of kind }
{
    match kind {
        None => 0,
        Some(Kind::Keyed) => b'K',
        Some(Kind::Entry) => b'E',
        Some(Kind::Relative) => b'R',
    }
}

fn flag_byte(entry: &CatEntry) -> u8
    ensures { result ≡ flags_of entry.now }
{
    let spanned = if entry.spanned { 1 } else { 0 };
    let unique = if entry.unique { 2 } else { 0 };
    let built = if entry.built { 4 } else { 0 };
    spanned + unique + built
}

fn space_byte(unit: SpaceUnit) -> u8
    ensures { result ≡ space_of unit }
{
    match unit {
        SpaceUnit::Unstated => 0,
        SpaceUnit::Cylinders => 1,
        SpaceUnit::Tracks => 2,
        SpaceUnit::Records => 3,
    }
}

fn part_field(part: Option<PartNo>) -> u32
    ensures { result ≡ part_of part }
{
    match part {
        None => 0,
        Some(part) => part.0,
    }
}

fn area_field(area: Option<AreaNo>) -> u32
    ensures { result ≡ area_of area }
{
    match area {
        None => 0,
        Some(area) => area.0.saturating_add(1),
    }
}
