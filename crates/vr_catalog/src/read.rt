//! The entry that a catalog record spells.
ghost use Rattle.std.specs.Prelude.{◌≡◌, ◌+◌, ◌≤◌, ◌==◌, ℕ, length, take, Some, None, true, false};
ghost use Rattle.std.specs.Prelude.{IfOk, OnOk, bytes_eq};
ghost use Rattle.std.specs.List.{position_or_len};
ghost use Rattle.std.specs.Result.{IsErrOf};
ghost use Rattle.vr_catalog.specs.Reading.{AreNamesIn, AreComponentsIn, AreClassesIn};
ghost use Rattle.vr_catalog.specs.Reading.{are_components_at, are_classes_at, are_names_at};
ghost use Rattle.vr_catalog.specs.declared.read.EntryNo.TheVariants.{Misspelled};
ghost use Rattle.vr_catalog.specs.Entry.{are_names, is_name, is_name_or_none};
ghost use Rattle.vr_catalog.specs.Record.{
  entry_in,
  entry_of,
  spelling,
  text_at,
  some_text,
  entry_kind_of as entry_kind_from,
  kind_of as kind_from,
  space_of as space_from,
  part_of as part_from,
  area_of as area_from,
};

use crate::allowed::is_allowed;
use crate::entry::{CatEntry, EntryKind, FreeSpace, ShareOptions, SpaceUnit};
use crate::names::{Classes, Components};
use crate::write::{RECORD_LENGTH, write_entry};
use std::alloc::Global;
use vr_types::{AreaNo, Kind, Name, NameFault, OutOfMemory, PartNo, dataset_name, four_at, two_at};

/// Why bytes give no entry.
#[derive(Clone, Copy, PartialEq, Eq)]
pub enum EntryNo {
    /// They spell none.
    Misspelled,
    /// Memory ran out.
    Memory,
}

impl From<OutOfMemory> for EntryNo {
    ghost use Rattle.std.specs.Prelude.{◌≡◌};
    ghost use Rattle.vr_catalog.specs.declared.read.EntryNo.TheVariants.{Memory};

    ghost from_gives = { λ _ fault. fault ≡ Memory };

    fn from(_error: OutOfMemory) -> EntryNo {
        EntryNo::Memory
    }
}

/// The entry that the bytes spell as a catalog record: `Misspelled` exactly where they spell none.
#[tactic(auto, using(crate::proofs::RecordLemmas::spellings))]
pub fn read_entry(alloc: Global, bytes: &[u8]) -> Result<CatEntry, EntryNo>
    ensures ok { IfOk result (λ entry. entry_of bytes.now ≡ Some entry) }
    ensures misspelled { IsErrOf result Misspelled → entry_of bytes.now ≡ None }
{
    if bytes.len() != RECORD_LENGTH {
        return Err(EntryNo::Misspelled);
    }
    let entry = fields(alloc, bytes)?;
    if is_allowed(&entry) && is_spelled(&entry, bytes) {
        Ok(entry)
    } else {
        Err(EntryNo::Misspelled)
    }
}

/// Whether the bytes are the record of the entry.
fn is_spelled(entry: &CatEntry, bytes: &[u8]) -> bool
    ensures { result ≡ bytes_eq (spelling entry.now) bytes.now }
{
    let mut spelled = [0u8; RECORD_LENGTH];
    write_entry(entry, &mut spelled);
    spelled.as_slice() == bytes
}

/// The names of a record.
#[derive(Drop)]
struct EntryNames {
    name: Name,
    components: Components,
    classes: Classes,
}

/// The names that the fields have. `Misspelled` comes exactly when one of them is not a name.
fn read_names(alloc: Global, bytes: &[u8]) -> Result<EntryNames, EntryNo>
    requires { length bytes.now ≡ 204 }
    ensures ok { IfOk result (AreNamesIn bytes.now) }
    ensures misspelled { IsErrOf result Misspelled → are_names_at bytes.now ≡ false }
{
    let classes = read_classes(alloc, bytes)?;
    let components = read_components(alloc, bytes)?;
    let name = name_at(alloc, bytes, 0, 44)?;
    Ok(EntryNames {
        name,
        components,
        classes,
    })
}

/// The names of the components.
fn read_components(alloc: Global, bytes: &[u8]) -> Result<Components, EntryNo>
    requires { length bytes.now ≡ 204 }
    ensures ok { IfOk result (AreComponentsIn bytes.now) }
    ensures misspelled { IsErrOf result Misspelled → are_components_at bytes.now ≡ false }
{
    let data_name = name_or_none_at(alloc, bytes, 92, 44)?;
    let index_name = name_or_none_at(alloc, bytes, 136, 44)?;
    Ok(Components {
        data_name,
        index_name,
    })
}

/// The classes.
fn read_classes(alloc: Global, bytes: &[u8]) -> Result<Classes, EntryNo>
    requires { length bytes.now ≡ 204 }
    ensures ok { IfOk result (AreClassesIn bytes.now) }
    ensures misspelled { IsErrOf result Misspelled → are_classes_at bytes.now ≡ false }
{
    let storage = name_or_none_at(alloc, bytes, 180, 8)?;
    let data_class = name_or_none_at(alloc, bytes, 188, 8)?;
    let management = name_or_none_at(alloc, bytes, 196, 8)?;
    Ok(Classes {
        storage,
        data_class,
        management,
    })
}

/// The entry that has what the fields say. `Misspelled` comes exactly where one of its names is
/// none.
#[tactic(auto, unfolding(crate::specs::Record::entry_in))]
fn fields(alloc: Global, bytes: &[u8]) -> Result<CatEntry, EntryNo>
    requires { length bytes.now ≡ 204 }
    ensures ok { IfOk result (λ entry. entry ≡ entry_in bytes.now) }
    ensures named { OnOk result (are_names (entry_in bytes.now) ≡ true) }
    ensures misspelled { IsErrOf result Misspelled → are_names (entry_in bytes.now) ≡ false }
{
    let names = read_names(alloc, bytes)?;
    Ok(CatEntry {
        name: names.name,
        entry_kind: entry_kind_of(bytes[44]),
        kind: kind_of(bytes[45]),
        spanned: bytes[46] & 1 == 1,
        unique: bytes[46] & 2 == 2,
        built: bytes[46] & 4 == 4,
        part: PartNo(four_at(bytes, 48)),
        related: part_of(four_at(bytes, 52)),
        key_length: two_at(bytes, 56),
        key_offset: two_at(bytes, 58),
        average: four_at(bytes, 60),
        maximum: four_at(bytes, 64),
        first_area: area_of(four_at(bytes, 68)),
        free_space: FreeSpace {
            interval: bytes[72],
            area: bytes[73],
        },
        share_options: ShareOptions {
            regions: bytes[74],
            systems: bytes[75],
        },
        space: space_of(bytes[76]),
        primary: four_at(bytes, 80),
        secondary: four_at(bytes, 84),
        interval_size: four_at(bytes, 88),
        data_name: names.components.data_name,
        index_name: names.components.index_name,
        storage_class: names.classes.storage,
        data_class: names.classes.data_class,
        management_class: names.classes.management,
    })
}

/// The name in a field. `Misspelled` comes exactly when its text is not a name in capitals.
fn name_at(alloc: Global, bytes: &[u8], at: usize, size: usize) -> Result<Name, EntryNo>
    requires { at + size ≤ length bytes.now }
    ensures ok { IfOk result (λ name. name ≡ text_at at size bytes.now) }
    ensures named { OnOk result (is_name (text_at at size bytes.now) ≡ true) }
    ensures misspelled { IsErrOf result Misspelled → is_name (text_at at size bytes.now) ≡ false }
{
    name_of(alloc, text_in(bytes, at, size))
}

/// The name in a field, or none where the field begins with a blank.
fn name_or_none_at(
    alloc: Global,
    bytes: &[u8],
    at: usize,
    size: usize,
) -> Result<Option<Name>, EntryNo>
    requires { at + size ≤ length bytes.now }
    ensures ok { IfOk result (λ name. name ≡ some_text (text_at at size bytes.now)) }
    ensures named { OnOk result (is_name_or_none (some_text (text_at at size bytes.now)) ≡ true) }
    ensures misspelled { IsErrOf result Misspelled
        → is_name_or_none (some_text (text_at at size bytes.now)) ≡ false }
{
    let text = text_in(bytes, at, size);
    if text.is_empty() {
        Ok(None)
    } else {
        Ok(Some(name_of(alloc, text)?))
    }
}

/// The text of a field: what stands before its first blank.
#[tactic(auto, unfolding(crate::specs::Record::text_at))]
fn text_in(bytes: &[u8], at: usize, size: usize) -> &[u8]
    requires { at + size ≤ length bytes.now }
    ensures { result.now ≡ text_at at size bytes.now }
{
    let field = &bytes[at..at + size];
    &field[..first_blank(field)]
}

/// Where the first blank is, or the end.
#[tactic(auto, using(std::proofs::lemmas::List::Sums::position_or_len_is))]
fn first_blank(field: &[u8]) -> usize
    ensures { result ≡ position_or_len (λ byte. byte == 32) field.now }
{
    for at in 0..field.len() {
        if field[at] == b' ' {
            return at;
        }
    }
    field.len()
}

/// The name that a text is. `Misspelled` comes exactly when it is not a name in capitals.
#[tactic(auto, using(crate::proofs::NameLemmas::names))]
fn name_of(alloc: Global, text: &[u8]) -> Result<Name, EntryNo>
    ensures ok { IfOk result (λ name. name ≡ text.now) }
    ensures named { OnOk result (is_name text.now ≡ true) }
    ensures misspelled { IsErrOf result Misspelled → is_name text.now ≡ false }
{
    let Ok(spelled) = str::from_utf8(text) else {
        return Err(EntryNo::Misspelled);
    };
    match dataset_name(alloc, spelled) {
        Ok(name) => {
            if name.as_slice() == text {
                Ok(name)
            } else {
                Err(EntryNo::Misspelled)
            }
        }
        Err(NameFault::Memory) => Err(EntryNo::Memory),
        Err(_) => Err(EntryNo::Misspelled),
    }
}

fn entry_kind_of(byte: u8) -> EntryKind
    ensures { result ≡ entry_kind_from byte }
{
    match byte {
        b'A' => EntryKind::Alternate,
        b'P' => EntryKind::Path,
        _ => EntryKind::Cluster,
    }
}

fn kind_of(byte: u8) -> Option<Kind>
    ensures { result ≡ kind_from byte }
{
    match byte {
        b'K' => Some(Kind::Keyed),
        b'E' => Some(Kind::Entry),
        b'R' => Some(Kind::Relative),
        _ => None,
    }
}

fn space_of(byte: u8) -> SpaceUnit
    ensures { result ≡ space_from byte }
{
    match byte {
        1 => SpaceUnit::Cylinders,
        2 => SpaceUnit::Tracks,
        3 => SpaceUnit::Records,
        _ => SpaceUnit::Unstated,
    }
}

fn part_of(number: u32) -> Option<PartNo>
    ensures { result ≡ part_from number }
{
    if number == 0 {
        None
    } else {
        Some(PartNo(number))
    }
}

fn area_of(number: u32) -> Option<AreaNo>
    ensures { result ≡ area_from number }
{
    number.checked_sub(1).map(AreaNo)
}
