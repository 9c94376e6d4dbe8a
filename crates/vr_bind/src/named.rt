//! What the files of a deck are on.
ghost use Rattle.std.specs.Prelude.{◌≡◌, ℕ, ◌<◌, ◌^◌, length, map, IfOk};
ghost use Rattle.std.specs.Option.{option_map};
ghost use Rattle.vr_catalog.specs.Catalog.{opened_directly, opened_as, opened};
ghost use Rattle.vr_bind.specs.Found.{found_of, opened_over};
ghost use Rattle.vr_bind.specs.Named.{kind_of, file_on, unknown_file, file_named, files_of, file_at};

use std::alloc::Global;
use vr_catalog::{CatEntry, Catalog, EntryKind};
use vr_deck_text::{DeckFile, Files};
use vr_types::{FileRef, Kind, Name, OutOfMemory, PartNo};

/// The base cluster of a name, and the alternate index through which its records are read.
#[derive(Clone, Copy)]
pub(crate) struct Found {
    pub base: PartNo,
    pub path: Option<PartNo>,
}

/// What is opened by the name of a cluster or of an alternate index.
fn opened_directly(entry: &CatEntry) -> Option<Found>
    ensures { option_map found_of result ≡ opened_directly entry.now.entry_kind entry.now }
{
    match entry.entry_kind {
        EntryKind::Cluster => Some(Found {
            base: entry.part,
            path: None,
        }),
        EntryKind::Alternate => match entry.related {
            None => None,
            Some(base) => Some(Found {
                base,
                path: Some(entry.part),
            }),
        },
        EntryKind::Path => None,
    }
}

/// What is opened by the name of an entry.
fn opened_as(catalog: &Catalog, entry: &CatEntry) -> Option<Found>
    ensures { option_map found_of result ≡ opened_as catalog.now entry.now.entry_kind entry.now }
{
    match entry.entry_kind {
        EntryKind::Cluster | EntryKind::Alternate => opened_directly(entry),
        EntryKind::Path => match entry.related {
            None => None,
            Some(part) => opened_part(catalog, part),
        },
    }
}

/// What is opened through a path over this part.
fn opened_part(catalog: &Catalog, part: PartNo) -> Option<Found>
    ensures { option_map found_of result ≡ opened_over catalog.now part.0 }
{
    match catalog.find_part(part) {
        None => None,
        Some(entry) => opened_directly(entry),
    }
}

/// What is opened by a name, where the catalog has it.
fn opened(catalog: &Catalog, name: &Name) -> Option<Found>
    ensures { option_map found_of result ≡ opened catalog.now name.now }
{
    match catalog.find(name) {
        None => None,
        Some(entry) => opened_as(catalog, entry),
    }
}

/// How the records of a base cluster are organised.
fn kind_of(catalog: &Catalog, base: PartNo) -> Kind
    ensures { result ≡ kind_of catalog.now base.0 }
{
    match catalog.definition_of(base) {
        None => Kind::Keyed,
        Some(definition) => definition.kind,
    }
}

/// File number `slot` of a deck, on a data set of a volume.
fn file_on(slot: u32, volume: u32, catalog: &Catalog, found: Found) -> FileRef
    ensures { result ≡ file_on slot volume catalog.now (found_of found) }
{
    FileRef {
        volume,
        slot,
        base: found.base,
        path: found.path,
        kind: kind_of(catalog, found.base),
        known: true,
    }
}

/// File number `slot` of a deck, on a name that no catalog has.
fn unknown_file(slot: u32) -> FileRef
    ensures { result ≡ unknown_file slot }
{
    FileRef {
        volume: 0,
        slot,
        base: PartNo(0),
        path: None,
        kind: Kind::Keyed,
        known: false,
    }
}

/// The file of a name: on the lowest volume whose catalog has it.
fn file_named(catalogs: &[&Catalog], slot: u32, name: &Name) -> FileRef
    requires { length catalogs.now < 2 ^ 32 }
    ensures { result ≡ file_named (map (λ c. c.now) catalogs.now) slot name.now }
{
    for volume in 0..catalogs.len() {
        let catalog = catalogs[volume];
        match opened(catalog, name) {
            None => {}
            Some(found) => return file_on(slot, volume as u32, catalog, found),
        }
    }
    unknown_file(slot)
}

/// The files that a deck declares.
pub(crate) fn files_of(
    alloc: Global,
    catalogs: &[&Catalog],
    files: &Files,
) -> Result<Vec<FileRef>, OutOfMemory>
    requires { length catalogs.now < 2 ^ 32 }
    ensures { IfOk result (λ found. found.items
        ≡ files_of (map (λ c. c.now) catalogs.now) files.now) }
{
    let files = files.as_slice();
    let mut found = Vec::new(alloc);
    for slot in 0..files.len() {
        found.push(file_named(catalogs, slot as u32, &files[slot].data_set))?;
    }
    Ok(found)
}

/// The file of a number.
pub(crate) fn file_at(files: &[FileRef], slot: u32) -> FileRef
    ensures { result ≡ file_at files.now slot }
{
    match files.get(slot as usize) {
        None => unknown_file(slot),
        Some(file) => *file,
    }
}
