//! Whether a record of the catalog spells an entry.
ghost use Rattle.std.specs.Prelude.{◌≡◌, IfOk};
ghost use Rattle.vr_catalog.specs.Entry as stated;

use std::alloc::Global;
use vr_catalog::{CatEntry, EntryKind, FreeSpace, ShareOptions, SpaceUnit};
use vr_types::{AreaNo, Kind, Name, NameFault, OutOfMemory, PartNo, dataset_name};

/// Whether a text is the name of a data set, in capitals.
#[tactic(auto, using(vr_catalog::proofs::NameLemmas::names))]
fn is_name(alloc: Global, text: &[u8]) -> Result<bool, OutOfMemory>
    ensures { IfOk result (λ is. is ≡ stated.is_name text.now) }
{
    let Ok(spelled) = str::from_utf8(text) else {
        return Ok(false);
    };
    match dataset_name(alloc, spelled) {
        Ok(name) => Ok(name.as_slice() == text),
        Err(NameFault::Memory) => Err(OutOfMemory),
        Err(_) => Ok(false),
    }
}

/// The same of a name that there may be.
fn is_name_or_none(alloc: Global, name: &Option<Name>) -> Result<bool, OutOfMemory>
    ensures { IfOk result (λ is. is ≡ stated.is_name_or_none name.now) }
{
    match name {
        None => Ok(true),
        Some(name) => is_name(alloc, name.as_slice()),
    }
}

fn are_components(alloc: Global, entry: &CatEntry) -> Result<bool, OutOfMemory>
    ensures { IfOk result (λ are.
        are ≡ stated.are_components entry.now.data_name entry.now.index_name) }
{
    Ok(is_name_or_none(alloc, &entry.data_name)? && is_name_or_none(alloc, &entry.index_name)?)
}

fn are_classes(alloc: Global, entry: &CatEntry) -> Result<bool, OutOfMemory>
    ensures { IfOk result (λ are. are ≡ stated.are_classes entry.now.storage_class
        entry.now.data_class entry.now.management_class) }
{
    Ok(
        is_name_or_none(alloc, &entry.storage_class)?
            && is_name_or_none(alloc, &entry.data_class)?
            && is_name_or_none(alloc, &entry.management_class)?,
    )
}

fn are_names(alloc: Global, entry: &CatEntry) -> Result<bool, OutOfMemory>
    ensures { IfOk result (λ are. are ≡ stated.are_names entry.now) }
{
    Ok(
        is_name(alloc, entry.name.as_slice())?
            && are_components(alloc, entry)?
            && are_classes(alloc, entry)?,
    )
}

fn are_keys(key_length: u16, key_offset: u16) -> bool
    ensures { result ≡ stated.are_keys key_length key_offset }
{
    1 <= key_length && key_length <= 255 && key_offset <= 32_759
}

fn are_keys_of(kind: Option<Kind>, key_length: u16, key_offset: u16) -> bool
    ensures { result ≡ stated.are_keys_of kind key_length key_offset }
{
    match kind {
        None => false,
        Some(Kind::Keyed) => are_keys(key_length, key_offset),
        Some(Kind::Entry) | Some(Kind::Relative) => key_length == 0 && key_offset == 0,
    }
}

fn is_free_space(free: FreeSpace) -> bool
    ensures { result ≡ stated.is_free_space free }
{
    free.interval <= 100 && free.area <= 100
}

fn are_share_options(share: ShareOptions) -> bool
    ensures { result ≡ stated.are_share_options share }
{
    1 <= share.regions && share.regions <= 4 && 3 <= share.systems && share.systems <= 4
}

fn is_space(unit: SpaceUnit, primary: u32, secondary: u32) -> bool
    ensures { result ≡ stated.is_space unit primary secondary }
{
    match unit {
        SpaceUnit::Unstated => primary == 0 && secondary == 0,
        SpaceUnit::Cylinders | SpaceUnit::Tracks | SpaceUnit::Records => true,
    }
}

fn has_shares(entry: &CatEntry) -> bool
    ensures { result ≡ stated.has_shares entry.now }
{
    is_free_space(entry.free_space)
        && are_share_options(entry.share_options)
        && is_space(entry.space, entry.primary, entry.secondary)
}

fn is_class_or_none(class: &Option<Name>) -> bool
    ensures { result ≡ stated.is_class_or_none class.now }
{
    match class {
        None => true,
        Some(name) => !name.as_slice().contains(&b'.'),
    }
}

fn has_classes(entry: &CatEntry) -> bool
    ensures { result ≡ stated.has_classes entry.now }
{
    is_class_or_none(&entry.storage_class)
        && is_class_or_none(&entry.data_class)
        && is_class_or_none(&entry.management_class)
}

/// Whether four bytes hold a number, as they do each of this type.
fn fits_four(_number: u32) -> bool
    ensures { result ≡ stated.fits_four _number }
{
    true
}

fn has_data(entry: &CatEntry) -> bool
    ensures { result ≡ stated.has_data entry.now }
{
    fits_four(entry.average)
        && fits_four(entry.maximum)
        && fits_four(entry.interval_size)
        && has_shares(entry)
        && has_classes(entry)
}

fn is_part(part: PartNo) -> bool
    ensures { result ≡ stated.is_part part }
{
    0 < part.0
}

fn is_area_or_none(area: Option<AreaNo>) -> bool
    ensures { result ≡ stated.is_area_or_none area }
{
    match area {
        None => true,
        Some(area) => area.0 < u32::MAX,
    }
}

fn is_cluster(entry: &CatEntry) -> bool
    ensures { result ≡ stated.is_cluster entry.now }
{
    entry.related.is_none()
        && !entry.unique
        && !entry.built
        && are_keys_of(entry.kind, entry.key_length, entry.key_offset)
        && has_data(entry)
}

/// Whether an entry stands over a part that isn't the catalog's.
fn is_related(related: Option<PartNo>) -> bool
    ensures { result ≡ stated.is_related related }
{
    match related {
        None => false,
        Some(part) => is_part(part),
    }
}

fn is_alternate(entry: &CatEntry) -> bool
    ensures { result ≡ stated.is_alternate entry.now }
{
    entry.kind == Some(Kind::Keyed)
        && is_related(entry.related)
        && !entry.spanned
        && entry.built == entry.first_area.is_some()
        && are_keys(entry.key_length, entry.key_offset)
        && has_data(entry)
}

fn has_no_shares(entry: &CatEntry) -> bool
    ensures { result ≡ stated.has_no_shares entry.now }
{
    entry.free_space.interval == 0
        && entry.free_space.area == 0
        && entry.share_options.regions == 0
        && entry.share_options.systems == 0
}

fn has_no_names(entry: &CatEntry) -> bool
    ensures { result ≡ stated.has_no_names entry.now }
{
    entry.data_name.is_none()
        && entry.index_name.is_none()
        && entry.storage_class.is_none()
        && entry.data_class.is_none()
        && entry.management_class.is_none()
}

fn has_no_data(entry: &CatEntry) -> bool
    ensures { result ≡ stated.has_no_data entry.now }
{
    entry.key_length == 0
        && entry.key_offset == 0
        && entry.average == 0
        && entry.maximum == 0
        && entry.interval_size == 0
        && entry.space == SpaceUnit::Unstated
        && is_space(entry.space, entry.primary, entry.secondary)
        && has_no_shares(entry)
        && has_no_names(entry)
}

fn is_path(entry: &CatEntry) -> bool
    ensures { result ≡ stated.is_path entry.now }
{
    entry.kind.is_none()
        && is_related(entry.related)
        && !entry.spanned
        && !entry.unique
        && !entry.built
        && entry.first_area.is_none()
        && has_no_data(entry)
}

fn is_of_kind(entry: &CatEntry) -> bool
    ensures { result ≡ stated.is_of_kind entry.now.entry_kind entry.now }
{
    match entry.entry_kind {
        EntryKind::Cluster => is_cluster(entry),
        EntryKind::Alternate => is_alternate(entry),
        EntryKind::Path => is_path(entry),
    }
}

/// Whether a catalog may have the entry, its names aside.
fn is_allowed(entry: &CatEntry) -> bool
    ensures { result ≡ stated.is_allowed entry.now }
{
    is_part(entry.part) && is_area_or_none(entry.first_area) && is_of_kind(entry)
}

/// Whether a record spells the entry. It does where its names and numbers are those that a parser
/// lets through.
#[tactic(auto, unfolding(vr_catalog::specs::Entry::is_entry))]
pub(crate) fn has_record(alloc: Global, entry: &CatEntry) -> Result<bool, OutOfMemory>
    ensures { IfOk result (λ has. has ≡ stated.is_entry entry.now) }
{
    Ok(are_names(alloc, entry)? && is_allowed(entry))
}
