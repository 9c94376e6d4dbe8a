//! Whether a catalog may have an entry, its names aside.
ghost use Rattle.std.specs.Prelude.{◌≡◌};
ghost use Rattle.vr_catalog.specs.Entry.{
  is_allowed as may_stand,
  is_cluster as cluster,
  is_alternate as alternate,
  is_path as path,
  has_data as data_of,
  has_no_data as no_data_of,
  has_classes as classes_of,
  has_shares as shares_of,
  has_no_shares as no_shares_of,
  has_no_names as no_names_of,
  are_keys as keys,
  are_keys_of as keys_of,
  are_no_keys as no_keys,
  is_class_or_none as class_or_none,
  is_space as space_of,
  is_free_space as free_space_of,
  are_share_options as share_options_of,
  is_related as related_of,
  is_part as part_of,
  fits_four,
  is_area_or_none as area_of,
};

use crate::entry::{CatEntry, EntryKind, FreeSpace, ShareOptions, SpaceUnit};
use vr_types::{AreaNo, Kind, Name, PartNo};

/// Whether the entry has what one of its kind may have.
pub(crate) fn is_allowed(entry: &CatEntry) -> bool
    ensures { result ≡ may_stand entry.now }
{
    is_part(entry.part)
        && is_area_or_none(entry.first_area)
        && match entry.entry_kind {
            EntryKind::Cluster => is_cluster(entry),
            EntryKind::Alternate => is_alternate(entry),
            EntryKind::Path => is_path(entry),
        }
}

fn is_cluster(entry: &CatEntry) -> bool
    ensures { result ≡ cluster entry.now }
{
    entry.related.is_none()
        && !entry.unique
        && !entry.built
        && are_keys_of(entry.kind, entry.key_length, entry.key_offset)
        && has_data(entry)
}

fn is_alternate(entry: &CatEntry) -> bool
    ensures { result ≡ alternate entry.now }
{
    entry.kind == Some(Kind::Keyed)
        && is_related(entry.related)
        && !entry.spanned
        && entry.built == entry.first_area.is_some()
        && are_keys(entry.key_length, entry.key_offset)
        && has_data(entry)
}

fn is_path(entry: &CatEntry) -> bool
    ensures { result ≡ path entry.now }
{
    entry.kind.is_none()
        && is_related(entry.related)
        && !entry.spanned
        && !entry.unique
        && !entry.built
        && entry.first_area.is_none()
        && has_no_data(entry)
}

fn has_data(entry: &CatEntry) -> bool
    ensures { result ≡ data_of entry.now }
{
    fits_four(entry.average)
        && fits_four(entry.maximum)
        && fits_four(entry.interval_size)
        && has_shares(entry)
        && has_classes(entry)
}

/// Whether four bytes hold a number, as they do each of this type.
fn fits_four(_number: u32) -> bool
    ensures { result ≡ fits_four _number }
{
    true
}

fn has_shares(entry: &CatEntry) -> bool
    ensures { result ≡ shares_of entry.now }
{
    is_free_space(entry.free_space)
        && are_share_options(entry.share_options)
        && is_space(entry.space, entry.primary, entry.secondary)
}

fn has_classes(entry: &CatEntry) -> bool
    ensures { result ≡ classes_of entry.now }
{
    is_class_or_none(&entry.storage_class)
        && is_class_or_none(&entry.data_class)
        && is_class_or_none(&entry.management_class)
}

fn has_no_data(entry: &CatEntry) -> bool
    ensures { result ≡ no_data_of entry.now }
{
    are_no_keys(entry.key_length, entry.key_offset)
        && entry.average == 0
        && entry.maximum == 0
        && entry.interval_size == 0
        && entry.space == SpaceUnit::Unstated
        && is_space(entry.space, entry.primary, entry.secondary)
        && has_no_shares(entry)
        && has_no_names(entry)
}

fn has_no_shares(entry: &CatEntry) -> bool
    ensures { result ≡ no_shares_of entry.now }
{
    entry.free_space.interval == 0
        && entry.free_space.area == 0
        && entry.share_options.regions == 0
        && entry.share_options.systems == 0
}

fn has_no_names(entry: &CatEntry) -> bool
    ensures { result ≡ no_names_of entry.now }
{
    entry.data_name.is_none()
        && entry.index_name.is_none()
        && entry.storage_class.is_none()
        && entry.data_class.is_none()
        && entry.management_class.is_none()
}

fn are_keys(key_length: u16, key_offset: u16) -> bool
    ensures { result ≡ keys key_length key_offset }
{
    1 <= key_length && key_length <= 255 && key_offset <= 32_759
}

fn are_no_keys(key_length: u16, key_offset: u16) -> bool
    ensures { result ≡ no_keys key_length key_offset }
{
    key_length == 0 && key_offset == 0
}

fn are_keys_of(kind: Option<Kind>, key_length: u16, key_offset: u16) -> bool
    ensures { result ≡ keys_of kind key_length key_offset }
{
    match kind {
        None => false,
        Some(Kind::Keyed) => are_keys(key_length, key_offset),
        Some(Kind::Entry) | Some(Kind::Relative) => are_no_keys(key_length, key_offset),
    }
}

fn is_free_space(free: FreeSpace) -> bool
    ensures { result ≡ free_space_of free }
{
    free.interval <= 100 && free.area <= 100
}

fn are_share_options(share: ShareOptions) -> bool
    ensures { result ≡ share_options_of share }
{
    1 <= share.regions && share.regions <= 4 && 3 <= share.systems && share.systems <= 4
}

fn is_space(unit: SpaceUnit, primary: u32, secondary: u32) -> bool
    ensures { result ≡ space_of unit primary secondary }
{
    match unit {
        SpaceUnit::Unstated => primary == 0 && secondary == 0,
        SpaceUnit::Cylinders | SpaceUnit::Tracks | SpaceUnit::Records => true,
    }
}

fn is_part(part: PartNo) -> bool
    ensures { result ≡ part_of part }
{
    0 < part.0
}

fn is_related(part: Option<PartNo>) -> bool
    ensures { result ≡ related_of part }
{
    match part {
        None => false,
        Some(part) => is_part(part),
    }
}

fn is_area_or_none(area: Option<AreaNo>) -> bool
    ensures { result ≡ area_of area }
{
    match area {
        None => true,
        Some(area) => area.0 < u32::MAX,
    }
}

fn is_class_or_none(class: &Option<Name>) -> bool
    ensures { result ≡ class_or_none class.now }
{
    match class {
        None => true,
        Some(name) => !name.as_slice().contains(&b'.'),
    }
}
