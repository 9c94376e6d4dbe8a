//! DEFINE of Access Method Services on a catalog.
ghost use Rattle.std.specs.Prelude.{◌≡◌, ◌<◌, ◌^◌, ◌-◌, ℕ, None, IfOk, IfErr, is_some};
ghost use Rattle.std.specs.Option.{option_copied};
ghost use Rattle.vr_catalog.specs.Catalog.{alternate_in};
ghost use Rattle.vr_catalog.specs.Fault.{IsCause};
ghost use Rattle.vr_catalog.specs.Define.{
  define_fault,
  define_changes,
  new_entry as entry_for,
  base_of as base_for,
  related_name as name_related,
  fault_if as fault_where,
  unknown_base as unknown,
  path_base as over_path,
  is_path_kind as path_kind,
  name_taken as taken,
  wrong_base as wrong,
  is_alternate_kind as alternate_kind,
  is_relative as relative,
  key_past_record as key_past,
  key_of_kind as kept_key,
  new_definition as definition_for,
  bad_record_size as bad_size,
  few_intervals as few,
  place_length_of as place_length_for,
  too_many_alternates as too_many,
  alternate_count as count_of,
  greatest_part as greatest,
  catalog_full as full,
  new_cluster as cluster_of,
  new_alternate as alternate_of,
  new_path as path_of,
};

use crate::catalog::Catalog;
use crate::changes::{Change, Changes};
use crate::definition::Definition;
use crate::entry::{CatEntry, EntryKind, FreeSpace, ShareOptions, SpaceUnit};
use crate::fault::CatFault;
use crate::limits::{are_bad_sizes, are_few_intervals, ends_past, is_bad_cluster};
use crate::names::{copy_classes, copy_components};
use crate::order::{DataOptions, Define, NewEntry};
use std::alloc::Global;
use vr_types::{Geometry, Kind, Name, OutOfMemory, PartNo};

/// The changes that a DEFINE makes: the new entry, with the part number that is 1 above the
/// greatest, and without an area. Each fault comes exactly where its cause is there and none that
/// is tried earlier: 2 and 3 of the entry named in RELATE or PATHENTRY, 1, 9, 5, 6, 7, 10 and 14.
#[tactic(auto, using(crate::proofs::FaultLemmas::last_none))]
pub fn define(
    alloc: Global,
    catalog: &Catalog,
    order: &Define,
    geometry: &Geometry,
) -> Result<Changes, CatFault>
    ensures allowed { IfOk result (λ _. define_fault catalog.now order.now geometry.now ≡ None) }
    ensures changes { IfOk result (λ changes. changes ≡ define_changes catalog.now order.now) }
    ensures fault { IfErr result (IsCause (define_fault catalog.now order.now geometry.now)) }
{
    if let Some(fault) = first_fault(catalog, order, geometry) {
        return Err(fault);
    }
    Ok(add_entry(alloc, catalog, order)?)
}

/// The one change of a DEFINE that isn't refused.
fn add_entry(alloc: Global, catalog: &Catalog, order: &Define) -> Result<Changes, OutOfMemory>
    requires { full catalog.now ≡ None }
    ensures { IfOk result (λ changes. changes ≡ define_changes catalog.now order.now) }
{
    let mut changes = Changes::new(alloc);
    changes.push(Change::Add(new_entry(alloc, catalog, order)?))?;
    Ok(changes)
}

/// The first fault in the order in which they are tried.
fn first_fault(catalog: &Catalog, order: &Define, geometry: &Geometry) -> Option<CatFault>
    ensures { result ≡ define_fault catalog.now order.now geometry.now }
{
    let base = base_of(catalog, order);
    unknown_base(&order.what, base)
        .or(path_base(base))
        .or(name_taken(catalog, &order.name))
        .or(wrong_base(&order.what, base))
        .or(key_past_record(&order.what, base))
        .or(bad_record_size(geometry, &order.what))
        .or(few_intervals(geometry, &order.what, base))
        .or(too_many_alternates(catalog, &order.what, base))
        .or(catalog_full(catalog))
}

/// The fault, where its cause is there.
pub(crate) fn fault_if(cause: bool, fault: CatFault) -> Option<CatFault>
    ensures { result ≡ fault_where cause fault }
{
    if cause { Some(fault) } else { None }
}

/// The name in RELATE or PATHENTRY.
fn related_name(what: &NewEntry) -> Option<&Name>
    ensures { option_copied result ≡ name_related what.now }
{
    match what {
        NewEntry::Cluster { .. } => None,
        NewEntry::Alternate { related, .. } => Some(related),
        NewEntry::Path { related } => Some(related),
    }
}

/// The entry that the new one stands over.
fn base_of<'a>(catalog: &'a Catalog, order: &Define) -> Option<&'a CatEntry>
    ensures { option_copied result ≡ base_for catalog.now order.now }
{
    match related_name(&order.what) {
        None => None,
        Some(name) => catalog.find(name),
    }
}

fn unknown_base(what: &NewEntry, base: Option<&CatEntry>) -> Option<CatFault>
    ensures { result ≡ unknown (name_related what.now) (option_copied base.entry) }
{
    let cause = related_name(what).is_some() && base.is_none();
    fault_if(cause, CatFault::NotFound)
}

fn path_base(base: Option<&CatEntry>) -> Option<CatFault>
    ensures { result ≡ over_path (option_copied base.entry) }
{
    let cause = match base {
        None => false,
        Some(entry) => is_path_kind(entry.entry_kind),
    };
    fault_if(cause, CatFault::WrongKind)
}

/// Whether it is a path's.
pub(crate) fn is_path_kind(kind: EntryKind) -> bool
    ensures { result ≡ path_kind kind }
{
    match kind {
        EntryKind::Cluster | EntryKind::Alternate => false,
        EntryKind::Path => true,
    }
}

/// The fault of a new name that is in use.
pub(crate) fn name_taken(catalog: &Catalog, name: &Name) -> Option<CatFault>
    ensures { result ≡ taken catalog.now name.now }
{
    fault_if(catalog.find(name).is_some(), CatFault::NameTaken)
}

fn wrong_base(what: &NewEntry, base: Option<&CatEntry>) -> Option<CatFault>
    ensures { result ≡ wrong what.now (option_copied base.entry) }
{
    match what {
        NewEntry::Cluster { .. } | NewEntry::Path { .. } => None,
        NewEntry::Alternate { .. } => {
            let cause = match base {
                None => false,
                Some(entry) => is_alternate_kind(entry.entry_kind) || is_relative(entry.kind),
            };
            fault_if(cause, CatFault::WrongBase)
        }
    }
}

fn is_alternate_kind(kind: EntryKind) -> bool
    ensures { result ≡ alternate_kind kind }
{
    match kind {
        EntryKind::Cluster | EntryKind::Path => false,
        EntryKind::Alternate => true,
    }
}

fn is_relative(kind: Option<Kind>) -> bool
    ensures { result ≡ relative kind }
{
    match kind {
        None | Some(Kind::Keyed) | Some(Kind::Entry) => false,
        Some(Kind::Relative) => true,
    }
}

fn key_past_record(what: &NewEntry, base: Option<&CatEntry>) -> Option<CatFault>
    ensures { result ≡ key_past what.now (option_copied base.entry) }
{
    let cause = match what {
        NewEntry::Cluster { kind, options, .. } => ends_past(
            key_of_kind(*kind, options.key_length),
            key_of_kind(*kind, options.key_offset),
            options.maximum,
        ),
        NewEntry::Alternate { options, .. } => match base {
            None => false,
            Some(entry) => ends_past(options.key_length, options.key_offset, entry.maximum),
        },
        NewEntry::Path { .. } => false,
    };
    fault_if(cause, CatFault::KeyPastRecord)
}

/// A number of KEYS, which counts for nothing in a kind without keys.
fn key_of_kind(kind: Kind, number: u16) -> u16
    ensures { result ≡ kept_key kind number }
{
    match kind {
        Kind::Keyed => number,
        Kind::Entry | Kind::Relative => 0,
    }
}

/// What a new cluster states of its records.
fn new_definition(kind: Kind, spanned: bool, options: &DataOptions) -> Definition
    ensures { result ≡ definition_for kind spanned options.now }
{
    Definition {
        kind,
        spanned,
        key_length: key_of_kind(kind, options.key_length),
        key_offset: key_of_kind(kind, options.key_offset),
        maximum: options.maximum,
    }
}

fn bad_record_size(geometry: &Geometry, what: &NewEntry) -> Option<CatFault>
    ensures { result ≡ bad_size geometry.now what.now }
{
    let cause = match what {
        NewEntry::Cluster {
            kind,
            spanned,
            options,
        } => {
            let definition = new_definition(*kind, *spanned, options);
            is_bad_cluster(geometry, &definition, options.average)
        }
        NewEntry::Alternate { options, .. } => are_bad_sizes(options.average, options.maximum),
        NewEntry::Path { .. } => false,
    };
    fault_if(cause, CatFault::RecordSize)
}

fn few_intervals(geometry: &Geometry, what: &NewEntry, base: Option<&CatEntry>) -> Option<CatFault>
    ensures { result ≡ few geometry.now what.now (option_copied base.entry) }
{
    let cause = match what {
        NewEntry::Cluster { kind, options, .. } => {
            *kind == Kind::Keyed && are_few_intervals(geometry, options.key_length as u32)
        }
        NewEntry::Alternate { options, .. } => match base {
            None => false,
            Some(entry) => are_few_intervals(
                geometry,
                options.key_length as u32 + place_length_of(entry.kind, entry.key_length),
            ),
        },
        NewEntry::Path { .. } => false,
    };
    fault_if(cause, CatFault::FewIntervals)
}

/// The length of a base's places: its keys, or four bytes.
fn place_length_of(kind: Option<Kind>, key_length: u16) -> u32
    ensures { result ≡ place_length_for kind key_length }
{
    match kind {
        Some(Kind::Keyed) => key_length as u32,
        None | Some(Kind::Entry) | Some(Kind::Relative) => 4,
    }
}

fn too_many_alternates(
    catalog: &Catalog,
    what: &NewEntry,
    base: Option<&CatEntry>,
) -> Option<CatFault>
    ensures { result ≡ too_many catalog.now what.now (option_copied base.entry) }
{
    match what {
        NewEntry::Cluster { .. } | NewEntry::Path { .. } => None,
        NewEntry::Alternate { .. } => {
            let cause = match base {
                None => false,
                Some(entry) => 8 <= alternate_count(catalog, entry.part),
            };
            fault_if(cause, CatFault::TooManyAlternates)
        }
    }
}

/// How many alternate indexes stand over a base.
#[tactic(auto, using(std::proofs::lemmas::List::Sums::count_by_more_yes, std::proofs::lemmas::List::Sums::count_by_more_no))]
fn alternate_count(catalog: &Catalog, base: PartNo) -> usize
    ensures { result ≡ count_of catalog.now base.0 }
{
    let mut count = 0;
    for entry in catalog.as_slice() {
        if is_alternate_over(entry, base) {
            count += 1;
        }
    }
    count
}

/// Whether an entry is an alternate index over a base.
fn is_alternate_over(entry: &CatEntry, base: PartNo) -> bool
    ensures { result ≡ is_some (alternate_in base.0 entry.now) }
{
    entry.related == Some(base) && is_alternate_kind(entry.entry_kind)
}

/// The greatest part number, 0 where there is no part.
fn greatest_part(catalog: &Catalog) -> u32
    ensures { result ≡ greatest catalog.now }
{
    let mut greatest = 0;
    for entry in catalog.as_slice() {
        greatest = greatest.max(entry.part.0);
    }
    greatest
}

fn catalog_full(catalog: &Catalog) -> Option<CatFault>
    ensures { result ≡ full catalog.now }
{
    let cause = 4096 <= catalog.as_slice().len() || greatest_part(catalog) == u32::MAX;
    fault_if(cause, CatFault::CatalogFull)
}

/// The entry that a DEFINE adds.
fn new_entry(alloc: Global, catalog: &Catalog, order: &Define) -> Result<CatEntry, OutOfMemory>
    requires { full catalog.now ≡ None }
    ensures { IfOk result (λ entry. entry ≡ entry_for catalog.now order.now) }
{
    let part = PartNo(greatest_part(catalog) + 1);
    let related = base_of(catalog, order).map(|base| base.part);
    match &order.what {
        NewEntry::Cluster {
            kind,
            spanned,
            options,
        } => new_cluster(alloc, &order.name, part, *kind, *spanned, options),
        NewEntry::Alternate {
            unique,
            options,
            ..
        } => new_alternate(alloc, &order.name, part, related, *unique, options),
        NewEntry::Path { .. } => new_path(alloc, &order.name, part, related),
    }
}

fn new_cluster(
    alloc: Global,
    name: &Name,
    part: PartNo,
    kind: Kind,
    spanned: bool,
    options: &DataOptions,
) -> Result<CatEntry, OutOfMemory>
    ensures { IfOk result (λ entry. entry ≡ cluster_of name.now part.0 kind spanned options.now) }
{
    let components = copy_components(alloc, &options.data_name, &options.index_name)?;
    let classes = copy_classes(
        alloc,
        &options.storage_class,
        &options.data_class,
        &options.management_class,
    )?;
    let name = name.copy(alloc)?;
    Ok(CatEntry {
        name,
        entry_kind: EntryKind::Cluster,
        kind: Some(kind),
        spanned,
        unique: false,
        built: false,
        part,
        related: None,
        key_length: key_of_kind(kind, options.key_length),
        key_offset: key_of_kind(kind, options.key_offset),
        average: options.average,
        maximum: options.maximum,
        first_area: None,
        free_space: options.free_space,
        share_options: options.share_options,
        space: options.space,
        primary: options.primary,
        secondary: options.secondary,
        interval_size: options.interval_size,
        data_name: components.data_name,
        index_name: components.index_name,
        storage_class: classes.storage,
        data_class: classes.data_class,
        management_class: classes.management,
    })
}

fn new_alternate(
    alloc: Global,
    name: &Name,
    part: PartNo,
    related: Option<PartNo>,
    unique: bool,
    options: &DataOptions,
) -> Result<CatEntry, OutOfMemory>
    ensures { IfOk result (λ entry.
        entry ≡ alternate_of name.now part.0 related unique options.now) }
{
    let mut entry = new_cluster(alloc, name, part, Kind::Keyed, false, options)?;
    entry.entry_kind = EntryKind::Alternate;
    entry.unique = unique;
    entry.related = related;
    Ok(entry)
}

fn new_path(
    alloc: Global,
    name: &Name,
    part: PartNo,
    related: Option<PartNo>,
) -> Result<CatEntry, OutOfMemory>
    ensures { IfOk result (λ entry. entry ≡ path_of name.now part.0 related) }
{
    Ok(CatEntry {
        name: name.copy(alloc)?,
        entry_kind: EntryKind::Path,
        kind: None,
        spanned: false,
        unique: false,
        built: false,
        part,
        related,
        key_length: 0,
        key_offset: 0,
        average: 0,
        maximum: 0,
        first_area: None,
        free_space: FreeSpace {
            interval: 0,
            area: 0,
        },
        share_options: ShareOptions {
            regions: 0,
            systems: 0,
        },
        space: SpaceUnit::Unstated,
        primary: 0,
        secondary: 0,
        interval_size: 0,
        data_name: None,
        index_name: None,
        storage_class: None,
        data_class: None,
        management_class: None,
    })
}
