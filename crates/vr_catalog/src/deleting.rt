//! DELETE of Access Method Services on a catalog.
ghost use Rattle.std.specs.Prelude.{◌≡◌, None, ◌++◌, IfOk, IfErr, OnOk, is_some};
ghost use Rattle.std.specs.List.{list_any, list_all};
ghost use Rattle.vr_catalog.specs.Catalog.{entry_named, is_over as over};
ghost use Rattle.vr_catalog.specs.Fault.{IsCause};
ghost use Rattle.vr_catalog.specs.Delete.{
  delete_fault,
  delete_changes,
  erase_of,
  second_related as second,
  stands_over as stands,
  goes_with as goes,
};

use crate::catalog::Catalog;
use crate::changes::{Change, Changes, NameList};
use crate::defining::fault_if;
use crate::entry::CatEntry;
use crate::fault::CatFault;
use std::alloc::Global;
use vr_types::{Name, OutOfMemory, PartNo};

/// The changes that a DELETE of these names makes: each entry that has one of the names, or stands
/// over one that has, is erased once, in the order of the catalog. Fault 2 comes exactly where one
/// of the names is of no entry.
pub fn delete(alloc: Global, catalog: &Catalog, names: &NameList) -> Result<Changes, CatFault>
    ensures allowed { IfOk result (λ _. delete_fault catalog.now names.now ≡ None) }
    ensures changes { IfOk result (λ changes. changes ≡ delete_changes catalog.now names.now) }
    ensures fault { IfErr result (IsCause (delete_fault catalog.now names.now)) }
{
    if let Some(fault) = first_fault(catalog, names) {
        return Err(fault);
    }
    let mut changes = Changes::new(alloc);
    for entry in catalog.as_slice() {
        erase(alloc, catalog, names, entry, &mut changes)?;
    }
    Ok(changes)
}

/// Adds the erase of an entry that goes with one of the names.
fn erase(
    alloc: Global,
    catalog: &Catalog,
    names: &NameList,
    entry: &CatEntry,
    changes: &mut Changes,
) -> Result<(), OutOfMemory>
    ensures { OnOk result (changes.new ≡ changes.old ++ erase_of catalog.now names.now entry.now) }
{
    if goes_with_any(catalog, entry, names) {
        changes.push(Change::Erase(entry.name.copy(alloc)?))?;
    }
    Ok(())
}

/// The fault of a name that is of no entry.
fn first_fault(catalog: &Catalog, names: &NameList) -> Option<CatFault>
    ensures { result ≡ delete_fault catalog.now names.now }
{
    fault_if(!are_there(catalog, names), CatFault::NotFound)
}

/// Whether each of the names is of an entry.
fn are_there(catalog: &Catalog, names: &NameList) -> bool
    ensures { result ≡ list_all (λ name. is_some (entry_named catalog.now name)) names.now }
{
    names.as_slice().iter().all(|name| is_there(catalog, name))
}

/// Whether an entry has the name.
fn is_there(catalog: &Catalog, name: &Name) -> bool
    ensures { result ≡ is_some (entry_named catalog.now name.now) }
{
    catalog.find(name).is_some()
}

/// Whether the entry goes with one of the names.
fn goes_with_any(catalog: &Catalog, entry: &CatEntry, names: &NameList) -> bool
    ensures { result ≡ list_any (λ name. goes catalog.now entry.now name) names.now }
{
    names
        .as_slice()
        .iter()
        .any(|name| goes_with(catalog, entry, name))
}

/// Whether the entry has the name, or stands over what has it.
fn goes_with(catalog: &Catalog, entry: &CatEntry, name: &Name) -> bool
    ensures { result ≡ goes catalog.now entry.now name.now }
{
    entry.name == *name
        || match catalog.find(name) {
            None => false,
            Some(target) => stands_over(catalog, target.part, entry),
        }
}

/// Whether the entry stands over a part, or over what stands over it.
fn stands_over(catalog: &Catalog, part: PartNo, entry: &CatEntry) -> bool
    ensures { result ≡ stands catalog.now part.0 entry.now }
{
    is_over(entry.related, part) || is_over(second_related(catalog, entry.related), part)
}

fn is_over(related: Option<PartNo>, part: PartNo) -> bool
    ensures { result ≡ over related part.0 }
{
    match related {
        None => false,
        Some(related) => related.0 == part.0,
    }
}

/// The part under the part that an entry stands over.
fn second_related(catalog: &Catalog, related: Option<PartNo>) -> Option<PartNo>
    ensures { result ≡ second catalog.now related }
{
    match catalog.find_part(related?) {
        None => None,
        Some(middle) => middle.related,
    }
}
