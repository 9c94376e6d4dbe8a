//! ALTER of Access Method Services on a catalog.
ghost use Rattle.std.specs.Prelude.{◌≡◌, ◌∷◌, [], None, IfOk, IfErr};
ghost use Rattle.vr_catalog.specs.declared.changes.Change.TheVariants.{Erase, Add};
ghost use Rattle.std.specs.Option.{option_copied};
ghost use Rattle.vr_catalog.specs.Fault.{IsCause};
ghost use Rattle.vr_catalog.specs.Alter.{
  alter_fault,
  alter_changes,
  not_found as absent,
  alters_data as data_altered,
  path_altered as altered_path,
  new_name_taken as taken,
  altered as altered_entry,
  alter_entry as entry_changes,
};

use crate::catalog::Catalog;
use crate::changes::{Change, Changes};
use crate::defining::{fault_if, is_path_kind, name_taken};
use crate::entry::CatEntry;
use crate::fault::CatFault;
use crate::order::Alter;
use std::alloc::Global;
use vr_types::{Name, OutOfMemory};

/// The changes that an ALTER makes: the entry erased and added under its new name, or updated, or
/// none where it is given nothing. Each fault comes exactly where its cause is there and none that
/// is tried earlier: 2, 3 where a path is given FREESPACE or SHAREOPTIONS, and 1.
pub fn alter(alloc: Global, catalog: &Catalog, order: &Alter) -> Result<Changes, CatFault>
    ensures allowed { IfOk result (λ _. alter_fault catalog.now order.now ≡ None) }
    ensures changes { IfOk result (λ changes. changes ≡ alter_changes catalog.now order.now) }
    ensures fault { IfErr result (IsCause (alter_fault catalog.now order.now)) }
{
    if let Some(fault) = first_fault(catalog, order) {
        return Err(fault);
    }
    let changes = match catalog.find(&order.name) {
        None => Changes::new(alloc),
        Some(entry) => alter_entry(alloc, entry, order)?,
    };
    Ok(changes)
}

/// The first fault in the order in which they are tried.
fn first_fault(catalog: &Catalog, order: &Alter) -> Option<CatFault>
    ensures { result ≡ alter_fault catalog.now order.now }
{
    let target = catalog.find(&order.name);
    not_found(target)
        .or(path_altered(target, order))
        .or(new_name_taken(catalog, &order.new_name))
}

/// The fault of a name that is of no entry.
fn not_found(target: Option<&CatEntry>) -> Option<CatFault>
    ensures { result ≡ absent (option_copied target.entry) }
{
    match target {
        None => Some(CatFault::NotFound),
        Some(_) => None,
    }
}

/// Whether FREESPACE or SHAREOPTIONS is given.
fn alters_data(order: &Alter) -> bool
    ensures { result ≡ data_altered order.now }
{
    order.free_space.is_some() || order.share_options.is_some()
}

fn path_altered(target: Option<&CatEntry>, order: &Alter) -> Option<CatFault>
    ensures { result ≡ altered_path (option_copied target.entry) order.now }
{
    let over_path = match target {
        None => false,
        Some(entry) => is_path_kind(entry.entry_kind),
    };
    fault_if(over_path && alters_data(order), CatFault::WrongKind)
}

fn new_name_taken(catalog: &Catalog, name: &Option<Name>) -> Option<CatFault>
    ensures { result ≡ taken catalog.now name.now }
{
    match name {
        None => None,
        Some(name) => name_taken(catalog, name),
    }
}

/// The changes of an entry that is there.
fn alter_entry(alloc: Global, entry: &CatEntry, order: &Alter) -> Result<Changes, OutOfMemory>
    ensures { IfOk result (λ changes.
        changes ≡ entry_changes order.now.new_name entry.now order.now) }
{
    match &order.new_name {
        Some(_) => renamed(alloc, entry, order),
        None => updated(alloc, entry, order),
    }
}

/// The changes of an entry that keeps its name: it gets other values, or none.
fn updated(alloc: Global, entry: &CatEntry, order: &Alter) -> Result<Changes, OutOfMemory>
    ensures { IfOk result (λ changes. changes ≡ entry_changes None entry.now order.now) }
{
    let mut changes = Changes::new(alloc);
    if alters_data(order) {
        changes.push(Change::Update(altered(alloc, entry, order)?))?;
    }
    Ok(changes)
}

/// The changes of an entry that gets a new name: it is erased, and added under that.
fn renamed(alloc: Global, entry: &CatEntry, order: &Alter) -> Result<Changes, OutOfMemory>
    ensures { IfOk result (λ changes. changes
        ≡ Erase entry.now.name ∷ Add (altered_entry entry.now order.now) ∷ []) }
{
    let added = Change::Add(altered(alloc, entry, order)?);
    let erased = Change::Erase(entry.name.copy(alloc)?);
    let mut changes = Changes::new(alloc);
    changes.push(erased)?;
    changes.push(added)?;
    Ok(changes)
}

/// The entry with what it is given.
fn altered(alloc: Global, entry: &CatEntry, order: &Alter) -> Result<CatEntry, OutOfMemory>
    ensures { IfOk result (λ copy. copy ≡ altered_entry entry.now order.now) }
{
    let mut copy = entry.copy(alloc)?;
    if let Some(name) = &order.new_name {
        copy.name = name.copy(alloc)?;
    }
    copy.free_space = order.free_space.unwrap_or(entry.free_space);
    copy.share_options = order.share_options.unwrap_or(entry.share_options);
    Ok(copy)
}
