//! ALTER.
ghost use Rattle.std.specs.Prelude.{◌≡◌, ◌∷◌, [], map, IfErr, IfOk, IsErr, None, Some};
ghost use Rattle.vr_catalog.specs.Alter.{altered as altered_entry, alters_data as is_altering};
ghost use Rattle.vr_ams_define.specs.Altered as stated;
ghost use Rattle.vr_ams_define.specs.EditSteps.{IsPlanned, IsRefusedBy};
ghost use Rattle.vr_ams_define.specs.Grown.{AreRunOn};

use crate::carrying::{Planned, carry_out};
use crate::failure::{catalog_failure, failure_if, name_failure};
use crate::outcome::outcome_by;
use crate::owned::OwnedVolume;
use crate::recorded::has_record;
use crate::refusal::DefineNo;
use crate::target::find_target;
use std::alloc::Global;
use vr_catalog::{Alter, CatEntry, CatFault, EntryKind};
use vr_edits::CatalogEdit;
use vr_trace::{Failure, Outcome, RunNo, ShownVolume};
use vr_types::{Name, OutOfMemory};

/// Whether FREESPACE or SHAREOPTIONS is given.
fn alters_data(order: &Alter) -> bool
    ensures { result ≡ is_altering order.now }
{
    order.free_space.is_some() || order.share_options.is_some()
}

/// A copy of the entry with what it is given.
fn altered(alloc: Global, entry: &CatEntry, order: &Alter) -> Result<CatEntry, OutOfMemory>
    ensures { IfOk result (λ new. new ≡ altered_entry entry.now order.now) }
{
    let mut new = entry.copy(alloc)?;
    if let Some(name) = &order.new_name {
        new.name = name.copy(alloc)?;
    }
    new.free_space = order.free_space.unwrap_or(entry.free_space);
    new.share_options = order.share_options.unwrap_or(entry.share_options);
    Ok(new)
}

/// Whether the entry is a path, and is given FREESPACE or SHAREOPTIONS.
fn is_path_altered(entry: &CatEntry, order: &Alter) -> bool
    ensures { result ≡ stated.is_path_altered entry.now order.now }
{
    entry.entry_kind == EntryKind::Path && alters_data(order)
}

/// The failure of a new name that is in use on some volume.
fn new_name_failure<V: ShownVolume>(volumes: &[V], name: &Option<Name>) -> Option<Failure>
    ensures { result ≡ stated.new_name_failure (map V.shown volumes.now) name.now }
{
    match name {
        None => None,
        Some(name) => name_failure(volumes, name),
    }
}

/// What is in the way of what the entry is given, if something is.
fn early_failure<V: ShownVolume>(volumes: &[V], entry: &CatEntry, order: &Alter) -> Option<Failure>
    ensures { result ≡ stated.early_failure (map V.shown volumes.now) entry.now order.now }
{
    let path = is_path_altered(entry, order);
    failure_if(path, catalog_failure(CatFault::WrongKind)).or(new_name_failure(
        volumes,
        &order.new_name,
    ))
}

/// What the entry is to be, or why it isn't altered.
fn find_altered<V: ShownVolume>(
    alloc: Global,
    volumes: &[V],
    entry: &CatEntry,
    order: &Alter,
) -> Result<CatEntry, DefineNo>
    ensures altered { IfOk result (λ new. new ≡ altered_entry entry.now order.now) }
    ensures allowed { IfOk result (λ _. stated.given_failure (map V.shown volumes.now)
        (Some entry.now) order.now ≡ None) }
    ensures refused { IfErr result (IsRefusedBy
        (stated.given_failure (map V.shown volumes.now) (Some entry.now) order.now)) }
{
    if let Some(failure) = early_failure(volumes, entry, order) {
        return Err(DefineNo::Refused(failure));
    }
    let new = altered(alloc, entry, order)?;
    if !has_record(alloc, &new)? {
        return Err(DefineNo::Refused(catalog_failure(CatFault::CatalogFull)));
    }
    Ok(new)
}

/// The edit of an entry that becomes the other, if it is given anything.
fn edit_of(order: &Alter, entry: CatEntry, new: CatEntry) -> Option<CatalogEdit>
    requires { new ≡ altered_entry entry order.now }
    ensures { result ≡ stated.edit_of order.now.new_name entry order.now }
{
    if order.new_name.is_some() {
        Some(CatalogEdit::Rename { entry, new })
    } else if alters_data(order) {
        Some(CatalogEdit::Alter { entry, new })
    } else {
        None
    }
}

/// The edit of an ALTER, if it gives anything, or why it is refused.
fn plan_alter<V: OwnedVolume>(
    alloc: Global,
    volumes: &[V],
    order: &Alter,
) -> Result<Option<Planned>, DefineNo>
    ensures planned { IfOk result (IsPlanned (map V.shown volumes.now) (map V.geometry volumes.now)
        (stated.alter_failure (map V.shown volumes.now) order.now)
        (stated.place_of (map V.shown volumes.now) order.now.name)
        (stated.alter_edit (map V.shown volumes.now) order.now)) }
    ensures refused { IfErr result
        (IsRefusedBy (stated.alter_failure (map V.shown volumes.now) order.now)) }
{
    let target = find_target(alloc, volumes, &order.name)?;
    let new = find_altered(alloc, volumes, &target.entry, order)?;
    let place = target.place;
    match edit_of(order, target.entry, new) {
        None => Ok(None),
        Some(edit) => Ok(Some(Planned { place, edit })),
    }
}

/// ALTER of Access Method Services Commands, of the name, the FREESPACE and the SHAREOPTIONS of a
/// cluster or an alternate index, or of the name of a path, over the volumes, volume 0 first, which
/// no deck has. It is refused, and no volume changes, with the first of these: fault 2 where no
/// volume has the name; 903 where the lowest that has it has stopped; 3 where no record spells its
/// entry, or another entry has its part, or it is a path and FREESPACE or SHAREOPTIONS is given; 1
/// where the new name is on some volume; 14 where no record spells the entry as it is to be. An ALTER
/// that gives nothing changes nothing. Else the volume is asked: fault 901 where a lock or a live
/// unit of recovery is in the way, 902 where its log is full, 8 where its catalog has no room for
/// the new name and no area is free, 904 and 905 where its device fails. What is entered comes after
/// all that the volumes have. Where stamps or memory run out, no volume shows anything else than it
/// showed.
pub fn alter_entry<V: OwnedVolume>(
    alloc: Global,
    volumes: &mut [V],
    line: u32,
    order: &Alter,
) -> Result<Outcome, RunNo>
    ensures altered { IfOk result (stated.IsAlteredBy V.shown V.answers line order.now volumes.old
        volumes.new) }
    ensures unchanged { IsErr result → map V.shown volumes.new ≡ map V.shown volumes.old }
    ensures ran { AreRunOn V.history V.goes (line ∷ []) volumes.old volumes.new }
    ensures geometry { map V.geometry volumes.new ≡ map V.geometry volumes.old }
{
    let plan = plan_alter(alloc, volumes, order);
    let why = carry_out(volumes, line, &plan)?;
    Ok(outcome_by(alloc, why))
}
