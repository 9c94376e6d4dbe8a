//! DEFINE of what stands over another entry: an alternate index or a path.
ghost use Rattle.std.specs.Prelude.{◌≡◌, ◌∷◌, ◌<◌, [], length, map, IfErr, IfOk, IsErr};
ghost use Rattle.std.specs.Prelude.{None};
ghost use Rattle.std.specs.Option.{option_copied};
ghost use Rattle.vr_catalog.specs.Define.{new_entry as new_entry_of, related_name as related_of};
ghost use Rattle.vr_ams_define.specs.EditSteps.{IsBase, IsPlanned, IsRefusedBy};
ghost use Rattle.vr_ams_define.specs.Failures.{entry_failure};
ghost use Rattle.vr_ams_define.specs.Grown.{AreRunOn};
ghost use Rattle.vr_ams_define.specs.Over as stated;

use crate::carrying::{Planned, carry_out};
use crate::chosen::may_define_on;
use crate::defining::added;
use crate::failure::{catalog_failure, failure_if, name_failure};
use crate::outcome::outcome_by;
use crate::owned::OwnedVolume;
use crate::recorded::has_record;
use crate::refusal::DefineNo;
use crate::target::{Target, find_target};
use std::alloc::Global;
use vr_catalog::{CatEntry, CatFault, Define, EntryKind, NewEntry, define};
use vr_edits::CatalogEdit;
use vr_trace::{Failure, Outcome, RunNo, ShownVolume};
use vr_types::{Bytes, Name};

/// The name in RELATE or PATHENTRY.
fn related_name(what: &NewEntry) -> Option<&Name>
    ensures { option_copied result ≡ related_of what.now }
{
    match what {
        NewEntry::Cluster { .. } => None,
        NewEntry::Alternate { related, .. } | NewEntry::Path { related } => Some(related),
    }
}

/// The entry that RELATE or PATHENTRY names, or why it can't be used.
fn find_base<V: ShownVolume>(
    alloc: Global,
    volumes: &[V],
    what: &NewEntry,
) -> Result<Target, DefineNo>
    ensures base { IfOk result (IsBase (map V.shown volumes.now) what.now) }
    ensures within { IfOk result (λ base. base.place < length volumes.now) }
    ensures refused { IfErr result (IsRefusedBy
        (stated.base_failure (map V.shown volumes.now) (related_of what.now))) }
{
    match related_name(what) {
        None => Err(DefineNo::Refused(catalog_failure(CatFault::NotFound))),
        Some(name) => find_target(alloc, volumes, name),
    }
}

/// Whether VOLUMES, where it is given, names the volume of this number, or is `*`.
fn is_volume_of(volume: &Option<Bytes>, number: usize) -> bool
    ensures { result ≡ stated.is_volume_of volume.now number }
{
    volume.is_none() || may_define_on(volume, number)
}

/// Why the definition is refused, whatever its volume's catalog has beside the base.
fn early_failure<V: ShownVolume>(
    volumes: &[V],
    base: &Target,
    order: &Define,
    volume: &Option<Bytes>,
) -> Option<Failure>
    ensures { result ≡ stated.early_failure (map V.shown volumes.now) base.now.entry base.now.place
        order.now volume.now }
{
    let is_path = base.entry.entry_kind == EntryKind::Path;
    let other = !is_volume_of(volume, base.place);
    failure_if(is_path, catalog_failure(CatFault::WrongKind)).or(name_failure(
        volumes,
        &order.name,
    ).or(failure_if(other, catalog_failure(CatFault::NoVolume))))
}

/// The entry that a volume's catalog is to have, or why it refuses that.
fn new_entry<V: OwnedVolume>(
    alloc: Global,
    volume: &V,
    order: &Define,
) -> Result<CatEntry, DefineNo>
    ensures new { IfOk result (λ new.
        new ≡ new_entry_of (V.shown volume.now).catalog order.now) }
    ensures allowed { IfOk result (λ _. entry_failure (V.geometry volume.now)
        (V.shown volume.now).catalog order.now ≡ None) }
    ensures refused { IfErr result (IsRefusedBy
        (entry_failure (V.geometry volume.now) (V.shown volume.now).catalog order.now)) }
{
    let changes = define(alloc, volume.catalog(), order, &volume.geometry())?;
    let new = added(&changes).copy(alloc)?;
    if !has_record(alloc, &new)? {
        return Err(DefineNo::Refused(catalog_failure(CatFault::CatalogFull)));
    }
    Ok(new)
}

/// The edit that adds the entry of a definition, or why that is refused.
fn plan_over<V: OwnedVolume>(
    alloc: Global,
    volumes: &[V],
    order: &Define,
    volume: &Option<Bytes>,
) -> Result<Option<Planned>, DefineNo>
    ensures planned { IfOk result (IsPlanned (map V.shown volumes.now) (map V.geometry volumes.now)
        (stated.over_failure (map V.shown volumes.now) (map V.geometry volumes.now) order.now
        volume.now)
        (stated.base_place (map V.shown volumes.now) order.now)
        (stated.over_edit (map V.shown volumes.now) order.now)) }
    ensures refused { IfErr result (IsRefusedBy (stated.over_failure (map V.shown volumes.now)
        (map V.geometry volumes.now) order.now volume.now)) }
{
    let base = find_base(alloc, volumes, &order.what)?;
    if let Some(failure) = early_failure(volumes, &base, order, volume) {
        return Err(DefineNo::Refused(failure));
    }
    let new = new_entry(alloc, &volumes[base.place], order)?;
    Ok(Some(Planned {
        place: base.place,
        edit: CatalogEdit::Add(new),
    }))
}

/// DEFINE ALTERNATEINDEX or DEFINE PATH of Access Method Services Commands over the volumes, volume
/// 0 first, which no deck has: the entry is added to the catalog of the lowest volume that has the
/// name in RELATE or PATHENTRY. An alternate index isn't built yet, and has no area. It is refused,
/// and no volume changes, with the first of these: fault 2 where no volume has that name; 903 where
/// the volume has stopped; 3 where no record spells the entry of that name, or another entry has its
/// part, or it is a path; 1 where the new name is on some volume; 4 where VOLUMES (`volume`) names
/// another volume, or none; 9, 5, 6, 7, 10 and 14 by the catalog. Else the volume is asked: fault
/// 901 where a lock or a live unit of recovery is in the way, 902 where its log is full, 8 where its
/// catalog has no room for the entry and no area is free, 904 and 905 where its device fails. What
/// is entered comes after all that the volumes have. Where stamps or memory run out, no volume shows
/// anything else than it showed. A cluster is over no entry, as where none has the name.
pub fn define_over<V: OwnedVolume>(
    alloc: Global,
    volumes: &mut [V],
    line: u32,
    order: &Define,
    volume: &Option<Bytes>,
) -> Result<Outcome, RunNo>
    ensures defined { IfOk result (stated.IsDefinedOver V.shown V.geometry V.answers line order.now
        volume.now volumes.old volumes.new) }
    ensures unchanged { IsErr result → map V.shown volumes.new ≡ map V.shown volumes.old }
    ensures ran { AreRunOn V.history V.goes (line ∷ []) volumes.old volumes.new }
    ensures geometry { map V.geometry volumes.new ≡ map V.geometry volumes.old }
{
    let plan = plan_over(alloc, volumes, order, volume);
    let why = carry_out(volumes, line, &plan)?;
    Ok(outcome_by(alloc, why))
}
