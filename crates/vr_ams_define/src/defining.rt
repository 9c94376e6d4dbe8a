//! A new cluster on one volume.
ghost use Rattle.std.specs.Prelude.{◌≡◌, ◌∷◌, [], false, true, IfErr, IfOk, OnOk};
ghost use Rattle.vr_catalog.specs.Entry.{is_entry};
ghost use Rattle.vr_catalog.specs.declared.changes.Change.TheVariants.{Add};
ghost use Rattle.vr_catalog.specs.declared.entry.CatEntry.{CatEntry};
ghost use Rattle.vr_ams_define.specs.Answers.{HasAnswered};
ghost use Rattle.vr_ams_define.specs.Failures.{entry_failure, record_failure};
ghost use Rattle.vr_ams_define.specs.NewCluster.{IsNewCluster};
ghost use Rattle.vr_ams_define.specs.Steps.{IsEntered, IsLater, IsUndone};
ghost use Rattle.vr_ams_define.specs.Runs.{is_plain_cluster};

use crate::answer::Defined;
use crate::asking::ask;
use crate::failure::catalog_failure;
use crate::owned::OwnedVolume;
use crate::recorded::has_record;
use crate::refusal::DefineNo;
use std::alloc::Global;
use vr_catalog::{CatEntry, CatFault, Change, Changes, Define, define};

/// The entry that the one change adds.
pub(crate) fn added(changes: &Changes) -> &CatEntry
    requires { (entry : CatEntry) × (changes.now ≡ Add entry ∷ []) }
    ensures { changes.now ≡ Add result.now ∷ [] }
{
    match changes.as_slice() {
        [Change::Add(entry)] => entry,
        _ => unreachable!(),
    }
}

/// Asks a volume for an entry, if a record spells it. What it enters comes after stamp `after`.
fn enter<V: OwnedVolume>(
    alloc: Global,
    volume: &mut V,
    line: u32,
    entry: &CatEntry,
    after: u64,
) -> Result<Defined, DefineNo>
    requires going { (V.shown volume.old).stopped ≡ false }
    requires new { is_entry entry.now ≡ true
        → IsNewCluster (V.geometry volume.old) (V.shown volume.old).catalog entry.now }
    ensures recorded { OnOk result (is_entry entry.now ≡ true) }
    ensures answered { IfOk result
        (HasAnswered V.shown V.answers line entry.now volume.old volume.new) }
    ensures undone { IfErr result
        (IsUndone V.shown (record_failure entry.now) volume.old volume.new) }
    ensures later { IsLater V.history V.goes line after volume.old volume.new }
    ensures geometry { V.geometry volume.new ≡ V.geometry volume.old }
{
    if !has_record(alloc, entry)? {
        return Err(DefineNo::Refused(catalog_failure(CatFault::CatalogFull)));
    }
    Ok(ask(volume, line, entry, after)?)
}

/// Defines a cluster on a volume that hasn't stopped, or shows why its catalog refuses that. What
/// the volume enters comes after stamp `after`.
pub(crate) fn define_on<V: OwnedVolume>(
    alloc: Global,
    volume: &mut V,
    line: u32,
    order: &Define,
    after: u64,
) -> Result<Defined, DefineNo>
    requires going { (V.shown volume.old).stopped ≡ false }
    requires plain { is_plain_cluster order.now.what ≡ true }
    ensures entered { IfOk result
        (IsEntered V.shown V.geometry V.answers line order.now volume.old volume.new) }
    ensures undone { IfErr result (IsUndone V.shown (entry_failure (V.geometry volume.old)
        (V.shown volume.old).catalog order.now) volume.old volume.new) }
    ensures later { IsLater V.history V.goes line after volume.old volume.new }
    ensures geometry { V.geometry volume.new ≡ V.geometry volume.old }
{
    let changes = define(alloc, volume.catalog(), order, &volume.geometry())?;
    enter(alloc, volume, line, added(&changes), after)
}
