//! What goes with an entry that is deleted.
ghost use Rattle.std.specs.Prelude.{◌≡◌, ◌++◌, ◌∷◌, [], IfErr, IfOk, OnOk};
ghost use Rattle.std.specs.List.{count_by, filter_map, flat_map, list_all};
ghost use Rattle.std.specs.Option.{option_copied};
ghost use Rattle.vr_catalog.specs.Catalog.{is_over as over};
ghost use Rattle.vr_catalog.specs.Delete.{delete_fault};
ghost use Rattle.vr_catalog.specs.Fault.{IsCause};
ghost use Rattle.vr_edits.specs.Edits as edits;
ghost use Rattle.vr_ams_define.specs.Altered.{is_alone as alone, is_sound as sound};
ghost use Rattle.vr_ams_define.specs.Deleted as stated;
ghost use Rattle.vr_ams_define.specs.EditSteps.{planned_lines};

use crate::carrying::Planned;
use crate::refusal::DefineNo;
use crate::target::{is_alone, is_sound};
use std::alloc::Global;
use vr_catalog::{CatEntry, CatFault, Catalog, Change, EntryKind, NameList, delete};
use vr_edits::CatalogEdit;
use vr_trace::NEW_LINE;
use vr_types::{Bytes, Items, Name, OutOfMemory, PartNo};

/// How many entries one edit of a catalog takes out at most: as many changes as one event makes. The
/// before-image of an entry is 268 bytes of the log, so a log of less than 17,563,657 bytes has no room
/// for one more; a larger one may.
const MOST_GONE: usize = 65_535;

/// The entry that an erase is of.
fn entry_gone<'a>(catalog: &'a Catalog, change: &Change) -> Option<&'a CatEntry>
    ensures { option_copied result ≡ stated.entry_gone catalog.now change.now }
{
    match change {
        Change::Erase(name) => catalog.find(name),
        Change::Add(_) | Change::Update(_) => None,
    }
}

/// Copies of the entries that changes erase, in order.
fn entries_gone(
    alloc: Global,
    catalog: &Catalog,
    changes: &[Change],
) -> Result<Items<CatEntry>, OutOfMemory>
    ensures { IfOk result (λ gone. gone ≡ filter_map (stated.entry_gone catalog.now) changes.now) }
{
    let mut gone = Items::new(alloc);
    for change in changes {
        if let Some(entry) = entry_gone(catalog, change) {
            gone.push(entry.copy(alloc)?)?;
        }
    }
    Ok(gone)
}

/// The list of one name.
fn one_name(alloc: Global, name: &Name) -> Result<NameList, OutOfMemory>
    ensures { IfOk result (λ names. names ≡ name.now ∷ []) }
{
    let mut names = NameList::new(alloc);
    names.push(name.copy(alloc)?)?;
    Ok(names)
}

/// Copies of the entries that go with a name, in the order of the catalog: fault 2 where no entry
/// has it.
pub(crate) fn gone_with(
    alloc: Global,
    catalog: &Catalog,
    name: &Name,
) -> Result<Items<CatEntry>, CatFault>
    ensures gone { IfOk result (λ gone. gone ≡ stated.gone_with catalog.now name.now) }
    ensures fault { IfErr result (IsCause (delete_fault catalog.now (name.now ∷ []))) }
{
    let names = one_name(alloc, name)?;
    let changes = delete(alloc, catalog, &names)?;
    Ok(entries_gone(alloc, catalog, changes.as_slice())?)
}

/// Whether an entry is a cluster's.
fn is_cluster(entry: &CatEntry) -> bool
    ensures { result ≡ edits.is_cluster_entry entry.now }
{
    match entry.entry_kind {
        EntryKind::Cluster => true,
        EntryKind::Alternate | EntryKind::Path => false,
    }
}

/// How many clusters are among these.
#[tactic(auto, using(std::proofs::lemmas::List::Sums::count_by_more_yes, std::proofs::lemmas::List::Sums::count_by_more_no))]
fn cluster_count(gone: &[CatEntry]) -> usize
    ensures { result ≡ count_by edits.is_cluster_entry gone.now }
{
    let mut count = 0;
    for entry in gone {
        if is_cluster(entry) {
            count += 1;
        }
    }
    count
}

/// Whether each is one that a catalog has.
fn are_sound(alloc: Global, entries: &[CatEntry], gone: &[CatEntry]) -> Result<bool, OutOfMemory>
    ensures { IfOk result (λ are. are ≡ list_all (sound entries.now) gone.now) }
{
    for entry in gone {
        if !is_sound(alloc, entries, entry)? {
            return Ok(false);
        }
    }
    Ok(true)
}

/// Whether no two are of one part.
fn are_apart(gone: &[CatEntry]) -> bool
    ensures { result ≡ list_all (alone gone.now) gone.now }
{
    gone.iter().all(|entry| is_alone(gone, entry))
}

/// Whether what stands over this part has it.
fn is_over(related: Option<PartNo>, part: PartNo) -> bool
    ensures { result ≡ over related part.0 }
{
    match related {
        None => false,
        Some(related) => related.0 == part.0,
    }
}

/// Whether an entry stands over one of these.
fn is_over_some(gone: &[CatEntry], other: &CatEntry) -> bool
    ensures { result ≡ edits.is_over_some gone.now other.now }
{
    gone.iter().any(|entry| is_over(other.related, entry.part))
}

/// Whether an entry is of the part of one of these.
fn is_of_some(gone: &[CatEntry], other: &CatEntry) -> bool
    ensures { result ≡ edits.is_of_some gone.now other.now }
{
    gone.iter().any(|entry| other.part.0 == entry.part.0)
}

/// Whether an entry that stands over something that goes, goes.
fn goes_too(gone: &[CatEntry], entry: &CatEntry) -> bool
    ensures { result ≡ stated.goes_too gone.now entry.now }
{
    !is_over_some(gone, entry) || is_of_some(gone, entry)
}

/// Whether all that stand over something that goes, go.
fn all_go(entries: &[CatEntry], gone: &[CatEntry]) -> bool
    ensures { result ≡ list_all (stated.goes_too gone.now) entries.now }
{
    entries.iter().all(|entry| goes_too(gone, entry))
}

/// Whether one edit can take these entries out of a catalog.
pub(crate) fn may_go(
    alloc: Global,
    catalog: &Catalog,
    gone: &Items<CatEntry>,
) -> Result<bool, OutOfMemory>
    ensures { IfOk result (λ may. may ≡ stated.may_go catalog.now gone.now) }
{
    let entries = catalog.as_slice();
    let gone = gone.as_slice();
    let few = 1 <= gone.len() && gone.len() <= MOST_GONE && cluster_count(gone) <= 1;
    Ok(few && are_sound(alloc, entries, gone)? && are_apart(gone) && all_go(entries, gone))
}

/// The word of a detail line for entries of a kind, and a blank.
fn kind_word(kind: EntryKind) -> &'static [u8]
    ensures { result.now ≡ stated.kind_word kind }
{
    match kind {
        EntryKind::Cluster => b"CLUSTER ",
        EntryKind::Alternate => b"AIX ",
        EntryKind::Path => b"PATH ",
    }
}

/// Adds the detail line of an entry that is deleted.
fn write_deleted(out: &mut Bytes, entry: &CatEntry) -> Result<(), OutOfMemory>
    ensures { OnOk result (out.new ≡ out.old ++ stated.deleted_line entry.now) }
{
    out.extend(b"DELETED ")?;
    out.extend(kind_word(entry.entry_kind))?;
    out.extend(entry.name.as_slice())?;
    out.push(NEW_LINE)
}

/// Adds those of entries that are deleted.
fn write_gone(out: &mut Bytes, gone: &[CatEntry]) -> Result<(), OutOfMemory>
    ensures { OnOk result (out.new ≡ out.old ++ flat_map stated.deleted_line gone.now) }
{
    for entry in gone {
        write_deleted(out, entry)?;
    }
    Ok(())
}

/// The detail lines of a deletion, where one is planned.
pub(crate) fn write_planned(
    alloc: Global,
    plan: &Result<Option<Planned>, DefineNo>,
) -> Result<Bytes, OutOfMemory>
    ensures { IfOk result (λ lines. lines ≡ planned_lines plan.now) }
{
    let mut lines = Bytes::new(alloc);
    if let Ok(
        Some(
            Planned {
                edit: CatalogEdit::Delete(gone),
                ..
            },
        ),
    ) = plan
    {
        write_gone(&mut lines, gone.as_slice())?;
    }
    Ok(lines)
}
