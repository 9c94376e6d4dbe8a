//! The catalog with an edit, and the part that goes with it.
ghost use Rattle.std.specs.Prelude.{◌≡◌, IfOk};
ghost use Rattle.std.specs.List.{find};
ghost use Rattle.std.specs.Option.{option_copied};
ghost use Rattle.std.specs.Ordering.{is_lt};
ghost use Rattle.vr_types.specs.Content.{place_cmp};
ghost use Rattle.vr_edits.specs.Edits as words;

use crate::edit::CatalogEdit;
use crate::records::{place_in, record_of};
use std::alloc::Global;
use vr_catalog::{CatEntry, Catalog, EntryKind};
use vr_types::{OutOfMemory, PartNo};

/// Whether an entry is of the same part.
fn is_of_part(entry: &CatEntry, other: &CatEntry) -> bool
    ensures { result ≡ words.is_of_part entry.now other.now }
{
    other.part.0 == entry.part.0
}

/// Whether the record of an entry comes before that of another.
fn comes_before(new: &CatEntry, other: &CatEntry) -> bool
    ensures { result
        ≡ is_lt (place_cmp (words.entry_place new.now) (words.entry_place other.now)) }
{
    let here = record_of(new);
    let there = record_of(other);
    place_in(&here).cmp(&place_in(&there)).is_lt()
}

/// The catalog with one entry more, in its order. It fails only if memory runs out.
pub fn with_entry(alloc: Global, catalog: &Catalog, new: &CatEntry) -> Result<Catalog, OutOfMemory>
    ensures { IfOk result (λ with. with ≡ words.with_entry new.now catalog.now) }
{
    let mut with = Catalog::new(alloc);
    let mut placed = false;
    for entry in catalog.as_slice() {
        if !placed && comes_before(new, entry) {
            with.push(new.copy(alloc)?)?;
            placed = true;
        }
        with.push(entry.copy(alloc)?)?;
    }
    if !placed {
        with.push(new.copy(alloc)?)?;
    }
    Ok(with)
}

/// The catalog without an entry. It fails only if memory runs out.
fn without_entry(alloc: Global, catalog: &Catalog, entry: &CatEntry) -> Result<Catalog, OutOfMemory>
    ensures { IfOk result (λ without. without ≡ words.without_entry entry.now catalog.now) }
{
    let mut without = Catalog::new(alloc);
    for other in catalog.as_slice() {
        if !is_of_part(entry, other) {
            without.push(other.copy(alloc)?)?;
        }
    }
    Ok(without)
}

/// The catalog without several. It fails only if memory runs out.
fn without_entries(
    alloc: Global,
    catalog: &Catalog,
    gone: &[CatEntry],
) -> Result<Catalog, OutOfMemory>
    ensures { IfOk result (λ without. without ≡ words.without_entries gone.now catalog.now) }
{
    let mut without = catalog.copy(alloc)?;
    for entry in gone {
        without = without_entry(alloc, &without, entry)?;
    }
    Ok(without)
}

/// A copy of an entry, with the FREESPACE and the SHAREOPTIONS of the altered one where it is of
/// its part. It fails only if memory runs out.
fn altered_by(alloc: Global, new: &CatEntry, other: &CatEntry) -> Result<CatEntry, OutOfMemory>
    ensures { IfOk result (λ copy. copy ≡ words.altered_by new.now other.now) }
{
    let mut copy = other.copy(alloc)?;
    if is_of_part(new, other) {
        copy.free_space = new.free_space;
        copy.share_options = new.share_options;
    }
    Ok(copy)
}

/// The catalog with an entry altered. It fails only if memory runs out.
fn with_altered(alloc: Global, catalog: &Catalog, new: &CatEntry) -> Result<Catalog, OutOfMemory>
    ensures { IfOk result (λ with. with ≡ words.with_altered new.now catalog.now) }
{
    let mut with = Catalog::new(alloc);
    for entry in catalog.as_slice() {
        with.push(altered_by(alloc, new, entry)?)?;
    }
    Ok(with)
}

/// The catalog with an entry in place of the one of its part, where its name puts it. It fails only
/// if memory runs out.
fn with_renamed(
    alloc: Global,
    catalog: &Catalog,
    entry: &CatEntry,
    new: &CatEntry,
) -> Result<Catalog, OutOfMemory>
    ensures { IfOk result (λ with. with
        ≡ words.with_entry new.now (words.without_entry entry.now catalog.now)) }
{
    let without = without_entry(alloc, catalog, entry)?;
    with_entry(alloc, &without, new)
}

/// The catalog once an edit is made. It fails only if memory runs out.
pub fn edited(alloc: Global, catalog: &Catalog, edit: &CatalogEdit) -> Result<Catalog, OutOfMemory>
    ensures { IfOk result (λ made. made ≡ words.edited edit.now catalog.now) }
{
    match edit {
        CatalogEdit::Alter { new, .. } => with_altered(alloc, catalog, new),
        CatalogEdit::Rename { entry, new } => with_renamed(alloc, catalog, entry, new),
        CatalogEdit::Delete(gone) => without_entries(alloc, catalog, gone.as_slice()),
        CatalogEdit::Add(new) => with_entry(alloc, catalog, new),
    }
}

/// Whether an entry is of a cluster.
fn is_cluster(entry: &CatEntry) -> bool
    ensures { result ≡ words.is_cluster_entry entry.now }
{
    match entry.entry_kind {
        EntryKind::Cluster => true,
        EntryKind::Alternate | EntryKind::Path => false,
    }
}

/// The first entry of these that is of a cluster.
fn first_cluster(gone: &[CatEntry]) -> Option<&CatEntry>
    ensures { option_copied result ≡ find words.is_cluster_entry gone.now }
{
    gone.iter().find(|entry| is_cluster(entry))
}

/// The part that goes with an edit: that of a cluster that is deleted, with its records.
pub fn part_gone(edit: &CatalogEdit) -> Option<PartNo>
    ensures { result ≡ words.part_gone edit.now }
{
    match edit {
        CatalogEdit::Delete(gone) => match first_cluster(gone.as_slice()) {
            Some(entry) => Some(entry.part),
            None => None,
        },
        CatalogEdit::Alter { .. } | CatalogEdit::Rename { .. } | CatalogEdit::Add(_) => None,
    }
}
