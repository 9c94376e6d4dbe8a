//! An edit of the catalog that is to be made: its records and requests, and the catalog with it.
ghost use Rattle.std.specs.Prelude.{◌≡◌, IfOk, map};
ghost use Rattle.std.specs.Option.{option_copied, option_map};
ghost use Rattle.vr_catalog.specs.Record.{spelling};
ghost use Rattle.vr_edits.specs.Edits.{entry_place};
ghost use Rattle.vr_record_file.specs.CatalogEdit.{change_asked, name_of};
ghost use Rattle.vr_record_file.specs.Defining.{entry_name};
ghost use Rattle.vr_event.specs.CatalogEdit as words;
ghost use Rattle.vr_event.specs.Defining as defining;
ghost use Rattle.vr_event.specs.PreparedEdit.{IsPreparedEdit, store_change, store_order};

use std::alloc::Global;
use vr_catalog::{CatEntry, Catalog};
use vr_edits::{CatalogEdit, edited, part_gone, place_in, record_of};
use vr_record_file::EntryStep;
use vr_types::{
    Bytes, FileRef, Find, Integrity, Kind, LockName, OutOfMemory, PartNo, Place, Request,
    SharedRequest, bytes, place,
};
use vr_volume::EntryChange;

/// All that an edit of the catalog takes of memory: its records as the store changes them, first the
/// one that is added, the names of the locks on their places, its requests, and the catalog with it.
/// `gone` is the part that goes with a cluster that is deleted.
#[derive(Drop)]
pub(crate) struct PreparedEdit {
    pub(crate) gone: Option<PartNo>,
    pub(crate) changes: Vec<EntryChange>,
    pub(crate) names: Vec<LockName>,
    pub(crate) steps: Vec<EntryStep>,
    pub(crate) commit: SharedRequest,
    pub(crate) catalog: Catalog,
}

/// The file by which the utilities are on the catalog of a volume.
fn catalog_file(volume: u32) -> FileRef
    ensures { result ≡ defining.catalog_file volume }
{
    FileRef {
        volume,
        slot: 0,
        base: PartNo(0),
        path: None,
        kind: Kind::Keyed,
        known: true,
    }
}

/// The place of the record of an entry. It fails only if memory runs out.
fn place_of(alloc: Global, entry: &CatEntry) -> Result<Place, OutOfMemory>
    ensures { IfOk result (λ at. at ≡ entry_place entry.now) }
{
    place(alloc, place_in(&record_of(entry)))
}

/// The record of an entry. It fails only if memory runs out.
fn spelled(alloc: Global, entry: &CatEntry) -> Result<Bytes, OutOfMemory>
    ensures { IfOk result (λ spelt. spelt ≡ spelling entry.now) }
{
    bytes(alloc, &record_of(entry))
}

/// The new record of an entry that is replaced. It fails only if memory runs out.
fn new_record(alloc: Global, new: Option<&CatEntry>) -> Result<Option<Bytes>, OutOfMemory>
    ensures { IfOk result (λ spelt. spelt ≡ option_map spelling (option_copied new.entry)) }
{
    match new {
        Some(new) => Ok(Some(spelled(alloc, new)?)),
        None => Ok(None),
    }
}

// ---- the records

/// The record of an entry that is replaced, or taken away. It fails only if memory runs out.
fn changed_record(
    alloc: Global,
    entry: &CatEntry,
    new: Option<&CatEntry>,
) -> Result<EntryChange, OutOfMemory>
    ensures { IfOk result (λ change. change
        ≡ store_change (words.record_changed entry.now (option_copied new.entry))) }
{
    Ok(EntryChange {
        place: place_of(alloc, entry)?,
        before: Some(spelled(alloc, entry)?),
        bytes: new_record(alloc, new)?,
    })
}

/// The record of an entry that is added. It fails only if memory runs out.
fn added_record(alloc: Global, new: &CatEntry) -> Result<EntryChange, OutOfMemory>
    ensures { IfOk result (λ change. change ≡ store_change (words.record_added new.now)) }
{
    Ok(EntryChange {
        place: place_of(alloc, new)?,
        before: None,
        bytes: Some(spelled(alloc, new)?),
    })
}

/// The records of entries that are taken away. It fails only if memory runs out.
fn gone_records(alloc: Global, gone: &[CatEntry]) -> Result<Vec<EntryChange>, OutOfMemory>
    ensures { IfOk result (λ those. those.items
        ≡ map (λ entry. store_change (words.record_gone entry)) gone.now) }
{
    let mut changes = Vec::new(alloc);
    for entry in gone {
        changes.push(changed_record(alloc, entry, None)?)?;
    }
    Ok(changes)
}

/// The records of an edit in the order in which the store changes them. It fails only if memory runs
/// out.
fn records_of(alloc: Global, edit: &CatalogEdit) -> Result<Vec<EntryChange>, OutOfMemory>
    ensures { IfOk result (λ changes. changes.items ≡ map store_change (store_order edit.now)) }
{
    match edit {
        CatalogEdit::Alter { entry, new } => {
            Ok(vec![in alloc; changed_record(alloc, entry, Some(new))?]?)
        }
        CatalogEdit::Rename { entry, new } => Ok(vec![in alloc;
            added_record(alloc, new)?,
            changed_record(alloc, entry, None)?,
        ]?),
        CatalogEdit::Delete(gone) => gone_records(alloc, gone.as_slice()),
        CatalogEdit::Add(new) => Ok(vec![in alloc; added_record(alloc, new)?]?),
    }
}

// ---- the names of locks

/// The name of the lock on the record of an entry. It fails only if memory runs out.
fn lock_name(alloc: Global, entry: &CatEntry) -> Result<LockName, OutOfMemory>
    ensures { IfOk result (λ name. name ≡ entry_name (entry_place entry.now)) }
{
    Ok(LockName::Record {
        part: PartNo(0),
        place: place_of(alloc, entry)?,
    })
}

/// The names of the locks on records that are taken away. It fails only if memory runs out.
fn gone_names(alloc: Global, gone: &[CatEntry]) -> Result<Vec<LockName>, OutOfMemory>
    ensures { IfOk result (λ those. those.items
        ≡ map (λ entry. name_of (words.record_gone entry)) gone.now) }
{
    let mut names = Vec::new(alloc);
    for entry in gone {
        names.push(lock_name(alloc, entry)?)?;
    }
    Ok(names)
}

/// The names of the locks on the records of an edit. It fails only if memory runs out.
fn names_of(alloc: Global, edit: &CatalogEdit) -> Result<Vec<LockName>, OutOfMemory>
    ensures { IfOk result (λ names. names.items ≡ map name_of (words.changes_of edit.now)) }
{
    match edit {
        CatalogEdit::Alter { entry, .. } => Ok(vec![in alloc; lock_name(alloc, entry)?]?),
        CatalogEdit::Rename { entry, new } => Ok(vec![in alloc;
            lock_name(alloc, entry)?,
            lock_name(alloc, new)?,
        ]?),
        CatalogEdit::Delete(gone) => gone_names(alloc, gone.as_slice()),
        CatalogEdit::Add(new) => Ok(vec![in alloc; lock_name(alloc, new)?]?),
    }
}

// ---- the requests

/// The request that gets the record of an entry for update. It fails only if memory runs out.
fn get_request(alloc: Global, volume: u32, entry: &CatEntry) -> Result<SharedRequest, OutOfMemory>
    ensures { IfOk result (λ get. get ≡ words.get_of volume (entry_place entry.now)) }
{
    let find = Find::Equal(place_of(alloc, entry)?);
    SharedRequest::new(
        alloc,
        Request::Get {
            file: catalog_file(volume),
            find,
            update: true,
            integrity: Integrity::Nri,
        },
    )
}

/// The request that replaces the record, or erases it. It fails only if memory runs out.
fn change_request(
    alloc: Global,
    volume: u32,
    new: Option<&CatEntry>,
) -> Result<SharedRequest, OutOfMemory>
    ensures { IfOk result (λ change. change ≡ change_asked (defining.catalog_file volume)
        (option_map spelling (option_copied new.entry))) }
{
    let file = catalog_file(volume);
    let request = match new {
        Some(new) => Request::Update {
            file,
            bytes: spelled(alloc, new)?,
        },
        None => Request::Erase { file },
    };
    SharedRequest::new(alloc, request)
}

/// What is done with the record of an entry that is replaced, or taken away. It fails only if memory
/// runs out.
fn changed_step(
    alloc: Global,
    volume: u32,
    entry: &CatEntry,
    new: Option<&CatEntry>,
) -> Result<EntryStep, OutOfMemory>
    ensures { IfOk result (λ step. step
        ≡ words.step_for volume (words.record_changed entry.now (option_copied new.entry))) }
{
    Ok(EntryStep::Change {
        get: get_request(alloc, volume, entry)?,
        change: change_request(alloc, volume, new)?,
        got: place_of(alloc, entry)?,
        changed: place_of(alloc, entry)?,
        shown: spelled(alloc, entry)?,
    })
}

/// What is done with the record of an entry that is added. It fails only if memory runs out.
fn added_step(alloc: Global, volume: u32, new: &CatEntry) -> Result<EntryStep, OutOfMemory>
    ensures { IfOk result (λ step. step ≡ words.step_for volume (words.record_added new.now)) }
{
    let request = Request::Add {
        file: catalog_file(volume),
        place: None,
        bytes: spelled(alloc, new)?,
    };
    Ok(EntryStep::Add {
        add: SharedRequest::new(alloc, request)?,
        added: place_of(alloc, new)?,
    })
}

/// What is done with the records of entries that are taken away. It fails only if memory runs
/// out.
fn gone_steps(alloc: Global, volume: u32, gone: &[CatEntry]) -> Result<Vec<EntryStep>, OutOfMemory>
    ensures { IfOk result (λ those. those.items
        ≡ map (λ entry. words.step_for volume (words.record_gone entry)) gone.now) }
{
    let mut steps = Vec::new(alloc);
    for entry in gone {
        steps.push(changed_step(alloc, volume, entry, None)?)?;
    }
    Ok(steps)
}

/// What an edit does with its records. It fails only if memory runs out.
fn steps_of(alloc: Global, volume: u32, edit: &CatalogEdit) -> Result<Vec<EntryStep>, OutOfMemory>
    ensures { IfOk result (λ steps. steps.items ≡ words.steps_of volume edit.now) }
{
    match edit {
        CatalogEdit::Alter { entry, new } => {
            Ok(vec![in alloc; changed_step(alloc, volume, entry, Some(new))?]?)
        }
        CatalogEdit::Rename { entry, new } => Ok(vec![in alloc;
            changed_step(alloc, volume, entry, None)?,
            added_step(alloc, volume, new)?,
        ]?),
        CatalogEdit::Delete(gone) => gone_steps(alloc, volume, gone.as_slice()),
        CatalogEdit::Add(new) => Ok(vec![in alloc; added_step(alloc, volume, new)?]?),
    }
}

// ---- all of it

/// Takes all memory that an edit of the catalog of a volume needs. It fails only if memory runs out.
pub(crate) fn prepare_edit(
    alloc: Global,
    volume: u32,
    catalog: &Catalog,
    edit: &CatalogEdit,
) -> Result<PreparedEdit, OutOfMemory>
    ensures { IfOk result (λ prepared.
        IsPreparedEdit volume catalog.now edit.now prepared) }
{
    Ok(PreparedEdit {
        gone: part_gone(edit),
        changes: records_of(alloc, edit)?,
        names: names_of(alloc, edit)?,
        steps: steps_of(alloc, volume, edit)?,
        commit: SharedRequest::new(alloc, Request::Commit)?,
        catalog: edited(alloc, catalog, edit)?,
    })
}
