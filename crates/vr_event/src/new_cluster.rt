//! A cluster that is to be defined: its record, and the catalog with it.
ghost use Rattle.std.specs.Prelude.{◌≡◌, ◌+◌, ◌≤◌, IfOk, IsTrue, false, length};
ghost use Rattle.vr_types.specs.LogSpace.{IsLogFull, log_size};
ghost use Rattle.vr_catalog.specs.Catalog.{definition_in};
ghost use Rattle.vr_catalog.specs.declared.entry.EntryKind.TheVariants.{Cluster};
ghost use Rattle.vr_record_file.specs.Defining.{need_to_define};
ghost use Rattle.vr_event.specs.Defining as words;
ghost use Rattle.vr_event.specs.NewCluster.{IsPreparedFor};

use std::alloc::Global;
use vr_catalog::{CatEntry, Catalog, Definition};
use vr_edits::{place_in, record_of, with_entry};
use vr_types::{
    AreaNo, Bytes, FileRef, Geometry, Kind, LockName, OutOfMemory, PartNo, Place, Request,
    SharedRequest, bytes, place,
};

/// All that the definition of a cluster takes of memory: its definition, its record with the place
/// and the lock's name, its requests, and the catalog with it.
#[derive(Drop)]
pub(crate) struct NewCluster {
    pub(crate) part: PartNo,
    pub(crate) area: AreaNo,
    pub(crate) definition: Definition,
    pub(crate) place: Place,
    pub(crate) bytes: Bytes,
    pub(crate) name: LockName,
    pub(crate) add: SharedRequest,
    pub(crate) shown: Place,
    pub(crate) commit: SharedRequest,
    pub(crate) catalog: Catalog,
}

/// The entry of a cluster with its first area. It fails only if memory runs out.
fn with_area(alloc: Global, entry: &CatEntry, area: AreaNo) -> Result<CatEntry, OutOfMemory>
    ensures { IfOk result (λ with. with ≡ words.entry_with_area entry.now area) }
{
    let mut with = entry.copy(alloc)?;
    with.first_area = Some(area);
    Ok(with)
}

/// The request that adds a record to the catalog of a volume. It fails only if memory runs out.
fn add_request(alloc: Global, volume: u32, entry: &CatEntry) -> Result<SharedRequest, OutOfMemory>
    ensures { IfOk result (λ add. add ≡ words.entry_add volume entry.now) }
{
    let file = FileRef {
        volume,
        slot: 0,
        base: PartNo(0),
        path: None,
        kind: Kind::Keyed,
        known: true,
    };
    let bytes = bytes(alloc, &record_of(entry))?;
    SharedRequest::new(
        alloc,
        Request::Add {
            file,
            place: None,
            bytes,
        },
    )
}

/// The definition of a cluster.
fn definition_of(entry: &CatEntry) -> Definition
    requires { entry.now.entry_kind ≡ Cluster }
    ensures { result ≡ definition_in entry.now }
{
    match entry.cluster_definition() {
        Some(definition) => definition,
        None => unreachable!("it is a cluster"),
    }
}

/// Takes all memory that the definition of a cluster needs, whose first area is this one. It fails
/// only if memory runs out.
pub(crate) fn prepare(
    alloc: Global,
    volume: u32,
    catalog: &Catalog,
    entry: &CatEntry,
    area: AreaNo,
) -> Result<NewCluster, OutOfMemory>
    requires { entry.now.entry_kind ≡ Cluster }
    ensures { IfOk result (λ new. IsPreparedFor volume catalog.now entry.now area new) }
{
    let entry = with_area(alloc, entry, area)?;
    let record = record_of(&entry);
    let bytes = bytes(alloc, &record)?;
    let at = place(alloc, place_in(&record))?;
    let shown = at.copy(alloc)?;
    let name = LockName::Record {
        part: PartNo(0),
        place: at.copy(alloc)?,
    };
    let add = add_request(alloc, volume, &entry)?;
    let commit = SharedRequest::new(alloc, Request::Commit)?;
    let catalog = with_entry(alloc, catalog, &entry)?;
    Ok(NewCluster {
        part: entry.part,
        area,
        definition: definition_of(&entry),
        place: at,
        bytes,
        name,
        add,
        shown,
        commit,
        catalog,
    })
}

/// Whether the log has room, beside what is in use of it, for the before-image of this place, where
/// nothing stood, and for the end of its unit.
pub(crate) fn log_has_room(geometry: Geometry, used: u64, place: &Place) -> bool
    ensures yes { IsTrue result → used + need_to_define place.now ≤ log_size geometry }
    ensures no { result ≡ false → IsLogFull geometry used (need_to_define place.now) }
{
    let size = geometry.log as u64 * geometry.size.saturating_sub(16) as u64;
    let need = 20 + place.as_slice().len() as u64 + 9;
    used <= size && need <= size - used
}
