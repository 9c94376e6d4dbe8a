//! The data set that PRINT and VERIFY read.
ghost use Rattle.std.specs.Prelude.{◌≡◌, map, IfOk};
ghost use Rattle.vr_ams_print.specs.Sources as stated;
ghost use Rattle.vr_ams_print.specs.Steps.{IsFound, IsFoundOn};

use std::alloc::Global;
use vr_ams_define::{catalog_failure, place_of, stopped_failure};
use vr_catalog::{CatEntry, CatFault, EntryKind};
use vr_trace::{Failure, ShownVolume};
use vr_types::{Kind, Name, OutOfMemory};

/// The cluster of a name: the number of its volume, 0 for the first, its entry, and its kind.
#[derive(Drop)]
pub struct FoundCluster {
    pub place: usize,
    pub entry: CatEntry,
    pub kind: Kind,
}

/// The kind of a cluster.
fn cluster_kind(entry: &CatEntry) -> Option<Kind>
    ensures { result ≡ stated.cluster_kind entry.now }
{
    match entry.entry_kind {
        EntryKind::Cluster => entry.kind,
        EntryKind::Alternate | EntryKind::Path => None,
    }
}

/// Whether a cluster of the kind may be read, by keys or not.
fn is_readable(keyed: bool, kind: Kind) -> bool
    ensures { result ≡ stated.is_readable keyed kind }
{
    match kind {
        Kind::Keyed => true,
        Kind::Entry | Kind::Relative => !keyed,
    }
}

/// The kind, or why it isn't read.
fn kind_read(keyed: bool, kind: Option<Kind>) -> Result<Kind, Failure>
    ensures { result ≡ stated.kind_read keyed kind }
{
    match kind {
        None => Err(catalog_failure(CatFault::WrongKind)),
        Some(kind) => {
            if is_readable(keyed, kind) {
                Ok(kind)
            } else {
                Err(catalog_failure(CatFault::WrongKind))
            }
        }
    }
}

/// The kind of an entry of a volume, or why it isn't read.
fn kind_on<V: ShownVolume>(keyed: bool, volume: &V, entry: &CatEntry) -> Result<Kind, Failure>
    ensures { result ≡ stated.kind_on keyed (V.shown volume.now) entry.now }
{
    match stopped_failure(volume) {
        Some(failure) => Err(failure),
        None => kind_read(keyed, cluster_kind(entry)),
    }
}

/// The data set of a name on the volume of this number, or why it isn't read.
fn find_on<V: ShownVolume>(
    alloc: Global,
    keyed: bool,
    volume: &V,
    place: usize,
    name: &Name,
) -> Result<Result<FoundCluster, Failure>, OutOfMemory>
    ensures { IfOk result (IsFoundOn keyed (V.shown volume.now) place name.now) }
{
    let Some(entry) = volume.catalog().find(name) else {
        return Ok(Err(catalog_failure(CatFault::NotFound)));
    };
    match kind_on(keyed, volume, entry) {
        Err(failure) => Ok(Err(failure)),
        Ok(kind) => {
            let entry = entry.copy(alloc)?;
            Ok(Ok(FoundCluster { place, entry, kind }))
        }
    }
}

/// The data set of a name, of the lowest volume that has it, or why it isn't read, by keys or not:
/// fault 2 where no volume has the name, 903 where its volume has stopped, 3 where it is no
/// cluster's, or that of one without keys where it is read by keys. Out of memory is its one error.
pub fn find_source<V: ShownVolume>(
    alloc: Global,
    keyed: bool,
    volumes: &[V],
    name: &Name,
) -> Result<Result<FoundCluster, Failure>, OutOfMemory>
    ensures { IfOk result (IsFound keyed (map V.shown volumes.now) name.now) }
{
    let Some(place) = place_of(volumes, name) else {
        return Ok(Err(catalog_failure(CatFault::NotFound)));
    };
    find_on(alloc, keyed, &volumes[place], place, name)
}
