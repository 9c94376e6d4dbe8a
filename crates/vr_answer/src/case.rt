//! What a volume has in memory of a request that it meets.
ghost use Rattle.std.specs.Prelude.{◌≡◌, IfSome};
ghost use Rattle.std.specs.Option.{option_map_or};
ghost use Rattle.vr_types.specs.declared.unit.Kind.TheVariants.{Keyed};
ghost use Rattle.vr_history.specs.Case as cases;
ghost use Rattle.vr_history.specs.Opened as files;
ghost use Rattle.vr_answer.specs.Here as here;
ghost use Rattle.vr_answer.specs.InHand.{InEachFile};
ghost use Rattle.vr_answer.specs.Opening.{as_opened, definition_here};
ghost use Rattle.vr_answer.specs.Scope.{HasKeyedAlone};

use vr_catalog::{Catalog, Definition};
use vr_locks::LockTable;
use vr_types::{FileRef, Geometry, PartNo, Place, Request, Stand, Unit};

/// A request with what a volume has in memory when it meets it: its shape, its catalog and its
/// locks; the place that the request's file holds for update, and where the file stands, None where
/// its deck hasn't used it yet, so that it stands at its start; the stamp of the write fault that
/// stopped the volume; the number of free areas and the bytes of the log in use; the address that
/// the record of an add gets in an entry-sequenced data set, as a place, None of others, and the
/// number of areas of the data set, which counts where it is entry-sequenced or relative; the unit
/// of recovery that asks; and whether a live unit of the utilities changed the catalog.
#[derive(Clone, Copy)]
pub struct Case<'a> {
    pub geometry: Geometry,
    pub catalog: &'a Catalog,
    pub locks: &'a LockTable,
    pub held: Option<&'a Place>,
    pub stand: Option<&'a Stand>,
    pub stopped: Option<u64>,
    pub free: u32,
    pub used: u64,
    pub address: Option<&'a [u8]>,
    pub areas: u32,
    pub unit: Unit,
    pub request: &'a Request,
    pub catalog_changing: bool,
}

/// What a request comes to: the place that it reads or changes, and the record that stands there.
#[derive(Clone, Copy)]
pub struct Looked<'a> {
    pub place: Option<&'a [u8]>,
    pub present: Option<&'a [u8]>,
}

/// The file that a request is on.
pub fn file_of(request: &Request) -> Option<FileRef>
    ensures { result ≡ cases.file_of request.now }
{
    match request {
        Request::Get { file, .. } | Request::Point { file, .. } => Some(*file),
        Request::Add { file, .. } | Request::Update { file, .. } => Some(*file),
        Request::Erase { file } | Request::EndReq { file } => Some(*file),
        Request::Commit | Request::Backout => None,
    }
}

/// The part of the base cluster of the request's file, 0 where there is no file.
pub(crate) fn base_of(request: &Request) -> PartNo
    ensures { result.0 ≡ here.base_here request.now }
{
    match file_of(request) {
        None => PartNo(0),
        Some(file) => file.base,
    }
}

/// The definition of the cluster that the request's file is on.
pub(crate) fn definition(case: &Case) -> Option<Definition>
    ensures { result ≡ definition_here case.now }
{
    match file_of(case.request) {
        None => None,
        Some(file) => {
            if file.known && file.path.is_none() {
                case.catalog.definition_of(file.base)
            } else {
                None
            }
        }
    }
}

/// The definition of the cluster that the request's file is on; None where there is no file, or
/// nothing that can be opened by its name.
pub fn opened(case: &Case) -> Option<Definition>
    ensures value { InEachFile case.now (λ whole. files.opened whole ≡ as_opened result) }
    // and the cluster is key-sequenced, where all are
    ensures keyed { InEachFile case.now (λ whole. HasKeyedAlone whole.state
        → IfSome result (λ known. known.kind ≡ Keyed)) }
{
    definition(case)
}
