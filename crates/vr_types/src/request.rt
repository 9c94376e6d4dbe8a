//! What a deck asks for.
ghost use Rattle.std.specs.Prelude.{◌≡◌, IfOk};

use crate::memory::OutOfMemory;
use crate::unit::{Integrity, Kind, PartNo};
use crate::values::{Bytes, Place};
use std::alloc::Global;

/// A file of a deck. `slot` numbers the deck's files from 0, so two files on one cluster have
/// positions of their own. `path` is there where the file is opened by a path over an alternate
/// index. `known` is false where no catalog has the name; `kind` is the base's, and `Keyed` there.
#[derive(Clone, Copy, Debug, PartialEq, Eq)]
pub struct FileRef {
    pub volume: u32,
    pub slot: u32,
    pub base: PartNo,
    pub path: Option<PartNo>,
    pub kind: Kind,
    pub known: bool,
}

/// Which record a request asks for: the next one, the one at a place, or the first at or past a
/// place.
#[derive(Debug, Drop, PartialEq, Eq)]
pub enum Find {
    Next,
    Equal(Place),
    AtLeast(Place),
}

impl Find {
    /// Copies the value; fails only if memory runs out.
    pub fn copy(&self, alloc: Global) -> Result<Find, OutOfMemory>
        ensures { IfOk result (λ copy. copy ≡ self.now) }
    {
        match self {
            Find::Next => Ok(Find::Next),
            Find::Equal(place) => Ok(Find::Equal(place.copy(alloc)?)),
            Find::AtLeast(place) => Ok(Find::AtLeast(place.copy(alloc)?)),
        }
    }
}

/// One request of a deck, as Using Data Sets names them: GET, POINT, PUT add, PUT update, ERASE,
/// ENDREQ, and the two that end a unit of recovery. The place of an `Add` is there in a relative
/// data set alone.
#[derive(Debug, Drop, PartialEq, Eq)]
pub enum Request {
    Get {
        file: FileRef,
        find: Find,
        update: bool,
        integrity: Integrity,
    },
    Point {
        file: FileRef,
        find: Find,
    },
    Add {
        file: FileRef,
        place: Option<Place>,
        bytes: Bytes,
    },
    Update {
        file: FileRef,
        bytes: Bytes,
    },
    Erase {
        file: FileRef,
    },
    EndReq {
        file: FileRef,
    },
    Commit,
    Backout,
}

impl Request {
    /// Copies the value; fails only if memory runs out.
    pub fn copy(&self, alloc: Global) -> Result<Request, OutOfMemory>
        ensures { IfOk result (λ copy. copy ≡ self.now) }
    {
        match self {
            Request::Get {
                file,
                find,
                update,
                integrity,
            } => Ok(Request::Get {
                file: *file,
                find: find.copy(alloc)?,
                update: *update,
                integrity: *integrity,
            }),
            Request::Point { file, find } => Ok(Request::Point {
                file: *file,
                find: find.copy(alloc)?,
            }),
            Request::Add { file, place, bytes } => Ok(Request::Add {
                file: *file,
                place: copy_of_place(alloc, place)?,
                bytes: bytes.copy(alloc)?,
            }),
            Request::Update { file, bytes } => Ok(Request::Update {
                file: *file,
                bytes: bytes.copy(alloc)?,
            }),
            Request::Erase { file } => Ok(Request::Erase { file: *file }),
            Request::EndReq { file } => Ok(Request::EndReq { file: *file }),
            Request::Commit => Ok(Request::Commit),
            Request::Backout => Ok(Request::Backout),
        }
    }
}

/// A copy of the place, where there is one.
pub(crate) fn copy_of_place(
    alloc: Global,
    place: &Option<Place>,
) -> Result<Option<Place>, OutOfMemory>
    ensures { IfOk result (λ copy. copy ≡ place.now) }
{
    match place {
        None => Ok(None),
        Some(place) => Ok(Some(place.copy(alloc)?)),
    }
}
