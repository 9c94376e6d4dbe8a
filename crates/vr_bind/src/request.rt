//! What an order requests.
ghost use Rattle.std.specs.Prelude.{◌≡◌, IfOk};
ghost use Rattle.vr_bind.specs.Bound.{request_of, file_asked};
ghost use Rattle.vr_bind.specs.Named.{file_at};
ghost use Rattle.vr_bind.specs.Places.{find_in, slot_in};
ghost use Rattle.vr_types.specs.declared.request.Request.TheVariants as requests;

use crate::named::file_at;
use crate::places::{find_in, slot_in};
use std::alloc::Global;
use vr_deck_text::{Ask, At, Seek};
use vr_types::{Bytes, FileRef, Integrity, OutOfMemory, Request};

/// What an order requests.
pub(crate) fn request_of(
    alloc: Global,
    files: &[FileRef],
    ask: &Ask,
) -> Result<Request, OutOfMemory>
    ensures { IfOk result (λ request. request ≡ request_of files.now ask.now) }
{
    match ask {
        Ask::Get {
            file,
            seek,
            update,
            integrity,
        } => get(alloc, file_at(files, *file), seek, *update, *integrity),
        Ask::Point { file, seek } => point(alloc, file_at(files, *file), seek),
        Ask::Add { file, at, bytes } => add(alloc, file_at(files, *file), at, bytes),
        Ask::Update { file, bytes } => update(alloc, file_at(files, *file), bytes),
        Ask::Erase { file } => Ok(Request::Erase {
            file: file_at(files, *file),
        }),
        Ask::EndReq { file } => Ok(Request::EndReq {
            file: file_at(files, *file),
        }),
        Ask::Commit => Ok(Request::Commit),
        Ask::Backout => Ok(Request::Backout),
    }
}

/// A GET.
fn get(
    alloc: Global,
    file: FileRef,
    seek: &Seek,
    update: bool,
    integrity: Integrity,
) -> Result<Request, OutOfMemory>
    ensures { IfOk result
        (λ request. request ≡ requests.Get file (find_in file seek.now) update integrity) }
{
    Ok(Request::Get {
        file,
        find: find_in(alloc, file, seek)?,
        update,
        integrity,
    })
}

/// A POINT.
fn point(alloc: Global, file: FileRef, seek: &Seek) -> Result<Request, OutOfMemory>
    ensures { IfOk result (λ request. request ≡ requests.Point file (find_in file seek.now)) }
{
    Ok(Request::Point {
        file,
        find: find_in(alloc, file, seek)?,
    })
}

/// A PUT that adds a record.
fn add(alloc: Global, file: FileRef, at: &Option<At>, bytes: &Bytes) -> Result<Request, OutOfMemory>
    ensures { IfOk result
        (λ request. request ≡ requests.Add file (slot_in file at.now) bytes.now) }
{
    let place = slot_in(alloc, file, at)?;
    Ok(Request::Add {
        file,
        place,
        bytes: bytes.copy(alloc)?,
    })
}

/// A PUT that updates a record.
fn update(alloc: Global, file: FileRef, bytes: &Bytes) -> Result<Request, OutOfMemory>
    ensures { IfOk result (λ request. request ≡ requests.Update file bytes.now) }
{
    Ok(Request::Update {
        file,
        bytes: bytes.copy(alloc)?,
    })
}

/// The number of the file that an order is on.
pub(crate) fn file_asked(ask: &Ask) -> Option<u32>
    ensures { result ≡ file_asked ask.now }
{
    match ask {
        Ask::Get { file, .. }
        | Ask::Point { file, .. }
        | Ask::Add { file, .. }
        | Ask::Update { file, .. }
        | Ask::Erase { file }
        | Ask::EndReq { file } => Some(*file),
        Ask::Commit | Ask::Backout => None,
    }
}
