//! The volumes of a directory, its files `vol00`, `vol01` and on, as a shelf of devices.

use crate::shape::{Shape, shape_of, unread};
use std::alloc::Global;
use std::fs::{File, Files};
use std::io::ErrorKind;
use vr_device::{FileDevice, HostFile, LockedFile};
use vr_types::{Geometry, OutOfMemory};

/// A volume's file, as a device.
pub type Volume = FileDevice<HostFile>;

/// How many names are looked for at most: one more than there may be volumes, so that a directory
/// with more is refused.
const NAME_LIMIT: u32 = 17;

/// The volumes that are there: those from `vol00` on up to the first name that isn't there, each of
/// the shape that its header states. One that can't be opened is the last: of two programs that begin
/// at once, the one that locks the first file then gets the others too.
pub fn open_volumes<R: AllocGlobal + Files<File = File>>(
    rt: &R,
    dir: &str,
) -> Result<Vec<Volume>, OutOfMemory> {
    let mut shelf = Vec::new(rt.alloc());
    for number in 0..NAME_LIMIT {
        let path = volume_path(rt.alloc(), dir, number)?;
        match LockedFile::open(rt, path.as_str()) {
            Ok(file) => shelf.push(volume_over(file))?,
            Err(error) if is_absent(error.kind()) => break,
            Err(_) => {
                shelf.push(over_nothing(unread()))?;
                break;
            }
        }
    }
    Ok(shelf)
}

/// New files for this many volumes of this shape, each made and locked before it is cleared. Where no
/// volume may have the shape, no file is opened. After one that can't be opened none is.
pub fn new_volumes<R: AllocGlobal + Files<File = File>>(
    rt: &R,
    dir: &str,
    count: u32,
    shape: Geometry,
) -> Result<Vec<Volume>, OutOfMemory> {
    let mut shelf = Vec::new(rt.alloc());
    let mut opens = shape.is_allowed();
    for number in 0..count {
        let path = volume_path(rt.alloc(), dir, number)?;
        let file = if opens {
            LockedFile::open_or_create(rt, path.as_str()).ok()
        } else {
            None
        };
        opens = file.is_some();
        shelf.push(FileDevice::over_cleared(file, shape.size, shape.blocks))?;
    }
    Ok(shelf)
}

/// The path of a volume's file. An empty text names no directory, and the path is empty then, so
/// that there is no such file.
fn volume_path(alloc: Global, dir: &str, number: u32) -> Result<String, OutOfMemory> {
    if dir.is_empty() {
        return Ok(String::new(alloc));
    }
    Ok(format!(in alloc; "{dir}/vol{number:02}")?)
}

/// The device over a volume's file. Where the file can't be read, or is shorter than it states,
/// every call fails.
fn volume_over(file: LockedFile) -> Volume {
    match shape_of(&file) {
        Ok(shape) => FileDevice::over_file(Some(file), shape.size, shape.blocks),
        Err(_) => over_nothing(unread()),
    }
}

/// A device of this shape whose every call fails.
fn over_nothing(shape: Shape) -> Volume {
    FileDevice::over_file(None, shape.size, shape.blocks)
}

/// Whether a file that couldn't be opened isn't there: nothing has its name, or its directory is
/// none.
fn is_absent(kind: ErrorKind) -> bool {
    kind == ErrorKind::NotFound || kind == ErrorKind::NotADirectory
}
