//! A file of the host that this program alone uses.

use std::fs::{File, Files, OpenOptions};
use std::io;
use std::io::{ErrorKind, Seek, SeekFrom};
use std::os::unix::fs::{FileExt, FileTypeExt};

/// A plain file or a block device of the host, open for reading and writing, with the exclusive
/// lock on it (`flock`). Another open of the file, in this program or another, can't be locked as
/// long as this one is kept. The host takes the lock away with the process, so a crash leaves none.
#[derive(Drop)]
pub struct LockedFile {
    file: File,
}

impl LockedFile {
    /// Opens and locks a file that is there, which stays as it is. The error is the host's, or says
    /// that it is another kind of file, or that another open of it is locked.
    pub fn open<R: Files<File = File>>(rt: &R, path: &str) -> io::Result<LockedFile> {
        let mut how = OpenOptions::new();
        how.read(true).write(true);
        locked(how.open(rt, path)?)
    }

    /// The same for a file that is made, without a byte, where there is none.
    pub fn open_or_create<R: Files<File = File>>(rt: &R, path: &str) -> io::Result<LockedFile> {
        let mut how = OpenOptions::new();
        how.read(true).write(true).create(true);
        locked(how.open(rt, path)?)
    }

    /// The number of its bytes.
    pub fn length(&self) -> io::Result<u64> {
        let mut file = &self.file;
        file.seek(SeekFrom::End(0))
    }

    /// Fills the buffer with the bytes from `start` on.
    pub fn read_at(&self, start: u64, into: &mut [u8]) -> io::Result<()> {
        self.file.read_exact_at(into, start)
    }

    /// Writes all these bytes, the first at `start`.
    pub(crate) fn write_at(&self, start: u64, from: &[u8]) -> io::Result<()> {
        self.file.write_all_at(from, start)
    }

    /// Makes what was written stable.
    pub(crate) fn sync(&self) -> io::Result<()> {
        self.file.sync_data()
    }

    /// Makes it zero bytes, this many. What was there is gone.
    pub(crate) fn clear(&self, bytes: u64) -> io::Result<()> {
        self.file.set_len(0)?;
        self.file.set_len(bytes)
    }

    /// Whether it has at least this many bytes.
    pub(crate) fn holds(&self, bytes: u64) -> bool {
        self.length().is_ok_and(|length| bytes <= length)
    }
}

/// The file that was opened, once it is known to be of the right kind and is locked.
fn locked(file: File) -> io::Result<LockedFile> {
    if !holds_blocks(&file)? {
        return Err(io::Error::from(ErrorKind::Unsupported));
    }
    file.try_lock()?;
    Ok(LockedFile { file })
}

/// Whether it is a plain file or a block device. Another kind may wait for a reader or a writer, or
/// not give back what was written.
fn holds_blocks(file: &File) -> io::Result<bool> {
    let kind = file.metadata()?.file_type();
    Ok(kind.is_file() || kind.is_block_device())
}
