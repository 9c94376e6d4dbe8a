//! The host's file: the trusted edge, which reports no content.
ghost use Rattle.std.specs.Prelude.{◌≡◌};

use crate::block_file::BlockFile;
use crate::file_device::FileDevice;
use crate::locked_file::LockedFile;
use std::fs::{File, Files};
use vr_types::Failed;

/// One file of the host. It reports no content, since no contract can say what a file holds. Where
/// there is none that can be opened and locked, or it is shorter than its blocks, its calls fail.
#[derive(Drop)]
pub struct HostFile {
    file: Option<LockedFile>,
    size: u32,
    blocks: u32,
}

impl BlockFile for HostFile {
    ghost use Rattle.std.specs.Prelude.{false};
    ghost use Rattle.vr_device.specs.Untold.{unseen, not_told};

    ghost tells = { false };

    ghost seen = { λ f. unseen f.blocks f.size };

    ghost cur_may = { λ f told. absurd (not_told told) };

    ghost images_may = { λ f image told. absurd (not_told told) };

    ghost some_image = { λ f t told. absurd (not_told told) };

    ghost sized = { λ f n block told. absurd (not_told told) };

    fn read_at(&mut self, start: u64, into: &mut [u8]) -> Result<(), Failed> {
        let file = self.file.as_ref();
        done(file.is_some_and(|f| f.read_at(start, into).is_ok()))
    }

    fn write_at(&mut self, start: u64, from: &[u8]) -> Result<(), Failed> {
        let file = self.file.as_ref();
        done(file.is_some_and(|f| f.write_at(start, from).is_ok()))
    }

    fn sync(&mut self) -> Result<(), Failed> {
        done(self.file.as_ref().is_some_and(|f| f.sync().is_ok()))
    }
}

/// Whether a call of the host was done, as an answer.
fn done(is_done: bool) -> Result<(), Failed> {
    if is_done { Ok(()) } else { Err(Failed) }
}

impl FileDevice<HostFile> {
    /// A device of this many blocks of this size in bytes over a file, which stays as it is. Where
    /// there is none, or it has fewer bytes than these blocks, every call fails.
    pub fn over_file(file: Option<LockedFile>, size: u32, blocks: u32) -> FileDevice<HostFile>
        ensures count { (⟦<HostFile as BlockFile>⟧.seen result.file).count ≡ blocks }
        ensures size { (⟦<HostFile as BlockFile>⟧.seen result.file).size ≡ size }
    {
        let file = file.filter(|f| f.holds(size as u64 * blocks as u64));
        FileDevice::over(HostFile { file, size, blocks }, size, blocks)
    }

    /// The same over a file that is first made zero blocks. What was there is gone.
    pub fn over_cleared(file: Option<LockedFile>, size: u32, blocks: u32) -> FileDevice<HostFile>
        ensures count { (⟦<HostFile as BlockFile>⟧.seen result.file).count ≡ blocks }
        ensures size { (⟦<HostFile as BlockFile>⟧.seen result.file).size ≡ size }
    {
        let file = file.filter(|f| f.clear(size as u64 * blocks as u64).is_ok());
        FileDevice::over(HostFile { file, size, blocks }, size, blocks)
    }

    /// Opens the file of this path, which is made where there is none, and makes it this many zero
    /// blocks of this size in bytes, once it is locked. What was there is gone.
    pub fn create<R: Files<File = File>>(
        rt: &R,
        path: &str,
        size: u32,
        blocks: u32,
    ) -> FileDevice<HostFile>
        ensures count { (⟦<HostFile as BlockFile>⟧.seen result.file).count ≡ blocks }
        ensures size { (⟦<HostFile as BlockFile>⟧.seen result.file).size ≡ size }
    {
        FileDevice::over_cleared(LockedFile::open_or_create(rt, path).ok(), size, blocks)
    }

    /// Opens the file of this path, of this many blocks, which stays as it is.
    pub fn open<R: Files<File = File>>(
        rt: &R,
        path: &str,
        size: u32,
        blocks: u32,
    ) -> FileDevice<HostFile>
        ensures count { (⟦<HostFile as BlockFile>⟧.seen result.file).count ≡ blocks }
        ensures size { (⟦<HostFile as BlockFile>⟧.seen result.file).size ≡ size }
    {
        FileDevice::over_file(LockedFile::open(rt, path).ok(), size, blocks)
    }
}
