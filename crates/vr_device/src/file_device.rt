//! A device over one file.
ghost use Rattle.std.specs.Prelude.{
  ◌≡◌,
  ◌<◌,
  ◌*◌,
  ◌↔◌,
  IsTrue,
  false,
  length,
  slice_set,
  OnOk,
  IsErr,
  true,
  ◌+◌,
};
ghost use Rattle.vr_types.specs.Blocks.{Keeps, Puts, AllForced};
ghost use Rattle.vr_types.specs.Faults.{CountsWrite};

use crate::block_file::BlockFile;
use crate::device::BlockDevice;
use std::marker::Model;
use vr_types::{Failed, FaultCount};

/// A device over one file. Block n is at byte n * size of the file, and a sync is one of the file.
/// Once a write or a sync has failed, every further write and sync fails: a host that lost what was
/// written may answer the next sync with success, and the blocks are then not what they were said
/// to be.
#[derive(Drop)]
pub struct FileDevice<F: BlockFile> {
    file: F,
    size: u32,
    blocks: u32,
    shut: bool,
    reads_failed: FaultCount,
    writes_failed: FaultCount,
}

impl<F: BlockFile> Model for FileDevice<F> {
    ghost use Rattle.std.specs.Prelude.{◌≡◌};
    ghost use Rattle.vr_device.specs.BlockFile.{FileState};

    ghost Value = { FileState F };

    ghost view = { λ d. record {
      file = d.file;
      shut = d.shut;
      faults = record { reads = d.reads_failed; writes = d.writes_failed };
    } };

    ghost invariant = { λ d. ((F.seen d.file).count ≡ d.blocks) × ((F.seen d.file).size ≡ d.size) };
}

impl<F: BlockFile> FileDevice<F> {
    /// Makes a device of a file of this many blocks of this size in bytes.
    pub fn over(file: F, size: u32, blocks: u32) -> FileDevice<F>
        requires count { (F.seen file).count ≡ blocks }
        requires size { (F.seen file).size ≡ size }
        ensures file { result.file ≡ file }
        ensures open { result.shut ≡ false }
        ensures faults { result.faults ≡ record { reads = 0; writes = 0 } }
    {
        FileDevice {
            file,
            size,
            blocks,
            shut: false,
            reads_failed: FaultCount::new(),
            writes_failed: FaultCount::new(),
        }
    }

    /// Gives the file back.
    pub fn into_inner(self) -> F
        ensures { result ≡ self.file }
    {
        self.file
    }

    /// The byte at which a block begins.
    fn start(&self, n: u32) -> u64
        ensures { result ≡ n * (F.seen self.now.file).size }
    {
        n as u64 * self.size as u64
    }

    /// A write or a sync failed: no further one is tried.
    fn fail(&mut self) -> Failed
        ensures file { self.new.file ≡ self.old.file }
        ensures shut { self.new.shut ≡ true }
        ensures reads { self.new.faults.reads ≡ self.old.faults.reads }
        ensures writes { self.new.faults.writes ≡ self.old.faults.writes + 1 }
    {
        self.shut = true;
        self.writes_failed.raise();
        Failed
    }
}

impl<F: BlockFile> BlockDevice for FileDevice<F> {
    ghost tells = { F.tells };

    ghost seen = { λ d. F.seen d.file };

    ghost faults = { λ d. d.faults };

    ghost cur_may = { λ d told. F.cur_may d.file told };

    ghost images_may = { λ d image told left. F.images_may d.file image told left };

    ghost some_image = { λ d t told past. F.some_image d.file t told past };

    ghost sized = { λ d n block told below may. F.sized d.file n block told below may };

    fn blocks(&self) -> u32 {
        self.blocks
    }

    fn size(&self) -> u32 {
        self.size
    }

    fn read(&mut self, n: u32, into: &mut [u8]) -> Result<(), Failed> {
        let start = self.start(n);
        match self.file.read_at(start, into) {
            Ok(()) => Ok(()),
            Err(Failed) => {
                self.reads_failed.raise();
                Err(Failed)
            }
        }
    }

    fn write(&mut self, n: u32, from: &[u8]) -> Result<(), Failed>
        requires block { n < (F.seen self.old.file).count }
        requires whole { length from.now ≡ (F.seen self.old.file).size }
        ensures written { IsTrue F.tells → OnOk result
            ((F.seen self.new.file).cur ≡ slice_set (F.seen self.old.file).cur n from.now) }
        ensures after { Puts F.tells n from.now (F.seen self.old.file) (F.seen self.new.file) }
        ensures fault { CountsWrite self.old.faults self.new.faults result }
        ensures stays_shut { IsTrue self.old.shut → IsErr result }
        ensures shuts { IsTrue self.new.shut ↔ IsErr result }
    {
        let start = self.start(n);
        if self.shut {
            return Err(self.fail());
        }
        match self.file.write_at(start, from) {
            Ok(()) => Ok(()),
            Err(Failed) => Err(self.fail()),
        }
    }

    fn sync(&mut self) -> Result<(), Failed>
        ensures synced { IsTrue F.tells → OnOk result (AllForced (F.seen self.old.file).count
            (F.seen self.old.file).cur (F.seen self.new.file).may) }
        ensures after { Keeps F.tells (F.seen self.old.file) (F.seen self.new.file) }
        ensures fault { CountsWrite self.old.faults self.new.faults result }
        ensures stays_shut { IsTrue self.old.shut → IsErr result }
        ensures shuts { IsTrue self.new.shut ↔ IsErr result }
    {
        if self.shut {
            return Err(self.fail());
        }
        match self.file.sync() {
            Ok(()) => Ok(()),
            Err(Failed) => Err(self.fail()),
        }
    }
}
