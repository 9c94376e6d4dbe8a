//! What a device in memory holds and held: the blocks as it was made, the blocks as they are read,
//! and each write and each sync since.
ghost use Rattle.std.specs.Prelude.{
  ◌≡◌,
  ◌<◌,
  ◌^◌,
  ◌++◌,
  [],
  ◌∷◌,
  length,
  OnOk,
  OnErr,
  IfOk,
  MatchOption,
  All,
  ℕ,
};
ghost use Rattle.vr_types.specs.Image.{block_at};
ghost use Rattle.vr_device.specs.Disk.{IsFit, IsMisfit, IsChosen};
ghost use Rattle.vr_device.specs.Past.{Past, disk_of, wrote, failed, forced, with_event, unwritten};
ghost use Rattle.vr_device.specs.PastEvent.{blocks_of};

use crate::choice::{copy_of_blocks, is_named, pick, replay};
use std::alloc::Global;
use std::marker::Model;
use vr_types::OutOfMemory;

/// One event of a device's past: a write that succeeded, a write that failed, or a sync that
/// succeeded.
#[derive(Drop)]
pub(crate) enum PastEvent {
    Wrote { block: u32, bytes: Vec<u8> },
    Failed { block: u32, bytes: Vec<u8> },
    Forced,
}

/// The blocks of a device in memory and its past. A clause sees the size of a block, the blocks as
/// the device was made, and each event since.
#[derive(Drop)]
pub(crate) struct Past {
    alloc: Global,
    size: u32,
    start: Vec<Vec<u8>>,
    /// The blocks as they are read.
    seen: Vec<Vec<u8>>,
    entries: Vec<PastEvent>,
    /// The number of events up to the last sync that succeeded.
    stable_at: usize,
}

impl Model for Past {
    ghost use Rattle.vr_device.specs.Past.{Past};

    ghost Value = { Past };

    ghost use Rattle.vr_device.specs.Kept.{IsKept, past_of};

    ghost view = { past_of };

    ghost invariant = { IsKept };
}

impl Past {
    /// These blocks, on which nothing was written.
    pub(crate) fn new(alloc: Global, size: u32, start: Vec<Vec<u8>>) -> Result<Self, OutOfMemory>
        requires count { length start.items < 2 ^ 32 }
        requires sizes { All (λ block. length block ≡ size) (blocks_of start.items) }
        ensures { IfOk result (λ past. past ≡ unwritten size (blocks_of start.items)) }
    {
        let seen = copy_of_blocks(alloc, &start)?;
        Ok(Past {
            alloc,
            size,
            start,
            seen,
            entries: Vec::new(alloc),
            stable_at: 0,
        })
    }

    /// The number of blocks.
    pub(crate) fn count(&self) -> u32
        ensures { result ≡ length self.now.start }
    {
        self.start.len() as u32
    }

    /// The bytes of a block.
    pub(crate) fn size(&self) -> u32
        ensures size { result ≡ self.now.size }
        ensures count { length self.now.start < 2 ^ 32 }
    {
        self.size
    }

    /// Reads block `n`.
    pub(crate) fn read(&self, n: u32, into: &mut [u8])
        requires block { n < length self.now.start }
        requires whole { length into.old ≡ self.now.size }
        ensures { into.new ≡ block_at (disk_of self.now).seen n }
    {
        into.copy_from_slice(&self.seen[n as usize]);
    }

    /// Adds a write that succeeded.
    pub(crate) fn write(&mut self, n: u32, from: &[u8]) -> Result<(), OutOfMemory>
        requires block { n < length self.old.start }
        requires whole { length from.now ≡ self.old.size }
        ensures ok { OnOk result (self.new ≡ with_event self.old (wrote n from.now)) }
        ensures err { OnErr result (self.new ≡ self.old) }
    {
        let bytes = from.to_vec(self.alloc)?;
        self.entries.push(PastEvent::Wrote { block: n, bytes })?;
        self.seen[n as usize].copy_from_slice(from);
        Ok(())
    }

    /// Adds a write that failed, which is not read.
    pub(crate) fn fail(&mut self, n: u32, from: &[u8]) -> Result<(), OutOfMemory>
        requires block { n < length self.old.start }
        requires whole { length from.now ≡ self.old.size }
        ensures ok { OnOk result (self.new ≡ with_event self.old (failed n from.now)) }
        ensures err { OnErr result (self.new ≡ self.old) }
    {
        let bytes = from.to_vec(self.alloc)?;
        self.entries.push(PastEvent::Failed { block: n, bytes })?;
        Ok(())
    }

    /// Adds a sync that succeeded.
    pub(crate) fn sync(&mut self) -> Result<(), OutOfMemory>
        ensures ok { OnOk result (self.new ≡ with_event self.old forced) }
        ensures err { OnErr result (self.new ≡ self.old) }
    {
        self.entries.push(PastEvent::Forced)?;
        self.stable_at = self.entries.len();
        Ok(())
    }

    /// The first block for which the choice names no content, or has no number. The number of
    /// blocks, where only the choice is too long.
    pub(crate) fn misfit(&self, choice: &[u32]) -> Option<u32>
        ensures { MatchOption result
            (IsFit (length self.now.start) (disk_of self.now) choice.now)
            (IsMisfit (length self.now.start) (disk_of self.now) choice.now) }
    {
        let since = &self.entries[self.stable_at..];
        for n in 0..self.start.len() {
            if !is_named(since, n as u32, choice) {
                return Some(n as u32);
            }
        }
        if self.start.len() < choice.len() {
            Some(self.start.len() as u32)
        } else {
            None
        }
    }

    /// The blocks that a crash leaves when each holds the content that the choice names.
    pub(crate) fn chosen(&self, alloc: Global, choice: &[u32]) -> Result<Vec<Vec<u8>>, OutOfMemory>
        requires { IsFit (length self.now.start) (disk_of self.now) choice.now }
        ensures { IfOk result (λ blocks. IsChosen (length self.now.start) (disk_of self.now)
            choice.now (blocks_of blocks.items)) }
    {
        let stable = self.stable_blocks(alloc)?;
        Ok(pick(alloc, &stable, &self.entries[self.stable_at..], choice)?)
    }

    /// The blocks as the last sync that succeeded left them.
    fn stable_blocks(&self, alloc: Global) -> Result<Vec<Vec<u8>>, OutOfMemory>
        ensures stable { IfOk result (λ blocks.
            blocks_of blocks.items ≡ (disk_of self.now).stable) }
        ensures count { IfOk result (λ blocks. length blocks.items ≡ length self.now.start) }
    {
        let mut stable = copy_of_blocks(alloc, &self.start)?;
        replay(alloc, &mut stable, &self.entries[..self.stable_at])?;
        Ok(stable)
    }
}
