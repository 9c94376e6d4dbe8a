//! The last block of a log, in memory, and how bytes are added to the log.
ghost use Rattle.std.specs.Prelude.{
  ◌≡◌,
  ◌<◌,
  ◌≤◌,
  ◌+◌,
  ◌-◌,
  ◌*◌,
  ◌++◌,
  ℕ,
  Bool,
  true,
  List,
  length,
  take,
  drop,
  min,
  vec_len,
  IsTrue,
  OnOk,
  false,
  IfOk,
  slice_set,
  replicate,
};
ghost use Rattle.vr_types.specs.Blocks.{Keeps, Puts};
ghost use Rattle.vr_types.specs.Faults.{HasWriteCause};
ghost use Rattle.vr_types.specs.Fields.{padded};
ghost use Rattle.vr_types.specs.Image.{block_at};
ghost use Rattle.vr_types.specs.Regions.{Touches};
ghost use Rattle.vr_types.specs.Seen.{Only};
ghost use Rattle.vr_log.specs.LogBlock.{generation_in, index_in, used_in, head_of};
ghost use Rattle.vr_log.specs.LogNow.{LogNow};
ghost use Rattle.vr_log.specs.Standing.{InLog};
ghost use Rattle.vr_log.specs.Memory.{IsTail};
ghost use Rattle.vr_types.specs.declared.geometry.Geometry.{Geometry};
ghost use Rattle.vr_log.specs.Writing.{IsSafe, IsSound, IsPassedBy, position, HasRoom, IsReady};
ghost use Rattle.vr_log.specs.Writing.{IsPrefix, IsWriting, IsFound, IsSame, IsKeptBy, IsSettledOf};
ghost use Rattle.vr_log.specs.Writing.{Follows, Ends, block_of};

use vr_types::{Blocks, DeviceFault, put_eight, put_four};

/// The block of the log to which the next bytes go: its content so far, its index, the bytes used
/// of it, and the number of blocks of the log. `begun` once a block of the log was forced.
#[derive(Drop)]
pub(crate) struct Tail {
    pub(crate) generation: u64,
    pub(crate) block: Vec<u8>,
    pub(crate) blocks: u32,
    pub(crate) index: u32,
    pub(crate) used: u32,
    pub(crate) begun: bool,
}

impl Tail {
    /// Copies as many of the bytes as the block has room for, and answers how many these are.
    pub(crate) fn fill(&mut self, bytes: &[u8]) -> usize
        requires fits { self.old.used + 16 ≤ vec_len self.old.block }
        requires small { vec_len self.old.block < 4294967296 }
        ensures count { result ≡ min (length bytes.now)
            (vec_len self.old.block - 16 - self.old.used) }
        ensures used { self.new.used ≡ self.old.used + result }
        ensures block { self.new.block.items ≡ take (16 + self.old.used) self.old.block.items
            ++ take result bytes.now ++ drop (16 + self.old.used + result) self.old.block.items }
        ensures same { (self.new.generation ≡ self.old.generation)
            × (self.new.blocks ≡ self.old.blocks) × (self.new.index ≡ self.old.index)
            × (self.new.begun ≡ self.old.begun) }
        ensures size { vec_len self.new.block ≡ vec_len self.old.block }
    {
        let start = 16 + self.used as usize;
        let count = (self.block.len() - start).min(bytes.len());
        self.block[start..start + count].copy_from_slice(&bytes[..count]);
        self.used += count as u32;
        count
    }

    /// Puts the block, with its head, and with zeros past the bytes used.
    pub(crate) fn put<B: Blocks>(&mut self, blocks: &mut B) -> Result<(), DeviceFault>
        requires safe { IsSafe self.old (B.seen blocks.old) }
        ensures block { self.new.block.items ≡ block_of self.old }
        ensures size { vec_len self.new.block ≡ vec_len self.old.block }
        ensures same { IsSame self.old self.new }
        ensures put { IsTrue B.tells → OnOk result ((B.seen blocks.new).cur
            ≡ slice_set (B.seen blocks.old).cur (1 + self.old.index) self.new.block.items) }
        ensures after { Puts B.tells (1 + self.old.index) self.new.block.items
            (B.seen blocks.old) (B.seen blocks.new) }
        ensures cause { HasWriteCause (B.faults blocks.old) (B.faults blocks.new) result }
    {
        make_block(&mut self.block, self.generation, self.index, self.used);
        blocks.put(1 + self.index, &self.block)
    }

    /// Puts a block that is full, and goes on to the next one, where there is one. The block in
    /// which the log was begun is forced first.
    pub(crate) fn turn<B: Blocks>(&mut self, blocks: &mut B) -> Result<(), DeviceFault>
        requires safe { IsSafe self.old (B.seen blocks.old) }
        ensures safe { OnOk result (IsSafe self.new (B.seen blocks.new)) }
        ensures ready { OnOk result (IsReady self.new) }
        ensures position { OnOk result (position self.new ≡ position self.old) }
        ensures same { IsKeptBy self.old self.new }
        ensures writing { (log : LogNow) (total written : List ℕ)
            → IsWriting log total written self.old B.tells (B.seen blocks.old)
            → IsPrefix written total
            → Follows B.tells log total written self.new (B.seen blocks.old)
            (B.seen blocks.new) result }
        ensures cause { HasWriteCause (B.faults blocks.old) (B.faults blocks.new) result }
    {
        if (self.used as usize) + 16 < self.block.len() || self.index + 1 == self.blocks {
            return Ok(());
        }
        self.put(blocks)?;
        self.settle(blocks)?;
        self.index += 1;
        self.used = 0;
        Ok(())
    }

    /// Forces the block, where it is the one in which the log was begun.
    fn settle<B: Blocks>(&mut self, blocks: &mut B) -> Result<(), DeviceFault>
        requires safe { IsSafe self.old (B.seen blocks.old) }
        ensures begun { OnOk result (self.new.begun ≡ true) }
        ensures same { IsSettledOf self.old self.new }
        ensures keeps { Keeps B.tells (B.seen blocks.old) (B.seen blocks.new) }
        ensures forced { IsTrue B.tells → self.old.begun ≡ false → OnOk result
            (Only (B.seen blocks.new) (1 + self.old.index) (λ block.
            block ≡ block_at (B.seen blocks.old).cur (1 + self.old.index))) }
        ensures cause { HasWriteCause (B.faults blocks.old) (B.faults blocks.new) result }
    {
        if self.begun {
            return Ok(());
        }
        blocks.force(&[1 + self.index])?;
        self.begun = true;
        Ok(())
    }

    /// Adds as many of the bytes as the block has room for, and answers how many these are.
    fn step<B: Blocks>(&mut self, blocks: &mut B, bytes: &[u8]) -> Result<usize, DeviceFault>
        requires safe { IsSafe self.old (B.seen blocks.old) }
        requires ready { IsReady self.old }
        requires some { 0 < length bytes.now }
        requires room { HasRoom self.old (length bytes.now) }
        ensures some { IfOk result (λ count. 0 < count) }
        ensures most { IfOk result (λ count. count ≤ length bytes.now) }
        ensures safe { OnOk result (IsSafe self.new (B.seen blocks.new)) }
        ensures ready { OnOk result (IsReady self.new) }
        ensures position { IfOk result (λ count. position self.new ≡ position self.old + count) }
        ensures same { IsKeptBy self.old self.new }
        ensures writing { (log : LogNow) (total written : List ℕ)
            → IsWriting log total written self.old B.tells (B.seen blocks.old)
            → IsPrefix (written ++ bytes.now) total → IfOk result (λ count.
            IsWriting log total (written ++ take count bytes.now) self.new B.tells
            (B.seen blocks.new)) }
        ensures touches { (log : LogNow) (total written : List ℕ)
            → IsWriting log total written self.old B.tells (B.seen blocks.old)
            → IsPrefix (written ++ bytes.now) total → IsTrue B.tells
            → Touches (InLog log.geometry) (IsFound log total) (B.seen blocks.old)
            (B.seen blocks.new) }
        ensures cause { HasWriteCause (B.faults blocks.old) (B.faults blocks.new) result }
    {
        let count = self.fill(bytes);
        self.turn(blocks)?;
        Ok(count)
    }

    /// Adds bytes, and puts each block that they fill.
    pub(crate) fn add<B: Blocks>(&mut self, blocks: &mut B, bytes: &[u8]) -> Result<(), DeviceFault>
        requires safe { IsSafe self.old (B.seen blocks.old) }
        requires ready { IsReady self.old }
        requires room { HasRoom self.old (length bytes.now) }
        ensures safe { OnOk result (IsSafe self.new (B.seen blocks.new)) }
        ensures ready { OnOk result (IsReady self.new) }
        ensures position { OnOk result (position self.new ≡ position self.old + length bytes.now) }
        ensures same { IsKeptBy self.old self.new }
        ensures writing { (log : LogNow) (total written : List ℕ)
            → IsWriting log total written self.old B.tells (B.seen blocks.old)
            → IsPrefix (written ++ bytes.now) total → Follows B.tells log total
            (written ++ bytes.now) self.new (B.seen blocks.old) (B.seen blocks.new) result }
        ensures cause { HasWriteCause (B.faults blocks.old) (B.faults blocks.new) result }
    {
        let mut rest = bytes;
        while !rest.is_empty() {
            let count = self.step(blocks, rest)?;
            rest = &rest[count..];
        }
        Ok(())
    }

    /// Passes over as many bytes that stand on the blocks as the block has room for.
    fn pass_some(&mut self, bytes: &[u8]) -> usize
        requires sound { IsSound self.old }
        requires ready { IsReady self.old }
        requires some { 0 < length bytes.now }
        requires room { HasRoom self.old (length bytes.now) }
        ensures some { 0 < result }
        ensures most { result ≤ length bytes.now }
        ensures sound { IsSound self.new }
        ensures ready { IsReady self.new }
        ensures position { position self.new ≡ position self.old + result }
        ensures same { IsPassedBy self.old self.new }
        ensures passed { (geometry : Geometry) (written : List ℕ) → IsTail geometry written self.old
            → IsTail geometry (written ++ take result bytes.now) self.new }
    {
        let count = self.fill(bytes);
        if (self.used as usize) + 16 == self.block.len() && self.index + 1 < self.blocks {
            self.index += 1;
            self.used = 0;
        }
        count
    }

    /// Passes over bytes that stand on the blocks.
    pub(crate) fn pass(&mut self, bytes: &[u8])
        requires sound { IsSound self.old }
        requires ready { IsReady self.old }
        requires room { HasRoom self.old (length bytes.now) }
        ensures sound { IsSound self.new }
        ensures ready { IsReady self.new }
        ensures position { position self.new ≡ position self.old + length bytes.now }
        ensures same { IsPassedBy self.old self.new }
        ensures passed { (geometry : Geometry) (written : List ℕ) → IsTail geometry written self.old
            → IsTail geometry (written ++ bytes.now) self.new }
    {
        let mut rest = bytes;
        while !rest.is_empty() {
            let count = self.pass_some(rest);
            rest = &rest[count..];
        }
    }

    /// Puts the last block, where there are bytes in it.
    pub(crate) fn finish<B: Blocks>(&mut self, blocks: &mut B) -> Result<(), DeviceFault>
        requires safe { IsSafe self.old (B.seen blocks.old) }
        ensures position { position self.new ≡ position self.old }
        ensures ready { IsReady self.old → IsReady self.new }
        ensures same { IsKeptBy self.old self.new }
        ensures ending { (log : LogNow) (total : List ℕ)
            → IsWriting log total total self.old B.tells (B.seen blocks.old)
            → Ends B.tells log total self.new (B.seen blocks.old) (B.seen blocks.new) result }
        ensures cause { HasWriteCause (B.faults blocks.old) (B.faults blocks.new) result }
    {
        if self.used == 0 {
            return Ok(());
        }
        self.put(blocks)?;
        Ok(())
    }
}

/// Makes the block that of the log with so many bytes used: it writes its head, and zeros past
/// them.
fn make_block(block: &mut [u8], generation: u64, index: u32, used: u32)
    requires { 16 + used ≤ length block.old }
    ensures { block.new ≡ padded (length block.old)
        (head_of generation index used ++ take used (drop 16 block.old)) }
{
    clear_from(block, 16 + used as usize);
    write_head(block, generation, index, used);
}

/// Makes zeros of the bytes from a place on.
fn clear_from(block: &mut [u8], from: usize)
    requires { from ≤ length block.old }
    ensures { block.new ≡ take from block.old ++ replicate (length block.old - from) 0 }
{
    block[from..].fill(0);
}

/// Writes the head of a block of the log.
#[tactic(auto, using(crate::proofs::Heads::headed))]
fn write_head(block: &mut [u8], generation: u64, index: u32, used: u32)
    requires { 16 ≤ length block.old }
    ensures { block.new ≡ head_of generation index used ++ drop 16 block.old }
{
    put_eight(block, 0, generation);
    put_four(block, 8, index);
    put_four(block, 12, used);
}
