//! The contents that a crash may leave in a block, found in a device's past.
ghost use Rattle.std.specs.Prelude.{
  ◌≡◌,
  ◌<◌,
  ◌^◌,
  ◌↔◌,
  IsTrue,
  ◌∷◌,
  ℕ,
  [],
  length,
  replicate,
  slice_index,
  slice_get,
  option_copied,
  IfOk,
  OnOk,
};
ghost use Rattle.std.specs.List.{AllByRecursion};
ghost use Rattle.vr_device.specs.Disk.{contents_of};
ghost use Rattle.vr_device.specs.Past.{
  after_all,
  fresh,
  writes_in,
  content_of,
  contents_from,
  ArePicked,
  IsWithin,
};
ghost use Rattle.vr_device.specs.PastEvent.{blocks_of, event_of, events_of};

use crate::past::PastEvent;
use std::alloc::{AllocError, Global};

impl PastEvent {
    /// What this event wrote to the block, if it is a write of it.
    fn content(&self, n: u32) -> Option<&[u8]>
        ensures { option_copied result ≡ content_of (event_of self.now) n }
    {
        match self {
            PastEvent::Wrote { block, bytes } if *block == n => Some(bytes.as_slice()),
            PastEvent::Failed { block, bytes } if *block == n => Some(bytes.as_slice()),
            _ => None,
        }
    }
}

/// The content that was written to the block, counted from 0 among those that these events wrote to
/// it.
pub(crate) fn written_at(entries: &[PastEvent], n: u32, count: u32) -> Option<&[u8]>
    ensures { option_copied result
        ≡ slice_get (contents_of (writes_in (events_of entries.now)) n) count }
{
    let mut left = count;
    for entry in entries {
        if let Some(bytes) = entry.content(n) {
            if left == 0 {
                return Some(bytes);
            }
            left -= 1;
        }
    }
    None
}

/// The content that a choice names: at 0 the stable one, and then those written since, the oldest
/// first.
pub(crate) fn content_at<'a>(
    stable: &'a [u8],
    since: &'a [PastEvent],
    n: u32,
    choice: u32,
) -> Option<&'a [u8]>
    ensures { option_copied result
        ≡ slice_get (stable.now ∷ contents_of (writes_in (events_of since.now)) n) choice }
{
    if choice == 0 {
        Some(stable)
    } else {
        written_at(since, n, choice - 1)
    }
}

/// Whether the choice names a content of the block: it has a number for it, and at least that
/// many contents were written.
pub(crate) fn is_named(since: &[PastEvent], n: u32, choice: &[u32]) -> bool
    ensures { IsTrue result ↔ ((n < length choice.now)
        × (slice_index choice.now n < length (contents_from [] (events_of since.now) n))) }
{
    match choice.get(n as usize) {
        Some(number) => content_at(&[], since, n, *number).is_some(),
        None => false,
    }
}

/// Blocks of zeros.
pub(crate) fn zero_blocks(alloc: Global, count: u32, size: u32) -> Result<Vec<Vec<u8>>, AllocError>
    ensures { IfOk result (λ blocks. blocks_of blocks.items ≡ replicate count (replicate size 0)) }
{
    let mut blocks = Vec::new(alloc);
    for _ in 0..count {
        blocks.push(vec![in alloc; 0; size as usize]?)?;
    }
    Ok(blocks)
}

/// The same blocks, of their own.
pub(crate) fn copy_of_blocks(alloc: Global, blocks: &[Vec<u8>]) -> Result<Vec<Vec<u8>>, AllocError>
    ensures { IfOk result (λ copy. blocks_of copy.items ≡ blocks_of blocks.now) }
{
    let mut copy = Vec::new(alloc);
    for block in blocks {
        copy.push(block.to_vec(alloc)?)?;
    }
    Ok(copy)
}

/// Makes the writes that succeeded among these events to the blocks.
pub(crate) fn replay(
    alloc: Global,
    blocks: &mut [Vec<u8>],
    entries: &[PastEvent],
) -> Result<(), AllocError>
    requires { AllByRecursion (IsWithin (length blocks.old)) (events_of entries.now) }
    ensures { OnOk result (blocks_of blocks.new
        ≡ (after_all (events_of entries.now) (fresh (blocks_of blocks.old))).seen) }
{
    for entry in entries {
        if let PastEvent::Wrote { block, bytes } = entry {
            blocks[*block as usize] = bytes.to_vec(alloc)?;
        }
    }
    Ok(())
}

/// The contents that a choice names, one for each of these blocks.
pub(crate) fn pick(
    alloc: Global,
    stable: &[Vec<u8>],
    since: &[PastEvent],
    choice: &[u32],
) -> Result<Vec<Vec<u8>>, AllocError>
    requires count { length choice.now ≡ length stable.now }
    requires count_fits { length stable.now < 2 ^ 32 }
    requires fits { (n : ℕ) → n < length stable.now → slice_index choice.now n
        < length (contents_from (blocks_of stable.now) (events_of since.now) n) }
    ensures { IfOk result (λ blocks. ArePicked (blocks_of stable.now) (events_of since.now)
        choice.now (blocks_of blocks.items)) }
{
    let mut blocks = Vec::new(alloc);
    for n in 0..stable.len() {
        let content = content_at(&stable[n], since, n as u32, choice[n]).unwrap();
        blocks.push(content.to_vec(alloc)?)?;
    }
    Ok(blocks)
}
