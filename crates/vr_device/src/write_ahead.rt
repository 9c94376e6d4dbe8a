//! A block that is replaced through a log of one block: the example of a promise about a crash at
//! any moment, made of the clauses of `Blocks` alone.
ghost use Rattle.std.specs.Prelude.{◌≡◌, ◌≢◌, ◌<◌, IsTrue, All, length, OnOk, Some, None};
ghost use Rattle.vr_types.specs.Image.{block_at};
ghost use Rattle.vr_types.specs.Regions.{Touches};
ghost use Rattle.vr_types.specs.Faults.{HasCause};
ghost use Rattle.vr_device.specs.WriteAhead.{
  IsContent,
  kept,
  IsPair,
  IsSettled,
  IsOneOf,
  content_after,
  IsAfterSome,
};
ghost use Rattle.vr_device.specs.PastEvent.{blocks_of};

use vr_types::{Blocks, DeviceFault, settle};

/// Replaces the content of block `home` by these bytes: it keeps the old content in block `log`
/// until the new one is stable, and then clears the log. `entry` is a buffer of the size of a
/// block. At `Ok` the two blocks are at rest, with the new content. At every moment of the call,
/// and from its end on, a restart finds the old content or the new one, also where the call fails.
/// No other block is put. The faults are those of the blocks.
pub fn replace<B: Blocks>(
    blocks: &mut B,
    log: u32,
    home: u32,
    bytes: &[u8],
    entry: &mut [u8],
) -> Result<(), DeviceFault>
    requires log_in { log < (B.seen blocks.old).count }
    requires home_in { home < (B.seen blocks.old).count }
    requires apart { log ≢ home }
    requires content { IsContent bytes.now }
    requires whole { length bytes.now ≡ (B.seen blocks.old).size }
    requires room { length entry.old ≡ (B.seen blocks.old).size }
    requires settled { IsTrue B.tells → IsSettled log home (B.seen blocks.old) }
    ensures settled { IsTrue B.tells → OnOk result (IsSettled log home (B.seen blocks.new)) }
    ensures content { IsTrue B.tells → OnOk result
        (block_at (B.seen blocks.new).cur home ≡ bytes.now) }
    ensures any_moment { IsTrue B.tells → Touches (IsPair log home)
        (IsOneOf log home (block_at (B.seen blocks.old).cur home) bytes.now)
        (B.seen blocks.old) (B.seen blocks.new) }
    ensures count { (B.seen blocks.new).count ≡ (B.seen blocks.old).count }
    ensures size { (B.seen blocks.new).size ≡ (B.seen blocks.old).size }
    ensures room { length entry.new ≡ length entry.old }
    ensures cause { HasCause (B.faults blocks.old) (B.faults blocks.new) result }
{
    entry.copy_from_slice(blocks.get(home)?);
    mark(entry);
    settle(blocks, log, entry)?;
    settle(blocks, home, bytes)?;
    clear(entry);
    settle(blocks, log, entry)
}

/// Replaces the content of block `home` by each of these in turn, up to the first that fails. At
/// `Ok` the blocks are at rest, with the last content. At every moment, and from the end on, a
/// restart finds the content as it is once some of them have replaced it, the first of them first.
/// The faults are those of the blocks.
pub fn replace_all<B: Blocks>(
    blocks: &mut B,
    log: u32,
    home: u32,
    contents: &[Vec<u8>],
    entry: &mut [u8],
) -> Result<(), DeviceFault>
    requires log_in { log < (B.seen blocks.old).count }
    requires home_in { home < (B.seen blocks.old).count }
    requires apart { log ≢ home }
    requires contents { All IsContent (blocks_of contents.now) }
    requires whole { All (λ content. length content ≡ (B.seen blocks.old).size)
        (blocks_of contents.now) }
    requires room { length entry.old ≡ (B.seen blocks.old).size }
    requires settled { IsTrue B.tells → IsSettled log home (B.seen blocks.old) }
    ensures settled { IsTrue B.tells → OnOk result (IsSettled log home (B.seen blocks.new)) }
    ensures content { IsTrue B.tells → OnOk result (block_at (B.seen blocks.new).cur home
        ≡ content_after (block_at (B.seen blocks.old).cur home) (blocks_of contents.now)) }
    ensures any_moment { IsTrue B.tells → Touches (IsPair log home)
        (IsAfterSome log home (block_at (B.seen blocks.old).cur home) (blocks_of contents.now))
        (B.seen blocks.old) (B.seen blocks.new) }
    ensures count { (B.seen blocks.new).count ≡ (B.seen blocks.old).count }
    ensures size { (B.seen blocks.new).size ≡ (B.seen blocks.old).size }
    ensures room { length entry.new ≡ length entry.old }
    ensures cause { HasCause (B.faults blocks.old) (B.faults blocks.new) result }
{
    for content in contents {
        replace(blocks, log, home, content, entry)?;
    }
    Ok(())
}

/// Makes a content one that a log keeps.
fn mark(entry: &mut [u8])
    requires { 0 < length entry.old }
    ensures kept { IsContent entry.old → kept entry.new ≡ Some entry.old }
    ensures whole { length entry.new ≡ length entry.old }
{
    entry[0] = 1;
}

/// Makes it one that keeps nothing.
fn clear(entry: &mut [u8])
    requires { 0 < length entry.old }
    ensures kept { kept entry.new ≡ None }
    ensures whole { length entry.new ≡ length entry.old }
{
    entry[0] = 0;
}
