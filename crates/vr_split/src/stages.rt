//! The puts of a split, each with what it leaves of an area of a keyed part: of blocks that are made
//! already.
ghost use Rattle.std.specs.Prelude.{◌≡◌, ◌≢◌, ◌<◌, ℕ, IsTrue, OnOk, length};
ghost use Rattle.vr_types.specs.Image.{block_at};
ghost use Rattle.vr_types.specs.Seen.{Only};
ghost use Rattle.vr_types.specs.Blocks.{Puts};
ghost use Rattle.vr_types.specs.Faults.{HasWriteCause};
ghost use Rattle.vr_space.specs.Room.{Lengths};
ghost use Rattle.vr_space.specs.Keyed.{Keyed};
ghost use Rattle.vr_split.specs.Switching.{
  CanReplace,
  CanSwitch,
  IsFree,
  IsIntervalBlock,
  IsResting,
  IsSettledAt,
  IsStageDone,
  KeepsPart,
};

use vr_types::{Blocks, DeviceFault, settle};

/// Writes the head with the two entries, and forces it.
pub(crate) fn switch_head<B: Blocks>(
    blocks: &mut B,
    head: u32,
    top: &[u8],
) -> Result<(), DeviceFault>
    requires below { head < (B.seen blocks.old).count }
    requires whole { length top.now ≡ (B.seen blocks.old).size }
    ensures keeps { IsTrue B.tells → (part : Keyed) (kept : Lengths) → part.head ≡ head
        → IsResting part kept (B.seen blocks.old)
        → CanSwitch part kept top.now (B.seen blocks.old)
        → KeepsPart part kept (B.seen blocks.old) (B.seen blocks.new) }
    ensures done { IsTrue B.tells → OnOk result ((part : Keyed) (kept : Lengths)
        → part.head ≡ head → IsResting part kept (B.seen blocks.old)
        → CanSwitch part kept top.now (B.seen blocks.old)
        → IsStageDone part (B.seen blocks.old) (B.seen blocks.new)) }
    ensures put { IsTrue B.tells → OnOk result
        (block_at (B.seen blocks.new).cur head ≡ top.now) }
    ensures after { Puts B.tells head top.now (B.seen blocks.old) (B.seen blocks.new) }
    ensures count { (B.seen blocks.new).count ≡ (B.seen blocks.old).count }
    ensures size { (B.seen blocks.new).size ≡ (B.seen blocks.old).size }
    ensures cause { HasWriteCause (B.faults blocks.old) (B.faults blocks.new) result }
{
    settle(blocks, head, top)?;
    Ok(())
}

/// Writes an interval without the records that went to another. What it had is stable, and whatever
/// a crash leaves of it has the records of the places that lead there; so it need not be forced.
pub(crate) fn clean_interval<B: Blocks>(
    blocks: &mut B,
    n: u32,
    lower: &[u8],
) -> Result<(), DeviceFault>
    requires below { n < (B.seen blocks.old).count }
    requires whole { length lower.now ≡ (B.seen blocks.old).size }
    ensures keeps { IsTrue B.tells → (part : Keyed) (kept : Lengths) → IsIntervalBlock part n
        → IsResting part kept (B.seen blocks.old)
        → IsSettledAt part n (B.seen blocks.old)
        → CanReplace part kept (B.seen blocks.old).cur n lower.now
        → KeepsPart part kept (B.seen blocks.old) (B.seen blocks.new)
        × IsStageDone part (B.seen blocks.old) (B.seen blocks.new) }
    ensures put { IsTrue B.tells → OnOk result
        (block_at (B.seen blocks.new).cur n ≡ lower.now) }
    ensures elsewhere { IsTrue B.tells → (m : ℕ) → m ≢ n
        → block_at (B.seen blocks.new).cur m ≡ block_at (B.seen blocks.old).cur m }
    ensures count { (B.seen blocks.new).count ≡ (B.seen blocks.old).count }
    ensures size { (B.seen blocks.new).size ≡ (B.seen blocks.old).size }
    ensures cause { HasWriteCause (B.faults blocks.old) (B.faults blocks.new) result }
{
    blocks.put(n, lower)
}

/// Writes an interval that no entry leads to.
fn write_free<B: Blocks>(blocks: &mut B, n: u32, upper: &[u8]) -> Result<(), DeviceFault>
    requires below { n < (B.seen blocks.old).count }
    requires whole { length upper.now ≡ (B.seen blocks.old).size }
    ensures keeps { IsTrue B.tells → (part : Keyed) (kept : Lengths) → IsIntervalBlock part n
        → IsResting part kept (B.seen blocks.old) → IsFree part (B.seen blocks.old).cur n
        → KeepsPart part kept (B.seen blocks.old) (B.seen blocks.new)
        × IsStageDone part (B.seen blocks.old) (B.seen blocks.new) }
    ensures put { IsTrue B.tells → OnOk result
        (block_at (B.seen blocks.new).cur n ≡ upper.now) }
    ensures elsewhere { IsTrue B.tells → (m : ℕ) → m ≢ n
        → block_at (B.seen blocks.new).cur m ≡ block_at (B.seen blocks.old).cur m }
    ensures count { (B.seen blocks.new).count ≡ (B.seen blocks.old).count }
    ensures size { (B.seen blocks.new).size ≡ (B.seen blocks.old).size }
    ensures cause { HasWriteCause (B.faults blocks.old) (B.faults blocks.new) result }
{
    blocks.put(n, upper)
}

/// Writes an interval with the records that it has, and forces it and another block.
fn rewrite<B: Blocks>(blocks: &mut B, n: u32, whole: &[u8], beside: u32) -> Result<(), DeviceFault>
    requires below { n < (B.seen blocks.old).count }
    requires beside_below { beside < (B.seen blocks.old).count }
    requires whole { length whole.now ≡ (B.seen blocks.old).size }
    ensures keeps { IsTrue B.tells → (part : Keyed) (kept : Lengths) → IsIntervalBlock part n
        → IsResting part kept (B.seen blocks.old)
        → CanReplace part kept (B.seen blocks.old).cur n whole.now
        → KeepsPart part kept (B.seen blocks.old) (B.seen blocks.new) }
    ensures done { IsTrue B.tells → OnOk result ((part : Keyed) (kept : Lengths)
        → IsIntervalBlock part n → IsResting part kept (B.seen blocks.old)
        → CanReplace part kept (B.seen blocks.old).cur n whole.now
        → IsStageDone part (B.seen blocks.old) (B.seen blocks.new)) }
    ensures stable { IsTrue B.tells → OnOk result
        (Only (B.seen blocks.new) n (λ block. block ≡ whole.now)) }
    ensures beside { IsTrue B.tells → OnOk result (beside ≢ n
        → Only (B.seen blocks.new) beside
        (λ block. block ≡ block_at (B.seen blocks.old).cur beside)) }
    ensures elsewhere { IsTrue B.tells → (m : ℕ) → m ≢ n
        → block_at (B.seen blocks.new).cur m ≡ block_at (B.seen blocks.old).cur m }
    ensures count { (B.seen blocks.new).count ≡ (B.seen blocks.old).count }
    ensures size { (B.seen blocks.new).size ≡ (B.seen blocks.old).size }
    ensures cause { HasWriteCause (B.faults blocks.old) (B.faults blocks.new) result }
{
    blocks.put(n, whole)?;
    blocks.force(&[beside, n])?;
    Ok(())
}

/// The first stage: the upper records go to a free interval, and the old one is written whole and
/// busy; both are forced.
pub(crate) fn copy_interval<B: Blocks>(
    blocks: &mut B,
    into: u32,
    upper: &[u8],
    old: u32,
    whole: &[u8],
) -> Result<(), DeviceFault>
    requires into_below { into < (B.seen blocks.old).count }
    requires old_below { old < (B.seen blocks.old).count }
    requires upper_whole { length upper.now ≡ (B.seen blocks.old).size }
    requires old_whole { length whole.now ≡ (B.seen blocks.old).size }
    ensures keeps { IsTrue B.tells → (part : Keyed) (kept : Lengths)
        → IsIntervalBlock part into → IsIntervalBlock part old
        → IsResting part kept (B.seen blocks.old) → IsFree part (B.seen blocks.old).cur into
        → CanReplace part kept (B.seen blocks.old).cur old whole.now
        → KeepsPart part kept (B.seen blocks.old) (B.seen blocks.new) }
    ensures done { IsTrue B.tells → OnOk result ((part : Keyed) (kept : Lengths)
        → IsIntervalBlock part into → IsIntervalBlock part old
        → IsResting part kept (B.seen blocks.old) → IsFree part (B.seen blocks.old).cur into
        → CanReplace part kept (B.seen blocks.old).cur old whole.now
        → IsStageDone part (B.seen blocks.old) (B.seen blocks.new)) }
    ensures into_stable { IsTrue B.tells → OnOk result (into ≢ old
        → Only (B.seen blocks.new) into (λ block. block ≡ upper.now)) }
    ensures old_stable { IsTrue B.tells → OnOk result
        (Only (B.seen blocks.new) old (λ block. block ≡ whole.now)) }
    ensures elsewhere { IsTrue B.tells → (m : ℕ) → m ≢ into → m ≢ old
        → block_at (B.seen blocks.new).cur m ≡ block_at (B.seen blocks.old).cur m }
    ensures count { (B.seen blocks.new).count ≡ (B.seen blocks.old).count }
    ensures size { (B.seen blocks.new).size ≡ (B.seen blocks.old).size }
    ensures cause { HasWriteCause (B.faults blocks.old) (B.faults blocks.new) result }
{
    write_free(blocks, into, upper)?;
    rewrite(blocks, old, whole, into)?;
    Ok(())
}
