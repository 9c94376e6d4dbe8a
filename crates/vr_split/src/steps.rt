//! The stages of a split whole: what each reads, what it makes of that, and its puts.
ghost use Rattle.std.specs.Prelude.{◌≡◌, ◌<◌, Some, IsTrue, IfErr, OnOk, length};
ghost use Rattle.vr_types.specs.Image.{block_at};
ghost use Rattle.vr_types.specs.Blocks.{Keeps};
ghost use Rattle.vr_types.specs.Faults.{HasCause};
ghost use Rattle.vr_types.specs.declared.fault.DeviceFault.TheVariants.{Read};
ghost use Rattle.vr_types.specs.declared.unit.StageKind.TheVariants as stages;
ghost use Rattle.vr_space.specs.Room.{Lengths, Range};
ghost use Rattle.vr_space.specs.Keyed.{IsKeyedAtRest, KeepsRoom, HoldsRange};
ghost use Rattle.vr_space.specs.AreaCalls.{IsAreaOn};
ghost use Rattle.vr_space.specs.UnderWay.{IsBegun, IsCopied, IsSwitched, AreaUnderWay};
ghost use Rattle.vr_space.specs.UnderWay.{interval_block};
ghost use Rattle.vr_split.specs.Switching.{KeepsPart, IsStageDone};
ghost use Rattle.vr_split.specs.Halves.{MakesUpper, MakesLower, IsBusyCopy};
ghost use Rattle.vr_split.specs.Splits.{split_of, after_stage, AddsEntries, AreInArea, HasDoneStage};

use crate::halves::write_busy;
use crate::making::{make_head, make_lower, make_upper};
use crate::stages::{clean_interval, copy_interval, switch_head};
use vr_space::{Layout, read_block};
use vr_types::{Blocks, DeviceFault, StageKind};

/// The interval that is split, the free one that gets the upper records, and the greatest place
/// that stays below the cut.
#[derive(Clone, Copy)]
pub(crate) struct Halving<'a> {
    pub old: u16,
    pub into: u16,
    pub cut: &'a [u8],
}

/// Reads the old interval and the head, and makes the upper records and the whole interval.
fn make_copies<B: Blocks>(
    layout: &Layout,
    blocks: &mut B,
    split: &Halving<'_>,
    block: &mut [u8],
    upper: &mut [u8],
    whole: &mut [u8],
) -> Result<(), DeviceFault>
    requires on { IsAreaOn layout.now (B.seen blocks.old) }
    requires inside { split.now.old < layout.now.area }
    requires block { length block.old ≡ layout.now.size }
    requires upper { length upper.old ≡ layout.now.size }
    requires whole { length whole.old ≡ layout.now.size }
    ensures upper { IsTrue B.tells → OnOk result (MakesUpper layout.now
        (block_at (B.seen blocks.old).cur layout.now.head) split.now.cut.now
        (block_at (B.seen blocks.old).cur (interval_block layout.now split.now.old))
        upper.new) }
    ensures whole { IsTrue B.tells → OnOk result ((range : Range) → HoldsRange layout.now range
        (block_at (B.seen blocks.old).cur (interval_block layout.now split.now.old))
        → IsBusyCopy layout.now
        (block_at (B.seen blocks.old).cur (interval_block layout.now split.now.old))
        whole.new) }
    ensures keeps { Keeps B.tells (B.seen blocks.old) (B.seen blocks.new) }
    ensures cause { HasCause (B.faults blocks.old) (B.faults blocks.new) result }
{
    read_block(blocks, layout.block_of(split.old), block)?;
    make_upper(layout, blocks, split.cut, block, upper)?;
    write_busy(block, whole);
    Ok(())
}

/// The stage `CiCopy`.
pub(crate) fn copy<B: Blocks>(
    layout: &Layout,
    blocks: &mut B,
    split: &Halving<'_>,
    block: &mut [u8],
    upper: &mut [u8],
    whole: &mut [u8],
) -> Result<(), DeviceFault>
    requires on { IsAreaOn layout.now (B.seen blocks.old) }
    requires inside { AreInArea layout.now split.now.old split.now.into }
    requires block { length block.old ≡ layout.now.size }
    requires upper { length upper.old ≡ layout.now.size }
    requires whole { length whole.old ≡ layout.now.size }
    requires rests { IsTrue B.tells → IsKeyedAtRest layout.now (B.seen blocks.old) }
    requires begun { IsTrue B.tells
        → IsBegun layout.now (split_of split.now stages.CiCopy) (B.seen blocks.old).cur }
    ensures keeps { IsTrue B.tells → (kept : Lengths)
        → KeepsRoom layout.now kept (B.seen blocks.old)
        → KeepsPart layout.now kept (B.seen blocks.old) (B.seen blocks.new) }
    ensures done { IsTrue B.tells → OnOk result
        (IsStageDone layout.now (B.seen blocks.old) (B.seen blocks.new)) }
    ensures copied { IsTrue B.tells → OnOk result
        (IsCopied layout.now (split_of split.now stages.CiSwitch) (B.seen blocks.new)) }
    ensures made { IsTrue B.tells → OnOk result (HasDoneStage layout.now
        (Some (split_of split.now stages.CiCopy)) (B.seen blocks.old).cur (B.seen blocks.new).cur) }
    ensures counts { IsTrue B.tells → OnOk result (AddsEntries layout.now stages.CiCopy
        (B.seen blocks.old).cur (B.seen blocks.new).cur) }
    ensures unread { IfErr result (λ fault. fault ≡ Read
        → Keeps B.tells (B.seen blocks.old) (B.seen blocks.new)) }
    ensures count { (B.seen blocks.new).count ≡ (B.seen blocks.old).count }
    ensures size { (B.seen blocks.new).size ≡ (B.seen blocks.old).size }
    ensures cause { HasCause (B.faults blocks.old) (B.faults blocks.new) result }
{
    make_copies(layout, blocks, split, block, upper, whole)?;
    copy_interval(
        blocks,
        layout.block_of(split.into),
        upper,
        layout.block_of(split.old),
        whole,
    )?;
    Ok(())
}

/// The stage `CiSwitch`.
pub(crate) fn switch<B: Blocks>(
    layout: &Layout,
    blocks: &mut B,
    split: &Halving<'_>,
    top: &mut [u8],
) -> Result<(), DeviceFault>
    requires on { IsAreaOn layout.now (B.seen blocks.old) }
    requires top { length top.old ≡ layout.now.size }
    requires rests { IsTrue B.tells → IsKeyedAtRest layout.now (B.seen blocks.old) }
    requires copied { IsTrue B.tells
        → IsCopied layout.now (split_of split.now stages.CiSwitch) (B.seen blocks.old) }
    ensures keeps { IsTrue B.tells → (kept : Lengths)
        → KeepsRoom layout.now kept (B.seen blocks.old)
        → KeepsPart layout.now kept (B.seen blocks.old) (B.seen blocks.new) }
    ensures done { IsTrue B.tells → OnOk result
        (IsStageDone layout.now (B.seen blocks.old) (B.seen blocks.new)) }
    ensures switched { IsTrue B.tells → OnOk result
        (IsSwitched layout.now (split_of split.now stages.CiClean) (B.seen blocks.new)) }
    ensures made { IsTrue B.tells → OnOk result (HasDoneStage layout.now
        (Some (split_of split.now stages.CiSwitch))
        (B.seen blocks.old).cur (B.seen blocks.new).cur) }
    ensures counts { IsTrue B.tells → OnOk result (AddsEntries layout.now stages.CiSwitch
        (B.seen blocks.old).cur (B.seen blocks.new).cur) }
    ensures unread { IfErr result (λ fault. fault ≡ Read
        → Keeps B.tells (B.seen blocks.old) (B.seen blocks.new)) }
    ensures count { (B.seen blocks.new).count ≡ (B.seen blocks.old).count }
    ensures size { (B.seen blocks.new).size ≡ (B.seen blocks.old).size }
    ensures cause { HasCause (B.faults blocks.old) (B.faults blocks.new) result }
{
    make_head(layout, blocks, split.old, split.into, split.cut, top)?;
    switch_head(blocks, layout.head, top)?;
    Ok(())
}

/// Reads the old interval and the head, and makes the records of its range.
fn make_clean<B: Blocks>(
    layout: &Layout,
    blocks: &mut B,
    split: &Halving<'_>,
    block: &mut [u8],
    lower: &mut [u8],
) -> Result<(), DeviceFault>
    requires on { IsAreaOn layout.now (B.seen blocks.old) }
    requires inside { split.now.old < layout.now.area }
    requires block { length block.old ≡ layout.now.size }
    requires lower { length lower.old ≡ layout.now.size }
    ensures lower { IsTrue B.tells → OnOk result (MakesLower layout.now
        (block_at (B.seen blocks.old).cur layout.now.head) split.now.cut.now
        (block_at (B.seen blocks.old).cur (interval_block layout.now split.now.old))
        lower.new) }
    ensures keeps { Keeps B.tells (B.seen blocks.old) (B.seen blocks.new) }
    ensures cause { HasCause (B.faults blocks.old) (B.faults blocks.new) result }
{
    read_block(blocks, layout.block_of(split.old), block)?;
    make_lower(layout, blocks, split.cut, block, lower)?;
    Ok(())
}

/// The stage `CiClean`.
pub(crate) fn clean<B: Blocks>(
    layout: &Layout,
    blocks: &mut B,
    split: &Halving<'_>,
    block: &mut [u8],
    lower: &mut [u8],
) -> Result<(), DeviceFault>
    requires on { IsAreaOn layout.now (B.seen blocks.old) }
    requires inside { AreInArea layout.now split.now.old split.now.into }
    requires block { length block.old ≡ layout.now.size }
    requires lower { length lower.old ≡ layout.now.size }
    requires rests { IsTrue B.tells → IsKeyedAtRest layout.now (B.seen blocks.old) }
    requires switched { IsTrue B.tells
        → IsSwitched layout.now (split_of split.now stages.CiClean) (B.seen blocks.old) }
    ensures keeps { IsTrue B.tells → (kept : Lengths)
        → KeepsRoom layout.now kept (B.seen blocks.old)
        → KeepsPart layout.now kept (B.seen blocks.old) (B.seen blocks.new) }
    ensures done { IsTrue B.tells → OnOk result
        (IsStageDone layout.now (B.seen blocks.old) (B.seen blocks.new)) }
    ensures made { IsTrue B.tells → OnOk result (HasDoneStage layout.now
        (Some (split_of split.now stages.CiClean))
        (B.seen blocks.old).cur (B.seen blocks.new).cur) }
    ensures counts { IsTrue B.tells → OnOk result (AddsEntries layout.now stages.CiClean
        (B.seen blocks.old).cur (B.seen blocks.new).cur) }
    ensures unread { IfErr result (λ fault. fault ≡ Read
        → Keeps B.tells (B.seen blocks.old) (B.seen blocks.new)) }
    ensures count { (B.seen blocks.new).count ≡ (B.seen blocks.old).count }
    ensures size { (B.seen blocks.new).size ≡ (B.seen blocks.old).size }
    ensures cause { HasCause (B.faults blocks.old) (B.faults blocks.new) result }
{
    let number = layout.block_of(split.old);
    make_clean(layout, blocks, split, block, lower)?;
    clean_interval(blocks, number, lower)?;
    Ok(())
}

/// The stage that is next.
pub(crate) fn do_stage<B: Blocks>(
    layout: &Layout,
    blocks: &mut B,
    split: &Halving<'_>,
    stage: StageKind,
    block: &mut [u8],
    first: &mut [u8],
    second: &mut [u8],
) -> Result<(), DeviceFault>
    requires on { IsAreaOn layout.now (B.seen blocks.old) }
    requires inside { AreInArea layout.now split.now.old split.now.into }
    requires block { length block.old ≡ layout.now.size }
    requires first { length first.old ≡ layout.now.size }
    requires second { length second.old ≡ layout.now.size }
    requires rests { IsTrue B.tells → IsKeyedAtRest layout.now (B.seen blocks.old) }
    requires way { IsTrue B.tells → AreaUnderWay layout.now (Some (split_of split.now stage))
        (B.seen blocks.old) }
    ensures keeps { IsTrue B.tells → (kept : Lengths)
        → KeepsRoom layout.now kept (B.seen blocks.old)
        → KeepsPart layout.now kept (B.seen blocks.old) (B.seen blocks.new) }
    ensures done { IsTrue B.tells → OnOk result
        (IsStageDone layout.now (B.seen blocks.old) (B.seen blocks.new)) }
    ensures way { IsTrue B.tells → OnOk result (AreaUnderWay layout.now
        (after_stage (Some (split_of split.now stage))) (B.seen blocks.new)) }
    ensures made { IsTrue B.tells → OnOk result (HasDoneStage layout.now
        (Some (split_of split.now stage)) (B.seen blocks.old).cur (B.seen blocks.new).cur) }
    ensures counts { IsTrue B.tells → OnOk result (AddsEntries layout.now stage
        (B.seen blocks.old).cur (B.seen blocks.new).cur) }
    ensures unread { IfErr result (λ fault. fault ≡ Read
        → Keeps B.tells (B.seen blocks.old) (B.seen blocks.new)) }
    ensures count { (B.seen blocks.new).count ≡ (B.seen blocks.old).count }
    ensures size { (B.seen blocks.new).size ≡ (B.seen blocks.old).size }
    ensures cause { HasCause (B.faults blocks.old) (B.faults blocks.new) result }
{
    match stage {
        StageKind::CiCopy => copy(layout, blocks, split, block, first, second),
        StageKind::CiSwitch => switch(layout, blocks, split, first),
        _ => clean(layout, blocks, split, block, first),
    }
}
