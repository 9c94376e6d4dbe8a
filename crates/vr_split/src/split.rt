//! Splits of control intervals, one at a time.
ghost use Rattle.std.specs.Prelude.{◌≡◌, ◌<◌, Some, None, IsTrue, IfOk, IfErr, OnOk, OnErr};
ghost use Rattle.std.specs.Prelude.{IsSome, IfSome, length};
ghost use Rattle.vr_types.specs.Blocks.{Keeps};
ghost use Rattle.vr_types.specs.Faults.{HasCause};
ghost use Rattle.vr_types.specs.declared.fault.DeviceFault.TheVariants.{Read};
ghost use Rattle.vr_types.specs.declared.unit.StageKind.TheVariants as stages;
ghost use Rattle.vr_space.specs.Room.{Lengths};
ghost use Rattle.vr_space.specs.Keyed.{IsKeyedAtRest, KeepsEnds, KeepsRoom};
ghost use Rattle.vr_space.specs.AreaCalls.{IsAreaOn};
ghost use Rattle.vr_space.specs.UnderWay.{AreaUnderWay};
ghost use Rattle.vr_split.specs.Switching.{KeepsPart, IsStageDone};
ghost use Rattle.vr_split.specs.Splits.{
  split_at,
  stage_now,
  stage_after as next_stage_of,
  stage_again as same_stage_of,
  after_stage,
  after_fault,
  AddsEntries,
  HasDoneStage,
};

use crate::steps::{Halving, do_stage};
use std::alloc::Global;
use std::marker::Model;
use vr_space::Layout;
use vr_types::{Blocks, DeviceFault, OutOfMemory, PlaceBuffer, StageKind, empty_place};

/// Splits of the control intervals of one area of a keyed part (DFSMS Using Data Sets, control
/// interval splits), one at a time, each in three stages. What is read and made goes through
/// buffers of its own, so that no call but `ci_split` takes memory.
#[derive(Drop)]
pub struct CiSplit {
    layout: Layout,
    next: Option<StageKind>,
    from: u16,
    into: u16,
    cut: PlaceBuffer,
    block: Vec<u8>,
    first: Vec<u8>,
    second: Vec<u8>,
}

impl Model for CiSplit {
    ghost use Rattle.std.specs.Prelude.{◌≡◌, length};
    ghost use Rattle.vr_split.specs.Splits.{Splits, split_by, AreUnderWay};

    ghost Value = { Splits };

    ghost view = { λ splits. record {
      part = splits.layout;
      split = split_by splits.next splits.from splits.into splits.cut.place;
    } };

    ghost invariant = { λ splits. (length splits.block.items ≡ splits.layout.size)
        × (length splits.first.items ≡ splits.layout.size)
        × (length splits.second.items ≡ splits.layout.size)
        × (splits.cut.room ≡ splits.layout.key)
        × AreUnderWay splits.next splits.layout splits.from splits.into };
}

/// A block of zeros.
fn zeros(alloc: Global, size: u32) -> Result<Vec<u8>, OutOfMemory>
    ensures { IfOk result (λ block. length block.items ≡ size) }
{
    let block = vec![in alloc; 0; size as usize]?;
    Ok(block)
}

/// Splits of an area, none of which is under way. It takes all the memory that they need.
pub fn ci_split(alloc: Global, layout: Layout) -> Result<CiSplit, OutOfMemory>
    ensures { IfOk result (λ splits. splits ≡ record { part = layout; split = None }) }
{
    let cut = empty_place(alloc, u32::from(layout.key))?;
    let block = zeros(alloc, layout.size)?;
    let first = zeros(alloc, layout.size)?;
    let second = zeros(alloc, layout.size)?;
    Ok(CiSplit {
        layout,
        next: None,
        from: 0,
        into: 0,
        cut,
        block,
        first,
        second,
    })
}

/// The stage that comes after one that is done.
fn stage_after(stage: StageKind) -> Option<StageKind>
    ensures { result ≡ next_stage_of stage }
{
    match stage {
        StageKind::CiCopy => Some(StageKind::CiSwitch),
        StageKind::CiSwitch => Some(StageKind::CiClean),
        _ => None,
    }
}

/// The stage that is next where one failed.
fn stage_again(stage: StageKind) -> Option<StageKind>
    ensures { result ≡ same_stage_of stage }
{
    match stage {
        StageKind::CiCopy => None,
        _ => Some(stage),
    }
}

impl CiSplit {
    /// Moves to another area of the part, where no split is under way. The buffers stay.
    pub fn move_to(&mut self, layout: &Layout)
        requires none { self.old.split ≡ None }
        requires size { layout.now.size ≡ self.old.part.size }
        requires key { layout.now.key ≡ self.old.part.key }
        ensures { self.new ≡ record { part = layout.now; split = None } }
    {
        self.layout = layout.copy();
    }

    /// Begins a split: of interval `old`, with `into` for the upper records, and `cut`, the
    /// greatest place that stays below it. Nothing is written yet.
    pub fn begin(&mut self, old: u16, into: u16, cut: &[u8])
        requires none { self.old.split ≡ None }
        requires old_in { old < self.old.part.area }
        requires into_in { into < self.old.part.area }
        requires key { length cut.now ≡ self.old.part.key }
        ensures { self.new ≡ record {
          part = self.old.part;
          split = Some (split_at old into cut.now stages.CiCopy);
        } }
    {
        self.cut.set(cut);
        self.from = old;
        self.into = into;
        self.next = Some(StageKind::CiCopy);
    }

    /// The stage that is next, where a split is under way.
    pub fn next_stage(&self) -> Option<StageKind>
        ensures { result ≡ stage_now self.now.split }
    {
        self.next
    }

    /// The interval that is cut, and the one that gets the upper records, while a split is under
    /// way.
    pub fn intervals(&self) -> (u16, u16)
        ensures { IfSome self.now.split (λ split. (result.0 ≡ split.old)
            × (result.1 ≡ split.into)) }
    {
        (self.from, self.into)
    }

    /// Does the stage that is next, and leaves the split at it.
    fn run<B: Blocks>(&mut self, blocks: &mut B, stage: StageKind) -> Result<(), DeviceFault>
        requires on { IsAreaOn self.old.part (B.seen blocks.old) }
        requires stage { stage_now self.old.split ≡ Some stage }
        requires rests { IsTrue B.tells → IsKeyedAtRest self.old.part (B.seen blocks.old) }
        requires way { IsTrue B.tells
            → AreaUnderWay self.old.part self.old.split (B.seen blocks.old) }
        ensures same { self.new ≡ self.old }
        ensures keeps { IsTrue B.tells → (kept : Lengths)
            → KeepsRoom self.old.part kept (B.seen blocks.old)
            → KeepsPart self.old.part kept (B.seen blocks.old) (B.seen blocks.new) }
        ensures done { IsTrue B.tells → OnOk result
            (IsStageDone self.old.part (B.seen blocks.old) (B.seen blocks.new)) }
        ensures way { IsTrue B.tells → OnOk result
            (AreaUnderWay self.old.part (after_stage self.old.split) (B.seen blocks.new)) }
        ensures made { IsTrue B.tells → OnOk result (HasDoneStage self.old.part self.old.split
            (B.seen blocks.old).cur (B.seen blocks.new).cur) }
        ensures counts { IsTrue B.tells → OnOk result (AddsEntries self.old.part stage
            (B.seen blocks.old).cur (B.seen blocks.new).cur) }
        ensures unread { IfErr result (λ fault. fault ≡ Read
            → Keeps B.tells (B.seen blocks.old) (B.seen blocks.new)) }
        ensures count { (B.seen blocks.new).count ≡ (B.seen blocks.old).count }
        ensures size { (B.seen blocks.new).size ≡ (B.seen blocks.old).size }
        ensures cause { HasCause (B.faults blocks.old) (B.faults blocks.new) result }
    {
        let split = Halving {
            old: self.from,
            into: self.into,
            cut: self.cut.as_slice(),
        };
        do_stage(
            &self.layout,
            blocks,
            &split,
            stage,
            &mut self.block,
            &mut self.first,
            &mut self.second,
        )
    }

    /// Does the stage that is next, and answers it. Each place keeps its record, and has room for
    /// what is kept there, at every moment, whether the stage fails or not.
    ///
    /// `CiCopy` reads the old interval and the head, writes the records above the cut into the free
    /// interval and the old one whole and busy, and forces both. `CiSwitch` reads the head, writes
    /// it with both entries, and forces it. `CiClean` reads the old interval and the head, and
    /// writes the old one with the records of its range.
    pub fn step<B: Blocks>(&mut self, blocks: &mut B) -> Result<StageKind, DeviceFault>
        requires on { IsAreaOn self.old.part (B.seen blocks.old) }
        requires under_way { IsSome self.old.split }
        requires rests { IsTrue B.tells → IsKeyedAtRest self.old.part (B.seen blocks.old) }
        requires way { IsTrue B.tells
            → AreaUnderWay self.old.part self.old.split (B.seen blocks.old) }
        ensures part { self.new.part ≡ self.old.part }
        ensures stage { IfOk result (λ kind. stage_now self.old.split ≡ Some kind) }
        ensures next { OnOk result (self.new.split ≡ after_stage self.old.split) }
        ensures failed { OnErr result (self.new.split ≡ after_fault self.old.split) }
        ensures keeps { IsTrue B.tells → (kept : Lengths)
            → KeepsRoom self.old.part kept (B.seen blocks.old)
            → KeepsPart self.old.part kept (B.seen blocks.old) (B.seen blocks.new) }
        // So the chain of areas goes on as it did.
        ensures ends { IsTrue B.tells
            → KeepsEnds self.old.part (B.seen blocks.old) (B.seen blocks.new) }
        ensures done { IsTrue B.tells → OnOk result
            (IsStageDone self.old.part (B.seen blocks.old) (B.seen blocks.new)) }
        ensures way { IsTrue B.tells → OnOk result
            (AreaUnderWay self.old.part self.new.split (B.seen blocks.new)) }
        ensures made { IsTrue B.tells → OnOk result (HasDoneStage self.old.part self.old.split
            (B.seen blocks.old).cur (B.seen blocks.new).cur) }
        // The head has as many entries more as the stage adds.
        ensures counts { IsTrue B.tells → IfOk result (λ kind. AddsEntries self.old.part kind
            (B.seen blocks.old).cur (B.seen blocks.new).cur) }
        // It reads before it puts.
        ensures unread { IfErr result (λ fault. fault ≡ Read
            → Keeps B.tells (B.seen blocks.old) (B.seen blocks.new)) }
        ensures count { (B.seen blocks.new).count ≡ (B.seen blocks.old).count }
        ensures size { (B.seen blocks.new).size ≡ (B.seen blocks.old).size }
        ensures cause { HasCause (B.faults blocks.old) (B.faults blocks.new) result }
    {
        let Some(stage) = self.next else {
            unreachable!("a split is under way")
        };
        let done = self.run(blocks, stage);
        self.next = if done.is_ok() {
            stage_after(stage)
        } else {
            stage_again(stage)
        };
        done?;
        Ok(stage)
    }
}
