//! Splits of the areas of a part, one at a time.
ghost use Rattle.std.specs.Prelude.{◌≡◌, ◌≢◌, ◌<◌, ◌≤◌, ℕ, List, Some, None, IfErr, IfOk, IsSome};
ghost use Rattle.std.specs.Prelude.{Contains, IfSome, IsTrue, OnErr, OnOk, length};
ghost use Rattle.std.specs.Option.{option_map};
ghost use Rattle.vr_types.specs.Blocks.{Keeps};
ghost use Rattle.vr_types.specs.Faults.{HasCause};
ghost use Rattle.vr_types.specs.Geometry.{area_count};
ghost use Rattle.vr_types.specs.Space.{least_free};
ghost use Rattle.vr_types.specs.declared.fault.DeviceFault.TheVariants.{Read};
ghost use Rattle.vr_types.specs.declared.unit.StageKind.TheVariants as stages;
ghost use Rattle.vr_space.specs.Areas.{IsChainOn, KnowsAreas, areas_in, intervals_in};
ghost use Rattle.vr_space.specs.Moves.{IsMoving};
ghost use Rattle.vr_space.specs.Owners.{Owners};
ghost use Rattle.vr_space.specs.Part.{IsQuiet, KeyedShape, part_no};
ghost use Rattle.vr_space.specs.Room.{Lengths};
ghost use Rattle.vr_space.specs.Split.{MoveNow};
ghost use Rattle.vr_casplit.specs.Growing.{LeavesRecords, LeavesRest};
ghost use Rattle.vr_casplit.specs.Splits.{HasClaimed, IsAtWork, IsWorkDone, LeavesWork, OwnersBy};
ghost use Rattle.vr_casplit.specs.Splits.{after_move, areas_by, begun_at, ends_by, left_by};

use crate::stages::{Moving, do_stage, passed};
use std::alloc::Global;
use std::marker::Model;
use vr_space::KeyedLayout;
use vr_types::{Blocks, DeviceFault, OutOfMemory, PlaceBuffer, Space, StageKind, empty_place};

/// Splits of the areas of a key-sequenced part (DFSMS Using Data Sets, control area splits), one at
/// a time, each in stages: an area is claimed, the intervals that move are copied, one in each
/// stage, the head over them is written and forced with them, and the old head, shortened, leads to
/// it. What is read and made goes through buffers of its own, so that no call but `ca_split` takes
/// memory.
#[derive(Drop)]
pub struct CaSplit {
    layout: KeyedLayout,
    next: Option<StageKind>,
    area: u32,
    entries: usize,
    stay: usize,
    into: u32,
    copied: usize,
    top: Vec<u8>,
    out: Vec<u8>,
    listed: Vec<u32>,
    cut: PlaceBuffer,
}

impl Model for CaSplit {
    ghost use Rattle.std.specs.Prelude.{◌≡◌, ◌<◌, ◌≤◌, length, vec_capacity};
    ghost use Rattle.vr_casplit.specs.Splits.{IsMoveOf, Moves, move_by};

    ghost Value = { Moves };

    ghost view = { λ splits. record {
      part = splits.layout;
      move = move_by splits.next splits.area splits.entries splits.stay splits.into splits.copied;
      cut = splits.cut.place;
    } };

    ghost invariant = { λ splits. (length splits.top.items ≡ splits.layout.geometry.size)
        × (length splits.out.items ≡ splits.layout.geometry.size)
        × (splits.layout.geometry.area < vec_capacity splits.listed)
        × (splits.cut.room ≡ splits.layout.key)
        × (length splits.cut.place ≤ splits.layout.key)
        × IsMoveOf splits.layout
        (move_by splits.next splits.area splits.entries splits.stay splits.into splits.copied) };
}

/// A block of zeros.
fn zeros(alloc: Global, size: u32) -> Result<Vec<u8>, OutOfMemory>
    ensures { IfOk result (λ block. length block.items ≡ size) }
{
    let block = vec![in alloc; 0; size as usize]?;
    Ok(block)
}

/// Splits of the areas of a part, none of which is under way. It takes all the memory that they
/// need.
pub fn ca_split(alloc: Global, layout: KeyedLayout) -> Result<CaSplit, OutOfMemory>
    ensures part { IfOk result (λ splits. splits.part ≡ layout) }
    ensures none { IfOk result (λ splits. splits.move ≡ None) }
{
    let cut = empty_place(alloc, u32::from(layout.key))?;
    let top = zeros(alloc, layout.geometry.size)?;
    let out = zeros(alloc, layout.geometry.size)?;
    let listed = Vec::with_capacity(alloc, layout.geometry.area as usize + 1)?;
    Ok(CaSplit {
        layout,
        next: None,
        area: 0,
        entries: 0,
        stay: 0,
        into: 0,
        copied: 0,
        top,
        out,
        listed,
        cut,
    })
}

impl CaSplit {
    /// Begins a split of an area whose head has this many entries, of which the first `stay` stay,
    /// and the others move. Nothing is claimed or written yet.
    pub fn begin(&mut self, area: u32, entries: usize, stay: usize)
        requires none { self.old.move ≡ None }
        requires there { area < area_count self.old.part.geometry }
        requires some { 0 < stay }
        requires fewer { stay < entries }
        requires few { entries ≤ self.old.part.geometry.area }
        ensures part { self.new.part ≡ self.old.part }
        ensures begun { self.new.move ≡ Some (begun_at area entries stay) }
    {
        self.area = area;
        self.entries = entries;
        self.stay = stay;
        self.into = 0;
        self.copied = 0;
        self.next = Some(StageKind::CaClaim);
    }

    /// The stage that is next, where a split is under way.
    pub fn next_stage(&self) -> Option<StageKind>
        ensures { result ≡ option_map (λ (move : MoveNow). move.stage) self.now.move }
    {
        self.next
    }

    /// The area that is split, and the one that gets the last entries, while a split is under way.
    pub fn areas(&self) -> (u32, u32)
        ensures are { IfSome self.now.move (λ move.
            (result.0 ≡ move.area) × (result.1 ≡ move.into)) }
        ensures there { IfSome self.now.move (λ _.
            (result.0 < area_count self.now.part.geometry)
            × (result.1 < area_count self.now.part.geometry)) }
    {
        (self.area, self.into)
    }

    /// Where the ranges of the area end that was split last.
    pub fn cut(&self) -> &[u8]
        ensures cut { result.now ≡ self.now.cut }
        ensures length { length result.now ≤ self.now.part.key }
    {
        self.cut.as_slice()
    }

    /// Ends the split under way, whose last stage is done.
    pub fn finish(&mut self)
        requires { option_map (λ (move : MoveNow). move.stage) self.old.move
            ≡ Some stages.CaSwitch }
        ensures part { self.new.part ≡ self.old.part }
        ensures none { self.new.move ≡ None }
    {
        self.next = None;
    }

    /// Does the next stage of the split under way, and answers it. The first takes the least free
    /// area of `space`, in which one has to be free, and touches no block; a copy reads the head
    /// and an interval, and puts one block; the others read the head, put one, and force. A stage
    /// that fails is still next, and so is the last one until `finish`.
    pub fn step<B: Blocks>(
        &mut self,
        blocks: &mut B,
        space: &mut Space,
    ) -> Result<StageKind, DeviceFault>
        requires on { IsChainOn self.old.part (B.seen blocks.old) }
        requires under_way { IsSome self.old.move }
        requires there { IfSome self.old.move (λ move. (area : ℕ) → move.stage ≡ stages.CaClaim
            → least_free space.old ≡ Some area → area < area_count self.old.part.geometry) }
        requires free { IfSome self.old.move (λ move. move.stage ≡ stages.CaClaim
            → IsSome (least_free space.old)) }
        requires rests { IsTrue B.tells → IsQuiet (KeyedShape self.old.part) (B.seen blocks.old) }
        requires way { IsTrue B.tells → IfSome self.old.move (λ move.
            IsMoving self.old.part move (B.seen blocks.old)) }
        requires aside { IsTrue B.tells → IfSome self.old.move (λ move. (area : ℕ)
            → move.stage ≡ stages.CaClaim → least_free space.old ≡ Some area
            → Contains (areas_in self.old.part (B.seen blocks.old).cur) area → ⊥) }
        ensures part { self.new.part ≡ self.old.part }
        ensures stage { IfOk result (λ kind. IfSome self.old.move (λ move. kind ≡ move.stage)) }
        ensures next { OnOk result (IfSome self.old.move (λ move. (claimed : ℕ)
            → OwnersBy move.stage (part_no (KeyedShape self.old.part)) claimed space.old space.new
            → self.new.move ≡ left_by move claimed)) }
        ensures owners { OnOk result (IfSome self.old.move (λ move. (claimed : ℕ)
            × OwnersBy move.stage (part_no (KeyedShape self.old.part)) claimed space.old
            space.new)) }
        ensures failed { OnErr result (self.new.move ≡ self.old.move) }
        ensures claims { IfErr result (λ _. IfSome self.old.move (λ move.
            move.stage ≢ stages.CaClaim)) }
        ensures owners_stay { OnErr result (space.new ≡ space.old) }
        // At every moment, whether it fails or not.
        ensures leaves { IsTrue B.tells → IfSome self.old.move (λ move. (owners : Owners)
            (kept : Lengths) → IsAtWork self.old.part move owners kept (B.seen blocks.old)
            → LeavesRecords self.old.part owners kept (B.seen blocks.old) (B.seen blocks.new)) }
        ensures rests { IsTrue B.tells → IfSome self.old.move (λ move. (owners : Owners)
            (kept : Lengths) → IsAtWork self.old.part move owners kept (B.seen blocks.old)
            → OnOk result (LeavesRest self.old.part owners (B.seen blocks.old)
            (B.seen blocks.new))) }
        ensures way { IsTrue B.tells → IfSome self.old.move (λ move. (owners : Owners)
            (kept : Lengths) → IsAtWork self.old.part move owners kept (B.seen blocks.old)
            → OnOk result (move.stage ≢ stages.CaSwitch → IfSome self.new.move (λ after.
            IsMoving self.old.part after (B.seen blocks.new)))) }
        ensures knows { IsTrue B.tells → IfSome self.old.move (λ move. (owners : Owners)
            (kept : Lengths) (areas : List ℕ) (ends : List (List ℕ))
            → IsAtWork self.old.part move owners kept (B.seen blocks.old)
            → KnowsAreas self.old.part areas ends (B.seen blocks.old).cur
            → OnOk result (KnowsAreas self.old.part (areas_by move.stage move areas)
            (ends_by move.stage move self.new.cut areas ends) (B.seen blocks.new).cur)) }
        // The heads of the chain lead to as many intervals as before.
        ensures counts { IsTrue B.tells → IfSome self.old.move (λ move. (owners : Owners)
            (kept : Lengths) → IsAtWork self.old.part move owners kept (B.seen blocks.old)
            → OnOk result (intervals_in self.old.part (B.seen blocks.new).cur
            ≡ intervals_in self.old.part (B.seen blocks.old).cur)) }
        // It reads before it puts.
        ensures unread { IfErr result (λ fault. fault ≡ Read
            → Keeps B.tells (B.seen blocks.old) (B.seen blocks.new)) }
        ensures count { (B.seen blocks.new).count ≡ (B.seen blocks.old).count }
        ensures size { (B.seen blocks.new).size ≡ (B.seen blocks.old).size }
        ensures cause { HasCause (B.faults blocks.old) (B.faults blocks.new) result }
    {
        let Some(stage) = self.next_stage() else {
            unreachable!("a split is under way")
        };
        if stage == StageKind::CaClaim {
            self.claim(space);
            return Ok(stage);
        }
        self.run(blocks, stage)?;
        Ok(stage)
    }

    /// Claims the least free area.
    fn claim(&mut self, space: &mut Space)
        requires stage { option_map (λ (move : MoveNow). move.stage) self.old.move
            ≡ Some stages.CaClaim }
        requires free { IsSome (least_free space.old) }
        requires there { (area : ℕ) → least_free space.old ≡ Some area
            → area < area_count self.old.part.geometry }
        ensures part { self.new.part ≡ self.old.part }
        ensures claimed { IfSome self.old.move (λ move.
            HasClaimed self.old.part move self.new.move space.old space.new) }
    {
        let Some(area) = space.claim(self.layout.part) else {
            unreachable!("an area is free")
        };
        self.into = area.0;
        self.next = Some(StageKind::CaCopy);
    }

    /// Does the next stage, one that puts, and passes it.
    fn run<B: Blocks>(&mut self, blocks: &mut B, stage: StageKind) -> Result<(), DeviceFault>
        requires on { IsChainOn self.old.part (B.seen blocks.old) }
        requires stage { option_map (λ (move : MoveNow). move.stage) self.old.move ≡ Some stage }
        requires puts { stage ≢ stages.CaClaim }
        requires rests { IsTrue B.tells → IsQuiet (KeyedShape self.old.part) (B.seen blocks.old) }
        requires way { IsTrue B.tells → IfSome self.old.move (λ move.
            IsMoving self.old.part move (B.seen blocks.old)) }
        ensures part { self.new.part ≡ self.old.part }
        ensures next { OnOk result (IfSome self.old.move (λ move.
            self.new.move ≡ left_by move 0)) }
        ensures failed { OnErr result (self.new.move ≡ self.old.move) }
        ensures leaves { IsTrue B.tells → IfSome self.old.move (λ move.
            LeavesWork self.old.part move (B.seen blocks.old) (B.seen blocks.new)) }
        ensures done { IsTrue B.tells → OnOk result (IfSome self.old.move (λ move.
            IsWorkDone self.old.part move (after_move move 0) self.new.cut
            (B.seen blocks.old) (B.seen blocks.new))) }
        ensures unread { IfErr result (λ fault. fault ≡ Read
            → Keeps B.tells (B.seen blocks.old) (B.seen blocks.new)) }
        ensures count { (B.seen blocks.new).count ≡ (B.seen blocks.old).count }
        ensures size { (B.seen blocks.new).size ≡ (B.seen blocks.old).size }
        ensures cause { HasCause (B.faults blocks.old) (B.faults blocks.new) result }
    {
        let moving = Moving {
            area: self.area,
            entries: self.entries,
            stay: self.stay,
            into: self.into,
            copied: self.copied,
        };
        do_stage(
            blocks,
            &self.layout,
            &moving,
            stage,
            &mut self.top,
            &mut self.out,
            &mut self.listed,
            &mut self.cut,
        )?;
        if stage != StageKind::CaSwitch {
            let (copied, next) = passed(&moving, stage);
            self.copied = copied;
            self.next = next;
        }
        Ok(())
    }
}
