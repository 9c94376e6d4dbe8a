//! The stages of a split that come before a record which lacks room.
ghost use Rattle.std.specs.Prelude.{◌≡◌, ◌⊎◌, ◌≤◌, ◌<◌, [], Some, None, IsTrue, false, All};
ghost use Rattle.std.specs.Prelude.{length};
ghost use Rattle.std.specs.Prelude.{IfOk, IfErr, OnOk, OnErr, IfSome, IsSome, IsSomeAnd};
ghost use Rattle.vr_types.specs.Blocks.{Keeps};
ghost use Rattle.vr_types.specs.Faults.{HasCause};
ghost use Rattle.vr_types.specs.declared.fault.DeviceFault.TheVariants.{Read};
ghost use Rattle.vr_types.specs.declared.unit.StageKind.TheVariants as stages;
ghost use Rattle.vr_space.specs.AreaCalls.{area_part, IsAreaOn};
ghost use Rattle.vr_space.specs.Room.{Lengths};
ghost use Rattle.vr_space.specs.Keyed.{IsKeyedAtRest, KeepsRoom};
ghost use Rattle.vr_space.specs.UnderWay.{AreaUnderWay};
ghost use Rattle.vr_split.specs.Switching.{KeepsPart, IsStageDone};
ghost use Rattle.vr_split.specs.Splits.{AddsEntries, stage_now, after_stage, after_fault};
ghost use Rattle.vr_keyed.specs.Lent.{HasRoomFor};
ghost use Rattle.vr_keyed.specs.Look.{HasEntry};
ghost use Rattle.vr_keyed.specs.Slots.{AreSlotsOf, IsInside, IsMetAt, LeavesMet, met_in, mets};
ghost use Rattle.vr_keyed.specs.Planned.{IsPlan, HasKeyAt};
ghost use Rattle.vr_keyed.specs.Advance.{IsDue, IsLater};

use crate::meet::meet;
use crate::plan::{Plan, plan_split};
use crate::slots::Slots;
use vr_space::{Kept, Layout};
use vr_split::{CiSplit, Weights};
use vr_types::{Blocks, DeviceFault, Place, StageKind};

/// What a split begins with, for a record that lacks room at a place. It meets the interval of the
/// place first, and reads the head.
fn plan_at<B: Blocks, K: Kept>(
    layout: &Layout,
    slots: &mut Slots,
    blocks: &mut B,
    kept: &K,
    place: &Place,
    longest: u32,
    weights: &mut Weights,
) -> Result<Option<Plan>, DeviceFault>
    requires on { IsAreaOn layout.now (B.seen blocks.old) }
    requires place { length place.now ≡ layout.now.key }
    requires longest { longest ≤ layout.now.most }
    requires slots { AreSlotsOf layout.now slots.old }
    requires inside { All (IsInside layout.now place.now) (mets slots.old) }
    requires met { IsTrue B.tells
        → All (IsMetAt layout.now (B.seen blocks.old).cur place.now) (mets slots.old) }
    requires weights { HasRoomFor layout.now weights.old }
    requires entry { IsTrue B.tells → HasEntry layout.now (B.seen blocks.old).cur place.now }
    requires rests { IsTrue B.tells → IsKeyedAtRest layout.now (B.seen blocks.old) }
    requires room { IsTrue B.tells → KeepsRoom layout.now
        (K.kept kept.now (area_part layout.now)) (B.seen blocks.old) }
    requires due { IsTrue B.tells → IsDue layout.now None (B.seen blocks.old).cur
        (K.kept kept.now (area_part layout.now)) place.now longest }
    ensures plan { IsTrue B.tells → IfOk result (λ plan. IsSomeAnd plan
        (IsPlan layout.now (B.seen blocks.old).cur
        (K.kept kept.now (area_part layout.now)) (met_in slots.new.first) place.now
        longest weights.new.lengths)) }
    ensures number { IfOk result (λ plan. IfSome plan
        (λ p. p.number < length weights.new.lengths)) }
    ensures key { IfOk result (λ plan. IfSome plan
        (λ p. HasKeyAt layout.now weights.new.lengths p.number)) }
    ensures old { IfOk result (λ plan. IfSome plan (λ p. p.target.old < layout.now.area)) }
    ensures into { IfOk result (λ plan. IfSome plan (λ p. p.target.into < layout.now.area)) }
    ensures slots { AreSlotsOf layout.now slots.new }
    ensures leaves { LeavesMet layout.now B.tells (B.seen blocks.old).cur place.now
        (mets slots.old) (mets slots.new) }
    ensures weights { HasRoomFor layout.now weights.new }
    ensures keeps { Keeps B.tells (B.seen blocks.old) (B.seen blocks.new) }
    ensures cause { HasCause (B.faults blocks.old) (B.faults blocks.new) result }
{
    let _ = &layout.most;
    meet(slots, layout, blocks, place.as_slice())?;
    plan_split(layout, &slots.first, blocks, kept, place, longest, weights)
}

/// Begins a split for a record that lacks room at a place. False, and none begun, only where the
/// device doesn't report its contents.
fn begin_split<B: Blocks, K: Kept>(
    layout: &Layout,
    split: &mut CiSplit,
    slots: &mut Slots,
    blocks: &mut B,
    kept: &K,
    place: &Place,
    longest: u32,
    weights: &mut Weights,
) -> Result<bool, DeviceFault>
    requires on { IsAreaOn layout.now (B.seen blocks.old) }
    requires part { split.old.part ≡ layout.now }
    requires none { split.old.split ≡ None }
    requires place { length place.now ≡ layout.now.key }
    requires longest { longest ≤ layout.now.most }
    requires slots { AreSlotsOf layout.now slots.old }
    requires inside { All (IsInside layout.now place.now) (mets slots.old) }
    requires met { IsTrue B.tells
        → All (IsMetAt layout.now (B.seen blocks.old).cur place.now) (mets slots.old) }
    requires weights { HasRoomFor layout.now weights.old }
    requires entry { IsTrue B.tells → HasEntry layout.now (B.seen blocks.old).cur place.now }
    requires rests { IsTrue B.tells → IsKeyedAtRest layout.now (B.seen blocks.old) }
    requires room { IsTrue B.tells → KeepsRoom layout.now
        (K.kept kept.now (area_part layout.now)) (B.seen blocks.old) }
    requires due { IsTrue B.tells → IsDue layout.now None (B.seen blocks.old).cur
        (K.kept kept.now (area_part layout.now)) place.now longest }
    ensures begun { IsTrue B.tells → IfOk result (λ begun. IsTrue begun
        × AreaUnderWay layout.now split.new.split (B.seen blocks.new)) }
    ensures copy { IfOk result (λ begun. IsTrue begun
        → stage_now split.new.split ≡ Some stages.CiCopy) }
    ensures none { IfOk result (λ begun. begun ≡ false → split.new.split ≡ None) }
    ensures failed { OnErr result (split.new.split ≡ None) }
    ensures part { split.new.part ≡ layout.now }
    ensures slots { AreSlotsOf layout.now slots.new }
    ensures leaves { LeavesMet layout.now B.tells (B.seen blocks.old).cur place.now
        (mets slots.old) (mets slots.new) }
    ensures weights { HasRoomFor layout.now weights.new }
    ensures keeps { Keeps B.tells (B.seen blocks.old) (B.seen blocks.new) }
    ensures cause { HasCause (B.faults blocks.old) (B.faults blocks.new) result }
{
    let Some(plan) = plan_at(layout, slots, blocks, kept, place, longest, weights)? else {
        return Ok(false);
    };
    split.begin(
        plan.target.old,
        plan.target.into,
        weights.place(plan.number),
    );
    Ok(true)
}

/// Does the next stage of the split under way, and forgets what was met.
pub(crate) fn go_on<B: Blocks>(
    split: &mut CiSplit,
    slots: &mut Slots,
    blocks: &mut B,
) -> Result<StageKind, DeviceFault>
    requires on { IsAreaOn split.old.part (B.seen blocks.old) }
    requires under_way { IsSome split.old.split }
    requires rests { IsTrue B.tells → IsKeyedAtRest split.old.part (B.seen blocks.old) }
    requires way { IsTrue B.tells
        → AreaUnderWay split.old.part split.old.split (B.seen blocks.old) }
    ensures part { split.new.part ≡ split.old.part }
    ensures stage { IfOk result (λ kind. stage_now split.old.split ≡ Some kind) }
    ensures next { OnOk result (split.new.split ≡ after_stage split.old.split) }
    ensures failed { OnErr result (split.new.split ≡ after_fault split.old.split) }
    ensures keeps { IsTrue B.tells → (kept : Lengths)
        → KeepsRoom split.old.part kept (B.seen blocks.old)
        → KeepsPart split.old.part kept (B.seen blocks.old) (B.seen blocks.new) }
    ensures done { IsTrue B.tells → OnOk result
        (IsStageDone split.old.part (B.seen blocks.old) (B.seen blocks.new)) }
    ensures adds { IsTrue B.tells → IfOk result (λ kind. AddsEntries split.old.part kind
        (B.seen blocks.old).cur (B.seen blocks.new).cur) }
    ensures way { IsTrue B.tells → OnOk result
        (AreaUnderWay split.old.part split.new.split (B.seen blocks.new)) }
    ensures slots { AreSlotsOf split.old.part slots.old → AreSlotsOf split.old.part slots.new }
    ensures none { mets slots.new ≡ [] }
    ensures unread { IfErr result (λ fault. fault ≡ Read
        → Keeps B.tells (B.seen blocks.old) (B.seen blocks.new)) }
    ensures count { (B.seen blocks.new).count ≡ (B.seen blocks.old).count }
    ensures size { (B.seen blocks.new).size ≡ (B.seen blocks.old).size }
    ensures cause { HasCause (B.faults blocks.old) (B.faults blocks.new) result }
{
    slots.filled = 0;
    split.step(blocks)
}

/// Begins a split for a record that lacks room at a place, does its first stage, and answers it.
/// What was met is forgotten then.
pub(crate) fn begin_at<B: Blocks, K: Kept>(
    layout: &Layout,
    split: &mut CiSplit,
    slots: &mut Slots,
    blocks: &mut B,
    kept: &K,
    place: &Place,
    longest: u32,
    weights: &mut Weights,
) -> Result<StageKind, DeviceFault>
    requires on { IsAreaOn layout.now (B.seen blocks.old) }
    requires part { split.old.part ≡ layout.now }
    requires none { split.old.split ≡ None }
    requires place { length place.now ≡ layout.now.key }
    requires longest { longest ≤ layout.now.most }
    requires slots { AreSlotsOf layout.now slots.old }
    requires inside { All (IsInside layout.now place.now) (mets slots.old) }
    requires met { IsTrue B.tells
        → All (IsMetAt layout.now (B.seen blocks.old).cur place.now) (mets slots.old) }
    requires weights { HasRoomFor layout.now weights.old }
    requires entry { IsTrue B.tells → HasEntry layout.now (B.seen blocks.old).cur place.now }
    requires rests { IsTrue B.tells → IsKeyedAtRest layout.now (B.seen blocks.old) }
    requires room { IsTrue B.tells → KeepsRoom layout.now
        (K.kept kept.now (area_part layout.now)) (B.seen blocks.old) }
    requires due { IsTrue B.tells → IsDue layout.now None (B.seen blocks.old).cur
        (K.kept kept.now (area_part layout.now)) place.now longest }
    ensures stage { IfOk result (λ kind. kind ≡ stages.CiCopy) }
    // At every moment, whether it fails or not.
    ensures keeps { IsTrue B.tells → KeepsPart layout.now
        (K.kept kept.now (area_part layout.now)) (B.seen blocks.old)
        (B.seen blocks.new) }
    ensures done { IsTrue B.tells → OnOk result
        (IsStageDone layout.now (B.seen blocks.old) (B.seen blocks.new)) }
    ensures way { IsTrue B.tells → OnOk result
        (AreaUnderWay layout.now split.new.split (B.seen blocks.new)) }
    ensures split { OnErr result (split.new.split ≡ None) }
    ensures later { IsLater split.new.split }
    ensures begun { IsTrue B.tells → OnOk result
        (stage_now split.new.split ≡ Some stages.CiSwitch) }
    ensures adds { IsTrue B.tells → OnOk result (AddsEntries layout.now stages.CiCopy
        (B.seen blocks.old).cur (B.seen blocks.new).cur) }
    ensures part { split.new.part ≡ layout.now }
    ensures slots { AreSlotsOf layout.now slots.new }
    ensures leaves { (mets slots.new ≡ [])
        ⊎ LeavesMet layout.now B.tells (B.seen blocks.old).cur place.now
        (mets slots.old) (mets slots.new) }
    ensures forgets { IsTrue B.tells → OnOk result (mets slots.new ≡ []) }
    ensures weights { HasRoomFor layout.now weights.new }
    // It reads before it puts.
    ensures unread { IfErr result (λ fault. fault ≡ Read
        → Keeps B.tells (B.seen blocks.old) (B.seen blocks.new)) }
    ensures count { (B.seen blocks.new).count ≡ (B.seen blocks.old).count }
    ensures size { (B.seen blocks.new).size ≡ (B.seen blocks.old).size }
    ensures cause { HasCause (B.faults blocks.old) (B.faults blocks.new) result }
{
    if !begin_split(layout, split, slots, blocks, kept, place, longest, weights)? {
        return Ok(StageKind::CiCopy);
    }
    go_on(split, slots, blocks)
}
