//! Where an interval is cut in which a record lacks room, and which one gets the upper records.
ghost use Rattle.std.specs.Prelude.{◌≡◌, ◌<◌, ℕ, IsTrue, IfSome, IfOk, MatchOption, MatchBool};
ghost use Rattle.std.specs.Prelude.{◌↔◌, IsSomeAnd, None, Some, length};
ghost use Rattle.vr_types.specs.Image.{Image};
ghost use Rattle.vr_seqset.specs.Reading.{record_in};
ghost use Rattle.vr_space.specs.AreaCalls.{area_part, IsAreaOn};
ghost use Rattle.vr_space.specs.Room.{HaveRoom, with_length};
ghost use Rattle.vr_space.specs.Keyed.{HoldsRange, lengths_of};
ghost use Rattle.vr_space.specs.Split.{free_interval};
ghost use Rattle.vr_keyed.specs.Lent.{ArePlaces, HasRoomFor};
ghost use Rattle.vr_keyed.specs.Slots.{met_in};
ghost use Rattle.vr_keyed.specs.Planned.{LacksRoom, IsPlan, HasKeyAt};
ghost use Rattle.vr_types.specs.Image.{block_at};
ghost use Rattle.vr_types.specs.Blocks.{Keeps};
ghost use Rattle.vr_types.specs.Faults.{HasCause};
ghost use Rattle.vr_space.specs.Keyed.{IsHead};
ghost use Rattle.vr_keyed.specs.Planned.{IsCutAt, HasNoCut, IsTargetAt, HasNoTarget};

use crate::gather::gather_lengths;
use crate::room::{least_free, range_of};
use crate::slot::Slot;
use vr_seqset::SeqView;
use vr_space::{Kept, Layout, entry_for};
use vr_split::{Weights, plan_cut};
use vr_types::{Blocks, DeviceFault, Place};

/// The interval that is to be cut, the free one that gets the upper records, and whether the first
/// is the last of the data set.
#[derive(Clone, Copy)]
pub struct Target {
    pub old: u16,
    pub into: u16,
    pub last: bool,
}

/// What a split begins with: its intervals, and the number of the greatest place that stays below
/// the cut.
#[derive(Clone, Copy)]
pub struct Plan {
    pub target: Target,
    pub number: usize,
}

/// The number of the greatest place that stays below the cut, for a record at a place. None where
/// there are not two places, or this is not one of them.
pub(crate) fn cut_at(weights: &Weights, place: &[u8], last: bool) -> Option<usize>
    ensures { MatchOption result (HasNoCut weights.now.lengths place.now)
        (IsCutAt weights.now.lengths place.now last) }
{
    let at = weights.position(place);
    if weights.len() < 2 || at >= weights.len() {
        return None;
    }
    Some(plan_cut(weights, at, last) - 1)
}

/// Whether no area of the chain comes after a head.
fn ends_chain(layout: &Layout, top: &[u8]) -> bool
    ensures { IsHead layout.now top.now → IsTrue result ↔ ((record_in top.now).next ≡ None) }
{
    let Ok(view) = SeqView::read(top, layout.area) else {
        return false;
    };
    view.next().is_none()
}

/// The interval of a place, under a head, and one that is free. None where no entry leads to the
/// place, or no interval is free, or the block is no head.
pub(crate) fn target_in(layout: &Layout, top: &[u8], place: &[u8]) -> Option<Target>
    ensures target { IsHead layout.now top.now → MatchOption result
        (HasNoTarget layout.now top.now place.now) (IsTargetAt layout.now top.now place.now) }
    // Whatever the block has.
    ensures old { IfSome result (λ target. target.old < layout.now.area) }
    ensures into { IfSome result (λ target. target.into < layout.now.area) }
{
    let found = entry_for(layout, top, place)?;
    let into = least_free(layout, top)?;
    Some(Target {
        old: found.interval,
        into,
        last: found.last && ends_chain(layout, top),
    })
}

/// The same, under the head that is read.
pub(crate) fn find_target<B: Blocks>(
    layout: &Layout,
    blocks: &mut B,
    place: &[u8],
) -> Result<Option<Target>, DeviceFault>
    requires on { IsAreaOn layout.now (B.seen blocks.old) }
    requires head { IsTrue B.tells
        → IsHead layout.now (block_at (B.seen blocks.old).cur layout.now.head) }
    ensures target { IsTrue B.tells → IfOk result (λ target. MatchOption target
        (HasNoTarget layout.now (block_at (B.seen blocks.old).cur layout.now.head) place.now)
        (IsTargetAt layout.now (block_at (B.seen blocks.old).cur layout.now.head) place.now)) }
    ensures old { IfOk result (λ target. IfSome target (λ t. t.old < layout.now.area)) }
    ensures into { IfOk result (λ target. IfSome target (λ t. t.into < layout.now.area)) }
    ensures keeps { Keeps B.tells (B.seen blocks.old) (B.seen blocks.new) }
    ensures cause { HasCause (B.faults blocks.old) (B.faults blocks.new) result }
{
    let top = blocks.get(layout.head)?;
    Ok(target_in(layout, top, place))
}

/// The same as `gather_lengths`, of the interval that a slot keeps.
fn gather_met<K: Kept>(
    layout: &Layout,
    slot: &Slot,
    kept: &K,
    place: &Place,
    longest: u32,
    weights: &mut Weights,
) -> bool
    ensures gathered { let all = K.kept kept.now (area_part layout.now) in
        let met = met_in slot.now in
        let lengths = lengths_of layout.now all met.range met.block in
        HoldsRange layout.now met.range met.block → ArePlaces layout.now.key all
        → length place.now ≡ layout.now.key → HasRoomFor layout.now weights.old
        → MatchBool result (weights.new.lengths ≡ with_length lengths place.now longest)
        (HaveRoom layout.now.size lengths → ⊥) }
    ensures count { weights.new.count ≡ weights.old.count }
    ensures bytes { weights.new.bytes ≡ weights.old.bytes }
{
    let range = range_of(slot);
    gather_lengths(
        layout,
        &range,
        slot.bytes.as_slice(),
        kept,
        place,
        longest,
        weights,
    )
}

/// Whether the place of this number has the length of a key.
fn has_key_at(layout: &Layout, weights: &Weights, number: usize) -> bool
    requires { number < length weights.now.lengths }
    ensures is { IsTrue result → HasKeyAt layout.now weights.now.lengths number }
    ensures all { HasKeyAt layout.now weights.now.lengths number → IsTrue result }
{
    weights.place(number).len() == usize::from(layout.key)
}

/// Where the interval that a slot keeps is cut for a record at a place. None where that place has
/// room alone, and where the block is not one of the part.
pub(crate) fn plan_in<K: Kept>(
    layout: &Layout,
    slot: &Slot,
    target: Target,
    kept: &K,
    place: &Place,
    longest: u32,
    weights: &mut Weights,
) -> Option<Plan>
    ensures plan { let all = K.kept kept.now (area_part layout.now) in
        (image : Image) → LacksRoom layout.now image all (met_in slot.now) place.now longest
        → IsTargetAt layout.now (block_at image layout.now.head) place.now target
        → HasRoomFor layout.now weights.old
        → IsSomeAnd result (IsPlan layout.now image all (met_in slot.now) place.now longest
        weights.new.lengths) }
    ensures target { IfSome result (λ plan. plan.target ≡ target) }
    ensures number { IfSome result (λ plan. plan.number < length weights.new.lengths) }
    ensures key { IfSome result (λ plan. HasKeyAt layout.now weights.new.lengths plan.number) }
    ensures count { weights.new.count ≡ weights.old.count }
    ensures bytes { weights.new.bytes ≡ weights.old.bytes }
{
    if !gather_met(layout, slot, kept, place, longest, weights) {
        return None;
    }
    let Some(number) = cut_at(weights, place.as_slice(), target.last) else {
        return None;
    };
    if !has_key_at(layout, weights, number) {
        return None;
    }
    Some(Plan { target, number })
}

/// What a split begins with, for a record that lacks room at a place whose interval was met. It
/// reads the head.
pub(crate) fn plan_split<B: Blocks, K: Kept>(
    layout: &Layout,
    slot: &Slot,
    blocks: &mut B,
    kept: &K,
    place: &Place,
    longest: u32,
    weights: &mut Weights,
) -> Result<Option<Plan>, DeviceFault>
    requires on { IsAreaOn layout.now (B.seen blocks.old) }
    requires room { HasRoomFor layout.now weights.old }
    requires lacks { let all = K.kept kept.now (area_part layout.now) in
        IsTrue B.tells → LacksRoom layout.now (B.seen blocks.old).cur all (met_in slot.now)
        place.now longest }
    requires free { IsTrue B.tells → (into : ℕ) × (free_interval layout.now
        (block_at (B.seen blocks.old).cur layout.now.head) ≡ Some into) }
    ensures plan { let all = K.kept kept.now (area_part layout.now) in
        IsTrue B.tells → IfOk result (λ plan. IsSomeAnd plan (IsPlan layout.now
        (B.seen blocks.old).cur all (met_in slot.now) place.now longest weights.new.lengths)) }
    ensures number { IfOk result (λ plan. IfSome plan
        (λ p. p.number < length weights.new.lengths)) }
    ensures key { IfOk result (λ plan. IfSome plan
        (λ p. HasKeyAt layout.now weights.new.lengths p.number)) }
    ensures old { IfOk result (λ plan. IfSome plan (λ p. p.target.old < layout.now.area)) }
    ensures into { IfOk result (λ plan. IfSome plan (λ p. p.target.into < layout.now.area)) }
    ensures room { HasRoomFor layout.now weights.new }
    ensures keeps { Keeps B.tells (B.seen blocks.old) (B.seen blocks.new) }
    ensures cause { HasCause (B.faults blocks.old) (B.faults blocks.new) result }
{
    let Some(target) = find_target(layout, blocks, place.as_slice())? else {
        return Ok(None);
    };
    Ok(plan_in(layout, slot, target, kept, place, longest, weights))
}
