//! Whether a record has room at its place, and which stage comes first where it has none.
ghost use Rattle.std.specs.Prelude.{◌≡◌, ◌<◌, ◌≤◌, ℕ, List, Option, IsTrue, All, length, MatchOption};
ghost use Rattle.std.specs.Prelude.{Some, None, nat_eq, IfOk, OnOk, IfSome};
ghost use Rattle.std.specs.List.{list_any, flat_map};
ghost use Rattle.vr_types.specs.Content.{item_at};
ghost use Rattle.vr_types.specs.Content.Item.{Standing};
ghost use Rattle.vr_types.specs.Image.{block_at};
ghost use Rattle.vr_types.specs.Blocks.{Keeps};
ghost use Rattle.vr_types.specs.Faults.{HasCause};
ghost use Rattle.vr_seqset.specs.Entry.{Entry};
ghost use Rattle.vr_space.specs.AreaCalls.{area_part, IsAreaOn};
ghost use Rattle.vr_space.specs.Keyed.{HoldsRange, IsHead, KeepsRoom, entry_block, lengths_of};
ghost use Rattle.vr_space.specs.Keyed.{records_of};
ghost use Rattle.vr_space.specs.Room.{HaveRoom, Range};
ghost use Rattle.vr_space.specs.Split.{SplitNow, area_room, can_grow, free_from, free_interval};
ghost use Rattle.vr_space.specs.Split.{room_by_split};
ghost use Rattle.vr_space.specs.Split.{stage_at};
ghost use Rattle.vr_space.specs.Met.{IsMet};
ghost use Rattle.vr_keyed.specs.Look.{AreaStands, HasEntry};
ghost use Rattle.vr_keyed.specs.Slots.{AreSlotsOf, IsInside, IsMetAt, LeavesMet, MeetsAt, met_in};
ghost use Rattle.vr_keyed.specs.Slots.{mets};
ghost use Rattle.vr_space.specs.Lent.{range_lent};
ghost use Rattle.vr_keyed.specs.Lent.{ArePlaces, HasRoomFor};
ghost use Rattle.vr_keyed.specs.Splits.{IsSplit};

use crate::begin::{Beginning, find_beginning};
use crate::gather::fits;
use crate::meet::meet;
use crate::slot::Slot;
use crate::slots::Slots;
use vr_seqset::{SeqEntry, SeqView, interval_limit};
use vr_space::{Kept, Layout, LentRange, Room, record_at};
use vr_split::Weights;
use vr_types::{Blocks, DeviceFault, Place, StageKind};

/// A split of a control interval under way: the interval that is cut, the one that gets the upper
/// records, and the stage that is next.
#[derive(Clone, Copy, PartialEq, Eq)]
pub struct UnderWay {
    pub old: u16,
    pub into: u16,
    pub stage: StageKind,
}

/// Whether an entry has this interval.
fn has_interval(entry: &SeqEntry<'_>, n: u16) -> bool
    ensures { length entry.now.intervals ≡ 1
        → result ≡ list_any (nat_eq n) entry.now.intervals }
{
    entry.intervals() > 0 && entry.interval(0) == n
}

/// Whether an entry of a head has this interval.
fn is_used(view: &SeqView<'_>, n: u16) -> bool
    ensures { All (λ (entry : Entry). length entry.intervals ≡ 1) view.now.entries
        → result ≡ list_any (nat_eq n)
        (flat_map (λ (entry : Entry). entry.intervals) view.now.entries) }
{
    let mut entries = view.entries();
    for _ in 0..view.count() {
        let Some(entry) = entries.next() else {
            return false;
        };
        if has_interval(&entry, n) {
            return true;
        }
    }
    false
}

/// The least interval below the limit that no entry of a head has.
pub(crate) fn free_in(view: &SeqView<'_>, limit: u16) -> Option<u16>
    ensures below { IfSome result (λ n. n < limit) }
    ensures free { let used = flat_map (λ (entry : Entry). entry.intervals) view.now.entries in
        All (λ (entry : Entry). length entry.intervals ≡ 1) view.now.entries
        → MatchOption result (free_from limit 0 used ≡ None)
        (λ n. free_from limit 0 used ≡ Some n) }
{
    for n in 0..limit {
        if !is_used(view, n) {
            return Some(n);
        }
    }
    None
}

/// The least free interval under a head. None where there is none, or the block is no head.
pub fn least_free(layout: &Layout, top: &[u8]) -> Option<u16>
    ensures free { IsHead layout.now top.now → MatchOption result
        (free_interval layout.now top.now ≡ None)
        (λ n. free_interval layout.now top.now ≡ Some n) }
    // Whatever the block has.
    ensures below { IfSome result (λ n. n < layout.now.area) }
{
    let Ok(view) = SeqView::read(top, layout.area) else {
        return None;
    };
    let limit = interval_limit(layout.area, layout.size as usize, layout.key as usize);
    free_in(&view, limit as u16)
}

/// The stage that is next for the interval of a block, where the split is one of it.
fn stage_of(layout: &Layout, split: Option<UnderWay>, number: u32) -> Option<StageKind>
    ensures { (now : Option SplitNow) (entry : Entry) → IsSplit now split
        → entry_block layout.now entry ≡ number → result ≡ stage_at now entry }
{
    let split = split?;
    let interval = u64::from(number).checked_sub(u64::from(layout.head) + 1)?;
    if interval == u64::from(split.old) || interval == u64::from(split.into) {
        return Some(split.stage);
    }
    None
}

/// What is answered where a record at a place lacks room: the next stage of the part's split under
/// way, else a new split, of the interval or of the area, with this many areas free on the volume.
fn room_beyond<B: Blocks>(
    layout: &Layout,
    stage: Option<StageKind>,
    blocks: &mut B,
    place: &Place,
    free: u32,
) -> Result<Room, DeviceFault>
    requires on { IsAreaOn layout.now (B.seen blocks.old) }
    requires head { IsTrue B.tells
        → IsHead layout.now (block_at (B.seen blocks.old).cur layout.now.head) }
    ensures answer { IsTrue B.tells → IfOk result (λ room. room ≡ room_by_split stage
        (free_interval layout.now (block_at (B.seen blocks.old).cur layout.now.head))
        (can_grow free (block_at (B.seen blocks.old).cur layout.now.head))) }
    ensures keeps { Keeps B.tells (B.seen blocks.old) (B.seen blocks.new) }
    ensures cause { HasCause (B.faults blocks.old) (B.faults blocks.new) result }
{
    if let Some(stage) = stage {
        return Ok(Room::Stage(stage));
    }
    match find_beginning(layout, blocks, place.as_slice(), free)? {
        Some(Beginning::Interval) => Ok(Room::Stage(StageKind::CiCopy)),
        Some(Beginning::Area { .. }) => Ok(Room::Stage(StageKind::CaClaim)),
        None => Ok(Room::NoSpace { need: 1, free: 0 }),
    }
}

/// Whether a record at least as long as this stands at a place of an interval.
fn stands_as_long(layout: &Layout, block: &[u8], place: &[u8], longest: u32) -> bool
    ensures stands { (range : Range) → HoldsRange layout.now range block.now → IsTrue result
        → (bytes : List ℕ) × (item_at (records_of layout.now block.now) place.now
        ≡ Some (Standing bytes)) × (longest ≤ length bytes) }
{
    match record_at(layout, block, place) {
        Some(record) => record.len() >= longest as usize,
        None => false,
    }
}

/// The range of the interval that a slot keeps.
pub(crate) fn range_of(slot: &Slot) -> LentRange<'_>
    ensures { range_lent result ≡ (met_in slot.now).range }
{
    let low = if slot.from_start {
        None
    } else {
        Some(slot.low.as_slice())
    };
    LentRange {
        low,
        high: slot.high.as_slice(),
    }
}

/// What stands in the way of a record of this length at a place whose interval was met: a split of
/// the area, or the stage of the part's split, wherever it is. So many areas are free on the volume.
/// What is kept has room in the interval already, so a record no longer than the one that stands at
/// the place has it too, and nothing is weighed.
pub(crate) fn room_met<B: Blocks, K: Kept>(
    layout: &Layout,
    split: Option<UnderWay>,
    under_way: Option<StageKind>,
    free: u32,
    slot: &Slot,
    blocks: &mut B,
    kept: &K,
    place: &Place,
    longest: u32,
    weights: &mut Weights,
) -> Result<Room, DeviceFault>
    requires on { IsAreaOn layout.now (B.seen blocks.old) }
    requires stands { IsTrue B.tells → AreaStands layout.now (B.seen blocks.old).cur }
    requires met { IsTrue B.tells
        → IsMet layout.now (B.seen blocks.old).cur (met_in slot.now) }
    requires fits { IsTrue B.tells → HaveRoom layout.now.size
        (lengths_of layout.now (K.kept kept.now (area_part layout.now))
        (met_in slot.now).range (met_in slot.now).block) }
    requires slot { slot.now.place.place ≡ place.now }
    requires place { length place.now ≡ layout.now.key }
    requires room { HasRoomFor layout.now weights.old }
    requires kept { IsTrue B.tells
        → ArePlaces layout.now.key (K.kept kept.now (area_part layout.now)) }
    ensures answer { IsTrue B.tells → IfOk result (λ room. (now : Option SplitNow)
        → IsSplit now split → room ≡ area_room layout.now now under_way (B.seen blocks.old).cur free
        (K.kept kept.now (area_part layout.now)) place.now longest) }
    ensures room { HasRoomFor layout.now weights.new }
    ensures keeps { Keeps B.tells (B.seen blocks.old) (B.seen blocks.new) }
    ensures cause { HasCause (B.faults blocks.old) (B.faults blocks.new) result }
{
    if let Some(stage) = stage_of(layout, split, slot.number) {
        return Ok(Room::Stage(stage));
    }
    let block = slot.bytes.as_slice();
    if stands_as_long(layout, block, place.as_slice(), longest) {
        return Ok(Room::Ready);
    }
    let range = range_of(slot);
    if fits(layout, &range, block, kept, place, longest, weights) {
        return Ok(Room::Ready);
    }
    room_beyond(layout, under_way, blocks, place, free)
}

/// What stands in the way of a record of this length at a place. It meets the interval of the
/// place first, and reads the head once more where it looks for a free interval.
pub(crate) fn room_at<B: Blocks, K: Kept>(
    layout: &Layout,
    split: Option<UnderWay>,
    under_way: Option<StageKind>,
    free: u32,
    slots: &mut Slots,
    blocks: &mut B,
    kept: &K,
    place: &Place,
    longest: u32,
    weights: &mut Weights,
) -> Result<Room, DeviceFault>
    requires on { IsAreaOn layout.now (B.seen blocks.old) }
    requires place { length place.now ≡ layout.now.key }
    requires stands { IsTrue B.tells → AreaStands layout.now (B.seen blocks.old).cur }
    requires entry { IsTrue B.tells → HasEntry layout.now (B.seen blocks.old).cur place.now }
    requires slots { AreSlotsOf layout.now slots.old }
    requires inside { All (IsInside layout.now place.now) (mets slots.old) }
    requires met { IsTrue B.tells
        → All (IsMetAt layout.now (B.seen blocks.old).cur place.now) (mets slots.old) }
    requires rooms { IsTrue B.tells → KeepsRoom layout.now
        (K.kept kept.now (area_part layout.now)) (B.seen blocks.old) }
    requires room { HasRoomFor layout.now weights.old }
    requires kept { IsTrue B.tells
        → ArePlaces layout.now.key (K.kept kept.now (area_part layout.now)) }
    ensures answer { IsTrue B.tells → IfOk result (λ room. (now : Option SplitNow)
        → IsSplit now split → room ≡ area_room layout.now now under_way (B.seen blocks.old).cur free
        (K.kept kept.now (area_part layout.now)) place.now longest) }
    ensures slots { AreSlotsOf layout.now slots.new }
    ensures meets { OnOk result (MeetsAt layout.now B.tells (B.seen blocks.old).cur place.now
        slots.old slots.new) }
    ensures leaves { LeavesMet layout.now B.tells (B.seen blocks.old).cur place.now
        (mets slots.old) (mets slots.new) }
    ensures room { HasRoomFor layout.now weights.new }
    ensures keeps { Keeps B.tells (B.seen blocks.old) (B.seen blocks.new) }
    ensures cause { HasCause (B.faults blocks.old) (B.faults blocks.new) result }
{
    meet(slots, layout, blocks, place.as_slice())?;
    room_met(
        layout,
        split,
        under_way,
        free,
        &slots.first,
        blocks,
        kept,
        place,
        longest,
        weights,
    )
}
