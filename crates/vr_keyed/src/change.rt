//! Changes in a part: room, the stages of splits, and setting, each by what it is in the area of
//! the place.
ghost use Rattle.std.specs.Prelude.{◌≡◌, ◌≢◌, ◌<◌, ◌≤◌, ℕ, [], All, Contains, false, IfErr};
ghost use Rattle.std.specs.Prelude.{IfOk, IfSome, IsSome, IsTrue, None, OnErr, OnOk, Some};
ghost use Rattle.std.specs.Prelude.{length};
ghost use Rattle.vr_types.specs.Blocks.{Keeps};
ghost use Rattle.vr_types.specs.Faults.{HasCause};
ghost use Rattle.vr_types.specs.Geometry.{area_count};
ghost use Rattle.vr_types.specs.Space.{free_count, least_free};
ghost use Rattle.vr_types.specs.declared.fault.DeviceFault.TheVariants.{Read, Write};
ghost use Rattle.vr_types.specs.declared.unit.StageKind.TheVariants as stages;
ghost use Rattle.vr_space.specs.declared.room.Room.TheVariants as answers;
ghost use Rattle.vr_space.specs.AreaCalls.{IsAreaOn};
ghost use Rattle.vr_space.specs.Areas.{ChainKeepsRoom, IsChainOn, KnowsAreas, area_of};
ghost use Rattle.vr_space.specs.Areas.{intervals_in};
ghost use Rattle.vr_space.specs.Keyed.{IsKeyedAtRest, KeepsRoom};
ghost use Rattle.vr_space.specs.Known.{held_with};
ghost use Rattle.vr_space.specs.Moves.{IsAreaStage, IsPastClaim, MoveUnderWay};
ghost use Rattle.vr_space.specs.Part.{AreMet, HasMore, IsClaimed, IsQuiet, IsStageDue, KeepsChain};
ghost use Rattle.vr_space.specs.Part.{KeyedShape, Knows, OwnersAfter, Stands};
ghost use Rattle.vr_space.specs.Part.{given, part_no};
ghost use Rattle.vr_space.specs.Room.{Lengths};
ghost use Rattle.vr_space.specs.Split.{keyed_room};
ghost use Rattle.vr_space.specs.UnderWay.{AreaUnderWay};
ghost use Rattle.vr_split.specs.Splits.{AddsEntries, after_fault, after_stage, stage_now};
ghost use Rattle.vr_split.specs.Switching.{IsStageDone, KeepsPart};
ghost use Rattle.vr_casplit.specs.Splits.{after_move};
ghost use Rattle.vr_attach.specs.Areas.{AreWhole};
ghost use Rattle.vr_keyed.specs.Advance.{IsLeastAside};
ghost use Rattle.vr_keyed.specs.Changed.{IsDoneIn, IsReadyIn, IsSetIn, KeepsIn, MaySetIn};
ghost use Rattle.vr_keyed.specs.Lent.{ArePlaces, HasRoomFor};
ghost use Rattle.vr_keyed.specs.Owned.{InAreas, IsMine, Splitting, counted_by, held_now, known_by};
ghost use Rattle.vr_keyed.specs.Owned.{known_in, stage_of_move};
ghost use Rattle.vr_keyed.specs.Ready.{put_of};
ghost use Rattle.vr_keyed.specs.Slots.{AreSlotsOf, HasMetPlace, KeepsPlaces, MeetsOne, mets};

use crate::advance::{begin_at, go_on};
use crate::begin::{Beginning, find_beginning};
use crate::chain::area_for;
use crate::meet::meet;
use crate::room::room_at;
use crate::set::set;
use crate::slots::Slots;
use crate::splits::Splits;
use vr_attach::Areas;
use vr_casplit::CaSplit;
use vr_space::{Kept, Room};
use vr_split::{CiSplit, Weights};
use vr_types::{Blocks, DeviceFault, Place, Space, StageKind};

/// What stands in the way of a record of this length at a place, with this many areas free on the
/// volume. All places of an area wait for its split.
pub(crate) fn room_over<B: Blocks, K: Kept>(
    areas: &Areas,
    splits: &Splits,
    slots: &mut Slots,
    blocks: &mut B,
    free: u32,
    kept: &K,
    place: &Place,
    longest: u32,
    weights: &mut Weights,
) -> Result<Room, DeviceFault>
    requires on { IsChainOn areas.now.part (B.seen blocks.old) }
    requires whole { AreWhole areas.now }
    requires part { splits.now.part ≡ areas.now.part }
    requires place { length place.now ≡ areas.now.part.key }
    requires stands { IsTrue B.tells → Stands (KeyedShape areas.now.part) (B.seen blocks.old).cur }
    requires knows { IsTrue B.tells → Knows (KeyedShape areas.now.part)
        (known_in areas.now splits.now (mets slots.old)) (B.seen blocks.old) }
    requires slots { AreSlotsOf (area_of areas.now.part areas.now.part.first) slots.old }
    requires mine { All (IsMine areas.now) (mets slots.old) }
    requires rooms { IsTrue B.tells → ChainKeepsRoom areas.now.part
        (K.kept kept.now (part_no (KeyedShape areas.now.part))) (B.seen blocks.old) }
    requires weights { HasRoomFor (area_of areas.now.part areas.now.part.first) weights.old }
    requires kept { IsTrue B.tells → ArePlaces areas.now.part.key
        (K.kept kept.now (part_no (KeyedShape areas.now.part))) }
    ensures answer { IsTrue B.tells → IfOk result (λ room. room
        ≡ keyed_room areas.now.part splits.now.split splits.now.move (B.seen blocks.old).cur free
        (K.kept kept.now (part_no (KeyedShape areas.now.part))) place.now longest) }
    ensures slots { AreSlotsOf (area_of areas.now.part areas.now.part.first) slots.new }
    ensures mine { All (IsMine areas.now) (mets slots.new) }
    ensures knows { IsTrue B.tells → Knows (KeyedShape areas.now.part)
        (known_in areas.now splits.now (mets slots.new)) (B.seen blocks.new) }
    ensures meets { OnOk result (MeetsOne place.now slots.old slots.new) }
    ensures weights { HasRoomFor (area_of areas.now.part areas.now.part.first) weights.new }
    ensures keeps { Keeps B.tells (B.seen blocks.old) (B.seen blocks.new) }
    ensures cause { HasCause (B.faults blocks.old) (B.faults blocks.new) result }
{
    let area = areas.area_of(place.as_slice());
    let layout = areas.layout().area(area);
    if let Some(stage) = splits.stage_of(area) {
        meet(slots, &layout, blocks, place.as_slice())?;
        return Ok(Room::Stage(stage));
    }
    room_at(
        &layout,
        splits.under_way_in(area),
        splits.stage(),
        free,
        slots,
        blocks,
        kept,
        place,
        longest,
        weights,
    )
}

/// Sets what is given at a place, in its area, or takes the record there away. It answers the block
/// that it put.
pub(crate) fn set_over<B: Blocks>(
    slots: &mut Slots,
    areas: &Areas,
    blocks: &mut B,
    out: &mut [u8],
    place: &[u8],
    bytes: Option<&[u8]>,
) -> Result<Option<u32>, DeviceFault>
    requires on { IsChainOn areas.now.part (B.seen blocks.old) }
    requires whole { AreWhole areas.now }
    requires place { length place.now ≡ areas.now.part.key }
    requires out { length out.old ≡ areas.now.part.geometry.size }
    requires rests { IsTrue B.tells → IsQuiet (KeyedShape areas.now.part) (B.seen blocks.old) }
    requires slots { AreSlotsOf (area_of areas.now.part areas.now.part.first) slots.old }
    requires mine { All (IsMine areas.now) (mets slots.old) }
    requires met { IsTrue B.tells → AreMet (KeyedShape areas.now.part)
        (known_by areas.now None None (mets slots.old)) (B.seen blocks.old).cur }
    ensures slots { AreSlotsOf (area_of areas.now.part areas.now.part.first) slots.new }
    ensures mine { All (IsMine areas.now) (mets slots.new) }
    ensures may { IsTrue B.tells → (kept : Lengths) (splits : Splitting)
        → IsReadyIn areas.now.part (known_in areas.now splits (mets slots.old)) kept place.now
        (given bytes.entry) (B.seen blocks.old)
        → MaySetIn areas.now.part kept place.now (given bytes.entry)
        (B.seen blocks.old) (B.seen blocks.new) }
    ensures done { IsTrue B.tells → IfOk result (λ put. (kept : Lengths) (splits : Splitting)
        → IsReadyIn areas.now.part (known_in areas.now splits (mets slots.old)) kept place.now
        (given bytes.entry) (B.seen blocks.old)
        → IsSetIn areas.now.part (known_in areas.now splits (mets slots.new)) (put_of put) place.now
        (given bytes.entry) (B.seen blocks.old) (B.seen blocks.new)) }
    ensures put { IfOk result (λ put. All (InAreas areas.now) (put_of put)) }
    ensures below { IfOk result (λ put. All (λ n. n < (B.seen blocks.new).count) (put_of put)) }
    // Where the place was met it reads nothing, and what was met elsewhere stays.
    ensures places { HasMetPlace (mets slots.old) place.now
        → OnOk result (KeepsPlaces (mets slots.old) (mets slots.new)) }
    ensures reads { HasMetPlace (mets slots.old) place.now → IfErr result (λ fault. fault ≡ Write) }
    // It reads before it puts.
    ensures unread { IfErr result (λ fault. fault ≡ Read
        → Keeps B.tells (B.seen blocks.old) (B.seen blocks.new)
        × (IsTrue B.tells → AreMet (KeyedShape areas.now.part)
        (known_by areas.now None None (mets slots.new)) (B.seen blocks.new).cur)) }
    ensures count { (B.seen blocks.new).count ≡ (B.seen blocks.old).count }
    ensures size { (B.seen blocks.new).size ≡ (B.seen blocks.old).size }
    ensures cause { HasCause (B.faults blocks.old) (B.faults blocks.new) result }
{
    let layout = area_for(areas, place);
    set(slots, &layout, blocks, out, place, bytes)
}

/// Does the next stage of the split of an interval that is under way, and counts the interval that
/// a switch adds to those of the part. What was met is forgotten.
fn go_on_over<B: Blocks>(
    areas: &mut Areas,
    interval: &mut CiSplit,
    slots: &mut Slots,
    blocks: &mut B,
) -> Result<StageKind, DeviceFault>
    requires on { IsAreaOn interval.old.part (B.seen blocks.old) }
    requires under_way { IsSome interval.old.split }
    requires rests { IsTrue B.tells → IsKeyedAtRest interval.old.part (B.seen blocks.old) }
    requires way { IsTrue B.tells
        → AreaUnderWay interval.old.part interval.old.split (B.seen blocks.old) }
    ensures part { interval.new.part ≡ interval.old.part }
    ensures stage { IfOk result (λ kind. stage_now interval.old.split ≡ Some kind) }
    ensures next { OnOk result (interval.new.split ≡ after_stage interval.old.split) }
    ensures failed { OnErr result (interval.new.split ≡ after_fault interval.old.split) }
    ensures counts { IfOk result (λ kind. areas.new
        ≡ record areas.old { intervals = counted_by kind areas.old.intervals }) }
    ensures areas { OnErr result (areas.new ≡ areas.old) }
    ensures keeps { IsTrue B.tells → (kept : Lengths)
        → KeepsRoom interval.old.part kept (B.seen blocks.old)
        → KeepsPart interval.old.part kept (B.seen blocks.old) (B.seen blocks.new) }
    ensures done { IsTrue B.tells → OnOk result
        (IsStageDone interval.old.part (B.seen blocks.old) (B.seen blocks.new)) }
    ensures adds { IsTrue B.tells → IfOk result (λ kind. AddsEntries interval.old.part kind
        (B.seen blocks.old).cur (B.seen blocks.new).cur) }
    ensures way { IsTrue B.tells → OnOk result
        (AreaUnderWay interval.old.part interval.new.split (B.seen blocks.new)) }
    ensures slots { AreSlotsOf interval.old.part slots.old
        → AreSlotsOf interval.old.part slots.new }
    ensures none { mets slots.new ≡ [] }
    ensures unread { IfErr result (λ fault. fault ≡ Read
        → Keeps B.tells (B.seen blocks.old) (B.seen blocks.new)) }
    ensures count { (B.seen blocks.new).count ≡ (B.seen blocks.old).count }
    ensures size { (B.seen blocks.new).size ≡ (B.seen blocks.old).size }
    ensures cause { HasCause (B.faults blocks.old) (B.faults blocks.new) result }
{
    let stage = go_on(interval, slots, blocks)?;
    if stage == StageKind::CiSwitch {
        areas.add_interval();
    }
    Ok(stage)
}

/// Whether the part can have the least free area of the volume: always, where the owners of areas
/// go with the blocks.
fn takes_least(areas: &Areas, space: &Space) -> bool
    ensures there { IsTrue result → (area : ℕ) → least_free space.now ≡ Some area
        → area < area_count areas.now.part.geometry }
    ensures free { IsTrue result → IsSome (least_free space.now) }
    ensures apart { IsTrue result → (area : ℕ) → least_free space.now ≡ Some area
        → Contains areas.now.areas area → ⊥ }
    ensures has { result ≡ false → (area : ℕ) → least_free space.now ≡ Some area
        → area < area_count areas.now.part.geometry
        → length areas.now.areas < area_count areas.now.part.geometry
        → Contains areas.now.areas area }
{
    match space.least_free() {
        Some(area) => areas.takes(area.0),
        None => false,
    }
}

/// Does the next stage of the split of an area that is under way, and forgets what was met. After
/// the last one the chain has the area that was claimed, and no split is under way.
fn move_on<B: Blocks>(
    areas: &mut Areas,
    whole: &mut CaSplit,
    slots: &mut Slots,
    blocks: &mut B,
    space: &mut Space,
) -> Result<StageKind, DeviceFault>
    requires on { IsChainOn areas.old.part (B.seen blocks.old) }
    requires whole { AreWhole areas.old }
    requires part { whole.old.part ≡ areas.old.part }
    requires under_way { IsSome whole.old.move }
    requires stage { IfSome whole.old.move (λ move. IsAreaStage move.stage) }
    requires free { IfSome whole.old.move (λ move. move.stage ≡ stages.CaClaim
        → IsSome (least_free space.old)) }
    requires there { IfSome whole.old.move (λ move. (area : ℕ) → move.stage ≡ stages.CaClaim
        → least_free space.old ≡ Some area → area < area_count areas.old.part.geometry) }
    requires aside { IfSome whole.old.move (λ move. (area : ℕ) → move.stage ≡ stages.CaClaim
        → least_free space.old ≡ Some area → Contains areas.old.areas area → ⊥) }
    requires rests { IsTrue B.tells → IsQuiet (KeyedShape areas.old.part) (B.seen blocks.old) }
    requires way { IsTrue B.tells
        → MoveUnderWay areas.old.part whole.old.move (B.seen blocks.old) }
    requires knows { IsTrue B.tells → KnowsAreas areas.old.part areas.old.areas areas.old.ends
        (B.seen blocks.old).cur }
    requires counted { IsTrue B.tells → areas.old.intervals
        ≡ intervals_in areas.old.part (B.seen blocks.old).cur }
    ensures stage { IfOk result (λ kind. stage_of_move whole.old.move ≡ Some kind) }
    ensures owners { IfOk result (λ kind.
        OwnersAfter (part_no (KeyedShape areas.old.part)) kind space.old space.new) }
    ensures owners_stay { OnErr result (space.new ≡ space.old) }
    ensures chain { OnOk result (KeepsChain (KeyedShape areas.old.part)
        (held_now areas.old.areas whole.old.move) (held_now areas.new.areas whole.new.move)
        space.old space.new) }
    ensures claims { IfErr result (λ _. stage_of_move whole.old.move ≢ Some stages.CaClaim) }
    ensures claimed { OnOk result (stage_of_move whole.old.move ≡ Some stages.CaClaim
        → IsClaimed (part_no (KeyedShape areas.old.part)) space.old space.new) }
    ensures counted { areas.new.intervals ≡ areas.old.intervals }
    ensures failed { OnErr result (whole.new.move ≡ whole.old.move) }
    ensures areas { OnErr result (areas.new ≡ areas.old) }
    ensures past { OnOk result (IsPastClaim whole.new.move) }
    ensures next { IsTrue B.tells → (kept : Lengths)
        → ChainKeepsRoom areas.old.part kept (B.seen blocks.old)
        → OnOk result (IfSome whole.old.move (λ move. (claimed : ℕ)
        × (whole.new.move ≡ after_move move claimed))) }
    ensures whole { AreWhole areas.new }
    ensures part { areas.new.part ≡ areas.old.part }
    ensures whole_part { whole.new.part ≡ areas.old.part }
    // At every moment, whether it fails or not.
    ensures keeps { IsTrue B.tells → (kept : Lengths)
        → ChainKeepsRoom areas.old.part kept (B.seen blocks.old)
        → KeepsIn areas.old.part whole.old.move kept (B.seen blocks.old) (B.seen blocks.new) }
    ensures done { IsTrue B.tells → (kept : Lengths)
        → ChainKeepsRoom areas.old.part kept (B.seen blocks.old)
        → OnOk result (IsDoneIn areas.old.part whole.old.move
        (known_by areas.new None whole.new.move []) (B.seen blocks.old) (B.seen blocks.new)) }
    ensures slots { AreSlotsOf (area_of areas.old.part areas.old.part.first) slots.old
        → AreSlotsOf (area_of areas.old.part areas.old.part.first) slots.new }
    ensures none { mets slots.new ≡ [] }
    ensures unread { IfErr result (λ fault. fault ≡ Read
        → Keeps B.tells (B.seen blocks.old) (B.seen blocks.new)) }
    ensures count { (B.seen blocks.new).count ≡ (B.seen blocks.old).count }
    ensures size { (B.seen blocks.new).size ≡ (B.seen blocks.old).size }
    ensures cause { HasCause (B.faults blocks.old) (B.faults blocks.new) result }
{
    slots.filled = 0;
    let (area, into) = whole.areas();
    let stage = whole.step(blocks, space)?;
    if stage == StageKind::CaSwitch && areas.insert(area, into, whole.cut()) {
        whole.finish();
    }
    Ok(stage)
}

/// Begins a split for a record that lacks room at a place, of the interval of the place or of its
/// area, does its first stage, and answers it. What was met is forgotten then.
fn begin_over<B: Blocks, K: Kept>(
    areas: &mut Areas,
    splits: &mut Splits,
    slots: &mut Slots,
    blocks: &mut B,
    space: &mut Space,
    kept: &K,
    place: &Place,
    longest: u32,
    weights: &mut Weights,
) -> Result<StageKind, DeviceFault>
    requires on { IsChainOn areas.old.part (B.seen blocks.old) }
    requires whole { AreWhole areas.old }
    requires part { splits.old.part ≡ areas.old.part }
    requires none { splits.old.split ≡ None }
    requires still { splits.old.move ≡ None }
    requires place { length place.now ≡ areas.old.part.key }
    requires longest { longest ≤ areas.old.part.most }
    requires rests { IsTrue B.tells → IsQuiet (KeyedShape areas.old.part) (B.seen blocks.old) }
    requires room { IsTrue B.tells → ChainKeepsRoom areas.old.part
        (K.kept kept.now (part_no (KeyedShape areas.old.part))) (B.seen blocks.old) }
    requires knows { IsTrue B.tells → Knows (KeyedShape areas.old.part)
        (known_in areas.old splits.old (mets slots.old)) (B.seen blocks.old) }
    requires due { IsTrue B.tells → IsStageDue (KeyedShape areas.old.part)
        (known_in areas.old splits.old (mets slots.old)) (B.seen blocks.old).cur
        (free_count space.old) (K.kept kept.now (part_no (KeyedShape areas.old.part))) place.now
        longest }
    requires slots { AreSlotsOf (area_of areas.old.part areas.old.part.first) slots.old }
    requires mine { All (IsMine areas.old) (mets slots.old) }
    requires weights { HasRoomFor (area_of areas.old.part areas.old.part.first) weights.old }
    ensures stage { IsTrue B.tells → IfOk result (λ kind. answers.Stage kind
        ≡ keyed_room areas.old.part splits.old.split splits.old.move (B.seen blocks.old).cur
        (free_count space.old) (K.kept kept.now (part_no (KeyedShape areas.old.part))) place.now
        longest) }
    ensures owners { IfOk result (λ kind.
        OwnersAfter (part_no (KeyedShape areas.old.part)) kind space.old space.new) }
    ensures owners_stay { OnErr result (space.new ≡ space.old) }
    ensures chain { OnOk result (KeepsChain (KeyedShape areas.old.part)
        (held_with areas.old.areas splits.old.move) (held_with areas.new.areas splits.new.move)
        space.old space.new) }
    ensures keeps { IsTrue B.tells → KeepsIn areas.old.part splits.old.move
        (K.kept kept.now (part_no (KeyedShape areas.old.part)))
        (B.seen blocks.old) (B.seen blocks.new) }
    ensures done { IsTrue B.tells → OnOk result (IsDoneIn areas.old.part splits.old.move
        (known_in areas.new splits.new (mets slots.new)) (B.seen blocks.old) (B.seen blocks.new)) }
    // Fewer stages are left, where the least free area is none of the chain.
    ensures more { IsTrue B.tells → IsLeastAside areas.old space.old → IfOk result (λ kind.
        HasMore (KeyedShape areas.old.part) kind
        (known_in areas.old splits.old (mets slots.old))
        (known_in areas.new splits.new (mets slots.new))
        (free_count space.old) (free_count space.new)) }
    ensures splits { OnErr result (splits.new ≡ splits.old) }
    ensures areas { OnErr result (areas.new ≡ areas.old) }
    ensures whole { AreWhole areas.new }
    ensures part { areas.new.part ≡ areas.old.part }
    ensures splits_part { splits.new.part ≡ areas.old.part }
    ensures slots { AreSlotsOf (area_of areas.old.part areas.old.part.first) slots.new }
    ensures mine { All (IsMine areas.new) (mets slots.new) }
    ensures weights { HasRoomFor (area_of areas.old.part areas.old.part.first) weights.new }
    // It reads before it puts.
    ensures unread { IfErr result (λ fault. fault ≡ Read
        → Keeps B.tells (B.seen blocks.old) (B.seen blocks.new)
        × (IsTrue B.tells → Knows (KeyedShape areas.old.part)
        (known_in areas.new splits.new (mets slots.new)) (B.seen blocks.new))) }
    ensures count { (B.seen blocks.new).count ≡ (B.seen blocks.old).count }
    ensures size { (B.seen blocks.new).size ≡ (B.seen blocks.old).size }
    ensures cause { HasCause (B.faults blocks.old) (B.faults blocks.new) result }
{
    let area = areas.area_of(place.as_slice());
    let layout = areas.layout().area(area);
    let begins = find_beginning(&layout, blocks, place.as_slice(), space.free())?;
    if let Some(Beginning::Area { entries, stay }) = begins {
        if !takes_least(areas, space) {
            return Ok(StageKind::CaClaim);
        }
        splits.whole.begin(area, entries, stay);
        return move_on(areas, &mut splits.whole, slots, blocks, space);
    }
    splits.interval.move_to(&layout);
    splits.area = area;
    let interval = &mut splits.interval;
    begin_at(
        &layout, interval, slots, blocks, kept, place, longest, weights,
    )
}

/// Does the stage that comes before a record which lacks room at a place, and answers it: the next
/// of the split under way, wherever it is, or the first of a new one, of the interval of the place
/// or of its area. What was met is forgotten once blocks are put.
pub(crate) fn advance_over<B: Blocks, K: Kept>(
    areas: &mut Areas,
    splits: &mut Splits,
    slots: &mut Slots,
    blocks: &mut B,
    space: &mut Space,
    kept: &K,
    place: &Place,
    longest: u32,
    weights: &mut Weights,
) -> Result<StageKind, DeviceFault>
    requires on { IsChainOn areas.old.part (B.seen blocks.old) }
    requires whole { AreWhole areas.old }
    requires part { splits.old.part ≡ areas.old.part }
    requires place { length place.now ≡ areas.old.part.key }
    requires longest { longest ≤ areas.old.part.most }
    requires rests { IsTrue B.tells → IsQuiet (KeyedShape areas.old.part) (B.seen blocks.old) }
    requires room { IsTrue B.tells → ChainKeepsRoom areas.old.part
        (K.kept kept.now (part_no (KeyedShape areas.old.part))) (B.seen blocks.old) }
    requires knows { IsTrue B.tells → Knows (KeyedShape areas.old.part)
        (known_in areas.old splits.old (mets slots.old)) (B.seen blocks.old) }
    requires due { IsTrue B.tells → IsStageDue (KeyedShape areas.old.part)
        (known_in areas.old splits.old (mets slots.old)) (B.seen blocks.old).cur
        (free_count space.old) (K.kept kept.now (part_no (KeyedShape areas.old.part))) place.now
        longest }
    requires slots { AreSlotsOf (area_of areas.old.part areas.old.part.first) slots.old }
    requires mine { All (IsMine areas.old) (mets slots.old) }
    requires weights { HasRoomFor (area_of areas.old.part areas.old.part.first) weights.old }
    ensures stage { IsTrue B.tells → IfOk result (λ kind. answers.Stage kind
        ≡ keyed_room areas.old.part splits.old.split splits.old.move (B.seen blocks.old).cur
        (free_count space.old) (K.kept kept.now (part_no (KeyedShape areas.old.part))) place.now
        longest) }
    ensures owners { IfOk result (λ kind.
        OwnersAfter (part_no (KeyedShape areas.old.part)) kind space.old space.new) }
    ensures owners_stay { OnErr result (space.new ≡ space.old) }
    ensures chain { OnOk result (KeepsChain (KeyedShape areas.old.part)
        (held_with areas.old.areas splits.old.move) (held_with areas.new.areas splits.new.move)
        space.old space.new) }
    ensures keeps { IsTrue B.tells → KeepsIn areas.old.part splits.old.move
        (K.kept kept.now (part_no (KeyedShape areas.old.part)))
        (B.seen blocks.old) (B.seen blocks.new) }
    ensures done { IsTrue B.tells → OnOk result (IsDoneIn areas.old.part splits.old.move
        (known_in areas.new splits.new (mets slots.new)) (B.seen blocks.old) (B.seen blocks.new)) }
    // Fewer stages are left, where the least free area is none of the chain.
    ensures more { IsTrue B.tells → IsLeastAside areas.old space.old → IfOk result (λ kind.
        HasMore (KeyedShape areas.old.part) kind
        (known_in areas.old splits.old (mets slots.old))
        (known_in areas.new splits.new (mets slots.new))
        (free_count space.old) (free_count space.new)) }
    ensures splits { OnErr result (splits.new ≡ splits.old) }
    ensures areas { OnErr result (areas.new ≡ areas.old) }
    ensures whole { AreWhole areas.new }
    ensures part { areas.new.part ≡ areas.old.part }
    ensures splits_part { splits.new.part ≡ areas.old.part }
    ensures slots { AreSlotsOf (area_of areas.old.part areas.old.part.first) slots.new }
    ensures mine { All (IsMine areas.new) (mets slots.new) }
    ensures weights { HasRoomFor (area_of areas.old.part areas.old.part.first) weights.new }
    // It reads before it puts.
    ensures unread { IfErr result (λ fault. fault ≡ Read
        → Keeps B.tells (B.seen blocks.old) (B.seen blocks.new)
        × (IsTrue B.tells → Knows (KeyedShape areas.old.part)
        (known_in areas.new splits.new (mets slots.new)) (B.seen blocks.new))) }
    ensures count { (B.seen blocks.new).count ≡ (B.seen blocks.old).count }
    ensures size { (B.seen blocks.new).size ≡ (B.seen blocks.old).size }
    ensures cause { HasCause (B.faults blocks.old) (B.faults blocks.new) result }
{
    if splits.interval.next_stage().is_some() {
        return go_on_over(areas, &mut splits.interval, slots, blocks);
    }
    if splits.whole.next_stage().is_some() {
        return move_on(areas, &mut splits.whole, slots, blocks, space);
    }
    begin_over(
        areas, splits, slots, blocks, space, kept, place, longest, weights,
    )
}
