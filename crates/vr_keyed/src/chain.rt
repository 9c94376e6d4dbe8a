//! Looking and searching over the areas of a part, each by what `look` and `next` do in one.
ghost use Rattle.std.specs.Prelude.{◌≡◌, ◌<◌, ◌≤◌, ◌↔◌, ℕ, IfOk, IsTrue, MatchOption, None, Some};
ghost use Rattle.std.specs.Prelude.{length, take};
ghost use Rattle.std.specs.Borrow.{sem};
ghost use Rattle.std.specs.Io.BufRead.{Rests};
ghost use Rattle.vr_types.specs.Blocks.{Keeps};
ghost use Rattle.vr_types.specs.Faults.{HasCause};
ghost use Rattle.vr_types.specs.Geometry.{area_count};
ghost use Rattle.vr_space.specs.Areas.{ChainHasRoom, IsChainOn, KnowsAreas, area_by, area_of};
ghost use Rattle.vr_space.specs.Part.{KeyedShape, NextIs, Stands, part_no, record_read};
ghost use Rattle.vr_attach.specs.Areas.{AreWhole};
ghost use Rattle.vr_keyed.specs.Lent.{ArePlaces, HasRoomFor};
ghost use Rattle.vr_keyed.specs.Next.{AreBefore};
ghost use Rattle.vr_keyed.specs.Slots.{IsSlotOf};

use crate::look::look_in;
use crate::next::next_in;
use crate::rooms::rooms_in;
use crate::slot::Slot;
use vr_attach::Areas;
use vr_space::{Kept, Layout, Whence};
use vr_split::Weights;
use vr_types::{Blocks, DeviceFault, PlaceBuffer};

/// The area of a place.
pub(crate) fn area_for(areas: &Areas, place: &[u8]) -> Layout
    requires whole { AreWhole areas.now }
    requires place { length place.now ≡ areas.now.part.key }
    ensures { (area : ℕ) × (area_by areas.now.areas areas.now.ends place.now ≡ Some area)
        × (area < area_count areas.now.part.geometry) × (result ≡ area_of areas.now.part area) }
{
    areas.layout().area(areas.area_of(place))
}

/// Lends the record at a place, by reading the head of its area and one interval. The blocks come
/// first, since they lend it.
pub(crate) fn look_at<'a, B: Blocks>(
    blocks: &'a mut B,
    areas: &Areas,
    place: &[u8],
) -> Result<Option<&'a [u8]>, DeviceFault>
    requires on { IsChainOn areas.now.part (B.seen blocks.old) }
    requires whole { AreWhole areas.now }
    requires place { length place.now ≡ areas.now.part.key }
    requires stands { IsTrue B.tells → Stands (KeyedShape areas.now.part) (B.seen blocks.old).cur }
    requires knows { IsTrue B.tells → KnowsAreas areas.now.part areas.now.areas areas.now.ends
        (B.seen blocks.old).cur }
    ensures item { IsTrue B.tells → IfOk result (λ found. MatchOption found
        (record_read (KeyedShape areas.now.part) (B.seen blocks.old).cur place.now ≡ None)
        (λ s. record_read (KeyedShape areas.now.part) (B.seen blocks.old).cur place.now
        ≡ Some s.now)) }
    ensures* after { sem 𝓛 (Rests B.row blocks.entry (λ new.
        Keeps B.tells (B.seen blocks.old) (B.seen new)
        × HasCause (B.faults blocks.old) (B.faults new) result)) }
{
    let layout = area_for(areas, place);
    look_in(blocks, &layout, place)
}

/// How many of the first areas have no place that the search may find.
fn first_area(areas: &Areas, from: Whence<'_>) -> usize
    ensures { AreBefore from.entry (take result areas.now.ends) }
{
    match from {
        Whence::Start => 0,
        Whence::At(place) => areas.position(place.as_slice()),
        Whence::After(place) => areas.position(place.as_slice()),
        Whence::Above(place) => areas.position(place),
    }
}

/// Gives the least place with a record that `from` allows; false where there is none. It goes from
/// the area of the place on, up to the first that has one.
pub(crate) fn next_over<B: Blocks>(
    slot: &mut Slot,
    areas: &Areas,
    blocks: &mut B,
    from: Whence<'_>,
    into: &mut PlaceBuffer,
) -> Result<bool, DeviceFault>
    requires on { IsChainOn areas.now.part (B.seen blocks.old) }
    requires whole { AreWhole areas.now }
    requires slot { IsSlotOf (area_of areas.now.part areas.now.part.first) slot.old }
    requires room { areas.now.part.key ≤ into.old.room }
    requires stands { IsTrue B.tells → Stands (KeyedShape areas.now.part) (B.seen blocks.old).cur }
    requires knows { IsTrue B.tells → KnowsAreas areas.now.part areas.now.areas areas.now.ends
        (B.seen blocks.old).cur }
    ensures slot { IsSlotOf (area_of areas.now.part areas.now.part.first) slot.new }
    ensures next { IsTrue B.tells → IfOk result (λ found. NextIs (KeyedShape areas.now.part)
        (B.seen blocks.old).cur from.entry found into.new.place) }
    ensures room { into.new.room ≡ into.old.room }
    ensures keeps { Keeps B.tells (B.seen blocks.old) (B.seen blocks.new) }
    ensures cause { HasCause (B.faults blocks.old) (B.faults blocks.new) result }
{
    for i in first_area(areas, from)..areas.count() {
        let layout = areas.layout().area(areas.area_at(i));
        if next_in(slot, &layout, blocks, from, into)? {
            return Ok(true);
        }
    }
    Ok(false)
}

/// Whether each interval of the part has room for what is kept for its range, beside its records.
/// It reads each head into a buffer, and each interval of an entry once.
pub(crate) fn rooms_over<B: Blocks, K: Kept>(
    blocks: &mut B,
    areas: &Areas,
    kept: &K,
    top: &mut [u8],
    weights: &mut Weights,
) -> Result<bool, DeviceFault>
    requires on { IsChainOn areas.now.part (B.seen blocks.old) }
    requires top { length top.old ≡ areas.now.part.geometry.size }
    requires kept { ArePlaces areas.now.part.key
        (K.kept kept.now (part_no (KeyedShape areas.now.part))) }
    requires weights { HasRoomFor (area_of areas.now.part areas.now.part.first) weights.old }
    requires stands { IsTrue B.tells → Stands (KeyedShape areas.now.part) (B.seen blocks.old).cur }
    requires knows { IsTrue B.tells → KnowsAreas areas.now.part areas.now.areas areas.now.ends
        (B.seen blocks.old).cur }
    ensures rooms { IsTrue B.tells → IfOk result (λ is. IsTrue is
        ↔ ChainHasRoom areas.now.part (K.kept kept.now (part_no (KeyedShape areas.now.part)))
        (B.seen blocks.old).cur) }
    ensures weights { HasRoomFor (area_of areas.now.part areas.now.part.first) weights.new }
    ensures keeps { Keeps B.tells (B.seen blocks.old) (B.seen blocks.new) }
    ensures cause { HasCause (B.faults blocks.old) (B.faults blocks.new) result }
{
    for i in 0..areas.count() {
        let layout = areas.layout().area(areas.area_at(i));
        if !rooms_in(blocks, &layout, kept, top, weights)? {
            return Ok(false);
        }
    }
    Ok(true)
}
