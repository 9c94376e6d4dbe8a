//! Weighing what stands in an interval, and what is kept for its places.
ghost use Rattle.std.specs.Prelude.{◌≡◌, ◌≤◌, ◌-◌, ◌↔◌, ℕ, List, Option, [], IsTrue, false};
ghost use Rattle.std.specs.Prelude.{All, MatchBool, MatchOption, Some, None, length, map, filter};
ghost use Rattle.std.specs.Prelude.{if◌then◌else◌};
ghost use Rattle.std.specs.Borrow.{Bor};
ghost use Rattle.std.specs.Option.{option_map};
ghost use Rattle.std.specs.List.Sorted.{IsStrictlySortedBy};
ghost use Rattle.vr_types.specs.Content.{place_cmp};
ghost use Rattle.vr_ci.specs.Interval as ci;
ghost use Rattle.vr_ci.specs.Interval.{room};
ghost use Rattle.vr_space.specs.AreaCalls.{area_part};
ghost use Rattle.vr_space.specs.Whence.{first_of, places_kept};
ghost use Rattle.vr_space.specs.Room.{
  HaveRoom,
  have_room,
  is_above,
  length_at,
  lengths_in,
  with_length,
  with_lengths,
};
ghost use Rattle.vr_space.specs.Room as ranges;
ghost use Rattle.vr_space.specs.Keyed.{Keyed, HoldsRange, IsKept, IsValid, key_of, lengths_of};
ghost use Rattle.vr_split.specs.Weights.{HasNoRoom};
ghost use Rattle.vr_space.specs.Lent.{range_lent};
ghost use Rattle.vr_keyed.specs.Lent.{lengths_among, with_record};
ghost use Rattle.vr_keyed.specs.Lent.{ArePlaces, HasRoomFor, low_lent};

use vr_ci::{CiView, Form};
use vr_space::{Kept, Layout, LentRange, Whence, is_in};
use vr_split::Weights;
use vr_types::{PartNo, Place};

/// How long a record is, which is no longer than the longest.
fn length_of(layout: &Layout, record: &[u8]) -> u32
    ensures { IsValid layout.now record.now → result ≡ length record.now }
{
    if record.len() <= layout.most as usize {
        return record.len() as u32;
    }
    layout.most
}

/// Adds a record that is in the range. False where there is no room.
fn add_record(layout: &Layout, range: &LentRange<'_>, record: &[u8], weights: &mut Weights) -> bool
    ensures added { IsValid layout.now record.now → MatchBool result
        (weights.new.lengths ≡ with_record layout.now (range_lent range.now) weights.old.lengths
        record.now)
        (HasNoRoom weights.old (key_of layout.now record.now)) }
    ensures count { weights.new.count ≡ weights.old.count }
    ensures bytes { weights.new.bytes ≡ weights.old.bytes }
{
    if !layout.has_key(record) {
        return false;
    }
    let key = layout.key_of(record);
    if !is_in(range, key) {
        return true;
    }
    weights.add(key, length_of(layout, record))
}

/// Adds the records of an interval that are in the range. False where there is no room.
fn add_records(
    layout: &Layout,
    range: &LentRange<'_>,
    view: &CiView<'_>,
    weights: &mut Weights,
) -> bool
    requires none { weights.old.lengths ≡ [] }
    ensures added { All (IsKept layout.now) view.now.items
        → IsStrictlySortedBy place_cmp
        (map (λ (item : ci.Item). key_of layout.now item.bytes) view.now.items)
        → room view.now.items ≤ layout.now.size - 4 → HasRoomFor layout.now weights.old
        → IsTrue result × (weights.new.lengths
        ≡ lengths_among layout.now (range_lent range.now) view.now.items) }
    ensures count { weights.new.count ≡ weights.old.count }
    ensures bytes { weights.new.bytes ≡ weights.old.bytes }
{
    let mut records = view.iter();
    for _ in 0..view.count() {
        let Some((record, _)) = records.next() else {
            return false;
        };
        if !add_record(layout, range, record, weights) {
            return false;
        }
    }
    true
}

/// The least place with a kept record above the low one, where there is one.
fn next_above<'a, K: Kept>(kept: &'a K, part: PartNo, low: Option<&[u8]>) -> Option<&'a Place>
    ensures { MatchOption result
        (first_of (filter (is_above (low_lent low.entry)) (places_kept (K.kept kept.now part)))
        ≡ None)
        (λ place. first_of (filter (is_above (low_lent low.entry))
        (places_kept (K.kept kept.now part))) ≡ Some place.now) }
{
    let from = match low {
        None => Whence::Start,
        Some(low) => Whence::Above(low),
    };
    kept.next_kept(part, from)
}

/// The least place of a range with a kept record.
fn first_kept<'a, K: Kept>(kept: &'a K, part: PartNo, range: &LentRange<'_>) -> Option<&'a Place>
    ensures { MatchOption result
        (first_of (filter (ranges.is_in (range_lent range.now))
        (places_kept (K.kept kept.now part))) ≡ None)
        (λ place. first_of (filter (ranges.is_in (range_lent range.now))
        (places_kept (K.kept kept.now part))) ≡ Some place.now) }
{
    let Some(place) = next_above(kept, part, range.low) else {
        return None;
    };
    if place.as_slice().cmp(range.high).is_le() {
        Some(place)
    } else {
        None
    }
}

/// Adds a place with a kept record. False where there is no room.
fn add_kept_at<K: Kept>(kept: &K, part: PartNo, place: &Place, weights: &mut Weights) -> bool
    ensures added { (n : ℕ) → length_at (K.kept kept.now part) place.now ≡ Some n
        → MatchBool result
        (weights.new.lengths ≡ with_length weights.old.lengths place.now n)
        (HasNoRoom weights.old place.now) }
    ensures count { weights.new.count ≡ weights.old.count }
    ensures bytes { weights.new.bytes ≡ weights.old.bytes }
{
    match kept.longest(part, place) {
        None => false,
        Some(longest) => weights.add(place.as_slice(), longest),
    }
}

/// The number of the part.
fn part_of(layout: &Layout) -> PartNo
    ensures { result ≡ area_part layout.now }
{
    layout.part
}

/// Adds what is kept for the places of the range. False where there is no room. Each search for a
/// place may go through all that is kept, so there is one for each of these places, and one more.
fn add_kept<K: Kept>(kept: &K, part: PartNo, range: &LentRange<'_>, weights: &mut Weights) -> bool
    ensures added { (layout : Keyed) → ArePlaces layout.key (K.kept kept.now part)
        → HasRoomFor layout weights.old → MatchBool result
        (weights.new.lengths ≡ with_lengths weights.old.lengths
        (lengths_in (range_lent range.now) (K.kept kept.now part)))
        (HaveRoom layout.size (with_lengths weights.old.lengths
        (lengths_in (range_lent range.now) (K.kept kept.now part))) → ⊥) }
    ensures count { weights.new.count ≡ weights.old.count }
    ensures bytes { weights.new.bytes ≡ weights.old.bytes }
{
    let mut rest = *range;
    while let Some(place) = first_kept(kept, part, &rest) {
        if !add_kept_at(kept, part, place, weights) {
            return false;
        }
        rest.low = Some(place.as_slice());
    }
    true
}

/// Weighs what stands in the range of an interval, and what is kept for its places. False where
/// there is no room for that many, since they have none in the interval.
fn gather_kept<K: Kept>(
    layout: &Layout,
    range: &LentRange<'_>,
    block: &[u8],
    kept: &K,
    weights: &mut Weights,
) -> bool
    ensures gathered { let all = K.kept kept.now (area_part layout.now) in
        let lengths = lengths_of layout.now all (range_lent range.now) block.now in
        HoldsRange layout.now (range_lent range.now) block.now
        → ArePlaces layout.now.key all → HasRoomFor layout.now weights.old → MatchBool result
        (weights.new.lengths ≡ lengths) (HaveRoom layout.now.size lengths → ⊥) }
    ensures count { weights.new.count ≡ weights.old.count }
    ensures bytes { weights.new.bytes ≡ weights.old.bytes }
{
    weights.clear();
    let Ok(view) = CiView::read(Form::Plain, block) else {
        return false;
    };
    if !add_records(layout, range, &view, weights) {
        return false;
    }
    add_kept(kept, part_of(layout), range, weights)
}

/// Weighs what stands in the range of an interval, what is kept for its places, and a record of
/// this length at a place. False where there is no room for that many, since what stands and what
/// is kept has none in the interval.
pub(crate) fn gather_lengths<K: Kept>(
    layout: &Layout,
    range: &LentRange<'_>,
    block: &[u8],
    kept: &K,
    place: &Place,
    longest: u32,
    weights: &mut Weights,
) -> bool
    ensures gathered { let all = K.kept kept.now (area_part layout.now) in
        let lengths = lengths_of layout.now all (range_lent range.now) block.now in
        HoldsRange layout.now (range_lent range.now) block.now
        → ArePlaces layout.now.key all → length place.now ≡ layout.now.key
        → HasRoomFor layout.now weights.old → MatchBool result
        (weights.new.lengths ≡ with_length lengths place.now longest)
        (HaveRoom layout.now.size lengths → ⊥) }
    ensures count { weights.new.count ≡ weights.old.count }
    ensures bytes { weights.new.bytes ≡ weights.old.bytes }
{
    if !gather_kept(layout, range, block, kept, weights) {
        return false;
    }
    weights.add(place.as_slice(), longest)
}

/// Whether what stands in the range of an interval, and what is kept for its places, has room in it.
pub(crate) fn has_kept_room<K: Kept>(
    layout: &Layout,
    range: &LentRange<'_>,
    block: &[u8],
    kept: &K,
    weights: &mut Weights,
) -> bool
    ensures room { let all = K.kept kept.now (area_part layout.now) in
        let lengths = lengths_of layout.now all (range_lent range.now) block.now in
        HoldsRange layout.now (range_lent range.now) block.now
        → ArePlaces layout.now.key all → HasRoomFor layout.now weights.old
        → (IsTrue result ↔ HaveRoom layout.now.size lengths) }
    ensures count { weights.new.count ≡ weights.old.count }
    ensures bytes { weights.new.bytes ≡ weights.old.bytes }
{
    if !gather_kept(layout, range, block, kept, weights) {
        return false;
    }
    let room = layout.size.saturating_sub(4);
    weights.weight() <= u64::from(room)
}

/// Whether a record of this length has room at a place of an interval, beside what stands there and
/// what is kept.
pub fn fits<K: Kept>(
    layout: &Layout,
    range: &LentRange<'_>,
    block: &[u8],
    kept: &K,
    place: &Place,
    longest: u32,
    weights: &mut Weights,
) -> bool
    ensures fits { let all = K.kept kept.now (area_part layout.now) in
        let lengths = lengths_of layout.now all (range_lent range.now) block.now in
        HoldsRange layout.now (range_lent range.now) block.now
        → ArePlaces layout.now.key all → length place.now ≡ layout.now.key
        → HasRoomFor layout.now weights.old
        → result ≡ have_room layout.now.size (with_length lengths place.now longest) }
    ensures count { weights.new.count ≡ weights.old.count }
    ensures bytes { weights.new.bytes ≡ weights.old.bytes }
{
    if !gather_lengths(layout, range, block, kept, place, longest, weights) {
        return false;
    }
    weights.weight() <= layout.size.saturating_sub(4) as u64
}
