//! Searching for the next place with a record.
ghost use Rattle.std.specs.Prelude.{◌≡◌, ◌≤◌, ◌+◌, ◌↔◌, ℕ, List, Some, true, IsTrue, All, length};
ghost use Rattle.std.specs.Prelude.{map};
ghost use Rattle.std.specs.Prelude.{IfOk, IfSome};
ghost use Rattle.std.specs.Borrow.{Bor};
ghost use Rattle.std.specs.List.{position};
ghost use Rattle.std.specs.Option.{option_map};
ghost use Rattle.std.specs.Ordering.{is_le};
ghost use Rattle.vr_types.specs.Content.{place_cmp};
ghost use Rattle.vr_seqset.specs.Search.{reaches};
ghost use Rattle.vr_types.specs.Image.{block_at};
ghost use Rattle.vr_types.specs.Blocks.{Keeps};
ghost use Rattle.vr_types.specs.Faults.{HasCause};
ghost use Rattle.vr_ci.specs.Interval as ci;
ghost use Rattle.vr_space.specs.AreaCalls.{IsAreaOn, NextHere};
ghost use Rattle.vr_space.specs.Whence.{allows};
ghost use Rattle.vr_space.specs.Keyed.{HoldsRange, InArea, IsHead, IsKept, entries_of, key_of};
ghost use Rattle.vr_space.specs.Search.{keys_of};
ghost use Rattle.vr_keyed.specs.Look.{AreaStands};
ghost use Rattle.vr_keyed.specs.Slots.{IsSlotOf, low_kept, met_in};
ghost use Rattle.vr_keyed.specs.Next.{is_sought, first_sought, FoundIs, NthIs};
ghost use Rattle.vr_keyed.specs.Next.{IsStart, NextNth};

use crate::slot::Slot;
use crate::stretch::Stretch;
use vr_ci::{CiView, Form};
use vr_space::{Layout, Whence, entry_at, entry_count, entry_for};
use vr_types::{Blocks, DeviceFault, PlaceBuffer};

/// Whether the search may find a place.
fn is_allowed(from: Whence<'_>, place: &[u8]) -> bool
    ensures { result ≡ allows from.entry place.now }
{
    match from {
        Whence::Start => true,
        Whence::At(first) => first.as_slice().cmp(place).is_le(),
        Whence::After(last) => last.as_slice().cmp(place).is_lt(),
        Whence::Above(low) => low.cmp(place).is_lt(),
    }
}

/// Whether a record is one that is sought.
fn is_one(layout: &Layout, slot: &Slot, from: Whence<'_>, bytes: &[u8]) -> bool
    ensures { IsTrue result ↔ ((layout.now.offset + layout.now.key ≤ length bytes.now)
        × IsTrue (is_sought (met_in slot.now).range from.entry
        (key_of layout.now bytes.now))) }
{
    let stretch = Stretch {
        low: slot.low_place(),
        high: slot.high.as_slice(),
        most: true,
    };
    layout.has_key(bytes)
        && stretch.has(layout.key_of(bytes))
        && is_allowed(from, layout.key_of(bytes))
}

/// The first key of the records that are sought in an interval that was read.
fn first_key<'a>(
    layout: &Layout,
    view: &CiView<'a>,
    slot: &Slot,
    from: Whence<'_>,
) -> Option<&'a [u8]>
    ensures first { All (IsKept layout.now) view.now.items
        → option_map (λ (key : Bor (List ℕ)). key.now) result
        ≡ first_sought (met_in slot.now).range from.entry
        (map (λ (item : ci.Item). key_of layout.now item.bytes) view.now.items) }
    ensures length { IfSome result (λ key. length key.now ≡ layout.now.key) }
{
    let mut records = view.iter();
    for i in 0..view.count() {
        let (bytes, _) = records.next()?;
        if is_one(layout, slot, from, bytes) {
            return Some(layout.key_of(bytes));
        }
    }
    None
}

/// Gives the first key that is sought in an interval.
fn first_in(
    layout: &Layout,
    block: &[u8],
    slot: &Slot,
    from: Whence<'_>,
    into: &mut PlaceBuffer,
) -> bool
    requires { layout.now.key ≤ into.old.room }
    ensures first { HoldsRange layout.now (met_in slot.now).range block.now
        → FoundIs (first_sought (met_in slot.now).range from.entry
        (keys_of layout.now block.now)) result into.new.place }
    ensures room { into.new.room ≡ into.old.room }
{
    let Ok(view) = CiView::read(Form::Plain, block) else {
        return false;
    };
    let Some(key) = first_key(layout, &view, slot, from) else {
        return false;
    };
    into.set(key);
    true
}

/// Makes the range and the block of a slot those of the entry of a number. It answers false where
/// there is none.
fn find_nth<B: Blocks>(
    slot: &mut Slot,
    layout: &Layout,
    blocks: &mut B,
    number: usize,
) -> Result<bool, DeviceFault>
    requires on { IsAreaOn layout.now (B.seen blocks.old) }
    requires slot { IsSlotOf layout.now slot.old }
    requires head { IsTrue B.tells
        → IsHead layout.now (block_at (B.seen blocks.old).cur layout.now.head) }
    ensures slot { IsSlotOf layout.now slot.new }
    ensures inside { IfOk result (λ some. IsTrue some → InArea layout.now slot.new.number) }
    ensures nth { IsTrue B.tells → IfOk result (λ some.
        NthIs layout.now (block_at (B.seen blocks.old).cur layout.now.head) number some slot.new) }
    ensures keeps { Keeps B.tells (B.seen blocks.old) (B.seen blocks.new) }
    ensures cause { HasCause (B.faults blocks.old) (B.faults blocks.new) result }
{
    let top = blocks.get(layout.head)?;
    let Some(found) = entry_at(layout, top, number) else {
        return Ok(false);
    };
    slot.set_entry(layout, &found);
    Ok(true)
}

/// The number of the entry of a place, or 0 where there is none: those before hold no place from it
/// on.
fn start_at(layout: &Layout, top: &[u8], place: &[u8]) -> usize
    ensures { IsHead layout.now top.now → (other : List ℕ) (i : ℕ)
        → is_le (place_cmp place.now other) ≡ true
        → position (reaches other) (entries_of top.now) ≡ Some i → result ≤ i }
{
    let Some(found) = entry_for(layout, top, place) else {
        return 0;
    };
    found.number
}

/// The number of an entry below which none holds a place that the search may find.
fn start_in(layout: &Layout, top: &[u8], from: Whence<'_>) -> usize
    ensures { IsHead layout.now top.now → IsStart top.now from.entry result }
{
    match from {
        Whence::Start => 0,
        Whence::At(place) => start_at(layout, top, place.as_slice()),
        Whence::After(place) => start_at(layout, top, place.as_slice()),
        Whence::Above(place) => start_at(layout, top, place),
    }
}

/// Where the search begins among the entries, and how many there are.
fn find_start<B: Blocks>(
    layout: &Layout,
    blocks: &mut B,
    from: Whence<'_>,
) -> Result<(usize, usize), DeviceFault>
    requires on { IsAreaOn layout.now (B.seen blocks.old) }
    requires head { IsTrue B.tells
        → IsHead layout.now (block_at (B.seen blocks.old).cur layout.now.head) }
    ensures start { IsTrue B.tells → IfOk result (λ bounds.
        IsStart (block_at (B.seen blocks.old).cur layout.now.head) from.entry bounds.0) }
    ensures count { IsTrue B.tells → IfOk result (λ bounds.
        bounds.1 ≡ length (entries_of (block_at (B.seen blocks.old).cur layout.now.head))) }
    ensures keeps { Keeps B.tells (B.seen blocks.old) (B.seen blocks.new) }
    ensures cause { HasCause (B.faults blocks.old) (B.faults blocks.new) result }
{
    let top = blocks.get(layout.head)?;
    let count = entry_count(layout, top).unwrap_or(0);
    Ok((start_in(layout, top, from), count))
}

/// Gives the least place that is sought in the interval of the entry of a number.
fn next_nth<B: Blocks>(
    slot: &mut Slot,
    layout: &Layout,
    blocks: &mut B,
    number: usize,
    from: Whence<'_>,
    into: &mut PlaceBuffer,
) -> Result<bool, DeviceFault>
    requires on { IsAreaOn layout.now (B.seen blocks.old) }
    requires slot { IsSlotOf layout.now slot.old }
    requires room { layout.now.key ≤ into.old.room }
    requires stands { IsTrue B.tells → AreaStands layout.now (B.seen blocks.old).cur }
    ensures slot { IsSlotOf layout.now slot.new }
    ensures nth { IsTrue B.tells → IfOk result (λ found. NextNth layout.now
        (B.seen blocks.old).cur number from.entry found into.new.place) }
    ensures room { into.new.room ≡ into.old.room }
    ensures keeps { Keeps B.tells (B.seen blocks.old) (B.seen blocks.new) }
    ensures cause { HasCause (B.faults blocks.old) (B.faults blocks.new) result }
{
    if !find_nth(slot, layout, blocks, number)? {
        return Ok(false);
    }
    let block = blocks.get(slot.number)?;
    Ok(first_in(layout, block, slot, from, into))
}

/// Gives the least place with a record that `from` allows; false where there is none. It reads the
/// head, and then the head and one interval for each entry from the one of the place on.
pub(crate) fn next_in<B: Blocks>(
    slot: &mut Slot,
    layout: &Layout,
    blocks: &mut B,
    from: Whence<'_>,
    into: &mut PlaceBuffer,
) -> Result<bool, DeviceFault>
    requires on { IsAreaOn layout.now (B.seen blocks.old) }
    requires slot { IsSlotOf layout.now slot.old }
    requires room { layout.now.key ≤ into.old.room }
    requires stands { IsTrue B.tells → AreaStands layout.now (B.seen blocks.old).cur }
    ensures slot { IsSlotOf layout.now slot.new }
    ensures next { IsTrue B.tells → IfOk result (λ found.
        NextHere layout.now (B.seen blocks.old).cur from.entry found into.new.place) }
    ensures room { into.new.room ≡ into.old.room }
    ensures keeps { Keeps B.tells (B.seen blocks.old) (B.seen blocks.new) }
    ensures cause { HasCause (B.faults blocks.old) (B.faults blocks.new) result }
{
    let (first, count) = find_start(layout, blocks, from)?;
    for number in first..count {
        if next_nth(slot, layout, blocks, number, from, into)? {
            return Ok(true);
        }
    }
    Ok(false)
}
