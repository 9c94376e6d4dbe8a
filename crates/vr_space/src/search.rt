//! Where a place is found in a head or among the records of an interval.
ghost use Rattle.std.specs.Prelude.{◌≡◌, ◌<◌, ◌≤◌, ℕ, List, Some, None, MatchOption, IfSome, All};
ghost use Rattle.std.specs.Prelude.{IfNone, length, map, position, slice_get};
ghost use Rattle.std.specs.Borrow.{Bor};
ghost use Rattle.std.specs.Option.{option_map};
ghost use Rattle.std.specs.List.Sorted.{IsStrictlySortedBy};
ghost use Rattle.vr_types.specs.Content.{place_cmp, item_at, Standing};
ghost use Rattle.vr_types.specs.Image.{Block};
ghost use Rattle.vr_ci.specs.Interval as ci;
ghost use Rattle.vr_seqset.specs.Entry.{IsWhole};
ghost use Rattle.vr_seqset.specs.Reading.{record_in};
ghost use Rattle.vr_seqset.specs.Search.{reaches};
ghost use Rattle.vr_seqset.specs.SequenceSet.{KeepsRules};
ghost use Rattle.vr_space.specs.Room.{Range};
ghost use Rattle.vr_space.specs.Keyed.{IsHead, HoldsRange, IsKept, entries_of, entry_above};
ghost use Rattle.vr_space.specs.Keyed.{entry_in, key_of, low_in, placed, range_of, records_of};
ghost use Rattle.vr_space.specs.Search.{IsEntryFor, IsEntryAt, HasPlaces, AreUpTo, keys_of};
ghost use Rattle.vr_space.specs.Search.{low_before};

use crate::layout::Layout;
use crate::range::is_above;
use vr_ci::{CiView, Form};
use vr_seqset::{SeqEntry, SeqView};

/// The entry of a head whose range holds a place: its number, its interval, its range, and whether
/// it is the last.
#[derive(Clone, Copy)]
pub struct FoundEntry<'a> {
    pub number: usize,
    pub interval: u16,
    pub low: Option<&'a [u8]>,
    pub high: &'a [u8],
    pub last: bool,
}

/// Where the first range of a head begins: nowhere in the first of a chain, else at its low place.
fn first_low<'a>(view: &SeqView<'a>) -> Option<&'a [u8]>
    ensures low { option_map (λ (low : Bor (List ℕ)). low.now) result ≡ low_in view.now }
    ensures length { IfSome result (λ low. length low.now ≡ length view.now.low) }
{
    if view.first() {
        return None;
    }
    Some(view.low())
}

/// Where the range of an entry begins: at the end of the one before.
fn low_at<'a>(view: &SeqView<'a>, number: usize) -> Option<&'a [u8]>
    requires number { number < length view.now.entries }
    requires whole { All (IsWhole (length view.now.low)) view.now.entries }
    ensures low { option_map (λ (low : Bor (List ℕ)). low.now) result
        ≡ low_before (low_in view.now) view.now.entries number }
    ensures length { IfSome result (λ low. length low.now ≡ length view.now.low) }
{
    if number == 0 {
        return first_low(view);
    }
    Some(view.high(number - 1))
}

/// The entry of a head that was read whose range holds the place, with its number. None where no
/// entry's does, as where the place is one of the areas before.
pub fn find_entry<'a>(view: &SeqView<'a>, place: &[u8]) -> Option<(usize, SeqEntry<'a>)>
    ensures found { IfSome result
        (λ found. entry_above (low_in view.now) view.now.entries place.now ≡ Some
        (range_of (low_before (low_in view.now) view.now.entries found.0) found.1, found.1)) }
    ensures first { IfSome result
        (λ found. position (reaches place.now) view.now.entries ≡ Some found.0) }
    ensures entry { IfSome result (λ found. slice_get view.now.entries found.0 ≡ Some found.1) }
    ensures none { IfNone result
        (entry_above (low_in view.now) view.now.entries place.now ≡ None) }
{
    if !is_above(first_low(view), place) {
        return None;
    }
    view.find(place)
}

/// The same as `entry_for`, of a head that was read.
fn found_in<'a>(area: u16, view: &SeqView<'a>, place: &[u8]) -> Option<FoundEntry<'a>>
    requires whole { All (IsWhole (length view.now.low)) view.now.entries }
    ensures found { (top : Block) (size : ℕ) → record_in top ≡ view.now
        → KeepsRules area size view.now → MatchOption result
        (entry_in top place.now ≡ None)
        (IsEntryFor top place.now) }
    ensures interval { IfSome result (λ found. found.interval < area) }
    ensures places { IfSome result (HasPlaces (length view.now.low)) }
{
    let count = view.count();
    let (number, entry) = find_entry(view, place)?;
    let interval = entry.interval(0);
    if interval >= area {
        return None;
    }
    Some(FoundEntry {
        number,
        interval,
        low: low_at(view, number),
        high: entry.high(),
        last: number + 1 == count,
    })
}

/// The entry of a head whose range holds the place: the first that reaches it, where the place is
/// above the low one of the head. None where no entry does. Of a block that is no head it may answer
/// either: the rules of a head are not tested at each search, but where it is attached or written.
pub fn entry_for<'a>(layout: &Layout, top: &'a [u8], place: &[u8]) -> Option<FoundEntry<'a>>
    ensures found { IsHead layout.now top.now → MatchOption result
        (entry_in top.now place.now ≡ None)
        (IsEntryFor top.now place.now) }
    // Whatever the block has.
    ensures interval { IfSome result (λ found. found.interval < layout.now.area) }
    ensures places { IfSome result (HasPlaces layout.now.key) }
{
    let view = SeqView::cut(top)?;
    if view.low().len() != usize::from(layout.key) {
        return None;
    }
    found_in(layout.area, &view, place)
}

/// The same as `entry_at`, of a head that was read.
fn found_at<'a>(area: u16, view: &SeqView<'a>, number: usize) -> Option<FoundEntry<'a>>
    requires whole { All (IsWhole (length view.now.low)) view.now.entries }
    ensures found { (top : Block) (size : ℕ) → record_in top ≡ view.now
        → KeepsRules area size view.now → MatchOption result
        (length (entries_of top) ≤ number) (IsEntryAt top number) }
    ensures interval { IfSome result (λ found. found.interval < area) }
    ensures places { IfSome result (HasPlaces (length view.now.low)) }
{
    if number >= view.count() {
        return None;
    }
    let entry = view.entry(number);
    let interval = entry.interval(0);
    if interval >= area {
        return None;
    }
    Some(FoundEntry {
        number,
        interval,
        low: low_at(view, number),
        high: entry.high(),
        last: number + 1 == view.count(),
    })
}

/// The entry of a number, from 0 on. None where there is none. Of a block that is no head it may
/// answer either, as `entry_for`.
pub fn entry_at<'a>(layout: &Layout, top: &'a [u8], number: usize) -> Option<FoundEntry<'a>>
    ensures found { IsHead layout.now top.now → MatchOption result
        (length (entries_of top.now) ≤ number) (IsEntryAt top.now number) }
    // Whatever the block has.
    ensures interval { IfSome result (λ found. found.interval < layout.now.area) }
    ensures places { IfSome result (HasPlaces layout.now.key) }
{
    let view = SeqView::cut(top)?;
    if view.low().len() != usize::from(layout.key) {
        return None;
    }
    found_at(layout.area, &view, number)
}

/// How many entries a head has. None where the lengths or counts of the block are no head's.
pub fn entry_count(layout: &Layout, top: &[u8]) -> Option<usize>
    ensures { IsHead layout.now top.now → result ≡ Some (length (entries_of top.now)) }
{
    let view = SeqView::cut(top)?;
    Some(view.count())
}

/// The same as `record_at`, of an interval that was read.
fn record_among<'a>(layout: &Layout, view: &CiView<'a>, place: &[u8]) -> Option<&'a [u8]>
    ensures { All (IsKept layout.now) view.now.items → MatchOption result
        (item_at (map (placed layout.now) view.now.items) place.now ≡ None)
        (λ found. item_at (map (placed layout.now) view.now.items) place.now
        ≡ Some (Standing found.now)) }
{
    let mut records = view.iter();
    for i in 0..view.count() {
        let (record, _) = records.next()?;
        if layout.is_at(record, place) {
            return Some(record);
        }
    }
    None
}

/// The record of an interval at a place, lent from the block. None where there is none, or the
/// block is no interval of records.
pub fn record_at<'a>(layout: &Layout, block: &'a [u8], place: &[u8]) -> Option<&'a [u8]>
    ensures { (range : Range) → HoldsRange layout.now range block.now → MatchOption result
        (item_at (records_of layout.now block.now) place.now ≡ None)
        (λ found. item_at (records_of layout.now block.now) place.now
        ≡ Some (Standing found.now)) }
{
    let Ok(view) = CiView::read(Form::Plain, block) else {
        return None;
    };
    record_among(layout, &view, place)
}

/// The same as `count_up_to`, of an interval that was read.
fn count_among(layout: &Layout, view: &CiView<'_>, place: &[u8]) -> usize
    ensures { All (IsKept layout.now) view.now.items
        → IsStrictlySortedBy place_cmp
        (map (λ (item : ci.Item). key_of layout.now item.bytes) view.now.items)
        → AreUpTo (map (λ (item : ci.Item). key_of layout.now item.bytes) view.now.items)
        place.now result }
{
    let mut records = view.iter();
    for i in 0..view.count() {
        let Some((record, _)) = records.next() else {
            return i;
        };
        if !layout.is_up_to(record, place) {
            return i;
        }
    }
    view.count()
}

/// How many records of an interval are at the place or before it.
pub fn count_up_to(layout: &Layout, block: &[u8], place: &[u8]) -> usize
    ensures { (range : Range) → HoldsRange layout.now range block.now
        → AreUpTo (keys_of layout.now block.now) place.now result }
{
    let Ok(view) = CiView::read(Form::Plain, block) else {
        return 0;
    };
    count_among(layout, &view, place)
}
