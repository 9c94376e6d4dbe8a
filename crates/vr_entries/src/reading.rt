//! Reading the records of an interval.
ghost use Rattle.std.specs.Prelude.{◌≡◌, ◌≢◌, ◌≤◌, ◌<◌, ◌↔◌, ℕ, true, false, None, Some};
ghost use Rattle.std.specs.Prelude.{IfSome, IsTrue, MatchOption, length};
ghost use Rattle.std.specs.List.{AllByRecursion};
ghost use Rattle.vr_types.specs.Content.Item.{Standing};
ghost use Rattle.vr_ci.specs.Interval as ci;
ghost use Rattle.vr_ci.specs.Reading.{item_lent};
ghost use Rattle.vr_space.specs.Entries.{IsEntries, IsEntry, bytes_in, entry_item, entry_of};
ghost use Rattle.vr_space.specs.Keyed.{items_of};
ghost use Rattle.vr_space.specs.Numbered.{takes};
ghost use Rattle.vr_entries.specs.Entry.{IsFirstRecord, record_from};
ghost use Rattle.vr_entries.specs.Read.{IsOfEntries};

use vr_ci::{CiView, Form, Shape};
use vr_space::ChainLayout;

/// Whether no item of an interval is longer than the part's longest record.
fn are_entries(layout: &ChainLayout, view: &CiView<'_>) -> bool
    ensures { IsTrue result ↔ AllByRecursion (IsEntry layout.now) view.now.items }
{
    for (bytes, _) in view.iter() {
        if bytes.len() > layout.most as usize {
            return false;
        }
    }
    true
}

/// Whether an interval is one of records of the part, and isn't busy.
fn is_of_entries(layout: &ChainLayout, view: &CiView<'_>) -> bool
    ensures { IsTrue result ↔ IsOfEntries layout.now view.now }
{
    view.shape() == Shape::Records && !view.busy() && are_entries(layout, view)
}

/// The interval that a block is. None where it isn't one of records of the part.
pub fn entries_in<'a>(layout: &ChainLayout, block: &'a [u8]) -> Option<CiView<'a>>
    ensures items { IfSome result (λ view. view.items ≡ items_of block.now) }
    ensures some { IfSome result (λ view. IsEntries layout.now block.now) }
    ensures none { result ≡ None → IsEntries layout.now block.now → ⊥ }
{
    if block.len() != layout.geometry.size as usize {
        return None;
    }
    let Ok(view) = CiView::read(Form::Plain, block) else {
        return None;
    };
    if !is_of_entries(layout, &view) {
        return None;
    }
    Some(view)
}

/// The item that begins at a displacement, and whether it is live.
pub(crate) fn item_at<'a>(view: &CiView<'a>, at: u32) -> Option<(&'a [u8], bool)>
    ensures { MatchOption result (entry_item at view.now.items ≡ None)
        (λ found. entry_item at view.now.items ≡ Some (entry_of (item_lent found))) }
{
    let mut left = at as usize;
    for (item, live) in view.iter() {
        if left == 0 {
            return Some((item, live));
        }
        if left < item.len() {
            return None;
        }
        left -= item.len();
    }
    None
}

/// The record that begins at a displacement, lent from the block. None where none does, or it was
/// withdrawn.
pub fn record_at<'a>(layout: &ChainLayout, block: &'a [u8], at: u32) -> Option<&'a [u8]>
    ensures { IsEntries layout.now block.now → MatchOption result
        (record_from at block.now ≡ None)
        (λ found. entry_item at (items_of block.now) ≡ Some (Standing found.now)) }
{
    let Some(view) = entries_in(layout, block) else {
        return None;
    };
    match item_at(&view, at) {
        Some((bytes, live)) => { if live { Some(bytes) } else { None } }
        None => None,
    }
}

/// Whether a displacement is one from another on, and has a record.
fn is_found(at: u32, live: bool, from: u32) -> bool
    ensures { IsTrue result ↔ ((from ≤ at) × (live ≡ true)) }
{
    at >= from && live
}

/// The displacement of the first record from this one on.
pub fn next_record(layout: &ChainLayout, block: &[u8], from: u32) -> Option<u32>
    ensures some { IsEntries layout.now block.now → IfSome result
        (IsFirstRecord layout.now block.now from) }
    ensures below { IfSome result (λ at. at < layout.now.geometry.size) }
    ensures none { IsEntries layout.now block.now → result ≡ None → (other : ℕ) → from ≤ other
        → record_from other block.now ≡ None }
{
    let Some(view) = entries_in(layout, block) else {
        return None;
    };
    let mut at = 0;
    for (bytes, live) in view.iter() {
        if is_found(at, live, from) {
            return Some(at);
        }
        at += bytes.len() as u32;
    }
    None
}

/// Whether a record of this length may stand at a displacement: an item of this length begins there,
/// or none does and it is where the next one goes.
pub fn takes_record(layout: &ChainLayout, block: &[u8], at: u32, length: u32, next: bool) -> bool
    ensures { IsEntries layout.now block.now
        → result ≡ takes false (entry_item at (items_of block.now)) length next }
{
    let Some(view) = entries_in(layout, block) else {
        return false;
    };
    match item_at(&view, at) {
        Some((bytes, _)) => bytes.len() == length as usize,
        None => next,
    }
}

/// What the items of an interval take: how many they are, their bytes, and the room that they need.
#[derive(Clone, Copy)]
pub struct Taken {
    pub count: u32,
    pub bytes: u32,
    pub room: u32,
}

/// What the items of an interval take.
pub(crate) fn taken_by(view: &CiView<'_>) -> Taken
    requires { ci.room view.now.items < 65536 }
    ensures bytes { result.bytes ≡ bytes_in view.now.items }
    ensures room { result.room ≡ ci.room view.now.items }
    ensures count { result.count ≡ length view.now.items }
{
    let mut bytes = 0;
    for (item, _) in view.iter() {
        bytes += item.len() as u32;
    }
    let count = view.count() as u32;
    Taken {
        count,
        bytes,
        room: bytes + 3 * count,
    }
}

/// What the items of an interval take. None where the block isn't one of records of the part.
pub fn taken_in(layout: &ChainLayout, block: &[u8]) -> Option<Taken>
    ensures some { IsEntries layout.now block.now → result ≢ None }
    ensures bytes { IsEntries layout.now block.now
        → IfSome result (λ taken. taken.bytes ≡ bytes_in (items_of block.now)) }
    ensures room { IsEntries layout.now block.now
        → IfSome result (λ taken. taken.room ≡ ci.room (items_of block.now)) }
    ensures count { IsEntries layout.now block.now
        → IfSome result (λ taken. taken.count ≡ length (items_of block.now)) }
    ensures entries { IfSome result (λ taken. IsEntries layout.now block.now) }
    ensures small { IfSome result (λ taken. taken.room < 65536) }
{
    let Some(view) = entries_in(layout, block) else {
        return None;
    };
    Some(taken_by(&view))
}
