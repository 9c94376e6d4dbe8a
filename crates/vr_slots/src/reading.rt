//! Reading the slots of an interval.
ghost use Rattle.std.specs.Prelude.{◌≡◌, ◌≤◌, ◌<◌, ◌↔◌, ℕ, true, false, Some, None, IfSome, IsTrue};
ghost use Rattle.std.specs.Prelude.{MatchOption};
ghost use Rattle.vr_types.specs.Content.Item.{Standing};
ghost use Rattle.vr_space.specs.Keyed.{items_of};
ghost use Rattle.vr_space.specs.Slots.{IsSlots, slot_item, slots_of};
ghost use Rattle.vr_slots.specs.Slot.{IsFirstLive, IsOfRecords};

use vr_ci::{CiView, Form, Shape};
use vr_space::ChainLayout;

/// Whether an interval is one of records or slots, and isn't busy.
fn is_of_records(view: &CiView<'_>) -> bool
    ensures some { IsTrue result → IsOfRecords view.now }
    ensures none { result ≡ false → IsOfRecords view.now → ⊥ }
{
    view.shape() == Shape::Records && !view.busy()
}

/// The interval that a block is. None where it isn't one of slots of the part's length.
pub fn interval_of<'a>(layout: &ChainLayout, block: &'a [u8]) -> Option<CiView<'a>>
    ensures items { IfSome result (λ view. view.items ≡ items_of block.now) }
    ensures some { IfSome result (λ view. IsSlots layout.now block.now) }
    ensures none { result ≡ None → IsSlots layout.now block.now → ⊥ }
{
    if block.len() != layout.geometry.size as usize {
        return None;
    }
    let form = Form::Slots {
        length: layout.most,
    };
    let Ok(view) = CiView::read(form, block) else {
        return None;
    };
    if !is_of_records(&view) {
        return None;
    }
    Some(view)
}

/// The record in a slot, lent from the block. None where the slot is empty.
pub fn slot_at<'a>(layout: &ChainLayout, block: &'a [u8], slot: u32) -> Option<&'a [u8]>
    ensures { IsSlots layout.now block.now → MatchOption result
        (slot_item slot (items_of block.now) ≡ None)
        (λ found. slot_item slot (items_of block.now) ≡ Some (Standing found.now)) }
{
    let Some(view) = interval_of(layout, block) else {
        return None;
    };
    match view.iter().nth(slot as usize) {
        Some((bytes, live)) => { if live { Some(bytes) } else { None } }
        None => None,
    }
}

/// Whether a slot is one from another on, and has a record.
fn is_found(slot: u32, live: bool, from: u32) -> bool
    ensures { IsTrue result ↔ ((from ≤ slot) × (live ≡ true)) }
{
    slot >= from && live
}

/// The first slot with a record, from this one on.
pub fn first_live(layout: &ChainLayout, block: &[u8], from: u32) -> Option<u32>
    ensures some { IsSlots layout.now block.now → IfSome result
        (IsFirstLive layout.now block.now from) }
    ensures below { IfSome result (λ slot. slot < slots_of layout.now) }
    ensures none { IsSlots layout.now block.now → result ≡ None → (other : ℕ) → from ≤ other
        → slot_item other (items_of block.now) ≡ None }
{
    let Some(view) = interval_of(layout, block) else {
        return None;
    };
    let mut slots = view.iter();
    for slot in 0..layout.slots() {
        let Some((_, live)) = slots.next() else {
            return None;
        };
        if is_found(slot, live, from) {
            return Some(slot);
        }
    }
    None
}
