//! Room for what is kept of the intervals that were met last.
ghost use Rattle.std.specs.Prelude.{◌≡◌, ◌+◌, ◌<◌, ◌≤◌, ℕ, IsTrue, false, [], IfOk, OnOk, length};
ghost use Rattle.std.specs.Prelude.{None, IfSome, slice_index_or, slice_set};

use crate::slot::{Slot, empty_slot};
use std::alloc::Global;
use std::mem::swap;
use vr_space::Layout;
use vr_types::OutOfMemory;

/// The intervals of the places that were met last, the last one first: so many of the slots are
/// filled. There are two at least.
#[derive(Drop)]
pub(crate) struct Slots {
    pub(crate) first: Slot,
    pub(crate) more: Vec<Slot>,
    pub(crate) filled: usize,
    ghost few: { filled ≤ length more.items + 1 },
    ghost some: { 0 < length more.items },
}

/// Exchanges a slot with one of others.
fn exchange(one: &mut Slot, others: &mut [Slot], i: usize)
    requires { i < length others.old }
    ensures one { one.new ≡ slice_index_or others.old i one.old }
    ensures others { others.new ≡ slice_set others.old i one.old }
{
    swap(one, &mut others[i]);
}

impl Slots {
    ghost use Rattle.vr_keyed.specs.Slots.{AreSlotsOf, IsFirst, mets, most_kept};

    /// Room for two intervals, none met.
    pub(crate) fn empty(alloc: Global, layout: &Layout) -> Result<Slots, OutOfMemory>
        ensures room { IfOk result (AreSlotsOf layout.now) }
        ensures none { IfOk result (λ slots. mets slots ≡ []) }
        ensures most { IfOk result (λ slots. most_kept slots ≡ 2) }
    {
        let first = empty_slot(alloc, layout)?;
        let mut more = Vec::new(alloc);
        more.push(empty_slot(alloc, layout)?)?;
        Ok(Slots {
            first,
            more,
            filled: 0,
        })
    }

    /// Forgets what was met, and makes room for this many intervals. Where memory runs out, it has
    /// as much room as was made.
    pub(crate) fn make_room(
        &mut self,
        alloc: Global,
        layout: &Layout,
        count: usize,
    ) -> Result<(), OutOfMemory>
        requires room { AreSlotsOf layout.now self.old }
        ensures room { AreSlotsOf layout.now self.new }
        ensures none { mets self.new ≡ [] }
        ensures most { OnOk result (count ≤ most_kept self.new) }
    {
        self.filled = 0;
        for _ in self.more.len()..count.saturating_sub(1) {
            self.more.push(empty_slot(alloc, layout)?)?;
        }
        Ok(())
    }

    /// Whether the place was met last.
    pub(crate) fn is_first(&self, place: &[u8]) -> bool
        ensures some { IsTrue result → IsFirst place.now self.now }
        ensures none { result ≡ false → IsFirst place.now self.now → ⊥ }
    {
        self.filled > 0 && self.first.place.as_slice() == place
    }

    /// Which of the other slots has the place, if it was met before the last.
    pub(crate) fn find(&self, place: &[u8]) -> Option<usize>
        ensures some { IfSome result (λ i. (i < length self.now.more.items)
            × (i + 1 < self.now.filled)
            × ((slice_index_or self.now.more.items i self.now.first).place.place ≡ place.now)) }
        ensures none { result ≡ None → (i : ℕ) → i < length self.now.more.items
            → i + 1 < self.now.filled
            → (slice_index_or self.now.more.items i self.now.first).place.place ≡ place.now → ⊥ }
    {
        for (i, slot) in self.more.iter().enumerate() {
            if i + 1 < self.filled && slot.place.as_slice() == place {
                return Some(i);
            }
        }
        None
    }

    /// Makes another slot the first, and the first that one.
    pub(crate) fn bring(&mut self, i: usize)
        requires { i < length self.old.more.items }
        ensures first { self.new.first ≡ slice_index_or self.old.more.items i self.old.first }
        ensures more { self.new.more.items ≡ slice_set self.old.more.items i self.old.first }
        ensures filled { self.new.filled ≡ self.old.filled }
    {
        exchange(&mut self.first, self.more.as_mut_slice(), i);
    }
}
