//! What is kept of the interval of a place.
ghost use Rattle.std.specs.Prelude.{◌≡◌, ◌<◌, ℕ, List, IfOk};
ghost use Rattle.std.specs.Borrow.{Bor};
ghost use Rattle.std.specs.Option.{option_map};
ghost use Rattle.vr_space.specs.Keyed.{InArea};
ghost use Rattle.vr_space.specs.Search.{HasPlaces, range_found};
ghost use Rattle.vr_space.specs.UnderWay.{interval_block};
ghost use Rattle.vr_keyed.specs.Slots.{IsSlotOf, low_kept, met_in};

use std::alloc::Global;
use vr_space::{FoundEntry, Layout};
use vr_types::{OutOfMemory, PlaceBuffer, empty_place};

/// The interval of a place, as it was met: the range of its entry, its block, and what that had.
#[derive(Drop)]
pub(crate) struct Slot {
    pub(crate) place: PlaceBuffer,
    /// Whether the range has no low place.
    pub(crate) from_start: bool,
    pub(crate) low: PlaceBuffer,
    pub(crate) high: PlaceBuffer,
    pub(crate) number: u32,
    pub(crate) bytes: Vec<u8>,
}

/// A slot with nothing in it.
pub(crate) fn empty_slot(alloc: Global, layout: &Layout) -> Result<Slot, OutOfMemory>
    ensures { IfOk result (IsSlotOf layout.now) }
{
    let room = u32::from(layout.key);
    Ok(Slot {
        place: empty_place(alloc, room)?,
        from_start: true,
        low: empty_place(alloc, room)?,
        high: empty_place(alloc, room)?,
        number: layout.head,
        bytes: vec![in alloc; 0; layout.size as usize]?,
    })
}

impl Slot {
    /// Where the range begins, if it has a low place.
    pub(crate) fn low_place(&self) -> Option<&[u8]>
        ensures { option_map (λ (low : Bor (List ℕ)). low.now) result
            ≡ low_kept self.now.from_start self.now.low.place }
    {
        if self.from_start {
            None
        } else {
            Some(self.low.as_slice())
        }
    }

    /// Makes the range and the block those of an entry.
    pub(crate) fn set_entry(&mut self, layout: &Layout, found: &FoundEntry<'_>)
        requires slot { IsSlotOf layout.now self.old }
        requires interval { found.now.interval < layout.now.area }
        requires places { HasPlaces layout.now.key found.now }
        ensures slot { IsSlotOf layout.now self.new }
        ensures range { (met_in self.new).range ≡ range_found found.now }
        ensures number { self.new.number ≡ interval_block layout.now found.now.interval }
        ensures inside { InArea layout.now self.new.number }
        ensures place { self.new.place ≡ self.old.place }
    {
        self.from_start = found.low.is_none();
        if let Some(low) = found.low {
            self.low.set(low);
        }
        self.high.set(found.high);
        self.number = layout.block_of(found.interval);
    }
}
