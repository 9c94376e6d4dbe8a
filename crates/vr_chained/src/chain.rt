//! The chain of a part's areas, in memory.
ghost use Rattle.std.specs.Prelude.{◌≡◌, ◌≤◌, ◌<◌, ◌+◌, ◌-◌, ◌*◌, ◌/◌, ◌%◌, ◌++◌, ◌∷◌, [], ℕ, List};
ghost use Rattle.std.specs.Prelude.{◌≢◌, All, Contains, IfOk, IfSome, IsTrue, None, false, length};
ghost use Rattle.std.specs.Prelude.{nat_lt};
ghost use Rattle.std.specs.Int.{div_ceil};
ghost use Rattle.vr_types.specs.Geometry.{area_count};
ghost use Rattle.vr_space.specs.Known.{Known};
ghost use Rattle.vr_space.specs.Part.{InHeld, NumberedShape, part_no};
ghost use Rattle.vr_space.specs.Rosters.{roster_block};
ghost use Rattle.vr_space.specs.Numbered.{IsNumberPlace, chain_block, chain_room_by, interval_of};
ghost use Rattle.vr_space.specs.Numbered.{span_of, start_of};

use crate::number::number_at;
use std::alloc::Global;
use std::marker::Model;
use vr_space::{ChainLayout, Room};
use vr_types::{OutOfMemory, PartNo, StageKind};

/// The areas of a part in the order of its chain, and how many of their intervals are used. There
/// is room for as many areas as the volume has.
#[derive(Drop)]
pub struct Chain {
    pub(crate) layout: ChainLayout,
    areas: Vec<u32>,
    used: u32,
}

impl Model for Chain {
    ghost use Rattle.std.specs.Prelude.{◌≤◌, vec_capacity};
    ghost use Rattle.vr_types.specs.Geometry.{area_count};
    ghost use Rattle.vr_chained.specs.Chain.{ChainNow, IsChainNow};

    ghost Value = { ChainNow };

    ghost view = { λ chain. record {
      part = chain.layout;
      areas = chain.areas.items;
      used = chain.used;
    } };

    ghost invariant = { λ chain. IsChainNow chain.layout chain.areas.items chain.used
        × (area_count chain.layout.geometry ≤ vec_capacity chain.areas) };
}

/// The chain of the first area alone, with no interval used. It fails only if memory runs out, and
/// takes what the chain of all areas needs.
pub fn first_chain(alloc: Global, layout: ChainLayout) -> Result<Chain, OutOfMemory>
    ensures { IfOk result (λ chain. chain ≡ record {
      part = layout;
      areas = layout.first ∷ [];
      used = 0;
    }) }
{
    let mut areas = Vec::with_capacity(alloc, layout.geometry.areas() as usize)?;
    let first = layout.first;
    if areas.push(first).is_err() {
        unreachable!("there is room")
    }
    Ok(Chain {
        layout,
        areas,
        used: 0,
    })
}

impl Chain {
    ghost use Rattle.vr_chained.specs.Chain.{ChainNow};

    /// Where the part is.
    pub(crate) fn layout(&self) -> &ChainLayout
        ensures { result.now ≡ self.now.part }
    {
        &self.layout
    }

    /// The number of the part.
    pub(crate) fn part(&self) -> PartNo
        ensures { result ≡ part_no (NumberedShape self.now.part) }
    {
        self.layout.part
    }

    /// How many intervals an area has.
    pub(crate) fn intervals(&self) -> u32
        ensures { result ≡ self.now.part.geometry.area }
    {
        self.layout.geometry.area
    }

    /// How many intervals are used.
    pub fn used(&self) -> u32
        ensures { result ≡ self.now.used }
    {
        self.used
    }

    /// The block of a used interval, by its number over the whole chain. None where that isn't
    /// used.
    pub fn block_of(&self, interval: u32) -> Option<u32>
        ensures used { IfSome result (λ n. interval < self.now.used) }
        ensures block { IfSome result
            (λ n. n ≡ chain_block self.now.part self.now.areas interval) }
        ensures held { IfSome result (λ n. (known : Known) → known.areas ≡ self.now.areas
            → InHeld (NumberedShape self.now.part) known n) }
        ensures below { IfSome result (λ n. n < self.now.part.geometry.blocks) }
        ensures none { result ≡ None → self.now.used ≤ interval }
    {
        if interval >= self.used {
            return None;
        }
        Some(self.block_in(interval))
    }

    /// The same of an interval that is used. Its area is one of the chain, and has it.
    fn block_in(&self, interval: u32) -> u32
        requires { interval < self.now.used }
        ensures block { result ≡ chain_block self.now.part self.now.areas interval }
        ensures area { interval / self.now.part.geometry.area < length self.now.areas }
        ensures inside { interval % self.now.part.geometry.area < self.now.part.geometry.area }
        ensures below { result < self.now.part.geometry.blocks }
    {
        let whole = self.layout.geometry.area;
        let area = self.areas[(interval / whole) as usize];
        self.layout.interval_in(area, interval % whole)
    }

    /// The interval of a place, by its number.
    pub(crate) fn interval_of(&self, number: u32) -> u32
        ensures { result ≡ (number - start_of self.now.part) / span_of self.now.part }
    {
        number.saturating_sub(self.layout.start()) / self.layout.span()
    }

    /// Where in its interval it is: which of its slots, or which of its bytes.
    pub(crate) fn at_in(&self, number: u32) -> u32
        ensures place { result ≡ (number - start_of self.now.part) % span_of self.now.part }
        ensures below { result < span_of self.now.part }
    {
        number.saturating_sub(self.layout.start()) % self.layout.span()
    }

    /// The number past that of the last place of its intervals.
    pub(crate) fn end_number(&self) -> u32
        ensures { result ≡ start_of self.now.part + self.now.used * span_of self.now.part }
    {
        self.layout.start() + self.used * self.layout.span()
    }

    /// The number of a place of a used interval.
    pub(crate) fn number_of(&self, interval: u32, at: u32) -> u32
        requires used { interval < self.now.used }
        requires there { at < span_of self.now.part }
        ensures { result ≡ start_of self.now.part + interval * span_of self.now.part + at }
    {
        self.layout.start() + interval * self.layout.span() + at
    }

    /// The block of a place's interval. None where the place has no number, or its interval isn't
    /// used.
    pub(crate) fn block_at(&self, place: &[u8]) -> Option<u32>
        ensures used { IfSome result (λ n. IsNumberPlace self.now.part place.now
            × (interval_of self.now.part place.now < self.now.used)) }
        ensures block { IfSome result (λ n. n ≡ chain_block self.now.part self.now.areas
            (interval_of self.now.part place.now)) }
        ensures held { IfSome result (λ n. (known : Known) → known.areas ≡ self.now.areas
            → InHeld (NumberedShape self.now.part) known n) }
        ensures below { IfSome result (λ n. n < self.now.part.geometry.blocks) }
        ensures none { result ≡ None → IsNumberPlace self.now.part place.now
            → self.now.used ≤ interval_of self.now.part place.now }
    {
        let number = number_at(&self.layout, place)?;
        self.block_of(self.interval_of(number))
    }

    /// What stands in the way of a record of that interval, which fits there or doesn't, where so
    /// many areas are free.
    pub(crate) fn room(&self, fits: bool, interval: u32, free: u32) -> Room
        ensures { result ≡ chain_room_by fits (nat_lt interval self.now.used)
            (div_ceil (interval + 1) self.now.part.geometry.area - length self.now.areas) free }
    {
        if fits {
            return Room::Ready;
        }
        let whole = u64::from(self.layout.geometry.area);
        let wanted = (u64::from(interval) + 1).div_ceil(whole);
        let need = wanted.saturating_sub(self.areas.len() as u64);
        if interval >= self.used && need <= u64::from(free) {
            Room::Stage(StageKind::Extend)
        } else {
            Room::NoSpace { need, free }
        }
    }

    /// How many areas it has.
    pub(crate) fn count(&self) -> u32
        ensures { result ≡ length self.now.areas }
    {
        self.areas.len() as u32
    }

    /// Whether every interval of its areas is used.
    pub(crate) fn is_whole(&self) -> bool
        ensures whole { IsTrue result
            → self.now.used ≡ length self.now.areas * self.now.part.geometry.area }
        ensures unused { result ≡ false
            → self.now.used < length self.now.areas * self.now.part.geometry.area }
    {
        self.used == self.areas.len() as u32 * self.layout.geometry.area
    }

    /// The last area.
    pub(crate) fn last(&self) -> u32
        ensures last { (before : List ℕ) (area : ℕ) → self.now.areas ≡ before ++ area ∷ []
            → result ≡ area }
        ensures there { result < area_count self.now.part.geometry }
    {
        self.areas[self.areas.len() - 1]
    }

    /// How many intervals of the last area are used.
    pub(crate) fn used_of_last(&self) -> u32
        ensures { result ≡ self.now.used
            - (length self.now.areas - 1) * self.now.part.geometry.area }
    {
        let before = (self.areas.len() - 1) as u32 * self.layout.geometry.area;
        self.used.saturating_sub(before)
    }

    /// One interval more of the last area is used.
    pub(crate) fn use_next(&mut self)
        requires { self.old.used < length self.old.areas * self.old.part.geometry.area }
        ensures { self.new ≡ record {
          part = self.old.part;
          areas = self.old.areas;
          used = self.old.used + 1;
        } }
    {
        self.used += 1;
    }

    /// So many intervals more are used.
    pub(crate) fn use_more(&mut self, more: u32)
        requires { self.old.used + more
            ≤ length self.old.areas * self.old.part.geometry.area }
        ensures { self.new ≡ record {
          part = self.old.part;
          areas = self.old.areas;
          used = self.old.used + more;
        } }
    {
        self.used += more;
    }

    /// An area more is the last one.
    pub(crate) fn add_area(&mut self, area: u32)
        requires there { area < area_count self.old.part.geometry }
        requires room { length self.old.areas < area_count self.old.part.geometry }
        ensures { self.new ≡ record {
          part = self.old.part;
          areas = self.old.areas ++ area ∷ [];
          used = self.old.used;
        } }
    {
        if self.areas.push(area).is_err() {
            unreachable!("there is room")
        }
    }

    /// Whether an area may be added: it is one of the volume, the chain doesn't have it yet, and
    /// there is room for it.
    pub(crate) fn takes(&self, area: u32) -> bool
        ensures there { IsTrue result → area < area_count self.now.part.geometry }
        ensures room { IsTrue result
            → length self.now.areas < area_count self.now.part.geometry }
        ensures apart { IsTrue result → All (λ other. other ≢ area) self.now.areas }
        ensures has { result ≡ false → area < area_count self.now.part.geometry
            → length self.now.areas < area_count self.now.part.geometry
            → Contains self.now.areas area }
    {
        let count = self.layout.geometry.areas();
        area < count && (self.areas.len() as u32) < count && !self.areas.contains(&area)
    }
}
