//! The areas of a part in memory, in room that was taken once.
ghost use Rattle.std.specs.Prelude.{◌≡◌, ◌<◌, ◌^◌, ◌++◌, ◌∷◌, [], ℕ, List, Some, IfOk, All, length};
ghost use Rattle.std.specs.Prelude.{◌↔◌, ◌≤◌, ◌+◌, ◌-◌, Contains, IfSome, IsTrue, MatchOption};
ghost use Rattle.std.specs.Prelude.{false, min, nat_eq};
ghost use Rattle.std.specs.List.{list_any, slice_get};
ghost use Rattle.std.specs.Ordering.{is_lt};
ghost use Rattle.std.specs.declared.cmp.Ordering.TheVariants.{Less};
ghost use Rattle.vr_types.specs.Content.{place_cmp};
ghost use Rattle.vr_types.specs.Geometry.{area_count};
ghost use Rattle.vr_space.specs.Areas.{area_by};
ghost use Rattle.vr_space.specs.Part.{HoldsSame};
ghost use Rattle.vr_attach.specs.Areas.{AreWhole, IsAreaPosition, IsCut, with_cut};
ghost use Rattle.vr_attach.specs.declared.areas.AreaEnd.{AreaEnd};

use std::alloc::Global;
use std::marker::Model;
use vr_space::KeyedLayout;
use vr_types::{OutOfMemory, PlaceBuffer, empty_place};

/// An area, and where its ranges end; or room for one.
#[derive(Drop)]
pub(crate) struct AreaEnd {
    area: u32,
    end: PlaceBuffer,
}

impl AreaEnd {
    /// Whether it ends before a place.
    fn is_before(&self, place: &[u8]) -> bool
        ensures { result ≡ is_lt (place_cmp self.now.end.place place.now) }
    {
        self.end.as_slice().cmp(place).is_lt()
    }
}

/// Cuts the area of the first entry in two: `area` ends at the cut, and `into` where it ended. The
/// last entry is spare, and its room takes the cut. The entries between them stay in their order.
fn cut_first(entries: &mut [AreaEnd], area: u32, into: u32, cut: &[u8])
    requires some { 2 ≤ length entries.old }
    requires room { All (λ (entry : AreaEnd). length cut.now ≤ entry.end.room) entries.old }
    ensures { (first spare : AreaEnd) (between : List AreaEnd)
        → entries.old ≡ first ∷ between ++ spare ∷ []
        → entries.new ≡ record { area = area; end = record spare.end { place = cut.now } }
        ∷ record { area = into; end = first.end } ∷ between }
{
    entries.rotate_right(1);
    entries[0].area = area;
    entries[0].end.set(cut);
    entries[1].area = into;
}

/// Whether an area is one of these.
fn is_among(entries: &[AreaEnd], area: u32) -> bool
    ensures { result ≡ list_any (λ (entry : AreaEnd). nat_eq area entry.area) entries.now }
{
    entries.iter().any(|entry| area == entry.area)
}

/// The areas of a part in the order of their chain, with where the ranges of each end, and how many
/// intervals their heads lead to. There is room for as many as the volume has.
#[derive(Drop)]
pub struct Areas {
    layout: KeyedLayout,
    entries: Vec<AreaEnd>,
    used: usize,
    intervals: u64,
}

impl Model for Areas {
    ghost use Rattle.std.specs.Prelude.{take};
    ghost use Rattle.vr_attach.specs.Areas.{AreEnds, AreasNow, areas_seen, ends_seen};

    ghost Value = { AreasNow };

    ghost view = { λ areas. record {
      part = areas.layout;
      areas = areas_seen (take areas.used areas.entries.items);
      ends = ends_seen (take areas.used areas.entries.items);
      intervals = areas.intervals;
    } };

    ghost invariant = { λ areas. AreEnds areas.layout areas.entries.items areas.used };
}

/// No areas yet, with room for each of the volume. It fails only if memory runs out.
pub fn no_areas(alloc: Global, layout: KeyedLayout) -> Result<Areas, OutOfMemory>
    ensures { IfOk result (λ areas. areas ≡ record {
      part = layout;
      areas = [];
      ends = [];
      intervals = 0;
    }) }
{
    let count = layout.geometry.areas();
    let mut entries = Vec::with_capacity(alloc, count as usize)?;
    for _ in 0..count {
        let end = empty_place(alloc, u32::from(layout.key))?;
        entries.push(AreaEnd { area: 0, end })?;
    }
    Ok(Areas {
        layout,
        entries,
        used: 0,
        intervals: 0,
    })
}

impl Areas {
    /// Where the part is.
    pub fn layout(&self) -> &KeyedLayout
        ensures { result.now ≡ self.now.part }
    {
        &self.layout
    }

    /// How many areas there are.
    pub fn count(&self) -> usize
        ensures count { result ≡ length self.now.areas }
        ensures few { result < 2 ^ 32 }
    {
        self.used
    }

    /// Adds an area after the last, whose ranges end here, and whose head leads to this many
    /// intervals. It takes no memory.
    pub fn add(&mut self, area: u32, end: &[u8], intervals: u64)
        requires there { area < area_count self.old.part.geometry }
        requires end { length end.now ≡ self.old.part.key }
        requires room { length self.old.areas < area_count self.old.part.geometry }
        requires later { All (λ (before : List ℕ). place_cmp before end.now ≡ Less) self.old.ends }
        requires few { self.old.intervals + intervals < 2 ^ 64 }
        ensures { self.new ≡ record {
          part = self.old.part;
          areas = self.old.areas ++ area ∷ [];
          ends = self.old.ends ++ end.now ∷ [];
          intervals = self.old.intervals + intervals;
        } }
    {
        let entry = &mut self.entries[self.used];
        entry.area = area;
        entry.end.set(end);
        self.used += 1;
        self.intervals += intervals;
    }

    /// Counts one interval more, to which a head leads since it has an entry more. The count stands
    /// still at its type's end, which no volume has so many blocks as to reach.
    pub fn add_interval(&mut self)
        ensures { self.new
            ≡ record self.old { intervals = min (self.old.intervals + 1) (2 ^ 64 - 1) } }
    {
        self.intervals = self.intervals.saturating_add(1);
    }

    /// Whether an area may be added: it is one of the volume, the chain doesn't have it yet, and
    /// there is room for it.
    pub fn takes(&self, area: u32) -> bool
        ensures there { IsTrue result → area < area_count self.now.part.geometry }
        ensures room { IsTrue result
            → length self.now.areas < area_count self.now.part.geometry }
        ensures apart { IsTrue result → Contains self.now.areas area → ⊥ }
        ensures has { result ≡ false → area < area_count self.now.part.geometry
            → length self.now.areas < area_count self.now.part.geometry
            → Contains self.now.areas area }
    {
        area < self.layout.geometry.areas() && self.used < self.entries.len() && !self.has(area)
    }

    /// Whether an area is one of the chain.
    fn has(&self, area: u32) -> bool
        ensures { IsTrue result ↔ Contains self.now.areas area }
    {
        is_among(&self.entries[..self.used], area)
    }

    /// Adds an area after this one, which ends at `cut` from then on; the other ends where this one
    /// ended. The intervals that one of them had are those of both. False, and nothing is added,
    /// where this isn't the area of the chain that has the place, or ends at it, or there is no
    /// room. It takes no memory.
    pub fn insert(&mut self, area: u32, into: u32, cut: &[u8]) -> bool
        requires there { into < area_count self.old.part.geometry }
        ensures is { IsCut self.old area cut.now → IsTrue result }
        ensures inserted { IsCut self.old area cut.now
            → self.new ≡ with_cut self.old area into cut.now }
        // Whether it is a cut of them or not.
        ensures part { self.new.part ≡ self.old.part }
        ensures intervals { self.new.intervals ≡ self.old.intervals }
        ensures more { IsTrue result → HoldsSame (self.old.areas ++ into ∷ []) self.new.areas }
        ensures none { result ≡ false → self.new ≡ self.old }
        ensures whole { AreWhole self.old → AreWhole self.new }
    {
        let i = self.position(cut);
        if !self.has_room(cut) || !self.is_cut(i, area, cut) {
            return false;
        }
        cut_first(&mut self.entries[i..=self.used], area, into, cut);
        self.used += 1;
        true
    }

    /// Whether there is room for one area more, which ends at a place as long as this one.
    fn has_room(&self, place: &[u8]) -> bool
        ensures { IsTrue result ↔ ((length self.now.areas < area_count self.now.part.geometry)
            × (length place.now ≡ self.now.part.key)) }
    {
        self.used < self.entries.len() && place.len() == usize::from(self.layout.key)
    }

    /// Whether the area of a number is this one, and ends past a place.
    fn is_cut(&self, i: usize, area: u32, place: &[u8]) -> bool
        ensures { IsTrue result ↔ ((slice_get self.now.areas i ≡ Some area)
            × IfSome (slice_get self.now.ends i) (λ end. place_cmp place.now end ≡ Less)) }
    {
        if i >= self.used {
            return false;
        }
        let entry = &self.entries[i];
        entry.area == area && place.cmp(entry.end.as_slice()).is_lt()
    }

    /// Where the last area ends, if there is one.
    pub(crate) fn last_end(&self) -> Option<&[u8]>
        ensures { MatchOption result (self.now.ends ≡ [])
            (λ end. (before : List (List ℕ)) × (self.now.ends ≡ before ++ end.now ∷ [])) }
    {
        if self.used == 0 {
            return None;
        }
        Some(self.entries[self.used - 1].end.as_slice())
    }

    /// The area of a number.
    pub fn area_at(&self, i: usize) -> u32
        requires { i < length self.now.areas }
        ensures area { slice_get self.now.areas i ≡ Some result }
        ensures there { result < area_count self.now.part.geometry }
    {
        self.entries[i].area
    }

    /// How many of the areas end before a place.
    pub fn position(&self, place: &[u8]) -> usize
        ensures { IsAreaPosition self.now.ends place.now result }
    {
        self.entries[..self.used].partition_point(|entry| entry.is_before(place))
    }

    /// The area of a place, among those of a whole chain.
    pub fn area_of(&self, place: &[u8]) -> u32
        requires whole { AreWhole self.now }
        requires place { length place.now ≡ self.now.part.key }
        ensures area { area_by self.now.areas self.now.ends place.now ≡ Some result }
        ensures there { result < area_count self.now.part.geometry }
    {
        self.entries[self.position(place)].area
    }
}
