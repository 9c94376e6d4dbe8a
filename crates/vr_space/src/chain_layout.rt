//! Where a part under a chain of rosters is on its volume, and how long its records are.
ghost use Rattle.std.specs.Prelude.{◌≡◌, ◌<◌};
ghost use Rattle.vr_types.specs.Geometry.{area_count};
ghost use Rattle.vr_space.specs.Rosters.{interval_in, roster_block};
ghost use Rattle.vr_space.specs.Numbered.{span_of, start_of};
ghost use Rattle.vr_space.specs.Slots.{slots_of};

use std::marker::Model;
use vr_ci_match::slots;
use vr_types::{Geometry, PartNo};

/// Where an entry-sequenced or relative part is: its number, its first area, and the shape of its
/// volume; how many bytes its longest record has, which is the length of each slot of a relative
/// part; and whether it is a relative part. Such a record has room in an interval of its own.
#[derive(Drop)]
pub struct ChainLayout {
    pub part: PartNo,
    pub first: u32,
    pub geometry: Geometry,
    pub most: u16,
    pub relative: bool,
}

impl Model for ChainLayout {
    ghost use Rattle.vr_space.specs.Rosters.{IsNumbered, Numbered};

    ghost Value = { Numbered };

    ghost view = { λ layout. record {
      part = layout.part.0;
      first = layout.first;
      geometry = layout.geometry;
      most = layout.most;
      relative = layout.relative;
    } };

    ghost invariant = { λ layout. IsNumbered (record {
      part = layout.part.0;
      first = layout.first;
      geometry = layout.geometry;
      most = layout.most;
      relative = layout.relative;
    }) };
}

impl ChainLayout {
    /// The same once more.
    pub fn copy(&self) -> ChainLayout
        ensures { result ≡ self.now }
    {
        ChainLayout {
            part: self.part,
            first: self.first,
            geometry: self.geometry,
            most: self.most,
            relative: self.relative,
        }
    }

    /// How many slots an interval has.
    pub fn slots(&self) -> u32
        ensures count { result ≡ slots_of self.now }
        ensures some { 0 < result }
    {
        slots(self.geometry.size as usize, self.most) as u32
    }

    /// How many numbers of places an interval has: those of its slots, or of its bytes.
    pub fn span(&self) -> u32
        ensures count { result ≡ span_of self.now }
        ensures some { 0 < result }
    {
        if self.relative {
            self.slots()
        } else {
            self.geometry.size
        }
    }

    /// The number of the first place: slots are numbered from 1, bytes from 0.
    pub fn start(&self) -> u32
        ensures { result ≡ start_of self.now }
    {
        if self.relative { 1 } else { 0 }
    }

    /// The block of an area's roster.
    pub fn roster_block(&self, area: u32) -> u32
        requires { area < area_count self.now.geometry }
        ensures number { result ≡ roster_block self.now area }
        ensures below { result < self.now.geometry.blocks }
    {
        self.geometry.head_block(area)
    }

    /// The block of an interval of an area.
    pub fn interval_in(&self, area: u32, interval: u32) -> u32
        requires area { area < area_count self.now.geometry }
        requires interval { interval < self.now.geometry.area }
        ensures number { result ≡ interval_in self.now area interval }
        ensures below { result < self.now.geometry.blocks }
    {
        self.geometry.head_block(area) + 1 + interval
    }
}
