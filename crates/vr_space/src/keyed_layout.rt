//! Where a keyed part is on its volume, and what its records are.
ghost use Rattle.std.specs.Prelude.{◌≡◌, ◌<◌, ◌+◌};
ghost use Rattle.vr_types.specs.Geometry.{area_count};
ghost use Rattle.vr_space.specs.Areas.{area_of};

use crate::layout::Layout;
use std::marker::Model;
use vr_types::{Geometry, PartNo};

/// Where a keyed part is, and what its records are: the number of the part, its first area, and the
/// shape of its volume; the length and offset of the key, and the longest record, which has room in
/// an interval of its own.
#[derive(Drop)]
pub struct KeyedLayout {
    pub part: PartNo,
    pub first: u32,
    pub geometry: Geometry,
    pub key: u16,
    pub offset: u16,
    pub most: u32,
}

impl Model for KeyedLayout {
    ghost use Rattle.vr_space.specs.Areas.{IsKeyedChain, KeyedChain};

    ghost Value = { KeyedChain };

    ghost view = { λ layout. record {
      part = layout.part.0;
      first = layout.first;
      geometry = layout.geometry;
      key = layout.key;
      offset = layout.offset;
      most = layout.most;
    } };

    ghost invariant = { λ layout. IsKeyedChain (record {
      part = layout.part.0;
      first = layout.first;
      geometry = layout.geometry;
      key = layout.key;
      offset = layout.offset;
      most = layout.most;
    }) };
}

impl KeyedLayout {
    /// The same once more.
    pub fn copy(&self) -> KeyedLayout
        ensures { result ≡ self.now }
    {
        KeyedLayout {
            part: self.part,
            first: self.first,
            geometry: self.geometry,
            key: self.key,
            offset: self.offset,
            most: self.most,
        }
    }

    /// Where one of the volume's areas is, as an area of the part.
    pub fn area(&self, area: u32) -> Layout
        requires { area < area_count self.now.geometry }
        ensures layout { result ≡ area_of self.now area }
        ensures below { result.head + result.area < self.now.geometry.blocks }
    {
        Layout {
            part: self.part,
            head: self.geometry.head_block(area),
            area: self.geometry.area as u16,
            size: self.geometry.size,
            key: self.key,
            offset: self.offset,
            most: self.most,
        }
    }
}
