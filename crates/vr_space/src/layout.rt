//! Where one area of a keyed part is on its blocks, and what its records are.
ghost use Rattle.std.specs.Prelude.{◌≡◌, ◌<◌, ◌≤◌, ◌+◌, ◌↔◌, IsTrue, length};
ghost use Rattle.std.specs.Ordering.{is_le};
ghost use Rattle.vr_types.specs.Content.{place_cmp};
ghost use Rattle.vr_space.specs.Keyed.{key_of};
ghost use Rattle.vr_space.specs.UnderWay.{interval_block};

use std::marker::Model;
use vr_types::PartNo;

/// Where one area of a keyed part is, and what its records are: the number of the part, the block of
/// its head, the intervals of an area, the bytes of a block, the length and offset of the key, and
/// the longest record, which has room in an interval of its own. Each of its blocks has a number of
/// 32 bits.
#[derive(Drop)]
pub struct Layout {
    pub part: PartNo,
    pub head: u32,
    pub area: u16,
    pub size: u32,
    pub key: u16,
    pub offset: u16,
    pub most: u32,
}

impl Model for Layout {
    ghost use Rattle.std.specs.Prelude.{◌+◌, ◌^◌, ◌<◌, ◌≤◌};
    ghost use Rattle.vr_space.specs.Keyed.{Keyed};

    ghost Value = { Keyed };

    ghost view = { λ layout. record {
      part = layout.part.0;
      head = layout.head;
      area = layout.area;
      size = layout.size;
      key = layout.key;
      offset = layout.offset;
      most = layout.most;
    } };

    ghost invariant = { λ layout. (layout.most + 7 ≤ layout.size)
        × (layout.head + layout.area < 2 ^ 32) };
}

impl Layout {
    /// The same once more.
    pub fn copy(&self) -> Layout
        ensures { result ≡ self.now }
    {
        Layout {
            part: self.part,
            head: self.head,
            area: self.area,
            size: self.size,
            key: self.key,
            offset: self.offset,
            most: self.most,
        }
    }

    /// The block of an interval.
    pub fn block_of(&self, interval: u16) -> u32
        requires { interval < self.now.area }
        ensures { result ≡ interval_block self.now interval }
    {
        self.head + 1 + u32::from(interval)
    }

    /// Whether a record is long enough to have its key whole.
    pub fn has_key(&self, bytes: &[u8]) -> bool
        ensures { IsTrue result ↔ (self.now.offset + self.now.key ≤ length bytes.now) }
    {
        self.offset as usize + self.key as usize <= bytes.len()
    }

    /// The key of a record that has it whole.
    pub fn key_of<'a>(&self, bytes: &'a [u8]) -> &'a [u8]
        requires { self.now.offset + self.now.key ≤ length bytes.now }
        ensures { result.now ≡ key_of self.now bytes.now }
    {
        &bytes[self.offset as usize..self.offset as usize + self.key as usize]
    }
    /// Whether a record has its key whole, and stands at this place.
    pub fn is_at(&self, bytes: &[u8], place: &[u8]) -> bool
        ensures { IsTrue result ↔ ((self.now.offset + self.now.key ≤ length bytes.now)
            × (key_of self.now bytes.now ≡ place.now)) }
    {
        self.has_key(bytes) && self.key_of(bytes) == place
    }

    /// Whether a record has its key whole, and stands at this place or before it.
    pub fn is_up_to(&self, bytes: &[u8], place: &[u8]) -> bool
        ensures { IsTrue result ↔ ((self.now.offset + self.now.key ≤ length bytes.now)
            × IsTrue (is_le (place_cmp (key_of self.now bytes.now) place.now))) }
    {
        self.has_key(bytes) && self.key_of(bytes).cmp(place).is_le()
    }
}
