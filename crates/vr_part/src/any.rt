//! A part of any kind.
ghost use Rattle.std.specs.Prelude.{◌≡◌, ◌↔◌, ℕ, List, All, IfOk, IfSome, IsTrue};
ghost use Rattle.vr_types.specs.Blocks.{Keeps};
ghost use Rattle.vr_types.specs.Faults.{HasCause};
ghost use Rattle.vr_space.specs.Part.{HasRoom, IsOn, IsPlaceOf, IsRecordOf, Knows, Stands};
ghost use Rattle.vr_space.specs.Part.{given, part_no};
ghost use Rattle.vr_part.specs.Any.{known_any, shape_any};

use std::alloc::Global;
use vr_chained::Chained;
use vr_keyed::Keyed;
use vr_space::{Kept, Part, Room, Whence};
use vr_types::{Blocks, DeviceFault, OutOfMemory, PartNo, Place, PlaceBuffer, Space, StageKind};

/// A part of a volume, of any kind that one may hold (DFSMS Using Data Sets: key-sequenced,
/// entry-sequenced and relative record data sets).
#[derive(Drop)]
pub enum AnyPart {
    /// The records of a key-sequenced cluster, or the catalog.
    Keyed(Keyed),
    /// Those of an entry-sequenced or relative one.
    Chained(Chained),
}

impl AnyPart {
    /// The number of the part.
    pub fn number(&self) -> PartNo
        ensures { result ≡ part_no (shape_any self.now) }
    {
        match self {
            AnyPart::Keyed(part) => part.number(),
            AnyPart::Chained(part) => part.number(),
        }
    }

    /// Whether this may stand at the place: the place is one of the part's, and what is given is a
    /// record of it, or none.
    pub fn may_stand(&self, place: &Place, bytes: Option<&[u8]>) -> bool
        ensures { IsTrue result ↔ (IsPlaceOf (shape_any self.now) place.now
            × IfSome (given bytes.entry) (IsRecordOf (shape_any self.now) place.now)) }
    {
        match self {
            AnyPart::Keyed(part) => part.may_stand(place, bytes),
            AnyPart::Chained(part) => part.may_stand(place, bytes),
        }
    }

    /// Whether each interval of the part has room for what is kept, beside its records: what the
    /// volume needs before its before-images can be put back.
    pub fn has_rooms<B: Blocks, K: Kept>(
        &mut self,
        blocks: &mut B,
        kept: &K,
    ) -> Result<bool, DeviceFault>
        requires on { IsOn (shape_any self.old) (B.seen blocks.old) }
        requires places { All (λ (entry : List ℕ × ℕ). IsPlaceOf (shape_any self.old) entry.0)
            (K.kept kept.now (part_no (shape_any self.old))) }
        requires stands { IsTrue B.tells → Stands (shape_any self.old) (B.seen blocks.old).cur }
        requires knows { IsTrue B.tells → Knows (shape_any self.old) (known_any self.old)
            (B.seen blocks.old) }
        ensures rooms { IsTrue B.tells → IfOk result (λ is. IsTrue is
            ↔ HasRoom (shape_any self.old) (K.kept kept.now (part_no (shape_any self.old)))
            (B.seen blocks.old).cur) }
        ensures same { self.new ≡ self.old }
        ensures keeps { Keeps B.tells (B.seen blocks.old) (B.seen blocks.new) }
        ensures cause { HasCause (B.faults blocks.old) (B.faults blocks.new) result }
    {
        match self {
            AnyPart::Keyed(part) => part.has_rooms(blocks, kept),
            AnyPart::Chained(part) => part.has_rooms(blocks, kept),
        }
    }
}

impl Part for AnyPart {
    ghost use Rattle.vr_part.specs.Any.{known_any, put_any, shape_any};

    ghost shape = { shape_any };

    ghost known = { known_any };

    ghost put = { put_any };

    fn look<'a, B: Blocks>(
        blocks: &'a mut B,
        part: &mut Self,
        place: &Place,
    ) -> Result<Option<&'a [u8]>, DeviceFault> {
        match part {
            AnyPart::Keyed(part) => Keyed::look(blocks, part, place),
            AnyPart::Chained(part) => Chained::look(blocks, part, place),
        }
    }

    fn next<B: Blocks>(
        &mut self,
        blocks: &mut B,
        from: Whence<'_>,
        into: &mut PlaceBuffer,
    ) -> Result<bool, DeviceFault> {
        match self {
            AnyPart::Keyed(part) => part.next(blocks, from, into),
            AnyPart::Chained(part) => part.next(blocks, from, into),
        }
    }

    fn keep_places(&mut self, alloc: Global, count: usize) -> Result<(), OutOfMemory> {
        match self {
            AnyPart::Keyed(part) => part.keep_places(alloc, count),
            AnyPart::Chained(part) => part.keep_places(alloc, count),
        }
    }

    fn room<B: Blocks, K: Kept>(
        &mut self,
        blocks: &mut B,
        space: &Space,
        kept: &K,
        place: &Place,
        length: u32,
    ) -> Result<Room, DeviceFault> {
        match self {
            AnyPart::Keyed(part) => part.room(blocks, space, kept, place, length),
            AnyPart::Chained(part) => part.room(blocks, space, kept, place, length),
        }
    }

    fn advance<B: Blocks, K: Kept>(
        &mut self,
        blocks: &mut B,
        space: &mut Space,
        kept: &K,
        place: &Place,
        length: u32,
    ) -> Result<StageKind, DeviceFault> {
        match self {
            AnyPart::Keyed(part) => part.advance(blocks, space, kept, place, length),
            AnyPart::Chained(part) => part.advance(blocks, space, kept, place, length),
        }
    }

    fn set<B: Blocks, K: Kept>(
        &mut self,
        blocks: &mut B,
        kept: &K,
        place: &Place,
        bytes: Option<&[u8]>,
    ) -> Result<(), DeviceFault> {
        match self {
            AnyPart::Keyed(part) => part.set(blocks, kept, place, bytes),
            AnyPart::Chained(part) => part.set(blocks, kept, place, bytes),
        }
    }

    fn address(&self, length: u32) -> Option<u32> {
        match self {
            AnyPart::Keyed(part) => part.address(length),
            AnyPart::Chained(part) => part.address(length),
        }
    }

    fn areas(&self) -> u32 {
        match self {
            AnyPart::Keyed(part) => part.areas(),
            AnyPart::Chained(part) => part.areas(),
        }
    }

    fn put_blocks(&self) -> &[u32] {
        match self {
            AnyPart::Keyed(part) => part.put_blocks(),
            AnyPart::Chained(part) => part.put_blocks(),
        }
    }
}
