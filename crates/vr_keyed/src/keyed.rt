//! A key-sequenced part on blocks.
ghost use Rattle.std.specs.Prelude.{◌≡◌, ◌≤◌, ◌↔◌, [], None, IfOk, IfSome, IsTrue, length};
ghost use Rattle.std.specs.Prelude.{◌<◌, ◌∷◌, ◌^◌, replicate, vec_capacity};
ghost use Rattle.vr_types.specs.Blocks.{Keeps};
ghost use Rattle.vr_types.specs.Faults.{HasCause};
ghost use Rattle.vr_space.specs.Part.{HasRoom, IsOn, IsPlaceOf, IsRecordOf, KeyedShape, Knows};
ghost use Rattle.vr_space.specs.Part.{Stands, given, part_no};
ghost use Rattle.vr_attach.specs.Areas.{AreWhole};
ghost use Rattle.vr_keyed.specs.Lent.{ArePlaces};
ghost use Rattle.vr_keyed.specs.Owned.{known_of};
ghost use Rattle.vr_keyed.specs.Ready.{put_of};

use crate::chain::{look_at, next_over, rooms_over};
use crate::change::{advance_over, room_over, set_over};
use crate::slot::{Slot, empty_slot};
use crate::slots::Slots;
use crate::splits::{Splits, no_splits};
use std::alloc::Global;
use std::marker::Model;
use vr_attach::{Areas, no_areas};
use vr_space::{Kept, KeyedLayout, Part, Room, Whence};
use vr_split::{Weights, empty_weights};
use vr_types::{Blocks, DeviceFault, OutOfMemory, PartNo, Place, PlaceBuffer, Space, StageKind};

/// A key-sequenced part on blocks (DFSMS Using Data Sets, key-sequenced data sets): a chain of
/// areas, each with a sequence-set record as its head and records in control intervals. It has the
/// buffers that its calls need, so that `keep_places` alone takes memory.
#[derive(Drop)]
pub struct Keyed {
    areas: Areas,
    splits: Splits,
    slots: Slots,
    spare: Slot,
    weights: Weights,
    out: Vec<u8>,
    put: Vec<u32>,
}

impl Model for Keyed {
    ghost use Rattle.std.specs.Prelude.{◌≡◌, ◌<◌, ◌≤◌, ◌^◌, All, length, vec_len, vec_capacity};
    ghost use Rattle.vr_space.specs.Areas.{area_of};
    ghost use Rattle.vr_attach.specs.Areas.{AreWhole};
    ghost use Rattle.vr_keyed.specs.Owned.{IsMine, Owned};
    ghost use Rattle.vr_keyed.specs.Slots.{AreSlotsOf, IsSlotOf, mets, most_kept};
    ghost use Rattle.vr_keyed.specs.Lent.{HasRoomFor};

    ghost Value = { Owned };

    ghost view = { λ keyed. record {
      part = keyed.areas.part;
      areas = keyed.areas.areas;
      ends = keyed.areas.ends;
      intervals = keyed.areas.intervals;
      split = keyed.splits.split;
      move = keyed.splits.move;
      met = mets keyed.slots;
      most = most_kept keyed.slots;
      put = keyed.put.items;
    } };

    ghost invariant = { λ keyed. AreWhole keyed.areas
        × (keyed.splits.part ≡ keyed.areas.part)
        × AreSlotsOf (area_of keyed.areas.part keyed.areas.part.first) keyed.slots
        × All (IsMine keyed.areas) (mets keyed.slots)
        × IsSlotOf (area_of keyed.areas.part keyed.areas.part.first) keyed.spare
        × HasRoomFor (area_of keyed.areas.part keyed.areas.part.first) keyed.weights
        × (vec_len keyed.out ≡ keyed.areas.part.geometry.size)
        × (1 ≤ vec_capacity keyed.put) };
}

/// Notes the block that was put.
fn note_put(noted: &mut Vec<u32>, put: Option<u32>)
    requires { 1 ≤ vec_capacity noted.old }
    ensures put { noted.new.items ≡ put_of put }
    ensures room { 1 ≤ vec_capacity noted.new }
{
    noted.clear();
    if let Some(number) = put
        && noted.push(number).is_err()
    {
        unreachable!("there is room")
    }
}

/// A block of zeros, of this size.
pub(crate) fn empty_block(alloc: Global, size: u32) -> Result<Vec<u8>, OutOfMemory>
    ensures { IfOk result (λ block. length block.items ≡ size) }
{
    let block = vec![in alloc; 0; size as usize]?;
    Ok(block)
}

/// A part with these areas, with no split under way, nothing met, and room to keep what it meets of
/// two places. `out` is a block of it. It fails only if memory runs out, and takes all that the part
/// needs.
pub(crate) fn keyed_part(alloc: Global, areas: Areas, out: Vec<u8>) -> Result<Keyed, OutOfMemory>
    requires whole { AreWhole areas }
    requires out { length out.items ≡ areas.part.geometry.size }
    ensures { IfOk result (λ keyed. keyed ≡ record {
      part = areas.part;
      areas = areas.areas;
      ends = areas.ends;
      intervals = areas.intervals;
      split = None;
      move = None;
      met = [];
      most = 2;
      put = [];
    }) }
{
    let splits = no_splits(alloc, areas.layout())?;
    let area = areas.layout().area(areas.layout().first);
    let slots = Slots::empty(alloc, &area)?;
    let spare = empty_slot(alloc, &area)?;
    let weights = empty_weights(alloc, area.size / 3 + 1, area.key)?;
    let put = Vec::with_capacity(alloc, 1)?;
    Ok(Keyed {
        areas,
        splits,
        slots,
        spare,
        weights,
        out,
        put,
    })
}

/// A part that is new, of one area, whose head leads to one interval, and whose ranges go up to the
/// greatest key: with no split under way, nothing met, and room to keep what it meets of two places.
/// It reads nothing, and fails only if memory runs out.
pub fn new_part(alloc: Global, layout: KeyedLayout) -> Result<Keyed, OutOfMemory>
    ensures { IfOk result (λ keyed. keyed ≡ record {
      part = layout;
      areas = layout.first ∷ [];
      ends = replicate layout.key 255 ∷ [];
      intervals = 1;
      split = None;
      move = None;
      met = [];
      most = 2;
      put = [];
    }) }
{
    let out = empty_block(alloc, layout.geometry.size)?;
    let first = layout.first;
    let greatest = vec![in alloc; 255; layout.key as usize]?;
    let mut areas = no_areas(alloc, layout)?;
    areas.add(first, greatest.as_slice(), 1);
    keyed_part(alloc, areas, out)
}

impl Keyed {
    /// The number of the part.
    pub fn number(&self) -> PartNo
        ensures { result ≡ part_no (KeyedShape self.now.part) }
    {
        self.areas.layout().part
    }

    /// Whether this may stand at the place: the place has the key's length, and what is given is a
    /// record of at most the greatest length whose key is there, or none.
    pub fn may_stand(&self, place: &Place, bytes: Option<&[u8]>) -> bool
        ensures { IsTrue result ↔ (IsPlaceOf (KeyedShape self.now.part) place.now
            × IfSome (given bytes.entry) (IsRecordOf (KeyedShape self.now.part) place.now)) }
    {
        let layout = self.areas.layout();
        let area = layout.area(layout.first);
        let place = place.as_slice();
        if place.len() != area.key as usize {
            return false;
        }
        match bytes {
            Some(bytes) => bytes.len() <= area.most as usize && area.is_at(bytes, place),
            None => true,
        }
    }

    /// Whether each interval of the part has room for what is kept for its range, beside its
    /// records: what the volume needs before its before-images can be put back. It reads each head
    /// and each interval of an entry once.
    pub fn has_rooms<B: Blocks, K: Kept>(
        &mut self,
        blocks: &mut B,
        kept: &K,
    ) -> Result<bool, DeviceFault>
        requires on { IsOn (KeyedShape self.old.part) (B.seen blocks.old) }
        requires kept { ArePlaces self.old.part.key
            (K.kept kept.now (part_no (KeyedShape self.old.part))) }
        requires stands { IsTrue B.tells
            → Stands (KeyedShape self.old.part) (B.seen blocks.old).cur }
        requires knows { IsTrue B.tells
            → Knows (KeyedShape self.old.part) (known_of self.old) (B.seen blocks.old) }
        ensures same { self.new ≡ self.old }
        ensures rooms { IsTrue B.tells → IfOk result (λ is. IsTrue is
            ↔ HasRoom (KeyedShape self.old.part)
            (K.kept kept.now (part_no (KeyedShape self.old.part))) (B.seen blocks.old).cur) }
        ensures keeps { Keeps B.tells (B.seen blocks.old) (B.seen blocks.new) }
        ensures cause { HasCause (B.faults blocks.old) (B.faults blocks.new) result }
    {
        rooms_over(
            blocks,
            &self.areas,
            kept,
            self.out.as_mut_slice(),
            &mut self.weights,
        )
    }
}

impl Part for Keyed {
    ghost use Rattle.vr_space.specs.Part.{KeyedShape};
    ghost use Rattle.vr_keyed.specs.Owned.{known_of};

    ghost shape = { λ keyed. KeyedShape keyed.part };

    ghost known = { known_of };

    ghost put = { λ keyed. keyed.put };

    fn look<'a, B: Blocks>(
        blocks: &'a mut B,
        part: &mut Self,
        place: &Place,
    ) -> Result<Option<&'a [u8]>, DeviceFault> {
        look_at(blocks, &part.areas, place.as_slice())
    }

    fn next<B: Blocks>(
        &mut self,
        blocks: &mut B,
        from: Whence<'_>,
        into: &mut PlaceBuffer,
    ) -> Result<bool, DeviceFault> {
        next_over(&mut self.spare, &self.areas, blocks, from, into)
    }

    fn keep_places(&mut self, alloc: Global, count: usize) -> Result<(), OutOfMemory> {
        let layout = self.areas.layout();
        let area = layout.area(layout.first);
        self.slots.make_room(alloc, &area, count)
    }

    fn room<B: Blocks, K: Kept>(
        &mut self,
        blocks: &mut B,
        space: &Space,
        kept: &K,
        place: &Place,
        length: u32,
    ) -> Result<Room, DeviceFault> {
        room_over(
            &self.areas,
            &self.splits,
            &mut self.slots,
            blocks,
            space.free(),
            kept,
            place,
            length,
            &mut self.weights,
        )
    }

    fn advance<B: Blocks, K: Kept>(
        &mut self,
        blocks: &mut B,
        space: &mut Space,
        kept: &K,
        place: &Place,
        length: u32,
    ) -> Result<StageKind, DeviceFault> {
        advance_over(
            &mut self.areas,
            &mut self.splits,
            &mut self.slots,
            blocks,
            space,
            kept,
            place,
            length,
            &mut self.weights,
        )
    }

    fn set<B: Blocks, K: Kept>(
        &mut self,
        blocks: &mut B,
        _kept: &K,
        place: &Place,
        bytes: Option<&[u8]>,
    ) -> Result<(), DeviceFault> {
        let put = set_over(
            &mut self.slots,
            &self.areas,
            blocks,
            self.out.as_mut_slice(),
            place.as_slice(),
            bytes,
        )?;
        note_put(&mut self.put, put);
        Ok(())
    }

    fn address(&self, _length: u32) -> Option<u32> {
        None
    }

    fn areas(&self) -> u32 {
        self.areas.count() as u32
    }

    fn put_blocks(&self) -> &[u32] {
        self.put.as_slice()
    }
}
