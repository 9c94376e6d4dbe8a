//! The part that lines speak of.
ghost use Rattle.std.specs.Prelude.{◌≡◌, ◌<◌, ◌≤◌, length, IfOk, None, Some, slice_index_or};
ghost use Rattle.vr_types.specs.Geometry.{area_count};
ghost use Rattle.vr_space.specs.Part.{owned_count};
ghost use Rattle.vr_keyed_cases.specs.TheLayout.{IsVolume, the_number, the_shape};

use crate::answers::{Answer, Stop};
use crate::format::{device_blocks, empty_interval, head, head_block, layout, owners};
use crate::one_kept::OneKept;
use crate::record::is_whole;
use crate::traced::Traced;
use std::alloc::Global;
use vr_attach::PartNo2;
use vr_device::{MemoryDevice, memory_device};
use vr_keyed::{Keyed, new_part};
use vr_space::{Part, Room, Whence};
use vr_types::{
    AreaNo, Blocks, DeviceFault, Geometry, PartNo, Place, PlaceBuffer, Space, StageKind,
};

/// The part on its blocks, what is kept, and the records that were noted. What is large is in
/// boxes, so that a function that ends drops it by one call.
#[derive(Drop)]
pub struct Held {
    pub blocks: Box<Traced>,
    pub part: Box<Keyed>,
    pub space: Space,
    pub kept: OneKept,
    pub mark: String,
    pub geometry: Geometry,
    ghost volume: { IsVolume geometry },
    ghost shape: { ⟦<Keyed as Part>⟧.shape part.value ≡ the_shape geometry },
}

impl Held {
    /// The part that blocks of a volume have, attached to them as after a restart.
    pub fn attached(
        alloc: Global,
        geometry: Geometry,
        mut blocks: Box<Traced>,
    ) -> Result<Box<Held>, Stop>
        requires { IsVolume geometry }
    {
        let mut space = owners(alloc, geometry)?;
        let part = attached_part(alloc, geometry, &mut blocks, &mut space)?;
        blocks.clear_notes();
        Held::on(alloc, geometry, blocks, part, space)
    }

    fn on(
        alloc: Global,
        geometry: Geometry,
        blocks: Box<Traced>,
        part: Box<Keyed>,
        space: Space,
    ) -> Result<Box<Held>, Stop>
        requires volume { IsVolume geometry }
        requires shape { ⟦<Keyed as Part>⟧.shape part.value ≡ the_shape geometry }
    {
        let held = Held {
            blocks,
            part,
            space,
            kept: OneKept::Nothing,
            mark: String::new(alloc),
            geometry,
        };
        Ok(Box::new(alloc, held)?)
    }

    /// A new part of a volume, on a device whose calls of these numbers fail. The first three calls
    /// make it.
    pub fn format(alloc: Global, geometry: Geometry, fails: &[u64]) -> Result<Box<Held>, Stop>
        requires { IsVolume geometry }
    {
        let device = memory_device(alloc, 512, device_blocks(geometry), fails)?;
        let mut blocks = boxed_blocks(alloc, device, head_block(geometry))?;
        write_first(alloc, head_block(geometry), &mut blocks)?;
        let part = boxed_part(alloc, geometry)?;
        let space = owners(alloc, geometry)?;
        Held::on(alloc, geometry, blocks, part, space)
    }

    /// How many intervals an area of the volume has.
    pub fn intervals(&self) -> usize {
        self.geometry.area as usize
    }

    /// Gives another part the least free area, where one is free.
    pub fn claim(&mut self) -> Option<AreaNo> {
        self.space.claim(PartNo(2))
    }

    /// Makes room to keep what is met of this many places.
    pub fn keep_places(&mut self, alloc: Global, count: usize) -> Answer {
        self.part.keep_places(alloc, count)?;
        Ok(())
    }

    /// Whether a record of this length has room.
    pub fn room(&mut self, place: &Place, size: u32) -> Result<Room, DeviceFault>
        requires place { length place.now ≡ 8 }
        requires least { 8 ≤ size }
        requires most { size ≤ 505 }
    {
        self.part
            .room(&mut *self.blocks, &self.space, &self.kept, place, size)
    }

    /// Does the stage that comes before a record of this length.
    pub fn advance(&mut self, place: &Place, size: u32) -> Result<StageKind, DeviceFault>
        requires place { length place.now ≡ 8 }
        requires least { 8 ≤ size }
        requires most { size ≤ 505 }
    {
        self.part.advance(&mut *self.blocks, &mut self.space, &self.kept, place, size)
    }

    /// Sets a record. It has to be one that may stand at the place.
    pub fn set(&mut self, place: &Place, bytes: &[u8]) -> Result<Result<(), DeviceFault>, Stop> {
        if !self.part.may_stand(place, Some(bytes)) {
            return Err(Stop::Line);
        }
        let blocks = &mut *self.blocks;
        Ok(self.part.set(blocks, &self.kept, place, Some(bytes)))
    }

    /// Takes a record away.
    pub fn erase(&mut self, place: &Place) -> Result<(), DeviceFault>
        requires place { length place.now ≡ 8 }
    {
        self.part.set(&mut *self.blocks, &self.kept, place, None)
    }

    /// What stands at a place.
    pub fn stand(&mut self, place: &Place) -> Stand
        requires { length place.now ≡ 8 }
    {
        stand_at(self.geometry, &mut *self.blocks, &mut *self.part, place)
    }

    /// Gives the next place with a record.
    pub fn next(&mut self, from: Whence<'_>, into: &mut PlaceBuffer) -> Result<bool, DeviceFault>
        requires { 8 ≤ into.old.room }
    {
        self.part.next(&mut *self.blocks, from, into)
    }
}

/// Blocks over a device, whose first block is the one of this number, in a box.
pub fn boxed_blocks(alloc: Global, device: MemoryDevice, base: u32) -> Result<Box<Traced>, Stop> {
    let blocks = Traced::over(alloc, device, base)?;
    Ok(Box::new(alloc, blocks)?)
}

/// A new part, in a box.
fn boxed_part(alloc: Global, geometry: Geometry) -> Result<Box<Keyed>, Stop>
    requires { IsVolume geometry }
    ensures { IfOk result (λ part. ⟦<Keyed as Part>⟧.shape part.value ≡ the_shape geometry) }
{
    let part = new_part(alloc, layout(geometry))?;
    Ok(Box::new(alloc, part)?)
}

/// The part as its blocks stand, in a box. The areas of its chain are marked as its own.
fn attached_part(
    alloc: Global,
    geometry: Geometry,
    blocks: &mut Traced,
    owners: &mut Space,
) -> Result<Box<Keyed>, Stop>
    requires volume { IsVolume geometry }
    requires areas { length owners.old ≡ area_count geometry }
    requires first { slice_index_or owners.old 1 None ≡ Some the_number }
    requires alone { owned_count the_number owners.old ≡ 1 }
    ensures { IfOk result (λ part. ⟦<Keyed as Part>⟧.shape part.value ≡ the_shape geometry) }
{
    match Keyed::attach(alloc, blocks, layout(geometry), owners) {
        Ok(part) => Ok(Box::new(alloc, part)?),
        Err(PartNo2::Memory) => Err(Stop::Memory),
        Err(_) => Err(Stop::Line),
    }
}

/// Writes the blocks of a new part, from the one of this number on.
fn write_first(alloc: Global, first: u32, blocks: &mut Traced) -> Answer
    requires { first < 25 }
{
    let head = head(alloc)?;
    let _ = blocks.put(first, head.as_slice());
    let interval = empty_interval(alloc)?;
    let _ = blocks.put(first + 1, interval.as_slice());
    let _ = blocks.force(&[]);
    blocks.clear_notes();
    Ok(())
}

/// What stands at a place.
#[derive(Clone, Copy)]
pub enum Stand {
    Nothing,
    /// The whole record of this length.
    Whole(usize),
    /// Other bytes than those of its length and key.
    Other,
    Fault(DeviceFault),
}

/// Looks at a place, and compares what stands there with the record of its length and key.
fn stand_at(geometry: Geometry, blocks: &mut Traced, part: &mut Keyed, place: &Place) -> Stand
    requires volume { IsVolume geometry }
    requires shape { ⟦<Keyed as Part>⟧.shape part.old ≡ the_shape geometry }
    requires place { length place.now ≡ 8 }
    ensures { ⟦<Keyed as Part>⟧.shape part.new ≡ the_shape geometry }
{
    match Keyed::look(blocks, part, place) {
        Ok(Some(bytes)) => judged(bytes, place.as_slice()),
        Ok(None) => Stand::Nothing,
        Err(fault) => Stand::Fault(fault),
    }
}

/// Whether these bytes are the whole record of their length and this key.
fn judged(bytes: &[u8], key: &[u8]) -> Stand {
    if bytes.starts_with(key) && is_whole(bytes) {
        Stand::Whole(bytes.len())
    } else {
        Stand::Other
    }
}
