//! Places that are written again and again in room that was taken once.
ghost use Rattle.std.specs.Prelude.{◌≡◌, ◌≤◌, [], length, IfOk};

use crate::memory::OutOfMemory;
use crate::values::Place;
use std::alloc::Global;
use std::marker::Model;

/// A place with room for others, for calls that give place after place and take no memory.
#[derive(Drop)]
pub struct PlaceBuffer {
    bytes: Vec<u8>,
    room: u32,
}

impl Model for PlaceBuffer {
    ghost use Rattle.std.specs.Prelude.{◌≤◌, vec_capacity};
    ghost use Rattle.vr_types.specs.PlaceBuffer.{PlaceRoom};

    ghost Value = { PlaceRoom };

    ghost view = { λ buffer. record {
      place = buffer.bytes.items;
      room = buffer.room;
    } };

    ghost invariant = { λ buffer. buffer.room ≤ vec_capacity buffer.bytes };
}

impl PlaceBuffer {
    /// The bytes of the place.
    pub fn as_slice(&self) -> &[u8]
        ensures { result.now ≡ self.now.place }
    {
        self.bytes.as_slice()
    }

    /// Makes these bytes the place. It takes no memory, and the room stays.
    pub fn set(&mut self, place: &[u8])
        requires { length place.now ≤ self.old.room }
        ensures { self.new ≡ record { place = place.now; room = self.old.room } }
    {
        self.bytes.clear();
        if self.bytes.extend_from_slice(place).is_err() {
            unreachable!("there is room")
        }
    }

    /// The place, which keeps the room's memory. It takes none.
    pub fn into_place(self) -> Place
        ensures { result ≡ self.place }
    {
        let PlaceBuffer { bytes, room: _ } = self;
        Place::from_vec(bytes)
    }
}

/// The empty place, with room for `room` bytes. It fails only if memory runs out.
pub fn empty_place(alloc: Global, room: u32) -> Result<PlaceBuffer, OutOfMemory>
    ensures { IfOk result (λ buffer. buffer ≡ record { place = []; room = room }) }
{
    let bytes = Vec::with_capacity(alloc, room as usize)?;
    Ok(PlaceBuffer { bytes, room })
}
