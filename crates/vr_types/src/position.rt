//! Where a file is for sequential reading.
ghost use Rattle.std.specs.Prelude.{◌≡◌, IfOk};

use crate::memory::OutOfMemory;
use crate::request::copy_of_place;
use crate::values::Place;
use std::alloc::Global;

/// Where a file is for sequential reading, as Using Data Sets has it of positioning: at its start,
/// at or after a place, at its end, or nowhere.
#[derive(Debug, Drop, PartialEq, Eq)]
pub enum Stand {
    Start,
    At(Place),
    After(Place),
    End,
    None,
}

impl Stand {
    /// Copies the value; fails only if memory runs out.
    pub fn copy(&self, alloc: Global) -> Result<Stand, OutOfMemory>
        ensures { IfOk result (λ copy. copy ≡ self.now) }
    {
        match self {
            Stand::Start => Ok(Stand::Start),
            Stand::At(place) => Ok(Stand::At(place.copy(alloc)?)),
            Stand::After(place) => Ok(Stand::After(place.copy(alloc)?)),
            Stand::End => Ok(Stand::End),
            Stand::None => Ok(Stand::None),
        }
    }
}

/// Where a file is, and the place in the base cluster of the record that it holds for update.
#[derive(Debug, Drop, PartialEq, Eq)]
pub struct Position {
    pub stand: Stand,
    pub held: Option<Place>,
}

impl Position {
    ghost use Rattle.vr_types.specs.Position.{unheld};

    /// Copies the value; fails only if memory runs out.
    pub fn copy(&self, alloc: Global) -> Result<Position, OutOfMemory>
        ensures { IfOk result (λ copy. copy ≡ self.now) }
    {
        Ok(Position {
            stand: self.stand.copy(alloc)?,
            held: copy_of_place(alloc, &self.held)?,
        })
    }

    /// Drops what is held.
    pub fn unhold(&mut self)
        ensures { self.new ≡ unheld self.old }
    {
        self.held = None;
    }
}
