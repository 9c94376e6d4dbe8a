//! The state of a volume as plain lists.
ghost use Rattle.std.specs.Prelude.{◌≡◌, ℕ, ◌∷◌, [], List, Bool, IfOk, Some, None};
ghost use Rattle.std.specs.Option.{option_copied, option_map};
ghost use Rattle.vr_model_state.specs.Items.{item_of};

use crate::content::Stored;
use crate::contents::Contents;
use crate::shape::Shape;
use std::alloc::Global;
use std::marker::Model;
use vr_types::{Geometry, LockName, Mode, OutOfMemory, Place, Position, Stand, Unit};

/// A lock: on what, of which unit of recovery, and how it is held.
#[derive(Drop)]
pub struct HeldLock {
    pub name: LockName,
    pub unit: Unit,
    pub mode: Mode,
}

impl Model for HeldLock {
    ghost use Rattle.vr_types.specs.Locks.{Lock};

    ghost Value = { Lock };

    ghost view = { λ lock. record { name = lock.name; unit = lock.unit; mode = lock.mode } };
}

impl HeldLock {
    /// An equal value; fails only if memory runs out.
    pub fn copy(&self, alloc: Global) -> Result<HeldLock, OutOfMemory>
        ensures { IfOk result (λ copy. copy ≡ self.now) }
    {
        Ok(HeldLock {
            name: self.name.copy(alloc)?,
            unit: self.unit,
            mode: self.mode,
        })
    }
}

/// What stood at a place of a cluster before a unit first changed it.
#[derive(Drop)]
pub struct KeptImage {
    pub unit: Unit,
    pub part: u32,
    pub place: Place,
    pub old: Option<Stored>,
}

impl Model for KeptImage {
    ghost use Rattle.vr_history.specs.State.{BeforeImage};

    ghost Value = { BeforeImage };

    ghost use Rattle.std.specs.Prelude.{option_map};
    ghost use Rattle.vr_model_state.specs.Items.{item_of};

    ghost view = { λ kept. record {
      unit = kept.unit;
      part = kept.part;
      place = kept.place;
      old = option_map item_of kept.old;
    } };
}

impl KeptImage {
    /// An equal value; fails only if memory runs out.
    pub fn copy(&self, alloc: Global) -> Result<KeptImage, OutOfMemory>
        ensures { IfOk result (λ copy. copy ≡ self.now) }
    {
        Ok(KeptImage {
            unit: self.unit,
            part: self.part,
            place: self.place.copy(alloc)?,
            old: copy_of_stored(alloc, &self.old)?,
        })
    }
}

/// A copy of what is stored, if something is.
pub fn copy_of_stored(alloc: Global, stored: &Option<Stored>) -> Result<Option<Stored>, OutOfMemory>
    ensures { IfOk result (λ copy. copy ≡ stored.now) }
{
    match stored {
        None => Ok(None),
        Some(stored) => Ok(Some(stored.copy(alloc)?)),
    }
}

/// A place for which the log has a before record of a unit.
#[derive(Drop)]
pub struct LoggedPlace {
    pub unit: Unit,
    pub part: u32,
    pub place: Place,
}

impl Model for LoggedPlace {
    ghost use Rattle.vr_history.specs.State.{Logged};

    ghost Value = { Logged };

    ghost view = { λ logged. record {
      unit = logged.unit;
      part = logged.part;
      place = logged.place;
    } };
}

impl LoggedPlace {
    /// An equal value; fails only if memory runs out.
    pub fn copy(&self, alloc: Global) -> Result<LoggedPlace, OutOfMemory>
        ensures { IfOk result (λ copy. copy ≡ self.now) }
    {
        Ok(LoggedPlace {
            unit: self.unit,
            part: self.part,
            place: self.place.copy(alloc)?,
        })
    }
}

/// An area, and the part that has it.
#[derive(Drop)]
pub struct OwnedArea {
    pub area: u32,
    pub part: u32,
}

impl Model for OwnedArea {
    ghost use Rattle.vr_history.specs.State.{Owned};

    ghost Value = { Owned };

    ghost view = { λ owned. record { area = owned.area; part = owned.part } };
}

impl OwnedArea {
    /// An equal value.
    pub fn copy(&self) -> OwnedArea
        ensures { result ≡ self.now }
    {
        OwnedArea {
            area: self.area,
            part: self.part,
        }
    }
}

/// Where a file of a deck stands, and what it holds for update.
#[derive(Drop)]
pub struct FilePosition {
    pub deck: u32,
    pub slot: u32,
    pub position: Position,
}

impl FilePosition {
    /// An equal value; fails only if memory runs out.
    pub fn copy(&self, alloc: Global) -> Result<FilePosition, OutOfMemory>
        ensures { IfOk result (λ copy. copy ≡ self.now) }
    {
        Ok(FilePosition {
            deck: self.deck,
            slot: self.slot,
            position: self.position.copy(alloc)?,
        })
    }
}

/// The state of a volume: the contents of its parts, the locks, before-images and log records of
/// units of recovery, the bytes of the log in use, where files stand, the number of each deck's
/// unit, the areas that are owned, and the stamp of the write fault that stopped it. Of several
/// contents of one part, positions of one file or numbers of one deck the first counts; a part
/// without one is empty, a file without one stands at its start, and a deck's first unit is 1.
#[derive(Drop)]
pub struct FileState {
    pub shape: Shape,
    pub contents: Contents,
    pub locks: Vec<HeldLock>,
    pub befores: Vec<KeptImage>,
    pub logged: Vec<LoggedPlace>,
    pub used: u64,
    pub positions: Vec<FilePosition>,
    pub numbers: Vec<(u32, u64)>,
    pub owned: Vec<OwnedArea>,
    pub stopped: Option<u64>,
}
