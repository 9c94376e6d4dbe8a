//! The records of the log.
ghost use Rattle.std.specs.Prelude.{◌≡◌, IfOk};

use std::alloc::Global;
use vr_types::{Bytes, OutOfMemory, PartNo, Place, Unit};

/// How a unit of recovery ended.
#[derive(Clone, Copy, PartialEq, Eq)]
pub enum EndKind {
    Committed,
    BackedOut,
}

/// A record of the log: a before-image, which is what was at a place of a part before the unit
/// first changed it, or the end of a unit.
#[derive(Drop)]
pub enum LogRecord {
    Before {
        unit: Unit,
        part: PartNo,
        place: Place,
        old: Option<Bytes>,
    },
    End {
        unit: Unit,
        kind: EndKind,
    },
}

impl LogRecord {
    /// An equal value. Fails only if memory runs out.
    pub fn copy(&self, alloc: Global) -> Result<LogRecord, OutOfMemory>
        ensures { IfOk result (λ copy. copy ≡ self.now) }
    {
        match self {
            LogRecord::Before {
                unit,
                part,
                place,
                old,
            } => Ok(LogRecord::Before {
                unit: *unit,
                part: *part,
                place: place.copy(alloc)?,
                old: copy_old(alloc, old)?,
            }),
            LogRecord::End { unit, kind } => Ok(LogRecord::End {
                unit: *unit,
                kind: *kind,
            }),
        }
    }
}

/// A before-image without its unit: the part, the place, and the record that was there, if any.
#[derive(Drop)]
pub struct Before {
    pub part: PartNo,
    pub place: Place,
    pub old: Option<Bytes>,
}

impl Before {
    /// An equal value. Fails only if memory runs out.
    pub fn copy(&self, alloc: Global) -> Result<Before, OutOfMemory>
        ensures { IfOk result (λ copy. copy ≡ self.now) }
    {
        Ok(Before {
            part: self.part,
            place: self.place.copy(alloc)?,
            old: copy_old(alloc, &self.old)?,
        })
    }
}

/// Where a record begins in the log: the block, and the byte in it.
#[derive(Clone, Copy, PartialEq, Eq)]
pub struct LogPlace {
    pub block: u32,
    pub at: u32,
}

/// A copy of what was at a place.
fn copy_old(alloc: Global, old: &Option<Bytes>) -> Result<Option<Bytes>, OutOfMemory>
    ensures { IfOk result (λ copy. copy ≡ old.now) }
{
    match old {
        Some(bytes) => Ok(Some(bytes.copy(alloc)?)),
        None => Ok(None),
    }
}
