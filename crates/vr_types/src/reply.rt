//! What a request is answered.
ghost use Rattle.std.specs.Prelude.{◌≡◌, IfOk};
ghost use Rattle.vr_types.specs.Refusal.{feedback_code};

use crate::lock_name::LockName;
use crate::memory::OutOfMemory;
use crate::request::copy_of_place;
use crate::unit::{Mode, PartNo, Unit};
use crate::values::{Bytes, Place};
use std::alloc::Global;

/// Why a request was refused. Lengths are in bytes, needs and free space in areas of a volume, and
/// the log's numbers in bytes.
#[derive(Debug, Drop, PartialEq, Eq)]
pub enum Refusal {
    /// No record is left for a sequential GET.
    EndOfData,
    /// A record of `part` has the place, or the key of a unique alternate index, already.
    Duplicate {
        part: PartNo,
    },
    /// No record at the key or slot that was asked for.
    NotFound,
    /// No record begins at the relative byte address that was asked for.
    NoAddress,
    /// The place needs `need` areas, and fewer are free.
    NoSpace {
        need: u64,
        free: u32,
    },
    /// A sequential GET with no position.
    NoPosition,
    /// An update or erase with nothing held for update.
    NoGet,
    /// An update that changes the key by which the record was found.
    KeyChanged,
    /// An update that changes the length of an entry-sequenced record.
    LengthChanged,
    /// A record, or a key, of a length that isn't valid.
    BadLength {
        length: u32,
    },
    /// Slot 0.
    BadSlot,
    /// A lock of another unit is in the way.
    Held {
        holder: Unit,
        name: LockName,
        mode: Mode,
    },
    /// The log has `used` of `size` bytes in use, and the request needs `need` more.
    LogFull {
        used: u64,
        need: u64,
        size: u64,
    },
    /// A write or sync of this volume failed earlier in this run, at the stamp.
    Stopped {
        stamp: u64,
    },
    /// The device failed to read.
    ReadFault,
    /// The device failed to write or to sync.
    WriteFault,
    /// Memory ran out.
    Memory,
    /// A request that doesn't go with the kind of the data set.
    NotAllowed,
    /// No data set that can be opened has the name.
    NoFile,
}

impl Refusal {
    /// The feedback number that the listing shows: that of Using Data Sets up to 192, this
    /// project's own from 901 on.
    pub fn code(&self) -> u16
        ensures { result ≡ feedback_code self.now }
    {
        match self {
            Refusal::EndOfData => 4,
            Refusal::Duplicate { .. } => 8,
            Refusal::NotFound => 16,
            Refusal::NoSpace { .. } => 28,
            Refusal::NoAddress => 32,
            Refusal::NoPosition => 88,
            Refusal::NoGet => 92,
            Refusal::KeyChanged => 96,
            Refusal::LengthChanged => 100,
            Refusal::BadLength { .. } => 108,
            Refusal::BadSlot => 192,
            Refusal::Held { .. } => 901,
            Refusal::LogFull { .. } => 902,
            Refusal::Stopped { .. } => 903,
            Refusal::ReadFault => 904,
            Refusal::WriteFault => 905,
            Refusal::Memory => 906,
            Refusal::NotAllowed => 907,
            Refusal::NoFile => 908,
        }
    }

    /// Copies the value; fails only if memory runs out.
    pub fn copy(&self, alloc: Global) -> Result<Refusal, OutOfMemory>
        ensures { IfOk result (λ copy. copy ≡ self.now) }
    {
        Ok(match self {
            Refusal::Held { holder, name, mode } => Refusal::Held {
                holder: *holder,
                name: name.copy(alloc)?,
                mode: *mode,
            },
            Refusal::EndOfData => Refusal::EndOfData,
            Refusal::Duplicate { part } => Refusal::Duplicate { part: *part },
            Refusal::NotFound => Refusal::NotFound,
            Refusal::NoAddress => Refusal::NoAddress,
            Refusal::NoSpace { need, free } => Refusal::NoSpace {
                need: *need,
                free: *free,
            },
            Refusal::NoPosition => Refusal::NoPosition,
            Refusal::NoGet => Refusal::NoGet,
            Refusal::KeyChanged => Refusal::KeyChanged,
            Refusal::LengthChanged => Refusal::LengthChanged,
            Refusal::BadLength { length } => Refusal::BadLength { length: *length },
            Refusal::BadSlot => Refusal::BadSlot,
            Refusal::LogFull { used, need, size } => Refusal::LogFull {
                used: *used,
                need: *need,
                size: *size,
            },
            Refusal::Stopped { stamp } => Refusal::Stopped { stamp: *stamp },
            Refusal::ReadFault => Refusal::ReadFault,
            Refusal::WriteFault => Refusal::WriteFault,
            Refusal::Memory => Refusal::Memory,
            Refusal::NotAllowed => Refusal::NotAllowed,
            Refusal::NoFile => Refusal::NoFile,
        })
    }
}

/// The answer to a request. `feedback` is 0, or 8 where another record has the same alternate key.
/// `place` is the base record's.
#[derive(Debug, Drop, PartialEq, Eq)]
pub enum Reply {
    Done {
        feedback: u16,
        place: Option<Place>,
        bytes: Option<Bytes>,
    },
    Refused(Refusal),
}

impl Reply {
    /// Copies the value; fails only if memory runs out.
    pub fn copy(&self, alloc: Global) -> Result<Reply, OutOfMemory>
        ensures { IfOk result (λ copy. copy ≡ self.now) }
    {
        match self {
            Reply::Done {
                feedback,
                place,
                bytes,
            } => Ok(Reply::Done {
                feedback: *feedback,
                place: copy_of_place(alloc, place)?,
                bytes: copy_of_bytes(alloc, bytes)?,
            }),
            Reply::Refused(refusal) => Ok(Reply::Refused(refusal.copy(alloc)?)),
        }
    }
}

/// A copy of the bytes, where there are some.
fn copy_of_bytes(alloc: Global, bytes: &Option<Bytes>) -> Result<Option<Bytes>, OutOfMemory>
    ensures { IfOk result (λ copy. copy ≡ bytes.now) }
{
    match bytes {
        None => Ok(None),
        Some(bytes) => Ok(Some(bytes.copy(alloc)?)),
    }
}
