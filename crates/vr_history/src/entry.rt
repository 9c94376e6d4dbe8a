//! An entry of a history: what an event did.
ghost use Rattle.std.specs.Prelude.{◌≡◌, IfOk};

use std::alloc::Global;
use vr_types::{AreaNo, DeviceFault, OutOfMemory, PartNo, Place, Reply, SharedRequest, Unit};

/// An entry of a volume's history: what an event did, for which unit of recovery, and at which line
/// of the job text. Stamps rise within a history. Line 0 is that of what no line asked for.
#[derive(Drop)]
pub struct Entry {
    pub stamp: u64,
    pub unit: Unit,
    pub line: u32,
    pub what: What,
}

impl Entry {
    /// An equal value, which shares the request. Fails only if memory runs out.
    pub fn copy(&self, alloc: Global) -> Result<Entry, OutOfMemory>
        ensures { IfOk result (λ copy. copy ≡ self.now) }
    {
        Ok(Entry {
            stamp: self.stamp,
            unit: self.unit,
            line: self.line,
            what: self.what.copy(alloc)?,
        })
    }
}

/// What an entry reports: a request, which it shares with its deck, with the reply; a before-image
/// put back; an area claimed; an interval split; or a device fault that stopped the volume.
#[derive(Drop)]
pub enum What {
    Asked {
        request: SharedRequest,
        reply: Reply,
    },
    Undone {
        part: PartNo,
        place: Place,
    },
    Claimed {
        part: PartNo,
        area: AreaNo,
    },
    Split {
        part: PartNo,
    },
    Faulted {
        fault: DeviceFault,
    },
}

impl What {
    /// An equal value, which shares the request. Fails only if memory runs out.
    pub fn copy(&self, alloc: Global) -> Result<What, OutOfMemory>
        ensures { IfOk result (λ copy. copy ≡ self.now) }
    {
        match self {
            What::Asked { request, reply } => Ok(What::Asked {
                request: request.share()?,
                reply: reply.copy(alloc)?,
            }),
            What::Undone { part, place } => Ok(What::Undone {
                part: *part,
                place: place.copy(alloc)?,
            }),
            What::Claimed { part, area } => Ok(What::Claimed {
                part: *part,
                area: *area,
            }),
            What::Split { part } => Ok(What::Split { part: *part }),
            What::Faulted { fault } => Ok(What::Faulted { fault: *fault }),
        }
    }
}
