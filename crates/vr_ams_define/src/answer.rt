//! What a volume answers to a DEFINE of a cluster, to an edit of its catalog, to LISTCAT ALL, to
//! PRINT.

use vr_trace::Statistics;
use vr_types::{AreaNo, DeviceFault};

/// What one event of a DEFINE of a cluster came to.
#[derive(Clone, Copy)]
pub enum Defined {
    /// The cluster is in the catalog, without records, from this area on.
    Done { area: AreaNo },
    /// A stage was done that has to come first: ask again.
    Again,
    /// No area is free for the cluster.
    NoArea,
    /// The catalog has no room for the record, and no area is free for it.
    NoRoom,
    /// A lock of a unit of recovery is on the place of the record.
    Held,
    /// The log has no room for the change.
    Full,
    /// The device failed. A write that fails stops the volume.
    Fault(DeviceFault),
}

/// What counting a cluster came to.
#[derive(Clone, Copy)]
pub enum Counted {
    Done(Statistics),
    /// The device failed. A write that fails stops the volume.
    Fault(DeviceFault),
}

/// What reading a cluster through came to.
#[derive(Clone, Copy)]
pub enum ReadBack {
    /// The visitor has the records, up to the one with which it was done.
    Done,
    /// The device failed. A write that fails stops the volume.
    Fault(DeviceFault),
}

/// What one event of an edit of the catalog, by ALTER, DELETE, or DEFINE of an alternate index or a
/// path, came to.
#[derive(Clone, Copy)]
pub enum Changed {
    /// The catalog has the edit. With a cluster that is deleted its records went, and its areas are
    /// free.
    Done,
    /// A stage was done that has to come first: ask again.
    Again,
    /// The catalog has no room for the new record, and no area is free for it.
    NoRoom,
    /// A lock of a unit of recovery is on the place of a record.
    Held,
    /// A unit of recovery is live on the volume.
    Live,
    /// The log has no room for the edit.
    Full,
    /// The device failed. A write that fails stops the volume.
    Fault(DeviceFault),
}
