//! What one event of an edit of the catalog came to.

use vr_types::DeviceFault;

/// What one event of an edit of the catalog came to.
#[derive(Clone, Copy, PartialEq, Eq)]
pub enum Edit {
    /// The edit is made; the part that goes with a cluster is no longer laid, and its areas are free.
    Done,
    /// A stage of a split of the catalog was done, which comes first: it is to be asked again.
    Again,
    /// A lock of another unit of recovery is on the place of one of its records.
    Held,
    /// A unit of recovery is live on the volume.
    Live,
    /// The log has no room for the records of the edit and the end of its unit.
    Full,
    /// The catalog has no room for the record that is added, and no area is free for it.
    NoRoom,
    /// The device failed. A fault of a write stops the volume.
    Fault(DeviceFault),
}
