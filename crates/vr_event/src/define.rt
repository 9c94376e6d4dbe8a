//! What DEFINE of a cluster comes to.

use vr_types::{AreaNo, DeviceFault};

/// What one event of a DEFINE CLUSTER came to.
#[derive(Clone, Copy, PartialEq, Eq)]
pub enum Define {
    /// The cluster is in the catalog, and its part is laid, without records, from this area on.
    Done { area: AreaNo },
    /// A stage of a split of the catalog was done, which comes first: it is to be asked again.
    Again,
    /// No area is free.
    NoArea,
    /// The catalog has no room for the record, and can take no area for it.
    NoRoom,
    /// A lock of another unit of recovery is on the place of the record.
    Held,
    /// The log has no room for the record of the definition and its end.
    Full,
    /// The device failed. A fault of a write stops the volume.
    Fault(DeviceFault),
}
