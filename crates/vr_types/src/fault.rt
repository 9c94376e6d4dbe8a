//! What a source, a sink or a device answers when it fails.

/// A source, a sink or a device failed. Its fault count says how often.
#[derive(Clone, Copy, PartialEq, Eq)]
pub struct Failed;

/// A device failed to read, or to write or sync.
#[derive(Clone, Copy, PartialEq, Eq)]
pub enum DeviceFault {
    Read,
    Write,
}
