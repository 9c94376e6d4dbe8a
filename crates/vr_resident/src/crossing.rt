//! A cache goes to another thread with its volume. That it may is proved here, and not only where a
//! crate above first starts a thread.
use crate::frames::Frames;
use crate::write_back::Resident;
use vr_device::MemoryDevice;

fn moves<T: Send>() {}

/// Asks of the frames of a cache, and of a cache over a device in memory, what a thread asks.
pub(crate) fn caches_cross_threads() {
    moves::<Frames>();
    moves::<Resident<MemoryDevice>>();
}
