//! The pool is shared between threads, and its seats and frames go from one to another. That they
//! may is proved here, and not only where a crate above first starts a thread.
use crate::frame::Frame;
use crate::seat::FrameSeat;
use crate::shared::Pool;

fn moves<T: Send>() {}

fn shares<T: Sync>() {}

/// Asks of each type what a thread asks of it.
pub(crate) fn pool_and_seats_cross_threads() {
    shares::<Pool>();
    moves::<Pool>();
    moves::<FrameSeat>();
    shares::<FrameSeat>();
    moves::<Frame>();
    shares::<Frame>();
}
