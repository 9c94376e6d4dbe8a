//! A seat at the pool.
ghost use Rattle.std.specs.Prelude.{◌≡◌, ◌<◌, ◌≤◌, length};

use crate::view::{Buffer, View};
use atomic_table::Seat;

/// The seat of a volume at the pool, with which it takes frames and gives them back. It may go to
/// another thread.
///
/// A seat has one or more of the pool's 1,024 parts. The seat that has all knows where each frame
/// is.
#[derive(Drop)]
pub struct FrameSeat {
    pub(crate) place: Seat<Option<Buffer>, View>,
    /// Where the next search begins: after the frame that was taken last.
    pub(crate) next: usize,
    ghost rests: { (length place.me.1 ≡ 0) × (length place.me.0.moving ≡ 0) },
    ghost has_part: { 0 < place.me.0.parts },
    ghost near: { next ≤ place.table_id.slots },
}
