//! The frames of a cache: the table of places, the pool and the seat.
use crate::table::Table;
use std::alloc::Global;
use std::sync::Arc;
use vr_frames::{FrameSeat, Pool};

/// The places, the pool that further frames come from, and its seat. Each buffer has room for
/// `size` bytes.
#[derive(Drop)]
pub struct Frames {
    pub(crate) table: Table,
    pub(crate) pool: Arc<Pool, Global>,
    pub(crate) seat: FrameSeat,
    pub(crate) size: u32,
}
