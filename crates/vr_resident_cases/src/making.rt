//! How a cache with its pool and device is made.
ghost use Rattle.std.specs.Prelude.{◌≡◌, IfOk};
ghost use Rattle.std.specs.Arc.{arc_value};
ghost use Rattle.vr_frames.specs.Frames.{frame_size, IsSeatOf};

use crate::answers::Stop;
use crate::cache::{Cache, Refused};
use crate::calls::{BLOCKS, SIZE};
use crate::recorder::{Log, Recorder};
use std::alloc::Global;
use std::sync::Arc;
use vr_device::{BlockDevice, MemoryDevice, memory_device};
use vr_frames::{FrameSeat, Pool, pool};

/// The device of each case.
pub type Recorded = Recorder<MemoryDevice>;

/// What a cache is made over: whether its 16 buffers are its own, how many frames the pool has,
/// which call of the device fails, and from which one on all do.
#[derive(Clone, Copy)]
pub struct Setup {
    pub own: bool,
    pub frames: u32,
    pub fails: Option<u64>,
    pub stop: u64,
}

/// A pool, twice, and its seat.
#[derive(Drop)]
struct Room {
    pool: Arc<Pool, Global>,
    other: Arc<Pool, Global>,
    seat: FrameSeat,
}

fn new_pool(alloc: Global, frames: u32) -> Result<Room, Stop>
    ensures seat { IfOk result (λ room. IsSeatOf (arc_value room.pool) room.seat) }
    ensures size { IfOk result (λ room. frame_size (arc_value room.pool) ≡ 2) }
    ensures same { IfOk result (λ room. arc_value room.other ≡ arc_value room.pool) }
{
    let (pool, seat) = pool(alloc, frames, SIZE)?;
    let pool = Arc::new(alloc, pool)?;
    let other = Arc::try_clone(&pool)?;
    Ok(Room { pool, other, seat })
}

fn new_device(alloc: Global, setup: Setup, log: Log) -> Result<Recorded, Stop>
    ensures count { IfOk result (λ d. (⟦<Recorded as BlockDevice>⟧.seen d).count ≡ 18) }
    ensures size { IfOk result (λ d. (⟦<Recorded as BlockDevice>⟧.seen d).size ≡ 2) }
{
    let mut device = match setup.fails {
        Some(call) => memory_device(alloc, SIZE, BLOCKS, &[call])?,
        None => memory_device(alloc, SIZE, BLOCKS, &[])?,
    };
    device.stop(setup.stop);
    Ok(Recorder::over(device, log))
}

/// Makes a cache over a new device, whose calls are logged.
pub fn new_cache(
    alloc: Global,
    setup: Setup,
    log: &Log,
) -> Result<Result<Cache<Recorded>, Refused>, Stop> {
    let room = new_pool(alloc, setup.frames)?;
    let log = log.clone()?;
    let device = new_device(alloc, setup, log)?;
    let Room { pool, other, seat } = room;
    Ok(Cache::new(alloc, setup.own, device, pool, other, seat))
}
