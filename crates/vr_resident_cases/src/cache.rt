//! A cache of 18 blocks of two bytes, with its pool.
ghost use Rattle.std.specs.Prelude.{◌≡◌, ◌<◌, ◌≤◌, All};
ghost use Rattle.std.specs.Arc.{arc_value};
ghost use Rattle.vr_frames.specs.Frames.{frame_size, IsSeatOf};
ghost use Rattle.vr_resident.specs.Cache.{pool_of};

use crate::calls::{BLOCKS, Call, Reply, reply_of};
use std::alloc::Global;
use std::sync::Arc;
use vr_device::BlockDevice;
use vr_frames::{FrameSeat, Pool};
use vr_resident::{Resident, ResidentNo, ResidentWhy, resident, resident_own};
use vr_types::{Blocks, DeviceFault};

/// A cache, and the pool that it takes frames of.
#[derive(Drop)]
pub struct Cache<D: BlockDevice> {
    blocks: Resident<D>,
    pool: Arc<Pool, Global>,
    ghost count: { (D.seen blocks.device).count ≡ 18 },
    ghost size: { (D.seen blocks.device).size ≡ 2 },
    ghost of_pool: { pool_of blocks.frames ≡ arc_value pool },
}

/// What a closed cache leaves: its device, the fault, and how many frames of the pool are home.
#[derive(Drop)]
pub struct Closed<D: BlockDevice> {
    pub device: D,
    pub fault: Option<DeviceFault>,
    pub home: u32,
}

/// Why there is no cache, and how many frames of the pool are home then.
#[derive(Clone, Copy)]
pub struct Refused {
    pub why: ResidentWhy,
    pub home: u32,
}

/// Ends a pool, and answers how many of its frames were home.
fn close_pool(pool: Arc<Pool, Global>, seat: FrameSeat) -> u32
    requires { IsSeatOf (arc_value pool) seat }
{
    match Arc::into_inner(pool) {
        Some(pool) => pool.close(seat),
        None => 0,
    }
}

impl<D: BlockDevice> Cache<D> {
    /// Makes a cache over a device, with buffers of its own or frames of the pool.
    pub fn new(
        alloc: Global,
        own: bool,
        device: D,
        pool: Arc<Pool, Global>,
        other: Arc<Pool, Global>,
        seat: FrameSeat,
    ) -> Result<Cache<D>, Refused>
        requires count { (D.seen device).count ≡ 18 }
        requires size { (D.seen device).size ≡ 2 }
        requires seat { IsSeatOf (arc_value pool) seat }
        requires room { frame_size (arc_value pool) ≡ 2 }
        requires same { arc_value other ≡ arc_value pool }
    {
        let made = if own {
            resident_own(alloc, device, pool, seat)
        } else {
            resident(alloc, device, pool, seat)
        };
        match made {
            Ok(blocks) => Ok(Cache {
                blocks,
                pool: other,
            }),
            Err(no) => Err(Cache::refused(no, other)),
        }
    }

    /// Drops the device, and ends the pool.
    fn refused(no: ResidentNo<D>, pool: Arc<Pool, Global>) -> Refused
        requires { IsSeatOf (arc_value pool) no.seat }
    {
        let ResidentNo {
            device: _,
            seat,
            why,
        } = no;
        Refused {
            why,
            home: close_pool(pool, seat),
        }
    }

    /// Makes a call.
    pub fn call(&mut self, call: Call<'_>) -> Reply {
        match call {
            Call::Get(n) => self.get(n),
            Call::Put(n, bytes) => self.put(n, bytes),
            Call::Force(list) => self.force(list),
            Call::Flush(most) => self.flush(most),
            Call::Give => Reply::Count(self.blocks.give_back()),
        }
    }

    fn get(&mut self, n: u32) -> Reply {
        if n >= BLOCKS {
            return Reply::Outside;
        }
        match self.blocks.get(n) {
            Ok(bytes) => Reply::Bytes([bytes[0], bytes[1]]),
            Err(fault) => Reply::Fault(fault),
        }
    }

    fn put(&mut self, n: u32, bytes: [u8; 2]) -> Reply {
        if n >= BLOCKS {
            return Reply::Outside;
        }
        reply_of(self.blocks.put(n, &bytes))
    }

    fn force(&mut self, list: &[u32]) -> Reply {
        if !list.iter().all(|n| *n < BLOCKS) {
            return Reply::Outside;
        }
        reply_of(self.blocks.force(list))
    }

    fn flush(&mut self, most: u32) -> Reply {
        match self.blocks.flush_turn(most) {
            Ok(count) => Reply::Count(count),
            Err(fault) => Reply::Fault(fault),
        }
    }

    /// Ends the cache and the pool.
    pub fn close(self) -> Closed<D> {
        let Cache { blocks, pool } = self;
        let (device, seat, fault) = blocks.close();
        let home = close_pool(pool, seat);
        Closed {
            device,
            fault,
            home,
        }
    }
}
