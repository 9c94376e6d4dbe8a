//! How resident blocks are made.
ghost use Rattle.std.specs.Prelude.{◌≡◌, ◌<◌, ◌≤◌, ℕ, IfOk, IfErr, IfNone, IfSome, OnOk};
ghost use Rattle.std.specs.Arc.{arc_value};
ghost use Rattle.lru.specs.LruCache.{lru_cache};
ghost use Rattle.vr_frames.specs.Frames.{failed_claims};
ghost use Rattle.vr_resident.specs.Making.{bare_places, IsTaken, FoundAllOut, RunsOut};
ghost use Rattle.vr_resident.specs.Cache.{IsSeated, KeepsSeat, bare_count, pool_of};

use crate::frames::Frames;
use crate::place::{Buffer, Place, Sought};
use crate::room::take_frame;
use crate::table::{Table, change, last_fit};
use lru::LruCache;
use std::alloc::{AllocError, Global};
use std::num::NonZeroUsize;

/// A table of 64 bare places.
pub(crate) fn bare_table(alloc: Global) -> Result<Table, AllocError>
    ensures { IfOk result (λ table. table ≡ lru_cache (bare_places 64) 64) }
{
    let mut table = LruCache::new(alloc, NonZeroUsize::new(64).unwrap())?;
    for number in 0..64 {
        table.put(number, Place::Bare)?;
    }
    Ok(table)
}

/// Takes 16 frames of the pool. `Some` is how many it got, where a further one was not home.
pub(crate) fn take_sixteen(frames: &mut Frames) -> Option<u32>
    requires seated { IsSeated frames.old }
    requires bare { 16 ≤ bare_count frames.old }
    ensures all { IfNone result (IsTaken 16 frames.old frames.new) }
    ensures fewer { IfSome result (λ got. got < 16) }
    ensures out { IfSome result
        (λ got. FoundAllOut (pool_of frames.old) frames.old.seat frames.new.seat) }
    ensures after { IfSome result
        (λ got. RunsOut (pool_of frames.old) got frames.old.seat frames.new.seat) }
    ensures seated { IsSeated frames.new }
    ensures seat { KeepsSeat frames.old frames.new }
{
    for got in 0..16 {
        let bare = last_fit(&frames.table, Sought::Bare);
        if take_frame(frames, bare).is_none() {
            return Some(got);
        }
    }
    None
}

/// Makes 16 buffers of the cache's own.
pub(crate) fn own_sixteen(alloc: Global, frames: &mut Frames) -> Result<(), AllocError>
    requires seated { IsSeated frames.old }
    requires bare { 16 ≤ bare_count frames.old }
    ensures all { OnOk result (IsTaken 16 frames.old frames.new) }
    ensures seated { IsSeated frames.new }
    ensures seat { KeepsSeat frames.old frames.new }
{
    for _got in 0..16u32 {
        own_one(alloc, frames)?;
    }
    Ok(())
}

/// Makes one.
fn own_one(alloc: Global, frames: &mut Frames) -> Result<(), AllocError>
    requires seated { IsSeated frames.old }
    requires bare { 1 ≤ bare_count frames.old }
    ensures all { OnOk result (IsTaken 1 frames.old frames.new) }
    ensures seated { IsSeated frames.new }
    ensures seat { KeepsSeat frames.old frames.new }
{
    let bytes = vec![in alloc; 0u8; frames.size as usize]?;
    let number = last_fit(&frames.table, Sought::Bare).unwrap();
    let place = Place::Empty(Buffer::Own(bytes));
    drop(change(&mut frames.table, number, place));
    Ok(())
}
