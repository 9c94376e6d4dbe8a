//! How frames go back to the pool.
ghost use Rattle.std.specs.Prelude.{◌≡◌, ◌-◌, ℕ, min, length};
ghost use Rattle.vr_frames.specs.Frames.{IsSeatOf, IsSameSeat, frames_of, parts_of, failed_claims};
ghost use Rattle.vr_resident.specs.Table.{IsFit};
ghost use Rattle.vr_resident.specs.Places.{buffers_of, count_of, gave};
ghost use Rattle.vr_resident.specs.Cache.{IsFramed, IsSeated, GivesAt, KeepsSeat, others, pool_of};
ghost use Rattle.vr_resident.specs.declared.place.Sought.TheVariants.{Free, Shared};

use crate::frames::Frames;
use crate::place::{Buffer, Sought};
use crate::table::{buffer_count, last_fit, lift};
use vr_frames::FrameSeat;

/// Gives the frame of a place back to the pool, whatever block it holds.
fn give(frames: &mut Frames, number: u32)
    requires seated { IsSeated frames.old }
    requires shared { IsFit Shared frames.old.table.entries number }
    ensures given { GivesAt number frames.old frames.new }
    ensures claims { (k : ℕ) → failed_claims frames.new.seat k ≡ failed_claims frames.old.seat k }
    ensures seated { IsSeated frames.new }
    ensures seat { KeepsSeat frames.old frames.new }
{
    match lift(&mut frames.table, number) {
        Buffer::Shared(frame) => frames.pool.give(&mut frames.seat, frame),
        Buffer::Own(_) => unreachable!(),
    }
}

/// Gives clean frames back until 16 are left or none is clean, the least recently used first, and
/// answers how many.
pub(crate) fn give_back(frames: &mut Frames) -> u32
    requires { IsFramed frames.old }
    ensures gave { frames.new.table.entries ≡ gave result frames.old.table.entries }
    ensures count { result ≡ min (length (buffers_of frames.old.table.entries) - 16)
        (count_of Free frames.old.table.entries) }
    ensures framed { IsFramed frames.new }
    ensures seat { KeepsSeat frames.old frames.new }
{
    let spare = buffer_count(&frames.table) - 16;
    for given in 0..spare {
        match last_fit(&frames.table, Sought::Free) {
            None => return given,
            Some(number) => give(frames, number),
        }
    }
    spare
}

/// Gives every frame of the pool back, and ends the cache. The blocks in them are lost.
pub(crate) fn give_all(frames: Frames) -> FrameSeat
    requires { IsSeated frames }
    ensures home { frames_of result ≡ others frames }
    ensures of_pool { IsSeatOf (pool_of frames) result }
    ensures same { IsSameSeat frames.seat result }
    ensures parts { parts_of result ≡ parts_of frames.seat }
    ensures claims { (k : ℕ) → failed_claims result k ≡ failed_claims frames.seat k }
{
    let mut left = frames;
    while let Some(number) = last_fit(&left.table, Sought::Shared) {
        give(&mut left, number);
    }
    let Frames {
        table: _,
        pool: _,
        seat,
        size: _,
    } = left;
    seat
}
