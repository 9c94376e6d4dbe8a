//! Four threads at one pool of frames. No plain program computes what threads do, so this stands in
//! for one.
ghost use Rattle.std.specs.Prelude.{◌≡◌, ◌+◌, []};
ghost use Rattle.vr_frames.specs.Frames.{frames_of, parts_of, IsSeatOf};

use std::alloc::Global;
use std::thread;
use std::thread::Threads;
use vr_frames::{FrameSeat, Pool, pool};
use vr_types::OutOfMemory;

/// The takes of each thread.
const TURNS: u32 = 4000;

/// Takes a frame, writes the mark into each byte, finds it there again, and gives the frame back.
fn turn(pool: &Pool, seat: &mut FrameSeat, mark: u8) -> bool
    requires seat { IsSeatOf pool.now seat.old }
    requires empty { frames_of seat.old ≡ [] }
    ensures seat { IsSeatOf pool.now seat.new }
    ensures parts { parts_of seat.new ≡ parts_of seat.old }
    ensures empty { frames_of seat.new ≡ [] }
{
    let Some(mut frame) = pool.take(seat) else {
        return true;
    };
    for byte in frame.bytes_mut().iter_mut() {
        *byte = mark;
    }
    thread::yield_now();
    let found = frame.bytes().iter().all(|byte| *byte == mark);
    pool.give(seat, frame);
    found
}

/// Many turns of one thread.
fn turns(pool: &Pool, mut seat: FrameSeat, mark: u8) -> (FrameSeat, bool)
    requires { IsSeatOf pool.now seat × (frames_of seat ≡ []) }
    ensures { IsSeatOf pool.now result.0
        × (parts_of result.0 ≡ parts_of seat)
        × (frames_of result.0 ≡ []) }
{
    let mut found = true;
    for _ in 0..TURNS {
        found &= turn(pool, &mut seat, mark);
    }
    (seat, found)
}

/// Two threads, each with a mark of its own. Then one seat has what both had.
fn two<R: Threads + Sync>(
    rt: &R,
    pool: &Pool,
    one: FrameSeat,
    other: FrameSeat,
    marks: (u8, u8),
) -> (FrameSeat, bool)
    requires one { IsSeatOf pool.now one × (frames_of one ≡ []) }
    requires other { IsSeatOf pool.now other × (frames_of other ≡ []) }
    ensures { IsSeatOf pool.now result.0
        × (parts_of result.0 ≡ parts_of one + parts_of other)
        × (frames_of result.0 ≡ []) }
{
    let ((mut seat, found), (rest, also)) = thread::join(
        rt,
        move ||
            requires { IsSeatOf pool.now one × (frames_of one ≡ []) }
            ensures { IsSeatOf pool.entry.now result.0
                × (parts_of result.0 ≡ parts_of one)
                × (frames_of result.0 ≡ []) }
        { turns(pool, one, marks.0) },
        move ||
            requires { IsSeatOf pool.now other × (frames_of other ≡ []) }
            ensures { IsSeatOf pool.entry.now result.0
                × (parts_of result.0 ≡ parts_of other)
                × (frames_of result.0 ≡ []) }
        { turns(pool, other, marks.1) },
    );
    pool.join(&mut seat, rest);
    (seat, found && also)
}

/// Four threads at a pool of that many frames: whether each found its marks, and how many frames
/// came home.
pub fn four<R: Threads + Sync>(
    rt: &R,
    alloc: Global,
    frames: u32,
    size: u32,
) -> Result<(bool, u32), OutOfMemory> {
    let (pool, mut a) = pool(alloc, frames, size)?;
    let shared = &pool;
    let b = shared.split(&mut a);
    let c = shared.split(&mut a);
    let d = shared.split(&mut a);
    let ((mut seat, found), (rest, also)) = thread::join(
        rt,
        move ||
            requires { (IsSeatOf shared.now a × (frames_of a ≡ []))
                × (IsSeatOf shared.now b × (frames_of b ≡ [])) }
            ensures { IsSeatOf shared.entry.now result.0 × (frames_of result.0 ≡ []) }
        { two(rt, shared, a, b, (1, 2)) },
        move ||
            requires { (IsSeatOf shared.now c × (frames_of c ≡ []))
                × (IsSeatOf shared.now d × (frames_of d ≡ [])) }
            ensures { IsSeatOf shared.entry.now result.0 × (frames_of result.0 ≡ []) }
        { two(rt, shared, c, d, (3, 4)) },
    );
    shared.join(&mut seat, rest);
    Ok((found && also, pool.close(seat)))
}
