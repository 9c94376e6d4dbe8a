//! Runs of calls by number, of the cache and of the plain one.

use crate::answers::{Answer, Stop};
use crate::cache::{Cache, Closed};
use crate::calls::{BLOCKS, Call};
use crate::judge::Judged;
use crate::left::judge_left;
use crate::making::{Recorded, Setup, new_cache};
use crate::plain::Plain;
use crate::plain_disk::PlainDisk;
use crate::recorder::{Log, is_logged, new_log};
use std::alloc::Global;
use vr_device::MemoryDevice;

/// How many calls of the device fill the cache: a read for every other block.
const FILLING: u64 = 8;

/// Runs of some calls after 16 that fill the cache.
#[derive(Clone, Copy)]
pub struct Kind {
    own: bool,
    frames: u32,
    calls: u32,
    runs: u32,
    failing: bool,
}

impl Kind {
    /// All runs of three calls, in which each call of the device fails in turn, alone and with all
    /// after it.
    pub fn short(own: bool, frames: u32) -> Kind {
        Kind {
            own,
            frames,
            calls: 3,
            runs: 1331,
            failing: true,
        }
    }

    /// All runs of four calls, in which no call of the device fails.
    pub fn long(own: bool, frames: u32) -> Kind {
        Kind {
            own,
            frames,
            calls: 4,
            runs: 14641,
            failing: false,
        }
    }

    fn setup(&self, fails: Option<u64>, stop: u64) -> Setup {
        Setup {
            own: self.own,
            frames: self.frames,
            fails,
            stop,
        }
    }
}

/// One of the eleven calls of which runs are made. Once the cache is filled, block 0 is the least
/// recently used and changed, block 1 is the next and isn't changed, and 16 and 17 are not held.
fn call_of(number: u32, turn: u8) -> Call<'static> {
    match number % 11 {
        0 => Call::Get(0),
        1 => Call::Get(1),
        2 => Call::Get(16),
        3 => Call::Get(17),
        4 => Call::Put(0, [1, turn]),
        5 => Call::Put(1, [2, turn]),
        6 => Call::Put(16, [3, turn]),
        7 => Call::Put(17, [4, turn]),
        8 => Call::Force(&[0, 16]),
        9 => Call::Flush(1),
        _ => Call::Give,
    }
}

/// One of the calls that fill the cache: every other block is put.
fn filling(n: u8) -> Call<'static> {
    if n % 2 == 0 {
        Call::Put(u32::from(n), [240, n])
    } else {
        Call::Get(u32::from(n))
    }
}

/// Judges all runs of a kind.
pub fn judge_kind(alloc: Global, kind: Kind, judged: &mut Judged) -> Answer {
    for number in 0..kind.runs {
        judge_number(alloc, kind, number, judged)?;
    }
    Ok(())
}

/// Judges the run of that number, and those in which one of its calls of the device fails.
fn judge_number(alloc: Global, kind: Kind, number: u32, judged: &mut Judged) -> Answer {
    let calls = judge_run(alloc, kind, kind.setup(None, u64::MAX), number, judged)?;
    if kind.failing {
        judge_failing(alloc, kind, number, calls, judged)?;
    }
    Ok(())
}

fn judge_failing(
    alloc: Global,
    kind: Kind,
    number: u32,
    calls: u64,
    judged: &mut Judged,
) -> Answer {
    for call in FILLING..calls {
        judge_run(
            alloc,
            kind,
            kind.setup(Some(call), u64::MAX),
            number,
            judged,
        )?;
        judge_run(alloc, kind, kind.setup(None, call), number, judged)?;
    }
    Ok(())
}

/// Judges a run, and answers how many calls of the device it made.
fn judge_run(
    alloc: Global,
    kind: Kind,
    setup: Setup,
    number: u32,
    judged: &mut Judged,
) -> Result<u64, Stop> {
    let disk = PlainDisk::new(alloc, setup.fails, setup.stop)?;
    let taken = if setup.own { 0 } else { 16 };
    let home = setup.frames.saturating_sub(taken);
    let mut plain = Plain::new(alloc, setup.own, home, disk)?;
    match judge_plain(alloc, kind, setup, number, &mut plain, judged) {
        Ok(()) => Ok(plain.disk().calls().len() as u64),
        Err(stop) => Err(stop),
    }
}

fn judge_plain(
    alloc: Global,
    kind: Kind,
    setup: Setup,
    number: u32,
    plain: &mut Plain,
    judged: &mut Judged,
) -> Answer {
    let log = new_log(alloc)?;
    match new_cache(alloc, setup, &log) {
        Ok(Ok(cache)) => judge_cache(alloc, kind, number, cache, &log, plain, judged),
        Ok(Err(_)) => {
            judged.count(false);
            Ok(())
        }
        Err(stop) => Err(stop),
    }
}

fn judge_cache(
    alloc: Global,
    kind: Kind,
    number: u32,
    mut cache: Cache<Recorded>,
    log: &Log,
    plain: &mut Plain,
    judged: &mut Judged,
) -> Answer {
    let called = judge_calls(&mut cache, kind, number, log, plain, judged);
    let closed = cache.close();
    match called {
        Ok(()) => judge_closed(alloc, kind, &closed, log, plain, judged),
        Err(stop) => Err(stop),
    }
}

/// Fills the cache, and makes the calls of the run.
fn judge_calls(
    cache: &mut Cache<Recorded>,
    kind: Kind,
    number: u32,
    log: &Log,
    plain: &mut Plain,
    judged: &mut Judged,
) -> Answer {
    for n in 0..16u8 {
        judge_call(cache, filling(n), log, plain, judged)?;
    }
    judge_script(cache, kind, number, log, plain, judged)
}

fn judge_script(
    cache: &mut Cache<Recorded>,
    kind: Kind,
    number: u32,
    log: &Log,
    plain: &mut Plain,
    judged: &mut Judged,
) -> Answer {
    let mut rest = number;
    for turn in 0..kind.calls {
        judge_call(cache, call_of(rest, (turn % 256) as u8), log, plain, judged)?;
        rest /= 11;
    }
    Ok(())
}

/// Judges what a call answers, and all calls of the device so far.
fn judge_call(
    cache: &mut Cache<Recorded>,
    call: Call<'_>,
    log: &Log,
    plain: &mut Plain,
    judged: &mut Judged,
) -> Answer {
    let wanted = plain.call(call)?;
    let got = cache.call(call);
    judged.count(got == wanted && is_logged(log, plain.disk().calls()));
    Ok(())
}

/// Judges what a closed cache leaves.
fn judge_closed(
    alloc: Global,
    kind: Kind,
    closed: &Closed<Recorded>,
    log: &Log,
    plain: &mut Plain,
    judged: &mut Judged,
) -> Answer {
    let fault = plain.close()?;
    judged.count(closed.fault == fault);
    judged.count(closed.home == kind.frames && plain.home() == kind.frames);
    judged.count(is_logged(log, plain.disk().calls()));
    judge_images(alloc, closed.device.device(), plain.disk(), judged)
}

/// Judges what a crash may leave of each block.
fn judge_images(
    alloc: Global,
    device: &MemoryDevice,
    disk: &PlainDisk,
    judged: &mut Judged,
) -> Answer {
    let mut wanted = Vec::new(alloc);
    judge_blocks(alloc, device, disk, &mut wanted, judged)
}

fn judge_blocks(
    alloc: Global,
    device: &MemoryDevice,
    disk: &PlainDisk,
    wanted: &mut Vec<[u8; 2]>,
    judged: &mut Judged,
) -> Answer {
    for block in 0..BLOCKS {
        disk.left(wanted, block)?;
        judge_left(alloc, device, block, wanted.as_slice(), judged)?;
    }
    Ok(())
}
