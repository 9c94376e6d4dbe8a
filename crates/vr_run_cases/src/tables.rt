//! Tables of crashes and faults: a deck whose device is stopped, or fails once, at each of its calls,
//! and what the next openings find then, beside a plain, slow file.

use crate::answers::{Answer, Stop};
use crate::contents::Contents;
use crate::crashing::CALLS;
use crate::desk::{Desk, Shape};
use crate::images::{Images, Leaves, copy_of, left_by};
use crate::judging::{Case, case_of, cases_of, ended_well};
use crate::numbered::Job;
use crate::one_volume::{VolumeEnd, run_job};
use crate::plain::PlainFile;
use crate::running::formatted;
use crate::words::{long_number, parted};
use std::alloc::Global;
use std::fmt::Write;
use std::sync::Wait;
use std::thread::Threads;
use vr_device::MemoryDevice;
use vr_job::End;

/// How many calls there were, how many stops of second decks, how many images were opened, and
/// how many runs and images were wrong.
#[derive(Clone, Copy)]
struct Table {
    calls: u64,
    again: u64,
    images: u64,
    wrong: u64,
}

impl Table {
    fn new() -> Table {
        Table {
            calls: 0,
            again: 0,
            images: 0,
            wrong: 0,
        }
    }

    fn count(&mut self, right: bool) {
        self.wrong = self.wrong.saturating_add(if right { 0 } else { 1 });
    }
}

/// Runs a deck on an empty volume on copies of the device that are stopped at each of their calls, and
/// opens each image that a crash may leave then: `PLACES LINES`. An image is wrong whose records aren't
/// those that are committed, or those that a COMMIT would have committed which a fault refused.
pub fn crashes<R: Threads + Wait + Sync>(
    rt: &R,
    alloc: Global,
    desk: &mut Desk,
    rest: &str,
    out: &mut String,
) -> Answer {
    let case = case_of(alloc, desk.shape()?.size, rest)?;
    let mut table = Table::new();
    let start = left_by(alloc, desk.device()?, Leaves::Newest)?;
    crash_all(rt, alloc, &start, &case, &mut table)?;
    let Table {
        calls,
        images,
        wrong,
        ..
    } = table;
    write!(out, "{calls} stops, {images} images, {wrong} wrong")?;
    Ok(())
}

fn crash_all<R: Threads + Wait + Sync>(
    rt: &R,
    alloc: Global,
    device: &MemoryDevice,
    case: &Case,
    table: &mut Table,
) -> Answer {
    for call in 0..CALLS {
        let copy = copy_of(alloc, device)?;
        if crash_at(rt, alloc, copy, call, case, table)? {
            return Ok(());
        }
    }
    Err(Stop::Line)
}

/// The same for one call. Answers whether the deck makes fewer.
fn crash_at<R: Threads + Wait + Sync>(
    rt: &R,
    alloc: Global,
    device: MemoryDevice,
    call: u64,
    case: &Case,
    table: &mut Table,
) -> Result<bool, Stop> {
    let end = run_stopped(rt, alloc, device, call, &case.job)?;
    let file = case.left(alloc, &end)?;
    let done = end.device.calls() <= call;
    table.calls = table.calls.saturating_add(if done { 0 } else { 1 });
    table.count(ended_well(&end) && !file.is_wrong());
    let wanted = if done { Wanted::All } else { Wanted::First };
    look(rt, alloc, &end.device, case, &file, wanted, table)?;
    Ok(done)
}

/// Runs a job on a device that is stopped at a call.
fn run_stopped<R: Threads + Wait + Sync>(
    rt: &R,
    alloc: Global,
    mut device: MemoryDevice,
    call: u64,
    job: &Job,
) -> Result<VolumeEnd, Stop> {
    device.stop(call);
    run_job(rt, alloc, device, job)
}

/// With what the records of an image are compared beside what the replies say.
#[derive(Clone, Copy)]
enum Wanted {
    /// Nothing.
    Replies,
    /// What is committed once some first lines of the deck are done, by the lines alone.
    First,
    /// What is committed once all of them are done.
    All,
}

/// Opens each image that a crash may leave of a device and judges its records.
fn look<R: Threads + Wait + Sync>(
    rt: &R,
    alloc: Global,
    device: &MemoryDevice,
    case: &Case,
    file: &PlainFile,
    wanted: Wanted,
    table: &mut Table,
) -> Answer {
    let mut images = Images::of(alloc, device)?;
    for _ in 0..CALLS {
        let Some(image) = images.next(alloc, device)? else {
            return Ok(());
        };
        let found = case.read(rt, alloc, image)?;
        table.images = table.images.saturating_add(1);
        table.count(is_right(&found, case, file, wanted));
    }
    Err(Stop::Line)
}

/// Whether the records of an image are those that are wanted. None where it could not be read.
fn is_right(found: &Option<Contents>, case: &Case, file: &PlainFile, wanted: Wanted) -> bool {
    let Some(found) = found else {
        return false;
    };
    let by_lines = match wanted {
        Wanted::Replies => true,
        Wanted::First => case.commits(found),
        Wanted::All => case.ends_with(found),
    };
    by_lines && file.may_be(found)
}

/// The same, but a second deck is run on images and stopped too, at each call of its opening and its
/// requests, and each image that a crash may leave then is opened: on one image at every so many stops
/// of the first deck, which has of each block its last content or its stable one, in turn; or, where that
/// number is 0, on each image that a crash may leave at each of its stops: `EVERY PLACES LINES => LINES`.
/// What the second deck begins with is what that image has.
pub fn again<R: Threads + Wait + Sync>(
    rt: &R,
    alloc: Global,
    desk: &mut Desk,
    rest: &str,
    out: &mut String,
) -> Answer {
    let (every, rest) = parted(rest);
    let every = long_number(every)?;
    let (first, then) = cases_of(alloc, desk.shape()?.size, rest)?;
    let mut table = Table::new();
    let start = left_by(alloc, desk.device()?, Leaves::Newest)?;
    again_all(rt, alloc, &start, every, &first, &then, &mut table)?;
    let Table {
        calls,
        again,
        images,
        wrong,
    } = table;
    write!(
        out,
        "{calls} stops, {again} stops after them, {images} images, {wrong} wrong"
    )?;
    Ok(())
}

fn again_all<R: Threads + Wait + Sync>(
    rt: &R,
    alloc: Global,
    device: &MemoryDevice,
    every: u64,
    first: &Case,
    then: &Case,
    table: &mut Table,
) -> Answer {
    for turn in 0..CALLS {
        let copy = copy_of(alloc, device)?;
        let call = turn.saturating_mul(every.max(1));
        let leaves = leaves_at(turn, every);
        if again_at(rt, alloc, copy, call, leaves, first, then, table)? {
            return Ok(());
        }
    }
    Err(Stop::Line)
}

/// What is left at a turn: nothing where each image is.
fn leaves_at(turn: u64, every: u64) -> Option<Leaves> {
    if every == 0 {
        None
    } else if turn % 2 == 0 {
        Some(Leaves::Newest)
    } else {
        Some(Leaves::Oldest)
    }
}

/// The same for one call of the first deck. Answers whether it makes fewer.
fn again_at<R: Threads + Wait + Sync>(
    rt: &R,
    alloc: Global,
    device: MemoryDevice,
    call: u64,
    leaves: Option<Leaves>,
    first: &Case,
    then: &Case,
    table: &mut Table,
) -> Result<bool, Stop> {
    let end = run_stopped(rt, alloc, device, call, &first.job)?;
    let file = first.left(alloc, &end)?;
    let done = end.device.calls() <= call;
    table.calls = table.calls.saturating_add(if done { 0 } else { 1 });
    match leaves {
        Some(leaves) => {
            let image = left_by(alloc, &end.device, leaves)?;
            again_on(rt, alloc, &image, &file, first, then, table)?;
        }
        None => again_each(rt, alloc, &end.device, &file, first, then, table)?,
    }
    Ok(done)
}

/// Goes on from each image that a crash may leave of a device.
fn again_each<R: Threads + Wait + Sync>(
    rt: &R,
    alloc: Global,
    device: &MemoryDevice,
    file: &PlainFile,
    first: &Case,
    then: &Case,
    table: &mut Table,
) -> Answer {
    let mut images = Images::of(alloc, device)?;
    for _ in 0..CALLS {
        let Some(image) = images.next(alloc, device)? else {
            return Ok(());
        };
        again_on(rt, alloc, &image, file, first, then, table)?;
    }
    Err(Stop::Line)
}

/// Judges the records of an image, and stops the second deck on it.
fn again_on<R: Threads + Wait + Sync>(
    rt: &R,
    alloc: Global,
    image: &MemoryDevice,
    file: &PlainFile,
    first: &Case,
    then: &Case,
    table: &mut Table,
) -> Answer {
    let found = first.read(rt, alloc, copy_of(alloc, image)?)?;
    table.count(is_right(&found, first, file, Wanted::First));
    if let Some(found) = found {
        let left = file.left_with(alloc, &found)?;
        then_all(rt, alloc, image, &left, then, table)?;
    }
    Ok(())
}

/// Stops the second deck at each of its calls, on an image that is left so.
fn then_all<R: Threads + Wait + Sync>(
    rt: &R,
    alloc: Global,
    image: &MemoryDevice,
    left: &PlainFile,
    then: &Case,
    table: &mut Table,
) -> Answer {
    for call in 0..CALLS {
        let copy = copy_of(alloc, image)?;
        if then_at(rt, alloc, copy, call, left, then, table)? {
            return Ok(());
        }
    }
    Err(Stop::Line)
}

/// The same for one call of the second deck. Answers whether it makes fewer.
fn then_at<R: Threads + Wait + Sync>(
    rt: &R,
    alloc: Global,
    device: MemoryDevice,
    call: u64,
    left: &PlainFile,
    then: &Case,
    table: &mut Table,
) -> Result<bool, Stop> {
    let end = run_stopped(rt, alloc, device, call, &then.job)?;
    let file = then.left_over(alloc, left.left_with(alloc, left.committed())?, &end)?;
    let done = end.device.calls() <= call;
    table.again = table.again.saturating_add(if done { 0 } else { 1 });
    table.count(ended_well(&end) && !file.is_wrong());
    look(rt, alloc, &end.device, then, &file, Wanted::Replies, table)?;
    Ok(done)
}

/// Runs a deck on a volume that is formatted anew as that of the last `volume`, where one call fails
/// once, each in turn, and opens each image that a crash may leave then: `PLACES LINES`.
pub fn faults<R: Threads + Wait + Sync>(
    rt: &R,
    alloc: Global,
    desk: &mut Desk,
    rest: &str,
    out: &mut String,
) -> Answer {
    let case = case_of(alloc, desk.shape()?.size, rest)?;
    let mut table = Table::new();
    fail_all(rt, alloc, desk.shape()?, desk.entries(), &case, &mut table)?;
    let Table {
        calls,
        images,
        wrong,
        ..
    } = table;
    write!(out, "{calls} calls, {images} images, {wrong} wrong")?;
    Ok(())
}

fn fail_all<R: Threads + Wait + Sync>(
    rt: &R,
    alloc: Global,
    shape: Shape,
    entries: &str,
    case: &Case,
    table: &mut Table,
) -> Answer {
    let first = formatted(alloc, shape, entries, &[])?.calls();
    for more in 0..CALLS {
        let call = first.saturating_add(more);
        if fail_at(rt, alloc, shape, entries, call, case, table)? {
            return Ok(());
        }
    }
    Err(Stop::Line)
}

/// The same for one call. Answers whether the deck makes fewer.
fn fail_at<R: Threads + Wait + Sync>(
    rt: &R,
    alloc: Global,
    shape: Shape,
    entries: &str,
    call: u64,
    case: &Case,
    table: &mut Table,
) -> Result<bool, Stop> {
    let device = formatted(alloc, shape, entries, &[call])?;
    let end = run_job(rt, alloc, device, &case.job)?;
    let file = case.left(alloc, &end)?;
    let done = end.device.calls() <= call;
    table.calls = table.calls.saturating_add(if done { 0 } else { 1 });
    let failed = u32::from(!done && end.end == End::Ran);
    table.count(ended_well(&end) && !file.is_wrong() && file.faults() == failed);
    let wanted = if done { Wanted::All } else { Wanted::Replies };
    look(rt, alloc, &end.device, case, &file, wanted, table)?;
    Ok(done)
}
