//! The worked examples, which a user finds in examples/.

use crate::answers::{Answer, say, say_number};
use crate::desk::Desk;
use crate::escapes::show;
use crate::jobs::{NONE, print_job};
use crate::shelf::new_shelf;
use std::rt::Files;
use std::sync::Wait;
use std::thread::Threads;
use std::{fs, io};

/// Whether the job `NAME.job` prints `NAME.listing` over a new device of the default shape, which stays
/// on the shelf: `example NAME`. Its status comes first.
pub fn example<R: Threads + Wait + Sync + Files + AllocGlobal>(
    rt: &R,
    desk: &mut Desk,
    name: &str,
    out: &mut String,
) -> io::Result<Answer> {
    match new_shelf(rt.alloc(), 4096, 2048, &[]) {
        Ok(shelf) => desk.set(shelf),
        Err(stop) => return Ok(Err(stop)),
    }
    run_file(rt, desk, "run - -", name, name, out)
}

/// Whether the job `JOB.job` prints `LISTING.listing` over the shelf: `again JOB LISTING`.
pub fn again<R: Threads + Wait + Sync + Files + AllocGlobal>(
    rt: &R,
    desk: &mut Desk,
    names: &str,
    out: &mut String,
) -> io::Result<Answer> {
    let (job, listing) = names.split_once(' ').unwrap_or((names, names));
    run_file(rt, desk, "run JOB DIR", job, listing, out)
}

fn run_file<R: Threads + Wait + Sync + Files + AllocGlobal>(
    rt: &R,
    desk: &mut Desk,
    words: &str,
    job: &str,
    listing: &str,
    out: &mut String,
) -> io::Result<Answer> {
    let job = format!(in rt.alloc(); "{job}.job")?;
    let listing = format!(in rt.alloc(); "{listing}.listing")?;
    let text = fs::read(rt, job.as_str())?;
    let wanted = fs::read(rt, listing.as_str())?;
    Ok(compare(rt, desk, words, text.as_slice(), wanted.as_slice(), out))
}

fn compare<R: Threads + Wait + Sync + AllocGlobal>(
    rt: &R,
    desk: &mut Desk,
    words: &str,
    text: &[u8],
    wanted: &[u8],
    out: &mut String,
) -> Answer {
    let shelf = desk.take(rt.alloc());
    let printed = print_job(rt, rt.alloc(), words, text, NONE, shelf)?;
    say_number(out, "", u64::from(printed.status))?;
    say(out, " ")?;
    if printed.text.as_slice() == wanted {
        say(out, "as listed")?;
    } else {
        show(out, printed.text.as_slice())?;
    }
    desk.set(printed.shelf);
    Ok(())
}
