//! A log that is full.

use crate::jobs::{add_put, run_text};
use crate::replies::say_asked;
use std::alloc::Global;
use std::sync::Wait;
use std::thread::Threads;
use vr_case_volumes::{Answer, Stop, add_lines, entries_of, first_volume};
use vr_device::MemoryDevice;
use vr_outside::OpenGate;
use vr_types::Geometry;

/// One block of log, and 8 areas.
const SHORT: Geometry = Geometry {
    size: 512,
    blocks: 66,
    log: 1,
    area: 7,
};

/// The last line that adds a record.
const LAST_ADDED: u32 = 21;

/// A unit adds a record of 80 bytes; the next adds 16 of 8 bytes, and updates the first.
fn filling(text: &mut String) -> Answer {
    add_lines(
        text,
        &["//S EXEC PGM=VRMDECK", "//DECK1 DD *", "FILE F VRM.FIRST"],
    )?;
    add_put(text, "F", 1, 'a', 72)?;
    add_lines(text, &["COMMIT"])?;
    for key in 2..18 {
        add_put(text, "F", key, ' ', 0)?;
    }
    add_lines(text, &["GET F KEY=C'00000001' UPD"])?;
    add_put(text, "F UPD", 1, 'b', 72)?;
    add_lines(text, &["BACKOUT"])
}

/// The replies from the last PUT that adds a record on.
pub fn full_log<R: Threads + Wait + Sync>(rt: &R, alloc: Global, out: &mut String) -> Answer {
    let mut text = String::new(alloc);
    filling(&mut text)?;
    let shelf = short_shelf(alloc)?;
    let ran = run_text(rt, alloc, shelf, text.as_str(), &OpenGate)?;
    say_asked(out, entries_of(&ran.histories, 0), 1, LAST_ADDED)
}

fn short_shelf(alloc: Global) -> Result<Vec<MemoryDevice>, Stop> {
    let first = first_volume(alloc, SHORT)?;
    Ok(vec![in alloc; first]?)
}
