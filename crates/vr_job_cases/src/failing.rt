//! Sources, sinks and devices that fail at each of their calls in turn.

use crate::answers::{Answer, Stop, say_number, say_right};
use crate::escapes::bytes_of;
use crate::jobs::{Fails, LEAST_BLOCKS, MOST, NONE, Printed, print_job};
use crate::shelf::new_shelf;
use std::alloc::Global;
use std::sync::Wait;
use std::thread::Threads;

/// More calls than any job of the table makes.
const CALLS: u64 = 10_000;

/// Runs a job over a small new device whose calls of these numbers fail.
pub fn print_new<R: Threads + Wait + Sync>(
    rt: &R,
    alloc: Global,
    text: &[u8],
    fails: Fails<'_>,
    device: &[u64],
) -> Result<Printed, Stop> {
    let shelf = new_shelf(alloc, 512, LEAST_BLOCKS, device)?;
    print_job(rt, alloc, "run - -", text, fails, shelf)
}

/// How many of a job's reads end it with 24 and its one line where they fail: `reads TEXT`.
pub fn reads<R: Threads + Wait + Sync>(
    rt: &R,
    alloc: Global,
    rest: &str,
    out: &mut String,
) -> Answer {
    let text = bytes_of(alloc, rest)?;
    let whole = print_new(rt, alloc, text.as_slice(), NONE, &[])?;
    let mut right = 0u64;
    for call in 0..CALLS {
        let fails = Fails {
            reads: &[call],
            ..NONE
        };
        let printed = print_new(rt, alloc, text.as_slice(), fails, &[])?;
        if is_same(&printed, &whole) {
            return say_right(out, right, call);
        }
        if is_read_fault(&printed) {
            right = right.saturating_add(1);
        }
    }
    say_right(out, right, CALLS)
}

/// How many of a job's writes end it, where they fail, with 28 or the status of its one line, and
/// the bytes before: `writes TEXT`.
pub fn writes<R: Threads + Wait + Sync>(
    rt: &R,
    alloc: Global,
    rest: &str,
    out: &mut String,
) -> Answer {
    let text = bytes_of(alloc, rest)?;
    let whole = print_new(rt, alloc, text.as_slice(), NONE, &[])?;
    let mut right = 0u64;
    for call in 0..CALLS {
        let fails = Fails {
            writes: &[call],
            ..NONE
        };
        let printed = print_new(rt, alloc, text.as_slice(), fails, &[])?;
        if is_same(&printed, &whole) {
            return say_right(out, right, call);
        }
        if is_write_fault(&whole, &printed, call) {
            right = right.saturating_add(1);
        }
    }
    say_right(out, right, CALLS)
}

fn is_same(one: &Printed, other: &Printed) -> bool {
    one.status == other.status && one.text.as_slice() == other.text.as_slice()
}

fn is_read_fault(printed: &Printed) -> bool {
    printed.status == 24
        && printed.text.as_slice() == b"READ FAULT\n".as_slice()
        && printed.shelf.len() == 1
}

/// Whether a job whose write of this number failed ended rightly, beside the same job whose writes
/// don't fail.
fn is_write_fault(whole: &Printed, printed: &Printed, call: u64) -> bool {
    let status = if whole.status <= 8 { 28 } else { whole.status };
    printed.status == status
        && printed.left == 0
        && printed.shelf.len() == 1
        && has_prefix(whole, printed, call)
}

/// Whether what was printed is what the calls before this one print.
fn has_prefix(whole: &Printed, printed: &Printed, call: u64) -> bool {
    let length = usize::try_from(call).unwrap_or(0).saturating_mul(MOST);
    match whole.text.get(..length) {
        Some(prefix) => printed.text.as_slice() == prefix,
        None => false,
    }
}

/// How often a job ended with which status.
#[derive(Clone, Copy)]
struct Statuses {
    through: u64,
    faulted: u64,
    ended: u64,
    others: u64,
}

impl Statuses {
    fn count(&mut self, printed: &Printed) {
        match printed.status {
            0 if printed.shelf.len() == 1 => self.through = self.through.saturating_add(1),
            8 if printed.shelf.len() == 1 => self.faulted = self.faulted.saturating_add(1),
            30 if is_device_fault(printed) => self.ended = self.ended.saturating_add(1),
            _ => self.others = self.others.saturating_add(1),
        }
    }

    fn say(self, out: &mut String) -> Answer {
        say_number(out, "0: ", self.through)?;
        say_number(out, ", 8: ", self.faulted)?;
        say_number(out, ", 30: ", self.ended)?;
        say_number(out, ", others: ", self.others)
    }
}

/// Whether the last line is that of the fault: it comes after the listing where closing failed.
fn is_device_fault(printed: &Printed) -> bool {
    let line = b"VOLUME 0 DEVICE FAULT\n".as_slice();
    printed.text.as_slice().ends_with(line) && printed.shelf.len() == 1
}

/// How often a job ends with which status where each call of its device fails in turn: `device TEXT`.
pub fn device<R: Threads + Wait + Sync>(
    rt: &R,
    alloc: Global,
    rest: &str,
    out: &mut String,
) -> Answer {
    let text = bytes_of(alloc, rest)?;
    let calls = calls_in(&print_new(rt, alloc, text.as_slice(), NONE, &[])?);
    let mut statuses = Statuses {
        through: 0,
        faulted: 0,
        ended: 0,
        others: 0,
    };
    for call in 0..calls {
        let printed = print_new(rt, alloc, text.as_slice(), NONE, &[call])?;
        statuses.count(&printed);
    }
    statuses.say(out)
}

/// How many calls the device of a job had.
fn calls_in(printed: &Printed) -> u64 {
    match printed.shelf.first() {
        Some(device) => device.calls(),
        None => 0,
    }
}
