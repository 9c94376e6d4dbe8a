//! Which call a question asks.

use crate::answers::{Answer, Stop};
use crate::desk::Desk;
use crate::words::parted;
use crate::{formatting, opening, plain, shapes};
use std::alloc::Global;

/// Writes the answer to a line. `desk` has what the lines before it left.
pub fn answer(alloc: Global, desk: &mut Desk, line: &str, out: &mut String) -> Answer {
    let (verb, rest) = parted(line);
    match verb {
        "device" => formatting::device(alloc, desk, rest, out),
        "format" => formatting::format(alloc, desk, rest, out),
        "entries" => formatting::entries(alloc, desk, rest, out),
        "show" => formatting::show(alloc, desk, rest, out),
        "calls" => formatting::calls(desk, out),
        "faults" => formatting::faults(alloc, rest, out),
        "shape" => shapes::shape(alloc, rest, out),
        "put" => opening::put(alloc, desk, rest, out),
        "open" => opening::open(alloc, desk, rest, out),
        "plain" => plain::plain(alloc, desk, out),
        _ => Err(Stop::Line),
    }
}
