//! Which call a question asks.

use crate::answers::{Answer, Stop};
use crate::desk::Desk;
use crate::words::parted;
use crate::{catalogs, headers};
use std::alloc::Global;

/// Writes the answer to a line. `desk` has what the lines before it left.
pub fn answer(alloc: Global, desk: &mut Desk, line: &str, out: &mut String) -> Answer {
    let (verb, rest) = parted(line);
    match verb {
        "header" => headers::header(alloc, rest, &[], out),
        "fault" => headers::header(alloc, rest, &[1], out),
        "none" => catalogs::none(desk, out),
        "record" => catalogs::add(alloc, desk, rest, out),
        "catalog" => catalogs::catalog(alloc, desk, rest, out),
        _ => Err(Stop::Line),
    }
}
