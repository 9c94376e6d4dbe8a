//! Copies of records.

use crate::answers::{Answer, Stop};
use crate::record_words::{image_of, record_of};
use crate::show::{say_image, say_record};
use crate::words::parted;
use std::alloc::Global;

/// A copy of a record or, after `image`, of a before-image without its unit.
pub fn copy(alloc: Global, text: &str, out: &mut String) -> Answer {
    let (verb, rest) = parted(text);
    match verb {
        "image" => copy_image(alloc, rest, out),
        "before" | "end" => copy_record(alloc, text, out),
        _ => Err(Stop::Line),
    }
}

fn copy_record(alloc: Global, text: &str, out: &mut String) -> Answer {
    let rec = record_of(alloc, text)?;
    let copy = rec.copy(alloc)?;
    say_record(alloc, out, &copy)
}

fn copy_image(alloc: Global, text: &str, out: &mut String) -> Answer {
    let image = image_of(alloc, text)?;
    let copy = image.copy(alloc)?;
    say_image(alloc, out, copy.part, &copy.place, &copy.old)
}
