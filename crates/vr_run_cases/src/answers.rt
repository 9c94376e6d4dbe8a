//! What answers are written with, and why a line has none.

use std::alloc::{AllocError, AllocFailed, Global};
use vr_types::OutOfMemory;

/// Why a line has no answer.
#[derive(Clone, Copy)]
pub enum Stop {
    /// Memory ran out, also in the call that was asked.
    Memory,
    /// The line is not a question.
    Line,
}

impl From<AllocError> for Stop {
    fn from(_error: AllocError) -> Stop {
        Stop::Memory
    }
}

impl<T: Drop> From<AllocFailed<T>> for Stop {
    fn from(_error: AllocFailed<T>) -> Stop {
        Stop::Memory
    }
}

impl From<OutOfMemory> for Stop {
    fn from(_error: OutOfMemory) -> Stop {
        Stop::Memory
    }
}

impl From<vr_case_volumes::Stop> for Stop {
    fn from(stop: vr_case_volumes::Stop) -> Stop {
        match stop {
            vr_case_volumes::Stop::Memory => Stop::Memory,
            vr_case_volumes::Stop::Case => Stop::Line,
        }
    }
}

/// What a verb answers: what is wanted of a line is compared with what it wrote.
pub type Answer = Result<(), Stop>;

/// Writes a text.
pub fn say(out: &mut String, text: &str) -> Answer {
    out.push_str(text)?;
    Ok(())
}

/// Writes the lines of a text, each of which ends with `|`.
pub fn say_lines(out: &mut String, text: &[u8]) -> Answer {
    for byte in text {
        match *byte {
            b'\n' => out.push('|')?,
            other => out.push(char::from(other))?,
        }
    }
    Ok(())
}

/// The bytes of a text whose lines `|` separates, after these.
pub fn text_of(alloc: Global, first: &str, text: &str) -> Result<Vec<u8>, Stop> {
    let mut bytes = first.as_bytes().to_vec(alloc)?;
    for byte in text.as_bytes() {
        bytes.push(if *byte == b'|' { b'\n' } else { *byte })?;
    }
    Ok(bytes)
}
