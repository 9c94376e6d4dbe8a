//! What verbs write their answers with, and why a line has none.

use std::alloc::{AllocError, AllocFailed, Global};
use std::fmt::Write;
use vr_format::FormatNo;
use vr_types::OutOfMemory;

/// Why a line has no answer.
#[derive(Clone, Copy)]
pub enum Stop {
    /// Out of memory, also in the call that was asked.
    Memory,
    /// The line is not a question.
    Line,
}

impl From<AllocError> for Stop {
    fn from(_error: AllocError) -> Stop {
        Stop::Memory
    }
}

impl<T: Drop> From<AllocFailed<T>> for Stop {
    fn from(_error: AllocFailed<T>) -> Stop {
        Stop::Memory
    }
}

impl From<OutOfMemory> for Stop {
    fn from(_error: OutOfMemory) -> Stop {
        Stop::Memory
    }
}

impl From<vr_case_volumes::Stop> for Stop {
    fn from(stop: vr_case_volumes::Stop) -> Stop {
        match stop {
            vr_case_volumes::Stop::Memory => Stop::Memory,
            vr_case_volumes::Stop::Case => Stop::Line,
        }
    }
}

/// What a verb answers: what is wanted of a line is compared with what it wrote.
pub type Answer = Result<(), Stop>;

/// Writes a text.
pub fn say(out: &mut String, text: &str) -> Answer {
    out.push_str(text)?;
    Ok(())
}

/// Writes a number.
pub fn say_number(out: &mut String, number: u64) -> Answer {
    write!(out, "{number}")?;
    Ok(())
}

/// Writes bytes as hexadecimal digits.
pub fn say_bytes(alloc: Global, out: &mut String, bytes: &[u8]) -> Answer {
    let digits = hex::encode_upper(alloc, bytes)?;
    say(out, digits.as_str())
}

/// Writes what formatting answers.
pub fn say_formatted(out: &mut String, formatted: Result<(), FormatNo>) -> Answer {
    match formatted {
        Ok(()) => say(out, "ok"),
        Err(FormatNo::Geometry) => say(out, "geometry"),
        Err(FormatNo::Entries { at }) => {
            write!(out, "entries {at}")?;
            Ok(())
        }
        Err(FormatNo::Write) => say(out, "write"),
        Err(FormatNo::Memory) => Err(Stop::Memory),
    }
}
