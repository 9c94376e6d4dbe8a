//! What answers are written with, and why a line has none.

use std::alloc::{AllocError, AllocFailed};
use std::fmt::Write;
use vr_types::OutOfMemory;

/// Why a line has no answer.
#[derive(Clone, Copy)]
pub enum Stop {
    /// Memory ran out, also in the call that was asked.
    Memory,
    /// The line is not a question.
    Line,
}

impl From<AllocError> for Stop {
    fn from(_error: AllocError) -> Stop {
        Stop::Memory
    }
}

impl<T: Drop> From<AllocFailed<T>> for Stop {
    fn from(_error: AllocFailed<T>) -> Stop {
        Stop::Memory
    }
}

impl From<OutOfMemory> for Stop {
    fn from(_error: OutOfMemory) -> Stop {
        Stop::Memory
    }
}

impl From<vr_case_volumes::Stop> for Stop {
    fn from(stop: vr_case_volumes::Stop) -> Stop {
        match stop {
            vr_case_volumes::Stop::Memory => Stop::Memory,
            vr_case_volumes::Stop::Case => Stop::Line,
        }
    }
}

/// What a verb answers: what is wanted of a line is compared with what it wrote.
pub type Answer = Result<(), Stop>;

/// Writes a text.
pub fn say(out: &mut String, text: &str) -> Answer {
    out.push_str(text)?;
    Ok(())
}

/// Writes a text and a number.
pub fn say_number(out: &mut String, text: &str, number: u64) -> Answer {
    out.push_str(text)?;
    write!(out, "{number}")?;
    Ok(())
}

/// Writes how many of some trials went as they should: `RIGHT of ALL`.
pub fn say_right(out: &mut String, right: u64, all: u64) -> Answer {
    write!(out, "{right} of {all}")?;
    Ok(())
}

/// A number of four bytes that a word spells.
pub fn number(word: &str) -> Result<u32, Stop> {
    word.parse().ok().ok_or(Stop::Line)
}

/// A number of eight bytes that a word spells.
pub fn long_number(word: &str) -> Result<u64, Stop> {
    word.parse().ok().ok_or(Stop::Line)
}
