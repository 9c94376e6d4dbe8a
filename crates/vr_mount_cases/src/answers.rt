//! What verbs write their answers with, and why a line has none.

use std::alloc::{AllocError, AllocFailed};
use std::fmt::Write;
use vr_types::OutOfMemory;

/// Why a line has no answer.
#[derive(Clone, Copy)]
pub enum Stop {
    /// Out of memory, also in the call that was asked.
    Memory,
    /// The line is not a question.
    Line,
}

impl From<AllocError> for Stop {
    fn from(_error: AllocError) -> Stop {
        Stop::Memory
    }
}

impl<T: Drop> From<AllocFailed<T>> for Stop {
    fn from(_error: AllocFailed<T>) -> Stop {
        Stop::Memory
    }
}

impl From<OutOfMemory> for Stop {
    fn from(_error: OutOfMemory) -> Stop {
        Stop::Memory
    }
}

/// What a verb answers: what is wanted of a line is compared with what it wrote.
pub type Answer = Result<(), Stop>;

/// Writes a text.
pub fn say(out: &mut String, text: &str) -> Answer {
    out.push_str(text)?;
    Ok(())
}

/// Writes a number.
pub fn say_number(out: &mut String, number: u64) -> Answer {
    write!(out, "{number}")?;
    Ok(())
}
