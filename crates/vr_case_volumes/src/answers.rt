//! What cases write their lines with, and why a case has none.

use std::alloc::{AllocError, AllocFailed};
use vr_types::OutOfMemory;

/// Why a case has no line.
#[derive(Clone, Copy)]
pub enum Stop {
    /// Memory ran out.
    Memory,
    /// A volume wasn't formatted, a text wasn't a job, or a job didn't come through.
    Case,
}

impl From<AllocError> for Stop {
    fn from(_error: AllocError) -> Stop {
        Stop::Memory
    }
}

impl<T: Drop> From<AllocFailed<T>> for Stop {
    fn from(_error: AllocFailed<T>) -> Stop {
        Stop::Memory
    }
}

impl From<OutOfMemory> for Stop {
    fn from(_error: OutOfMemory) -> Stop {
        Stop::Memory
    }
}

/// What a case answers that wrote its line.
pub type Answer = Result<(), Stop>;

/// Writes a text.
pub fn say(out: &mut String, text: &str) -> Answer {
    out.push_str(text)?;
    Ok(())
}

/// Writes a separator, where something precedes it.
pub fn say_next(out: &mut String) -> Answer {
    if !out.is_empty() {
        out.push_str(", ")?;
    }
    Ok(())
}
