//! Why a line has no answer.

use std::alloc::{AllocError, AllocFailed};
use vr_types::OutOfMemory;

/// Why a line has no answer.
#[derive(Clone, Copy)]
pub enum Stop {
    /// Out of memory, also in the call that was asked.
    Memory,
    /// The line is not a question.
    Line,
}

impl From<AllocError> for Stop {
    fn from(_error: AllocError) -> Stop {
        Stop::Memory
    }
}

impl<T: Drop> From<AllocFailed<T>> for Stop {
    fn from(_error: AllocFailed<T>) -> Stop {
        Stop::Memory
    }
}

impl From<OutOfMemory> for Stop {
    fn from(_error: OutOfMemory) -> Stop {
        Stop::Memory
    }
}

/// What a verb answers: what is wanted of a line is compared with what it wrote.
pub type Answer = Result<(), Stop>;
