//! What verbs write their answers with, and why a line has none.

use std::alloc::{AllocError, AllocFailed, Global};
use std::fmt::Write;
use vr_space::Room;
use vr_types::{DeviceFault, OutOfMemory, StageKind};

/// Why a line has no answer.
#[derive(Clone, Copy)]
pub enum Stop {
    /// Out of memory, also in the call that was asked.
    Memory,
    /// The line is not a question.
    Line,
}

impl From<AllocError> for Stop {
    fn from(_error: AllocError) -> Stop {
        Stop::Memory
    }
}

impl<T: Drop> From<AllocFailed<T>> for Stop {
    fn from(_error: AllocFailed<T>) -> Stop {
        Stop::Memory
    }
}

impl From<OutOfMemory> for Stop {
    fn from(_error: OutOfMemory) -> Stop {
        Stop::Memory
    }
}

/// What a verb answers: what is wanted of a line is compared with what it wrote.
pub type Answer = Result<(), Stop>;

/// Writes a text.
pub fn say(out: &mut String, text: &str) -> Answer {
    out.push_str(text)?;
    Ok(())
}

/// Writes a number.
pub fn say_number(out: &mut String, number: u64) -> Answer {
    write!(out, "{number}")?;
    Ok(())
}

/// Writes what a call of blocks answers.
pub fn say_fault(out: &mut String, done: Result<(), DeviceFault>) -> Answer {
    match done {
        Ok(()) => say(out, "ok"),
        Err(DeviceFault::Read) => say(out, "read fault"),
        Err(DeviceFault::Write) => say(out, "write fault"),
    }
}

/// Writes the digits of a key.
pub fn say_digits(out: &mut String, digits: &[u8]) -> Answer {
    for digit in digits {
        out.push(char::from(*digit))?;
    }
    Ok(())
}

/// Writes whether a record has room.
pub fn say_room(out: &mut String, room: Result<Room, DeviceFault>) -> Answer {
    match room {
        Ok(Room::Ready) => say(out, "Ready"),
        Ok(Room::Stage(stage)) => say_kind(out, stage),
        Ok(Room::NoSpace { need, free }) => {
            write!(out, "NoSpace {need} {free}")?;
            Ok(())
        }
        Err(fault) => say_fault(out, Err(fault)),
    }
}

/// Writes the stage that was done.
pub fn say_stage(out: &mut String, done: Result<StageKind, DeviceFault>) -> Answer {
    match done {
        Ok(stage) => say_kind(out, stage),
        Err(fault) => say_fault(out, Err(fault)),
    }
}

fn say_kind(out: &mut String, stage: StageKind) -> Answer {
    say(
        out,
        match stage {
            StageKind::CiCopy => "CiCopy",
            StageKind::CiSwitch => "CiSwitch",
            StageKind::CiClean => "CiClean",
            StageKind::CaClaim => "CaClaim",
            StageKind::CaCopy => "CaCopy",
            StageKind::CaLink => "CaLink",
            StageKind::CaSwitch => "CaSwitch",
            _ => "another stage",
        },
    )
}
