//! Why a text has no tokens.

use vr_types::OutOfMemory;

/// What is wrong with a text, in the order of the numbers that a listing shows, from 1.
#[derive(Clone, Copy, PartialEq, Eq)]
pub enum FormCause {
    /// A comment is not closed. Its place is where it begins.
    OpenComment,
    /// The line ends, and doesn't go on, before a literal is closed. Its place is where it begins.
    OpenLiteral,
    /// A character of an `X'..'` is not a hexadecimal digit, or it is the last digit and has no
    /// partner. Its place is that character's.
    Digit,
    /// The last line goes on. Its place is that of its last character.
    Continuation,
}

/// The first thing that is wrong with a text, and its place: the line's number in the job text, and
/// the column, from 1.
#[derive(Clone, Copy, PartialEq, Eq)]
pub struct FormFault {
    pub cause: FormCause,
    pub line: u32,
    pub column: u32,
}

/// Why a text gave no tokens.
#[derive(Clone, Copy, PartialEq, Eq)]
pub enum ScanFault {
    /// The text has none.
    Form(FormFault),
    /// Memory ran out.
    Memory,
}

impl From<OutOfMemory> for ScanFault {
    ghost use Rattle.std.specs.Prelude.{◌≡◌};
    ghost use Rattle.vr_scan.specs.declared.fault.ScanFault.TheVariants.{Memory};

    ghost from_gives = { λ _ fault. fault ≡ Memory };

    fn from(_error: OutOfMemory) -> ScanFault {
        ScanFault::Memory
    }
}
