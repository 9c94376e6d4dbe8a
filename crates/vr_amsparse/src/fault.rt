//! Why a list of tokens is not a list of commands.

use vr_amsparse_grammar::AmsCause;

/// The first fault of a command text: its cause, and the line and the column where it is. Most are
/// reported at the token at which they are seen, where the text ends too early at its end; a
/// missing parameter at the first word of its command, a DO without END at the DO.
#[derive(Clone, Copy, PartialEq, Eq)]
pub struct CommandFault {
    pub cause: AmsCause,
    pub line: u32,
    pub column: u32,
}

/// Why a text gave no commands.
#[derive(Clone, Copy, PartialEq, Eq)]
pub enum AmsFault {
    /// The text is no list of commands.
    Text(CommandFault),
    /// Memory ran out.
    Memory,
}
