//! The characters of a command text with their places.

/// What stands at a place: a character, the end of a line that doesn't go on, or the character by
/// which the last line goes on.
#[derive(Clone, Copy)]
pub(crate) enum Sign {
    Character(u8),
    LineEnd,
    OpenEnd,
}

/// A sign with its place: the line's number in the job text, and the column, from 1.
#[derive(Clone, Copy)]
pub(crate) struct Mark {
    pub(crate) sign: Sign,
    pub(crate) line: u32,
    pub(crate) column: u32,
}

/// How a line ends: it doesn't go on, or goes on as after a blank, or directly.
#[derive(Clone, Copy)]
pub(crate) enum Ending {
    Whole,
    Hyphen,
    Plus,
}
