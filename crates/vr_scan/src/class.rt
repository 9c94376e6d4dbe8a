//! What a text begins with.
ghost use Rattle.std.specs.Prelude.{◌≡◌, Some, None, Option, slice_get};
ghost use Rattle.vr_scan.specs.Class.{is_sign, is_mark, class_of_character, class_of_sign, goes_on};

use crate::mark::{Mark, Sign};

/// What a text begins with, seen from its first two characters.
#[derive(Clone, Copy)]
pub(crate) enum Class {
    /// A blank or a comma.
    Gap,
    /// `/*`
    Comment,
    /// The end of a line that doesn't go on, or `;`.
    Stop,
    LeftParenthesis,
    RightParenthesis,
    /// `=`, `<` or `>`
    Comparison,
    /// `C'`
    QuotedCharacters,
    /// `X'`
    QuotedDigits,
    /// Any other character.
    Word,
    /// The character by which the last line goes on.
    OpenEnd,
}

/// Whether a sign is this character.
pub(crate) fn is_sign(byte: u8, sign: Sign) -> bool
    ensures { result ≡ is_sign byte sign }
{
    match sign {
        Sign::Character(other) => other == byte,
        Sign::LineEnd => false,
        Sign::OpenEnd => false,
    }
}

/// Whether there is a mark, and it is this character.
pub(crate) fn is_mark(byte: u8, mark: Option<Mark>) -> bool
    ensures { result ≡ is_mark byte mark }
{
    match mark {
        Some(mark) => is_sign(byte, mark.sign),
        None => false,
    }
}

/// What a mark begins, given the one after it.
pub(crate) fn class_of(mark: Mark, next: Option<Mark>) -> Class
    ensures { result ≡ class_of_sign mark.sign (is_mark 42 next) (is_mark 39 next) }
{
    match mark.sign {
        Sign::Character(byte) => {
            class_of_character(byte, is_mark(b'*', next), is_mark(b'\'', next))
        }
        Sign::LineEnd => Class::Stop,
        Sign::OpenEnd => Class::OpenEnd,
    }
}

/// What a character begins, given whether `*`, and whether a quote, comes after it.
fn class_of_character(byte: u8, star: bool, quote: bool) -> Class
    ensures { result ≡ class_of_character byte star quote }
{
    if byte == b' ' || byte == b',' {
        Class::Gap
    } else if byte == b'/' && star {
        Class::Comment
    } else if byte == b';' {
        Class::Stop
    } else if byte == b'(' {
        Class::LeftParenthesis
    } else if byte == b')' {
        Class::RightParenthesis
    } else if byte == b'=' || byte == b'<' || byte == b'>' {
        Class::Comparison
    } else if byte.to_ascii_uppercase() == b'C' && quote {
        Class::QuotedCharacters
    } else if byte.to_ascii_uppercase() == b'X' && quote {
        Class::QuotedDigits
    } else {
        Class::Word
    }
}

/// Whether a word goes on where this begins.
pub(crate) fn goes_on(class: Class) -> bool
    ensures { result ≡ goes_on class }
{
    match class {
        Class::Gap => false,
        Class::Comment => false,
        Class::Stop => false,
        Class::LeftParenthesis => false,
        Class::RightParenthesis => false,
        Class::Comparison => false,
        Class::QuotedCharacters => true,
        Class::QuotedDigits => true,
        Class::Word => true,
        Class::OpenEnd => false,
    }
}
