//! Comments, words and literals, from their opening characters on.
ghost use Rattle.std.specs.Prelude.{◌≡◌, ◌<◌, ◌≤◌, ◌++◌, None, Some, drop, length, map, slice_get};
ghost use Rattle.std.specs.Prelude.{IfOk, OnOk, MatchBool, MatchOption, true, false};
ghost use Rattle.std.specs.Char.{digit_value, to_ascii_uppercase};
ghost use Rattle.vr_scan.specs.Piece.{byte_of, bytes_of, after_comment, word, after_word};
ghost use Rattle.vr_scan.specs.Piece.{is_inner, is_digit, inner, after_inner, first_bad, paired};
ghost use Rattle.vr_scan.specs.Piece.{IsClosed};
ghost use Rattle.vr_scan.specs.Class.{begins};
ghost use Rattle.vr_scan.specs.Taking.{pair_value, is_inner_mark, bad_of, IsNextOfWord, IsNextByte};
ghost use Rattle.vr_scan.specs.Taking.{IsDigits, IsQuoted};

use crate::class::{class_of, goes_on, is_mark, is_sign};
use crate::cursor::Cursor;
use crate::draft::Draft;
use crate::mark::{Mark, Sign};
use vr_types::OutOfMemory;

/// The character that opens and closes a literal.
const QUOTE: u8 = b'\'';

/// What became of the digits of an `X'..'`.
#[derive(Clone, Copy)]
pub(crate) enum Digits {
    Closed,
    Open,
    /// It is closed, and this isn't a digit, or is the last one and has no partner.
    Bad(Mark),
}

/// Passes a comment, from what follows its `/*` on. Answers whether it is closed.
pub(crate) fn pass_comment(cursor: &mut Cursor) -> bool
    ensures after { MatchBool result (after_comment cursor.old ≡ Some cursor.new)
        (after_comment cursor.old ≡ None) }
    ensures shorter { length cursor.new ≤ length cursor.old }
{
    while let Some(mark) = cursor.first() {
        let closes = is_sign(b'*', mark.sign) && is_mark(b'/', cursor.second());
        cursor.advance();
        if closes {
            cursor.advance();
            return true;
        }
    }
    false
}

/// Reads how a word ends, in capitals.
pub(crate) fn take_word(cursor: &mut Cursor, draft: &mut Draft) -> Result<(), OutOfMemory>
    ensures rest { OnOk result (cursor.new ≡ after_word cursor.old) }
    ensures tokens { OnOk result (draft.new.tokens ≡ draft.old.tokens) }
    ensures text { OnOk result (draft.new.text
        ≡ draft.old.text ++ map to_ascii_uppercase (bytes_of (word cursor.old))) }
    ensures shorter { length cursor.new ≤ length cursor.old }
{
    while let Some(mark) = word_character(cursor) {
        draft.push(byte_of(mark).to_ascii_uppercase())?;
        cursor.advance();
    }
    Ok(())
}

/// The next character, where it belongs to the word that is being read.
fn word_character(cursor: &Cursor) -> Option<Mark>
    ensures { IsNextOfWord cursor.now result }
{
    let mark = cursor.first()?;
    if goes_on(class_of(mark, cursor.second())) {
        Some(mark)
    } else {
        None
    }
}

/// The character of a mark.
pub(crate) fn byte_of(mark: Mark) -> u8
    ensures { result ≡ byte_of mark.sign }
{
    match mark.sign {
        Sign::Character(byte) => byte,
        Sign::LineEnd => 0,
        Sign::OpenEnd => 0,
    }
}

/// Reads the bytes of a `C'..'`, from what follows its opening quote on. Answers whether it is
/// closed.
pub(crate) fn take_characters(cursor: &mut Cursor, draft: &mut Draft) -> Result<bool, OutOfMemory>
    ensures quoted { IfOk result
        (IsQuoted cursor.old cursor.new draft.old.text draft.new.text) }
    ensures tokens { OnOk result (draft.new.tokens ≡ draft.old.tokens) }
    ensures shorter { length cursor.new ≤ length cursor.old }
{
    while let Some(byte) = next_byte(cursor) {
        draft.push(byte)?;
    }
    Ok(pass_quote(cursor))
}

/// Reads a byte of a `C'..'`, one quote for two, if there is a further one.
fn next_byte(cursor: &mut Cursor) -> Option<u8>
    ensures byte { IsNextByte cursor.old cursor.new result }
    ensures shorter { MatchOption result (cursor.new ≡ cursor.old)
        (λ byte. length cursor.new < length cursor.old) }
{
    let Sign::Character(byte) = cursor.first()?.sign else {
        return None;
    };
    if byte == QUOTE {
        if !is_mark(QUOTE, cursor.second()) {
            return None;
        }
        cursor.advance();
    }
    cursor.advance();
    Some(byte)
}

/// Passes a quote, if there is one.
fn pass_quote(cursor: &mut Cursor) -> bool
    ensures { MatchBool result
        ((begins 39 cursor.old ≡ true) × (cursor.new ≡ drop 1 cursor.old))
        ((begins 39 cursor.old ≡ false) × (cursor.new ≡ cursor.old)) }
{
    let passes = is_mark(QUOTE, cursor.first());
    if passes {
        cursor.advance();
    }
    passes
}

/// Reads the bytes of an `X'..'`, from what follows its opening quote on.
pub(crate) fn take_digits(cursor: &mut Cursor, draft: &mut Draft) -> Result<Digits, OutOfMemory>
    ensures digits { IfOk result
        (IsDigits cursor.old cursor.new draft.old.text draft.new.text) }
    ensures tokens { OnOk result (draft.new.tokens ≡ draft.old.tokens) }
    ensures shorter { length cursor.new ≤ length cursor.old }
{
    take_pairs(cursor, draft)?;
    let bad = bad_digit(cursor);
    if !pass_inner(cursor) {
        return Ok(Digits::Open);
    }
    match bad {
        Some(mark) => Ok(Digits::Bad(mark)),
        None => Ok(Digits::Closed),
    }
}

/// Reads pairs of digits as long as there are some.
fn take_pairs(cursor: &mut Cursor, draft: &mut Draft) -> Result<(), OutOfMemory>
    ensures bad { OnOk result (first_bad (inner cursor.new) ≡ first_bad (inner cursor.old)) }
    ensures after { OnOk result (after_inner cursor.new ≡ after_inner cursor.old) }
    ensures text { OnOk result (draft.new.text ++ paired (inner cursor.new)
        ≡ draft.old.text ++ paired (inner cursor.old)) }
    ensures tokens { OnOk result (draft.new.tokens ≡ draft.old.tokens) }
    ensures stuck { OnOk result
        (pair_value (slice_get cursor.new 0) (slice_get cursor.new 1) ≡ None) }
    ensures shorter { length cursor.new ≤ length cursor.old }
{
    while let Some(byte) = pair_value(cursor.first(), cursor.second()) {
        draft.push(byte)?;
        cursor.advance();
        cursor.advance();
    }
    Ok(())
}

/// The byte that two digits spell.
fn pair_value(high: Option<Mark>, low: Option<Mark>) -> Option<u8>
    ensures { result ≡ pair_value high low }
{
    let high = high?;
    let low = low?;
    if is_digit(high) && is_digit(low) {
        Some(16 * digit_value(high) + digit_value(low))
    } else {
        None
    }
}

/// Whether a mark is a hexadecimal digit.
fn is_digit(mark: Mark) -> bool
    ensures { result ≡ is_digit mark }
{
    char::from(byte_of(mark)).is_digit(16)
}

/// The value of a digit.
fn digit_value(mark: Mark) -> u8
    requires { digit_value (byte_of mark.sign) < 16 }
    ensures { result ≡ digit_value (byte_of mark.sign) }
{
    char::from(byte_of(mark)).to_digit(16).unwrap() as u8
}

/// The first that isn't a digit, or has no partner, of what an `X'..'` has and doesn't begin with a
/// pair of digits.
fn bad_digit(cursor: &Cursor) -> Option<Mark>
    requires { pair_value (slice_get cursor.now 0) (slice_get cursor.now 1) ≡ None }
    ensures { result ≡ first_bad (inner cursor.now) }
{
    bad_of(cursor.first(), cursor.second())
}

/// The same, seen from the first two marks.
fn bad_of(first: Option<Mark>, second: Option<Mark>) -> Option<Mark>
    ensures { result ≡ bad_of first second }
{
    match first {
        Some(mark) => {
            if !is_inner(mark) {
                None
            } else if is_digit(mark) && is_inner_mark(second) {
                second
            } else {
                first
            }
        }
        None => None,
    }
}

/// Whether there is a mark, and it is a character other than a quote.
fn is_inner_mark(mark: Option<Mark>) -> bool
    ensures { result ≡ is_inner_mark mark }
{
    match mark {
        Some(mark) => is_inner(mark),
        None => false,
    }
}

/// Whether a mark is a character other than a quote.
fn is_inner(mark: Mark) -> bool
    ensures { result ≡ is_inner mark.sign }
{
    match mark.sign {
        Sign::Character(byte) => byte != QUOTE,
        Sign::LineEnd => false,
        Sign::OpenEnd => false,
    }
}

/// Passes what an `X'..'` has, and the quote that closes it. Answers whether there is that quote.
fn pass_inner(cursor: &mut Cursor) -> bool
    ensures closed { MatchBool result
        (IsClosed cursor.old × (cursor.new ≡ drop 1 (after_inner cursor.old)))
        (¬ IsClosed cursor.old) }
    ensures shorter { length cursor.new ≤ length cursor.old }
{
    while is_inner_mark(cursor.first()) {
        cursor.advance();
    }
    pass_quote(cursor)
}
