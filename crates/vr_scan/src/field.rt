//! What counts of a line.
ghost use Rattle.std.specs.Prelude.{◌≡◌, ◌≤◌, true, Some, length, take, drop};
ghost use Rattle.vr_scan.specs.Mark.{is_blank, without_end, field, ending_by, ending_of, is_joined};
ghost use Rattle.vr_scan.specs.Mark.{own_text, sign_at_end, blanks_left_out};

use crate::mark::{Ending, Sign};

/// How many columns count, the second of a line the first of them.
const WIDTH: usize = 71;

/// Whether a byte is a blank.
fn is_blank(byte: u8) -> bool
    ensures { result ≡ is_blank byte }
{
    byte == b' '
}

/// What counts of a line: columns 2 to 72, without the blanks at their end.
pub(crate) fn field(line: &[u8]) -> &[u8]
    ensures value { result.now ≡ field line.now }
    ensures short { length result.now ≤ 71 }
{
    without_end(at_most(without_first(line), WIDTH))
}

/// A line without its first column.
fn without_first(line: &[u8]) -> &[u8]
    ensures { result.now ≡ drop 1 line.now }
{
    match line.split_first() {
        Some((_, rest)) => rest,
        None => line,
    }
}

/// At most this many columns of a text.
fn at_most(text: &[u8], width: usize) -> &[u8]
    ensures value { result.now ≡ take width text.now }
    ensures short { length result.now ≤ width }
{
    if text.len() > width {
        &text[..width]
    } else {
        text
    }
}

/// A text without the blanks at its end.
fn without_end(text: &[u8]) -> &[u8]
    ensures value { result.now ≡ without_end text.now }
    ensures short { length result.now ≤ length text.now }
{
    let mut end = text.len();
    while end > 0 && is_blank(text[end - 1]) {
        end -= 1;
    }
    &text[..end]
}

/// How a field ends.
pub(crate) fn ending_of(field: &[u8]) -> Ending
    ensures { result ≡ ending_of field.now }
{
    match field.last() {
        Some(byte) => ending_by(*byte),
        None => Ending::Whole,
    }
}

/// How a field with this last character ends.
fn ending_by(byte: u8) -> Ending
    ensures { result ≡ ending_by (Some byte) }
{
    if byte == b'-' {
        Ending::Hyphen
    } else if byte == b'+' {
        Ending::Plus
    } else {
        Ending::Whole
    }
}

/// Whether the next line is joined to one with this ending.
pub(crate) fn is_joined(ending: Ending) -> bool
    ensures { result ≡ is_joined ending }
{
    match ending {
        Ending::Whole => false,
        Ending::Hyphen => false,
        Ending::Plus => true,
    }
}

/// A field without the character by which it goes on.
pub(crate) fn own_text(ending: Ending, field: &[u8]) -> &[u8]
    ensures value { result.now ≡ own_text ending field.now }
    ensures short { length result.now ≤ length field.now }
{
    match ending {
        Ending::Whole => field,
        Ending::Hyphen => &field[..field.len().saturating_sub(1)],
        Ending::Plus => &field[..field.len().saturating_sub(1)],
    }
}

/// What stands at the end of a line, given whether there is a further one.
pub(crate) fn sign_at_end(ending: Ending, more: bool) -> Option<Sign>
    ensures { result ≡ sign_at_end ending more }
{
    match ending {
        Ending::Whole => Some(Sign::LineEnd),
        Ending::Hyphen => {
            if more {
                Some(Sign::Character(b' '))
            } else {
                Some(Sign::OpenEnd)
            }
        }
        Ending::Plus => { if more { None } else { Some(Sign::OpenEnd) } }
    }
}

/// How many blanks a line leaves out, given whether it is joined to the one before.
pub(crate) fn blanks_left_out(joined: bool, text: &[u8]) -> usize
    ensures value { result ≡ blanks_left_out joined text.now }
    ensures short { result ≤ length text.now }
{
    if joined { blanks_before(text) } else { 0 }
}

/// How many blanks a text begins with.
fn blanks_before(text: &[u8]) -> usize
    ensures value { result ≡ blanks_left_out true text.now }
    ensures short { result ≤ length text.now }
{
    for (at, byte) in text.iter().enumerate() {
        if !is_blank(*byte) {
            return at;
        }
    }
    text.len()
}
