//! A scanner of command texts, plain and slow: it lists all characters with their places first, and
//! then looks at each place for what begins there.

use crate::lines::LINE_BREAK;
use crate::tokens::{say_fault, say_spot, say_token};
use vr_case_table::{Answer, Answers, Stop};
use vr_scan::TokenKind;

/// What stands at a place: a character, a line's end, or the sign by which the last line goes on.
#[derive(Clone, Copy, PartialEq, Eq)]
enum What {
    Letter(u8),
    Stop,
    Dangling,
}

/// What stands at a place, and which place.
#[derive(Clone, Copy)]
struct Spot {
    what: What,
    line: u32,
    column: u32,
}

/// What begins at a spot: nothing or a token up to another spot, the text of which stands apart,
/// the end of a command, or a fault.
#[derive(Clone, Copy)]
enum Found {
    Skip { to: usize },
    Token { kind: TokenKind, to: usize },
    Command { to: usize },
    Fault { cause: u32, spot: Spot },
}

/// What was read so far: the place where reading goes on, whether a command has begun, and the text
/// of the last token.
#[derive(Drop)]
struct Reading {
    resume: usize,
    open: bool,
    text: Vec<u8>,
}

/// Writes the tokens of the lines of a text, which are numbered from 1, or its first fault.
pub fn read(text: &str, out: &mut Answers) -> Answer {
    let mut spots = Vec::new(out.alloc());
    match add_lines(&mut spots, text) {
        Ok(()) => read_spots(spots.as_slice(), out),
        Err(stop) => Err(stop),
    }
}

/// Writes the tokens that begin at spots.
fn read_spots(spots: &[Spot], out: &mut Answers) -> Answer {
    let mut reading = Reading {
        resume: 0,
        open: false,
        text: Vec::new(out.alloc()),
    };
    read_all(&mut reading, spots, out)
}

fn read_all(reading: &mut Reading, spots: &[Spot], out: &mut Answers) -> Answer {
    for (at, spot) in spots.iter().enumerate() {
        if at >= reading.resume && !read_one(reading, spots, at, *spot, out)? {
            return Ok(());
        }
    }
    Ok(())
}

/// Writes what begins at a spot, and says whether it is no fault.
fn read_one(
    reading: &mut Reading,
    spots: &[Spot],
    at: usize,
    spot: Spot,
    out: &mut Answers,
) -> Result<bool, Stop> {
    match found_at(&mut reading.text, spots, at, spot)? {
        Found::Skip { to } => reading.resume = to,
        Found::Token { kind, to } => {
            say_token(kind, reading.text.as_slice(), out);
            say_spot(spot.line, spot.column, out);
            reading.open = true;
            reading.resume = to;
        }
        Found::Command { to } => {
            if reading.open {
                say_token(TokenKind::End, b"", out);
                say_spot(spot.line, spot.column, out);
            }
            reading.open = false;
            reading.resume = to;
        }
        Found::Fault { cause, spot } => {
            say_fault(cause, spot.line, spot.column, out);
            return Ok(false);
        }
    }
    Ok(true)
}

/// Adds all characters and ends of a text.
fn add_lines(spots: &mut Vec<Spot>, text: &str) -> Answer {
    let mut number = 0u32;
    let mut joined = false;
    let count = text.split(LINE_BREAK).count();
    for line in text.split(LINE_BREAK) {
        number = number.saturating_add(1);
        let last = (number as usize) >= count;
        joined = add_line(spots, line.as_bytes(), number, joined, last)?;
    }
    Ok(())
}

/// The last column from 2 to 72 that isn't blank, or 1.
fn last_column(line: &[u8]) -> usize {
    let mut last = 1usize;
    for (i, byte) in line.iter().enumerate() {
        if i >= 1 && i < 72 && *byte != b' ' {
            last = i + 1;
        }
    }
    last
}

/// Adds a line, and says whether the next is joined to it.
fn add_line(
    spots: &mut Vec<Spot>,
    line: &[u8],
    number: u32,
    joined: bool,
    last: bool,
) -> Result<bool, Stop> {
    let end = last_column(line);
    let sign = if end > 1 { letter(line, end - 1) } else { b' ' };
    let goes_on = sign == b'-' || sign == b'+';
    let own = if goes_on { end - 1 } else { end };
    let mut begun = !joined;
    for column in 2..own.saturating_add(1) {
        let byte = letter(line, column.saturating_sub(1));
        begun = begun || byte != b' ';
        if begun {
            add(spots, What::Letter(byte), number, column)?;
        }
    }
    if !goes_on {
        add(spots, What::Stop, number, end.saturating_add(1))?;
    } else if last {
        add(spots, What::Dangling, number, end)?;
    } else if sign == b'-' {
        add(spots, What::Letter(b' '), number, end)?;
    }
    Ok(sign == b'+')
}

/// Adds a spot.
fn add(spots: &mut Vec<Spot>, what: What, line: u32, column: usize) -> Answer {
    let column = u32::try_from(column).unwrap_or(0);
    spots.push(Spot { what, line, column })?;
    Ok(())
}

/// A byte of a line.
fn letter(line: &[u8], i: usize) -> u8 {
    match line.get(i) {
        Some(byte) => *byte,
        None => b' ',
    }
}

/// The character of a spot, or 0.
fn byte(spots: &[Spot], at: usize) -> u8 {
    match spots.get(at) {
        Some(spot) => match spot.what {
            What::Letter(byte) => byte,
            What::Stop => 0,
            What::Dangling => 0,
        },
        None => 0,
    }
}

/// Whether a character has a meaning of its own between words.
fn is_special(byte: u8) -> bool {
    b" ,;()=<>".contains(&byte)
}

/// What begins at a spot. The text of a token is put into `text`.
fn found_at(text: &mut Vec<u8>, spots: &[Spot], at: usize, spot: Spot) -> Result<Found, Stop> {
    text.clear();
    let to = at.saturating_add(1);
    let next = byte(spots, to);
    match spot.what {
        What::Stop => Ok(Found::Command { to }),
        What::Dangling => Ok(Found::Fault { cause: 4, spot }),
        What::Letter(b'/') if next == b'*' => Ok(comment(spots, at, spot)),
        What::Letter(b'C' | b'c') if next == b'\'' => characters(text, spots, at, spot),
        What::Letter(b'X' | b'x') if next == b'\'' => digits(text, spots, at, spot),
        What::Letter(first) if is_special(first) => special(text, first, next, to),
        What::Letter(_) => word(text, spots, at),
    }
}

/// One of the characters that have a meaning of their own.
fn special(text: &mut Vec<u8>, first: u8, next: u8, to: usize) -> Result<Found, Stop> {
    match first {
        b';' => Ok(Found::Command { to }),
        b'(' => Ok(token(TokenKind::Open, to)),
        b')' => Ok(token(TokenKind::Close, to)),
        b' ' | b',' => Ok(Found::Skip { to }),
        _ => comparison(text, first, next, to),
    }
}

/// A token up to a spot.
fn token(kind: TokenKind, to: usize) -> Found {
    Found::Token { kind, to }
}

/// A comparison, of one character or two.
fn comparison(text: &mut Vec<u8>, first: u8, next: u8, to: usize) -> Result<Found, Stop> {
    text.push(first)?;
    let two = first != b'=' && next == b'=';
    if two {
        text.push(next)?;
    }
    let to = if two { to.saturating_add(1) } else { to };
    Ok(token(TokenKind::Compare, to))
}

/// A comment.
fn comment(spots: &[Spot], at: usize, spot: Spot) -> Found {
    for end in at.saturating_add(2)..spots.len() {
        if byte(spots, end) == b'*' && byte(spots, end.saturating_add(1)) == b'/' {
            return Found::Skip {
                to: end.saturating_add(2),
            };
        }
    }
    Found::Fault { cause: 1, spot }
}

/// A `C'..'`.
fn characters(text: &mut Vec<u8>, spots: &[Spot], at: usize, spot: Spot) -> Result<Found, Stop> {
    let mut resume = at.saturating_add(2);
    for end in at.saturating_add(2)..spots.len() {
        if end < resume {
            continue;
        }
        let here = byte(spots, end);
        let next = end.saturating_add(1);
        let double = here == b'\'' && byte(spots, next) == b'\'';
        resume = if double { next.saturating_add(1) } else { next };
        if here == 0 {
            break;
        }
        if here == b'\'' && !double {
            return Ok(token(TokenKind::Characters, next));
        }
        text.push(here)?;
    }
    Ok(Found::Fault { cause: 2, spot })
}

/// The value of a hexadecimal digit.
fn value(digit: u8) -> Option<u8> {
    match digit {
        b'0'..=b'9' => Some(digit - b'0'),
        b'A'..=b'F' => Some(digit - b'A' + 10),
        b'a'..=b'f' => Some(digit - b'a' + 10),
        _ => None,
    }
}

/// An `X'..'`.
fn digits(text: &mut Vec<u8>, spots: &[Spot], at: usize, spot: Spot) -> Result<Found, Stop> {
    let start = at.saturating_add(2);
    for end in start..spots.len() {
        match byte(spots, end) {
            b'\'' => return closed_digits(text, spots, start, end, spot),
            0 => break,
            _ => (),
        }
    }
    Ok(Found::Fault { cause: 2, spot })
}

/// An `X'..'` whose digits are those between two spots.
fn closed_digits(
    text: &mut Vec<u8>,
    spots: &[Spot],
    start: usize,
    end: usize,
    spot: Spot,
) -> Result<Found, Stop> {
    let mut high = None;
    let mut last = spot;
    for at in start..end {
        last = spots.get(at).copied().unwrap_or(spot);
        let Some(digit) = value(byte(spots, at)) else {
            return Ok(Found::Fault {
                cause: 3,
                spot: last,
            });
        };
        high = add_digit(text, high, digit)?;
    }
    if high.is_some() {
        return Ok(Found::Fault {
            cause: 3,
            spot: last,
        });
    }
    Ok(token(TokenKind::Hex, end.saturating_add(1)))
}

/// Adds a byte where a digit is its second, and answers its first where it isn't.
fn add_digit(text: &mut Vec<u8>, high: Option<u8>, digit: u8) -> Result<Option<u8>, Stop> {
    match high {
        None => Ok(Some(digit)),
        Some(first) => {
            text.push(digit.saturating_add(first.saturating_mul(16)))?;
            Ok(None)
        }
    }
}

/// A word.
fn word(text: &mut Vec<u8>, spots: &[Spot], at: usize) -> Result<Found, Stop> {
    let mut to = at;
    for end in at..spots.len() {
        let here = byte(spots, end);
        let opens = here == b'/' && byte(spots, end.saturating_add(1)) == b'*';
        if here == 0 || opens || is_special(here) {
            break;
        }
        text.push(here.to_ascii_uppercase())?;
        to = end.saturating_add(1);
    }
    Ok(token(TokenKind::Word, to))
}
