//! Lines of a job, each by itself: plainly and slowly.

use crate::simple::{is_name, part};
use std::alloc::Global;
use vr_case_table::{Answer, Stop};

/// What a line is.
#[derive(Clone, Copy, PartialEq, Eq)]
pub enum What {
    /// No card.
    Text,
    /// A card that says nothing.
    Nothing,
    /// The end of what goes on.
    End,
    /// A step of decks begins.
    Decks,
    /// A step of utilities begins.
    Utilities,
    /// Data follows.
    Data,
}

/// A line: what it is, the number of its fault by itself, 0 where it has none, and the column.
#[derive(Clone, Copy)]
pub struct Look {
    pub what: What,
    pub cause: u8,
    pub column: usize,
}

/// A word of a line, with the column where it begins.
#[derive(Clone, Copy)]
struct Word<'a> {
    column: usize,
    text: &'a [u8],
}

/// Adds the lines of a text, whole.
pub fn add_lines<'a>(lines: &mut Vec<&'a [u8]>, text: &'a [u8]) -> Answer {
    let mut start = 0usize;
    for (at, byte) in text.iter().enumerate() {
        if *byte == b'\n' {
            lines.push(without_return(part(text, start, at)))?;
            start = at.saturating_add(1);
        }
    }
    if start < text.len() {
        lines.push(part(text, start, text.len()))?;
    }
    Ok(())
}

/// A line without the carriage return at its end.
fn without_return(line: &[u8]) -> &[u8] {
    if line.ends_with(b"\r") {
        part(line, 0, line.len().saturating_sub(1))
    } else {
        line
    }
}

/// A line up to the last byte that isn't a blank.
pub fn used(line: &[u8]) -> &[u8] {
    let mut end = 0usize;
    for (at, byte) in line.iter().enumerate() {
        if *byte != b' ' {
            end = at.saturating_add(1);
        }
    }
    part(line, 0, end)
}

/// Adds the words of a line.
fn add_words<'a>(words: &mut Vec<Word<'a>>, line: &'a [u8]) -> Answer {
    let mut start = 0usize;
    for (at, byte) in line.iter().enumerate() {
        let next = at.saturating_add(1);
        if *byte == b' ' {
            start = next;
        } else if next == line.len() || line.get(next) == Some(&b' ') {
            words.push(Word {
                column: start.saturating_add(1),
                text: part(line, start, next),
            })?;
        }
    }
    Ok(())
}

/// A line that is this, and right.
fn right(what: What) -> Look {
    Look {
        what,
        cause: 0,
        column: 0,
    }
}

/// A card that is wrong.
fn wrong(cause: u8, column: usize) -> Look {
    Look {
        what: What::Nothing,
        cause,
        column,
    }
}

/// What a line is.
pub fn look_at(alloc: Global, line: &[u8]) -> Result<Look, Stop> {
    if let Some(column) = odd_column(line) {
        return Ok(wrong(5, column));
    }
    if line == b"/*".as_slice() {
        return Ok(right(What::End));
    }
    if !line.starts_with(b"//") {
        return Ok(right(What::Text));
    }
    if line.len() == 2 || line.starts_with(b"//*") || line.starts_with(b"// ") {
        return Ok(right(What::Nothing));
    }
    let mut words = Vec::new(alloc);
    match add_words(&mut words, line) {
        Ok(()) => Ok(card_of(line, words.as_slice())),
        Err(stop) => Err(stop),
    }
}

/// The column of the first character that isn't allowed.
fn odd_column(line: &[u8]) -> Option<usize> {
    for (at, byte) in line.iter().enumerate() {
        if *byte < b' ' || *byte > b'~' {
            return Some(at.saturating_add(1));
        }
    }
    None
}

/// What a card is by its words.
fn card_of(line: &[u8], words: &[Word]) -> Look {
    let after = line.len().saturating_add(1);
    if words.is_empty() || !is_name(name_of(line)) {
        return wrong(1, 3);
    }
    if words.len() == 1 {
        return wrong(1, after);
    }
    let verb = words[1];
    if verb.text == b"JOB".as_slice() {
        right(What::Nothing)
    } else if verb.text == b"DD".as_slice() {
        let inline = words.len() == 3 && words[2].text == b"*".as_slice();
        right(if inline { What::Data } else { What::Nothing })
    } else if verb.text != b"EXEC".as_slice() {
        wrong(1, verb.column)
    } else if words.len() == 2 {
        wrong(1, after)
    } else {
        step_of(words[2], words)
    }
}

/// What the card of a step is by its operand.
fn step_of(operand: Word, words: &[Word]) -> Look {
    if !operand.text.starts_with(b"PGM=") {
        return wrong(1, operand.column);
    }
    let program = part(operand.text, 4, operand.text.len());
    let column = operand.column.saturating_add(4);
    let length = length_to(program, b',');
    let name = part(program, 0, length);
    if name == b"IDCAMS".as_slice() {
        right(What::Utilities)
    } else if name.is_empty() {
        wrong(1, column)
    } else if name != b"VRMDECK".as_slice() {
        wrong(2, column)
    } else if length < program.len() {
        wrong(3, column.saturating_add(7))
    } else if words.len() > 3 {
        wrong(3, words[3].column)
    } else {
        right(What::Decks)
    }
}

/// The name on a card: what follows the slashes up to the first blank.
pub fn name_of(line: &[u8]) -> &[u8] {
    part(line, 2, length_to(line, b' '))
}

/// How many bytes stand before the first of a kind, or how many there are.
fn length_to(text: &[u8], kind: u8) -> usize {
    for (at, byte) in text.iter().enumerate() {
        if *byte == kind {
            return at;
        }
    }
    text.len()
}

/// The number of the deck that a card announces: 0 where it announces none.
pub fn number_of(line: &[u8]) -> Option<u32> {
    let name = name_of(line);
    if !name.starts_with(b"DECK") || name.len() < 5 {
        return None;
    }
    let mut value = 0u32;
    for byte in part(name, 4, name.len()) {
        if !byte.is_ascii_digit() {
            return None;
        }
        value = value
            .saturating_mul(10)
            .saturating_add(u32::from(byte.saturating_sub(b'0')));
    }
    Some(value)
}
