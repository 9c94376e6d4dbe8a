//! Numbers and bytes in a line.

use crate::answers::Stop;
use std::alloc::Global;

/// A number of four bytes that a word spells.
pub fn number(word: &str) -> Result<u32, Stop> {
    word.parse().ok().ok_or(Stop::Line)
}

/// A number of eight bytes that a word spells, if there is a word.
pub fn long_number(word: &str) -> Result<Option<u64>, Stop> {
    if word.is_empty() {
        return Ok(None);
    }
    match word.parse() {
        Ok(number) => Ok(Some(number)),
        Err(_) => Err(Stop::Line),
    }
}

/// The first word of a text and what comes after it, which may be nothing.
pub fn split(text: &str) -> (&str, &str) {
    text.split_once(' ').unwrap_or((text, ""))
}

/// The numbers that words spell.
pub fn numbers(alloc: Global, text: &str) -> Result<Vec<u32>, Stop> {
    let mut numbers = Vec::new(alloc);
    match add_numbers(&mut numbers, text) {
        Ok(()) => Ok(numbers),
        Err(stop) => Err(stop),
    }
}

fn add_numbers(numbers: &mut Vec<u32>, text: &str) -> Result<(), Stop> {
    for word in text.split_whitespace() {
        numbers.push(number(word)?)?;
    }
    Ok(())
}

/// The two bytes that hexadecimal digits spell.
pub fn pair(alloc: Global, digits: &str) -> Result<[u8; 2], Stop> {
    match hex::decode(alloc, digits) {
        Ok(bytes) => pair_of(bytes.as_slice()),
        Err(hex::FromHexError::OutOfMemory) => Err(Stop::Memory),
        Err(_) => Err(Stop::Line),
    }
}

fn pair_of(bytes: &[u8]) -> Result<[u8; 2], Stop> {
    match bytes {
        [first, second] => Ok([*first, *second]),
        _ => Err(Stop::Line),
    }
}
