//! Numbers and bytes in a line.

use crate::answers::Stop;
use std::alloc::Global;

/// The first word of a text and what comes after it, which may be nothing.
pub fn parted(text: &str) -> (&str, &str) {
    text.split_once(' ').unwrap_or((text, ""))
}

/// A number of four bytes that a word spells.
pub fn number(word: &str) -> Result<u32, Stop> {
    word.parse().ok().ok_or(Stop::Line)
}

/// A number of eight bytes that a word spells.
pub fn long_number(word: &str) -> Result<u64, Stop> {
    word.parse().ok().ok_or(Stop::Line)
}

/// The numbers that words spell.
pub fn numbers(alloc: Global, text: &str) -> Result<Vec<u32>, Stop> {
    let mut numbers = Vec::new(alloc);
    match add_numbers(&mut numbers, text) {
        Ok(()) => Ok(numbers),
        Err(stop) => Err(stop),
    }
}

fn add_numbers(numbers: &mut Vec<u32>, text: &str) -> Result<(), Stop> {
    for word in text.split_whitespace() {
        numbers.push(number(word)?)?;
    }
    Ok(())
}

/// The bytes that hexadecimal digits spell.
pub fn bytes_in(alloc: Global, digits: &str) -> Result<Vec<u8>, Stop> {
    match hex::decode(alloc, digits) {
        Ok(bytes) => Ok(bytes),
        Err(hex::FromHexError::OutOfMemory) => Err(Stop::Memory),
        Err(_) => Err(Stop::Line),
    }
}
