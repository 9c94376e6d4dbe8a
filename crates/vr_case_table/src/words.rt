//! Words of a line: numbers and bytes.

use crate::stop::{Answer, Stop};
use std::alloc::Global;

/// The first word of a text and what comes after it, which may be nothing.
pub fn parted(text: &str) -> (&str, &str) {
    text.split_once(' ').unwrap_or((text, ""))
}

/// The number that a word spells.
pub fn long_of(word: &str) -> Result<u64, Stop> {
    word.parse().ok().ok_or(Stop::Line)
}

/// A number of four bytes that a word spells.
pub fn word_of(word: &str) -> Result<u32, Stop> {
    word.parse().ok().ok_or(Stop::Line)
}

/// A number of two bytes that a word spells.
pub fn small_of(word: &str) -> Result<u16, Stop> {
    word.parse().ok().ok_or(Stop::Line)
}

/// A number of one byte that a word spells.
pub fn byte_of(word: &str) -> Result<u8, Stop> {
    word.parse().ok().ok_or(Stop::Line)
}

/// A size that a word spells.
pub fn size_of(word: &str) -> Result<usize, Stop> {
    word.parse().ok().ok_or(Stop::Line)
}

/// The numbers of four bytes that words spell.
pub fn numbers_of(alloc: Global, text: &str) -> Result<Vec<u32>, Stop> {
    let mut numbers = Vec::new(alloc);
    match add_numbers(&mut numbers, text) {
        Ok(()) => Ok(numbers),
        Err(stop) => Err(stop),
    }
}

fn add_numbers(numbers: &mut Vec<u32>, text: &str) -> Answer {
    for word in text.split_whitespace() {
        numbers.push(word_of(word)?)?;
    }
    Ok(())
}

/// The numbers of eight bytes that words spell.
pub fn longs_of(alloc: Global, text: &str) -> Result<Vec<u64>, Stop> {
    let mut numbers = Vec::new(alloc);
    match add_longs(&mut numbers, text) {
        Ok(()) => Ok(numbers),
        Err(stop) => Err(stop),
    }
}

fn add_longs(numbers: &mut Vec<u64>, text: &str) -> Answer {
    for word in text.split_whitespace() {
        numbers.push(long_of(word)?)?;
    }
    Ok(())
}

/// The bytes that hexadecimal digits spell.
pub fn digits_of(alloc: Global, digits: &str) -> Result<Vec<u8>, Stop> {
    match hex::decode(alloc, digits) {
        Ok(bytes) => Ok(bytes),
        Err(hex::FromHexError::OutOfMemory) => Err(Stop::Memory),
        Err(_) => Err(Stop::Line),
    }
}
