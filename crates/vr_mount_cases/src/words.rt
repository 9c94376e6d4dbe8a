//! Words of a line: numbers and bytes.

use crate::answers::{Answer, Stop};
use std::alloc::Global;
use vr_text::number;

/// The first word of a text and what stands after it, which may be nothing.
pub fn parted(text: &str) -> (&str, &str) {
    text.split_once(' ').unwrap_or((text, ""))
}

/// A number that a word spells.
pub fn size_of(word: &str) -> Result<usize, Stop> {
    let value = number(word).ok_or(Stop::Line)?;
    usize::try_from(value).ok().ok_or(Stop::Line)
}

/// A number of two bytes that a word spells.
pub fn small_of(word: &str) -> Result<u16, Stop> {
    let value = number(word).ok_or(Stop::Line)?;
    u16::try_from(value).ok().ok_or(Stop::Line)
}

/// A number of four bytes that a word spells.
pub fn word_of(word: &str) -> Result<u32, Stop> {
    let value = number(word).ok_or(Stop::Line)?;
    u32::try_from(value).ok().ok_or(Stop::Line)
}

/// The bytes that hexadecimal digits spell.
pub fn bytes_of(alloc: Global, digits: &str) -> Result<Vec<u8>, Stop> {
    match hex::decode(alloc, digits) {
        Ok(bytes) => Ok(bytes),
        Err(hex::FromHexError::OutOfMemory) => Err(Stop::Memory),
        Err(_) => Err(Stop::Line),
    }
}

/// Puts pieces into bytes: `@PLACE` says where the next ones stand, `HEX` and `HEX*COUNT` what they
/// are, and `=TEXT` is text.
pub fn put_pieces(alloc: Global, bytes: &mut [u8], pieces: &str) -> Answer {
    let mut at = 0usize;
    for piece in pieces.split_whitespace() {
        match piece.strip_prefix('@') {
            Some(place) => at = size_of(place)?,
            None => at = put_piece(alloc, bytes, at, piece)?,
        }
    }
    Ok(())
}

/// Puts one piece there, and answers where it ends.
fn put_piece(alloc: Global, bytes: &mut [u8], at: usize, piece: &str) -> Result<usize, Stop> {
    if let Some(text) = piece.strip_prefix('=') {
        return put_bytes(bytes, at, text.as_bytes()).ok_or(Stop::Line);
    }
    let (digits, count) = piece.split_once('*').unwrap_or((piece, "1"));
    let count = small_of(count)?;
    let digits = bytes_of(alloc, digits)?;
    let mut at = at;
    for _ in 0..count {
        at = put_bytes(bytes, at, digits.as_slice()).ok_or(Stop::Line)?;
    }
    Ok(at)
}

/// Puts the bytes there, and answers where they end.
fn put_bytes(out: &mut [u8], at: usize, bytes: &[u8]) -> Option<usize> {
    let end = at.checked_add(bytes.len())?;
    out.get_mut(at..end)?.copy_from_slice(bytes);
    Some(end)
}
