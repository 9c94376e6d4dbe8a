//! Words of a line: names and pieces of a record.

use std::alloc::Global;
use vr_case_table::{Answer, Stop, digits_of, size_of, small_of};
use vr_types::{Name, NameFault, dataset_name};

/// A name that a word spells.
pub fn name_of(alloc: Global, word: &str) -> Result<Name, Stop> {
    match dataset_name(alloc, word) {
        Ok(name) => Ok(name),
        Err(NameFault::Memory) => Err(Stop::Memory),
        Err(_) => Err(Stop::Line),
    }
}

/// A name that a word spells, or none for `-`.
pub fn name_or_none(alloc: Global, word: &str) -> Result<Option<Name>, Stop> {
    if word == "-" {
        return Ok(None);
    }
    Ok(Some(name_of(alloc, word)?))
}

/// Puts pieces into bytes: `@PLACE` says where the next ones stand, `HEX` and `HEX*COUNT` what they
/// are, and `=TEXT` is text.
pub fn put_pieces(alloc: Global, bytes: &mut [u8], pieces: &str) -> Answer {
    let mut at = 0usize;
    for piece in pieces.split_whitespace() {
        match piece.strip_prefix('@') {
            Some(place) => at = size_of(place)?,
            None => at = put_piece(alloc, bytes, at, piece)?,
        }
    }
    Ok(())
}

/// Puts one piece there, and answers where it ends.
fn put_piece(alloc: Global, bytes: &mut [u8], at: usize, piece: &str) -> Result<usize, Stop> {
    if let Some(text) = piece.strip_prefix('=') {
        return put_bytes(bytes, at, text.as_bytes()).ok_or(Stop::Line);
    }
    let (digits, count) = piece.split_once('*').unwrap_or((piece, "1"));
    let count = small_of(count)?;
    let digits = digits_of(alloc, digits)?;
    let mut at = at;
    for _ in 0..count {
        at = put_bytes(bytes, at, digits.as_slice()).ok_or(Stop::Line)?;
    }
    Ok(at)
}

/// Puts the bytes there, and answers where they end.
fn put_bytes(out: &mut [u8], at: usize, bytes: &[u8]) -> Option<usize> {
    let end = at.checked_add(bytes.len())?;
    out.get_mut(at..end)?.copy_from_slice(bytes);
    Some(end)
}
