//! The block that lines speak of.

use std::alloc::Global;
use std::fmt::Debug;
use vr_case_table::{Answer, Answers, Stop, digits_of, parted, size_of, small_of};

/// The largest block, in bytes.
const LIMIT: usize = 32_768;

/// Makes the block: `SIZE EDIT..`.
pub fn make_block(alloc: Global, block: &mut Vec<u8>, rest: &str, out: &mut Answers) -> Answer {
    let (size, edits) = parted(rest);
    let size = size_of(size)?;
    if size > LIMIT {
        return Err(Stop::Line);
    }
    block.clear();
    block.resize(size, 0)?;
    put_edits(alloc, block, edits)?;
    out.ok()
}

/// The block with other bytes: `@PLACE` says where the next ones stand, `HEX` and `HEX*COUNT` what
/// they are.
pub fn edited(alloc: Global, block: &[u8], edits: &str) -> Result<Vec<u8>, Stop> {
    let mut edited = Vec::from_slice(alloc, block)?;
    match put_edits(alloc, edited.as_mut_slice(), edits) {
        Ok(()) => Ok(edited),
        Err(stop) => Err(stop),
    }
}

/// Puts edits into the block.
fn put_edits(alloc: Global, block: &mut [u8], edits: &str) -> Answer {
    let mut at = 0usize;
    for edit in edits.split_whitespace() {
        match edit.strip_prefix('@') {
            Some(place) => at = size_of(place)?,
            None => at = put_edit(alloc, block, at, edit)?,
        }
    }
    Ok(())
}

/// Puts one edit there, and answers where it ends.
fn put_edit(alloc: Global, block: &mut [u8], at: usize, edit: &str) -> Result<usize, Stop> {
    let (digits, count) = edit.split_once('*').unwrap_or((edit, "1"));
    let count = small_of(count)?;
    let bytes = digits_of(alloc, digits)?;
    let mut at = at;
    for _ in 0..count {
        at = put_bytes(block, at, bytes.as_slice())?;
    }
    Ok(at)
}

/// Puts the bytes there, and answers where they end.
fn put_bytes(block: &mut [u8], at: usize, bytes: &[u8]) -> Result<usize, Stop> {
    let end = at.saturating_add(bytes.len());
    match block.get_mut(at..end) {
        Some(there) => there.copy_from_slice(bytes),
        None => return Err(Stop::Line),
    }
    Ok(end)
}

/// Some bytes of the block: `PLACE COUNT`.
pub fn bytes_at(block: &[u8], rest: &str, out: &mut Answers) -> Answer {
    let (at, count) = parted(rest);
    let at = size_of(at)?;
    let end = at.saturating_add(size_of(count)?);
    match block.get(at..end) {
        Some(bytes) => out.say_digits(bytes),
        None => return Err(Stop::Line),
    }
    Ok(())
}

/// Writes a value as `Debug` shows it.
pub fn say_debug<T: Debug>(value: &T, out: &mut Answers) {
    match format!(in out.alloc(); "{value:?}") {
        Ok(text) => out.say(text.as_str()),
        Err(_) => out.note_no_memory(),
    }
}
