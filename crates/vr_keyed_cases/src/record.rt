//! The records of the cases: a key of eight digits, and one byte again and again.
ghost use Rattle.std.specs.Prelude.{◌≡◌, length, IfOk};

use std::alloc::{AllocError, Global};

/// The key of a number: its last eight decimal digits.
pub fn key(alloc: Global, number: u32) -> Result<Vec<u8>, AllocError>
    ensures { IfOk result (λ key. length key.items ≡ 8) }
{
    let mut key = vec![in alloc; 48; 8]?;
    put_digits(key.as_mut_slice(), number);
    Ok(key)
}

/// Writes the last digits of a number, as many as there is room for.
fn put_digits(key: &mut [u8], number: u32) {
    let mut rest = number;
    for digit in key.iter_mut().rev() {
        *digit = 48 + (rest % 10) as u8;
        rest /= 10;
    }
}

/// A record of this length and key.
pub fn record(alloc: Global, key: &[u8], size: u32) -> Result<Vec<u8>, AllocError>
    ensures { IfOk result (λ bytes. length bytes.items ≡ size) }
{
    let mut bytes = Vec::from_slice(alloc, key)?;
    bytes.resize(size as usize, filler(size as usize))?;
    Ok(bytes)
}

/// What a record of that length is filled with.
fn filler(length: usize) -> u8 {
    (length % 251) as u8
}

/// Whether these bytes are the record of their length and of the key at their start.
pub fn is_whole(bytes: &[u8]) -> bool {
    let fill = filler(bytes.len());
    bytes.iter().skip(8).all(|byte| *byte == fill)
}
