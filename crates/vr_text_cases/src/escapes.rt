//! Texts of several lines in a line of the table: `\n`, `\r`, `\t` and `\xHH` stand for bytes.

use std::alloc::Global;
use vr_case_table::{Answer, Stop};

/// The bytes that a text of the table stands for.
pub fn bytes_of(alloc: Global, text: &str) -> Result<Vec<u8>, Stop> {
    let mut bytes = Vec::new(alloc);
    match add_parts(&mut bytes, text) {
        Ok(()) => Ok(bytes),
        Err(stop) => Err(stop),
    }
}

fn add_parts(bytes: &mut Vec<u8>, text: &str) -> Answer {
    let mut parts = text.split('\\');
    if let Some(first) = parts.next() {
        bytes.extend_from_slice(first.as_bytes())?;
    }
    for part in parts {
        add_escaped(bytes, part.as_bytes())?;
    }
    Ok(())
}

/// Adds what follows a backslash.
fn add_escaped(bytes: &mut Vec<u8>, part: &[u8]) -> Answer {
    let Some(kind) = part.first() else {
        return Err(Stop::Line);
    };
    let (byte, length) = match *kind {
        b'n' => (b'\n', 1),
        b'r' => (b'\r', 1),
        b't' => (b'\t', 1),
        b'x' => (hex_byte(part)?, 3),
        _ => return Err(Stop::Line),
    };
    bytes.push(byte)?;
    let rest = part.get(length..).ok_or(Stop::Line)?;
    bytes.extend_from_slice(rest)?;
    Ok(())
}

/// The byte of the two digits after the `x`.
fn hex_byte(part: &[u8]) -> Result<u8, Stop> {
    let digits = part.get(1..3).ok_or(Stop::Line)?;
    let digits = str::from_utf8(digits).ok().ok_or(Stop::Line)?;
    u8::from_str_radix(digits, 16).ok().ok_or(Stop::Line)
}
