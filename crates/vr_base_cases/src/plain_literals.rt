//! Literals by searches in texts, and numbers digit by digit, plainly and slowly.

use crate::judge::{Judged, push_letters};
use std::alloc::{AllocError, Global};
use vr_text::{LiteralFault, number, read_literal, write_literal};
use vr_types::Bytes;

/// One letter for each thing that may matter in a literal.
const ALPHABET: [&str; 8] = ["", "'", "A", "g", "0", "\u{e9}", "''", " "];

/// How texts begin that may be literals.
const BEGINS: [&str; 8] = ["C'", "X'", "C", "X", "", "c'", "x'", "'"];

/// Bytes at the ends of what may be printed.
const BYTES: [u8; 8] = [0, 0x1F, b' ', b'\'', b'A', b'~', 0x7F, 0xFF];

/// What numbers are made of, and what they aren't.
const DIGITS: [&str; 8] = ["", "0", "7", "+", "-", " ", "99999999", "0000000001"];

/// A copy of bytes, where memory is left.
fn kept(alloc: Global, bytes: &[u8]) -> Result<Vec<u8>, LiteralFault> {
    match Vec::from_slice(alloc, bytes) {
        Ok(kept) => Ok(kept),
        Err(_) => Err(LiteralFault::Memory),
    }
}

/// The bytes that what stands between the quotes of `C'..'` stands for.
fn characters(alloc: Global, quoted: &str) -> Result<Vec<u8>, LiteralFault> {
    for part in quoted.split("''") {
        if part.contains('\'') {
            return Err(LiteralFault::Unclosed);
        }
    }
    match quoted.replace(alloc, "''", "'") {
        Ok(text) => kept(alloc, text.as_bytes()),
        Err(_) => Err(LiteralFault::Memory),
    }
}

/// The value of a digit of either case.
fn digit(letter: char) -> Option<usize> {
    let capitals = "0123456789ABCDEF".find(letter);
    capitals.or("0123456789abcdef".find(letter))
}

/// The first place in `X'..'` that has no digit, where its digits begin at 2, or the last where
/// their number is odd.
fn digit_fault(digits: &str) -> Option<usize> {
    for (at, letter) in digits.char_indices() {
        if digit(letter).is_none() {
            return Some(at.saturating_add(2));
        }
    }
    if digits.len() % 2 == 0 {
        None
    } else {
        Some(digits.len().saturating_add(1))
    }
}

/// The bytes that what stands between the quotes of `X'..'` stands for.
fn hexadecimals(alloc: Global, digits: &str) -> Result<Vec<u8>, LiteralFault> {
    if let Some(at) = digit_fault(digits) {
        return Err(LiteralFault::Digit { at });
    }
    match hex::decode(alloc, digits) {
        Ok(bytes) => Ok(bytes),
        Err(_) => Err(LiteralFault::Memory),
    }
}

/// What a text is a literal of, or its fault.
fn read(alloc: Global, text: &str) -> Result<Vec<u8>, LiteralFault> {
    let Some(opened) = text.strip_suffix("'") else {
        return Err(LiteralFault::Unclosed);
    };
    if let Some(quoted) = opened.strip_prefix("C'") {
        return characters(alloc, quoted);
    }
    match opened.strip_prefix("X'") {
        Some(digits) if !digits.contains('\'') => hexadecimals(alloc, digits),
        _ => Err(LiteralFault::Unclosed),
    }
}

/// Whether the crate reads a text as the grammar says.
fn is_read(alloc: Global, text: &str) -> bool {
    match (read_literal(alloc, text), read(alloc, text)) {
        (Ok(bytes), Ok(plain)) => bytes.as_slice() == plain.as_slice(),
        (Err(fault), Err(plain)) => fault == plain && fault != LiteralFault::Memory,
        (_, _) => false,
    }
}

/// Judges each beginning with up to five letters after it.
pub fn judge_literals(alloc: Global) -> Result<Judged, AllocError> {
    let mut judged = Judged::new(alloc);
    for number in 0..262_144usize {
        let mut text = String::new(alloc);
        push_letters(&mut text, &BEGINS, 1, number % 8)?;
        push_letters(&mut text, &ALPHABET, 5, number / 8)?;
        judged.count(is_read(alloc, text.as_str()), text.as_str())?;
    }
    Ok(judged)
}

/// The one spelling of some bytes.
fn spelling(alloc: Global, bytes: &[u8]) -> Result<String, AllocError> {
    match printable(bytes) {
        Some(text) => {
            let doubled = text.replace(alloc, "'", "''")?;
            format!(in alloc; "C'{doubled}'")
        }
        None => {
            let digits = hex::encode_upper(alloc, bytes)?;
            format!(in alloc; "X'{digits}'")
        }
    }
}

/// The text of bytes that may all be printed.
fn printable(bytes: &[u8]) -> Option<&str> {
    let text = str::from_utf8(bytes).ok()?;
    if text.chars().all(|letter| (' '..='~').contains(&letter)) {
        Some(text)
    } else {
        None
    }
}

/// Judges each list of up to four bytes.
pub fn judge_spellings(alloc: Global) -> Result<Judged, AllocError> {
    let mut judged = Judged::new(alloc);
    for number in 0..20_480usize {
        let bytes = byte_list(alloc, number % 5, number / 5)?;
        let plain = spelling(alloc, bytes.as_slice())?;
        let same = is_written(alloc, bytes.as_slice(), plain.as_str());
        judged.count(same, plain.as_str())?;
    }
    Ok(judged)
}

/// Whether the crate writes some bytes so.
fn is_written(alloc: Global, bytes: &[u8], plain: &str) -> bool {
    let mut out = Bytes::new(alloc);
    write_literal(bytes, &mut out).is_ok() && out.as_slice() == plain.as_bytes()
}

/// A list of bytes, by the digits of a number in base 8.
fn byte_list(alloc: Global, count: usize, number: usize) -> Result<Vec<u8>, AllocError> {
    let mut bytes = Vec::new(alloc);
    let mut rest = number;
    for _ in 0..count {
        bytes.push(BYTES[rest % 8])?;
        rest /= 8;
    }
    Ok(bytes)
}

/// The number that a text of 1 to 19 digits spells.
fn plain_number(text: &str) -> Option<u64> {
    if text.is_empty() || text.len() > 19 {
        return None;
    }
    let mut number = 0u64;
    for letter in text.chars() {
        let value = "0123456789".find(letter)?;
        number = number.saturating_mul(10).saturating_add(value as u64);
    }
    Some(number)
}

/// Judges each text of up to five of these.
pub fn judge_numbers(alloc: Global) -> Result<Judged, AllocError> {
    let mut judged = Judged::new(alloc);
    for at in 0..32_768usize {
        let mut text = String::new(alloc);
        push_letters(&mut text, &DIGITS, 5, at)?;
        let same = number(text.as_str()) == plain_number(text.as_str());
        judged.count(same, text.as_str())?;
    }
    Ok(judged)
}
