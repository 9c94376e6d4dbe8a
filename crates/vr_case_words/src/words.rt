//! Words of a line: numbers, places, records, files.
ghost use Rattle.std.specs.Prelude.{◌≤◌, length};

use std::alloc::Global;
use vr_case_table::{Stop, small_of, word_of};
use vr_text::{LiteralFault, plain_text, read_literal};
use vr_types::{Bytes, FileRef, Kind, PartNo, Place, Unit};

/// The first word of a text and what stands after it, which may be nothing. A word that is a
/// literal goes on to its closing quote, blanks and all.
pub fn parted(text: &str) -> (&str, &str) {
    if begins_literal(text) {
        return after_literal(text);
    }
    text.split_once(' ').unwrap_or((text, ""))
}

/// Whether a word is written as a literal: `C'..'` or `X'..'`.
fn begins_literal(word: &str) -> bool {
    word.starts_with("C'") || word.starts_with("X'")
}

/// The literal that a text begins with, and what stands after it.
fn after_literal(text: &str) -> (&str, &str) {
    let bytes = text.as_bytes();
    let len = literal_len(bytes);
    (
        plain_text(&bytes[..len]).unwrap_or(text),
        plain_text(&bytes[len..])
            .and_then(|rest| rest.strip_prefix(' '))
            .unwrap_or(""),
    )
}

/// How many bytes there are up to the first blank that is not between quotes.
fn literal_len(bytes: &[u8]) -> usize
    ensures { result ≤ length bytes.now }
{
    let mut quoted = false;
    for (at, byte) in bytes.iter().enumerate() {
        if *byte == b' ' && !quoted {
            return at;
        }
        if *byte == b'\'' {
            quoted = !quoted;
        }
    }
    bytes.len()
}

/// The bytes that a word spells: `C'..'` and `X'..'` those of the literal, `#N` a number of four
/// bytes, `TEXT+N` a text and N full stops after it, `.` nothing, and another word its characters.
pub fn bytes_of(alloc: Global, word: &str) -> Result<Vec<u8>, Stop> {
    if word == "." {
        return Ok(Vec::new(alloc));
    }
    if begins_literal(word) {
        return literal_bytes(alloc, word);
    }
    if let Some(digits) = word.strip_prefix('#') {
        return four_bytes(alloc, digits);
    }
    let (text, count) = word.split_once('+').unwrap_or((word, "0"));
    let count = small_of(count)?;
    text_and_stops(alloc, text, count)
}

/// The bytes of a literal.
fn literal_bytes(alloc: Global, word: &str) -> Result<Vec<u8>, Stop> {
    match read_literal(alloc, word) {
        Ok(bytes) => Ok(Vec::from_slice(alloc, bytes.as_slice())?),
        Err(LiteralFault::Memory) => Err(Stop::Memory),
        Err(LiteralFault::Unclosed) => Err(Stop::Line),
        Err(LiteralFault::Digit { .. }) => Err(Stop::Line),
    }
}

/// The four bytes of a number.
fn four_bytes(alloc: Global, digits: &str) -> Result<Vec<u8>, Stop> {
    let value = word_of(digits)?;
    let bytes = Vec::from_slice(alloc, &value.to_be_bytes())?;
    Ok(bytes)
}

/// A text and so many full stops.
fn text_and_stops(alloc: Global, text: &str, count: u16) -> Result<Vec<u8>, Stop> {
    let mut bytes = Vec::from_slice(alloc, text.as_bytes())?;
    for _ in 0..count {
        bytes.push(b'.')?;
    }
    Ok(bytes)
}

/// The place that a word spells.
pub fn place_of(alloc: Global, word: &str) -> Result<Place, Stop> {
    let bytes = bytes_of(alloc, word)?;
    Ok(Place::from_vec(bytes))
}

/// The record that a word spells.
pub fn record_of(alloc: Global, word: &str) -> Result<Bytes, Stop> {
    let bytes = bytes_of(alloc, word)?;
    Ok(Bytes::from_vec(bytes))
}

/// The place that a word spells, none for `-`.
pub fn place_or_none(alloc: Global, word: &str) -> Result<Option<Place>, Stop> {
    if word == "-" {
        return Ok(None);
    }
    let place = place_of(alloc, word)?;
    Ok(Some(place))
}

/// The record that a word spells, none for `-`.
pub fn record_or_none(alloc: Global, word: &str) -> Result<Option<Bytes>, Stop> {
    if word == "-" {
        return Ok(None);
    }
    let bytes = record_of(alloc, word)?;
    Ok(Some(bytes))
}

/// The unit of recovery that `DECK.NUMBER` spells.
pub fn unit_of(word: &str) -> Result<Unit, Stop> {
    let (deck, count) = word.split_once('.').unwrap_or((word, ""));
    let deck = word_of(deck)?;
    let count = word_of(count)?;
    Ok(Unit {
        deck,
        number: count,
    })
}

/// The file that `SLOT:BASE`, `SLOT:BASE:PATH` or, for a name that no catalog has, `?SLOT:BASE`
/// spells.
pub fn file_of(word: &str) -> Result<FileRef, Stop> {
    let (known, word) = match word.strip_prefix('?') {
        Some(rest) => (false, rest),
        None => (true, word),
    };
    let (slot, rest) = word.split_once(':').unwrap_or((word, ""));
    let (base, path) = rest.split_once(':').unwrap_or((rest, ""));
    let slot = word_of(slot)?;
    let base = word_of(base)?;
    let path = path_of(path)?;
    Ok(FileRef {
        volume: 0,
        slot,
        base: PartNo(base),
        path,
        kind: Kind::Keyed,
        known,
    })
}

/// The part of a path, if there is one.
fn path_of(word: &str) -> Result<Option<PartNo>, Stop> {
    if word.is_empty() {
        return Ok(None);
    }
    let part = word_of(word)?;
    Ok(Some(PartNo(part)))
}
