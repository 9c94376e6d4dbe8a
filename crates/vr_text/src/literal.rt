//! Reading literals.
ghost use Rattle.std.specs.Prelude.{◌≡◌, ◌≢◌, ℕ, ◌+◌, ◌<◌, ◌*◌, ◌%◌, ◌++◌, ◌↔◌, List, length};
ghost use Rattle.std.specs.Prelude.{codes, slice_index, Contains, IsTrue, IfOk, IfErr, IfNone};
ghost use Rattle.std.specs.Prelude.{IfSome, MatchOption};
ghost use Rattle.std.specs.Char.{digit_value};
ghost use Rattle.vr_text.specs.Literal.{doubled, SpellsBytes, IsLiteral, IsFirstBadDigit, CauseOf};
ghost use Rattle.vr_text.specs.LiteralParts.{CauseInCharacters, CauseInDigits};

use std::alloc::Global;
use vr_types::{Bytes, OutOfMemory};

/// The byte that closes a literal.
const QUOTE: u8 = b'\'';

/// Why a text is not a literal. Offsets are in bytes.
#[derive(Clone, Copy, PartialEq, Eq)]
pub enum LiteralFault {
    /// The text isn't `C'..'` or `X'..'`, or a quote closes it before its end, or none does.
    Unclosed,
    /// The byte at `at` of an `X'..'` is not a digit, or it is the last digit and has no partner.
    Digit { at: usize },
    /// Memory ran out.
    Memory,
}

impl From<OutOfMemory> for LiteralFault {
    ghost use Rattle.std.specs.Prelude.{◌≡◌};
    ghost use Rattle.vr_text.specs.declared.literal.LiteralFault.TheVariants.{Memory};

    ghost from_gives = { λ _ fault. fault ≡ Memory };

    fn from(_error: OutOfMemory) -> LiteralFault {
        LiteralFault::Memory
    }
}

/// The bytes of a literal, after the rules of Access Method Services Commands: `C'..'` has the
/// bytes as they are, each quote doubled; `X'..'` has two hexadecimal digits for each byte, in
/// either case.
pub fn read_literal(alloc: Global, text: &str) -> Result<Bytes, LiteralFault>
    ensures bytes { IfOk result (IsLiteral text.now) }
    ensures fault { IfErr result (CauseOf text.now) }
{
    let text = text.as_bytes();
    if let Some(quoted) = between(text, b"C'") {
        return read_characters(alloc, quoted);
    }
    match between(text, b"X'") {
        Some(digits) => read_digits(alloc, digits),
        None => Err(LiteralFault::Unclosed),
    }
}

/// The bytes between the opening of a literal and a quote at its end.
fn between<'a>(text: &'a [u8], opening: &[u8]) -> Option<&'a [u8]>
    ensures { MatchOption result
        ((inner : List ℕ) → text.now ≢ opening.now ++ inner ++ codes "'")
        (λ inner. text.now ≡ opening.now ++ inner.now ++ codes "'") }
{
    text.strip_prefix(opening)?.strip_suffix(b"'")
}

/// The bytes in a `C'..'`, its quotes doubled.
fn read_characters(alloc: Global, quoted: &[u8]) -> Result<Bytes, LiteralFault>
    ensures bytes { IfOk result (λ bytes. quoted.now ≡ doubled bytes) }
    ensures fault { IfErr result (CauseInCharacters quoted.now) }
{
    if !is_doubled(quoted) {
        return Err(LiteralFault::Unclosed);
    }
    Ok(undoubled(alloc, quoted)?)
}

/// Whether each quote is doubled.
fn is_doubled(quoted: &[u8]) -> bool
    ensures { IsTrue result ↔ ((bytes : List ℕ) × (quoted.now ≡ doubled bytes)) }
{
    let mut halved = false;
    for byte in quoted {
        if halved && *byte != QUOTE {
            return false;
        }
        halved = !halved && *byte == QUOTE;
    }
    !halved
}

/// The bytes with one quote for two.
fn undoubled(alloc: Global, quoted: &[u8]) -> Result<Bytes, OutOfMemory>
    ensures { IfOk result (λ read. (bytes : List ℕ) → quoted.now ≡ doubled bytes → read ≡ bytes) }
{
    let mut bytes = Bytes::new(alloc);
    let mut halved = false;
    for byte in quoted {
        halved = !halved && *byte == QUOTE;
        if !halved {
            bytes.push(*byte)?;
        }
    }
    Ok(bytes)
}

/// The bytes that the digits of an `X'..'` spell.
fn read_digits(alloc: Global, digits: &[u8]) -> Result<Bytes, LiteralFault>
    ensures bytes { IfOk result (SpellsBytes digits.now) }
    ensures fault { IfErr result (CauseInDigits digits.now) }
{
    if digits.contains(&QUOTE) {
        return Err(LiteralFault::Unclosed);
    }
    if let Some(at) = first_bad_digit(digits) {
        return Err(LiteralFault::Digit { at: at + 2 });
    }
    Ok(paired(alloc, digits)?)
}

/// Where the digits first depart from pairs of digits.
fn first_bad_digit(digits: &[u8]) -> Option<usize>
    ensures none { IfNone result ((length digits.now % 2 ≡ 0)
        × ((i : ℕ) → i < length digits.now → digit_value (slice_index digits.now i) < 16)) }
    ensures some { IfSome result (IsFirstBadDigit digits.now) }
{
    for (at, digit) in digits.iter().enumerate() {
        if !char::from(*digit).is_digit(16) {
            return Some(at);
        }
    }
    if digits.len() % 2 == 1 {
        Some(digits.len() - 1)
    } else {
        None
    }
}

/// A byte for each pair of digits.
fn paired(alloc: Global, digits: &[u8]) -> Result<Bytes, OutOfMemory>
    requires even { length digits.now % 2 ≡ 0 }
    requires valid { (i : ℕ) → i < length digits.now → digit_value (slice_index digits.now i) < 16 }
    ensures { IfOk result (SpellsBytes digits.now) }
{
    let mut bytes = Bytes::new(alloc);
    for at in 0..digits.len() / 2 {
        bytes.push(16 * value_of(digits[2 * at]) + value_of(digits[2 * at + 1]))?;
    }
    Ok(bytes)
}

/// The value of a hexadecimal digit.
fn value_of(digit: u8) -> u8
    requires { digit_value digit < 16 }
    ensures { result ≡ digit_value digit }
{
    char::from(digit).to_digit(16).unwrap() as u8
}
