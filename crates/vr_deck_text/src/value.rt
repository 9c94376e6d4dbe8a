//! Words as numbers and literals.
ghost use Rattle.std.specs.Prelude.{◌≡◌, true, IfOk};
ghost use Rattle.vr_text.specs.Words.{is_plain};
ghost use Rattle.vr_deck_text.specs.Values.{small_number_in, literal_in};

use std::alloc::Global;
use vr_text::{LiteralFault, number_in, plain_text, read_literal};
use vr_types::{Bytes, OutOfMemory};

/// The number from 0 to 4,294,967,295 that a word writes in 1 to 19 digits.
pub(crate) fn small_number_in(text: &[u8]) -> Option<u32>
    ensures { result ≡ small_number_in text.now }
{
    match number_in(text) {
        None => None,
        Some(number) => {
            if number <= u64::from(u32::MAX) {
                Some(number as u32)
            } else {
                None
            }
        }
    }
}

/// The bytes of the literal that a word is.
pub(crate) fn literal_in(alloc: Global, text: &[u8]) -> Result<Option<Bytes>, OutOfMemory>
    ensures { IfOk result (λ bytes. bytes ≡ literal_in text.now) }
{
    match plain_text(text) {
        None => Ok(None),
        Some(text) => plain_literal(alloc, text),
    }
}

/// The bytes of the literal that a text of ASCII characters is.
fn plain_literal(alloc: Global, text: &str) -> Result<Option<Bytes>, OutOfMemory>
    requires { is_plain text.now ≡ true }
    ensures { IfOk result (λ bytes. bytes ≡ literal_in text.now) }
{
    match read_literal(alloc, text) {
        Ok(bytes) => Ok(Some(bytes)),
        Err(LiteralFault::Memory) => Err(OutOfMemory),
        Err(LiteralFault::Unclosed) => Ok(None),
        Err(LiteralFault::Digit { .. }) => Ok(None),
    }
}
