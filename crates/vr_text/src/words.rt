//! Words as names and numbers.
ghost use Rattle.std.specs.Prelude.{◌≡◌, true, false, IfOk, IfSome, IfNone};
ghost use Rattle.vr_text.specs.Words.{is_plain, name_in, number_in};
ghost use Rattle.vr_text.specs.Words.{is_letter, are_letters, is_file_name};

use crate::decimal::number;
use std::alloc::Global;
use vr_types::{Name, NameFault, OutOfMemory, dataset_name};

/// The longest name of a file, in bytes.
const NAME_LIMIT: usize = 8;

/// Whether a text has characters of ASCII alone.
fn is_plain(text: &[u8]) -> bool
    ensures { result ≡ is_plain text.now }
{
    text.iter().all(|byte| *byte < 128)
}

/// The text, if it has characters of ASCII alone.
pub fn plain_text(text: &[u8]) -> Option<&str>
    ensures some { IfSome result (λ plain. plain.now ≡ text.now) }
    ensures none { IfNone result (is_plain text.now ≡ false) }
    ensures plain { IfSome result (λ _. is_plain text.now ≡ true) }
{
    if !is_plain(text) {
        return None;
    }
    match str::from_utf8(text) {
        Ok(plain) => Some(plain),
        Err(_) => None,
    }
}

/// The name of a data set that a word spells, in capitals.
pub fn name_in(alloc: Global, text: &[u8]) -> Result<Option<Name>, OutOfMemory>
    ensures { IfOk result (λ name. name ≡ name_in text.now) }
{
    match plain_text(text) {
        None => Ok(None),
        Some(text) => plain_name(alloc, text),
    }
}

/// The name of a data set that a text of ASCII characters spells.
fn plain_name(alloc: Global, text: &str) -> Result<Option<Name>, OutOfMemory>
    requires { is_plain text.now ≡ true }
    ensures { IfOk result (λ name. name ≡ name_in text.now) }
{
    match dataset_name(alloc, text) {
        Ok(name) => Ok(Some(name)),
        Err(NameFault::Memory) => Err(OutOfMemory),
        Err(NameFault::Empty) => Ok(None),
        Err(NameFault::TooLong { .. }) => Ok(None),
        Err(NameFault::Qualifier { .. }) => Ok(None),
    }
}

/// The number that a word writes in 1 to 19 digits.
pub fn number_in(text: &[u8]) -> Option<u64>
    ensures { result ≡ number_in text.now }
{
    match plain_text(text) {
        None => None,
        Some(text) => number(text),
    }
}

/// Whether a byte is a letter of the name of a file.
fn is_letter(byte: u8) -> bool
    ensures { result ≡ is_letter byte }
{
    byte.is_ascii_alphabetic() || byte == b'@' || byte == b'#' || byte == b'$'
}

/// Whether each byte is a letter or a digit.
fn are_letters(name: &[u8]) -> bool
    ensures { result ≡ are_letters name.now }
{
    name.iter()
        .all(|byte| is_letter(*byte) || byte.is_ascii_digit())
}

/// Whether a word is the name of a file, as on cards of MVS JCL.
pub fn is_file_name(name: &[u8]) -> bool
    ensures { result ≡ is_file_name name.now }
{
    if name.is_empty() || name.len() > NAME_LIMIT {
        return false;
    }
    is_letter(name[0]) && are_letters(name)
}
