//! Names of data sets.
ghost use Rattle.std.specs.Prelude.{◌≡◌, ℕ, List, ◌<◌, ◌≤◌, length, IfOk, IfErr, IfNone, IfSome};
ghost use Rattle.std.specs.Prelude.{true};
ghost use Rattle.vr_types.specs.Name.{begins_qualifier, continues_qualifier, fits_column};
ghost use Rattle.vr_types.specs.Name.{is_national, is_right_at, in_capitals, IsDatasetName};
ghost use Rattle.vr_types.specs.Name.{IsFirstBad, CauseOf};

use crate::memory::OutOfMemory;
use std::alloc::{AllocError, Global};
use std::marker::Model;

/// The longest name of a data set, in bytes.
pub const NAME_LIMIT: usize = 44;

/// The longest qualifier of a name, in bytes.
const QUALIFIER_LIMIT: usize = 8;

/// The name of a data set, 1 to 44 bytes in capitals: qualifiers joined by dots.
#[derive(Drop)]
pub struct Name {
    bytes: Vec<u8>,
}

impl Model for Name {
    ghost use Rattle.std.specs.Prelude.{ℕ, List, ◌<◌, ◌≤◌, length};

    ghost Value = { List ℕ };

    ghost view = { λ name. name.bytes.items };

    ghost invariant = { λ name. (0 < length name.bytes.items) × (length name.bytes.items ≤ 44) };
}

/// Why a text is not the name of a data set. Offsets and lengths are in bytes.
#[derive(Clone, Copy, PartialEq, Eq)]
pub enum NameFault {
    /// The text is empty.
    Empty,
    /// The text has more than 44 bytes.
    TooLong { length: usize },
    /// The byte at `at` may not be there, or the text ends there in an empty qualifier.
    Qualifier { at: usize },
    /// Memory ran out.
    Memory,
}

impl From<AllocError> for NameFault {
    ghost use Rattle.std.specs.Prelude.{◌≡◌};
    ghost use Rattle.vr_types.specs.declared.name.NameFault.TheVariants.{Memory};

    ghost from_gives = { λ _ fault. fault ≡ Memory };

    fn from(_error: AllocError) -> NameFault {
        NameFault::Memory
    }
}

impl Name {
    /// Its bytes.
    pub fn as_slice(&self) -> &[u8]
        ensures value { result.now ≡ self.now }
        ensures some { 0 < length self.now }
        ensures short { length self.now ≤ 44 }
    {
        self.bytes.as_slice()
    }

    /// Copies the value; fails only if memory runs out.
    pub fn copy(&self, alloc: Global) -> Result<Name, OutOfMemory>
        ensures { IfOk result (λ copy. copy ≡ self.now) }
    {
        let bytes = Vec::from_slice(alloc, self.bytes.as_slice())?;
        Ok(Name { bytes })
    }
}

/// The name that a text spells, in capitals, after the rules of Using Data Sets: up to 44 bytes;
/// qualifiers of 1 to 8 bytes joined by dots; each begins with a letter, `@`, `#` or `$`, and goes
/// on with these, digits or hyphens.
pub fn dataset_name(alloc: Global, text: &str) -> Result<Name, NameFault>
    ensures name { IfOk result (λ name. IsDatasetName text.now × (name ≡ in_capitals text.now)) }
    ensures fault { IfErr result (CauseOf text.now) }
{
    let text = text.as_bytes();
    if text.is_empty() {
        return Err(NameFault::Empty);
    }
    if text.len() > NAME_LIMIT {
        return Err(NameFault::TooLong { length: text.len() });
    }
    if let Some(at) = first_bad_byte(text) {
        return Err(NameFault::Qualifier { at });
    }
    let bytes = capitals(alloc, text)?;
    Ok(Name { bytes })
}

/// The text in capitals.
fn capitals(alloc: Global, text: &[u8]) -> Result<Vec<u8>, AllocError>
    ensures { IfOk result (λ bytes. bytes.items ≡ in_capitals text.now) }
{
    text.iter()
        .map(|byte| byte.to_ascii_uppercase())
        .collect(alloc)
}

/// Where the text first departs from the rule of qualifiers.
fn first_bad_byte(text: &[u8]) -> Option<usize>
    ensures none { IfNone result ((i : ℕ) → i ≤ length text.now → is_right_at text.now i ≡ true) }
    ensures some { IfSome result (IsFirstBad text.now) }
{
    let mut column = 0usize;
    for (at, byte) in text.iter().enumerate() {
        if !may_stand(column, *byte) {
            return Some(at);
        }
        column = if *byte == b'.' { 0 } else { column + 1 };
    }
    if column == 0 { Some(text.len()) } else { None }
}

/// Whether a byte may come after `column` bytes of its qualifier.
fn may_stand(column: usize, byte: u8) -> bool
    ensures { result ≡ fits_column column byte }
{
    if column == 0 {
        byte.is_ascii_alphabetic() || is_national(byte)
    } else {
        byte == b'.'
            || (column < QUALIFIER_LIMIT
                && (byte.is_ascii_alphanumeric() || is_national(byte) || byte == b'-'))
    }
}

/// Whether a byte is one of the three that count as letters.
fn is_national(byte: u8) -> bool
    ensures { result ≡ is_national byte }
{
    byte == b'@' || byte == b'#' || byte == b'$'
}
