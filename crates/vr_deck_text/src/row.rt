//! Rows of the tables of verbs and operands.
ghost use Rattle.std.specs.Prelude.{◌≡◌};
ghost use Rattle.vr_deck_text.specs.Rows.{is_column_of, operand_named, verb_named, rows_of, needs_of};
ghost use Rattle.vr_deck_text.specs.Rows.{overlaps, joined, covers};

use crate::tables::{DATA, GET_ROWS, NO_ROWS, NOTHING, PLACE, POINT_ROWS, PUT_ROWS, VERBS};
use vr_types::Integrity;

/// What operands settle. Two operands of a line exclude each other where both settle a thing.
#[derive(Clone, Copy)]
pub struct Settles {
    /// Which record is asked for.
    pub place: bool,
    /// Whether it may be one past the place.
    pub least: bool,
    /// Whether a record is held for update, or updated.
    pub update: bool,
    /// The integrity of a read.
    pub integrity: bool,
    /// The bytes of a record.
    pub bytes: bool,
}

/// What the value of an operand is, or what an operand without a value states beside what it
/// settles.
#[derive(Clone, Copy)]
pub enum Value {
    /// A literal: the key.
    Key,
    /// A number: the relative byte address.
    Rba,
    /// A number: the relative record number.
    Rrn,
    /// A literal: the record.
    Data,
    /// No value, and nothing beside.
    Nothing,
    /// No value; this integrity.
    Integrity(Integrity),
}

/// An operand: what it settles, and its value.
#[derive(Clone, Copy)]
pub struct Operand {
    pub settles: Settles,
    pub value: Value,
}

/// A row of a table of operands: the keyword with its `=`, filled with blanks, and the operand.
#[derive(Clone, Copy)]
pub struct Row {
    pub keyword: [u8; 5],
    pub operand: Operand,
}

/// A verb whose line names a file that was declared.
#[derive(Clone, Copy)]
pub enum FileVerb {
    Get,
    Point,
    Put,
    Erase,
    EndReq,
}

/// A verb.
#[derive(Clone, Copy)]
pub enum Verb {
    File,
    Commit,
    Backout,
    On(FileVerb),
}

/// A row of the table of verbs: the word, filled with blanks, and the verb.
#[derive(Clone, Copy)]
pub struct VerbRow {
    pub word: [u8; 7],
    pub verb: Verb,
}

/// Whether a column of a table that is filled with blanks has this word. No column has the empty word.
fn is_column_of(column: &[u8], word: &[u8]) -> bool
    ensures { result ≡ is_column_of column.now word.now }
{
    !word.is_empty()
        && word.len() <= column.len()
        && &column[..word.len()] == word
        && (word.len() == column.len() || column[word.len()] == b' ')
}

/// The operand of a keyword among these rows.
pub(crate) fn operand_named(rows: &[Row], keyword: &[u8]) -> Option<Operand>
    ensures { result ≡ operand_named rows.now keyword.now }
{
    rows.iter()
        .find(|row| is_column_of(&row.keyword, keyword))
        .map(|row| row.operand)
}

/// The verb of a word.
pub(crate) fn verb_named(word: &[u8]) -> Option<Verb>
    ensures { result ≡ verb_named word.now }
{
    VERBS
        .iter()
        .find(|row| is_column_of(&row.word, word))
        .map(|row| row.verb)
}

/// The operands that a verb may have.
pub(crate) fn rows_of(verb: FileVerb) -> &'static [Row]
    ensures { result.now ≡ rows_of verb }
{
    match verb {
        FileVerb::Get => &GET_ROWS,
        FileVerb::Point => &POINT_ROWS,
        FileVerb::Put => &PUT_ROWS,
        FileVerb::Erase | FileVerb::EndReq => &NO_ROWS,
    }
}

/// What the operands of a verb have to settle.
pub(crate) fn needs_of(verb: FileVerb) -> Settles
    ensures { result ≡ needs_of verb }
{
    match verb {
        FileVerb::Get | FileVerb::Point => PLACE,
        FileVerb::Put => DATA,
        FileVerb::Erase | FileVerb::EndReq => NOTHING,
    }
}

/// Whether both settle a thing.
pub(crate) fn overlaps(one: Settles, other: Settles) -> bool
    ensures { result ≡ overlaps one other }
{
    (one.place && other.place)
        || (one.least && other.least)
        || (one.update && other.update)
        || (one.integrity && other.integrity)
        || (one.bytes && other.bytes)
}

/// What either settles.
pub(crate) fn joined(one: Settles, other: Settles) -> Settles
    ensures { result ≡ joined one other }
{
    Settles {
        place: one.place || other.place,
        least: one.least || other.least,
        update: one.update || other.update,
        integrity: one.integrity || other.integrity,
        bytes: one.bytes || other.bytes,
    }
}

/// Whether all that has to be settled is.
pub(crate) fn covers(settled: Settles, needs: Settles) -> bool
    ensures { result ≡ covers settled needs }
{
    (settled.place || !needs.place) && (settled.bytes || !needs.bytes)
}
