//! The words that begin commands, by tables with the rows that the definition spells out.
ghost use Rattle.std.specs.Prelude.{◌≡◌};
ghost use Rattle.vr_amsparse.specs.Verbs.{is_verb_row, verb_named, is_object_row, object_named};
ghost use Rattle.vr_amsparse.specs.Verbs.{is_comparison_row, comparison_named, variable_named};

use crate::command::{CodeVariable, Comparison};
use vr_amsparse_grammar::{Section, is_column_of};

/// What the first word of a command may be.
#[derive(Clone, Copy)]
pub enum Verb {
    Define,
    /// A command with a name before its parameters.
    Named(Section),
    /// A command with parameters alone.
    Listed(Section),
    If,
    Set,
    Else,
    Do,
    End,
}

/// A verb in its long and in its short form, each filled with blanks.
#[derive(Clone, Copy)]
pub struct VerbRow {
    pub long: [u8; 8],
    pub short: [u8; 5],
    pub verb: Verb,
}

/// A row of the table of verbs.
macro_rules! verb {
    ($long:literal, $short:literal, $verb:expr) => {
        VerbRow {
            long: *$long,
            short: *$short,
            verb: $verb,
        }
    };
}

/// All verbs.
#[rattlefmt::skip]
pub const VERBS: [VerbRow; 14] = [
    verb!(b"DEFINE  ", b"DEF  ", Verb::Define),
    verb!(b"ALTER   ", b"     ", Verb::Named(Section::Alter)),
    verb!(b"DELETE  ", b"DEL  ", Verb::Named(Section::Delete)),
    verb!(b"REPRO   ", b"     ", Verb::Listed(Section::Repro)),
    verb!(b"BLDINDEX", b"BIX  ", Verb::Listed(Section::BuildIndex)),
    verb!(b"PRINT   ", b"     ", Verb::Listed(Section::Print)),
    verb!(b"LISTCAT ", b"LISTC", Verb::Listed(Section::ListCatalog)),
    verb!(b"VERIFY  ", b"     ", Verb::Listed(Section::Verify)),
    verb!(b"EXAMINE ", b"     ", Verb::Listed(Section::Examine)),
    verb!(b"IF      ", b"     ", Verb::If),
    verb!(b"SET     ", b"     ", Verb::Set),
    verb!(b"ELSE    ", b"     ", Verb::Else),
    verb!(b"DO      ", b"     ", Verb::Do),
    verb!(b"END     ", b"     ", Verb::End),
];

/// What DEFINE defines, in the long and in the short form.
#[derive(Clone, Copy)]
pub struct ObjectRow {
    pub long: [u8; 14],
    pub short: [u8; 4],
    pub section: Section,
}

/// All that DEFINE defines.
#[rattlefmt::skip]
pub const OBJECTS: [ObjectRow; 3] = [
    ObjectRow { long: *b"CLUSTER       ", short: *b"CL  ", section: Section::Cluster },
    ObjectRow { long: *b"ALTERNATEINDEX", short: *b"AIX ", section: Section::Alternate },
    ObjectRow { long: *b"PATH          ", short: *b"    ", section: Section::Path },
];

/// A comparison, as a sign and as a word.
#[derive(Clone, Copy)]
pub struct ComparisonRow {
    pub sign: [u8; 2],
    pub word: [u8; 2],
    pub comparison: Comparison,
}

/// All comparisons.
#[rattlefmt::skip]
pub const COMPARISONS: [ComparisonRow; 6] = [
    ComparisonRow { sign: *b"= ", word: *b"EQ", comparison: Comparison::Equal },
    ComparisonRow { sign: *b"  ", word: *b"NE", comparison: Comparison::NotEqual },
    ComparisonRow { sign: *b"> ", word: *b"GT", comparison: Comparison::Greater },
    ComparisonRow { sign: *b"< ", word: *b"LT", comparison: Comparison::Less },
    ComparisonRow { sign: *b">=", word: *b"GE", comparison: Comparison::NotLess },
    ComparisonRow { sign: *b"<=", word: *b"LE", comparison: Comparison::NotGreater },
];

/// Whether a row has this word.
fn is_verb_row(row: &VerbRow, word: &[u8]) -> bool
    ensures { result ≡ is_verb_row word.now row.now }
{
    is_column_of(&row.long, word) || is_column_of(&row.short, word)
}

/// The command that a word begins.
pub(crate) fn verb_named(word: &[u8]) -> Option<Verb>
    ensures { result ≡ verb_named word.now }
{
    VERBS
        .iter()
        .find(|row| is_verb_row(row, word))
        .map(|row| row.verb)
}

/// Whether a row has this word.
fn is_object_row(row: &ObjectRow, word: &[u8]) -> bool
    ensures { result ≡ is_object_row word.now row.now }
{
    is_column_of(&row.long, word) || is_column_of(&row.short, word)
}

/// The list of parameters of what DEFINE defines by a word.
pub(crate) fn object_named(word: &[u8]) -> Option<Section>
    ensures { result ≡ object_named word.now }
{
    OBJECTS
        .iter()
        .find(|row| is_object_row(row, word))
        .map(|row| row.section)
}

/// Whether a row has this sign or word.
fn is_comparison_row(row: &ComparisonRow, text: &[u8]) -> bool
    ensures { result ≡ is_comparison_row text.now row.now }
{
    is_column_of(&row.sign, text) || is_column_of(&row.word, text)
}

/// The comparison that a sign or a word says.
pub(crate) fn comparison_named(text: &[u8]) -> Option<Comparison>
    ensures { result ≡ comparison_named text.now }
{
    COMPARISONS
        .iter()
        .find(|row| is_comparison_row(row, text))
        .map(|row| row.comparison)
}

/// The code that a word names.
pub(crate) fn variable_named(word: &[u8]) -> Option<CodeVariable>
    ensures { result ≡ variable_named word.now }
{
    if word == b"LASTCC".as_slice() {
        Some(CodeVariable::LastCode)
    } else if word == b"MAXCC".as_slice() {
        Some(CodeVariable::MaxCode)
    } else {
        None
    }
}
