//! A row of a table of parameters.
ghost use Rattle.std.specs.Prelude.{◌≡◌};
ghost use Rattle.vr_amsparse_grammar.specs.Rows.{is_column_of, parameter_among, slot_number};
ghost use Rattle.vr_amsparse_grammar.specs.Rows.{choice_number};

use crate::section::Section;

/// What a parameter states. Parameters of one slot exclude each other.
#[derive(Clone, Copy)]
pub enum Slot {
    /// Taken and dropped, each of them.
    Speed,
    Erase,
    Reuse,
    Owner,
    Purge,
    /// Left out by name.
    Nothing,
    Name,
    DataName,
    IndexName,
    Kind,
    Keys,
    RecordSize,
    Spanned,
    FreeSpace,
    ShareOptions,
    Space,
    Volumes,
    IntervalSize,
    IndexIntervalSize,
    Log,
    StorageClass,
    DataClass,
    ManagementClass,
    Related,
    Unique,
    Upgrade,
    Update,
    DataPart,
    IndexPart,
    Entry,
    NewName,
    EntryKind,
    Source,
    Target,
    From,
    To,
    Replace,
    Form,
    Entries,
    Detail,
}

impl Slot {
    /// Its number, in the order above.
    pub(crate) fn number(self) -> u8
        ensures { result ≡ slot_number self }
    {
        self as u8
    }
}

/// Which of the words that exclude each other: the order in which the table has them.
#[derive(Clone, Copy)]
pub enum Choice {
    First,
    Second,
    Third,
}

impl Choice {
    /// Its number, in the order above.
    pub(crate) fn number(self) -> u8
        ensures { result ≡ choice_number self }
    {
        self as u8
    }
}

/// The least and the greatest number that may stand in a place.
#[derive(Clone, Copy)]
pub struct Range {
    pub least: u64,
    pub most: u64,
}

/// What may stand as a value.
#[derive(Clone, Copy)]
pub enum Value {
    /// The name of a data set.
    Name,
    /// A name without a dot.
    Class,
    /// The name of data of the step.
    Data,
    /// The serial of a volume, 1 to 6 characters.
    Serial,
    /// UNDO.
    Log,
    /// A literal or a word.
    Text,
    /// A literal, or a word that doesn't begin with a quote.
    Key,
    /// A number; each place has a range of its own.
    Number { first: Range, second: Range },
}

/// What stands between the parentheses of a parameter: at least `least` and at most `most` values.
#[derive(Clone, Copy)]
pub struct Values {
    pub value: Value,
    pub least: usize,
    pub most: usize,
}

/// What follows the word of a parameter.
#[derive(Clone, Copy)]
pub enum Takes {
    Nothing,
    Values(Values),
    /// A list of parameters in parentheses.
    Section(Section),
    /// Nothing: the parameter is left out by name.
    LeftOut,
}

/// A parameter: what it states, which of the words for it this is, and what it takes.
#[derive(Clone, Copy)]
pub struct Parameter {
    pub slot: Slot,
    pub choice: Choice,
    pub takes: Takes,
}

/// A row of a table of parameters: its word in the long and in the short form, each filled with
/// blanks, and the parameter.
#[derive(Clone, Copy)]
pub struct Row {
    pub long: [u8; 19],
    pub short: [u8; 6],
    pub parameter: Parameter,
}

/// Whether a column of a table that is filled with blanks has this word. No column has the empty word.
pub fn is_column_of(column: &[u8], word: &[u8]) -> bool
    ensures { result ≡ is_column_of column.now word.now }
{
    !word.is_empty()
        && word.len() <= column.len()
        && &column[..word.len()] == word
        && (word.len() == column.len() || column[word.len()] == b' ')
}

/// The parameter of a word among these rows.
pub fn parameter_named(rows: &[Row], word: &[u8]) -> Option<Parameter>
    ensures { result ≡ parameter_among rows.now word.now }
{
    rows.iter()
        .find(|row| is_column_of(&row.long, word) || is_column_of(&row.short, word))
        .map(|row| row.parameter)
}
