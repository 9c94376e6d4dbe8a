//! The commands of a text.

use vr_catalog::{Alter, Define, EntryKind, NameList};
use vr_types::{Bytes, Items, Name};

/// DEFINE: what is defined, and the serial in VOLUMES, or `*`. Without it a cluster is defined on
/// volume 0, an alternate index on its base's.
#[derive(Drop)]
pub struct DefineCommand {
    pub order: Define,
    pub volume: Option<Bytes>,
}

/// DELETE: the names of entries, and of which kind they have to be.
#[derive(Drop)]
pub struct DeleteCommand {
    pub names: NameList,
    pub kind: Option<EntryKind>,
}

/// Where REPRO reads: data cards of the step, or a data set.
#[derive(Drop)]
pub enum Source {
    Data(Bytes),
    DataSet(Name),
}

/// The first record: the first of all, the first whose key isn't below this one, or the one after
/// a number of them.
#[derive(Drop)]
pub enum From {
    Start,
    Key(Bytes),
    Skip(u64),
}

/// The last record: the last of all, the last whose key isn't above this one, or the last of so
/// many.
#[derive(Drop)]
pub enum To {
    End,
    Key(Bytes),
    Count(u64),
}

/// REPRO.
#[derive(Drop)]
pub struct ReproCommand {
    pub source: Source,
    pub target: Name,
    pub from: From,
    pub to: To,
    pub replace: bool,
}

/// BLDINDEX: the base and the alternate index.
#[derive(Drop)]
pub struct BuildCommand {
    pub base: Name,
    pub alternate: Name,
}

/// How PRINT shows a record.
#[derive(Clone, Copy, PartialEq, Eq)]
pub enum PrintForm {
    Character,
    Hex,
    Dump,
}

/// PRINT.
#[derive(Drop)]
pub struct PrintCommand {
    pub source: Name,
    pub form: PrintForm,
    pub from: From,
    pub to: To,
}

/// LISTCAT: the names of entries, none for all entries, and whether all of each is listed.
#[derive(Drop)]
pub struct ListCommand {
    pub entries: NameList,
    pub all: bool,
}

/// A code that IF tests and SET sets: the last command's, or the greatest of the step.
#[derive(Clone, Copy, PartialEq, Eq)]
pub enum CodeVariable {
    LastCode,
    MaxCode,
}

/// How IF compares a code with its number.
#[derive(Clone, Copy, PartialEq, Eq)]
pub enum Comparison {
    Equal,
    NotEqual,
    Greater,
    Less,
    NotLess,
    NotGreater,
}

/// IF: what has to hold for the branch of THEN.
#[derive(Clone, Copy, PartialEq, Eq)]
pub struct Condition {
    pub variable: CodeVariable,
    pub comparison: Comparison,
    pub number: u64,
}

/// SET. A number above 16 counts as 16.
#[derive(Clone, Copy, PartialEq, Eq)]
pub struct Setting {
    pub variable: CodeVariable,
    pub code: u8,
}

/// A command.
#[derive(Drop)]
pub enum Command {
    Define(DefineCommand),
    Alter(Alter),
    Delete(DeleteCommand),
    Repro(ReproCommand),
    BuildIndex(BuildCommand),
    Print(PrintCommand),
    ListCatalog(ListCommand),
    Verify(Name),
    Examine(Name),
    If(Condition),
    Set(Setting),
}

/// A branch of IF.
#[derive(Clone, Copy, PartialEq, Eq)]
pub enum Branch {
    Then,
    Else,
}

/// The branch that a command stands in: of which IF, by its place in the list, and which branch.
#[derive(Clone, Copy, PartialEq, Eq)]
pub struct Within {
    pub node: usize,
    pub branch: Branch,
}

/// A command of a text, with the number of the line of its first word, and the branch that it
/// stands in, none where it stands in no IF.
#[derive(Drop)]
pub struct Node {
    pub line: u32,
    pub within: Option<Within>,
    pub command: Command,
}

/// The commands of a text, in its order. They make a tree: an IF stands before the commands of its
/// branches, and each of these names it. A branch without commands is empty.
pub type Commands = Items<Node>;
