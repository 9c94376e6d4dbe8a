//! The commands of IDCAMS text. It stands on the tokens of vr_scan, on the tables of parameters and
//! the reader of vr_amsparse_grammar, and on the orders of vr_catalog, of which commands are made. It
//! promises that a list of tokens is read exactly as the commands that the definition gives, with
//! their defaults and in their tree of IFs, or is refused with its first fault at its place.
#![tactic(auto)]

mod act;
mod command;
mod defining;
mod fault;
mod laws;
mod opens;
mod orders;
mod parsing;
mod state;
mod values;
mod verb;

pub use command::{
    Branch, BuildCommand, CodeVariable, Command, Commands, Comparison, Condition, DefineCommand,
    DeleteCommand, From, ListCommand, Node, PrintCommand, PrintForm, ReproCommand, Setting, Source,
    To, Within,
};
pub use fault::{AmsFault, CommandFault};
pub use laws::{one_value, rows_are_as_said, value_or_fault};
pub use parsing::parse;
pub use vr_amsparse_grammar::{AmsCause, DataNames};
