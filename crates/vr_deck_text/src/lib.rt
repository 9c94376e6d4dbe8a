//! The text of a request deck: the files that it declares and its orders, line by line, after tables
//! of verbs and operands. It stands on vr_text for lines, literals and numbers, and on vr_types for
//! names. It promises that lines which are answered are the deck that the definition gives them,
//! which spells these tables out, and that lines which are refused have the fault that it gives as
//! the first.
#![tactic(auto)]

mod declaring;
mod fault;
mod given;
mod laws;
mod order;
mod parse;
mod row;
mod tables;
mod text;
mod value;
mod word;

pub use fault::{DeckCause, DeckFault, LineFault};
pub use laws::{one_value, rows_are_as_said, value_or_fault};
pub use parse::parse_deck;
pub use row::{FileVerb, Operand, Row, Settles, Value, Verb, VerbRow};
pub use tables::{FILE_ROWS, GET_ROWS, POINT_ROWS, PUT_ROWS, VERBS};
pub use text::{Ask, At, DeckFile, DeckText, FILE_LIMIT, Files, Order, Orders, Seek};
