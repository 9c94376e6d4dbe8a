//! The parameters of the IDCAMS commands: a table of each list of parameters, and the reader of
//! such lists, token by token. It stands on the tokens of vr_scan and on the names and numbers of
//! vr_types and vr_text. It promises that a token at a point of a list leads to the next point, or
//! is the fault, that the definition gives, which spells the tables out.
#![tactic(auto)]

mod cause;
mod data_names;
mod given;
mod laws;
mod point;
mod reader;
mod row;
mod section;
mod tables;
mod value;

pub use cause::AmsCause;
pub use data_names::DataNames;
pub use given::{Given, given_for};
pub use laws::{rows_are_as_said, spelled_is_given};
pub use point::{Move, Point, Statement};
pub use reader::{Seen, move_at};
pub use row::{
    Choice, Parameter, Range, Row, Slot, Takes, Value, Values, is_column_of, parameter_named,
};
pub use section::{Section, parameter_in};
pub use value::{judge, number_fault};
