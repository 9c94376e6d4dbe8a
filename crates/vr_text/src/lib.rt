//! Literals of bytes, numbers and names, as texts have them and as listings show them, and the lines
//! of a part of a job text. It stands on vr_types, whose list of bytes it reads into and writes onto. It
//! promises that a text is read exactly when it is a literal or a number, that each fault has its
//! stated cause at its stated place, and that the one spelling that is written for some bytes is
//! read as these bytes.
#![tactic(auto)]

mod decimal;
mod laws;
mod lines;
mod literal;
mod spelling;
mod words;

pub use decimal::number;
pub use laws::{one_outcome, one_value, written_is_read};
pub use lines::Lines;
pub use literal::{LiteralFault, read_literal};
pub use spelling::write_literal;
pub use words::{is_file_name, name_in, number_in, plain_text};
