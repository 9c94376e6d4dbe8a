//! Questions to `vr_text`, and to `vr_types` about names of data sets.

use vr_case_table::{Answer, Answers, Stop, digits_of};
use vr_text::{LiteralFault, number, read_literal, write_literal};
use vr_types::{Bytes, NameFault, dataset_name};

/// The bytes of a literal: `TEXT`.
pub fn literal(text: &str, out: &mut Answers) -> Answer {
    match read_literal(out.alloc(), text) {
        Ok(bytes) => {
            out.say("ok ");
            out.say_digits(bytes.as_slice());
        }
        Err(LiteralFault::Unclosed) => out.say("unclosed"),
        Err(LiteralFault::Digit { at }) => out.say_number("digit ", at as u64),
        Err(LiteralFault::Memory) => return Err(Stop::Memory),
    }
    Ok(())
}

/// The one spelling of bytes: `HEX`.
pub fn spell(digits: &str, out: &mut Answers) -> Answer {
    let mut spelling = Bytes::new(out.alloc());
    add_spelling(&mut spelling, digits, out)
}

fn add_spelling(spelling: &mut Bytes, digits: &str, out: &mut Answers) -> Answer {
    let bytes = digits_of(out.alloc(), digits)?;
    write_literal(bytes.as_slice(), spelling)?;
    out.say_bytes(spelling.as_slice());
    Ok(())
}

/// The number that a text spells: `TEXT`.
pub fn number_of(text: &str, out: &mut Answers) {
    match number(text) {
        Some(value) => out.say_number("", value),
        None => out.say("none"),
    }
}

/// A copy of the name of a data set: `TEXT`.
pub fn name(text: &str, out: &mut Answers) -> Answer {
    let alloc = out.alloc();
    match dataset_name(alloc, text) {
        Ok(name) => {
            let copy = name.copy(alloc)?;
            out.say_bytes(copy.as_slice());
        }
        Err(NameFault::Empty) => out.say("empty"),
        Err(NameFault::TooLong { length }) => out.say_number("long ", length as u64),
        Err(NameFault::Qualifier { at }) => out.say_number("qualifier ", at as u64),
        Err(NameFault::Memory) => return Err(Stop::Memory),
    }
    Ok(())
}
