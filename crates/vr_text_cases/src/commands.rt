//! What `vr_amsparse` reads a command text as.

use crate::lines::lines_of;
use crate::nodes::say_nodes;
use crate::tokens::cause_number;
use std::alloc::Global;
use vr_amsparse::{AmsFault, DataNames, parse};
use vr_case_table::{Answer, Answers, Stop};
use vr_scan::{FormFault, ScanFault, Tokens, scan};
use vr_types::bytes;

/// Writes what a command text is read as, whose lines are separated by bars. The step has data
/// CARDS and IN2.
pub fn read(text: &str, out: &mut Answers) -> Answer {
    let alloc = out.alloc();
    let lines = lines_of(alloc, text)?;
    match scan(alloc, &lines) {
        Ok(tokens) => parse_tokens(alloc, &tokens, out),
        Err(ScanFault::Form(fault)) => {
            say_form(fault, out);
            Ok(())
        }
        Err(ScanFault::Memory) => Err(Stop::Memory),
    }
}

/// Writes the commands of tokens, or the fault.
fn parse_tokens(alloc: Global, tokens: &Tokens, out: &mut Answers) -> Answer {
    let mut names = DataNames::new(alloc);
    add_names(alloc, &mut names)?;
    match parse(alloc, tokens, &names) {
        Ok(commands) => say_nodes(commands.as_slice(), out),
        Err(AmsFault::Text(fault)) => {
            let cause = fault.cause.number() as u64;
            say_fault(
                "fault",
                cause,
                u64::from(fault.line),
                u64::from(fault.column),
                out,
            );
        }
        Err(AmsFault::Memory) => return Err(Stop::Memory),
    }
    Ok(())
}

/// Adds the names of the data of the step.
fn add_names(alloc: Global, names: &mut DataNames) -> Answer {
    names.push(bytes(alloc, b"CARDS")?)?;
    names.push(bytes(alloc, b"IN2")?)?;
    Ok(())
}

/// Writes a fault of the tokens.
fn say_form(fault: FormFault, out: &mut Answers) {
    let cause = u64::from(cause_number(fault.cause));
    say_fault(
        "scan",
        cause,
        u64::from(fault.line),
        u64::from(fault.column),
        out,
    );
}

/// Writes a fault: its kind, its number, its line and its column.
pub fn say_fault(kind: &str, cause: u64, line: u64, column: u64, out: &mut Answers) {
    out.say(kind);
    out.say_number(" ", cause);
    out.say_number(" at ", line);
    out.say_number(" ", column);
}
