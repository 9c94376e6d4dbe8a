//! The steps of IDCAMS of a job, plainly and slowly: their commands are read again for each question.

use crate::jobs::{say_card, say_cards_end, say_data_name};
use crate::look::name_of;
use crate::nodes::say_nodes;
use crate::plain_jobs::{
    Fault, Text, begin_of, fault_of, has_commands, is_begin, is_data, length_of, line_at, number,
    what_at,
};
use crate::tokens::cause_number;
use std::alloc::Global;
use vr_amsparse::{AmsFault, Command, Commands, DataNames, Node, parse};
use vr_case_table::{Answer, Answers, Stop};
use vr_catalog::NewEntry;
use vr_scan::{ScanFault, scan};
use vr_text::Lines;
use vr_types::bytes;

/// The place after the last line of the step that a line begins.
fn end_of(text: &Text, begin: usize) -> usize {
    for at in begin.saturating_add(1)..text.lines.len() {
        if is_begin(what_at(text, at)) {
            return at;
        }
    }
    text.lines.len()
}

/// Adds the lines of the commands of a step, up to a line.
fn add_commands<'a>(lines: &mut Lines<'a>, text: &Text<'a>, begin: usize, end: usize) -> Answer {
    for card in begin..end {
        if has_commands(text, card) {
            for more in 0..length_of(text, card) {
                let at = card.saturating_add(1).saturating_add(more);
                lines.push(number(at), line_at(text, at))?;
            }
        }
    }
    Ok(())
}

/// Adds the names of the data of a step, up to a line.
fn add_names(
    alloc: Global,
    names: &mut DataNames,
    text: &Text,
    begin: usize,
    end: usize,
) -> Answer {
    for card in begin..end {
        if is_data(text, card) && begin_of(text, card) == Some(begin) {
            names.push(bytes(alloc, name_of(line_at(text, card)))?)?;
        }
    }
    Ok(())
}

/// What the commands of a step come to, up to a line.
fn read_step(
    alloc: Global,
    text: &Text,
    begin: usize,
    end: usize,
) -> Result<Result<Commands, Fault>, Stop> {
    let mut lines = Lines::new(alloc);
    add_commands(&mut lines, text, begin, end)?;
    let mut names = DataNames::new(alloc);
    add_names(alloc, &mut names, text, begin, end)?;
    let tokens = match scan(alloc, &lines) {
        Ok(tokens) => tokens,
        Err(ScanFault::Memory) => return Err(Stop::Memory),
        Err(ScanFault::Form(fault)) => {
            let cause = (cause_number(fault.cause) % 256) as u8;
            return Ok(Err(told("SCAN", cause, fault.line, fault.column)));
        }
    };
    match parse(alloc, &tokens, &names) {
        Ok(commands) => Ok(Ok(commands)),
        Err(AmsFault::Memory) => Err(Stop::Memory),
        Err(AmsFault::Text(fault)) => {
            let cause = fault.cause.number();
            Ok(Err(told("AMS", cause, fault.line, fault.column)))
        }
    }
}

/// A fault whose line is numbered from 1.
fn told(kind: &'static str, cause: u8, line: u32, column: u32) -> Fault {
    fault_of(
        kind,
        cause,
        (line as usize).saturating_sub(1),
        column as usize,
    )
}

/// The first fault of the commands of a step, up to a line.
pub fn utility_fault(
    alloc: Global,
    text: &Text,
    begin: usize,
    end: usize,
) -> Result<Option<Fault>, Stop> {
    match read_step(alloc, text, begin, end) {
        Ok(Ok(_)) => Ok(None),
        Ok(Err(fault)) => Ok(Some(fault)),
        Err(stop) => Err(stop),
    }
}

/// The line of the first command of a step that isn't run.
pub fn unrun_line(alloc: Global, text: &Text, begin: usize) -> Result<Option<u32>, Stop> {
    match read_step(alloc, text, begin, end_of(text, begin)) {
        Ok(Ok(commands)) => Ok(first_unrun(commands.as_slice())),
        Ok(Err(_)) => Err(Stop::Line),
        Err(stop) => Err(stop),
    }
}

/// The line of the first command that isn't run, looked for from the last one on.
fn first_unrun(nodes: &[Node]) -> Option<u32> {
    let mut line = None;
    for node in nodes.iter().rev() {
        let runs = match &node.command {
            Command::Define(define) => {
                !matches!(define.order.what, NewEntry::Cluster { spanned: true, .. })
            }
            Command::Alter(_)
            | Command::Delete(_)
            | Command::Print(_)
            | Command::ListCatalog(_)
            | Command::Verify(_)
            | Command::If(_)
            | Command::Set(_) => true,
            _ => false,
        };
        if !runs {
            line = Some(node.line);
        }
    }
    line
}

/// Writes the data and the commands of a step.
pub fn say_utilities(alloc: Global, text: &Text, begin: usize, out: &mut Answers) -> Answer {
    let end = end_of(text, begin);
    for card in begin..end {
        if is_data(text, card) {
            say_cards(text, card, out);
        }
    }
    match read_step(alloc, text, begin, end) {
        Ok(Ok(commands)) => say_nodes(commands.as_slice(), out),
        Ok(Err(_)) => return Err(Stop::Line),
        Err(stop) => return Err(stop),
    }
    Ok(())
}

/// Writes the data after a card.
fn say_cards(text: &Text, card: usize, out: &mut Answers) {
    say_data_name(name_of(line_at(text, card)), out);
    let length = length_of(text, card);
    for more in 0..length {
        say_card(
            line_at(text, card.saturating_add(1).saturating_add(more)),
            out,
        );
    }
    say_cards_end(length.saturating_mul(80), out);
}
