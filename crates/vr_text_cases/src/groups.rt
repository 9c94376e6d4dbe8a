//! IF, ELSE, DO and END, judged plainly: by the item before each item, and by searching back for
//! the IF of an ELSE and for the DO of an END.

use crate::commands::{read, say_fault};
use vr_case_table::{Answer, Answers, Beside, Both};

/// The items: an IF with THEN, ELSE, DO, END, a command, a semicolon.
const IF: u8 = 0;

const ELSE: u8 = 1;

const DO: u8 = 2;

const END: u8 = 3;

const COMMAND: u8 = 4;

/// How many kinds of items there are.
pub const COUNT: u8 = 6;

/// Commands in groups and branches.
pub struct Groups;

impl Beside for Groups {
    fn answer_both(&self, items: &[u8], both: &mut Both) -> Answer {
        spell(items, &mut both.question);
        judge(items, &mut both.plain);
        read(both.question.text(), &mut both.got)
    }
}

/// Writes each item on a line of its own, which goes on but for the last.
fn spell(items: &[u8], out: &mut Answers) {
    for (at, item) in items.iter().enumerate() {
        if at > 0 {
            out.say(" -|");
        }
        out.say(match *item {
            IF => " IF LASTCC = 0 THEN",
            ELSE => " ELSE",
            DO => " DO",
            END => " END",
            COMMAND => " VERIFY DS(A)",
            _ => " ;",
        });
    }
}

/// What the text is.
fn judge(items: &[u8], out: &mut Answers) {
    match first_fault(items).or(open_group(items)) {
        Some((number, at)) => {
            say_fault("fault", u64::from(number), number_of(at), 2, out);
        }
        None => say_all(items, out),
    }
}

/// The number of the line of an item.
fn number_of(at: usize) -> u64 {
    at.saturating_add(1) as u64
}

/// The first item with which something is wrong.
fn first_fault(items: &[u8]) -> Option<(u8, usize)> {
    for at in 0..items.len() {
        let fault = fault_at(items, at);
        if fault.is_some() {
            return fault;
        }
    }
    None
}

/// The item at a place; a semicolon where there is none.
fn item(items: &[u8], at: usize) -> u8 {
    match items.get(at) {
        Some(item) => *item,
        None => 5,
    }
}

/// The item before a place; a semicolon where there is none.
fn before(items: &[u8], at: usize) -> u8 {
    if at == 0 { 5 } else { item(items, at - 1) }
}

/// What is wrong with an item, by the one before it.
fn fault_at(items: &[u8], at: usize) -> Option<(u8, usize)> {
    let this = item(items, at);
    if this == 5 {
        return None;
    }
    let number = match before(items, at) {
        COMMAND => 3,
        END if this != ELSE => 18,
        IF | ELSE => match this {
            ELSE => 14,
            END => 15,
            _ => 0,
        },
        _ => fault_of_first(items, at, this),
    };
    if number == 0 {
        None
    } else {
        Some((number, at))
    }
}

/// What is wrong with the first item of a command.
fn fault_of_first(items: &[u8], at: usize, this: u8) -> u8 {
    match this {
        DO => 15,
        ELSE if owner(items, at).is_none() => 14,
        END if group(items, at).is_none() => 15,
        _ => 0,
    }
}

/// The DO of the group that an item stands in.
fn group(items: &[u8], at: usize) -> Option<usize> {
    let mut ends = 0usize;
    for place in (0..at).rev() {
        match item(items, place) {
            END => ends = ends.saturating_add(1),
            DO => {
                if ends == 0 {
                    return Some(place);
                }
                ends = ends.saturating_sub(1);
            }
            _ => {}
        }
    }
    None
}

/// Whether a command that isn't in a branch begins at an item: a semicolon stands before it, and it
/// is no ELSE, nor a semicolon. One after DO needs no look: no search goes back past its DO.
fn begins(items: &[u8], at: usize) -> bool {
    before(items, at) == 5 && item(items, at) != ELSE && item(items, at) != 5
}

/// The IF of an ELSE: searching back in the same group, past groups that have ended, as one closing
/// bracket's opening one is found.
fn owner(items: &[u8], at: usize) -> Option<usize> {
    let mut ends = 0usize;
    let mut elses = 0usize;
    for place in (0..at).rev() {
        let this = item(items, place);
        if this == DO && ends == 0 {
            return None;
        }
        if ends == 0 && this == IF {
            if elses == 0 {
                return Some(place);
            }
            elses = elses.saturating_sub(1);
        }
        if ends == 0 && this == ELSE {
            elses = elses.saturating_add(1);
        }
        if ends == 0 && this != END && begins(items, place) {
            return None;
        }
        match this {
            END => ends = ends.saturating_add(1),
            DO => ends = ends.saturating_sub(1),
            _ => {}
        }
    }
    None
}

/// The outermost DO that has no END.
fn open_group(items: &[u8]) -> Option<(u8, usize)> {
    let mut found = None;
    let mut place = group(items, items.len());
    for _ in 0..items.len() {
        match place {
            None => return found,
            Some(at) => {
                found = Some((15, at));
                place = group(items, at);
            }
        }
    }
    found
}

/// Writes each command with the branch that it stands in.
fn say_all(items: &[u8], out: &mut Answers) {
    for at in 0..items.len() {
        let this = item(items, at);
        if this == IF || this == COMMAND {
            if !out.is_empty() {
                out.say(" | ");
            }
            out.say("L");
            out.say_number(" ", at.saturating_add(1) as u64);
            say_branch(items, at, out);
            let is_if = this == IF;
            out.say(if is_if { " IF LASTCC = 0" } else { " VERIFY A" });
        }
    }
}

/// The branch of a command: by the item before it, or before the DO of its group.
fn say_branch(items: &[u8], at: usize, out: &mut Answers) {
    match before(items, at) {
        IF | ELSE => say_after(items, at, out),
        _ => match group(items, at) {
            None => {}
            Some(place) => say_after(items, place, out),
        },
    }
}

/// The branch of what follows THEN or ELSE.
fn say_after(items: &[u8], at: usize, out: &mut Answers) {
    let place = at.saturating_sub(1);
    if item(items, place) == IF {
        out.say(" then");
        out.say_number(" ", nodes_before(items, place));
    } else {
        out.say(" else");
        let place = owner(items, place).unwrap_or(0);
        out.say_number(" ", nodes_before(items, place));
    }
}

/// How many commands stand before an item.
fn nodes_before(items: &[u8], at: usize) -> u64 {
    let mut nodes = 0u64;
    for place in 0..at {
        let this = item(items, place);
        if this == IF || this == COMMAND {
            nodes = nodes.saturating_add(1);
        }
    }
    nodes
}
