//! Parameters of REPRO, judged plainly: each against all before it, by a table of its own.

use crate::commands::{read, say_fault};
use vr_case_table::{Answer, Answers, Beside, Both};

/// How many parameters there are.
pub const COUNT: u8 = 15;

/// REPRO with parameters.
pub struct Parameters;

impl Beside for Parameters {
    fn answer_both(&self, items: &[u8], both: &mut Both) -> Answer {
        spell(items, &mut both.question);
        judge(items, &mut both.plain);
        read(both.question.text(), &mut both.got)
    }
}

/// A parameter as it is written.
fn text(item: u8) -> &'static str {
    match item {
        0 => " INFILE(IN2)",
        1 => " INDATASET(B)",
        2 => " IDS(B)",
        3 => " OUTDATASET(A)",
        4 => " ODS(A)",
        5 => " FROMKEY(K)",
        6 => " SKIP(1)",
        7 => " TOKEY(L)",
        8 => " COUNT(2)",
        9 => " REPLACE",
        10 => " REP",
        11 => " NOREPLACE",
        12 => " OUTFILE(X)",
        13 => " FROM",
        _ => " COUNTS(1)",
    }
}

/// The word that a parameter has in the long form.
fn long(item: u8) -> u8 {
    match item {
        2 => 1,
        4 => 3,
        10 => 9,
        other => other,
    }
}

/// Whether two parameters, in the long form, exclude each other.
fn excludes(one: u8, other: u8) -> bool {
    match (one, other) {
        (0, 1) => true,
        (1, 0) => true,
        (5, 6) => true,
        (6, 5) => true,
        (7, 8) => true,
        (8, 7) => true,
        (9, 11) => true,
        (11, 9) => true,
        _ => false,
    }
}

/// Writes REPRO with these parameters.
fn spell(items: &[u8], out: &mut Answers) {
    out.say(" REPRO");
    for item in items {
        out.say(text(*item));
    }
}

/// What the text is.
fn judge(items: &[u8], out: &mut Answers) {
    let mut column = 8usize;
    for (at, item) in items.iter().enumerate() {
        let number = fault_at(items, at, *item);
        if number > 0 {
            return say_fault("fault", u64::from(number), 1, column as u64, out);
        }
        column = column.saturating_add(text(*item).len());
    }
    if !(has(items, 0) || has(items, 1)) || !has(items, 3) {
        return out.say("fault 6 at 1 2");
    }
    say_repro(items, out);
}

/// Writes REPRO without a fault.
fn say_repro(items: &[u8], out: &mut Answers) {
    out.say("L 1 REPRO");
    out.say(if has(items, 0) { " DATA IN2 A" } else { " B A" });
    say_if(items, 5, " FROM C'K'", out);
    say_if(items, 6, " SKIP 1", out);
    say_if(items, 7, " TO C'L'", out);
    say_if(items, 8, " COUNT 2", out);
    say_if(items, 9, " REPLACE", out);
}

/// Writes a text where a parameter is there.
fn say_if(items: &[u8], item: u8, text: &str, out: &mut Answers) {
    if has(items, item) {
        out.say(text);
    }
}

/// What is wrong with a parameter at a place, 0 for nothing.
fn fault_at(items: &[u8], at: usize, item: u8) -> u8 {
    if item == 12 {
        return 12;
    }
    if item > 12 {
        return 3;
    }
    for one in items.get(..at).unwrap_or(items) {
        if long(*one) == long(item) {
            return 4;
        }
        if excludes(long(*one), long(item)) {
            return 5;
        }
    }
    0
}

/// Whether a parameter is there, in either form.
fn has(items: &[u8], wanted: u8) -> bool {
    for item in items {
        if long(*item) == wanted {
            return true;
        }
    }
    false
}
