//! FREESPACE of ALTER, judged plainly: by what may follow each item.

use crate::commands::{read, say_fault};
use vr_case_table::{Answer, Answers, Beside, Both};

/// How many items there are.
pub const COUNT: u8 = 7;

/// ALTER with FREESPACE.
pub struct Ranges;

impl Beside for Ranges {
    fn answer_both(&self, items: &[u8], both: &mut Both) -> Answer {
        spell(items, &mut both.question);
        judge(items, &mut both.plain);
        read(both.question.text(), &mut both.got)
    }
}

/// What was read so far: whether there was a parenthesis that opens and one that closes, how many
/// numbers, and these.
#[derive(Clone, Copy)]
struct Seen {
    opened: bool,
    closed: bool,
    numbers: u8,
    first: u64,
    second: u64,
}

/// An item as it is written: parentheses, numbers within the range and beyond it, a word, a comma
/// that is a blank.
fn text(item: u8) -> &'static str {
    match item {
        0 => "(",
        1 => ")",
        2 => " 0",
        3 => " 100",
        4 => " 101",
        5 => " X1",
        _ => ",",
    }
}

/// Writes ALTER with FREESPACE and these items.
fn spell(items: &[u8], out: &mut Answers) {
    out.say(" ALTER A FSPC");
    for item in items {
        out.say(text(*item));
    }
}

/// What the text is: FREESPACE, then a parenthesis, then one or two numbers, then a parenthesis,
/// then nothing.
fn judge(items: &[u8], out: &mut Answers) {
    let mut column = 14usize;
    let mut seen = Seen {
        opened: false,
        closed: false,
        numbers: 0,
        first: 0,
        second: 0,
    };
    for item in items {
        let number = fault_of(*item, seen);
        if number > 0 {
            let at = column.saturating_add(if *item > 1 { 1 } else { 0 });
            return say_fault("fault", u64::from(number), 1, at as u64, out);
        }
        seen = after(*item, seen);
        column = column.saturating_add(text(*item).len());
    }
    if !seen.closed {
        return say_fault("fault", 2, 1, column as u64, out);
    }
    out.say("L 1 ALTER A - FREE");
    out.say_number(" ", seen.first);
    out.say_number(" ", seen.second);
}

/// What was read with one item more.
fn after(item: u8, seen: Seen) -> Seen {
    let mut seen = seen;
    match item {
        0 => seen.opened = true,
        1 => seen.closed = true,
        2 => seen = with_number(0, seen),
        3 => seen = with_number(100, seen),
        _ => {}
    }
    seen
}

/// What was read with one number more.
fn with_number(value: u64, seen: Seen) -> Seen {
    let mut seen = seen;
    if seen.numbers == 0 {
        seen.first = value;
    } else {
        seen.second = value;
    }
    seen.numbers = seen.numbers.saturating_add(1);
    seen
}

/// What is wrong with an item, 0 for nothing.
fn fault_of(item: u8, seen: Seen) -> u8 {
    if item > 5 {
        return 0;
    }
    if seen.closed {
        return if item < 2 { 18 } else { 3 };
    }
    if !seen.opened {
        return if item == 0 { 0 } else { 2 };
    }
    if item == 1 {
        return if seen.numbers == 0 { 10 } else { 0 };
    }
    if seen.numbers == 2 {
        return 10;
    }
    match item {
        0 | 5 => 8,
        4 => 9,
        _ => 0,
    }
}
