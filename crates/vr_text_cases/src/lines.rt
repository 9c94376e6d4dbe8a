//! The lines of a text, in a question and in an answer.

use std::alloc::Global;
use vr_case_table::{Answer, Answers, Stop};
use vr_text::Lines;

/// What separates the lines of a text in a question.
pub const LINE_BREAK: char = '|';

/// The lines of a text, which are numbered from 1.
pub fn lines_of<'a>(alloc: Global, text: &'a str) -> Result<Lines<'a>, Stop> {
    let mut lines = Lines::new(alloc);
    match add_lines(&mut lines, text) {
        Ok(()) => Ok(lines),
        Err(stop) => Err(stop),
    }
}

fn add_lines<'a>(lines: &mut Lines<'a>, text: &'a str) -> Answer {
    let mut number = 0u32;
    for line in text.split(LINE_BREAK) {
        number = number.saturating_add(1);
        lines.push(number, line.as_bytes())?;
    }
    Ok(())
}

/// Writes bytes, with a `|` for each line feed.
pub fn say_lines(bytes: &[u8], out: &mut Answers) {
    for byte in bytes {
        out.say_char(if *byte == b'\n' {
            LINE_BREAK
        } else {
            char::from(*byte)
        });
    }
}
