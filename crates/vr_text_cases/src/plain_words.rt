//! What words ask for, plainly and slowly: each word is looked at by itself, by its place, and then
//! what all of them say together. It shares no code with `vr_job_ends`.

use crate::words::{say_format, say_run};
use vr_case_table::Answers;
use vr_types::Words;

/// What one word may be.
#[derive(Clone, Copy)]
struct Looks {
    /// It begins with `-`.
    dashed: bool,
    /// It is `-`.
    dash: bool,
    /// The number that it is; none is larger than what 10 digits write.
    number: Option<u64>,
}

/// Looks at a word byte by byte.
fn looks_of(word: &str) -> Looks {
    let mut looks = Looks {
        dashed: false,
        dash: false,
        number: None,
    };
    let mut value = 0u64;
    let mut digits = 0u64;
    for (at, byte) in word.as_bytes().iter().enumerate() {
        if at == 0 && *byte == 45 {
            looks.dashed = true;
            looks.dash = word.len() == 1;
        }
        if *byte >= 48 && *byte <= 57 {
            digits = digits.saturating_add(1);
            let digit = u64::from(*byte).saturating_sub(48);
            value = value.saturating_mul(10).saturating_add(digit);
        } else {
            digits = 100;
        }
    }
    if digits >= 1 && digits <= 10 {
        looks.number = Some(value);
    }
    looks
}

/// The word at a place, if there is one, or the empty one.
fn word_at(words: &Words, at: usize) -> &str {
    if at < words.len() { words.word(at) } else { "" }
}

/// Whether a word of `run` and `trace`, after the first, is right.
fn is_right_to_run(words: &Words, at: usize) -> bool {
    let looks = looks_of(word_at(words, at));
    !looks.dashed || looks.dash
}

/// The number at a place of `format`, where it is one.
fn number_at(words: &Words, at: usize) -> Option<u64> {
    looks_of(word_at(words, at)).number
}

/// Whether each word of `format` from DIR on is right.
fn is_right_to_format(words: &Words) -> bool {
    for at in 1..words.len() {
        let looks = looks_of(word_at(words, at));
        let right = if at == 1 {
            !looks.dashed
        } else {
            looks.number.is_some()
        };
        if !right {
            return false;
        }
    }
    let count = number_at(words, 2).unwrap_or(0);
    count >= 1 && count <= 16
}

/// Writes the words of `format` from COUNT on, as numbers, or the defaults.
fn say_numbers(words: &Words, out: &mut Answers) {
    let count = number_at(words, 2).unwrap_or(0);
    let size = number_at(words, 3).unwrap_or(4096);
    let blocks = number_at(words, 4).unwrap_or(2048);
    let log = number_at(words, 5).unwrap_or(64);
    let area = number_at(words, 6).unwrap_or(15);
    say_format(word_at(words, 1), count, [size, blocks, log, area], out);
}

/// Whether words ask for a job.
fn is_job(words: &Words) -> bool {
    let verb = word_at(words, 0);
    (verb == "run" || verb == "trace")
        && words.len() == 3
        && is_right_to_run(words, 1)
        && is_right_to_run(words, 2)
}

/// Writes what words ask for.
pub fn say_plan(words: &Words, out: &mut Answers) {
    let verb = word_at(words, 0);
    let count = words.len();
    if is_job(words) {
        say_run(verb, word_at(words, 1), word_at(words, 2), out);
    } else if verb == "format" && (count == 3 || count == 7) && is_right_to_format(words) {
        say_numbers(words, out);
    } else {
        out.say("no command");
    }
}
