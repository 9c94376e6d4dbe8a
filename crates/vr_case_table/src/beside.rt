//! All small questions, with what is asked and what a plain program answers.

use crate::answers::Answers;
use crate::stop::{Answer, Stop};
use std::alloc::Global;

/// The most questions that are judged at once.
const QUESTION_LIMIT: u64 = 1 << 22;

/// A small question as it is shown, the answer that is asked for, and the plain program's.
#[derive(Drop)]
pub struct Both {
    pub question: Answers,
    pub got: Answers,
    pub plain: Answers,
}

/// What is asked beside a plain, slow program.
pub trait Beside {
    /// Writes the question of these digits and both answers.
    fn answer_both(&self, digits: &[u8], both: &mut Both) -> Answer;
}

/// How many questions were judged, how many of their answers differ, and the next question.
#[derive(Drop)]
struct Judged {
    questions: u64,
    differ: u64,
    digits: Vec<u8>,
    both: Both,
}

/// Judges the questions of all digits that are less than these sizes, each than its own: how many
/// have two answers, of how many, and the first of them.
pub fn judge<B: Beside>(beside: &B, sizes: &[u8], out: &mut Answers) -> Answer {
    let mut judged = nothing_judged(out.alloc());
    let done = judge_sizes(beside, sizes, &mut judged, out);
    say_judged(judged.differ, judged.questions, out);
    done
}

/// Judges the questions of at most that many digits that are less than a size.
pub fn judge_up_to<B: Beside>(beside: &B, size: u8, length: usize, out: &mut Answers) -> Answer {
    let mut judged = nothing_judged(out.alloc());
    let done = judge_lengths(beside, size, length, &mut judged, out);
    say_judged(judged.differ, judged.questions, out);
    done
}

/// No question judged yet.
fn nothing_judged(alloc: Global) -> Judged {
    Judged {
        questions: 0,
        differ: 0,
        digits: Vec::new(alloc),
        both: Both {
            question: Answers::new(alloc),
            got: Answers::new(alloc),
            plain: Answers::new(alloc),
        },
    }
}

/// Writes how many of how many questions have two answers.
fn say_judged(differ: u64, questions: u64, out: &mut Answers) {
    out.say_number("", differ);
    out.say_number(" differ of ", questions);
}

/// Judges the questions of each length.
fn judge_lengths<B: Beside>(
    beside: &B,
    size: u8,
    length: usize,
    judged: &mut Judged,
    out: &mut Answers,
) -> Answer {
    let mut sizes = Vec::new(out.alloc());
    for _ in 0..length {
        judge_sizes(beside, sizes.as_slice(), judged, out)?;
        sizes.push(size)?;
    }
    judge_sizes(beside, sizes.as_slice(), judged, out)
}

/// Judges all questions of digits of these sizes.
fn judge_sizes<B: Beside>(
    beside: &B,
    sizes: &[u8],
    judged: &mut Judged,
    out: &mut Answers,
) -> Answer {
    zeros(&mut judged.digits, sizes.len())?;
    for _ in 0..QUESTION_LIMIT {
        judge_one(beside, judged, out)?;
        if !next(judged.digits.as_mut_slice(), sizes) {
            return Ok(());
        }
    }
    Err(Stop::Line)
}

/// The first digits of a length.
fn zeros(digits: &mut Vec<u8>, length: usize) -> Answer {
    digits.clear();
    for _ in 0..length {
        digits.push(0)?;
    }
    Ok(())
}

/// The next digits of these sizes, if there are more.
fn next(digits: &mut [u8], sizes: &[u8]) -> bool {
    for (digit, size) in digits.iter_mut().zip(sizes) {
        if *digit < size.saturating_sub(1) {
            *digit = digit.saturating_add(1);
            return true;
        }
        *digit = 0;
    }
    false
}

/// Judges a question. The first that has two answers is written with them.
fn judge_one<B: Beside>(beside: &B, judged: &mut Judged, out: &mut Answers) -> Answer {
    let both = &mut judged.both;
    both.question.clear();
    both.got.clear();
    both.plain.clear();
    beside.answer_both(judged.digits.as_slice(), both)?;
    judged.questions = judged.questions.saturating_add(1);
    if both.got.text() != both.plain.text() {
        judged.differ = judged.differ.saturating_add(1);
        if judged.differ == 1 {
            say_both(both, out);
        }
    }
    if both.got.lacks_memory() || both.plain.lacks_memory() || both.question.lacks_memory() {
        return Err(Stop::Memory);
    }
    Ok(())
}

/// Writes a question with both answers.
fn say_both(both: &Both, out: &mut Answers) {
    out.say(both.question.text());
    out.say(" gives ");
    out.say(both.got.text());
    out.say(" and plainly ");
    out.say(both.plain.text());
    out.say(", ");
}
