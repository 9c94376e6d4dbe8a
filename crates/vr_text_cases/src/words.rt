//! What `plan` of `vr_job_ends` says of the words of the program, beside the plain program.

use crate::plain_words;
use vr_case_table::{Answer, Answers, Beside, Both, byte_of, judge_up_to, parted, size_of};
use vr_job_ends::{Plan, plan};
use vr_types::Words;

/// Words of which lists are made: one for each thing that may matter.
const WORDS: [&str; 24] = [
    "format",
    "d",
    "-",
    "7",
    "17",
    "run",
    "trace",
    "",
    "0",
    "1",
    "16",
    "-x",
    "--",
    "x-",
    "0000000016",
    "00000000016",
    "9999999999",
    "10000000000",
    "+1",
    "1a",
    "gen",
    "RUN",
    "runs",
    "\u{E9}",
];

/// Lists of words: each word is one of the alphabet.
struct Lists;

impl Beside for Lists {
    fn answer_both(&self, digits: &[u8], both: &mut Both) -> Answer {
        let mut words = Words::new(both.question.alloc());
        add_digits(&mut words, digits, &mut both.question)?;
        say_plan(&words, &mut both.got);
        plain_words::say_plan(&words, &mut both.plain);
        Ok(())
    }
}

/// Adds the words of digits.
fn add_digits(words: &mut Words, digits: &[u8], question: &mut Answers) -> Answer {
    for digit in digits {
        let word = WORDS.get(usize::from(*digit)).copied().unwrap_or("");
        question.say(" ");
        question.say(word);
        words.push(word)?;
    }
    Ok(())
}

/// `words SIZE LENGTH`: judges all lists of at most LENGTH of the first SIZE words of the alphabet.
pub fn judge_words(text: &str, out: &mut Answers) -> Answer {
    let (size, length) = parted(text);
    judge_up_to(&Lists, byte_of(size)?, size_of(length)?, out)
}

/// Writes what words ask for, and what the plain program says where that is something else. The
/// words follow a colon, each after a blank.
pub fn plan_twice(text: &str, out: &mut Answers) -> Answer {
    let mut words = Words::new(out.alloc());
    match add_words(&mut words, text) {
        Ok(()) => say_twice(&words, out),
        Err(stop) => return Err(stop),
    }
    Ok(())
}

/// Adds the words of a question.
fn add_words(words: &mut Words, text: &str) -> Answer {
    for word in text.split(' ').skip(1) {
        words.push(word)?;
    }
    Ok(())
}

fn say_twice(words: &Words, out: &mut Answers) {
    let mut plain = Answers::new(out.alloc());
    say_plan(words, out);
    plain_words::say_plan(words, &mut plain);
    out.say_plain(&plain);
}

/// Writes what words ask for.
fn say_plan(words: &Words, out: &mut Answers) {
    match plan(words) {
        Some(plan) => say_some(&plan, out),
        None => out.say("no command"),
    }
}

fn say_some(plan: &Plan<'_>, out: &mut Answers) {
    match *plan {
        Plan::Run { job, dir, trace } => {
            say_run(if trace { "trace" } else { "run" }, job, dir, out);
        }
        Plan::Format {
            dir,
            count,
            size,
            blocks,
            log,
            area,
        } => say_format(dir, u64::from(count), [size, blocks, log, area], out),
    }
}

/// Writes what a job asks for.
pub fn say_run(verb: &str, job: &str, dir: &str, out: &mut Answers) {
    out.say(verb);
    out.say(" ");
    out.say(job);
    out.say(" over ");
    out.say(dir);
}

/// Writes what is to be made: how many volumes in which directory, of which numbers.
pub fn say_format(dir: &str, count: u64, numbers: [u64; 4], out: &mut Answers) {
    out.say_number("format ", count);
    out.say(" in ");
    out.say(dir);
    out.say(":");
    for number in numbers {
        out.say_number(" ", number);
    }
}
