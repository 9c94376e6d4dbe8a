//! What `vr_job_text` reads, beside the plain program.

use crate::escapes::bytes_of;
use crate::look::used;
use crate::nodes::say_nodes;
use crate::plain_jobs;
use crate::themes::spell;
use vr_case_table::{Answer, Answers, Beside, Both, Stop, word_of};
use vr_job_text::{
    DataCards, Deck, Job, JobFault, JobStep, Kind, Step, TextFault, UtilityStep, parse_job,
    scan_number, unrun,
};

/// The longest text that may be asked, in bytes.
const TEXT_LIMIT: usize = 1 << 26;

/// One line for each thing that may matter.
const LINES: [&str; 16] = [
    "//A EXEC PGM=VRMDECK",
    "//DECK1 DD *",
    "//DECK2 DD *",
    "//DECK0 DD *",
    "FILE F A.B",
    "GET F KEY=C'A'",
    " LISTCAT -",
    "/*",
    "//* NOTE",
    "//SYSIN DD *",
    "//X DD *",
    "  EXAMINE NAME(A)",
    "",
    "//C EXEC PGM=IDCAMS,X",
    " REPRO INFILE(X) ODS(A) /*",
    "//D EXEC PGM=SORT",
];

/// How texts begin.
const BEGINS: [&str; 2] = ["", "//S EXEC PGM=VRMDECK\n//DECK3 DD *\nFILE F A.B\n"];

/// Jobs: each is a beginning with five lines after it.
pub struct Jobs;

impl Beside for Jobs {
    fn answer_both(&self, digits: &[u8], both: &mut Both) -> Answer {
        spell(&BEGINS, &LINES, ("", "\n"), digits, &mut both.question);
        let text = both.question.text().as_bytes();
        read(text, &mut both.got)?;
        plain_jobs::read(text, &mut both.plain)
    }
}

/// Writes what the text of a question is read as: `job TEXT`, `decks N` or `line N`.
pub fn answer(verb: &str, rest: &str, out: &mut Answers) -> Answer {
    match verb {
        "job" => read_escaped(rest, out),
        "decks" => read_many(word_of(rest)?, out),
        "line" => read_long(word_of(rest)?, out),
        _ => Err(Stop::Line),
    }
}

/// Writes what a text is read as that has escapes.
fn read_escaped(text: &str, out: &mut Answers) -> Answer {
    let bytes = bytes_of(out.alloc(), text)?;
    read_twice(bytes.as_slice(), out)
}

/// Writes what a step of that many decks, which are numbered from 1, is read as.
fn read_many(count: u32, out: &mut Answers) -> Answer {
    let mut text = Answers::new(out.alloc());
    text.say("//S EXEC PGM=VRMDECK\n");
    for deck in 0..count {
        text.say_number("//DECK", u64::from(deck.saturating_add(1)));
        text.say(" DD *\n");
    }
    read_twice(text.text().as_bytes(), out)
}

/// Writes what a deck is read as whose one line is a comment of that many bytes and a blank.
fn read_long(length: u32, out: &mut Answers) -> Answer {
    let mut text = Answers::new(out.alloc());
    text.say("//S EXEC PGM=VRMDECK\n//DECK1 DD *\n");
    for _ in 0..length {
        text.say("*");
    }
    text.say(" ");
    read_twice(text.text().as_bytes(), out)
}

/// Writes what the crate reads, and what the plain program reads where that is something else.
fn read_twice(text: &[u8], out: &mut Answers) -> Answer {
    let mut plain = Answers::new(out.alloc());
    read(text, out)?;
    plain_jobs::read(text, &mut plain)?;
    out.say_plain(&plain);
    Ok(())
}

/// Writes the job of a text, or its fault.
fn read(text: &[u8], out: &mut Answers) -> Answer {
    if text.len() > TEXT_LIMIT {
        return Err(Stop::Line);
    }
    match parse_job(out.alloc(), text) {
        Ok(job) => say_job(&job, out),
        Err(JobFault::Text(fault)) => say_text_fault(fault, out),
        Err(JobFault::Memory) => return Err(Stop::Memory),
    }
    Ok(())
}

/// Writes a fault.
fn say_text_fault(fault: TextFault, out: &mut Answers) {
    let (kind, cause) = match fault.kind {
        Kind::Card(cause) => ("CARD", cause.number()),
        Kind::Scan(cause) => ("SCAN", scan_number(cause)),
        Kind::Ams(cause) => ("AMS", cause.number()),
        Kind::Deck(cause) => ("DECK", cause.number()),
        Kind::Form => ("FORM", 0),
    };
    say_fault(kind, cause, fault.line, fault.column, out);
}

/// Writes a fault: its kind, its number, its line and its column.
pub fn say_fault(kind: &str, cause: u8, line: u32, column: u32, out: &mut Answers) {
    out.say(kind);
    out.say_number(" ", u64::from(cause));
    out.say_number(" at ", u64::from(line));
    out.say_number(".", u64::from(column));
}

/// Writes a job: its steps, and what isn't run of it.
fn say_job(job: &Job, out: &mut Answers) {
    for step in job.steps.as_slice() {
        match step {
            JobStep::Decks(step) => say_whole(step, out),
            JobStep::Utilities(step) => say_utilities(step, out),
        }
    }
    match unrun(job) {
        Some(fault) => say_unrun(Some(fault.line), out),
        None => {}
    }
}

/// Writes the line of what isn't run.
pub fn say_unrun(line: Option<u32>, out: &mut Answers) {
    if let Some(line) = line {
        out.say_number(" - FORM at ", u64::from(line));
    }
}

/// Writes a step of IDCAMS with its data and its commands.
fn say_utilities(step: &UtilityStep, out: &mut Answers) {
    say_step(step.name.as_slice(), step.line, out);
    for data in step.inputs.as_slice() {
        say_data(data, out);
    }
    say_nodes(step.commands.as_slice(), out);
}

/// Writes data: its name, its cards without the blanks at their end, and how many bytes they have.
fn say_data(data: &DataCards, out: &mut Answers) {
    say_data_name(data.name.as_slice(), out);
    let mut bytes = 0usize;
    for card in data.cards.as_slice() {
        say_card(used(card.as_slice()), out);
        bytes = bytes.saturating_add(card.len());
    }
    say_cards_end(bytes, out);
}

/// Writes the name of data.
pub fn say_data_name(name: &[u8], out: &mut Answers) {
    out.say(" ");
    out.say_bytes(name);
    out.say("[");
}

/// Writes a data card.
pub fn say_card(card: &[u8], out: &mut Answers) {
    out.say_bytes(card);
    out.say(",");
}

/// Writes how data ends: how many bytes its cards have.
pub fn say_cards_end(bytes: usize, out: &mut Answers) {
    out.say_number("]", bytes as u64);
}

/// Writes a step of decks.
fn say_whole(step: &Step, out: &mut Answers) {
    say_step(step.name.as_slice(), step.line, out);
    for deck in step.decks.as_slice() {
        say_orders(deck, out);
    }
}

/// Writes a deck with the lines of its orders.
fn say_orders(deck: &Deck, out: &mut Answers) {
    say_deck(deck.number, deck.text.files.as_slice().len(), out);
    for order in deck.text.orders.as_slice() {
        say_order(order.line, out);
    }
}

/// Writes a step: its name and its line.
pub fn say_step(name: &[u8], line: u32, out: &mut Answers) {
    out.gap();
    out.say_bytes(name);
    out.say_number("@", u64::from(line));
}

/// Writes how a deck begins: its number, and how many files it declares.
pub fn say_deck(number: u32, files: usize, out: &mut Answers) {
    out.say_number(" ", u64::from(number));
    out.say_number(":", files as u64);
}

/// Writes the line of an order.
pub fn say_order(line: u32, out: &mut Answers) {
    out.say_number(",", u64::from(line));
}
