//! What `vr_scan` reads, beside the plain program.

use crate::lines::lines_of;
use crate::plain_tokens;
use crate::themes::spell;
use vr_case_table::{Answer, Answers, Beside, Both, Stop};
use vr_scan::{FormCause, FormFault, ScanFault, TokenKind, Tokens, scan};

/// One for each thing that may matter in a text. A bar ends a line, and the next begins with the
/// blank of its first column.
const LETTERS: [&str; 16] = [
    "", "| ", " ", "A", "C", "x", "'", "/", "*", "-", "+", "(", ";", "=", ">", "1",
];

/// How texts begin: within a literal, a comment, a comparison or a word that goes on, or close to
/// column 72.
const BEGINS: [&str; 16] = [
    "",
    "C'",
    "X'",
    "/*",
    "A+|   ",
    "C'A-|  ",
    "X'1",
    "A>",
    "C'A'",
    "X'1+|  ",
    "A /* *",
    ";",
    "B /* -|  ",
    "'C",
    "BBBBBBBBBBBBBBBBBBBBBBBBBBBBBBBBBBBBBBBBBBBBBBBBBBBBBBBBBBBBBBBBBBBB",
    "BBBBBBBBBBBBBBBBBBBBBBBBBBBBBBBBBBBBBBBBBBBBBBBBBBBBBBBBBBBBBBBBBB /",
];

/// Texts of commands: each is a beginning with four letters after it, and a blank before all, since
/// the first column doesn't count.
pub struct Texts;

impl Beside for Texts {
    fn answer_both(&self, digits: &[u8], both: &mut Both) -> Answer {
        both.question.say(" ");
        spell(&BEGINS, &LETTERS, ("", ""), digits, &mut both.question);
        let text = both.question.text();
        read(text, &mut both.got)?;
        plain_tokens::read(text, &mut both.plain)
    }
}

/// Writes what the crate reads, and what the plain program reads where that is something else.
pub fn read_twice(text: &str, out: &mut Answers) -> Answer {
    let mut plain = Answers::new(out.alloc());
    read(text, out)?;
    plain_tokens::read(text, &mut plain)?;
    out.say_plain(&plain);
    Ok(())
}

/// Writes the tokens of the lines of a text, or its fault.
fn read(text: &str, out: &mut Answers) -> Answer {
    let alloc = out.alloc();
    let lines = lines_of(alloc, text)?;
    match scan(alloc, &lines) {
        Ok(tokens) => say_tokens(&tokens, out),
        Err(ScanFault::Form(fault)) => say_form(fault, out),
        Err(ScanFault::Memory) => return Err(Stop::Memory),
    }
    Ok(())
}

/// Writes tokens.
fn say_tokens(tokens: &Tokens, out: &mut Answers) {
    for i in 0..tokens.len() {
        say_token(tokens.kind(i), tokens.text(i), out);
        say_spot(tokens.line(i), tokens.column(i), out);
    }
}

/// Writes how a token is spelled, after a blank where it isn't the first. A literal has its bytes
/// between quotes, those of `X'..'` as digits; an end is `;`.
pub fn say_token(kind: TokenKind, text: &[u8], out: &mut Answers) {
    out.gap();
    match kind {
        TokenKind::Word | TokenKind::Compare => out.say_bytes(text),
        TokenKind::Characters => {
            out.say("C'");
            out.say_bytes(text);
            out.say("'");
        }
        TokenKind::Hex => {
            out.say("X'");
            out.say_digits(text);
            out.say("'");
        }
        TokenKind::Open => out.say("("),
        TokenKind::Close => out.say(")"),
        TokenKind::End => out.say(";"),
    }
}

/// Writes where a token begins.
pub fn say_spot(line: u32, column: u32, out: &mut Answers) {
    out.say_number("@", u64::from(line));
    out.say_number(".", u64::from(column));
}

/// Writes a fault.
fn say_form(fault: FormFault, out: &mut Answers) {
    say_fault(cause_number(fault.cause), fault.line, fault.column, out);
}

/// The number of a fault.
pub fn cause_number(cause: FormCause) -> u32 {
    match cause {
        FormCause::OpenComment => 1,
        FormCause::OpenLiteral => 2,
        FormCause::Digit => 3,
        FormCause::Continuation => 4,
    }
}

/// Writes a fault in place of all tokens: its number, its line and its column.
pub fn say_fault(cause: u32, line: u32, column: u32, out: &mut Answers) {
    out.clear();
    out.say_number("fault ", u64::from(cause));
    out.say_number(" at ", u64::from(line));
    out.say_number(".", u64::from(column));
}
