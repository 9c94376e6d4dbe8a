//! What `vr_deck_text` reads, beside the plain program.

use crate::lines::lines_of;
use crate::plain_decks;
use crate::themes::spell;
use vr_case_table::{Answer, Answers, Beside, Both, Stop};
use vr_deck_text::{Ask, At, DeckFault, DeckFile, DeckText, Order, Seek, parse_deck};
use vr_types::Integrity;

/// One for each thing that may matter after the first words of a line.
const WORDS: [&str; 32] = [
    "",
    "|",
    "F",
    "1F",
    "A.B",
    "KEY=C'A'",
    "KEY=X'4'",
    "KEY=",
    "KEY",
    "RBA=0",
    "RBA=4294967296",
    "RRN=7",
    "RRN=+7",
    "SEQ",
    "GE",
    "UPD",
    "NRI",
    "CR",
    "CRE",
    "DATA=C'A  B'",
    "DATA=C'A'B'",
    "DATA=C''''",
    "DATA=A",
    "GET F",
    "PUT F",
    "FILE G",
    "COMMIT",
    "*",
    "'",
    "UPD=",
    "ERASE G",
    "SEQ=1",
];

/// How texts begin.
const BEGINS: [&str; 16] = [
    "FILE F a.b|GET F",
    "FILE F A.B CR|GET F",
    "FILE F A.B CRE|GET",
    "FILE F A|POINT F",
    "FILE F A|PUT F",
    "FILE F A|ERASE",
    "FILE F A|ENDREQ F",
    "COMMIT",
    "BACKOUT",
    "FILE",
    "FILE F",
    "FILE F A|FILE",
    "FILE F A|FILE G B",
    "",
    " ",
    "GET",
];

/// Decks: each is a beginning with three words after it.
pub struct Decks;

impl Beside for Decks {
    fn answer_both(&self, digits: &[u8], both: &mut Both) -> Answer {
        spell(&BEGINS, &WORDS, (" ", ""), digits, &mut both.question);
        let text = both.question.text();
        read(text, &mut both.got)?;
        plain_decks::read(text, &mut both.plain)
    }
}

/// Writes what the crate reads, and what the plain program reads where that is something else.
pub fn read_twice(text: &str, out: &mut Answers) -> Answer {
    let mut plain = Answers::new(out.alloc());
    read(text, out)?;
    plain_decks::read(text, &mut plain)?;
    out.say_plain(&plain);
    Ok(())
}

/// Writes the deck of the lines of a text, or its fault.
fn read(text: &str, out: &mut Answers) -> Answer {
    let alloc = out.alloc();
    let lines = lines_of(alloc, text)?;
    match parse_deck(alloc, &lines) {
        Ok(deck) => say_deck(&deck, out),
        Err(DeckFault::Text(fault)) => say_fault(fault.cause.number(), fault.line, out),
        Err(DeckFault::Memory) => return Err(Stop::Memory),
    }
    Ok(())
}

/// Writes a fault: its number and its line.
pub fn say_fault(cause: u8, line: u32, out: &mut Answers) {
    out.say_number("fault ", u64::from(cause));
    out.say_number(" at ", u64::from(line));
}

/// Writes a deck: its files, and then its orders.
fn say_deck(deck: &DeckText, out: &mut Answers) {
    for file in deck.files.as_slice() {
        say_file(file, out);
    }
    for order in deck.orders.as_slice() {
        say_order(order, out);
    }
}

/// Writes a file: its name, its data set and its integrity.
fn say_file(file: &DeckFile, out: &mut Answers) {
    out.gap();
    out.say_bytes(file.name.as_slice());
    out.say("=");
    out.say_bytes(file.data_set.as_slice());
    out.say("/");
    out.say(integrity_name(file.integrity));
}

/// How an integrity is spelled.
pub fn integrity_name(integrity: Integrity) -> &'static str {
    match integrity {
        Integrity::Nri => "NRI",
        Integrity::Cr => "CR",
        Integrity::Cre => "CRE",
    }
}

/// Writes an order: its line, and what it asks for.
fn say_order(order: &Order, out: &mut Answers) {
    out.gap();
    out.say_number("", u64::from(order.line));
    out.say(":");
    match &order.ask {
        Ask::Get {
            file,
            seek,
            update,
            integrity,
        } => {
            out.say_number("GET", u64::from(*file));
            say_seek(seek, out);
            out.say(if *update { ",UPD," } else { "," });
            out.say(integrity_name(*integrity));
        }
        Ask::Point { file, seek } => {
            out.say_number("POINT", u64::from(*file));
            say_seek(seek, out);
        }
        Ask::Add { file, at, bytes } => {
            out.say_number("ADD", u64::from(*file));
            say_place(at, out);
            out.say(",");
            out.say_digits(bytes.as_slice());
        }
        Ask::Update { file, bytes } => {
            out.say_number("UPDATE", u64::from(*file));
            out.say(",");
            out.say_digits(bytes.as_slice());
        }
        Ask::Erase { file } => out.say_number("ERASE", u64::from(*file)),
        Ask::EndReq { file } => out.say_number("ENDREQ", u64::from(*file)),
        Ask::Commit => out.say("COMMIT"),
        Ask::Backout => out.say("BACKOUT"),
    }
}

/// Writes which record is asked for.
fn say_seek(seek: &Seek, out: &mut Answers) {
    match seek {
        Seek::Next => out.say(",SEQ"),
        Seek::Equal(at) => say_at(at, out),
        Seek::AtLeast(at) => {
            say_at(at, out);
            out.say(",GE");
        }
    }
}

/// Writes a place, where there is one.
fn say_place(at: &Option<At>, out: &mut Answers) {
    if let Some(at) = at {
        say_at(at, out);
    }
}

/// Writes a place.
fn say_at(at: &At, out: &mut Answers) {
    match at {
        At::Key(key) => {
            out.say(",KEY");
            out.say_digits(key.as_slice());
        }
        At::Rba(number) => out.say_number(",RBA", u64::from(*number)),
        At::Rrn(number) => out.say_number(",RRN", u64::from(*number)),
    }
}
