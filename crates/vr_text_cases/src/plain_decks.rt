//! A reader of decks, plain and slow: it lists all words of a line first, and then looks at each of
//! them beside all before it.

use crate::decks::say_fault;
use crate::lines::LINE_BREAK;
use crate::plain_operands::{
    has_one, integrity_of, is_among, is_short, known_of, operands_fault, say_operands,
};
use crate::simple::{is_data_set, is_name, part, say_upper};
use vr_case_table::{Answer, Answers, Stop};

/// A file that was declared.
#[derive(Clone, Copy)]
struct Known<'a> {
    name: &'a [u8],
    data_set: &'a [u8],
    integrity: &'static str,
}

/// What was read so far: the files, and the orders as they are written.
#[derive(Drop)]
struct Deck<'a> {
    files: Vec<Known<'a>>,
    orders: Answers,
}

/// Writes the deck of the lines of a text, which are numbered from 1, or its first fault.
pub fn read(text: &str, out: &mut Answers) -> Answer {
    let alloc = out.alloc();
    let mut deck = Deck {
        files: Vec::new(alloc),
        orders: Answers::new(alloc),
    };
    match read_lines(&mut deck, text) {
        Ok(None) => say_deck(&deck, out),
        Ok(Some((cause, line))) => say_fault(cause, line, out),
        Err(stop) => return Err(stop),
    }
    Ok(())
}

/// Reads lines, and answers the number of the first fault and its line.
fn read_lines<'a>(deck: &mut Deck<'a>, text: &'a str) -> Result<Option<(u8, u32)>, Stop> {
    let mut number = 0u32;
    for line in text.split(LINE_BREAK) {
        number = number.saturating_add(1);
        let cause = read_line(deck, number, line.as_bytes())?;
        if cause != 0 {
            return Ok(Some((cause, number)));
        }
    }
    Ok(None)
}

/// Writes the files, and then the orders.
fn say_deck(deck: &Deck, out: &mut Answers) {
    for file in deck.files.as_slice() {
        out.gap();
        out.say_bytes(file.name);
        out.say("=");
        say_upper(file.data_set, out);
        out.say("/");
        out.say(file.integrity);
    }
    if !deck.orders.is_empty() {
        out.gap();
    }
    out.say(deck.orders.text());
}

/// The words from one on.
fn rest_of<'a, 'b>(words: &'b [&'a [u8]], from: usize) -> &'b [&'a [u8]] {
    if from > words.len() {
        return words;
    }
    &words[from..]
}

/// Adds the words of a line.
fn add_words<'a>(words: &mut Vec<&'a [u8]>, line: &'a [u8]) -> Answer {
    let mut start = 0usize;
    let mut quotes = 0u64;
    for (at, byte) in line.iter().enumerate() {
        if *byte == b'\'' {
            quotes = quotes.saturating_add(1);
        }
        if *byte == b' ' && quotes % 2 == 0 {
            if start < at {
                words.push(part(line, start, at))?;
            }
            start = at.saturating_add(1);
        }
    }
    if start < line.len() {
        words.push(part(line, start, line.len()))?;
    }
    Ok(())
}

/// Reads a line, and answers the number of its fault, 0 where there is none.
fn read_line<'a>(deck: &mut Deck<'a>, number: u32, line: &'a [u8]) -> Result<u8, Stop> {
    if line.starts_with(b"*") {
        return Ok(0);
    }
    let mut words = Vec::new(deck.orders.alloc());
    match add_words(&mut words, line) {
        Ok(()) => read_words(deck, number, words.as_slice()),
        Err(stop) => Err(stop),
    }
}

/// Reads the words of a line.
fn read_words<'a>(deck: &mut Deck<'a>, number: u32, words: &[&'a [u8]]) -> Result<u8, Stop> {
    let Some(verb) = words.first() else {
        return Ok(0);
    };
    let rest = rest_of(words, 1);
    if *verb == b"FILE".as_slice() {
        declare(deck, rest)
    } else {
        Ok(read_order(deck, number, verb, rest))
    }
}

/// Begins an order.
fn begin(deck: &mut Deck, number: u32) {
    deck.orders.gap();
    deck.orders.say_number("", u64::from(number));
    deck.orders.say(":");
}

/// Reads what a line declares.
fn declare<'a>(deck: &mut Deck<'a>, words: &[&'a [u8]]) -> Result<u8, Stop> {
    let cause = declared_fault(deck, words);
    if cause == 0 && words.len() > 1 {
        let integrity = integrity_of(rest_of(words, 2), "NRI");
        deck.files.push(Known {
            name: words[0],
            data_set: words[1],
            integrity,
        })?;
    }
    Ok(cause)
}

/// The fault of what a line declares.
fn declared_fault(deck: &Deck, words: &[&[u8]]) -> u8 {
    let Some(name) = words.first() else {
        return 6;
    };
    if !is_name(name) {
        return 2;
    }
    if deck.files.len() == 64 || place_of(deck.files.as_slice(), name) < deck.files.len() {
        return 4;
    }
    match words.get(1) {
        None => 6,
        Some(data_set) => {
            if is_data_set(data_set) {
                operands_fault(&["NRI", "CR", "CRE"], rest_of(words, 2))
            } else {
                5
            }
        }
    }
}

/// Which file has a name: how many there are where none has.
fn place_of(files: &[Known], name: &[u8]) -> usize {
    for (at, file) in files.iter().enumerate() {
        if file.name == name {
            return at;
        }
    }
    files.len()
}

/// Reads an order.
fn read_order(deck: &mut Deck, number: u32, verb: &[u8], words: &[&[u8]]) -> u8 {
    if !is_among(&["COMMIT", "BACKOUT"], verb) {
        return read_on_file(deck, number, verb, words);
    }
    if !words.is_empty() {
        return 9;
    }
    begin(deck, number);
    deck.orders.say_bytes(verb);
    0
}

/// Reads an order on a file.
fn read_on_file(deck: &mut Deck, number: u32, verb: &[u8], words: &[&[u8]]) -> u8 {
    if !is_among(&["GET", "POINT", "PUT", "ERASE", "ENDREQ"], verb) {
        return 1;
    }
    let Some(name) = words.first() else {
        return 6;
    };
    if !is_name(name) {
        return 2;
    }
    let place = place_of(deck.files.as_slice(), name);
    let Some(file) = deck.files.as_slice().get(place) else {
        return 3;
    };
    let integrity = file.integrity;
    let rest = rest_of(words, 1);
    let cause = operands_fault(known_of(verb), rest);
    if cause != 0 {
        return cause;
    }
    if is_short(verb, rest) {
        return 6;
    }
    begin(deck, number);
    say_verb(verb, rest, &mut deck.orders);
    deck.orders.say_number("", place as u64);
    say_operands(verb, rest, integrity, &mut deck.orders);
    0
}

/// Writes a verb.
fn say_verb(verb: &[u8], words: &[&[u8]], out: &mut Answers) {
    if verb != b"PUT".as_slice() {
        out.say_bytes(verb);
    } else if has_one(words, &["UPD"]) {
        out.say("UPDATE");
    } else {
        out.say("ADD");
    }
}
