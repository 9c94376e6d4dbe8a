//! A reader of jobs, plain and slow: it looks at each line beside all lines before it, and reads a
//! deck again after each of its lines.

use crate::jobs::{say_deck, say_fault, say_order, say_step, say_unrun};
use crate::look::{Look, What, add_lines, look_at, name_of, number_of, used};
use crate::plain_utilities::{say_utilities, unrun_line, utility_fault};
use std::alloc::Global;
use vr_case_table::{Answer, Answers, Stop};
use vr_deck_text::{DeckFault, DeckText, parse_deck};
use vr_text::Lines;

/// The first fault of a text.
#[derive(Clone, Copy)]
pub struct Fault {
    pub kind: &'static str,
    pub cause: u8,
    pub line: usize,
    pub column: usize,
}

/// A text: its lines, whole and without the blanks at their end, and what each is.
#[derive(Drop)]
pub struct Text<'a> {
    pub wholes: Vec<&'a [u8]>,
    pub lines: Vec<&'a [u8]>,
    looks: Vec<Look>,
}

/// Writes the job of a text, or its first fault.
pub fn read(text: &[u8], out: &mut Answers) -> Answer {
    let alloc = out.alloc();
    let mut whole = Text {
        wholes: Vec::new(alloc),
        lines: Vec::new(alloc),
        looks: Vec::new(alloc),
    };
    match look_over(alloc, &mut whole, text) {
        Ok(()) => say_text(alloc, &whole, out),
        Err(stop) => Err(stop),
    }
}

/// Looks at each line of a text.
fn look_over<'a>(alloc: Global, whole: &mut Text<'a>, text: &'a [u8]) -> Answer {
    add_lines(&mut whole.wholes, text)?;
    for line in whole.wholes.as_slice() {
        whole.lines.push(used(line))?;
        whole.looks.push(look_at(alloc, used(line))?)?;
    }
    Ok(())
}

/// Writes the steps of a text, or its first fault.
fn say_text(alloc: Global, text: &Text, out: &mut Answers) -> Answer {
    let Some(fault) = first_fault(alloc, text)? else {
        return say_steps(alloc, text, out);
    };
    let column = (fault.column % 4_294_967_296) as u32;
    say_fault(fault.kind, fault.cause, number(fault.line), column, out);
    Ok(())
}

/// The number of the line at a place.
pub fn number(at: usize) -> u32 {
    (at.saturating_add(1) % 4_294_967_296) as u32
}

/// What the line at a place is: the end of a step where there is none.
pub fn what_at(text: &Text, at: usize) -> What {
    match text.looks.get(at) {
        Some(look) => look.what,
        None => What::Decks,
    }
}

/// The line at a place, without the blanks at its end.
pub fn line_at<'a>(text: &Text<'a>, at: usize) -> &'a [u8] {
    match text.lines.get(at) {
        Some(line) => line,
        None => b"",
    }
}

/// The first fault of a text.
fn first_fault(alloc: Global, text: &Text) -> Result<Option<Fault>, Stop> {
    for at in 0..text.lines.len().saturating_add(1) {
        let fault = fault_at(alloc, text, at)?;
        if fault.is_some() {
            return Ok(fault);
        }
    }
    Ok(None)
}

/// The fault that is reported at a line, or at the end of a text, where no line before has one.
fn fault_at(alloc: Global, text: &Text, at: usize) -> Result<Option<Fault>, Stop> {
    if let Some(look) = text.looks.get(at) {
        let wrong = card_fault(text, at, *look);
        if wrong.cause != 0 {
            return Ok(Some(fault_of("CARD", wrong.cause, at, wrong.column)));
        }
    }
    if !is_begin(what_at(text, at)) {
        return Ok(None);
    }
    step_fault(alloc, text, at)
}

/// Whether a line begins a step.
pub fn is_begin(what: What) -> bool {
    what == What::Decks || what == What::Utilities
}

/// A fault of a kind, with its number, its line and its column.
pub fn fault_of(kind: &'static str, cause: u8, line: usize, column: usize) -> Fault {
    Fault {
        kind,
        cause,
        line,
        column,
    }
}

/// The number of the fault that a line has after those before it, and its column.
fn card_fault(text: &Text, at: usize, look: Look) -> Look {
    let line = line_at(text, at);
    if look.what == What::Data {
        return data_fault(text, at, look);
    }
    if look.cause != 0 || look.what != What::Text {
        return look;
    }
    match opener_of(text, at) {
        None if line.is_empty() => look,
        None => wrong(look, 3, first_column(line)),
        Some(card) if is_data(text, card) && length_at(text, at) > 80 => wrong(look, 6, 81),
        Some(_) => look,
    }
}

/// How many characters the line at a place has, with the blanks at its end.
fn length_at(text: &Text, at: usize) -> usize {
    match text.wholes.get(at) {
        Some(line) => line.len(),
        None => 0,
    }
}

/// Whether a card is that of data of a step of utilities.
pub fn is_data(text: &Text, card: usize) -> bool {
    what_at(text, card) == What::Data
        && step_of(text, card) == What::Utilities
        && name_of(line_at(text, card)) != b"SYSIN".as_slice()
}

/// Whether commands follow a card.
pub fn has_commands(text: &Text, card: usize) -> bool {
    let what = what_at(text, card);
    what == What::Utilities
        || (what == What::Data
            && step_of(text, card) == What::Utilities
            && name_of(line_at(text, card)) == b"SYSIN".as_slice())
}

/// A line that is this, with a fault.
fn wrong(look: Look, cause: u8, column: usize) -> Look {
    Look {
        what: look.what,
        cause,
        column,
    }
}

/// The column of the first character that isn't a blank.
fn first_column(line: &[u8]) -> usize {
    let mut column = 1usize;
    for byte in line {
        if *byte != b' ' {
            break;
        }
        column = column.saturating_add(1);
    }
    column
}

/// The fault of a card that data follows, after the lines before it.
fn data_fault(text: &Text, at: usize, look: Look) -> Look {
    match step_of(text, at) {
        What::Decks => deck_card_fault(text, at, look),
        What::Utilities => data_name_fault(text, at, look),
        _ => wrong(look, 1, 3),
    }
}

/// The fault of a card of a step of decks that data follows.
fn deck_card_fault(text: &Text, at: usize, look: Look) -> Look {
    let Some(deck) = number_of(line_at(text, at)) else {
        return wrong(look, 1, 3);
    };
    if count_decks(text, at, None) > 63 {
        wrong(look, 7, 3)
    } else if deck == 0 || deck > 99 || count_decks(text, at, Some(deck)) > 0 {
        wrong(look, 4, 7)
    } else {
        look
    }
}

/// The fault of a card of a step of utilities that data follows.
fn data_name_fault(text: &Text, at: usize, look: Look) -> Look {
    for before in 0..at {
        let same = name_of(line_at(text, before)) == name_of(line_at(text, at));
        if same && is_data(text, before) && begin_of(text, before) == begin_of(text, at) {
            return wrong(look, 8, 3);
        }
    }
    look
}

/// The card that began the step in which a line is.
pub fn begin_of(text: &Text, at: usize) -> Option<usize> {
    let mut begin = None;
    for before in 0..at {
        if is_begin(what_at(text, before)) {
            begin = Some(before);
        }
    }
    begin
}

/// What began the step in which a line is: `Nothing` where none did.
fn step_of(text: &Text, at: usize) -> What {
    match begin_of(text, at) {
        Some(begin) => what_at(text, begin),
        None => What::Nothing,
    }
}

/// How many decks are announced before a line, or how many of a number.
fn count_decks(text: &Text, at: usize, wanted: Option<u32>) -> u64 {
    let mut count = 0u64;
    for before in 0..at {
        let found = number_of(line_at(text, before));
        let is_deck = what_at(text, before) == What::Data && step_of(text, before) == What::Decks;
        if is_deck && (wanted.is_none() || found == wanted) {
            count = count.saturating_add(1);
        }
    }
    count
}

/// The card after which a line goes on.
fn opener_of(text: &Text, at: usize) -> Option<usize> {
    let mut opener = None;
    for before in 0..at {
        let what = what_at(text, before);
        if what == What::Data || what == What::Utilities {
            opener = Some(before);
        } else if what != What::Text {
            opener = None;
        }
    }
    opener
}

/// The first fault of the text of the step that a line ends.
fn step_fault(alloc: Global, text: &Text, at: usize) -> Result<Option<Fault>, Stop> {
    match begin_of(text, at) {
        None => Ok(None),
        Some(begin) if what_at(text, begin) == What::Utilities => {
            utility_fault(alloc, text, begin, at)
        }
        Some(begin) => decks_fault(alloc, text, begin, at),
    }
}

/// The first fault of the decks of a step.
fn decks_fault(alloc: Global, text: &Text, begin: usize, at: usize) -> Result<Option<Fault>, Stop> {
    for card in begin..at {
        if what_at(text, card) == What::Data {
            let fault = deck_fault(alloc, text, card)?;
            if fault.is_some() {
                return Ok(fault);
            }
        }
    }
    Ok(None)
}

/// How many lines stand after a card.
pub fn length_of(text: &Text, card: usize) -> usize {
    let mut length = 0usize;
    let mut open = true;
    for at in card.saturating_add(1)..text.lines.len() {
        open = open && what_at(text, at) == What::Text;
        if open {
            length = length.saturating_add(1);
        }
    }
    length
}

/// The first lines of a deck.
fn lines_from<'a>(
    alloc: Global,
    text: &Text<'a>,
    card: usize,
    count: usize,
) -> Result<Lines<'a>, Stop> {
    let mut lines = Lines::new(alloc);
    match add_from(&mut lines, text, card, count) {
        Ok(()) => Ok(lines),
        Err(stop) => Err(stop),
    }
}

fn add_from<'a>(lines: &mut Lines<'a>, text: &Text<'a>, card: usize, count: usize) -> Answer {
    for more in 0..count {
        let at = card.saturating_add(1).saturating_add(more);
        lines.push(number(at), line_at(text, at))?;
    }
    Ok(())
}

/// The first fault of a deck: the deck is read again after each of its lines.
fn deck_fault(alloc: Global, text: &Text, card: usize) -> Result<Option<Fault>, Stop> {
    for count in 1..length_of(text, card).saturating_add(1) {
        if let Some(cause) = cause_of(alloc, text, card, count)? {
            let line = card.saturating_add(count);
            return Ok(Some(fault_of("DECK", cause, line, 1)));
        }
    }
    Ok(None)
}

/// The number of the fault in the first lines of a deck.
fn cause_of(alloc: Global, text: &Text, card: usize, count: usize) -> Result<Option<u8>, Stop> {
    let lines = lines_from(alloc, text, card, count)?;
    match parse_deck(alloc, &lines) {
        Ok(_) => Ok(None),
        Err(DeckFault::Text(fault)) => Ok(Some(fault.cause.number())),
        Err(DeckFault::Memory) => Err(Stop::Memory),
    }
}

/// Writes the steps of a text that has no fault, and then what isn't run.
fn say_steps(alloc: Global, text: &Text, out: &mut Answers) -> Answer {
    let mut unrun = None;
    for at in 0..text.lines.len() {
        let what = what_at(text, at);
        if is_begin(what) {
            say_step(name_of(line_at(text, at)), number(at), out);
        }
        if what == What::Decks {
            say_decks(alloc, text, at, out)?;
        }
        if what == What::Utilities {
            say_utilities(alloc, text, at, out)?;
            let line = unrun_line(alloc, text, at)?;
            unrun = unrun.or(line);
        }
    }
    say_unrun(unrun, out);
    Ok(())
}

/// Writes the decks of the step that a card begins, by their numbers.
fn say_decks(alloc: Global, text: &Text, begin: usize, out: &mut Answers) -> Answer {
    for deck in 1..100 {
        say_numbered(alloc, text, begin, deck, out)?;
    }
    Ok(())
}

/// Writes the deck of a number in the step that a card begins, where it has one.
fn say_numbered(alloc: Global, text: &Text, begin: usize, deck: u32, out: &mut Answers) -> Answer {
    for card in begin..text.lines.len() {
        let of_step = begin_of(text, card) == Some(begin);
        let is_card = what_at(text, card) == What::Data;
        if of_step && is_card && number_of(line_at(text, card)) == Some(deck) {
            say_one(alloc, text, card, deck, out)?;
        }
    }
    Ok(())
}

/// Writes the deck after a card.
fn say_one(alloc: Global, text: &Text, card: usize, deck: u32, out: &mut Answers) -> Answer {
    let lines = lines_from(alloc, text, card, length_of(text, card))?;
    match parse_deck(alloc, &lines) {
        Ok(read) => say_read(&read, deck, out),
        Err(DeckFault::Text(_)) => return Err(Stop::Line),
        Err(DeckFault::Memory) => return Err(Stop::Memory),
    }
    Ok(())
}

/// Writes a deck that was read.
fn say_read(read: &DeckText, deck: u32, out: &mut Answers) {
    say_deck(deck, read.files.as_slice().len(), out);
    for order in read.orders.as_slice() {
        say_order(order.line, out);
    }
}
