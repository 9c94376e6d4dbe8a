//! The reading of a deck, line by line.
ghost use Rattle.std.specs.Prelude.{◌≡◌, ◌<◌, length, Ok, OnOk, IfOk, IfErr};
ghost use Rattle.vr_deck_text.specs.Words.{words, without_end};
ghost use Rattle.vr_deck_text.specs.Operands.{StopsBy};
ghost use Rattle.vr_deck_text.specs.declared.fault.Stop.TheVariants.{Memory};
ghost use Rattle.vr_deck_text.specs.Deck.{is_long, is_comment, with_file, with_order, end_in};
ghost use Rattle.vr_deck_text.specs.Deck.{order_in, file_in, with_verb, with_line_words, with_line};
ghost use Rattle.vr_deck_text.specs.Deck.{order_added, file_added, empty_deck, told_at, with_lines};
ghost use Rattle.vr_deck_text.specs.Deck.{IsDeck, CauseOf, FaultBy};

use crate::declaring::file_in;
use crate::fault::{DeckCause, DeckFault, LineFault, Stop};
use crate::order::order_in;
use crate::row::{FileVerb, Verb, verb_named};
use crate::text::{Ask, DeckFile, DeckText, Files, Order, Orders};
use crate::word::next_word;
use std::alloc::Global;
use vr_text::Lines;

/// The longest line of a deck, in bytes, without the blanks at its end.
const LINE_LIMIT: usize = 80_000;

/// The deck of these lines. Its requests are those of Using Data Sets; how a deck is written is this
/// project's own.
///
/// `Text` is the first fault, exactly where the lines are no deck; `Memory` may come at any time.
/// The lines are those between the card before the deck and its end, without line ends.
pub fn parse_deck(alloc: Global, lines: &Lines) -> Result<DeckText, DeckFault>
    ensures value { IfOk result (IsDeck lines.now) }
    ensures fault { IfErr result (CauseOf lines.now) }
{
    let mut deck = empty_deck(alloc);
    match take_lines(alloc, &mut deck, lines) {
        Ok(()) => Ok(deck),
        Err(fault) => Err(fault),
    }
}

/// A deck without a line, which takes no memory.
fn empty_deck(alloc: Global) -> DeckText
    ensures { result ≡ empty_deck }
{
    DeckText {
        files: Files::new(alloc),
        orders: Orders::new(alloc),
    }
}

/// Takes each line into a deck.
fn take_lines(alloc: Global, deck: &mut DeckText, lines: &Lines) -> Result<(), DeckFault>
    ensures ok { OnOk result (with_lines (Ok deck.old) lines.now ≡ Ok deck.new) }
    ensures fault { IfErr result (FaultBy (with_lines (Ok deck.old) lines.now)) }
{
    for at in 0..lines.len() {
        match take_numbered(alloc, deck, lines.number(at), lines.text(at)) {
            Ok(()) => {}
            Err(fault) => return Err(fault),
        }
    }
    Ok(())
}

/// Takes a line into a deck, and reports a fault with the number of the line.
fn take_numbered(
    alloc: Global,
    deck: &mut DeckText,
    number: u32,
    text: &[u8],
) -> Result<(), DeckFault>
    ensures ok { OnOk result (told_at number (with_line deck.old number text.now) ≡ Ok deck.new) }
    ensures fault { IfErr result (FaultBy (told_at number (with_line deck.old number text.now))) }
{
    match take_line(alloc, deck, number, text) {
        Ok(()) => Ok(()),
        Err(Stop::Memory) => Err(DeckFault::Memory),
        Err(Stop::Bad(cause)) => Err(DeckFault::Text(LineFault {
            line: number,
            cause,
        })),
    }
}

/// How many bytes a text has without the blanks at its end.
fn used_len(text: &[u8]) -> usize
    ensures { result ≡ length (without_end text.now) }
{
    let mut end = text.len();
    while end > 0 && text[end - 1] == b' ' {
        end -= 1;
    }
    end
}

/// Whether a line is too long. Blanks at its end don't count.
fn is_long(text: &[u8]) -> bool
    ensures { result ≡ is_long text.now }
{
    used_len(text) > LINE_LIMIT
}

/// Whether a line is a comment.
fn is_comment(text: &[u8]) -> bool
    ensures { result ≡ is_comment text.now }
{
    !text.is_empty() && text[0] == b'*'
}

/// Takes a line into a deck.
fn take_line(alloc: Global, deck: &mut DeckText, number: u32, text: &[u8]) -> Result<(), Stop>
    ensures ok { OnOk result (with_line deck.old number text.now ≡ Ok deck.new) }
    ensures stop { IfErr result (StopsBy (with_line deck.old number text.now)) }
{
    if is_long(text) {
        Err(Stop::Bad(DeckCause::UnknownOperand))
    } else if is_comment(text) {
        Ok(())
    } else {
        take_words(alloc, deck, number, text)
    }
}

/// Takes the words of a line into a deck.
fn take_words(alloc: Global, deck: &mut DeckText, number: u32, text: &[u8]) -> Result<(), Stop>
    ensures ok { OnOk result (with_line_words deck.old number (words text.now) ≡ Ok deck.new) }
    ensures stop { IfErr result (StopsBy (with_line_words deck.old number (words text.now))) }
{
    let Some(cut) = next_word(text) else {
        return Ok(());
    };
    match verb_named(cut.word) {
        None => Err(Stop::Bad(DeckCause::UnknownVerb)),
        Some(verb) => take_verb(alloc, deck, number, verb, cut.rest),
    }
}

/// Takes the verb of a line, with the text after it, into a deck.
fn take_verb(
    alloc: Global,
    deck: &mut DeckText,
    number: u32,
    verb: Verb,
    text: &[u8],
) -> Result<(), Stop>
    ensures ok { OnOk result (with_verb deck.old number verb (words text.now) ≡ Ok deck.new) }
    ensures stop { IfErr result (StopsBy (with_verb deck.old number verb (words text.now))) }
{
    match verb {
        Verb::File => take_file(alloc, deck, text),
        Verb::Commit => take_end(deck, number, Ask::Commit, text),
        Verb::Backout => take_end(deck, number, Ask::Backout, text),
        Verb::On(verb) => take_order(alloc, deck, number, verb, text),
    }
}

/// Takes an order that has no operand into a deck.
fn take_end(deck: &mut DeckText, number: u32, ask: Ask, text: &[u8]) -> Result<(), Stop>
    ensures ok { OnOk result (with_order deck.old number (end_in ask (words text.now))
        ≡ Ok deck.new) }
    ensures stop { IfErr result
        (StopsBy (with_order deck.old number (end_in ask (words text.now)))) }
{
    match next_word(text) {
        None => push_order(deck, number, ask),
        Some(_) => Err(Stop::Bad(DeckCause::UnknownOperand)),
    }
}

/// Takes an order on a file into a deck.
fn take_order(
    alloc: Global,
    deck: &mut DeckText,
    number: u32,
    verb: FileVerb,
    text: &[u8],
) -> Result<(), Stop>
    ensures ok { OnOk result (with_order deck.old number
        (order_in deck.old.files verb (words text.now)) ≡ Ok deck.new) }
    ensures stop { IfErr result (StopsBy (with_order deck.old number
        (order_in deck.old.files verb (words text.now)))) }
{
    match order_in(alloc, &deck.files, verb, text) {
        Ok(ask) => push_order(deck, number, ask),
        Err(stop) => Err(stop),
    }
}

/// Adds an order to a deck.
fn push_order(deck: &mut DeckText, number: u32, ask: Ask) -> Result<(), Stop>
    ensures ok { OnOk result (deck.new ≡ order_added deck.old number ask) }
    ensures stop { IfErr result (λ stop. stop ≡ Memory) }
{
    deck.orders.push(Order { line: number, ask })?;
    Ok(())
}

/// Takes the file that a text declares into a deck.
fn take_file(alloc: Global, deck: &mut DeckText, text: &[u8]) -> Result<(), Stop>
    ensures ok { OnOk result (with_file deck.old (file_in deck.old.files (words text.now))
        ≡ Ok deck.new) }
    ensures stop { IfErr result
        (StopsBy (with_file deck.old (file_in deck.old.files (words text.now)))) }
{
    match file_in(alloc, &deck.files, text) {
        Ok(file) => push_file(deck, file),
        Err(stop) => Err(stop),
    }
}

/// Adds a file to a deck.
fn push_file(deck: &mut DeckText, file: DeckFile) -> Result<(), Stop>
    requires { length deck.old.files < 64 }
    ensures ok { OnOk result (deck.new ≡ file_added deck.old file) }
    ensures stop { IfErr result (λ stop. stop ≡ Memory) }
{
    deck.files.push(file)?;
    Ok(())
}
