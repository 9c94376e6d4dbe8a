//! Job control cards.
ghost use Rattle.std.specs.Prelude.{◌≡◌, ◌≤◌, ◌^◌, true, drop, length};
ghost use Rattle.std.specs.Char.{digit_value, is_ascii_digit};
ghost use Rattle.std.specs.List.{list_all};
ghost use Rattle.std.specs.Str.Parse.{digits_value};
ghost use Rattle.vr_job_text.specs.Card.{is_card, is_nothing, program_name, after_program};
ghost use Rattle.vr_job_text.specs.Card.{other_program, step_of, step_card, data_card, card_from};
ghost use Rattle.vr_job_text.specs.Card.{named_card, card_of, name_on, is_deck_name, deck_number};

use crate::fault::{CardCause, CardFault, wrong};
use crate::line::{after_word, column_of, unindented, word};
use vr_text::is_file_name;

/// The programs whose steps a job may have: decks, and the utilities of IDCAMS.
#[derive(Clone, Copy)]
pub(crate) enum Program {
    Decks,
    Utilities,
}

/// What a card says: nothing, that a step begins, or that data follows.
#[derive(Clone, Copy)]
pub(crate) enum Card {
    Nothing,
    Step(Program),
    Data,
}

/// The longest name on a card, in bytes.
const NAME_LIMIT: usize = 8;

/// Whether a line is a card.
pub(crate) fn is_card(line: &[u8]) -> bool
    ensures card { result ≡ is_card line.now }
    ensures long { result ≡ true → 2 ≤ length line.now }
{
    line.len() >= 2 && &line[..2] == b"//".as_slice()
}

/// Whether what follows the slashes says nothing.
fn is_nothing(rest: &[u8]) -> bool
    ensures { result ≡ is_nothing rest.now }
{
    rest.is_empty() || rest[0] == b'*' || rest[0] == b' '
}

/// The name of a program: the bytes up to the first blank or comma.
fn program_name(rest: &[u8]) -> &[u8]
    ensures value { result.now ≡ program_name rest.now }
    ensures shorter { length result.now ≤ length rest.now }
{
    for (at, byte) in rest.iter().enumerate() {
        if *byte == b' ' || *byte == b',' {
            return &rest[..at];
        }
    }
    rest
}

/// What follows the name of a program and the blanks after it.
fn after_program(rest: &[u8]) -> &[u8]
    ensures value { result.now ≡ after_program rest.now }
    ensures shorter { length result.now ≤ length rest.now }
{
    unindented(&rest[program_name(rest).len()..])
}

/// What is wrong with the program of a card.
fn other_program(line: &[u8], rest: &[u8]) -> CardFault
    requires short { length line.now ≤ 2 ^ 26 }
    requires within { length rest.now ≤ length line.now }
    ensures { result ≡ other_program line.now rest.now }
{
    let name = program_name(rest);
    if name == b"VRMDECK".as_slice() {
        wrong(CardCause::StrayText, column_of(line, after_program(rest)))
    } else if name.is_empty() {
        wrong(CardCause::Misspelled, column_of(line, rest))
    } else {
        wrong(CardCause::OtherProgram, column_of(line, rest))
    }
}

/// The step of a card by what follows `PGM=` on it.
fn step_of(line: &[u8], rest: &[u8]) -> Result<Card, CardFault>
    requires short { length line.now ≤ 2 ^ 26 }
    requires within { length rest.now ≤ length line.now }
    ensures { result ≡ step_of line.now rest.now }
{
    if program_name(rest) == b"IDCAMS".as_slice() {
        Ok(Card::Step(Program::Utilities))
    } else if rest == b"VRMDECK".as_slice() {
        Ok(Card::Step(Program::Decks))
    } else {
        Err(other_program(line, rest))
    }
}

/// The step of a card by its operand.
fn step_card(line: &[u8], operand: &[u8]) -> Result<Card, CardFault>
    requires short { length line.now ≤ 2 ^ 26 }
    requires within { length operand.now ≤ length line.now }
    ensures { result ≡ step_card line.now operand.now }
{
    if operand.len() >= 4 && &operand[..4] == b"PGM=".as_slice() {
        step_of(line, &operand[4..])
    } else {
        Err(wrong(CardCause::Misspelled, column_of(line, operand)))
    }
}

/// Whether data follows a DD card, by its operand.
fn data_card(operand: &[u8]) -> Card
    ensures { result ≡ data_card operand.now }
{
    if operand == b"*".as_slice() {
        Card::Data
    } else {
        Card::Nothing
    }
}

/// A card from its operation on.
fn card_from(line: &[u8], rest: &[u8]) -> Result<Card, CardFault>
    requires short { length line.now ≤ 2 ^ 26 }
    requires within { length rest.now ≤ length line.now }
    ensures { result ≡ card_from line.now rest.now }
{
    let operation = word(rest);
    if operation == b"JOB".as_slice() {
        Ok(Card::Nothing)
    } else if operation == b"EXEC".as_slice() {
        step_card(line, after_word(rest))
    } else if operation == b"DD".as_slice() {
        Ok(data_card(after_word(rest)))
    } else {
        Err(wrong(CardCause::Misspelled, column_of(line, rest)))
    }
}

/// A card from its name on.
fn named_card(line: &[u8], rest: &[u8]) -> Result<Card, CardFault>
    requires short { length line.now ≤ 2 ^ 26 }
    requires within { length rest.now ≤ length line.now }
    ensures { result ≡ named_card line.now rest.now }
{
    if is_file_name(word(rest)) {
        card_from(line, after_word(rest))
    } else {
        Err(wrong(CardCause::Misspelled, 3))
    }
}

/// What a card says, or what is wrong with it.
pub(crate) fn card_of(line: &[u8]) -> Result<Card, CardFault>
    requires long { 2 ≤ length line.now }
    requires short { length line.now ≤ 2 ^ 26 }
    ensures { result ≡ card_of line.now }
{
    let rest = &line[2..];
    if is_nothing(rest) {
        Ok(Card::Nothing)
    } else {
        named_card(line, rest)
    }
}

/// The name on a card.
pub(crate) fn name_on(line: &[u8]) -> &[u8]
    requires { 2 ≤ length line.now }
    ensures { result.now ≡ name_on line.now }
{
    word(&line[2..])
}

/// Whether a name announces a deck: DECK and 1 to 4 digits.
fn is_deck_name(name: &[u8]) -> bool
    ensures value { result ≡ is_deck_name name.now }
    ensures long { result ≡ true → 4 ≤ length name.now }
    ensures short { result ≡ true → length name.now ≤ 8 }
    ensures digits { result ≡ true → list_all is_ascii_digit (drop 4 name.now) ≡ true }
{
    name.len() >= 5
        && name.len() <= NAME_LIMIT
        && &name[..4] == b"DECK".as_slice()
        && are_digits(&name[4..])
}

/// Whether each byte is a digit.
fn are_digits(digits: &[u8]) -> bool
    ensures { result ≡ list_all is_ascii_digit digits.now }
{
    digits.iter().all(|byte| byte.is_ascii_digit())
}

/// The number of the deck that a name announces.
pub(crate) fn deck_number(name: &[u8]) -> Option<u32>
    ensures { result ≡ deck_number name.now }
{
    if is_deck_name(name) {
        Some(digits_value(&name[4..]))
    } else {
        None
    }
}

/// The number that at most four digits write.
fn digits_value(digits: &[u8]) -> u32
    requires few { length digits.now ≤ 4 }
    requires digits { list_all is_ascii_digit digits.now ≡ true }
    ensures { result ≡ digits_value 10 digits.now }
{
    let mut value = 0u32;
    for byte in digits {
        value = value * 10 + digit_value(*byte);
    }
    value
}

/// The value of a digit.
fn digit_value(digit: u8) -> u32
    requires { is_ascii_digit digit ≡ true }
    ensures value { result ≡ digit_value digit }
    ensures small { result ≤ 9 }
{
    u32::from(digit - b'0')
}
