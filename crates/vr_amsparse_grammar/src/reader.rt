//! What a token does at a point of a list of parameters.
ghost use Rattle.std.specs.Prelude.{◌≡◌, IfOk};
ghost use Rattle.vr_amsparse_grammar.specs.Moves.{next_move, head_move, head_judged, opens_names};
ghost use Rattle.vr_amsparse_grammar.specs.Moves.{opening_move, listed_move, stray_move, end_move};
ghost use Rattle.vr_amsparse_grammar.specs.Moves.{close_move, word_move, parameter_move, taken_move};
ghost use Rattle.vr_amsparse_grammar.specs.Moves.{value_opening_move, value_move, closed_move};
ghost use Rattle.vr_amsparse_grammar.specs.Moves.{judged_move, values_before, given_move};

use crate::cause::AmsCause;
use crate::data_names::DataNames;
use crate::given::{Given, repeated};
use crate::point::{Move, Point, Statement};
use crate::row::{Choice, Parameter, Slot, Takes, Value, Values};
use crate::section::{Section, has_parameters, is_enclosed, parameter_in, section_after};
use crate::value::judge;
use std::alloc::Global;
use vr_scan::TokenKind;
use vr_types::OutOfMemory;

/// A token, and which one of the text it is.
#[derive(Clone, Copy)]
pub struct Seen<'a> {
    pub at: usize,
    pub kind: TokenKind,
    pub text: &'a [u8],
}

/// The values of a parameter that is being read, with the list that it stands in.
#[derive(Clone, Copy)]
struct Pending {
    section: Section,
    states: Statement,
    values: Values,
    opened: usize,
}

/// What a token does at a point, where these parameters were given before.
pub fn move_at(
    alloc: Global,
    point: Point,
    seen: Seen<'_>,
    given: &[Given],
    names: &DataNames,
) -> Result<Move, OutOfMemory>
    ensures { IfOk result (λ next. next
        ≡ next_move point seen.entry.at seen.entry.kind seen.entry.text.now given.now names.now) }
{
    match point {
        Point::Head(section) => head_move(alloc, section, seen, names),
        Point::Opening(section) => Ok(opening_move(section, seen.kind)),
        Point::Listed(section) => Ok(listed_move(section, seen, given)),
        Point::ValueOpening(section, states, values) => {
            Ok(value_opening_move(section, states, values, seen.at, seen.kind))
        }
        Point::Valued(section, states, values, opened) => {
            let pending = Pending {
                section,
                states,
                values,
                opened,
            };
            value_move(alloc, pending, seen, names)
        }
    }
}

/// A name before a list. DELETE may have names in parentheses.
fn head_move(
    alloc: Global,
    section: Section,
    seen: Seen<'_>,
    names: &DataNames,
) -> Result<Move, OutOfMemory>
    ensures { IfOk result (λ next. next
        ≡ head_move section seen.entry.at seen.entry.kind seen.entry.text.now names.now) }
{
    match seen.kind {
        TokenKind::End => Ok(Move::Missing),
        _ => {
            if opens_names(section, seen.kind) {
                let states = Statement {
                    slot: Slot::Entry,
                    choice: Choice::First,
                };
                let values = Values {
                    value: Value::Name,
                    least: 1,
                    most: usize::MAX,
                };
                return Ok(Move::Go(Point::Valued(section, states, values, seen.at)));
            }
            let cause = judge(alloc, Value::Name, 0, seen.kind, seen.text, names)?;
            Ok(head_judged(section, seen.at, cause))
        }
    }
}

/// Whether a token begins a list of names before a list of parameters.
fn opens_names(section: Section, kind: TokenKind) -> bool
    ensures { result ≡ opens_names section kind }
{
    match (section, kind) {
        (Section::Delete, TokenKind::Open) => true,
        _ => false,
    }
}

/// What a name before a list gives.
fn head_judged(section: Section, at: usize, cause: Option<AmsCause>) -> Move
    ensures { result ≡ head_judged section at cause }
{
    match cause {
        Some(cause) => Move::Bad(cause),
        None => {
            let states = Statement {
                slot: Slot::Entry,
                choice: Choice::First,
            };
            let given = Given {
                states,
                opened: at.saturating_sub(1),
                count: 1,
            };
            Move::Give(given, Point::Listed(section))
        }
    }
}

/// A list is opened by a parenthesis.
fn opening_move(section: Section, kind: TokenKind) -> Move
    ensures { result ≡ opening_move section kind }
{
    match kind {
        TokenKind::Open => Move::Go(Point::Listed(section)),
        _ => Move::Bad(AmsCause::ParenthesisMissing),
    }
}

/// A parameter of a list, or its end.
fn listed_move(section: Section, seen: Seen<'_>, given: &[Given]) -> Move
    ensures { result
        ≡ listed_move section seen.entry.at seen.entry.kind seen.entry.text.now given.now }
{
    match seen.kind {
        TokenKind::Word => word_move(section, seen, given),
        TokenKind::Close => close_move(section),
        TokenKind::End => end_move(section),
        _ => Move::Bad(stray_move(section)),
    }
}

/// The cause where a token is no word: in parentheses a parameter is due, else the end.
fn stray_move(section: Section) -> AmsCause
    ensures { result ≡ stray_move section }
{
    if is_enclosed(section) {
        AmsCause::UnknownParameter
    } else {
        AmsCause::TextAfterEnd
    }
}

/// A list in parentheses is closed.
fn close_move(section: Section) -> Move
    ensures { result ≡ close_move section }
{
    if is_enclosed(section) {
        Move::Go(Point::Listed(section_after(section)))
    } else {
        Move::Bad(AmsCause::TextAfterEnd)
    }
}

/// A list without parentheses ends with the command.
fn end_move(section: Section) -> Move
    ensures { result ≡ end_move section }
{
    if is_enclosed(section) {
        Move::Bad(AmsCause::ParenthesisMissing)
    } else {
        Move::End(section)
    }
}

/// A word of a list.
fn word_move(section: Section, seen: Seen<'_>, given: &[Given]) -> Move
    ensures { result ≡ word_move section seen.entry.at seen.entry.text.now given.now }
{
    if !has_parameters(section) {
        return Move::Bad(AmsCause::TextAfterEnd);
    }
    match parameter_in(section, seen.text) {
        None => Move::Bad(AmsCause::UnknownParameter),
        Some(parameter) => parameter_move(section, seen.at, given, parameter),
    }
}

/// A parameter of a list.
fn parameter_move(section: Section, at: usize, given: &[Given], parameter: Parameter) -> Move
    ensures { result ≡ parameter_move section at given.now parameter }
{
    let states = Statement {
        slot: parameter.slot,
        choice: parameter.choice,
    };
    taken_move(
        section,
        at,
        states,
        parameter.takes,
        repeated(given, states),
    )
}

/// A parameter of a list, with what is wrong with giving it too. What is left out comes first.
fn taken_move(
    section: Section,
    at: usize,
    states: Statement,
    takes: Takes,
    again: Option<AmsCause>,
) -> Move
    ensures { result ≡ taken_move section at states takes again }
{
    let given = Given {
        states,
        opened: at,
        count: 0,
    };
    match takes {
        Takes::LeftOut => Move::Bad(AmsCause::LeftOut),
        Takes::Nothing => given_move(given, Point::Listed(section), again),
        Takes::Values(values) => match again {
            Some(cause) => Move::Bad(cause),
            None => Move::Go(Point::ValueOpening(section, states, values)),
        },
        Takes::Section(inner) => given_move(given, Point::Opening(inner), again),
    }
}

/// A parameter without values, with what is wrong with giving it too.
fn given_move(given: Given, point: Point, again: Option<AmsCause>) -> Move
    ensures { result ≡ given_move given point again }
{
    match again {
        Some(cause) => Move::Bad(cause),
        None => Move::Give(given, point),
    }
}

/// Values are opened by a parenthesis.
fn value_opening_move(
    section: Section,
    states: Statement,
    values: Values,
    at: usize,
    kind: TokenKind,
) -> Move
    ensures { result ≡ value_opening_move section states values at kind }
{
    match kind {
        TokenKind::Open => Move::Go(Point::Valued(section, states, values, at)),
        _ => Move::Bad(AmsCause::ParenthesisMissing),
    }
}

/// How many values came before token `at`.
fn values_before(opened: usize, at: usize) -> usize
    ensures { result ≡ values_before opened at }
{
    at.saturating_sub(opened).saturating_sub(1)
}

/// A value of a parameter, or the parenthesis after the values.
fn value_move(
    alloc: Global,
    pending: Pending,
    seen: Seen<'_>,
    names: &DataNames,
) -> Result<Move, OutOfMemory>
    ensures { IfOk result (λ next. next
        ≡ value_move pending.section pending.states pending.values pending.opened seen.entry.at
        seen.entry.kind seen.entry.text.now names.now) }
{
    let before = values_before(pending.opened, seen.at);
    match seen.kind {
        TokenKind::Close => Ok(closed_move(pending, before)),
        TokenKind::End => Ok(Move::Bad(AmsCause::ParenthesisMissing)),
        _ => {
            if pending.values.most <= before {
                return Ok(Move::Bad(AmsCause::WrongCount));
            }
            let cause = judge(
                alloc,
                pending.values.value,
                before,
                seen.kind,
                seen.text,
                names,
            )?;
            Ok(judged_move(pending, cause))
        }
    }
}

/// The values are complete.
fn closed_move(pending: Pending, count: usize) -> Move
    ensures { result
        ≡ closed_move pending.section pending.states pending.values pending.opened count }
{
    if count < pending.values.least {
        return Move::Bad(AmsCause::WrongCount);
    }
    let given = Given {
        states: pending.states,
        opened: pending.opened,
        count,
    };
    Move::Give(given, Point::Listed(pending.section))
}

/// A value leaves the reader where it is, unless it is at fault.
fn judged_move(pending: Pending, cause: Option<AmsCause>) -> Move
    ensures { result
        ≡ judged_move pending.section pending.states pending.values pending.opened cause }
{
    match cause {
        Some(cause) => Move::Bad(cause),
        None => Move::Go(Point::Valued(
            pending.section,
            pending.states,
            pending.values,
            pending.opened,
        )),
    }
}
