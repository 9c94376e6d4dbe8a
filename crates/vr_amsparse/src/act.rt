//! What a token does at a place of a command text.
ghost use Rattle.std.specs.Prelude.{◌≡◌, IfOk};
ghost use Rattle.vr_amsparse.specs.Acts.{verb_act, word_act, command_act, branch_act, object_act};
ghost use Rattle.vr_amsparse.specs.Acts.{variable_act, comparison_act, number_act, then_act, within_act};
ghost use Rattle.vr_amsparse.specs.Acts.{act_at, is_done_top, is_single_top, is_group_top, after_number};
ghost use Rattle.vr_amsparse.specs.Acts.{is_comparison, range_of, group_end_act};

use crate::opens::{Open, Stage};
use crate::verb::{Verb, comparison_named, object_named, variable_named, verb_named};
use std::alloc::Global;
use vr_amsparse_grammar::{
    AmsCause, DataNames, Given, Move, Point, Range, Section, Seen, move_at, number_fault,
};
use vr_scan::TokenKind;
use vr_types::OutOfMemory;

/// The most IFs that may stand in each other.
const IF_LIMIT: usize = 10;

/// IF and SET begin alike.
#[derive(Clone, Copy)]
pub enum Modal {
    If,
    Set,
}

/// What is due next.
#[derive(Clone, Copy)]
pub enum Place {
    /// A command.
    Command,
    /// What stands after THEN or ELSE.
    Branch,
    /// What stands after END: the end of its command, or ELSE.
    GroupEnd,
    /// What DEFINE defines.
    Object,
    /// A token of a command with lists of parameters.
    Within(Point),
    /// LASTCC or MAXCC.
    Variable(Modal),
    /// A comparison, or the sign of SET.
    Comparison(Modal),
    /// A number.
    Number(Modal),
    /// THEN.
    Then,
}

/// What a token does.
#[derive(Clone, Copy)]
pub enum Act {
    /// Nothing: a command without words has ended.
    Stay,
    /// An empty branch has ended.
    Complete,
    Go(Place),
    /// A command begins.
    Begin(Place),
    /// A parameter is given.
    Give(Given, Point),
    /// ELSE, DO, END.
    Else,
    Do,
    EndGroup,
    /// The command has ended, with the parameters of this list last.
    Finish(Section),
    /// The condition of IF has ended.
    Condition,
    /// The command ended before a parameter that it requires.
    Missing,
    /// The token is at fault.
    Bad(AmsCause),
}

/// What is known of the IFs that are open: the innermost, and how many there are.
#[derive(Clone, Copy)]
pub(crate) struct Around {
    pub(crate) top: Option<Open>,
    pub(crate) depth: usize,
}

/// Whether ELSE may come.
fn is_done_top(top: Option<Open>) -> bool
    ensures { result ≡ is_done_top top }
{
    match top {
        None => false,
        Some(one) => match one.stage {
            Stage::Done => true,
            Stage::Single | Stage::Group(_) => false,
        },
    }
}

/// Whether DO may come.
fn is_single_top(top: Option<Open>) -> bool
    ensures { result ≡ is_single_top top }
{
    match top {
        None => false,
        Some(one) => match one.stage {
            Stage::Single => true,
            Stage::Done | Stage::Group(_) => false,
        },
    }
}

/// Whether END may come.
fn is_group_top(top: Option<Open>) -> bool
    ensures { result ≡ is_group_top top }
{
    match top {
        None => false,
        Some(one) => match one.stage {
            Stage::Group(_) => true,
            Stage::Done | Stage::Single => false,
        },
    }
}

/// The first word of a command.
fn verb_act(verb: Verb, around: Around) -> Act
    ensures { result ≡ verb_act verb around.top around.depth }
{
    match verb {
        Verb::Define => Act::Begin(Place::Object),
        Verb::Named(section) => Act::Begin(Place::Within(Point::Head(section))),
        Verb::Listed(section) => Act::Begin(Place::Within(Point::Listed(section))),
        Verb::If => {
            if IF_LIMIT <= around.depth {
                Act::Bad(AmsCause::TooManyIfs)
            } else {
                Act::Begin(Place::Variable(Modal::If))
            }
        }
        Verb::Set => Act::Begin(Place::Variable(Modal::Set)),
        Verb::Else => {
            if is_done_top(around.top) {
                Act::Else
            } else {
                Act::Bad(AmsCause::ElseAlone)
            }
        }
        Verb::Do => {
            if is_single_top(around.top) {
                Act::Do
            } else {
                Act::Bad(AmsCause::DoOrEndAlone)
            }
        }
        Verb::End => {
            if is_group_top(around.top) {
                Act::EndGroup
            } else {
                Act::Bad(AmsCause::DoOrEndAlone)
            }
        }
    }
}

/// A word where a command is due.
fn word_act(word: &[u8], around: Around) -> Act
    ensures { result ≡ word_act word.now around.top around.depth }
{
    match verb_named(word) {
        None => Act::Bad(AmsCause::UnknownCommand),
        Some(verb) => verb_act(verb, around),
    }
}

/// A token where a command is due.
fn command_act(kind: TokenKind, text: &[u8], around: Around) -> Act
    ensures { result ≡ command_act kind text.now around.top around.depth }
{
    match kind {
        TokenKind::End => Act::Stay,
        TokenKind::Word => word_act(text, around),
        _ => Act::Bad(AmsCause::UnknownCommand),
    }
}

/// A token after THEN or ELSE.
fn branch_act(kind: TokenKind, text: &[u8], around: Around) -> Act
    ensures { result ≡ branch_act kind text.now around.top around.depth }
{
    match kind {
        TokenKind::End => Act::Complete,
        TokenKind::Word => word_act(text, around),
        _ => Act::Bad(AmsCause::UnknownCommand),
    }
}

/// A token after END.
fn group_end_act(kind: TokenKind, text: &[u8], around: Around) -> Act
    ensures { result ≡ group_end_act kind text.now around.top around.depth }
{
    match kind {
        TokenKind::End => Act::Go(Place::Command),
        TokenKind::Word => {
            if text == b"ELSE".as_slice() {
                verb_act(Verb::Else, around)
            } else {
                Act::Bad(AmsCause::TextAfterEnd)
            }
        }
        _ => Act::Bad(AmsCause::TextAfterEnd),
    }
}

/// A token after DEFINE.
fn object_act(kind: TokenKind, text: &[u8]) -> Act
    ensures { result ≡ object_act kind text.now }
{
    match kind {
        TokenKind::End => Act::Missing,
        TokenKind::Word => match object_named(text) {
            None => Act::Bad(AmsCause::UnknownCommand),
            Some(section) => Act::Go(Place::Within(Point::Opening(section))),
        },
        _ => Act::Bad(AmsCause::UnknownCommand),
    }
}

/// A token where LASTCC or MAXCC is due.
fn variable_act(modal: Modal, kind: TokenKind, text: &[u8]) -> Act
    ensures { result ≡ variable_act modal kind text.now }
{
    match kind {
        TokenKind::End => Act::Missing,
        TokenKind::Word => match variable_named(text) {
            None => Act::Bad(AmsCause::UnknownParameter),
            Some(_) => Act::Go(Place::Comparison(modal)),
        },
        _ => Act::Bad(AmsCause::UnknownParameter),
    }
}

/// Whether a text is a comparison of IF, or the sign of SET.
fn is_comparison(modal: Modal, text: &[u8]) -> bool
    ensures { result ≡ is_comparison modal text.now }
{
    match modal {
        Modal::If => comparison_named(text).is_some(),
        Modal::Set => text == b"=".as_slice(),
    }
}

/// A token where a comparison is due.
fn comparison_act(modal: Modal, kind: TokenKind, text: &[u8]) -> Act
    ensures { result ≡ comparison_act modal kind text.now }
{
    match kind {
        TokenKind::End => Act::Missing,
        TokenKind::Word | TokenKind::Compare => {
            if is_comparison(modal, text) {
                Act::Go(Place::Number(modal))
            } else {
                Act::Bad(AmsCause::UnknownParameter)
            }
        }
        _ => Act::Bad(AmsCause::UnknownParameter),
    }
}

/// The numbers that may stand in IF and in SET.
fn range_of(modal: Modal) -> Range
    ensures { result ≡ range_of modal }
{
    match modal {
        Modal::If => Range {
            least: 0,
            most: 4_294_967_295,
        },
        Modal::Set => Range {
            least: 0,
            most: u64::MAX,
        },
    }
}

/// What is due after the number.
fn after_number(modal: Modal) -> Place
    ensures { result ≡ after_number modal }
{
    match modal {
        Modal::If => Place::Then,
        Modal::Set => Place::Within(Point::Listed(Section::SetEnd)),
    }
}

/// A token where a number is due.
fn number_act(modal: Modal, kind: TokenKind, text: &[u8]) -> Act
    ensures { result ≡ number_act modal kind text.now }
{
    match kind {
        TokenKind::End => Act::Missing,
        _ => match number_fault(range_of(modal), kind, text) {
            Some(cause) => Act::Bad(cause),
            None => Act::Go(after_number(modal)),
        },
    }
}

/// A token where THEN is due.
fn then_act(kind: TokenKind, text: &[u8]) -> Act
    ensures { result ≡ then_act kind text.now }
{
    match kind {
        TokenKind::Word => {
            if text == b"THEN".as_slice() {
                Act::Condition
            } else {
                Act::Bad(AmsCause::ThenMissing)
            }
        }
        _ => Act::Bad(AmsCause::ThenMissing),
    }
}

/// What a token does in a command with lists of parameters.
fn within_act(next: Move) -> Act
    ensures { result ≡ within_act next }
{
    match next {
        Move::Go(point) => Act::Go(Place::Within(point)),
        Move::Give(given, point) => Act::Give(given, point),
        Move::End(section) => Act::Finish(section),
        Move::Missing => Act::Missing,
        Move::Bad(cause) => Act::Bad(cause),
    }
}

/// What a token does at a place, where these parameters were given before.
pub(crate) fn act_at(
    alloc: Global,
    place: Place,
    seen: Seen<'_>,
    given: &[Given],
    names: &DataNames,
    around: Around,
) -> Result<Act, OutOfMemory>
    ensures { IfOk result (λ act. act
        ≡ act_at place seen.entry.at seen.entry.kind seen.entry.text.now given.now names.now
        around.top around.depth) }
{
    match place {
        Place::Command => Ok(command_act(seen.kind, seen.text, around)),
        Place::Branch => Ok(branch_act(seen.kind, seen.text, around)),
        Place::GroupEnd => Ok(group_end_act(seen.kind, seen.text, around)),
        Place::Object => Ok(object_act(seen.kind, seen.text)),
        Place::Within(point) => Ok(within_act(move_at(alloc, point, seen, given, names)?)),
        Place::Variable(modal) => Ok(variable_act(modal, seen.kind, seen.text)),
        Place::Comparison(modal) => Ok(comparison_act(modal, seen.kind, seen.text)),
        Place::Number(modal) => Ok(number_act(modal, seen.kind, seen.text)),
        Place::Then => Ok(then_act(seen.kind, seen.text)),
    }
}
