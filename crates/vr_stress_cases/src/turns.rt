//! What a deck does in a turn, by the numbers that it throws.

use crate::dice::Dice;
use vr_case_volumes::Verb;
use vr_types::Kind;

/// What a deck does in a turn.
#[derive(Clone, Copy)]
pub enum Act {
    Put(Put),
    /// Gets a record with an integrity.
    Read,
    /// Gets a record for update, and goes on with that.
    Hold,
    Point,
    End(Verb),
}

/// How a deck puts a record.
#[derive(Clone, Copy)]
pub enum Put {
    Add,
    /// With a slot where there are none, or without where there are.
    Amiss,
    Update,
}

/// What a deck does with a record that it got for update.
#[derive(Clone, Copy)]
pub enum Then {
    Update,
    Erase,
    LetGo,
}

/// Which record a deck asks for: the one at a place, the first one from there on, or the next one.
#[derive(Clone, Copy)]
pub enum Find {
    At,
    AtLeast,
    Next,
}

/// Which deck asks in which of its turns for which record, by the record's number, and how.
#[derive(Clone, Copy)]
pub struct Where {
    pub deck: u32,
    pub turn: u32,
    pub volume: u32,
    pub record: u32,
    pub find: Find,
}

/// How many numbers name an act.
const SIDES: u32 = 24;

/// What a deck does in its next turn.
pub fn act_of(dice: &mut Dice) -> Act {
    match dice.roll(SIDES) {
        0..=4 => Act::Put(Put::Add),
        5 => Act::Put(Put::Amiss),
        6..=10 => Act::Read,
        11..=17 => Act::Hold,
        18 | 19 => Act::Point,
        20..=22 => Act::End(Verb::Commit),
        _ => Act::End(Verb::Backout),
    }
}

/// Which record a number of three asks for.
pub fn find_of(number: u32) -> Find {
    match number {
        0 => Find::At,
        1 => Find::AtLeast,
        _ => Find::Next,
    }
}

/// Which integrity a number of three names.
pub fn integrity_of(number: u32) -> &'static str {
    match number {
        0 => " NRI",
        1 => " CR",
        _ => " CRE",
    }
}

/// What a deck does with a record that it got for update, by a number of three. No record of an
/// entry-sequenced data set is erased.
pub fn then_of(kind: Kind, number: u32) -> Then {
    match (kind, number) {
        (_, 0) => Then::LetGo,
        (Kind::Keyed | Kind::Relative, 1) => Then::Erase,
        _ => Then::Update,
    }
}
