//! The points that a reader of lists of parameters may have reached.

use crate::cause::AmsCause;
use crate::given::Given;
use crate::row::{Choice, Slot, Values};
use crate::section::Section;

/// What a parameter states, and which of the words for it was used.
#[derive(Clone, Copy)]
pub struct Statement {
    pub slot: Slot,
    pub choice: Choice,
}

/// What is due next in a command with lists of parameters.
#[derive(Clone, Copy)]
pub enum Point {
    /// The name that stands before the list, or, of DELETE, names in parentheses.
    Head(Section),
    /// The parenthesis that opens a list.
    Opening(Section),
    /// A parameter of the list, or its end.
    Listed(Section),
    /// The parenthesis before the values of a parameter.
    ValueOpening(Section, Statement, Values),
    /// A value, or the parenthesis after them. Token `opened` is the parenthesis before them.
    Valued(Section, Statement, Values, usize),
}

/// What a token does at a point.
#[derive(Clone, Copy)]
pub enum Move {
    Go(Point),
    /// A parameter is given, and this point is reached.
    Give(Given, Point),
    /// The command ends, with the parameters of this list last.
    End(Section),
    /// The command ends before a required parameter: reported at its first word.
    Missing,
    /// The token is at fault.
    Bad(AmsCause),
}
