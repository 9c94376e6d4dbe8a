//! How far a job text has been read.
ghost use Rattle.std.specs.Prelude.{◌≡◌, ℕ, List, [], ◌∷◌, ◌++◌, ◌<◌, ◌==◌, length, OnOk, OnErr};
ghost use Rattle.std.specs.List.{list_any};

use crate::card::Program;
use crate::fault::TextFault;
use std::alloc::Global;
use std::marker::Model;
use vr_text::Lines;
use vr_types::{Bytes, Items, OutOfMemory};

/// What stands after a card: a deck of this number, commands of IDCAMS, or data of this name.
#[derive(Drop)]
pub(crate) enum PartKind {
    Deck(u32),
    Commands,
    Data(Bytes),
}

/// The lines after a card.
#[derive(Drop)]
pub(crate) struct Part<'a> {
    pub kind: PartKind,
    pub lines: Lines<'a>,
}

/// The parts of a step, in the order of the text.
pub(crate) type Parts<'a> = Items<Part<'a>>;

/// The text of a step: its name, the number of the line of its card, its program, and what stands
/// after its cards.
#[derive(Drop)]
pub(crate) struct StepText<'a> {
    pub name: Bytes,
    pub line: u32,
    pub program: Program,
    pub parts: Parts<'a>,
}

/// A step that was begun: its name, the number of the line of its card, and its program.
#[derive(Drop)]
pub(crate) struct Begun {
    pub name: Bytes,
    pub line: u32,
    pub program: Program,
}

/// The numbers of the decks of a job, in the order of the text.
#[derive(Drop)]
pub(crate) struct Numbers {
    numbers: Vec<u32>,
}

impl Model for Numbers {
    ghost use Rattle.std.specs.Prelude.{ℕ, List};

    ghost Value = { List ℕ };

    ghost view = { λ numbers. numbers.numbers.items };
}

impl Numbers {
    /// No number, which takes no memory.
    pub fn new(alloc: Global) -> Numbers
        ensures { result ≡ [] }
    {
        Numbers {
            numbers: Vec::new(alloc),
        }
    }

    /// How many numbers.
    pub fn len(&self) -> usize
        ensures { result ≡ length self.now }
    {
        self.numbers.len()
    }

    /// Whether a number is one of them.
    pub fn has(&self, number: u32) -> bool
        ensures { result ≡ list_any (λ other. other == number) self.now }
    {
        self.numbers.as_slice().iter().any(|other| *other == number)
    }

    /// Adds a number at the end.
    pub fn push(&mut self, number: u32) -> Result<(), OutOfMemory>
        ensures { OnOk result (self.new ≡ self.old ++ number ∷ []) }
    {
        self.numbers.push(number)?;
        Ok(())
    }
}

/// How far a job text has been read: the steps that have ended, the step that was begun, the parts
/// of that step, what goes on, the numbers of all decks, and the first fault of a line.
#[derive(Drop)]
pub(crate) struct Reading<'a> {
    pub steps: Items<StepText<'a>>,
    pub begun: Option<Begun>,
    pub parts: Parts<'a>,
    pub going: Option<Part<'a>>,
    pub used: Numbers,
    pub fault: Option<TextFault>,
}
