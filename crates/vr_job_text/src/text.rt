//! What a job text says.
ghost use Rattle.std.specs.Prelude.{◌≡◌, List, [], ◌∷◌, ◌++◌, ◌≤◌, length, OnOk, OnErr};
ghost use Rattle.vr_job_text.specs.Decks.{place_of, with_deck};

use std::alloc::Global;
use std::marker::Model;
use vr_deck_text::DeckText;
use vr_types::{Bytes, OutOfMemory};

/// A deck: its number, 1 to 99, and its text.
#[derive(Drop)]
pub struct Deck {
    pub number: u32,
    pub text: DeckText,
}

/// The decks of a step, in the order of their numbers.
#[derive(Drop)]
pub struct Decks {
    decks: Vec<Deck>,
}

impl Model for Decks {
    ghost use Rattle.std.specs.Prelude.{List};
    ghost use Rattle.vr_job_text.specs.declared.text.Deck.{Deck};

    ghost Value = { List Deck };

    ghost view = { λ decks. decks.decks.items };
}

impl Decks {
    /// No deck, which takes no memory.
    pub fn new(alloc: Global) -> Decks
        ensures { result ≡ [] }
    {
        Decks {
            decks: Vec::new(alloc),
        }
    }

    /// The decks, in order.
    pub fn as_slice(&self) -> &[Deck]
        ensures { result.now ≡ self.now }
    {
        self.decks.as_slice()
    }

    /// How many decks from the first on have a number below this one.
    fn lower(&self, number: u32) -> usize
        ensures place { result ≡ place_of self.now number }
        ensures within { result ≤ length self.now }
    {
        let decks = self.decks.as_slice();
        for at in 0..decks.len() {
            if decks[at].number >= number {
                return at;
            }
        }
        decks.len()
    }

    /// Adds a deck before the first one that has no lower number. Where memory runs out, nothing
    /// changes.
    pub fn add(&mut self, deck: Deck) -> Result<(), OutOfMemory>
        ensures ok { OnOk result (self.new ≡ with_deck self.old deck) }
        ensures err { OnErr result (self.new ≡ self.old) }
    {
        let at = self.lower(deck.number);
        self.decks.insert(at, deck)?;
        Ok(())
    }
}

/// A step of decks: its name, the number of the line of its card, and its decks.
#[derive(Drop)]
pub struct Step {
    pub name: Bytes,
    pub line: u32,
    pub decks: Decks,
}
