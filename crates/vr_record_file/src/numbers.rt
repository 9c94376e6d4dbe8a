//! The numbers of the units of recovery of decks.
ghost use Rattle.std.specs.Prelude.{◌≡◌, ℕ, OnOk, true, find, map};
ghost use Rattle.std.specs.Option.{option_copied};
ghost use Rattle.vr_history.specs.State.{State};
ghost use Rattle.vr_record_file.specs.Now.{IsStateOf, has_deck, is_of_deck, number_of};
ghost use Rattle.vr_record_file.specs.Now.{raised_for, state_now};

use crate::file::RecordFile;
use vr_types::OutOfMemory;

/// A deck with the number of its current unit of recovery.
#[derive(Clone, Copy)]
pub struct DeckNumber {
    pub deck: u32,
    pub number: u32,
}

/// The deck with its number, where it was entered.
fn find_deck(numbers: &[DeckNumber], deck: u32) -> Option<&DeckNumber>
    ensures { option_copied result ≡ find (is_of_deck deck) numbers.now }
{
    numbers.iter().find(|number| number.deck == deck)
}

/// The number of a deck's unit: 1 where the deck wasn't entered.
fn number_in(numbers: &[DeckNumber], deck: u32) -> u32
    ensures { result ≡ number_of numbers.now deck }
{
    match find_deck(numbers, deck) {
        Some(number) => number.number,
        None => 1,
    }
}

/// Whether a deck was entered.
fn is_entered(numbers: &[DeckNumber], deck: u32) -> bool
    ensures { result ≡ has_deck deck numbers.now }
{
    numbers.iter().any(|number| number.deck == deck)
}

/// Begins the next unit of a deck, where this is it. The last number stays.
fn raise_if(number: &mut DeckNumber, deck: u32)
    ensures { number.new ≡ raised_for deck number.old }
{
    if number.deck == deck && number.number < u32::MAX {
        number.number += 1;
    }
}

/// Begins the next unit of a deck.
pub(crate) fn raise_number(numbers: &mut [DeckNumber], deck: u32)
    ensures { numbers.new ≡ map (raised_for deck) numbers.old }
{
    for number in numbers.iter_mut() {
        raise_if(number, deck);
    }
}

impl RecordFile {
    /// The number of a deck's unit: 1 where the deck wasn't entered.
    pub fn number(&self, deck: u32) -> u32
        ensures value { result ≡ number_of self.now.numbers deck }
        ensures state { (opening : State) → IsStateOf opening self.now
            → result ≡ (state_now opening self.now).numbers deck }
    {
        number_in(&self.numbers, deck)
    }

    /// Enters a deck, whose first unit has the number 1; one that was entered stays as it is. It
    /// fails only if memory runs out. The number of each deck's unit stays, whatever the answer.
    pub fn enter_deck(&mut self, deck: u32) -> Result<(), OutOfMemory>
        ensures entered { OnOk result (has_deck deck self.new.numbers ≡ true) }
        ensures others { (other : ℕ) → has_deck other self.old.numbers ≡ true
            → has_deck other self.new.numbers ≡ true }
        ensures numbers { (other : ℕ) → number_of self.new.numbers other
            ≡ number_of self.old.numbers other }
        ensures same { self.new ≡ record self.old { numbers = self.new.numbers } }
        ensures state { (opening : State) → IsStateOf opening self.old
            → IsStateOf opening self.new }
    {
        if is_entered(&self.numbers, deck) {
            return Ok(());
        }
        self.numbers.push(DeckNumber { deck, number: 1 })?;
        Ok(())
    }
}
