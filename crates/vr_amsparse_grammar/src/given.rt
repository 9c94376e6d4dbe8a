//! The parameters that a command was given so far.
ghost use Rattle.std.specs.Prelude.{◌≡◌, option_copied};
ghost use Rattle.vr_amsparse_grammar.specs.Moves.{given_in, has_slot, repeated};

use crate::cause::AmsCause;
use crate::point::Statement;
use crate::row::Slot;

/// A parameter that a command was given. Its values are `count` tokens, the first of them just
/// after token `opened`.
#[derive(Clone, Copy)]
pub struct Given {
    pub states: Statement,
    pub opened: usize,
    pub count: usize,
}

/// The parameter that states this, if it was given, lent.
fn find_given(given: &[Given], slot: Slot) -> Option<&Given>
    ensures { option_copied result ≡ given_in given.now slot }
{
    given.iter().find(|one| has_slot(one, slot))
}

/// The parameter that states this, if it was given.
pub fn given_for(given: &[Given], slot: Slot) -> Option<Given>
    ensures { result ≡ given_in given.now slot }
{
    match find_given(given, slot) {
        None => None,
        Some(one) => Some(*one),
    }
}

/// Whether a parameter states this.
fn has_slot(one: &Given, slot: Slot) -> bool
    ensures { result ≡ has_slot slot one.now }
{
    one.states.slot.number() == slot.number()
}

/// What is wrong with giving this parameter too: it was given before, or one that excludes it.
pub(crate) fn repeated(given: &[Given], states: Statement) -> Option<AmsCause>
    ensures { result ≡ repeated given.now states }
{
    match given_for(given, states.slot) {
        None => None,
        Some(before) => {
            if before.states.choice.number() == states.choice.number() {
                Some(AmsCause::ParameterTwice)
            } else {
                Some(AmsCause::ParametersExclude)
            }
        }
    }
}
