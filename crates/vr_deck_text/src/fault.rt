//! Why a text is not a deck.
ghost use Rattle.std.specs.Prelude.{◌≡◌};
ghost use Rattle.vr_deck_text.specs.Deck.{cause_number};

use vr_types::OutOfMemory;

/// The causes for which the text of a deck is refused, numbered from 1 in this order.
#[derive(Clone, Copy)]
pub enum DeckCause {
    /// The first word is no verb.
    UnknownVerb,
    /// The word can't name a file: no card could have it.
    BadFileName,
    /// No line above declares the file.
    NotDeclared,
    /// A line above declares the file, or 64 files are declared already.
    DeclaredTwice,
    /// The word can't name a data set.
    BadDataSetName,
    /// An operand is missing, is given twice, or is excluded by one before it.
    Operands,
    /// The value is no literal.
    BadLiteral,
    /// The value is not a number from 0 to 4,294,967,295.
    BadNumber,
    /// The verb has no such operand, or the line has more than 80,000 bytes.
    UnknownOperand,
}

impl DeckCause {
    /// Its number, 1 to 9.
    pub fn number(self) -> u8
        ensures { result ≡ cause_number self }
    {
        self as u8 + 1
    }
}

/// The first fault of a text: its cause, and the number of the line where it is.
#[derive(Clone, Copy)]
pub struct LineFault {
    pub line: u32,
    pub cause: DeckCause,
}

/// Why a text gave no deck.
#[derive(Clone, Copy)]
pub enum DeckFault {
    /// The text is no deck.
    Text(LineFault),
    /// Memory ran out.
    Memory,
}

/// Why a line is not taken.
#[derive(Clone, Copy)]
pub(crate) enum Stop {
    Bad(DeckCause),
    Memory,
}

impl From<OutOfMemory> for Stop {
    ghost use Rattle.std.specs.Prelude.{◌≡◌};
    ghost use Rattle.vr_deck_text.specs.declared.fault.Stop.TheVariants.{Memory};

    ghost from_gives = { λ _ stop. stop ≡ Memory };

    fn from(_error: OutOfMemory) -> Stop {
        Stop::Memory
    }
}
