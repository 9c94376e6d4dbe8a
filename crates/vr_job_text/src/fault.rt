//! Why a text is not a job.
ghost use Rattle.std.specs.Prelude.{◌≡◌};
ghost use Rattle.vr_job_text.specs.Fault.{cause_number, scan_number, wrong, card_fault};
ghost use Rattle.vr_job_text.specs.Fault.{scan_fault, ams_fault, deck_fault, form_fault};

use vr_amsparse::{AmsCause, CommandFault};
use vr_deck_text::DeckCause;
use vr_scan::{FormCause, FormFault};
use vr_types::OutOfMemory;

/// The causes for which a card, or a line that follows one, is refused.
#[derive(Clone, Copy)]
pub enum CardCause {
    /// The name, the operation or the operand of the card is none, or is missing; or the data after
    /// the card belongs to no step, or is no deck of a step of decks. Number 1.
    Misspelled,
    /// The card begins a step of another program. Number 2.
    OtherProgram,
    /// Text stands where none may. Number 3.
    StrayText,
    /// The number of a deck isn't 1 to 99, or another deck of the job has it. Number 4.
    DeckNumber,
    /// A character isn't allowed. Number 5.
    Character,
    /// A data card has more than 80 characters. Number 6.
    LongData,
    /// The job has 64 decks already. Number 7.
    TooManyDecks,
    /// The step has data of that name already. Number 8.
    DataTwice,
}

impl CardCause {
    /// The number that a report shows.
    pub fn number(self) -> u8
        ensures { result ≡ cause_number self }
    {
        match self {
            CardCause::Misspelled => 1,
            CardCause::OtherProgram => 2,
            CardCause::StrayText => 3,
            CardCause::DeckNumber => 4,
            CardCause::Character => 5,
            CardCause::LongData => 6,
            CardCause::TooManyDecks => 7,
            CardCause::DataTwice => 8,
        }
    }
}

/// The number that a report shows of a cause for which the text of a step of IDCAMS has no tokens.
pub fn scan_number(cause: FormCause) -> u8
    ensures { result ≡ scan_number cause }
{
    match cause {
        FormCause::OpenComment => 1,
        FormCause::OpenLiteral => 2,
        FormCause::Digit => 3,
        FormCause::Continuation => 4,
    }
}

/// What is wrong with a text.
#[derive(Clone, Copy)]
pub enum Kind {
    /// A card is wrong, or a line after one.
    Card(CardCause),
    /// The text of a step of IDCAMS has no tokens.
    Scan(FormCause),
    /// The tokens of a step of IDCAMS are no commands.
    Ams(AmsCause),
    /// A line of a deck is.
    Deck(DeckCause),
    /// Nothing is wrong, and the command of the line isn't run yet.
    Form,
}

/// The first fault of a text, with its line and its column, both from 1. The column is that where
/// the wrong thing begins; that of a deck and of what isn't run yet is 1.
#[derive(Clone, Copy)]
pub struct TextFault {
    pub kind: Kind,
    pub line: u32,
    pub column: u32,
}

/// Why a text gave no job.
#[derive(Clone, Copy)]
pub enum JobFault {
    /// The text isn't a job, or not one that is run yet.
    Text(TextFault),
    /// Memory ran out.
    Memory,
}

impl From<OutOfMemory> for JobFault {
    ghost use Rattle.std.specs.Prelude.{◌≡◌};
    ghost use Rattle.vr_job_text.specs.declared.fault.JobFault.TheVariants.{Memory};

    ghost from_gives = { λ _ fault. fault ≡ Memory };

    fn from(_error: OutOfMemory) -> JobFault {
        JobFault::Memory
    }
}

/// What is wrong with a card, and the column where the wrong thing begins.
#[derive(Clone, Copy)]
pub(crate) struct CardFault {
    pub cause: CardCause,
    pub column: u32,
}

/// What is wrong with a card.
pub(crate) fn wrong(cause: CardCause, column: u32) -> CardFault
    ensures { result ≡ wrong cause column }
{
    CardFault { cause, column }
}

/// The fault of a card on a line.
pub(crate) fn card_fault(line: u32, fault: CardFault) -> TextFault
    ensures { result ≡ card_fault line fault }
{
    TextFault {
        kind: Kind::Card(fault.cause),
        line,
        column: fault.column,
    }
}

/// The fault of the tokens of a step.
pub(crate) fn scan_fault(fault: FormFault) -> TextFault
    ensures { result ≡ scan_fault fault }
{
    TextFault {
        kind: Kind::Scan(fault.cause),
        line: fault.line,
        column: fault.column,
    }
}

/// The fault of the commands of a step.
pub(crate) fn ams_fault(fault: CommandFault) -> TextFault
    ensures { result ≡ ams_fault fault }
{
    TextFault {
        kind: Kind::Ams(fault.cause),
        line: fault.line,
        column: fault.column,
    }
}

/// The fault of a deck on a line.
pub(crate) fn deck_fault(line: u32, cause: DeckCause) -> TextFault
    ensures { result ≡ deck_fault line cause }
{
    TextFault {
        kind: Kind::Deck(cause),
        line,
        column: 1,
    }
}

/// The fault of a line that isn't run yet.
pub(crate) fn form_fault(line: u32) -> TextFault
    ensures { result ≡ form_fault line }
{
    TextFault {
        kind: Kind::Form,
        line,
        column: 1,
    }
}
