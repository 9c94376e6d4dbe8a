//! The text of a job: its cards, its steps of decks, and its steps of IDCAMS with their commands and
//! their data. It stands on vr_deck_text for decks, on vr_scan and vr_amsparse for commands, on
//! vr_text and vr_types for lines and bytes, and on bstr for the lines of a text. It promises that a
//! text which is answered is the job that the definition gives it, and that one which is refused has
//! the fault that the definition gives as the first, with its line and its column; and which jobs are
//! run yet.
#![tactic(auto)]

mod card;
mod decks;
mod fault;
mod job;
mod laws;
mod line;
mod parse;
mod reading;
mod running;
mod step;
mod steps;
mod take;
mod text;
mod utilities;

pub use fault::{CardCause, JobFault, Kind, TextFault, scan_number};
pub use job::{DataCards, Job, JobStep, JobSteps, UtilityStep, unrun};
pub use laws::{one_value, value_or_fault};
pub use parse::parse_job;
pub use running::parse_run_job;
pub use text::{Deck, Decks, Step};
