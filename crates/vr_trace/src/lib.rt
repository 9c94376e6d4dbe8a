//! The histories of a job's volumes as one, what a job prints, and what the crates that run its
//! steps share. What a job prints is the listing, the lines of the merged history, and the one line
//! of a job that ends otherwise; what is shared is a volume as the commands of IDCAMS see it, what
//! they count of a data set and what they hand its records to, what a command leaves with its line,
//! and why the steps ended before all was done. It stands on vr_types for requests and replies, on
//! vr_catalog for the catalog of a volume, on vr_history for entries, histories and their merge,
//! and on vr_text for literals. What the listing shows of a job's text is kept in types of its own,
//! so that it doesn't rest on how texts are read; what a step of IDCAMS printed is a report that is
//! handed in. It promises that the merged history is that of vr_history, that what is printed is by
//! the byte what the definitions say, that the code of a step of decks is that of the replies to
//! its decks, and that of a job the greatest of these and of the codes of the reports.
#![tactic(auto)]

mod code;
mod command;
mod ending;
mod histories;
mod job_listing;
mod kept;
mod laws;
mod line;
mod merging;
mod no;
mod report;
mod shown;
mod statistics;
mod trace;
mod visitor;

pub use code::{job_code, step_code};
pub use command::{Failure, Outcome, refused, write_outcome};
pub use ending::{EndLine, TextKind, end_line, fixed_line};
pub use histories::Histories;
pub use job_listing::listing;
pub use kept::{FileNames, KeptDeck, KeptDeckStep, KeptDecks, KeptStep, KeptSteps};
pub use laws::{
    code_is_the_worst, deck_part_grows, deck_part_is_as_asked, deck_part_is_merged,
    merged_has_each_once, volume_part_is_its_history,
};
pub use line::{NEW_LINE, write_field};
pub use merging::{Merged, merge};
pub use no::RunNo;
pub use report::{StepReport, StepReports};
pub use shown::{ShownVolume, has_name, is_known};
pub use statistics::Statistics;
pub use trace::trace_lines;
pub use visitor::RecordVisitor;
