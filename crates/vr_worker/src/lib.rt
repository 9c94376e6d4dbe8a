//! The steps of a job, one after another, over volumes that its decks and its utilities share in
//! turn: as a step of decks begins, each of its decks is bound over the catalogs of all volumes,
//! and then they run, each on a thread of its own; the commands of a step of IDCAMS run over the
//! volumes as the steps before it left them, and may change them. What the layer asks of a volume
//! is the trait `Served`: that it answers a request event by event, and that its history only
//! grows; and `Cataloged`: that commands see and change it as an `OwnedVolume`, with the same
//! history. It stands on vr_types for requests, on vr_history for entries, on vr_ledger for what a
//! deck knows of its own entries once it has let a latch go, on vr_bind for what a deck requests,
//! on vr_ams_run for the commands, on vr_job_text for the steps, on vr_trace for reports, for
//! histories that grow and for a deck's part of the merged history, and on vr_outside for gates. It
//! promises, for every schedule: each deck's part of the merged history is its requests in order,
//! each once, by the catalogs as its step began, or the first of them where memory or stamps ran
//! out; the stamps of its entries, and of those of the utilities, rise over all volumes; nothing
//! else is entered: the history of each volume, and the merged one of all, is that of the steps,
//! step by step, of decks by their decks and of IDCAMS by the utilities on the lines of its
//! commands; each volume that comes back is a later state of the one that was handed in; and each
//! step of IDCAMS, as far as the steps came, has the report of its commands over the volumes that
//! exactly the steps before it left. That threads run at once, and that one gets in between two
//! events of another, no clause says.
#![tactic(auto)]

mod asking;
mod cataloged;
mod deck;
mod decks;
mod latched;
mod placing;
mod readying;
mod running;
mod served;
mod steps;
mod utilities;

pub use cataloged::Cataloged;
pub use deck::DeckRun;
pub use decks::{RunEnd, run_decks};
pub use served::Served;
pub use steps::run_steps;
