//! How the tables of cases spell entries of a history, with their requests and replies. It stands
//! on `vr_types`, `vr_text`, `vr_history` and `vr_case_table`. It promises that it is safe and
//! ends.
#![tactic(auto)]

mod entries;
mod replies;
mod words;

pub use entries::entry_of;
pub use words::{parted, place_of, record_of, unit_of};
