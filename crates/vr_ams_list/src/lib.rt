//! LISTCAT of Access Method Services Commands: which entries of catalogs it lists, when it is
//! refused, what it leaves in its short form, and the lines that LISTCAT ALL has of an entry, whose
//! numbers are handed in. It stands on vr_catalog for the entries that are listed, and on vr_trace
//! for volumes as commands see them, for what is counted and for the outcome of a command. It
//! promises that entries, lines and outcome are, lines by the byte, those of the definitions.
#![tactic(auto)]

mod all;
mod details;
mod fault;
mod listed;
mod listing;
mod order;
mod outcome;

pub use all::{entries_to_list, write_full};
pub use details::write_details;
pub use fault::list_failure;
pub use listed::Listed;
pub use listing::write_total;
pub use outcome::list_entries;
