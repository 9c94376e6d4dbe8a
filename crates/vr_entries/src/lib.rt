//! The control intervals of an entry-sequenced part: records of lengths of their own, one after
//! another, each found by its displacement. It stands on `vr_ci` and `vr_space`. It promises what is
//! read at a displacement, and that setting a record, adding one after the others or withdrawing one
//! leaves every other item where it is.
#![tactic(auto)]

mod reading;
mod writing;

pub use reading::{Taken, entries_in, next_record, record_at, taken_in, takes_record};
pub use writing::{write_entry, write_no_entry};
