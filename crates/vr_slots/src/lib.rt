//! The control intervals of a relative part: slots of one length, each found by its number in the
//! interval. It stands on `vr_ci` and `vr_space`. It promises what is read of a slot, which slot is
//! the next one with a record, and that setting a slot leaves every other one as it is.
#![tactic(auto)]

mod reading;
mod writing;

pub use reading::{first_live, interval_of, slot_at};
pub use writing::{write_empty, write_set};
