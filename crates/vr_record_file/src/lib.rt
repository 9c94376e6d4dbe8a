//! The record file in memory: what a volume has in memory of its state beside the records, its
//! catalog, locks, positions, unit numbers, the fault that stopped it and its history. It stands on
//! the record file's definition (vr_history), the answers to requests (vr_answer), the lock table
//! (vr_locks) and positions (vr_browse), and on no device.
#![tactic(auto)]

mod asked;
mod changing;
mod defining;
mod editing;
mod ending;
mod entry_step;
mod file;
mod laws;
mod numbers;
mod positioning;
mod reading;
mod refusing;

pub use entry_step::EntryStep;
pub use file::RecordFile;
pub use laws::{
    defined_state, definition_in_doubt, edit_in_doubt, edited_state, logged_places_are_locked,
    stopped_volumes_look_at_no_lock,
};
