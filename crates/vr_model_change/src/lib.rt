//! What a request finds, changes, logs and locks, for the model of the record file. It stands on
//! the state as lists (`vr_model_state`), and promises that each value is that of the word of
//! `vr_history` which its clause names.
#![tactic(auto)]

mod address;
mod change;
mod finding;
mod log;
mod names;

pub use address::{areas_needed, interval_needed, length_of, number_of, plus};
pub use change::{
    KeyMove, PlaceChange, change_of, copy_of_bytes, field_in, key_of, move_of, moves_key,
    old_record, pair_moves, place_changed, record_held,
};
pub use finding::{FoundRecord, candidates_in, found, joined, key_of_pair, place_read, records_in};
pub use log::{LogImage, log_need, new_images};
pub use names::{conflict_on, lock_names};
