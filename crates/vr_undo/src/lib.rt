//! The before-images of units of recovery that haven't ended. It stands on the shared words
//! (vr_types), on the room that a part keeps for what may be put back (vr_space) and on the state of
//! a volume (vr_history). It promises that the lists of before-images and of logged places are those
//! of the state after each call, that what is shown and taken out is the unit's last before-image,
//! that what is kept for room is each before-image that the log has of such a unit, put back or not,
//! and that only `keep` and `keep_pair` take memory.
#![tactic(auto)]

mod before;
mod kept;
mod laws;
mod order;
mod others;
mod record;
mod undo;

pub use before::Before;
pub use laws::{kept_as_in_the_state, unkept_is_as_before};
pub use undo::Undo;
