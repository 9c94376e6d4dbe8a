//! The refusals of a request and its reply, for the model of the record file: one function for each
//! refusal, the refusals in their order, and the reply. It stands on what a request finds and
//! changes (`vr_model_change`), and promises that each value is that of the word of `vr_history`
//! which its clause names.
#![tactic(auto)]

mod refused_file;
mod refused_record;
mod refused_room;
mod replies;

pub use replies::{answer, before_all, first_before_room, first_of, first_refusal};
