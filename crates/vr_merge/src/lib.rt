//! The entries of a history by themselves, without the state of a volume: the one history of
//! several volumes, the check of stamps, and what makes a history legal beyond its steps. It stands
//! on `vr_history`, whose words it computes by their own form, and on the layers of the model for
//! lists (`vr_model_state`, `vr_model_change`). It promises that each value is that of the word
//! which its clause names.
#![tactic(auto)]

mod legal;
mod merging;

pub use legal::{backs_out_once_begun, stops_at_write_faults};
pub use merging::{NumberedEntry, is_stamped, merge};
