//! Which answer a request gets, decided over what a volume has in memory, the place that the
//! request comes to and the one record that stands there. It stands on `vr_types`, `vr_catalog`,
//! `vr_history` and `vr_locks`, and on no device. It promises that each refusal, each name that is
//! locked, the space of the log that is needed and the reply to a request that is done are those of
//! the record file (`vr_history`), for each state of a volume that what is in memory agrees with.
//! Requests on clusters of all three kinds are answered, in a catalog that has neither alternate
//! indexes nor paths. The place is named by the request, or found above this crate, as
//! `found_is_least` says; the address of a record that is added to an entry-sequenced data set is
//! handed in.
#![tactic(auto)]

mod answering;
mod areas;
mod by_file;
mod by_record;
mod case;
mod effects;
mod laws;
mod locking;
mod logging;
mod places;
mod scope;

pub use answering::{answer, done};
pub use by_file::{refused_before_all, refused_by_file};
pub use by_record::refused_by_record;
pub use case::{Case, Looked, file_of, opened};
pub use effects::{change_leaves, end_leaves, read_leaves, refusal_leaves, search_leaves};
pub use laws::{
    answer_comes_in_order, before_images_are_locked, found_is_least, locks_are_taken_alike,
    may_come_instead, refusals_come_in_order,
};
pub use locking::{lock_names, mode_asked};
pub use logging::{log_full, log_need};
pub use places::{place_changed, place_looked_at, place_read};
pub use scope::{has_none_built, is_direct};
