//! One event of a volume: a request that is answered under one hold of its latch. It stands on what
//! a volume has in memory of its blocks (vr_store), and on the record file in memory
//! (vr_record_file) with its answers (vr_answer). What the records of a cluster are handed to is a
//! visitor of vr_trace.
#![tactic(auto)]

mod act;
mod acting;
mod answering;
mod assembling;
mod backout;
mod committing;
mod counts;
mod define;
mod defining;
mod edit;
mod editing;
mod entered;
mod faulting;
mod fitting;
mod getting;
mod handing;
mod laws;
mod new_cluster;
mod numbers;
mod opening_places;
mod prepared_edit;
mod putting;
mod putting_events;
mod reading;
mod records;
mod refusing;
mod searching;
mod splits;
mod staging;
mod standing;
mod volume;
mod walking;
mod weighing;

pub use act::Act;
pub use counts::{Count, Counts};
pub use define::Define;
pub use edit::Edit;
pub use editing::entries_to_edit;
pub use laws::{event_adds, event_takes_room};
pub use reading::ReadThrough;
pub use volume::Volume;
