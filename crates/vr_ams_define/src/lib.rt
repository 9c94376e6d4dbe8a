//! DEFINE of clusters, alternate indexes and paths, ALTER, and DELETE, of Access Method Services
//! Commands, over the volumes of a job, which the utilities have for themselves; and these volumes,
//! whose data sets LISTCAT ALL has counted, and whose records PRINT is handed. It stands on
//! vr_catalog for the orders, the entries and the faults of a catalog, on vr_attach for the rules
//! that a catalog keeps, on vr_edits for what an edit makes of it, on vr_history for what is
//! entered, and on vr_trace for volumes as commands see them, for what is counted, for outcomes and
//! for the line of a command; of a volume it asks for the trait `OwnedVolume` alone. It promises
//! that a command, or a name of a DELETE, is refused with the first cause that there is, and no
//! volume asked then; else that the outcome is by the answer of the one volume that it concerns,
//! which was asked for a cluster that its catalog may have, or for an edit that may be made of its
//! catalog, that what this volume entered comes after all that the volumes had, and that the other
//! volumes stay as they were.
#![tactic(auto)]

mod altering;
mod answer;
mod asking;
mod asking_edit;
mod carrying;
mod chosen;
mod cluster;
mod defining;
mod deleting;
mod failure;
mod gone;
mod laws;
mod outcome;
mod over;
mod owned;
mod recorded;
mod refusal;
mod runs;
mod stamps;
mod target;

pub use altering::alter_entry;
pub use answer::{Changed, Counted, Defined, ReadBack};
pub use cluster::{define_cluster, write_cluster};
pub use deleting::delete_entries;
pub use failure::{catalog_failure, fault_failure, stopped_failure};
pub use laws::new_entry_is_new;
pub use over::define_over;
pub use owned::OwnedVolume;
pub use runs::{is_plain_cluster, is_run};
pub use stamps::last_of;
pub use target::place_of;
