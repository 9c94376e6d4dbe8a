//! The record file of a volume, defined whole: what a one-thread record file answers at each place
//! of a history, and what each entry leaves of the state, for every request on every kind of data
//! set, with units of recovery, locks, alternate indexes, the log, the areas and the stop at a
//! write fault. It stands on `vr_types`, and on `vr_catalog` and `vr_altkey` for what the catalog
//! and alternate indexes say. It holds the entries of a volume and their list, and promises that
//! stamps rise in it; its laws say what readers of the definition expect.
#![tactic(auto)]

mod entry;
mod history;
mod laws;

pub use entry::{Entry, What};
pub use history::History;
pub use laws::{
    addresses_never_again, backed_out_changes_nothing, committed_is_current, committed_is_settled,
    ended_holds_nothing, merged_in_order, no_two_locks_conflict, refused_changes_nothing,
};
