//! A volume, whole: what its blocks stand for, what they recover to after a crash, and what makes
//! that the committed contents. It stands on the parts (vr_space), before-images (vr_undo), the log
//! (vr_log), the catalog (vr_catalog) and the record file (vr_history).
//!
//! Each event on the blocks is here; the value that one event changes isn't built yet.
#![tactic(auto)]

mod again;
mod changing;
mod defining;
mod durable;
mod entry_changes;
mod forcing;
mod laws;
mod logging;
mod setting;
mod shrinking;
mod together;
mod unit_end;
mod write_ahead;

pub use again::set_again;
pub use changing::{do_stage, force_blocks, set_free};
pub use defining::{define, nobodys_blocks_may_change, owners_grow};
pub use durable::state_recovers;
pub use entry_changes::change_entries;
pub use forcing::{force_changed, forced_is_firm};
pub use laws::{
    committed_by_its_history, crash_recovers, each_image_is_safe, image_recovers, one_recovery,
    one_volume,
};
pub use logging::{append_before, append_end, force_log, restart_log};
pub use setting::EntryChange;
pub use shrinking::owners_shrink;
pub use together::log_all;
pub use unit_end::end_unit;
pub use write_ahead::change;
