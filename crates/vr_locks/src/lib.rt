//! The lock table of a volume: who holds which record, or which key of a unique alternate index, in
//! which mode. It stands on `vr_types` alone. A table is seen as the list of its locks in the order
//! in which they were taken. It promises that a request gets all of its names or none, that it is
//! refused exactly where a lock of another unit of recovery stands in its way, that the first such
//! name is shown with the earliest such lock, and that the end of a unit leaves exactly the locks
//! of the others. A look-up costs the same however many locks there are, and the end of a unit
//! touches its own locks alone; neither is claimed by a proof.
#![tactic(auto)]

mod asking;
mod ending;
mod filed;
mod held;
mod laws;
mod maps;
mod no;
mod planning;
mod table;
mod taking;

pub use laws::{conflicts_stand_in_the_way, free_is_granted, locks_go_together, shown_is_held};
pub use no::LockNo;
pub use table::{LockTable, lock_table};
