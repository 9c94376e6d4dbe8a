//! A ledger lies behind a mutex, and a turn goes with its thread. That both may cross threads is
//! proved here, and not only where a crate above first starts a thread.
use crate::ledger::Ledger;
use crate::turn::Turn;

fn moves<T: Send>() {}

/// Asks of each type what a thread asks of it.
pub(crate) fn ledger_and_turns_cross_threads() {
    moves::<Ledger>();
    moves::<Turn>();
}
