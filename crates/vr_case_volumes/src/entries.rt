//! The entries of a volume's history.

use vr_history::Entry;
use vr_trace::Histories;

/// The entries of a volume, from 0, in order: none where it isn't there.
pub fn entries_of(histories: &Histories, volume: usize) -> &[Entry] {
    match histories.as_slice().get(volume) {
        Some(history) => history.entries(),
        None => &[],
    }
}
