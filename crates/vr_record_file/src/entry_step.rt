//! What one unit of recovery does with one record of the catalog.

use vr_types::{Bytes, Place, SharedRequest};

/// What a unit of the utilities does with one record of the catalog, as its entries show it.
#[derive(Drop)]
pub enum EntryStep {
    /// A record that was got for update, and then replaced or erased. The replies to both show its
    /// place, so it is held twice; the first shows the record too.
    Change {
        /// The GET for update of its place.
        get: SharedRequest,
        /// The PUT for update of the new record, or the ERASE.
        change: SharedRequest,
        /// The place, of the first reply.
        got: Place,
        /// The place, of the second.
        changed: Place,
        /// The record that stood there.
        shown: Bytes,
    },
    /// A record that was added.
    Add {
        /// The PUT add.
        add: SharedRequest,
        /// The place of the new record.
        added: Place,
    },
}
