//! What the lines before left: the records of a catalog.

use std::alloc::Global;
use vr_types::Bytes;

/// What the lines before left.
#[derive(Drop)]
pub struct Desk {
    pub records: Vec<Bytes>,
}

impl Desk {
    /// No record.
    pub fn new(alloc: Global) -> Desk {
        Desk {
            records: Vec::new(alloc),
        }
    }
}
