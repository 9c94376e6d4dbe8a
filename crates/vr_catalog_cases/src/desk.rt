//! What the lines before a question have left.

use std::alloc::Global;
use vr_catalog::Catalog;
use vr_types::Geometry;
use vr_undo::Undo;

/// A record, a catalog and the shape of a volume; and what is kept of units of recovery.
#[derive(Drop)]
pub struct CatalogDesk {
    pub record: Vec<u8>,
    pub catalog: Catalog,
    pub geometry: Geometry,
    pub undo: Undo,
}

impl CatalogDesk {
    /// No record, no entry, nothing kept, and a volume of blocks of 512 bytes with areas of 7
    /// intervals.
    pub fn new(alloc: Global) -> CatalogDesk {
        CatalogDesk {
            record: Vec::new(alloc),
            catalog: Catalog::new(alloc),
            geometry: Geometry {
                size: 512,
                blocks: 129,
                log: 8,
                area: 7,
            },
            undo: Undo::new(alloc),
        }
    }
}
