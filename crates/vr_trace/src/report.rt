//! What a step of IDCAMS leaves for the listing.

use vr_types::{Bytes, Items};

/// The report of a step of IDCAMS: the lines that its commands print, and its condition code.
#[derive(Drop)]
pub struct StepReport {
    pub lines: Bytes,
    pub code: u8,
}

/// The reports of the steps of IDCAMS of a job, first to last.
pub type StepReports = Items<StepReport>;
