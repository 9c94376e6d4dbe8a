//! What is counted of a data set.

/// What LISTCAT ALL of Access Method Services Commands counts of a data set: its records, its areas,
/// and the splits of its control intervals and of its control areas. There may be more records than
/// the number can say, which then is the greatest.
#[derive(Clone, Copy)]
pub struct Statistics {
    pub records: u64,
    pub areas: u64,
    pub interval_splits: u64,
    pub area_splits: u64,
}
