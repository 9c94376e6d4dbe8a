//! Why a record or a segment was not written.

/// The bytes do not fit: how many are needed, and how many are free. Nothing was written.
#[derive(Clone, Copy, PartialEq, Eq)]
pub struct NoRoom {
    /// Bytes that are needed: a record's length and 3, or a segment's length.
    pub need: usize,
    /// Bytes that are free: for records what the earlier ones leave, for a segment the block's size
    /// less 10.
    pub free: usize,
}
