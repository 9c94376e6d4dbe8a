//! What a sequence-set record says beside its entries.

/// What a sequence-set record says beside its entries, for a record that is to be written.
#[derive(Clone, Copy)]
pub struct SeqHead<'h> {
    /// Whether it is the first of its part's chain.
    pub first: bool,
    /// The number of the part.
    pub part: u32,
    /// The number of the next area of the chain.
    pub next: Option<u32>,
    /// The block of the top index record, or 0. Only the first of a chain has it.
    pub top: u32,
    /// The number of the first index area. Only the first of a chain has it.
    pub index_area: Option<u32>,
    /// The place above which the record's entries begin, zeros in the first of a chain. All places
    /// have its length.
    pub low: &'h [u8],
}
