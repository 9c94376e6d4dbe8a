//! Why a block is not a control interval.

/// What is wrong with a block, and at which byte of it. The causes are tried in this order.
#[derive(Clone, Copy, PartialEq, Eq)]
pub enum CiFault {
    /// The length is not an allowed block size; `at` is 0. `vr_ci` tests it: `match_block` never
    /// answers it.
    Size { at: usize },
    /// The CIDF's displacement and length of the free space pass its own place, or the CIDF is four
    /// zero bytes and another byte of the block is not zero; `at` is the CIDF's place.
    Cidf { at: usize },
    /// An RDF, or two that are paired, that no block of the form has to the left of those to its
    /// right; `at` is its leftmost byte.
    Chain { at: usize },
    /// Lengths, counts, slots or bytes that disagree with the CIDF or the form; `at` is the first
    /// byte that differs from the block that the RDFs describe. Where none differs, the records
    /// need more room than the block has, and `at` is the leftmost byte of the RDF or pair that
    /// passes it.
    Lengths { at: usize },
}
