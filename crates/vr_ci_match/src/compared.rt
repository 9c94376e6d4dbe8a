//! How a block compares with what its RDFs describe.

ghost use Rattle.std.specs.Prelude.{◌≡◌, ◌+◌, ◌-◌, ◌*◌, ◌^◌, ◌<◌, ◌≤◌, ℕ, Bool, false, List, []};
ghost use Rattle.std.specs.Prelude.{◌∷◌, ◌++◌, length, take, drop, replicate, IsSome};
ghost use Rattle.vr_ci_match.specs.declared.rdf.Rdf.TheVariants.{Single};
ghost use Rattle.vr_ci_match.specs.Rdf.{control};
ghost use Rattle.vr_ci_match.specs.Compare.{Compares};
ghost use Rattle.vr_ci_match.specs.Laid.{padded, control_at};
ghost use Rattle.vr_ci_match.specs.Fault.{masked};
ghost use Rattle.vr_ci_match.specs.Tally.{with_length, IsCompared};

use crate::compare::{empty_difference, first_nonzero, wrong_byte};
use crate::rdf::Rdf;

/// What is wrong with the RDFs that were read, and with the bytes of their records.
#[derive(Clone, Copy)]
pub(crate) struct Compared {
    /// How many bytes the records have.
    pub span: usize,
    /// Where the RDFs begin.
    pub from: usize,
    /// The first byte of a withdrawn record, or of an empty slot, that is not zero.
    pub wrong: Option<usize>,
    /// The first byte of the RDFs that is not as it should be.
    pub wrong_rdf: Option<usize>,
}

impl Compared {
    /// Nothing is compared yet in a block of this size.
    pub(crate) fn new(size: usize) -> Compared
        requires { 4 ≤ size }
        ensures compared { (block : List ℕ) (limit : ℕ) → length block ≡ size
            → IsCompared block limit [] result }
        ensures span { result.span ≡ 0 }
    {
        Compared {
            span: 0,
            from: size - 4,
            wrong: None,
            wrong_rdf: None,
        }
    }

    /// Compares the RDF or pair whose leftmost byte is at `at`, which is to say this length, and
    /// its records up to `limit`.
    pub(crate) fn with(
        self,
        bytes: &[u8],
        limit: usize,
        at: usize,
        rdf: Rdf,
        wanted: usize,
    ) -> Compared
        requires limit { limit ≤ length bytes.now }
        requires size { 4 ≤ length bytes.now }
        requires place { at < 2 ^ 32 }
        requires span { self.span < 2 ^ 48 }
        requires small { wanted < 65536 }
        ensures compared { (rdfs meant : List Rdf) → IsCompared bytes.now limit meant self
            → drop at (take (length bytes.now - 4) bytes.now) ≡ control (rdfs ++ rdf ∷ [])
            → at ≤ length bytes.now - 4
            → length (control meant) ≡ length (control rdfs)
            → IsCompared bytes.now limit (meant ++ with_length rdf wanted ∷ []) result }
        ensures span { result.span ≤ self.span + 2 ^ 32 }
    {
        let span = self.span + wanted * rdf.count();
        Compared {
            span,
            from: at,
            wrong: wrong_byte(
                bytes,
                self.wrong,
                rdf.is_live(),
                self.span.min(limit),
                span.min(limit),
            ),
            wrong_rdf: rdf.length_difference(at, wanted).or(self.wrong_rdf),
        }
    }

    /// The first byte before `limit` that differs from the records' bytes and the zeros after
    /// them.
    pub(crate) fn data_difference(self, bytes: &[u8], limit: usize) -> Option<usize>
        requires { limit ≤ length bytes.now }
        ensures kept { IsSome self.wrong → result ≡ self.wrong }
        ensures data_wrong { (rdfs : List Rdf) → IsCompared bytes.now limit rdfs self
            → Compares 0 (take limit bytes.now) (padded limit (masked rdfs bytes.now)) result }
    {
        if let Some(at) = self.wrong {
            return Some(at);
        }
        first_nonzero(bytes, self.span.min(limit), limit)
    }

    /// The first byte from `limit` up to the CIDF that differs from the RDFs, with those of that
    /// many empty slots to their left.
    pub(crate) fn control_difference(
        self,
        bytes: &[u8],
        limit: usize,
        empty: usize,
        slot_length: usize,
    ) -> Option<usize>
        requires size { 4 ≤ length bytes.now }
        requires within { limit + 3 * empty ≤ length bytes.now }
        ensures { (rdfs : List Rdf) → IsCompared bytes.now limit rdfs self
            → limit + 3 * empty ≡ control_at (length bytes.now) rdfs
            → Compares limit (drop limit (take (length bytes.now - 4) bytes.now))
            (control (rdfs ++ replicate empty (Single false slot_length))) result }
    {
        if let Some(at) = empty_difference(bytes, limit, empty, slot_length) {
            return Some(at);
        }
        self.wrong_rdf
    }
}
