//! The places of a block that are known before its RDFs are read.

ghost use Rattle.std.specs.Prelude.{◌≡◌, ◌+◌, ◌-◌, ◌<◌, ◌≤◌, ℕ, IfSome};
ghost use Rattle.vr_ci_match.specs.Rdf.{shape_by};
ghost use Rattle.vr_ci_match.specs.Layout.{data_end, length_meant, IsLayout};

use crate::form::{Form, Piece, slots};
use crate::rdf::Rdf;

/// What a block's form, size and CIDF say of its places.
#[derive(Clone, Copy)]
pub(crate) struct Layout {
    /// Where the free space ends, and the RDFs begin, by the CIDF.
    pub low: usize,
    /// How many slots there are; none in form `Plain`.
    pub slots: usize,
    /// Where the place of records and free space ends, unless the block has a segment.
    pub limit: usize,
}

impl Layout {
    /// The layout of a block of this size whose RDFs begin at `low`.
    pub(crate) fn of(form: Form, size: usize, low: usize) -> Layout
        requires size { 4 ≤ size }
        requires low { low ≤ size - 4 }
        ensures { IsLayout form size low result }
    {
        match form {
            Form::Plain => Layout {
                low,
                slots: 0,
                limit: size - 4 - (size - 4 - low) / 3 * 3,
            },
            Form::Slots { length } => {
                let slots = slots(size, length);
                Layout {
                    low,
                    slots,
                    limit: size - 4 - 3 * slots,
                }
            }
        }
    }

    /// Where the place of records and free space ends in a block whose last RDF is this one.
    pub(crate) fn data_end(self, size: usize, last: Option<Rdf>) -> usize
        requires { 10 ≤ size }
        ensures { (form : Form) (low : ℕ) → IsLayout form size low self
            → result ≡ data_end form size low (shape_by last) }
    {
        match last {
            Some(Rdf::Segment { .. }) => size - 10,
            _ => self.limit,
        }
    }

    /// The length that an RDF is to say with that many records to its right, unless it is of no
    /// slot of the block.
    pub(crate) fn length_meant(
        self,
        form: Form,
        size: usize,
        before: usize,
        rdf: Rdf,
    ) -> Option<usize>
        requires size { (10 ≤ size) × (size ≤ 32768) }
        ensures meant { (low : ℕ) → IsLayout form size low self
            → result ≡ length_meant form size before rdf }
        ensures small { IfSome result (λ length. length < 65536) }
    {
        match (form, rdf) {
            (
                _,
                Rdf::Segment {
                    piece: Piece::First | Piece::Inner,
                    ..
                },
            ) => Some(size - 10),
            (Form::Slots { length }, Rdf::Single { .. } | Rdf::Run { .. }) => {
                (before < self.slots).then_some(usize::from(length))
            }
            _ => Some(rdf.length()),
        }
    }
}
