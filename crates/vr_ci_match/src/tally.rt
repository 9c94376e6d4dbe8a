//! What the reader has found in the RDFs so far.

ghost use Rattle.std.specs.Prelude.{◌≡◌, ◌+◌, ◌-◌, ◌*◌, ◌^◌, ◌<◌, ◌≤◌, ℕ, List, [], ◌∷◌, ◌++◌};
ghost use Rattle.std.specs.Prelude.{length, IsSome, IsNone};
ghost use Rattle.vr_ci_match.specs.declared.form.Form.TheVariants.{Plain, Slots};
ghost use Rattle.vr_ci_match.specs.Rdf.{shape_of};
ghost use Rattle.vr_ci_match.specs.Fault.{free_end, StandFrom};
ghost use Rattle.vr_ci_match.specs.Layout.{data_end, IsLayout};
ghost use Rattle.vr_ci_match.specs.Tally.{judged, IsCompared, IsTally};

use crate::compared::Compared;
use crate::form::Form;
use crate::layout::Layout;
use crate::rdf::Rdf;

/// What the RDFs read so far say, and what is wrong with it.
#[derive(Clone, Copy)]
pub(crate) struct Tally {
    /// The RDF or pair that was read last.
    pub last: Option<Rdf>,
    /// How many records there are.
    pub count: usize,
    /// How they compare with what the block should hold.
    pub compared: Compared,
    /// The room that the records need, until they pass the block's.
    pub room: usize,
    /// The RDF or pair with which plain records pass it.
    pub passed: Option<usize>,
}

impl Tally {
    /// The tally of no RDF, in a block of this size.
    pub(crate) fn new(size: usize) -> Tally
        requires { 4 ≤ size }
        ensures tally { (form : Form) (block : List ℕ) → length block ≡ size
            → IsTally form block [] result }
        ensures zero { (result.count ≡ 0) × (result.compared.span ≡ 0) × (result.room ≡ 0) }
    {
        Tally {
            last: None,
            count: 0,
            compared: Compared::new(size),
            room: 0,
            passed: None,
        }
    }

    /// The tally with one more RDF or pair, whose leftmost byte is at `at`.
    pub(crate) fn with(self, form: Form, layout: Layout, bytes: &[u8], at: usize, rdf: Rdf) -> Tally
        requires layout { IsLayout form (length bytes.now) (free_end bytes.now) layout }
        requires size { 10 ≤ length bytes.now }
        requires small { length bytes.now ≤ 32768 }
        requires place { at < 2 ^ 32 }
        requires count { self.count < 2 ^ 48 }
        requires span { self.compared.span < 2 ^ 48 }
        requires room { self.room < 2 ^ 48 }
        ensures tally { (rdfs : List Rdf) → StandFrom form bytes.now (rdfs ++ rdf ∷ []) at
            → IsTally form bytes.now rdfs self
            → IsTally form bytes.now (rdfs ++ rdf ∷ []) result }
        ensures count { result.count ≤ self.count + 2 ^ 16 }
        ensures span { result.compared.span ≤ self.compared.span + 2 ^ 32 }
        ensures room { result.room ≤ self.room + 2 ^ 33 }
    {
        let room = self.room + rdf.span() + 3 * rdf.count();
        Tally {
            last: Some(rdf),
            count: self.count + rdf.count(),
            compared: self.compared_with(form, layout, bytes, at, rdf),
            room,
            passed: self.passed_at(form, bytes.len(), room, at),
        }
    }

    /// The comparison with one more RDF or pair. A slot that the block has no place for is not
    /// compared: the block should not have its RDF.
    fn compared_with(
        self,
        form: Form,
        layout: Layout,
        bytes: &[u8],
        at: usize,
        rdf: Rdf,
    ) -> Compared
        requires layout { IsLayout form (length bytes.now) (free_end bytes.now) layout }
        requires size { 10 ≤ length bytes.now }
        requires small { length bytes.now ≤ 32768 }
        requires place { at < 2 ^ 32 }
        requires span { self.compared.span < 2 ^ 48 }
        ensures compared { (rdfs : List Rdf) → StandFrom form bytes.now (rdfs ++ rdf ∷ []) at
            → IsTally form bytes.now rdfs self
            → IsCompared bytes.now
            (data_end form (length bytes.now) (free_end bytes.now)
            (shape_of (rdfs ++ rdf ∷ [])))
            (judged form (length bytes.now) (rdfs ++ rdf ∷ [])) result }
        ensures span { result.span ≤ self.compared.span + 2 ^ 32 }
    {
        let limit = layout.data_end(bytes.len(), Some(rdf));
        match layout.length_meant(form, bytes.len(), self.count, rdf) {
            Some(length) => self.compared.with(bytes, limit, at, rdf, length),
            None => self.compared,
        }
    }

    /// The RDF or pair that passes the room, with one at `at`: only plain records have a room of
    /// their own.
    fn passed_at(self, form: Form, size: usize, room: usize, at: usize) -> Option<usize>
        requires { 4 ≤ size }
        ensures slots { (len : ℕ) → form ≡ Slots len → result ≡ self.passed }
        ensures kept { IsSome self.passed → result ≡ self.passed }
        ensures passes { form ≡ Plain → IsNone self.passed → size - 4 < room → result ≡ Some at }
        ensures fits { IsNone self.passed → room ≤ size - 4 → result ≡ None }
    {
        if form == Form::Plain && self.passed.is_none() && room > size - 4 {
            return Some(at);
        }
        self.passed
    }
}
