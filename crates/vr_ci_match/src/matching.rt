//! What a block holds that its RDFs describe, or its first fault.

ghost use Rattle.std.specs.Prelude.{◌≡◌, ◌≢◌, ◌+◌, ◌-◌, ◌*◌, ◌/◌, ◌^◌, ◌<◌, ◌≤◌, ℕ, List, length};
ghost use Rattle.std.specs.Prelude.{Some, IfOk, IfErr, IfSome, IfNone, MatchOption};
ghost use Rattle.vr_ci_match.specs.Rdf.{MayFollow, shape_by};
ghost use Rattle.vr_ci_match.specs.Fault.{displacement, free_length, free_end, cidf_at, is_busy};
ghost use Rattle.vr_ci_match.specs.Fault.{HasZeroCidf, IsBroken, IsWhole, IsFirstMismatch};
ghost use Rattle.vr_ci_match.specs.Fault.{HasRightLengths, HasWrongLengths};
ghost use Rattle.vr_ci_match.specs.Layout.{IsLayout};
ghost use Rattle.vr_ci_match.specs.Tally.{IsTally};
ghost use Rattle.vr_ci_match.specs.Matched.{IsMatched};

use crate::cidf::Cidf;
use crate::compare::first_nonzero;
use crate::fault::CiFault;
use crate::form::{Form, Shape};
use crate::layout::Layout;
use crate::rdf::{Rdf, unit_before};
use crate::tally::Tally;

/// What a block was found to hold, and where its RDFs begin.
#[derive(Clone, Copy)]
pub struct Found {
    pub shape: Shape,
    pub count: usize,
    pub low: usize,
    pub busy: bool,
}

/// What the block holds, or its first fault. It answers Ok exactly for the blocks that their RDFs,
/// their records' bytes and their busy flag describe, with their records in the block's room, and
/// for those that are all zeros. Whether blocks may have this size is for the caller to test: here
/// any of 512 to 32,768 bytes will do.
pub fn match_block(form: Form, bytes: &[u8]) -> Result<Found, CiFault>
    requires least { 512 ≤ length bytes.now }
    requires most { length bytes.now ≤ 32768 }
    ensures found { IfOk result (IsMatched form bytes.now) }
    ensures fault { IfErr result (IsFirstMismatch form bytes.now) }
{
    let top = bytes.len() - 4;
    let cidf = Cidf::of(bytes);
    if cidf.is_zero() {
        return end_of_file(form, bytes);
    }
    let low = cidf.displacement + cidf.free;
    if low > top {
        return Err(CiFault::Cidf { at: top });
    }
    let layout = Layout::of(form, bytes.len(), low);
    let tally = chain_of(form, layout, bytes)?;
    match lengths_fault(form, layout, bytes, tally, cidf) {
        Some(at) => Err(CiFault::Lengths { at }),
        None => Ok(Found {
            shape: shape_of(tally.last),
            count: tally.count,
            low,
            busy: cidf.busy,
        }),
    }
}

/// What a block holds whose last RDF is this one.
fn shape_of(last: Option<Rdf>) -> Shape
    ensures { result ≡ shape_by last }
{
    match last {
        Some(Rdf::Segment { piece, number, .. }) => Shape::Segment { piece, number },
        _ => Shape::Records,
    }
}

/// An end of file, where the CIDF is zero.
fn end_of_file(form: Form, bytes: &[u8]) -> Result<Found, CiFault>
    requires least { 512 ≤ length bytes.now }
    requires zero { HasZeroCidf bytes.now }
    ensures found { IfOk result (IsMatched form bytes.now) }
    ensures fault { IfErr result (IsFirstMismatch form bytes.now) }
{
    let top = bytes.len() - 4;
    match first_nonzero(bytes, 0, top) {
        Some(_) => Err(CiFault::Cidf { at: top }),
        None => Ok(Found {
            shape: Shape::EndOfFile,
            count: 0,
            low: top,
            busy: false,
        }),
    }
}

/// All RDFs from where the CIDF says that they begin, or the first that no block of the form has
/// there.
fn chain_of(form: Form, layout: Layout, bytes: &[u8]) -> Result<Tally, CiFault>
    requires least { 512 ≤ length bytes.now }
    requires most { length bytes.now ≤ 32768 }
    requires layout { IsLayout form (length bytes.now) (free_end bytes.now) layout }
    requires fits { free_end bytes.now ≤ cidf_at bytes.now }
    ensures tally { IfOk result
        (λ tally. (rdfs : List Rdf) × IsWhole form bytes.now rdfs
        × IsTally form bytes.now rdfs tally) }
    ensures bounds { IfOk result
        (λ tally. (tally.compared.span ≤ 2 ^ 47) × (tally.compared.from ≤ cidf_at bytes.now)) }
    ensures fault { IfErr result
        (λ fault. (at : ℕ) × (fault ≡ CiFault.Chain at) × IsBroken form bytes.now at) }
{
    let mut tally = Tally::new(bytes.len());
    let mut end = bytes.len() - 4;
    'rdfs: while layout.low + 3 <= end {
        let (at, read) = unit_before(bytes, layout.low, end);
        let Some(rdf) = rdf_behind(form, tally.last, read) else {
            return Err(CiFault::Chain { at });
        };
        tally = tally.with(form, layout, bytes, at, rdf);
        end = at;
    }
    Ok(tally)
}

/// What was read, if some block of the form has it to the left of `before`.
fn rdf_behind(form: Form, before: Option<Rdf>, read: Option<Rdf>) -> Option<Rdf>
    ensures found { IfSome result (λ r. (read ≡ Some r) × MayFollow form before r) }
    ensures none { IfNone result ((r : Rdf) → read ≡ Some r → MayFollow form before r → ⊥) }
{
    let rdf = read?;
    if rdf.may_follow(form, before) {
        Some(rdf)
    } else {
        None
    }
}

/// What is wrong with the lengths: what the RDFs and their records were found to have wrong, and
/// what is looked at now, which is the bytes and RDF places of slots without an RDF, the free space
/// and the CIDF.
fn lengths_fault(
    form: Form,
    layout: Layout,
    bytes: &[u8],
    tally: Tally,
    field: Cidf,
) -> Option<usize>
    requires least { 512 ≤ length bytes.now }
    requires most { length bytes.now ≤ 32768 }
    requires layout { IsLayout form (length bytes.now) (free_end bytes.now) layout }
    requires span { tally.compared.span ≤ 2 ^ 47 }
    requires from { tally.compared.from ≤ cidf_at bytes.now }
    requires displacement { field.displacement ≡ displacement bytes.now }
    requires free { field.free ≡ free_length bytes.now }
    requires busy { field.busy ≡ is_busy bytes.now }
    ensures { (rdfs : List Rdf) → IsWhole form bytes.now rdfs → IsTally form bytes.now rdfs tally
        → MatchOption result (HasRightLengths form bytes.now rdfs)
        (HasWrongLengths form bytes.now rdfs) }
{
    let limit = layout.data_end(bytes.len(), tally.last);
    if let Some(at) = tally.compared.data_difference(bytes, limit) {
        return Some(at);
    }
    let empty = tally.compared.from.saturating_sub(limit) / 3;
    let slot_length = form.slot_length();
    if let Some(at) = tally
        .compared
        .control_difference(bytes, limit, empty, slot_length)
    {
        return Some(at);
    }
    let span = tally.compared.span + empty * slot_length;
    field
        .difference(bytes.len() - 4, span, limit.saturating_sub(span))
        .or(tally.passed)
}
