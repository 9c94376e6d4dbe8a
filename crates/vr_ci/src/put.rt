//! Writing the parts of a control interval into a block.

ghost use Rattle.std.specs.Prelude.{◌≡◌, ◌+◌, ◌-◌, ◌<◌, ◌≤◌, ◌↔◌, ℕ, length, drop, take, replicate};
ghost use Rattle.std.specs.Prelude.{IsTrue};
ghost use Rattle.vr_ci_match.specs.Rdf.{two_bytes, rdf_bytes, segment_bits, withdrawn_bit};
ghost use Rattle.vr_ci_match.specs.Laid.{cidf};
ghost use Rattle.vr_ci.specs.Writer.{written, run_rdf, run_started};
ghost use Rattle.vr_types.specs.Fields.{with_bytes};

use vr_ci_match::{Form, Piece, Rdf};
use vr_types::put_two;

/// The bytes of an item, or zeros where it is not live.
pub(crate) fn put_item(out: &mut [u8], at: usize, item: &[u8], live: bool)
    requires { at + length item.now ≤ length out.old }
    ensures { out.new ≡ with_bytes out.old at (written item.now live).bytes }
{
    let end = at + item.len();
    if live {
        out[at..end].copy_from_slice(item);
    } else {
        out[at..end].fill(0);
    }
}

/// Zeros between two places.
pub(crate) fn put_zeros(out: &mut [u8], from: usize, to: usize)
    requires order { from ≤ to }
    requires within { to ≤ length out.old }
    ensures { out.new ≡ with_bytes out.old from (replicate (to - from) 0) }
{
    out[from..to].fill(0);
}

/// A number in two bytes.
#[tactic(auto, using(crate::proofs::PlaceLemmas::two_is))]
fn put_number(out: &mut [u8], at: usize, number: u16)
    requires { at + 2 ≤ length out.old }
    ensures { out.new ≡ with_bytes out.old at (two_bytes number) }
{
    put_two(out, at, number);
}

/// An RDF, or a pair.
pub(crate) fn put_rdf(out: &mut [u8], at: usize, rdf: Rdf)
    requires { at + length (rdf_bytes rdf) ≤ length out.old }
    ensures { out.new ≡ with_bytes out.old at (rdf_bytes rdf) }
{
    match rdf {
        Rdf::Single { live, length } => {
            out[at] = if live { 0x00 } else { 0x04 };
            put_number(out, at + 1, length);
        }
        Rdf::Run { length, count } => {
            out[at] = 0x08;
            put_number(out, at + 1, count);
            out[at + 3] = 0x40;
            put_number(out, at + 4, length);
        }
        Rdf::Segment {
            piece,
            live,
            number,
            length,
        } => {
            let bits = segment_bits(piece, live);
            out[at] = 0x08 + bits;
            put_number(out, at + 1, number);
            out[at + 3] = 0x40 + bits;
            put_number(out, at + 4, length);
        }
    }
}

/// The bits that both RDFs of a segment have.
fn segment_bits(piece: Piece, live: bool) -> u8
    ensures { result ≡ segment_bits piece + withdrawn_bit live }
{
    let bits = match piece {
        Piece::First => 0x10,
        Piece::Inner => 0x30,
        Piece::Last => 0x20,
    };
    if live { bits } else { bits + 0x04 }
}

/// Makes the RDF or pair at `at`, of `count` live records, one of one record more, and says where
/// that begins.
pub(crate) fn extend_run(out: &mut [u8], at: usize, count: usize) -> usize
    requires some { 0 < count }
    requires few { count < 65535 }
    requires place { 3 ≤ at }
    requires within { at + 3 ≤ length out.old }
    ensures place { (result ≤ at) × (at ≤ result + 3) }
    ensures length { length out.new ≡ length out.old }
    ensures run { (n : ℕ)
        → take (length (rdf_bytes (run_rdf n count))) (drop at out.old) ≡ rdf_bytes
        (run_rdf n count)
        → (result + 6 ≡ at + length (rdf_bytes (run_rdf n count)))
        × (out.new ≡ with_bytes out.old result (rdf_bytes (run_rdf n (count + 1)))) }
{
    if count == 1 {
        out[at] = 0x40;
        out[at - 3] = 0x08;
        put_number(out, at - 2, 2);
        at - 3
    } else {
        put_number(out, at + 1, count as u16 + 1);
        at
    }
}

/// The CIDF.
pub(crate) fn put_cidf(out: &mut [u8], displacement: usize, free: usize, busy: bool)
    requires size { 4 ≤ length out.old }
    requires displacement { displacement < 65536 }
    requires free { free < 32768 }
    ensures { out.new ≡ with_bytes out.old (length out.old - 4) (cidf displacement free busy) }
{
    let at = out.len() - 4;
    let field = if busy { free + 32_768 } else { free };
    put_number(out, at, displacement as u16);
    put_number(out, at + 2, field as u16);
}

/// Whether a record goes on with a run.
pub(crate) fn goes_on(live: bool, length: u16, run_length: u16, run_count: usize) -> bool
    ensures { IsTrue result ↔ (IsTrue live × (0 < run_count) × (run_length ≡ length)) }
{
    live && run_count > 0 && run_length == length
}

/// How many records a run begins with, if a live one begins it.
pub(crate) fn run_started(form: Form, live: bool) -> usize
    ensures { result ≡ run_started form live }
{
    match (form, live) {
        (Form::Plain, true) => 1,
        _ => 0,
    }
}
