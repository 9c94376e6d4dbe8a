//! Record definition fields: reading one, or two that are paired, and what they say.

ghost use Rattle.std.specs.Prelude.{◌≡◌, ◌≢◌, ◌+◌, ◌^◌, ◌<◌, ◌≤◌, ◌↔◌, ◌-◌, ◌∷◌, ◌++◌, length};
ghost use Rattle.std.specs.Prelude.{drop, take, IsTrue, IfSome, IfNone};
ghost use Rattle.vr_ci_match.specs.Compare.{Compares};
ghost use Rattle.vr_ci_match.specs.Rdf.{marks, span, two_bytes, rdf_bytes, IsRdf, MayFollow};
ghost use Rattle.vr_ci_match.specs.Rdf.{run_length, record_length};
ghost use Rattle.vr_ci_match.specs.Tally.{with_length};
ghost use Rattle.vr_ci_match.specs.Fault.{IsUnit, is_live};

use crate::compare::number_apart;
use crate::form::{Form, Piece};

/// What one RDF says, or two that are paired.
#[derive(Clone, Copy)]
pub enum Rdf {
    /// One record of this length, live or withdrawn.
    Single {
        live: bool,
        length: u16,
    },
    /// A run of `count` neighbouring live records of one length.
    Run {
        length: u16,
        count: u16,
    },
    /// A segment of a spanned record.
    Segment {
        piece: Piece,
        live: bool,
        number: u16,
        length: u16,
    },
}

impl Rdf {
    /// How many records it is of.
    pub(crate) fn count(self) -> usize
        ensures count { result ≡ length (marks self) }
        ensures small { result < 65536 }
    {
        match self {
            Rdf::Single { .. } | Rdf::Segment { .. } => 1,
            Rdf::Run { count, .. } => usize::from(count),
        }
    }

    /// The length of each of its records.
    pub(crate) fn length(self) -> usize
        ensures { result ≡ record_length self }
    {
        match self {
            Rdf::Single { length, .. } | Rdf::Run { length, .. } | Rdf::Segment { length, .. } => {
                usize::from(length)
            }
        }
    }

    /// How many bytes its records have.
    pub(crate) fn span(self) -> usize
        ensures { result ≡ span self }
    {
        match self {
            Rdf::Single { length, .. } | Rdf::Segment { length, .. } => usize::from(length),
            Rdf::Run { length, count } => usize::from(length) * usize::from(count),
        }
    }

    /// Whether its records are live.
    pub(crate) fn is_live(self) -> bool
        ensures { result ≡ is_live self }
    {
        match self {
            Rdf::Single { live, .. } | Rdf::Segment { live, .. } => live,
            Rdf::Run { .. } => true,
        }
    }

    /// The first byte in which it differs from the same RDF or pair with this length, where its
    /// leftmost byte is at `at`.
    pub(crate) fn length_difference(self, at: usize, wanted: usize) -> Option<usize>
        requires { at < 2 ^ 32 }
        ensures { Compares at (rdf_bytes self) (rdf_bytes (with_length self wanted)) result }
    {
        match self {
            Rdf::Single { .. } => number_apart(at + 1, self.length(), wanted),
            Rdf::Run { .. } | Rdf::Segment { .. } => number_apart(at + 4, self.length(), wanted),
        }
    }

    /// The length of the live records that a run could go on with.
    fn run_length(self) -> Option<u16>
        ensures { result ≡ run_length self }
    {
        match self {
            Rdf::Single { live: true, length } | Rdf::Run { length, .. } => Some(length),
            _ => None,
        }
    }

    /// Whether it may stand to the left of `before`, or at the right end where there is none.
    pub(crate) fn may_follow(self, form: Form, before: Option<Rdf>) -> bool
        ensures { IsTrue result ↔ MayFollow form before self }
    {
        if form != Form::Plain && matches!(self, Rdf::Run { .. }) {
            return false;
        }
        let Some(before) = before else { return true };
        match (before, self) {
            (Rdf::Segment { .. }, _) | (_, Rdf::Segment { .. }) => false,
            _ => match (form, before.run_length(), self.run_length()) {
                (Form::Plain, Some(one), Some(other)) => one != other,
                _ => true,
            },
        }
    }
}

/// Where what ends before `end` begins, and what it says, if some block has it: an RDF with X'40'
/// is paired with the one to its left, if `low` leaves place for one.
pub(crate) fn unit_before(bytes: &[u8], low: usize, end: usize) -> (usize, Option<Rdf>)
    requires place { low + 3 ≤ end }
    requires within { end ≤ length bytes.now }
    ensures place { IsUnit low bytes.now end result.0 }
    ensures found { IfSome result.1
        (λ r. IsRdf r × (take (end - result.0) (drop result.0 bytes.now) ≡ rdf_bytes r)) }
    ensures none { IfNone result.1
        ((r : Rdf) → IsRdf r → take (end - result.0) (drop result.0 bytes.now) ≢ rdf_bytes r) }
{
    let flags = bytes[end - 3];
    let length = u16::from_be_bytes([bytes[end - 2], bytes[end - 1]]);
    if end - low >= 6 && flags & 0x40 != 0 {
        let left = bytes[end - 6];
        let number = u16::from_be_bytes([bytes[end - 5], bytes[end - 4]]);
        return (end - 6, pair_of(left, number, flags, length));
    }
    (end - 3, single_of(flags, length))
}

/// An RDF that is not paired.
fn single_of(flags: u8, length: u16) -> Option<Rdf>
    ensures found { IfSome result (λ r. IsRdf r × (flags ∷ two_bytes length ≡ rdf_bytes r)) }
    ensures none { IfNone result ((r : Rdf) → IsRdf r → flags ∷ two_bytes length ≢ rdf_bytes r) }
{
    match flags {
        _ if length == 0 => None,
        0x00 => Some(Rdf::Single { live: true, length }),
        0x04 => Some(Rdf::Single {
            live: false,
            length,
        }),
        _ => None,
    }
}

/// A pair: a count or an update number to the left of a length.
fn pair_of(left: u8, number: u16, right: u8, length: u16) -> Option<Rdf>
    ensures found { IfSome result
        (λ r. IsRdf r × (left ∷ two_bytes number ++ right ∷ two_bytes length ≡ rdf_bytes r)) }
    ensures none { IfNone result
        ((r : Rdf) → IsRdf r → left ∷ two_bytes number ++ right ∷ two_bytes length ≢ rdf_bytes r) }
{
    if length == 0 || number == 0 {
        return None;
    }
    let (piece, live) = match (left, right) {
        (0x08, 0x40) if number >= 2 => {
            return Some(Rdf::Run {
                length,
                count: number,
            });
        }
        (0x18, 0x50) => (Piece::First, true),
        (0x1C, 0x54) => (Piece::First, false),
        (0x38, 0x70) => (Piece::Inner, true),
        (0x3C, 0x74) => (Piece::Inner, false),
        (0x28, 0x60) => (Piece::Last, true),
        (0x2C, 0x64) => (Piece::Last, false),
        _ => return None,
    };
    Some(Rdf::Segment {
        piece,
        live,
        number,
        length,
    })
}
