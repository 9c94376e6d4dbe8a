//! The parts of a volume, each with its number.
ghost use Rattle.std.specs.Prelude.{◌≡◌, ◌==◌};
ghost use Rattle.std.specs.List.{position};

use vr_types::PartNo;

/// A part with its number.
#[derive(Drop)]
pub struct Laid<P> {
    pub number: PartNo,
    pub part: P,
}

/// The place of the first part of a number, None exactly where there is none.
pub(crate) fn index_of<P>(parts: &[Laid<P>], number: PartNo) -> Option<usize>
    ensures { result ≡ position (λ laid. laid.number.0 == number.0) parts.now }
{
    for (at, laid) in parts.iter().enumerate() {
        if laid.number.0 == number.0 {
            return Some(at);
        }
    }
    None
}
