//! One before-image that is kept, or none.
ghost use Rattle.std.specs.Prelude.{◌≡◌};
ghost use Rattle.vr_space.specs.Whence.{allows};

use std::cmp::Ordering;
use vr_space::{Kept, Whence};
use vr_types::{PartNo, Place};

/// What is kept for the part: nothing, or a record of this length at this place.
#[derive(Drop)]
pub enum OneKept {
    Nothing,
    One(Place, u32),
}

impl Kept for OneKept {
    ghost use Rattle.vr_keyed_cases.specs.OneKept.{lengths_kept, one_ascends};

    ghost kept = { λ kept part. lengths_kept kept };

    ghost ascend = { λ kept part. one_ascends kept };

    fn longest(&self, _part: PartNo, place: &Place) -> Option<u32> {
        match self {
            OneKept::Nothing => None,
            OneKept::One(at, length) => match place.as_slice().cmp(at.as_slice()) {
                Ordering::Equal => Some(*length),
                _ => None,
            },
        }
    }

    fn next_kept(&self, _part: PartNo, from: Whence<'_>) -> Option<&Place> {
        match self {
            OneKept::Nothing => None,
            OneKept::One(at, _) => { if is_allowed(from, at) { Some(at) } else { None } }
        }
    }
}

/// Whether a search may find the place.
fn is_allowed(from: Whence<'_>, place: &Place) -> bool
    ensures { result ≡ allows from.entry place.now }
{
    match from {
        Whence::Start => true,
        Whence::At(least) => least.as_slice().cmp(place.as_slice()).is_le(),
        Whence::After(last) => last.as_slice().cmp(place.as_slice()).is_lt(),
        Whence::Above(low) => low.cmp(place.as_slice()).is_lt(),
    }
}
