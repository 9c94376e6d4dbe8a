//! Before-images that are kept for the places of parts, as the layer below sees them.
ghost use Rattle.std.specs.Prelude.{◌≡◌, MatchOption, None, Some};
ghost use Rattle.vr_types.specs.declared.unit.PartNo.{PartNo};
ghost use Rattle.vr_space.specs.Room.{Lengths, AscendLengths, length_at};
ghost use Rattle.vr_space.specs.Whence.{first_allowed, places_kept};

use crate::whence::Whence;
use vr_types::{PartNo, Place};

/// Records that are kept, so that they may be put back, and for which a part keeps room.
pub trait Kept {
    /// The places of a part with a kept record, and the length of the longest at each.
    ghost kept: { Self → PartNo → Lengths };

    /// The places ascend.
    ghost ascend: { (kept : Self) (part : PartNo) → AscendLengths (Self.kept kept part) };

    /// The length of the longest record that is kept for the place, None exactly where none is.
    fn longest(&self, part: PartNo, place: &Place) -> Option<u32>
        ensures { result ≡ length_at (kept self.now part) place.now };

    /// The least place with a kept record that `from` allows, None exactly where there is none.
    fn next_kept(&self, part: PartNo, from: Whence<'_>) -> Option<&Place>
        ensures { MatchOption result
            (first_allowed from.entry (places_kept (kept self.now part)) ≡ None)
            (λ place. first_allowed from.entry (places_kept (kept self.now part))
            ≡ Some place.now) };
}
