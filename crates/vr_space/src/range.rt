//! Ranges of places that are lent.
ghost use Rattle.std.specs.Prelude.{◌≡◌, ℕ, List};
ghost use Rattle.std.specs.Borrow.{Bor};
ghost use Rattle.std.specs.Option.{option_map};
ghost use Rattle.vr_space.specs.Lent.{range_lent};
ghost use Rattle.vr_space.specs.Room as room;

/// A range of places: above the low one, where there is one, and up to the high one.
#[derive(Clone, Copy)]
pub struct LentRange<'a> {
    pub low: Option<&'a [u8]>,
    pub high: &'a [u8],
}

/// Whether a place is above another, where there is one.
pub(crate) fn is_above(low: Option<&[u8]>, place: &[u8]) -> bool
    ensures { result ≡ room.is_above (option_map (λ (low : Bor (List ℕ)). low.now) low.entry)
        place.now }
{
    match low {
        None => true,
        Some(low) => low.cmp(place).is_lt(),
    }
}

/// Whether a place is in a range.
pub fn is_in(range: &LentRange<'_>, place: &[u8]) -> bool
    ensures { result ≡ room.is_in (range_lent range.now) place.now }
{
    is_above(range.low, place) && place.cmp(range.high).is_le()
}
