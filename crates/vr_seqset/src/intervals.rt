//! How many intervals of a keyed area are used.
ghost use Rattle.std.specs.Prelude.{◌≡◌};
ghost use Rattle.vr_seqset.specs.Numbers.{intervals_used};

/// How many intervals of a keyed area are used, in blocks of `size` bytes and with places of
/// `place` bytes, where the area has `cis`: no more than find room in the record, each in an entry
/// of its own. Interval numbers are below it.
pub fn interval_limit(cis: u16, size: usize, place: usize) -> usize
    ensures { result ≡ intervals_used cis size place }
{
    let room = size.saturating_sub(32).saturating_sub(place);
    if room == 0 {
        return 0;
    }
    (cis as usize).min(room / (4 + place))
}
