//! What other units of recovery may bring back.
ghost use Rattle.std.specs.Prelude.{◌≡◌, MatchOption};
ghost use Rattle.std.specs.Option.{option_copied};
ghost use Rattle.vr_undo.specs.Others.{IsLeastAllowed, NoneAllowed, others_in, place_other};
ghost use Rattle.vr_undo.specs.Order.{AreAlike, IsOrder};

use crate::kept::{Whose, first_place, place_allowed};
use crate::record::{KeptRecord, is_unit};
use crate::undo::Undo;
use vr_space::Whence;
use vr_types::{PartNo, Place, Unit};

impl Undo {
    /// The least place that `from` allows for which another unit keeps a before-image of a record:
    /// what stood there may come back. It takes no memory.
    pub fn next_other(&self, unit: Unit, part: PartNo, from: Whence<'_>) -> Option<&Place>
        ensures { MatchOption result
            (NoneAllowed from.entry (others_in unit part.0 self.now))
            (λ place. IsLeastAllowed from.entry (others_in unit part.0 self.now) place.now) }
    {
        other_in(self.records(), self.order(), unit, part, from)
    }
}

/// The least place of a record that another unit may bring back, of those that a search may find.
fn other_in<'a>(
    records: &'a [KeptRecord],
    order: &[usize],
    unit: Unit,
    part: PartNo,
    from: Whence<'_>,
) -> Option<&'a Place>
    requires alike { AreAlike records.now }
    requires order { IsOrder records.now order.now }
    ensures { MatchOption (option_copied result)
        (NoneAllowed from.entry (others_in unit part.0 records.now))
        (IsLeastAllowed from.entry (others_in unit part.0 records.now)) }
{
    first_place(records, order, Whose::Others(unit), part, from)
}

/// The place of another unit's before-image, where it is of the part, there was a record, and a
/// search may find it.
pub(crate) fn place_other<'a>(
    one: &'a KeptRecord,
    unit: Unit,
    part: PartNo,
    from: Whence<'_>,
) -> Option<&'a Place>
    ensures { option_copied result ≡ place_other unit part.0 from.entry one.now }
{
    if is_unit(unit, one.unit) {
        None
    } else {
        place_allowed(&one.kept, part, from)
    }
}
