//! The splits of a part that a history has.
ghost use Rattle.std.specs.Prelude.{◌≡◌, ◌<◌, ◌-◌, ◌^◌};
ghost use Rattle.vr_event.specs.Counts as counting;
ghost use Rattle.vr_event.specs.declared.splits.Splits as splitting;

use vr_history::{Entry, What};
use vr_types::{Kind, PartNo, Reply, Request, four_at};

/// How often a control interval and a control area of a part were split.
#[derive(Clone, Copy)]
pub struct Splits {
    pub intervals: u64,
    pub areas: u64,
}

/// Where the record of an entry has the number of its part, and where that ends.
const PART_AT: usize = 48;

const PART_END: usize = 52;

const NO_SPLITS: Splits = Splits {
    intervals: 0,
    areas: 0,
};

/// Whether the record of an entry of the catalog is of this part.
fn has_part(part: PartNo, bytes: &[u8]) -> bool
    ensures { result ≡ counting.has_part part.0 bytes.now }
{
    PART_END <= bytes.len() && four_at(bytes, PART_AT) == part.0
}

/// Whether a request adds the record of an entry of this part to the catalog.
fn adds_part(part: PartNo, request: &Request) -> bool
    ensures { result ≡ counting.adds_part part.0 request.now }
{
    match request {
        Request::Add { file, bytes, .. } => file.base.0 == 0 && has_part(part, bytes.as_slice()),
        _ => false,
    }
}

/// The splits of a part after a request that was answered. They are counted from the definition
/// that stands.
fn answered(part: PartNo, request: &Request, reply: &Reply, splits: Splits) -> Splits
    ensures { result ≡ counting.answered part.0 request.now reply.now splits }
{
    match reply {
        Reply::Done { .. } if adds_part(part, request) => NO_SPLITS,
        _ => splits,
    }
}

/// The splits of a part after an entry.
fn splits_after(part: PartNo, what: &What, splits: Splits) -> Splits
    requires intervals { splits.intervals < 2 ^ 64 - 1 }
    requires areas { splits.areas < 2 ^ 64 - 1 }
    ensures { result ≡ counting.splits_after part.0 what.now splits }
{
    match what {
        What::Asked { request, reply } => answered(part, request.get(), reply, splits),
        What::Claimed { part: of, .. } if of.0 == part.0 => Splits {
            intervals: splits.intervals,
            areas: splits.areas + 1,
        },
        What::Split { part: of } if of.0 == part.0 => Splits {
            intervals: splits.intervals + 1,
            areas: splits.areas,
        },
        _ => splits,
    }
}

/// The splits of a part that a history has, from where the definition that stands was entered on.
pub(crate) fn splits_of(part: PartNo, entries: &[Entry]) -> Splits
    ensures { result ≡ counting.splits_by part.0 counting.no_splits entries.now }
{
    let mut splits = NO_SPLITS;
    for entry in entries {
        splits = splits_after(part, &entry.what, splits);
    }
    splits
}

/// The splits of control areas of a cluster whose part took this many areas.
pub(crate) fn area_splits(kind: Option<Kind>, taken: u64) -> u64
    ensures { result ≡ counting.area_splits kind taken }
{
    match kind {
        Some(Kind::Keyed) => taken,
        Some(Kind::Entry | Kind::Relative) | None => 0,
    }
}
