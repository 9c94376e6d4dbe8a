//! What LISTCAT leaves.
ghost use Rattle.std.specs.Prelude.{◌≡◌, map, IfOk};
ghost use Rattle.vr_ams_list.specs.Outcomes as stated;

use crate::fault::list_failure;
use crate::listing::detail_lines;
use std::alloc::Global;
use vr_trace::{Outcome, ShownVolume, refused};
use vr_types::{Name, OutOfMemory};

/// LISTCAT with NAME, of these names, or of all entries where there is none. Out of memory is its
/// one error.
pub fn list_entries<V: ShownVolume>(
    alloc: Global,
    volumes: &[V],
    names: &[Name],
) -> Result<Outcome, OutOfMemory>
    ensures { IfOk result (λ outcome.
        outcome ≡ stated.listed (map V.shown volumes.now) names.now) }
{
    match list_failure(volumes, names) {
        Some(failure) => Ok(refused(alloc, failure)),
        None => Ok(Outcome {
            lines: detail_lines(alloc, volumes, names)?,
            code: 0,
            fault: None,
        }),
    }
}
