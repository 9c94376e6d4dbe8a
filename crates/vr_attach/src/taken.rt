//! Areas that are taken for a part, one by one.
ghost use Rattle.std.specs.Prelude.{◌≡◌, ◌<◌, ◌+◌, Some, None, IsTrue, false, length};
ghost use Rattle.std.specs.Prelude.{slice_index_or, slice_set};
ghost use Rattle.vr_types.specs.Space.{free_count};
ghost use Rattle.vr_attach.specs.Marked.{IsTakenIn};

use vr_types::{AreaNo, PartNo, Space};

/// Makes the part the owner of an area; whether that was free. Who owns an area is not told, so
/// this counts those that are free.
pub fn take_area(taken: &mut Space, area: u32, part: PartNo) -> bool
    requires { area < length taken.old }
    ensures taken { taken.new ≡ slice_set taken.old area (Some part) }
    ensures free { IsTrue result → slice_index_or taken.old area None ≡ None }
    ensures fewer { IsTrue result → free_count taken.new + 1 ≡ free_count taken.old }
    ensures owned { result ≡ false → IsTakenIn taken.old area }
{
    let before = taken.free();
    taken.mark(AreaNo(area), part);
    taken.free() < before
}
