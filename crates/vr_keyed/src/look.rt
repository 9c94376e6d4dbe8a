//! Looking at the record of a place.
ghost use Rattle.std.specs.Prelude.{◌≡◌, ℕ, Some, None, IsTrue, length, IfOk, MatchOption};
ghost use Rattle.std.specs.Borrow.{sem};
ghost use Rattle.std.specs.Io.BufRead.{Rests};
ghost use Rattle.vr_types.specs.Image.{block_at};
ghost use Rattle.vr_types.specs.Blocks.{Keeps};
ghost use Rattle.vr_types.specs.Faults.{HasCause};
ghost use Rattle.vr_space.specs.AreaCalls.{IsAreaOn, read_here};
ghost use Rattle.vr_space.specs.Keyed.{InArea, IsHead};
ghost use Rattle.vr_keyed.specs.Look.{AreaStands, HasEntry, LeadsTo};

use vr_space::{Layout, entry_for, record_at};
use vr_types::{Blocks, DeviceFault};

/// The block of the interval that the head leads to from a place of the area.
fn block_for<B: Blocks>(blocks: &mut B, layout: &Layout, place: &[u8]) -> Result<u32, DeviceFault>
    requires on { IsAreaOn layout.now (B.seen blocks.old) }
    requires place { length place.now ≡ layout.now.key }
    requires head { IsTrue B.tells
        → IsHead layout.now (block_at (B.seen blocks.old).cur layout.now.head) }
    requires entry { IsTrue B.tells → HasEntry layout.now (B.seen blocks.old).cur place.now }
    ensures leads { IsTrue B.tells → IfOk result
        (LeadsTo layout.now (block_at (B.seen blocks.old).cur layout.now.head) place.now) }
    ensures inside { IfOk result (InArea layout.now) }
    ensures keeps { Keeps B.tells (B.seen blocks.old) (B.seen blocks.new) }
    ensures cause { HasCause (B.faults blocks.old) (B.faults blocks.new) result }
{
    let top = blocks.get(layout.head)?;
    match entry_for(layout, top, place) {
        Some(found) => Ok(layout.block_of(found.interval)),
        None => Ok(layout.head),
    }
}

/// Lends the record at a place of the area, by reading the head and one interval. The blocks come
/// first, since they lend it.
pub(crate) fn look_in<'a, B: Blocks>(
    blocks: &'a mut B,
    layout: &Layout,
    place: &[u8],
) -> Result<Option<&'a [u8]>, DeviceFault>
    requires on { IsAreaOn layout.now (B.seen blocks.old) }
    requires place { length place.now ≡ layout.now.key }
    requires stands { IsTrue B.tells → AreaStands layout.now (B.seen blocks.old).cur }
    requires entry { IsTrue B.tells → HasEntry layout.now (B.seen blocks.old).cur place.now }
    ensures item { IsTrue B.tells → IfOk result (λ found. MatchOption found
        (read_here layout.now (B.seen blocks.old).cur place.now ≡ None)
        (λ s. read_here layout.now (B.seen blocks.old).cur place.now
        ≡ Some s.now)) }
    ensures* after { sem 𝓛 (Rests B.row blocks.entry (λ new.
        Keeps B.tells (B.seen blocks.old) (B.seen new)
        × HasCause (B.faults blocks.old) (B.faults new) result)) }
{
    let number = block_for(blocks, layout, place)?;
    let block = blocks.get(number)?;
    Ok(record_at(layout, block, place))
}
