//! Whether the intervals of an area have room for what is kept.
ghost use Rattle.std.specs.Prelude.{◌≡◌, ◌<◌, ◌↔◌, ℕ, IsTrue, IfOk, Some, length};
ghost use Rattle.std.specs.List.{slice_get};
ghost use Rattle.vr_types.specs.Image.{block_at};
ghost use Rattle.vr_types.specs.Blocks.{Keeps};
ghost use Rattle.vr_types.specs.Faults.{HasCause};
ghost use Rattle.vr_space.specs.AreaCalls.{area_part, HasRoomHere, IsAreaOn};
ghost use Rattle.vr_space.specs.Keyed.{HoldsRange, InArea, IsHead, entries_of};
ghost use Rattle.vr_space.specs.Lent.{range_lent};
ghost use Rattle.vr_attach.specs.Damage.{HoldsNth};
ghost use Rattle.vr_keyed.specs.Lent.{ArePlaces, HasRoomFor};
ghost use Rattle.vr_keyed.specs.Look.{AreaStands};
ghost use Rattle.vr_keyed.specs.Rooms.{HasRoomIn, HasRoomNth, HaveRoomsAll};

use crate::gather::has_kept_room;
use vr_space::{Kept, Layout, LentRange, entry_at, entry_count, read_block};
use vr_split::Weights;
use vr_types::{Blocks, DeviceFault};

/// Whether the interval of a block has room for what is kept for its range.
fn has_room_in<B: Blocks, K: Kept>(
    blocks: &mut B,
    layout: &Layout,
    number: u32,
    range: &LentRange<'_>,
    kept: &K,
    weights: &mut Weights,
) -> Result<bool, DeviceFault>
    requires on { IsAreaOn layout.now (B.seen blocks.old) }
    requires inside { InArea layout.now number }
    requires kept { ArePlaces layout.now.key (K.kept kept.now (area_part layout.now)) }
    requires weights { HasRoomFor layout.now weights.old }
    ensures room { IsTrue B.tells → HoldsRange layout.now (range_lent range.now)
        (block_at (B.seen blocks.old).cur number) → IfOk result (λ is. IsTrue is
        ↔ HasRoomIn layout.now (K.kept kept.now (area_part layout.now))
        (range_lent range.now) (block_at (B.seen blocks.old).cur number)) }
    ensures weights { HasRoomFor layout.now weights.new }
    ensures keeps { Keeps B.tells (B.seen blocks.old) (B.seen blocks.new) }
    ensures cause { HasCause (B.faults blocks.old) (B.faults blocks.new) result }
{
    let block = blocks.get(number)?;
    Ok(has_kept_room(layout, range, block, kept, weights))
}

/// Whether the interval of the entry of a number has room for what is kept for its range.
fn has_room_at<B: Blocks, K: Kept>(
    blocks: &mut B,
    layout: &Layout,
    top: &[u8],
    number: usize,
    kept: &K,
    weights: &mut Weights,
) -> Result<bool, DeviceFault>
    requires on { IsAreaOn layout.now (B.seen blocks.old) }
    requires kept { ArePlaces layout.now.key (K.kept kept.now (area_part layout.now)) }
    requires weights { HasRoomFor layout.now weights.old }
    requires head { IsTrue B.tells → IsHead layout.now top.now }
    requires within { IsTrue B.tells → number < length (entries_of top.now) }
    requires holds { IsTrue B.tells
        → HoldsNth layout.now top.now (B.seen blocks.old).cur number }
    ensures room { IsTrue B.tells → IfOk result (λ is. IsTrue is
        ↔ HasRoomNth layout.now (K.kept kept.now (area_part layout.now)) top.now
        (B.seen blocks.old).cur number) }
    ensures weights { HasRoomFor layout.now weights.new }
    ensures keeps { Keeps B.tells (B.seen blocks.old) (B.seen blocks.new) }
    ensures cause { HasCause (B.faults blocks.old) (B.faults blocks.new) result }
{
    let Some(found) = entry_at(layout, top, number) else {
        return Ok(true);
    };
    let range = LentRange {
        low: found.low,
        high: found.high,
    };
    has_room_in(
        blocks,
        layout,
        layout.block_of(found.interval),
        &range,
        kept,
        weights,
    )
}

/// Whether the interval of each entry of a head has room for what is kept for its range.
fn have_rooms<B: Blocks, K: Kept>(
    blocks: &mut B,
    layout: &Layout,
    top: &[u8],
    kept: &K,
    weights: &mut Weights,
) -> Result<bool, DeviceFault>
    requires on { IsAreaOn layout.now (B.seen blocks.old) }
    requires kept { ArePlaces layout.now.key (K.kept kept.now (area_part layout.now)) }
    requires weights { HasRoomFor layout.now weights.old }
    requires head { IsTrue B.tells → IsHead layout.now top.now }
    requires holds { IsTrue B.tells → (i : ℕ) → i < length (entries_of top.now)
        → HoldsNth layout.now top.now (B.seen blocks.old).cur i }
    ensures rooms { IsTrue B.tells → IfOk result (λ is. IsTrue is
        ↔ HaveRoomsAll layout.now (K.kept kept.now (area_part layout.now)) top.now
        (B.seen blocks.old).cur) }
    ensures weights { HasRoomFor layout.now weights.new }
    ensures keeps { Keeps B.tells (B.seen blocks.old) (B.seen blocks.new) }
    ensures cause { HasCause (B.faults blocks.old) (B.faults blocks.new) result }
{
    let count = entry_count(layout, top).unwrap_or(0);
    for i in 0..count {
        let has = has_room_at(blocks, layout, top, i, kept, weights)?;
        if !has {
            return Ok(false);
        }
    }
    Ok(true)
}

/// Whether each interval of an area has room for what is kept for its range, beside its records. It
/// reads the head into a buffer, and each interval of an entry once.
pub(crate) fn rooms_in<B: Blocks, K: Kept>(
    blocks: &mut B,
    layout: &Layout,
    kept: &K,
    top: &mut [u8],
    weights: &mut Weights,
) -> Result<bool, DeviceFault>
    requires on { IsAreaOn layout.now (B.seen blocks.old) }
    requires top { length top.old ≡ layout.now.size }
    requires kept { ArePlaces layout.now.key (K.kept kept.now (area_part layout.now)) }
    requires weights { HasRoomFor layout.now weights.old }
    requires stands { IsTrue B.tells → AreaStands layout.now (B.seen blocks.old).cur }
    ensures rooms { IsTrue B.tells → IfOk result (λ is. IsTrue is
        ↔ HasRoomHere layout.now (K.kept kept.now (area_part layout.now))
        (B.seen blocks.old).cur) }
    ensures weights { HasRoomFor layout.now weights.new }
    ensures keeps { Keeps B.tells (B.seen blocks.old) (B.seen blocks.new) }
    ensures cause { HasCause (B.faults blocks.old) (B.faults blocks.new) result }
{
    read_block(blocks, layout.head, top)?;
    have_rooms(blocks, layout, top, kept, weights)
}
