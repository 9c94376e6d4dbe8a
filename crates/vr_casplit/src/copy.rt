//! Copying an interval that moves.
ghost use Rattle.std.specs.Prelude.{◌≡◌, ◌<◌, ℕ, List, IfErr, IsTrue, OnOk, Some, length};
ghost use Rattle.std.specs.Prelude.{slice_get};
ghost use Rattle.vr_types.specs.Blocks.{Keeps, Puts};
ghost use Rattle.vr_types.specs.Faults.{HasCause};
ghost use Rattle.vr_types.specs.Geometry.{area_count};
ghost use Rattle.vr_types.specs.Image.{block_at};
ghost use Rattle.vr_types.specs.declared.fault.DeviceFault.TheVariants.{Read};
ghost use Rattle.vr_seqset.specs.Entry.{Entry};
ghost use Rattle.vr_space.specs.Areas.{IsChainOn, KnowsAreas, area_of, intervals_in};
ghost use Rattle.vr_space.specs.Keyed.{IsHead, entries_of, entry_block};
ghost use Rattle.vr_space.specs.Owners.{Owners};
ghost use Rattle.vr_space.specs.Room.{Lengths};
ghost use Rattle.vr_space.specs.UnderWay.{interval_block};
ghost use Rattle.vr_casplit.specs.Growing.{IsGrowing, LeavesRecords, LeavesRest};

use vr_space::{KeyedLayout, entry_at, read_block};
use vr_types::{Blocks, DeviceFault};

/// Copies the interval of the entry of a number of an area, byte for byte, into interval `to` of
/// the area `into`, which no chain reaches yet. `top` is the head of the first, as it was read, and
/// `out` gets the bytes. It reads one block and puts one, and forces none. `Read` comes before
/// anything is put.
pub fn copy_entry<B: Blocks>(
    blocks: &mut B,
    layout: &KeyedLayout,
    area: u32,
    into: u32,
    top: &[u8],
    number: usize,
    to: u16,
    out: &mut [u8],
) -> Result<(), DeviceFault>
    requires on { IsChainOn layout.now (B.seen blocks.old) }
    requires area { area < area_count layout.now.geometry }
    requires into { into < area_count layout.now.geometry }
    requires head { IsHead (area_of layout.now area) top.now }
    requires number { number < length (entries_of top.now) }
    requires to { to < layout.now.geometry.area }
    requires out { length out.old ≡ layout.now.geometry.size }
    ensures read { IsTrue B.tells → OnOk result ((entry : Entry)
        → slice_get (entries_of top.now) number ≡ Some entry
        → out.new
        ≡ block_at (B.seen blocks.old).cur (entry_block (area_of layout.now area) entry)) }
    ensures done { IsTrue B.tells → OnOk result
        (block_at (B.seen blocks.new).cur (interval_block (area_of layout.now into) to) ≡ out.new) }
    ensures puts { Puts B.tells (interval_block (area_of layout.now into) to) out.new
        (B.seen blocks.old) (B.seen blocks.new) }
    // At every moment, whether it fails or not.
    ensures leaves { IsTrue B.tells → (owners : Owners) (kept : Lengths)
        → IsGrowing layout.now into owners kept (B.seen blocks.old)
        → LeavesRecords layout.now owners kept (B.seen blocks.old) (B.seen blocks.new)
        × LeavesRest layout.now owners (B.seen blocks.old) (B.seen blocks.new) }
    ensures knows { IsTrue B.tells → (owners : Owners) (kept : Lengths) (areas : List ℕ)
        (ends : List (List ℕ)) → IsGrowing layout.now into owners kept (B.seen blocks.old)
        → KnowsAreas layout.now areas ends (B.seen blocks.old).cur
        → KnowsAreas layout.now areas ends (B.seen blocks.new).cur }
    ensures counts { IsTrue B.tells → (owners : Owners) (kept : Lengths)
        → IsGrowing layout.now into owners kept (B.seen blocks.old)
        → intervals_in layout.now (B.seen blocks.new).cur
        ≡ intervals_in layout.now (B.seen blocks.old).cur }
    ensures unread { IfErr result (λ fault. fault ≡ Read
        → Keeps B.tells (B.seen blocks.old) (B.seen blocks.new)) }
    ensures out { length out.new ≡ length out.old }
    ensures cause { HasCause (B.faults blocks.old) (B.faults blocks.new) result }
{
    let from = layout.area(area);
    let Some(found) = entry_at(&from, top, number) else {
        unreachable!("there is an entry")
    };
    read_block(blocks, from.block_of(found.interval), out)?;
    blocks.put(layout.area(into).block_of(to), out)
}
