//! The head of the area that gets the intervals that move.
ghost use Rattle.std.specs.Prelude.{◌≡◌, ◌<◌, ◌≤◌, ◌+◌, ◌-◌, ℕ, List, IsTrue, OnOk, length};
ghost use Rattle.std.specs.Prelude.{slice_index, vec_capacity};
ghost use Rattle.vr_types.specs.Blocks.{Puts};
ghost use Rattle.vr_types.specs.Faults.{HasWriteCause};
ghost use Rattle.vr_types.specs.Geometry.{area_count};
ghost use Rattle.vr_types.specs.Image.{block_at};
ghost use Rattle.vr_types.specs.Seen.{Only};
ghost use Rattle.vr_space.specs.Areas.{IsChainOn, KnowsAreas, area_of, head_of, intervals_in};
ghost use Rattle.vr_space.specs.Keyed.{IsHead, entries_of};
ghost use Rattle.vr_space.specs.Moves.{IsUpper};
ghost use Rattle.vr_space.specs.Owners.{Owners};
ghost use Rattle.vr_space.specs.Room.{Lengths};
ghost use Rattle.vr_space.specs.UnderWay.{interval_block};
ghost use Rattle.vr_casplit.specs.Growing.{IsGrowing, LeavesRecords, LeavesRest};

use crate::head::write_upper;
use vr_space::{KeyedLayout, Layout, entry_count};
use vr_types::{Blocks, DeviceFault};

/// How many entries of a head move, where this many stay.
fn moving(layout: &Layout, top: &[u8], stay: usize) -> u16
    requires head { IsHead layout.now top.now }
    requires fewer { stay < length (entries_of top.now) }
    ensures moving { result ≡ length (entries_of top.now) - stay }
    ensures area { result ≤ layout.now.area }
{
    let Some(entries) = entry_count(layout, top) else {
        unreachable!("it is a head")
    };
    (entries - stay) as u16
}

/// Lists the head of an area and its first intervals, this many.
fn list_blocks(to: &Layout, count: u16, listed: &mut Vec<u32>)
    requires most { count ≤ to.now.area }
    requires room { count < vec_capacity listed.old }
    ensures length { length listed.new.items ≡ count + 1 }
    ensures head { slice_index listed.new.items 0 ≡ to.now.head }
    ensures intervals { (j : ℕ) → j < count
        → slice_index listed.new.items (j + 1) ≡ interval_block to.now j }
    ensures room { vec_capacity listed.old ≤ vec_capacity listed.new }
{
    listed.clear();
    if listed.push(to.head).is_err() {
        unreachable!("there is room")
    }
    for j in 0..count {
        if listed.push(to.block_of(j)).is_err() {
            unreachable!("there is room")
        }
    }
}

/// Writes the head of the area `into`, over the copies of the intervals that move, where `stay` of
/// the entries of the other area stay; and forces all of them. `top` is the head of that area, as
/// it was read. No chain reaches the area yet. `out` gets the head, and `listed`, which has room
/// for a number of each block of an area, those that are forced. `Write` is that of the put or of
/// the force.
pub fn link_area<B: Blocks>(
    blocks: &mut B,
    layout: &KeyedLayout,
    area: u32,
    into: u32,
    top: &[u8],
    stay: usize,
    out: &mut [u8],
    listed: &mut Vec<u32>,
) -> Result<(), DeviceFault>
    requires on { IsChainOn layout.now (B.seen blocks.old) }
    requires area { area < area_count layout.now.geometry }
    requires into { into < area_count layout.now.geometry }
    requires head { IsHead (area_of layout.now area) top.now }
    requires some { 0 < stay }
    requires fewer { stay < length (entries_of top.now) }
    requires out { length out.old ≡ layout.now.geometry.size }
    requires listed { layout.now.geometry.area < vec_capacity listed.old }
    ensures upper { OnOk result (IsUpper (area_of layout.now area) stay top.now out.new) }
    ensures stable { IsTrue B.tells → OnOk result
        (Only (B.seen blocks.new) (head_of layout.now into) (λ block. block ≡ out.new)) }
    ensures copies { IsTrue B.tells → OnOk result ((j : ℕ)
        → j < length (entries_of top.now) - stay
        → Only (B.seen blocks.new) (interval_block (area_of layout.now into) j) (λ block. block
        ≡ block_at (B.seen blocks.old).cur (interval_block (area_of layout.now into) j))) }
    ensures puts { Puts B.tells (head_of layout.now into) out.new
        (B.seen blocks.old) (B.seen blocks.new) }
    // At every moment, whether it fails or not.
    ensures leaves { IsTrue B.tells → (owners : Owners) (kept : Lengths)
        → IsGrowing layout.now into owners kept (B.seen blocks.old)
        → LeavesRecords layout.now owners kept (B.seen blocks.old) (B.seen blocks.new)
        × LeavesRest layout.now owners (B.seen blocks.old) (B.seen blocks.new) }
    ensures knows { IsTrue B.tells → (owners : Owners) (kept : Lengths) (areas : List ℕ)
        (ends : List (List ℕ)) → IsGrowing layout.now into owners kept (B.seen blocks.old)
        → KnowsAreas layout.now areas ends (B.seen blocks.old).cur
        → KnowsAreas layout.now areas ends (B.seen blocks.new).cur }
    ensures counts { IsTrue B.tells → (owners : Owners) (kept : Lengths)
        → IsGrowing layout.now into owners kept (B.seen blocks.old)
        → intervals_in layout.now (B.seen blocks.new).cur
        ≡ intervals_in layout.now (B.seen blocks.old).cur }
    ensures listed { layout.now.geometry.area < vec_capacity listed.new }
    ensures out { length out.new ≡ length out.old }
    ensures count { (B.seen blocks.new).count ≡ (B.seen blocks.old).count }
    ensures size { (B.seen blocks.new).size ≡ (B.seen blocks.old).size }
    ensures cause { HasWriteCause (B.faults blocks.old) (B.faults blocks.new) result }
{
    let from = layout.area(area);
    let to = layout.area(into);
    write_upper(&from, top, stay, out);
    blocks.put(to.head, out)?;
    list_blocks(&to, moving(&from, top, stay), listed);
    blocks.force(listed.as_slice())
}
