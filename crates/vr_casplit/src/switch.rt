//! The head of the area that is split, shortened.
ghost use Rattle.std.specs.Prelude.{◌≡◌, ◌<◌, ◌≤◌, ℕ, List, Contains, IsTrue, OnOk, length};
ghost use Rattle.vr_types.specs.Faults.{HasWriteCause};
ghost use Rattle.vr_types.specs.Geometry.{area_count};
ghost use Rattle.vr_seqset.specs.Reading.{record_in};
ghost use Rattle.vr_space.specs.Areas.{IsChainOn, KnowsAreas, area_of, areas_in, head_in};
ghost use Rattle.vr_space.specs.Areas.{intervals_in};
ghost use Rattle.vr_space.specs.Keyed.{IsHead, entries_of};
ghost use Rattle.vr_space.specs.Owners.{Owners};
ghost use Rattle.vr_space.specs.Room.{Lengths};
ghost use Rattle.vr_casplit.specs.Growing.{IsGrowing, LeavesRecords, LeavesRest};
ghost use Rattle.vr_space.specs.Moves.{IsMoved, cut_of, with_area, with_end};

use crate::head::{read_cut, write_lower};
use vr_space::KeyedLayout;
use vr_types::{Blocks, DeviceFault, PlaceBuffer, settle};

/// Shortens the head of an area to its first `stay` entries, where the intervals of the others were
/// moved to the area `into`: from then on the chain leads from it to that one, and on to where it
/// led before. It writes and forces one block. The chain has this area, and not that one yet. `cut`
/// gets the place at which its ranges end then.
pub fn switch_head<B: Blocks>(
    blocks: &mut B,
    layout: &KeyedLayout,
    area: u32,
    into: u32,
    top: &[u8],
    stay: usize,
    out: &mut [u8],
    cut: &mut PlaceBuffer,
) -> Result<(), DeviceFault>
    requires on { IsChainOn layout.now (B.seen blocks.old) }
    requires area { area < area_count layout.now.geometry }
    requires into { into < area_count layout.now.geometry }
    requires head { IsHead (area_of layout.now area) top.now }
    requires some { 0 < stay }
    requires fewer { stay < length (entries_of top.now) }
    requires out { length out.old ≡ layout.now.geometry.size }
    requires cut { cut.old.room ≡ layout.now.key }
    requires top { IsTrue B.tells → top.now ≡ head_in layout.now (B.seen blocks.old).cur area }
    requires inside { IsTrue B.tells → Contains (areas_in layout.now (B.seen blocks.old).cur) area }
    requires moved { IsTrue B.tells → IsMoved layout.now area into stay (B.seen blocks.old) }
    // At every moment, whether it fails or not.
    ensures leaves { IsTrue B.tells → (owners : Owners) (kept : Lengths)
        → IsGrowing layout.now into owners kept (B.seen blocks.old)
        → LeavesRecords layout.now owners kept (B.seen blocks.old) (B.seen blocks.new) }
    ensures rests { IsTrue B.tells → (owners : Owners) (kept : Lengths)
        → IsGrowing layout.now into owners kept (B.seen blocks.old)
        → OnOk result (LeavesRest layout.now owners (B.seen blocks.old) (B.seen blocks.new)) }
    ensures knows { IsTrue B.tells → (owners : Owners) (kept : Lengths) (areas : List ℕ)
        (ends : List (List ℕ)) → IsGrowing layout.now into owners kept (B.seen blocks.old)
        → KnowsAreas layout.now areas ends (B.seen blocks.old).cur
        → OnOk result (KnowsAreas layout.now (with_area area into areas)
        (with_end area cut.new.place areas ends) (B.seen blocks.new).cur) }
    ensures counts { IsTrue B.tells → (owners : Owners) (kept : Lengths)
        → IsGrowing layout.now into owners kept (B.seen blocks.old)
        → OnOk result (intervals_in layout.now (B.seen blocks.new).cur
        ≡ intervals_in layout.now (B.seen blocks.old).cur) }
    ensures cut { cut.new.place ≡ cut_of stay (record_in top.now) }
    ensures room { cut.new.room ≡ cut.old.room }
    ensures out { length out.new ≡ length out.old }
    ensures count { (B.seen blocks.new).count ≡ (B.seen blocks.old).count }
    ensures size { (B.seen blocks.new).size ≡ (B.seen blocks.old).size }
    ensures cause { HasWriteCause (B.faults blocks.old) (B.faults blocks.new) result }
{
    let layout_here = layout.area(area);
    read_cut(&layout_here, top, stay, cut);
    write_lower(&layout_here, top, stay, into, out);
    settle(blocks, layout_here.head, out)
}
