//! A part as it is found on its blocks.
ghost use Rattle.std.specs.Prelude.{◌≡◌, Some, None, IsTrue, IfOk, IfErr, OnOk, length};
ghost use Rattle.std.specs.Prelude.{slice_index_or};
ghost use Rattle.vr_types.specs.Blocks.{Keeps};
ghost use Rattle.vr_types.specs.Geometry.{area_count};
ghost use Rattle.vr_space.specs.Areas.{KnowsAreas, intervals_in};
ghost use Rattle.vr_space.specs.Part.{IsOn, KeyedShape, Stands, owned_count, part_no};
ghost use Rattle.vr_attach.specs.Attached.{HasPartCause};
ghost use Rattle.vr_attach.specs.Marked.{AreMarked, IsTakenIn};
ghost use Rattle.vr_keyed.specs.Attached.{IsAttachedTo, IsDamageIn};

use crate::keyed::{Keyed, empty_block, keyed_part};
use std::alloc::Global;
use vr_attach::{PartNo2, no_areas, walk_chain};
use vr_space::KeyedLayout;
use vr_types::{Blocks, Space};

impl Keyed {
    /// The part of a layout, as its blocks stand: with no split under way, nothing met, and room to
    /// keep what it meets of two places. It reads the head and each interval of an entry of each
    /// area of its chain once. `taken` has who owns each area of the volume: the first area is the
    /// part's, which owns no other yet; then each area of its chain is its. `Damaged`: the blocks
    /// stand for no content, or lead to an area that another part has; which block and which rule
    /// are shown `vr_attach` says. `Fault` is the device's; `Memory`: there is none for the part's
    /// buffers.
    pub fn attach<B: Blocks>(
        alloc: Global,
        blocks: &mut B,
        layout: KeyedLayout,
        taken: &mut Space,
    ) -> Result<Keyed, PartNo2>
        requires on { IsOn (KeyedShape layout) (B.seen blocks.old) }
        requires areas { length taken.old ≡ area_count layout.geometry }
        requires first { slice_index_or taken.old layout.first None
            ≡ Some (part_no (KeyedShape layout)) }
        requires alone { owned_count (part_no (KeyedShape layout)) taken.old ≡ 1 }
        ensures attached { IfOk result (IsAttachedTo layout) }
        ensures stands { IsTrue B.tells → OnOk result
            (Stands (KeyedShape layout) (B.seen blocks.old).cur) }
        ensures knows { IsTrue B.tells → IfOk result (λ keyed.
            KnowsAreas layout keyed.areas keyed.ends (B.seen blocks.old).cur) }
        ensures counted { IsTrue B.tells → IfOk result (λ keyed.
            keyed.intervals ≡ intervals_in layout (B.seen blocks.old).cur) }
        ensures marked { IfOk result (λ keyed. AreMarked (part_no (KeyedShape layout)) layout.first
            keyed.areas taken.old taken.new) }
        ensures count { length taken.new ≡ length taken.old }
        ensures damaged { IsTrue B.tells → IfErr result
            (IsDamageIn layout (IsTakenIn taken.old) (B.seen blocks.old).cur) }
        ensures keeps { Keeps B.tells (B.seen blocks.old) (B.seen blocks.new) }
        ensures cause { HasPartCause (B.faults blocks.old) (B.faults blocks.new) result }
    {
        let mut top = empty_block(alloc, layout.geometry.size)?;
        let mut areas = no_areas(alloc, layout)?;
        match walk_chain(blocks, &mut areas, taken, top.as_mut_slice())? {
            None => Ok(keyed_part(alloc, areas, top)?),
            Some(damage) => Err(PartNo2::Damaged {
                block: damage.block,
                rule: damage.rule.number(),
            }),
        }
    }
}
