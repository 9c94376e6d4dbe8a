//! A part of any kind as it is found on its blocks.
ghost use Rattle.std.specs.Prelude.{◌≡◌, ◌≢◌, ◌⊎◌, ◌<◌, ◌≤◌, ◌+◌, ℕ, [], None, Some, IsTrue};
ghost use Rattle.std.specs.Prelude.{IfErr, IfOk, length, slice_index_or};
ghost use Rattle.vr_types.specs.Blocks.{Keeps};
ghost use Rattle.vr_types.specs.Geometry.{IsAllowed, area_count};
ghost use Rattle.vr_space.specs.Part.{OwnsChain, Shape, Stands, owned_count};
ghost use Rattle.vr_attach.specs.Attached.{HasPartCause};
ghost use Rattle.vr_attach.specs.Laid.{HasArea, shape_by_kind};
ghost use Rattle.vr_attach.specs.Marked.{IsTakenIn};
ghost use Rattle.vr_part.specs.Any.{known_any, shape_any};
ghost use Rattle.vr_part.specs.Attached.{IsAnyShown, IsAttachedWith, ShowsDamage};

use crate::any::AnyPart;
use std::alloc::Global;
use vr_attach::{PartNo2, chain_layout_of, layout_of};
use vr_catalog::Definition;
use vr_chained::Chained;
use vr_keyed::Keyed;
use vr_types::{Blocks, Geometry, Kind, PartNo, Space};

/// The part of a definition, as its blocks stand, from this area on: with no split of an interval
/// or of an area under way, and nothing met. `space` has who owns each area of the volume: the
/// first area is the part's, which owns no other yet; then each area that it has is its.
/// `Damaged`: the blocks stand for no content, or lead to an area that another part has; which
/// block and which rule are shown `vr_attach` says. `Fault` is the device's; `Memory`: there is
/// none for the part's buffers.
pub fn attach_part<B: Blocks>(
    alloc: Global,
    blocks: &mut B,
    geometry: &Geometry,
    part: PartNo,
    area: u32,
    definition: &Definition,
    space: &mut Space,
) -> Result<AnyPart, PartNo2>
    requires allowed { IsAllowed geometry.now }
    requires count { (B.seen blocks.old).count ≡ geometry.now.blocks }
    requires size { (B.seen blocks.old).size ≡ geometry.now.size }
    requires area { area < area_count geometry.now }
    requires some { 0 < definition.now.maximum }
    requires room { definition.now.maximum + 7 ≤ geometry.now.size }
    requires areas { length space.old ≡ area_count geometry.now }
    requires first { slice_index_or space.old area None ≡ Some part }
    requires alone { owned_count part space.old ≡ 1 }
    ensures shape { IfOk result (λ it. shape_by_kind geometry.now part.0 area definition.now
        definition.now.kind ≡ Some (shape_any it)) }
    ensures split { IfOk result (λ it. (known_any it).split ≡ None) }
    ensures moves { IfOk result (λ it. (known_any it).move ≡ None) }
    ensures met { IfOk result (λ it. (known_any it).met ≡ []) }
    ensures known { IsTrue B.tells → IfOk result (λ it.
        IsAttachedWith (shape_any it) (known_any it) (B.seen blocks.old).cur) }
    ensures stands { IsTrue B.tells → IfOk result (λ it.
        Stands (shape_any it) (B.seen blocks.old).cur) }
    ensures first { IfOk result (λ it. HasArea geometry.now (shape_any it) (known_any it) area) }
    ensures owns { IfOk result (λ it. OwnsChain (shape_any it) (known_any it) space.new) }
    ensures marked { IfOk result (λ it. (at : ℕ)
        → HasArea geometry.now (shape_any it) (known_any it) at
        → slice_index_or space.new at None ≡ Some part) }
    ensures others { IfOk result (λ it. (at : ℕ)
        → (HasArea geometry.now (shape_any it) (known_any it) at → ⊥)
        → slice_index_or space.new at None ≡ slice_index_or space.old at None) }
    ensures free { IfOk result (λ it. (at : ℕ)
        → HasArea geometry.now (shape_any it) (known_any it) at
        → (slice_index_or space.old at None ≡ None)
        ⊎ (slice_index_or space.old at None ≡ Some part)) }
    ensures count { length space.new ≡ length space.old }
    ensures damaged { IsTrue B.tells → IfErr result (λ no. (shape : Shape)
        → shape_by_kind geometry.now part.0 area definition.now definition.now.kind ≡ Some shape
        → ShowsDamage (IsAnyShown shape (IsTakenIn space.old)
        (B.seen blocks.old).cur) no) }
    ensures keeps { Keeps B.tells (B.seen blocks.old) (B.seen blocks.new) }
    ensures cause { HasPartCause (B.faults blocks.old) (B.faults blocks.new) result }
{
    if definition.kind == Kind::Keyed {
        let layout = layout_of(*geometry, part, area, definition);
        let keyed = Keyed::attach(alloc, blocks, layout, space)?;
        return Ok(AnyPart::Keyed(keyed));
    }
    let layout = chain_layout_of(*geometry, part, area, definition);
    let chained = Chained::attach(alloc, blocks, layout, space)?;
    Ok(AnyPart::Chained(chained))
}
