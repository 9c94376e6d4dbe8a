//! A part without records, made in the least free area of a volume.
ghost use Rattle.std.specs.Prelude.{◌≡◌, ◌≢◌, ◌<◌, ◌∷◌, [], None, Some, IsTrue, IfErr, IfOk, OnErr};
ghost use Rattle.std.specs.Prelude.{OnOk, length, slice_set, vec_capacity, vec_len};
ghost use Rattle.vr_types.specs.Geometry.{IsAllowed, area_count};
ghost use Rattle.vr_types.specs.Space.{least_free};
ghost use Rattle.vr_types.specs.declared.fault.DeviceFault.TheVariants.{Read};
ghost use Rattle.vr_space.specs.Part.{IsOn, OwnsChain, held_by, owned_count};
ghost use Rattle.vr_attach.specs.Laid.{shape_by_kind};
ghost use Rattle.vr_attach.specs.Owning.{owner_of};
ghost use Rattle.vr_start.specs.Cause.{HasStartCause};
ghost use Rattle.vr_start.specs.Startable.{IsStartable};
ghost use Rattle.vr_start.specs.declared.no.StartNo.TheVariants.{Fault};
ghost use Rattle.vr_volume.specs.Defining.{IsStarted};
ghost use Rattle.vr_store.specs.Define.{TouchesAreasOf};

use crate::parts::Laid;
use std::alloc::Global;
use vr_catalog::Definition;
use vr_start::{Start, StartNo};
use vr_types::{AreaNo, Blocks, Geometry, OutOfMemory, PartNo, Space};

/// Makes room for one more part.
pub(crate) fn room_for_one<P>(parts: &mut Vec<Laid<P>>) -> Result<(), OutOfMemory>
    ensures same { parts.new.items ≡ parts.old.items }
    ensures room { OnOk result (vec_len parts.new < vec_capacity parts.new) }
{
    parts.reserve(1)?;
    Ok(())
}

/// Gives a part the least free area, and makes it there, without records. Where it can't be made the
/// area is free again.
pub(crate) fn start_in<B: Blocks, P: Start>(
    alloc: Global,
    blocks: &mut B,
    geometry: &Geometry,
    space: &mut Space,
    part: PartNo,
    area: AreaNo,
    definition: &Definition,
) -> Result<P, StartNo>
    requires allowed { IsAllowed geometry.now }
    requires count { (B.seen blocks.old).count ≡ geometry.now.blocks }
    requires size { (B.seen blocks.old).size ≡ geometry.now.size }
    requires areas { length space.old ≡ area_count geometry.now }
    requires least { least_free space.old ≡ Some area.0 }
    requires unowned { owned_count part space.old ≡ 0 }
    requires sizes { IsStartable geometry.now definition.now }
    ensures claimed { OnOk result (space.new ≡ slice_set space.old area.0 (Some part)) }
    ensures free { OnErr result (space.new ≡ space.old) }
    ensures shape { IfOk result (λ it. shape_by_kind geometry.now part.0 area.0 definition.now
        definition.now.kind ≡ Some (P.shape it)) }
    ensures on { IfOk result (λ it. IsOn (P.shape it) (B.seen blocks.new)) }
    ensures started { IsTrue B.tells → IfOk result (λ it. IsStarted (P.shape it)
        (owner_of geometry.now (slice_set space.old area.0 (Some part))) (P.known it)
        (B.seen blocks.new)) }
    ensures split { IfOk result (λ it. (P.known it).split ≡ None) }
    ensures moves { IfOk result (λ it. (P.known it).move ≡ None) }
    ensures holds { IfOk result (λ it. held_by (P.shape it) (P.known it) ≡ area.0 ∷ []) }
    ensures owns { IfOk result (λ it. OwnsChain (P.shape it) (P.known it)
        (slice_set space.old area.0 (Some part))) }
    // At every moment, whether it fails or not.
    ensures touches { IsTrue B.tells → TouchesAreasOf part geometry.now
        (slice_set space.old area.0 (Some part)) (B.seen blocks.old) (B.seen blocks.new) }
    ensures count { (B.seen blocks.new).count ≡ (B.seen blocks.old).count }
    ensures size { (B.seen blocks.new).size ≡ (B.seen blocks.old).size }
    // It reads nothing.
    ensures never_read { IfErr result (λ no. no ≢ Fault Read) }
    ensures cause { HasStartCause (B.faults blocks.old) (B.faults blocks.new) result }
{
    space.mark(area, part);
    match P::start(alloc, blocks, geometry, part, area.0, definition, space) {
        Ok(started) => Ok(started),
        Err(no) => {
            space.release(part);
            Err(no)
        }
    }
}
