//! A part of any kind that is made anew.
ghost use Rattle.std.specs.Prelude.{◌≡◌, ◌<◌, Some, IfOk, IfSome, IsTrue, OnOk, length};
ghost use Rattle.vr_types.specs.Faults.{HasWriteCause};
ghost use Rattle.vr_types.specs.Geometry.{IsAllowed, area_count};
ghost use Rattle.vr_types.specs.Regions.{Touches};
ghost use Rattle.vr_attach.specs.Laid.{shape_by_kind};
ghost use Rattle.vr_start.specs.Startable.{IsStartable};
ghost use Rattle.vr_part.specs.Any.{known_any, shape_any};
ghost use Rattle.vr_part.specs.First.{Anything};
ghost use Rattle.vr_part.specs.Started.{InAreaAt, IsFirst, known_first};

use crate::any::AnyPart;
use crate::first_area::write_area;
use crate::first_roster::write_first_roster;
use std::alloc::Global;
use vr_attach::{chain_layout_of, layout_of};
use vr_catalog::Definition;
use vr_chained::{chained_part, first_chain};
use vr_keyed::new_part;
use vr_start::{Start, StartNo};
use vr_types::{Blocks, DeviceFault, Geometry, Kind, OutOfMemory, PartNo, Space};

/// A block of zeros, of this size.
fn empty_block(alloc: Global, size: u32) -> Result<Vec<u8>, OutOfMemory>
    ensures { IfOk result (λ block. length block.items ≡ size) }
{
    let block = vec![in alloc; 0; size as usize]?;
    Ok(block)
}

/// A part without records, as it is in memory, whose first area is this one.
fn empty_part(
    alloc: Global,
    geometry: &Geometry,
    part: PartNo,
    area: u32,
    definition: &Definition,
) -> Result<AnyPart, OutOfMemory>
    requires allowed { IsAllowed geometry.now }
    requires area { area < area_count geometry.now }
    requires sizes { IsStartable geometry.now definition.now }
    ensures shape { IfOk result (λ it. shape_by_kind geometry.now part.0 area definition.now
        definition.now.kind ≡ Some (shape_any it)) }
    ensures known { IfOk result (λ it. known_any it ≡ known_first (shape_any it)) }
{
    if definition.kind == Kind::Keyed {
        let layout = layout_of(*geometry, part, area, definition);
        return Ok(AnyPart::Keyed(new_part(alloc, layout)?));
    }
    let layout = chain_layout_of(*geometry, part, area, definition);
    let chain = first_chain(alloc, layout)?;
    Ok(AnyPart::Chained(chained_part(alloc, chain)?))
}

/// Writes the first area of a part without records, and forces it. The block is a buffer of its
/// size.
fn write_first<B: Blocks>(
    blocks: &mut B,
    geometry: &Geometry,
    part: PartNo,
    area: u32,
    definition: &Definition,
    block: &mut [u8],
) -> Result<(), DeviceFault>
    requires allowed { IsAllowed geometry.now }
    requires count { (B.seen blocks.old).count ≡ geometry.now.blocks }
    requires size { (B.seen blocks.old).size ≡ geometry.now.size }
    requires area { area < area_count geometry.now }
    requires sizes { IsStartable geometry.now definition.now }
    requires buffer { length block.old ≡ geometry.now.size }
    ensures first { IsTrue B.tells → OnOk result (IfSome (shape_by_kind geometry.now part.0 area
        definition.now definition.now.kind) (λ shape. IsFirst shape (B.seen blocks.new))) }
    ensures touches { IsTrue B.tells → Touches (InAreaAt geometry.now area) Anything
        (B.seen blocks.old) (B.seen blocks.new) }
    ensures count { (B.seen blocks.new).count ≡ (B.seen blocks.old).count }
    ensures size { (B.seen blocks.new).size ≡ (B.seen blocks.old).size }
    ensures cause { HasWriteCause (B.faults blocks.old) (B.faults blocks.new) result }
{
    if definition.kind == Kind::Keyed {
        let layout = layout_of(*geometry, part, area, definition);
        return write_area(blocks, &layout.area(area), block);
    }
    let layout = chain_layout_of(*geometry, part, area, definition);
    write_first_roster(blocks, &layout, block)
}

impl Start for AnyPart {
    fn start<B: Blocks>(
        alloc: Global,
        blocks: &mut B,
        geometry: &Geometry,
        part: PartNo,
        area: u32,
        definition: &Definition,
        _space: &Space,
    ) -> Result<AnyPart, StartNo> {
        let mut block = empty_block(alloc, geometry.size)?;
        let buffer = block.as_mut_slice();
        write_first(blocks, geometry, part, area, definition, buffer)?;
        let empty = empty_part(alloc, geometry, part, area, definition)?;
        Ok(empty)
    }
}
