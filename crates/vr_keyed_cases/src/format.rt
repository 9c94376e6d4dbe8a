//! The part as it is made, byte by byte: a head of one entry, and an empty interval; and where it
//! is on its volume.
ghost use Rattle.std.specs.Prelude.{◌≡◌, ◌<◌, ◌≤◌, length, IfOk, Some, None, slice_index_or};
ghost use Rattle.vr_types.specs.Geometry.{area_count};
ghost use Rattle.vr_space.specs.Part.{owned_count};
ghost use Rattle.vr_keyed_cases.specs.TheLayout.{IsVolume, the_layout, the_number};

use crate::answers::Stop;
use crate::traced::MOST_BLOCKS;
use std::alloc::{AllocError, Global};
use vr_space::KeyedLayout;
use vr_types::{AreaNo, Geometry, OutOfMemory, PartNo, Space, space};

/// The number of the part.
const PART: PartNo = PartNo(1);

/// The volume of most of the cases: three areas of three intervals.
pub fn small_volume() -> Result<Geometry, Stop>
    ensures { IfOk result IsVolume }
{
    volume(3, 3)
}

/// A wide one: four areas of this many intervals, two to five.
pub fn wide_volume(intervals: u32) -> Result<Geometry, Stop>
    ensures { IfOk result IsVolume }
{
    if intervals > 5 {
        return Err(Stop::Line);
    }
    volume(4, intervals)
}

/// A volume of a header, a log block, and this many areas, each of this many intervals.
fn volume(areas: u32, intervals: u32) -> Result<Geometry, Stop>
    requires areas { areas ≤ 4 }
    requires intervals { intervals ≤ 5 }
    ensures { IfOk result IsVolume }
{
    let geometry = Geometry {
        size: 512,
        blocks: 2 + areas * (intervals + 1),
        log: 1,
        area: intervals,
    };
    if geometry.is_allowed() && geometry.areas() > 1 && geometry.blocks <= MOST_BLOCKS {
        Ok(geometry)
    } else {
        Err(Stop::Line)
    }
}

/// The block of the volume that is the part's head: that of area 1.
pub fn head_block(geometry: Geometry) -> u32
    requires { IsVolume geometry }
    ensures { result < 25 }
{
    geometry.area + 3
}

/// How many blocks of the volume the device in memory has, from the head on: those of all areas but
/// the catalog's.
pub fn device_blocks(geometry: Geometry) -> u32
    requires { IsVolume geometry }
{
    geometry.blocks.saturating_sub(head_block(geometry))
}

/// Where the part is, and what its records are.
pub fn layout(geometry: Geometry) -> KeyedLayout
    requires { IsVolume geometry }
    ensures { result ≡ the_layout geometry }
{
    KeyedLayout {
        part: PART,
        first: 1,
        geometry,
        key: 8,
        offset: 0,
        most: 505,
    }
}

/// Who owns its areas: area 0 is the catalog's, area 1 the part's, and the others are free.
#[tactic(auto, using(crate::proofs::Owners::one_owned))]
pub fn owners(alloc: Global, geometry: Geometry) -> Result<Space, OutOfMemory>
    requires { IsVolume geometry }
    ensures areas { IfOk result (λ space. length space ≡ area_count geometry) }
    ensures first { IfOk result (λ space. slice_index_or space 1 None ≡ Some the_number) }
    ensures alone { IfOk result (λ space. owned_count the_number space ≡ 1) }
{
    let mut owners = space(alloc, geometry.areas())?;
    owners.mark(AreaNo(0), PartNo(0));
    owners.mark(AreaNo(1), PART);
    Ok(owners)
}

/// The head: of part 1, with places of 8 bytes, and interval 0 up to the greatest place.
pub fn head(alloc: Global) -> Result<Vec<u8>, AllocError>
    ensures { IfOk result (λ block. length block.items ≡ 512) }
{
    let mut block = vec![in alloc; 0; 512]?;
    block[0..12].copy_from_slice(&[83, 1, 0, 1, 0, 0, 0, 8, 0, 0, 0, 1]);
    block[40..44].copy_from_slice(&[0, 1, 0, 0]);
    block[44..52].copy_from_slice(&[255; 8]);
    Ok(block)
}

/// An empty interval: 508 bytes are free.
pub fn empty_interval(alloc: Global) -> Result<Vec<u8>, AllocError>
    ensures { IfOk result (λ block. length block.items ≡ 512) }
{
    let mut block = vec![in alloc; 0; 512]?;
    block[510..512].copy_from_slice(&[1, 252]);
    Ok(block)
}
