//! Where a part is on the blocks of a volume.
ghost use Rattle.std.specs.Prelude.{◌≡◌, ◌<◌, ◌≤◌, ◌+◌};
ghost use Rattle.vr_types.specs.Geometry.{IsAllowed, area_count};
ghost use Rattle.vr_attach.specs.Laid.{keyed_part, numbered_part};

use vr_catalog::Definition;
use vr_space::{ChainLayout, KeyedLayout};
use vr_types::{Geometry, Kind, PartNo};

/// Where a keyed part of this definition is, whose first area this is. A record of the maximum has
/// room in an interval of its own.
pub fn layout_of(
    geometry: Geometry,
    part: PartNo,
    area: u32,
    definition: &Definition,
) -> KeyedLayout
    requires allowed { IsAllowed geometry }
    requires area { area < area_count geometry }
    requires room { definition.now.maximum + 7 ≤ geometry.size }
    ensures { result ≡ keyed_part geometry part.0 area definition.now }
{
    KeyedLayout {
        part,
        first: area,
        geometry,
        key: definition.key_length,
        offset: definition.key_offset,
        most: definition.maximum,
    }
}

/// Where an entry-sequenced or relative part of this definition is, whose first area this is. A
/// record has room in an interval.
pub fn chain_layout_of(
    geometry: Geometry,
    part: PartNo,
    area: u32,
    definition: &Definition,
) -> ChainLayout
    requires allowed { IsAllowed geometry }
    requires area { area < area_count geometry }
    requires some { 0 < definition.now.maximum }
    requires room { definition.now.maximum + 7 ≤ geometry.size }
    ensures { result ≡ numbered_part geometry part.0 area definition.now }
{
    ChainLayout {
        part,
        first: area,
        geometry,
        most: definition.maximum as u16,
        relative: definition.kind == Kind::Relative,
    }
}
