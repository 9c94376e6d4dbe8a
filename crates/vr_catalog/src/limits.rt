//! Which sizes of keys and records a volume takes.
ghost use Rattle.std.specs.Prelude.{◌≡◌};
ghost use Rattle.vr_catalog.specs.Limits.{
  intervals_used as used,
  are_few_intervals as few,
  are_bad_sizes as bad_sizes,
  is_bad_cluster as bad_cluster,
  is_past_limit as past_limit,
  ends_past as past_end,
  plain_limit as plain_limit_of,
  spanned_limit as spanned_limit_of,
};

use crate::definition::Definition;
use vr_types::{Geometry, Kind};

/// The intervals of an area that a keyed data set with places of this length uses.
pub fn intervals_used(geometry: &Geometry, place_length: u32) -> u32
    ensures { result ≡ used geometry.now place_length }
{
    let room = geometry
        .size
        .saturating_sub(32)
        .saturating_sub(place_length);
    let fits = room as u64 / (4 + place_length as u64);
    geometry.area.min(fits as u32)
}

/// Whether fewer than two intervals of an area could be used.
pub fn are_few_intervals(geometry: &Geometry, place_length: u32) -> bool
    ensures { result ≡ few geometry.now place_length }
{
    intervals_used(geometry, place_length) < 2
}

/// Whether a key ends past the longest record.
pub fn ends_past(key_length: u16, key_offset: u16, maximum: u32) -> bool
    ensures { result ≡ past_end key_length key_offset maximum }
{
    maximum < key_offset as u32 + key_length as u32
}

/// Whether RECORDSIZE has the average above the maximum or 0, or the maximum above 32,760.
pub fn are_bad_sizes(average: u32, maximum: u32) -> bool
    ensures { result ≡ bad_sizes average maximum }
{
    maximum < average || average == 0 || 32_760 < maximum
}

/// Whether a cluster's records of these sizes can't be kept: the sizes themselves, a maximum that
/// is too long, or a relative data set that is spanned or has several lengths.
pub fn is_bad_cluster(geometry: &Geometry, definition: &Definition, average: u32) -> bool
    ensures { result ≡ bad_cluster geometry.now definition.now average }
{
    are_bad_sizes(average, definition.maximum) || is_past_limit(geometry, definition, average)
}

/// Whether records of the maximum don't fit.
fn is_past_limit(geometry: &Geometry, definition: &Definition, average: u32) -> bool
    ensures { result ≡ past_limit definition.now.kind geometry.now definition.now average }
{
    match definition.kind {
        Kind::Keyed => {
            if definition.spanned {
                spanned_limit(geometry, definition.key_length) < definition.maximum as u64
            } else {
                plain_limit(geometry) < definition.maximum
            }
        }
        Kind::Entry => !definition.spanned && plain_limit(geometry) < definition.maximum,
        Kind::Relative => {
            definition.spanned
                || average != definition.maximum
                || plain_limit(geometry) < definition.maximum
        }
    }
}

/// The longest record of a cluster that isn't spanned.
pub fn plain_limit(geometry: &Geometry) -> u32
    ensures { result ≡ plain_limit_of geometry.now }
{
    geometry.size.saturating_sub(7)
}

/// The longest record of a spanned key-sequenced cluster.
pub fn spanned_limit(geometry: &Geometry, key_length: u16) -> u64
    ensures { result ≡ spanned_limit_of geometry.now key_length }
{
    let intervals = intervals_used(geometry, key_length as u32) as u64;
    intervals * geometry.size.saturating_sub(10) as u64
}
