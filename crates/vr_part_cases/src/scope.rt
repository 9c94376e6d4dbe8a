//! What the lists of blocks are of: a volume of two areas with two intervals each.
ghost use Rattle.std.specs.Prelude.{◌<◌};

/// The bytes of a block.
pub const SIZE: usize = 512;

/// How many intervals an area has.
pub const INTERVALS: u32 = 2;

/// How many areas there are.
pub const AREAS: u32 = 2;

/// The number of the part, and that of the other part.
pub const PART: u32 = 7;

pub const OTHER_PART: u32 = 9;

/// How long the records are at most: those of the relative part have this length, so an interval
/// has three slots.
pub fn most_of(relative: bool) -> u16
    ensures some { 0 < result }
    ensures fits { result < 200 }
{
    if relative { 160 } else { 192 }
}

/// The block of the roster of an area.
pub fn head_of(area: u32) -> u32 {
    if area == 0 { 2 } else { 5 }
}

/// The lengths whose addresses are asked.
pub const LENGTHS: [u32; 8] = [1, 64, 115, 116, 128, 179, 180, 192];

/// How many numbers of places are looked at.
pub fn probes(relative: bool) -> u32 {
    if relative { 15 } else { 37 }
}

/// A number that is looked at: each slot, 0 and some past the last one; or each multiple of 64,
/// where all items of the samples begin, and the second byte of each interval.
pub fn probe(relative: bool, number: u32) -> u32 {
    if relative {
        number
    } else if number < 33 {
        number * 64
    } else {
        (number - 33).saturating_mul(512).saturating_add(1)
    }
}
