//! What a block is as the roster of an area, plainly: byte by byte.
ghost use Rattle.std.specs.Prelude.{◌<◌};

use crate::scope::INTERVALS;

/// How many intervals of the area are used, which part's it is, and which area comes next.
#[derive(Clone, Copy)]
pub struct Roster {
    pub used: u32,
    pub part: u32,
    pub next: Option<u32>,
}

/// A byte of a block.
pub fn byte(block: &[u8], at: usize) -> u8 {
    block.get(at).copied().unwrap_or(0)
}

/// A number of two bytes.
pub fn two(block: &[u8], at: usize) -> u32
    ensures { result < 65536 }
{
    u32::from(byte(block, at)) * 256 + u32::from(byte(block, at.saturating_add(1)))
}

/// A number of four bytes.
fn four(block: &[u8], at: usize) -> u32 {
    two(block, at) * 65_536 + two(block, at.saturating_add(2))
}

/// Whether the bytes from one place up to another are zeros.
pub fn are_zeros(block: &[u8], from: usize, to: usize) -> bool {
    for at in from..to {
        if byte(block, at) != 0 {
            return false;
        }
    }
    true
}

/// The roster of an area that a block spells: `R`, and at 2, 8 and 12 the fields; what no field has
/// is zero, and no more intervals are used than there are.
pub fn roster_of(block: &[u8]) -> Option<Roster> {
    let used = two(block, 2);
    let is_spelled = byte(block, 0) == b'R'
        && byte(block, 1) == 0
        && are_zeros(block, 4, 8)
        && are_zeros(block, 16, block.len())
        && used <= INTERVALS;
    if !is_spelled {
        return None;
    }
    Some(Roster {
        used,
        part: four(block, 8),
        next: four(block, 12).checked_sub(1),
    })
}
