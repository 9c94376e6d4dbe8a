//! Places and bytes from what they are made of.
ghost use Rattle.std.specs.Prelude.{◌≡◌, IfOk};
ghost use Rattle.std.specs.Int.{to_be_bytes, w32};
ghost use Rattle.vr_types.specs.Space.{all_free};

use crate::areas::Space;
use crate::memory::OutOfMemory;
use crate::values::{Bytes, Place};
use std::alloc::Global;

/// A place of these bytes; fails only if memory runs out.
pub fn place(alloc: Global, from: &[u8]) -> Result<Place, OutOfMemory>
    ensures { IfOk result (λ place. place ≡ from.now) }
{
    Ok(Place::from_vec(Vec::from_slice(alloc, from)?))
}

/// A copy of these bytes; fails only if memory runs out.
pub fn bytes(alloc: Global, from: &[u8]) -> Result<Bytes, OutOfMemory>
    ensures { IfOk result (λ bytes. bytes ≡ from.now) }
{
    Ok(Bytes::from_vec(Vec::from_slice(alloc, from)?))
}

/// The place of a relative byte address or a slot: four bytes, high byte first. It fails
/// only if memory runs out.
pub fn number_place(alloc: Global, n: u32) -> Result<Place, OutOfMemory>
    ensures { IfOk result (λ place. place ≡ to_be_bytes w32 n) }
{
    place(alloc, &n.to_be_bytes())
}

/// The owners of that many areas, each of which is free. Fails only if memory runs out.
pub fn space(alloc: Global, areas: u32) -> Result<Space, OutOfMemory>
    ensures { IfOk result (λ space. space ≡ all_free areas) }
{
    Space::of(alloc, areas)
}
