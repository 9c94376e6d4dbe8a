//! The bytes of block 0.
ghost use Rattle.std.specs.Prelude.{◌≡◌, ◌≤◌, length};
ghost use Rattle.vr_volume.specs.Header.{header_block};

use vr_mount::header_bytes;
use vr_types::Geometry;

/// Writes the header of a volume of this number into a block.
pub(crate) fn write_header(geometry: &Geometry, number: u32, out: &mut [u8])
    requires size { length out.old ≡ geometry.now.size }
    requires room { 30 ≤ length out.old }
    ensures { out.new ≡ header_block geometry.now number }
{
    let bytes = header_bytes(geometry, number);
    let (fields, free) = out.split_at_mut(30);
    fields.copy_from_slice(&bytes);
    free.fill(0);
}
