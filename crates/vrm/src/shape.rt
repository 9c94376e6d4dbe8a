//! The size and the number of the blocks of a volume's file.
ghost use Rattle.std.specs.Prelude.{◌≡◌, ◌<◌, length};

use std::io;
use vr_device::LockedFile;
use vr_types::{four_at, is_block_size};

/// The bytes of a block where a file doesn't state their number: the fewest that there may be.
const LEAST_SIZE: u32 = 512;

/// The bytes of a header up to the end of what states the shape.
const STATED: usize = 16;

/// The blocks of a file.
#[derive(Clone, Copy)]
pub struct Shape {
    /// The bytes of a block.
    pub size: u32,
    /// The number of blocks.
    pub blocks: u32,
}

/// The shape of a file that can't be read. It has a block, so that its volume isn't opened before a
/// block of it was read.
pub fn unread() -> Shape {
    Shape {
        size: LEAST_SIZE,
        blocks: 1,
    }
}

/// The shape of a file: blocks of the size that its header states, as many as the header states, or
/// as the file has where these are more, so that the header of a longer file isn't that of its
/// volume. Where the file has no header of version 1 with a size that a block may have, its blocks
/// have the least size, and it isn't a volume. `Err` is the host's: the file's length or its header
/// can't be read.
pub fn shape_of(file: &LockedFile) -> io::Result<Shape> {
    let bytes = file.length()?;
    if bytes < STATED as u64 {
        return Ok(whole_blocks(bytes, LEAST_SIZE));
    }
    let mut header = [0u8; 16];
    file.read_at(0, &mut header)?;
    Ok(stated(&header, bytes))
}

/// The shape of a file of this many bytes that begins with these.
fn stated(header: &[u8], bytes: u64) -> Shape
    requires { length header.now ≡ 16 }
{
    let size = four_at(header, 8);
    if !header.starts_with(b"VRMV\0\0\0\x01") || !is_block_size(size as usize) {
        return whole_blocks(bytes, LEAST_SIZE);
    }
    let held = whole_blocks(bytes, size).blocks;
    Shape {
        size,
        blocks: held.max(four_at(header, 12)),
    }
}

/// As many blocks of this size as this many bytes have room for.
fn whole_blocks(bytes: u64, size: u32) -> Shape
    requires { 0 < size }
{
    let blocks = bytes / size as u64;
    Shape {
        size,
        blocks: blocks.min(u32::MAX as u64) as u32,
    }
}
