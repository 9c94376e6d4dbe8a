//! The header of a volume, read from block 0.
ghost use Rattle.std.specs.Prelude.{◌≡◌, ◌↔◌, ◌+◌, ◌%◌, ◌/◌, ◌≤◌, ℕ, IsTrue, IfOk, IfErr, IfSome};
ghost use Rattle.std.specs.Prelude.{None};
ghost use Rattle.std.specs.Prelude.{length};
ghost use Rattle.vr_types.specs.Blocks.{Keeps};
ghost use Rattle.vr_types.specs.Geometry.{IsAllowed};
ghost use Rattle.vr_types.specs.Image.{block_at};
ghost use Rattle.vr_types.specs.declared.geometry.Geometry.{Geometry as Shape};
ghost use Rattle.vr_log.specs.LogNow.{IsOf};
ghost use Rattle.vr_attach.specs.Header.{header_block, header_bytes as bytes_of};
ghost use Rattle.vr_mount.specs.Header.{HasHeaderCause, IsHeaderOf, IsOwnNo, IsRefusal};
ghost use Rattle.vr_mount.specs.Header.{version_in as version_stated, stated as shape_stated};

use crate::no::HeaderNo;
use vr_types::{Blocks, Geometry, are_zeros, four_at, is_block_size};

/// The bytes of a header that are used.
const USED: usize = 30;

/// The last decimal digit of a number.
fn digit(number: u32) -> u8
    ensures { result ≡ 48 + number % 10 }
{
    b'0' + (number % 10) as u8
}

/// The bytes of the header of a volume of this number, without the zeros after them.
pub fn header_bytes(geometry: &Geometry, number: u32) -> [u8; 30]
    ensures { result ≡ bytes_of geometry.now number }
{
    let s = geometry.size.to_be_bytes();
    let b = geometry.blocks.to_be_bytes();
    let l = geometry.log.to_be_bytes();
    let a = geometry.area.to_be_bytes();
    let tens = digit(number / 10);
    let ones = digit(number);
    [
        b'V', b'R', b'M', b'V', 0, 0, 0, 1, s[0], s[1], s[2], s[3], b[0], b[1], b[2], b[3], l[0],
        l[1], l[2], l[3], a[0], a[1], a[2], a[3], b'V', b'O', b'L', tens, ones, b' ',
    ]
}

/// Whether these are the bytes of the header of a volume of this number and shape.
fn are_used(geometry: &Geometry, number: u32, used: &[u8]) -> bool
    ensures { IsTrue result ↔ (used.now ≡ bytes_of geometry.now number) }
{
    let bytes = header_bytes(geometry, number);
    used == bytes.as_slice()
}

/// Whether a block is the header of a volume of this number and shape.
fn is_header(geometry: &Geometry, number: u32, block: &[u8]) -> bool
    requires size { length block.now ≡ geometry.now.size }
    requires room { 30 ≤ length block.now }
    ensures { IsTrue result ↔ (block.now ≡ header_block geometry.now number) }
{
    let (used, free) = block.split_at(USED);
    are_used(geometry, number, used) && are_zeros(free)
}

/// The version that a block states, where it begins as a header.
fn version_in(block: &[u8]) -> Option<u32>
    ensures { result ≡ version_stated block.now }
{
    if block.len() >= 8 && &block[..4] == b"VRMV".as_slice() {
        Some(four_at(block, 4))
    } else {
        None
    }
}

/// The shape that the block of a header states, on this many blocks.
fn stated(count: u32, block: &[u8]) -> Geometry
    requires room { 30 ≤ length block.now }
    requires most { length block.now ≤ 32768 }
    ensures { result ≡ shape_stated count block.now }
{
    Geometry {
        size: block.len() as u32,
        blocks: count,
        log: four_at(block, 16),
        area: four_at(block, 20),
    }
}

/// The shape of the volume of this number whose header a block is, on this many blocks.
#[tactic(auto, using(crate::proofs::Headers::header_states))]
fn geometry_in(count: u32, number: u32, block: &[u8]) -> Option<Geometry>
    ensures some { IfSome result (IsHeaderOf count (length block.now) number block.now) }
    ensures none { result ≡ None → (geometry : Shape)
        → IsHeaderOf count (length block.now) number block.now geometry → ⊥ }
{
    if !is_block_size(block.len()) {
        return None;
    }
    let geometry = stated(count, block);
    if geometry.is_allowed() && is_header(&geometry, number, block) {
        Some(geometry)
    } else {
        None
    }
}

/// The shape of the volume of this number whose header a block is, or why it is none.
fn header_of(count: u32, number: u32, block: &[u8]) -> Result<Geometry, HeaderNo>
    ensures ok { IfOk result (IsHeaderOf count (length block.now) number block.now) }
    ensures err { IfErr result (IsRefusal count (length block.now) number block.now) }
    ensures own { IfErr result IsOwnNo }
{
    match version_in(block) {
        Some(1) | None => match geometry_in(count, number, block) {
            Some(geometry) => Ok(geometry),
            None => Err(HeaderNo::Damaged),
        },
        Some(found) => Err(HeaderNo::Version { found }),
    }
}

/// Reads the header of a volume of this number from block 0, on this many blocks: its shape, which a
/// volume may have and which is that of the blocks.
///
/// `Version`: block 0 begins with `VRMV`, and its version isn't 1. `Damaged`: it isn't the header
/// of any shape that the blocks may have. Both come exactly then, unless the device fails: `Read`
/// where it failed to read, `Write` where another block had to be written out.
pub fn read_header<B: Blocks>(blocks: &mut B, count: u32, number: u32) -> Result<Geometry, HeaderNo>
    requires { (B.seen blocks.old).count ≡ count }
    ensures header { IsTrue B.tells → IfOk result (λ geometry.
        block_at (B.seen blocks.old).cur 0 ≡ header_block geometry number) }
    ensures allowed { IfOk result IsAllowed }
    ensures shape { IfOk result (λ geometry. IsOf geometry (B.seen blocks.old)) }
    ensures refused { IsTrue B.tells → IfErr result (IsRefusal count (B.seen blocks.old).size number
        (block_at (B.seen blocks.old).cur 0)) }
    ensures keeps { Keeps B.tells (B.seen blocks.old) (B.seen blocks.new) }
    ensures cause { HasHeaderCause (B.faults blocks.old) (B.faults blocks.new) result }
{
    if count == 0 {
        return Err(HeaderNo::Damaged);
    }
    let block = blocks.get(0)?;
    header_of(count, number, block)
}
