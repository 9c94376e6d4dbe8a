//! The volume of the device, opened, and bytes of its blocks that are changed before.
ghost use Rattle.std.specs.Prelude.{◌≡◌, IfOk};

use crate::answers::{Answer, Stop, say};
use crate::desk::Desk;
use crate::formatting::{block_of, write};
use crate::words::{bytes_in, number, parted};
use std::alloc::Global;
use std::fmt::Write;
use vr_device::{BlockDevice, Direct, MemoryDevice, direct};
use vr_recover::{OpenNo, Opened, Unserved, open_volume};
use vr_types::Blocks;

/// Writes bytes into a block of the device: `N FROM HEX`.
pub fn put(alloc: Global, desk: &mut Desk, rest: &str, out: &mut String) -> Answer {
    let (n, rest) = parted(rest);
    let (from, digits) = parted(rest);
    let bytes = bytes_in(alloc, digits)?;
    put_bytes(alloc, desk, number(n)?, number(from)? as usize, &bytes)?;
    say(out, "ok")
}

fn put_bytes(alloc: Global, desk: &mut Desk, n: u32, from: usize, bytes: &[u8]) -> Answer {
    let mut block = block_of(alloc, desk.device()?, n)?;
    change(&mut block, from, bytes)?;
    write(desk.device()?, n, &block)
}

/// Makes the bytes from a byte on these.
fn change(block: &mut [u8], from: usize, bytes: &[u8]) -> Answer {
    if from > block.len() || bytes.len() > block.len() - from {
        return Err(Stop::Line);
    }
    block[from..from + bytes.len()].copy_from_slice(bytes);
    Ok(())
}

/// Opens the volume of a number: how many parts and entries it has, and how many areas are free; or
/// why it isn't opened.
pub fn open(alloc: Global, desk: &mut Desk, rest: &str, out: &mut String) -> Answer {
    let number = number(rest)?;
    let device = desk.take()?;
    let count = device.blocks();
    let mut blocks = on_device(alloc, device)?;
    let answer = opened(alloc, &mut *blocks, count, number, out);
    desk.set(Box::into_inner(blocks).into_inner());
    answer
}

/// The blocks of a device, in a box.
fn on_device(alloc: Global, device: MemoryDevice) -> Result<Box<Direct<MemoryDevice>>, Stop>
    ensures { IfOk result (λ blocks. blocks.value ≡ device) }
{
    match direct(alloc, device) {
        Ok(blocks) => boxed(alloc, blocks),
        Err(_) => Err(Stop::Memory),
    }
}

fn boxed(alloc: Global, blocks: Direct<MemoryDevice>) -> Result<Box<Direct<MemoryDevice>>, Stop>
    ensures { IfOk result (λ boxed. boxed.value ≡ blocks) }
{
    match Box::new(alloc, blocks) {
        Ok(blocks) => Ok(blocks),
        Err(_) => Err(Stop::Memory),
    }
}

fn opened<B: Blocks>(
    alloc: Global,
    blocks: &mut B,
    count: u32,
    number: u32,
    out: &mut String,
) -> Answer
    requires { (B.seen blocks.old).count ≡ count }
{
    match open_volume(alloc, blocks, count, number) {
        Ok(opened) => say_opened(out, &opened),
        Err(no) => say_no(out, no),
    }
}

fn say_opened(out: &mut String, opened: &Opened) -> Answer {
    let parts = opened.parts.len();
    let entries = opened.catalog.as_slice().len();
    let free = opened.space.free();
    write!(out, "parts {parts} entries {entries} free {free}")?;
    Ok(())
}

/// Writes why a volume isn't opened.
fn say_no(out: &mut String, no: OpenNo) -> Answer {
    match no {
        OpenNo::Damaged { block, rule } => {
            write!(out, "damaged {block} {rule}")?;
            Ok(())
        }
        OpenNo::Version { found } => {
            write!(out, "version {found}")?;
            Ok(())
        }
        OpenNo::Unserved { block, cause } => {
            write!(out, "unserved {block} ")?;
            say(out, cause_word(cause))
        }
        OpenNo::Read => say(out, "read"),
        OpenNo::Write => say(out, "write"),
        OpenNo::Memory => say(out, "memory"),
    }
}

fn cause_word(cause: Unserved) -> &'static str {
    match cause {
        Unserved::BuiltIndex => "BuiltIndex",
        Unserved::LongRecord => "LongRecord",
    }
}
