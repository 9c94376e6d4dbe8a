//! What a crash may leave of a block.

use crate::answers::{Answer, Stop, say, say_bytes};
use crate::calls::BLOCKS;
use crate::judge::Judged;
use std::alloc::Global;
use vr_device::{BlockDevice, ImageNo, MemoryDevice};

/// The block in the image in which it has that choice and the others their stable contents, if
/// there is one.
fn content(
    alloc: Global,
    device: &MemoryDevice,
    block: u32,
    choice: u32,
) -> Result<Option<[u8; 2]>, Stop> {
    if block >= BLOCKS {
        return Err(Stop::Line);
    }
    let mut choices = [0; BLOCKS as usize];
    choices[block as usize] = choice;
    match device.image(alloc, &choices) {
        Ok(mut image) => Ok(Some(block_of(&mut image, block))),
        Err(ImageNo::Memory) => Err(Stop::Memory),
        Err(ImageNo::Choice { .. }) => Ok(None),
    }
}

/// A block of an image, zeros where it can't be read.
fn block_of(image: &mut MemoryDevice, n: u32) -> [u8; 2] {
    let mut bytes = [0; 2];
    if n < image.blocks() && image.size() == 2 {
        let _ = image.read(n, &mut bytes);
    }
    bytes
}

/// Writes each content that a crash may leave of a block, the stable one first.
pub fn say_left(alloc: Global, device: &MemoryDevice, block: u32, out: &mut String) -> Answer {
    for choice in 0..BLOCKS {
        let Some(bytes) = content(alloc, device, block, choice)? else {
            return Ok(());
        };
        say(out, if choice > 0 { " " } else { "" })?;
        say_bytes(alloc, out, &bytes)?;
    }
    Ok(())
}

/// Judges the contents that a crash may leave of a block, and that there is no further one.
pub fn judge_left(
    alloc: Global,
    device: &MemoryDevice,
    block: u32,
    wanted: &[[u8; 2]],
    judged: &mut Judged,
) -> Answer {
    for choice in 0..=wanted.len().min(64) as u32 {
        let found = content(alloc, device, block, choice)?;
        judged.count(found == wanted.get(choice as usize).copied());
    }
    Ok(())
}
