//! What a crash leaves of a volume in memory.

use crate::answers::{Answer, Stop, say};
use crate::desk::Desk;
use std::alloc::Global;
use vr_device::{BlockDevice, ImageNo, MemoryDevice};

/// More than the contents that any block has.
const MOST: u32 = 1000;

/// Which content a crash leaves of each block: the stable one, the last one that was written to it,
/// or one of both in turn, from an even or an odd block on.
#[derive(Clone, Copy)]
pub enum Leaves {
    Oldest,
    Newest,
    Even,
    Odd,
}

/// Leaves the device as a crash does: `oldest`, `newest`, `even` or `odd`.
pub fn crash(alloc: Global, desk: &mut Desk, rest: &str, out: &mut String) -> Answer {
    let leaves = match rest {
        "oldest" => Leaves::Oldest,
        "newest" => Leaves::Newest,
        "even" => Leaves::Even,
        "odd" => Leaves::Odd,
        _ => return Err(Stop::Line),
    };
    let device = left_by(alloc, desk.device()?, leaves)?;
    desk.set(device);
    say(out, "ok")
}

/// The number of the last content that was written to each block.
fn newest_of(alloc: Global, device: &MemoryDevice) -> Result<Vec<u32>, Stop> {
    let count = device.blocks();
    // One number more than there are blocks, so that no image is made while numbers are looked for.
    let mut choice = vec![in alloc; MOST; count as usize + 1]?;
    match raise_all(alloc, device, &mut choice, count) {
        Ok(()) => {
            choice.truncate(count as usize);
            Ok(choice)
        }
        Err(stop) => Err(stop),
    }
}

/// Makes the number of each block that of its last content, from the first block on.
fn raise_all(alloc: Global, device: &MemoryDevice, choice: &mut Vec<u32>, count: u32) -> Answer {
    for block in 0..count {
        raise(alloc, device, choice, block)?;
    }
    Ok(())
}

/// Makes the number of a block that of its last content, where those of the blocks before it name
/// contents.
fn raise(alloc: Global, device: &MemoryDevice, choice: &mut Vec<u32>, block: u32) -> Answer {
    for number in 1..=MOST {
        set(choice, block, number)?;
        if !names(alloc, device, choice.as_slice(), block)? {
            return set(choice, block, number - 1);
        }
    }
    Err(Stop::Line)
}

/// Whether a choice names contents of the blocks up to this one.
fn names(alloc: Global, device: &MemoryDevice, choice: &[u32], block: u32) -> Result<bool, Stop> {
    match device.image(alloc, choice).err() {
        Some(ImageNo::Choice { block: first }) => Ok(block < first),
        _ => Err(Stop::Memory),
    }
}

fn set(choice: &mut Vec<u32>, block: u32, number: u32) -> Answer {
    *choice.get_mut(block as usize).ok_or(Stop::Line)? = number;
    Ok(())
}

/// Keeps the numbers of the blocks that are left with their last content, and makes the others 0.
fn choose(choice: &mut Vec<u32>, leaves: Leaves) {
    for at in 0..choice.len() {
        let keeps = match leaves {
            Leaves::Oldest => false,
            Leaves::Newest => true,
            Leaves::Even => at % 2 == 0,
            Leaves::Odd => at % 2 == 1,
        };
        if !keeps {
            choice[at] = 0;
        }
    }
}

/// The device that a crash leaves.
pub fn left_by(alloc: Global, device: &MemoryDevice, leaves: Leaves) -> Result<MemoryDevice, Stop> {
    let choice = choice_of(alloc, device, leaves)?;
    device
        .image(alloc, choice.as_slice())
        .ok()
        .ok_or(Stop::Memory)
}

/// The number of the content that is left of each block.
fn choice_of(alloc: Global, device: &MemoryDevice, leaves: Leaves) -> Result<Vec<u32>, Stop> {
    match leaves {
        Leaves::Oldest => Ok(vec![in alloc; 0; device.blocks() as usize]?),
        _ => {
            let mut choice = newest_of(alloc, device)?;
            choose(&mut choice, leaves);
            Ok(choice)
        }
    }
}

/// The same device, on which nothing was written yet: each block has one content.
pub fn copy_of(alloc: Global, device: &MemoryDevice) -> Result<MemoryDevice, Stop> {
    left_by(alloc, device, Leaves::Oldest)
}

/// Each image that a crash may leave of a device, one after another: every content of each block
/// beside every content of each other one.
#[derive(Drop)]
pub struct Images {
    newest: Vec<u32>,
    choice: Vec<u32>,
    left: bool,
}

impl Images {
    /// The images that a crash may leave of a device.
    pub fn of(alloc: Global, device: &MemoryDevice) -> Result<Images, Stop> {
        let newest = newest_of(alloc, device)?;
        let choice = vec![in alloc; 0; newest.len()]?;
        Ok(Images {
            newest,
            choice,
            left: true,
        })
    }

    /// The next image of that device.
    pub fn next(
        &mut self,
        alloc: Global,
        device: &MemoryDevice,
    ) -> Result<Option<MemoryDevice>, Stop> {
        if !self.left {
            return Ok(None);
        }
        let image = device.image(alloc, self.choice.as_slice()).ok();
        self.left = self.advance();
        match image {
            Some(image) => Ok(Some(image)),
            None => Err(Stop::Memory),
        }
    }

    /// Goes on to the next choice, as a number is counted on. False where that was the last.
    fn advance(&mut self) -> bool {
        for at in 0..self.choice.len().min(self.newest.len()) {
            if self.choice[at] < self.newest[at] {
                self.choice[at] += 1;
                return true;
            }
            self.choice[at] = 0;
        }
        false
    }
}
