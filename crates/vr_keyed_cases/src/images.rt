//! The images that a crash leaves, each read by the plain program.
ghost use Rattle.vr_keyed_cases.specs.TheLayout.{IsVolume};

use crate::answers::{Answer, Stop, say, say_number};
use crate::format::head_block;
use crate::held::{Held, boxed_blocks};
use crate::plain::{say_entries, say_records};
use crate::plain_damage::damage_in;
use crate::words::numbers;
use std::alloc::Global;
use std::mem;
use vr_device::{BlockDevice, ImageNo, MemoryDevice};
use vr_types::Geometry;

/// Which content of its past each block takes, by its number. No device has more than these.
#[derive(Clone, Copy)]
struct Choice {
    numbers: [u32; 18],
}

impl Choice {
    /// The first content of each block, which no crash can undo.
    fn first() -> Choice {
        Choice { numbers: [0; 18] }
    }

    /// The numbers of the blocks of a device.
    fn of(&self, device: &MemoryDevice) -> &[u32] {
        let blocks = device.blocks() as usize;
        self.numbers.get(..blocks).unwrap_or(&[])
    }

    /// With the next content of a block.
    fn raised(self, block: u32) -> Choice {
        let mut next = self;
        if let Some(number) = next.numbers.get_mut(block as usize) {
            *number = number.saturating_add(1);
        }
        next
    }

    /// With the content before it.
    fn lowered(self, block: u32) -> Choice {
        let mut back = self;
        if let Some(number) = back.numbers.get_mut(block as usize) {
            *number = number.saturating_sub(1);
        }
        back
    }

    /// After one that misfits a block: the next content of the block after it, and the first of
    /// each before that.
    fn carried(self, block: u32) -> Choice {
        let mut next = self.raised(block.saturating_add(1));
        for (n, number) in next.numbers.iter_mut().enumerate() {
            if n <= block as usize {
                *number = 0;
            }
        }
        next
    }
}

/// The blocks of an image, or the block that the choice misfits.
#[derive(Drop)]
enum Image {
    Blocks(Vec<u8>),
    Misfit(u32),
}

/// The blocks of the image of a choice, one after the other.
fn image_of(alloc: Global, device: &MemoryDevice, choice: Choice) -> Result<Image, Stop> {
    match device.image(alloc, choice.of(device)) {
        Ok(mut image) => all_blocks(alloc, &mut image),
        Err(ImageNo::Choice { block }) => Ok(Image::Misfit(block)),
        Err(ImageNo::Memory) => Err(Stop::Memory),
    }
}

fn all_blocks(alloc: Global, image: &mut MemoryDevice) -> Result<Image, Stop> {
    let mut block = vec![in alloc; 0; 512]?;
    let mut blocks = Vec::new(alloc);
    add_blocks(image, block.as_mut_slice(), &mut blocks)?;
    Ok(Image::Blocks(blocks))
}

fn add_blocks(image: &mut MemoryDevice, block: &mut [u8], blocks: &mut Vec<u8>) -> Answer {
    for n in 0..image.blocks() {
        if n < image.blocks() && image.size() as usize == block.len() {
            let _ = image.read(n, block);
        }
        blocks.extend_from_slice(block)?;
    }
    Ok(())
}

/// The block that the choice misfits.
fn misfit(alloc: Global, device: &MemoryDevice, choice: Choice) -> Result<Option<u32>, Stop> {
    match device.image(alloc, choice.of(device)).err() {
        None => Ok(None),
        Some(ImageNo::Choice { block }) => Ok(Some(block)),
        Some(ImageNo::Memory) => Err(Stop::Memory),
    }
}

/// The choice that takes what was written last to each block.
fn last_choice(alloc: Global, device: &MemoryDevice) -> Result<Choice, Stop> {
    let mut choice = Choice::first();
    let mut block = 0;
    for _try in 0..1000u32 {
        if block >= device.blocks() {
            break;
        }
        choice = choice.raised(block);
        if misfit(alloc, device, choice)?.is_some() {
            choice = choice.lowered(block);
            block += 1;
        }
    }
    Ok(choice)
}

/// The records that were written last: `list`.
pub fn list(alloc: Global, held: &Held, out: &mut String) -> Answer {
    let blocks = last_blocks(alloc, held.blocks.device())?;
    say_records(blocks.as_slice(), held.intervals(), out)
}

/// The entries of the heads that were written last: `entries`.
pub fn entries(alloc: Global, held: &Held, out: &mut String) -> Answer {
    let blocks = last_blocks(alloc, held.blocks.device())?;
    say_entries(blocks.as_slice(), held.intervals(), out)
}

/// The blocks that were written last, one after the other.
pub fn last_blocks(alloc: Global, device: &MemoryDevice) -> Result<Vec<u8>, Stop> {
    let choice = last_choice(alloc, device)?;
    match image_of(alloc, device, choice)? {
        Image::Blocks(blocks) => Ok(blocks),
        Image::Misfit(_) => Err(Stop::Line),
    }
}

/// Notes the records as they are: `mark`.
pub fn mark(alloc: Global, held: &mut Held, out: &mut String) -> Answer {
    let mut mark = String::new(alloc);
    list(alloc, held, &mut mark)?;
    held.mark = mark;
    say(out, "ok")
}

/// How many images have the records that were noted, how many those that were written last, and how
/// many others, or blocks that break a rule.
#[derive(Clone, Copy)]
struct Tally {
    noted: u64,
    last: u64,
    others: u64,
}

impl Tally {
    fn count(&mut self, sound: bool, records: &str, noted: &str, last: &str) {
        if !sound {
            self.others = self.others.saturating_add(1);
        } else if records == noted {
            self.noted = self.noted.saturating_add(1);
        } else if records == last {
            self.last = self.last.saturating_add(1);
        } else {
            self.others = self.others.saturating_add(1);
        }
    }
}

/// Reads each image that a crash may leave now: `images`.
pub fn images(alloc: Global, held: &Held, out: &mut String) -> Answer {
    let tally = tally_of(alloc, held)?;
    say_number(out, tally.noted)?;
    say(out, " noted, ")?;
    say_number(out, tally.last)?;
    say(out, " new, ")?;
    say_number(out, tally.others)?;
    say(out, " others")
}

fn tally_of(alloc: Global, held: &Held) -> Result<Tally, Stop> {
    let mut last = String::new(alloc);
    list(alloc, held, &mut last)?;
    tally_all(alloc, held, last.as_str())
}

/// Counts the images of all choices, the content of block 0 first.
fn tally_all(alloc: Global, held: &Held, last: &str) -> Result<Tally, Stop> {
    let mut tally = Tally {
        noted: 0,
        last: 0,
        others: 0,
    };
    let mut choice = Choice::first();
    let blocks = held.blocks.device().blocks();
    for _image in 0..4000u32 {
        match count_image(alloc, held, choice, last, &mut tally)? {
            None => choice = choice.raised(0),
            Some(block) if block.saturating_add(1) < blocks => choice = choice.carried(block),
            Some(_) => break,
        }
    }
    Ok(tally)
}

/// Counts the image of a choice. Answers the block that the choice misfits.
fn count_image(
    alloc: Global,
    held: &Held,
    choice: Choice,
    last: &str,
    tally: &mut Tally,
) -> Result<Option<u32>, Stop> {
    match image_of(alloc, held.blocks.device(), choice)? {
        Image::Misfit(block) => Ok(Some(block)),
        Image::Blocks(blocks) => {
            let mut records = String::new(alloc);
            let intervals = held.intervals();
            say_records(blocks.as_slice(), intervals, &mut records)?;
            let sound = damage_in(blocks.as_slice(), intervals, 505).is_none();
            tally.count(sound, records.as_str(), held.mark.as_str(), last);
            Ok(None)
        }
    }
}

/// The part on the image of a choice, as after a restart: `crash NUMBER..`, or the last contents.
/// Blocks without a number take their first content.
pub fn crash(alloc: Global, held: &mut Held, rest: &str, out: &mut String) -> Answer {
    let mut new = crashed(alloc, held.geometry, held.blocks.device(), rest)?;
    mem::swap(held, &mut *new);
    say(out, "ok")
}

fn crashed(
    alloc: Global,
    geometry: Geometry,
    device: &MemoryDevice,
    rest: &str,
) -> Result<Box<Held>, Stop>
    requires { IsVolume geometry }
{
    if rest.is_empty() {
        let choice = last_choice(alloc, device)?;
        return restarted(alloc, geometry, device, choice.of(device));
    }
    let mut choice = numbers(alloc, rest)?;
    if choice.len() < device.blocks() as usize {
        choice.resize(device.blocks() as usize, 0)?;
    }
    restarted(alloc, geometry, device, choice.as_slice())
}

fn restarted(
    alloc: Global,
    geometry: Geometry,
    device: &MemoryDevice,
    choice: &[u32],
) -> Result<Box<Held>, Stop>
    requires { IsVolume geometry }
{
    match device.image(alloc, choice) {
        Ok(image) => {
            let blocks = boxed_blocks(alloc, image, head_block(geometry))?;
            Held::attached(alloc, geometry, blocks)
        }
        Err(ImageNo::Choice { .. }) => Err(Stop::Line),
        Err(ImageNo::Memory) => Err(Stop::Memory),
    }
}
