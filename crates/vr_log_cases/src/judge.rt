//! The crate beside the plain program: each image that a crash leaves of a run that stops, and
//! blocks with each of their first bytes changed.
ghost use Rattle.std.specs.Prelude.{◌≡◌};
ghost use Rattle.vr_types.specs.Geometry.{IsAllowed};
ghost use Rattle.vr_log.specs.LogNow.{IsOf};

use crate::answers::{Answer, Stop, say, say_number};
use crate::expected::Expected;
use crate::images::{block_of, image_of, write};
use crate::plain::{Blocks as PlainBlocks, Found, add_record, find};
use crate::steps::{ALL_STEPS, run_to, shape};
use std::alloc::Global;
use vr_device::{BlockDevice, MemoryDevice, direct};
use vr_log::{LogContent, LogReadNo, read_back};
use vr_types::{Blocks, Geometry};

/// The steps before the restart.
const FIRST_STEPS: usize = 17;

/// The values that a byte is given.
const VALUES: [u8; 7] = [0, 1, 2, 3, 4, 128, 255];

/// How many answers were judged, and how many of them the crate gives otherwise than the plain
/// program.
#[derive(Clone, Copy)]
struct Judged {
    answers: u64,
    differ: u64,
}

impl Judged {
    fn count(&mut self, same: bool) {
        self.answers = self.answers.saturating_add(1);
        if !same {
            self.differ = self.differ.saturating_add(1);
        }
    }

    fn say(&self, out: &mut String) -> Answer {
        say_number(out, self.differ)?;
        say(out, " differ of ")?;
        say_number(out, self.answers)
    }
}

/// Judges `images`, those of a run that stops at each call in turn, or `bytes`, blocks with a byte
/// changed.
pub fn judge(alloc: Global, kind: &str, out: &mut String) -> Answer {
    let mut judged = Judged {
        answers: 0,
        differ: 0,
    };
    match kind {
        "images" => judge_stops(alloc, &mut judged)?,
        "bytes" => judge_bytes(alloc, &mut judged)?,
        _ => return Err(Stop::Line),
    }
    judged.say(out)
}

/// Each run, up to the first that doesn't stop.
fn judge_stops(alloc: Global, judged: &mut Judged) -> Answer {
    for stop in 0..200u64 {
        if judge_stop(alloc, stop, judged)? {
            return Ok(());
        }
    }
    Err(Stop::Line)
}

/// The images of a run on a device that stops at that call. It answers whether the run came to its
/// end.
fn judge_stop(alloc: Global, stop: u64, judged: &mut Judged) -> Result<bool, Stop> {
    let mut expected = Expected::new(alloc);
    let (device, ended) = run_to(alloc, stop, ALL_STEPS, &mut expected)?;
    judge_images(alloc, &device, &expected, judged)?;
    Ok(ended)
}

fn judge_images(
    alloc: Global,
    device: &MemoryDevice,
    expected: &Expected,
    judged: &mut Judged,
) -> Answer {
    let mut choice = vec![in alloc; 0; shape().blocks as usize]?;
    judge_choices(alloc, device, expected, choice.as_mut_slice(), judged)
}

/// The image of each choice: those of block 1 first, and where it has no more those of the next.
fn judge_choices(
    alloc: Global,
    device: &MemoryDevice,
    expected: &Expected,
    choice: &mut [u32],
    judged: &mut Judged,
) -> Answer {
    for _ in 0..100_000u32 {
        let misfit = judge_choice(alloc, device, expected, choice, judged)?;
        match misfit {
            None => raise(choice, 1),
            Some(block) if block > shape().log => return Ok(()),
            Some(block) => next_block(choice, block as usize),
        }
    }
    Err(Stop::Line)
}

/// The image of a choice, or the block that it misfits.
fn judge_choice(
    alloc: Global,
    device: &MemoryDevice,
    expected: &Expected,
    choice: &[u32],
    judged: &mut Judged,
) -> Result<Option<u32>, Stop> {
    match image_of(alloc, device, choice)? {
        Ok(left) => {
            judge_image(alloc, left, Some(expected), judged)?;
            Ok(None)
        }
        Err(block) => Ok(Some(block)),
    }
}

/// Takes the next content of a block.
fn raise(choice: &mut [u32], n: usize) {
    if let Some(number) = choice.get_mut(n) {
        *number = number.saturating_add(1);
    }
}

/// Takes the first content of a block, and the next of the one after it.
fn next_block(choice: &mut [u32], n: usize) {
    if let Some(number) = choice.get_mut(n) {
        *number = 0;
    }
    raise(choice, n.saturating_add(1));
}

/// What the plain program finds in an image is what may be left, and what the crate finds.
fn judge_image(
    alloc: Global,
    image: MemoryDevice,
    expected: Option<&Expected>,
    judged: &mut Judged,
) -> Answer {
    let mut image = image;
    let mut all = Vec::new(alloc);
    add_blocks(alloc, &mut image, &mut all)?;
    judge_found(alloc, image, all.as_slice(), expected, judged)
}

/// Adds the bytes of the blocks up to the last of the log.
fn add_blocks(alloc: Global, image: &mut MemoryDevice, into: &mut Vec<u8>) -> Answer {
    for n in 0..shape().log.saturating_add(1) {
        add_block(alloc, image, n, into)?;
    }
    Ok(())
}

fn add_block(alloc: Global, image: &mut MemoryDevice, n: u32, into: &mut Vec<u8>) -> Answer {
    let block = block_of(alloc, image, n)?;
    into.extend_from_slice(block.as_slice())?;
    Ok(())
}

fn judge_found(
    alloc: Global,
    image: MemoryDevice,
    all: &[u8],
    expected: Option<&Expected>,
    judged: &mut Judged,
) -> Answer {
    let mut bytes = Vec::new(alloc);
    let blocks = PlainBlocks {
        bytes: all,
        size: shape().size as usize,
        log: shape().log as usize,
    };
    let found = find(blocks, &mut bytes)?;
    if let Some(expected) = expected {
        judged.count(expected.allows(found, bytes.as_slice()));
    }
    let same = finds_same(alloc, image, found, bytes.as_slice())?;
    judged.count(same);
    Ok(())
}

/// Whether the crate finds the same.
fn finds_same(
    alloc: Global,
    image: MemoryDevice,
    found: Found,
    bytes: &[u8],
) -> Result<bool, Stop> {
    let geometry = shape();
    if !geometry.is_allowed()
        || image.blocks() != geometry.blocks
        || image.size() != geometry.size
    {
        return Err(Stop::Line);
    }
    match direct(alloc, image) {
        Ok(mut blocks) => reads_same(alloc, &mut blocks, geometry, found, bytes),
        Err(_) => Err(Stop::Memory),
    }
}

fn reads_same<B: Blocks>(
    alloc: Global,
    blocks: &mut B,
    geometry: Geometry,
    found: Found,
    bytes: &[u8],
) -> Result<bool, Stop>
    requires allowed { IsAllowed geometry }
    requires shape { IsOf geometry (B.seen blocks.old) }
{
    match read_back(alloc, blocks, &geometry) {
        Ok(content) => says_same(alloc, &content, found, bytes),
        Err(LogReadNo::Damaged { block }) => Ok(found.damaged == u64::from(block)),
        Err(LogReadNo::Fault(_)) => Ok(false),
        Err(LogReadNo::Memory) => Err(Stop::Memory),
    }
}

fn says_same(
    alloc: Global,
    content: &LogContent,
    found: Found,
    bytes: &[u8],
) -> Result<bool, Stop> {
    let mut spelled = Vec::new(alloc);
    add_records(content, &mut spelled)?;
    let same = bytes.get(..found.end) == Some(spelled.as_slice());
    Ok(same && found.damaged == 0 && content.generation() == found.generation)
}

fn add_records(content: &LogContent, into: &mut Vec<u8>) -> Answer {
    for rec in content.records() {
        add_record(into, rec)?;
    }
    Ok(())
}

/// Blocks of a log before a restart and after it, with each of the first bytes of each block
/// changed.
fn judge_bytes(alloc: Global, judged: &mut Judged) -> Answer {
    judge_changes(alloc, FIRST_STEPS, judged)?;
    judge_changes(alloc, ALL_STEPS, judged)
}

fn judge_changes(alloc: Global, steps: usize, judged: &mut Judged) -> Answer {
    let mut expected = Expected::new(alloc);
    let (device, ended) = run_to(alloc, 1_000_000, steps, &mut expected)?;
    judged.count(ended);
    for n in 1..shape().log.saturating_add(1) {
        judge_block(alloc, &device, n, judged)?;
    }
    Ok(())
}

fn judge_block(alloc: Global, device: &MemoryDevice, n: u32, judged: &mut Judged) -> Answer {
    for place in 0..64usize {
        judge_byte(alloc, device, n, place, judged)?;
    }
    Ok(())
}

fn judge_byte(
    alloc: Global,
    device: &MemoryDevice,
    n: u32,
    place: usize,
    judged: &mut Judged,
) -> Answer {
    for value in VALUES {
        judge_change(alloc, device, n, place, value, judged)?;
    }
    Ok(())
}

fn judge_change(
    alloc: Global,
    device: &MemoryDevice,
    n: u32,
    place: usize,
    value: u8,
    judged: &mut Judged,
) -> Answer {
    let choice = vec![in alloc; 0; shape().blocks as usize]?;
    match image_of(alloc, device, choice.as_slice())? {
        Ok(left) => judge_changed(alloc, left, n, place, value, judged),
        Err(_) => Err(Stop::Line),
    }
}

fn judge_changed(
    alloc: Global,
    image: MemoryDevice,
    n: u32,
    place: usize,
    value: u8,
    judged: &mut Judged,
) -> Answer {
    let mut image = image;
    change(alloc, &mut image, n, place, value)?;
    judge_image(alloc, image, None, judged)
}

/// Changes a byte of a block.
fn change(alloc: Global, image: &mut MemoryDevice, n: u32, place: usize, value: u8) -> Answer {
    let mut block = block_of(alloc, image, n)?;
    if let Some(byte) = block.get_mut(place) {
        *byte = value;
    }
    write(image, n, block.as_slice())
}
