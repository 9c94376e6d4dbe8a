//! What a crash may leave, plainly and slowly: for each block the list of what it may hold.
ghost use Rattle.std.specs.Prelude.{◌<◌};

use crate::device_judge::JudgedCalls;
use std::alloc::{AllocError, Global};
use vr_case_table::{Answer, Stop};
use vr_device::{BlockDevice, DeviceFile, FileDevice, ImageNo, MemoryDevice, memory_device};

/// A write of two bytes to block 0 or 1, or a sync.
#[derive(Clone, Copy)]
enum Call {
    Write(u32, [u8; 2]),
    Sync,
}

/// One of the four calls of which runs are made.
fn call_of(number: u32) -> Call {
    match number % 4 {
        0 => Call::Write(0, [1, 1]),
        1 => Call::Write(0, [2, 2]),
        2 => Call::Write(1, [3, 3]),
        _ => Call::Sync,
    }
}

/// What a read gives of a block, and what a crash may leave in it, the stable content first.
#[derive(Drop)]
struct Block {
    seen: [u8; 2],
    left: Vec<[u8; 2]>,
}

impl Block {
    fn new(alloc: Global) -> Result<Block, AllocError> {
        let left = Vec::from_slice(alloc, &[[0, 0]])?;
        Ok(Block { seen: [0, 0], left })
    }

    fn write(&mut self, bytes: [u8; 2], fails: bool) -> Answer {
        if !fails {
            self.seen = bytes;
        }
        self.left.push(bytes)?;
        Ok(())
    }

    fn sync(&mut self) -> Answer {
        self.left.clear();
        self.left.push(self.seen)?;
        Ok(())
    }
}

/// Two blocks.
#[derive(Drop)]
struct Disk {
    first: Block,
    second: Block,
}

impl Disk {
    fn new(alloc: Global) -> Result<Disk, AllocError> {
        let first = Block::new(alloc)?;
        let second = Block::new(alloc)?;
        Ok(Disk { first, second })
    }

    /// A call of the device, which fails or not.
    fn call(&mut self, call: Call, fails: bool) -> Answer {
        match call {
            Call::Write(0, bytes) => self.first.write(bytes, fails),
            Call::Write(_, bytes) => self.second.write(bytes, fails),
            Call::Sync => self.sync(fails),
        }
    }

    fn sync(&mut self, fails: bool) -> Answer {
        if fails {
            return Ok(());
        }
        self.first.sync()?;
        self.second.sync()
    }
}

/// Judges each run of four calls, whichever of them fail; over a file or not.
pub fn judge(alloc: Global, over_file: bool, judged: &mut JudgedCalls) -> Answer {
    for number in 0..256u32 {
        judge_number(alloc, over_file, number, judged)?;
    }
    Ok(())
}

/// Judges the run of that number, whichever of its calls fail.
fn judge_number(alloc: Global, over_file: bool, number: u32, judged: &mut JudgedCalls) -> Answer {
    let fails: [&[u64]; 6] = [&[], &[0], &[1], &[3], &[0, 2], &[1, 2, 3]];
    for failing in fails {
        let run = Run {
            number,
            over_file,
            failing,
        };
        judge_run(alloc, run, judged)?;
    }
    Ok(())
}

/// A run of four calls by its number, and the numbers of the calls that fail.
#[derive(Clone, Copy)]
struct Run<'a> {
    number: u32,
    over_file: bool,
    failing: &'a [u64],
}

fn judge_run(alloc: Global, run: Run<'_>, judged: &mut JudgedCalls) -> Answer {
    let mut disk = Disk::new(alloc)?;
    judge_device(alloc, run, &mut disk, judged)
}

/// Judges a run on a device in memory, or on one over a file that is made of it.
fn judge_device(alloc: Global, run: Run<'_>, disk: &mut Disk, judged: &mut JudgedCalls) -> Answer {
    let device = memory_device(alloc, 2, 2, run.failing)?;
    if run.over_file {
        judge_file(alloc, device, run, disk, judged)
    } else {
        judge_memory(alloc, device, run, disk, judged)
    }
}

fn judge_memory(
    alloc: Global,
    mut device: MemoryDevice,
    run: Run<'_>,
    disk: &mut Disk,
    judged: &mut JudgedCalls,
) -> Answer {
    let called = judge_calls(&mut device, run, disk, judged);
    judge_images(alloc, &device, disk, called, judged)
}

fn judge_file(
    alloc: Global,
    device: MemoryDevice,
    run: Run<'_>,
    disk: &mut Disk,
    judged: &mut JudgedCalls,
) -> Answer
    requires { 0 < (⟦<MemoryDevice as BlockDevice>⟧.seen device).size }
{
    let size = device.size();
    let blocks = device.blocks();
    let mut device = FileDevice::over(DeviceFile::over(device), size, blocks);
    let called = judge_calls(&mut device, run, disk, judged);
    judge_images(
        alloc,
        &device.into_inner().into_inner(),
        disk,
        called,
        judged,
    )
}

/// Makes the calls of a run to a device and to the plain disk. A file is shut by the first call of
/// it that fails.
fn judge_calls<D: BlockDevice>(
    device: &mut D,
    run: Run<'_>,
    disk: &mut Disk,
    judged: &mut JudgedCalls,
) -> Answer {
    let mut shut = false;
    for place in 0..4u64 {
        let call = call_of(run.number / [1, 4, 16, 64][place as usize]);
        let failing = run.failing.contains(&place);
        judged.count(is_done(device, call) != (shut || failing));
        if !shut {
            disk.call(call, failing)?;
        }
        shut = shut || (run.over_file && failing);
    }
    Ok(())
}

/// Whether a call of the device succeeds.
fn is_done<D: BlockDevice>(device: &mut D, call: Call) -> bool {
    match call {
        Call::Write(n, bytes) => {
            n < device.blocks() && device.size() == 2 && device.write(n, &bytes).is_ok()
        }
        Call::Sync => device.sync().is_ok(),
    }
}

/// The image of each choice, and that no choice is one too high, once the calls were made.
fn judge_images(
    alloc: Global,
    device: &MemoryDevice,
    disk: &Disk,
    called: Answer,
    judged: &mut JudgedCalls,
) -> Answer {
    called?;
    for (number, first) in (0..8u32).zip(disk.first.left.iter()) {
        judge_row(alloc, device, number, *first, &disk.second, judged)?;
    }
    judge_past(alloc, device, disk.first.left.len(), judged)
}

/// The images whose first block has that content, by its number.
fn judge_row(
    alloc: Global,
    device: &MemoryDevice,
    number: u32,
    first: [u8; 2],
    block: &Block,
    judged: &mut JudgedCalls,
) -> Answer {
    for (other, second) in (0..8u32).zip(block.left.iter()) {
        let blocks = image_blocks(alloc, device, &[number, other])?;
        judged.count(blocks == Some([first, *second]));
    }
    Ok(())
}

/// That a choice one too high for the first block gives no image.
fn judge_past(
    alloc: Global,
    device: &MemoryDevice,
    count: usize,
    judged: &mut JudgedCalls,
) -> Answer {
    let past = u32::try_from(count).unwrap_or(u32::MAX);
    judged.count(matches!(
        device.image(alloc, &[past, 0]),
        Err(ImageNo::Choice { block: 0 })
    ));
    Ok(())
}

/// The two blocks of the image that a choice gives, if it gives one.
pub fn image_blocks(
    alloc: Global,
    device: &MemoryDevice,
    choice: &[u32],
) -> Result<Option<[[u8; 2]; 2]>, Stop> {
    match device.image(alloc, choice) {
        Ok(mut image) => Ok(Some([block_of(&mut image, 0), block_of(&mut image, 1)])),
        Err(ImageNo::Memory) => Err(Stop::Memory),
        Err(ImageNo::Choice { .. }) => Ok(None),
    }
}

/// A block of an image, zeros where it can't be read.
fn block_of(image: &mut MemoryDevice, n: u32) -> [u8; 2] {
    let mut bytes = [0; 2];
    if n < image.blocks() && image.size() == 2 {
        let _ = image.read(n, &mut bytes);
    }
    bytes
}
