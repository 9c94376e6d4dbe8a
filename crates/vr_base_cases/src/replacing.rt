//! A block that is replaced through a log, on a device that may stop.
ghost use Rattle.std.specs.Prelude.{◌≡◌, ◌∷◌, [], replicate, IfOk};
ghost use Rattle.vr_device.specs.Past.{unwritten};
ghost use Rattle.vr_device.specs.PastEvent.{blocks_of};
ghost use Rattle.vr_device.specs.Memory.{past_in};

use crate::device_answers::say_fault;
use crate::held::Held;
use std::alloc::Global;
use vr_case_table::{Answer, Answers, Stop, long_of, parted};
use vr_device::{Direct, MemoryDevice, direct, memory_device, replace_all};
use vr_types::DeviceFault;

/// Replaces block 1 of a new device of three blocks of two bytes, whose log is block 0, by two
/// contents, and leaves the device: `STOP`, the number of the first call that fails.
pub fn replace(alloc: Global, held: &mut Held, rest: &str, out: &mut Answers) -> Answer {
    let (stop, rest) = parted(rest);
    let stop = long_of(stop)?;
    if !rest.is_empty() {
        return Err(Stop::Line);
    }
    let contents = contents(alloc)?;
    replace_by(alloc, held, contents.as_slice(), stop, out)
}

fn replace_by(
    alloc: Global,
    held: &mut Held,
    contents: &[Vec<u8>],
    stop: u64,
    out: &mut Answers,
) -> Answer
    requires { blocks_of contents.now ≡ (0 ∷ 1 ∷ []) ∷ (0 ∷ 2 ∷ []) ∷ [] }
{
    let mut blocks = new_blocks(alloc, stop)?;
    let done = replace_each(&mut blocks, contents);
    held.set(Held::Memory(blocks.into_inner()));
    say_fault(done, out);
    Ok(())
}

/// The contents 0001 and 0002.
pub fn contents(alloc: Global) -> Result<Vec<Vec<u8>>, Stop>
    ensures { IfOk result (λ contents.
        blocks_of contents.items ≡ (0 ∷ 1 ∷ []) ∷ (0 ∷ 2 ∷ []) ∷ []) }
{
    let mut contents = Vec::new(alloc);
    contents.push(Vec::from_slice(alloc, &[0, 1])?)?;
    contents.push(Vec::from_slice(alloc, &[0, 2])?)?;
    Ok(contents)
}

/// Blocks of zeros, whose device stops at that call.
pub fn new_blocks(alloc: Global, stop: u64) -> Result<Direct<MemoryDevice>, Stop>
    ensures { IfOk result (λ blocks. past_in blocks ≡ unwritten 2 (replicate 3 (replicate 2 0))) }
{
    let mut device = memory_device(alloc, 2, 3, &[])?;
    device.stop(stop);
    match direct(alloc, device) {
        Ok(blocks) => Ok(blocks),
        Err(_) => Err(Stop::Memory),
    }
}

/// Replaces block 1 by each of the contents.
pub fn replace_each(
    blocks: &mut Direct<MemoryDevice>,
    contents: &[Vec<u8>],
) -> Result<(), DeviceFault>
    requires blocks { past_in blocks.old ≡ unwritten 2 (replicate 3 (replicate 2 0)) }
    requires contents { blocks_of contents.now ≡ (0 ∷ 1 ∷ []) ∷ (0 ∷ 2 ∷ []) ∷ [] }
{
    let mut entry = [0; 2];
    replace_all(blocks, 0, 1, contents, &mut entry)
}
