//! What a restart may find of a block that is replaced through a log, plainly and slowly.
ghost use Rattle.std.specs.Prelude.{◌≡◌, ◌∷◌, []};
ghost use Rattle.vr_device.specs.PastEvent.{blocks_of};

use crate::device_judge::JudgedCalls;
use crate::plain_disk::image_blocks;
use crate::replacing::{contents, new_blocks, replace_each};
use std::alloc::Global;
use vr_case_table::Answer;
use vr_device::MemoryDevice;

/// What a restart takes for the content.
fn found(blocks: [[u8; 2]; 2]) -> [u8; 2] {
    let [log, home] = blocks;
    if log[0] == 0 { home } else { [0, log[1]] }
}

/// Judges each image that a crash leaves after two replacements, on a device that stops at each
/// call in turn.
pub fn judge(alloc: Global, judged: &mut JudgedCalls) -> Answer {
    let contents = contents(alloc)?;
    judge_stops(alloc, contents.as_slice(), judged)
}

fn judge_stops(alloc: Global, contents: &[Vec<u8>], judged: &mut JudgedCalls) -> Answer
    requires { blocks_of contents.now ≡ (0 ∷ 1 ∷ []) ∷ (0 ∷ 2 ∷ []) ∷ [] }
{
    for stop in 0..16u64 {
        judge_stop(alloc, contents, stop, judged)?;
    }
    Ok(())
}

/// Judges the images on a device that stops at that call.
fn judge_stop(alloc: Global, contents: &[Vec<u8>], stop: u64, judged: &mut JudgedCalls) -> Answer
    requires { blocks_of contents.now ≡ (0 ∷ 1 ∷ []) ∷ (0 ∷ 2 ∷ []) ∷ [] }
{
    let mut blocks = new_blocks(alloc, stop)?;
    let done = replace_each(&mut blocks, contents);
    judged.count(done.is_ok() == (stop >= 14));
    let device = blocks.into_inner();
    judge_images(alloc, &device, stop, judged)
}

/// Judges each image. A replacement makes seven calls, so what was found last is known where the
/// device stopped between two, and one of two contents is where it stopped within one.
fn judge_images(
    alloc: Global,
    device: &MemoryDevice,
    stop: u64,
    judged: &mut JudgedCalls,
) -> Answer {
    for choice in 0..16u32 {
        if let Some(image) = image_blocks(alloc, device, &[choice / 4, choice % 4, 0])? {
            judged.count(may_find(stop, found(image)));
        }
    }
    Ok(())
}

/// Whether a restart may find that content on a device that stopped at that call.
fn may_find(stop: u64, content: [u8; 2]) -> bool {
    let least = (stop / 7).min(2);
    let most = (stop.saturating_add(6) / 7).min(2);
    let number = u64::from(content[1]);
    content[0] == 0 && least <= number && number <= most
}
