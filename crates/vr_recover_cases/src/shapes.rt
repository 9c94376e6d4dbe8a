//! Devices of any shape, which take each write and keep nothing, to format them at each limit.
ghost use Rattle.std.specs.Prelude.{◌≡◌, false};
ghost use Rattle.std.proofs.Common.{true≢false, sym};

use crate::answers::{Answer, Stop, say_formatted};
use crate::words::numbers;
use std::alloc::Global;
use vr_device::BlockDevice;
use vr_format::format_volume;
use vr_types::Failed;

/// A device of a shape. It reports no content.
#[derive(Drop)]
pub struct Hollow {
    size: u32,
    blocks: u32,
}

impl BlockDevice for Hollow {
    ghost use Rattle.vr_recover_cases.specs.Hollow.{seen_of, no_faults};

    ghost tells = { false };

    ghost seen = { λ h. seen_of h.size h.blocks };

    ghost faults = { λ h. no_faults };

    ghost cur_may = { λ h told. absurd (true≢false (sym told)) };

    ghost images_may = { λ h image told left. absurd (true≢false (sym told)) };

    ghost some_image = { λ h t told past. absurd (true≢false (sym told)) };

    ghost sized = { λ h n block told below may. absurd (true≢false (sym told)) };

    fn blocks(&self) -> u32 {
        self.blocks
    }

    fn size(&self) -> u32 {
        self.size
    }

    fn read(&mut self, _n: u32, into: &mut [u8]) -> Result<(), Failed> {
        into.fill(0);
        Ok(())
    }

    fn write(&mut self, _n: u32, _from: &[u8]) -> Result<(), Failed> {
        Ok(())
    }

    fn sync(&mut self) -> Result<(), Failed> {
        Ok(())
    }
}

/// Formats a device of a shape: `SIZE BLOCKS LOG AREA`.
pub fn shape(alloc: Global, rest: &str, out: &mut String) -> Answer {
    let words = numbers(alloc, rest)?;
    let [size, blocks, log, area] = words.as_slice() else {
        return Err(Stop::Line);
    };
    let mut device = Hollow {
        size: *size,
        blocks: *blocks,
    };
    let result = format_volume(alloc, &mut device, 0, *log, *area);
    say_formatted(out, result)
}
