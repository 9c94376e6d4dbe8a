//! Calls of the device that lines speak of.

use crate::device_answers::say_done;
use crate::held::Held;
use std::alloc::Global;
use vr_case_table::{Answer, Answers, Stop, digits_of, parted, word_of};
use vr_device::BlockDevice;

/// A call of the device: `read N`, `write N HEX`, `sync`.
pub fn device_call(
    alloc: Global,
    held: &mut Held,
    verb: &str,
    rest: &str,
    out: &mut Answers,
) -> Answer {
    match held {
        Held::Nothing => Err(Stop::Line),
        Held::Memory(device) => call(alloc, device, verb, rest, out),
        Held::File(device) => call(alloc, device, verb, rest, out),
        Held::Host(device) => call(alloc, device, verb, rest, out),
    }
}

fn call<D: BlockDevice>(
    alloc: Global,
    device: &mut D,
    verb: &str,
    rest: &str,
    out: &mut Answers,
) -> Answer {
    match verb {
        "read" => read(alloc, device, word_of(rest)?, out),
        "write" => write(alloc, device, rest, out),
        _ => {
            say_done(device.sync(), out);
            Ok(())
        }
    }
}

/// Reads a block, and writes its bytes.
pub fn read<D: BlockDevice>(alloc: Global, device: &mut D, n: u32, out: &mut Answers) -> Answer {
    if n >= device.blocks() {
        return Err(Stop::Line);
    }
    let mut into = vec![in alloc; 0; device.size() as usize]?;
    match device.read(n, &mut into) {
        Ok(()) => out.say_digits(into.as_slice()),
        Err(_) => out.say("failed"),
    }
    Ok(())
}

fn write<D: BlockDevice>(alloc: Global, device: &mut D, rest: &str, out: &mut Answers) -> Answer {
    let (n, digits) = parted(rest);
    let n = word_of(n)?;
    let from = digits_of(alloc, digits)?;
    write_bytes(device, n, from.as_slice(), out)
}

fn write_bytes<D: BlockDevice>(device: &mut D, n: u32, from: &[u8], out: &mut Answers) -> Answer {
    if n >= device.blocks() || from.len() != device.size() as usize {
        return Err(Stop::Line);
    }
    say_done(device.write(n, from), out);
    Ok(())
}
