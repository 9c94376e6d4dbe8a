//! Which call of a device a question asks.

use crate::device_blocks::{blocks_call, recent_calls};
use crate::device_calls::device_call;
use crate::held::{Held, over_file};
use crate::host::host;
use crate::{device_judge, images, replacing};
use std::alloc::Global;
use std::fs::{File, Files};
use vr_case_table::{Answer, Answers, Stop, parted};
use vr_device::BlockDevice;

/// Writes the answer to a line. `held` is the device that the lines before it left.
pub fn answer<R: Files<File = File>>(
    rt: &R,
    held: &mut Held,
    line: &str,
    out: &mut Answers,
) -> Answer {
    let (verb, rest) = parted(line);
    match verb {
        "host" => host(rt, held, rest, out),
        "judge" => device_judge::judge(rest, out),
        "file" => file(held, out),
        "device" => device(held, out),
        _ => ask(out.alloc(), held, verb, rest, out),
    }
}

fn ask(alloc: Global, held: &mut Held, verb: &str, rest: &str, out: &mut Answers) -> Answer {
    match verb {
        "memory" => images::make(alloc, held, rest, out),
        "stop" => images::stop(held, rest, out),
        "counts" => images::counts(held, out),
        "image" => images::image(alloc, held, rest, out),
        "replace" => replacing::replace(alloc, held, rest, out),
        _ => call(alloc, held, verb, rest, out),
    }
}

fn call(alloc: Global, held: &mut Held, verb: &str, rest: &str, out: &mut Answers) -> Answer {
    match verb {
        "read" | "write" | "sync" => device_call(alloc, held, verb, rest, out),
        "get" | "put" | "force" => blocks_call(alloc, held, verb, rest, out),
        "recent" => recent_calls(alloc, held, rest, out),
        _ => Err(Stop::Line),
    }
}

/// Makes the device in memory one over a file that is made of its blocks, which have a byte.
fn file(held: &mut Held, out: &mut Answers) -> Answer {
    if held.memory()?.size() == 0 {
        return Err(Stop::Line);
    }
    let device = held.take()?;
    held.set(over_file(device));
    out.ok()
}

/// Makes the device that the file is made of the one that lines speak of.
fn device(held: &mut Held, out: &mut Answers) -> Answer {
    let device = held.take()?;
    held.set(Held::Memory(device));
    out.ok()
}
