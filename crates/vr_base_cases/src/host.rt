//! A file of the host.

use crate::held::Held;
use std::fs;
use std::fs::{File, Files};
use vr_case_table::{Answer, Answers, Stop, parted, word_of};
use vr_device::FileDevice;

/// The file that lines speak of.
const PATH: &str = "vr_base_cases.blocks";

/// Makes or opens the file, or removes it: `new SIZE BLOCKS`, `open SIZE BLOCKS`, `remove`.
pub fn host<R: Files<File = File>>(
    rt: &R,
    held: &mut Held,
    rest: &str,
    out: &mut Answers,
) -> Answer {
    let (verb, rest) = parted(rest);
    match verb {
        "new" => create(rt, held, rest, out),
        "open" => open(rt, held, rest, out),
        "remove" => {
            remove(rt, out);
            Ok(())
        }
        _ => Err(Stop::Line),
    }
}

fn create<R: Files<File = File>>(rt: &R, held: &mut Held, rest: &str, out: &mut Answers) -> Answer {
    let (size, blocks) = parted(rest);
    let size = word_of(size)?;
    let blocks = word_of(blocks)?;
    held.set(Held::Nothing);
    held.set(Held::Host(FileDevice::create(rt, PATH, size, blocks)));
    out.ok()
}

fn open<R: Files<File = File>>(rt: &R, held: &mut Held, rest: &str, out: &mut Answers) -> Answer {
    let (size, blocks) = parted(rest);
    let size = word_of(size)?;
    let blocks = word_of(blocks)?;
    held.set(Held::Nothing);
    held.set(Held::Host(FileDevice::open(rt, PATH, size, blocks)));
    out.ok()
}

fn remove<R: Files<File = File>>(rt: &R, out: &mut Answers) {
    let removed = fs::remove_file(rt, PATH).is_ok();
    out.say(if removed { "ok" } else { "failed" });
}
