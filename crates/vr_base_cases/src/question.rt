//! Which call a question asks.

use crate::block::{bytes_at, make_block};
use crate::held::Held;
use crate::{devices, heads, intervals, judge, locks, sources, texts, values, writers};
use std::alloc::Global;
use std::fs::{File, Files};
use vr_case_table::{Answer, Answers, Desk, Stop, parted};
use vr_locks::{LockTable, lock_table};

/// What the lines before left: a block, a device and a lock table; and the files of the host.
#[derive(Drop)]
pub struct BaseDesk<'a, R> {
    rt: &'a R,
    block: Vec<u8>,
    held: Held,
    table: LockTable,
}

impl<'a, R: AllocGlobal> BaseDesk<'a, R> {
    /// No block, no device, and a table with no lock.
    pub fn new(rt: &'a R) -> BaseDesk<'a, R> {
        BaseDesk {
            rt,
            block: Vec::new(rt.alloc()),
            held: Held::Nothing,
            table: lock_table(rt.alloc()),
        }
    }
}

impl<R: Files<File = File>> Desk for BaseDesk<'_, R> {
    fn answer(&mut self, line: &str, out: &mut Answers) -> Answer {
        let (layer, rest) = line.split_once(' ').ok_or(Stop::Line)?;
        match layer {
            "device" => devices::answer(self.rt, &mut self.held, rest, out),
            "lock" => locks::answer(&mut self.table, rest, out),
            "stream" => sources::answer(self.rt, rest, out),
            _ => answer_base(&mut self.block, layer, rest, out),
        }
    }
}

/// A question to the base crates. `block` is the block that the lines before it left.
fn answer_base(block: &mut Vec<u8>, layer: &str, rest: &str, out: &mut Answers) -> Answer {
    let alloc = out.alloc();
    match layer {
        "block" => make_block(alloc, block, rest, out),
        "bytes" => bytes_at(block.as_slice(), rest, out),
        "head" => head(alloc, block.as_mut_slice(), rest, out),
        "interval" => interval(alloc, block.as_mut_slice(), rest, out),
        "judge" => judge::judge(block.as_slice(), rest, out),
        "value" => value(alloc, rest, out),
        _ => answer_text(layer, rest, out),
    }
}

/// A question to `vr_text`, or about a name.
fn answer_text(verb: &str, rest: &str, out: &mut Answers) -> Answer {
    match verb {
        "literal" => texts::literal(rest, out),
        "spell" => texts::spell(rest, out),
        "name" => texts::name(rest, out),
        "number" => {
            texts::number_of(rest, out);
            Ok(())
        }
        _ => Err(Stop::Line),
    }
}

/// A question to `vr_types` about a value.
fn value(alloc: Global, rest: &str, out: &mut Answers) -> Answer {
    let (verb, rest) = parted(rest);
    match verb {
        "place" => values::place_of(alloc, rest, out),
        "number-place" => values::numbered(alloc, rest, out),
        "empty-place" => values::roomy(alloc, rest, out),
        "bytes" => values::grown(alloc, rest, out),
        "words" => values::words(alloc, rest, out),
        "faults" => values::faults(rest, out),
        "request" => values::request(alloc, rest, out),
        "position" => values::position(alloc, rest, out),
        "refusal" => values::refusal(alloc, rest, out),
        "reply" => values::reply(alloc, rest, out),
        _ => Err(Stop::Line),
    }
}

/// A question to `vr_seqset`.
fn head(alloc: Global, block: &mut [u8], rest: &str, out: &mut Answers) -> Answer {
    let (verb, rest) = parted(rest);
    match verb {
        "record" => heads::record(alloc, block, rest, out),
        "entry" => heads::entry(block, rest, out),
        "copy" => heads::copy(alloc, block, rest, out),
        "find" => heads::find(alloc, block, rest, out),
        "roster" => heads::roster(alloc, block, rest, out),
        "write-roster" => heads::write(block, rest, out),
        "copy-roster" => heads::copy_roster(alloc, block, rest, out),
        "limit" => heads::limit(rest, out),
        _ => Err(Stop::Line),
    }
}

/// A question to `vr_ci`.
fn interval(alloc: Global, block: &mut [u8], rest: &str, out: &mut Answers) -> Answer {
    let (verb, rest) = parted(rest);
    match verb {
        "size" => writers::sized(alloc, rest, out),
        "slot-count" => writers::slot_count(rest, out),
        "plain" => intervals::plain(alloc, block, rest, out),
        "slots" => intervals::slots(alloc, block, rest, out),
        "item" => intervals::item(block, rest, out),
        "write" => writers::records(alloc, block, rest, out),
        "write-bytes" => writers::single_bytes(block, rest, out),
        "write-slots" => writers::slots_of(alloc, block, rest, out),
        "write-segment" => writers::segment(alloc, block, rest, out),
        _ => Err(Stop::Line),
    }
}
