//! Calls of the blocks of the device in memory, written through, one at a time; and runs of them on
//! blocks of which some are kept.
ghost use Rattle.std.specs.Prelude.{◌≡◌};

use crate::device_answers::say_fault;
use crate::held::Held;
use std::alloc::Global;
use vr_case_table::{Answer, Answers, Stop, digits_of, numbers_of, parted, word_of};
use vr_device::{BlockDevice, direct};
use vr_recent::recent;
use vr_types::Blocks;

/// The number of the blocks, and the size of each in bytes.
#[derive(Clone, Copy)]
struct Shape {
    count: u32,
    size: u32,
}

/// A call of the blocks: `get N`, `put N HEX`, `force N..`.
pub fn blocks_call(
    alloc: Global,
    held: &mut Held,
    verb: &str,
    rest: &str,
    out: &mut Answers,
) -> Answer {
    let device = held.take()?;
    let shape = shape_of(&device);
    match direct(alloc, device) {
        Ok(mut blocks) => {
            let done = call(alloc, &mut blocks, shape, verb, rest, out);
            held.set(Held::Memory(blocks.into_inner()));
            done
        }
        Err(_) => Err(Stop::Memory),
    }
}

fn shape_of<D: BlockDevice>(device: &D) -> Shape
    ensures count { result.count ≡ (D.seen device.now).count }
    ensures size { result.size ≡ (D.seen device.now).size }
{
    Shape {
        count: device.blocks(),
        size: device.size(),
    }
}

/// A run of calls of the blocks, separated by `|`, of which the ones that were used last are kept
/// meanwhile; and how many calls of the device they were.
pub fn recent_calls(alloc: Global, held: &mut Held, rest: &str, out: &mut Answers) -> Answer {
    let device = held.take()?;
    let shape = shape_of(&device);
    let before = device.calls();
    match recent(alloc, device) {
        Ok(mut blocks) => {
            let done = run(alloc, &mut blocks, shape, rest, out);
            let device = blocks.into_inner();
            out.say_number("calls ", device.calls().saturating_sub(before));
            held.set(Held::Memory(device));
            done
        }
        Err(_) => Err(Stop::Memory),
    }
}

fn run<B: Blocks>(
    alloc: Global,
    blocks: &mut B,
    shape: Shape,
    calls: &str,
    out: &mut Answers,
) -> Answer
    requires count { shape.count ≡ (B.seen blocks.old).count }
    requires size { shape.size ≡ (B.seen blocks.old).size }
{
    for one in calls.split('|') {
        let (verb, rest) = parted(one);
        call(alloc, blocks, shape, verb, rest, out)?;
        out.say(" ");
    }
    Ok(())
}

fn call<B: Blocks>(
    alloc: Global,
    blocks: &mut B,
    shape: Shape,
    verb: &str,
    rest: &str,
    out: &mut Answers,
) -> Answer
    requires count { shape.count ≡ (B.seen blocks.old).count }
    requires size { shape.size ≡ (B.seen blocks.old).size }
    ensures count { (B.seen blocks.new).count ≡ (B.seen blocks.old).count }
    ensures size { (B.seen blocks.new).size ≡ (B.seen blocks.old).size }
{
    match verb {
        "get" => get(blocks, shape.count, word_of(rest)?, out),
        "put" => put(alloc, blocks, shape, rest, out),
        _ => force(alloc, blocks, shape.count, rest, out),
    }
}

fn get<B: Blocks>(blocks: &mut B, count: u32, n: u32, out: &mut Answers) -> Answer
    requires { count ≡ (B.seen blocks.old).count }
    ensures count { (B.seen blocks.new).count ≡ (B.seen blocks.old).count }
    ensures size { (B.seen blocks.new).size ≡ (B.seen blocks.old).size }
{
    if n >= count {
        return Err(Stop::Line);
    }
    match blocks.get(n) {
        Ok(bytes) => out.say_digits(bytes),
        Err(fault) => say_fault(Err(fault), out),
    }
    Ok(())
}

fn put<B: Blocks>(
    alloc: Global,
    blocks: &mut B,
    shape: Shape,
    rest: &str,
    out: &mut Answers,
) -> Answer
    requires count { shape.count ≡ (B.seen blocks.old).count }
    requires size { shape.size ≡ (B.seen blocks.old).size }
    ensures count { (B.seen blocks.new).count ≡ (B.seen blocks.old).count }
    ensures size { (B.seen blocks.new).size ≡ (B.seen blocks.old).size }
{
    let (n, digits) = parted(rest);
    let n = word_of(n)?;
    let from = digits_of(alloc, digits)?;
    put_bytes(blocks, shape, n, from.as_slice(), out)
}

fn put_bytes<B: Blocks>(
    blocks: &mut B,
    shape: Shape,
    n: u32,
    from: &[u8],
    out: &mut Answers,
) -> Answer
    requires count { shape.count ≡ (B.seen blocks.old).count }
    requires size { shape.size ≡ (B.seen blocks.old).size }
    ensures count { (B.seen blocks.new).count ≡ (B.seen blocks.old).count }
    ensures size { (B.seen blocks.new).size ≡ (B.seen blocks.old).size }
{
    if n >= shape.count || from.len() != shape.size as usize {
        return Err(Stop::Line);
    }
    say_fault(blocks.put(n, from), out);
    Ok(())
}

fn force<B: Blocks>(
    alloc: Global,
    blocks: &mut B,
    count: u32,
    rest: &str,
    out: &mut Answers,
) -> Answer
    requires { count ≡ (B.seen blocks.old).count }
    ensures count { (B.seen blocks.new).count ≡ (B.seen blocks.old).count }
    ensures size { (B.seen blocks.new).size ≡ (B.seen blocks.old).size }
{
    let list = numbers_of(alloc, rest)?;
    force_list(blocks, count, list.as_slice(), out)
}

fn force_list<B: Blocks>(blocks: &mut B, count: u32, list: &[u32], out: &mut Answers) -> Answer
    requires { count ≡ (B.seen blocks.old).count }
    ensures count { (B.seen blocks.new).count ≡ (B.seen blocks.old).count }
    ensures size { (B.seen blocks.new).size ≡ (B.seen blocks.old).size }
{
    if !list.iter().all(|n| *n < count) {
        return Err(Stop::Line);
    }
    say_fault(blocks.force(list), out);
    Ok(())
}
