//! Attaching the part to blocks that are changed: what it answers, beside the plain program.
ghost use Rattle.std.specs.Prelude.{◌≡◌};
ghost use Rattle.vr_keyed_cases.specs.TheLayout.{IsVolume};

use crate::answers::{Answer, Stop, say, say_fault, say_number};
use crate::chain::write_blocks;
use crate::format::{head_block, owners};
use crate::held::{Held, boxed_blocks};
use crate::images::last_blocks;
use crate::plain_damage::{Found, damage_in};
use crate::traced::Traced;
use crate::words::{long_number, number, parted};
use std::alloc::Global;
use vr_attach::{PartNo2, layout_of};
use vr_catalog::Definition;
use vr_device::memory_device;
use vr_keyed::Keyed;
use vr_types::{DeviceFault, Geometry, Kind, PartNo};

/// The longest record of the definition. The part itself takes longer ones.
const LONGEST: u32 = 300;

/// The definition of the part: keys of 8 bytes at the start of a record.
fn definition() -> Definition
    ensures { result.maximum ≡ LONGEST }
{
    Definition {
        kind: Kind::Keyed,
        spanned: false,
        key_length: 8,
        key_offset: 0,
        maximum: LONGEST,
    }
}

/// Attaches the part to what was written last, with changes: `attach CHANGE; CHANGE..`, each
/// `BLOCK AT BYTE..`, or `BLOCK zero`, which makes all its bytes zero.
pub fn attach(alloc: Global, held: &Held, rest: &str, out: &mut String) -> Answer {
    let mut blocks = last_blocks(alloc, held.blocks.device())?;
    change_all(blocks.as_mut_slice(), rest)?;
    attach_to(alloc, held.geometry, blocks.as_slice(), &[], out)
}

/// Attaches the part to what was written last, on a device whose call of a number fails; the first
/// calls write the blocks, of the small volume 0 to 7: `attach_fails NUMBER`.
pub fn attach_fails(alloc: Global, held: &Held, rest: &str, out: &mut String) -> Answer {
    let blocks = last_blocks(alloc, held.blocks.device())?;
    attach_to(
        alloc,
        held.geometry,
        blocks.as_slice(),
        &[long_number(rest)?],
        out,
    )
}

fn change_all(blocks: &mut [u8], rest: &str) -> Answer {
    for change in rest.split("; ") {
        if !change.is_empty() {
            change_one(blocks, change)?;
        }
    }
    Ok(())
}

fn change_one(blocks: &mut [u8], change: &str) -> Answer {
    let (block, rest) = parted(change);
    let from = number(block)?.min(17) as usize * 512;
    if rest == "zero" {
        return fill_zeros(blocks, from);
    }
    let (at, bytes) = parted(rest);
    let mut place = from + number(at)?.min(511) as usize;
    for word in bytes.split_whitespace() {
        put_byte(blocks, place, number(word)?)?;
        place = place.saturating_add(1);
    }
    Ok(())
}

fn fill_zeros(blocks: &mut [u8], from: usize) -> Answer {
    for i in 0..512usize {
        put_byte(blocks, from.saturating_add(i), 0)?;
    }
    Ok(())
}

fn put_byte(blocks: &mut [u8], place: usize, byte: u32) -> Answer {
    match blocks.get_mut(place) {
        Some(old) if byte < 256 => {
            *old = byte as u8;
            Ok(())
        }
        _ => Err(Stop::Line),
    }
}

/// The part's blocks in their places on a whole volume.
fn volume(
    alloc: Global,
    geometry: Geometry,
    blocks: &[u8],
    fails: &[u64],
) -> Result<Box<Traced>, Stop>
    requires { IsVolume geometry }
{
    let device = memory_device(alloc, 512, geometry.blocks, fails)?;
    let mut traced = boxed_blocks(alloc, device, 0)?;
    write_blocks(&mut traced, head_block(geometry), blocks);
    traced.clear_notes();
    Ok(traced)
}

/// Writes what attaching answers, with the calls of the device, and what the plain program says
/// where that is something else.
fn attach_to(
    alloc: Global,
    geometry: Geometry,
    blocks: &[u8],
    fails: &[u64],
    out: &mut String,
) -> Answer
    requires { IsVolume geometry }
{
    let mut traced = volume(alloc, geometry, blocks, fails)?;
    let attached = attached(alloc, geometry, &mut traced)?;
    let head = head_block(geometry) as usize;
    say_outcome(out, attached, head)?;
    say(out, traced.notes())?;
    if fails.is_empty() {
        let plain = damage_in(blocks, geometry.area as usize, LONGEST as usize);
        say_plain(out, found_of(attached), plain, head)?;
    }
    Ok(())
}

/// What attaching answered, but out of memory.
#[derive(Clone, Copy)]
enum Outcome {
    Sound,
    Damaged(Found),
    Fault(DeviceFault),
}

/// What attaching found.
fn found_of(attached: Outcome) -> Option<Found> {
    match attached {
        Outcome::Damaged(found) => Some(found),
        _ => None,
    }
}

/// Attaches the part.
fn attached(alloc: Global, geometry: Geometry, traced: &mut Traced) -> Result<Outcome, Stop>
    requires { IsVolume geometry }
{
    let layout = layout_of(geometry, PartNo(1), 1, &definition());
    let mut owners = owners(alloc, geometry)?;
    match Keyed::attach(alloc, traced, layout, &mut owners).err() {
        None => Ok(Outcome::Sound),
        Some(PartNo2::Damaged { block, rule }) => Ok(Outcome::Damaged(Found {
            block: block as usize,
            rule,
        })),
        Some(PartNo2::Fault(fault)) => Ok(Outcome::Fault(fault)),
        Some(PartNo2::Memory) => Err(Stop::Memory),
    }
}

/// Writes what attaching answered.
fn say_outcome(out: &mut String, attached: Outcome, head: usize) -> Answer {
    match attached {
        Outcome::Fault(fault) => say_fault(out, Err(fault)),
        _ => say_found(out, found_of(attached), head),
    }
}

/// Writes what the plain program found, where that is something else.
fn say_plain(out: &mut String, found: Option<Found>, plain: Option<Found>, head: usize) -> Answer {
    if found != plain {
        say(out, ", but the plain program says ")?;
        say_found(out, plain, head)?;
    }
    Ok(())
}

fn say_found(out: &mut String, found: Option<Found>, head: usize) -> Answer {
    match found {
        None => say(out, "ok"),
        Some(found) => {
            say(out, "damaged ")?;
            say_block(out, found.block, head)?;
            say(out, " ")?;
            say_number(out, found.rule as u64)
        }
    }
}

/// Writes the number of a block, counted from the part's head; what comes before that is an area of
/// the catalog's.
fn say_block(out: &mut String, block: usize, head: usize) -> Answer {
    match block.checked_sub(head) {
        Some(number) => say_number(out, number as u64),
        None => say(out, "before"),
    }
}
