//! Calls of the log, over blocks of the volume's device that are written through.
ghost use Rattle.std.specs.Prelude.{◌≡◌, ◌≤◌, false, length, All, IfOk};
ghost use Rattle.vr_types.specs.Geometry.{IsAllowed};
ghost use Rattle.vr_types.specs.LogSpace.{log_size};
ghost use Rattle.vr_log.specs.Live.{used_by};
ghost use Rattle.vr_log.specs.LogNow.{IsOf};
ghost use Rattle.vr_log.specs.Records.{HasFields, bytes_of};

use crate::answers::{Answer, Stop, say, say_fault, say_number};
use crate::desk::{Desk, OpenLog};
use crate::record_words::{ends_live, has_lengths, kind_of, record_of, unit_of};
use crate::show::say_content;
use crate::untold::Untold;
use std::alloc::Global;
use vr_device::{BlockDevice, direct};
use vr_log::{
    LogContent, LogNo, LogPlace, LogReadNo, LogRecord, UndoLog, clear_past, read_back, undo_log,
};
use vr_types::{Blocks, DeviceFault, Geometry};

/// A call of the log: `read`, `clear`, `open`, `append RECORD`, `end DECK NUMBER KIND`, `force`, `restart`,
/// `renew`.
pub fn call(alloc: Global, desk: &mut Desk, verb: &str, rest: &str, out: &mut String) -> Answer {
    let geometry = desk.geometry()?;
    let device = desk.take()?;
    if device.blocks() != geometry.blocks || device.size() != geometry.size {
        return Err(Stop::Line);
    }
    match direct(alloc, Untold::over(device)) {
        Ok(mut blocks) => {
            let done = ask(alloc, &mut blocks, geometry, &mut desk.log, verb, rest, out);
            desk.put(blocks.into_inner().into_inner());
            done
        }
        Err(_) => Err(Stop::Memory),
    }
}

fn ask<B: Blocks>(
    alloc: Global,
    blocks: &mut B,
    geometry: Geometry,
    log: &mut Option<OpenLog>,
    verb: &str,
    rest: &str,
    out: &mut String,
) -> Answer
    requires untold { B.tells ≡ false }
    requires allowed { IsAllowed geometry }
    requires shape { IsOf geometry (B.seen blocks.old) }
{
    match verb {
        "read" => read(alloc, blocks, geometry, out),
        "clear" => clear(alloc, blocks, geometry, out),
        "open" => open(alloc, blocks, geometry, log, out),
        "append" => append(alloc, blocks, geometry, log, rest, out),
        "end" => end(blocks, geometry, log, rest, out),
        "force" => force(blocks, geometry, log, out),
        "restart" => restart(blocks, geometry, log, out),
        "renew" => renew(alloc, blocks, geometry, log, out),
        _ => Err(Stop::Line),
    }
}

/// What the blocks spell.
fn read<B: Blocks>(alloc: Global, blocks: &mut B, geometry: Geometry, out: &mut String) -> Answer
    requires allowed { IsAllowed geometry }
    requires shape { IsOf geometry (B.seen blocks.old) }
{
    match read_back(alloc, blocks, &geometry) {
        Ok(content) => say_content(alloc, out, &content),
        Err(no) => say_no(out, no),
    }
}

fn say_no(out: &mut String, no: LogReadNo) -> Answer {
    match no {
        LogReadNo::Damaged { block } => {
            say(out, "damaged ")?;
            say_number(out, block as u64)
        }
        LogReadNo::Fault(fault) => say_fault(out, fault),
        LogReadNo::Memory => Err(Stop::Memory),
    }
}

/// Clears what an earlier log left past the end of the one that the blocks spell.
fn clear<B: Blocks>(alloc: Global, blocks: &mut B, geometry: Geometry, out: &mut String) -> Answer
    requires untold { B.tells ≡ false }
    requires allowed { IsAllowed geometry }
    requires shape { IsOf geometry (B.seen blocks.old) }
{
    match read_back(alloc, blocks, &geometry) {
        Ok(content) => clear_with(alloc, blocks, geometry, &content, out),
        Err(no) => say_no(out, no),
    }
}

fn clear_with<B: Blocks>(
    alloc: Global,
    blocks: &mut B,
    geometry: Geometry,
    content: &LogContent,
    out: &mut String,
) -> Answer
    requires untold { B.tells ≡ false }
    requires allowed { IsAllowed geometry }
    requires shape { IsOf geometry (B.seen blocks.old) }
    requires fields { All HasFields content.now.records }
    requires size { length (bytes_of content.now.records) ≤ log_size geometry }
{
    match clear_past(alloc, blocks, &geometry, content) {
        Ok(()) => say(out, "ok"),
        Err(no) => say_no(out, no),
    }
}

/// Makes a log of what the blocks spell.
fn open<B: Blocks>(
    alloc: Global,
    blocks: &mut B,
    geometry: Geometry,
    log: &mut Option<OpenLog>,
    out: &mut String,
) -> Answer
    requires allowed { IsAllowed geometry }
    requires shape { IsOf geometry (B.seen blocks.old) }
{
    match read_back(alloc, blocks, &geometry) {
        Ok(content) => open_with(alloc, geometry, log, &content, out),
        Err(no) => say_no(out, no),
    }
}

fn open_with(
    alloc: Global,
    geometry: Geometry,
    log: &mut Option<OpenLog>,
    content: &LogContent,
    out: &mut String,
) -> Answer
    requires allowed { IsAllowed geometry }
    requires fields { All HasFields content.now.records }
    requires room { used_by content.now.records ≤ log_size geometry }
{
    let new = undo_log(alloc, &geometry, content)?;
    let live = new.live();
    keep(geometry, log, new);
    say_number(out, live as u64)?;
    say(out, " live")
}

/// The log, taken out.
fn taken(geometry: Geometry, log: &mut Option<OpenLog>) -> Result<UndoLog, Stop>
    ensures same { IfOk result (λ log. log.geometry ≡ geometry) }
    ensures sound { IfOk result (λ log. log.broken ≡ false) }
{
    match log.take() {
        Some(
            OpenLog {
                log,
                geometry: shape,
            },
        ) if shape == geometry => Ok(log),
        _ => Err(Stop::Line),
    }
}

/// Puts the log back.
fn keep(geometry: Geometry, log: &mut Option<OpenLog>, new: UndoLog)
    requires same { new.geometry ≡ geometry }
    requires sound { new.broken ≡ false }
{
    *log = Some(OpenLog { log: new, geometry });
}

fn append<B: Blocks>(
    alloc: Global,
    blocks: &mut B,
    geometry: Geometry,
    log: &mut Option<OpenLog>,
    rest: &str,
    out: &mut String,
) -> Answer
    requires untold { B.tells ≡ false }
    requires shape { IsOf geometry (B.seen blocks.old) }
{
    let rec = record_of(alloc, rest)?;
    append_record(blocks, geometry, log, &rec, out)
}

fn append_record<B: Blocks>(
    blocks: &mut B,
    geometry: Geometry,
    log: &mut Option<OpenLog>,
    rec: &LogRecord,
    out: &mut String,
) -> Answer
    requires untold { B.tells ≡ false }
    requires shape { IsOf geometry (B.seen blocks.old) }
{
    let mut open = taken(geometry, log)?;
    if !has_lengths(rec) || !ends_live(&open, rec) {
        return Err(Stop::Line);
    }
    match open.append(blocks, rec) {
        Ok(place) => {
            keep(geometry, log, open);
            say_place(out, place)
        }
        Err(LogNo::Full { used, need, size }) => {
            keep(geometry, log, open);
            say_full(out, used, need, size)
        }
        Err(LogNo::Write) => say_fault(out, DeviceFault::Write),
        Err(LogNo::Read) => say_fault(out, DeviceFault::Read),
    }
}

fn say_place(out: &mut String, place: LogPlace) -> Answer {
    say(out, "at ")?;
    say_number(out, place.block as u64)?;
    say(out, " ")?;
    say_number(out, place.at as u64)
}

fn say_full(out: &mut String, used: u64, need: u64, size: u64) -> Answer {
    say(out, "full ")?;
    say_number(out, used)?;
    say(out, " ")?;
    say_number(out, need)?;
    say(out, " ")?;
    say_number(out, size)
}

fn end<B: Blocks>(
    blocks: &mut B,
    geometry: Geometry,
    log: &mut Option<OpenLog>,
    rest: &str,
    out: &mut String,
) -> Answer
    requires untold { B.tells ≡ false }
    requires shape { IsOf geometry (B.seen blocks.old) }
{
    let (unit, kind) = unit_of(rest)?;
    let kind = kind_of(kind)?;
    let mut open = taken(geometry, log)?;
    if !open.is_live(unit) {
        return Err(Stop::Line);
    }
    match open.end_record(blocks, unit, kind) {
        Ok(()) => {
            keep(geometry, log, open);
            say(out, "ok")
        }
        Err(fault) => say_fault(out, fault),
    }
}

fn force<B: Blocks>(
    blocks: &mut B,
    geometry: Geometry,
    log: &mut Option<OpenLog>,
    out: &mut String,
) -> Answer
    requires untold { B.tells ≡ false }
    requires shape { IsOf geometry (B.seen blocks.old) }
{
    let mut open = taken(geometry, log)?;
    match open.force(blocks) {
        Ok(()) => {
            keep(geometry, log, open);
            say(out, "ok")
        }
        Err(fault) => say_fault(out, fault),
    }
}

/// Forces the log and restarts it, where no unit is live.
fn restart<B: Blocks>(
    blocks: &mut B,
    geometry: Geometry,
    log: &mut Option<OpenLog>,
    out: &mut String,
) -> Answer
    requires untold { B.tells ≡ false }
    requires shape { IsOf geometry (B.seen blocks.old) }
{
    let mut open = taken(geometry, log)?;
    if open.live() > 0 {
        return Err(Stop::Line);
    }
    match open.force(blocks) {
        Ok(()) => {
            open.restart();
            keep(geometry, log, open);
            say(out, "ok")
        }
        Err(fault) => say_fault(out, fault),
    }
}

/// Forces the log and begins it anew, where no unit is live.
fn renew<B: Blocks>(
    alloc: Global,
    blocks: &mut B,
    geometry: Geometry,
    log: &mut Option<OpenLog>,
    out: &mut String,
) -> Answer
    requires untold { B.tells ≡ false }
    requires shape { IsOf geometry (B.seen blocks.old) }
{
    let mut open = taken(geometry, log)?;
    if open.live() > 0 {
        return Err(Stop::Line);
    }
    if let Err(fault) = open.force(blocks) {
        return say_fault(out, fault);
    }
    match open.renew(alloc, blocks) {
        Ok(()) => {
            keep(geometry, log, open);
            say(out, "ok")
        }
        Err(no) => say_no(out, no),
    }
}
