//! The run of a job on the volumes of the devices of a shelf, from their opening to the end.
ghost use Rattle.std.specs.Prelude.{◌≡◌, ◌≤◌, ◌<◌, ◌+◌, ◌^◌, ◌++◌, [], All, IfErr, IfOk, length, map};
ghost use Rattle.std.specs.Prelude.{vec_capacity};
ghost use Rattle.vr_job_text.specs.Job.{deck_steps};
ghost use Rattle.vr_job_text.specs.Numbers.{AreNumbered};
ghost use Rattle.vr_trace.specs.Volumes.{entries_of};
ghost use Rattle.vr_worker.specs.Decks.{ArePlaced};
ghost use Rattle.vr_job.specs.Shelf as shelves;
ghost use Rattle.vr_job.specs.Shelf.{HasClosedNext, HasOpenedNext, HasOpenedOrKept, HaveClosed};
ghost use Rattle.vr_job.specs.Shelf.{HaveOpened};
ghost use Rattle.vr_job.specs.Shelf.{HaveRunWhere};
ghost use Rattle.vr_job.specs.ShelfRun as runs;
ghost use Rattle.vr_job.specs.ShelfRun.{IsShelfRun};

use crate::serving::Serving;
use crate::volume_run::{Closed, close_one, open_one};
use std::alloc::Global;
use std::sync::Wait;
use std::thread::Threads;
use vr_device::BlockDevice;
use vr_history::History;
use vr_job_ends::End;
use vr_job_text::JobStep;
use vr_outside::Gate;
use vr_trace::{EndLine, Histories, RunNo, StepReports};
use vr_types::{Failed, OutOfMemory};
use vr_worker::run_steps;

/// What a run leaves: the devices in their order, the reports of the steps of IDCAMS, the histories of
/// the volumes, and how the job ended.
#[derive(Drop)]
pub struct ShelfEnd<D: BlockDevice> {
    pub shelf: Vec<D>,
    pub reports: StepReports,
    pub histories: Histories,
    pub end: End,
}

/// Room for the volumes of a shelf, for the devices of those that aren't opened, for the devices that
/// come back, and for the histories.
#[derive(Drop)]
struct Room<D: BlockDevice> {
    volumes: Vec<Serving<D>>,
    unopened: Vec<D>,
    shelf: Vec<D>,
    histories: Vec<History>,
}

/// Room for this many volumes.
fn make_room<D: BlockDevice>(alloc: Global, count: usize) -> Result<Room<D>, OutOfMemory>
    ensures volumes { IfOk result (λ room. (room.volumes.items ≡ [])
        × (count ≤ vec_capacity room.volumes)) }
    ensures unopened { IfOk result (λ room. (room.unopened.items ≡ [])
        × (count ≤ vec_capacity room.unopened)) }
    ensures shelf { IfOk result (λ room. (room.shelf.items ≡ [])
        × (count ≤ vec_capacity room.shelf)) }
    ensures histories { IfOk result (λ room. (room.histories.items ≡ [])
        × (count ≤ vec_capacity room.histories)) }
{
    let volumes = Vec::with_capacity(alloc, count)?;
    let unopened = Vec::with_capacity(alloc, count)?;
    let shelf = Vec::with_capacity(alloc, count)?;
    let histories = Vec::with_capacity(alloc, count)?;
    Ok(Room {
        volumes,
        unopened,
        shelf,
        histories,
    })
}

/// Opens the next volume of a shelf.
fn open_next<D: BlockDevice>(
    alloc: Global,
    device: D,
    volumes: &mut Vec<Serving<D>>,
    unopened: &mut Vec<D>,
) -> Result<(), EndLine>
    requires few { length volumes.old.items ≤ 16 }
    requires room { length volumes.old.items < vec_capacity volumes.old }
    requires room_back { length unopened.old.items < vec_capacity unopened.old }
    ensures next { HasOpenedNext D.tells D.seen D.faults device volumes.old.items
        volumes.new.items unopened.old.items unopened.new.items result }
    ensures room { vec_capacity volumes.new ≡ vec_capacity volumes.old }
    ensures room_back { vec_capacity unopened.new ≡ vec_capacity unopened.old }
{
    match open_one(alloc, device, volumes.len() as u32) {
        Ok(volume) => {
            volumes.push_reserved(volume);
            Ok(())
        }
        Err((device, end)) => {
            unopened.push_reserved(device);
            Err(end)
        }
    }
}

/// Opens the next volume of a shelf, where all before it are open; else its device stays as it is.
fn open_or_keep<D: BlockDevice>(
    alloc: Global,
    so_far: Result<(), EndLine>,
    device: D,
    volumes: &mut Vec<Serving<D>>,
    unopened: &mut Vec<D>,
) -> Result<(), EndLine>
    requires few { length volumes.old.items ≤ 16 }
    requires room { length volumes.old.items < vec_capacity volumes.old }
    requires room_back { length unopened.old.items < vec_capacity unopened.old }
    ensures next { HasOpenedOrKept D.tells D.seen D.faults so_far device volumes.old.items
        volumes.new.items unopened.old.items unopened.new.items result }
    ensures room { vec_capacity volumes.new ≡ vec_capacity volumes.old }
    ensures room_back { vec_capacity unopened.new ≡ vec_capacity unopened.old }
{
    match so_far {
        Ok(()) => open_next(alloc, device, volumes, unopened),
        Err(end) => {
            unopened.push_reserved(device);
            Err(end)
        }
    }
}

/// Opens the volumes of a shelf in order, up to the first that isn't opened: its device, and those after
/// it, are handed back apart.
fn open_all<D: BlockDevice>(
    alloc: Global,
    shelf: Vec<D>,
    volumes: &mut Vec<Serving<D>>,
    unopened: &mut Vec<D>,
) -> Result<(), EndLine>
    requires few { length shelf.items ≤ 16 }
    requires none { volumes.old.items ≡ [] }
    requires none_back { unopened.old.items ≡ [] }
    requires room { length shelf.items ≤ vec_capacity volumes.old }
    requires room_back { length shelf.items ≤ vec_capacity unopened.old }
    ensures opened { HaveOpened D.tells D.seen D.faults shelf.items volumes.new.items
        unopened.new.items result }
    ensures count { length volumes.new.items + length unopened.new.items ≡ length shelf.items }
{
    let mut result = Ok(());
    for device in shelf {
        result = open_or_keep(alloc, result, device, volumes, unopened);
    }
    result
}

/// The number of a volume whose device failed to sync.
fn failed_at(number: u32, synced: Result<(), Failed>) -> Option<u32>
    ensures { result ≡ shelves.failed_at number synced }
{
    match synced {
        Ok(()) => None,
        Err(_) => Some(number),
    }
}

/// The first number, where there is one, else the second.
fn or_failed(first: Option<u32>, second: Option<u32>) -> Option<u32>
    ensures { result ≡ shelves.or_failed first second }
{
    match first {
        Some(number) => Some(number),
        None => second,
    }
}

/// Closes a volume, whose device and history become the last. Where the device failed to sync, it
/// answers the number of the volume.
fn close_next<D: BlockDevice>(
    serving: Serving<D>,
    shelf: &mut Vec<D>,
    histories: &mut Vec<History>,
) -> Option<u32>
    requires few { length shelf.old.items ≤ 16 }
    requires room { length shelf.old.items < vec_capacity shelf.old }
    requires histories_room { length histories.old.items < vec_capacity histories.old }
    ensures next { HasClosedNext D.tells D.seen D.faults serving shelf.old.items shelf.new.items
        (entries_of histories.old.items) (entries_of histories.new.items) result }
    ensures room { vec_capacity shelf.new ≡ vec_capacity shelf.old }
    ensures histories_room { vec_capacity histories.new ≡ vec_capacity histories.old }
{
    let number = shelf.len() as u32;
    let Closed {
        device,
        history,
        result,
    } = close_one(serving);
    shelf.push_reserved(device);
    histories.push_reserved(history);
    failed_at(number, result)
}

/// Closes the volumes in order. Where devices failed to sync, it answers the number of the first.
fn close_all<D: BlockDevice>(
    volumes: Vec<Serving<D>>,
    shelf: &mut Vec<D>,
    histories: &mut Vec<History>,
) -> Option<u32>
    requires few { length volumes.items ≤ 16 }
    requires none { shelf.old.items ≡ [] }
    requires no_histories { histories.old.items ≡ [] }
    requires room { length volumes.items ≤ vec_capacity shelf.old }
    requires histories_room { length volumes.items ≤ vec_capacity histories.old }
    ensures closed { HaveClosed D.tells D.seen D.faults volumes.items shelf.new.items
        (entries_of histories.new.items) result }
    ensures room { vec_capacity shelf.new ≡ vec_capacity shelf.old }
    ensures histories_room { vec_capacity histories.new ≡ vec_capacity histories.old }
{
    let mut unsynced = None;
    for serving in volumes {
        unsynced = or_failed(unsynced, close_next(serving, shelf, histories));
    }
    unsynced
}

/// Puts the devices whose volumes weren't opened after the others, each with no history.
fn give_back<D: BlockDevice>(
    alloc: Global,
    unopened: Vec<D>,
    shelf: &mut Vec<D>,
    histories: &mut Vec<History>,
)
    requires room { length shelf.old.items + length unopened.items ≤ vec_capacity shelf.old }
    requires histories_room { length histories.old.items + length unopened.items
        ≤ vec_capacity histories.old }
    ensures shelf { shelf.new.items ≡ shelf.old.items ++ unopened.items }
    ensures histories { entries_of histories.new.items
        ≡ entries_of histories.old.items ++ map (λ _. []) unopened.items }
{
    for device in unopened {
        shelf.push_reserved(device);
        histories.push_reserved(History::new(alloc));
    }
}

/// How a job ends whose requests weren't all answered.
fn run_line(no: RunNo) -> EndLine
    ensures { result ≡ runs.run_line no }
{
    match no {
        RunNo::Stamps => EndLine::StampsUsedUp,
        RunNo::Memory => EndLine::NoMemory,
    }
}

/// How a job ends: by a volume that wasn't opened, as its requests came to, or by the first device that
/// failed to sync.
fn end_of(opened: Result<(), EndLine>, asked: Result<(), RunNo>, unsynced: Option<u32>) -> End
    ensures { result ≡ shelves.end_of opened asked unsynced }
{
    if let Err(line) = opened {
        return End::Line(line);
    }
    match asked {
        Err(no) => End::Line(run_line(no)),
        Ok(()) => match unsynced {
            Some(volume) => End::Unsynced(volume),
            None => End::Ran,
        },
    }
}

/// Runs the steps on the volumes, where all were opened. Else none is run, which counts as a want of
/// memory.
fn ask_all<R: Threads + Wait + Sync, D: BlockDevice + Send, G: Gate + Sync>(
    rt: &R,
    alloc: Global,
    are_open: bool,
    volumes: &mut Vec<Serving<D>>,
    steps: &[JobStep],
    reports: &mut StepReports,
    gate: &G,
) -> Result<(), RunNo>
    requires placed { ArePlaced (λ volume. volume.number) volumes.old.items }
    requires begins { All (λ volume. volume.file.entries ≡ []) volumes.old.items }
    requires numbered { AreNumbered (deck_steps steps.now) }
    requires few { length volumes.old.items < 2 ^ 32 }
    requires reports { reports.old ≡ [] }
    ensures { HaveRunWhere are_open D.tells D.seen D.faults steps.now result reports.new
        volumes.old.items volumes.new.items }
{
    if !are_open {
        return Err(RunNo::Memory);
    }
    run_steps(rt, alloc, volumes, steps, reports, gate)
}

/// Runs a job on the volumes of a shelf, in room that was made.
fn run_in<R: Threads + Wait + Sync, D: BlockDevice + Send, G: Gate + Sync>(
    rt: &R,
    alloc: Global,
    room: Room<D>,
    devices: Vec<D>,
    steps: &[JobStep],
    gate: &G,
) -> ShelfEnd<D>
    requires few { length devices.items ≤ 16 }
    requires numbered { AreNumbered (deck_steps steps.now) }
    requires volumes { (room.volumes.items ≡ [])
        × (length devices.items ≤ vec_capacity room.volumes) }
    requires unopened { (room.unopened.items ≡ [])
        × (length devices.items ≤ vec_capacity room.unopened) }
    requires shelf { (room.shelf.items ≡ []) × (length devices.items ≤ vec_capacity room.shelf) }
    requires histories { (room.histories.items ≡ [])
        × (length devices.items ≤ vec_capacity room.histories) }
    ensures { IsShelfRun D.tells D.seen D.faults steps.now result.end result.reports
        result.histories devices.items result.shelf.items }
{
    let Room {
        mut volumes,
        mut unopened,
        mut shelf,
        mut histories,
    } = room;
    let opened = open_all(alloc, devices, &mut volumes, &mut unopened);
    let mut reports = StepReports::new(alloc);
    let asked = ask_all(
        rt,
        alloc,
        opened.is_ok(),
        &mut volumes,
        steps,
        &mut reports,
        gate,
    );
    let unsynced = close_all(volumes, &mut shelf, &mut histories);
    give_back(alloc, unopened, &mut shelf, &mut histories);
    ShelfEnd {
        shelf,
        reports,
        histories: Histories::from_vec(histories),
        end: end_of(opened, asked, unsynced),
    }
}

/// Opens the volumes of the devices of a shelf, numbered from 0 on, runs the steps of a job on them, one
/// after another, and closes them: each device is synced, unless its volume has stopped. The job
/// comes through; or it ends as the first volume that isn't opened says (`open`), and nothing is asked;
/// or its stamps are used up (`StampsUsedUp`: the last of a volume is 2^62 or more, or a deck came to its
/// last unit of recovery there), or memory ran out (`NoMemory`), which may come at any time; or all was
/// answered and a device failed to sync (`Unsynced`, with the least number). `Err` hands the devices
/// back as they were: there is no memory for the list of volumes.
pub fn run_volumes<R: Threads + Wait + Sync, D: BlockDevice + Send, G: Gate + Sync>(
    rt: &R,
    alloc: Global,
    shelf: Vec<D>,
    steps: &[JobStep],
    gate: &G,
) -> Result<ShelfEnd<D>, Vec<D>>
    requires few { length shelf.items ≤ 16 }
    requires numbered { AreNumbered (deck_steps steps.now) }
    ensures ran { IfOk result (λ end. IsShelfRun D.tells D.seen D.faults steps.now end.end
        end.reports end.histories shelf.items end.shelf.items) }
    ensures back { IfErr result (λ back. back.items ≡ shelf.items) }
{
    match make_room(alloc, shelf.len()) {
        Ok(room) => Ok(run_in(rt, alloc, room, shelf, steps, gate)),
        Err(OutOfMemory) => Err(shelf),
    }
}
