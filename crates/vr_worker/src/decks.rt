//! The decks of a step, each on a thread of its own.
ghost use Rattle.std.specs.Prelude.{◌≡◌, ◌^◌, All, IfOk, IsErrOf, IsTrue, Ok, OnOk, map};
ghost use Rattle.vr_worker.specs.Decks.{AreNew, ArePlaced, AreSince};
ghost use Rattle.vr_trace.specs.Growing.{AreUpTo, ComeLater, ComeNext};
ghost use Rattle.vr_worker.specs.Decks.{HasAsked, HasLastUnit, HasUsedUp, IsUsedUp};
ghost use Rattle.vr_worker.specs.Decks.{numbers_of};
ghost use Rattle.vr_trace.specs.Growing.{greatest_last};
ghost use Rattle.vr_worker.specs.Ready.{IsBegun, IsDone, decks_of, history_of};
ghost use Rattle.vr_trace.specs.declared.no.RunNo.TheVariants.{Stamps};

use crate::deck::{DeckRun, Seat};
use crate::readying::{Ready, make_ready};
use crate::running::run_named;
use crate::served::Served;
use std::alloc::Global;
use std::marker::Brand;
use std::sync::Wait;
use std::thread::Threads;
use vr_history::{Entry, History};
use vr_ledger::Ledger;
use vr_outside::Gate;
use vr_trace::RunNo;
use vr_types::OutOfMemory;

/// The least stamp with which no event begins.
const STAMP_LIMIT: u64 = 1 << 62;

/// The greatest number of a unit of recovery: after it a deck has no other on its volume.
const LAST_UNIT: u32 = u32::MAX - 1;

/// What the decks of a step leave: the volumes, in the order of their numbers, and whether all
/// requests were answered.
#[derive(Drop)]
pub struct RunEnd<V: Drop> {
    pub volumes: Vec<V>,
    pub result: Result<(), RunNo>,
}

/// How the threads of decks ended: the first that wasn't done, or all were.
fn end_of(seats: &[Seat]) -> Result<(), RunNo>
    ensures { OnOk result (All IsDone seats.now) }
{
    for seat in seats {
        seat.end?;
    }
    Ok(())
}

/// Whether one of these entries is of a deck's last unit of recovery.
fn has_last_unit(entries: &[Entry]) -> bool
    ensures { IsTrue result → HasLastUnit entries.now }
{
    for entry in entries {
        if entry.unit.number >= LAST_UNIT {
            return true;
        }
    }
    false
}

/// Whether a history has come to its last stamp, or a deck in it to its last unit of recovery.
fn is_used_up(history: &History) -> bool
    ensures { IsTrue result → IsUsedUp history.now.entries }
{
    history.last() >= STAMP_LIMIT || has_last_unit(history.entries())
}

/// Whether one of the volumes has such a history.
fn has_used_up<V: Served>(volumes: &[V]) -> bool
    ensures { IsTrue result → HasUsedUp V.entries volumes.now }
{
    for volume in volumes {
        if is_used_up(volume.history()) {
            return true;
        }
    }
    false
}

/// An end for want of stamps or units of recovery, where a volume shows it.
pub(crate) fn shown<T, V: Served>(end: Result<T, RunNo>, volumes: &[V]) -> Result<T, RunNo>
    ensures done { IfOk result (λ value. end ≡ Ok value) }
    ensures stamps { IsErrOf result Stamps → HasUsedUp V.entries volumes.now }
{
    match end {
        Ok(value) => Ok(value),
        Err(RunNo::Memory) => Err(RunNo::Memory),
        Err(RunNo::Stamps) => {
            if has_used_up(volumes) {
                Err(RunNo::Stamps)
            } else {
                Err(RunNo::Memory)
            }
        }
    }
}

/// Runs the decks of a step that was made ready.
fn run_ready<R: Threads + Wait + Sync, V: Served + Send, G: Gate + Sync>(
    rt: &R,
    alloc: Global,
    ledgers: Vec<Ledger>,
    seats: &mut [Seat],
    volumes: Vec<V>,
    gate: &G,
) -> RunEnd<V>
    requires placed { ArePlaced V.number volumes.items }
    requires decks { AreNew V.entries (decks_of seats.old) volumes.items }
    requires histories { map history_of ledgers.items ≡ map V.entries volumes.items }
    requires begun { All (IsBegun ledgers.items (greatest_last V.entries volumes.items)) seats.old }
    requires had { All (λ (volume : V). AreUpTo (greatest_last V.entries volumes.items)
        (V.entries volume)) volumes.items }
    ensures placed { ArePlaced V.number result.volumes.items }
    ensures since { AreSince V.entries V.follows (numbers_of (decks_of seats.old)) volumes.items
        result.volumes.items }
    ensures later { ComeLater V.entries volumes.items result.volumes.items }
    ensures next { ComeNext V.entries volumes.items result.volumes.items }
    ensures asked { All (HasAsked result.result (map V.entries result.volumes.items))
        (decks_of seats.old) }
    ensures stamps { IsErrOf result.result Stamps → HasUsedUp V.entries result.volumes.items }
{
    let volumes = run_named::<R, V, Brand, G>(rt, alloc, volumes, ledgers, seats, gate);
    let result = shown(end_of(seats), volumes.as_slice());
    RunEnd { volumes, result }
}

/// Runs the decks of a step, each on a thread of its own where one can be made, over volumes that
/// they share. Their entries come after all that any of the volumes has. Where memory is refused
/// before the first thread starts, the volumes are as they were.
pub fn run_decks<R: Threads + Wait + Sync, V: Served + Send, G: Gate + Sync>(
    rt: &R,
    alloc: Global,
    decks: Vec<DeckRun>,
    volumes: Vec<V>,
    gate: &G,
) -> RunEnd<V>
    requires placed { ArePlaced V.number volumes.items }
    requires decks { AreNew V.entries decks.items volumes.items }
    ensures placed { ArePlaced V.number result.volumes.items }
    ensures since { AreSince V.entries V.follows (numbers_of decks.items) volumes.items
        result.volumes.items }
    ensures later { ComeLater V.entries volumes.items result.volumes.items }
    ensures next { ComeNext V.entries volumes.items result.volumes.items }
    ensures asked { All (HasAsked result.result (map V.entries result.volumes.items)) decks.items }
    ensures stamps { IsErrOf result.result Stamps → HasUsedUp V.entries result.volumes.items }
{
    match make_ready(alloc, decks, volumes.as_slice()) {
        Ok(ready) => {
            let Ready { ledgers, mut seats } = ready;
            run_ready(rt, alloc, ledgers, seats.as_mut_slice(), volumes, gate)
        }
        Err(OutOfMemory) => RunEnd {
            volumes,
            result: Err(RunNo::Memory),
        },
    }
}
