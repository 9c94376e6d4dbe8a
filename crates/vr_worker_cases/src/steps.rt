//! Steps of decks that are run over two plain volumes with no entry.
ghost use Rattle.std.specs.Prelude.{◌≡◌, IfOk, map};
ghost use Rattle.vr_worker.specs.Decks.{numbers_of};
ghost use Rattle.vr_worker_cases.specs.Start.{AreFirst, first_numbers};

use crate::volume::PlainVolume;
use std::alloc::Global;
use std::sync::Wait;
use std::thread::Threads;
use vr_outside::{Gate, OpenGate};
use vr_types::{
    Bound, Bytes, FileRef, Find, Integrity, Kind, OutOfMemory, PartNo, Request, SharedRequest,
};
use vr_worker::{DeckRun, RunEnd, run_decks};

/// A request for a volume at a line: an Update, which takes two events, or a GET, which takes one.
pub fn bound(alloc: Global, volume: u32, line: u32, is_update: bool) -> Result<Bound, OutOfMemory> {
    let file = FileRef {
        volume,
        slot: 0,
        base: PartNo(1),
        path: None,
        kind: Kind::Keyed,
        known: true,
    };
    let request = if is_update {
        Request::Update {
            file,
            bytes: Bytes::new(alloc),
        }
    } else {
        Request::Get {
            file,
            find: Find::Next,
            update: false,
            integrity: Integrity::Nri,
        }
    };
    Ok(Bound {
        volume,
        line,
        request: SharedRequest::new(alloc, request)?,
    })
}

/// Volumes 0 and 1, with no entry.
fn two_volumes(alloc: Global) -> Result<Vec<PlainVolume>, OutOfMemory>
    ensures { IfOk result (λ volumes. AreFirst volumes.items) }
{
    Ok(vec![in alloc; PlainVolume::new(alloc, 0), PlainVolume::new(alloc, 1)]?)
}

/// Decks 1, 2 and 3 with these requests.
fn three_decks(
    alloc: Global,
    first: Vec<Bound>,
    second: Vec<Bound>,
    third: Vec<Bound>,
) -> Result<Vec<DeckRun>, OutOfMemory>
    ensures { IfOk result (λ decks. numbers_of decks.items ≡ first_numbers) }
{
    let first = DeckRun {
        number: 1,
        requests: first,
    };
    let second = DeckRun {
        number: 2,
        requests: second,
    };
    let third = DeckRun {
        number: 3,
        requests: third,
    };
    Ok(vec![in alloc; first, second, third]?)
}

/// Runs decks 1, 2 and 3 with these requests over volumes 0 and 1.
pub fn run_three<R: Threads + Wait + Sync, G: Gate + Sync>(
    rt: &R,
    alloc: Global,
    first: Vec<Bound>,
    second: Vec<Bound>,
    third: Vec<Bound>,
    gate: &G,
) -> Result<RunEnd<PlainVolume>, OutOfMemory> {
    let volumes = two_volumes(alloc)?;
    let decks = three_decks(alloc, first, second, third)?;
    Ok(run_decks(rt, alloc, decks, volumes, gate))
}

/// Runs no deck over volumes 0 and 1.
pub fn run_none<R: Threads + Wait + Sync>(
    rt: &R,
    alloc: Global,
) -> Result<RunEnd<PlainVolume>, OutOfMemory> {
    let volumes = two_volumes(alloc)?;
    Ok(run_decks(rt, alloc, Vec::new(alloc), volumes, &OpenGate))
}
