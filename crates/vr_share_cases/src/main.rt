//! Cases of decks that share volumes: jobs that are run by `run_volumes` and `run_job` of `vr_job`
//! over volumes in memory, the decks of a step on threads. It prints a line for each case, the same
//! at every schedule, and its whole output is compared. It stands on `vr_job` for the runs, on
//! `vr_outside` for the gates by which it holds decks, and on `vr_case_volumes` for volumes. What it
//! promises is that it is safe; what the lines show is tested.
#![tactic(auto)]

mod areas;
mod browses;
mod full_log;
mod gates;
mod holds;
mod jobs;
mod listings;
mod replies;

use areas::Meanwhile;
use browses::{Change, ENTRY, KEYED, RELATIVE, Row};
use std::alloc::{AllocError, Global};
use std::io;
use std::sync::Wait;
use std::thread::Threads;
use vr_case_volumes::{Answer, Stop};
use vr_types::Kind;

/// A case, which writes the rest of its line.
#[derive(Clone, Copy)]
enum Case {
    HeldRecord,
    Browsed,
    FullLog,
    /// A deck is held after so many events of its request.
    After(u32),
    /// A deck is held after so many stages of the split of an area, while another does this.
    InArea(u32, Meanwhile),
    SameListing,
    BothHeld,
}

/// The cases, in the order of their lines.
const CASES: [Case; 15] = [
    Case::HeldRecord,
    Case::Browsed,
    Case::FullLog,
    Case::After(1),
    Case::After(2),
    Case::After(3),
    Case::InArea(1, Meanwhile::Asks),
    Case::InArea(2, Meanwhile::Asks),
    Case::InArea(3, Meanwhile::Asks),
    Case::InArea(4, Meanwhile::Asks),
    Case::InArea(2, Meanwhile::AddsShort),
    Case::InArea(2, Meanwhile::AddsLong),
    Case::InArea(2, Meanwhile::AddsElsewhere),
    Case::SameListing,
    Case::BothHeld,
];

fn main(rt: HostRuntime) -> io::Result<()> {
    for case in CASES {
        print_case(&rt, case)?;
    }
    print_browses(&rt, Kind::Keyed, &KEYED)?;
    print_browses(&rt, Kind::Entry, &ENTRY)?;
    print_browses(&rt, Kind::Relative, &RELATIVE)
}

/// Prints two lines for each change of a data set of this kind.
fn print_browses<R: Threads + Wait + Sync + Print + AllocGlobal>(
    rt: &R,
    kind: Kind,
    rows: &[Row],
) -> io::Result<()> {
    for row in rows {
        let change = Change::of_row(*row);
        print_browse(rt, kind, change, "COMMIT")?;
        print_browse(rt, kind, change, "BACKOUT")?;
    }
    Ok(())
}

/// Prints the line of a change whose unit ends so.
fn print_browse<R: Threads + Wait + Sync + Print + AllocGlobal>(
    rt: &R,
    kind: Kind,
    change: Change,
    end: &str,
) -> io::Result<()> {
    let mut out = String::new(rt.alloc());
    let answer = browses::browsed(rt, rt.alloc(), kind, change, end, &mut out);
    print_answer(rt, kind_name(kind), out.as_str(), answer)
}

/// What precedes the colon of a browse's line.
fn kind_name(kind: Kind) -> &'static str {
    match kind {
        Kind::Keyed => "key-sequenced",
        Kind::Entry => "entry-sequenced",
        Kind::Relative => "relative",
    }
}

/// Prints the line of a case.
fn print_case<R: Threads + Wait + Sync + Print + AllocGlobal>(
    rt: &R,
    case: Case,
) -> io::Result<()> {
    let mut out = String::new(rt.alloc());
    let answer = answer(rt, rt.alloc(), case, &mut out);
    print_answer(rt, name_of(case), out.as_str(), answer)
}

/// What precedes the colon of a case's line.
fn name_of(case: Case) -> &'static str {
    match case {
        Case::HeldRecord => "a held record",
        Case::Browsed => "a browse",
        Case::FullLog => "a full log",
        Case::After(1) => "after one event",
        Case::After(2) => "after two events",
        Case::After(_) => "after three events",
        Case::InArea(stages, does) => name_in_area(stages, does),
        Case::SameListing => "one listing",
        Case::BothHeld => "two volumes at once",
    }
}

/// What precedes the colon where a deck is held in the midst of the split of an area.
fn name_in_area(stages: u32, does: Meanwhile) -> &'static str {
    match (does, stages) {
        (Meanwhile::Asks, 1) => "area claimed",
        (Meanwhile::Asks, 2) => "interval copied",
        (Meanwhile::Asks, 3) => "area linked",
        (Meanwhile::Asks, _) => "head switched",
        (Meanwhile::AddsShort, _) => "meanwhile a short record",
        (Meanwhile::AddsLong, _) => "meanwhile a long record",
        (Meanwhile::AddsElsewhere, _) => "meanwhile elsewhere",
    }
}

/// Runs a case.
fn answer<R: Threads + Wait + Sync>(rt: &R, alloc: Global, case: Case, out: &mut String) -> Answer {
    match case {
        Case::HeldRecord => holds::held_record(rt, alloc, out),
        Case::Browsed => holds::browsed(rt, alloc, out),
        Case::FullLog => full_log::full_log(rt, alloc, out),
        Case::After(events) => holds::between_events(rt, alloc, events, out),
        Case::InArea(stages, does) => areas::between_stages(rt, alloc, stages, does, out),
        Case::SameListing => listings::same_listing(rt, alloc, out),
        Case::BothHeld => holds::both_held(rt, alloc, out),
    }
}

/// Prints what a case came to.
fn print_answer<R: Print>(rt: &R, name: &str, out: &str, answer: Answer) -> io::Result<()> {
    match answer {
        Ok(()) => println!(rt; "{name}: {out}"),
        Err(Stop::Case) => println!(rt; "{name}: no case"),
        Err(Stop::Memory) => Err(AllocError.into()),
    }
}
