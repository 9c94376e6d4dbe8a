//! The top call.
ghost use Rattle.std.specs.Prelude.{◌≡◌, ◌≢◌, ◌≤◌, ◌⊎◌, ℕ, Bool, List, None, Some, bytes_eq};
ghost use Rattle.std.specs.Prelude.{codes};
ghost use Rattle.vr_outside.specs.Told.{Takes};
ghost use Rattle.vr_job_ends.specs.Asked.{Format, Run};
ghost use Rattle.vr_job_ends.specs.Command.{plan_of};
ghost use Rattle.vr_job_ends.specs.Ends.{IsPrinted, IsStatus, IsThrough, printed_of};
ghost use Rattle.vr_job_ends.specs.declared.job_end.End.TheVariants.{Ran};
ghost use Rattle.vr_job.specs.Done.{AreFew, IsFormatDone, IsFormatJob, IsNoCommand, IsNothing};
ghost use Rattle.vr_job.specs.Done.{IsRunDone};
ghost use Rattle.vr_job.specs.Done.{IsRunJob, narrowed};

use crate::done::{Done, format_shelf, not_run, run_shelf};
use std::alloc::Global;
use std::sync::Wait;
use std::thread::Threads;
use vr_device::BlockDevice;
use vr_job_ends::{JobEnd, Plan, plan, print_end};
use vr_outside::{Gate, Sink, Source};
use vr_trace::EndLine;
use vr_types::Words;

/// Does what the words ask for. It prints nothing.
fn run_words<R: Threads + Wait + Sync, S: Source, D: BlockDevice + Send, G: Gate + Sync>(
    rt: &R,
    alloc: Global,
    words: &Words,
    input: &mut S,
    shelf: Vec<D>,
    gate: &G,
) -> Done<D>
    ensures command { plan_of words.now ≡ None
        → IsNoCommand shelf.items result.shelf.items result.trace }
    ensures formats { (dir : List ℕ) (count size blocks log area : ℕ)
        → plan_of words.now ≡ Some (Format dir count size blocks log area)
        → IsNothing result.trace × IsFormatDone D.tells D.seen D.faults count (narrowed log)
        (narrowed area) shelf.items result.shelf.items result.trace.end }
    ensures runs { (job dir : List ℕ) (lines : Bool) → plan_of words.now ≡ Some (Run job dir lines)
        → IsRunDone D.tells D.seen D.faults (bytes_eq dir (codes "-")) lines (S.left input.old)
        (S.left input.new) (S.faults input.old) (S.faults input.new) shelf.items
        result.shelf.items result.trace result.trace.end }
    ensures untouched { ((job dir : List ℕ) (lines : Bool)
        → plan_of words.now ≢ Some (Run job dir lines)) → input.new ≡ input.old }
    ensures few { AreFew result.trace.reports }
{
    match plan(words) {
        None => not_run(alloc, EndLine::NoCommand, shelf),
        Some(
            Plan::Format {
                count,
                log,
                area,
                ..
            },
        ) => format_shelf(alloc, shelf, count, log, area),
        Some(Plan::Run { dir, trace, .. }) => {
            run_shelf(rt, alloc, input, shelf, dir == "-", trace, gate)
        }
    }
}

/// Does what the words ask for, and prints what comes of it: the devices of the shelf are formatted,
/// or the job of the input is run on the volumes of the shelf, 1 to 16 of them, the decks of a step each
/// on a thread of its own where one can be made. A deck's thread passes the gate between two events of a
/// request, and before each event with the latch of its volume held. Every clause holds at every
/// schedule.
pub fn run_job<R: Threads + Wait + Sync, S: Source, K: Sink, D: BlockDevice + Send, G: Gate + Sync>(
    rt: &R,
    alloc: Global,
    words: &Words,
    input: &mut S,
    output: &mut K,
    shelf: Vec<D>,
    gate: &G,
) -> JobEnd<D>
    // What was printed, and the status, are those of the trace.
    ensures status { IsStatus (K.faults output.old) (K.faults output.new) result.trace
        result.status }
    // Of a job whose steps ran it is 16 at most, or 28.
    ensures ran { result.trace.end ≡ Ran → (result.status ≤ 16) ⊎ (result.status ≡ 28) }
    ensures printed { IsPrinted (K.taken output.old) (K.taken output.new) (K.faults output.old)
        (K.faults output.new) (printed_of result.trace) }
    // Of a job that came through, no failure of the sink is hidden.
    ensures told { IsThrough result.trace.end → result.status ≢ 28
        → Takes (K.taken output.old) (K.taken output.new) (printed_of result.trace) }

    // What was done, by what the words ask for.
    ensures command { plan_of words.now ≡ None
        → IsNoCommand shelf.items result.shelf.items result.trace }
    ensures formats { (dir : List ℕ) (count size blocks log area : ℕ)
        → plan_of words.now ≡ Some (Format dir count size blocks log area)
        → IsFormatJob D.tells D.seen D.faults count (narrowed log) (narrowed area) shelf.items
        result.shelf.items result.trace }
    ensures runs { (job dir : List ℕ) (lines : Bool) → plan_of words.now ≡ Some (Run job dir lines)
        → IsRunJob D.tells D.seen D.faults (bytes_eq dir (codes "-")) lines (S.left input.old)
        (S.left input.new) (S.faults input.old) (S.faults input.new) shelf.items
        result.shelf.items result.trace }
    ensures untouched { ((job dir : List ℕ) (lines : Bool)
        → plan_of words.now ≢ Some (Run job dir lines)) → input.new ≡ input.old }
{
    let done = run_words(rt, alloc, words, input, shelf, gate);
    print_end(alloc, done.trace, done.shelf, output)
}
