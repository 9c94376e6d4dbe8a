//! What makes a history legal beyond its steps: a unit that has begun to undo asks for BACKOUT
//! next, and a write fault stops the volume at once.
ghost use Rattle.std.specs.Prelude.{◌≡◌, ◌↔◌, ◌+◌, IsTrue};
ghost use Rattle.vr_history.specs.Legal as legal;

use vr_history::{Entry, What};
use vr_model_state::is_unit;
use vr_types::{DeviceFault, Refusal, Reply, Request, SharedRequest, Unit};

fn is_backout(request: &Request) -> bool
    ensures { result ≡ legal.is_backout request.now }
{
    match request {
        Request::Backout => true,
        Request::Commit => false,
        Request::Get { .. } | Request::Point { .. } | Request::Add { .. } => false,
        Request::Update { .. } | Request::Erase { .. } | Request::EndReq { .. } => false,
    }
}

/// Whether a request that its deck shares is a BACKOUT.
fn shares_backout(request: &SharedRequest) -> bool
    ensures { result ≡ legal.is_backout request.now }
{
    is_backout(request.get())
}

fn backs_out(what: &What, later: bool) -> bool
    ensures { result ≡ legal.backs_out what.now later }
{
    match what {
        What::Asked { request, .. } => shares_backout(request),
        What::Undone { .. } | What::Claimed { .. } => later,
        What::Split { .. } | What::Faulted { .. } => later,
    }
}

/// Whether the next request of a unit among some entries, if it has one, is a BACKOUT.
fn asks_backout(unit: Unit, entries: &[Entry]) -> bool
    ensures { result ≡ legal.asks_backout unit entries.now }
{
    match entries {
        [] => true,
        [first, rest @ ..] => {
            let later = asks_backout(unit, rest);
            if is_unit(unit, first.unit) {
                backs_out(&first.what, later)
            } else {
                later
            }
        }
    }
}

/// Whether an entry that undoes is followed by the BACKOUT of its unit.
fn backs_out_after(entry: &Entry, rest: &[Entry]) -> bool
    ensures { IsTrue result ↔ legal.BacksOutAfter entry.now rest.now entry.now.what }
{
    match &entry.what {
        What::Undone { .. } => asks_backout(entry.unit, rest),
        What::Asked { .. } | What::Claimed { .. } => true,
        What::Split { .. } | What::Faulted { .. } => true,
    }
}

/// Whether each unit that has begun to undo asks for BACKOUT next, if it asks for anything.
pub fn backs_out_once_begun(entries: &[Entry]) -> bool
    ensures { IsTrue result ↔ legal.BackOutOnceBegun entries.now }
{
    match entries {
        [] => true,
        [first, rest @ ..] => backs_out_after(first, rest) && backs_out_once_begun(rest),
    }
}

fn is_write_fault(reply: &Reply) -> bool
    ensures { result ≡ legal.is_write_fault reply.now }
{
    match reply {
        Reply::Done { .. } => false,
        Reply::Refused(refusal) => is_refused_write(refusal),
    }
}

fn is_refused_write(refusal: &Refusal) -> bool
    ensures { result ≡ legal.is_write_fault (Reply.Refused refusal.now) }
{
    match refusal {
        Refusal::WriteFault => true,
        Refusal::EndOfData | Refusal::Duplicate { .. } | Refusal::NotFound => false,
        Refusal::NoAddress | Refusal::NoSpace { .. } | Refusal::NoPosition => false,
        Refusal::NoGet | Refusal::KeyChanged | Refusal::LengthChanged => false,
        Refusal::BadLength { .. } | Refusal::BadSlot | Refusal::Held { .. } => false,
        Refusal::LogFull { .. } | Refusal::Stopped { .. } | Refusal::ReadFault => false,
        Refusal::Memory | Refusal::NotAllowed | Refusal::NoFile => false,
    }
}

fn is_stop(what: &What) -> bool
    ensures { IsTrue result ↔ (what.now ≡ What.Faulted DeviceFault.Write) }
{
    match what {
        What::Faulted { fault } => is_write(*fault),
        What::Asked { .. } | What::Undone { .. } => false,
        What::Claimed { .. } | What::Split { .. } => false,
    }
}

fn is_write(fault: DeviceFault) -> bool
    ensures { IsTrue result ↔ (fault ≡ DeviceFault.Write) }
{
    match fault {
        DeviceFault::Write => true,
        DeviceFault::Read => false,
    }
}

/// Whether the first of some entries is the fault that stops the volume, at the stamp after one.
fn stops_next(stamp: u64, entries: &[Entry]) -> bool
    ensures { IsTrue result
        ↔ legal.is_fault_at (stamp + 1) (What.Faulted DeviceFault.Write) entries.now }
{
    match entries {
        [] => false,
        [first, ..] => stamp < first.stamp && first.stamp - stamp == 1 && is_stop(&first.what),
    }
}

/// Whether an entry whose reply is a write fault is followed at once by the fault that stops the
/// volume.
fn stops_after(entry: &Entry, rest: &[Entry]) -> bool
    ensures { IsTrue result ↔ legal.StopsAfter entry.now rest.now entry.now.what }
{
    match &entry.what {
        What::Asked { reply, .. } => !is_write_fault(reply) || stops_next(entry.stamp, rest),
        What::Undone { .. } | What::Claimed { .. } => true,
        What::Split { .. } | What::Faulted { .. } => true,
    }
}

/// Whether each reply that the device failed to write is followed, at the next stamp, by the fault
/// that stops the volume.
pub fn stops_at_write_faults(entries: &[Entry]) -> bool
    ensures { IsTrue result ↔ legal.StopAtWriteFaults entries.now }
{
    match entries {
        [] => true,
        [first, rest @ ..] => stops_after(first, rest) && stops_at_write_faults(rest),
    }
}
