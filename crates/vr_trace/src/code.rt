//! Return codes, feedback numbers and condition codes.
ghost use Rattle.std.specs.Prelude.{◌≡◌};
ghost use Rattle.vr_trace.specs.Code as coded;
ghost use Rattle.vr_trace.specs.Volumes.{entries_of};

use crate::histories::Histories;
use crate::kept::{KeptDecks, KeptStep, KeptSteps};
use crate::report::StepReport;
use vr_history::{Entry, History, What};
use vr_types::{Refusal, Reply};

/// The return code of a reply: 0 where it was done, 12 for a fault of the device, else 8.
pub(crate) fn return_code(reply: &Reply) -> u8
    ensures { result ≡ coded.return_code reply.now }
{
    match reply {
        Reply::Done { .. } => 0,
        Reply::Refused(Refusal::ReadFault | Refusal::WriteFault) => 12,
        Reply::Refused(_) => 8,
    }
}

/// The feedback number of a reply.
pub(crate) fn feedback(reply: &Reply) -> u16
    ensures { result ≡ coded.feedback_of reply.now }
{
    match reply {
        Reply::Done { feedback, .. } => *feedback,
        Reply::Refused(refusal) => refusal.code(),
    }
}

/// The condition code of a job: the greatest of those of its steps of decks and of the reports of its
/// steps of IDCAMS, 0 where there is none.
pub fn job_code(steps: &KeptSteps, reports: &[StepReport], histories: &Histories) -> u8
    ensures { result ≡ coded.job_code histories.now steps.now reports.now }
{
    steps_code(steps.as_slice(), histories).max(reports_code(reports))
}

/// The greatest of the codes of the steps of decks.
fn steps_code(steps: &[KeptStep], histories: &Histories) -> u8
    ensures { result ≡ coded.greatest (coded.decks_code histories.now) steps.now }
{
    let mut code = 0u8;
    for step in steps {
        code = code.max(decks_code(step, histories));
    }
    code
}

/// What a step makes of it by its decks.
fn decks_code(step: &KeptStep, histories: &Histories) -> u8
    ensures { result ≡ coded.decks_code histories.now step.now }
{
    match step {
        KeptStep::Decks(step) => step_code(&step.decks, histories),
        KeptStep::Utilities(_) => 0,
    }
}

/// The greatest of the codes of reports.
fn reports_code(reports: &[StepReport]) -> u8
    ensures { result ≡ coded.greatest coded.report_code reports.now }
{
    let mut code = 0u8;
    for report in reports {
        code = code.max(report.code);
    }
    code
}

/// The condition code of a step with these decks: 8 where a request of theirs was answered 903, 904
/// or 905, else 4 where one was answered 28 or another number from 901 on, else 0.
pub fn step_code(decks: &KeptDecks, histories: &Histories) -> u8
    ensures { result ≡ coded.step_code histories.now decks.now }
{
    let mut code = 0u8;
    for deck in decks.as_slice() {
        code = code.max(deck_code(deck.number, histories.as_slice()));
    }
    code
}

/// What the requests of a deck make of its step's condition code.
fn deck_code(deck: u32, histories: &[History]) -> u8
    ensures { result ≡ coded.numbers_code (entries_of histories.now) deck }
{
    let mut code = 0u8;
    for history in histories {
        code = code.max(history_code(deck, history.entries()));
    }
    code
}

/// What those of one volume make of it.
fn history_code(deck: u32, entries: &[Entry]) -> u8
    ensures { result ≡ coded.history_code deck entries.now }
{
    let mut code = 0u8;
    for entry in entries {
        code = code.max(entry_code(deck, entry));
    }
    code
}

/// What an entry makes of it.
fn entry_code(deck: u32, entry: &Entry) -> u8
    ensures { result ≡ coded.entry_code deck entry.now }
{
    if entry.unit.deck == deck {
        severity(&entry.what)
    } else {
        0
    }
}

fn severity(what: &What) -> u8
    ensures { result ≡ coded.severity what.now }
{
    match what {
        What::Asked { reply, .. } => reply_severity(reply),
        _ => 0,
    }
}

/// What a reply makes of it: 8 where the volume is at fault, 4 where something was in the way.
fn reply_severity(reply: &Reply) -> u8
    ensures { result ≡ coded.reply_severity reply.now }
{
    match reply {
        Reply::Done { .. } => 0,
        Reply::Refused(Refusal::Stopped { .. } | Refusal::ReadFault | Refusal::WriteFault) => 8,
        Reply::Refused(
            Refusal::NoSpace { .. }
            | Refusal::Held { .. }
            | Refusal::LogFull { .. }
            | Refusal::Memory
            | Refusal::NotAllowed
            | Refusal::NoFile,
        ) => 4,
        Reply::Refused(_) => 0,
    }
}
