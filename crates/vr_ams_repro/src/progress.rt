//! How far a REPRO has come.
ghost use Rattle.std.specs.Prelude.{◌≡◌};
ghost use Rattle.vr_ams_repro.specs.Progress as stated;

use crate::tried::{Tried, Way};
use vr_ams_define::fault_failure;
use vr_types::{Refusal, Reply};

/// The first record that was refused: its number, 1 for the first that was read, and the feedback
/// code.
#[derive(Clone, Copy)]
pub(crate) struct FirstRefused {
    pub(crate) number: u64,
    pub(crate) feedback: u16,
}

/// What became of the records so far.
#[derive(Clone, Copy)]
pub(crate) struct Tally {
    pub(crate) read: u64,
    pub(crate) added: u64,
    pub(crate) replaced: u64,
    pub(crate) refused: u64,
    pub(crate) first: Option<FirstRefused>,
}

/// How far it has come.
#[derive(Clone, Copy)]
pub(crate) struct Progress {
    pub(crate) tally: Tally,
    /// How many records were added or replaced since the last COMMIT.
    pub(crate) taken: u64,
    /// Whether something was entered since then.
    pub(crate) asked: bool,
    /// The fault with which the command has ended.
    pub(crate) fault: Option<u16>,
}

/// The tally with one more record that was taken so.
fn counted_by(way: Way, tally: Tally) -> Tally
    ensures { result ≡ stated.counted_by way tally }
{
    match way {
        Way::Add => Tally {
            added: tally.added.saturating_add(1),
            ..tally
        },
        Way::Replace => Tally {
            replaced: tally.replaced.saturating_add(1),
            ..tally
        },
    }
}

/// Whether a refusal ends the command.
fn is_ending(refusal: &Refusal) -> bool
    ensures { result ≡ stated.is_ending refusal.now }
{
    let code = refusal.code();
    902 <= code && code <= 905
}

impl Progress {
    /// Before the first record.
    pub(crate) fn new() -> Progress
        ensures { result ≡ stated.begun }
    {
        Progress {
            tally: Tally {
                read: 0,
                added: 0,
                replaced: 0,
                refused: 0,
                first: None,
            },
            taken: 0,
            asked: false,
            fault: None,
        }
    }

    /// With one more record that is read.
    pub(crate) fn with_read(self) -> Progress
        ensures { result ≡ stated.with_read self }
    {
        let tally = Tally {
            read: self.tally.read.saturating_add(1),
            ..self.tally
        };
        Progress { tally, ..self }
    }

    /// With something that is entered.
    pub(crate) fn with_asked(self) -> Progress
        ensures { result ≡ stated.with_asked self }
    {
        Progress {
            asked: true,
            ..self
        }
    }

    /// Ended with this fault, if not with another one.
    pub(crate) fn ended_with(self, fault: u16) -> Progress
        ensures { result ≡ stated.ended_with fault self }
    {
        Progress {
            fault: self.fault.or(Some(fault)),
            ..self
        }
    }

    /// With one more record that is added, or replaces the one that was there.
    fn with_taken(self, way: Way) -> Progress
        ensures { result ≡ stated.with_taken way self }
    {
        Progress {
            tally: counted_by(way, self.tally),
            taken: self.taken.saturating_add(1),
            ..self
        }
    }

    /// With one more record that is refused.
    fn with_refused(self, feedback: u16) -> Progress
        ensures { result ≡ stated.with_refused feedback self }
    {
        let number = self.tally.read;
        let first = self.tally.first.or(Some(FirstRefused { number, feedback }));
        let tally = Tally {
            refused: self.tally.refused.saturating_add(1),
            first,
            ..self.tally
        };
        Progress { tally, ..self }
    }

    fn after_refusal(self, refusal: &Refusal) -> Progress
        ensures { result ≡ stated.after_refusal refusal.now self }
    {
        let code = refusal.code();
        if is_ending(refusal) {
            self.ended_with(code)
        } else {
            self.with_refused(code)
        }
    }

    fn after_reply(self, way: Way, reply: &Reply) -> Progress
        ensures { result ≡ stated.after_reply way reply.now self }
    {
        match reply {
            Reply::Done { .. } => self.with_taken(way),
            Reply::Refused(refusal) => self.after_refusal(refusal),
        }
    }

    /// After a record was tried.
    pub(crate) fn after_tried(self, tried: &Tried) -> Progress
        ensures { result ≡ stated.after_tried tried.now self }
    {
        match tried {
            Tried::Replied { way, reply } => self.with_asked().after_reply(*way, reply),
            Tried::Unread(fault) => self.ended_with(fault_failure(*fault).fault),
        }
    }

    /// After a COMMIT.
    pub(crate) fn after_commit(self, reply: &Reply) -> Progress
        ensures { result ≡ stated.after_commit reply.now self }
    {
        let asked = false;
        match reply {
            Reply::Done { .. } => Progress {
                taken: 0,
                asked,
                ..self
            },
            Reply::Refused(refusal) => Progress { asked, ..self }.ended_with(refusal.code()),
        }
    }

    /// Whether a COMMIT has to come.
    pub(crate) fn is_due(self) -> bool
        ensures { result ≡ stated.is_due self }
    {
        self.taken >= 16
    }
}
