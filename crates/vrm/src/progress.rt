//! How far a job is, shown on a terminal.

use std::io;
use std::io::{Eprint, IsTerminal, Print, Stderr, Write};
use std::sync::atomic::{AtomicBool, AtomicU64, Ordering};
use vr_outside::{Gate, Spot};

/// After how many events the line is shown again.
const STEP: u64 = 256;

/// A gate that holds nobody and shows how far a job is: one line on standard error where that is a
/// terminal, else nothing. The threads of the decks share it.
#[derive(Drop)]
pub struct Progress {
    to: Stderr,
    is_terminal: bool,
    /// The events that have begun.
    events: AtomicU64,
    /// Those that weren't the last of their request.
    further: AtomicU64,
    has_line: AtomicBool,
}

impl Progress {
    /// Nothing is shown yet.
    pub fn new(to: Stderr) -> Progress {
        Progress {
            to,
            is_terminal: to.is_terminal(),
            events: AtomicU64::new(0),
            further: AtomicU64::new(0),
            has_line: AtomicBool::new(false),
        }
    }

    /// Shows that the volumes of a job are being opened, which may take long after a crash.
    pub fn begin(&self) {
        if self.is_terminal {
            self.has_line.store(true, Ordering::SeqCst);
            let _ = self.to.eprint("\rvrm: opening the volumes\x1b[K");
        }
    }

    /// Takes the line away, if there is one.
    pub fn clear(&self) {
        if self.has_line.swap(false, Ordering::SeqCst) {
            let _ = self.to.eprint("\r\x1b[K");
        }
    }

    /// Shows how many requests and events have begun, and whose the last event is. What fails isn't
    /// tried again: the job goes on.
    fn show(&self, events: u64, deck: u32, volume: u32) {
        let asked = events.saturating_sub(self.further.load(Ordering::SeqCst));
        self.has_line.store(true, Ordering::SeqCst);
        let _ = self.to.eprint(format_args!(
            "\rvrm: {asked} requests asked, {events} events, now deck {deck} on volume {volume}\x1b[K"
        ));
    }

    /// Counts an event that begins, and shows each that is a multiple of the step.
    fn count(&self, deck: u32, volume: u32) {
        let events = self.events.fetch_add(1, Ordering::SeqCst);
        if events % STEP == STEP - 1 {
            self.show(events.saturating_add(1), deck, volume);
        }
    }
}

impl Gate for Progress {
    fn pass(&self, at: Spot) {
        if !self.is_terminal {
            return;
        }
        match at {
            Spot::Holding { deck, volume } => self.count(deck, volume),
            Spot::Between { .. } => {
                self.further.fetch_add(1, Ordering::SeqCst);
            }
        }
    }
}

/// Standard output, before whose first byte the line is taken away.
#[derive(Drop)]
pub struct Listing<'a, P> {
    to: &'a P,
    progress: &'a Progress,
}

impl<P> Listing<'_, P> {
    /// What is printed by the runtime.
    pub fn new<'a>(to: &'a P, progress: &'a Progress) -> Listing<'a, P> {
        Listing { to, progress }
    }
}

impl<P: Print> Write for Listing<'_, P> {
    fn write(&mut self, bytes: &[u8]) -> io::Result<usize> {
        self.progress.clear();
        self.to.write_some(bytes)
    }

    fn flush(&mut self) -> io::Result<()> {
        Ok(())
    }
}
