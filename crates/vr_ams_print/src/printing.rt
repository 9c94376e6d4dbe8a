//! The records that are handed to PRINT.
ghost use Rattle.std.specs.Prelude.{◌≡◌, ◌++◌, ◌-◌, ◌<◌, ◌^◌, length, IfOk};
ghost use Rattle.vr_trace.specs.Commands.{done};
ghost use Rattle.vr_ams_print.specs.Record.{printed_line};
ghost use Rattle.vr_ams_print.specs.Steps as stated;

use crate::record::{write_printed, write_record};
use crate::selection::{is_within, last_key, most_of, skipped};
use std::alloc::Global;
use vr_amsparse::{PrintCommand, PrintForm};
use vr_trace::{Outcome, RecordVisitor};
use vr_types::{Bytes, Kind, OutOfMemory};

/// What PRINT has printed of the records that are handed over, and what it prints of those to come.
#[derive(Drop)]
pub(crate) struct Printing {
    pub(crate) kind: Kind,
    pub(crate) form: PrintForm,
    /// How many records are still to be passed over.
    pub(crate) skip: u64,
    /// How many records may still be printed.
    pub(crate) left: u64,
    /// The key of TOKEY.
    pub(crate) last: Option<Bytes>,
    /// Whether a record came past that.
    pub(crate) over: bool,
    pub(crate) lines: Bytes,
    pub(crate) alloc: Global,
}

impl Printing {
    /// Before the first record.
    pub(crate) fn new(
        alloc: Global,
        kind: Kind,
        command: &PrintCommand,
    ) -> Result<Printing, OutOfMemory>
        ensures { IfOk result (λ printing. printing ≡ stated.started alloc kind command.now) }
    {
        Ok(Printing {
            kind,
            form: command.form,
            skip: skipped(&command.from),
            left: most_of(&command.to),
            last: last_key(alloc, &command.to)?,
            over: false,
            lines: Bytes::new(alloc),
            alloc,
        })
    }

    /// The outcome, once as many as this could be printed at first. Its lines are fewer than a
    /// number of 64 bits says.
    pub(crate) fn into_outcome(self, most: u64) -> Result<Outcome, OutOfMemory>
        ensures ended { IfOk result (λ outcome.
            outcome ≡ done (self.lines ++ printed_line (most - self.left))) }
        ensures few { length self.lines < 2 ^ 64 }
    {
        let Printing {
            left,
            mut lines,
            alloc,
            ..
        } = self;
        let count = most.saturating_sub(left);
        write_printed(alloc, &mut lines, count)?;
        Ok(Outcome {
            lines,
            code: 0,
            fault: None,
        })
    }
}

impl RecordVisitor for Printing {
    ghost after = { stated.after_record };

    ghost done = { stated.is_done };

    fn visit(&mut self, place: &[u8], record: &[u8]) -> Result<(), OutOfMemory> {
        if self.skip > 0 {
            self.skip -= 1;
        } else if is_within(&self.last, place, record) {
            let out = &mut self.lines;
            write_record(self.alloc, out, self.kind, place, self.form, record)?;
            self.left = self.left.saturating_sub(1);
        } else {
            self.over = true;
        }
        Ok(())
    }

    fn is_done(&self) -> bool {
        self.over || self.left == 0
    }
}
