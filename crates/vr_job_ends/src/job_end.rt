//! What a job leaves: how it ended, its text, the reports of its steps of IDCAMS and the histories of
//! its volumes.

use vr_job_text::Job;
use vr_trace::{EndLine, Histories, StepReports};

/// How a job came to its end.
#[derive(Clone, Copy, PartialEq, Eq)]
pub enum End {
    /// Its steps ran.
    Ran,
    /// Its steps ran, and then the device of this volume failed to sync as it was closed.
    Unsynced(u32),
    /// Otherwise: one line says how.
    Line(EndLine),
}

/// What a job did: the job that its text is, where it is one; the reports of its steps of IDCAMS, as
/// far as these ran; how it ended; whether the lines of its history are printed too; and the
/// histories of its volumes, with every reply.
#[derive(Drop)]
pub struct Trace {
    pub job: Option<Job>,
    pub reports: StepReports,
    pub end: End,
    pub lines: bool,
    pub histories: Histories,
}

/// How a job ended: the status, the devices that it was handed, in their order, and what it did.
#[derive(Drop)]
pub struct JobEnd<D> {
    pub status: u8,
    pub shelf: Vec<D>,
    pub trace: Trace,
}
