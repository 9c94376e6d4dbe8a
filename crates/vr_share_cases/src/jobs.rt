//! Jobs that run over volumes in memory.
ghost use Rattle.std.specs.Prelude.{◌≡◌};
ghost use Rattle.vr_job_text.specs.Job.{deck_steps};
ghost use Rattle.vr_job_text.specs.Numbers.{AreNumbered};

use std::alloc::Global;
use std::fmt::Write;
use std::marker::Model;
use std::sync::Wait;
use std::thread::Threads;
use vr_case_volumes::{Answer, Stop, add_lines};
use vr_device::MemoryDevice;
use vr_job::{End, ShelfEnd, run_volumes};
use vr_job_text::{JobFault, JobStep, parse_run_job};
use vr_outside::Gate;
use vr_trace::{EndLine, Histories};

/// The most bytes of a text.
const LONGEST: usize = 1 << 20;

/// The most volumes of a shelf.
const MOST_VOLUMES: usize = 16;

/// A job whose decks have numbers of their own, as reading a job ensures.
#[derive(Drop)]
pub struct Job {
    text: vr_job_text::Job,
}

impl Model for Job {
    ghost use Rattle.vr_job_text.specs.Job.{deck_steps};
    ghost use Rattle.vr_job_text.specs.Numbers.{AreNumbered};
    ghost use Rattle.vr_job_text.specs.declared.job.Job.{Job as Read};

    ghost Value = { Read };

    ghost view = { λ job. job.text };

    ghost invariant = { λ job. AreNumbered (deck_steps job.text.steps) };
}

impl Job {
    /// The job that was read.
    fn of(text: vr_job_text::Job) -> Job
        requires { AreNumbered (deck_steps text.steps) }
        ensures { result ≡ text }
    {
        Job { text }
    }

    /// Its steps.
    fn steps(&self) -> &[JobStep]
        ensures steps { result.now ≡ self.now.steps }
        ensures numbered { AreNumbered (deck_steps result.now) }
    {
        self.text.steps.as_slice()
    }
}

/// Adds the line of a PUT with these operands before its record, which has the key of a number and
/// so many letters.
pub fn add_put(text: &mut String, before: &str, key: u32, letter: char, letters: u32) -> Answer {
    write!(text, "PUT {before}")?;
    add_data(text, key, letter, letters)
}

/// Ends the line of a PUT with such a record.
pub fn add_data(text: &mut String, key: u32, letter: char, letters: u32) -> Answer {
    write!(text, " DATA=C'{key:08}")?;
    for _ in 0..letters {
        text.push(letter)?;
    }
    text.push_str("'\n")?;
    Ok(())
}

/// The job of a text.
pub fn job_of(alloc: Global, text: &str) -> Result<Job, Stop> {
    let text = text.as_bytes();
    if text.len() > LONGEST {
        return Err(Stop::Case);
    }
    match parse_run_job(alloc, text) {
        Ok(job) => Ok(Job::of(job)),
        Err(JobFault::Memory) => Err(Stop::Memory),
        Err(JobFault::Text(_)) => Err(Stop::Case),
    }
}

/// What a run that came through left: the devices, and the histories of their volumes.
#[derive(Drop)]
pub struct Ran {
    pub shelf: Vec<MemoryDevice>,
    pub histories: Histories,
}

/// What a run left, where it came through.
fn left_by(end: ShelfEnd<MemoryDevice>) -> Result<Ran, Stop> {
    let ShelfEnd {
        shelf,
        histories,
        end,
        ..
    } = end;
    match end {
        End::Ran => Ok(Ran { shelf, histories }),
        End::Line(EndLine::NoMemory) => Err(Stop::Memory),
        End::Line(_) | End::Unsynced(_) => Err(Stop::Case),
    }
}

/// Runs a job over the volumes of a shelf.
pub fn run<R: Threads + Wait + Sync, G: Gate + Sync>(
    rt: &R,
    alloc: Global,
    shelf: Vec<MemoryDevice>,
    job: &Job,
    gate: &G,
) -> Result<Ran, Stop> {
    if shelf.len() > MOST_VOLUMES {
        return Err(Stop::Case);
    }
    match run_volumes(rt, alloc, shelf, job.steps(), gate) {
        Ok(end) => left_by(end),
        Err(_) => Err(Stop::Memory),
    }
}

/// Runs the job of a text over the volumes of a shelf.
pub fn run_text<R: Threads + Wait + Sync, G: Gate + Sync>(
    rt: &R,
    alloc: Global,
    shelf: Vec<MemoryDevice>,
    text: &str,
    gate: &G,
) -> Result<Ran, Stop> {
    let job = job_of(alloc, text)?;
    run(rt, alloc, shelf, &job, gate)
}

/// Runs the job of these lines over the volumes of a shelf.
pub fn run_lines<R: Threads + Wait + Sync, G: Gate + Sync>(
    rt: &R,
    alloc: Global,
    shelf: Vec<MemoryDevice>,
    lines: &[&str],
    gate: &G,
) -> Result<Ran, Stop> {
    let mut text = String::new(alloc);
    add_lines(&mut text, lines)?;
    run_text(rt, alloc, shelf, text.as_str(), gate)
}
