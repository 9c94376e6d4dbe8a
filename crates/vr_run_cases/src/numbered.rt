//! A job whose decks have numbers of their own.
ghost use Rattle.std.specs.Prelude.{◌≡◌};
ghost use Rattle.vr_job_text.specs.Job.{deck_steps};
ghost use Rattle.vr_job_text.specs.Numbers.{AreNumbered};

use std::marker::Model;
use vr_job_text::JobStep;

/// A job whose decks have numbers of their own, as reading a job ensures.
#[derive(Drop)]
pub struct Job {
    text: vr_job_text::Job,
}

impl Model for Job {
    ghost use Rattle.vr_job_text.specs.Job.{deck_steps};
    ghost use Rattle.vr_job_text.specs.Numbers.{AreNumbered};
    ghost use Rattle.vr_job_text.specs.declared.job.Job.{Job as Read};

    ghost Value = { Read };

    ghost view = { λ job. job.text };

    ghost invariant = { λ job. AreNumbered (deck_steps job.text.steps) };
}

impl Job {
    /// The job that was read.
    pub fn of(text: vr_job_text::Job) -> Job
        requires { AreNumbered (deck_steps text.steps) }
        ensures { result ≡ text }
    {
        Job { text }
    }

    /// Its steps.
    pub fn steps(&self) -> &[JobStep]
        ensures steps { result.now ≡ self.now.steps }
        ensures numbered { AreNumbered (deck_steps result.now) }
    {
        self.text.steps.as_slice()
    }

    /// The job as it was read.
    pub fn into_text(self) -> vr_job_text::Job
        ensures { result ≡ self }
    {
        self.text
    }
}
