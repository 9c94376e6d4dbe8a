//! Laws of job texts.
ghost use Rattle.std.specs.Prelude.{◌≡◌, ℕ, List, ◌⊎◌};
ghost use Rattle.vr_job_text.specs.declared.fault.TextFault.{TextFault};
ghost use Rattle.vr_job_text.specs.declared.job.Job.{Job};
ghost use Rattle.vr_job_text.specs.Job.{IsJob, IsFirstFault};

/// A text is one job at most, and has one first fault at most.
pub fn one_value()
    ensures job { (text : List ℕ) (one other : Job)
        → IsJob text one → IsJob text other → one ≡ other }
    ensures fault { (text : List ℕ) (one other : TextFault)
        → IsFirstFault text one → IsFirstFault text other → one ≡ other }
{}

/// It is a job or has a first fault, and never both.
pub fn value_or_fault()
    ensures both { (text : List ℕ) (job : Job) (fault : TextFault)
        → IsJob text job → IsFirstFault text fault → ⊥ }
    ensures either { (text : List ℕ) → ((job : Job) × IsJob text job)
        ⊎ ((fault : TextFault) × IsFirstFault text fault) }
{}
