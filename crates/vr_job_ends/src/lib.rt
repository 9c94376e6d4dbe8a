//! The two ends of a job: the words of the program ask for it, its input is read to the end and its
//! text is read as a job, and what it prints is made of its trace and written. It stands on words
//! (vr_types) and numbers (vr_text), sources and sinks (vr_outside), job texts (vr_job_text) and listings
//! (vr_trace). It promises that words have a plan exactly when they are a command, and that the plan is
//! what this command asks for; that a job that is read is that of all that the source had left, and that
//! each other end of the input has its cause; and that what is printed, and the status, are those of the
//! trace.
#![tactic(auto)]

mod command;
mod input;
mod job_end;
mod laws;
mod names;
mod planning;
mod printing;
mod reading;
mod word;

pub use command::Plan;
pub use job_end::{End, JobEnd, Trace};
pub use laws::{exact, numbers, one_plan};
pub use planning::plan;
pub use printing::print_end;
pub use reading::read_job;
