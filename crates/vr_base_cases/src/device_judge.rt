//! Devices beside plain, slow programs, over all short runs of calls.

use crate::{plain_disk, plain_log};
use vr_case_table::{Answer, Answers, Stop};

/// How many answers were judged, and how many of them the crate gives otherwise than the plain
/// program.
#[derive(Clone, Copy)]
pub struct JudgedCalls {
    answers: u64,
    differ: u64,
}

impl JudgedCalls {
    /// Nothing judged yet.
    pub fn new() -> JudgedCalls {
        JudgedCalls {
            answers: 0,
            differ: 0,
        }
    }

    /// Counts an answer.
    pub fn count(&mut self, same: bool) {
        self.answers = self.answers.saturating_add(1);
        if !same {
            self.differ = self.differ.saturating_add(1);
        }
    }

    fn say(&self, out: &mut Answers) {
        out.say_number("", self.differ);
        out.say_number(" differ of ", self.answers);
    }
}

/// Judges all short runs: `memory`, of a device in memory; `file`, of one over a file; `log`, of a
/// block that is replaced through a log on a device that stops.
pub fn judge(kind: &str, out: &mut Answers) -> Answer {
    let alloc = out.alloc();
    let mut judged = JudgedCalls::new();
    match kind {
        "memory" => plain_disk::judge(alloc, false, &mut judged)?,
        "file" => plain_disk::judge(alloc, true, &mut judged)?,
        "log" => plain_log::judge(alloc, &mut judged)?,
        _ => return Err(Stop::Line),
    }
    judged.say(out);
    Ok(())
}
