//! The cache beside the plain one, over all short runs of calls.

use crate::answers::{Answer, Stop, say, say_number};
use crate::runs::{Kind, judge_kind};
use std::alloc::Global;

/// How many answers were judged, and how many of them differ from the plain program's.
#[derive(Clone, Copy)]
pub struct Judged {
    answers: u64,
    differ: u64,
}

impl Judged {
    /// Nothing judged yet.
    fn new() -> Judged {
        Judged {
            answers: 0,
            differ: 0,
        }
    }

    /// Counts an answer.
    pub fn count(&mut self, same: bool) {
        self.answers = self.answers.saturating_add(1);
        if !same {
            self.differ = self.differ.saturating_add(1);
        }
    }

    fn say(&self, out: &mut String) -> Answer {
        say_number(out, self.differ)?;
        say(out, " differ of ")?;
        say_number(out, self.answers)
    }
}

/// Judges all runs of a kind: `sixteen`, with no further frame in the pool; `further`, with one;
/// `own`, with buffers of its own and one frame in the pool; `longer`, longer runs in which no call
/// of the device fails.
pub fn judge(alloc: Global, kind: &str, out: &mut String) -> Answer {
    let kind = match kind {
        "sixteen" => Kind::short(false, 16),
        "further" => Kind::short(false, 17),
        "own" => Kind::short(true, 1),
        "longer" => Kind::long(false, 17),
        _ => return Err(Stop::Line),
    };
    let mut judged = Judged::new();
    judge_kind(alloc, kind, &mut judged)?;
    judged.say(out)
}
