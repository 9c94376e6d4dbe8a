//! Which call a question asks.

use crate::desk::ModelDesk;
use crate::{histories, views};
use std::alloc::Global;
use vr_case_table::{Answer, Answers, Desk};
use vr_case_words::{entry_of, parted};
use vr_model::apply;

impl Desk for ModelDesk {
    fn answer(&mut self, line: &str, out: &mut Answers) -> Answer {
        let alloc = out.alloc();
        let (verb, rest) = parted(line);
        match verb {
            "volume" => self.shape(rest, out),
            "cluster" => self.cluster(alloc, rest, out),
            "alternate" => self.alternate(alloc, rest, out),
            "record" => self.record(alloc, rest, out),
            "area" => self.area(rest, out),
            "open" => self.open(alloc, out),
            "show" => views::show(alloc, &self.state, rest, out),
            "history" => histories::judge(alloc, &self.opening, &self.entries, rest, out),
            _ => enter(alloc, self, line, out),
        }
    }
}

/// Takes an entry, and says whether it is a step.
fn enter(alloc: Global, desk: &mut ModelDesk, line: &str, out: &mut Answers) -> Answer {
    let entry = entry_of(alloc, desk.stamp, 0, line)?;
    if !apply(alloc, &mut desk.state, &entry)? {
        out.say("no step");
        return Ok(());
    }
    desk.stamp = desk.stamp.saturating_add(1);
    out.say("step");
    desk.entries.push(entry)?;
    Ok(())
}
