//! Which call a question asks.

use crate::judge::{judge, show};
use crate::listed::Listed;
use crate::sample::spelled;
use std::alloc::{AllocError, Global};
use vr_case_table::{Answer, Answers, Desk, Stop, byte_of, parted};

/// The blocks that lines speak of.
#[derive(Drop)]
pub struct PartDesk {
    listed: Box<Listed>,
}

impl PartDesk {
    /// No samples, and the part in area 0.
    pub fn new(alloc: Global) -> Result<PartDesk, AllocError> {
        match Listed::new(alloc) {
            Ok(listed) => Ok(PartDesk {
                listed: Box::new(alloc, listed)?,
            }),
            Err(_) => Err(AllocError),
        }
    }
}

impl Desk for PartDesk {
    fn answer(&mut self, line: &str, out: &mut Answers) -> Answer {
        let (verb, rest) = parted(line);
        answer(out.alloc(), &mut self.listed, verb, rest, out)
    }
}

/// `new`; `roster PIECE..` and `interval PIECE..`, one more sample; `own AREA`, `own AREA taken`,
/// in which area the part begins, and whether the other one is another part's; `judge KIND ROSTERS
/// INTERVALS`; `list KIND SAMPLE..`.
fn answer(alloc: Global, listed: &mut Listed, verb: &str, rest: &str, out: &mut Answers) -> Answer {
    match verb {
        "new" => listed.clear(),
        "roster" => listed.add_roster(spelled(alloc, rest)?)?,
        "interval" => listed.add_interval(spelled(alloc, rest)?)?,
        "own" => own(listed, rest)?,
        _ => return ask(alloc, listed, verb, rest, out),
    }
    out.ok()
}

fn own(listed: &mut Listed, rest: &str) -> Answer {
    let (first, taken) = parted(rest);
    listed.first = match first {
        "0" => 0,
        "1" => 1,
        _ => return Err(Stop::Line),
    };
    listed.taken = taken == "taken";
    Ok(())
}

fn ask(alloc: Global, listed: &mut Listed, verb: &str, rest: &str, out: &mut Answers) -> Answer {
    let (kind, rest) = parted(rest);
    let relative = match kind {
        "slots" => true,
        "entries" => false,
        _ => return Err(Stop::Line),
    };
    match verb {
        "judge" => {
            let (rosters, intervals) = parted(rest);
            let rosters = byte_of(rosters)?;
            let intervals = byte_of(intervals)?;
            judge(alloc, listed, relative, rosters, intervals, out)
        }
        "list" => {
            listed.take_words(rest)?;
            show(alloc, listed, relative, out)
        }
        _ => Err(Stop::Line),
    }
}
