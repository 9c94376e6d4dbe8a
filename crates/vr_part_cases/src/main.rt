//! Cases of entry-sequenced and relative parts from a text table: all small lists of blocks, each
//! attached and read through beside a plain, slow program, which shares no code with the crates. It
//! stands on `vr_chained`, what that stands on, and `vr_case_table`. Each line of its input has a
//! question, ` -> ` and the answer that is wanted. It asks the public calls, prints each line whose
//! answer differs, and at the end how many lines there were and how many differ; the status is 1
//! where one differs. What it promises is that it is safe and ends: what the answers show is
//! tested, and its whole output is compared.
#![tactic(auto)]

mod asked;
mod judge;
mod listed;
mod plain;
mod plain_content;
mod plain_filled;
mod plain_roster;
mod question;
mod reader;
mod sample;
mod saying;
mod scope;

use crate::question::PartDesk;
use std::io;
use std::process::ExitCode;
use vr_case_table::run;

fn main(rt: HostRuntime) -> io::Result<ExitCode> {
    let mut desk = PartDesk::new(rt.alloc())?;
    run(&rt, &mut desk)
}
