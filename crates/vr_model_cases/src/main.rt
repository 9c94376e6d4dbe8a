//! Cases of the record file from a text table: histories whose entries the model takes, and the
//! same entries with a reply or an effect changed, which it doesn't. It stands on `vr_model`,
//! `vr_merge` and `vr_case_table`. Each line of its input has a question, ` -> ` and the answer
//! that is wanted. It asks the public calls, prints each line whose answer differs, and at the end
//! how many lines there were and how many differ; the status is 1 where one differs. What it
//! promises is that it is safe and ends: what the answers show is tested, and its whole output is
//! compared.
#![tactic(auto)]

mod desk;
mod histories;
mod question;
mod views;

use crate::desk::ModelDesk;
use std::io;
use std::process::ExitCode;
use vr_case_table::run;

fn main(rt: HostRuntime) -> io::Result<ExitCode> {
    let mut desk = ModelDesk::new(rt.alloc());
    run(&rt, &mut desk)
}
