//! A stress test of decks that share volumes: jobs of eight decks that ask for the same few records
//! of three volumes, which have a data set of each kind, run by the top call of `vr_job`, each judged
//! by programs that share no code with the record file: `vr_model` for whether each history is legal,
//! and plain lists for the order of each deck's requests and for what is committed. It stands on
//! `vr_job`, on `vr_model` and `vr_trace` for the judges, and on `vr_case_volumes` for volumes. It
//! promises that it is safe; what its line shows is tested.
#![tactic(auto)]

mod committed;
mod data_sets;
mod dice;
mod in_order;
mod jobs;
mod legality;
mod planned;
mod stress;
mod turns;
mod ways;

use std::alloc::AllocError;
use std::io;
use vr_case_volumes::{Answer, Stop};

fn main(rt: HostRuntime) -> io::Result<()> {
    let mut out = String::new(rt.alloc());
    let answer = stress::stress(&rt, rt.alloc(), &mut out);
    print_answer(&rt, out.as_str(), answer)
}

/// Prints what the runs came to.
fn print_answer<R: Print>(rt: &R, out: &str, answer: Answer) -> io::Result<()> {
    match answer {
        Ok(()) => println!(rt; "eight decks on three volumes: {out}"),
        Err(Stop::Case) => println!(rt; "eight decks on three volumes: a job didn't come through"),
        Err(Stop::Memory) => Err(AllocError.into()),
    }
}
