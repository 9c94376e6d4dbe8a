//! Cases of all that reads or writes text, from one text table: texts of decks, of jobs and of
//! commands, the words of the program, bound decks, and what is printed of histories, each with
//! what it is read as or its first fault, and all small ones beside plain, slow programs. It stands
//! on the crates of texts and on `vr_case_table`. Each line of its input has a question, ` -> ` and
//! the answer that is wanted. It prints each line whose answer differs, and at the end how many
//! lines there were and how many differ; the status is 1 where one differs. What it promises is
//! that it is safe and ends: what the answers show is tested, and its whole output is compared.
#![tactic(auto)]

mod binding;
mod catalogs;
mod commands;
mod decks;
mod desk;
mod ends;
mod escapes;
mod groups;
mod histories;
mod history_desk;
mod jobs;
mod lines;
mod look;
mod nodes;
mod orders;
mod parameters;
mod plain_decks;
mod plain_histories;
mod plain_jobs;
mod plain_operands;
mod plain_tokens;
mod plain_utilities;
mod plain_words;
mod ranges;
mod requests;
mod simple;
mod themes;
mod tokens;
mod words;

use crate::desk::TextDesk;
use std::io;
use std::process::ExitCode;
use vr_case_table::run;

fn main(rt: HostRuntime) -> io::Result<ExitCode> {
    let mut desk = TextDesk::new(rt.alloc());
    run(&rt, &mut desk)
}
