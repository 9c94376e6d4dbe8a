//! Cases of the catalog, of alternate keys and of before-images from a text table: catalog records
//! byte by byte, each misspelling, each fault of DEFINE, ALTER and DELETE alone and two together,
//! the pairs of an alternate index, worked units of recovery, and plain, slow programs beside them.
//! It stands on `vr_catalog`, `vr_altkey`, `vr_undo` and `vr_case_table`. Each line of its input
//! has a question, ` -> ` and the answer that is wanted. It asks the public calls, prints each line
//! whose answer differs, and at the end how many lines there were and how many differ; the status
//! is 1 where one differs. What it promises is that it is safe and ends: what the answers show is
//! tested, and its whole output is compared.
#![tactic(auto)]

mod befores;
mod commands;
mod desk;
mod judge;
mod pairs;
mod plain;
mod plain_undo;
mod question;
mod records;
mod shown;
mod spelling;
mod undo_judge;
mod words;

use crate::desk::CatalogDesk;
use std::io;
use std::process::ExitCode;
use vr_case_table::run;

fn main(rt: HostRuntime) -> io::Result<ExitCode> {
    let mut desk = CatalogDesk::new(rt.alloc());
    run(&rt, &mut desk)
}
