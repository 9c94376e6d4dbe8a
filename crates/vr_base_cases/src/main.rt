//! Cases of the base crates, of devices, of the lock table, and of sources and sinks, from one text
//! table: worked rows, outside examples, faults, scripts of calls, the images that a crash leaves,
//! and plain, slow programs beside them. It stands on `vr_types`, `vr_text`, `vr_seqset`, `vr_ci`,
//! `vr_device`, `vr_recent`, `vr_locks`, `vr_outside` and `vr_case_table`. Each line of its input has a
//! question, ` -> ` and the answer that is wanted. It asks the public calls, prints each line whose
//! answer differs, and at the end how many lines there were and how many differ; the status is 1
//! where one differs. What it promises is that it is safe and ends: what the answers show is
//! tested, and its whole output is compared.
#![tactic(auto)]

mod block;
mod device_answers;
mod device_blocks;
mod device_calls;
mod device_judge;
mod devices;
mod heads;
mod held;
mod host;
mod images;
mod intervals;
mod judge;
mod lock_calls;
mod lock_judge;
mod locks;
mod plain_disk;
mod plain_intervals;
mod plain_literals;
mod plain_locks;
mod plain_log;
mod plain_names;
mod plain_records;
mod plain_rosters;
mod question;
mod replacing;
mod sources;
mod spelling;
mod stream_calls;
mod streams;
mod texts;
mod values;
mod writers;

use crate::question::BaseDesk;
use std::io;
use std::process::ExitCode;
use vr_case_table::run;

fn main(rt: HostRuntime) -> io::Result<ExitCode> {
    let mut desk = BaseDesk::new(&rt);
    run(&rt, &mut desk)
}
