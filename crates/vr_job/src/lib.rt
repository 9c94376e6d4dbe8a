//! The top call. It formats the devices of a shelf; or it opens their volumes, runs the steps of a job on
//! them, the decks of a step each on a thread of its own, closes them, and hands the devices and the
//! histories back; and it prints what came of that. It stands on the volume (vr_event), on opening
//! (vr_recover) and formatting (vr_format) one, on the steps of a job over volumes that serve their
//! decks (vr_worker), on job texts (vr_job_text) and on how jobs end (vr_job_ends). It promises, at every
//! schedule, that each deck's part of the merged history of the volumes is what it requests, each request
//! once and in order, or the first of it where stamps or memory run out; that each volume's history is
//! legal from its opening; and that each image that a crash may leave of a volume at each moment is one
//! that might be left before, or recovers to what is committed by the first entries of its history,
//! perhaps with the unit that is in its commit. A law says so of each record, by `committed` of the
//! history (`leaves_what_is_committed`), another that stamps are used up by entries alone, and a third
//! that no request moves another file than its own.
#![tactic(auto)]

mod counting;
mod done;
mod editing;
mod formatting;
mod job;
mod laws;
mod numbering;
mod opening;
mod reading;
mod serving;
mod shelf_run;
mod volume_run;

pub use job::run_job;
pub use laws::{
    each_image_opens, each_stamp_is_taken, leaves_what_is_committed, no_address_is_given_again,
    no_request_moves_another_file,
};
pub use opening::open;
pub use shelf_run::{ShelfEnd, run_volumes};
pub use vr_job_ends::{End, JobEnd, Trace};
