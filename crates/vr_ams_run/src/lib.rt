//! The commands of a step of IDCAMS over the volumes of a job, after Access Method Services
//! Commands: DEFINE but of a spanned cluster, ALTER, DELETE, PRINT, LISTCAT with NAME and with ALL,
//! VERIFY, and the modal commands IF and SET. It stands on vr_amsparse for the commands of a
//! text, on vr_catalog for orders, on vr_ams_define, vr_ams_list and vr_ams_print for what each
//! does, and on vr_trace for what a step leaves for the listing; of a volume it asks for the trait
//! `OwnedVolume` alone. It promises that the report of a step is by the byte that of the
//! definition: which commands are reached, what each comes to over the volumes as those before it
//! left them, what each prints, and the code of each and of the step; and that what is entered is
//! the utilities', on the lines of the commands, after all that the volumes had.
#![tactic(auto)]

mod codes;
mod going;
mod laws;
mod listed_all;
mod running;

pub use laws::code_is_at_most_16;
pub use running::{is_run, run_commands};
