//! The program's ends: where the bytes of a job come from and where those of a listing go. A source
//! reports, where it can, which bytes are left, a sink which bytes it took, and each counts its
//! faults. The layer stands on the words of vr_types and on std. It promises that no byte is handed
//! out twice or lost where bytes are reported, that a call fails only where the count of faults
//! rose, and that a sink which takes nothing of some bytes counts that as a fault. Sources and
//! sinks in memory fail exactly where their scripts say so; those over a std reader or writer, and a
//! source over a file of the host, don't report their bytes. Gates are here too, which the threads of
//! decks pass; nothing is known of one but that it returns.
#![tactic(auto)]

mod file_source;
mod gate;
mod holding;
mod laws;
mod memory_sink;
mod memory_source;
mod sink;
mod source;
mod std_sink;
mod std_source;
mod steady;
mod whole;

pub use file_source::FileSource;
pub use gate::{Gate, OpenGate, Spot};
pub use holding::{BothHeld, Passes};
pub use laws::{reads_end, reads_join, takes_join};
pub use memory_sink::MemorySink;
pub use memory_source::MemorySource;
pub use sink::Sink;
pub use source::Source;
pub use std_sink::StdSink;
pub use std_source::StdSource;
pub use steady::{SteadySink, SteadySource};
pub use whole::write_whole;
