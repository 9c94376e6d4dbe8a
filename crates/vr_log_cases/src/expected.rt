//! What a log is expected to leave, kept as bytes beside the run of its calls.

use crate::answers::Stop;
use crate::plain::{Found, add_record};
use std::alloc::Global;
use vr_log::LogRecord;

/// The bytes of the generation's records, where each of them ends, how many bytes were forced, and
/// the generation before.
#[derive(Drop)]
pub struct Expected {
    generation: u64,
    bytes: Vec<u8>,
    ends: Vec<usize>,
    forced: usize,
    older: Vec<u8>,
}

impl Expected {
    /// A log of generation 1, with no record yet, on blocks of zeros.
    pub fn new(alloc: Global) -> Expected {
        Expected {
            generation: 1,
            bytes: Vec::new(alloc),
            ends: Vec::new(alloc),
            forced: 0,
            older: Vec::new(alloc),
        }
    }

    /// A record is about to be put.
    pub fn add(&mut self, rec: &LogRecord) -> Result<(), Stop> {
        add_record(&mut self.bytes, rec)?;
        self.ends.push(self.bytes.len())?;
        Ok(())
    }

    /// All records were forced.
    pub fn force(&mut self) {
        self.forced = self.bytes.len();
    }

    /// The next generation was begun, after a force.
    pub fn restart(&mut self, alloc: Global) -> Result<(), Stop> {
        let ended = Vec::from_slice(alloc, self.bytes.as_slice())?;
        self.older = ended;
        self.generation = self.generation.saturating_add(1);
        self.bytes.clear();
        self.ends.clear();
        self.forced = 0;
        Ok(())
    }

    /// Whether a crash may leave what was found: at least the records that were forced, and a
    /// prefix of all, or while none was forced the generation before.
    pub fn allows(&self, found: Found, bytes: &[u8]) -> bool {
        let records = bytes.get(..found.end).unwrap_or(&[]);
        if found.damaged != 0 {
            return false;
        }
        self.is_prefix(found, records) || self.is_older(found, records)
    }

    fn is_prefix(&self, found: Found, records: &[u8]) -> bool {
        let same = self.bytes.as_slice().get(..found.end) == Some(records);
        let whole = found.end == 0 || self.ends.iter().any(|end| *end == found.end);
        found.generation == self.generation && same && whole && found.end >= self.forced
    }

    fn is_older(&self, found: Found, records: &[u8]) -> bool {
        let before = found.generation.saturating_add(1) == self.generation;
        self.forced == 0 && before && self.older.as_slice() == records
    }
}
