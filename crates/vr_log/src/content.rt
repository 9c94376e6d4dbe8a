//! What a log says.
ghost use Rattle.std.specs.Prelude.{◌≡◌, [], ◌∷◌, ◌++◌, OnOk, OnErr};

use crate::record::LogRecord;
use std::alloc::Global;
use std::marker::Model;
use vr_types::OutOfMemory;

/// What a log says: its generation, 0 where it was never written, and its records in order.
#[derive(Drop)]
pub struct LogContent {
    generation: u64,
    records: Vec<LogRecord>,
}

impl Model for LogContent {
    ghost use Rattle.vr_log.specs.Content.{Content};

    ghost Value = { Content };

    ghost view = { λ content. record {
      generation = content.generation;
      records = content.records.items;
    } };
}

impl LogContent {
    /// No record yet, which takes no memory.
    pub fn new(alloc: Global, generation: u64) -> LogContent
        ensures { result ≡ record { generation = generation; records = [] } }
    {
        LogContent {
            generation,
            records: Vec::new(alloc),
        }
    }

    /// Its generation.
    pub fn generation(&self) -> u64
        ensures { result ≡ self.now.generation }
    {
        self.generation
    }

    /// Its records, in order.
    pub fn records(&self) -> &[LogRecord]
        ensures { result.now ≡ self.now.records }
    {
        self.records.as_slice()
    }

    /// Adds a record at the end. Where memory runs out, nothing changes.
    pub fn push(&mut self, rec: LogRecord) -> Result<(), OutOfMemory>
        ensures generation { self.new.generation ≡ self.old.generation }
        ensures ok { OnOk result (self.new.records ≡ self.old.records ++ rec ∷ []) }
        ensures err { OnErr result (self.new.records ≡ self.old.records) }
    {
        self.records.push(rec)?;
        Ok(())
    }
}
