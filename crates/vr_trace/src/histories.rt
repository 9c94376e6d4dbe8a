//! The histories of the volumes of a job.
ghost use Rattle.std.specs.Prelude.{◌≡◌, ◌<◌, ℕ, List, [], ◌∷◌, ◌++◌, length, map, slice_get};
ghost use Rattle.std.specs.Prelude.{Some, OnOk, OnErr};
ghost use Rattle.vr_trace.specs.Volumes.{entries_of};

use std::alloc::Global;
use std::marker::Model;
use vr_history::History;
use vr_types::OutOfMemory;

/// The histories of volumes 0 and on. Clauses see the entries of each.
#[derive(Drop)]
pub struct Histories {
    histories: Vec<History>,
}

impl Model for Histories {
    ghost use Rattle.std.specs.Prelude.{List};
    ghost use Rattle.vr_history.specs.declared.entry.Entry.{Entry};
    ghost use Rattle.vr_trace.specs.Volumes.{entries_of};

    ghost Value = { List (List Entry) };

    ghost view = { λ histories. entries_of histories.histories.items };
}

impl Histories {
    /// No history, which takes no memory.
    pub fn new(alloc: Global) -> Histories
        ensures { result ≡ [] }
    {
        Histories {
            histories: Vec::new(alloc),
        }
    }

    /// The list of these histories, which takes no memory.
    pub fn from_vec(histories: Vec<History>) -> Histories
        ensures { result ≡ entries_of histories.items }
    {
        Histories { histories }
    }

    /// The histories as a `Vec`, which takes no memory.
    pub fn into_vec(self) -> Vec<History>
        ensures { entries_of result.items ≡ self }
    {
        let Histories { histories } = self;
        histories
    }

    /// The histories, that of volume 0 first.
    pub fn as_slice(&self) -> &[History]
        ensures { entries_of result.now ≡ self.now }
    {
        self.histories.as_slice()
    }

    /// Adds the history of the next volume. Where memory runs out, nothing changes.
    pub fn push(&mut self, history: History) -> Result<(), OutOfMemory>
        ensures ok { OnOk result (self.new ≡ self.old ++ history.entries ∷ []) }
        ensures err { OnErr result (self.new ≡ self.old) }
    {
        self.histories.push(history)?;
        Ok(())
    }
}
