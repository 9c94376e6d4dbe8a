//! The names of the data cards of a step.
ghost use Rattle.std.specs.Prelude.{◌≡◌, [], ◌∷◌, ◌++◌, bytes_eq, OnOk, OnErr};
ghost use Rattle.std.specs.List.{list_any};

use std::alloc::Global;
use std::marker::Model;
use vr_types::{Bytes, OutOfMemory};

/// The names of the data cards of a step, in capitals.
#[derive(Drop)]
pub struct DataNames {
    names: Vec<Bytes>,
}

impl Model for DataNames {
    ghost use Rattle.std.specs.Prelude.{ℕ, List};

    ghost Value = { List (List ℕ) };

    ghost view = { λ names. names.names.items };
}

impl DataNames {
    /// No name, without allocating.
    pub fn new(alloc: Global) -> DataNames
        ensures { result ≡ [] }
    {
        DataNames {
            names: Vec::new(alloc),
        }
    }

    /// Adds a name. Where memory runs out, nothing changes.
    pub fn push(&mut self, name: Bytes) -> Result<(), OutOfMemory>
        ensures ok { OnOk result (self.new ≡ self.old ++ name ∷ []) }
        ensures err { OnErr result (self.new ≡ self.old) }
    {
        self.names.push(name)?;
        Ok(())
    }

    /// Whether a name is among them.
    pub fn has(&self, name: &[u8]) -> bool
        ensures { result ≡ list_any (λ one. bytes_eq one name.now) self.now }
    {
        self.names
            .as_slice()
            .iter()
            .any(|one| one.as_slice() == name)
    }
}
