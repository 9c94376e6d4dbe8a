//! What the listing shows of a job's text.
ghost use Rattle.std.specs.Prelude.{◌≡◌, List, [], ◌∷◌, ◌++◌, OnOk, OnErr};
ghost use Rattle.vr_trace.specs.Names.{name_at};

use std::alloc::Global;
use std::marker::Model;
use vr_types::{Bytes, OutOfMemory};

/// The names that a deck has for its files. A file's place in the list is its number, from 0.
#[derive(Drop)]
pub struct FileNames {
    names: Vec<Bytes>,
}

impl Model for FileNames {
    ghost use Rattle.std.specs.Prelude.{ℕ, List};

    ghost Value = { List (List ℕ) };

    ghost view = { λ names. names.names.items };
}

impl FileNames {
    /// No name, which takes no memory.
    pub fn new(alloc: Global) -> FileNames
        ensures { result ≡ [] }
    {
        FileNames {
            names: Vec::new(alloc),
        }
    }

    /// The names, first to last.
    pub fn as_slice(&self) -> &[Bytes]
        ensures { result.now ≡ self.now }
    {
        self.names.as_slice()
    }

    /// Adds a name at the end. Where memory runs out, nothing changes.
    pub fn push(&mut self, name: Bytes) -> Result<(), OutOfMemory>
        ensures ok { OnOk result (self.new ≡ self.old ++ name ∷ []) }
        ensures err { OnErr result (self.new ≡ self.old) }
    {
        self.names.push(name)?;
        Ok(())
    }

    /// The name of the file with a number, empty where the deck has no such file.
    pub fn name(&self, slot: u32) -> &[u8]
        ensures { result.now ≡ name_at self.now slot }
    {
        match self.names.get(slot as usize) {
            Some(name) => name.as_slice(),
            None => b"",
        }
    }
}

/// A deck: its number, which no other deck of the job has, and the names that it has for its files.
#[derive(Drop)]
pub struct KeptDeck {
    pub number: u32,
    pub files: FileNames,
}

/// The decks of a step, in any order.
#[derive(Drop)]
pub struct KeptDecks {
    decks: Vec<KeptDeck>,
}

impl Model for KeptDecks {
    ghost use Rattle.std.specs.Prelude.{List};
    ghost use Rattle.vr_trace.specs.declared.kept.KeptDeck.{KeptDeck};

    ghost Value = { List KeptDeck };

    ghost view = { λ decks. decks.decks.items };
}

impl KeptDecks {
    /// No deck, which takes no memory.
    pub fn new(alloc: Global) -> KeptDecks
        ensures { result ≡ [] }
    {
        KeptDecks {
            decks: Vec::new(alloc),
        }
    }

    /// The decks, first to last.
    pub fn as_slice(&self) -> &[KeptDeck]
        ensures { result.now ≡ self.now }
    {
        self.decks.as_slice()
    }

    /// Adds a deck at the end. Where memory runs out, nothing changes.
    pub fn push(&mut self, deck: KeptDeck) -> Result<(), OutOfMemory>
        ensures ok { OnOk result (self.new ≡ self.old ++ deck ∷ []) }
        ensures err { OnErr result (self.new ≡ self.old) }
    {
        self.decks.push(deck)?;
        Ok(())
    }
}

/// A step of decks: its name, and its decks.
#[derive(Drop)]
pub struct KeptDeckStep {
    pub name: Bytes,
    pub decks: KeptDecks,
}

/// A step: one of decks, or one of IDCAMS, of which the name is shown.
#[derive(Drop)]
pub enum KeptStep {
    Decks(KeptDeckStep),
    Utilities(Bytes),
}

/// The steps of a job, in order.
#[derive(Drop)]
pub struct KeptSteps {
    steps: Vec<KeptStep>,
}

impl Model for KeptSteps {
    ghost use Rattle.std.specs.Prelude.{List};
    ghost use Rattle.vr_trace.specs.declared.kept.KeptStep.{KeptStep};

    ghost Value = { List KeptStep };

    ghost view = { λ steps. steps.steps.items };
}

impl KeptSteps {
    /// No step, which takes no memory.
    pub fn new(alloc: Global) -> KeptSteps
        ensures { result ≡ [] }
    {
        KeptSteps {
            steps: Vec::new(alloc),
        }
    }

    /// The steps, first to last.
    pub fn as_slice(&self) -> &[KeptStep]
        ensures { result.now ≡ self.now }
    {
        self.steps.as_slice()
    }

    /// Adds a step at the end. Where memory runs out, nothing changes.
    pub fn push(&mut self, step: KeptStep) -> Result<(), OutOfMemory>
        ensures ok { OnOk result (self.new ≡ self.old ++ step ∷ []) }
        ensures err { OnErr result (self.new ≡ self.old) }
    {
        self.steps.push(step)?;
        Ok(())
    }
}
