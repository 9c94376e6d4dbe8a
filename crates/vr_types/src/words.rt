//! The words that the program was called with.
ghost use Rattle.std.specs.Prelude.{◌≡◌, ℕ, List, [], ◌∷◌, ◌++◌, length, map, string_bytes};
ghost use Rattle.std.specs.Prelude.{vec_len, OnOk, OnErr, slice_get, Some, ◌<◌};

use crate::memory::OutOfMemory;
use std::alloc::Global;
use std::marker::Model;

/// The words that the program was called with, each a text.
#[derive(Drop)]
pub struct Words {
    words: Vec<String>,
}

impl Model for Words {
    ghost Value = { List (List ℕ) };

    ghost view = { λ words. map string_bytes words.words.items };
}

impl Words {
    /// Creates an empty list without allocating.
    pub fn new(alloc: Global) -> Words
        ensures { result ≡ [] }
    {
        Words {
            words: Vec::new(alloc),
        }
    }

    /// How many words.
    pub fn len(&self) -> usize
        ensures { result ≡ length self.now }
    {
        self.words.len()
    }

    /// The word of a number from 0 on.
    pub fn word(&self, at: usize) -> &str
        requires { at < length self.now }
        ensures { slice_get self.now at ≡ Some result.now }
    {
        self.words[at].as_str()
    }

    /// Adds a word at the end. Where memory runs out, nothing changes.
    pub fn push(&mut self, word: &str) -> Result<(), OutOfMemory>
        ensures ok { OnOk result (self.new ≡ self.old ++ word.now ∷ []) }
        ensures err { OnErr result (self.new ≡ self.old) }
    {
        let alloc = *self.words.allocator();
        let word = String::from_str(alloc, word)?;
        self.words.push(word)?;
        Ok(())
    }
}
