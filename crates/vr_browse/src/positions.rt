//! Where the files of decks are, and what they hold for update.
ghost use Rattle.std.specs.Prelude.{◌≡◌, ◌<◌, ◌≤◌, ◌+◌, ◌⊎◌, [], None, IsSome, OnOk, MatchResult};
ghost use Rattle.std.specs.Prelude.{option_copied, map, true};
ghost use Rattle.vr_browse.specs.Positions.{position_at, SetsOnly, AreInOrder, IsAt, IsGapFor};
ghost use Rattle.vr_browse.specs.Positions.{dropped_by, without_held, without_deck};

use std::alloc::Global;
use std::marker::Model;
use vr_types::{OutOfMemory, Position};

/// The position of a file of a deck. The slot numbers the deck's files from 0.
#[derive(Drop)]
struct FilePosition {
    deck: u32,
    slot: u32,
    position: Position,
}

/// The positions of the files of all decks on a volume, by deck and slot. A file that was never set
/// counts as one that stands at its start and holds nothing.
#[derive(Drop)]
pub struct Positions {
    files: Vec<FilePosition>,
}

impl Model for Positions {
    ghost use Rattle.vr_browse.specs.Positions.{KeptPositions, kept_positions, AreInOrder};

    ghost Value = { KeptPositions };

    ghost view = { λ positions. kept_positions positions.files };

    ghost invariant = { λ positions. AreInOrder positions.files.items };
}

impl Positions {
    /// No file, which takes no memory.
    pub fn new(alloc: Global) -> Positions
        ensures { result.files ≡ [] }
    {
        Positions {
            files: Vec::new(alloc),
        }
    }

    /// The position of a file, where it was ever set.
    pub fn get(&self, deck: u32, slot: u32) -> Option<&Position>
        ensures { option_copied result ≡ position_at self.now.files deck slot }
    {
        match self.search(deck, slot) {
            Ok(at) => Some(&self.files[at].position),
            Err(_) => None,
        }
    }

    /// Makes room for one more file. It fails only if memory runs out. The positions stay, whatever
    /// the answer.
    pub fn reserve(&mut self) -> Result<(), OutOfMemory>
        ensures files { self.new.files ≡ self.old.files }
        ensures room { OnOk result (0 < self.new.room) }
        ensures kept { self.old.room ≤ self.new.room }
    {
        self.files.reserve(1)?;
        Ok(())
    }

    /// Sets the position of a file, in room that was reserved if it was never set before. It takes
    /// no memory.
    pub fn set(&mut self, deck: u32, slot: u32, to: Position)
        requires { IsSome (position_at self.old.files deck slot) ⊎ (0 < self.old.room) }
        ensures set { SetsOnly self.old.files self.new.files deck slot to }
        ensures again { IsSome (position_at self.old.files deck slot)
            → self.new.room ≡ self.old.room }
        ensures first { position_at self.old.files deck slot ≡ None
            → self.new.room + 1 ≡ self.old.room }
    {
        let file = FilePosition {
            deck,
            slot,
            position: to,
        };
        match self.search(deck, slot) {
            Ok(at) => self.files[at] = file,
            Err(at) => {
                if self.files.insert(at, file).is_err() {
                    unreachable!("there is room")
                }
            }
        }
    }

    /// Drops what a file holds. Where it stands stays. It takes no memory.
    pub fn drop_held(&mut self, deck: u32, slot: u32)
        ensures files { self.new.files ≡ without_held deck slot self.old.files }
        ensures room { self.new.room ≡ self.old.room }
    {
        if let Ok(at) = self.search(deck, slot) {
            self.files[at].position.unhold();
        }
    }

    /// Drops what all files of a deck hold. Where they stand stays. It takes no memory.
    pub fn drop_deck(&mut self, deck: u32)
        ensures files { self.new.files ≡ without_deck deck self.old.files }
        ensures room { self.new.room ≡ self.old.room }
    {
        drop_part(&mut self.files, deck);
    }

    /// Where a file is, or where it would go.
    fn search(&self, deck: u32, slot: u32) -> Result<usize, usize>
        ensures { MatchResult result (IsAt self.now.files deck slot)
            (IsGapFor self.now.files deck slot) }
    {
        self.files
            .binary_search_by_key(&(deck, slot), |file| (file.deck, file.slot))
    }
}

/// Drops what the files of a deck hold, which stand one after the other.
fn drop_part(files: &mut [FilePosition], deck: u32)
    requires { AreInOrder files.old }
    ensures { files.new ≡ without_deck deck files.old }
{
    let first = files.partition_point(|file| file.deck < deck);
    let end = files.partition_point(|file| file.deck <= deck);
    drop_each(&mut files[first..end]);
}

/// Drops what each of these files holds.
fn drop_each(files: &mut [FilePosition])
    ensures { files.new ≡ map (dropped_by true) files.old }
{
    for file in files.iter_mut() {
        file.position.unhold();
    }
}
