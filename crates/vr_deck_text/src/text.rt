//! What the text of a deck says.
ghost use Rattle.std.specs.Prelude.{◌≡◌, List, [], ◌∷◌, ◌++◌, ◌<◌, ◌≤◌, length, OnOk, OnErr};

use std::alloc::Global;
use std::marker::Model;
use vr_types::{Bytes, Integrity, Name, OutOfMemory};

/// How many files a deck may declare.
pub const FILE_LIMIT: usize = 64;

/// A file that a deck declares: its name as it is written, the data set that it is opened on, in
/// capitals, and the integrity of its reads where a request has none of its own.
#[derive(Drop)]
pub struct DeckFile {
    pub name: Bytes,
    pub data_set: Name,
    pub integrity: Integrity,
}

/// Where a record is asked for: by key, by relative byte address, or by relative record number.
#[derive(Drop)]
pub enum At {
    Key(Bytes),
    Rba(u32),
    Rrn(u32),
}

/// Which record is asked for: the next one, the one there, or the first there or past it.
#[derive(Drop)]
pub enum Seek {
    Next,
    Equal(At),
    AtLeast(At),
}

/// What a line of a deck asks for. `file` numbers the files that the deck declares, from 0.
#[derive(Drop)]
pub enum Ask {
    Get {
        file: u32,
        seek: Seek,
        update: bool,
        integrity: Integrity,
    },
    Point {
        file: u32,
        seek: Seek,
    },
    /// A record to be added, perhaps at a place.
    Add {
        file: u32,
        at: Option<At>,
        bytes: Bytes,
    },
    /// A record in place of the one that is held.
    Update {
        file: u32,
        bytes: Bytes,
    },
    Erase {
        file: u32,
    },
    EndReq {
        file: u32,
    },
    Commit,
    Backout,
}

/// An order: what a line asks for, and the number of the line.
#[derive(Drop)]
pub struct Order {
    pub line: u32,
    pub ask: Ask,
}

/// The files that a deck declares, at most 64, in the order of their lines.
#[derive(Drop)]
pub struct Files {
    files: Vec<DeckFile>,
}

impl Model for Files {
    ghost use Rattle.std.specs.Prelude.{List, ◌≤◌, length};
    ghost use Rattle.vr_deck_text.specs.declared.text.DeckFile.{DeckFile};

    ghost Value = { List DeckFile };

    ghost view = { λ files. files.files.items };

    ghost invariant = { λ files. length files.files.items ≤ 64 };
}

impl Files {
    /// No file, which takes no memory.
    pub fn new(alloc: Global) -> Files
        ensures { result ≡ [] }
    {
        Files {
            files: Vec::new(alloc),
        }
    }

    /// The files, first to last.
    pub fn as_slice(&self) -> &[DeckFile]
        ensures value { result.now ≡ self.now }
        ensures few { length self.now ≤ 64 }
    {
        self.files.as_slice()
    }

    /// Adds a file at the end, where there are fewer than 64. Where memory runs out, nothing changes.
    pub fn push(&mut self, file: DeckFile) -> Result<(), OutOfMemory>
        requires { length self.old < 64 }
        ensures ok { OnOk result (self.new ≡ self.old ++ file ∷ []) }
        ensures err { OnErr result (self.new ≡ self.old) }
    {
        self.files.push(file)?;
        Ok(())
    }
}

/// The orders of a deck, in the order of their lines.
#[derive(Drop)]
pub struct Orders {
    orders: Vec<Order>,
}

impl Model for Orders {
    ghost use Rattle.std.specs.Prelude.{List};
    ghost use Rattle.vr_deck_text.specs.declared.text.Order.{Order};

    ghost Value = { List Order };

    ghost view = { λ orders. orders.orders.items };
}

impl Orders {
    /// No order, which takes no memory.
    pub fn new(alloc: Global) -> Orders
        ensures { result ≡ [] }
    {
        Orders {
            orders: Vec::new(alloc),
        }
    }

    /// The orders, first to last.
    pub fn as_slice(&self) -> &[Order]
        ensures { result.now ≡ self.now }
    {
        self.orders.as_slice()
    }

    /// Adds an order at the end. Where memory runs out, nothing changes.
    pub fn push(&mut self, order: Order) -> Result<(), OutOfMemory>
        ensures ok { OnOk result (self.new ≡ self.old ++ order ∷ []) }
        ensures err { OnErr result (self.new ≡ self.old) }
    {
        self.orders.push(order)?;
        Ok(())
    }
}

/// The text of a deck: the files that it declares, and its orders.
#[derive(Drop)]
pub struct DeckText {
    pub files: Files,
    pub orders: Orders,
}
