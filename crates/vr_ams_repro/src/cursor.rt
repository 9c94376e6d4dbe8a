//! Where the next piece of a source begins.
ghost use Rattle.std.specs.Prelude.{◌≡◌, IfOk, OnOk};
ghost use Rattle.vr_ams_repro.specs.Pieces as stated;

use std::alloc::Global;
use vr_ams_print::{first_place, most_of, skipped};
use vr_amsparse::ReproCommand;
use vr_types::{Bytes, OutOfMemory, Place};

/// How many records a piece may have.
pub(crate) const PIECE_SIZE: u64 = 16;

/// Where the next piece of a source begins, how many records are passed over there, how many may
/// still be read, and whether there is none.
#[derive(Drop)]
pub(crate) struct Cursor {
    pub(crate) from: Option<Place>,
    pub(crate) skip: u64,
    pub(crate) left: u64,
    pub(crate) over: bool,
}

/// A copy of the place of the last record, where there is one.
fn place_of_last(alloc: Global, piece: &[(Place, Bytes)]) -> Result<Option<Place>, OutOfMemory>
    ensures { IfOk result (λ place. place ≡ stated.place_of_last piece.now) }
{
    match piece.get(piece.len().saturating_sub(1)) {
        None => Ok(None),
        Some(one) => Ok(Some(one.0.copy(alloc)?)),
    }
}

impl Cursor {
    /// Before the first piece.
    pub(crate) fn new(alloc: Global, command: &ReproCommand) -> Result<Cursor, OutOfMemory>
        ensures { IfOk result (λ cursor.
            cursor ≡ stated.first_cursor command.now.from command.now.to) }
    {
        Ok(Cursor {
            from: first_place(alloc, &command.from)?,
            skip: skipped(&command.from),
            left: most_of(&command.to),
            over: false,
        })
    }

    /// After a piece.
    pub(crate) fn pass(
        &mut self,
        alloc: Global,
        piece: &[(Place, Bytes)],
    ) -> Result<(), OutOfMemory>
        ensures { OnOk result (self.new ≡ stated.after_piece piece.now self.old) }
    {
        let from = place_of_last(alloc, piece)?;
        let count = piece.len() as u64;
        self.left = self.left.saturating_sub(count);
        self.skip = 1;
        self.over = count < PIECE_SIZE || self.left == 0;
        self.from = from;
        Ok(())
    }
}
