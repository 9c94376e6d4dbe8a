//! The samples of blocks, of which lists are made.
ghost use Rattle.std.specs.Prelude.{◌≡◌, length};

use crate::plain_filled::{Filled, filled_of};
use crate::plain_roster::{Roster, roster_of};
use crate::scope::SIZE;
use std::alloc::Global;
use std::marker::Model;
use vr_case_table::{Answer, Stop, digits_of, size_of};

/// A block, and what it spells plainly as a roster and as an interval.
#[derive(Drop)]
pub struct Sample {
    bytes: Vec<u8>,
    roster: Option<Roster>,
    filled: Box<Filled>,
}

impl Model for Sample {
    ghost use Rattle.std.specs.Prelude.{◌≡◌, length, List, ℕ};

    ghost Value = { List ℕ };

    ghost view = { λ sample. sample.bytes.items };

    ghost invariant = { λ sample. length sample.bytes.items ≡ 512 };
}

impl Sample {
    /// Its bytes.
    pub fn bytes(&self) -> &[u8]
        ensures { length result.now ≡ 512 }
    {
        self.bytes.as_slice()
    }

    /// What it spells as the roster of an area.
    pub fn roster(&self) -> Option<Roster> {
        self.roster
    }

    /// What it is as an interval.
    pub fn filled(&self) -> &Filled {
        &*self.filled
    }
}

/// The sample of a block's bytes.
fn sample_of(alloc: Global, bytes: Vec<u8>) -> Result<Sample, Stop> {
    if bytes.len() != 512 {
        return Err(Stop::Line);
    }
    let roster = roster_of(bytes.as_slice());
    let filled = filled_of(alloc, bytes.as_slice())?;
    Ok(Sample {
        bytes,
        roster,
        filled,
    })
}

/// The sample that pieces spell: those before ` | ` are at the left end of the block, those after
/// it at its right end, with zeros between. A piece is `HEX` or `HEX*COUNT`.
pub fn spelled(alloc: Global, text: &str) -> Result<Box<Sample>, Stop> {
    let (left, right) = text.split_once("|").unwrap_or((text, ""));
    let mut bytes = Vec::new(alloc);
    let mut tail = Vec::new(alloc);
    add_pieces(alloc, &mut bytes, left)?;
    add_pieces(alloc, &mut tail, right)?;
    bytes.resize(SIZE.saturating_sub(tail.len()).max(bytes.len()), 0)?;
    bytes.extend_from_slice(tail.as_slice())?;
    Ok(Box::new(alloc, sample_of(alloc, bytes)?)?)
}

fn add_pieces(alloc: Global, bytes: &mut Vec<u8>, text: &str) -> Answer {
    for piece in text.split_whitespace() {
        add_piece(alloc, bytes, piece)?;
    }
    Ok(())
}

fn add_piece(alloc: Global, bytes: &mut Vec<u8>, piece: &str) -> Answer {
    let (digits, count) = piece.split_once('*').unwrap_or((piece, "1"));
    let count = size_of(count)?.min(SIZE);
    let digits = digits_of(alloc, digits)?;
    add_times(bytes, digits.as_slice(), count)
}

fn add_times(bytes: &mut Vec<u8>, digits: &[u8], count: usize) -> Answer {
    for _ in 0..count {
        bytes.extend_from_slice(digits)?;
    }
    Ok(())
}
