//! A piece of the records of a source.
ghost use Rattle.std.specs.Prelude.{◌≡◌, map, IfOk, OnOk};
ghost use Rattle.vr_trace.specs.Visitors.{visited_by};
ghost use Rattle.vr_ams_repro.specs.Fed.{is_first_at, look_of};
ghost use Rattle.vr_ams_repro.specs.Pieces.{of_card};
ghost use Rattle.vr_ams_repro.specs.Steps as stated;

use crate::tried::Look;
use std::alloc::Global;
use vr_ams_define::ReadBack;
use vr_ams_print::is_within;
use vr_trace::RecordVisitor;
use vr_types::{Bytes, Items, OutOfMemory, Place, bytes, place};

/// What is copied of the records that are handed over, each with its place before it.
#[derive(Drop)]
pub(crate) struct Piece {
    /// How many records are still to be passed over.
    pub(crate) skip: u64,
    /// How many records may still be copied.
    pub(crate) left: u64,
    /// The key of TOKEY.
    pub(crate) last: Option<Bytes>,
    /// Whether a record came past that.
    pub(crate) over: bool,
    pub(crate) records: Items<(Place, Bytes)>,
    pub(crate) alloc: Global,
}

impl Piece {
    /// Before the first record.
    pub(crate) fn new(alloc: Global, skip: u64, left: u64, last: Option<Bytes>) -> Piece
        ensures { result ≡ stated.started alloc skip left last }
    {
        Piece {
            skip,
            left,
            last,
            over: false,
            records: Items::new(alloc),
            alloc,
        }
    }

    /// Copies a record.
    fn keep(&mut self, at: &[u8], record: &[u8]) -> Result<(), OutOfMemory>
        ensures { OnOk result (self.new ≡ stated.with_record self.old at.now record.now) }
    {
        let one = (place(self.alloc, at)?, bytes(self.alloc, record)?);
        self.records.push(one)?;
        self.left = self.left.saturating_sub(1);
        Ok(())
    }

    /// Whether the first record is at a place.
    fn begins_at(&self, place: &Place) -> bool
        ensures { result ≡ is_first_at place.now self.now.records }
    {
        match self.records.get(0) {
            None => false,
            Some(one) => one.0.as_slice() == place.as_slice(),
        }
    }

    /// What is at a place, from which a volume handed the first record over, or not.
    pub(crate) fn look(&self, place: &Place, answer: ReadBack) -> Look
        ensures { result ≡ look_of place.now self.now.records answer }
    {
        match answer {
            ReadBack::Fault(fault) => Look::Unread(fault),
            ReadBack::Done => {
                if self.begins_at(place) {
                    Look::Taken
                } else {
                    Look::Free
                }
            }
        }
    }
}

impl RecordVisitor for Piece {
    ghost after = { stated.after_record };

    ghost done = { stated.is_done };

    fn visit(&mut self, place: &[u8], record: &[u8]) -> Result<(), OutOfMemory> {
        if self.skip > 0 {
            self.skip -= 1;
            Ok(())
        } else if is_within(&self.last, place, record) {
            self.keep(place, record)
        } else {
            self.over = true;
            Ok(())
        }
    }

    fn is_done(&self) -> bool {
        self.over || self.left == 0
    }
}

/// Hands a data card over, unless the piece takes no more.
fn choose_card(piece: &mut Piece, card: &Bytes) -> Result<(), OutOfMemory>
    ensures { OnOk result (piece.new ≡ stated.with_card piece.old card.now) }
{
    if piece.is_done() {
        Ok(())
    } else {
        piece.visit(b"", card.as_slice())
    }
}

/// Hands data cards over.
pub(crate) fn choose_cards(piece: &mut Piece, cards: &[Bytes]) -> Result<(), OutOfMemory>
    ensures { OnOk result (piece.new
        ≡ visited_by stated.after_record stated.is_done (map of_card cards.now) piece.old) }
{
    for card in cards {
        choose_card(piece, card)?;
    }
    Ok(())
}
