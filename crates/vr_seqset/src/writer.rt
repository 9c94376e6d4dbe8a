//! Writing a sequence-set record.
ghost use Rattle.std.specs.Prelude.{◌≡◌, ◌<◌, ◌≤◌, ◌↔◌, length, IsTrue};
ghost use Rattle.vr_seqset.specs.SequenceSet.{IsSequenceSet, KeepsRules, spelling};
ghost use Rattle.std.proofs.Props.{props};
ghost use Rattle.vr_seqset.specs.Writing.{IsBegun, with_entry};

use crate::head::SeqHead;
use crate::spelling::{put_entry, put_head};

/// Writes the head block of a keyed area, an entry at a time. At each moment the block spells what
/// was added so far, and `written` names that record in clauses.
#[derive(Drop)]
pub struct SeqWriter<'a> {
    block: &'a mut [u8],
    end: usize,
    cis: u16,
    ghost begun: { IsBegun cis block.now end } by { Prim.hlevel props },
}

impl<'a> SeqWriter<'a> {
    ghost use Rattle.vr_seqset.specs.Writer.{block_of, intervals_of, written, begun_by};

    /// Begins the record with no entry, whatever the block held. Its area has `cis` intervals.
    pub fn begin(head: &SeqHead<'_>, cis: u16, out: &'a mut [u8]) -> SeqWriter<'a>
        requires { KeepsRules cis (length out.old) (begun_by head.now) }
        ensures written { written result ≡ begun_by head.now }
        ensures same_block { (block_of result).ghost_name ≡ out.entry.ghost_name }
        ensures size { length (block_of result).now ≡ length out.old }
        ensures intervals { intervals_of result ≡ cis }
    {
        let end = put_head(head, out);
        SeqWriter {
            block: out,
            end,
            cis,
        }
    }

    /// Whether the block has room for one more entry.
    pub fn fits(&self, intervals: &[u16], high: &[u8]) -> bool
        ensures { IsTrue result
            ↔ (length (spelling (with_entry (written self.now) intervals.now high.now))
            ≤ length (block_of self.now).now) }
    {
        let room = self.block.len() - self.end;
        if room < 2 || intervals.len() > (room - 2) / 2 {
            return false;
        }
        high.len() <= room - 2 - 2 * intervals.len()
    }

    /// Adds an entry after the others. With it the record has to keep the rules.
    pub fn add(&mut self, intervals: &[u16], high: &[u8])
        requires { KeepsRules (intervals_of self.old) (length (block_of self.old).now)
            (with_entry (written self.old) intervals.now high.now) }
        ensures written { written self.new ≡ with_entry (written self.old) intervals.now high.now }
        ensures same_block { (block_of self.new).ghost_name ≡ (block_of self.old).ghost_name }
        ensures size { length (block_of self.new).now ≡ length (block_of self.old).now }
        ensures intervals { intervals_of self.new ≡ intervals_of self.old }
    {
        self.end = put_entry(self.block, self.end, intervals, high);
    }

    /// Ends the record. The block is the record's, as it was after the last `add`.
    pub fn end(self)
        requires { 0 < length (written self).entries }
        ensures { IsSequenceSet (intervals_of self.entry) self.exit.0.now (written self.entry) }
    {}
}
