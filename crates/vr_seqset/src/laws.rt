//! Laws of the two blocks: one block for each value, one value for each block.
ghost use Rattle.std.specs.Prelude.{◌≡◌, ℕ, ◌<◌, ◌++◌, List, length};
ghost use Rattle.vr_seqset.specs.Entry.{Entry};
ghost use Rattle.vr_seqset.specs.SequenceSet.{SequenceSet, IsSequenceSet, KeepsRules};
ghost use Rattle.vr_seqset.specs.SequenceSet.{block_of_record};
ghost use Rattle.vr_seqset.specs.Roster.{Roster, IsRoster, KeepsRosterRules, block_of_roster};

/// A record that keeps the rules in blocks of a size, and has an entry, has one block of that size.
pub fn one_block_each()
    ensures there { (cis size : ℕ) (s : SequenceSet) → KeepsRules cis size s → 0 < length s.entries
        → (length (block_of_record size s) ≡ size) × IsSequenceSet cis (block_of_record size s) s }
    ensures one { (cis : ℕ) (first second : List ℕ) (s : SequenceSet) → length first ≡ length second
        → IsSequenceSet cis first s → IsSequenceSet cis second s → first ≡ second }
{}

/// A block is that of one record at most, however many intervals its area has.
pub fn one_record_each()
    ensures { (cis others : ℕ) (block : List ℕ) (one other : SequenceSet)
        → IsSequenceSet cis block one → IsSequenceSet others block other → one ≡ other }
{}

/// The same for rosters: one block of a size for each, and one roster at most for each block.
pub fn one_roster_each()
    ensures there { (cis size : ℕ) (r : Roster) → KeepsRosterRules cis size r
        → (length (block_of_roster size r) ≡ size) × IsRoster cis (block_of_roster size r) r }
    ensures one { (cis : ℕ) (first second : List ℕ) (r : Roster) → length first ≡ length second
        → IsRoster cis first r → IsRoster cis second r → first ≡ second }
    ensures same { (cis others : ℕ) (block : List ℕ) (one other : Roster)
        → IsRoster cis block one → IsRoster others block other → one ≡ other }
{}

/// A record without its last entries keeps the rules where the whole one does, so what is added in
/// order may be added.
pub fn earlier_entries()
    ensures { (cis size : ℕ) (s : SequenceSet) (earlier later : List Entry)
        → KeepsRules cis size (record s { entries = earlier ++ later })
        → KeepsRules cis size (record s { entries = earlier }) }
{}
