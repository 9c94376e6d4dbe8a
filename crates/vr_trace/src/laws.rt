//! Laws of the merged history, each the contract of a function that does nothing.
ghost use Rattle.std.specs.Prelude.{◌≡◌, ℕ, List, [], ◌∷◌, ◌++◌, map};
ghost use Rattle.std.specs.List.Sorted.{IsPermutation};
ghost use Rattle.vr_history.specs.declared.entry.Entry.{Entry};
ghost use Rattle.vr_history.specs.Merged as merging;
ghost use Rattle.vr_trace.specs.declared.kept.KeptDeck.{KeptDeck};
ghost use Rattle.vr_trace.specs.Code.{step_code};
ghost use Rattle.vr_trace.specs.Laws.{AreRising, Grew, IsWorst, deck_after, deck_entries};
ghost use Rattle.vr_trace.specs.Laws.{entries_on, history_at, of_deck};
ghost use Rattle.vr_trace.specs.Numbering.{with_volume};

/// The merged history has each entry of each volume once.
pub fn merged_has_each_once()
    ensures { (histories : List (List Entry))
        → IsPermutation (merging.numbered_from 0 histories) (merging.merged histories) }
{}

/// A volume's part of the merged history is the history of that volume, where its stamps rise.
pub fn volume_part_is_its_history()
    ensures { (histories : List (List Entry)) (volume : ℕ)
        → merging.IsStamped 0 (history_at histories volume)
        → entries_on volume (merging.merged histories) ≡ history_at histories volume }
{}

/// A deck's part of the merged history is the merge of its parts of the histories.
pub fn deck_part_is_merged()
    ensures { (deck : ℕ) (histories : List (List Entry))
        → of_deck deck (merging.merged histories)
        ≡ merging.merged (map (deck_entries deck) histories) }
{}

/// A deck's part of the merged history is in the order in which the deck asked: entries whose
/// stamps rise, and of which each volume has its own in order, are that part.
pub fn deck_part_is_as_asked()
    ensures { (deck : ℕ) (histories : List (List Entry)) (asked : List merging.Numbered)
        → AreRising asked
        → ((volume : ℕ) → entries_on volume asked
        ≡ deck_entries deck (history_at histories volume))
        → of_deck deck (merging.merged histories) ≡ asked }
{}

/// Where a volume's history grows at its end, a deck's part of the merged history grows by the
/// deck's entries there, if its stamps go on to rise (`part`, and `requests` of the same as requests
/// with their volumes and lines). The part of a deck that has no entry there stays (`others`).
pub fn deck_part_grows()
    ensures part { (deck volume : ℕ) (before after : List (List Entry)) (made : List Entry)
        → Grew before after volume made
        → ((other : ℕ) → merging.IsStamped 0 (history_at before other))
        → AreRising (deck_after deck before volume made)
        → of_deck deck (merging.merged after) ≡ deck_after deck before volume made }
    ensures requests { (deck volume : ℕ) (before after : List (List Entry)) (made : List Entry)
        → Grew before after volume made
        → ((other : ℕ) → merging.IsStamped 0 (history_at before other))
        → AreRising (deck_after deck before volume made)
        → merging.part_of_deck deck (merging.merged after)
        ≡ merging.part_of_deck deck (merging.merged before)
        ++ merging.part_of_deck deck (map (with_volume volume) made) }
    ensures others { (deck volume : ℕ) (before after : List (List Entry)) (made : List Entry)
        → Grew before after volume made
        → deck_entries deck made ≡ []
        → of_deck deck (merging.merged after) ≡ of_deck deck (merging.merged before) }
{}

/// The code of a step is what one of the entries of its decks makes, and none makes more.
pub fn code_is_the_worst()
    ensures { (decks : List KeptDeck) (histories : List (List Entry))
        → IsWorst decks histories (step_code histories decks) }
{}
